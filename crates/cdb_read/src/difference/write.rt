// The difference of two databases, as an amending text.
ghost use Rattle.cdb_read.specs.Differing.{SaysDifference};

use crate::Reader;
use crate::difference::in_step::mark_changed;
use crate::difference::marks::Marks;
use crate::difference::pass::write_pass;
use crate::difference::stop::Stop;
use cdb_form::{ItemKind, Sink, Width, write_end};
use cdb_store::Store;
use std::alloc::Global;

/// Writes what changed between two databases, the old one and the new one, as an amending text.
///
/// Each key of the old database that has other values in the new one, or none, is removed, in the
/// order of the first records of these keys. Then each key of the new one that has other values in
/// the old one, or none, is put with all its values. If the old one lacks the key, its removal
/// comes first. So the text can be applied again, and to other databases: each key that it names
/// has its new values then. If no key differs, the text is a newline.
///
/// The text is the difference of the two walks if the look-ups of both files give each key its
/// records in the order of the walk. They do in every file that a maker of this format made. For
/// other files the text is still an amending text. Both are first walked in step, so a key is
/// looked up only where the walks differ. Values are compared in pieces. The only memory is 512 KiB
/// and room for the longest key.
///
/// After a `Stop`, whose own database is the old one, a prefix of the text was written.
pub fn write_difference<L: Width, S: Store, T: Store, W: Sink>(
    alloc: Global,
    old: &mut Reader<S, L>,
    new: &mut Reader<T, L>,
    w: &mut W,
) -> Result<(), Stop>
    ensures { SaysDifference L.WORD S.Store T.Store old.old.store old.new.store new.old.store
        new.new.store (W.contents w.old) (W.contents w.new) (W.failed w.new) result }
{
    let mut marks = Marks::new(alloc)?;
    mark_changed(old, new, &mut marks)?;
    write_pass(alloc, old, new, &marks, ItemKind::Remove, w)?;
    match write_pass(alloc, new, old, &marks, ItemKind::Put, w) {
        Ok(()) => {}
        Err(stop) => return Err(stop.flipped()),
    }
    write_end(w)?;
    Ok(())
}
