// A pass over a database beside another.
ghost use Rattle.std.specs.Prelude.{◌≡◌, ◌+◌, ◌<◌, ◌≤◌, ◌&&◌, ℕ, List, Ok, true, length, IfErr, IfOk, OnOk};
ghost use Rattle.cdb_form.specs.Format.{walk_of};
ghost use Rattle.cdb_read.specs.Lookup.{bytes_of};
ghost use Rattle.cdb_read.specs.Differing.{InBoth, OtherLookHas, OwnLookHas, DifferenceStops, StopsBy, is_first_changed, WritesPass, WritesPassPrefix, AgreeUnmarked, is_marked, ReadBoth};

use crate::difference::differing_values::is_first_changed;
use crate::difference::key_changes::write_changes;
use crate::difference::mark_hash::mark_hash;
use crate::difference::marks::Marks;
use crate::difference::records::next_record;
use crate::difference::stop::Stop;
use crate::{Pair, Reader, walk};
use cdb_form::{ItemKind, Sink, Width};
use cdb_store::Store;
use std::alloc::Global;

/// The number of bytes of a value that are compared at a time.
const PIECE: usize = 4096;

/// Returns true if the mark of a record's key is set, and it is the first record of the key, and
/// the key has other values in the other database. Then `key` has the bytes of the key.
fn is_change<L: Width, S: Store, T: Store>(
    own: &mut Reader<S, L>,
    other: &mut Reader<T, L>,
    marks: &Marks,
    pair: Pair,
    key: &mut Vec<u8>,
    mine: &mut [u8],
    theirs: &mut [u8],
) -> Result<bool, Stop>
    requires piece { 0 < length mine.old }
    requires pieces { length theirs.old ≡ length mine.old }
    requires inside { pair.key.place + pair.key.len ≤ S.size own.old.store }
    ensures reads { ReadBoth own.old own.new other.old other.new }
    ensures key { (b : List ℕ) → S.image own.new.store b
        → result ≡ Ok true → key.new.items ≡ bytes_of b pair.key }
    ensures change { (b c : List ℕ) → S.image own.new.store b → T.image other.new.store c
        → IfOk result (λ change. change ≡ (is_marked marks.now.words.items (bytes_of b pair.key)
        && is_first_changed L.WORD b c (bytes_of b pair.key) pair.value.place)) }
    ensures fails { IfErr result (StopsBy S.Store T.Store own.old.store own.new.store
        other.old.store other.new.store (OwnLookHas L.WORD S.Store own.new.store pair.key)
        (OtherLookHas L.WORD S.Store T.Store own.new.store other.new.store pair.key) ⊥) }
{
    let hash = mark_hash(own, pair.key)?;
    if !marks.has(hash) {
        return Ok(false);
    }
    own.value_into(pair.key, key)?;
    is_first_changed(own, other, key, pair.value.place, mine, theirs)
}

/// Writes the changes of each key of a database that has other values in the other one: removals or
/// puts. It does so at the first record of the key. A key whose mark is not set has the same values
/// in both walks, and is not looked up. After a `Stop` the writer holds a prefix of the changes.
pub(crate) fn write_pass<L: Width, S: Store, T: Store, W: Sink>(
    alloc: Global,
    own: &mut Reader<S, L>,
    other: &mut Reader<T, L>,
    marks: &Marks,
    kind: ItemKind,
    w: &mut W,
) -> Result<(), Stop>
    requires agree { InBoth S.Store T.Store own.old.store other.old.store (λ b c.
        AgreeUnmarked marks.now.words.items (walk_of L.WORD b).records (walk_of L.WORD c).records) }
    ensures reads { ReadBoth own.old own.new other.old other.new }
    ensures ok { OnOk result (InBoth S.Store T.Store own.new.store other.new.store
        (λ b c. WritesPass L.WORD kind b c (W.contents w.old) (W.contents w.new))) }
    ensures front { IfErr result (λ stop. InBoth S.Store T.Store own.new.store other.new.store
        (λ b c. WritesPassPrefix L.WORD kind b c (W.contents w.old) (W.contents w.new))) }
    ensures fails { IfErr result (DifferenceStops L.WORD S.Store T.Store own.old.store own.new.store
        other.old.store other.new.store (W.failed w.new)) }
{
    let mut key = Vec::new(alloc);
    let mut mine = [0u8; PIECE];
    let mut theirs = [0u8; PIECE];
    let mut bookmark = walk(own).bookmark();
    while let Some(pair) = next_record(own, &mut bookmark)? {
        if is_change(own, other, marks, pair, &mut key, &mut mine, &mut theirs)? {
            write_changes(own, other, kind, &key, w)?;
        }
    }
    Ok(())
}
