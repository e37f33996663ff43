// Two walks in step, which mark the keys whose values differ.
ghost use Rattle.std.specs.Prelude.{◌≡◌, ◌+◌, ◌<◌, ◌≤◌, ℕ, List, true, IfErr, IfOk, MatchOption, OnOk};
ghost use Rattle.cdb_form.specs.Format.{walk_of};
ghost use Rattle.cdb_store.specs.Reads.{OnlyReads};
ghost use Rattle.cdb_read.specs.Lookup.{bytes_of};
ghost use Rattle.cdb_read.specs.Views.Reads.{StoreFails};
ghost use Rattle.cdb_read.specs.Differing.{InBoth, DifferenceStops, AgreeUnmarked, AllMarked, AreInStep, LeftStops, OtherMarkFails, OtherNextStops, bytes_ahead, Grows, is_marked, GivesNext, GivesNoNext, left_from, ReadBoth};

use crate::difference::guide::{Advance, Guide};
use crate::difference::mark_hash::mark_hash;
use crate::difference::marks::Marks;
use crate::difference::records::next_record;
use crate::difference::stop::Stop;
use crate::{Bookmark, Pair, ReadFault, Reader, Span, walk};
use cdb_form::Width;
use cdb_store::Store;

/// The bookmarks of two walks.
#[derive(Clone, Copy)]
struct Places {
    /// The bookmark of the own walk.
    own: Bookmark,
    /// The bookmark of the other walk.
    other: Bookmark,
}

/// Returns the next record of the other walk, and moves the bookmark after it.
fn next_other<L: Width, T: Store>(
    other: &mut Reader<T, L>,
    bookmark: &mut Bookmark,
) -> Result<Option<Pair>, Stop>
    ensures reads { OnlyReads T.Store other.old.store other.new.store }
    ensures gives { IfOk result (λ found. MatchOption found
        (GivesNoNext L.WORD T.Store other.new.store bookmark.old)
        (GivesNext L.WORD T.Store other.new.store bookmark.old bookmark.new)) }
    ensures fails { IfErr result
        (OtherNextStops L.WORD T.Store other.old.store other.new.store bookmark.old) }
{
    match next_record(other, bookmark) {
        Ok(found) => Ok(found),
        Err(fault) => Err(Stop::Other(fault)),
    }
}

/// Sets the mark of a key.
#[inline(always)]
fn mark<L: Width, S: Store>(
    reader: &mut Reader<S, L>,
    key: Span,
    marks: &mut Marks,
) -> Result<(), ReadFault>
    requires inside { key.place + key.len ≤ S.size reader.old.store }
    ensures reads { OnlyReads S.Store reader.old.store reader.new.store }
    ensures sets { (b : List ℕ) → S.image reader.new.store b
        → OnOk result (is_marked marks.new.words.items (bytes_of b key) ≡ true) }
    ensures grows { Grows marks.old.words.items marks.new.words.items }
    ensures fails { IfErr result (StoreFails S.Store reader.old.store reader.new.store) }
{
    let hash = mark_hash(reader, key)?;
    marks.set(hash);
    Ok(())
}

/// Sets the mark of a key of the other database.
#[inline(always)]
fn mark_other<L: Width, T: Store>(
    other: &mut Reader<T, L>,
    key: Span,
    marks: &mut Marks,
) -> Result<(), Stop>
    requires inside { key.place + key.len ≤ T.size other.old.store }
    ensures reads { OnlyReads T.Store other.old.store other.new.store }
    ensures sets { (c : List ℕ) → T.image other.new.store c
        → OnOk result (is_marked marks.new.words.items (bytes_of c key) ≡ true) }
    ensures grows { Grows marks.old.words.items marks.new.words.items }
    ensures fails { IfErr result (OtherMarkFails T.Store other.old.store other.new.store) }
{
    match mark(other, key, marks) {
        Ok(()) => Ok(()),
        Err(fault) => Err(Stop::Other(fault)),
    }
}

/// Sets the mark of each key that is left of a walk.
fn mark_left<L: Width, S: Store>(
    reader: &mut Reader<S, L>,
    from: Bookmark,
    marks: &mut Marks,
) -> Result<(), ReadFault>
    ensures reads { OnlyReads S.Store reader.old.store reader.new.store }
    ensures sets { (b : List ℕ) → S.image reader.new.store b
        → OnOk result (AllMarked marks.new.words.items (left_from L.WORD b from).records) }
    ensures grows { Grows marks.old.words.items marks.new.words.items }
    ensures fails { IfErr result
        (LeftStops L.WORD S.Store reader.old.store reader.new.store from) }
{
    let mut bookmark = from;
    while let Some(pair) = next_record(reader, &mut bookmark)? {
        mark(reader, pair.key, marks)?;
    }
    Ok(())
}

/// Goes on in one walk or in both. Unless both have the same record, each that goes on sets the
/// mark of its key. Returns true if both had a record.
fn step<L: Width, S: Store, T: Store>(
    own: &mut Reader<S, L>,
    other: &mut Reader<T, L>,
    at: &mut Places,
    guide: &mut Guide,
    marks: &mut Marks,
) -> Result<bool, Stop>
    requires in_step { AreInStep L.WORD S.Store T.Store own.old.store other.old.store
        marks.old.words.items at.old }
    ensures reads { ReadBoth own.old own.new other.old other.new }
    ensures in_step { OnOk result (AreInStep L.WORD S.Store T.Store own.new.store other.new.store
        marks.new.words.items at.new) }
    ensures goes_on { IfOk result (λ went. went ≡ true → bytes_ahead at.new < bytes_ahead at.old) }
    ensures fails { IfErr result (DifferenceStops L.WORD S.Store T.Store own.old.store own.new.store
        other.old.store other.new.store ⊥) }
{
    let mut then = at.own;
    let Some(mine) = next_record(own, &mut then)? else {
        return Ok(false);
    };
    let mut after = at.other;
    let Some(theirs) = next_other(other, &mut after)? else {
        return Ok(false);
    };
    match guide.advance(own, mine, other, theirs)? {
        Advance::Same => {
            at.own = then;
            at.other = after;
        }
        Advance::Own => {
            mark(own, mine.key, marks)?;
            at.own = then;
        }
        Advance::Other => {
            mark_other(other, theirs.key, marks)?;
            at.other = after;
        }
        Advance::Each => {
            mark(own, mine.key, marks)?;
            mark_other(other, theirs.key, marks)?;
            at.own = then;
            at.other = after;
        }
    }
    Ok(true)
}

/// Sets the mark of each key whose values in the walks of two databases differ. Both are walked in
/// step, so few other marks are set.
pub(crate) fn mark_changed<L: Width, S: Store, T: Store>(
    own: &mut Reader<S, L>,
    other: &mut Reader<T, L>,
    marks: &mut Marks,
) -> Result<(), Stop>
    ensures reads { ReadBoth own.old own.new other.old other.new }
    ensures agree { OnOk result (InBoth S.Store T.Store own.new.store other.new.store (λ b c.
        AgreeUnmarked marks.new.words.items (walk_of L.WORD b).records (walk_of L.WORD c).records)) }
    ensures fails { IfErr result (DifferenceStops L.WORD S.Store T.Store own.old.store own.new.store
        other.old.store other.new.store ⊥) }
{
    let mut at = Places {
        own: walk(own).bookmark(),
        other: walk(other).bookmark(),
    };
    let mut guide = Guide::new();
    while step(own, other, &mut at, &mut guide, marks)? {}
    mark_left(own, at.own, marks)?;
    match mark_left(other, at.other, marks) {
        Ok(()) => Ok(()),
        Err(fault) => Err(Stop::Other(fault)),
    }
}
