// The start of a walk, and its next records.
ghost use Rattle.std.specs.Prelude.{◌≡◌, ℕ, ◌+◌, ◌<◌, ◌≤◌, List, IfOk, IfErr, OnOk, length};
ghost use Rattle.cdb_form.specs.Format.{walk_of, head_size};
ghost use Rattle.cdb_read.specs.Lookup.{bytes_of};
ghost use Rattle.cdb_store.specs.Reads.{OnlyReads};
ghost use Rattle.cdb_read.specs.Views.Reads.{StoreFails, ValueFails};
ghost use Rattle.cdb_read.specs.Views.Walking.{walk_ahead, next_place, StandsAt, StandsWithin, left_of, place_of};

use crate::fault::ReadFault;
use crate::reader::Reader;
use crate::span::{Pair, Span};
use crate::walking::record_at::record_at;
use crate::walking::records::Walk;
use crate::walking::state::{RecordArea, Walking};
use cdb_form::{Width, head_size};
use cdb_store::Store;

impl<S: Store, L: Width> Reader<S, L> {
    /// Returns the state at which a walk begins.
    fn first_walking(&self) -> Walking
        ensures walks { (b : List ℕ) → S.image self.now.store b
            → walk_ahead L.WORD b result ≡ walk_of L.WORD b }
        ensures first { next_place L.WORD result ≡ head_size L.WORD }
    {
        let place = head_size::<L>() as u64;
        let end = self.head.record_end::<L>();
        if end < place {
            return Walking::NoTable(self.head.first_table_at(end) as u64);
        }
        Walking::At(RecordArea { place, end })
    }

    /// Returns the spans of the next record of a walk, if it is whole.
    pub(crate) fn next_record(&mut self, rest: RecordArea) -> Result<Option<Pair>, ReadFault>
        requires before { rest.place < rest.end }
        ensures stands { IfOk result (λ found.
            StandsAt L.WORD rest found (S.image self.new.store)) }
        ensures within { IfOk result (StandsWithin L.WORD rest (S.size self.new.store)) }
        ensures head { self.new.head ≡ self.old.head }
        ensures reads { OnlyReads S.Store self.old.store self.new.store }
        ensures fails { IfErr result (StoreFails S.Store self.old.store self.new.store) }
    {
        record_at::<S, L>(&mut self.store, &mut self.window, rest)
    }

    /// Replaces what a vector holds with the bytes of a span, which lies inside the file. The
    /// vector keeps its memory. Bytes that were read ahead are not read again. After a fault the
    /// vector holds anything.
    pub fn value_into(&mut self, span: Span, into: &mut Vec<u8>) -> Result<(), ReadFault>
        requires inside { span.place + span.len ≤ S.size self.old.store }
        ensures reads { OnlyReads S.Store self.old.store self.new.store }
        ensures is { (b : List ℕ) → S.image self.new.store b
            → OnOk result (into.new.items ≡ bytes_of b span) }
        ensures long { OnOk result (length into.new.items ≡ span.len) }
        ensures fails { IfErr result (ValueFails S.Store self.old.store self.new.store) }
    {
        if self.window.covers(span.place, span.len) {
            into.clear();
            into.extend_from_slice(self.window.shown(span.place, span.len as usize))?;
            return Ok(());
        }
        self.take_into(span, into)
    }
}

/// Returns a walk over the records of a database. Nothing is read yet.
pub fn walk<L: Width, S: Store>(reader: &mut Reader<S, L>) -> Walk<'_, S, L>
    ensures same_reader { result.reader.ghost_name ≡ reader.entry.ghost_name }
    ensures reader { result.reader.now ≡ reader.old }
    ensures walks { (b : List ℕ) → S.image reader.old.store b
        → left_of L.WORD b result ≡ walk_of L.WORD b }
    ensures first { place_of L.WORD result ≡ head_size L.WORD }
{
    let walking = reader.first_walking();
    Walk { reader, walking }
}
