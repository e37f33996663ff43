// A walk over the records of a database.
ghost use Rattle.std.specs.Prelude.{◌≡◌, ℕ, ◌+◌, ◌<◌, ◌≤◌, List, IfOk, IfErr, MatchOption, Ok, Err, None, OnOk, length};
ghost use Rattle.cdb_read.specs.Lookup.{bytes_of};
ghost use Rattle.cdb_store.specs.Reads.{OnlyReads};
ghost use Rattle.cdb_read.specs.Views.Reads.{ValueFails};

use crate::fault::ReadFault;
use crate::reader::Reader;
use crate::span::{Pair, Span};
use crate::walking::state::{RecordArea, Walking};
use cdb_form::Width;
use cdb_store::Store;
use std::alloc::Global;

/// Gives the records of a database, one after the other. Many are read at a time.
#[derive(Drop)]
pub struct Walk<'a, S: Store, L: Width> {
    /// The reader of the database.
    pub(crate) reader: &'a mut Reader<S, L>,
    /// The state of the walk.
    pub(crate) walking: Walking,
}

impl<'a, S: Store, L: Width> Walk<'a, S, L> {
    ghost use Rattle.cdb_read.specs.Views.Walking.{GivesRecord, GivesNoRecord, WalkingFails, HasWalked, HasNoTable, HasNoRecord, GivesRecords};
    ghost use Rattle.cdb_read.specs.declared.fault.ReadFault.TheVariants.{Table, Record, Device};

    /// Returns the spans of the next record, or `None` at the record end.
    #[inline(always)]
    pub fn next(&mut self) -> Result<Option<Pair>, ReadFault>
        ensures same_reader { self.new.reader.ghost_name ≡ self.old.reader.ghost_name }
        ensures reads { OnlyReads S.Store self.old.reader.now.store self.new.reader.now.store }
        ensures head { self.new.reader.now.head ≡ self.old.reader.now.head }
        ensures gives { IfOk result (λ found. MatchOption found
            (GivesNoRecord L.WORD self.old self.new)
            (GivesRecord L.WORD self.old self.new)) }
        ensures fails { IfErr result (WalkingFails L.WORD self.old self.new) }
        // After the end and after a damage nothing is read, and the answer stays.
        ensures ended { HasWalked self.old → (result ≡ Ok None) × (self.new ≡ self.old) }
        ensures no_table { (n : _) → HasNoTable self.old n →
            (result ≡ Err (Table n)) × (self.new ≡ self.old) }
        ensures no_record { (place : _) → HasNoRecord self.old place →
            (result ≡ Err (Record place)) × (self.new ≡ self.old) }
    {
        let rest = match self.walking {
            Walking::AtEnd => return Ok(None),
            Walking::NoTable(n) => return Err(ReadFault::Table(n)),
            Walking::NoRecord(place) => return Err(ReadFault::Record(place)),
            Walking::At(rest) => rest,
        };
        if rest.place == rest.end {
            self.walking = Walking::AtEnd;
            return Ok(None);
        }
        match self.reader.next_record(rest)? {
            Some(pair) => {
                let place = pair.value.place + pair.value.len;
                let end = rest.end;
                self.walking = Walking::At(RecordArea { place, end });
                Ok(Some(pair))
            }
            None => {
                self.walking = Walking::NoRecord(rest.place);
                Err(ReadFault::Record(rest.place))
            }
        }
    }

    /// Reads the next records over the start of `into`, all that are whole there, and returns the
    /// number of their bytes. The walk is then after them, and the bytes of `into` that follow them
    /// hold anything.
    ///
    /// `Ok(0)` means that no record was read and the walk is where it was: it is at its end or at a
    /// damage, or `into` has no room for the next record. `next` reports which.
    ///
    /// `Device` is the only fault: the store failed. The walk is then where it was, so the same
    /// call goes on, and `into` holds anything.
    pub fn records_into(&mut self, into: &mut [u8]) -> Result<usize, ReadFault>
        ensures same_reader { self.new.reader.ghost_name ≡ self.old.reader.ghost_name }
        ensures reads { OnlyReads S.Store self.old.reader.now.store self.new.reader.now.store }
        ensures head { self.new.reader.now.head ≡ self.old.reader.now.head }
        ensures ok { IfOk result (GivesRecords L.WORD self.old self.new into.new) }
        ensures fails { IfErr result (λ f. (f ≡ Device) × (self.new.walking ≡ self.old.walking)
            × (S.failures self.old.reader.now.store < S.failures self.new.reader.now.store)) }
    {
        let Walking::At(rest) = self.walking else {
            return Ok(0);
        };
        let n = self.reader.read_records(rest, into)?;
        self.walking = Walking::At(RecordArea {
            place: rest.place + n as u64,
            end: rest.end,
        });
        Ok(n)
    }

    /// Returns the bytes of a span, as `Reader::value` does. The walk stays where it is.
    pub fn value(&mut self, alloc: Global, span: Span) -> Result<Vec<u8>, ReadFault>
        requires inside { span.place + span.len ≤ S.size self.old.reader.now.store }
        ensures same_reader { self.new.reader.ghost_name ≡ self.old.reader.ghost_name }
        ensures stays { self.new.walking ≡ self.old.walking }
        ensures reads { OnlyReads S.Store self.old.reader.now.store self.new.reader.now.store }
        ensures is { (b : List ℕ) → S.image self.new.reader.now.store b
            → IfOk result (λ v. v.items ≡ bytes_of b span) }
        ensures fails { IfErr result
            (ValueFails S.Store self.old.reader.now.store self.new.reader.now.store) }
    {
        let mut taken = Vec::new(alloc);
        self.value_into(span, &mut taken)?;
        Ok(taken)
    }

    /// Replaces what a vector holds with the bytes of a span. The vector keeps its memory, so a
    /// walk over many records needs none for each. After a fault the vector holds anything. The
    /// walk stays where it is.
    pub fn value_into(&mut self, span: Span, into: &mut Vec<u8>) -> Result<(), ReadFault>
        requires inside { span.place + span.len ≤ S.size self.old.reader.now.store }
        ensures same_reader { self.new.reader.ghost_name ≡ self.old.reader.ghost_name }
        ensures stays { self.new.walking ≡ self.old.walking }
        ensures reads { OnlyReads S.Store self.old.reader.now.store self.new.reader.now.store }
        ensures is { (b : List ℕ) → S.image self.new.reader.now.store b
            → OnOk result (into.new.items ≡ bytes_of b span) }
        ensures long { OnOk result (length into.new.items ≡ span.len) }
        ensures fails { IfErr result
            (ValueFails S.Store self.old.reader.now.store self.new.reader.now.store) }
    {
        self.reader.value_into(span, into)
    }
}
