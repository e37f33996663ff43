// Records out of a map text.
ghost use Rattle.std.specs.Prelude.{◌≡◌, ◌+◌, ◌^◌, ◌≤◌, length, false, IfOk, IfErr, MatchOption, MatchBool};
ghost use Rattle.cdb_form.specs.Views.Fill.{Fills};
ghost use Rattle.cdb_form.specs.Views.Pairs.{key_value};
ghost use Rattle.cdb_form.specs.Views.Feed.{Repeats};

use crate::feeds::Feeds;
use crate::record::Record;
use crate::text::at_hand::{AtHand, NoneAtHand};
use crate::text::fault::TextFault;
use crate::text::fill::{Filled, fill_lines};
use crate::text::going::Going;
use crate::text::map_parser::Entry;
use crate::text::source::Source;
use crate::width::Width;
use std::alloc::Global;

/// Reads the records of a map text, one after the other.
///
/// Every input is a map text, so `Input`, `Endless` and `NoMemory` are its only faults. It requests
/// one byte at a time, and none after the newline of the record that it gives, nor after the end of
/// the input.
#[derive(Drop)]
pub struct MapReader<R> {
    alloc: Global,
    source: Source<R>,
    going: Going,
}

impl<R: Feeds> MapReader<R> {
    ghost use Rattle.cdb_form.specs.Views.MapReader.{reader_of, taken_of, asks_left, IsGoing, HasEnded, HasFailed, GivesRecord, GivesRecords, GivesEnd, Fails};

    /// A reader of the text that `reader` gives. It may request bytes 2^48 times.
    pub fn new(alloc: Global, reader: R) -> MapReader<R>
        ensures reader { reader_of result ≡ reader }
        ensures taken { taken_of result ≡ 0 }
        ensures asks { asks_left result ≡ 2 ^ 48 }
        ensures going { IsGoing result }
    {
        MapReader::with_bound(alloc, reader, 1 << 48)
    }

    /// A reader of the text that `reader` gives. It may request bytes `asks` times.
    pub fn with_bound(alloc: Global, reader: R, asks: u64) -> MapReader<R>
        requires { asks ≤ 2 ^ 48 }
        ensures reader { reader_of result ≡ reader }
        ensures taken { taken_of result ≡ 0 }
        ensures asks { asks_left result ≡ asks }
        ensures going { IsGoing result }
    {
        MapReader {
            alloc,
            source: Source::new(reader, asks),
            going: Going::On,
        }
    }

    /// Returns the reader, which goes on after the bytes that were read.
    pub fn into_reader(self) -> R
        ensures { result ≡ reader_of self }
    {
        self.source.reader
    }

    /// Returns the next record, or `None` at the end of the input.
    ///
    /// After the end it returns `Ok(None)` for good, and after a fault that fault. If the last line
    /// has no newline, its record comes with the end. `Input` comes if the reader failed, or was
    /// interrupted more than 1000 times in a row; `Endless` if no request is left; `NoMemory` if an
    /// allocation failed.
    pub fn next(&mut self) -> Result<Option<Record>, TextFault>
        ensures gives { IfOk result (λ found. MatchOption found
            (GivesEnd R.feed self.old self.new)
            (λ r. GivesRecord R.feed self.old self.new (key_value r))) }
        ensures fails { IfErr result (Fails R.feed self.old self.new) }
        ensures ended { HasEnded self.old → Repeats (Ok None) self.old self.new result }
        ensures failed { (fault : _) → HasFailed self.old fault
            → Repeats (Err fault) self.old self.new result }
    {
        let mut record = Record::empty(self.alloc);
        Ok(self.read_into(&mut record)?.then_some(record))
    }

    /// Reads the next record over another one, whose memory it takes, and returns true if there is
    /// one. It answers as `next` does, with `false` for `None`; after `false` and after a fault the
    /// record holds anything.
    pub fn read_into(&mut self, into: &mut Record) -> Result<bool, TextFault>
        ensures gives { IfOk result (λ given. MatchBool given
            (GivesRecord R.feed self.old self.new (key_value into.new))
            (GivesEnd R.feed self.old self.new)) }
        ensures fails { IfErr result (Fails R.feed self.old self.new) }
        ensures ended { HasEnded self.old → Repeats (Ok false) self.old self.new result }
        ensures failed { (fault : _) → HasFailed self.old fault
            → Repeats (Err fault) self.old self.new result }
    {
        self.read_buffered::<NoneAtHand>(into)
    }

    /// Does what `read_into` does, and takes bytes at hand without a request. Each counts as a
    /// request.
    pub fn read_buffered<A: AtHand<R>>(&mut self, into: &mut Record) -> Result<bool, TextFault>
        ensures gives { IfOk result (λ given. MatchBool given
            (GivesRecord R.feed self.old self.new (key_value into.new))
            (GivesEnd R.feed self.old self.new)) }
        ensures fails { IfErr result (Fails R.feed self.old self.new) }
        ensures ended { HasEnded self.old → Repeats (Ok false) self.old self.new result }
        ensures failed { (fault : _) → HasFailed self.old fault
            → Repeats (Err fault) self.old self.new result }
    {
        if !self.going.reads_on()? {
            return Ok(false);
        }
        match self.source.map_entry::<A>(into) {
            Ok(Entry::Closed) => Ok(true),
            Ok(Entry::Last) => {
                self.going = Going::AtEnd;
                Ok(true)
            }
            Ok(Entry::End) => {
                self.going = Going::AtEnd;
                Ok(false)
            }
            Err(fault) => {
                self.going = Going::Failed(fault);
                Err(fault)
            }
        }
    }

    /// Puts the records at hand behind the first `held` bytes of a buffer, as long as there is room,
    /// and takes them. Each of their bytes counts as a request.
    #[inline(always)]
    pub fn fill<L: Width, A: AtHand<R>>(&mut self, into: &mut [u8], held: usize) -> Filled
        requires { held ≤ length into.old }
        ensures fills { Fills (GivesRecords R.feed self.old self.new)
            L.WORD L.TOP into.old into.new held result }
        ensures taken { taken_of self.new ≡ taken_of self.old + result.taken }
        ensures stopped { (IsGoing self.old → ⊥)
            → (self.new ≡ self.old) × (into.new ≡ into.old) × (result.count ≡ 0) }
    {
        match self.going {
            Going::On => {
                let filled = fill_lines::<L>(self.source.at_hand::<A>(), into, held);
                self.source.take_at_hand::<A>(filled.taken);
                filled
            }
            Going::AtEnd | Going::Failed(_) => Filled::none(held),
        }
    }
}
