// The values of a key, one after the other.
ghost use Rattle.std.specs.Prelude.{◌≡◌, ℕ, ◌+◌, ◌<◌, ◌≤◌, List, IfOk, IfErr, MatchOption, Ok, Err, None};
ghost use Rattle.cdb_form.specs.Format.{key_hash};
ghost use Rattle.cdb_form.specs.Views.KnownBytes.{Writes};
ghost use Rattle.cdb_read.specs.Lookup.{bytes_of, lookup_of};
ghost use Rattle.cdb_store.specs.Reads.{OnlyReads};
ghost use Rattle.cdb_read.specs.declared.fault.ReadFault.TheVariants.{Output};
ghost use Rattle.cdb_read.specs.Views.Reads.{StoreFails, CopyingFails};
ghost use Rattle.cdb_read.specs.Views.Search.{found_ahead, Meets, MetWithin, ProbeInside, IsSearchInside};

use crate::fault::ReadFault;
use crate::lookup::probe::{Probe, Searching, first_probe};
use crate::lookup::search::{Met, next_met};
use crate::reader::Reader;
use crate::span::Span;
use crate::window::WINDOW;
use cdb_form::{Sink, Width, hash, table_number};
use cdb_store::Store;

/// The number of bytes that are read at a time up to the first value. Most records are shorter.
const SHORT_RECORD: usize = 256;

/// Finds the values of a key.
#[derive(Drop)]
pub struct Finder<'a, S: Store, L: Width> {
    /// The reader that looks up the key.
    pub(crate) reader: &'a mut Reader<S, L>,
    /// The key.
    pub(crate) key: &'a [u8],
    /// The hash of the key.
    pub(crate) hash: u64,
    /// The state of the search.
    pub(crate) searching: Searching,
    /// True if the finder gave a value. The next values are mostly near, so more is read at a time.
    pub(crate) has_given: bool,
    ghost inside: { IsSearchInside L.WORD (S.size reader.now.store) searching },
    ghost hashed: { hash ≡ key_hash key.now },
}

impl<S: Store, L: Width> Reader<S, L> {
    ghost use Rattle.cdb_read.specs.Views.Finder.{left_in};

    /// Returns the state at which the search of a key with this hash begins.
    fn first_probe(&self, key: &[u8], hash: u64) -> Searching
        requires hash { hash ≡ key_hash key.now }
        ensures inside { IsSearchInside L.WORD (S.size self.now.store) result }
        ensures finds { (b : List ℕ) → S.image self.now.store b
            → found_ahead L.WORD b key.now result ≡ lookup_of L.WORD b key.now }
    {
        let table = self.head.pointers[table_number(hash)];
        first_probe::<L>(table, hash, self.store.len())
    }

    /// Searches a key, which has this hash, starting at a probe, up to its next value. `ahead`
    /// bytes are read at a time, or more if more are needed.
    #[inline(always)]
    fn next_met(
        &mut self,
        from: Probe,
        key: &[u8],
        hash: u64,
        ahead: usize,
    ) -> Result<Met, ReadFault>
        requires inside { ProbeInside L.WORD (S.size self.old.store) from }
        requires hash { hash ≡ key_hash key.now }
        ensures meets { IfOk result (λ met.
            Meets L.WORD key.now from met (S.image self.new.store)) }
        ensures within { IfOk result (MetWithin L.WORD (S.size self.new.store) from) }
        ensures reads { OnlyReads S.Store self.old.store self.new.store }
        ensures fails { IfErr result (StoreFails S.Store self.old.store self.new.store) }
    {
        next_met::<S, L>(
            &mut self.store,
            from,
            key,
            hash,
            &mut self.slots,
            &mut self.window,
            ahead,
        )
    }

    /// Searches as `next_met` does, and reads ahead: `SHORT_RECORD` bytes up to a first value, and
    /// then a whole window. If that failed, only what is needed is read, so a bad place among the
    /// other bytes spoils nothing.
    #[inline(always)]
    fn met_from(
        &mut self,
        from: Probe,
        key: &[u8],
        hash: u64,
        has_given: bool,
    ) -> Result<Met, ReadFault>
        requires inside { ProbeInside L.WORD (S.size self.old.store) from }
        requires hash { hash ≡ key_hash key.now }
        ensures meets { IfOk result (λ met.
            Meets L.WORD key.now from met (S.image self.new.store)) }
        ensures within { IfOk result (MetWithin L.WORD (S.size self.new.store) from) }
        ensures reads { OnlyReads S.Store self.old.store self.new.store }
        ensures fails { IfErr result (StoreFails S.Store self.old.store self.new.store) }
    {
        let ahead = if has_given { WINDOW } else { SHORT_RECORD };
        match self.next_met(from, key, hash, ahead) {
            Ok(met) => Ok(met),
            Err(_) => self.next_met(from, key, hash, 0),
        }
    }

    /// Returns a finder of the values of a key. Nothing is read yet.
    pub fn find<'a>(&'a mut self, key: &'a [u8]) -> Finder<'a, S, L>
        ensures same_reader { result.reader.ghost_name ≡ self.entry.ghost_name }
        ensures reader { result.reader.now ≡ self.old }
        ensures key { result.key.now ≡ key.now }
        ensures finds { (b : List ℕ) → S.image self.old.store b
            → left_in L.WORD b result ≡ lookup_of L.WORD b key.now }
    {
        let hash = u64::from(hash(key));
        let searching = self.first_probe(key, hash);
        Finder {
            reader: self,
            key,
            hash,
            searching,
            has_given: false,
        }
    }
}

impl<'a, S: Store, L: Width> Finder<'a, S, L> {
    ghost use Rattle.cdb_read.specs.Views.Finder.{GivesSpan, GivesNone, FindingFails, HasEnded, HasNoTable, HasNoRecord};
    ghost use Rattle.cdb_read.specs.declared.fault.ReadFault.TheVariants.{Table, Record};

    /// Returns the next value. After the first value, more bytes are read at a time than are
    /// needed.
    #[inline(always)]
    pub fn next(&mut self) -> Result<Option<Span>, ReadFault>
        ensures same_reader { self.new.reader.ghost_name ≡ self.old.reader.ghost_name }
        ensures key { self.new.key.now ≡ self.old.key.now }
        ensures reads { OnlyReads S.Store self.old.reader.now.store self.new.reader.now.store }
        ensures gives { IfOk result (λ found. MatchOption found
            (GivesNone L.WORD self.old self.new)
            (GivesSpan L.WORD self.old self.new)) }
        ensures fails { IfErr result (FindingFails L.WORD self.old self.new) }
        // After the end and after a damage nothing is read, and the answer stays.
        ensures ended { HasEnded self.old → (result ≡ Ok None) × (self.new ≡ self.old) }
        ensures no_table { (n : _) → HasNoTable self.old n →
            (result ≡ Err (Table n)) × (self.new ≡ self.old) }
        ensures no_record { (place : _) → HasNoRecord self.old place →
            (result ≡ Err (Record place)) × (self.new ≡ self.old) }
    {
        let probe = match self.searching {
            Searching::AtEnd => return Ok(None),
            Searching::NoTable(n) => return Err(ReadFault::Table(n)),
            Searching::NoRecord(place) => return Err(ReadFault::Record(place)),
            Searching::At(probe) => probe,
        };
        match self
            .reader
            .met_from(probe, self.key, self.hash, self.has_given)?
        {
            Met::End => {
                self.searching = Searching::AtEnd;
                Ok(None)
            }
            Met::Value(span, then) => {
                self.searching = Searching::At(then);
                self.has_given = true;
                Ok(Some(span))
            }
            Met::Broken(place) => {
                self.searching = Searching::NoRecord(place);
                Err(ReadFault::Record(place))
            }
        }
    }

    /// Writes the bytes of a span, as `Reader::copy` does. The look-up stays where it is.
    pub fn copy<W: Sink>(&mut self, span: Span, w: &mut W) -> Result<(), ReadFault>
        requires inside { span.place + span.len ≤ S.size self.old.reader.now.store }
        ensures same_reader { self.new.reader.ghost_name ≡ self.old.reader.ghost_name }
        ensures key { self.new.key.now ≡ self.old.key.now }
        ensures stays { self.new.searching ≡ self.old.searching }
        ensures reads { OnlyReads S.Store self.old.reader.now.store self.new.reader.now.store }
        ensures copies { (b : List ℕ) → S.image self.new.reader.now.store b
            → Writes result (W.contents w.old) (W.contents w.new) (bytes_of b span) }
        ensures fails { IfErr result
            (CopyingFails S.Store self.old.reader.now.store self.new.reader.now.store) }
        ensures failed { IfErr result (λ fault. fault ≡ Output → W.failed w.new) }
    {
        self.reader.copy(span, w)
    }
}
