// A record whose value comes in pieces is written after the others.
ghost use Rattle.std.specs.Prelude.{◌≡◌, ℕ, ◌+◌, ◌*◌, ◌<◌, ◌≤◌, ◌⊎◌, List, [], ◌++◌, true, length, Ok, None, IfOk, IfErr, IfSome, OnOk, OnErr};
ghost use Rattle.cdb_form.specs.declared.mode.Mode.TheVariants.{Add};
ghost use Rattle.cdb_form.specs.Format.{record_of};
ghost use Rattle.cdb_make.specs.declared.answer.Put.TheVariants.{Added};

use crate::maker::Maker;
use crate::tags::number_of;
use crate::write::begin_record;
use cdb_form::{Width, hash, pair_size};
use cdb_store::{MakeFault, Store};

/// A record that is being written after the others that a maker notes, piece after piece.
///
/// If it is let go, the maker holds the records that it held: the bytes that were written belong to
/// none.
#[derive(Drop)]
pub struct LongRecord {
    /// The hash of the record's key.
    hash: u32,
    /// The second hash of the record's key, if the records are tagged.
    number: u32,
    /// The place after what is written so far.
    end: u64,
    /// The place after the record's last byte.
    last: u64,
    ghost ends: { end ≤ last },
}

impl LongRecord {
    /// Returns the number of bytes of the value that are not written yet.
    pub fn left(&self) -> u64
        ensures { self.now.end + result ≡ self.now.last }
    {
        self.last - self.end
    }
}

impl<S: Store, L: Width> Maker<S, L> {
    ghost use Rattle.cdb_make.specs.Views.Maker.{Puts, Follows, HasGone, HasNotFailed, MakerKeepsAll, SameCounts};
    ghost use Rattle.cdb_make.specs.Views.Appending.{full_size};
    ghost use Rattle.cdb_make.specs.Views.Long.{FailsLong, IsPart, long_size};

    /// Begins to add a record, with a value of `vlen` bytes, after the others: its header and its key
    /// are written. `None`, and nothing is done, if the maker is broken, some records go, or the file
    /// would pass the limit: `put` sees to these, and wants the value whole.
    ///
    /// The store makes room for what is written, so a length alone costs nothing.
    ///
    /// `NoMemory`: an allocation failed. `Writing`: the store failed. Both leave the records as they
    /// were.
    pub fn begin_long(&mut self, key: &[u8], vlen: u64) -> Result<Option<LongRecord>, MakeFault>
        ensures begins { IfOk result (λ long. IfSome long
            (IsPart self.old self.new key.now vlen [])) }
        ensures none { result ≡ Ok None → self.new ≡ self.old }
        ensures why { result ≡ Ok None → (self.old.broken ≡ true) ⊎ (HasGone self.old
            ⊎ (self.old.limit < full_size self.old + (long_size L.WORD key.now vlen + 4 * L.WORD))) }
        ensures fails { IfErr result (FailsLong self.old self.new) }
        ensures keeps { MakerKeepsAll self.old self.new }
        ensures follows { Follows self.old self.new }
        ensures fine { OnOk result (HasNotFailed self.old self.new) }
        ensures counts { OnErr result (SameCounts self.old self.new) }
    {
        if self.broken || self.roll.gone.count > 0 {
            return Ok(None);
        }
        if !self.fits(self.full_size(), key, vlen) {
            return Ok(None);
        }
        let hash = hash(key);
        let number = number_of(self.roll.tagged, hash, key);
        let start = self.roll.end;
        let end = start + pair_size::<L>() as u64 + key.len() as u64;
        let last = end + vlen;
        self.roll.reserve()?;
        begin_record::<S, L>(&mut self.store, start, key, vlen, b"")?;
        Ok(Some(LongRecord {
            hash,
            number,
            end,
            last,
        }))
    }

    /// Writes the next bytes of the value of a record that was begun.
    ///
    /// `NoMemory`: the store has no room for them. `Writing`: it failed. The records are what they
    /// were before the record was begun, and it can only be let go.
    pub fn write_long(&mut self, long: &mut LongRecord, piece: &[u8]) -> Result<(), MakeFault>
        requires room { long.old.end + length piece.now ≤ long.old.last }
        requires begun { (first : _) × (key : List ℕ) × (vlen : ℕ) × (got : List ℕ)
            × IsPart first self.old key vlen got long.old }
        ensures ok { (first : _) (key : List ℕ) (vlen : ℕ) (got : List ℕ)
            → IsPart first self.old key vlen got long.old
            → OnOk result (IsPart first self.new key vlen (got ++ piece.now) long.new) }
        ensures fails { (first : _) (key : List ℕ) (vlen : ℕ) (got : List ℕ)
            → IsPart first self.old key vlen got long.old
            → IfErr result (FailsLong first self.new) }
        ensures keeps { MakerKeepsAll self.old self.new }
        ensures follows { Follows self.old self.new }
        ensures fine { OnOk result (HasNotFailed self.old self.new) }
        ensures counts { SameCounts self.old self.new }
    {
        self.store.write_at(long.end, piece)?;
        long.end += piece.len() as u64;
        Ok(())
    }

    /// Notes a record that was begun, whose value is whole: so it is put. It takes no memory.
    pub fn end_long(&mut self, long: LongRecord)
        requires whole { long.end ≡ long.last }
        requires begun { (first : _) × (key : List ℕ) × (vlen : ℕ) × (got : List ℕ)
            × IsPart first self.old key vlen got long }
        ensures puts { (first : _) (key : List ℕ) (vlen : ℕ) (got : List ℕ)
            → IsPart first self.old key vlen got long
            → Puts first self.new Add (record_of key got) Added }
        ensures keeps { MakerKeepsAll self.old self.new }
        ensures follows { Follows self.old self.new }
        ensures fine { HasNotFailed self.old self.new }
    {
        let size = long.end - self.roll.end;
        let tagged = self.roll.tagged;
        self.note(tagged, long.hash, long.number, size);
    }
}
