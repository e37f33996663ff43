// A maker of a database: a store, and the roll of its records.
ghost use Rattle.std.specs.Prelude.{◌≡◌, ◌+◌, ◌*◌, ◌<◌, ◌≤◌, ◌⊎◌, true, false, length, OnOk, OnErr, IfErr};
ghost use Rattle.cdb_form.specs.Format.{whole_size, record_size};
ghost use Rattle.cdb_make.specs.Spans.{gone_of, found_of, AreNone, HaveHash};
ghost use Rattle.cdb_make.specs.Views.Roll.{searched, marks_in, HasRoom, SameRecords};
ghost use Rattle.cdb_store.specs.declared.make_fault.MakeFault.TheVariants.{Writing};

use crate::candidate::Candidate;
use crate::compact::compact_bytes;
use crate::roll::Roll;
use crate::write::append_record;
use cdb_form::{Width, head_size, pair_size};
use cdb_store::{MakeFault, Store};
use std::alloc::Global;

/// The counts of a maker.
#[derive(Clone, Copy)]
pub(crate) struct Counts {
    /// The number of records that the maker holds.
    pub(crate) count: u64,
    /// The number of bytes that the file of the maker's records would have.
    pub(crate) size: u64,
}

/// Makes a database in a store: each record is written as it is put.
///
/// The store holds the records one after another, starting at the end of the head. For each record
/// the maker keeps its key's hash and its place: 8 bytes, or 12 if words are wide. It requests 8 to
/// 12 bytes more for its index, which it writes only once a look needs the index. If a look, or an
/// append to a lazy maker, came before the first record, the maker also keeps a tag of 4 bytes for
/// each key. Once a record is to go, it keeps a mark of one byte for each record. Records that go
/// with a later pass have at most half of all records' bytes and 2 MiB more.
#[derive(Drop)]
pub struct Maker<S: Store, L: Width> {
    pub(crate) alloc: Global,
    pub(crate) store: S,
    pub(crate) roll: Roll<L>,
    /// The greatest size that the file of all records may have, with those that go.
    pub(crate) limit: u64,
    /// True if records that are taken out stay on the store until a pass is due.
    pub(crate) lazy: bool,
    /// True if a fault amid a move left the records torn, or the store returned other bytes than
    /// were written.
    pub(crate) broken: bool,
    /// The maker's counts before the call that broke it.
    pub(crate) counted: Counts,
    ghost inside: { roll.end ≤ S.size store },
    ghost within: { roll.end + 4 * L.WORD * length roll.hashes.items ≤ limit },
    ghost limited: { limit ≤ L.GREATEST },
    ghost told: { counted.size ≤ limit },
    ghost eager: { lazy ≡ false → broken ≡ false → AreNone (gone_of (marks_in roll)) },
    ghost spare: { broken ≡ false → 2 * roll.gone.size ≤ roll.end + 4194304 },
}

impl<S: Store, L: Width> Maker<S, L> {
    ghost use Rattle.cdb_make.specs.Views.Maker.{record_in, IsCandidate, Adds, AddFails, Stays, Compacts, Exchanges, Follows, HasNotFailed, FailsExchanging, HasStoreFailed, SameCounts, TellsCounts, told_count, told_size};

    /// Adds a record after the others.
    ///
    /// `NoMemory`: nothing was written. `Writing`: the store failed. The records are what they
    /// were.
    #[inline(always)]
    pub(crate) fn add(&mut self, candidate: Candidate<'_>) -> Result<(), MakeFault>
        requires candidate { IsCandidate self.old.roll candidate }
        requires fits { self.old.roll.end + whole_size L.WORD (record_in candidate)
            + 4 * L.WORD * length self.old.roll.hashes.items ≤ self.old.limit }
        ensures adds { OnOk result
            (Adds self.old self.new candidate.entry.hash (record_in candidate.entry)) }
        ensures fine { OnOk result (HasNotFailed self.old self.new) }
        ensures stays { OnErr result (Stays self.old self.new) }
        ensures counts { OnErr result (SameCounts self.old self.new) }
        ensures counted { self.new.counted ≡ self.old.counted }
        ensures tagged { self.new.roll.tagged ≡ self.old.roll.tagged }
        ensures fails { IfErr result (AddFails
            (S.written self.old.store) (S.written self.new.store)
            (S.failures self.old.store) (S.failures self.new.store)
            (S.unwritten self.old.store) (S.unwritten self.new.store)
            ((HasRoom self.old.roll → ⊥) ⊎ (S.room self.old.store
            < self.old.roll.end + record_size L.WORD (record_in candidate.entry)))) }
        ensures follows { Follows self.old self.new }
    {
        let (key, value, bytes) = (candidate.key, candidate.value, candidate.bytes);
        self.roll.reserve()?;
        append_record::<S, L>(&mut self.store, self.roll.end, key, value, bytes)?;
        let size = pair_size::<L>() as u64 + key.len() as u64 + value.len() as u64;
        let tagged = self.roll.tagged;
        self.roll
            .push(tagged, candidate.hash, candidate.number, size);
        Ok(())
    }

    /// Removes from the store and the roll the records that go. It takes no memory.
    ///
    /// `Writing`: the store failed, and the maker is broken.
    #[inline(never)]
    pub(crate) fn pass(&mut self) -> Result<(), MakeFault>
        ensures compacts { OnOk result (Compacts self.old self.new) }
        ensures found { OnOk result (AreNone (found_of (marks_in self.new.roll))) }
        ensures end { OnOk result
            (self.new.roll.end + self.old.roll.gone.size ≡ self.old.roll.end) }
        ensures count { OnOk result (length self.new.roll.hashes.items + self.old.roll.gone.count
            ≡ length self.old.roll.hashes.items) }
        ensures clear { OnOk result (self.new.roll.gone.count ≡ 0) }
        ensures clear_size { OnOk result (self.new.roll.gone.size ≡ 0) }
        ensures room { OnOk result (0 < self.old.roll.gone.count → HasRoom self.new.roll) }
        ensures kept { OnErr result (SameRecords self.old.roll self.new.roll) }
        ensures kept_gone { OnErr result (self.new.roll.gone ≡ self.old.roll.gone) }
        ensures counts { OnErr result (SameCounts self.old self.new) }
        ensures tagged { self.new.roll.tagged ≡ self.old.roll.tagged }
        ensures told { self.new.counted.count ≡ told_count self.old }
        ensures told_size { self.new.counted.size ≡ told_size self.old }
        ensures broken { OnErr result (self.new.broken ≡ true) }
        ensures fails { IfErr result (λ f. f ≡ Writing) }
        ensures cause { OnErr result (HasStoreFailed self.old self.new) }
        ensures follows { Follows self.old self.new }
    {
        self.counted = self.counts();
        self.broken = true;
        self.roll.mark_all();
        let (start, first) = (head_size::<L>() as u64, self.roll.first_gone());
        let (places, marks) = (&self.roll.places, &self.roll.marks);
        compact_bytes(&mut self.store, start, places, marks, first, self.roll.end)?;
        self.roll.compact();
        self.broken = false;
        Ok(())
    }

    /// Takes out the records that go and those that a look for the number has found, and adds one
    /// after the others. At least one record is taken out, and there is room for the new one.
    ///
    /// `Writing`: the store failed. If it failed amid the pass, the maker is broken, else those
    /// records are gone.
    #[inline(never)]
    pub(crate) fn exchange(&mut self, candidate: Candidate<'_>) -> Result<(), MakeFault>
        requires candidate { IsCandidate self.old.roll candidate }
        requires have { HaveHash candidate.number (searched self.old.roll)
            (marks_in self.old.roll) }
        requires some { 0 < self.old.roll.gone.count + self.old.roll.found.count }
        requires fits { self.old.roll.end + whole_size L.WORD (record_in candidate)
            + 4 * L.WORD * length self.old.roll.hashes.items
            ≤ self.old.limit + (self.old.roll.gone.size + self.old.roll.found.size)
            + 4 * L.WORD * (self.old.roll.gone.count + self.old.roll.found.count) }
        requires room { self.old.roll.end + record_size L.WORD (record_in candidate)
            ≤ S.room self.old.store + (self.old.roll.gone.size + self.old.roll.found.size) }
        ensures exchanges { OnOk result (Exchanges self.old self.new (record_in candidate.entry)) }
        ensures fails { IfErr result (FailsExchanging self.old self.new) }
        ensures fine { OnOk result (HasNotFailed self.old self.new) }
        ensures counts { OnErr result (TellsCounts self.old self.new) }
        ensures follows { Follows self.old self.new }
    {
        self.counted = self.counts();
        self.broken = true;
        self.roll.take(candidate.number);
        self.pass()?;
        self.add(candidate)
    }
}
