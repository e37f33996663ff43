// A maker is made, finishes its file, and gives its store back.
ghost use Rattle.std.specs.Prelude.{◌≡◌, ◌+◌, ◌≤◌, ◌<◌, true, false, List, IfOk, IfErr, OnOk};
ghost use Rattle.cdb_form.specs.Format.{head_size, KeyValue};
ghost use Rattle.cdb_make.specs.Unfinished.{IsUnfinished};
ghost use Rattle.cdb_make.specs.Views.Maker.{MakingFault};

use crate::finish::file::finish;
use crate::maker::{Counts, Maker};
use crate::roll::Roll;
use cdb_form::{GREATEST_HEAD, Width, head_size};
use cdb_store::{MakeFault, Store};
use std::alloc::Global;

/// A store and the reason why it has no maker.
#[derive(Drop)]
pub struct Refused<S> {
    /// The store, whatever it holds now.
    pub store: S,
    /// `NoMemory` or `Writing`.
    pub fault: MakeFault,
}

/// A maker and the reason why its file was not finished.
#[derive(Drop)]
pub struct Unfinished<S: Store, L: Width> {
    /// The maker, which takes more calls unless it is broken.
    pub maker: Maker<S, L>,
    /// `Broken`, `NoMemory` or `Writing`.
    pub fault: MakeFault,
}

impl<S: Drop> From<Refused<S>> for MakeFault {
    ghost from_gives = { λ r f. f ≡ r.fault };

    /// Drops the store.
    fn from(refused: Refused<S>) -> MakeFault {
        refused.fault
    }
}

impl<S: Store + Drop, L: Width> From<Unfinished<S, L>> for MakeFault {
    ghost from_gives = { λ u f. f ≡ u.fault };

    /// Drops the maker.
    fn from(unfinished: Unfinished<S, L>) -> MakeFault {
        unfinished.fault
    }
}

/// Leaves a head of all ones in a store and nothing else, and flushes it. All memory is taken
/// first.
///
/// So no byte of a record reaches the medium that holds the bytes before the head does.
fn emptied<S: Store, L: Width>(store: &mut S) -> Result<(), MakeFault>
    ensures head { OnOk result (IsUnfinished L.WORD (S.image store.new)) }
    ensures settled { OnOk result (S.settled store.new) }
    ensures size { OnOk result (S.size store.new ≡ head_size L.WORD) }
    ensures written { OnOk result (S.written store.new ≡ S.written store.old + head_size L.WORD) }
    ensures room { S.room store.old ≤ S.room store.new }
    ensures failures { S.failures store.old ≤ S.failures store.new }
    ensures fine { OnOk result (S.failures store.new ≡ S.failures store.old) }
    ensures fails { IfErr result
        (MakingFault S.image S.size S.written S.failures store.old store.new) }
{
    let head = [0xff; GREATEST_HEAD];
    let len = head_size::<L>();
    store.reserve(len as u64)?;
    store.cut(0)?;
    store.write_at(0, &head[..len])?;
    store.flush()?;
    Ok(())
}

impl<S: Store, L: Width> Maker<S, L> {
    ghost use Rattle.cdb_make.specs.Views.Maker.{Holds, Begins, is_lazy, IsUsable, IsFile, made_size, FinishWrites, PutsHeadLast, ComesFrom, SameCounts, FailsFinishing, CompactsAll, FailsCompactingAll, Follows, HasNotFailed};
    ghost use Rattle.cdb_make.specs.Views.Chains.{HasNoRoom};

    /// Returns a maker as `new` does, or as the function `lazy` does if `lazy` is true.
    fn begun(alloc: Global, store: S, limit: u64, lazy: bool) -> Result<Maker<S, L>, Refused<S>>
        requires head { head_size L.WORD ≤ limit }
        requires words { limit ≤ L.GREATEST }
        ensures lazy { IfOk result (λ m. is_lazy m ≡ lazy) }
        ensures begins { IfOk result (Begins store limit) }
        ensures fails { IfErr result (λ r.
            MakingFault S.image S.size S.written S.failures store r.store r.fault) }
    {
        let mut store = store;
        match emptied::<S, L>(&mut store) {
            Ok(()) => Ok(Maker {
                alloc,
                store,
                roll: Roll::new(alloc),
                limit,
                lazy,
                broken: false,
                counted: Counts { count: 0, size: 0 },
            }),
            Err(fault) => Err(Refused { store, fault }),
        }
    }

    /// Returns a maker of a file of at most `limit` bytes in a store, which is emptied. The maker
    /// takes records out immediately.
    ///
    /// Until the finish the head is all ones, and its tables lie outside of any file: so a file
    /// that is not finished is damaged. The store is flushed after this head, so no byte of a
    /// record is on the disk before it.
    ///
    /// If it fails, the store is returned: after `NoMemory` it is as it was, and after `Writing` it
    /// failed, and may hold anything.
    pub fn new(alloc: Global, store: S, limit: u64) -> Result<Maker<S, L>, Refused<S>>
        requires head { head_size L.WORD ≤ limit }
        requires words { limit ≤ L.GREATEST }
        ensures lazy { IfOk result (λ m. is_lazy m ≡ false) }
        ensures begins { IfOk result (Begins store limit) }
        ensures fails { IfErr result (λ r.
            MakingFault S.image S.size S.written S.failures store r.store r.fault) }
    {
        Maker::begun(alloc, store, limit, false)
    }

    /// Returns a maker as `new` does, but one that takes records out later: it marks them, and no
    /// look finds them. Their bytes stay on the store until one pass closes all gaps. `finish`
    /// makes such a pass first.
    ///
    /// So however many records go, the others move a few times at most.
    pub fn lazy(alloc: Global, store: S, limit: u64) -> Result<Maker<S, L>, Refused<S>>
        requires head { head_size L.WORD ≤ limit }
        requires words { limit ≤ L.GREATEST }
        ensures lazy { IfOk result (λ m. is_lazy m ≡ true) }
        ensures begins { IfOk result (Begins store limit) }
        ensures fails { IfErr result (λ r.
            MakingFault S.image S.size S.written S.failures store r.store r.fault) }
    {
        Maker::begun(alloc, store, limit, true)
    }

    /// Returns the maker's store, as it is.
    pub fn into_store(self) -> S
        ensures { result ≡ self.store }
    {
        let Maker {
            alloc: _,
            store,
            roll,
            limit: _,
            lazy: _,
            broken: _,
            counted: _,
        } = self;
        drop(roll);
        store
    }

    /// Takes out the records that go, and frees the memory of the chains, so that the tables can
    /// have it.
    fn compact_for_finish(&mut self) -> Result<(), MakeFault>
        ensures compacts_all { OnOk result (CompactsAll self.old self.new) }
        ensures fails { IfErr result (FailsCompactingAll self.old self.new) }
        ensures follows { Follows self.old self.new }
        ensures counts { SameCounts self.old self.new }
        ensures fine { OnOk result (HasNotFailed self.old self.new) }
        ensures freed { OnOk result (HasNoRoom self.new.roll.chains) }
    {
        self.compact_all()?;
        self.roll.unchain(self.alloc);
        Ok(())
    }

    /// Takes out the records that go, writes the tables and the head of the others, and flushes the
    /// store.
    fn finish_store(&mut self) -> Result<(), MakeFault>
        ensures whole { OnOk result (IsUsable self.old) }
        ensures file { (rs : List KeyValue) → Holds self.old rs
            → OnOk result (IsFile L.WORD rs (S.image self.new.store)) }
        ensures size { OnOk result (S.size self.new.store ≡ made_size self.old) }
        ensures written { OnOk result (FinishWrites self.old self.new.store) }
        ensures settled { OnOk result (S.settled self.new.store) }
        ensures head_last { PutsHeadLast self.new (S.image self.old.store) (S.image self.new.store) }
        ensures comes { ComesFrom (S.image self.old.store) (S.image self.new.store) }
        ensures failures { S.failures self.old.store ≤ S.failures self.new.store }
        ensures counts { SameCounts self.old self.new }
        ensures lazy { is_lazy self.new ≡ is_lazy self.old }
        ensures fails { IfErr result (FailsFinishing self.old self.new) }
    {
        self.compact_for_finish()?;
        finish::<S, L>(self.alloc, &mut self.store, &self.roll)
    }

    /// Finishes the file of the maker's records, and returns the store. The store holds that file
    /// alone, and has forwarded it to the medium that holds its bytes. Records that go are taken
    /// out first, by one pass.
    ///
    /// All memory is taken before a byte of the tables is written, and the head is written last. If
    /// the finish fails, the maker is returned. `NoMemory`: a pass was made if records were to go,
    /// and no more. `Writing`: the store failed; amid the pass that breaks the maker, else the
    /// maker holds the records that it held. `Broken`: an earlier call broke the maker.
    pub fn finish(mut self) -> Result<S, Unfinished<S, L>>
        ensures whole { IfOk result (λ _. IsUsable self) }
        ensures file { (rs : List KeyValue) → Holds self rs
            → IfOk result (λ s. IsFile L.WORD rs (S.image s)) }
        ensures size { IfOk result (λ s. S.size s ≡ made_size self) }
        ensures written { IfOk result (λ s. FinishWrites self s) }
        ensures settled { IfOk result S.settled }
        ensures comes { IfOk result (λ s. ComesFrom (S.image self.store) (S.image s)) }
        ensures failures { IfOk result (λ s. S.failures self.store ≤ S.failures s) }
        ensures fails { IfErr result (λ u. FailsFinishing self u.maker u.fault) }
        ensures counts { IfErr result (λ u. SameCounts self u.maker) }
        ensures lazy { IfErr result (λ u. is_lazy u.maker ≡ is_lazy self) }
        // In each image the head is an old one, or all tables are stored.
        ensures head_last { IfErr result (λ u.
            PutsHeadLast u.maker (S.image self.store) (S.image u.maker.store)) }
        ensures fails_comes { IfErr result (λ u.
            ComesFrom (S.image self.store) (S.image u.maker.store)) }
        ensures fails_failures { IfErr result (λ u.
            S.failures self.store ≤ S.failures u.maker.store) }
    {
        match self.finish_store() {
            Ok(()) => Ok(self.into_store()),
            Err(fault) => Err(Unfinished { maker: self, fault }),
        }
    }
}
