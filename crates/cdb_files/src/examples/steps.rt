// A caller of cdb_make and cdb_read: a database is built in any store, whatever is refused.
ghost use Rattle.std.specs.Prelude.{◌≡◌, ◌≤◌, false, List, All, IfOk, IfErr};
ghost use Rattle.cdb_form.specs.Format.{file_size, head_size, KeyValue, IsRecord};
ghost use Rattle.cdb_make.specs.Views.Maker.{IsFile, WhereHonest, is_lazy};
ghost use Rattle.cdb_files.specs.Callers.{Builds, BuildingFails, Finds, IsUnbuilt, LeavesOf, HoldsWhole, left_by};
ghost use Rattle.cdb_files.specs.declared.examples.ask.AskFault.TheVariants.{Make};

use crate::examples::ask::AskFault;
use crate::examples::edits::{Edit, make_edit};
use crate::examples::read::write_values;
use cdb_form::{Sink, Width};
use cdb_make::{MakeFault, Maker};
use cdb_read::{Reader, Unread};
use cdb_store::Store;
use std::alloc::Global;

/// A step of building a database.
#[derive(Debug, Drop)]
pub enum Step {
    /// The records of the database are changed.
    Edit(Edit),
    /// The database is finished. If this succeeds, the steps after it are not made.
    Finish,
}

/// A database that was built.
#[derive(Drop)]
pub struct Built<S> {
    /// The store that holds the database.
    pub store: S,
    /// The fault of each step that was made, if it was refused. A finish that succeeded has no
    /// entry.
    pub faults: Vec<Option<MakeFault>>,
}

/// A database that was not built, or whose values of a key were not written.
#[derive(Drop)]
pub struct Unbuilt<S> {
    /// The store, with the part of the database that was made.
    pub store: S,
    /// The fault of each step that was made, if it was refused. The last step may be left out if
    /// memory was refused.
    pub faults: Vec<Option<MakeFault>>,
    /// The reason why it was not built, or its values were not written.
    pub fault: AskFault,
}

/// A maker after a step, or its store.
#[derive(Drop)]
enum Stepped<S: Store, L: Width> {
    /// The maker goes on, with the fault of the step, if it was refused.
    GoesOn(Maker<S, L>, Option<MakeFault>),
    /// The store with the finished file.
    Finished(S),
}

/// Makes a step with a maker that takes records out immediately.
fn make_step<S: Store, L: Width>(maker: Maker<S, L>, step: &Step) -> Stepped<S, L>
    requires { is_lazy maker ≡ false }
    ensures { (rs : List KeyValue) → HoldsWhole maker rs → LeavesOf maker rs step.now result }
{
    let mut maker = maker;
    match step {
        Step::Edit(change) => {
            let fault = make_edit(&mut maker, change);
            Stepped::GoesOn(maker, fault)
        }
        Step::Finish => match maker.finish() {
            Ok(store) => Stepped::Finished(store),
            Err(unfinished) => Stepped::GoesOn(unfinished.maker, Some(unfinished.fault)),
        },
    }
}

/// A database that the fault of a maker left.
fn left_unbuilt<S>(store: S, faults: Vec<Option<MakeFault>>, fault: MakeFault) -> Unbuilt<S>
    ensures { result ≡ record { store = store; faults = faults; fault = Make fault } }
{
    Unbuilt {
        store,
        faults,
        fault: AskFault::Make(fault),
    }
}

/// Builds a database of at most `limit` bytes in a store by some steps in turn, and then finishes
/// it, unless one of them did. After a step that is refused the others are made all the same.
///
/// Each step that is made has one answer, which is noted. It fails by `Make`: with `NoMemory` if an
/// allocation failed; with `Writing` if the store did before the first step or in the last finish;
/// with `Broken` if a step broke the maker.
pub fn build<S: Store + Drop, L: Width>(
    alloc: Global,
    store: S,
    limit: u64,
    steps: &[Step],
) -> Result<Built<S>, Unbuilt<S>>
    requires head { head_size L.WORD ≤ limit }
    requires words { limit ≤ L.GREATEST }
    ensures builds { IfOk result (λ m. WhereHonest (S.image m.store) (Builds L.WORD limit steps.now
        m.faults.items (S.failures store) (S.failures m.store))) }
    ensures file { IfOk result (λ m.
        IsFile L.WORD (left_by L.WORD limit steps.now m.faults.items) (S.image m.store)) }
    ensures fits { IfOk result (λ m. WhereHonest (S.image m.store)
        (All IsRecord (left_by L.WORD limit steps.now m.faults.items)
        × (file_size L.WORD (left_by L.WORD limit steps.now m.faults.items) ≤ L.GREATEST))) }
    ensures size { IfOk result (λ m. head_size L.WORD ≤ S.size m.store) }
    ensures fails { IfErr result (IsUnbuilt S.Store L.WORD limit store steps.now) }
{
    let mut faults = match Vec::with_capacity(alloc, steps.len()) {
        Ok(faults) => faults,
        Err(_) => return Err(left_unbuilt(store, Vec::new(alloc), MakeFault::NoMemory)),
    };
    let mut maker = match Maker::<S, L>::new(alloc, store, limit) {
        Ok(maker) => maker,
        Err(refused) => return Err(left_unbuilt(refused.store, faults, refused.fault)),
    };
    for step in steps {
        match make_step(maker, step) {
            Stepped::Finished(store) => return Ok(Built { store, faults }),
            Stepped::GoesOn(kept, fault) => {
                maker = kept;
                let Ok(()) = faults.push(fault) else {
                    return Err(left_unbuilt(maker.into_store(), faults, MakeFault::NoMemory));
                };
            }
        }
    }
    match maker.finish() {
        Ok(store) => Ok(Built { store, faults }),
        Err(unfinished) => {
            let fault = unfinished.fault;
            Err(left_unbuilt(unfinished.maker.into_store(), faults, fault))
        }
    }
}

/// Builds a database in a store by some steps in turn, and writes the values of a key in it.
///
/// Whichever steps are refused, and whatever fails in between: the store then holds, in each of its
/// images, the file made from scratch of the records that are left, and the values are exactly
/// those that the key has among them, in their order. Each step has one answer, and each answer its
/// cause.
///
/// It fails with `Make` as `build` does, and then nothing was written. It fails with `Read` if the
/// store failed while it was read, or the writer failed; then a prefix of the values was written.
pub fn build_and_ask<S: Store + Drop, L: Width, W: Sink>(
    alloc: Global,
    store: S,
    limit: u64,
    steps: &[Step],
    key: &[u8],
    w: &mut W,
) -> Result<Built<S>, Unbuilt<S>>
    requires head { head_size L.WORD ≤ limit }
    requires words { limit ≤ L.GREATEST }
    ensures builds { IfOk result (λ m. WhereHonest (S.image m.store) (Builds L.WORD limit steps.now
        m.faults.items (S.failures store) (S.failures m.store))) }
    ensures file { IfOk result (λ m.
        IsFile L.WORD (left_by L.WORD limit steps.now m.faults.items) (S.image m.store)) }
    ensures values { IfOk result (λ m. WhereHonest (S.image m.store) (Finds key.now
        (left_by L.WORD limit steps.now m.faults.items) (W.contents w.old) (W.contents w.new))) }
    ensures fails { IfErr result (BuildingFails S.Store L.WORD limit store steps.now key.now
        (W.contents w.old) (W.contents w.new)) }
{
    let Built { store, faults } = build::<S, L>(alloc, store, limit, steps)?;
    let mut reader = match Reader::<S, L>::open(store) {
        Ok(reader) => reader,
        Err(Unread { store, fault }) => {
            let fault = AskFault::Read(fault);
            return Err(Unbuilt {
                store,
                faults,
                fault,
            });
        }
    };
    let written = write_values(&mut reader, key, w);
    let store = reader.into_store();
    match written {
        Ok(()) => Ok(Built { store, faults }),
        Err(fault) => {
            let fault = AskFault::Read(fault);
            Err(Unbuilt {
                store,
                faults,
                fault,
            })
        }
    }
}
