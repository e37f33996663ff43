//! Scripts of which a call may fail once, and is made again if it left the maker whole.
use super::makers::{Way, finished, limit_of, refused_finish};
use super::model::Wanted;
use super::scripts::{Answer, Call, Step, answer_of};
use cdb_form::Width;
use cdb_make::{MakeFault, Maker, Mode, Put};
use cdb_store::Store;
use std::alloc::Global;
use std::prelude::*;
use std::test::Fail;

/// What fails once.
#[derive(Clone, Copy, Debug, PartialEq, Eq)]
pub(super) enum Cause {
    /// A call of the store.
    Device,
    /// A request for memory.
    Memory,
}

impl Cause {
    /// What the making of a maker and a finish answer to it.
    fn fault(self) -> MakeFault {
        match self {
            Cause::Device => MakeFault::Writing,
            Cause::Memory => MakeFault::NoMemory,
        }
    }
}

/// What a script came to.
#[derive(Drop)]
pub(super) struct Played<S> {
    /// The store: the finished file, unless the maker broke.
    pub(super) store: S,
    /// Some call failed.
    pub(super) met: bool,
    /// It broke the maker.
    pub(super) broke: bool,
}

/// A maker, and whether a call on it failed so far.
#[derive(Drop)]
struct Tried<S: Store, L: Width> {
    maker: Maker<S, L>,
    /// It is a lazy one.
    lazy: bool,
    cause: Cause,
    /// Some call failed.
    met: bool,
}

/// A maker in a store, or the store in which none was made, and why.
fn begun<S: Store, L: Width>(
    alloc: Global,
    store: S,
    way: Way,
) -> Result<Maker<S, L>, cdb_make::Refused<S>> {
    let limit = limit_of::<L>(way.most);
    if way.lazy {
        Maker::<S, L>::lazy(alloc, store, limit)
    } else {
        Maker::<S, L>::new(alloc, store, limit)
    }
}

/// A maker in a store. If that failed, it is made again.
fn begin<S: Store + Drop, L: Width>(
    alloc: Global,
    store: S,
    cause: Cause,
    way: Way,
) -> Result<Tried<S, L>, Fail> {
    let lazy = way.lazy;
    let refused = match begun::<S, L>(alloc, store, way) {
        Ok(maker) => {
            let met = false;
            return Ok(Tried {
                maker,
                lazy,
                cause,
                met,
            });
        }
        Err(refused) => refused,
    };
    if refused.fault != cause.fault() {
        return Err(Fail::new("another fault of making a maker"));
    }
    match begun::<S, L>(alloc, refused.store, way) {
        Ok(maker) => {
            let met = true;
            Ok(Tried {
                maker,
                lazy,
                cause,
                met,
            })
        }
        Err(_) => Err(Fail::new("a second fault")),
    }
}

/// Returns true if a call that should give this answer takes records out.
fn takes_out(wanted: Answer) -> bool {
    match wanted {
        Answer::Put(Put::Replaced(_)) => true,
        Answer::Removed(count) => count > 0,
        _ => false,
    }
}

/// Returns true if a call that should give this answer appends a record.
fn appends(wanted: Answer) -> bool {
    match wanted {
        Answer::Put(put) => put != Put::Present,
        _ => false,
    }
}

/// Returns true if a call looks for a key.
fn looks(step: Step) -> bool {
    step != Step::Put(Mode::Add) && step != Step::Append
}

/// Returns true if an eager maker may fail so if a call of its store does, which leaves it broken
/// or not.
fn may_fail_at_once(step: Step, wanted: Answer, broken: bool) -> bool {
    if takes_out(wanted) {
        return broken;
    }
    !broken && (appends(wanted) || step == Step::Append)
}

impl<S: Store, L: Width> Tried<S, L> {
    /// Returns true if a call may fail so.
    fn may_fail(&self, step: Step, wanted: Answer, fault: MakeFault) -> bool {
        let broken = self.maker.is_broken();
        match (self.cause, fault) {
            (Cause::Device, MakeFault::Lookup) => looks(step) && !broken,
            (Cause::Device, MakeFault::Writing) if self.lazy => {
                takes_out(wanted) || appends(wanted) || step == Step::Append
            }
            (Cause::Device, MakeFault::Writing) => may_fail_at_once(step, wanted, broken),
            // No other call of a script has to request memory.
            (Cause::Memory, MakeFault::NoMemory) => step == Step::Put(Mode::Add) && !broken,
            _ => false,
        }
    }

    /// What the maker counts.
    fn counts(&self) -> (u64, u64) {
        (self.maker.count(), self.maker.size())
    }

    /// Makes a call, and makes it again if it failed and left the maker whole. It is to give its
    /// answer at last, unless it broke the maker.
    fn act(&mut self, call: &Call, wanted: Answer) -> Result<(), Fail> {
        let held = self.counts();
        let first = answer_of(&mut self.maker, call);
        if first == wanted {
            return Ok(());
        }
        let Answer::Refused(fault) = first else {
            return Err(Fail::new("another answer"));
        };
        if held != self.counts() {
            return Err(Fail::new("a call that failed counts"));
        }
        if !self.may_fail(call.step, wanted, fault) {
            return Err(Fail::new("another fault of a call"));
        }
        self.met = true;
        if self.maker.is_broken() || answer_of(&mut self.maker, call) == wanted {
            Ok(())
        } else {
            Err(Fail::new("another answer"))
        }
    }

    /// Makes the calls of a script, until one breaks the maker.
    fn act_all(&mut self, script: &[Call], wanted: &Wanted) -> Result<(), Fail> {
        for (call, answer) in script.iter().zip(wanted.answers.iter()) {
            self.act(call, *answer)?;
            if self.maker.is_broken() {
                return Ok(());
            }
        }
        Ok(())
    }
}

/// Returns true if each call on a maker but the finish answers `Broken`.
fn refuses_all<S: Store, L: Width>(maker: &mut Maker<S, L>) -> bool {
    let mut same = maker.remove(b"a") == Err(MakeFault::Broken);
    same = same && maker.exists(b"a") == Err(MakeFault::Broken);
    same = same && maker.append(b"") == Err(MakeFault::Broken);
    same = same && maker.compact_all() == Err(MakeFault::Broken);
    for mode in [Mode::Add, Mode::Warn, Mode::Insert, Mode::Replace] {
        same = same && maker.put(mode, b"a", b"1") == Err(MakeFault::Broken);
    }
    same
}

/// The store of a broken maker, of which every call answers `Broken` and the counts stay.
fn stays_broken<S: Store + Drop, L: Width>(maker: Maker<S, L>) -> Result<Played<S>, Fail> {
    let mut maker = maker;
    let held = (maker.count(), maker.size());
    let refused = refuses_all(&mut maker);
    let maker = refused_finish(maker, MakeFault::Broken)?;
    if !refused || !maker.is_broken() || held != (maker.count(), maker.size()) {
        return Err(Fail::new("a broken maker goes on"));
    }
    let (store, met, broke) = (maker.into_store(), true, true);
    Ok(Played { store, met, broke })
}

/// The store with the finished file. If the finish failed, it is made again, unless that broke a
/// lazy maker.
fn made<S: Store + Drop, L: Width>(tried: Tried<S, L>) -> Result<Played<S>, Fail> {
    let held = tried.counts();
    let Tried {
        maker,
        lazy,
        cause,
        met,
    } = tried;
    let broke = false;
    let unfinished = match maker.finish() {
        Ok(store) => return Ok(Played { store, met, broke }),
        Err(unfinished) => unfinished,
    };
    let (maker, fault) = (unfinished.maker, unfinished.fault);
    if fault != cause.fault() {
        return Err(Fail::new("another fault of the finish"));
    }
    if held != (maker.count(), maker.size()) {
        return Err(Fail::new("a finish that failed counts"));
    }
    if maker.is_broken() {
        return if lazy && cause == Cause::Device {
            stays_broken(maker)
        } else {
            Err(Fail::new("a finish breaks the maker"))
        };
    }
    let met = true;
    let store = finished(maker)?;
    Ok(Played { store, met, broke })
}

/// Makes the calls of a script in a store, and finishes the file. Each call gives the answer that
/// is wanted, at the second try if the first failed, until one breaks the maker.
pub(super) fn play<S: Store + Drop, L: Width>(
    alloc: Global,
    store: S,
    (cause, way): (Cause, Way),
    script: &[Call],
    wanted: &Wanted,
) -> Result<Played<S>, Fail> {
    let mut tried = begin::<S, L>(alloc, store, cause, way)?;
    tried.act_all(script, wanted)?;
    if tried.maker.is_broken() {
        return stays_broken(tried.maker);
    }
    made(tried)
}
