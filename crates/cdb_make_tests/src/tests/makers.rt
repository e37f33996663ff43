//! Makers, eager and lazy ones, and buffers, for the tests in which nothing refuses them.
ghost use Rattle.std.specs.Prelude.{◌≤◌};
ghost use Rattle.cdb_form.specs.Format.{head_size};

use cdb_form::Width;
use cdb_make::{MakeFault, Maker};
use cdb_store::{BufferedStore, Store};
use std::alloc::Global;
use std::prelude::*;
use std::test::Fail;

/// How a maker is called.
#[derive(Clone, Copy, Debug, PartialEq, Eq)]
pub(super) struct Way {
    /// It is a lazy one.
    pub(super) lazy: bool,
    /// It makes a pass after each seventh call.
    pub(super) compacts: bool,
    /// The number of bytes that its file may have more than those of a head. None: as many as the
    /// width has them.
    pub(super) most: Option<u16>,
}

/// An eager maker.
pub(super) const EAGER: Way = Way {
    lazy: false,
    compacts: false,
    most: None,
};

/// A lazy maker.
pub(super) const LAZY: Way = Way {
    lazy: true,
    compacts: false,
    most: None,
};

/// A lazy maker, with passes that nothing makes due.
pub(super) const COMPACTING: Way = Way {
    lazy: true,
    compacts: true,
    most: None,
};

/// The greatest size of a file with so many bytes more than a head has.
pub(super) fn limit_of<L: Width>(most: Option<u16>) -> u64
    ensures head { head_size L.WORD ≤ result }
    ensures words { result ≤ L.GREATEST }
{
    let Some(most) = most else {
        return L::GREATEST;
    };
    let head = if L::WORD == 8 { 4096 } else { 2048 };
    L::GREATEST.min(head + u64::from(most))
}

/// A maker that is called so.
pub(super) fn made_in<S: Store + Drop, L: Width>(
    alloc: Global,
    store: S,
    way: Way,
) -> Result<Maker<S, L>, MakeFault> {
    let limit = limit_of::<L>(way.most);
    let made = if way.lazy {
        Maker::<S, L>::lazy(alloc, store, limit)
    } else {
        Maker::<S, L>::new(alloc, store, limit)
    };
    match made {
        Ok(maker) => Ok(maker),
        Err(refused) => Err(refused.fault),
    }
}

/// An eager maker of files as long as the width has them.
pub(super) fn maker_in<S: Store + Drop, L: Width>(
    alloc: Global,
    store: S,
) -> Result<Maker<S, L>, MakeFault> {
    made_in(alloc, store, EAGER)
}

/// The store with the file of a maker.
pub(super) fn finished<S: Store + Drop, L: Width>(maker: Maker<S, L>) -> Result<S, MakeFault> {
    match maker.finish() {
        Ok(store) => Ok(store),
        Err(unfinished) => Err(unfinished.fault),
    }
}

/// A maker of which the finish was refused with this fault.
pub(super) fn refused_finish<S: Store + Drop, L: Width>(
    maker: Maker<S, L>,
    fault: MakeFault,
) -> Result<Maker<S, L>, Fail> {
    let Err(unfinished) = maker.finish() else {
        return Err(Fail::new("a file was finished"));
    };
    if unfinished.fault != fault {
        return Err(Fail::new("another fault of the finish"));
    }
    Ok(unfinished.maker)
}

/// A buffer of so many bytes over a store.
pub(super) fn buffered<S: Store + Drop>(
    alloc: Global,
    inner: S,
    capacity: usize,
) -> Result<BufferedStore<S>, Fail> {
    match BufferedStore::new(alloc, inner, capacity) {
        Ok(store) => Ok(store),
        Err(_) => Err(Fail::new("no memory for a buffer")),
    }
}
