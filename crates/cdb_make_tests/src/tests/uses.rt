//! A caller of a maker.
use cdb_form::{Narrow, Width};
use cdb_make::{MakeFault, Maker, Mode};
use cdb_store::MemStore;
use std::alloc::Global;
use std::prelude::*;
use std::test::Fail;

/// The file of one record.
fn one_record(alloc: Global, key: &[u8], value: &[u8]) -> Result<Vec<u8>, MakeFault> {
    let store = MemStore::new(alloc);
    let mut maker = match Maker::<MemStore, Narrow>::new(alloc, store, Narrow::GREATEST) {
        Ok(maker) => maker,
        Err(refused) => return Err(refused.fault),
    };
    maker.put(Mode::Replace, key, value)?;
    match maker.finish() {
        Ok(store) => Ok(store.into_vec()),
        Err(unfinished) => Err(unfinished.fault),
    }
}

#[test]
fn a_maker_over_memory_makes_a_file(rt: HostRuntime) -> Result<(), Fail> {
    let file = one_record(rt.alloc(), b"one", b"Hello")?;
    assert!(rt; file.len() == 2080);
    Ok(())
}
