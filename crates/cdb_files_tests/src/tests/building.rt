// Which calls a store gets as the database of some records is built in it.
use cdb_files::{Builder, Records};
use cdb_form::{Narrow, Record, hash};
use cdb_store::{FuseStore, MemStore};
use std::alloc::Global;
use std::prelude::*;
use std::test::Fail;

/// Keys of one table, of which no two have one hash.
const KEYS: [&[u8]; 5] = [b"abg", b"ajo", b"arw", b"bnh", b"one"];

/// Two values are longer than what a store holds back.
const LONG: usize = 40_000;

/// A record of a key, with a value of so many bytes.
fn record_of(alloc: Global, key: &[u8], len: usize) -> Result<Record, Fail> {
    let mut value = Vec::new(alloc);
    value.resize(len, b'v')?;
    Ok(Record {
        key: Vec::from_slice(alloc, key)?,
        value,
    })
}

/// A record of each key, with a value of so many bytes.
fn records_of(alloc: Global, keys: &[&[u8]], len: usize) -> Result<Vec<Record>, Fail> {
    let mut records = Vec::new(alloc);
    for key in keys {
        let record = record_of(alloc, key, len)?;
        records.push(record)?;
    }
    Ok(records)
}

/// Returns the number of calls of its store that the database of a record of each key takes, and
/// how long it is.
fn calls_for(alloc: Global, keys: &[&[u8]]) -> Result<(u64, usize), Fail> {
    let records = records_of(alloc, keys, LONG)?;
    let store = FuseStore::new(MemStore::new(alloc), u64::MAX, 0);
    let (store, (), built) = Records::<Narrow>::new(alloc, &records).build(store, &mut ());
    if built.is_err() {
        return Err(Fail::new("not built"));
    }
    let calls = store.calls();
    Ok((calls, store.into_inner().into_vec().len()))
}

#[test]
fn a_key_that_is_there_is_not_looked_for(rt: HostRuntime) -> Result<(), Fail> {
    let is_one_table = KEYS.iter().all(|key| hash(key) % 256 == hash(b"one") % 256);
    assert!(rt; is_one_table);
    let apart = calls_for(rt.alloc(), &KEYS)?;
    let same = calls_for(rt.alloc(), &[KEYS[4]; 5])?;
    assert!(rt; apart == same, "{apart:?} and {same:?}");
    assert!(rt; apart.1 == 2048 + 5 * (8 + 3 + LONG) + 10 * 8);
    Ok(())
}
