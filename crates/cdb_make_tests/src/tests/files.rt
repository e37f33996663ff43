//! Databases made in files of the system. The files lie in the folder that each test runs in.
use super::again::{Cause, Played, play};
use super::makers::{EAGER, LAZY, Way, buffered};
use super::model::{Wanted, expected};
use super::scripts::{Call, add, long, replace};
use cdb_form::Narrow;
use cdb_store::{FileStore, Store};
use std::alloc::Global;
use std::fs;
use std::prelude::*;
use std::test::Fail;

/// Makes the calls of a script in a store, which nothing fails, and finishes the file.
fn fill<S: Store + Drop>(
    alloc: Global,
    store: S,
    way: Way,
    script: &[Call],
    wanted: &Wanted,
) -> Result<S, Fail> {
    let how = (Cause::Device, way);
    let Played { store, met, broke } = play::<S, Narrow>(alloc, store, how, script, wanted)?;
    if met || broke {
        return Err(Fail::new("the file system failed"));
    }
    Ok(store)
}

/// Returns true if a script makes its file of so many bytes.
fn makes_plainly(
    rt: &HostRuntime,
    (name, way): (&str, Way),
    script: &[Call],
    wanted: &Wanted,
    size: u64,
) -> Result<bool, Fail> {
    let store = fill(
        rt.alloc(),
        FileStore::create(rt, name)?,
        way,
        script,
        wanted,
    )?;
    Ok(store.len() == size && fs::read(rt, name)? == wanted.file)
}

/// Returns true if a script makes its file through a buffer, which the finish has forwarded.
fn makes_through_a_buffer(
    rt: &HostRuntime,
    (name, way): (&str, Way),
    script: &[Call],
    wanted: &Wanted,
) -> Result<bool, Fail> {
    let buffer = buffered(rt.alloc(), FileStore::create(rt, name)?, 4096)?;
    let store = fill(rt.alloc(), buffer, way, script, wanted)?;
    let is_made = fs::read(rt, name)? == wanted.file;
    drop(store);
    Ok(is_made)
}

/// Returns true if a script makes a file of so many bytes, as over a store in memory.
fn makes_file(rt: &HostRuntime, name: &str, script: &[Call], size: u64) -> Result<bool, Fail> {
    let wanted = expected::<Narrow>(rt.alloc(), script)?;
    let mut makes = true;
    for way in [EAGER, LAZY] {
        makes = makes && makes_plainly(rt, (name, way), script, &wanted, size)?;
        makes = makes && makes_through_a_buffer(rt, (name, way), script, &wanted)?;
    }
    Ok(makes)
}

#[test]
fn a_replaced_record_stands_last_in_a_file(rt: HostRuntime) -> Result<(), Fail> {
    let script = [
        add(b"a", b"1"),
        add(b"one", b"Hello"),
        add(b"two", b"Goodbye"),
        replace(b"a", b"2"),
    ];
    assert!(rt; makes_file(&rt, "order.store", &script, 2140)?);
    Ok(())
}

#[test]
fn long_records_are_moved_whole_in_a_file(rt: HostRuntime) -> Result<(), Fail> {
    let (ten, five) = (long(rt.alloc(), 10000)?, long(rt.alloc(), 5000)?);
    let script = [
        add(b"a", b"1"),
        add(b"b", &ten),
        add(b"a", b"2"),
        add(b"c", &five),
        replace(b"a", b"3"),
    ];
    assert!(rt; makes_file(&rt, "gaps.store", &script, 17124)?);
    Ok(())
}
