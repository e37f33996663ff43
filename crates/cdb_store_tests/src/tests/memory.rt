// Stores in memory.
use cdb_store::{BufferedStore, MemStore, Store, StoreFault};
use std::alloc::Global;
use std::test::Fail;

/// Returns true if writes in a new store, over what is there and after it, leave `aXYd`.
fn writes(store: &mut MemStore) -> bool {
    let is_written = store.write_at(0, b"abc").is_ok() && store.write_at(1, b"XY").is_ok();
    let is_longer = store.len() == 3 && store.write_at(3, b"d").is_ok();
    is_written && is_longer && store.bytes() == b"aXYd".as_slice() && store.len() == 4
}

/// Returns true if a store of `aXYd` gives the bytes in its middle, and leaves its first two bytes.
fn reads_and_cuts(store: &mut MemStore) -> bool {
    let mut into = [0; 2];
    let is_read = store.len() >= 4 && store.read_at(1, &mut into).is_ok() && into == *b"XY";
    let is_cut = store.len() >= 2 && store.cut(2).is_ok() && store.flush().is_ok();
    is_read && is_cut && store.bytes() == b"aX".as_slice()
}

/// Returns true if nothing is written and read at the end of a store of two bytes.
fn takes_nothing<S: Store>(store: &mut S) -> bool {
    let is_written = store.len() == 2 && store.write_at(2, b"").is_ok();
    is_written && store.len() == 2 && store.read_at(2, &mut []).is_ok()
}

#[test]
fn writes_reads_and_cuts(rt: HostRuntime) -> Result<(), Fail> {
    let mut store = MemStore::new(rt.alloc());
    store.reserve(4)?;
    assert!(rt; writes(&mut store));
    assert!(rt; reads_and_cuts(&mut store));
    assert!(rt; takes_nothing(&mut store));
    assert!(rt; store.into_vec().as_slice() == b"aX".as_slice());
    Ok(())
}

#[test]
fn writes_past_the_end(rt: HostRuntime) -> Result<(), Fail> {
    let mut store = MemStore::from_vec(b"abc".to_vec(rt.alloc())?);
    store.write_at(1, b"bcde")?;
    assert!(rt; store.bytes() == b"abcde".as_slice());
    Ok(())
}

/// Returns true if a store of `abc` stays as it is if it is refused room, and is returned so if a
/// buffer over it is.
fn stays(alloc: Global, mut store: MemStore) -> bool {
    let is_refused = store.reserve(1 << 62) == Err(StoreFault::NoMemory);
    let is_whole = store.bytes() == b"abc".as_slice();
    let handed_back = BufferedStore::new(alloc, store, 1 << 62);
    is_refused
        && is_whole
        && handed_back.is_err_and(|failed| failed.value.bytes() == b"abc".as_slice())
}

#[test]
fn refused_memory_changes_nothing(rt: HostRuntime) -> Result<(), Fail> {
    let store = MemStore::from_vec(b"abc".to_vec(rt.alloc())?);
    assert!(rt; stays(rt.alloc(), store));
    Ok(())
}

#[test]
fn faults_are_numbered(rt: HostRuntime) -> Result<(), Fail> {
    for (fault, number, text) in [
        (StoreFault::Device, 1, "the device failed"),
        (StoreFault::NoMemory, 2, "no memory"),
    ] {
        let said = format!(in rt.alloc(); "{fault}")?;
        let is_said = said.as_str() == text && fault.message() == text;
        assert!(rt; is_said && fault.number() == number, "{text}");
    }
    Ok(())
}
