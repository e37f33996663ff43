// A fuse, and a buffered store over one.
use super::support::again::script;
use super::support::buffered::buffered;
use cdb_store::{FuseStore, MemStore, Store, StoreFault};
use std::alloc::Global;
use std::test::Fail;

/// What a write at `pos` answers, if the store ends there.
fn append<S: Store>(store: &mut S, pos: u64, bytes: &[u8]) -> Option<Result<(), StoreFault>> {
    if store.len() != pos || pos > 9 || bytes.len() > 9 {
        return None;
    }
    Some(store.write_at(pos, bytes))
}

#[test]
fn one_write_fails(rt: HostRuntime) -> Result<(), Fail> {
    let inner = MemStore::from_vec(b"abc".to_vec(rt.alloc())?);
    let mut store = FuseStore::new(inner, 1, 2);
    let first = append(&mut store, 3, b"de");
    let second = append(&mut store, 5, b"fgh");
    let third = append(&mut store, 7, b"i");
    let answers = [first, second, third];
    assert!(rt; answers == [Some(Ok(())), Some(Err(StoreFault::Device)), Some(Ok(()))]);
    let counts = (store.calls(), store.written());
    let inner = store.into_inner();
    assert!(rt; counts == (3, 5) && inner.bytes() == b"abcdefgi".as_slice());
    Ok(())
}

/// The byte at 2 of a store, whether that read, a flush and a cut to one byte answered Ok, and the
/// length then.
fn other_calls<S: Store>(store: &mut S) -> (u8, [bool; 3], u64) {
    let mut into = [0; 1];
    if store.len() < 3 {
        return (0, [false; 3], 0);
    }
    let read = store.read_at(2, &mut into).is_ok();
    let flushed = store.flush().is_ok();
    let cut = store.len() > 0 && store.cut(1).is_ok();
    (into[0], [read, flushed, cut], store.len())
}

#[test]
fn other_calls_fail_and_do_nothing(rt: HostRuntime) -> Result<(), Fail> {
    for (limit, byte, len) in [(0, 0, 1), (1, b'c', 1), (2, b'c', 3), (3, b'c', 1)] {
        let inner = MemStore::from_vec(b"abc".to_vec(rt.alloc())?);
        let mut store = FuseStore::new(inner, limit, 9);
        let want = (byte, [limit != 0, limit != 1, limit != 2], len);
        assert!(rt; other_calls(&mut store) == want, "{limit}");
        assert!(rt; store.calls() == 3 && store.written() == 0, "{limit}");
    }
    Ok(())
}

/// Returns the number of calls of the script that fail over a buffer whose inner store fails the
/// call after so many, if each call that is made again succeeds and the bytes are right at last.
fn faults_below(alloc: Global, capacity: usize, limit: u64) -> Result<Option<u64>, Fail> {
    let inner = FuseStore::new(MemStore::new(alloc), limit, 1);
    let mut store = buffered(alloc, inner, capacity)?;
    let outcome = script(&mut store, true);
    let (inner, answer) = store.into_inner();
    let bytes = inner.into_inner().into_vec();
    let is_right = outcome.is_right
        && answer.is_ok()
        && bytes.as_slice() == b"abXYZfghij".as_slice();
    Ok(if is_right { Some(outcome.failed) } else { None })
}

#[test]
fn a_buffer_stands_each_fault_below_it(rt: HostRuntime) -> Result<(), Fail> {
    for capacity in [0, 3, 7, 4096] {
        let mut faults = 0u64;
        for limit in 0..32 {
            let Some(failed) = faults_below(rt.alloc(), capacity, limit)? else {
                return Err(Fail::new("a call that is made again goes wrong"));
            };
            assert!(rt; failed <= 1, "{capacity} {limit}");
            faults |= failed;
        }
        assert!(rt; faults > 0, "{capacity}");
    }
    Ok(())
}

#[test]
fn a_failed_last_write_hands_the_store_back(rt: HostRuntime) -> Result<(), Fail> {
    let inner = FuseStore::new(MemStore::new(rt.alloc()), 0, 2);
    let mut store = buffered(rt.alloc(), inner, 16)?;
    store.write_at(0, b"abc")?;
    let (inner, answer) = store.into_inner();
    let bytes = inner.into_inner().into_vec();
    assert!(rt; answer == Err(StoreFault::Device) && bytes.as_slice() == b"ab".as_slice());
    Ok(())
}

#[test]
fn a_flush_reaches_the_inner_store(rt: HostRuntime) -> Result<(), Fail> {
    let inner = FuseStore::new(MemStore::new(rt.alloc()), u64::MAX, 0);
    let mut store = buffered(rt.alloc(), inner, 16)?;
    store.write_at(0, b"abc")?;
    store.flush()?;
    store.flush()?;
    let (inner, answer) = store.into_inner();
    // one write and two flushes
    assert!(rt; answer.is_ok() && inner.calls() == 3 && inner.written() == 3);
    Ok(())
}

/// Reads above and below, and writes between, as bytes are moved down in a store of 64 bytes.
fn move_eight<S: Store>(store: &mut S) -> Result<(), StoreFault> {
    let mut into = [0; 2];
    for pos in 0..8u64 {
        if store.len() < 64 {
            return Err(StoreFault::Device);
        }
        store.read_at(40 + 2 * pos, &mut into)?;
        store.write_at(8 + 2 * pos, &into)?;
        if store.len() < 64 {
            return Err(StoreFault::Device);
        }
        store.read_at(pos, &mut into)?;
    }
    Ok(())
}

#[test]
fn reads_beside_the_buffer_hand_nothing_on(rt: HostRuntime) -> Result<(), Fail> {
    let bytes = vec![in rt.alloc(); b'.'; 64]?;
    let inner = FuseStore::new(MemStore::from_vec(bytes), u64::MAX, 0);
    let mut store = buffered(rt.alloc(), inner, 16)?;
    move_eight(&mut store)?;
    let (inner, answer) = store.into_inner();
    // sixteen reads and one write
    assert!(rt; answer.is_ok() && inner.calls() == 17 && inner.written() == 16);
    Ok(())
}

/// One call of each kind that counts. Whether all answered Ok.
fn four_calls<S: Store>(store: &mut S) -> bool {
    let mut into = [0; 2];
    if store.len() > 0 || store.write_at(0, b"abc").is_err() || store.len() < 2 {
        return false;
    }
    let is_read = store.read_at(0, &mut into).is_ok() && into == *b"ab";
    store.cut(0).is_ok() && store.flush().is_ok() && is_read
}

#[test]
fn each_call_is_passed_on_by_a_fuse(rt: HostRuntime) -> Result<(), Fail> {
    let inner = FuseStore::new(MemStore::new(rt.alloc()), u64::MAX, 0);
    let mut outer = FuseStore::new(inner, u64::MAX, 0);
    let is_right = four_calls(&mut outer) && outer.written() == 3;
    assert!(rt; is_right && outer.into_inner().calls() == 4);
    Ok(())
}
