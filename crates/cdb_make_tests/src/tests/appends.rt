//! Whole records that a maker appends by one write.
use super::makers::{EAGER, LAZY, Way, finished, made_in, maker_in};
use super::model::expected;
use super::scarce::ScarceStore;
use super::scripts::{Call, add};
use cdb_form::{Narrow, Wide, Width};
use cdb_make::{MakeFault, Maker, Mode};
use cdb_store::{FuseStore, MemStore, Store};
use std::alloc::{AllocError, Global};
use std::prelude::*;
use std::test::Fail;

/// The bytes of the records that some calls put, in words of so many bytes.
pub(super) fn run_of(alloc: Global, calls: &[Call], word: usize) -> Result<Vec<u8>, AllocError> {
    let mut bytes = Vec::new(alloc);
    for call in calls {
        let klen = (call.key.len() as u64).to_le_bytes();
        let vlen = (call.value.len() as u64).to_le_bytes();
        bytes.extend_from_slice(klen.get(..word).unwrap_or(&[]))?;
        bytes.extend_from_slice(vlen.get(..word).unwrap_or(&[]))?;
        bytes.extend_from_slice(call.key)?;
        bytes.extend_from_slice(call.value)?;
    }
    Ok(bytes)
}

/// Two records, of 16 and 18 bytes in words of 4 bytes.
fn two() -> [Call<'static>; 2] {
    [add(b"one", b"Hello"), add(b"two", b"Goodbye")]
}

/// A maker in a store that counts its calls, and fails the one after so many.
pub(super) fn fused(
    alloc: Global,
    calls: u64,
    part: u64,
) -> Result<Maker<FuseStore<MemStore>, Narrow>, MakeFault> {
    maker_in(alloc, FuseStore::new(MemStore::new(alloc), calls, part))
}

#[test]
fn two_records_are_appended_at_once(rt: HostRuntime) -> Result<(), Fail> {
    let alloc = rt.alloc();
    let run = run_of(alloc, &two(), 4)?;
    let mut maker: Maker<MemStore, Narrow> = maker_in(alloc, MemStore::new(alloc))?;
    let taken = maker.append(&run)?;
    assert!(rt; taken == 34 && maker.count() == 2 && maker.size() == 2114);
    let file = finished(maker)?.into_vec();
    assert!(rt; file == expected::<Narrow>(alloc, &two())?.file);
    Ok(())
}

#[test]
fn records_of_words_of_8_bytes_are_appended(rt: HostRuntime) -> Result<(), Fail> {
    let alloc = rt.alloc();
    let run = run_of(alloc, &two(), 8)?;
    let mut maker: Maker<MemStore, Wide> = maker_in(alloc, MemStore::new(alloc))?;
    let taken = maker.append(&run)?;
    assert!(rt; taken == 50 && maker.count() == 2);
    let file = finished(maker)?.into_vec();
    assert!(rt; file == expected::<Wide>(alloc, &two())?.file);
    Ok(())
}

/// Returns the number of bytes that the whole records have of a run of `two` that is cut.
fn whole(len: usize) -> usize {
    if len < 16 {
        0
    } else if len < 34 {
        16
    } else {
        34
    }
}

#[test]
fn only_whole_records_of_a_run_are_appended(rt: HostRuntime) -> Result<(), Fail> {
    let alloc = rt.alloc();
    let run = run_of(alloc, &two(), 4)?;
    let wanted = expected::<Narrow>(alloc, &two())?;
    for len in 0..35usize {
        let mut maker: Maker<MemStore, Narrow> = maker_in(alloc, MemStore::new(alloc))?;
        let taken = maker.append(run.get(..len).unwrap_or(b""))?;
        assert!(rt; taken == whole(len), "{len} bytes");
        let rest = maker.append(run.get(taken..).unwrap_or(b""))?;
        let file = finished(maker)?.into_vec();
        assert!(rt;
            taken.saturating_add(rest) == 34 && file == wanted.file,
            "{len} bytes"
        );
    }
    Ok(())
}

#[test]
fn an_empty_run_is_not_written(rt: HostRuntime) -> Result<(), Fail> {
    let mut maker = fused(rt.alloc(), u64::MAX, 0)?;
    let before = maker.store().calls();
    let taken = maker.append(b"")?;
    assert!(rt; taken == 0 && maker.count() == 0 && maker.store().calls() == before);
    Ok(())
}

#[test]
fn lengths_past_a_run_are_those_of_no_record(rt: HostRuntime) -> Result<(), Fail> {
    let alloc = rt.alloc();
    let mut narrow: Maker<MemStore, Narrow> = maker_in(alloc, MemStore::new(alloc))?;
    let mut wide: Maker<MemStore, Wide> = maker_in(alloc, MemStore::new(alloc))?;
    // The sum of the lengths passes a word of 8 bytes too.
    assert!(rt; narrow.append(&[255; 64]) == Ok(0) && wide.append(&[255; 64]) == Ok(0));
    // The key is whole, and the value is not.
    let run = [1, 0, 0, 0, 255, 255, 255, 255, b'a', b'1'];
    assert!(rt; narrow.append(&run) == Ok(0) && narrow.count() == 0);
    Ok(())
}

/// What an append answers if the file may have so many bytes after the head, how many records are
/// held then, and how long their file is.
fn append_within(
    alloc: Global,
    most: u16,
    run: &[u8],
) -> Result<(Result<usize, MakeFault>, u64, usize), Fail> {
    let most = Some(most);
    let store = MemStore::new(alloc);
    let mut maker: Maker<MemStore, Narrow> = made_in(alloc, store, Way { most, ..EAGER })?;
    let answer = maker.append(run);
    let count = maker.count();
    Ok((answer, count, finished(maker)?.into_vec().len()))
}

#[test]
fn records_are_appended_up_to_the_limit(rt: HostRuntime) -> Result<(), Fail> {
    let alloc = rt.alloc();
    let run = run_of(alloc, &two(), 4)?;
    let too_big = Err(MakeFault::TooBig);
    assert!(rt; append_within(alloc, 31, &run)? == (too_big, 0, 2048));
    assert!(rt; append_within(alloc, 32, &run)? == (too_big, 1, 2080));
    assert!(rt; append_within(alloc, 65, &run)? == (too_big, 1, 2080));
    assert!(rt; append_within(alloc, 66, &run)? == (Ok(34), 2, 2114));
    // A record that is cut does not pass the limit.
    let cut = run.get(..33).unwrap_or(b"");
    assert!(rt; append_within(alloc, 32, cut)? == (Ok(16), 1, 2080));
    Ok(())
}

#[test]
fn a_pass_makes_room_for_a_run(rt: HostRuntime) -> Result<(), Fail> {
    let alloc = rt.alloc();
    let run = run_of(alloc, &two(), 4)?;
    // With their slots the two records have 66 bytes: there is no room beside one that goes.
    let most = Some(66);
    let fuse = FuseStore::new(MemStore::new(alloc), u64::MAX, 0);
    let mut maker = made_in::<_, Narrow>(alloc, fuse, Way { most, ..LAZY })?;
    maker.put(Mode::Add, b"a", b"1")?;
    assert!(rt; maker.remove(b"a") == Ok(1) && maker.size() == 2048);
    let before = maker.store().written();
    assert!(rt; maker.append(&run) == Ok(34) && maker.count() == 2);
    assert!(rt; maker.store().written() == before.saturating_add(34));
    let file = finished(maker)?.into_inner().into_vec();
    assert!(rt; file == expected::<Narrow>(alloc, &two())?.file);
    Ok(())
}

/// A run of so many records, of 17 bytes each.
fn many(alloc: Global, count: u32) -> Result<Vec<u8>, Fail> {
    let mut run = Vec::new(alloc);
    for n in 0..count {
        let key = n.to_le_bytes();
        run.extend_from_slice(&run_of(alloc, &[add(&key, b"value")], 4)?)?;
    }
    Ok(run)
}

/// The file of the same records, put one by one.
fn many_put(alloc: Global, count: u32) -> Result<Vec<u8>, MakeFault> {
    let mut maker: Maker<MemStore, Narrow> = maker_in(alloc, MemStore::new(alloc))?;
    for n in 0..count {
        maker.put(Mode::Add, &n.to_le_bytes(), b"value")?;
    }
    Ok(finished(maker)?.into_vec())
}

#[test]
fn many_records_are_written_by_one_write(rt: HostRuntime) -> Result<(), Fail> {
    let run = many(rt.alloc(), 1000)?;
    let mut maker = fused(rt.alloc(), u64::MAX, 0)?;
    let (calls, written) = (maker.store().calls(), maker.store().written());
    let taken = maker.append(&run)?;
    assert!(rt; taken == 17000 && maker.count() == 1000);
    assert!(rt; maker.store().calls() == calls.saturating_add(1));
    assert!(rt; maker.store().written() == written.saturating_add(17000));
    let file = finished(maker)?.into_inner().into_vec();
    assert!(rt; file == many_put(rt.alloc(), 1000)?);
    Ok(())
}

/// A maker of a record, in a store that fails the call after so many.
pub(super) fn one_record(
    alloc: Global,
    calls: u64,
    part: u64,
) -> Result<Maker<FuseStore<MemStore>, Narrow>, MakeFault> {
    let mut maker = fused(alloc, calls, part)?;
    maker.put(Mode::Add, b"a", b"1")?;
    Ok(maker)
}

#[test]
fn a_failed_write_leaves_the_records(rt: HostRuntime) -> Result<(), Fail> {
    let alloc = rt.alloc();
    let run = run_of(alloc, &two(), 4)?;
    let calls = [
        add(b"a", b"1"),
        add(b"one", b"Hello"),
        add(b"two", b"Goodbye"),
    ];
    let wanted = expected::<Narrow>(alloc, &calls)?;
    let before = one_record(alloc, u64::MAX, 0)?.store().calls();
    for part in [0u64, 1, 16, 17, 34] {
        let mut maker = one_record(alloc, before, part)?;
        assert!(rt;
            maker.append(&run) == Err(MakeFault::Writing),
            "part {part}"
        );
        assert!(rt; !maker.is_broken() && maker.count() == 1, "part {part}");
        let found = maker.exists(b"a")? && !maker.exists(b"one")?;
        assert!(rt; found && maker.append(&run) == Ok(34), "part {part}");
        let file = finished(maker)?.into_inner().into_vec();
        assert!(rt; file == wanted.file, "part {part}");
    }
    Ok(())
}

#[test]
fn a_store_without_room_takes_no_record(rt: HostRuntime) -> Result<(), Fail> {
    let alloc = rt.alloc();
    let run = run_of(alloc, &two(), 4)?;
    let store = ScarceStore::new(MemStore::new(alloc), 2048, 1);
    let mut maker: Maker<ScarceStore<MemStore>, Narrow> = maker_in(alloc, store)?;
    assert!(rt; maker.append(&run) == Err(MakeFault::NoMemory));
    assert!(rt; !maker.is_broken() && maker.count() == 0);
    assert!(rt; maker.append(&run) == Ok(34));
    let file = finished(maker)?.inner.into_vec();
    assert!(rt; file == expected::<Narrow>(alloc, &two())?.file);
    Ok(())
}
