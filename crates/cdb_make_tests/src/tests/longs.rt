//! Records whose values come in pieces.
use super::appends::fused;
use super::makers::{LAZY, Way, finished, made_in, maker_in};
use super::model::expected;
use super::scarce::ScarceStore;
use super::scripts::add;
use cdb_form::{Narrow, Wide, Width};
use cdb_make::{MakeFault, Maker, Mode};
use cdb_store::{MemStore, Store};
use std::alloc::Global;
use std::prelude::*;
use std::test::Fail;

/// Puts a record whose value comes in two pieces, and returns true if it was begun.
fn put_two<S: Store, L: Width>(
    maker: &mut Maker<S, L>,
    key: &[u8],
    first: &[u8],
    second: &[u8],
) -> Result<bool, MakeFault> {
    let vlen = (first.len() as u64).saturating_add(second.len() as u64);
    let Some(mut long) = maker.begin_long(key, vlen)? else {
        return Ok(false);
    };
    maker.write_long(&mut long, first)?;
    maker.write_long(&mut long, second)?;
    maker.end_long(long);
    Ok(true)
}

/// Returns true if a value in two pieces, between two records, makes the file of the whole value.
fn makes_the_file<L: Width>(alloc: Global, first: &[u8], second: &[u8]) -> Result<bool, Fail> {
    let mut whole = Vec::new(alloc);
    whole.extend_from_slice(first)?;
    whole.extend_from_slice(second)?;
    let calls = [add(b"a", b"1"), add(b"long", &whole), add(b"b", b"2")];
    let mut maker: Maker<MemStore, L> = maker_in(alloc, MemStore::new(alloc))?;
    maker.put(Mode::Add, b"a", b"1")?;
    let begun = put_two(&mut maker, b"long", first, second)?;
    maker.put(Mode::Add, b"b", b"2")?;
    let file = finished(maker)?.into_vec();
    Ok(begun && file == expected::<L>(alloc, &calls)?.file)
}

#[test]
fn pieces_make_the_file_of_the_whole_value(rt: HostRuntime) -> Result<(), Fail> {
    let alloc = rt.alloc();
    assert!(rt; makes_the_file::<Narrow>(alloc, b"Hello, ", b"world")?);
    assert!(rt; makes_the_file::<Wide>(alloc, b"Hello, ", b"world")?);
    assert!(rt; makes_the_file::<Narrow>(alloc, b"", b"world")?);
    assert!(rt; makes_the_file::<Narrow>(alloc, b"", b"")?);
    Ok(())
}

#[test]
fn a_record_in_pieces_is_found_by_its_tag(rt: HostRuntime) -> Result<(), Fail> {
    let alloc = rt.alloc();
    let mut maker: Maker<MemStore, Narrow> = maker_in(alloc, MemStore::new(alloc))?;
    // The first look begins the tags.
    assert!(rt; maker.exists(b"a") == Ok(false));
    assert!(rt; put_two(&mut maker, b"a", b"1", b"2") == Ok(true));
    assert!(rt; maker.exists(b"a") == Ok(true) && maker.remove(b"a") == Ok(1));
    Ok(())
}

#[test]
fn a_record_that_is_given_up_is_none(rt: HostRuntime) -> Result<(), Fail> {
    let alloc = rt.alloc();
    let mut maker: Maker<MemStore, Narrow> = maker_in(alloc, MemStore::new(alloc))?;
    maker.put(Mode::Add, b"a", b"1")?;
    let given_up = maker.begin_long(b"long", 100)?;
    assert!(rt; given_up.is_some() && maker.count() == 1);
    maker.put(Mode::Add, b"b", b"2")?;
    let file = finished(maker)?.into_vec();
    let calls = [add(b"a", b"1"), add(b"b", b"2")];
    assert!(rt; file == expected::<Narrow>(alloc, &calls)?.file);
    Ok(())
}

#[test]
fn a_record_in_pieces_keeps_the_limit(rt: HostRuntime) -> Result<(), Fail> {
    let alloc = rt.alloc();
    // A header, 4 bytes and two slots.
    let most = Some(28);
    let mut maker = made_in::<_, Narrow>(alloc, MemStore::new(alloc), Way { most, ..LAZY })?;
    assert!(rt; put_two(&mut maker, b"a", b"12", b"34") == Ok(false) && maker.count() == 0);
    assert!(rt; maker.put(Mode::Add, b"a", b"1234") == Err(MakeFault::TooBig));
    assert!(rt; put_two(&mut maker, b"a", b"12", b"3") == Ok(true) && maker.count() == 1);
    Ok(())
}

#[test]
fn a_failed_piece_leaves_the_records(rt: HostRuntime) -> Result<(), Fail> {
    let alloc = rt.alloc();
    let before = fused(alloc, u64::MAX, 0)?.store().calls();
    // The begin, and two pieces.
    for calls in 0..3u64 {
        let mut maker = fused(alloc, before.saturating_add(calls), 1)?;
        let failed = put_two(&mut maker, b"a", b"12", b"34");
        assert!(rt; failed == Err(MakeFault::Writing), "{calls} calls");
        assert!(rt; !maker.is_broken() && maker.count() == 0, "{calls} calls");
        assert!(rt;
            put_two(&mut maker, b"a", b"12", b"34") == Ok(true),
            "{calls} calls"
        );
        let file = finished(maker)?.into_inner().into_vec();
        let wanted = expected::<Narrow>(alloc, &[add(b"a", b"1234")])?.file;
        assert!(rt; file == wanted, "{calls} calls");
    }
    Ok(())
}

#[test]
fn no_record_is_begun_while_some_go(rt: HostRuntime) -> Result<(), Fail> {
    let alloc = rt.alloc();
    let mut maker = made_in::<_, Narrow>(alloc, MemStore::new(alloc), LAZY)?;
    maker.put(Mode::Add, b"a", b"1")?;
    assert!(rt; maker.remove(b"a") == Ok(1));
    assert!(rt; put_two(&mut maker, b"b", b"2", b"3") == Ok(false) && maker.count() == 0);
    maker.compact_all()?;
    assert!(rt; put_two(&mut maker, b"b", b"2", b"3") == Ok(true) && maker.count() == 1);
    Ok(())
}

#[test]
fn a_length_alone_takes_no_memory(rt: HostRuntime) -> Result<(), Fail> {
    let alloc = rt.alloc();
    let mut maker: Maker<MemStore, Narrow> = maker_in(alloc, MemStore::new(alloc))?;
    let begun = maker.begin_long(b"long", 4_000_000_000)?;
    assert!(rt; begun.is_some() && maker.store().len() == 2060);
    assert!(rt; maker.begin_long(b"long", u64::MAX)?.is_none());
    Ok(())
}

#[test]
fn memory_that_is_refused_leaves_the_records(rt: HostRuntime) -> Result<(), Fail> {
    let alloc = rt.alloc();
    let store = ScarceStore::new(MemStore::new(alloc), 2048, 1);
    let mut maker: Maker<ScarceStore<MemStore>, Narrow> = maker_in(alloc, store)?;
    assert!(rt; put_two(&mut maker, b"a", b"12", b"34") == Err(MakeFault::NoMemory));
    assert!(rt; maker.store().len() == 2048 && maker.count() == 0);
    assert!(rt; put_two(&mut maker, b"a", b"12", b"34") == Ok(true) && maker.count() == 1);
    Ok(())
}
