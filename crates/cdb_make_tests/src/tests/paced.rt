//! When a lazy maker makes a pass, and how much it writes.
use super::drawn::{colliding, digits, slices_of};
use super::makers::{LAZY, finished, made_in};
use super::model::expected;
use super::scripts::{add, all_come_to, exists, long, remove, replace};
use cdb_form::{Narrow, hash};
use cdb_make::{MakeFault, Maker, Mode, Put};
use cdb_store::{FuseStore, MemStore, Store};
use std::alloc::Global;
use std::prelude::*;
use std::test::Fail;

/// A lazy maker over a store that counts the bytes that are written.
type Counting = Maker<FuseStore<MemStore>, Narrow>;

/// Such a maker of no records.
fn counting(alloc: Global) -> Result<Counting, MakeFault> {
    made_in(
        alloc,
        FuseStore::new(MemStore::new(alloc), u64::MAX, 0),
        LAZY,
    )
}

#[test]
fn a_key_replaced_over_and_over_beside_others_is_so(rt: HostRuntime) -> Result<(), Fail> {
    let mut keys = Vec::new(rt.alloc());
    for number in 0..400u32 {
        keys.push(digits(number))?;
    }
    let keys = slices_of(rt.alloc(), &keys)?;
    let mut calls = Vec::new(rt.alloc());
    for key in &keys {
        calls.push(add(key, b"1"))?;
    }
    for _ in 0..600u32 {
        calls.push(replace(b"one", b"Hello"))?;
    }
    all_come_to::<Narrow>(rt.alloc(), &calls, None)?;
    Ok(())
}

#[test]
fn a_key_replaced_over_and_over_beside_those_of_its_hash_is_so(
    rt: HostRuntime,
) -> Result<(), Fail> {
    let mut keys = Vec::new(rt.alloc());
    for number in 0..200u32 {
        keys.push(colliding(number))?;
    }
    let same = keys
        .iter()
        .all(|key| hash(key) == hash(b"bCbCbCbCbCbCbCbC"));
    let keys = slices_of(rt.alloc(), &keys)?;
    let mut calls = Vec::new(rt.alloc());
    for key in &keys {
        calls.push(add(key, b"1"))?;
    }
    for (number, key) in keys.iter().enumerate() {
        calls.push(match number % 5 {
            0 => remove(key),
            1 => replace(key, b"2"),
            _ => replace(b"bCbCbCbCbCbCbCcb", b"3"),
        })?;
    }
    for key in &keys {
        calls.push(exists(key))?;
    }
    all_come_to::<Narrow>(rt.alloc(), &calls, None)?;
    assert!(rt; same);
    Ok(())
}

/// Replaces the record of a key so often, and answers how long the store became.
fn longest(maker: &mut Counting, value: &[u8], times: u32) -> Result<u64, Fail> {
    let mut most = 0;
    for _ in 0..times {
        if maker.put(Mode::Replace, b"a", value)? == Put::Present {
            return Err(Fail::new("a key is in the way of its replacement"));
        }
        most = maker.store().len().max(most);
    }
    Ok(most)
}

#[test]
fn long_values_replaced_over_and_over_leave_a_short_store(rt: HostRuntime) -> Result<(), Fail> {
    let value = long(rt.alloc(), 200000)?;
    let mut maker = counting(rt.alloc())?;
    // 20 records of 200009 bytes are fewer bytes than 4 MiB, and 21 are more than these and the
    // head.
    let most = longest(&mut maker, &value, 100)?;
    assert!(rt; most == 2048 + 21 * 200009, "{most}");
    let wanted = expected::<Narrow>(rt.alloc(), &[add(b"a", &value)])?;
    assert!(rt; finished(maker)?.into_inner().into_vec() == wanted.file);
    Ok(())
}

/// Replaces the records of some keys so often in turn, and answers how many bytes that wrote.
fn written_by(
    maker: &mut Counting,
    keys: &[&[u8]],
    value: &[u8],
    rounds: u32,
) -> Result<u64, MakeFault> {
    let before = maker.store().written();
    for _ in 0..rounds {
        for key in keys {
            maker.put(Mode::Replace, key, value)?;
        }
    }
    Ok(maker.store().written().saturating_sub(before))
}

#[test]
fn replacements_move_no_more_than_is_put(rt: HostRuntime) -> Result<(), Fail> {
    let mut keys = Vec::new(rt.alloc());
    for number in 0..1000u32 {
        keys.push(digits(number))?;
    }
    let keys = slices_of(rt.alloc(), &keys)?;
    let value = long(rt.alloc(), 10000)?;
    let mut maker = counting(rt.alloc())?;
    let wrote = written_by(&mut maker, &keys, &value, 100)?;
    let put = 100 * 1000 * 10014u64;
    assert!(rt; wrote > put && wrote <= 2 * put, "{wrote}");
    assert!(rt; maker.count() == 1000 && maker.size() == 2048 + 1000 * 10030);
    Ok(())
}

/// Removes records one after another, and answers how many went.
fn remove_all(maker: &mut Counting, count: u32) -> Result<u64, MakeFault> {
    let mut gone = 0u64;
    for number in 0..count {
        gone = gone.saturating_add(maker.remove(&digits(number))?);
    }
    Ok(gone)
}

#[test]
fn many_records_are_removed_in_a_row(rt: HostRuntime) -> Result<(), Fail> {
    let value = long(rt.alloc(), 200)?;
    let mut maker = counting(rt.alloc())?;
    for number in 0..65536u32 {
        maker.put(Mode::Add, &digits(number), &value)?;
    }
    let before = maker.store().written();
    let gone = remove_all(&mut maker, 65536)?;
    let moved = maker.store().written().saturating_sub(before);
    assert!(rt; gone == 65536 && maker.count() == 0 && maker.size() == 2048);
    // A pass is due when 42573 go, and moves the other 22963. One is due again when 21287 of these
    // go, and moves 1676.
    assert!(rt; moved == 214 * (22963 + 1676), "{moved}");
    let wanted = expected::<Narrow>(rt.alloc(), &[])?;
    assert!(rt; finished(maker)?.into_inner().into_vec() == wanted.file);
    Ok(())
}

#[test]
fn a_pass_may_leave_nothing(rt: HostRuntime) -> Result<(), Fail> {
    let mut maker = counting(rt.alloc())?;
    for key in [b"a", b"b", b"c"] {
        maker.put(Mode::Add, key, b"1")?;
        maker.put(Mode::Add, key, b"22")?;
    }
    let before = maker.store().written();
    for key in [b"b", b"c", b"a"] {
        assert!(rt; maker.remove(key) == Ok(2));
    }
    maker.compact_all()?;
    assert!(rt; maker.store().written() == before && maker.count() == 0);
    assert!(rt; maker.exists(b"a") == Ok(false) && maker.size() == 2048);
    maker.put(Mode::Replace, b"a", b"3")?;
    let wanted = expected::<Narrow>(rt.alloc(), &[add(b"a", b"3")])?;
    assert!(rt; finished(maker)?.into_inner().into_vec() == wanted.file);
    Ok(())
}
