//! Scripts that are drawn, on makers of each way beside a plain list of records.
use super::scripts::{Call, Step, all_come_to};
use cdb_form::{Narrow, Wide, Width, hash};
use cdb_make::Mode;
use std::alloc::Global;
use std::prelude::*;
use std::test::Fail;

/// Some keys, of which several share a table and two a hash.
pub(super) const KEYS: [&[u8]; 6] = [b"", b"a", b"bc", b"cB", b"one", b"two"];

/// Three keys, of which two share a hash.
const THREE: [&[u8]; 3] = [b"a", b"bc", b"cB"];

/// What the draws begin from.
const SEED: u64 = 0x9e3779b97f4a7c15;

/// How many short scripts are drawn.
const SCRIPTS: u32 = 2676;

/// How many of them differ. Those of no call are one.
const DIFFERENT: usize = 2500;

/// What values are parts of.
const VALUES: &[u8] = b"0123456789abcdefghijklmnopqrstuvwxyz";

/// The next number that is drawn.
pub(super) fn draw(state: &mut u64) -> u64 {
    let one = *state ^ (*state << 13);
    let two = one ^ (one >> 7);
    *state = two ^ (two << 17);
    *state
}

/// A call that is drawn, with one of some keys.
fn drawn_call<'a>(state: &mut u64, keys: &[&'a [u8]]) -> Call<'a> {
    let drawn = draw(state);
    let step = match drawn % 9 {
        0..=2 => Step::Put(Mode::Add),
        3 => Step::Put(Mode::Warn),
        4 => Step::Put(Mode::Insert),
        5 | 6 => Step::Put(Mode::Replace),
        7 => Step::Remove,
        _ => Step::Exists,
    };
    let key = (drawn >> 16) % (keys.len() as u64).max(1);
    let start = (drawn >> 32) % 37;
    Call {
        step,
        key: keys.get(key as usize).copied().unwrap_or(b""),
        value: VALUES.get(start as usize..).unwrap_or(b""),
    }
}

/// Calls that are drawn, with one of some keys each. The first of them, so many, only add.
pub(super) fn drawn_calls<'a>(
    alloc: Global,
    state: &mut u64,
    keys: &[&'a [u8]],
    adds: u32,
    len: u32,
) -> Result<Vec<Call<'a>>, Fail> {
    let mut calls = Vec::new(alloc);
    for number in 0..len {
        let mut call = drawn_call(state, keys);
        if number < adds {
            call.step = Step::Put(Mode::Add);
        }
        calls.push(call)?;
    }
    Ok(calls)
}

/// A call that is drawn, of which one of ten appends two records.
fn mixed_call(state: &mut u64) -> Call<'static> {
    let drawn = draw(state);
    let mode = match (drawn >> 8) % 8 {
        0..=2 => Mode::Add,
        3 => Mode::Warn,
        4 => Mode::Insert,
        _ => Mode::Replace,
    };
    let step = match drawn % 10 {
        0 => Step::Remove,
        1 => Step::Exists,
        2 => Step::Append,
        _ => Step::Put(mode),
    };
    let key = ((drawn >> 16) % 6) as usize;
    let start = ((drawn >> 32) % 37) as usize;
    Call {
        step,
        key: KEYS.get(key).copied().unwrap_or(b""),
        value: VALUES.get(start..).unwrap_or(b""),
    }
}

/// Calls that are drawn, some of which append two records.
pub(super) fn mixed_calls(
    alloc: Global,
    state: &mut u64,
    len: u32,
) -> Result<Vec<Call<'static>>, Fail> {
    let mut calls = Vec::new(alloc);
    for _ in 0..len {
        calls.push(mixed_call(state))?;
    }
    Ok(calls)
}

/// Runs so many scripts that are drawn, of fewer than so many calls each, with these keys; the
/// first calls of each script only add. Each is to come to what a plain list of records does.
fn scripts_come_to_it(
    alloc: Global,
    seed: u64,
    keys: &[&[u8]],
    scripts: u32,
    adds: u32,
    most: u32,
) -> Result<(), Fail> {
    let mut state = seed;
    for _ in 0..scripts {
        let drawn = (draw(&mut state) >> 32) as u32;
        let len = drawn % most.max(1);
        let calls = drawn_calls(alloc, &mut state, keys, adds, len)?;
        all_come_to::<Narrow>(alloc, &calls, None)?;
    }
    Ok(())
}

/// Runs scripts of so many calls that are drawn, with these keys, as `scripts_come_to_it` does.
fn long_scripts_come_to_it(
    alloc: Global,
    keys: &[&[u8]],
    scripts: u32,
    adds: u32,
    len: u32,
) -> Result<(), Fail> {
    let mut state = SEED;
    for _ in 0..scripts {
        let calls = drawn_calls(alloc, &mut state, keys, adds, len)?;
        all_come_to::<Narrow>(alloc, &calls, None)?;
    }
    Ok(())
}

/// The decimal digits of a number.
pub(super) fn digits(number: u32) -> [u8; 6] {
    let mut digits = [b'0'; 6];
    let mut left = number;
    for digit in digits.iter_mut() {
        *digit = b'0' + (left % 10) as u8;
        left /= 10;
    }
    digits
}

/// Eight pairs of bytes, each one of two as a bit of the number says. All such keys have one hash.
pub(super) fn colliding(number: u32) -> [u8; 16] {
    let mut key = *b"bCbCbCbCbCbCbCbC";
    let mut left = number;
    for pair in key.chunks_exact_mut(2) {
        if left % 2 == 1 {
            pair.copy_from_slice(b"cb");
        }
        left /= 2;
    }
    key
}

/// Slices of some keys.
pub(super) fn slices_of<const N: usize>(
    alloc: Global,
    keys: &[[u8; N]],
) -> Result<Vec<&[u8]>, Fail> {
    let mut slices = Vec::new(alloc);
    for key in keys {
        slices.push(key.as_slice())?;
    }
    Ok(slices)
}

/// The number of a step.
fn number_of(step: Step) -> u64 {
    match step {
        Step::Put(Mode::Add) => 0,
        Step::Put(Mode::Warn) => 1,
        Step::Put(Mode::Insert) => 2,
        Step::Put(Mode::Replace) => 3,
        Step::Remove => 4,
        Step::Exists => 5,
        Step::Append => 6,
    }
}

/// A number for a script, which distinguishes two scripts of `KEYS` that differ. It is made from
/// the steps of the script, the first bytes of its keys, and the lengths of its values.
fn mark_of(calls: &[Call<'_>]) -> u64 {
    let mut mark = SEED;
    for call in calls {
        let first = call.key.first().copied().unwrap_or(0);
        let own = number_of(call.step)
            ^ (u64::from(first) << 8)
            ^ ((call.value.len() as u64) << 16);
        mark = (mark ^ own).wrapping_mul(0x100000001b3);
        mark ^= mark >> 29;
    }
    mark
}

/// Runs scripts of up to 15 calls, and answers a mark of each. Each draw goes on from the one
/// before.
fn short_scripts(alloc: Global) -> Result<Vec<u64>, Fail> {
    let mut state = SEED;
    let mut marks = Vec::new(alloc);
    for _ in 0..SCRIPTS {
        let len = (draw(&mut state) % 16) as u32;
        let calls = drawn_calls(alloc, &mut state, &KEYS, 0, len)?;
        all_come_to::<Narrow>(alloc, &calls, None)?;
        marks.push(mark_of(&calls))?;
    }
    Ok(marks)
}

#[test]
fn drawn_calls_come_to_what_a_list_of_records_does(rt: HostRuntime) -> Result<(), Fail> {
    let mut marks = short_scripts(rt.alloc())?;
    marks.sort_unstable();
    marks.dedup();
    assert!(rt; marks.len() == DIFFERENT, "{} scripts differ", marks.len());
    Ok(())
}

#[test]
fn drawn_calls_with_three_keys_do(rt: HostRuntime) -> Result<(), Fail> {
    long_scripts_come_to_it(rt.alloc(), &THREE, 20, 100, 300)
}

#[test]
fn drawn_calls_with_three_thousand_keys_do(rt: HostRuntime) -> Result<(), Fail> {
    let mut keys = Vec::new(rt.alloc());
    for number in 0..3000u32 {
        keys.push(digits(number))?;
    }
    let keys = slices_of(rt.alloc(), &keys)?;
    long_scripts_come_to_it(rt.alloc(), &keys, 1, 0, 3000)
}

#[test]
fn drawn_calls_with_keys_of_one_table_do(rt: HostRuntime) -> Result<(), Fail> {
    let mut keys = Vec::new(rt.alloc());
    for number in 0..100000u32 {
        let key = digits(number);
        if hash(&key) % 256 == 7 {
            keys.push(key)?;
        }
    }
    let keys = slices_of(rt.alloc(), &keys)?;
    long_scripts_come_to_it(rt.alloc(), &keys, 4, 300, 1000)
}

#[test]
fn drawn_calls_with_keys_of_one_hash_do(rt: HostRuntime) -> Result<(), Fail> {
    let mut keys = Vec::new(rt.alloc());
    for number in 0..64u32 {
        keys.push(colliding(number))?;
    }
    let keys = slices_of(rt.alloc(), &keys)?;
    long_scripts_come_to_it(rt.alloc(), &keys, 20, 40, 300)
}

#[test]
fn short_scripts_do(rt: HostRuntime) -> Result<(), Fail> {
    scripts_come_to_it(rt.alloc(), SEED, &KEYS, 2000, 0, 24)
}

#[test]
fn short_scripts_that_begin_with_adds_do(rt: HostRuntime) -> Result<(), Fail> {
    scripts_come_to_it(rt.alloc(), 0x2545f4914f6cdd1d, &KEYS, 2000, 2, 24)
}

#[test]
fn short_scripts_of_three_keys_do(rt: HostRuntime) -> Result<(), Fail> {
    scripts_come_to_it(rt.alloc(), 0x853c49e6748fea9b, &THREE, 2000, 0, 24)
}

#[test]
fn scripts_of_one_key_do(rt: HostRuntime) -> Result<(), Fail> {
    let keys: [&[u8]; 1] = [b"one"];
    scripts_come_to_it(rt.alloc(), 0xda942042e4dd58b5, &keys, 3000, 0, 32)?;
    scripts_come_to_it(rt.alloc(), 0xd1342543de82ef95, &keys, 4, 0, 900)
}

#[test]
fn long_scripts_do(rt: HostRuntime) -> Result<(), Fail> {
    scripts_come_to_it(rt.alloc(), 0xaef17502108ef2d9, &THREE, 20, 100, 400)
}

#[test]
fn scripts_of_a_thousand_keys_do(rt: HostRuntime) -> Result<(), Fail> {
    let mut keys = Vec::new(rt.alloc());
    for number in 0..1000u32 {
        keys.push(digits(number))?;
    }
    let keys = slices_of(rt.alloc(), &keys)?;
    scripts_come_to_it(rt.alloc(), 0x9fb21c651e98df25, &keys, 3, 500, 3000)
}

#[test]
fn wide_scripts_do(rt: HostRuntime) -> Result<(), Fail> {
    let mut state = 0x165667b19e3779f9;
    for _ in 0..500u32 {
        let calls = drawn_calls(rt.alloc(), &mut state, &KEYS, 0, 20)?;
        all_come_to::<Wide>(rt.alloc(), &calls, None)?;
    }
    Ok(())
}

/// Runs many scripts that append too, short ones and some of 2000 calls, of which each third has a
/// file of a few records at most. Answers how many calls were refused.
fn mixed_scripts_come_to_it<L: Width>(alloc: Global, seed: u64) -> Result<u64, Fail> {
    let (mut state, mut refused) = (seed, 0u64);
    for number in 0..1200u32 {
        let len = if number % 200 == 0 { 2000 } else { number % 40 };
        let calls = mixed_calls(alloc, &mut state, len)?;
        let most = if number % 3 == 1 { Some(552) } else { None };
        refused = refused.saturating_add(all_come_to::<L>(alloc, &calls, most)?);
    }
    Ok(refused)
}

#[test]
fn scripts_that_append_do(rt: HostRuntime) -> Result<(), Fail> {
    let refused = mixed_scripts_come_to_it::<Narrow>(rt.alloc(), SEED)?;
    assert!(rt; refused > 500, "{refused}");
    Ok(())
}

#[test]
fn wide_scripts_that_append_do(rt: HostRuntime) -> Result<(), Fail> {
    let refused = mixed_scripts_come_to_it::<Wide>(rt.alloc(), 0x2545f4914f6cdd1d)?;
    assert!(rt; refused > 500, "{refused}");
    Ok(())
}

#[test]
fn a_lazy_maker_is_full_where_an_eager_one_is(rt: HostRuntime) -> Result<(), Fail> {
    let (mut state, mut refused) = (0x94d049bb133111eb, 0u64);
    for _ in 0..2000u32 {
        let calls = drawn_calls(rt.alloc(), &mut state, &KEYS, 0, 24)?;
        let most = (draw(&mut state) % 400) as u16;
        refused = refused.saturating_add(all_come_to::<Narrow>(rt.alloc(), &calls, Some(most))?);
    }
    assert!(rt; refused > 5000, "{refused}");
    Ok(())
}
