// Look-ups: values in order, damage, and a store that fails each call in turn.
use super::counting::four_file;
use super::files::{Fused, changed, fused, opened_again, two_file, wide_file};
use cdb_form::{Narrow, Wide, Width};
use cdb_read::{Finder, ReadFault, Span};
use std::alloc::{AllocError, Global};
use std::prelude::*;
use std::test::Fail;

/// What a call of a finder answers.
pub(super) type Answer = Result<Option<Span>, ReadFault>;

/// The next answer of a finder whose store fails at most one call; after that failure `next` is
/// called again.
fn next_again<L: Width>(finder: &mut Finder<'_, Fused, L>) -> Answer {
    match finder.next() {
        Err(ReadFault::Device) => finder.next(),
        answer => answer,
    }
}

/// Whether the look-up of a key gives these answers, and how many calls the store then counted.
pub(super) fn gives<L: Width>(
    store: Fused,
    key: &[u8],
    wanted: &[Answer],
) -> Result<(bool, u64), ReadFault> {
    let mut reader = opened_again::<L>(store)?;
    let mut finder = reader.find(key);
    let mut same = true;
    for answer in wanted {
        same = same && next_again(&mut finder) == *answer;
    }
    Ok((same, reader.into_store().calls()))
}

/// Returns true if the look-up gives these answers whichever call of the store fails.
pub(super) fn always_gives<L: Width>(
    file: &Vec<u8>,
    key: &[u8],
    wanted: &[Answer],
) -> Result<bool, ReadFault> {
    let (mut same, calls) = gives::<L>(fused(file.clone()?, u64::MAX), key, wanted)?;
    for fails in 0..calls.min(20) {
        let (now, _) = gives::<L>(fused(file.clone()?, fails), key, wanted)?;
        same = same && now;
    }
    Ok(same)
}

/// A value's span.
pub(super) fn value(place: u64, len: u64) -> Answer {
    Ok(Some(Span { place, len }))
}

/// Adds two words of 4 bytes.
fn push_pair(file: &mut Vec<u8>, first: u32, second: u32) -> Result<(), AllocError> {
    file.extend_from_slice(&first.to_le_bytes())?;
    file.extend_from_slice(&second.to_le_bytes())?;
    Ok(())
}

/// A file whose table 196 has these slots, at 2068, after the records of `a` with the values 1 and
/// 2 at 2048 and 2058.
pub(super) fn two_values(alloc: Global, slots: [(u32, u32); 2]) -> Result<Vec<u8>, AllocError> {
    let mut file = Vec::new(alloc);
    for n in 0..256usize {
        let many = if n == 196 { 2 } else { 0 };
        push_pair(&mut file, 2068, many)?;
    }
    file.extend_from_slice(b"\x01\0\0\0\x01\0\0\0a1\x01\0\0\0\x01\0\0\0a2")?;
    for slot in slots {
        push_pair(&mut file, slot.0, slot.1)?;
    }
    Ok(file)
}

#[test]
fn the_values_of_worked_files_are_found(rt: HostRuntime) -> Result<(), Fail> {
    let file = two_file(rt.alloc())?;
    let wide = wide_file(rt.alloc())?;
    let are_found = [
        always_gives::<Narrow>(&file, b"one", &[value(2059, 5), Ok(None), Ok(None)])?,
        always_gives::<Narrow>(&file, b"two", &[value(2075, 7), Ok(None), Ok(None)])?,
        always_gives::<Narrow>(&file, b"zzz", &[Ok(None), Ok(None)])?,
        always_gives::<Wide>(&wide, b"one", &[value(4115, 5), Ok(None), Ok(None)])?,
    ];
    assert!(rt; are_found == [true; 4], "{are_found:?}");
    Ok(())
}

#[test]
fn four_values_are_found_whichever_call_of_the_store_fails(rt: HostRuntime) -> Result<(), Fail> {
    let wanted = [
        value(2057, 1),
        value(2067, 1),
        value(2077, 1),
        value(2087, 1),
        Ok(None),
        Ok(None),
    ];
    let four = always_gives::<Narrow>(&four_file(rt.alloc())?, b"a", &wanted);
    assert!(rt; four == Ok(true), "{four:?}");
    Ok(())
}

#[test]
fn a_look_up_reads_little(rt: HostRuntime) -> Result<(), Fail> {
    let file = two_file(rt.alloc())?;
    // The head; then some slots, and a header with its key.
    let one = gives::<Narrow>(fused(file.clone()?, u64::MAX), b"one", &[value(2059, 5)]);
    assert!(rt; one == Ok((true, 3)), "a key that is there");
    let none = gives::<Narrow>(fused(file, u64::MAX), b"owt", &[Ok(None)]);
    assert!(rt;
        none.is_ok_and(|it| it.0 && it.1 <= 2),
        "a key that is not there"
    );
    Ok(())
}

#[test]
fn a_search_goes_round(rt: HostRuntime) -> Result<(), Fail> {
    // The home of `a` is slot 693 % 2 = 1. No slot is empty.
    let file = two_values(rt.alloc(), [(177604, 2058), (177604, 2048)])?;
    let wanted = [value(2057, 1), value(2067, 1), Ok(None), Ok(None)];
    let both = always_gives::<Narrow>(&file, b"a", &wanted);
    assert!(rt; both == Ok(true), "a full table");
    Ok(())
}

#[test]
fn a_damage_is_met_and_stays(rt: HostRuntime) -> Result<(), Fail> {
    // The slot of `two` has 2065 instead of 2064.
    let file = changed(two_file(rt.alloc())?, 2086, b"\x11");
    let damage = Err(ReadFault::Record(2065));
    let met = [
        always_gives::<Narrow>(&file, b"two", &[damage, damage])?,
        always_gives::<Narrow>(&file, b"one", &[value(2059, 5), Ok(None)])?,
    ];
    assert!(rt; met == [true; 2], "a place of no record: {met:?}");
    let mut cut = two_file(rt.alloc())?;
    cut.truncate(2100);
    let damage = Err(ReadFault::Table(129));
    let met = always_gives::<Narrow>(&cut, b"one", &[damage, damage])?;
    assert!(rt; met, "a table that passes the end");
    Ok(())
}

/// Adds a finder's next value, if any. A copy that failed is made again, and what it had written is
/// left out.
fn copy_next(
    alloc: Global,
    finder: &mut Finder<'_, Fused, Narrow>,
    out: &mut Vec<u8>,
) -> Result<bool, ReadFault> {
    let Some(span) = finder.next()? else {
        return Ok(false);
    };
    let mut piece = Vec::new(alloc);
    if finder.copy(span, &mut piece) == Err(ReadFault::Device) {
        piece = Vec::new(alloc);
        finder.copy(span, &mut piece)?;
    }
    out.extend_from_slice(&piece)?;
    Ok(true)
}

/// All values of a key, copied by a finder whose store fails at most one call; after that failure
/// the finder is called again.
fn all_copied(alloc: Global, store: Fused, key: &[u8]) -> Result<Vec<u8>, ReadFault> {
    let mut out = Vec::new(alloc);
    let mut reader = opened_again::<Narrow>(store)?;
    let mut finder = reader.find(key);
    for _ in 0..10u8 {
        let is_more = match copy_next(alloc, &mut finder, &mut out) {
            Err(ReadFault::Device) => copy_next(alloc, &mut finder, &mut out)?,
            answer => answer?,
        };
        if !is_more {
            break;
        }
    }
    Ok(out)
}

/// Returns true if the four values of `a` are copied though the store fails its call of a number.
fn copies_four(alloc: Global, fails: u64) -> Result<bool, ReadFault> {
    let copied = all_copied(alloc, fused(four_file(alloc)?, fails), b"a")?;
    Ok(copied.as_slice() == b"1234".as_slice())
}

#[test]
fn four_values_are_copied_whichever_call_of_the_store_fails(rt: HostRuntime) -> Result<(), Fail> {
    // The head; the slots, twice since they go round; a header with its key and a value, four
    // times.
    for fails in 0..16u64 {
        assert!(rt; copies_four(rt.alloc(), fails) == Ok(true), "{fails}");
    }
    Ok(())
}

/// What a finder's copy of a key's first value leaves.
fn first_copied(alloc: Global, file: Vec<u8>, key: &[u8]) -> Result<Vec<u8>, ReadFault> {
    let mut out = Vec::new(alloc);
    let mut reader = opened_again::<Narrow>(fused(file, u64::MAX))?;
    let mut finder = reader.find(key);
    if let Some(span) = finder.next()? {
        finder.copy(span, &mut out)?;
    }
    Ok(out)
}

#[test]
fn a_value_that_was_found_is_copied(rt: HostRuntime) -> Result<(), Fail> {
    let alloc = rt.alloc();
    let found = first_copied(alloc, two_file(alloc)?, b"one")?;
    assert!(rt; found.as_slice() == b"Hello".as_slice(), "one");
    let none = first_copied(alloc, two_file(alloc)?, b"zzz")?;
    assert!(rt; none.is_empty(), "zzz");
    Ok(())
}
