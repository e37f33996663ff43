// Look-ups in files that are damaged, or that another program made.
use super::files::{changed, fused, two_file, wide_file};
use super::finding::{Answer, always_gives, gives, two_values, value};
use cdb_form::{Narrow, Wide};
use cdb_read::ReadFault;
use std::alloc::{AllocError, Global};
use std::prelude::*;
use std::test::Fail;

/// That nothing is left.
const NONE: Answer = Ok(None);

/// A damage, twice.
fn stays(fault: ReadFault) -> [Answer; 2] {
    [Err(fault), Err(fault)]
}

/// Returns true if in a file of words of 4 bytes two keys have these answers.
fn both(file: &Vec<u8>, one: &[Answer], two: &[Answer]) -> Result<bool, ReadFault> {
    Ok(always_gives::<Narrow>(file, b"one", one)? && always_gives::<Narrow>(file, b"two", two)?)
}

/// Returns true if a key has these answers in the file of the two records with other bytes from a
/// place on.
fn gives_with(
    alloc: Global,
    at: usize,
    bytes: &[u8],
    key: &[u8],
    wanted: &[Answer],
) -> Result<bool, ReadFault> {
    always_gives::<Narrow>(&changed(two_file(alloc)?, at, bytes), key, wanted)
}

/// And whether both of its keys have these.
fn both_with(
    alloc: Global,
    at: usize,
    bytes: &[u8],
    one: &[Answer],
    two: &[Answer],
) -> Result<bool, ReadFault> {
    both(&changed(two_file(alloc)?, at, bytes), one, two)
}

/// The values of `one` and of `two` in the file of the two records.
fn hello() -> [Answer; 2] {
    [value(2059, 5), NONE]
}

fn goodbye() -> [Answer; 2] {
    [value(2075, 7), NONE]
}

#[test]
fn damaged_tables_are_told_where_a_key_needs_them(rt: HostRuntime) -> Result<(), Fail> {
    let alloc = rt.alloc();
    // Table 7 begins at the file's end. The hash of the byte a2 is 177415.
    let (at, outside) = (56, b"\x42\x08\0\0\x01\0\0\0");
    let ones = b"\xff\xff\xff\xff\xff\xff\xff\xff";
    // A table at the end, for its key and for others; a pointer of all ones; a table in the head;
    // and an empty slot.
    let are_told = [
        gives_with(alloc, at, outside, b"\xa2", &stays(ReadFault::Table(7)))?,
        both_with(alloc, at, outside, &hello(), &goodbye())?,
        both_with(alloc, 1032, ones, &stays(ReadFault::Table(129)), &goodbye())?,
        both_with(alloc, 0, b"\x64\0\0\0\x01\0\0\0", &hello(), &goodbye())?,
        both_with(alloc, 2106, &[0; 8], &[NONE, NONE], &goodbye())?,
    ];
    assert!(rt; are_told == [true; 5], "{are_told:?}");
    Ok(())
}

#[test]
fn damaged_records_are_told_at_their_turn(rt: HostRuntime) -> Result<(), Fail> {
    let alloc = rt.alloc();
    let first = stays(ReadFault::Record(2048));
    let eight = [value(2075, 8), NONE];
    // A key longer than all; and a value with a byte more, which passes the record end and lies
    // inside the file.
    let are_told = [
        both_with(alloc, 2048, b"\xff\xff\xff\xff", &first, &goodbye())?,
        both_with(alloc, 2068, b"\x08", &hello(), &eight)?,
    ];
    assert!(rt; are_told == [true; 2], "{are_told:?}");
    let mut added = two_file(alloc)?;
    added.extend_from_slice(b"extra")?;
    let is_found = both(&added, &hello(), &goodbye())?;
    assert!(rt; is_found, "bytes at the end");
    Ok(())
}

#[test]
fn a_file_that_is_cut_has_lost_its_tables(rt: HostRuntime) -> Result<(), Fail> {
    for len in 2048..2114usize {
        let mut file = two_file(rt.alloc())?;
        file.truncate(len);
        let one = stays(ReadFault::Table(129));
        let two = if len < 2098 {
            stays(ReadFault::Table(41))
        } else {
            goodbye()
        };
        assert!(rt; both(&file, &one, &two) == Ok(true), "{len}");
    }
    Ok(())
}

/// A file of one record and a table of one slot, as another program may make it.
pub(super) fn foreign(alloc: Global) -> Result<Vec<u8>, AllocError> {
    let mut file = vec![in alloc; 0u8; 1568]?;
    file.extend_from_slice(b"\x0a\x08\0\0\x01\0\0\0")?;
    for _ in 1576..2048usize {
        file.push(0)?;
    }
    file.extend_from_slice(b"\x01\0\0\0\x01\0\0\0a1\xc4\xb5\x02\0\0\x08\0\0")?;
    Ok(file)
}

#[test]
fn files_of_another_program_are_looked_up(rt: HostRuntime) -> Result<(), Fail> {
    let alloc = rt.alloc();
    let full = foreign(alloc)?;
    let turned = two_values(alloc, [(177604, 2048), (177604, 2058)])?;
    let both = [value(2067, 1), value(2057, 1), NONE];
    let zeros = vec![in alloc; 0u8; 2048]?;
    // A full table of one slot, and another key of it; the second value first; a head of zeros.
    let are_found = [
        always_gives::<Narrow>(&full, b"a", &[value(2057, 1), NONE])?,
        always_gives::<Narrow>(&full, b"bc", &[NONE, NONE])?,
        always_gives::<Narrow>(&turned, b"a", &both)?,
        always_gives::<Narrow>(&zeros, b"a", &[NONE, NONE])?,
    ];
    assert!(rt; are_found == [true; 4], "{are_found:?}");
    Ok(())
}

#[test]
fn a_look_up_asks_for_one_slot_where_there_is_one(rt: HostRuntime) -> Result<(), Fail> {
    // The head, and then the slot, which is the file's end.
    let asked = gives::<Narrow>(fused(foreign(rt.alloc())?, u64::MAX), b"bc", &[NONE]);
    assert!(rt; asked == Ok((true, 2)), "{asked:?}");
    Ok(())
}

/// The hash of `one`, and its place, in words of 8 bytes.
const WIDE_SLOT: &[u8] = b"\x81\x5b\x87\x0b\0\0\0\0\0\x10\0\0\0\0\0\0";

#[test]
fn wide_slots_are_read_whole(rt: HostRuntime) -> Result<(), Fail> {
    let alloc = rt.alloc();
    // A hash with a bit above those of any key, in the home slot: no key has it. Then the search
    // goes round. And a place of all ones.
    let high = changed(wide_file(alloc)?, 4140, b"\x01");
    let none = always_gives::<Wide>(&high, b"one", &[NONE, NONE])?;
    let round = changed(high, 4120, WIDE_SLOT);
    let ones = changed(wide_file(alloc)?, 4144, b"\xff\xff\xff\xff\xff\xff\xff\xff");
    let are_told = [
        none,
        always_gives::<Wide>(&round, b"one", &[value(4115, 5), NONE])?,
        always_gives::<Wide>(&ones, b"one", &stays(ReadFault::Record(u64::MAX)))?,
    ];
    assert!(rt; are_told == [true; 3], "{are_told:?}");
    Ok(())
}
