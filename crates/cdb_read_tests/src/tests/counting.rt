// Statistics of worked, damaged and foreign files, and a store that fails each call in turn.
use super::damaged::foreign;
use super::files::{Fused, changed, fused, opened_again, two_file, wide_file};
use cdb_form::{Narrow, Wide, Width};
use cdb_read::{ReadFault, Stats, stats};
use std::alloc::{AllocError, Global};
use std::prelude::*;
use std::test::Fail;

/// What a count answers.
type Answer = Result<Stats, ReadFault>;

/// What `stats` counts of a file whose store fails at most one call; after that failure it is
/// called again. And how many calls the store then counted.
fn counted<L: Width>(store: Fused) -> Result<(Answer, u64), ReadFault> {
    let mut reader = opened_again::<L>(store)?;
    let answer = match stats(&mut reader) {
        Err(ReadFault::Device) => stats(&mut reader),
        answer => answer,
    };
    Ok((answer, reader.into_store().calls()))
}

/// Returns true if this is counted of a file whichever call of the store fails.
fn always_counts<L: Width>(file: &Vec<u8>, wanted: Answer) -> Result<bool, ReadFault> {
    let (answer, calls) = counted::<L>(fused(file.clone()?, u64::MAX))?;
    let mut same = answer == wanted;
    for fails in 0..calls.min(20) {
        let (answer, _) = counted::<L>(fused(file.clone()?, fails))?;
        same = same && answer == wanted;
    }
    Ok(same)
}

/// Returns true if this is counted of the file of two records with other bytes from a place on.
fn counts_with(alloc: Global, at: usize, bytes: &[u8], wanted: Answer) -> Result<bool, ReadFault> {
    always_counts::<Narrow>(&changed(two_file(alloc)?, at, bytes), wanted)
}

/// Statistics: how many records; the least, average and greatest key and value; how many tables,
/// entries and collisions; the least, average and greatest table; and the first distances.
fn numbers(
    records: u64,
    keys: [u64; 3],
    values: [u64; 3],
    tables: [u64; 3],
    sizes: [u64; 3],
    first: [u64; 4],
) -> Answer {
    Ok(Stats {
        records,
        key_least: keys[0],
        key_average: keys[1],
        key_greatest: keys[2],
        value_least: values[0],
        value_average: values[1],
        value_greatest: values[2],
        tables: tables[0],
        entries: tables[1],
        collisions: tables[2],
        size_least: sizes[0],
        size_average: sizes[1],
        size_greatest: sizes[2],
        distances: [first[0], first[1], first[2], first[3], 0, 0, 0, 0, 0, 0, 0],
    })
}

/// The numbers of the file of two records, whose tables, entries and sizes may be others.
fn of_two(tables: [u64; 3], sizes: [u64; 3], first: [u64; 4]) -> Answer {
    numbers(2, [3, 3, 3], [5, 6, 7], tables, sizes, first)
}

/// The file of four values of the key `a`: its slots go round from the last to the first.
pub(super) fn four_file(alloc: Global) -> Result<Vec<u8>, AllocError> {
    let mut file = vec![in alloc; 0u8; 1568]?;
    file.extend_from_slice(b"\x28\x08\0\0\x08\0\0\0")?;
    for _ in 1576..2048usize {
        file.push(0)?;
    }
    file.extend_from_slice(b"\x01\0\0\0\x01\0\0\0a1\x01\0\0\0\x01\0\0\0a2")?;
    file.extend_from_slice(b"\x01\0\0\0\x01\0\0\0a3\x01\0\0\0\x01\0\0\0a4")?;
    file.extend_from_slice(b"\xc4\xb5\x02\0\x1e\x08\0\0")?;
    for _ in 0..32usize {
        file.push(0)?;
    }
    file.extend_from_slice(b"\xc4\xb5\x02\0\0\x08\0\0\xc4\xb5\x02\0\x0a\x08\0\0")?;
    file.extend_from_slice(b"\xc4\xb5\x02\0\x14\x08\0\0")?;
    Ok(file)
}

#[test]
fn worked_files_are_counted(rt: HostRuntime) -> Result<(), Fail> {
    let alloc = rt.alloc();
    let two = of_two([2, 2, 0], [2, 2, 2], [2, 0, 0, 0]);
    let four = numbers(4, [1, 1, 1], [1, 1, 1], [1, 4, 3], [8, 8, 8], [1, 1, 1, 1]);
    let none = numbers(0, [0; 3], [0; 3], [0; 3], [0; 3], [0; 4]);
    let wide = numbers(1, [3, 3, 3], [5, 5, 5], [1, 1, 0], [2, 2, 2], [1, 0, 0, 0]);
    // Two records; four values of one key; a head of zeros; and in words of 8 bytes.
    let are_counted = [
        always_counts::<Narrow>(&two_file(alloc)?, two)?,
        always_counts::<Narrow>(&four_file(alloc)?, four)?,
        always_counts::<Narrow>(&vec![in alloc; 0u8; 2048]?, none)?,
        always_counts::<Wide>(&wide_file(alloc)?, wide)?,
    ];
    assert!(rt; are_counted == [true; 4], "{are_counted:?}");
    Ok(())
}

#[test]
fn damaged_files_are_not_counted(rt: HostRuntime) -> Result<(), Fail> {
    let alloc = rt.alloc();
    // Table 7 begins at the file's end.
    let outside = b"\x42\x08\0\0\x01\0\0\0";
    let ones = b"\xff\xff\xff\xff\xff\xff\xff\xff";
    // A table at the end, one in the head; a pointer of all ones; and a value with a byte more,
    // which passes the record end.
    let are_told = [
        counts_with(alloc, 56, outside, Err(ReadFault::Table(7)))?,
        counts_with(alloc, 0, b"\x64\0\0\0\x01\0\0\0", Err(ReadFault::Table(0)))?,
        counts_with(alloc, 1032, ones, Err(ReadFault::Table(129)))?,
        counts_with(alloc, 2068, b"\x08", Err(ReadFault::Record(2064)))?,
    ];
    assert!(rt; are_told == [true; 4], "{are_told:?}");
    let both = changed(changed(two_file(alloc)?, 56, outside), 2068, b"\x08");
    let is_told = always_counts::<Narrow>(&both, Err(ReadFault::Table(7)))?;
    assert!(rt; is_told, "a table is told before a record");
    Ok(())
}

#[test]
fn tables_of_other_programs_are_counted(rt: HostRuntime) -> Result<(), Fail> {
    let alloc = rt.alloc();
    // Table 7 has the four slots of tables 41 and 129, two of them used.
    let twice = of_two([3, 4, 0], [2, 2, 4], [4, 0, 0, 0]);
    let full = numbers(1, [1, 1, 1], [1, 1, 1], [1, 1, 0], [1, 1, 1], [1, 0, 0, 0]);
    // Tables that overlap, and one without an empty slot.
    let are_counted = [
        counts_with(alloc, 56, b"\x22\x08\0\0\x04\0\0\0", twice)?,
        always_counts::<Narrow>(&foreign(alloc)?, full)?,
    ];
    assert!(rt; are_counted == [true; 2], "{are_counted:?}");
    Ok(())
}

/// What is counted of a table of 1024 slots: its collisions, the last of its distances, and how
/// many calls the store counted.
fn of_many(alloc: Global) -> Result<(u64, [u64; 3], u64), ReadFault> {
    let mut file = vec![in alloc; 0u8; 10240]?;
    file = changed(file, 0, b"\0\x08\0\0\0\x04\0\0");
    // In slot 0 a hash of slot 1023, in slot 12 one of slot 0, and in slot 1000 one of slot 999.
    file = changed(file, 2048, b"\0\xff\x03\0\x01\0\0\0");
    file = changed(file, 2144, b"\0\0\0\0\x01\0\0\0");
    file = changed(file, 10048, b"\0\xe7\x03\0\x01\0\0\0");
    let (answer, calls) = counted::<Narrow>(fused(file, u64::MAX))?;
    let seen = answer?;
    let distances = [seen.distances[1], seen.distances[9], seen.distances[10]];
    Ok((seen.collisions, distances, calls))
}

#[test]
fn many_slots_are_read_at_once(rt: HostRuntime) -> Result<(), Fail> {
    // The head, and 8192 bytes of slots.
    let answer = of_many(rt.alloc());
    assert!(rt; answer == Ok((3, [2, 0, 1], 3)), "{answer:?}");
    Ok(())
}
