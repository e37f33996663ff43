// Checks of worked, damaged and foreign files, and a store that fails each call in turn.
use super::counting::four_file;
use super::damaged::foreign;
use super::files::{Fused, changed, fused, opened_again, two_file, wide_file};
use super::finding::two_values;
use cdb_form::{Narrow, Wide, Width};
use cdb_read::{ReadFault, check};
use std::alloc::{AllocError, Global};
use std::prelude::*;
use std::test::Fail;

/// What a check answers.
type Answer = Result<(), ReadFault>;

/// What a check reports of a file whose store fails at most one call; after that failure it is
/// called again. And how many calls the store then counted.
fn checked<L: Width>(alloc: Global, store: Fused) -> Result<(Answer, u64), ReadFault> {
    let mut reader = opened_again::<L>(store)?;
    let answer = match check(alloc, &mut reader) {
        Err(ReadFault::Device) => check(alloc, &mut reader),
        answer => answer,
    };
    Ok((answer, reader.into_store().calls()))
}

/// Returns true if a check of a file answers this whichever call of the store fails.
fn always_answers<L: Width>(
    alloc: Global,
    file: &Vec<u8>,
    wanted: Answer,
) -> Result<bool, ReadFault> {
    let (answer, calls) = checked::<L>(alloc, fused(file.clone()?, u64::MAX))?;
    let mut same = answer == wanted;
    for fails in 0..calls.min(20) {
        let (answer, _) = checked::<L>(alloc, fused(file.clone()?, fails))?;
        same = same && answer == wanted;
    }
    Ok(same)
}

/// Returns true if a check always reports this of the file of two records with other bytes from a
/// place on.
fn of_two(alloc: Global, at: usize, bytes: &[u8], wanted: Answer) -> Result<bool, ReadFault> {
    always_answers::<Narrow>(alloc, &changed(two_file(alloc)?, at, bytes), wanted)
}

/// What a check reports of the file of two records with other bytes from a place on, and of which
/// change.
type Row<'a> = (&'a str, usize, &'a [u8], Answer);

/// The first of these rows that a check does not always report. Empty if it reports each.
fn not_told<'a>(alloc: Global, rows: &[Row<'a>]) -> Result<&'a str, ReadFault> {
    for (change, at, bytes, wanted) in rows {
        if !of_two(alloc, *at, bytes, *wanted)? {
            return Ok(change);
        }
    }
    Ok("")
}

/// And of that file with so many bytes.
fn of_cut(alloc: Global, len: usize, wanted: Answer) -> Result<bool, ReadFault> {
    let mut file = two_file(alloc)?;
    file.truncate(len);
    always_answers::<Narrow>(alloc, &file, wanted)
}

/// And of the file in words of 8 bytes, with other bytes from a place on.
fn of_wide(alloc: Global, at: usize, bytes: &[u8], wanted: Answer) -> Result<bool, ReadFault> {
    always_answers::<Wide>(alloc, &changed(wide_file(alloc)?, at, bytes), wanted)
}

/// And of the file of two values of `a`, whose table has these two slots.
fn of_slots(alloc: Global, slots: [(u32, u32); 2], wanted: Answer) -> Result<bool, ReadFault> {
    always_answers::<Narrow>(alloc, &two_values(alloc, slots)?, wanted)
}

#[test]
fn worked_files_are_sound(rt: HostRuntime) -> Result<(), Fail> {
    let alloc = rt.alloc();
    let two = of_two(alloc, 0, b"", Ok(()))?;
    let four = always_answers::<Narrow>(alloc, &four_file(alloc)?, Ok(()))?;
    let mut longer = two_file(alloc)?;
    longer.extend_from_slice(&[1; 5])?;
    let longer = always_answers::<Narrow>(alloc, &longer, Ok(()))?;
    let zeros = always_answers::<Narrow>(alloc, &vec![in alloc; 0u8; 2048]?, Ok(()))?;
    let wide = of_wide(alloc, 0, b"", Ok(()))?;
    // Two records; four values of one key; five bytes after the tables; a head of zeros; and in
    // words of 8 bytes.
    assert!(rt; [two, four, longer, zeros, wide] == [true; 5]);
    Ok(())
}

#[test]
fn files_of_other_programs_are_sound(rt: HostRuntime) -> Result<(), Fail> {
    let alloc = rt.alloc();
    let one = always_answers::<Narrow>(alloc, &foreign(alloc)?, Ok(()))?;
    assert!(rt; one, "a table of one slot");
    let full = of_slots(alloc, [(177604, 2058), (177604, 2048)], Ok(()))?;
    let turned = of_slots(alloc, [(177604, 2048), (177604, 2058)], Ok(()))?;
    assert!(rt; full && turned, "no empty slot");
    // Table 7 has the empty slots of tables 41 and 129.
    let shared = of_two(alloc, 56, b"\x2a\x08\0\0\x02\0\0\0", Ok(()))?;
    assert!(rt; shared, "tables that share empty slots");
    Ok(())
}

const TABLES: [Row<'static>; 8] = [
    (
        "a table at the end",
        56,
        b"\x42\x08\0\0\x01\0\0\0",
        Err(ReadFault::Table(7)),
    ),
    (
        "a table in the head",
        0,
        b"\x64\0\0\0\x01\0\0\0",
        Err(ReadFault::Table(0)),
    ),
    (
        "the last table",
        2040,
        b"\x42\x08\0\0\x01\0\0\0",
        Err(ReadFault::Table(255)),
    ),
    (
        "a pointer of all ones",
        1032,
        b"\xff\xff\xff\xff\xff\xff\xff\xff",
        Err(ReadFault::Table(129)),
    ),
    (
        "a key length of all ones",
        2048,
        b"\xff\xff\xff\xff",
        Err(ReadFault::Record(2048)),
    ),
    (
        "a value that passes the record end",
        2068,
        b"\x08",
        Err(ReadFault::Record(2064)),
    ),
    // The records end where the first table begins, so none is whole.
    (
        "a table within a record",
        56,
        b"\x08\x08\0\0\x01\0\0\0",
        Err(ReadFault::Record(2048)),
    ),
    // It has the bytes of the second record as its slot.
    (
        "a table in place of a record",
        56,
        b"\x10\x08\0\0\x01\0\0\0",
        Err(ReadFault::Slot(7, 0)),
    ),
];

#[test]
fn tables_and_records_are_told(rt: HostRuntime) -> Result<(), Fail> {
    let other = not_told(rt.alloc(), &TABLES)?;
    assert!(rt; other.is_empty(), "{other}");
    let ones = of_wide(rt.alloc(), 4096, &[0xff; 16], Err(ReadFault::Record(4096)))?;
    assert!(rt; ones, "a wide header of all ones");
    Ok(())
}

#[test]
fn a_file_that_is_cut_has_lost_its_tables(rt: HostRuntime) -> Result<(), Fail> {
    for len in 2048..2114usize {
        let lost = if len < 2098 { 41 } else { 129 };
        let cut = of_cut(rt.alloc(), len, Err(ReadFault::Table(lost)));
        assert!(rt; cut == Ok(true), "{len}");
    }
    Ok(())
}

const SLOTS: [Row<'static>; 7] = [
    (
        "no record's place",
        2086,
        b"\x11",
        Err(ReadFault::Slot(41, 0)),
    ),
    (
        "a place of all ones",
        2086,
        b"\xff\xff\xff\xff",
        Err(ReadFault::Slot(41, 0)),
    ),
    ("another hash", 2083, b"\x61", Err(ReadFault::Slot(41, 0))),
    (
        "in the table of another",
        2090,
        b"\x81\x5b\x87\x0b\0\x08\0\0",
        Err(ReadFault::Slot(41, 1)),
    ),
    // Its place is that of an earlier slot, too.
    (
        "wrong before it is the second of a record",
        2098,
        b"\x29\x60\x87\x0b\x10\x08\0\0",
        Err(ReadFault::Slot(129, 0)),
    ),
    // Table 7 has all four slots.
    (
        "tables that share used slots",
        56,
        b"\x22\x08\0\0\x04\0\0\0",
        Err(ReadFault::Slot(7, 0)),
    ),
    // Table 41 has three slots, of which the home of its hash is empty.
    (
        "a slot that its search does not come to",
        332,
        b"\x03",
        Err(ReadFault::Slot(41, 0)),
    ),
];

#[test]
fn wrong_slots_are_told(rt: HostRuntime) -> Result<(), Fail> {
    let other = not_told(rt.alloc(), &SLOTS)?;
    assert!(rt; other.is_empty(), "{other}");
    Ok(())
}

#[test]
fn wide_slots_are_told(rt: HostRuntime) -> Result<(), Fail> {
    let alloc = rt.alloc();
    let slot = Err(ReadFault::Slot(129, 1));
    let high = of_wide(alloc, 4140, b"\x01", slot)?;
    assert!(rt; high, "a hash of 33 bits");
    let ones = of_wide(alloc, 4144, b"\xff\xff\xff\xff\xff\xff\xff\xff", slot)?;
    assert!(rt; ones, "a place of all ones");
    let lost = of_wide(alloc, 4136, &[0; 16], Err(ReadFault::Unindexed(4096)))?;
    assert!(rt; lost, "a slot taken away");
    Ok(())
}

#[test]
fn slots_and_records_have_one_another(rt: HostRuntime) -> Result<(), Fail> {
    let alloc = rt.alloc();
    let twice = changed(four_file(alloc)?, 2092, b"\x14");
    let twice = always_answers::<Narrow>(alloc, &twice, Err(ReadFault::Twice(2068)))?;
    assert!(rt; twice, "two slots of one record");
    let both = [(177604, 2048), (177604, 2048)];
    let both = of_slots(alloc, both, Err(ReadFault::Twice(2048)))?;
    assert!(rt; both, "told before the other is lost");
    let lost = of_two(alloc, 2106, &[0; 8], Err(ReadFault::Unindexed(2048)))?;
    assert!(rt; lost, "a slot taken away");
    Ok(())
}

/// A file of a record of an empty key and an empty value, whose slot is after an empty one.
fn behind_empty(alloc: Global) -> Result<Vec<u8>, AllocError> {
    let mut file = vec![in alloc; 0u8; 2072]?;
    file = changed(file, 40, b"\x08\x08\0\0\x02\0\0\0");
    Ok(changed(file, 2056, b"\x05\x15\0\0\0\x08\0\0"))
}

#[test]
fn a_slot_behind_an_empty_one_is_told(rt: HostRuntime) -> Result<(), Fail> {
    let file = behind_empty(rt.alloc())?;
    let behind = always_answers::<Narrow>(rt.alloc(), &file, Err(ReadFault::Slot(5, 0)));
    assert!(rt; behind == Ok(true), "{behind:?}");
    Ok(())
}

/// The number of records that the long table has.
const MANY: u32 = 300;

/// A file of 300 values of the key `a`, whose table 196 has no empty slot: the slot of the first
/// one is slot `first`, and the others follow it, round the table's end.
fn full_file(alloc: Global, first: u32) -> Result<Vec<u8>, AllocError> {
    let mut file = vec![in alloc; 0u8; 2048]?;
    file = changed(file, 1568, b"\xb8\x13\0\0\x2c\x01\0\0");
    for _ in 0..MANY {
        file.extend_from_slice(b"\x01\0\0\0\x01\0\0\0a1")?;
    }
    for i in 0..MANY {
        let n = (i + (MANY - first.min(MANY))) % MANY;
        file.extend_from_slice(&177604u32.to_le_bytes())?;
        file.extend_from_slice(&(2048 + 10 * n).to_le_bytes())?;
    }
    Ok(file)
}

/// What a check reports of it with other bytes from a place on, and after how many calls of the
/// store.
fn of_full(alloc: Global, first: u32, at: usize, bytes: &[u8]) -> Result<(Answer, u64), ReadFault> {
    let file = changed(full_file(alloc, first)?, at, bytes);
    checked::<Narrow>(alloc, fused(file, u64::MAX))
}

/// In the first three files the slots begin at their home, at the next slot, and at slot 0. In the
/// other two slot 92, to which a search comes last, or slot 93, with which it begins, is empty.
const FULL: [(u32, usize, &[u8], Answer); 5] = [
    (93, 0, b"", Ok(())),
    (94, 0, b"", Ok(())),
    (0, 0, b"", Ok(())),
    (
        93,
        5784,
        b"\0\0\0\0\0\0\0\0",
        Err(ReadFault::Unindexed(5038)),
    ),
    (93, 5792, b"\0\0\0\0\0\0\0\0", Err(ReadFault::Slot(196, 0))),
];

#[test]
fn a_full_table_is_checked(rt: HostRuntime) -> Result<(), Fail> {
    for &(first, at, bytes, wanted) in &FULL {
        // The head, the records with some slots, and all slots.
        let told = of_full(rt.alloc(), first, at, bytes)?;
        assert!(rt; told == (wanted, 3), "from slot {first} on, and {at}");
    }
    Ok(())
}

/// What a check reports of a file of a record with a key of 5000 bytes, of which the last is this
/// byte.
fn of_long_key(alloc: Global, last: u8) -> Result<(Answer, u64), ReadFault> {
    let mut file = vec![in alloc; 0u8; 2048]?;
    file = changed(file, 1064, b"\x90\x1b\0\0\x01\0\0\0");
    file.extend_from_slice(b"\x88\x13\0\0\0\0\0\0")?;
    file.extend_from_slice(&[b'k'; 4999])?;
    file.push(last)?;
    file.extend_from_slice(&425436805u32.to_le_bytes())?;
    file.extend_from_slice(b"\0\x08\0\0")?;
    checked::<Narrow>(alloc, fused(file, u64::MAX))
}

#[test]
fn a_long_key_is_hashed(rt: HostRuntime) -> Result<(), Fail> {
    let long = of_long_key(rt.alloc(), b'k');
    assert!(rt; long.is_ok_and(|it| it.0 == Ok(())), "its hash");
    let other = of_long_key(rt.alloc(), b'l');
    let wrong = Err(ReadFault::Slot(133, 0));
    assert!(rt; other.is_ok_and(|it| it.0 == wrong), "another hash");
    Ok(())
}
