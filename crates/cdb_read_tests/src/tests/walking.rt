// Walks: records in order, damage, and a store that fails each call in turn.
use super::counting::four_file;
use super::files::{Fused, changed, fused, opened_again, two_file, wide_file};
use cdb_form::{Narrow, Wide, Width};
use cdb_read::{Pair, ReadFault, Span, Walk, walk};
use std::alloc::{AllocError, Global};
use std::prelude::*;
use std::test::Fail;

/// What a call of a walk answers.
pub(super) type Answer = Result<Option<Pair>, ReadFault>;

/// The next answer of a walk whose store fails at most one call; after that failure `next` is
/// called again.
fn next_again<L: Width>(records: &mut Walk<'_, Fused, L>) -> Answer {
    match records.next() {
        Err(ReadFault::Device) => records.next(),
        answer => answer,
    }
}

/// Whether a walk gives these answers, and how many calls the store then counted.
fn gives<L: Width>(store: Fused, wanted: &[Answer]) -> Result<(bool, u64), ReadFault> {
    let mut reader = opened_again::<L>(store)?;
    let mut records = walk(&mut reader);
    let mut same = true;
    for answer in wanted {
        same = same && next_again(&mut records) == *answer;
    }
    Ok((same, reader.into_store().calls()))
}

/// Returns true if the walk gives these answers whichever call of the store fails.
fn always_gives<L: Width>(file: &Vec<u8>, wanted: &[Answer]) -> Result<bool, ReadFault> {
    let (mut same, calls) = gives::<L>(fused(file.clone()?, u64::MAX), wanted)?;
    for fails in 0..calls.min(20) {
        let (now, _) = gives::<L>(fused(file.clone()?, fails), wanted)?;
        same = same && now;
    }
    Ok(same)
}

/// Returns true if a walk of the file of two records with other bytes from a place on gives these
/// answers.
fn walks_with(
    alloc: Global,
    at: usize,
    bytes: &[u8],
    wanted: &[Answer],
) -> Result<bool, ReadFault> {
    always_gives::<Narrow>(&changed(two_file(alloc)?, at, bytes), wanted)
}

/// A record at a place, with these lengths, whose header has so many bytes.
pub(super) fn pair(place: u64, header: u64, klen: u64, vlen: u64) -> Answer {
    let place = place.min(1 << 32);
    let (header, klen) = (header.min(16), klen.min(1 << 32));
    let key = Span {
        place: place + header,
        len: klen,
    };
    let value = Span {
        place: place + header + klen,
        len: vlen,
    };
    Ok(Some(Pair { place, key, value }))
}

/// The records of the file of two.
pub(super) const ONE: (u64, u64, u64, u64) = (2048, 8, 3, 5);

pub(super) const TWO: (u64, u64, u64, u64) = (2064, 8, 3, 7);

/// The record of these numbers.
pub(super) fn given(at: (u64, u64, u64, u64)) -> Answer {
    pair(at.0, at.1, at.2, at.3)
}

#[test]
fn the_records_of_worked_files_are_walked(rt: HostRuntime) -> Result<(), Fail> {
    let two = [given(ONE), given(TWO), Ok(None), Ok(None)];
    let wide = [pair(4096, 16, 3, 5), Ok(None), Ok(None)];
    let zeros = vec![in rt.alloc(); 0u8; 2048]?;
    let four = [
        pair(2048, 8, 1, 1),
        pair(2058, 8, 1, 1),
        pair(2068, 8, 1, 1),
        pair(2078, 8, 1, 1),
        Ok(None),
        Ok(None),
    ];
    // Two records; four values of one key; in words of 8 bytes; and a head of zeros.
    let are_walked = [
        always_gives::<Narrow>(&two_file(rt.alloc())?, &two)?,
        always_gives::<Narrow>(&four_file(rt.alloc())?, &four)?,
        always_gives::<Wide>(&wide_file(rt.alloc())?, &wide)?,
        always_gives::<Narrow>(&zeros, &[Ok(None), Ok(None)])?,
    ];
    assert!(rt; are_walked == [true; 4], "{are_walked:?}");
    Ok(())
}

#[test]
fn a_damage_ends_a_walk_and_stays(rt: HostRuntime) -> Result<(), Fail> {
    let alloc = rt.alloc();
    let table = Err(ReadFault::Table(0));
    let second = Err(ReadFault::Record(2064));
    let first = Err(ReadFault::Record(2048));
    // Table 0 has a slot at place 100; the value of `two` has one byte more, and passes the record
    // end; and a key is longer than all.
    let are_told = [
        walks_with(alloc, 0, b"\x64\0\0\0\x01\0\0\0", &[table, table])?,
        walks_with(alloc, 2068, b"\x08", &[given(ONE), second, second])?,
        walks_with(alloc, 2048, b"\xff\xff\xff\xff", &[first, first])?,
    ];
    assert!(rt; are_told == [true; 3], "{are_told:?}");
    Ok(())
}

#[test]
fn a_file_that_is_cut_is_walked_up_to_the_cut(rt: HostRuntime) -> Result<(), Fail> {
    let alloc = rt.alloc();
    for len in 2048..2083usize {
        let mut file = two_file(alloc)?;
        file.truncate(len);
        let one = if len < 2064 {
            Err(ReadFault::Record(2048))
        } else {
            given(ONE)
        };
        let two = match len {
            2048..=2063 => Err(ReadFault::Record(2048)),
            2064..=2081 => Err(ReadFault::Record(2064)),
            _ => given(TWO),
        };
        let answer = gives::<Narrow>(fused(file, u64::MAX), &[one, two]);
        assert!(rt; answer.is_ok_and(|it| it.0), "{len}");
    }
    Ok(())
}

/// A file of so many records of a key of 8 bytes and a value of 14, and no table.
pub(super) fn many(alloc: Global, n: u32) -> Result<Vec<u8>, AllocError> {
    let end = 2048 + 30 * n.min(1 << 20);
    let mut file = Vec::new(alloc);
    for table in 0..256u32 {
        let slots = if table == 7 { 1u32 } else { 0 };
        file.extend_from_slice(&end.to_le_bytes())?;
        file.extend_from_slice(&slots.to_le_bytes())?;
    }
    for _ in 0..n {
        file.extend_from_slice(b"\x08\0\0\0\x0e\0\0\0key of 8a value of 14.")?;
    }
    Ok(file)
}

/// Returns the number of records that a walk gives, and how many calls its store counted.
fn walked(store: Fused) -> Result<(u64, u64), ReadFault> {
    let mut reader = opened_again::<Narrow>(store)?;
    let mut records = walk(&mut reader);
    let mut count = 0;
    for n in 0..100_000u64 {
        if records.next()?.is_none() {
            count = n;
            break;
        }
    }
    Ok((count, reader.into_store().calls()))
}

#[test]
fn a_walk_reads_many_records_at_once(rt: HostRuntime) -> Result<(), Fail> {
    let file = many(rt.alloc(), 2000)?;
    // 60000 bytes are 15 windows, and each may end in a header that is read again.
    let answer = walked(fused(file, u64::MAX));
    assert!(rt; answer == Ok((2000, 16)), "{answer:?}");
    Ok(())
}

/// Whether each record that a walk gives, of so many, has this key and this value, and how many
/// calls its store counted.
fn taken(
    alloc: Global,
    store: Fused,
    n: u64,
    record: (&[u8], &[u8]),
) -> Result<(bool, u64), ReadFault> {
    let mut reader = opened_again::<Narrow>(store)?;
    let mut records = walk(&mut reader);
    let mut bytes = Vec::new(alloc);
    let mut same = true;
    for _ in 0..n {
        let Some(pair) = records.next()? else {
            return Err(ReadFault::Short);
        };
        records.value_into(pair.key, &mut bytes)?;
        same = same && bytes.as_slice() == record.0;
        records.value_into(pair.value, &mut bytes)?;
        same = same && bytes.as_slice() == record.1;
    }
    Ok((same, reader.into_store().calls()))
}

#[test]
fn the_values_of_a_walk_come_from_what_was_read(rt: HostRuntime) -> Result<(), Fail> {
    let file = many(rt.alloc(), 2000)?;
    let record: (&[u8], &[u8]) = (b"key of 8", b"a value of 14.");
    // The head and 15 windows; each window but the last may end in a record whose key or value is
    // read by itself.
    let answer = taken(rt.alloc(), fused(file, u64::MAX), 2000, record);
    assert!(rt;
        answer.is_ok_and(|it| it.0 && it.1 <= 16 + 2 * 14),
        "{answer:?}"
    );
    Ok(())
}

/// The value of the first record, and the key of the second, as a walk gives them.
fn values(alloc: Global, store: Fused) -> Result<(Vec<u8>, Vec<u8>), ReadFault> {
    let mut reader = opened_again::<Narrow>(store)?;
    let mut records = walk(&mut reader);
    let mut first = Vec::new(alloc);
    let mut second = Vec::new(alloc);
    if let Some(pair) = records.next()? {
        first = records.value(alloc, pair.value)?;
    }
    if let Some(pair) = records.next()? {
        second = records.value(alloc, pair.key)?;
    }
    Ok((first, second))
}

#[test]
fn the_keys_and_values_of_a_walk(rt: HostRuntime) -> Result<(), Fail> {
    let alloc = rt.alloc();
    let (one, two) = values(alloc, fused(two_file(alloc)?, u64::MAX))?;
    assert!(rt; one.as_slice() == b"Hello".as_slice(), "the first value");
    assert!(rt; two.as_slice() == b"two".as_slice(), "the second key");
    Ok(())
}
