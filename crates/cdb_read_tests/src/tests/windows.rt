// Walks that read whole records into the bytes of a caller.
use super::counting::four_file;
use super::files::{Fused, changed, fused, opened_again, two_file, wide_file};
use super::walking::{Answer, ONE, TWO, given, many, pair};
use cdb_form::{Narrow, Wide, Width, head_size};
use cdb_read::{ReadFault, Walk, walk};
use std::alloc::Global;
use std::prelude::*;
use std::test::Fail;

/// What a call answers whose store fails at most one call: then it is made again.
fn read_again<L: Width>(
    records: &mut Walk<'_, Fused, L>,
    window: &mut Vec<u8>,
) -> Result<usize, ReadFault> {
    match records.records_into(window.as_mut_slice()) {
        Err(ReadFault::Device) => records.records_into(window.as_mut_slice()),
        answer => answer,
    }
}

/// Returns the number of bytes that each call with a window of a length reads, up to the one that
/// reads none, and all these bytes.
fn read_buffered<L: Width>(
    alloc: Global,
    records: &mut Walk<'_, Fused, L>,
    window: &mut Vec<u8>,
) -> Result<(Vec<usize>, Vec<u8>), ReadFault> {
    let mut sizes = Vec::new(alloc);
    let mut bytes = Vec::new(alloc);
    for _ in 0..100u64 {
        let n = read_again(records, window)?;
        sizes.push(n)?;
        bytes.extend_from_slice(window.get(..n).unwrap_or(b"more than the window has"))?;
        if n == 0 {
            break;
        }
    }
    Ok((sizes, bytes))
}

/// Whether calls with a window of a length read so many bytes, which are those of the file from
/// the first record on, and `next` then gives this answer.
fn reads<L: Width>(
    alloc: Global,
    store: Fused,
    file: &[u8],
    window: usize,
    wanted: (&[usize], Answer),
) -> Result<(bool, u64), ReadFault> {
    let mut reader = opened_again::<L>(store)?;
    let mut records = walk(&mut reader);
    let mut window = vec![in alloc; 0u8; window]?;
    let (sizes, bytes) = read_buffered(alloc, &mut records, &mut window)?;
    let stored = file.get(head_size::<L>()..).unwrap_or(b"");
    let mut same = sizes.as_slice() == wanted.0 && stored.starts_with(bytes.as_slice());
    let last = match records.next() {
        Err(ReadFault::Device) => records.next(),
        answer => answer,
    };
    same = same && last == wanted.1;
    if !last.is_ok_and(|found| found.is_some()) {
        // An end and a damage stay.
        same = same && records.records_into(window.as_mut_slice()) == Ok(0);
        same = same && records.next() == last;
    }
    Ok((same, reader.into_store().calls()))
}

/// Returns true if they do so whichever call of the store fails.
fn always_reads<L: Width>(
    alloc: Global,
    file: &Vec<u8>,
    window: usize,
    sizes: &[usize],
    last: Answer,
) -> Result<bool, ReadFault> {
    let wanted = (sizes, last);
    let (mut same, calls) = reads::<L>(
        alloc,
        fused(file.clone()?, u64::MAX),
        file,
        window,
        wanted,
    )?;
    for fails in 0..calls.min(20) {
        let (now, _) = reads::<L>(alloc, fused(file.clone()?, fails), file, window, wanted)?;
        same = same && now;
    }
    Ok(same)
}

#[test]
fn windows_are_filled_with_whole_records(rt: HostRuntime) -> Result<(), Fail> {
    let alloc = rt.alloc();
    let two = two_file(alloc)?;
    let four = four_file(alloc)?;
    let wide = wide_file(alloc)?;
    let zeros = vec![in alloc; 0u8; 2048]?;
    let end = Ok(None);
    // Records of 16 and of 18 bytes; four of 10 bytes; one of 24; and none. Windows have room for
    // all, for all but a byte, for the first, for all but a byte of it, and for none.
    let are_read = [
        always_reads::<Narrow>(alloc, &two, 100, &[34, 0], end)?,
        always_reads::<Narrow>(alloc, &two, 34, &[34, 0], end)?,
        always_reads::<Narrow>(alloc, &two, 33, &[16, 18, 0], end)?,
        always_reads::<Narrow>(alloc, &two, 17, &[16, 0], given(TWO))?,
        always_reads::<Narrow>(alloc, &two, 15, &[0], given(ONE))?,
        always_reads::<Narrow>(alloc, &two, 0, &[0], given(ONE))?,
        always_reads::<Narrow>(alloc, &four, 64, &[40, 0], end)?,
        always_reads::<Narrow>(alloc, &four, 25, &[20, 20, 0], end)?,
        always_reads::<Narrow>(alloc, &four, 9, &[0], pair(2048, 8, 1, 1))?,
        always_reads::<Wide>(alloc, &wide, 24, &[24, 0], end)?,
        always_reads::<Wide>(alloc, &wide, 23, &[0], pair(4096, 16, 3, 5))?,
        always_reads::<Narrow>(alloc, &zeros, 64, &[0], end)?,
    ];
    assert!(rt; are_read == [true; 12], "{are_read:?}");
    Ok(())
}

#[test]
fn windows_end_before_a_damage(rt: HostRuntime) -> Result<(), Fail> {
    let alloc = rt.alloc();
    let table = changed(two_file(alloc)?, 0, b"\x64\0\0\0\x01\0\0\0");
    let second = changed(two_file(alloc)?, 2068, b"\x08");
    let first = changed(two_file(alloc)?, 2048, b"\xff\xff\xff\xff");
    let key = changed(wide_file(alloc)?, 4096, &[0xff; 8]);
    let value = changed(wide_file(alloc)?, 4104, &[0xff; 8]);
    let mut cut = two_file(alloc)?;
    cut.truncate(2070);
    let mut head = two_file(alloc)?;
    head.truncate(2048);
    let at_first = Err(ReadFault::Record(2048));
    let at_second = Err(ReadFault::Record(2064));
    let wide = Err(ReadFault::Record(4096));
    // Table 0 has a slot at place 100; the second record passes the record end by a byte; a key is
    // longer than all, in words of 4 bytes and of 8, and a value; the file ends within the second
    // record, and after the head.
    let are_told = [
        always_reads::<Narrow>(alloc, &table, 100, &[0], Err(ReadFault::Table(0)))?,
        always_reads::<Narrow>(alloc, &second, 100, &[16, 0], at_second)?,
        always_reads::<Narrow>(alloc, &first, 100, &[0], at_first)?,
        always_reads::<Wide>(alloc, &key, 100, &[0], wide)?,
        always_reads::<Wide>(alloc, &value, 100, &[0], wide)?,
        always_reads::<Narrow>(alloc, &cut, 100, &[16, 0], at_second)?,
        always_reads::<Narrow>(alloc, &head, 100, &[0], at_first)?,
    ];
    assert!(rt; are_told == [true; 7], "{are_told:?}");
    Ok(())
}

/// The second and the third record of the file of four.
const TWO_AND_THREE: &[u8] = b"\x01\0\0\0\x01\0\0\0a2\x01\0\0\0\x01\0\0\0a3";

#[test]
fn a_record_without_room_is_given_by_next(rt: HostRuntime) -> Result<(), Fail> {
    let alloc = rt.alloc();
    let mut reader = opened_again::<Narrow>(fused(four_file(alloc)?, u64::MAX))?;
    let mut records = walk(&mut reader);
    let mut small = [0u8; 9];
    let mut large = [0u8; 25];
    assert!(rt; records.records_into(&mut small) == Ok(0), "no room");
    assert!(rt; records.next() == pair(2048, 8, 1, 1), "the first record");
    assert!(rt; records.records_into(&mut large) == Ok(20), "two more");
    assert!(rt; &large[..20] == TWO_AND_THREE, "their bytes");
    assert!(rt; records.records_into(&mut small) == Ok(0), "no room again");
    assert!(rt; records.next() == pair(2078, 8, 1, 1), "the last record");
    assert!(rt; records.records_into(&mut large) == Ok(0), "the end");
    assert!(rt; records.next() == Ok(None), "the end");
    Ok(())
}

#[test]
fn a_window_whose_read_failed_is_read_again(rt: HostRuntime) -> Result<(), Fail> {
    let alloc = rt.alloc();
    // The head is read, and the next read fails.
    let mut reader = opened_again::<Narrow>(fused(four_file(alloc)?, 1))?;
    let mut records = walk(&mut reader);
    let mut window = [0u8; 64];
    let failed = records.records_into(&mut window);
    assert!(rt; failed == Err(ReadFault::Device), "{failed:?}");
    let read = records.records_into(&mut window);
    assert!(rt; read == Ok(40), "{read:?}");
    assert!(rt; records.next() == Ok(None), "the end");
    Ok(())
}

#[test]
fn a_window_is_read_at_once(rt: HostRuntime) -> Result<(), Fail> {
    let alloc = rt.alloc();
    let file = many(alloc, 4000)?;
    let store = fused(file.clone()?, u64::MAX);
    let sizes = [65520, 54480, 0];
    let answer = reads::<Narrow>(alloc, store, &file, 65536, (&sizes, Ok(None)));
    // The head and two windows.
    assert!(rt; answer == Ok((true, 3)), "{answer:?}");
    Ok(())
}
