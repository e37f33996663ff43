// One table of mixed calls, made on every store.
use super::support::buffered::buffered;
use cdb_store::{FileStore, MemStore, Store};
use std::test::Fail;

/// A call: where, and of how many bytes.
#[derive(Clone, Copy)]
enum Step {
    Write(u64, usize),
    Read(u64, usize),
    Cut(u64),
    Flush,
}

/// Each call, the store's length after it, and a sum over the bytes that it read. The sums come
/// from a model in another language. Byte i of what row j writes is `(7 * j + 13 * i) % 251`, and
/// the sum goes from 0 by `(31 * sum + byte + 1) % 1000003`.
const ROWS: [(Step, u64, u32); 32] = [
    (Step::Write(0, 30), 30, 0),
    (Step::Write(30, 30), 60, 0),
    (Step::Write(60, 7), 67, 0),
    (Step::Read(10, 40), 67, 465322),
    (Step::Write(67, 1), 68, 0),
    (Step::Read(65, 3), 68, 79792),
    (Step::Read(60, 8), 68, 739558),
    (Step::Write(20, 5), 68, 0),
    (Step::Read(0, 68), 68, 967251),
    (Step::Cut(50), 50, 0),
    (Step::Write(50, 4096), 4146, 0),
    (Step::Write(4146, 1), 4147, 0),
    (Step::Read(4100, 47), 4147, 893115),
    (Step::Write(100, 5000), 5100, 0),
    (Step::Read(0, 5100), 5100, 629576),
    (Step::Cut(4000), 4000, 0),
    (Step::Flush, 4000, 0),
    (Step::Read(3990, 10), 4000, 974076),
    (Step::Write(4000, 0), 4000, 0),
    (Step::Write(10, 4096), 4106, 0),
    (Step::Read(0, 4106), 4106, 892190),
    (Step::Write(4106, 7), 4113, 0),
    (Step::Write(4113, 7), 4120, 0),
    (Step::Write(4120, 7), 4127, 0),
    (Step::Read(4106, 21), 4127, 466349),
    (Step::Read(4000, 120), 4127, 668153),
    (Step::Cut(4110), 4110, 0),
    (Step::Read(4100, 10), 4110, 245522),
    (Step::Cut(0), 0, 0),
    (Step::Write(0, 3), 3, 0),
    (Step::Read(0, 3), 3, 203001),
    (Step::Flush, 3, 0),
];

/// The number of bytes that a row writes or reads at most.
const GREATEST_ROW: usize = 8192;

/// Fills with the bytes that a row writes.
fn fill(row: usize, bytes: &mut [u8]) {
    let mut byte = (7 * (row % 251) % 251) as u8;
    for b in bytes.iter_mut() {
        *b = byte;
        byte = ((byte as u32 + 13) % 251) as u8;
    }
}

/// The sum over bytes.
fn sum_of(bytes: &[u8]) -> u32 {
    bytes.iter().fold(
        0,
        |sum: u32, b| (sum % 1000003 * 31 + *b as u32 + 1) % 1000003,
    )
}

/// Writes some bytes, or three pieces of them, of which the second is empty if they are few.
fn write<S: Store>(store: &mut S, pos: u64, bytes: &[u8], in_parts: bool) -> bool {
    if pos > store.len() || pos > 1 << 32 || bytes.len() > GREATEST_ROW {
        return false;
    }
    if !in_parts {
        return store.write_at(pos, bytes).is_ok();
    }
    let (first, rest) = bytes.split_at(bytes.len() / 3);
    let (second, third) = rest.split_at(rest.len() / 4);
    store.write_parts(pos, first, second, third).is_ok()
}

/// Makes a call, and says whether it answered Ok, and the sum over the bytes that it read.
fn make<S: Store>(
    store: &mut S,
    step: Step,
    row: usize,
    bytes: &mut [u8],
    in_parts: bool,
) -> (bool, u32) {
    match step {
        Step::Write(pos, n) if n <= bytes.len() => {
            fill(row, &mut bytes[..n]);
            (write(store, pos, &bytes[..n], in_parts), 0)
        }
        Step::Read(pos, n)
            if pos <= store.len() && n as u64 <= store.len() - pos && n <= bytes.len() => {
            let is_ok = store.read_at(pos, &mut bytes[..n]).is_ok();
            (is_ok, sum_of(&bytes[..n]))
        }
        Step::Cut(len) if len <= store.len() => (store.cut(len).is_ok(), 0),
        Step::Flush => (store.flush().is_ok(), 0),
        _ => (false, 0),
    }
}

/// The first row whose answer, length or bytes are others, or else how many rows there are.
fn rows_met<S: Store>(store: &mut S, in_parts: bool) -> usize {
    let mut bytes = [0; GREATEST_ROW];
    for (row, (step, len, sum)) in ROWS.iter().enumerate() {
        let (is_ok, got) = make(store, *step, row, &mut bytes, in_parts);
        if !is_ok || store.len() != *len || got != *sum {
            return row;
        }
    }
    ROWS.len()
}

/// Returns true if each kind of store meets each row, by itself and below a buffer.
fn all_meet_rows(rt: &HostRuntime, in_parts: bool) -> Result<bool, Fail> {
    let in_memory = rows_met(&mut MemStore::new(rt.alloc()), in_parts);
    let in_file = rows_met(&mut FileStore::create(rt, "rows.store")?, in_parts);
    let mut is_met = [in_memory, in_file] == [ROWS.len(); 2];
    for capacity in [0, 1, 7, 4096] {
        let mut store = buffered(rt.alloc(), MemStore::new(rt.alloc()), capacity)?;
        let in_memory = rows_met(&mut store, in_parts);
        let file = FileStore::create(rt, "buffered.store")?;
        let in_file = rows_met(&mut buffered(rt.alloc(), file, capacity)?, in_parts);
        is_met = is_met && [in_memory, in_file] == [ROWS.len(); 2];
    }
    Ok(is_met)
}

#[test]
fn stores_meet_each_row(rt: HostRuntime) -> Result<(), Fail> {
    assert!(rt; all_meet_rows(&rt, false)?);
    Ok(())
}

#[test]
fn stores_meet_each_row_in_parts(rt: HostRuntime) -> Result<(), Fail> {
    assert!(rt; all_meet_rows(&rt, true)?);
    Ok(())
}
