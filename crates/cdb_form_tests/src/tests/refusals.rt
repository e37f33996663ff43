// Readers whose allocations `tests/faults/calls.py` refuses, each in turn. It reads what a test
// prints: whether the refusal came to the reader.
use super::changes::is_removal;
use cdb_form::{AmendReader, MapReader, Narrow, TextFault};
use std::alloc::Global;
use std::prelude::*;
use std::test::Fail;

/// By these records each vector of the reader grows more than once.
const TEXT: &[u8] =
    b"# note\none Hello\na_key_longer_than_a_vector_is_at_first and a value as well";

const RECORDS: [(&[u8], &[u8]); 2] = [
    (b"one", b"Hello"),
    (
        b"a_key_longer_than_a_vector_is_at_first",
        b"and a value as well",
    ),
];

/// Returns true if the text gives its records and ends.
fn gives_records(alloc: Global) -> Result<bool, TextFault> {
    let mut maps = MapReader::new(alloc, TEXT);
    for (key, value) in RECORDS {
        match maps.next()? {
            Some(it) if it.key.as_slice() == key && it.value.as_slice() == value => {}
            _ => return Ok(false),
        }
    }
    Ok(maps.next()?.is_none())
}

#[test]
fn a_map_reader_tells_refused_memory(rt: HostRuntime) -> Result<(), Fail> {
    let first = gives_records(rt.alloc());
    if first == Err(TextFault::NoMemory) {
        println!(rt; "NoMemory")?;
        assert!(rt; gives_records(rt.alloc()) == Ok(true));
    } else {
        assert!(rt; first == Ok(true));
        println!(rt; "Whole")?;
    }
    Ok(())
}

/// By its removal the vector of the reader grows more than once.
const REMOVAL: &[u8] = b"+1,1:a->b\n-38:a_key_longer_than_a_vector_is_at_first\n\n";

/// Returns true if the text puts a record, removes a key and ends.
fn gives_items(alloc: Global) -> Result<bool, TextFault> {
    let mut changes: AmendReader<&[u8], Narrow> = AmendReader::new(alloc, REMOVAL);
    let (key, _) = RECORDS[1];
    let is_put = matches!(changes.next()?, Some(item) if !is_removal(&item, b"a"));
    let is_removed = matches!(changes.next()?, Some(item) if is_removal(&item, key));
    Ok(is_put && is_removed && changes.next()?.is_none())
}

#[test]
fn an_amend_reader_tells_refused_memory(rt: HostRuntime) -> Result<(), Fail> {
    let first = gives_items(rt.alloc());
    if first == Err(TextFault::NoMemory) {
        println!(rt; "NoMemory")?;
        assert!(rt; gives_items(rt.alloc()) == Ok(true));
    } else {
        assert!(rt; first == Ok(true));
        println!(rt; "Whole")?;
    }
    Ok(())
}
