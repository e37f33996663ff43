// Callers of `cdb_read::memory`.
use super::files::four_file;
use crate::tests::files::two_file;
use cdb_form::{Damage, Narrow, head_size};
use cdb_read::memory::{begin, find, first_record, next, next_record};
use std::prelude::*;
use std::test::Fail;

/// Returns true if a database in memory has a key.
fn has_key(file: &[u8], key: &[u8]) -> Result<bool, Damage> {
    if file.len() < head_size::<Narrow>() {
        return Ok(false);
    }
    Ok(find::<Narrow>(file, key)?.is_some())
}

/// The first value of a key in a database in memory.
fn first_value<'a>(file: &'a [u8], key: &[u8]) -> Result<Option<&'a [u8]>, Damage> {
    if file.len() < head_size::<Narrow>() {
        return Ok(None);
    }
    match find::<Narrow>(file, key)? {
        Some(span) => {
            let from = span.place as usize;
            Ok(Some(&file[from..from + span.len as usize]))
        }
        None => Ok(None),
    }
}

/// Returns the number of values that a key has.
fn count_values(file: &[u8], key: &[u8]) -> Result<u64, Damage> {
    if file.len() < head_size::<Narrow>() {
        return Ok(0);
    }
    let mut search = begin::<Narrow>(file, key)?;
    for many in 0..u64::MAX {
        if next::<Narrow>(file, key, &mut search)?.is_none() {
            return Ok(many);
        }
    }
    Ok(u64::MAX)
}

/// Returns the number of records that a database has.
fn count_records(file: &[u8]) -> Result<u64, Damage> {
    if file.len() < head_size::<Narrow>() {
        return Ok(0);
    }
    let mut rest = first_record::<Narrow>(file)?;
    for many in 0..u64::MAX {
        if next_record::<Narrow>(file, &mut rest)?.is_none() {
            return Ok(many);
        }
    }
    Ok(u64::MAX)
}

#[test]
fn callers_find_and_count(rt: HostRuntime) -> Result<(), Fail> {
    let file = two_file(rt.alloc())?;
    assert!(rt; has_key(&file, b"one") == Ok(true), "one");
    assert!(rt; has_key(&file, b"zzz") == Ok(false), "zzz");
    let found = first_value(&file, b"one");
    assert!(rt;
        found.is_ok_and(|it| it.is_some_and(|it| it == b"Hello".as_slice())),
        "Hello"
    );
    let file = four_file(rt.alloc())?;
    assert!(rt; count_values(&file, b"a") == Ok(4), "values");
    assert!(rt; count_records(&file) == Ok(4), "records");
    Ok(())
}
