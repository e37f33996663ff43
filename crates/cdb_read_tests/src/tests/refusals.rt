// Calls whose requests for memory `tests/faults/calls.py` refuses, each in turn. It reads what the
// test prints: whether the refusal came to the call.
use super::files::two_file;
use super::reading::lies_inside;
use cdb_form::Narrow;
use cdb_read::{ReadFault, Reader, Span, check, walk};
use cdb_store::MemStore;
use std::alloc::{AllocError, Global};
use std::prelude::*;
use std::test::Fail;

/// How long the value is that follows the file of two records.
const LONG: usize = 9000;

/// Where it lies.
const SPAN: Span = Span {
    place: 2114,
    len: 9000,
};

/// A reader of that file.
fn opened(alloc: Global) -> Result<Reader<MemStore, Narrow>, AllocError> {
    let mut file = two_file(alloc)?;
    file.extend_from_slice(&[7; LONG])?;
    match Reader::open(MemStore::from_vec(file)) {
        Ok(reader) => Ok(reader),
        Err(_) => Err(AllocError),
    }
}

/// Returns true if the long value is given, and then the first key of a walk.
fn gives_values(alloc: Global, reader: &mut Reader<MemStore, Narrow>) -> Result<bool, ReadFault> {
    if !lies_inside(reader, SPAN) {
        return Ok(false);
    }
    let long = reader.value(alloc, SPAN)?;
    let mut records = walk(reader);
    match records.next()? {
        Some(pair) => {
            let key = records.value(alloc, pair.key)?;
            Ok(long.len() == LONG && key.as_slice() == b"one".as_slice())
        }
        None => Ok(false),
    }
}

#[test]
fn values_tell_refused_memory(rt: HostRuntime) -> Result<(), Fail> {
    let Ok(mut reader) = opened(rt.alloc()) else {
        println!(rt; "NoInputs")?;
        return Ok(());
    };
    let first = gives_values(rt.alloc(), &mut reader);
    if first == Err(ReadFault::NoMemory) {
        println!(rt; "NoMemory")?;
        assert!(rt; gives_values(rt.alloc(), &mut reader) == Ok(true));
    } else {
        assert!(rt; first == Ok(true));
        println!(rt; "Whole")?;
    }
    Ok(())
}

/// A reader of the file of the two records.
fn opened_two(alloc: Global) -> Result<Reader<MemStore, Narrow>, AllocError> {
    match Reader::open(MemStore::from_vec(two_file(alloc)?)) {
        Ok(reader) => Ok(reader),
        Err(_) => Err(AllocError),
    }
}

#[test]
fn a_check_tells_refused_memory(rt: HostRuntime) -> Result<(), Fail> {
    let Ok(mut reader) = opened_two(rt.alloc()) else {
        println!(rt; "NoInputs")?;
        return Ok(());
    };
    let first = check(rt.alloc(), &mut reader);
    if first == Err(ReadFault::NoMemory) {
        println!(rt; "NoMemory")?;
        assert!(rt; check(rt.alloc(), &mut reader) == Ok(()));
    } else {
        assert!(rt; first == Ok(()));
        println!(rt; "Whole")?;
    }
    Ok(())
}
