// Calls over files whose other bytes can't be read: nothing is read that the answer does not need.
use super::bad_file::BadFile;
use super::files::{two_file, wide_file};
use super::reading::lies_inside;
use cdb_form::{Narrow, Wide, Width};
use cdb_read::{ReadFault, Reader, Span};
use cdb_store::{FileStore, StoreFault};
use std::alloc::Global;
use std::prelude::*;
use std::test::Fail;

/// Where the bad bytes of a file are.
pub(super) type Bad<'a> = &'a [(u64, u64)];

/// A database in a file with bad bytes.
pub(super) type Spoiled<'a, L> = Reader<FileStore<BadFile<'a>>, L>;

/// A reader of a file with bad bytes.
pub(super) fn opened<L: Width>(file: Vec<u8>, bad: Bad<'_>) -> Result<Spoiled<'_, L>, ReadFault> {
    let store = match FileStore::over(BadFile::new(file, bad)) {
        Ok(store) => store,
        Err(StoreFault::Device) => return Err(ReadFault::Device),
        Err(StoreFault::NoMemory) => return Err(ReadFault::NoMemory),
    };
    match Reader::open(store) {
        Ok(reader) => Ok(reader),
        Err(unread) => Err(unread.fault),
    }
}

/// Returns true if a look-up finds this span first, and no bad byte is read.
fn finds<L: Width>(file: Vec<u8>, bad: Bad<'_>, key: &[u8], span: Span) -> Result<bool, ReadFault> {
    let mut reader = opened::<L>(file, bad)?;
    let mut finder = reader.find(key);
    Ok(finder.next()? == Some(span))
}

/// Returns true if the bytes of a span are given and copied, and no bad byte is read.
fn gives<L: Width>(
    alloc: Global,
    file: Vec<u8>,
    bad: Bad<'_>,
    span: Span,
    bytes: &[u8],
) -> Result<bool, ReadFault> {
    let mut reader = opened::<L>(file, bad)?;
    if !lies_inside(&reader, span) {
        return Ok(false);
    }
    let value = reader.value(alloc, span)?;
    if !lies_inside(&reader, span) {
        return Ok(false);
    }
    let mut copy = Vec::new(alloc);
    reader.copy(span, &mut copy)?;
    Ok(value.as_slice() == bytes && copy.as_slice() == bytes)
}

/// The values of the file of two records, and of the wide file.
const HELLO: Span = Span {
    place: 2059,
    len: 5,
};

const GOODBYE: Span = Span {
    place: 2075,
    len: 7,
};

const WIDE_HELLO: Span = Span {
    place: 4115,
    len: 5,
};

#[test]
fn a_look_up_reads_no_value_and_no_other_record(rt: HostRuntime) -> Result<(), Fail> {
    let alloc = rt.alloc();
    let is_found = [
        finds::<Narrow>(two_file(alloc)?, &[(2059, 2082)], b"one", HELLO),
        finds::<Narrow>(
            two_file(alloc)?,
            &[(2048, 2064), (2075, 2082)],
            b"two",
            GOODBYE,
        ),
        finds::<Wide>(wide_file(alloc)?, &[(4115, 4120)], b"one", WIDE_HELLO),
    ];
    assert!(rt; is_found == [Ok(true); 3], "{is_found:?}");
    let needs = finds::<Narrow>(two_file(alloc)?, &[(2058, 2059)], b"one", HELLO);
    assert!(rt; needs == Err(ReadFault::Device), "its key is read");
    Ok(())
}

#[test]
fn a_value_is_read_and_nothing_beside_it(rt: HostRuntime) -> Result<(), Fail> {
    let alloc = rt.alloc();
    let are_given = [
        gives::<Narrow>(
            alloc,
            two_file(alloc)?,
            &[(2048, 2059), (2064, 2114)],
            HELLO,
            b"Hello",
        ),
        gives::<Narrow>(
            alloc,
            two_file(alloc)?,
            &[(2048, 2075), (2082, 2114)],
            GOODBYE,
            b"Goodbye",
        ),
        gives::<Wide>(
            alloc,
            wide_file(alloc)?,
            &[(4096, 4115), (4120, 4152)],
            WIDE_HELLO,
            b"Hello",
        ),
    ];
    assert!(rt; are_given == [Ok(true); 3], "{are_given:?}");
    Ok(())
}

#[test]
fn a_long_value_is_read_and_nothing_behind_it(rt: HostRuntime) -> Result<(), Fail> {
    let alloc = rt.alloc();
    let mut file = two_file(alloc)?;
    file.extend_from_slice(&vec![in alloc; 7u8; 9000]?)?;
    let span = Span {
        place: 2114,
        len: 5000,
    };
    let long = vec![in alloc; 7u8; 5000]?;
    let is_given = gives::<Narrow>(alloc, file, &[(2048, 2114), (7114, 11114)], span, &long);
    assert!(rt; is_given == Ok(true), "{is_given:?}");
    Ok(())
}
