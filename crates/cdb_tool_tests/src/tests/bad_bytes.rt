// Queries of a file whose other bytes can't be read: nothing is read that the answer does not need.
use super::bad_file::BadFile;
use super::worked::File;
use cdb_form::Narrow;
use cdb_read::ReadFault;
use cdb_store::{FileStore, StoreFault};
use cdb_tool::{Fault, query_run};
use std::alloc::Global;
use std::prelude::*;
use std::test::Fail;

/// Where the bad bytes of a file are.
type Bad<'a> = &'a [(u64, u64)];

/// The file of four values, with bad bytes.
fn four_values(alloc: Global, bad: Bad<'_>) -> Result<FileStore<BadFile<'_>>, StoreFault> {
    let file = File::FourValues.bytes(alloc)?;
    FileStore::over(BadFile::new(file, bad))
}

/// Returns true if a query of a value by its number, from 1 on, has this answer, and writes this.
fn answers(
    alloc: Global,
    bad: Bad<'_>,
    number: u64,
    want: Result<(), Fault>,
    text: &[u8],
) -> Result<bool, StoreFault> {
    let store = four_values(alloc, bad)?;
    let mut out = Vec::new(alloc);
    let number = Some(number.max(1));
    let (_, answer) = query_run::<Narrow, _, Vec<u8>>(store, b"a", number, false, &mut out);
    Ok(answer == want && out.as_slice() == text)
}

/// A number, the value, and the bytes that are bad: the values before it, and all records after it.
const NUMBERED: [(u64, &[u8], &[(u64, u64)]); 4] = [
    (1, b"1", &[(2058, 2088)]),
    (2, b"2", &[(2057, 2058), (2068, 2088)]),
    (3, b"3", &[(2057, 2058), (2067, 2068), (2078, 2088)]),
    (4, b"4", &[(2057, 2058), (2067, 2068), (2077, 2078)]),
];

#[test]
fn a_value_is_read_and_no_value_before_or_behind_it(rt: HostRuntime) -> Result<(), Fail> {
    for &(number, text, bad) in &NUMBERED {
        assert!(rt; answers(rt.alloc(), bad, number, Ok(()), text)?, "{number}");
    }
    Ok(())
}

#[test]
fn a_value_that_cannot_be_read_is_told(rt: HostRuntime) -> Result<(), Fail> {
    let fault = Err(Fault::Read(ReadFault::Device));
    assert!(rt; answers(rt.alloc(), &[(2067, 2068)], 2, fault, b"")?);
    Ok(())
}
