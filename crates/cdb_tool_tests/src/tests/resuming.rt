// query_from: what a finder has left after a fault.
use super::worked::File;
use cdb_form::Narrow;
use cdb_read::{ReadFault, Reader};
use cdb_store::{FuseStore, MemStore};
use cdb_tool::{Fault, Shown, query_from};
use std::alloc::{AllocError, Global};
use std::prelude::*;
use std::test::Fail;

const DEVICE: Result<(), Fault> = Err(Fault::Read(ReadFault::Device));

/// Returns true if the values of `a` are all written in two calls, over a store whose call of this
/// number fails. If it fails while a value is copied, that value alone is missing.
fn resumes(alloc: Global, calls: u64) -> Result<bool, AllocError> {
    let store = MemStore::from_vec(File::FourValues.bytes(alloc)?);
    let Ok(mut reader) = Reader::<_, Narrow>::open(FuseStore::new(store, calls, 0)) else {
        return Ok(calls == 0);
    };
    let mut finder = reader.find(b"a");
    let (mut first, mut second) = (Vec::new(alloc), Vec::new(alloc));
    let shown = Shown::Value { lines: false };
    let answer = query_from(&mut finder, shown, &mut first);
    let again = query_from(&mut finder, shown, &mut second);
    if answer == Ok(()) {
        return Ok(first.as_slice() == b"1234".as_slice() && again == Err(Fault::Missing));
    }
    let (before, after) = (first.len(), second.len());
    Ok(
        answer == DEVICE
            && b"1234".starts_with(first.as_slice())
            && b"1234".ends_with(second.as_slice())
            && (before + after == 4 || before + after == 3),
    )
}

#[test]
fn a_query_goes_on_behind_a_fault(rt: HostRuntime) -> Result<(), Fail> {
    for calls in 0..12 {
        assert!(rt; resumes(rt.alloc(), calls)?, "call {calls}");
    }
    Ok(())
}
