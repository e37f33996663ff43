//! A caller of a reader.
use super::files::two_file;
use cdb_form::Narrow;
use cdb_read::{ReadFault, Reader};
use cdb_store::MemStore;
use std::alloc::Global;
use std::prelude::*;
use std::test::Fail;

/// All values of a key, one after the other.
fn all_values(alloc: Global, file: Vec<u8>, key: &[u8]) -> Result<Vec<u8>, ReadFault> {
    let mut out = Vec::new(alloc);
    let mut reader = match Reader::<MemStore, Narrow>::open(MemStore::from_vec(file)) {
        Ok(reader) => reader,
        Err(unread) => return Err(unread.fault),
    };
    let mut finder = reader.find(key);
    for _ in 0..u64::MAX {
        match finder.next()? {
            Some(span) => finder.copy(span, &mut out)?,
            None => break,
        }
    }
    Ok(out)
}

#[test]
fn a_key_is_looked_up(rt: HostRuntime) -> Result<(), Fail> {
    let found = all_values(rt.alloc(), two_file(rt.alloc())?, b"two")?;
    assert!(rt; found.as_slice() == b"Goodbye".as_slice(), "two");
    Ok(())
}
