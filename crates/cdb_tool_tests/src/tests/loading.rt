// load, at the edges of what is allowed and over readers that fail.
use super::fakes::FakeReader;
use super::worked::File;
use cdb_form::WalkFault;
use cdb_store::MemStore;
use cdb_tool::{Fault, load, load_from};
use std::alloc::Global;
use std::prelude::*;
use std::test::Fail;

// The bytes of a store that was loaded, or the fault.
fn bytes_in(loaded: Result<MemStore, Fault>) -> Result<Vec<u8>, Fault> {
    match loaded {
        Ok(store) => Ok(store.into_vec()),
        Err(fault) => Err(fault),
    }
}

/// Returns true if a load of so many bytes at the most gives a file whole.
fn is_loaded(alloc: Global, file: &[u8], most: u32) -> bool {
    match load::<&[u8]>(alloc, file, u64::from(most)) {
        Ok(store) => store.bytes() == file,
        Err(_) => false,
    }
}

/// Returns true if it is too long for that.
fn is_too_long(alloc: Global, file: &[u8], most: u32) -> bool {
    bytes_in(load::<&[u8]>(alloc, file, u64::from(most))) == Err(Fault::Long)
}

#[test]
fn files_as_long_as_they_may_be(rt: HostRuntime) -> Result<(), Fail> {
    let file = File::Two.bytes(rt.alloc())?;
    let is_whole = is_loaded(rt.alloc(), &file, 2114) && is_loaded(rt.alloc(), &file, 2115);
    assert!(rt; is_whole && is_too_long(rt.alloc(), &file, 2113));
    Ok(())
}

#[test]
fn nothing_is_loaded_where_nothing_is_allowed(rt: HostRuntime) {
    assert!(rt; is_loaded(rt.alloc(), b"", 0) && is_too_long(rt.alloc(), b"x", 0));
}

#[test]
fn what_follows_a_file_that_is_too_long_stays(rt: HostRuntime) -> Result<(), Fail> {
    let mut longer = File::Two.bytes(rt.alloc())?;
    longer.extend_from_slice(b"12345")?;
    let mut rest = longer.as_slice();
    let loaded = load_from(rt.alloc(), &mut rest, 2113);
    let is_long = bytes_in(loaded) == Err(Fault::Long);
    assert!(rt; is_long && rest == b"12345".as_slice());
    Ok(())
}

#[test]
fn a_reader_that_fails_is_told(rt: HostRuntime) -> Result<(), Fail> {
    for came in [0usize, 1, 2048, 2113, 2114] {
        let mut text = File::Two.bytes(rt.alloc())?;
        text.truncate(came);
        let reader = FakeReader {
            interrupts: 0,
            text: &text,
            fails: true,
        };
        let loaded = load(rt.alloc(), reader, 2114);
        assert!(rt;
            bytes_in(loaded) == Err(Fault::Walk(WalkFault::Input)),
            "after {came} bytes"
        );
    }
    Ok(())
}

#[test]
fn interrupts_of_a_load_are_asked_again(rt: HostRuntime) -> Result<(), Fail> {
    for (interrupts, loads) in [(1000, true), (1001, false)] {
        let reader = FakeReader {
            interrupts,
            text: b"Hello",
            fails: false,
        };
        let want = if loads {
            Ok(Vec::from_array(rt.alloc(), *b"Hello")?)
        } else {
            Err(Fault::Walk(WalkFault::Input))
        };
        let loaded = load(rt.alloc(), reader, 5);
        assert!(rt; bytes_in(loaded) == want, "{interrupts} interrupts");
    }
    Ok(())
}
