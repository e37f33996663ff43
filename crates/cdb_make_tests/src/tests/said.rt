// The number of each fault of a maker, its words, and how a fault of a store is reported.
use cdb_make::MakeFault;
use cdb_store::StoreFault;
use std::prelude::*;
use std::test::Fail;

/// What is said if the store failed.
const FAILED: &str = "database cannot be read or written";

/// Faults, their numbers and their words.
const SAID: [(MakeFault, u8, &str); 5] = [
    (MakeFault::Broken, 1, "database broken by an earlier fault"),
    (MakeFault::Lookup, 2, FAILED),
    (MakeFault::TooBig, 3, "database too large"),
    (MakeFault::NoMemory, 4, "no memory"),
    (MakeFault::Writing, 5, FAILED),
];

#[test]
fn faults_are_numbered_and_said(rt: HostRuntime) -> Result<(), Fail> {
    for &(fault, number, words) in &SAID {
        let said = fault.to_string(rt.alloc())?;
        assert!(rt;
            fault.number() == number && said.as_str() == words,
            "{words}"
        );
    }
    assert!(rt; MakeFault::from(StoreFault::Device) == MakeFault::Writing);
    assert!(rt; MakeFault::from(StoreFault::NoMemory) == MakeFault::NoMemory);
    Ok(())
}
