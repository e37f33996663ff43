// The faults of a reader: their numbers and words, and what they come from.
use cdb_form::Damage;
use cdb_read::ReadFault;
use cdb_store::StoreFault;
use std::prelude::*;
use std::test::Fail;

/// Faults, their numbers and their words.
const SAID: [(ReadFault, u8, &str); 9] = [
    (ReadFault::Short, 1, "database shorter than its head"),
    (ReadFault::Table(7), 2, "table 7: outside the file"),
    (ReadFault::Record(2048), 3, "record at 2048: not whole"),
    (ReadFault::Slot(41, 1), 4, "table 41: slot 1: wrong"),
    (ReadFault::Twice(2064), 5, "record at 2064: in two slots"),
    (ReadFault::Unindexed(2064), 6, "record at 2064: in no slot"),
    (ReadFault::Device, 7, "database cannot be read or written"),
    (ReadFault::NoMemory, 8, "no memory"),
    (ReadFault::Output, 9, "output cannot be written"),
];

#[test]
fn faults_are_numbered_and_said(rt: HostRuntime) -> Result<(), Fail> {
    for &(fault, number, words) in &SAID {
        let said = fault.to_string(rt.alloc())?;
        assert!(rt;
            fault.number() == number && said.as_str() == words,
            "{words}"
        );
    }
    Ok(())
}

/// Damages, and the faults that report them.
const TOLD: [(Damage, ReadFault); 6] = [
    (Damage::Short, ReadFault::Short),
    (Damage::Table(7), ReadFault::Table(7)),
    (Damage::Record(2048), ReadFault::Record(2048)),
    (Damage::Slot(41, 1), ReadFault::Slot(41, 1)),
    (Damage::Twice(2064), ReadFault::Twice(2064)),
    (Damage::Unindexed(2064), ReadFault::Unindexed(2064)),
];

#[test]
fn a_damage_and_a_fault_of_the_store_are_told(rt: HostRuntime) -> Result<(), Fail> {
    for &(damage, fault) in &TOLD {
        assert!(rt; ReadFault::from(damage) == fault);
    }
    assert!(rt; ReadFault::from(StoreFault::Device) == ReadFault::Device);
    assert!(rt; ReadFault::from(StoreFault::NoMemory) == ReadFault::NoMemory);
    Ok(())
}
