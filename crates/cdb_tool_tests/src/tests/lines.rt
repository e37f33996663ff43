// The number and the line of each fault.
use super::fakes::FakeWriter;
use cdb_form::{InFault, OutFault, TextFault, WalkFault, flush_whole};
use cdb_make::MakeFault;
use cdb_read::ReadFault;
use cdb_tool::{Fault, Output, write_fault};
use std::alloc::{AllocError, Global};
use std::io::Write;
use std::prelude::*;
use std::test::Fail;

/// Faults, their numbers and their lines.
const SAID: [(Fault, u8, &str); 37] = [
    (
        Fault::Text(1, TextFault::Syntax(7)),
        1,
        "cdb: input 1: byte 7: not a record\n",
    ),
    (
        Fault::Text(1, TextFault::Ended(0)),
        1,
        "cdb: input 1: byte 0: text ends early\n",
    ),
    (
        Fault::Text(2, TextFault::Large(10)),
        1,
        "cdb: input 2: byte 10: length too large\n",
    ),
    (
        Fault::Text(12, TextFault::Input),
        1,
        "cdb: input 12: cannot be read\n",
    ),
    (
        Fault::Text(1, TextFault::Endless),
        1,
        "cdb: input 1: has no end\n",
    ),
    (Fault::Text(1, TextFault::NoMemory), 1, "cdb: no memory\n"),
    (
        Fault::Make(MakeFault::TooBig),
        2,
        "cdb: database too large\n",
    ),
    (
        Fault::Make(MakeFault::Broken),
        2,
        "cdb: database broken by an earlier fault\n",
    ),
    (
        Fault::Make(MakeFault::Lookup),
        2,
        "cdb: database cannot be read or written\n",
    ),
    (
        Fault::Make(MakeFault::Writing),
        2,
        "cdb: database cannot be read or written\n",
    ),
    (Fault::Make(MakeFault::NoMemory), 2, "cdb: no memory\n"),
    (Fault::Duplicate, 3, "cdb: stopped at a duplicate key\n"),
    (
        Fault::Read(ReadFault::Short),
        5,
        "cdb: database shorter than its head\n",
    ),
    (
        Fault::Read(ReadFault::Table(41)),
        5,
        "cdb: table 41: outside the file\n",
    ),
    (
        Fault::Read(ReadFault::Record(2065)),
        5,
        "cdb: record at 2065: not whole\n",
    ),
    (
        Fault::Read(ReadFault::Slot(129, 1)),
        5,
        "cdb: table 129: slot 1: wrong\n",
    ),
    (
        Fault::Read(ReadFault::Twice(2068)),
        5,
        "cdb: record at 2068: in two slots\n",
    ),
    (
        Fault::Read(ReadFault::Unindexed(2048)),
        5,
        "cdb: record at 2048: in no slot\n",
    ),
    (
        Fault::Read(ReadFault::Device),
        5,
        "cdb: database cannot be read or written\n",
    ),
    (Fault::Read(ReadFault::NoMemory), 5, "cdb: no memory\n"),
    (
        Fault::Read(ReadFault::Output),
        5,
        "cdb: output cannot be written\n",
    ),
    (
        Fault::Walk(WalkFault::Short),
        6,
        "cdb: database shorter than its head\n",
    ),
    (
        Fault::Walk(WalkFault::Table(255)),
        6,
        "cdb: table 255: outside the file\n",
    ),
    (
        Fault::Walk(WalkFault::Record(2064)),
        6,
        "cdb: record at 2064: not whole\n",
    ),
    (
        Fault::Walk(WalkFault::Input),
        6,
        "cdb: database cannot be read or written\n",
    ),
    (Fault::Walk(WalkFault::NoMemory), 6, "cdb: no memory\n"),
    (Fault::Output, 7, "cdb: output cannot be written\n"),
    (Fault::Long, 8, "cdb: database too large\n"),
    (Fault::Open, 9, "cdb: file cannot be opened\n"),
    (Fault::Rename, 10, "cdb: database cannot be renamed\n"),
    (Fault::NoMemory, 11, "cdb: no memory\n"),
    (
        Fault::Old(ReadFault::Record(2122)),
        12,
        "cdb: old database: record at 2122: not whole\n",
    ),
    (
        Fault::New(ReadFault::Table(7)),
        13,
        "cdb: new database: table 7: outside the file\n",
    ),
    (
        Fault::New(ReadFault::Short),
        13,
        "cdb: new database: database shorter than its head\n",
    ),
    (
        Fault::NoOldTables,
        14,
        "cdb: old database: no tables before its records\n",
    ),
    (
        Fault::NoNewTables,
        15,
        "cdb: new database: no tables before its records\n",
    ),
    (
        Fault::NoBaseTables,
        16,
        "cdb: base database: no tables before its records\n",
    ),
];

/// Returns true if a writer takes the line of a fault, which an output of four bytes forwards.
fn is_said<W: Write>(alloc: Global, fault: &Fault, writer: &mut W) -> Result<bool, AllocError> {
    let mut output = Output::new(alloc, writer, 4)?;
    let is_written = write_fault(fault, &mut output).is_ok();
    Ok(flush_whole(&mut output).is_ok() && is_written)
}

#[test]
fn faults_are_numbered_and_said(rt: HostRuntime) -> Result<(), Fail> {
    for (fault, number, line) in &SAID {
        let mut errors = Vec::new(rt.alloc());
        let is_line = is_said(rt.alloc(), fault, &mut errors)?
            && errors.as_slice() == line.as_bytes();
        let said = format!(in rt.alloc(); "cdb: {fault}\n")?;
        let is_shown = fault.number() == *number && said.as_str() == *line;
        assert!(rt; is_line && is_shown, "{fault:?}");
    }
    Ok(())
}

#[test]
fn a_part_is_told_as_the_fault_of_its_run(rt: HostRuntime) {
    let memory = [
        Fault::of_text(2, TextFault::NoMemory),
        Fault::from(WalkFault::NoMemory),
        Fault::from(InFault::NoMemory),
        Fault::from(MakeFault::NoMemory),
        Fault::from(ReadFault::NoMemory),
    ];
    for fault in &memory {
        assert!(rt; *fault == Fault::NoMemory, "{fault:?}");
    }
    let told = [
        (
            Fault::of_text(2, TextFault::Endless),
            Fault::Text(2, TextFault::Endless),
        ),
        (
            Fault::from(WalkFault::Table(7)),
            Fault::Walk(WalkFault::Table(7)),
        ),
        (Fault::from(InFault::Failed), Fault::Walk(WalkFault::Input)),
        (
            Fault::from(MakeFault::Writing),
            Fault::Make(MakeFault::Writing),
        ),
        (
            Fault::from(ReadFault::Device),
            Fault::Read(ReadFault::Device),
        ),
        (Fault::from(ReadFault::Output), Fault::Output),
        (Fault::from(OutFault), Fault::Output),
    ];
    for (fault, wanted) in &told {
        assert!(rt; fault == wanted, "{wanted:?}");
    }
}

#[test]
fn a_missing_value_has_no_line(rt: HostRuntime) -> Result<(), Fail> {
    let mut errors = Vec::new(rt.alloc());
    let is_written = is_said(rt.alloc(), &Fault::Missing, &mut errors)?;
    assert!(rt; is_written && errors.is_empty(), "a line");
    let said = format!(in rt.alloc(); "{}", Fault::Missing)?;
    assert!(rt;
        Fault::Missing.number() == 4 && said.as_str() == "no such value",
        "{said}"
    );
    Ok(())
}

#[test]
fn a_line_that_is_cut_is_a_fault(rt: HostRuntime) -> Result<(), Fail> {
    let fault = Fault::Text(1, TextFault::Endless);
    let line = b"cdb: input 1: has no end\n";
    for room in 0..line.len() {
        let mut errors = FakeWriter {
            held: Vec::new(rt.alloc()),
            room,
            flushes: 0,
            flush_fails: false,
        };
        let is_whole = is_said(rt.alloc(), &fault, &mut errors)?;
        let is_prefix = Some(errors.held.as_slice()) == line.get(..room);
        assert!(rt; !is_whole && is_prefix, "room for {room}");
    }
    Ok(())
}
