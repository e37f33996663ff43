// The number of each fault, and what is said of it.
use cdb_command::Usage;
use std::alloc::{AllocError, Global};
use std::prelude::*;
use std::test::Fail;

/// What is said of all but one.
const BAD: &str = "bad command line, see cdb -h";

/// Returns true if a fault has this number, and is said so.
fn is_said(alloc: Global, usage: &Usage, number: u8, said: &str) -> Result<bool, AllocError> {
    let shown = format!(in alloc; "{usage}")?;
    Ok(usage.number() == number && usage.message() == said && shown.as_str() == said)
}

/// Faults, their numbers and their words.
const SAID: [(Usage, u8, &str); 8] = [
    (Usage::Words, 1, BAD),
    (Usage::NoCommand, 2, BAD),
    (Usage::TwoCommands, 3, BAD),
    (Usage::Option('m'), 4, BAD),
    (Usage::Number, 5, BAD),
    (Usage::Names, 6, BAD),
    (Usage::Both, 7, BAD),
    (Usage::NoMemory, 8, "no memory"),
];

#[test]
fn faults_are_numbered_and_said(rt: HostRuntime) -> Result<(), Fail> {
    for (usage, number, said) in &SAID {
        assert!(rt; is_said(rt.alloc(), usage, *number, said)?, "at {number}");
    }
    Ok(())
}
