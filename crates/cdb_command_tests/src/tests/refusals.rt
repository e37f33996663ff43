// Plans whose requests for memory `tests/faults/calls.py` refuses, each in turn. It reads what the
// test prints: whether the refusal came to the call.
use super::lines::words_of;
use cdb_command::{Command, Usage, WordFault, plan, plan_explained};
use std::alloc::Global;
use std::prelude::*;
use std::test::Fail;

/// How a plan ended.
#[derive(Clone, Copy, Debug, PartialEq, Eq)]
enum Came {
    /// With what the line requests, or with its fault.
    Whole,
    NoMemory,
    /// There was no memory for the words.
    NoInputs,
    /// With something else.
    Wrong,
}

/// How the plan of a create of two inputs ended.
fn came_of_create(planned: &Result<Command, Usage>) -> Came {
    match planned {
        Ok(Command::Create { inputs, .. }) if inputs.len() == 2 => Came::Whole,
        Err(Usage::NoMemory) => Came::NoMemory,
        _ => Came::Wrong,
    }
}

/// How it ends.
fn plan_create(alloc: Global) -> Came {
    match words_of(alloc, "-cew -t temporary -b base database one two") {
        Ok(words) => came_of_create(&plan(alloc, words)),
        Err(_) => Came::NoInputs,
    }
}

/// How the plan of a line that is refused ended.
fn came_of_refused(planned: &Result<Command, WordFault<'_>>) -> Came {
    match planned {
        Err(WordFault::Twice('n')) => Came::Whole,
        Err(WordFault::NoMemory) => Came::NoMemory,
        _ => Came::Wrong,
    }
}

/// How it ends.
fn plan_refused(alloc: Global) -> Came {
    match words_of(alloc, "-q -n 1 -n 2 database key") {
        Ok(words) => came_of_refused(&plan_explained(alloc, words.as_slice())),
        Err(_) => Came::NoInputs,
    }
}

#[test]
fn a_create_tells_refused_memory(rt: HostRuntime) -> Result<(), Fail> {
    let came = plan_create(rt.alloc());
    assert!(rt; came != Came::Wrong, "another answer");
    println!(rt; "{came:?}")?;
    if came == Came::NoMemory {
        assert!(rt; plan_create(rt.alloc()) == Came::Whole);
    }
    Ok(())
}

#[test]
fn a_refused_line_tells_refused_memory(rt: HostRuntime) -> Result<(), Fail> {
    let came = plan_refused(rt.alloc());
    assert!(rt; came != Came::Wrong, "another answer");
    println!(rt; "{came:?}")?;
    if came == Came::NoMemory {
        assert!(rt; plan_refused(rt.alloc()) == Came::Whole);
    }
    Ok(())
}
