// Lines that want their faults explained, and lines that do not.
use super::lines::words_of;
use cdb_command::explains;
use std::alloc::{AllocError, Global};
use std::prelude::*;
use std::test::Fail;

/// Returns true if a line wants its faults explained.
fn wants(alloc: Global, line: &str) -> Result<bool, AllocError> {
    Ok(explains(words_of(alloc, line)?.as_slice()))
}

/// Lines, and whether `-v` is among their letters.
const LINES: [(&str, bool); 16] = [
    ("", false),
    ("-v", true),
    ("-c x -v", true),
    ("-cv x", true),
    ("-vv -v", true),
    ("-hv", true),
    ("-Zv", true),
    ("-q x k", false),
    ("v -q vv", false),
    ("-q x -- -v", false),
    ("-q -- -v", false),
    ("-tv -c x", false),
    ("-ct v x", false),
    ("-t -v -c x", true),
    ("--v", false),
    ("- -v", true),
];

#[test]
fn lines_want_their_faults_explained(rt: HostRuntime) -> Result<(), Fail> {
    for &(line, wanted) in &LINES {
        assert!(rt; wants(rt.alloc(), line)? == wanted, "at {line}");
    }
    Ok(())
}
