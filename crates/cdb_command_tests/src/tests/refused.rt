// Lines that request nothing, and why.
use super::lines::words_of;
use cdb_command::{Lacking, WordFault, plan, plan_explained};
use std::alloc::{AllocError, Global};
use std::prelude::*;
use std::test::Fail;

/// Returns true if a line is refused with this fault, and by `plan` with what it is whatever the
/// word.
fn is_refused(alloc: Global, line: &str, fault: WordFault<'_>) -> Result<bool, AllocError> {
    let words = words_of(alloc, line)?;
    let explained = match plan_explained(alloc, words.as_slice()) {
        Ok(_) => false,
        Err(refused) => refused == fault,
    };
    match plan(alloc, words) {
        Ok(_) => Ok(false),
        Err(refused) => Ok(explained && refused == fault.usage()),
    }
}

/// Lines, and their faults.
const REFUSED: [(&str, WordFault<'static>); 70] = [
    ("", WordFault::NoCommand),
    ("x", WordFault::NoCommand),
    ("-q -d x", WordFault::TwoCommands('q', 'd')),
    ("-qd", WordFault::TwoCommands('q', 'd')),
    ("-k -D -l x", WordFault::TwoCommands('l', 'k')),
    ("-s -m", WordFault::Option('m', 's')),
    ("-d -r -u", WordFault::Option('r', 'd')),
    ("-k -n 1", WordFault::Option('n', 'k')),
    ("-c -n 0", WordFault::Option('n', 'c')),
    ("-l -t x -w", WordFault::Option('t', 'l')),
    ("-q -e -w x k", WordFault::Option('w', 'q')),
    ("-W -s -ue", WordFault::Option('e', 's')),
    ("-l -u", WordFault::Option('u', 'l')),
    ("-q -n 4294967296 x k", WordFault::Number("4294967296")),
    ("-q -n 0 x", WordFault::Number("0")),
    ("-q -n +1 x k", WordFault::Number("+1")),
    ("-q -n 1x x k z", WordFault::Number("1x")),
    ("-q", WordFault::Lacks(Lacking::Database)),
    ("-q x", WordFault::Lacks(Lacking::Key)),
    ("-q x k z", WordFault::Surplus("z")),
    ("-d x y", WordFault::Surplus("y")),
    ("-k x y", WordFault::Surplus("y")),
    ("-D -q x y", WordFault::TwoCommands('q', 'D')),
    ("-Dc x y", WordFault::TwoCommands('c', 'D')),
    ("-D -m x y", WordFault::Option('m', 'D')),
    ("-D -n 1 x y", WordFault::Option('n', 'D')),
    ("-D -t z x y", WordFault::Option('t', 'D')),
    ("-D -weru x y", WordFault::Option('w', 'D')),
    ("-D -b z x y", WordFault::Option('b', 'D')),
    ("-D", WordFault::Lacks(Lacking::Old)),
    ("-D x", WordFault::Lacks(Lacking::New)),
    ("-D x y z", WordFault::Surplus("z")),
    ("-c -r -u", WordFault::Lacks(Lacking::Database)),
    ("-c -r -u x", WordFault::Both),
    ("-W", WordFault::NoCommand),
    ("-Z", WordFault::Unknown('Z')),
    ("-q -é x", WordFault::Unknown('é')),
    ("-qm-d x", WordFault::Unknown('-')),
    ("-b x", WordFault::NoCommand),
    ("-d -b x", WordFault::Option('b', 'd')),
    ("-k -u -b x", WordFault::Option('u', 'k')),
    ("-c -b x.tmp x", WordFault::BaseBuiltIn("x.tmp")),
    ("-c -b x -t x y", WordFault::BaseBuiltIn("x")),
    ("-c -b x -t - y", WordFault::BaseInPlace),
    ("-c -b x -t - -", WordFault::BaseInPlace),
    ("-c -b x -t x", WordFault::BaseBuiltIn("x")),
    ("-c -n 0 -b x -t -", WordFault::Option('n', 'c')),
    ("-c -r -u -b x.tmp x", WordFault::BaseBuiltIn("x.tmp")),
    ("-c -b x", WordFault::Lacks(Lacking::Database)),
    ("-c x -b", WordFault::NoValue('b')),
    ("-c -b x -b y z", WordFault::Twice('b')),
    ("-h -Z", WordFault::Unknown('Z')),
    ("-V -Z", WordFault::Unknown('Z')),
    ("-i x", WordFault::NoCommand),
    ("-v", WordFault::NoCommand),
    ("-qid x", WordFault::TwoCommands('q', 'd')),
    ("-di x", WordFault::Option('i', 'd')),
    ("-c -n 1 -i x", WordFault::Option('n', 'c')),
    ("-ci -w x", WordFault::Option('i', 'c')),
    ("-D -it z x y", WordFault::Option('i', 'D')),
    ("-qi -w x", WordFault::Option('w', 'q')),
    ("-qi -n 0 x", WordFault::Number("0")),
    ("-qi", WordFault::Lacks(Lacking::Database)),
    ("-q -v x", WordFault::Lacks(Lacking::Key)),
    ("-q x -k -n", WordFault::NoValue('n')),
    ("-q -n -- 1 x k", WordFault::NoValue('n')),
    ("-q -n 1 -n 2 x k", WordFault::Twice('n')),
    ("-qn1 -n2 x k", WordFault::Twice('n')),
    ("-c --map x -Z", WordFault::Long("--map")),
    ("-c -t a -t b x", WordFault::Twice('t')),
];

#[test]
fn lines_are_refused_for_their_first_fault(rt: HostRuntime) -> Result<(), Fail> {
    for (line, fault) in &REFUSED {
        assert!(rt; is_refused(rt.alloc(), line, *fault)?, "at {line}");
    }
    Ok(())
}

/// Lines with a long word, the one for help among them, and their faults.
const LONG_WORDS: [(&str, WordFault<'static>); 8] = [
    ("--map", WordFault::Long("--map")),
    ("--help", WordFault::Help),
    ("-mv --help x --map", WordFault::Help),
    ("--help -- -q", WordFault::Help),
    ("-Z --help", WordFault::Unknown('Z')),
    ("-q --help x k", WordFault::Long("--help")),
    ("--help -mc x", WordFault::Long("--help")),
    ("-h --help", WordFault::Long("--help")),
];

#[test]
fn lines_with_long_words_are_refused(rt: HostRuntime) -> Result<(), Fail> {
    for (line, fault) in &LONG_WORDS {
        assert!(rt; is_refused(rt.alloc(), line, *fault)?, "at {line}");
    }
    Ok(())
}
