// put_inputs: the records that are held and the lines that were written, if a put fails.
use super::running::{Duplicates, options, texts};
use cdb_form::Narrow;
use cdb_make::{MakeFault, Maker, Mode};
use cdb_store::{FuseStore, MemStore};
use cdb_tool::{Fault, Inputs, Lines, RunContext, RunOptions, Style, put_inputs};
use std::alloc::{AllocError, Global};
use std::prelude::*;
use std::test::Fail;

/// Four records in two inputs; the third and the fourth have keys that were there before.
const INPUTS: [&[u8]; 2] = [b"+1,1:a->1\n+1,1:b->2\n+1,1:a->3\n\n", b"+1,1:b->4\n\n"];

/// The lines of so many of these records.
const LINES: [&[u8]; 5] = [
    b"",
    b"",
    b"",
    b"cdb: input 1: record 3: duplicate key\n",
    b"cdb: input 1: record 3: duplicate key\ncdb: input 2: record 1: duplicate key\n",
];

/// A maker over a store that fails its call of a number.
type Fused = Maker<FuseStore<MemStore>, Narrow>;

/// Puts the inputs, and leaves their lines.
fn put(
    alloc: Global,
    maker: &mut Fused,
    inputs: Vec<&'static [u8]>,
    lines: &mut Vec<u8>,
) -> Result<(), Fault> {
    let counted = Lines::new(false);
    let run = RunContext {
        options: RunOptions {
            make: options(Mode::Warn, Duplicates::Told, Style::Native, 4294967295),
            names: None,
        },
        lines: &counted,
    };
    let none: &[u8] = &[];
    let inputs = Inputs::each_own(alloc, inputs, none)?;
    put_inputs::<Narrow, _, &[u8], &[u8], Vec<u8>>(alloc, maker, run, false, inputs, lines).1
}

/// The lines of as many of the records as a maker holds.
fn lines_of(count: u64) -> &'static [u8] {
    LINES.get(count.min(4) as usize).copied().unwrap_or(b"")
}

/// What the inputs come to in memory, how many records are held then, and whether the lines are
/// those of these records. `None`: there was no memory for maker and inputs.
pub(super) fn put_in_memory(alloc: Global) -> Option<(Result<(), Fault>, u64, bool)> {
    let store = FuseStore::new(MemStore::new(alloc), u64::MAX, 0);
    let Ok(mut maker) = Fused::lazy(alloc, store, 4294967295) else {
        return None;
    };
    let Ok(inputs) = texts(alloc, &INPUTS) else {
        return None;
    };
    let Ok(mut lines) = Vec::with_capacity(alloc, 128) else {
        return None;
    };
    let answer = put(alloc, &mut maker, inputs, &mut lines);
    let count = maker.count();
    Some((answer, count, lines.as_slice() == lines_of(count)))
}

/// Returns the number of records that a maker holds whose store failed its call of a number, if it
/// was made. The lines are to be those of these records.
fn held(alloc: Global, calls: u64) -> Result<Option<u64>, AllocError> {
    let store = FuseStore::new(MemStore::new(alloc), calls, 0);
    let Ok(mut maker) = Fused::lazy(alloc, store, 4294967295) else {
        return Ok(None);
    };
    let mut lines = Vec::new(alloc);
    let answer = put(alloc, &mut maker, texts(alloc, &INPUTS)?, &mut lines);
    let count = maker.count();
    let is_told = match answer {
        Ok(()) => count == 4,
        Err(Fault::Make(fault)) => {
            count < 4 && (fault == MakeFault::Lookup || fault == MakeFault::Writing)
        }
        Err(_) => false,
    };
    if is_told && !maker.is_broken() && lines.as_slice() == lines_of(count) {
        Ok(Some(count))
    } else {
        Ok(None)
    }
}

#[test]
fn the_lines_are_those_of_the_records_that_were_put(rt: HostRuntime) -> Result<(), Fail> {
    // The first three calls empty the store, write its head and flush it. Then come looks and
    // writes.
    let held = [
        held(rt.alloc(), 3)?,
        held(rt.alloc(), 4)?,
        held(rt.alloc(), 5)?,
        held(rt.alloc(), 6)?,
        held(rt.alloc(), 7)?,
        held(rt.alloc(), 8)?,
        held(rt.alloc(), 9)?,
        held(rt.alloc(), u64::MAX)?,
    ];
    // A record whose key is there is found by one read of its header and its key.
    let want = [
        Some(0),
        Some(1),
        Some(2),
        Some(2),
        Some(3),
        Some(3),
        Some(4),
        Some(4),
    ];
    assert!(rt; held == want, "{held:?}");
    Ok(())
}
