// make_run, over inputs and files worked out by hand, and over stores and writers that fail.
ghost use Rattle.std.specs.Prelude.{◌≡◌, ◌≤◌};

use super::fakes::FakeWriter;
use super::worked::File;
use cdb_form::{Narrow, TextFault};
use cdb_make::{MakeFault, Mode};
use cdb_store::{FuseStore, MemStore};
use cdb_tool::{Fault, MakeOptions, Style, make_run};
use std::alloc::{AllocError, Global};
use std::prelude::*;
use std::test::Fail;

/// Two values of one key.
pub(super) const TWICE: &[u8] = b"+1,1:a->1\n+1,1:a->2\n\n";

/// The first and the second alone.
const FIRST: &[u8] = b"+1,1:a->1\n\n";

const SECOND: &[u8] = b"+1,1:a->2\n\n";

/// The line of the second record of the first input, and of the first of the second.
const LINE: &[u8] = b"cdb: input 1: record 2: duplicate key\n";

const OTHER_LINE: &[u8] = b"cdb: input 2: record 1: duplicate key\n";

/// What is done about a record whose key was there already, beside its put.
#[derive(Clone, Copy, Debug, PartialEq, Eq)]
pub(super) enum Duplicates {
    Silent,
    Told,
    Last,
}

/// The options of a run that may make a file of so many bytes.
pub(super) fn options(mode: Mode, duplicates: Duplicates, style: Style, limit: u64) -> MakeOptions
    ensures { result.limit ≡ limit }
{
    MakeOptions {
        mode,
        warn: duplicates == Duplicates::Told,
        stop: duplicates == Duplicates::Last,
        style,
        limit,
    }
}

/// What came of a run in memory.
#[derive(Drop)]
pub(super) struct Made {
    pub(super) answer: Result<(), Fault>,
    file: Vec<u8>,
    lines: Vec<u8>,
}

impl Made {
    /// Returns true if it answered so, with this file and these lines.
    pub(super) fn is(&self, answer: Result<(), Fault>, file: &[u8], lines: &[u8]) -> bool {
        self.answer == answer && self.file.as_slice() == file && self.lines.as_slice() == lines
    }

    /// Returns true if it failed so, with these lines.
    fn fails(&self, fault: Fault, lines: &[u8]) -> bool {
        self.answer == Err(fault) && self.lines.as_slice() == lines
    }
}

/// The inputs, each to be read.
pub(super) fn texts(
    alloc: Global,
    inputs: &[&'static [u8]],
) -> Result<Vec<&'static [u8]>, AllocError> {
    let mut texts = Vec::new(alloc);
    for input in inputs {
        texts.push(*input).map_err(AllocError::from)?;
    }
    Ok(texts)
}

/// A run in memory.
fn make(alloc: Global, inputs: &[&'static [u8]], options: MakeOptions) -> Result<Made, AllocError>
    requires least { 2048 ≤ options.limit }
    requires most { options.limit ≤ 4294967295 }
{
    let texts = texts(alloc, inputs)?;
    let mut lines = Vec::new(alloc);
    let store = MemStore::new(alloc);
    let (store, _, answer) = make_run::<Narrow, MemStore, MemStore, &[u8], Vec<u8>>(
        alloc, store, None, texts, options, &mut lines,
    );
    Ok(Made {
        answer,
        file: store.into_vec(),
        lines,
    })
}

/// A run in memory, over inputs of a style.
fn run_style(
    alloc: Global,
    inputs: &[&'static [u8]],
    mode: Mode,
    duplicates: Duplicates,
    style: Style,
) -> Result<Made, AllocError> {
    make(alloc, inputs, options(mode, duplicates, style, 4294967295))
}

/// A run in memory, over native texts.
pub(super) fn run(
    alloc: Global,
    inputs: &[&'static [u8]],
    mode: Mode,
    duplicates: Duplicates,
) -> Result<Made, AllocError> {
    run_style(alloc, inputs, mode, duplicates, Style::Native)
}

/// Returns true if a run that warns of duplicates answers so, with these lines, and with this file
/// if it does not fail.
fn warns(
    alloc: Global,
    inputs: &[&'static [u8]],
    answer: Result<(), Fault>,
    file: &[u8],
    lines: &[u8],
) -> Result<bool, AllocError> {
    let made = run(alloc, inputs, Mode::Warn, Duplicates::Told)?;
    let is_made = answer.is_err() || made.file.as_slice() == file;
    Ok(is_made && made.answer == answer && made.lines.as_slice() == lines)
}

/// A run in memory, with the duplicates reported, that may make a file of 2100 bytes.
fn run_within_2100(alloc: Global, inputs: &[&'static [u8]]) -> Result<Made, AllocError> {
    make(
        alloc,
        inputs,
        options(Mode::Warn, Duplicates::Told, Style::Native, 2100),
    )
}

/// The same, of a byte less.
fn run_within_2099(alloc: Global, inputs: &[&'static [u8]]) -> Result<Made, AllocError> {
    make(
        alloc,
        inputs,
        options(Mode::Warn, Duplicates::Told, Style::Native, 2099),
    )
}

/// What is done with two values of a key, the file that is made, and the lines.
const PUT: [(Mode, Duplicates, File, &[u8]); 7] = [
    (Mode::Warn, Duplicates::Told, File::BothValues, LINE),
    (Mode::Add, Duplicates::Silent, File::BothValues, b""),
    (Mode::Insert, Duplicates::Silent, File::FirstValue, b""),
    (Mode::Insert, Duplicates::Told, File::FirstValue, LINE),
    (Mode::Replace, Duplicates::Silent, File::SecondValue, b""),
    (Mode::Replace, Duplicates::Told, File::SecondValue, LINE),
    // `Add` does not look, so it finds none to report.
    (Mode::Add, Duplicates::Told, File::BothValues, b""),
];

#[test]
fn duplicates_are_put_by_the_mode_and_told(rt: HostRuntime) -> Result<(), Fail> {
    for &(mode, duplicates, file, lines) in &PUT {
        let made = run(rt.alloc(), &[TWICE], mode, duplicates)?;
        let is_made = made.is(Ok(()), &file.bytes(rt.alloc())?, lines);
        assert!(rt; is_made, "{mode:?}, {duplicates:?}");
    }
    Ok(())
}

#[test]
fn a_run_stops_at_the_first_duplicate_that_it_tells(rt: HostRuntime) -> Result<(), Fail> {
    for mode in [Mode::Add, Mode::Warn, Mode::Insert, Mode::Replace] {
        let made = run(rt.alloc(), &[TWICE, b"x"], mode, Duplicates::Last)?;
        assert!(rt; made.fails(Fault::Duplicate, LINE), "{mode:?}");
    }
    Ok(())
}

/// Inputs, what comes of them, the file if none fails, and the lines.
const INPUTS: [(&[&'static [u8]], Result<(), Fault>, File, &[u8]); 4] = [
    (&[FIRST, SECOND], Ok(()), File::BothValues, OTHER_LINE),
    (
        &[FIRST, b"x"],
        Err(Fault::Text(2, TextFault::Syntax(0))),
        File::None,
        b"",
    ),
    (
        &[TWICE, b"x"],
        Err(Fault::Text(2, TextFault::Syntax(0))),
        File::None,
        LINE,
    ),
    (&[], Ok(()), File::None, b""),
];

#[test]
fn each_input_is_counted_from_its_first_record(rt: HostRuntime) -> Result<(), Fail> {
    for &(inputs, answer, file, lines) in &INPUTS {
        let file = file.bytes(rt.alloc())?;
        let is_so = warns(rt.alloc(), inputs, answer, &file, lines)?;
        assert!(rt; is_so, "{answer:?}, {lines:?}");
    }
    Ok(())
}

#[test]
fn map_texts_are_put_as_native_ones(rt: HostRuntime) -> Result<(), Fail> {
    let both = File::BothValues.bytes(rt.alloc())?;
    let maps: &[u8] = b"# aliases\n a 1\n\na\t2";
    let made = run_style(
        rt.alloc(),
        &[maps],
        Mode::Warn,
        Duplicates::Told,
        Style::Map,
    )?;
    assert!(rt; made.is(Ok(()), &both, LINE));
    Ok(())
}

#[test]
fn a_run_has_a_limit_of_its_own(rt: HostRuntime) -> Result<(), Fail> {
    let both = File::BothValues.bytes(rt.alloc())?;
    let fits = run_within_2100(rt.alloc(), &[TWICE])?.is(Ok(()), &both, LINE);
    // The record that is too much is not reported.
    let too_big = Fault::Make(MakeFault::TooBig);
    let passes = run_within_2099(rt.alloc(), &[TWICE])?.fails(too_big, b"");
    assert!(rt; fits && passes);
    Ok(())
}

/// The answer of a run whose duplicates are reported to a writer.
fn told(
    alloc: Global,
    input: &'static [u8],
    w: &mut FakeWriter,
) -> Result<Result<(), Fault>, AllocError> {
    let texts = texts(alloc, &[input])?;
    let store = MemStore::new(alloc);
    let told = options(Mode::Warn, Duplicates::Told, Style::Native, 4294967295);
    let (_, _, answer) = make_run::<Narrow, MemStore, MemStore, &[u8], FakeWriter>(
        alloc, store, None, texts, told, w,
    );
    Ok(answer)
}

#[test]
fn a_writer_of_lines_that_fails_holds_a_prefix(rt: HostRuntime) -> Result<(), Fail> {
    for room in 0..=LINE.len() {
        let mut w = FakeWriter::new(rt.alloc(), room);
        let answer = told(rt.alloc(), TWICE, &mut w)?;
        assert!(rt; w.holds_prefix(answer, LINE, room), "{room}");
    }
    Ok(())
}

#[test]
fn lines_are_flushed_last_after_a_fault_too(rt: HostRuntime) -> Result<(), Fail> {
    let cases: [(&'static [u8], Result<(), Fault>); 2] = [
        (TWICE, Err(Fault::Output)),
        (b"x", Err(Fault::Text(1, TextFault::Syntax(0)))),
    ];
    for (input, want) in cases {
        let mut w = FakeWriter::new(rt.alloc(), 4096);
        w.flush_fails = true;
        let answer = told(rt.alloc(), input, &mut w)?;
        assert!(rt; answer == want && w.flushes == 1, "{input:?}");
    }
    Ok(())
}

/// The answer of a run over a store of which a call fails, and its file.
fn over_fuse(alloc: Global, calls: u64) -> Result<(Result<(), Fault>, Vec<u8>), AllocError> {
    let texts = texts(alloc, &[TWICE])?;
    let mut lines = Vec::new(alloc);
    let store = FuseStore::new(MemStore::new(alloc), calls, 1);
    let told = options(Mode::Replace, Duplicates::Told, Style::Native, 4294967295);
    let (store, _, answer) = make_run::<Narrow, FuseStore<MemStore>, MemStore, &[u8], Vec<u8>>(
        alloc, store, None, texts, told, &mut lines,
    );
    Ok((answer, store.into_inner().into_vec()))
}

#[test]
fn a_store_that_fails_ends_the_run(rt: HostRuntime) -> Result<(), Fail> {
    let second = File::SecondValue.bytes(rt.alloc())?;
    let (mut writing, mut lookup) = (false, false);
    for calls in 0..64u64 {
        let (answer, file) = over_fuse(rt.alloc(), calls)?;
        match answer {
            Err(Fault::Make(MakeFault::Writing)) => writing = true,
            Err(Fault::Make(MakeFault::Lookup)) => lookup = true,
            _ => {
                assert!(rt;
                    answer == Ok(()) && file.as_slice() == second.as_slice(),
                    "{calls}"
                );
                assert!(rt; lookup && writing);
                return Ok(());
            }
        }
    }
    Err(Fail::new("no run met no fault"))
}
