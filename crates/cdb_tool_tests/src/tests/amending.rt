// make_run over a base, with files worked out by hand, and over bases that fail.
ghost use Rattle.std.specs.Prelude.{◌≤◌};

use super::running::{Duplicates, options, texts};
use super::worked::{File, Run, bytes_of};
use cdb_form::{Narrow, TextFault, Wide};
use cdb_make::{MakeFault, Mode};
use cdb_read::ReadFault;
use cdb_store::{FuseStore, MemStore};
use cdb_tool::{Fault, MakeOptions, Style, make_run};
use std::alloc::{AllocError, Global};
use std::prelude::*;
use std::test::Fail;

/// The file of `two` with `Goodbye` alone.
pub(super) const LAST_ALONE: [Run; 6] = [
    (41, b"\x12\x08\0\0\0\0\0\0"),
    (1, b"\x12\x08\0\0\x02\0\0\0"),
    (214, b"\x22\x08\0\0\0\0\0\0"),
    (1, b"\x03\0\0\0\x07\0\0\0twoGoodbye"),
    (1, b"\x29\x60\x87\x0b\0\x08\0\0"),
    (1, b"\0\0\0\0\0\0\0\0"),
];

/// The file of `two` with `Goodbye` and then `one` with `Again`.
pub(super) const ONE_AGAIN: [Run; 10] = [
    (41, b"\x22\x08\0\0\0\0\0\0"),
    (1, b"\x22\x08\0\0\x02\0\0\0"),
    (87, b"\x32\x08\0\0\0\0\0\0"),
    (1, b"\x32\x08\0\0\x02\0\0\0"),
    (126, b"\x42\x08\0\0\0\0\0\0"),
    (1, b"\x03\0\0\0\x07\0\0\0twoGoodbye"),
    (1, b"\x03\0\0\0\x05\0\0\0oneAgain"),
    (1, b"\x29\x60\x87\x0b\0\x08\0\0"),
    (2, b"\0\0\0\0\0\0\0\0"),
    (1, b"\x81\x5b\x87\x0b\x12\x08\0\0"),
];

/// What came of amending a base in memory.
#[derive(Drop)]
pub(super) struct Amended {
    pub(super) answer: Result<(), Fault>,
    file: Vec<u8>,
    lines: Vec<u8>,
    pub(super) base: Vec<u8>,
}

impl Amended {
    /// Returns true if the file and the lines are these, and the base is what it was.
    pub(super) fn made(&self, file: &[u8], lines: &[u8], base: &[u8]) -> bool {
        self.answer == Ok(())
            && self.file.as_slice() == file
            && self.lines.as_slice() == lines
            && self.base.as_slice() == base
    }

    /// Returns true if it failed so, with these lines, and the base is what it was.
    fn fails(&self, fault: Fault, lines: &[u8], base: &[u8]) -> bool {
        self.answer == Err(fault) && self.lines.as_slice() == lines && self.base.as_slice() == base
    }
}

/// A record is removed, and put again with another value.
const REPLACED_BY_HAND: &[u8] = b"-3:one\n+3,5:one->Again\n\n";

/// The bytes of a base that was returned.
fn handed(alloc: Global, base: Option<MemStore>) -> Vec<u8> {
    match base {
        Some(base) => base.into_vec(),
        None => Vec::new(alloc),
    }
}

/// A base amended by one input.
fn amend(
    alloc: Global,
    base: &[u8],
    input: &'static [u8],
    options: MakeOptions,
) -> Result<Amended, AllocError>
    requires least { 2048 ≤ options.limit }
    requires most { options.limit ≤ 4294967295 }
{
    let texts = texts(alloc, &[input])?;
    let mut lines = Vec::new(alloc);
    let base = MemStore::from_vec(Vec::from_slice(alloc, base)?);
    let store = MemStore::new(alloc);
    let (store, base, answer) = make_run::<Narrow, MemStore, MemStore, &[u8], Vec<u8>>(
        alloc,
        store,
        Some(base),
        texts,
        options,
        &mut lines,
    );
    Ok(Amended {
        answer,
        file: store.into_vec(),
        lines,
        base: handed(alloc, base),
    })
}

/// The two-record file amended.
pub(super) fn amend_two(
    alloc: Global,
    input: &'static [u8],
    mode: Mode,
    duplicates: Duplicates,
) -> Result<Amended, AllocError> {
    let two = File::Two.bytes(alloc)?;
    amend(
        alloc,
        &two,
        input,
        options(mode, duplicates, Style::Native, 4294967295),
    )
}

#[test]
fn a_removal_and_a_put_amend_a_base(rt: HostRuntime) -> Result<(), Fail> {
    let alloc = rt.alloc();
    let two = File::Two.bytes(alloc)?;
    let alone = bytes_of(alloc, &LAST_ALONE)?;
    let again = bytes_of(alloc, &ONE_AGAIN)?;
    let taken = amend_two(alloc, b"-3:one\n\n", Mode::Add, Duplicates::Silent)?;
    assert!(rt; taken.made(&alone, b"", &two), "removed");
    let put = amend_two(alloc, REPLACED_BY_HAND, Mode::Warn, Duplicates::Told)?;
    assert!(rt; put.made(&again, b"", &two), "again");
    Ok(())
}

#[test]
fn nothing_amended_is_the_same_file(rt: HostRuntime) -> Result<(), Fail> {
    let alloc = rt.alloc();
    let two = File::Two.bytes(alloc)?;
    let same = amend_two(alloc, b"\n", Mode::Add, Duplicates::Silent)?;
    assert!(rt; same.made(&two, b"", &two), "no item");
    let absent = amend_two(alloc, b"-3:zzz\n\n", Mode::Warn, Duplicates::Told)?;
    assert!(rt; absent.made(&two, b"", &two), "an absent key");
    Ok(())
}

#[test]
fn records_of_a_base_are_added_whatever_the_mode(rt: HostRuntime) -> Result<(), Fail> {
    let alloc = rt.alloc();
    let four = File::FourValues.bytes(alloc)?;
    let replaced = options(Mode::Replace, Duplicates::Silent, Style::Native, 4294967295);
    assert!(rt;
        amend(alloc, &four, b"\n", replaced)?.made(&four, b"", &four),
        "replace"
    );
    let stopped = options(Mode::Add, Duplicates::Last, Style::Native, 4294967295);
    assert!(rt;
        amend(alloc, &four, b"\n", stopped)?.made(&four, b"", &four),
        "stop"
    );
    Ok(())
}

#[test]
fn removals_are_counted_and_not_told(rt: HostRuntime) -> Result<(), Fail> {
    let alloc = rt.alloc();
    let two = File::Two.bytes(alloc)?;
    let told = amend_two(
        alloc,
        b"-3:zzz\n+3,1:one->X\n\n",
        Mode::Warn,
        Duplicates::Told,
    )?;
    assert!(rt;
        told.lines.as_slice() == b"cdb: input 1: record 2: duplicate key\n".as_slice(),
        "the second item"
    );
    let last = amend_two(alloc, b"+3,1:one->X\n\n", Mode::Warn, Duplicates::Last)?;
    assert!(rt;
        last.fails(
            Fault::Duplicate,
            b"cdb: input 1: record 1: duplicate key\n",
            &two
        ),
        "stopped"
    );
    Ok(())
}

#[test]
fn faults_of_amending_texts_are_told(rt: HostRuntime) -> Result<(), Fail> {
    let alloc = rt.alloc();
    let two = File::Two.bytes(alloc)?;
    let rows: [(&'static [u8], TextFault); 4] = [
        (b"-3:on", TextFault::Ended(5)),
        (b"-4294967296:", TextFault::Large(10)),
        (b"-3:onex", TextFault::Syntax(6)),
        (b"-3,", TextFault::Syntax(2)),
    ];
    for (input, fault) in rows {
        let made = amend_two(alloc, input, Mode::Add, Duplicates::Silent)?;
        assert!(rt; made.fails(Fault::Text(1, fault), b"", &two), "{input:?}");
    }
    Ok(())
}

/// The answer to a text that removes a key, with no base.
fn without_base(alloc: Global) -> Result<Result<(), Fault>, AllocError> {
    let texts = texts(alloc, &[b"-3:one\n\n"])?;
    let mut lines = Vec::new(alloc);
    let added = options(Mode::Add, Duplicates::Silent, Style::Native, 4294967295);
    let store = MemStore::new(alloc);
    let (_, _, answer) = make_run::<Narrow, MemStore, MemStore, &[u8], Vec<u8>>(
        alloc, store, None, texts, added, &mut lines,
    );
    Ok(answer)
}

#[test]
fn a_removal_needs_a_base(rt: HostRuntime) -> Result<(), Fail> {
    let answer = without_base(rt.alloc())?;
    assert!(rt; answer == Err(Fault::Text(1, TextFault::Syntax(0))));
    Ok(())
}

/// The first bytes of the two-record file.
fn first_bytes(alloc: Global, many: usize) -> Result<Vec<u8>, AllocError> {
    let mut bytes = File::Two.bytes(alloc)?;
    bytes.truncate(many);
    Ok(bytes)
}

/// Returns true if a base is refused so, before an input that is no text is read.
fn refuses(alloc: Global, base: &[u8], limit: u64, fault: Fault) -> Result<bool, AllocError>
    requires least { 2048 ≤ limit }
    requires most { limit ≤ 4294967295 }
{
    let added = options(Mode::Add, Duplicates::Silent, Style::Native, limit);
    Ok(amend(alloc, base, b"x", added)?.fails(fault, b"", base))
}

#[test]
fn a_damaged_base_is_told_behind_its_limit(rt: HostRuntime) -> Result<(), Fail> {
    let alloc = rt.alloc();
    let cut = first_bytes(alloc, 2070)?;
    let damaged = Fault::Read(ReadFault::Record(2064));
    assert!(rt;
        refuses(alloc, &cut, 4294967295, damaged)?,
        "before the input"
    );
    let big = Fault::Make(MakeFault::TooBig);
    assert!(rt; refuses(alloc, &cut, 2079, big)?, "its first record");
    let short = first_bytes(alloc, 2047)?;
    let no_head = Fault::Read(ReadFault::Short);
    assert!(rt; refuses(alloc, &short, 4294967295, no_head)?, "no head");
    Ok(())
}

/// The answer over a base, cut to so many bytes, of which a call fails, its bytes then, and the
/// file.
fn over_fuse(
    alloc: Global,
    input: &'static [u8],
    duplicates: Duplicates,
    many: usize,
    calls: u64,
) -> Result<(Result<(), Fault>, Vec<u8>, Vec<u8>), AllocError> {
    let texts = texts(alloc, &[input])?;
    let mut lines = Vec::new(alloc);
    let base = FuseStore::new(MemStore::from_vec(first_bytes(alloc, many)?), calls, 1);
    let mode = if duplicates == Duplicates::Told {
        Mode::Warn
    } else {
        Mode::Add
    };
    let put = options(mode, duplicates, Style::Native, 4294967295);
    let store = MemStore::new(alloc);
    let (store, base, answer) = make_run::<Narrow, MemStore, FuseStore<MemStore>, &[u8], Vec<u8>>(
        alloc,
        store,
        Some(base),
        texts,
        put,
        &mut lines,
    );
    let base = match base {
        Some(base) => base.into_inner().into_vec(),
        None => Vec::new(alloc),
    };
    Ok((answer, base, store.into_vec()))
}

/// Returns true if a base of which any call fails is returned as it was, with that fault, and a run
/// that meets none makes this file.
fn hands_back(
    alloc: Global,
    input: &'static [u8],
    duplicates: Duplicates,
    made: &[u8],
) -> Result<bool, AllocError> {
    let two = File::Two.bytes(alloc)?;
    for calls in 0..64u64 {
        let (answer, base, file) = over_fuse(alloc, input, duplicates, two.len(), calls)?;
        if base.as_slice() != two.as_slice() {
            return Ok(false);
        }
        if answer == Ok(()) {
            return Ok(calls > 0 && file.as_slice() == made);
        }
        if answer != Err(Fault::Read(ReadFault::Device)) {
            return Ok(false);
        }
    }
    Ok(false)
}

#[test]
fn a_base_that_fails_is_handed_back(rt: HostRuntime) -> Result<(), Fail> {
    let alloc = rt.alloc();
    let alone = bytes_of(alloc, &LAST_ALONE)?;
    assert!(rt;
        hands_back(alloc, b"-3:one\n\n", Duplicates::Silent, &alone)?,
        "a removal"
    );
    let again = bytes_of(alloc, &ONE_AGAIN)?;
    assert!(rt;
        hands_back(alloc, REPLACED_BY_HAND, Duplicates::Told, &again)?,
        "a record that is put again"
    );
    Ok(())
}

#[test]
fn a_damaged_base_that_fails_is_handed_back(rt: HostRuntime) -> Result<(), Fail> {
    let cut = first_bytes(rt.alloc(), 2070)?;
    for calls in 0..64u64 {
        let (answer, base, _) = over_fuse(
            rt.alloc(),
            REPLACED_BY_HAND,
            Duplicates::Told,
            2070,
            calls,
        )?;
        assert!(rt; base.as_slice() == cut.as_slice(), "{calls}");
        if answer == Err(Fault::Read(ReadFault::Record(2064))) {
            assert!(rt; calls > 0);
            return Ok(());
        }
        assert!(rt; answer == Err(Fault::Read(ReadFault::Device)), "{calls}");
    }
    Err(Fail::new("no run met the damage"))
}

/// A wide base of one record, which is removed.
fn wide_emptied(alloc: Global) -> Result<Vec<u8>, AllocError> {
    let texts = texts(alloc, &[b"-3:one\n\n"])?;
    let mut lines = Vec::new(alloc);
    let base = MemStore::from_vec(File::WideOne.bytes(alloc)?);
    let added = options(Mode::Add, Duplicates::Silent, Style::Native, 4294967295);
    let store = MemStore::new(alloc);
    let (store, _, _) = make_run::<Wide, MemStore, MemStore, &[u8], Vec<u8>>(
        alloc,
        store,
        Some(base),
        texts,
        added,
        &mut lines,
    );
    Ok(store.into_vec())
}

#[test]
fn a_wide_base_is_amended(rt: HostRuntime) -> Result<(), Fail> {
    let none = File::WideNone.bytes(rt.alloc())?;
    let made = wide_emptied(rt.alloc())?;
    assert!(rt; made.as_slice() == none.as_slice());
    Ok(())
}
