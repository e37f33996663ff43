//! Scripts of calls to a maker, which come to what a plain list of records does.
use super::makers::{COMPACTING, EAGER, LAZY, Way, finished, made_in};
use super::model::{Wanted, expected, expected_within};
use cdb_form::Width;
use cdb_make::{MakeFault, Maker, Mode, Put};
use cdb_store::{FuseStore, MemStore, Store};
use std::alloc::Global;
use std::prelude::*;
use std::test::Fail;

/// What is done with a key.
#[derive(Clone, Copy, Debug, PartialEq, Eq)]
pub(super) enum Step {
    /// A record is put.
    Put(Mode),
    /// Its records are taken out.
    Remove,
    /// It is looked for.
    Exists,
    /// Two records of other keys are appended at once.
    Append,
}

/// A call of a script.
#[derive(Clone, Copy)]
pub(super) struct Call<'a> {
    /// What is done.
    pub(super) step: Step,
    /// With which key.
    pub(super) key: &'a [u8],
    /// The value that is put.
    pub(super) value: &'a [u8],
}

/// What a call answers.
#[derive(Clone, Copy, Debug, PartialEq, Eq)]
pub(super) enum Answer {
    /// A put's answer.
    Put(Put),
    /// The number of records that were taken out.
    Removed(u64),
    /// True if the key is there.
    There(bool),
    /// The number of bytes that the records have that were appended.
    Appended(usize),
    /// Nothing but a fault.
    Refused(MakeFault),
}

/// A record was appended, and nothing else was done.
pub(super) const ADDED: Answer = Answer::Put(Put::Added);

/// So many records were taken out, and one was appended.
pub(super) fn replaced(count: u64) -> Answer {
    Answer::Put(Put::Replaced(count))
}

/// What a script came to.
#[derive(Drop)]
pub(super) struct Made {
    /// What its calls answered.
    pub(super) answers: Vec<Answer>,
    /// The number of bytes that each of them wrote, and then the finish.
    pub(super) wrote: Vec<u64>,
    /// The number of records that were held at the end.
    pub(super) count: u64,
    /// How long their file was to be.
    pub(super) size: u64,
    /// The finished file.
    pub(super) file: Vec<u8>,
}

/// A call that appends a record.
pub(super) fn add<'a>(key: &'a [u8], value: &'a [u8]) -> Call<'a> {
    put(Mode::Add, key, value)
}

/// A call that puts a record in the place of those of its key.
pub(super) fn replace<'a>(key: &'a [u8], value: &'a [u8]) -> Call<'a> {
    put(Mode::Replace, key, value)
}

/// A call that puts a record.
pub(super) fn put<'a>(mode: Mode, key: &'a [u8], value: &'a [u8]) -> Call<'a> {
    let step = Step::Put(mode);
    Call { step, key, value }
}

/// A call that takes out the records of a key.
pub(super) fn remove(key: &[u8]) -> Call {
    Call {
        step: Step::Remove,
        key,
        value: b"",
    }
}

/// A call that looks for a key.
pub(super) fn exists(key: &[u8]) -> Call {
    Call {
        step: Step::Exists,
        key,
        value: b"",
    }
}

/// The records that an append has, as they are in a narrow file, and a byte more.
const NARROW_RUN: &[u8] = b"\x03\0\0\0\x01\0\0\0one!\x01\0\0\0\0\0\0\0a?";

/// The same in a wide file.
const WIDE_RUN: &[u8] =
    b"\x03\0\0\0\0\0\0\0\x01\0\0\0\0\0\0\0one!\x01\0\0\0\0\0\0\0\0\0\0\0\0\0\0\0a?";

/// Makes a call.
pub(super) fn act<S: Store, L: Width>(
    maker: &mut Maker<S, L>,
    call: &Call,
) -> Result<Answer, MakeFault> {
    match call.step {
        Step::Put(mode) => Ok(Answer::Put(maker.put(mode, call.key, call.value)?)),
        Step::Remove => Ok(Answer::Removed(maker.remove(call.key)?)),
        Step::Exists => Ok(Answer::There(maker.exists(call.key)?)),
        Step::Append => {
            let run = if L::WORD == 8 { WIDE_RUN } else { NARROW_RUN };
            Ok(Answer::Appended(maker.append(run)?))
        }
    }
}

/// Makes a call, and answers its fault if it fails.
pub(super) fn answer_of<S: Store, L: Width>(maker: &mut Maker<S, L>, call: &Call) -> Answer {
    match act(maker, call) {
        Ok(answer) => answer,
        Err(fault) => Answer::Refused(fault),
    }
}

/// Makes the calls of a script, and finishes the file.
fn run<L: Width>(alloc: Global, calls: &[Call], way: Way) -> Result<Made, Fail> {
    let store = FuseStore::new(MemStore::new(alloc), u64::MAX, 0);
    let mut maker = made_in::<FuseStore<MemStore>, L>(alloc, store, way)?;
    let (mut answers, mut wrote) = (Vec::new(alloc), Vec::new(alloc));
    for (number, call) in calls.iter().enumerate() {
        let before = maker.store().written();
        answers.push(answer_of(&mut maker, call))?;
        wrote.push(maker.store().written().saturating_sub(before))?;
        if way.compacts && number % 7 == 6 {
            maker.compact_all()?;
        }
    }
    let (count, size) = (maker.count(), maker.size());
    let before = maker.store().written();
    let store = finished(maker)?;
    wrote.push(store.written().saturating_sub(before))?;
    Ok(Made {
        answers,
        wrote,
        count,
        size,
        file: store.into_inner().into_vec(),
    })
}

impl Made {
    /// What a script came to otherwise than wanted. Empty: nothing.
    fn other_than(&self, wanted: &Wanted) -> &'static str {
        if self.answers != wanted.answers {
            "other answers"
        } else if self.file != wanted.file {
            "another file than from scratch"
        } else if self.count != wanted.count {
            "another count"
        } else if self.size != wanted.file.len() as u64 {
            "another size"
        } else {
            ""
        }
    }
}

/// Runs a script, which is to come to what is wanted.
fn run_to<L: Width>(
    alloc: Global,
    calls: &[Call],
    way: Way,
    wanted: &Wanted,
) -> Result<Made, Fail> {
    let made = run::<L>(alloc, calls, way)?;
    let other = made.other_than(wanted);
    if other.is_empty() {
        Ok(made)
    } else {
        Err(Fail::new(other))
    }
}

/// Runs a script on an eager maker, which is to come to what a plain list of records does.
pub(super) fn comes_to<L: Width>(alloc: Global, calls: &[Call]) -> Result<Made, Fail> {
    run_to::<L>(alloc, calls, EAGER, &expected::<L>(alloc, calls)?)
}

/// The same of a lazy maker.
pub(super) fn comes_late_to<L: Width>(alloc: Global, calls: &[Call]) -> Result<Made, Fail> {
    run_to::<L>(alloc, calls, LAZY, &expected::<L>(alloc, calls)?)
}

/// Runs a script on makers of each way, whose files may have so many bytes more than a head has.
/// Each is to come to what a plain list of records does. Answers how many calls were refused.
pub(super) fn all_come_to<L: Width>(
    alloc: Global,
    calls: &[Call],
    most: Option<u16>,
) -> Result<u64, Fail> {
    let wanted = expected_within::<L>(alloc, calls, most)?;
    for way in [EAGER, LAZY, COMPACTING] {
        run_to::<L>(alloc, calls, Way { most, ..way }, &wanted)?;
    }
    let too_big = Answer::Refused(MakeFault::TooBig);
    let answers = wanted.answers.iter();
    Ok(answers.filter(|answer| **answer == too_big).count() as u64)
}

/// Returns true if these words of 4 bytes are in a file from a place on, and nothing follows them.
pub(super) fn words(file: &[u8], place: usize, wanted: &[u32]) -> bool {
    let stands = file.get(place..).unwrap_or(&[]);
    let pairs = stands.chunks_exact(4).zip(wanted.iter());
    let same = pairs.fold(true, |same, (bytes, word)| {
        same && bytes == word.to_le_bytes().as_slice()
    });
    same && stands.len() / 4 == wanted.len() && stands.len() % 4 == 0
}

/// A long value, in which no two neighbours are the same.
pub(super) fn long(alloc: Global, len: usize) -> Result<Vec<u8>, Fail> {
    let mut bytes = Vec::new(alloc);
    for n in 0..len {
        bytes.push((n % 251) as u8)?;
    }
    Ok(bytes)
}
