// In how many runs a reader answers `Device`, if one call of the store fails in each run. A walk
// and a value report each such failure. A look-up reads ahead, and if that fails it reads again
// what it wants: of its calls it reports only the one that opens the file, if no other fails.
use super::counting::four_file;
use super::files::{Fused, fused, two_file, wide_file};
use super::reading::lies_inside;
use cdb_form::{Narrow, Wide, Width};
use cdb_read::{ReadFault, Reader, Span, walk};
use std::alloc::{AllocError, Global};
use std::prelude::*;
use std::test::Fail;

/// What a reader is to do.
#[derive(Clone, Copy, Debug)]
enum Job {
    /// The values of a key, of which so many answers are taken.
    Find(&'static [u8], u8),
    /// The records, of which so many answers are taken.
    Walk(u8),
    /// The value at a span, in memory.
    Value(Span),
    /// The value at a span, to a writer.
    Copy(Span),
}

/// Returns true if a look-up answers `Device`.
fn finding_tells<L: Width>(reader: &mut Reader<Fused, L>, key: &[u8], answers: u8) -> bool {
    let mut finder = reader.find(key);
    for _ in 0..answers {
        if finder.next() == Err(ReadFault::Device) {
            return true;
        }
    }
    false
}

/// Returns true if a walk does.
fn walking_tells<L: Width>(reader: &mut Reader<Fused, L>, answers: u8) -> bool {
    let mut records = walk(reader);
    for _ in 0..answers {
        if records.next() == Err(ReadFault::Device) {
            return true;
        }
    }
    false
}

/// Returns true if a job does.
fn job_tells<L: Width>(alloc: Global, reader: &mut Reader<Fused, L>, job: Job) -> bool {
    match job {
        Job::Find(key, answers) => finding_tells(reader, key, answers),
        Job::Walk(answers) => walking_tells(reader, answers),
        Job::Value(span) => {
            lies_inside(reader, span) && reader.value(alloc, span).err() == Some(ReadFault::Device)
        }
        Job::Copy(span) => {
            let mut out = Vec::new(alloc);
            lies_inside(reader, span)
                && reader.copy(span, &mut out).err() == Some(ReadFault::Device)
        }
    }
}

/// Whether `Device` is answered of a file whose store fails its call of a number, and how many
/// calls the store then counted.
fn told<L: Width>(alloc: Global, file: Vec<u8>, fails: u64, job: Job) -> (bool, u64) {
    let mut reader = match Reader::<Fused, L>::open(fused(file, fails)) {
        Ok(reader) => reader,
        Err(unread) => return (unread.fault == ReadFault::Device, unread.store.calls()),
    };
    let tells = job_tells(alloc, &mut reader, job);
    (tells, reader.into_store().calls())
}

/// Of the calls that a job makes, with the one that opens the file, how many are reported if they
/// fail, and how many calls there are.
fn counted<L: Width>(alloc: Global, file: &Vec<u8>, job: Job) -> Result<(u64, u64), AllocError> {
    let (_, calls) = told::<L>(alloc, file.clone()?, u64::MAX, job);
    let mut tell = 0u64;
    for fails in 0..calls.min(20) {
        let (tells, _) = told::<L>(alloc, file.clone()?, fails, job);
        tell = tell.saturating_add(u64::from(tells));
    }
    Ok((tell, calls))
}

/// The value of `one`, in words of 4 bytes and of 8.
const HELLO: Span = Span {
    place: 2059,
    len: 5,
};

const WIDE_HELLO: Span = Span {
    place: 4115,
    len: 5,
};

/// Jobs on the file of two records, the calls that are reported, and all calls.
const OF_TWO: [(Job, u64, u64); 7] = [
    (Job::Find(b"one", 1), 1, 3),
    (Job::Find(b"one", 2), 1, 4),
    (Job::Find(b"two", 2), 1, 3),
    (Job::Find(b"zzz", 1), 1, 1),
    (Job::Walk(3), 2, 2),
    (Job::Value(HELLO), 2, 2),
    (Job::Copy(HELLO), 2, 2),
];

#[test]
fn failed_calls_on_a_file_of_two_are_told(rt: HostRuntime) -> Result<(), Fail> {
    let file = two_file(rt.alloc())?;
    for (job, tell, calls) in OF_TWO {
        let came = counted::<Narrow>(rt.alloc(), &file, job)?;
        assert!(rt; came == (tell, calls), "{job:?}: {came:?}");
    }
    Ok(())
}

#[test]
fn failed_calls_on_a_file_of_four_values_are_told(rt: HostRuntime) -> Result<(), Fail> {
    let file = four_file(rt.alloc())?;
    let found = counted::<Narrow>(rt.alloc(), &file, Job::Find(b"a", 5))?;
    assert!(rt; found == (1, 4), "found: {found:?}");
    let walked = counted::<Narrow>(rt.alloc(), &file, Job::Walk(5))?;
    assert!(rt; walked == (2, 2), "walked: {walked:?}");
    Ok(())
}

#[test]
fn failed_calls_on_a_wide_file_are_told(rt: HostRuntime) -> Result<(), Fail> {
    let file = wide_file(rt.alloc())?;
    let found = counted::<Wide>(rt.alloc(), &file, Job::Find(b"one", 2))?;
    assert!(rt; found == (1, 4), "found: {found:?}");
    let walked = counted::<Wide>(rt.alloc(), &file, Job::Walk(2))?;
    assert!(rt; walked == (2, 2), "walked: {walked:?}");
    let given = counted::<Wide>(rt.alloc(), &file, Job::Value(WIDE_HELLO))?;
    assert!(rt; given == (2, 2), "given: {given:?}");
    Ok(())
}
