// check_run, over worked, damaged and foreign files, and over a store that fails.
use super::worked::{File, with_bytes};
use cdb_form::{Narrow, Wide, Width, flush_whole};
use cdb_read::ReadFault;
use cdb_store::{FuseStore, MemStore};
use cdb_tool::{Fault, Output, check_run, write_fault};
use std::alloc::{AllocError, Global};
use std::prelude::*;
use std::test::Fail;

type Answer = Result<(), Fault>;

const SOUND: Answer = Ok(());

const fn damaged(fault: ReadFault) -> Answer {
    Err(Fault::Read(fault))
}

/// The answer of a check of a file.
fn answer<L: Width>(alloc: Global, file: Vec<u8>) -> Answer {
    check_run::<L, MemStore>(alloc, MemStore::from_vec(file)).1
}

/// Returns true if a file, with other bytes from a place on, has this answer.
fn answers<L: Width>(
    alloc: Global,
    file: File,
    place: usize,
    new: &[u8],
    want: Answer,
) -> Result<bool, AllocError> {
    Ok(answer::<L>(alloc, file.changed(alloc, place, new)?) == want)
}

/// No damage: one of them is a head of zeros, and one a table without an empty slot.
const SOUND_FILES: [File; 7] = [
    File::Two,
    File::FourValues,
    File::BothValues,
    File::EmptyRecord,
    File::None,
    File::Zeros,
    File::Foreign,
];

#[test]
fn sound_files(rt: HostRuntime) -> Result<(), Fail> {
    for &file in &SOUND_FILES {
        let is_sound = answers::<Narrow>(rt.alloc(), file, 0, b"", SOUND)?;
        assert!(rt; is_sound, "{file:?}");
    }
    let wide = answers::<Wide>(rt.alloc(), File::WideTwo, 0, b"", SOUND)?;
    assert!(rt; wide, "in words of 8 bytes");
    Ok(())
}

/// A file with other bytes from a place on, and its first fault.
type Faulty = (File, usize, &'static [u8], ReadFault);

/// Damages, each of which is reported.
const FAULTY: [Faulty; 10] = [
    // a table at the end, one in the head, and a value that is too long
    (
        File::Two,
        56,
        b"\x42\x08\0\0\x01\0\0\0",
        ReadFault::Table(7),
    ),
    (File::Two, 0, b"\x64\0\0\0\x01\0\0\0", ReadFault::Table(0)),
    (File::Two, 2068, b"\x08", ReadFault::Record(2064)),
    // a slot with another place, with another hash, and in the table of another
    (File::Two, 2086, b"\x11", ReadFault::Slot(41, 0)),
    (File::Two, 2083, b"\x61", ReadFault::Slot(41, 0)),
    (
        File::Two,
        2090,
        b"\x81\x5b\x87\x0b\0\x08\0\0",
        ReadFault::Slot(41, 1),
    ),
    (
        File::Two,
        2098,
        b"\x29\x60\x87\x0b\x10\x08\0\0",
        ReadFault::Slot(129, 0),
    ),
    // a slot after an empty one
    (
        File::EmptyRecord,
        2056,
        b"\x05\x15\0\0\0\x08\0\0\0\0\0\0\0\0\0\0",
        ReadFault::Slot(5, 0),
    ),
    // one record in two slots, and one in none
    (File::FourValues, 2092, b"\x14", ReadFault::Twice(2068)),
    (
        File::Two,
        2106,
        b"\0\0\0\0\0\0\0\0",
        ReadFault::Unindexed(2048),
    ),
];

/// Returns true if a file that is cut in its head is reported so.
fn is_cut_short(alloc: Global) -> Result<bool, AllocError> {
    let mut file = File::Two.bytes(alloc)?;
    file.truncate(2047);
    Ok(answer::<Narrow>(alloc, file) == damaged(ReadFault::Short))
}

#[test]
fn the_first_fault_is_told(rt: HostRuntime) -> Result<(), Fail> {
    for &(file, place, new, fault) in &FAULTY {
        let is_told = answers::<Narrow>(rt.alloc(), file, place, new, damaged(fault))?;
        assert!(rt; is_told, "{fault:?}");
    }
    let lost = damaged(ReadFault::Unindexed(4096));
    let wide = answers::<Wide>(rt.alloc(), File::WideOne, 4136, &[0; 16], lost)?;
    assert!(rt; wide && is_cut_short(rt.alloc())?);
    Ok(())
}

/// A file with other bytes from a place on, and the line of its fault.
type Said = (File, usize, &'static [u8], &'static [u8]);

const SAID: [Said; 3] = [
    (File::Two, 2086, b"\x11", b"cdb: table 41: slot 0: wrong\n"),
    (
        File::FourValues,
        2092,
        b"\x14",
        b"cdb: record at 2068: in two slots\n",
    ),
    (
        File::Two,
        2106,
        b"\0\0\0\0\0\0\0\0",
        b"cdb: record at 2048: in no slot\n",
    ),
];

/// Returns true if the fault of such a file has its line.
fn says(alloc: Global, said: &Said) -> Result<bool, Fault> {
    let (file, place, new, line) = *said;
    let mut written = Vec::new(alloc);
    if let Err(fault) = answer::<Narrow>(alloc, file.changed(alloc, place, new)?) {
        let mut output = Output::new(alloc, &mut written, 64)?;
        write_fault(&fault, &mut output)?;
        flush_whole(&mut output)?;
    }
    Ok(written.as_slice() == line)
}

#[test]
fn faults_of_slots_have_lines(rt: HostRuntime) {
    for said in &SAID {
        let is_said = says(rt.alloc(), said) == Ok(true);
        assert!(rt; is_said, "a file that is other at {}", said.1);
    }
}

/// A check whose store fails the call after so many: the answer, and the store.
fn fused(alloc: Global, file: Vec<u8>, calls: u64) -> (Answer, FuseStore<MemStore>) {
    let store = FuseStore::new(MemStore::from_vec(file), calls, 0);
    let (store, answer) = check_run::<Narrow, FuseStore<MemStore>>(alloc, store);
    (answer, store)
}

/// Returns true if the fault of the store is reported, and a check of what it holds answers so.
fn fails_and_goes_again(alloc: Global, file: Vec<u8>, calls: u64, want: Answer) -> bool {
    let (first, store) = fused(alloc, file, calls);
    let again = answer::<Narrow>(alloc, store.into_inner().into_vec());
    first == damaged(ReadFault::Device) && again == want
}

/// The first call whose failure is not reported so, or the number of calls if there are too few.
fn first_untold(alloc: Global, file: &Vec<u8>, want: Answer) -> Result<Option<u64>, AllocError> {
    let calls = fused(alloc, file.clone()?, u64::MAX).1.calls();
    for fails in 0..calls {
        if !fails_and_goes_again(alloc, file.clone()?, fails, want) {
            return Ok(Some(fails));
        }
    }
    // The head is read, and what follows it.
    Ok(if calls > 1 { None } else { Some(calls) })
}

#[test]
fn each_call_of_the_store_fails(rt: HostRuntime) -> Result<(), Fail> {
    let sound = File::FourValues.bytes(rt.alloc())?;
    let untold = first_untold(rt.alloc(), &sound, SOUND)?;
    assert!(rt; untold.is_none(), "call {untold:?} of a sound file");
    let doubled = with_bytes(sound, 2092, b"\x14");
    let untold = first_untold(rt.alloc(), &doubled, damaged(ReadFault::Twice(2068)))?;
    assert!(rt; untold.is_none(), "call {untold:?} of a damaged file");
    Ok(())
}
