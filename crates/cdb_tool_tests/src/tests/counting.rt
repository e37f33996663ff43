// stats_run, over worked and damaged files, and over stores and writers that fail.
use super::fakes::{FakeWriter, NotingWriter};
use super::worked::{File, with_bytes};
use cdb_form::{Narrow, Wide, Width};
use cdb_read::ReadFault;
use cdb_store::{FuseStore, MemStore};
use cdb_tool::{Fault, stats_run};
use std::alloc::{AllocError, Global};
use std::io::Write;
use std::prelude::*;
use std::test::Fail;

/// The statistics of the file of two records, in words of either width.
const OF_TWO: &[u8] = b"records: 2
key lengths least/average/greatest: 3/3/3
value lengths least/average/greatest: 5/6/7
tables/entries/collisions: 2/2/0
table sizes least/average/greatest: 2/2/2
distance 0: 2
distance 1: 0
distance 2: 0
distance 3: 0
distance 4: 0
distance 5: 0
distance 6: 0
distance 7: 0
distance 8: 0
distance 9: 0
distance 10 or more: 0
";

/// Those of the file of four values of one key.
const OF_FOUR: &[u8] = b"records: 4
key lengths least/average/greatest: 1/1/1
value lengths least/average/greatest: 1/1/1
tables/entries/collisions: 1/4/3
table sizes least/average/greatest: 8/8/8
distance 0: 1
distance 1: 1
distance 2: 1
distance 3: 1
distance 4: 0
distance 5: 0
distance 6: 0
distance 7: 0
distance 8: 0
distance 9: 0
distance 10 or more: 0
";

/// Those of a file with no record.
const OF_NONE: &[u8] = b"records: 0
key lengths least/average/greatest: 0/0/0
value lengths least/average/greatest: 0/0/0
tables/entries/collisions: 0/0/0
table sizes least/average/greatest: 0/0/0
distance 0: 0
distance 1: 0
distance 2: 0
distance 3: 0
distance 4: 0
distance 5: 0
distance 6: 0
distance 7: 0
distance 8: 0
distance 9: 0
distance 10 or more: 0
";

/// Those of the file whose slots are far from where searches begin.
const OF_FAR: &[u8] = b"records: 1
key lengths least/average/greatest: 1/1/1
value lengths least/average/greatest: 1/1/1
tables/entries/collisions: 1/2/2
table sizes least/average/greatest: 16/16/16
distance 0: 0
distance 1: 0
distance 2: 0
distance 3: 0
distance 4: 0
distance 5: 0
distance 6: 0
distance 7: 0
distance 8: 0
distance 9: 1
distance 10 or more: 1
";

type Answer = Result<(), Fault>;

/// The answer of a run over a file.
fn answer<L: Width, W: Write>(file: Vec<u8>, w: &mut W) -> Answer {
    stats_run::<L, MemStore, W>(MemStore::from_vec(file), w).1
}

/// Returns true if a run over a file has this answer, and writes this.
fn tells<L: Width>(alloc: Global, file: Vec<u8>, want: Answer, text: &[u8]) -> bool {
    let mut out = Vec::new(alloc);
    answer::<L, Vec<u8>>(file, &mut out) == want && out.as_slice() == text
}

const WORKED: [(File, &[u8]); 5] = [
    (File::Two, OF_TWO),
    (File::FourValues, OF_FOUR),
    (File::None, OF_NONE),
    (File::Zeros, OF_NONE),
    (File::Far, OF_FAR),
];

#[test]
fn worked_files(rt: HostRuntime) -> Result<(), Fail> {
    for &(file, text) in &WORKED {
        let is_so = tells::<Narrow>(rt.alloc(), file.bytes(rt.alloc())?, Ok(()), text);
        assert!(rt; is_so, "{file:?}");
    }
    let wide = tells::<Wide>(rt.alloc(), File::WideTwo.bytes(rt.alloc())?, Ok(()), OF_TWO);
    assert!(rt; wide, "in words of 8 bytes");
    Ok(())
}

const fn damaged(fault: ReadFault) -> Answer {
    Err(Fault::Read(fault))
}

/// The file of two records with other bytes from a place on, the answer, and what is written.
type Changed = (usize, &'static [u8], Answer, &'static [u8]);

const CHANGED: [Changed; 4] = [
    // a table at the end, and one in the head
    (
        56,
        b"\x42\x08\0\0\x01\0\0\0",
        Err(Fault::Read(ReadFault::Table(7))),
        b"",
    ),
    (
        0,
        b"\x64\0\0\0\x01\0\0\0",
        Err(Fault::Read(ReadFault::Table(0))),
        b"",
    ),
    // a value that is too long, and a slot with a wrong place
    (
        2068,
        b"\x08",
        Err(Fault::Read(ReadFault::Record(2064))),
        b"",
    ),
    (2086, b"\x11", Ok(()), OF_TWO),
];

/// Returns true if a run over a changed file has its answer, and writes its text.
fn changed_tells(alloc: Global, changed: &Changed) -> Result<bool, AllocError> {
    let (place, new, want, text) = *changed;
    Ok(tells::<Narrow>(alloc, File::Two.changed(alloc, place, new)?, want, text))
}

/// Returns true if a file that is cut in its head is reported so.
fn is_cut_short(alloc: Global) -> Result<bool, AllocError> {
    let mut file = File::Two.bytes(alloc)?;
    file.truncate(2047);
    Ok(tells::<Narrow>(alloc, file, damaged(ReadFault::Short), b""))
}

#[test]
fn damaged_files(rt: HostRuntime) -> Result<(), Fail> {
    for changed in &CHANGED {
        let is_so = changed_tells(rt.alloc(), changed)?;
        assert!(rt; is_so, "a file that is other at {}", changed.0);
    }
    assert!(rt; is_cut_short(rt.alloc())?);
    Ok(())
}

/// A run whose store fails the call after so many: the answer, what was written, and the store.
fn fused(alloc: Global, file: Vec<u8>, calls: u64) -> (Answer, Vec<u8>, FuseStore<MemStore>) {
    let mut out = Vec::new(alloc);
    let store = FuseStore::new(MemStore::from_vec(file), calls, 0);
    let (store, answer) = stats_run::<Narrow, FuseStore<MemStore>, Vec<u8>>(store, &mut out);
    (answer, out, store)
}

/// Returns true if the fault of the store is reported, with nothing written, and the same run over
/// what it holds writes all.
fn fails_and_goes_again(alloc: Global, file: Vec<u8>, calls: u64) -> bool {
    let (answer, out, store) = fused(alloc, file, calls);
    let is_told = answer == damaged(ReadFault::Device) && out.is_empty();
    is_told && tells::<Narrow>(alloc, store.into_inner().into_vec(), Ok(()), OF_TWO)
}

/// The first call whose failure is not reported so, or the number of calls if there are too few.
fn first_untold(alloc: Global, file: &Vec<u8>) -> Result<Option<u64>, AllocError> {
    let calls = fused(alloc, file.clone()?, u64::MAX).2.calls();
    for fails in 0..calls {
        if !fails_and_goes_again(alloc, file.clone()?, fails) {
            return Ok(Some(fails));
        }
    }
    // The head is read, and what follows it.
    Ok(if calls > 1 { None } else { Some(calls) })
}

#[test]
fn each_call_of_the_store_fails(rt: HostRuntime) -> Result<(), Fail> {
    let untold = first_untold(rt.alloc(), &File::Two.bytes(rt.alloc())?)?;
    assert!(rt; untold.is_none(), "call {untold:?}");
    Ok(())
}

#[test]
fn a_writer_that_fails_holds_a_prefix(rt: HostRuntime) -> Result<(), Fail> {
    let file = File::Two.bytes(rt.alloc())?;
    for room in 0..OF_TWO.len() + 1 {
        let mut w = FakeWriter::new(rt.alloc(), room);
        let answer = answer::<Narrow, _>(file.clone()?, &mut w);
        assert!(rt; w.holds_prefix(answer, OF_TWO, room), "room for {room}");
    }
    Ok(())
}

#[test]
fn the_flush_comes_last(rt: HostRuntime) -> Result<(), Fail> {
    let file = File::Two.bytes(rt.alloc())?;
    for fails in [false, true] {
        let mut w = NotingWriter {
            calls: Vec::new(rt.alloc()),
            fails,
        };
        let _ = answer::<Narrow, _>(file.clone()?, &mut w);
        assert!(rt; w.was_flushed_last());
    }
    Ok(())
}

#[test]
fn a_failing_flush_is_output_where_no_other_fault_came(rt: HostRuntime) -> Result<(), Fail> {
    let whole = File::Two.bytes(rt.alloc())?;
    let damage = with_bytes(whole.clone()?, 2068, b"\x08");
    let record = Fault::Read(ReadFault::Record(2064));
    for (file, fault) in [(whole, Fault::Output), (damage, record)] {
        let mut w = FakeWriter::new(rt.alloc(), 4096);
        w.flush_fails = true;
        let answer = answer::<Narrow, _>(file, &mut w);
        assert!(rt; answer == Err(fault) && w.flushes == 1, "{fault:?}");
    }
    Ok(())
}
