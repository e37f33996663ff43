// query_run and lookups_run, over worked, damaged and foreign files, and over stores and writers
// that fail.
use super::differing::made;
use super::fakes::{FakeWriter, NotingWriter, SlowWriter};
use super::worked::File;
use cdb_form::{Narrow, TextFault, Wide, Width};
use cdb_read::ReadFault;
use cdb_show::InputReader;
use cdb_store::{FuseStore, MemStore, Store};
use cdb_tool::{Fault, Inputs, Lines, LookupOptions, Style, lookups_run, query_run};
use std::alloc::{AllocError, Global};
use std::io::Write;
use std::prelude::*;
use std::test::Fail;

type Answer = Result<(), Fault>;

const fn damaged(fault: ReadFault) -> Answer {
    Err(Fault::Read(fault))
}

/// What is requested: all values of a key, or one by its number, in lines or not.
#[derive(Clone, Copy, Debug)]
enum Asked {
    All(&'static [u8]),
    Nth(&'static [u8], u64),
    Lines(&'static [u8]),
    NthLine(&'static [u8], u64),
}

fn ask<L: Width, S: Store, W: Write>(store: S, asked: Asked, w: &mut W) -> (S, Answer) {
    let (key, number, lines) = match asked {
        Asked::All(key) => (key, 0, false),
        Asked::Nth(key, number) => (key, number, false),
        Asked::Lines(key) => (key, 0, true),
        Asked::NthLine(key, number) => (key, number, true),
    };
    // Values are numbered from 1 on.
    let number = match number {
        0 => None,
        number => Some(number),
    };
    query_run::<L, S, W>(store, key, number, lines, w)
}

/// The answer of a query of a file.
fn answer<L: Width, W: Write>(file: Vec<u8>, asked: Asked, w: &mut W) -> Answer {
    ask::<L, MemStore, W>(MemStore::from_vec(file), asked, w).1
}

/// Returns true if a query of a file has this answer, and writes this.
fn answers<L: Width>(
    alloc: Global,
    file: Vec<u8>,
    asked: Asked,
    want: Answer,
    text: &[u8],
) -> bool {
    let mut out = Vec::new(alloc);
    answer::<L, Vec<u8>>(file, asked, &mut out) == want && out.as_slice() == text
}

/// A file, what is requested of it, and what comes.
type Row = (File, Asked, Answer, &'static [u8]);

const WORKED: [Row; 25] = [
    (File::Two, Asked::All(b"one"), Ok(()), b"Hello"),
    (File::Two, Asked::All(b"two"), Ok(()), b"Goodbye"),
    (File::Two, Asked::All(b"zzz"), Err(Fault::Missing), b""),
    (File::Two, Asked::Nth(b"one", 2), Err(Fault::Missing), b""),
    (File::FourValues, Asked::All(b"a"), Ok(()), b"1234"),
    (File::FourValues, Asked::Nth(b"a", 4), Ok(()), b"4"),
    (
        File::FourValues,
        Asked::Nth(b"a", 5),
        Err(Fault::Missing),
        b"",
    ),
    (
        File::FourValues,
        Asked::Nth(b"a", u64::MAX),
        Err(Fault::Missing),
        b"",
    ),
    (File::SameHash, Asked::All(b"cB"), Ok(()), b"x"),
    (File::SameHash, Asked::All(b"bc"), Ok(()), b"z"),
    (File::BothValues, Asked::All(b"a"), Ok(()), b"12"),
    (File::BothValues, Asked::Nth(b"a", 1), Ok(()), b"1"),
    (File::BothValues, Asked::Nth(b"a", 2), Ok(()), b"2"),
    (
        File::BothValues,
        Asked::Nth(b"a", 3),
        Err(Fault::Missing),
        b"",
    ),
    (File::BothValues, Asked::Lines(b"a"), Ok(()), b"1\n2\n"),
    (File::BothValues, Asked::NthLine(b"a", 2), Ok(()), b"2\n"),
    (
        File::BothValues,
        Asked::NthLine(b"a", 3),
        Err(Fault::Missing),
        b"",
    ),
    (File::EmptyRecord, Asked::All(b""), Ok(()), b""),
    (File::EmptyRecord, Asked::Lines(b""), Ok(()), b"\n"),
    (File::None, Asked::All(b""), Err(Fault::Missing), b""),
    (File::Zeros, Asked::All(b"one"), Err(Fault::Missing), b""),
    (File::Foreign, Asked::All(b"a"), Ok(()), b"1"),
    (File::Foreign, Asked::All(b"bc"), Err(Fault::Missing), b""),
    (File::FullTable, Asked::All(b"a"), Ok(()), b"12"),
    (File::FullTable, Asked::All(b"bc"), Err(Fault::Missing), b""),
];

#[test]
fn worked_and_foreign_files(rt: HostRuntime) -> Result<(), Fail> {
    for &(file, asked, want, text) in &WORKED {
        let is_so = answers::<Narrow>(rt.alloc(), file.bytes(rt.alloc())?, asked, want, text);
        assert!(rt; is_so, "{asked:?} of {file:?}");
    }
    Ok(())
}

/// A file with other bytes from a place on, what is requested of it, and what comes.
type Changed = (File, usize, &'static [u8], Asked, Answer, &'static [u8]);

/// Returns true if a query of a changed file has its answer, and writes its text.
fn changed_answers<L: Width>(alloc: Global, changed: &Changed) -> Result<bool, AllocError> {
    let (file, place, new, asked, want, text) = *changed;
    let file = file.changed(alloc, place, new)?;
    Ok(answers::<L>(alloc, file, asked, want, text))
}

const TABLES: [Changed; 8] = [
    // a table that passes the end, of another key, of this one, and within the head
    (
        File::Two,
        56,
        b"\x42\x08\0\0\x01\0\0\0",
        Asked::All(b"one"),
        Ok(()),
        b"Hello",
    ),
    (
        File::Two,
        56,
        b"\x42\x08\0\0\x01\0\0\0",
        Asked::All(b"\xa2"),
        Err(Fault::Read(ReadFault::Table(7))),
        b"",
    ),
    (
        File::Two,
        0,
        b"\x64\0\0\0\x01\0\0\0",
        Asked::All(b"one"),
        Ok(()),
        b"Hello",
    ),
    (
        File::Two,
        1032,
        b"\xff\xff\xff\xff\xff\xff\xff\xff",
        Asked::All(b"one"),
        Err(Fault::Read(ReadFault::Table(129))),
        b"",
    ),
    // an empty slot, one record in two slots, a record after an empty slot, slots exchanged
    (
        File::Two,
        2106,
        b"\0\0\0\0\0\0\0\0",
        Asked::All(b"one"),
        Err(Fault::Missing),
        b"",
    ),
    (
        File::FourValues,
        2092,
        b"\x14",
        Asked::All(b"a"),
        Ok(()),
        b"1233",
    ),
    (
        File::EmptyRecord,
        2056,
        b"\x05\x15\0\0\0\x08\0\0\0\0\0\0\0\0\0\0",
        Asked::All(b""),
        Err(Fault::Missing),
        b"",
    ),
    (
        File::FullTable,
        2068,
        b"\xc4\xb5\x02\0\0\x08\0\0\xc4\xb5\x02\0\x0a",
        Asked::All(b"a"),
        Ok(()),
        b"21",
    ),
];

#[test]
fn damaged_tables_and_slots(rt: HostRuntime) -> Result<(), Fail> {
    for row in &TABLES {
        let is_so = changed_answers::<Narrow>(rt.alloc(), row)?;
        assert!(rt; is_so, "{:?} of a file that is other at {}", row.3, row.1);
    }
    Ok(())
}

const RECORDS: [Changed; 9] = [
    (
        File::Two,
        2086,
        b"\x11",
        Asked::All(b"two"),
        Err(Fault::Read(ReadFault::Record(2065))),
        b"",
    ),
    // lengths that pass the record, and the file
    (
        File::Two,
        2068,
        b"\x08",
        Asked::All(b"two"),
        Ok(()),
        b"Goodbye)",
    ),
    (
        File::Two,
        2048,
        b"\xff\xff\xff\xff",
        Asked::All(b"one"),
        Err(Fault::Read(ReadFault::Record(2048))),
        b"",
    ),
    (
        File::Two,
        2048,
        b"\xff\xff\xff\xff",
        Asked::All(b"two"),
        Ok(()),
        b"Goodbye",
    ),
    // the third of four values is at no record's place
    (
        File::FourValues,
        2148,
        b"\x15",
        Asked::All(b"a"),
        Err(Fault::Read(ReadFault::Record(2069))),
        b"12",
    ),
    (
        File::FourValues,
        2148,
        b"\x15",
        Asked::Lines(b"a"),
        Err(Fault::Read(ReadFault::Record(2069))),
        b"1\n2\n",
    ),
    (
        File::FourValues,
        2148,
        b"\x15",
        Asked::Nth(b"a", 2),
        Ok(()),
        b"2",
    ),
    (
        File::FourValues,
        2148,
        b"\x15",
        Asked::Nth(b"a", 3),
        Err(Fault::Read(ReadFault::Record(2069))),
        b"",
    ),
    (
        File::FourValues,
        2148,
        b"\x15",
        Asked::Nth(b"a", 4),
        Err(Fault::Read(ReadFault::Record(2069))),
        b"",
    ),
];

#[test]
fn damaged_records(rt: HostRuntime) -> Result<(), Fail> {
    for row in &RECORDS {
        let is_so = changed_answers::<Narrow>(rt.alloc(), row)?;
        assert!(rt; is_so, "{:?} of a file that is other at {}", row.3, row.1);
    }
    Ok(())
}

const WIDE: [Changed; 4] = [
    (File::WideOne, 0, b"", Asked::All(b"one"), Ok(()), b"Hello"),
    (
        File::WideNone,
        0,
        b"",
        Asked::All(b"one"),
        Err(Fault::Missing),
        b"",
    ),
    // a hash above 32 bits, and a key of all bytes
    (
        File::WideOne,
        4140,
        b"\x01",
        Asked::All(b"one"),
        Err(Fault::Missing),
        b"",
    ),
    (
        File::WideOne,
        4096,
        b"\xff\xff\xff\xff\xff\xff\xff\xff",
        Asked::All(b"one"),
        Err(Fault::Read(ReadFault::Record(4096))),
        b"",
    ),
];

/// Returns true if a query of a wide file that is cut is reported so.
fn is_cut_short(alloc: Global, cut: usize) -> Result<bool, AllocError> {
    let mut file = File::WideNone.bytes(alloc)?;
    file.truncate(cut);
    Ok(answers::<Wide>(
        alloc,
        file,
        Asked::All(b"one"),
        damaged(ReadFault::Short),
        b"",
    ))
}

#[test]
fn wide_files(rt: HostRuntime) -> Result<(), Fail> {
    for row in &WIDE {
        let is_so = changed_answers::<Wide>(rt.alloc(), row)?;
        assert!(rt; is_so, "{:?} of a file that is other at {}", row.3, row.1);
    }
    assert!(rt; is_cut_short(rt.alloc(), 4095)?);
    Ok(())
}

/// What comes of a key of the two-record file cut to a length, if the key's table ends at a place.
fn cut_answer(cut: usize, n: u64, end: usize, value: &'static [u8]) -> (Answer, &'static [u8]) {
    if cut < 2048 {
        (damaged(ReadFault::Short), b"")
    } else if cut < end {
        (damaged(ReadFault::Table(n)), b"")
    } else {
        (Ok(()), value)
    }
}

/// Returns true if both keys of the two-record file have that answer if it is cut to a length.
fn cut_answers(alloc: Global, file: &Vec<u8>, cut: usize) -> Result<bool, AllocError> {
    let mut file = file.clone()?;
    file.truncate(cut);
    let (want, text) = cut_answer(cut, 129, 2114, b"Hello");
    let one = answers::<Narrow>(alloc, file.clone()?, Asked::All(b"one"), want, text);
    let (want, text) = cut_answer(cut, 41, 2098, b"Goodbye");
    Ok(one && answers::<Narrow>(alloc, file, Asked::All(b"two"), want, text))
}

#[test]
fn cut_files(rt: HostRuntime) -> Result<(), Fail> {
    let whole = File::Two.bytes(rt.alloc())?;
    for cut in 0..whole.len() + 1 {
        let is_so = cut_answers(rt.alloc(), &whole, cut)?;
        assert!(rt; is_so, "cut at {cut}");
    }
    Ok(())
}

/// A query whose store fails the call after so many: the answer, what was written, and the store.
fn fused(
    alloc: Global,
    file: Vec<u8>,
    calls: u64,
    asked: Asked,
) -> (Answer, Vec<u8>, FuseStore<MemStore>) {
    let mut out = Vec::new(alloc);
    let store = FuseStore::new(MemStore::from_vec(file), calls, 0);
    let (store, answer) = ask::<Narrow, FuseStore<MemStore>, Vec<u8>>(store, asked, &mut out);
    (answer, out, store)
}

/// Returns the number of calls of its store that a query makes.
fn calls_of(alloc: Global, file: Vec<u8>, asked: Asked) -> u64 {
    fused(alloc, file, u64::MAX, asked).2.calls()
}

/// The number of calls that a query makes for the head, of which no more is read than is needed.
const HEAD: u64 = 1;

/// Returns true if the fault of the store is reported, with a prefix of the text written, and the
/// same query of what it holds writes all. After the head a query may also write all at once: if
/// bytes that were only read ahead failed, what is needed is read again.
fn fails_and_goes_again(
    alloc: Global,
    file: Vec<u8>,
    calls: u64,
    asked: Asked,
    text: &[u8],
) -> bool {
    let (answer, out, store) = fused(alloc, file, calls, asked);
    let is_told = answer == damaged(ReadFault::Device) && text.starts_with(&out);
    let is_mended = calls >= HEAD && answer == Ok(()) && out.as_slice() == text;
    let file = store.into_inner().into_vec();
    (is_told || is_mended) && answers::<Narrow>(alloc, file, asked, Ok(()), text)
}

/// The first call whose failure is not reported so, or the number of calls if there are too few.
fn first_untold(
    alloc: Global,
    file: &Vec<u8>,
    asked: Asked,
    text: &[u8],
) -> Result<Option<u64>, AllocError> {
    let calls = calls_of(alloc, file.clone()?, asked);
    for fails in 0..calls {
        if !fails_and_goes_again(alloc, file.clone()?, fails, asked, text) {
            return Ok(Some(fails));
        }
    }
    // The head, a slot and a value are read at least.
    Ok(if calls > 2 { None } else { Some(calls) })
}

const FUSED: [(File, Asked, &[u8]); 5] = [
    (File::Two, Asked::All(b"one"), b"Hello"),
    (File::Two, Asked::Lines(b"two"), b"Goodbye\n"),
    (File::FourValues, Asked::All(b"a"), b"1234"),
    (File::FourValues, Asked::Lines(b"a"), b"1\n2\n3\n4\n"),
    (File::FourValues, Asked::Nth(b"a", 3), b"3"),
];

#[test]
fn each_call_of_the_store_fails(rt: HostRuntime) -> Result<(), Fail> {
    for &(file, asked, text) in &FUSED {
        let untold = first_untold(rt.alloc(), &file.bytes(rt.alloc())?, asked, text)?;
        assert!(rt; untold.is_none(), "{asked:?}, call {untold:?}");
    }
    Ok(())
}

#[test]
fn nothing_is_read_behind_a_number(rt: HostRuntime) -> Result<(), Fail> {
    // No value is read with the record before it.
    let mut text = Vec::new(rt.alloc());
    let value = vec![in rt.alloc(); b'v'; 5000]?;
    for _ in 0..3 {
        text.extend_from_slice(b"+1,5000:a->")?;
        text.extend_from_slice(&value)?;
        text.push(b'\n')?;
    }
    text.push(b'\n')?;
    let file = match made::<Narrow>(rt.alloc(), &text) {
        Ok(store) => store.into_vec(),
        Err(_) => Vec::new(rt.alloc()),
    };
    let first = calls_of(rt.alloc(), file.clone()?, Asked::Nth(b"a", 1));
    let last = calls_of(rt.alloc(), file.clone()?, Asked::Nth(b"a", 3));
    let every = calls_of(rt.alloc(), file, Asked::All(b"a"));
    assert!(rt; first < last && last < every);
    Ok(())
}

const WRITTEN: [(Asked, &[u8]); 2] = [
    (Asked::All(b"two"), b"Goodbye"),
    (Asked::Lines(b"two"), b"Goodbye\n"),
];

/// Returns true if a writer with room for so many bytes holds as many of a text.
fn leaves_prefix(alloc: Global, file: Vec<u8>, asked: Asked, text: &[u8], room: usize) -> bool {
    let mut w = FakeWriter::new(alloc, room);
    let answer = answer::<Narrow, _>(file, asked, &mut w);
    w.holds_prefix(answer, text, room)
}

#[test]
fn a_writer_that_fails_holds_a_prefix(rt: HostRuntime) -> Result<(), Fail> {
    let file = File::Two.bytes(rt.alloc())?;
    for &(asked, text) in &WRITTEN {
        for room in 0..text.len() + 1 {
            let is_so = leaves_prefix(rt.alloc(), file.clone()?, asked, text, room);
            assert!(rt; is_so, "room for {room}");
        }
    }
    Ok(())
}

#[test]
fn interrupts_of_a_writer_are_counted_in_a_row(rt: HostRuntime) -> Result<(), Fail> {
    let file = File::Two.bytes(rt.alloc())?;
    for (interrupts, want) in [(1000, Ok(())), (1001, Err(Fault::Output))] {
        let mut w = SlowWriter::new(rt.alloc(), interrupts);
        let answer = answer::<Narrow, _>(file.clone()?, Asked::Lines(b"two"), &mut w);
        assert!(rt; answer == want, "{interrupts} interruptions");
    }
    Ok(())
}

#[test]
fn the_flush_comes_last(rt: HostRuntime) -> Result<(), Fail> {
    let file = File::Two.bytes(rt.alloc())?;
    for key in [b"one", b"zzz"] {
        for fails in [false, true] {
            let mut w = NotingWriter {
                calls: Vec::new(rt.alloc()),
                fails,
            };
            let _ = answer::<Narrow, _>(file.clone()?, Asked::All(key), &mut w);
            assert!(rt; w.was_flushed_last(), "{key:?}");
        }
    }
    Ok(())
}

/// What a query of the keys of a list text answers, of a writer whose flush fails.
fn looked_up(alloc: Global, file: Vec<u8>, keys: &[u8]) -> Result<Answer, AllocError> {
    let mut w = FakeWriter::new(alloc, 4096);
    w.flush_fails = true;
    let inputs = Inputs {
        readers: vec![in alloc; InputReader::<&[u8]>::Shared]?,
        shared: keys,
    };
    let store = MemStore::from_vec(file);
    let options = LookupOptions {
        number: None,
        style: Style::Native,
    };
    Ok(
        lookups_run::<Narrow, MemStore, &[u8], &[u8], FakeWriter>(
            alloc,
            store,
            inputs,
            options,
            &Lines::new(false),
            &mut w,
        ).2,
    )
}

#[test]
fn a_failing_flush_is_output_where_a_key_has_no_value(rt: HostRuntime) -> Result<(), Fail> {
    let file = File::Two.bytes(rt.alloc())?;
    for (keys, fault) in [
        (&b"+3:two\n+1:a\n\n"[..], Fault::Output),
        (&b"+3:two\n\n"[..], Fault::Output),
        (&b"+3:two\n"[..], Fault::Text(1, TextFault::Ended(7))),
    ] {
        let answer = looked_up(rt.alloc(), file.clone()?, keys)?;
        assert!(rt; answer == Err(fault), "{answer:?}");
    }
    Ok(())
}

#[test]
fn a_failing_flush_is_output_where_no_other_fault_came(rt: HostRuntime) -> Result<(), Fail> {
    let file = File::Two.bytes(rt.alloc())?;
    for (asked, fault) in [
        (Asked::All(b"one"), Fault::Output),
        (Asked::All(b"zzz"), Fault::Missing),
    ] {
        let mut w = FakeWriter::new(rt.alloc(), 4096);
        w.flush_fails = true;
        let answer = answer::<Narrow, _>(file.clone()?, asked, &mut w);
        assert!(rt; answer == Err(fault) && w.flushes == 1, "{asked:?}");
    }
    Ok(())
}
