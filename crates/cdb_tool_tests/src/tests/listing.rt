// Lists of keys, and both texts in the style of maps, over whole and damaged files and over readers
// and writers that fail.
use super::fakes::{FakeReader, FakeWriter};
use super::worked::File;
use cdb_form::{Narrow, WalkFault};
use cdb_tool::{Fault, Style, dump_run, list_run};
use std::alloc::{AllocError, Global};
use std::io::{Read, Write};
use std::prelude::*;
use std::test::Fail;

/// A text of some files, and of the first record alone.
#[derive(Clone, Copy)]
struct Text {
    list: bool,
    style: Style,
    two: &'static [u8],
    first: &'static [u8],
    none: &'static [u8],
    four: &'static [u8],
}

const TEXTS: [Text; 3] = [
    Text {
        list: true,
        style: Style::Native,
        two: b"+3:one\n+3:two\n\n",
        first: b"+3:one\n",
        none: b"\n",
        four: b"+1:a\n+1:a\n+1:a\n+1:a\n\n",
    },
    Text {
        list: true,
        style: Style::Map,
        two: b"one\ntwo\n",
        first: b"one\n",
        none: b"",
        four: b"a\na\na\na\n",
    },
    Text {
        list: false,
        style: Style::Map,
        two: b"one Hello\ntwo Goodbye\n",
        first: b"one Hello\n",
        none: b"",
        four: b"a 1\na 2\na 3\na 4\n",
    },
];

fn write_text<R: Read + Drop, W: Write>(
    alloc: Global,
    file: R,
    text: Text,
    w: &mut W,
) -> Result<(), Fault> {
    if text.list {
        list_run::<Narrow, R, W>(alloc, file, text.style, w)
    } else {
        dump_run::<Narrow, R, W>(alloc, file, text.style, w)
    }
}

/// Returns true if the answer for a file is this one, and this text was written.
fn writes<R: Read + Drop>(
    alloc: Global,
    file: R,
    text: Text,
    want: Result<(), Fault>,
    written: &[u8],
) -> bool {
    let mut out = Vec::new(alloc);
    let answer = write_text::<R, Vec<u8>>(alloc, file, text, &mut out);
    answer == want && out.as_slice() == written
}

/// Returns true if the text of a file is written whole.
fn is_written(alloc: Global, file: File, text: Text, want: &[u8]) -> Result<bool, AllocError> {
    let file = file.bytes(alloc)?;
    Ok(writes::<&[u8]>(alloc, &file, text, Ok(()), want))
}

#[test]
fn whole_files(rt: HostRuntime) -> Result<(), Fail> {
    for &text in &TEXTS {
        let two = is_written(rt.alloc(), File::Two, text, text.two)?;
        let none = is_written(rt.alloc(), File::None, text, text.none)?;
        let four = is_written(rt.alloc(), File::FourValues, text, text.four)?;
        assert!(rt; two && none && four, "{:?}", text.two);
    }
    Ok(())
}

/// What is written of the two-record file cut to a length, and its damage.
fn cut_answer(text: Text, cut: usize) -> (&'static [u8], Option<WalkFault>) {
    match cut {
        0..=2047 => (b"", Some(WalkFault::Short)),
        2048..=2063 => (b"", Some(WalkFault::Record(2048))),
        2064..=2081 => (text.first, Some(WalkFault::Record(2064))),
        _ => (text.two, None),
    }
}

/// Returns true if a file that is cut has that answer, of a reader that then ends or fails.
fn cut_writes(alloc: Global, piece: &[u8], text: Text, fails: bool) -> bool {
    let (written, damage) = cut_answer(text, piece.len());
    let reader = FakeReader {
        interrupts: 0,
        text: piece,
        fails,
    };
    let want = match damage {
        None => Ok(()),
        Some(_) if fails => Err(Fault::Walk(WalkFault::Input)),
        Some(damage) => Err(Fault::Walk(damage)),
    };
    writes(alloc, reader, text, want, written)
}

#[test]
fn cut_files_and_failing_readers(rt: HostRuntime) -> Result<(), Fail> {
    let file = File::Two.bytes(rt.alloc())?;
    for &text in &TEXTS {
        for cut in 0..file.len() + 1 {
            let piece = &file[..cut];
            let ends = cut_writes(rt.alloc(), piece, text, false);
            assert!(rt;
                ends && cut_writes(rt.alloc(), piece, text, true),
                "cut at {cut}"
            );
        }
    }
    Ok(())
}

/// What comes of a text whose reader is interrupted so often.
fn interrupted(alloc: Global, file: &[u8], text: Text, interrupts: u64) -> Result<(), Fault> {
    let reader = FakeReader {
        interrupts,
        text: file,
        fails: false,
    };
    let mut out = Vec::new(alloc);
    write_text::<FakeReader<'_>, _>(alloc, reader, text, &mut out)
}

#[test]
fn interrupted_reads_are_asked_again(rt: HostRuntime) -> Result<(), Fail> {
    let file = File::Two.bytes(rt.alloc())?;
    let failed = Err(Fault::Walk(WalkFault::Input));
    for &text in &TEXTS {
        let is_asked = interrupted(rt.alloc(), &file, text, 1000) == Ok(());
        let gives_up = interrupted(rt.alloc(), &file, text, 1001) == failed;
        assert!(rt; is_asked && gives_up, "{:?}", text.two);
    }
    Ok(())
}

/// Returns true if a writer with room for so many bytes holds as many of the text.
fn leaves_prefix(alloc: Global, file: &[u8], text: Text, room: usize) -> bool {
    let mut w = FakeWriter::new(alloc, room);
    let answer = write_text::<&[u8], _>(alloc, file, text, &mut w);
    w.holds_prefix(answer, text.two, room)
}

#[test]
fn a_writer_that_fails_holds_a_prefix(rt: HostRuntime) -> Result<(), Fail> {
    let file = File::Two.bytes(rt.alloc())?;
    for &text in &TEXTS {
        for room in 0..text.two.len() + 1 {
            assert!(rt;
                leaves_prefix(rt.alloc(), &file, text, room),
                "room for {room}"
            );
        }
    }
    Ok(())
}

/// What comes of a text whose writer fails to flush, once.
fn unflushed(alloc: Global, file: &[u8], text: Text) -> Option<Fault> {
    let mut w = FakeWriter::new(alloc, 4096);
    w.flush_fails = true;
    let answer = write_text::<&[u8], _>(alloc, file, text, &mut w);
    if w.flushes == 1 { answer.err() } else { None }
}

#[test]
fn a_failing_flush_is_output_where_no_other_fault_came(rt: HostRuntime) -> Result<(), Fail> {
    let file = File::Two.bytes(rt.alloc())?;
    let cut = Some(Fault::Walk(WalkFault::Record(2064)));
    for &text in &TEXTS {
        let whole = unflushed(rt.alloc(), &file, text) == Some(Fault::Output);
        let piece = file.get(..2070).unwrap_or(&[]);
        let damaged = unflushed(rt.alloc(), piece, text) == cut;
        assert!(rt; whole && damaged, "{:?}", text.two);
    }
    Ok(())
}
