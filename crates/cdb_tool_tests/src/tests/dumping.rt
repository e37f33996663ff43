// dump_run, over damaged and foreign files and over readers and writers that fail.
use super::fakes::{FakeReader, FakeWriter, NotingWriter, SlowWriter};
use super::worked::{File, TWO_TEXT};
use cdb_form::{Narrow, WalkFault, Wide, Width};
use cdb_tool::{Fault, Style, dump_run, make_bytes};
use std::alloc::{AllocError, Global};
use std::io::Read;
use std::prelude::*;
use std::test::Fail;

const FIRST_TEXT: &[u8] = b"+3,5:one->Hello\n";

// The answer for a file, and what was written.
fn dumped<L: Width, R: Read + Drop>(alloc: Global, file: R) -> (Result<(), Fault>, Vec<u8>) {
    let mut out = Vec::new(alloc);
    let answer = dump_run::<L, R, Vec<u8>>(alloc, file, Style::Native, &mut out);
    (answer, out)
}

// Returns true if the answer for a file is this one, and this text was written.
fn dumps<L: Width, R: Read + Drop>(
    alloc: Global,
    file: R,
    want: Result<(), Fault>,
    text: &[u8],
) -> bool {
    let (answer, out) = dumped::<L, R>(alloc, file);
    answer == want && out.as_slice() == text
}

const WHOLE: [(File, &[u8]); 4] = [
    (File::Two, TWO_TEXT),
    (File::None, b"\n"),
    (File::Foreign, b"+1,1:a->1\n\n"),
    (File::Zeros, b"\n"),
];

/// Returns true if a file with bytes after its tables is dumped.
fn longer_is_dumped(alloc: Global) -> Result<bool, AllocError> {
    let mut longer = File::Two.bytes(alloc)?;
    longer.extend_from_slice(b"12345")?;
    Ok(dumps::<Narrow, &[u8]>(alloc, &longer, Ok(()), TWO_TEXT))
}

#[test]
fn whole_and_foreign_files(rt: HostRuntime) -> Result<(), Fail> {
    for &(file, text) in &WHOLE {
        let bytes = file.bytes(rt.alloc())?;
        let is_dumped = dumps::<Narrow, &[u8]>(rt.alloc(), &bytes, Ok(()), text);
        assert!(rt; is_dumped, "{file:?}");
    }
    assert!(rt; longer_is_dumped(rt.alloc())?);
    Ok(())
}

/// The file of two records with other bytes from a place on, the answer, and the text.
type Changed = (usize, &'static [u8], Result<(), Fault>, &'static [u8]);

const CHANGED: [Changed; 6] = [
    // a table outside of the file, a place in a slot that is no record's, a pointer of ones
    (56, b"\x42\x08\0\0\x01\0\0\0", Ok(()), TWO_TEXT),
    (2086, b"\x11", Ok(()), TWO_TEXT),
    (1032, b"\xff\xff\xff\xff\xff\xff\xff\xff", Ok(()), TWO_TEXT),
    // a value too long by one, a table within the head, a key that is far too long
    (
        2068,
        b"\x08",
        Err(Fault::Walk(WalkFault::Record(2064))),
        FIRST_TEXT,
    ),
    (
        0,
        b"\x64\0\0\0\x01\0\0\0",
        Err(Fault::Walk(WalkFault::Table(0))),
        b"",
    ),
    (
        2048,
        b"\xff\xff\xff\xff",
        Err(Fault::Walk(WalkFault::Record(2048))),
        b"",
    ),
];

/// Returns true if a changed file has its answer, and its text is written.
fn changed_dumps(alloc: Global, changed: &Changed) -> Result<bool, AllocError> {
    let (place, new, want, text) = *changed;
    let file = File::Two.changed(alloc, place, new)?;
    Ok(dumps::<Narrow, &[u8]>(alloc, &file, want, text))
}

#[test]
fn changed_files(rt: HostRuntime) -> Result<(), Fail> {
    for changed in &CHANGED {
        let is_dumped = changed_dumps(rt.alloc(), changed)?;
        assert!(rt; is_dumped, "changed at {}", changed.0);
    }
    Ok(())
}

// What is written of the two-record file cut to a length, and its damage.
fn cut_answer(cut: usize) -> (&'static [u8], Option<WalkFault>) {
    match cut {
        0..=2047 => (b"", Some(WalkFault::Short)),
        2048..=2063 => (b"", Some(WalkFault::Record(2048))),
        2064..=2081 => (FIRST_TEXT, Some(WalkFault::Record(2064))),
        _ => (TWO_TEXT, None),
    }
}

// Returns true if a file that is cut has that answer, of a reader that then ends or fails.
fn cut_dumps(alloc: Global, piece: &[u8], fails: bool) -> bool {
    let (text, damage) = cut_answer(piece.len());
    let reader = FakeReader {
        interrupts: 0,
        text: piece,
        fails,
    };
    let want = match damage {
        None => Ok(()),
        Some(_) if fails => Err(Fault::Walk(WalkFault::Input)),
        Some(damage) => Err(Fault::Walk(damage)),
    };
    dumps::<Narrow, FakeReader<'_>>(alloc, reader, want, text)
}

#[test]
fn cut_files_and_failing_readers(rt: HostRuntime) -> Result<(), Fail> {
    let file = File::Two.bytes(rt.alloc())?;
    for cut in 0..file.len() + 1 {
        let piece = &file[..cut];
        let are_dumped = cut_dumps(rt.alloc(), piece, false) && cut_dumps(rt.alloc(), piece, true);
        assert!(rt; are_dumped, "cut at {cut}");
    }
    Ok(())
}

#[test]
fn interrupted_reads_are_asked_again(rt: HostRuntime) -> Result<(), Fail> {
    let file = File::Two.bytes(rt.alloc())?;
    let failed = Err(Fault::Walk(WalkFault::Input));
    for (interrupts, want) in [(1000, Ok(())), (1001, failed)] {
        let reader = FakeReader {
            interrupts,
            text: &file,
            fails: false,
        };
        let (answer, _) = dumped::<Narrow, FakeReader<'_>>(rt.alloc(), reader);
        assert!(rt; answer == want, "{interrupts} interruptions");
    }
    Ok(())
}

#[test]
fn a_writer_of_a_dump_that_fails_holds_a_prefix(rt: HostRuntime) -> Result<(), Fail> {
    let file = File::Two.bytes(rt.alloc())?;
    for room in 0..TWO_TEXT.len() + 1 {
        let mut w = FakeWriter::new(rt.alloc(), room);
        let answer = dump_run::<Narrow, &[u8], FakeWriter>(
            rt.alloc(),
            &file,
            Style::Native,
            &mut w,
        );
        assert!(rt; w.holds_prefix(answer, TWO_TEXT, room), "room for {room}");
    }
    Ok(())
}

#[test]
fn a_failing_flush_of_a_dump(rt: HostRuntime) -> Result<(), Fail> {
    let file = File::Two.bytes(rt.alloc())?;
    for (cut, fault) in [
        (2114, Fault::Output),
        (2070, Fault::Walk(WalkFault::Record(2064))),
    ] {
        let mut w = FakeWriter::new(rt.alloc(), 4096);
        w.flush_fails = true;
        let piece = file.get(..cut).unwrap_or(&[]);
        let answer = dump_run::<Narrow, &[u8], _>(rt.alloc(), piece, Style::Native, &mut w);
        assert!(rt; answer == Err(fault) && w.flushes == 1, "cut at {cut}");
    }
    Ok(())
}

// A file made of a text, or none if there was a fault.
fn made_of<L: Width>(alloc: Global, text: &[u8]) -> Vec<u8> {
    let mut file = Vec::new(alloc);
    if make_bytes::<L, &[u8], Vec<u8>>(alloc, text, &mut file).is_err() {
        file.clear();
    }
    file
}

#[test]
fn a_dump_made_again_is_the_same_file(rt: HostRuntime) -> Result<(), Fail> {
    let file = File::Two.bytes(rt.alloc())?;
    let (_, text) = dumped::<Narrow, &[u8]>(rt.alloc(), &file);
    let is_same = made_of::<Narrow>(rt.alloc(), &text).as_slice() == file.as_slice();
    let wide = made_of::<Wide>(rt.alloc(), &text);
    assert!(rt; is_same && dumps::<Wide, &[u8]>(rt.alloc(), &wide, Ok(()), TWO_TEXT));
    Ok(())
}

#[test]
fn a_wide_head_cut_one_byte_short(rt: HostRuntime) -> Result<(), Fail> {
    let mut head = File::WideNone.bytes(rt.alloc())?;
    let _ = head.pop();
    let short = Err(Fault::Walk(WalkFault::Short));
    assert!(rt; dumps::<Wide, &[u8]>(rt.alloc(), &head, short, b""));
    Ok(())
}

// What is left follows the record end, or the head and the header of a damaged record.
const LEFT: [(usize, &[u8], usize); 4] = [
    (0, b"", 2082),
    // a value too long by one, a table within the head, a key that is far too long
    (2068, b"\x08", 2072),
    (0, b"\x64\0\0\0\x01\0\0\0", 2048),
    (2048, b"\xff\xff\xff\xff", 2056),
];

// Returns true if this is left of a changed file.
fn leaves(alloc: Global, place: usize, new: &[u8], left: usize) -> Result<bool, AllocError> {
    let file = File::Two.changed(alloc, place, new)?;
    let mut rest = file.as_slice();
    let _ = dumped::<Narrow, &mut &[u8]>(alloc, &mut rest);
    Ok(Some(rest) == file.get(left..))
}

#[test]
fn the_rest_of_the_reader_stays(rt: HostRuntime) -> Result<(), Fail> {
    for &(place, new, left) in &LEFT {
        let is_left = leaves(rt.alloc(), place, new, left)?;
        assert!(rt; is_left, "changed at {place}");
    }
    Ok(())
}

#[test]
fn interrupts_of_a_writer_of_a_dump_are_counted_in_a_row(rt: HostRuntime) -> Result<(), Fail> {
    let file = File::Two.bytes(rt.alloc())?;
    for (interrupts, want) in [(1000, Ok(())), (1001, Err(Fault::Output))] {
        let mut w = SlowWriter::new(rt.alloc(), interrupts);
        let answer = dump_run::<Narrow, &[u8], SlowWriter>(
            rt.alloc(),
            &file,
            Style::Native,
            &mut w,
        );
        let is_written = want.is_err() || w.held.as_slice() == TWO_TEXT;
        assert!(rt; answer == want && is_written, "{interrupts} interruptions");
    }
    Ok(())
}

#[test]
fn the_flush_of_a_dump_comes_last(rt: HostRuntime) -> Result<(), Fail> {
    let file = File::Two.bytes(rt.alloc())?;
    for (cut, fails) in [(file.len(), false), (file.len(), true), (2070, false)] {
        let mut w = NotingWriter {
            calls: Vec::new(rt.alloc()),
            fails,
        };
        let piece = file.get(..cut).unwrap_or(&[]);
        let _ = dump_run::<Narrow, &[u8], NotingWriter>(rt.alloc(), piece, Style::Native, &mut w);
        assert!(rt; w.was_flushed_last(), "cut at {cut}");
    }
    Ok(())
}
