// The windows of the program's input and output.
use super::fakes::{CountingReader, FakeReader, FlakyWriter, FullWriter, NotingWriter, SlowWriter};
use super::through::Through;
use cdb_form::{InFault, flush_whole, read_whole, write_whole};
use cdb_tool::Output;
use std::alloc::{AllocError, Global};
use std::io::{ErrorKind, Read, Write};
use std::prelude::*;
use std::test::Fail;

/// What reads of these sizes give through a window of four bytes.
fn read_in(alloc: Global, reader: &mut CountingReader, sizes: &[usize]) -> Result<Vec<u8>, Fail> {
    let mut given = Vec::new(alloc);
    let mut input = Through::new(alloc, reader, 4)?;
    for size in sizes {
        let mut piece = [0u8; 8];
        let n = input.read(&mut piece[..(*size).min(8)])?;
        given.extend_from_slice(&piece[..n])?;
    }
    Ok(given)
}

/// Sizes of reads, what they give, and how many requests the reader gets. Five bytes in pieces of
/// two are three requests. A read gives no more than the window has.
const READS: [(&[usize], &[u8], u64); 4] = [
    (&[1, 1, 1, 1, 1], b"abcde", 3),
    (&[4], b"ab", 1),
    (&[1, 4, 4], b"abcd", 2),
    (&[8, 8, 8, 8], b"abcde", 4),
];

/// Returns true if reads of these sizes give a text, with so many requests.
fn reads(alloc: Global, sizes: &[usize], text: &[u8], asked: u64) -> Result<bool, Fail> {
    let mut reader = CountingReader {
        text: b"abcde",
        asked: 0,
    };
    let given = read_in(alloc, &mut reader, sizes)?;
    Ok(given.as_slice() == text && reader.asked == asked)
}

#[test]
fn a_read_asks_its_reader_once_at_most(rt: HostRuntime) -> Result<(), Fail> {
    for &(sizes, text, asked) in &READS {
        assert!(rt; reads(rt.alloc(), sizes, text, asked)?, "{sizes:?}");
    }
    Ok(())
}

/// Returns true if a read of so many bytes, of an input with a window of four, reports the
/// interrupt that its reader met, and the next read gives so many bytes.
fn reports_an_interrupt(alloc: Global, size: usize, given: usize) -> Result<bool, Fail> {
    let reader = FakeReader {
        interrupts: 1,
        text: b"abcde",
        fails: false,
    };
    let mut input = Through::new(alloc, reader, 4)?;
    let mut bytes = vec![in alloc; 0u8; size]?;
    let is_reported = match input.read(&mut bytes) {
        Ok(_) => false,
        Err(error) => error.kind() == ErrorKind::Interrupted,
    };
    Ok(is_reported && input.read(&mut bytes)? == given)
}

#[test]
fn an_interrupted_input_reports_it(rt: HostRuntime) -> Result<(), Fail> {
    // A read from the window, and one that goes past it.
    for (size, given) in [(2, 2), (65536, 5)] {
        assert!(rt;
            reports_an_interrupt(rt.alloc(), size, given)?,
            "{size} bytes"
        );
    }
    Ok(())
}

/// Returns true if all that a reader gives through a window of so many bytes is this, or it fails.
fn reads_whole(
    alloc: Global,
    interrupts: u64,
    size: usize,
    want: Result<&[u8], InFault>,
) -> Result<bool, AllocError> {
    let reader = FakeReader {
        interrupts,
        text: b"abcde",
        fails: false,
    };
    let mut input = Through::new(alloc, reader, size.max(1))?;
    let mut given = Vec::new(alloc);
    Ok(match read_whole(&mut input, &mut given, 100) {
        Ok(_) => want == Ok(given.as_slice()),
        Err(fault) => want == Err(fault),
    })
}

#[test]
fn an_input_is_interrupted_1000_times_in_a_row(rt: HostRuntime) -> Result<(), Fail> {
    // Reads that go past a window of 4 bytes, and those that fill one of 4096.
    for size in [4, 4096] {
        let text: Result<&[u8], InFault> = Ok(b"abcde");
        assert!(rt;
            reads_whole(rt.alloc(), 1000, size, text)?,
            "1000 and {size}"
        );
        let failed = Err(InFault::Failed);
        assert!(rt;
            reads_whole(rt.alloc(), 1001, size, failed)?,
            "1001 and {size}"
        );
    }
    Ok(())
}

/// Returns true if some pieces are written through a window of four bytes, and flushed.
fn write_through<W: Write>(
    alloc: Global,
    writer: &mut W,
    pieces: &[&str],
) -> Result<bool, AllocError> {
    let mut output = Output::new(alloc, writer, 4)?;
    for piece in pieces {
        if write_whole(&mut output, piece.as_bytes()).is_err() {
            return Ok(false);
        }
    }
    Ok(flush_whole(&mut output).is_ok())
}

#[test]
fn bytes_go_on_in_order_and_at_once(rt: HostRuntime) -> Result<(), Fail> {
    let mut held = Vec::new(rt.alloc());
    let pieces = ["a", "bc", "defghi", "", "j"];
    let are_written = write_through(rt.alloc(), &mut held, &pieces)?;
    assert!(rt; are_written && held.as_slice() == b"abcdefghij".as_slice());
    let mut noting = NotingWriter {
        calls: Vec::new(rt.alloc()),
        fails: false,
    };
    let are_written = write_through(rt.alloc(), &mut noting, &["a", "b", "c", "d"])?;
    assert!(rt; are_written && noting.calls.as_slice() == b"wf".as_slice());
    Ok(())
}

#[test]
fn interrupts_are_counted_in_a_row(rt: HostRuntime) -> Result<(), Fail> {
    let mut writer = SlowWriter::new(rt.alloc(), 1000);
    let is_written = write_through(rt.alloc(), &mut writer, &["abc"])?;
    assert!(rt; is_written && writer.held.as_slice() == b"abc".as_slice());
    let mut writer = SlowWriter::new(rt.alloc(), 1001);
    let is_written = write_through(rt.alloc(), &mut writer, &["abc"])?;
    assert!(rt; !is_written);
    Ok(())
}

/// Returns true if a first flush of some bytes fails, and the second does not.
fn flushes_again(alloc: Global, writer: &mut FlakyWriter) -> Result<bool, AllocError> {
    let mut output = Output::new(alloc, writer, 4)?;
    let taken = write_whole(&mut output, b"abcd").is_ok();
    let failed = flush_whole(&mut output).is_err();
    Ok(taken && failed && flush_whole(&mut output).is_ok())
}

#[test]
fn bytes_that_were_not_taken_stay(rt: HostRuntime) -> Result<(), Fail> {
    let mut writer = FlakyWriter {
        held: Vec::new(rt.alloc()),
        room: 3,
        failed: false,
    };
    let is_flushed = flushes_again(rt.alloc(), &mut writer)?;
    assert!(rt; is_flushed && writer.held.as_slice() == b"abcd".as_slice());
    Ok(())
}

#[test]
fn a_writer_that_takes_nothing_has_failed(rt: HostRuntime) -> Result<(), Fail> {
    assert!(rt; !write_through(rt.alloc(), &mut FullWriter, &["abcd"])?);
    assert!(rt; !write_through(rt.alloc(), &mut FullWriter, &["abcde"])?);
    Ok(())
}
