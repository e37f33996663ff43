// A reader: opened, and the bytes of spans.
ghost use Rattle.std.specs.Prelude.{◌+◌, ◌≤◌};
ghost use Rattle.std.specs.Bool.{Decides};

use super::counting::four_file;
use super::files::{Fused, fused, opened_again, two_file, wide_file};
use cdb_form::{Narrow, Wide, Width};
use cdb_read::{ReadFault, Reader, Span};
use cdb_store::Store;
use std::alloc::{AllocError, Global};
use std::io::{self, ErrorKind, Write};
use std::prelude::*;
use std::test::Fail;

/// Takes so many bytes, and then fails.
#[derive(Drop)]
struct ShortWriter {
    held: Vec<u8>,
    room: usize,
}

impl Write for ShortWriter {
    fn write(&mut self, buf: &[u8]) -> io::Result<usize> {
        let n = buf.len().min(self.room);
        if n == 0 {
            return Err(io::Error::from(ErrorKind::Other));
        }
        self.held.extend_from_slice(&buf[..n])?;
        self.room -= n;
        Ok(n)
    }

    fn flush(&mut self) -> io::Result<()> {
        Ok(())
    }
}

/// Returns true if a span lies inside the file of a reader.
pub(super) fn lies_inside<S: Store, L: Width>(reader: &Reader<S, L>, span: Span) -> bool
    ensures { Decides result (span.place + span.len ≤ S.size reader.now.store) }
{
    let size = reader.size();
    span.place <= size && span.len <= size - span.place
}

/// The value at a span, read again if the store failed.
fn value_again<L: Width>(
    alloc: Global,
    reader: &mut Reader<Fused, L>,
    span: Span,
) -> Result<Vec<u8>, ReadFault> {
    if !lies_inside(reader, span) {
        return Err(ReadFault::Short);
    }
    match reader.value(alloc, span) {
        Err(ReadFault::Device) => {}
        answer => return answer,
    }
    if !lies_inside(reader, span) {
        return Err(ReadFault::Short);
    }
    reader.value(alloc, span)
}

/// Returns true if the value at a span of a file is this one, though the store fails its call of a
/// number.
fn has_value<L: Width>(
    alloc: Global,
    file: Vec<u8>,
    fails: u64,
    span: Span,
    value: &[u8],
) -> Result<bool, ReadFault> {
    let mut reader = opened_again::<L>(fused(file, fails))?;
    let found = value_again(alloc, &mut reader, span)?;
    Ok(found.as_slice() == value)
}

/// Returns true if a copy of a span answers this to a writer with so much room, which then holds
/// this.
fn copies(
    file: Vec<u8>,
    span: Span,
    writer: ShortWriter,
    fault: Option<ReadFault>,
    held: &[u8],
) -> Result<bool, ReadFault> {
    let mut reader = opened_again::<Narrow>(fused(file, u64::MAX))?;
    let mut writer = writer;
    if !lies_inside(&reader, span) {
        return Err(ReadFault::Short);
    }
    let answer = reader.copy(span, &mut writer).err();
    Ok(answer == fault && writer.held.as_slice() == held)
}

/// A writer with so much room.
fn writer(alloc: Global, room: usize) -> ShortWriter {
    let held = Vec::new(alloc);
    ShortWriter { held, room }
}

/// The value of `one`, in words of 4 bytes and of 8.
const HELLO: Span = Span {
    place: 2059,
    len: 5,
};

const WIDE_HELLO: Span = Span {
    place: 4115,
    len: 5,
};

#[test]
fn a_value_is_given_whichever_call_of_the_store_fails(rt: HostRuntime) -> Result<(), Fail> {
    let alloc = rt.alloc();
    for fails in 0..3u64 {
        let narrow = has_value::<Narrow>(alloc, two_file(alloc)?, fails, HELLO, b"Hello");
        assert!(rt; narrow == Ok(true), "{fails}");
        let wide = has_value::<Wide>(alloc, wide_file(alloc)?, fails, WIDE_HELLO, b"Hello");
        assert!(rt; wide == Ok(true), "{fails} in words of 8 bytes");
    }
    Ok(())
}

#[test]
fn a_long_value_is_given_in_pieces(rt: HostRuntime) -> Result<(), Fail> {
    let alloc = rt.alloc();
    let mut file = two_file(alloc)?;
    let mut long = vec![in alloc; 7u8; 8192]?;
    long.push(9)?;
    file.extend_from_slice(&long)?;
    let span = Span {
        place: 2114,
        len: 8193,
    };
    for fails in 0..5u64 {
        let is = has_value::<Narrow>(alloc, file.clone()?, fails, span, &long);
        assert!(rt; is == Ok(true), "{fails}");
    }
    let is = copies(file, span, writer(alloc, 8193), None, &long);
    assert!(rt; is == Ok(true), "a long value is copied");
    Ok(())
}

#[test]
fn a_copy_leaves_what_its_writer_takes(rt: HostRuntime) -> Result<(), Fail> {
    let alloc = rt.alloc();
    let whole = copies(two_file(alloc)?, HELLO, writer(alloc, 9), None, b"Hello");
    assert!(rt; whole == Ok(true), "the whole value");
    let fault = Some(ReadFault::Output);
    let front = copies(two_file(alloc)?, HELLO, writer(alloc, 3), fault, b"Hel");
    assert!(rt; front == Ok(true), "a front of it");
    Ok(())
}

/// Returns true if a copy of a span whose store fails at its call of a number leaves a prefix of
/// these bytes, and the same copy again all of them.
fn copies_again(
    alloc: Global,
    file: Vec<u8>,
    fails: u64,
    span: Span,
    bytes: &[u8],
) -> Result<bool, ReadFault> {
    let mut reader = opened_again::<Narrow>(fused(file, fails))?;
    let mut first = Vec::new(alloc);
    let mut again = Vec::new(alloc);
    if !lies_inside(&reader, span) {
        return Ok(false);
    }
    let answer = reader.copy(span, &mut first);
    if !lies_inside(&reader, span) {
        return Ok(false);
    }
    reader.copy(span, &mut again)?;
    let as_told = match answer {
        Ok(()) => first.len() == bytes.len(),
        Err(fault) => fault == ReadFault::Device && first.len() < bytes.len(),
    };
    Ok(as_told && bytes.starts_with(&first) && again.as_slice() == bytes)
}

#[test]
fn a_copy_goes_on_whichever_call_of_the_store_fails(rt: HostRuntime) -> Result<(), Fail> {
    let alloc = rt.alloc();
    let mut file = two_file(alloc)?;
    let long = vec![in alloc; 7u8; 8193]?;
    file.extend_from_slice(&long)?;
    let span = Span {
        place: 2114,
        len: 8193,
    };
    // The first call is that of the opening, and three make the copy.
    for fails in [0, 1, 2, 3, u64::MAX] {
        let is = copies_again(alloc, file.clone()?, fails, span, &long);
        assert!(rt; is == Ok(true), "{fails}");
    }
    Ok(())
}

/// The values of the file of four of `a`, by their places.
const FOUR: [(u64, &[u8]); 4] = [(2057, b"1"), (2067, b"2"), (2077, b"3"), (2087, b"4")];

#[test]
fn four_values_are_given_whichever_call_of_the_store_fails(rt: HostRuntime) -> Result<(), Fail> {
    let alloc = rt.alloc();
    for &(place, bytes) in &FOUR {
        let span = Span { place, len: 1 };
        // The first call is that of the opening, and the second is the value's.
        for fails in [0, 1, u64::MAX] {
            let value = has_value::<Narrow>(alloc, four_file(alloc)?, fails, span, bytes);
            let copy = copies_again(alloc, four_file(alloc)?, fails, span, bytes);
            assert!(rt; value == Ok(true) && copy == Ok(true), "{place}, {fails}");
        }
    }
    Ok(())
}

/// The first bytes of the file of two records, so many, opened over a store that fails a call of a
/// number: why not, and how many bytes the store has that is returned.
fn refusal(alloc: Global, size: usize, fails: u64) -> Result<Option<(ReadFault, u64)>, AllocError> {
    let mut file = two_file(alloc)?;
    file.truncate(size);
    match Reader::<Fused, Narrow>::open(fused(file, fails)) {
        Ok(_) => Ok(None),
        Err(unread) => Ok(Some((unread.fault, unread.store.len()))),
    }
}

#[test]
fn what_is_no_database_is_handed_back(rt: HostRuntime) -> Result<(), Fail> {
    let alloc = rt.alloc();
    let short = refusal(alloc, 2047, u64::MAX)?;
    assert!(rt;
        short == Some((ReadFault::Short, 2047)),
        "a file shorter than its head"
    );
    let failed = refusal(alloc, 2048, 0)?;
    assert!(rt;
        failed == Some((ReadFault::Device, 2048)),
        "a store that fails"
    );
    let opened = refusal(alloc, 2048, 1)?;
    assert!(rt; opened == None, "a head alone is a database");
    Ok(())
}
