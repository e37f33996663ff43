// Whole writes, over writers that take little or fail.
use super::fakes::FakeWriter;
use cdb_form::{
    OutFault, flush_whole, write_end, write_list_record, write_map_key, write_map_record,
    write_pieces, write_record, write_some, write_whole,
};
use std::alloc::{AllocError, Global};
use std::prelude::*;
use std::test::Fail;

#[test]
fn a_writer_that_fails_holds_a_prefix(rt: HostRuntime) {
    let bytes = b"Hello, Goodbye";
    for room in 0..bytes.len() + 1 {
        let mut writer = FakeWriter::new(rt.alloc(), room, 0);
        let answer = write_pieces(&mut writer, &[&bytes[..5], &bytes[5..]]);
        assert!(rt; writer.holds_prefix(answer, bytes, room), "room for {room}");
    }
}

/// Returns true if a write and a flush that are interrupted so often answer so.
fn answer_so(alloc: Global, interrupts: u64, want: Result<(), OutFault>) -> bool {
    let mut written = FakeWriter::new(alloc, 5, interrupts);
    let mut flushed = FakeWriter::new(alloc, 5, interrupts);
    let is_written = write_whole(&mut written, b"Hello") == want;
    let is_flushed = flush_whole(&mut flushed) == want;
    is_written && is_flushed && flushed.flushed == want.is_ok()
}

#[test]
fn interruptions_are_asked_again(rt: HostRuntime) {
    for (interrupts, want) in [(0, Ok(())), (1000, Ok(())), (1001, Err(OutFault))] {
        assert!(rt;
            answer_so(rt.alloc(), interrupts, want),
            "{interrupts} interruptions"
        );
    }
}

#[test]
fn interruptions_are_counted_in_a_row(rt: HostRuntime) {
    for (interrupts, want) in [(1000, Ok(())), (1001, Err(OutFault))] {
        let mut writer = FakeWriter::new(rt.alloc(), 9, interrupts);
        writer.interrupts_each = interrupts;
        writer.most = 1;
        let answer = write_pieces(&mut writer, &[b"Hel", b"lo"]);
        assert!(rt; answer == want, "{interrupts} before each byte");
    }
}

#[test]
fn a_writer_that_takes_nothing_has_failed(rt: HostRuntime) {
    let mut writer = FakeWriter::new(rt.alloc(), 3, 0);
    writer.takes_none = true;
    assert!(rt; write_some(&mut writer, b"Hello") == Ok(3));
    assert!(rt; write_some(&mut writer, b"lo") == Err(OutFault));
    assert!(rt; write_whole(&mut writer, b"lo") == Err(OutFault));
    assert!(rt; writer.held.as_slice() == b"Hel".as_slice());
}

/// The native text of two records.
fn write_two(writer: &mut FakeWriter) -> Result<(), OutFault> {
    write_record(writer, b"one", b"Hello")?;
    write_record(writer, b"", b"->\n-> +0,0")?;
    write_end(writer)
}

#[test]
fn a_text_is_written_or_a_prefix_of_it(rt: HostRuntime) {
    let text = b"+3,5:one->Hello\n+0,10:->->\n-> +0,0\n\n";
    for room in 0..text.len() + 1 {
        let mut writer = FakeWriter::new(rt.alloc(), room, 0);
        let answer = write_two(&mut writer);
        assert!(rt; writer.holds_prefix(answer, text, room), "room for {room}");
    }
}

/// Pieces one after the other.
fn joined(alloc: Global, pieces: &[&[u8]]) -> Result<Vec<u8>, AllocError> {
    let mut all = Vec::new(alloc);
    for piece in pieces {
        all.extend_from_slice(piece)?;
    }
    Ok(all)
}

/// The texts of a record in each style, and those of its key.
fn written_texts(alloc: Global, key: &[u8], value: &[u8]) -> Result<Vec<u8>, Fail> {
    let mut out: Vec<u8> = Vec::new(alloc);
    write_record(&mut out, key, value)?;
    write_map_record(&mut out, key, value)?;
    write_list_record(&mut out, key)?;
    write_map_key(&mut out, key)?;
    Ok(out)
}

/// Returns true if a record of a key and a value of so many bytes each is written whole in each
/// style.
fn writes_all(alloc: Global, len: usize) -> Result<bool, Fail> {
    let (key, value) = (vec![in alloc; b'k'; len]?, vec![in alloc; b'v'; len]?);
    let (key, value): (&[u8], &[u8]) = (&key, &value);
    let digits = format!(in alloc; "{len}")?;
    let len = digits.as_bytes();
    let native = joined(
        alloc,
        &[b"+", len, b",", len, b":", key, b"->", value, b"\n"],
    )?;
    let map = joined(alloc, &[key, b" ", value, b"\n"])?;
    let list = joined(alloc, &[b"+", len, b":", key, b"\n", key, b"\n"])?;
    let want = joined(alloc, &[&native, &map, &list])?;
    let given = written_texts(alloc, key, value)?;
    Ok(given.as_slice() == want.as_slice())
}

#[test]
fn records_of_about_256_bytes_are_written_whole(rt: HostRuntime) -> Result<(), Fail> {
    for first in [0, 115, 245] {
        for more in 0..15 {
            let len = first + more;
            let is = writes_all(rt.alloc(), len)?;
            assert!(rt; is, "{len}");
        }
    }
    Ok(())
}
