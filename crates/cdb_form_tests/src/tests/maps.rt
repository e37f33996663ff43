// The map reader and the writers of maps and keys, on texts worked out by hand, and over readers
// and writers that fail.
ghost use Rattle.std.specs.Prelude.{◌≡◌, ◌≢◌, ◌^◌, ◌++◌, List, IfOk, IfErr};
ghost use Rattle.cdb_form.specs.Format.{KeyValue};
ghost use Rattle.cdb_form.specs.Text.Map.{map_lines};
ghost use Rattle.cdb_form.specs.Views.Feed.{FromTo};
ghost use Rattle.cdb_form.specs.Views.MapReader.{HasEnded, IsGoing, ReadAmid, reader_of};
ghost use Rattle.cdb_form.specs.Views.Pairs.{key_values};
ghost use Rattle.cdb_form.specs.declared.text.fault.TextFault.TheVariants.{NoMemory};

use super::fakes::{Behind, FakeReader, FakeWriter};
use cdb_form::{
    Feeds, MapReader, OutFault, Record, TextFault, write_end, write_list_record, write_map_key,
    write_map_record,
};
use std::alloc::{AllocError, Global};
use std::io::Read;
use std::prelude::*;
use std::test::Fail;

const SIX_LINES: &[u8] = b"  one Hello\n# note\n\n  # more\n \t\nkey\ntwo\t \tGood bye";

/// Puts a record as `<key|value>` after others.
fn show(record: &Record, shown: &mut Vec<u8>) -> Result<(), AllocError> {
    let parts: [&[u8]; 5] = [b"<", &record.key, b"|", &record.value, b">"];
    for part in parts {
        shown.extend_from_slice(part)?;
    }
    Ok(())
}

/// Each record as `<key|value>`, and the fault after them. No more than 2^48 requests are allowed.
fn read_all<R: Read + Drop>(
    alloc: Global,
    reader: R,
    asks: u64,
) -> Result<(Vec<u8>, Option<TextFault>), AllocError> {
    let mut maps = MapReader::with_bound(alloc, reader, asks.min(1 << 48));
    let mut given = Vec::new(alloc);
    for _ in 0..1000 {
        match maps.next() {
            Ok(Some(record)) => show(&record, &mut given)?,
            Ok(None) => return Ok((given, None)),
            Err(fault) => return Ok((given, Some(fault))),
        }
    }
    Ok((given, None))
}

/// Returns true if a text is read as these records, shown, and this fault.
fn reads<R: Read + Drop>(
    alloc: Global,
    reader: R,
    asks: u64,
    records: &[u8],
    fault: Option<TextFault>,
) -> Result<bool, AllocError> {
    let (given, found) = read_all(alloc, reader, asks)?;
    Ok(given.as_slice() == records && found == fault)
}

/// As many of the next records, or fewer at the end of the input. It shows that the clauses of each
/// call lead to the whole text.
fn next_records<F: Feeds>(
    alloc: Global,
    maps: &mut MapReader<F>,
    most: usize,
) -> Result<Vec<Record>, TextFault>
    requires { IsGoing maps.old }
    ensures some { IfOk result (λ given. IsGoing maps.new
        → FromTo (F.feed (reader_of maps.old)) (F.feed (reader_of maps.new)) (λ text rest.
        map_lines text ≡ key_values given.items ++ map_lines rest)) }
    ensures all { IfOk result (λ given. HasEnded maps.new
        → FromTo (F.feed (reader_of maps.old)) (F.feed (reader_of maps.new)) (λ text rest.
        map_lines text ≡ key_values given.items)) }
    ensures amid { IfErr result (λ fault. fault ≢ NoMemory
        → FromTo (F.feed (reader_of maps.old)) (F.feed (reader_of maps.new)) (λ text rest.
        (given : List KeyValue) × ReadAmid text rest given)) }
{
    let mut given = Vec::new(alloc);
    for _ in 0..most {
        match maps.next()? {
            Some(record) => given.push(record)?,
            None => return Ok(given),
        }
    }
    Ok(given)
}

#[test]
fn next_records_are_those_of_the_text(rt: HostRuntime) -> Result<(), Fail> {
    for (most, count) in [(0, 0), (1, 1), (3, 3), (4, 3)] {
        let mut maps = MapReader::new(rt.alloc(), SIX_LINES);
        let given = next_records(rt.alloc(), &mut maps, most)?;
        assert!(rt; given.len() == count);
    }
    Ok(())
}

/// Texts, and their records.
const RECORDS: [(&[u8], &[u8]); 14] = [
    (SIX_LINES, b"<one|Hello><key|><two|Good bye>"),
    (b"", b""),
    (b"\n", b""),
    (b" \t\n\t", b""),
    (b"#", b""),
    (b"\t# a b", b""),
    (b"key", b"<key|>"),
    (b"key \t", b"<key|>"),
    (b"a # b", b"<a|# b>"),
    (b"a# b", b"<a#|b>"),
    (b"a b \t\n", b"<a|b \t>"),
    (b"a b\r\n\r\n", b"<a|b\r><\r|>"),
    (b"a\n\n\na\n", b"<a|><a|>"),
    (b"\0\xff \xfe\0 \x80", b"<\0\xff|\xfe\0 \x80>"),
];

#[test]
fn records_of_texts(rt: HostRuntime) -> Result<(), Fail> {
    for &(text, records) in &RECORDS {
        let reader = FakeReader::new(text, Behind::End);
        assert!(rt;
            reads(rt.alloc(), reader, 1 << 48, records, None)?,
            "{text:?}"
        );
    }
    Ok(())
}

/// Returns true if there is one more record, of which a new reader takes no byte too many.
fn gives_one(alloc: Global, rest: &mut &[u8]) -> bool {
    matches!(MapReader::new(alloc, rest).next(), Ok(Some(_)))
}

/// Returns true if the text is at its end, for good.
fn is_at_end(alloc: Global, rest: &[u8]) -> bool {
    let mut maps = MapReader::new(alloc, rest);
    (0..3).all(|_| matches!(maps.next(), Ok(None)))
}

#[test]
fn no_byte_behind_a_record_is_read(rt: HostRuntime) {
    let mut rest: &[u8] = SIX_LINES;
    let left: [&[u8]; 3] = [
        b"# note\n\n  # more\n \t\nkey\ntwo\t \tGood bye",
        b"two\t \tGood bye",
        b"",
    ];
    for want in left {
        assert!(rt; gives_one(rt.alloc(), &mut rest) && rest == want);
    }
    assert!(rt; is_at_end(rt.alloc(), rest));
}

#[test]
fn one_byte_is_asked_for_at_once(rt: HostRuntime) -> Result<(), Fail> {
    let mut reader = FakeReader::new(SIX_LINES, Behind::End);
    read_all(rt.alloc(), &mut reader, 1 << 48)?;
    assert!(rt; reader.greatest_ask == 1);
    // The last record's line meets the end, and the call after it reads nothing.
    assert!(rt; reader.calls == SIX_LINES.len() as u64 + 1);
    Ok(())
}

/// Returns true if a text of this byte without end is given up, for good.
fn is_given_up(alloc: Global, byte: u8) -> bool {
    let reader = FakeReader::new(b"", Behind::ForEver(byte));
    let mut maps = MapReader::with_bound(alloc, reader, 100);
    let first = matches!(maps.next(), Err(TextFault::Endless));
    first && matches!(maps.next(), Err(TextFault::Endless))
}

#[test]
fn a_text_without_end_is_given_up_for_good(rt: HostRuntime) {
    for byte in [b' ', b'\n', b'#', b'a'] {
        assert!(rt; is_given_up(rt.alloc(), byte), "{byte}");
    }
}

#[test]
fn each_cut_text_is_a_map_text(rt: HostRuntime) -> Result<(), Fail> {
    let text = b"ab c\n#d\n e";
    let cases: [&[u8]; 11] = [
        b"",
        b"<a|>",
        b"<ab|>",
        b"<ab|>",
        b"<ab|c>",
        b"<ab|c>",
        b"<ab|c>",
        b"<ab|c>",
        b"<ab|c>",
        b"<ab|c>",
        b"<ab|c><e|>",
    ];
    for (cut, records) in cases.iter().enumerate() {
        let reader = FakeReader::new(&text[..cut], Behind::End);
        let is_read = reads(rt.alloc(), reader, 1 << 48, records, None)?;
        assert!(rt; is_read, "cut at {cut}");
    }
    Ok(())
}

#[test]
fn lines_that_are_whole_are_given_before_a_failure(rt: HostRuntime) -> Result<(), Fail> {
    let text = b"ab c\n#d\n e\n";
    for cut in 0..text.len() + 1 {
        let records: &[u8] = match cut {
            0..=4 => b"",
            5..=10 => b"<ab|c>",
            _ => b"<ab|c><e|>",
        };
        let reader = FakeReader::new(&text[..cut], Behind::Failure);
        let failed = Some(TextFault::Input);
        let is_read = reads(rt.alloc(), reader, 1 << 48, records, failed)?;
        assert!(rt; is_read, "failure at {cut}");
    }
    Ok(())
}

#[test]
fn interruptions_are_asked_again(rt: HostRuntime) -> Result<(), Fail> {
    let all: &[u8] = b"<one|Hello><key|><two|Good bye>";
    let cases: [(u64, u64, &[u8], Option<TextFault>); 4] = [
        (1000, 1 << 48, all, None),
        (1001, 1 << 48, b"", Some(TextFault::Input)),
        (u64::MAX, 100, b"", Some(TextFault::Endless)),
        (u64::MAX, 2000, b"", Some(TextFault::Input)),
    ];
    for (interrupts, asks, records, fault) in cases {
        let reader = FakeReader::interrupted(SIX_LINES, interrupts);
        let is_read = reads(rt.alloc(), reader, asks, records, fault)?;
        assert!(rt; is_read, "{interrupts} interruptions, {asks} asks");
    }
    Ok(())
}

#[test]
fn interruptions_are_counted_in_a_row(rt: HostRuntime) -> Result<(), Fail> {
    let all: &[u8] = b"<one|Hello><key|><two|Good bye>";
    let cases: [(u64, &[u8], Option<TextFault>); 2] = [
        (1000, all, None),
        (1001, b"", Some(TextFault::Input)),
    ];
    for (interrupts, records, fault) in cases {
        let reader = FakeReader::interrupted_each(SIX_LINES, interrupts);
        let is_read = reads(rt.alloc(), reader, 1 << 48, records, fault)?;
        assert!(rt; is_read, "{interrupts} before each byte");
    }
    Ok(())
}

#[test]
fn as_many_asks_as_are_made_suffice(rt: HostRuntime) -> Result<(), Fail> {
    let asks = SIX_LINES.len() as u64 + 1;
    let two: &[u8] = b"<one|Hello><key|>";
    let three: &[u8] = b"<one|Hello><key|><two|Good bye>";
    let cases = [
        (asks, three, None),
        (asks - 1, two, Some(TextFault::Endless)),
    ];
    for (bound, records, fault) in cases {
        let reader = FakeReader::new(SIX_LINES, Behind::End);
        assert!(rt;
            reads(rt.alloc(), reader, bound, records, fault)?,
            "{bound} asks"
        );
    }
    Ok(())
}

/// The map text of two records, their list text, and their keys.
fn write_all(writer: &mut FakeWriter) -> Result<(), OutFault> {
    write_map_record(writer, b"one", b"Hello")?;
    write_map_record(writer, b"two", b"Goodbye")?;
    write_list_record(writer, b"one")?;
    write_list_record(writer, b"")?;
    write_list_record(writer, b"0123456789")?;
    write_end(writer)?;
    write_map_key(writer, b"one")?;
    write_map_key(writer, b"two")
}

#[test]
fn texts_are_written_or_a_prefix_of_them(rt: HostRuntime) {
    let text = b"one Hello\ntwo Goodbye\n+3:one\n+0:\n+10:0123456789\n\none\ntwo\n";
    for room in 0..text.len() + 1 {
        let mut writer = FakeWriter::new(rt.alloc(), room, 0);
        let answer = write_all(&mut writer);
        assert!(rt; writer.holds_prefix(answer, text, room), "room for {room}");
    }
}
