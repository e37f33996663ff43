// The amend reader and the writer of removals, on texts worked out by hand, and over readers and
// writers that fail.
use super::fakes::{Behind, FakeReader, FakeWriter};
use cdb_form::{
    AmendReader, Item, ItemKind, Narrow, OutFault, Record, TextFault, Wide, Width, write_end,
    write_record, write_removal,
};
use std::alloc::{AllocError, Global};
use std::io::Read;
use std::prelude::*;
use std::test::Fail;

const MIXED: &[u8] = b"+3,5:one->Hello\n-3:one\n-0:\n+0,0:->\n-003:two\n\n";

/// Puts a record as `<key|value>` after others, or a removal as `[key]`.
pub(super) fn show(kind: ItemKind, record: &Record, shown: &mut Vec<u8>) -> Result<(), AllocError> {
    let parts: [&[u8]; 5] = match kind {
        ItemKind::Put => [b"<", &record.key, b"|", &record.value, b">"],
        ItemKind::Remove => [b"[", &record.key, b"]", b"", b""],
    };
    for part in parts {
        shown.extend_from_slice(part)?;
    }
    Ok(())
}

/// The items, shown, and the fault after them. No more than 2^48 requests are allowed.
fn read_all<L: Width, R: Read + Drop>(
    alloc: Global,
    reader: R,
    asks: u64,
) -> Result<(Vec<u8>, Option<TextFault>), AllocError> {
    let mut changes: AmendReader<R, L> = AmendReader::with_bound(alloc, reader, asks.min(1 << 48));
    let mut record = Record {
        key: Vec::new(alloc),
        value: Vec::new(alloc),
    };
    let mut shown = Vec::new(alloc);
    for _ in 0..1000 {
        match changes.read_into(&mut record) {
            Ok(Some(kind)) => show(kind, &record, &mut shown)?,
            Ok(None) => return Ok((shown, None)),
            Err(fault) => return Ok((shown, Some(fault))),
        }
    }
    Ok((shown, None))
}

/// Returns true if a text is read as these items, shown, and this fault.
fn reads<L: Width, R: Read + Drop>(
    alloc: Global,
    reader: R,
    asks: u64,
    items: &[u8],
    fault: Option<TextFault>,
) -> Result<bool, AllocError> {
    let (given, found) = read_all::<L, R>(alloc, reader, asks)?;
    Ok(given.as_slice() == items && found == fault)
}

/// Texts, their items and their faults.
const READ: [(&[u8], &[u8], Option<TextFault>); 15] = [
    (b"-3:one\n\n", b"[one]", None),
    (b"\n", b"", None),
    (MIXED, b"<one|Hello>[one][]<|>[two]", None),
    (
        b"+3,5:one->Hello\n+3,7:two->Goodbye\n\n-",
        b"<one|Hello><two|Goodbye>",
        None,
    ),
    (b"-3:-\n+\n\n", b"[-\n+]", None),
    (b"-3:on", b"", Some(TextFault::Ended(5))),
    (b"-4294967296:", b"", Some(TextFault::Large(10))),
    (b"-4294967295:", b"", Some(TextFault::Ended(12))),
    (b"-3:onex", b"", Some(TextFault::Syntax(6))),
    (b"-3,", b"", Some(TextFault::Syntax(2))),
    (b"-:", b"", Some(TextFault::Syntax(1))),
    (b"*", b"", Some(TextFault::Syntax(0))),
    (b"-1:a\n*", b"[a]", Some(TextFault::Syntax(5))),
    (b"-1:a\n+1,1:a=>b", b"[a]", Some(TextFault::Syntax(11))),
    (b"-1:a\n-1:a\n", b"[a][a]", Some(TextFault::Ended(10))),
];

/// The same in wide words.
const WIDE: [(&[u8], &[u8], Option<TextFault>); 4] = [
    (b"-3:one\n\n", b"[one]", None),
    (b"-4294967296:", b"", Some(TextFault::Ended(12))),
    // Memory is allocated only as bytes come.
    (b"-9223372036854775807:", b"", Some(TextFault::Ended(21))),
    (b"-9223372036854775808:", b"", Some(TextFault::Large(19))),
];

#[test]
fn items_and_refused_texts(rt: HostRuntime) -> Result<(), Fail> {
    for &(text, items, fault) in &READ {
        let reader = FakeReader::new(text, Behind::End);
        let is = reads::<Narrow, FakeReader<'_>>(rt.alloc(), reader, 1 << 48, items, fault)?;
        assert!(rt; is, "{text:?}");
    }
    for &(text, items, fault) in &WIDE {
        let reader = FakeReader::new(text, Behind::End);
        let is = reads::<Wide, FakeReader<'_>>(rt.alloc(), reader, 1 << 48, items, fault)?;
        assert!(rt; is, "wide {text:?}");
    }
    Ok(())
}

/// Where each item of the mixed text ends, and the items up to there.
const ENDS: [(usize, &[u8]); 6] = [
    (16, b""),
    (23, b"<one|Hello>"),
    (27, b"<one|Hello>[one]"),
    (35, b"<one|Hello>[one][]"),
    (44, b"<one|Hello>[one][]<|>"),
    (45, b"<one|Hello>[one][]<|>[two]"),
];

/// The items of the mixed text that are whole before this byte, shown.
fn items_before(cut: usize) -> &'static [u8] {
    for &(end, items) in &ENDS {
        if cut < end {
            return items;
        }
    }
    b""
}

#[test]
fn each_cut_text_ends_early_and_each_failure_is_input(rt: HostRuntime) -> Result<(), Fail> {
    for cut in 0..MIXED.len() {
        let items = items_before(cut);
        let reader = FakeReader::new(&MIXED[..cut], Behind::End);
        let ended = Some(TextFault::Ended(cut as u64));
        let is = reads::<Narrow, FakeReader<'_>>(rt.alloc(), reader, 1 << 48, items, ended)?;
        assert!(rt; is, "cut at {cut}");
        let reader = FakeReader::new(&MIXED[..cut], Behind::Failure);
        let input = Some(TextFault::Input);
        let is = reads::<Narrow, FakeReader<'_>>(rt.alloc(), reader, 1 << 48, items, input)?;
        assert!(rt; is, "failure at {cut}");
    }
    Ok(())
}

/// Returns true if an item puts this record.
fn is_put(item: &Item, key: &[u8], value: &[u8]) -> bool {
    match item {
        Item::Put(it) => it.key.as_slice() == key && it.value.as_slice() == value,
        Item::Remove(_) => false,
    }
}

/// Returns true if an item removes this key.
pub(super) fn is_removal(item: &Item, key: &[u8]) -> bool {
    match item {
        Item::Put(_) => false,
        Item::Remove(it) => it.as_slice() == key,
    }
}

// Returns true if a text puts a record, removes its key, and has no more for good.
fn puts_and_removes(alloc: Global, text: &mut &[u8]) -> bool {
    let mut changes: AmendReader<&mut &[u8], Narrow> = AmendReader::new(alloc, text);
    let put = matches!(changes.next(), Ok(Some(item)) if is_put(&item, b"one", b"Hello"));
    let removed = matches!(changes.next(), Ok(Some(item)) if is_removal(&item, b"one"));
    put && removed && (0..3).all(|_| matches!(changes.next(), Ok(None)))
}

#[test]
fn items_are_given_and_the_rest_stays(rt: HostRuntime) {
    let mut rest: &[u8] = b"+3,5:one->Hello\n-003:one\n\nrest";
    assert!(rt; puts_and_removes(rt.alloc(), &mut rest));
    assert!(rt; rest == b"rest".as_slice());
}

/// Texts, their faults, and what is left.
const BEHIND: [(&[u8], TextFault, &[u8]); 4] = [
    (b"*-1:a\n", TextFault::Syntax(0), b"-1:a\n"),
    (b"-3,:one", TextFault::Syntax(2), b":one"),
    (b"-1:ab\n\n", TextFault::Syntax(4), b"\n\n"),
    (b"-4294967296:a", TextFault::Large(10), b":a"),
];

#[test]
fn what_follows_a_fault_stays(rt: HostRuntime) -> Result<(), Fail> {
    for &(text, fault, rest) in &BEHIND {
        let mut reader = text;
        let is = reads::<Narrow, &mut &[u8]>(rt.alloc(), &mut reader, 1 << 48, b"", Some(fault))?;
        assert!(rt; is && reader == rest, "{text:?}");
    }
    Ok(())
}

#[test]
fn as_many_asks_as_are_made_suffice(rt: HostRuntime) -> Result<(), Fail> {
    let items: &[u8] = b"<one|Hello>[one][]<|>[two]";
    let mut counted = FakeReader::new(MIXED, Behind::End);
    let is = reads::<Narrow, &mut FakeReader<'_>>(rt.alloc(), &mut counted, 1 << 48, items, None)?;
    let asks = counted.calls;
    assert!(rt; is && asks > 0);
    for (bound, fault) in [(asks, None), (asks - 1, Some(TextFault::Endless))] {
        let reader = FakeReader::new(MIXED, Behind::End);
        let is = reads::<Narrow, FakeReader<'_>>(rt.alloc(), reader, bound, items, fault)?;
        assert!(rt; is, "{bound} asks");
    }
    Ok(())
}

#[test]
fn a_removal_without_end_is_given_up_for_good(rt: HostRuntime) {
    let reader = FakeReader::new(b"-", Behind::ForEver(b'0'));
    let mut changes: AmendReader<FakeReader<'_>, Narrow> = AmendReader::with_bound(
        rt.alloc(),
        reader,
        100,
    );
    for _ in 0..2 {
        assert!(rt; matches!(changes.next(), Err(TextFault::Endless)));
    }
}

/// The amending text of a record and two removals.
fn write_changes(writer: &mut FakeWriter) -> Result<(), OutFault> {
    write_record(writer, b"one", b"Hello")?;
    write_removal(writer, b"one")?;
    write_removal(writer, b"")?;
    write_end(writer)
}

#[test]
fn changes_are_written_or_a_prefix_of_them(rt: HostRuntime) {
    let text = b"+3,5:one->Hello\n-3:one\n-0:\n\n";
    for room in 0..text.len() + 1 {
        let mut writer = FakeWriter::new(rt.alloc(), room, 0);
        let answer = write_changes(&mut writer);
        assert!(rt; writer.holds_prefix(answer, text, room), "room for {room}");
    }
}
