// Map texts through windows of all sizes, over readers that give a byte, two, or all.
use super::through::{InThrough, Through};
use cdb_form::{Filled, MapReader, Narrow, Record, Width, pair_size, read_header};
use std::alloc::{AllocError, Global};
use std::io::{self, Read};
use std::prelude::*;
use std::test::Fail;

/// Texts, and their records as `<key|value>`.
const RECORDS: [(&[u8], &[u8]); 23] = [
    (
        b"  one Hello\n# note\n\n  # more\n \t\nkey\ntwo\t \tGood bye",
        b"<one|Hello><key|><two|Good bye>",
    ),
    (b"", b""),
    (b"\n", b""),
    (b" \t\n\t", b""),
    (b"#", b""),
    (b"key", b"<key|>"),
    (b"key \t", b"<key|>"),
    (b"a # b", b"<a|# b>"),
    (b"a b \t\n", b"<a|b \t>"),
    (b"a\n\n\na\n", b"<a|><a|>"),
    (b"\0\xff \xfe\0 \x80", b"<\0\xff|\xfe\0 \x80>"),
    (
        b"a_key_of_24_bytes_or_so_ a value of more than sixteen bytes\nb c\n",
        b"<a_key_of_24_bytes_or_so_|a value of more than sixteen bytes><b|c>",
    ),
    (b"one Hello\ntwo Good bye\n", b"<one|Hello><two|Good bye>"),
    (b"one Hello\ntwo Good bye", b"<one|Hello><two|Good bye>"),
    (
        b" \t \tone\t \tHello\t \n\t two\t\tGood\tbye \n",
        b"<one|Hello\t ><two|Good\tbye >",
    ),
    (
        b"one \ntwo\t\nthree \t \nfour\n",
        b"<one|><two|><three|><four|>",
    ),
    (
        b"# one two\n#\n\t#a b\n\n \none Hello\n#\ntwo Good bye\n# last",
        b"<one|Hello><two|Good bye>",
    ),
    (
        b"o#e #Hello\ntwo# # \n# three four\n",
        b"<o#e|#Hello><two#|# >",
    ),
    (
        b"\rone\r Hello\r\n\x0b \x0c\n\0 \0\n",
        b"<\rone\r|Hello\r><\x0b|\x0c><\0|\0>",
    ),
    // Lines that are looked at 32 bytes at once, up to the last one's end.
    (
        b"k v\nkey  v\nkey\tv w\n#k v\nkey \nkey a value of more than thirty-two bytes\n",
        b"<k|v><key|v><key|v w><key|><key|a value of more than thirty-two bytes>",
    ),
    // Lines of 7 bytes and of 16, as long as a window.
    (
        b"one 12\nfive 6\nabcdef\nab    \n",
        b"<one|12><five|6><abcdef|><ab|>",
    ),
    (
        b"a line of 16 by\nof16 with its n\nand 15 with it.\nabcdefghijklmno\n",
        b"<a|line of 16 by><of16|with its n><and|15 with it.><abcdefghijklmno|>",
    ),
    (
        b"a_key_of_more_than_16_bytes\t\t \t \t \t \t \t \t \t v\n \n \nk v\n \t ",
        b"<a_key_of_more_than_16_bytes|v><k|v>",
    ),
];

/// Lines behind a text, and their records: with so many bytes after them, those of the text may fill
/// a buffer.
const BEHIND: (&[u8], &[u8]) = (
    b"\nk v\nlast a value of more than sixty-four bytes, which is longer than the piece that is copied\n",
    b"<k|v><last|a value of more than sixty-four bytes, which is longer than the piece that is copied>",
);

/// The sizes of the windows.
pub(super) const SIZES: [usize; 6] = [1, 2, 3, 7, 16, 4096];

/// The sizes of the windows that hold enough for a buffer to be filled.
pub(super) const WIDE: [usize; 2] = [100, 4096];

/// The size of a buffer that is filled.
pub(super) const ROOM: usize = 160;

/// The number of bytes that a reader gives at once.
pub(super) const MOST: [usize; 3] = [1, 2, 4096];

/// Gives a text, so many bytes at once at most.
#[derive(Drop)]
pub(super) struct Dripping<'a> {
    pub(super) text: &'a [u8],
    pub(super) most: usize,
}

impl Read for Dripping<'_> {
    fn read(&mut self, buf: &mut [u8]) -> io::Result<usize> {
        let n = buf.len().min(self.text.len()).min(self.most);
        let (piece, rest) = self.text.split_at(n);
        buf[..n].copy_from_slice(piece);
        self.text = rest;
        Ok(n)
    }
}

/// Some bytes, one after the other.
pub(super) fn joined(alloc: Global, parts: [&[u8]; 3]) -> Result<Vec<u8>, AllocError> {
    let mut whole = Vec::new(alloc);
    for part in parts {
        whole.extend_from_slice(part)?;
    }
    Ok(whole)
}

/// Puts a record as `<key|value>` after others.
pub(super) fn show(key: &[u8], value: &[u8], shown: &mut Vec<u8>) -> Result<(), AllocError> {
    for part in [b"<", key, b"|", value, b">"] {
        shown.extend_from_slice(part)?;
    }
    Ok(())
}

/// Shows the records that fill a buffer, each by its header. A record that is not there is shown as
/// `?`, and bytes of none as they are.
pub(super) fn show_filled<L: Width>(
    filled: Filled,
    buffer: &[u8],
    shown: &mut Vec<u8>,
) -> Result<(), AllocError> {
    let mut rest = &buffer[..filled.held.min(buffer.len())];
    for _ in 0..filled.count {
        if rest.len() < pair_size::<L>() {
            shown.push(b'?')?;
            break;
        }
        let (head, body) = rest.split_at(pair_size::<L>());
        let header = read_header::<L>(head);
        let (key, body) = body.split_at(body.len().min(header.klen as usize));
        let (value, behind) = body.split_at(body.len().min(header.vlen as usize));
        show(key, value, shown)?;
        rest = behind;
    }
    shown.extend_from_slice(rest)
}

/// Shows the records that fill a buffer, and answers whether there are any.
fn show_next<R: Read>(
    maps: &mut MapReader<Through<R>>,
    buffer: &mut [u8],
    shown: &mut Vec<u8>,
) -> Result<bool, AllocError> {
    let filled = maps.fill::<Narrow, InThrough>(buffer, 0);
    show_filled::<Narrow>(filled, buffer, shown)?;
    Ok(0 < filled.count)
}

/// The records of a text that comes through a window, shown: those that fill a buffer, if it fills
/// one, and else as they are read.
fn shown(
    alloc: Global,
    text: &[u8],
    size: usize,
    most: usize,
    fills: bool,
) -> Result<Vec<u8>, Fail> {
    let mut reader = Dripping { text, most };
    let mut maps = MapReader::new(alloc, Through::new(alloc, &mut reader, size.max(1))?);
    let mut record = Record {
        key: Vec::new(alloc),
        value: Vec::new(alloc),
    };
    let mut buffer = [0u8; ROOM];
    let mut shown = Vec::new(alloc);
    for _ in 0..1000 {
        if fills && show_next(&mut maps, &mut buffer, &mut shown)? {
            continue;
        }
        if !maps.read_buffered::<InThrough>(&mut record)? {
            break;
        }
        show(&record.key, &record.value, &mut shown)?;
    }
    Ok(shown)
}

#[test]
fn map_texts_through_windows(rt: HostRuntime) -> Result<(), Fail> {
    for &(text, records) in &RECORDS {
        for size in SIZES {
            for most in MOST {
                for fills in [false, true] {
                    let given = shown(rt.alloc(), text, size, most, fills)?;
                    assert!(rt;
                        given.as_slice() == records,
                        "{text:?} by {size} and {most}, {fills}"
                    );
                }
            }
        }
    }
    Ok(())
}

#[test]
fn map_texts_before_others_fill_buffers(rt: HostRuntime) -> Result<(), Fail> {
    let (behind, more) = BEHIND;
    for &(text, records) in &RECORDS {
        let text = joined(rt.alloc(), [text, behind, b""])?;
        let records = joined(rt.alloc(), [records, more, b""])?;
        for size in WIDE {
            let given = shown(rt.alloc(), &text, size, 4096, true)?;
            assert!(rt;
                given.as_slice() == records.as_slice(),
                "{text:?} by {size}"
            );
        }
    }
    Ok(())
}

#[test]
fn lines_at_hand_fill_a_buffer(rt: HostRuntime) -> Result<(), Fail> {
    let text = joined(
        rt.alloc(),
        [b"k v\n", b"one Hello\ntwo Good bye\n", BEHIND.0],
    )?;
    let mut reader = Dripping {
        text: &text,
        most: 4096,
    };
    let mut maps = MapReader::new(rt.alloc(), Through::new(rt.alloc(), &mut reader, 4096)?);
    let mut record = Record {
        key: Vec::new(rt.alloc()),
        value: Vec::new(rt.alloc()),
    };
    assert!(rt; maps.read_buffered::<InThrough>(&mut record)?);
    let mut shown = Vec::new(rt.alloc());
    assert!(rt; show_next(&mut maps, &mut [0u8; ROOM], &mut shown)?);
    assert!(rt; shown.as_slice() == b"<one|Hello><two|Good bye>".as_slice());
    Ok(())
}

/// Two lines of 4 bytes.
const TWO_LINES: &[u8] = b"a b\nc d\n";

/// Requests, how many records of the two lines they give, and whether the end is found then.
const ASKS: [(u64, usize, bool); 5] = [
    (3, 0, false),
    (4, 1, false),
    (7, 1, false),
    (8, 2, false),
    (9, 2, true),
];

/// Returns the number of records that come through a window for so many requests, and whether then
/// the end does.
fn given_for(alloc: Global, asks: u64, size: usize) -> Result<(usize, bool), Fail> {
    let mut reader = Dripping {
        text: TWO_LINES,
        most: 4096,
    };
    let input = Through::new(alloc, &mut reader, size.max(1))?;
    let mut maps = MapReader::with_bound(alloc, input, asks.min(1 << 48));
    let mut record = Record {
        key: Vec::new(alloc),
        value: Vec::new(alloc),
    };
    for count in 0..10 {
        match maps.read_buffered::<InThrough>(&mut record) {
            Ok(true) => {}
            Ok(false) => return Ok((count, true)),
            Err(_) => return Ok((count, false)),
        }
    }
    Ok((10, false))
}

#[test]
fn each_byte_of_a_line_at_hand_counts_as_an_ask(rt: HostRuntime) -> Result<(), Fail> {
    for &(asks, count, ended) in &ASKS {
        for size in SIZES {
            let (given, at_end) = given_for(rt.alloc(), asks, size)?;
            assert!(rt;
                given == count && at_end == ended,
                "{asks} asks through a window of {size}"
            );
        }
    }
    Ok(())
}
