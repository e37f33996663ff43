// Files through windows of all sizes, over readers that give a byte, two, or all: the records, the
// fault, and how far is read.
use super::fakes::FakeReader;
use super::native_windows::{InLent, Lent, rest_of};
use super::through::{InThrough, Through};
use super::windows::{Dripping, MOST};
use super::worked::{File, TWO_TEXT};
use cdb_form::{AtHand, Narrow, NoneAtHand, Record, RecordReader, WalkFault, Wide, Width};
use cdb_tool::{Content, Fault, Style, text_run};
use std::alloc::{AllocError, Global};
use std::io::Read;
use std::prelude::*;
use std::test::Fail;

/// The sizes of the windows: small ones, and those that end at a record's end or beside it.
const SIZES: [usize; 10] = [1, 2, 3, 7, 16, 2064, 2082, 4096, 4120, 4146];

/// What a walk of a file comes to: its records and its keys, shown, its fault, and the place after
/// what was read.
#[derive(Clone, Copy)]
struct Wanted {
    records: &'static [u8],
    keys: &'static [u8],
    fault: Option<WalkFault>,
    end: usize,
}

/// A file with other bytes from a place on, and what its walk comes to.
struct Row {
    file: File,
    wide: bool,
    place: usize,
    new: &'static [u8],
    wanted: Wanted,
}

const ROWS: [Row; 16] = [
    Row {
        file: File::Two,
        wide: false,
        place: 0,
        new: b"",
        wanted: Wanted {
            records: b"<one|Hello><two|Goodbye>",
            keys: b"<one|kept><two|kept>",
            fault: None,
            end: 2082,
        },
    },
    Row {
        file: File::None,
        wide: false,
        place: 0,
        new: b"",
        wanted: Wanted {
            records: b"",
            keys: b"",
            fault: None,
            end: 2048,
        },
    },
    Row {
        file: File::EmptyRecord,
        wide: false,
        place: 0,
        new: b"",
        wanted: Wanted {
            records: b"<|>",
            keys: b"<|kept>",
            fault: None,
            end: 2056,
        },
    },
    Row {
        file: File::FourValues,
        wide: false,
        place: 0,
        new: b"",
        wanted: Wanted {
            records: b"<a|1><a|2><a|3><a|4>",
            keys: b"<a|kept><a|kept><a|kept><a|kept>",
            fault: None,
            end: 2088,
        },
    },
    // an empty key, and an empty value
    Row {
        file: File::Two,
        wide: false,
        place: 2048,
        new: b"\0\0\0\0\x08\0\0\0oneHello\x0a\0\0\0\0\0\0\0",
        wanted: Wanted {
            records: b"<|oneHello><twoGoodbye|>",
            keys: b"<|kept><twoGoodbye|kept>",
            fault: None,
            end: 2082,
        },
    },
    // a record that ends at the record end, and those that end one byte after it
    Row {
        file: File::Two,
        wide: false,
        place: 2048,
        new: b"\x15\0\0\0\x05\0\0\0",
        wanted: Wanted {
            records: b"<oneHello\x03\0\0\0\x07\0\0\0twoGo|odbye>",
            keys: b"<oneHello\x03\0\0\0\x07\0\0\0twoGo|kept>",
            fault: None,
            end: 2082,
        },
    },
    Row {
        file: File::Two,
        wide: false,
        place: 2048,
        new: b"\x16\0\0\0\x05\0\0\0",
        wanted: Wanted {
            records: b"",
            keys: b"",
            fault: Some(WalkFault::Record(2048)),
            end: 2056,
        },
    },
    Row {
        file: File::Two,
        wide: false,
        place: 2068,
        new: b"\x08",
        wanted: Wanted {
            records: b"<one|Hello>",
            keys: b"<one|kept>",
            fault: Some(WalkFault::Record(2064)),
            end: 2072,
        },
    },
    // a header of all ones, and lengths whose sum is no word
    Row {
        file: File::Two,
        wide: false,
        place: 2064,
        new: b"\xff\xff\xff\xff\xff\xff\xff\xff",
        wanted: Wanted {
            records: b"<one|Hello>",
            keys: b"<one|kept>",
            fault: Some(WalkFault::Record(2064)),
            end: 2072,
        },
    },
    Row {
        file: File::Two,
        wide: false,
        place: 2048,
        new: b"\x03\0\0\0\xff\xff\xff\xff",
        wanted: Wanted {
            records: b"",
            keys: b"",
            fault: Some(WalkFault::Record(2048)),
            end: 2056,
        },
    },
    // a table within the head
    Row {
        file: File::Two,
        wide: false,
        place: 0,
        new: b"\x64\0\0\0\x01\0\0\0",
        wanted: Wanted {
            records: b"",
            keys: b"",
            fault: Some(WalkFault::Table(0)),
            end: 2048,
        },
    },
    // a place for a record and no room for its header
    Row {
        file: File::Two,
        wide: false,
        place: 0,
        new: b"\x17\x08\0\0\x01\0\0\0",
        wanted: Wanted {
            records: b"<one|Hello>",
            keys: b"<one|kept>",
            fault: Some(WalkFault::Record(2064)),
            end: 2064,
        },
    },
    Row {
        file: File::WideTwo,
        wide: true,
        place: 0,
        new: b"",
        wanted: Wanted {
            records: b"<one|Hello><two|Goodbye>",
            keys: b"<one|kept><two|kept>",
            fault: None,
            end: 4146,
        },
    },
    Row {
        file: File::WideTwo,
        wide: true,
        place: 4120,
        new: b"\xff\xff\xff\xff\xff\xff\xff\xff\xff\xff\xff\xff\xff\xff\xff\xff",
        wanted: Wanted {
            records: b"<one|Hello>",
            keys: b"<one|kept>",
            fault: Some(WalkFault::Record(4120)),
            end: 4136,
        },
    },
    Row {
        file: File::WideTwo,
        wide: true,
        place: 4096,
        new: b"\x03\0\0\0\0\0\0\0\xff\xff\xff\xff\xff\xff\xff\xff",
        wanted: Wanted {
            records: b"",
            keys: b"",
            fault: Some(WalkFault::Record(4096)),
            end: 4112,
        },
    },
    Row {
        file: File::WideTwo,
        wide: true,
        place: 4104,
        new: b"\x20",
        wanted: Wanted {
            records: b"",
            keys: b"",
            fault: Some(WalkFault::Record(4096)),
            end: 4112,
        },
    },
];

/// Puts a record as `<key|value>` after others.
fn show(key: &[u8], value: &[u8], shown: &mut Vec<u8>) -> Result<(), AllocError> {
    let parts: [&[u8]; 5] = [b"<", key, b"|", value, b">"];
    for part in parts {
        shown.extend_from_slice(part)?;
    }
    Ok(())
}

/// What is kept of a record.
#[derive(Clone, Copy, Debug)]
enum Keeping {
    Both,
    Key,
    /// Both, which are not copied if the reader shows where they lie.
    Shown,
}

/// The next record of a reader, or its key over the one of a record.
fn read_kept<L: Width, R: Read>(
    records: &mut RecordReader<R, L>,
    keeping: Keeping,
    record: &mut Record,
) -> Result<bool, WalkFault> {
    match keeping {
        Keeping::Both | Keeping::Shown => records.read_into(record),
        Keeping::Key => records.read_key(record),
    }
}

/// Shows the next record of a reader, and answers whether there is one.
fn show_next<L: Width, R: Read, A: AtHand<R>>(
    records: &mut RecordReader<R, L>,
    keeping: Keeping,
    record: &mut Record,
    shown: &mut Vec<u8>,
) -> Result<bool, WalkFault> {
    if let Keeping::Shown = keeping
        && let Some(peeked) = records.peek::<A>()
    {
        let len = peeked.len;
        show(peeked.key, peeked.value, shown)?;
        records.take_peeked::<A>(len);
        return Ok(true);
    }
    let given = read_kept(records, keeping, record)?;
    if given {
        show(&record.key, &record.value, shown)?;
    }
    Ok(given)
}

/// The fault of a file, whose records are shown. If keys alone are kept, the value stays.
fn walk<L: Width, R: Read + Drop, A: AtHand<R>>(
    alloc: Global,
    reader: R,
    keeping: Keeping,
    shown: &mut Vec<u8>,
) -> Result<Option<WalkFault>, AllocError> {
    let mut records: RecordReader<R, L> = RecordReader::new(alloc, reader);
    let mut record = Record {
        key: Vec::new(alloc),
        value: b"kept".to_vec(alloc)?,
    };
    for _ in 0..100 {
        match show_next::<L, R, A>(&mut records, keeping, &mut record, shown) {
            Ok(true) => {}
            Ok(false) => return Ok(None),
            Err(fault) => return Ok(Some(fault)),
        }
    }
    Ok(None)
}

/// A file in words of one of the widths.
#[derive(Clone, Copy)]
struct Bytes<'a> {
    wide: bool,
    bytes: &'a [u8],
}

/// The fault of a file that is read in its width, and whose records are shown.
fn walk_wide<R: Read + Drop, A: AtHand<R>>(
    alloc: Global,
    wide: bool,
    reader: R,
    keeping: Keeping,
    shown: &mut Vec<u8>,
) -> Result<Option<WalkFault>, AllocError> {
    if wide {
        walk::<Wide, R, A>(alloc, reader, keeping, shown)
    } else {
        walk::<Narrow, R, A>(alloc, reader, keeping, shown)
    }
}

/// What is wanted to be shown.
fn shown_of(wanted: &Wanted, keeping: Keeping) -> &'static [u8] {
    match keeping {
        Keeping::Both | Keeping::Shown => wanted.records,
        Keeping::Key => wanted.keys,
    }
}

/// Returns true if a file that comes through a window gives what is wanted.
fn is_walked(
    alloc: Global,
    file: Bytes<'_>,
    wanted: &Wanted,
    keeping: Keeping,
    (size, most): (usize, usize),
) -> Result<bool, Fail> {
    let drops = Dripping {
        text: file.bytes,
        most,
    };
    let mut input = Through::new(alloc, drops, size.max(1))?;
    let mut shown = Vec::new(alloc);
    let lent = Lent { input: &mut input };
    let fault = walk_wide::<_, InLent>(alloc, file.wide, lent, keeping, &mut shown)?;
    let rest = rest_of(alloc, &mut input)?;
    let left = file.bytes.get(wanted.end..) == Some(rest.as_slice());
    Ok(left && fault == wanted.fault && shown.as_slice() == shown_of(wanted, keeping))
}

/// Returns true if a file gives what is wanted with no window.
fn is_walked_plainly(
    alloc: Global,
    file: Bytes<'_>,
    wanted: &Wanted,
    keeping: Keeping,
) -> Result<bool, AllocError> {
    let mut rest = file.bytes;
    let mut shown = Vec::new(alloc);
    let fault = walk_wide::<&mut &[u8], NoneAtHand>(
        alloc, file.wide, &mut rest, keeping, &mut shown,
    )?;
    let left = file.bytes.get(wanted.end..) == Some(rest);
    Ok(left && fault == wanted.fault && shown.as_slice() == shown_of(wanted, keeping))
}

/// Returns true if a file gives what is wanted, with no window and through windows of these sizes,
/// over readers that give so many bytes at once.
fn is_walked_by_all(
    alloc: Global,
    file: Bytes<'_>,
    wanted: &Wanted,
    sizes: &[usize],
    mosts: &[usize],
) -> Result<bool, Fail> {
    let mut is_same = true;
    for keeping in [Keeping::Both, Keeping::Key, Keeping::Shown] {
        is_same = is_same && is_walked_plainly(alloc, file, wanted, keeping)?;
        for size in sizes {
            for most in mosts {
                is_same = is_same && is_walked(alloc, file, wanted, keeping, (*size, *most))?;
            }
        }
    }
    Ok(is_same)
}

/// Returns true if the file of a row gives what is wanted.
fn is_row(alloc: Global, row: &Row) -> Result<bool, Fail> {
    let file = row.file.changed(alloc, row.place, row.new)?;
    let bytes = Bytes {
        wide: row.wide,
        bytes: &file,
    };
    is_walked_by_all(alloc, bytes, &row.wanted, &SIZES, &MOST)
}

#[test]
fn files_through_windows(rt: HostRuntime) -> Result<(), Fail> {
    for row in &ROWS {
        let same = is_row(rt.alloc(), row)?;
        assert!(rt; same, "{:?} with {:?} at {}", row.file, row.new, row.place);
    }
    Ok(())
}

/// What the first bytes of the file of two records come to.
fn wanted_of_cut(cut: usize) -> Wanted {
    let (records, keys, fault): (&'static [u8], &'static [u8], _) = match cut {
        0..2048 => (b"", b"", Some(WalkFault::Short)),
        2048..2064 => (b"", b"", Some(WalkFault::Record(2048))),
        2064..2082 => (b"<one|Hello>", b"<one|kept>", Some(WalkFault::Record(2064))),
        _ => (b"<one|Hello><two|Goodbye>", b"<one|kept><two|kept>", None),
    };
    Wanted {
        records,
        keys,
        fault,
        end: cut.min(2082),
    }
}

#[test]
fn cut_files_through_windows(rt: HostRuntime) -> Result<(), Fail> {
    let file = File::Two.bytes(rt.alloc())?;
    for cut in 2040..file.len() + 1 {
        let bytes = Bytes {
            wide: false,
            bytes: &file[..cut],
        };
        let same = is_walked_by_all(
            rt.alloc(),
            bytes,
            &wanted_of_cut(cut),
            &[7, 2064, 4096],
            &[4096],
        )?;
        assert!(rt; same, "cut at {cut}");
    }
    Ok(())
}

/// Some bytes of a file through a window, after which the reader fails.
fn failing(alloc: Global, piece: &[u8]) -> Result<Through<FakeReader<'_>>, AllocError> {
    let reader = FakeReader {
        interrupts: 3,
        text: piece,
        fails: true,
    };
    Through::new(alloc, reader, 2064)
}

/// The answer of a dump of some bytes of a file, and whether this text was written.
fn dump(alloc: Global, piece: &[u8], text: &[u8]) -> Result<(Result<(), Fault>, bool), AllocError> {
    let mut out = Vec::new(alloc);
    let input = failing(alloc, piece)?;
    let (_, answer) = text_run::<Narrow, _, _, InThrough>(
        alloc,
        Content::Records,
        input,
        Style::Native,
        &mut out,
    );
    Ok((answer, out.as_slice() == text))
}

/// The same of a list of its keys.
fn list(alloc: Global, piece: &[u8], text: &[u8]) -> Result<(Result<(), Fault>, bool), AllocError> {
    let mut out = Vec::new(alloc);
    let input = failing(alloc, piece)?;
    let (_, answer) = text_run::<Narrow, _, _, InThrough>(
        alloc,
        Content::Keys,
        input,
        Style::Map,
        &mut out,
    );
    Ok((answer, out.as_slice() == text))
}

/// Returns true if the file of two records, cut and then failing, has this dump and this list
/// through a window.
fn is_written(
    alloc: Global,
    cut: usize,
    want: Result<(), Fault>,
    dumped: &[u8],
    listed: &[u8],
) -> Result<bool, AllocError> {
    let file = File::Two.bytes(alloc)?;
    let piece = file.get(..cut).unwrap_or(&[]);
    let (dump_answer, is_dumped) = dump(alloc, piece, dumped)?;
    let (list_answer, is_listed) = list(alloc, piece, listed)?;
    Ok(is_dumped && is_listed && dump_answer == want && list_answer == want)
}

#[test]
fn dumps_and_lists_through_a_window(rt: HostRuntime) -> Result<(), Fail> {
    let failed = Err(Fault::Walk(WalkFault::Input));
    assert!(rt; is_written(rt.alloc(), 2082, Ok(()), TWO_TEXT, b"one\ntwo\n")?);
    for cut in 2064..2082 {
        let is_prefix = is_written(rt.alloc(), cut, failed, b"+3,5:one->Hello\n", b"one\n")?;
        assert!(rt; is_prefix, "failure at {cut}");
    }
    Ok(())
}
