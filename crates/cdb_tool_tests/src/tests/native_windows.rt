// Native and amending texts through windows of all sizes, over readers that give a byte, two, or
// all: each is read as byte by byte, with the same fault, and as far.
use super::through::{InThrough, Through};
use super::windows::{Dripping, MOST, ROOM, SIZES, WIDE, joined, show, show_filled};
use cdb_form::{
    AmendReader, AtHand, FormReader, ItemKind, Narrow, NoneAtHand, Record, TextFault, TextReader,
    Wide, Width,
};
use std::alloc::{AllocError, Global};
use std::io::{self, Read};
use std::prelude::*;
use std::test::Fail;

/// Texts of both forms, with what follows some, and texts with each fault at each part.
const TEXTS: [&[u8]; 49] = [
    b"+3,5:one->Hello\n+3,7:two->Goodbye\n\n",
    b"+3,5:one->Hello\n+3,7:two->Goodbye\n\n-",
    b"+3,5:one->Hello\n-3:one\n-0:\n+0,0:->\n-003:two\n\n",
    b"\n",
    b"\n\n",
    b"+0,0:->\n\n",
    b"+003,05:one->Hello\n\nrest",
    b"+0000000000000000000000003,5:one->Hello\n\nrest",
    b"+3,5:-> ->Hello\n\n+3,5:one->Hello\n",
    b"+1,3:\n->\n\n\n\n\n",
    b"+24,30:a key of 24 bytes or so.->a value of more than 16 bytes.\n\n+",
    b"-3:one\n\n",
    b"-3:-\n+\n\n",
    b"",
    b"*",
    b"+",
    b"+,5:",
    b"+3",
    b"+3:",
    b"+3,",
    b"+3,:",
    b"+3,5",
    b"+3,5,",
    b"+3,5:",
    b"+3,5:on",
    b"+3,5:one",
    b"+3,5:one-",
    b"+3,5:one=>Hello",
    b"+3,5:one-=Hello\n\n",
    b"+3,5:one->",
    b"+3,5:one->Hell",
    b"+3,5:one->Hello",
    b"+3,5:one->Hello!",
    b"+3,5:one->Hello!\n\n",
    b"+3,4:one->Hello\n\n",
    b"+2,5:one->Hello\n\n",
    b"+3,5:one->Hello\n",
    b"+1,1:a->1\n-1:a\n\n",
    b"+4294967296,0:",
    b"+4294967295,0:",
    b"+0,4294967296:",
    b"+9223372036854775807,0:",
    b"+9223372036854775808,0:",
    b"-9223372036854775808:",
    b"-3:onex",
    b"-3,",
    b"-:",
    b"-1:a\n*",
    b"-1:a\n-1:a\n",
];

/// Items before a text and behind it: with so many bytes after them, those before it and in it may
/// fill a buffer.
const BESIDE: (&[u8], &[u8]) = (
    b"+3,5:one->Hello\n+12,72:a longer key->a value of seventy-two bytes, more than the piece that is copied at once\n+00003,05:two->Hello\n",
    b"+1,1:a->b\n+1,1:a->c\n+1,1:a->d\n+1,1:a->e\n+1,1:a->f\n+1,1:a->g\n+1,1:a->h\n+1,1:a->i\n\n",
);

/// An input that a reader of a text or of a file is lent, so that what it left can be seen.
#[derive(Drop)]
pub(super) struct Lent<'a, 'b> {
    pub(super) input: &'a mut Through<Dripping<'b>>,
}

impl Read for Lent<'_, '_> {
    fn read(&mut self, buf: &mut [u8]) -> io::Result<usize> {
        self.input.read(buf)
    }
}

/// The bytes of its window are at hand.
pub(super) struct InLent;

impl AtHand<Lent<'_, '_>> for InLent {
    ghost use Rattle.cdb_show.specs.Views.Window.{held_in};

    ghost held = { λ lent. held_in lent.input.now.window };

    fn window<'r>(lent: &'r Lent<'_, '_>) -> &'r [u8] {
        InThrough::window(&*lent.input)
    }

    fn take(lent: &mut Lent<'_, '_>, n: usize) {
        InThrough::take(&mut *lent.input, n);
    }
}

/// How a text is read.
#[derive(Clone, Copy, Debug)]
enum Form {
    Native,
    WideNative,
    Amending,
}

const FORMS: [Form; 3] = [Form::Native, Form::WideNative, Form::Amending];

/// What was read of a text: its items, shown, its fault, and what was left.
#[derive(Drop)]
struct Outcome {
    shown: Vec<u8>,
    fault: Option<TextFault>,
    rest: Vec<u8>,
}

fn is_same(one: &Outcome, other: &Outcome) -> bool {
    one.shown.as_slice() == other.shown.as_slice()
        && one.fault == other.fault
        && one.rest.as_slice() == other.rest.as_slice()
}

/// Puts a record as `<key|value>` after others, or a removal as `[key]`.
fn show_item(kind: ItemKind, record: &Record, shown: &mut Vec<u8>) -> Result<(), AllocError> {
    match kind {
        ItemKind::Put => show(&record.key, &record.value, shown),
        ItemKind::Remove => {
            shown.push(b'[')?;
            shown.extend_from_slice(&record.key)?;
            shown.push(b']')?;
            Ok(())
        }
    }
}

/// An empty record.
fn no_record(alloc: Global) -> Record {
    Record {
        key: Vec::new(alloc),
        value: Vec::new(alloc),
    }
}

/// Shows the next record of a native text, and answers whether there is one.
fn show_native<L: Width, R: Read>(
    texts: &mut TextReader<R, L>,
    record: &mut Record,
    shown: &mut Vec<u8>,
) -> Result<bool, TextFault> {
    let given = texts.read_into(record)?;
    if given {
        show_item(ItemKind::Put, record, shown)?;
    }
    Ok(given)
}

/// Shows the next item of an amending text likewise.
fn show_amending<R: Read>(
    changes: &mut AmendReader<R, Narrow>,
    record: &mut Record,
    shown: &mut Vec<u8>,
) -> Result<bool, TextFault> {
    let Some(kind) = changes.read_into(record)? else {
        return Ok(false);
    };
    show_item(kind, record, shown)?;
    Ok(true)
}

/// Shows the records that fill a buffer, and answers whether there are any.
fn show_filling<L: Width, R: Read, A: AtHand<R>>(
    items: &mut FormReader<R, L>,
    buffer: &mut [u8],
    shown: &mut Vec<u8>,
) -> Result<bool, AllocError> {
    let filled = items.fill::<A>(buffer, 0);
    show_filled::<L>(filled, buffer, shown)?;
    Ok(0 < filled.count)
}

/// Shows the next items of a text of either form: those that fill a buffer, or else the next one.
fn show_either<L: Width, R: Read, A: AtHand<R>>(
    items: &mut FormReader<R, L>,
    removals: bool,
    record: &mut Record,
    buffer: &mut [u8],
    shown: &mut Vec<u8>,
) -> Result<bool, TextFault> {
    if show_filling::<L, R, A>(items, buffer, shown)? {
        return Ok(true);
    }
    let Some(kind) = items.read_into(record, removals)? else {
        return Ok(false);
    };
    show_item(kind, record, shown)?;
    Ok(true)
}

/// The records of a native text, shown, and the fault after them.
fn read_native<L: Width, R: Read + Drop>(
    alloc: Global,
    reader: R,
    shown: &mut Vec<u8>,
) -> Result<Option<TextFault>, AllocError> {
    let mut texts: TextReader<R, L> = TextReader::new(alloc, reader);
    let mut record = no_record(alloc);
    for _ in 0..100 {
        match show_native::<L, R>(&mut texts, &mut record, shown) {
            Ok(true) => {}
            Ok(false) => return Ok(None),
            Err(fault) => return Ok(Some(fault)),
        }
    }
    Ok(None)
}

/// The items of an amending text, shown, and the fault after them.
fn read_amending<R: Read + Drop>(
    alloc: Global,
    reader: R,
    shown: &mut Vec<u8>,
) -> Result<Option<TextFault>, AllocError> {
    let mut changes: AmendReader<R, Narrow> = AmendReader::new(alloc, reader);
    let mut record = no_record(alloc);
    for _ in 0..100 {
        match show_amending::<R>(&mut changes, &mut record, shown) {
            Ok(true) => {}
            Ok(false) => return Ok(None),
            Err(fault) => return Ok(Some(fault)),
        }
    }
    Ok(None)
}

/// The items of a text of either form, shown, and the fault after them. Its records fill a buffer.
fn read_filled<L: Width, R: Read + Drop, A: AtHand<R>>(
    alloc: Global,
    reader: R,
    removals: bool,
    shown: &mut Vec<u8>,
) -> Result<Option<TextFault>, AllocError> {
    let mut items: FormReader<R, L> = FormReader::new(reader, 1 << 48);
    let mut record = no_record(alloc);
    let mut buffer = [0u8; ROOM];
    for _ in 0..100 {
        match show_either::<L, R, A>(&mut items, removals, &mut record, &mut buffer, shown) {
            Ok(true) => {}
            Ok(false) => return Ok(None),
            Err(fault) => return Ok(Some(fault)),
        }
    }
    Ok(None)
}

/// The fault of a text, whose items are shown.
fn read_form<R: Read + Drop, A: AtHand<R>>(
    alloc: Global,
    form: Form,
    fills: bool,
    reader: R,
    shown: &mut Vec<u8>,
) -> Result<Option<TextFault>, AllocError> {
    match (form, fills) {
        (Form::Native, false) => read_native::<Narrow, R>(alloc, reader, shown),
        (Form::WideNative, false) => read_native::<Wide, R>(alloc, reader, shown),
        (Form::Amending, false) => read_amending::<R>(alloc, reader, shown),
        (Form::Native, true) => read_filled::<Narrow, R, A>(alloc, reader, false, shown),
        (Form::WideNative, true) => read_filled::<Wide, R, A>(alloc, reader, false, shown),
        (Form::Amending, true) => read_filled::<Narrow, R, A>(alloc, reader, true, shown),
    }
}

/// What is left of an input.
pub(super) fn rest_of(alloc: Global, input: &mut Through<Dripping<'_>>) -> Result<Vec<u8>, Fail> {
    let mut rest = Vec::new(alloc);
    let mut piece = [0u8; 16];
    for _ in 0..1000 {
        let n = input.read(&mut piece)?;
        if n == 0 {
            break;
        }
        rest.extend_from_slice(&piece[..n])?;
    }
    Ok(rest)
}

/// A text that comes through a window.
fn by_window(
    alloc: Global,
    form: Form,
    fills: bool,
    text: &[u8],
    size: usize,
    most: usize,
) -> Result<Outcome, Fail> {
    let mut input = Through::new(alloc, Dripping { text, most }, size.max(1))?;
    let mut shown = Vec::new(alloc);
    let lent = Lent { input: &mut input };
    let fault = read_form::<Lent<'_, '_>, InLent>(alloc, form, fills, lent, &mut shown)?;
    let rest = rest_of(alloc, &mut input)?;
    Ok(Outcome { shown, fault, rest })
}

/// The same text, read byte by byte.
fn by_byte(alloc: Global, form: Form, text: &[u8]) -> Result<Outcome, Fail> {
    let mut reader = Dripping { text, most: 1 };
    let mut shown = Vec::new(alloc);
    let fault = read_form::<&mut Dripping<'_>, NoneAtHand>(
        alloc,
        form,
        false,
        &mut reader,
        &mut shown,
    )?;
    let mut rest = Vec::new(alloc);
    rest.extend_from_slice(reader.text)?;
    Ok(Outcome { shown, fault, rest })
}

/// Returns true if a text is read in the same way through each window.
fn is_read_the_same(alloc: Global, form: Form, text: &[u8]) -> Result<bool, Fail> {
    let wanted = by_byte(alloc, form, text)?;
    let mut same = true;
    for size in SIZES {
        for most in MOST {
            for fills in [false, true] {
                let given = by_window(alloc, form, fills, text, size, most)?;
                same = same && is_same(&given, &wanted);
            }
        }
    }
    Ok(same)
}

#[test]
fn texts_through_windows(rt: HostRuntime) -> Result<(), Fail> {
    for &text in &TEXTS {
        for form in FORMS {
            let same = is_read_the_same(rt.alloc(), form, text)?;
            assert!(rt; same, "{text:?} {form:?}");
        }
    }
    Ok(())
}

/// Returns true if a text is read in the same way where its records fill buffers.
fn is_filled_the_same(alloc: Global, form: Form, text: &[u8]) -> Result<bool, Fail> {
    let wanted = by_byte(alloc, form, text)?;
    let mut same = true;
    for size in WIDE {
        let given = by_window(alloc, form, true, text, size, 4096)?;
        same = same && is_same(&given, &wanted);
    }
    Ok(same)
}

#[test]
fn texts_beside_others_fill_buffers(rt: HostRuntime) -> Result<(), Fail> {
    let (before, behind) = BESIDE;
    for &text in &TEXTS {
        let whole = joined(rt.alloc(), [before, text, behind])?;
        for form in FORMS {
            let same = is_filled_the_same(rt.alloc(), form, &whole)?;
            assert!(rt; same, "{text:?} {form:?}");
        }
    }
    Ok(())
}

/// A text with what follows it, what that is, and the items of the text.
const LEFT: [(&[u8], &[u8], &[u8]); 2] = [
    (
        b"+3,5:one->Hello\n+3,7:two->Goodbye\n\n+1,1:a->b\n",
        b"+1,1:a->b\n",
        b"<one|Hello><two|Goodbye>",
    ),
    (
        b"+3,5:one->Hello\n+3,7:two->Goodbye\n\n+1,70:a->a value of seventy bytes, so that the two records before it are filled\n",
        b"+1,70:a->a value of seventy bytes, so that the two records before it are filled\n",
        b"<one|Hello><two|Goodbye>",
    ),
];

#[test]
fn what_follows_a_text_stays_in_the_window(rt: HostRuntime) -> Result<(), Fail> {
    for &(text, rest, shown) in &LEFT {
        for size in SIZES {
            for fills in [false, true] {
                let given = by_window(rt.alloc(), Form::Native, fills, text, size, 4096)?;
                let left = given.rest.as_slice() == rest && given.fault.is_none();
                assert!(rt; left && given.shown.as_slice() == shown, "{size}, {fills}");
            }
        }
    }
    Ok(())
}

#[test]
fn records_at_hand_fill_a_buffer(rt: HostRuntime) -> Result<(), Fail> {
    let (before, behind) = BESIDE;
    let text = joined(rt.alloc(), [b"-0:\n+1,1:a->b\n", before, behind])?;
    let mut input = Through::new(
        rt.alloc(),
        Dripping {
            text: &text,
            most: 4096,
        },
        4096,
    )?;
    let mut items: FormReader<Lent<'_, '_>, Narrow> = FormReader::new(
        Lent { input: &mut input },
        1 << 48,
    );
    let mut record = no_record(rt.alloc());
    assert!(rt; items.read_into(&mut record, true)? == Some(ItemKind::Remove));
    let mut shown = Vec::new(rt.alloc());
    assert!(rt;
        show_filling::<Narrow, Lent<'_, '_>, InLent>(&mut items, &mut [0u8; ROOM], &mut shown)?
    );
    assert!(rt; shown.as_slice() == b"<a|b><one|Hello>".as_slice());
    Ok(())
}
