// Values that are read in pieces, and the faults amid them.
ghost use Rattle.std.specs.Prelude.{◌<◌, ◌≤◌, IfOk, MatchOption};
ghost use Rattle.cdb_form.specs.Text.Parse.{SpellsChange};
ghost use Rattle.cdb_form.specs.Views.FormReader.{GivesEnd, GivesItem};
ghost use Rattle.cdb_form.specs.Views.Pairs.{change_in};

use super::changes::show;
use super::fakes::{Behind, FakeReader};
use cdb_form::{Feeds, FormReader, ItemKind, Narrow, Next, Record, TextFault, Width};
use std::alloc::{AllocError, Global};
use std::prelude::*;
use std::test::Fail;

/// Reads the next item over a record, a value of more than `most` bytes in pieces of at most
/// `piece` bytes, and returns its kind and the number of pieces. It is proved to give what
/// `read_into` gives.
fn next_in_pieces<F: Feeds, L: Width>(
    text: &mut FormReader<F, L>,
    into: &mut Record,
    removals: bool,
    most: u64,
    piece: usize,
) -> Result<Option<(ItemKind, usize)>, TextFault>
    requires some { 0 < piece }
    requires piece { piece ≤ 8192 }
    ensures { IfOk result (λ found. MatchOption found
        (GivesEnd F.feed text.old text.new)
        (λ p. GivesItem SpellsChange L.GREATEST F.feed text.old text.new
        (change_in p.0 into.new))) }
{
    let vlen = match text.read_up_to(into, removals, most)? {
        None => return Ok(None),
        Some(Next::Item(kind)) => return Ok(Some((kind, 0))),
        Some(Next::Value(vlen)) => vlen,
    };
    into.value.clear();
    let mut buffer = [0; 8192];
    let mut left = vlen;
    let mut pieces = 0usize;
    while left > 0 {
        let n = text.read_value(&mut buffer[..piece], left)?;
        into.value.extend_from_slice(&buffer[..n])?;
        left -= n as u64;
        pieces = pieces.saturating_add(1);
    }
    text.end_value()?;
    Ok(Some((ItemKind::Put, pieces)))
}

/// How a text is read.
#[derive(Clone, Copy)]
struct Pieces {
    /// More than so many bytes of a value are read in pieces.
    most: u64,
    /// The most bytes of a piece.
    piece: usize,
    /// The most bytes that the reader gives at once.
    step: usize,
}

/// Returns the items, shown, the number of pieces, and the fault after the items, if two more calls
/// answer the same.
fn read_all(
    alloc: Global,
    reader: FakeReader<'_>,
    removals: bool,
    pieces: Pieces,
) -> Result<Option<(Vec<u8>, usize, Option<TextFault>)>, AllocError> {
    let mut reader = reader;
    reader.most = pieces.step;
    let mut text: FormReader<FakeReader<'_>, Narrow> = FormReader::new(reader, 1 << 48);
    let mut record = Record::empty(alloc);
    let mut shown = Vec::new(alloc);
    let mut count = 0usize;
    let piece = pieces.piece.max(1).min(8192);
    for _ in 0..9 {
        let answer = next_in_pieces(&mut text, &mut record, removals, pieces.most, piece);
        let fault = match answer {
            Ok(Some((kind, more))) => {
                show(kind, &record, &mut shown)?;
                count = count.saturating_add(more);
                continue;
            }
            Ok(None) => None,
            Err(fault) => Some(fault),
        };
        for _ in 0..2 {
            if next_in_pieces(&mut text, &mut record, removals, pieces.most, piece) != answer {
                return Ok(None);
            }
        }
        return Ok(Some((shown, count, fault)));
    }
    Ok(None)
}

/// These bytes, 5000 more, newlines among them, and those.
fn with_value(alloc: Global, front: &[u8], behind: &[u8]) -> Result<Vec<u8>, AllocError> {
    let mut text = front.to_vec(alloc)?;
    for n in 0..5000u64 {
        text.push((n % 251) as u8)?;
    }
    text.extend_from_slice(behind)?;
    Ok(text)
}

/// Whether a text of a value of 5000 bytes is read as these items, in so many pieces.
fn reads_value(
    alloc: Global,
    parts: [&[u8]; 4],
    removals: bool,
    pieces: Pieces,
    count: usize,
) -> Result<bool, AllocError> {
    let text = with_value(alloc, parts[0], parts[1])?;
    let wanted = with_value(alloc, parts[2], parts[3])?;
    let reader = FakeReader::new(&text, Behind::Failure);
    Ok(match read_all(alloc, reader, removals, pieces)? {
        Some((shown, found, None)) => shown.as_slice() == wanted.as_slice() && found == count,
        _ => false,
    })
}

/// A native text and an amending one before and after the value, and its items so.
const TEXTS: [(bool, [&[u8]; 4]); 2] = [
    (
        false,
        [
            b"+1,1:a->b\n+3,5000:key->",
            b"\n+0,0:->\n\n",
            b"<a|b><key|",
            b"><|>",
        ],
    ),
    (
        true,
        [
            b"-1:a\n+3,5000:key->",
            b"\n-3:key\n\n",
            b"[a]<key|",
            b">[key]",
        ],
    ),
];

/// The most bytes of a piece, the most that the reader gives, and the number of pieces.
const COUNTS: [(usize, usize, usize); 7] = [
    (1, usize::MAX, 5000),
    (7, usize::MAX, 715),
    (4096, usize::MAX, 2),
    (8192, usize::MAX, 1),
    (1, 1, 5000),
    (7, 1, 5000),
    (4096, 1, 5000),
];

#[test]
fn values_in_pieces_are_those_of_the_text(rt: HostRuntime) -> Result<(), Fail> {
    for &(removals, parts) in &TEXTS {
        for &(piece, step, count) in &COUNTS {
            for (most, count) in [(4999, count), (5000, 0), (5001, 0)] {
                let pieces = Pieces { most, piece, step };
                let is = reads_value(rt.alloc(), parts, removals, pieces, count)?;
                assert!(rt; is, "more than {most} in pieces of {piece}, {step} at once");
            }
        }
    }
    Ok(())
}

/// Texts that stop at a value of six bytes, what their reader does after them, and their faults.
const STOPS: [(&[u8], Behind, TextFault); 7] = [
    (b"+1,6:k->abcdefx\n\n", Behind::End, TextFault::Syntax(14)),
    (b"+1,6:k->abcdef", Behind::End, TextFault::Ended(14)),
    (b"+1,6:k->abc", Behind::End, TextFault::Ended(11)),
    (b"+1,6:k->", Behind::End, TextFault::Ended(8)),
    (b"+1,6:k->abcdef", Behind::Failure, TextFault::Input),
    (b"+1,6:k->abc", Behind::Failure, TextFault::Input),
    (b"+1,6:k->", Behind::Failure, TextFault::Input),
];

/// Whether a text is refused with this fault, which every later call answers.
fn is_refused(
    alloc: Global,
    reader: FakeReader<'_>,
    removals: bool,
    pieces: Pieces,
    fault: TextFault,
) -> Result<bool, AllocError> {
    Ok(match read_all(alloc, reader, removals, pieces)? {
        Some((shown, _, found)) => shown.is_empty() && found == Some(fault),
        None => false,
    })
}

#[test]
fn faults_amid_a_value_are_those_of_the_text(rt: HostRuntime) -> Result<(), Fail> {
    for &(text, behind, fault) in &STOPS {
        for &(piece, step, _) in &COUNTS {
            for (removals, most) in [(false, 5), (true, 5), (false, 6), (true, 6)] {
                let reader = FakeReader::new(text, behind);
                let pieces = Pieces { most, piece, step };
                let is = is_refused(rt.alloc(), reader, removals, pieces, fault)?;
                assert!(rt; is, "{text:?}, more than {most} in pieces of {piece}");
            }
        }
    }
    Ok(())
}
