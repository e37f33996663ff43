// The record of a map text whose line some bytes begin with.
ghost use Rattle.std.specs.Prelude.{◌≡◌, true, ℕ, ◌<◌, ◌≤◌, length, slice_index, IfOk, IfSome};
ghost use Rattle.std.specs.List.{prefix_len};
ghost use Rattle.cdb_form.specs.Text.Map.{is_blank};
ghost use Rattle.cdb_form.specs.Views.Prefix.{shown_by, BeginsWithLine, LiesPlainly};
ghost use Rattle.cdb_form.specs.Views.MapParser.{is_of};
ghost use Rattle.cdb_form.specs.Views.Pairs.{key_value};

use crate::copying::copy_over;
use crate::record::{PeekedRecord, Record};
use crate::text::kind::Kind;
use crate::text::lanes::{wide_run, word_run};
use std::alloc::AllocError;

/// Returns the number of bytes of a kind that `bytes` begins with. The first `known` bytes are
/// known to be of it, and the others are looked at one by one.
#[inline(always)]
fn run_past(known: usize, kind: Kind, bytes: &[u8]) -> usize
    requires held { known ≤ length bytes.now }
    requires known { (k : ℕ) → k < known → is_of kind (slice_index bytes.now k) ≡ true }
    ensures within { result ≤ length bytes.now }
    ensures is { result ≡ prefix_len (is_of kind) bytes.now }
{
    let mut place = known;
    while place < bytes.len() && kind.has(bytes[place]) {
        place += 1;
    }
    place
}

/// Returns the number of blanks that some bytes begin with. They are few, so each is looked at
/// alone.
#[inline(always)]
fn blanks(bytes: &[u8]) -> usize
    ensures within { result ≤ length bytes.now }
    ensures is { result ≡ prefix_len is_blank bytes.now }
{
    run_past(0, Kind::Blank, bytes)
}

/// Returns the number of bytes of a kind that some bytes begin with.
#[inline(always)]
fn run(kind: Kind, bytes: &[u8]) -> usize
    ensures within { result ≤ length bytes.now }
    ensures is { result ≡ prefix_len (is_of kind) bytes.now }
{
    run_past(wide_run(kind, bytes), kind, bytes)
}

/// The record of a line that has one space after its key and no other blank beside it, as most
/// lines do. None is found near the end of the bytes, nor if a byte up to `#` begins the key, or
/// one up to a space the value.
#[inline(always)]
pub(crate) fn plain_line(bytes: &[u8]) -> Option<PeekedRecord<'_>>
    ensures begins { IfSome result (λ f. BeginsWithLine bytes.now f.len (shown_by f)) }
    ensures plain { IfSome result (λ f. LiesPlainly bytes.now f.len (shown_by f)) }
{
    let klen = word_run(bytes);
    if klen == bytes.len() || bytes[0] <= b'#' || bytes[klen] != b' ' {
        return None;
    }
    let tail = &bytes[klen + 1..];
    let vlen = wide_run(Kind::InLine, tail);
    if vlen == tail.len() || tail[vlen] != b'\n' || tail[0] <= b' ' {
        return None;
    }
    Some(PeekedRecord {
        key: &bytes[..klen],
        value: &tail[..vlen],
        len: klen + vlen + 2,
    })
}

/// The record of a line, whatever its blanks.
#[cold]
#[inline(never)]
fn spaced_line(bytes: &[u8]) -> Option<PeekedRecord<'_>>
    ensures { IfSome result (λ f. BeginsWithLine bytes.now f.len (shown_by f)) }
{
    let start = blanks(bytes);
    let words = &bytes[start..];
    let klen = run(Kind::InWord, words);
    if klen == 0 || words[0] == b'#' {
        return None;
    }
    let behind = &words[klen..];
    let gap = blanks(behind);
    let rest = &behind[gap..];
    let vlen = run(Kind::InLine, rest);
    if vlen == rest.len() {
        return None;
    }
    Some(PeekedRecord {
        key: &words[..klen],
        value: &rest[..vlen],
        len: start + klen + gap + vlen + 1,
    })
}

/// The record of the line that some bytes begin with, if the line has a newline and a record. The
/// newline counts among the bytes that spell it.
#[inline(always)]
pub(crate) fn prefix_line(bytes: &[u8]) -> Option<PeekedRecord<'_>>
    ensures { IfSome result (λ f. BeginsWithLine bytes.now f.len (shown_by f)) }
{
    match plain_line(bytes) {
        Some(line) => Some(line),
        None => spaced_line(bytes),
    }
}

/// Copies the record of the line that some bytes begin with over another one, and answers how many
/// bytes the line has, with its newline. There are none if it has no newline or no record, and then
/// the record holds anything.
#[inline(always)]
pub(crate) fn copy_line(bytes: &[u8], into: &mut Record) -> Result<usize, AllocError>
    ensures { IfOk result (λ n. 0 < n → BeginsWithLine bytes.now n (key_value into.new)) }
{
    let Some(line) = prefix_line(bytes) else {
        return Ok(0);
    };
    copy_over(line.key, &mut into.key)?;
    copy_over(line.value, &mut into.value)?;
    Ok(line.len)
}
