// A native text to a writer.
ghost use Rattle.std.specs.Prelude.{OnErr, ◌≡◌, ◌+◌, ◌≤◌, ◌++◌, codes, decimal, length, take};
ghost use Rattle.cdb_form.specs.Text.Native.{spelling_of};
ghost use Rattle.cdb_form.specs.Views.KnownBytes.{Writes};

use crate::text::line::{LINE, put_mark, put_number, put_piece};
use crate::writing::{OutFault, Sink, write_at_once, write_each, write_whole};

/// The number of bytes that a line has at most before its key: two numerals of 20 digits, and three
/// marks.
const LONGEST: usize = 43;

/// The greatest number of bytes of a key and a value together that fit into a line.
const ROOM: usize = LINE - LONGEST - 3;

/// Puts what comes before the key into a line, and answers the place after it.
#[inline(always)]
fn put_lengths(line: &mut [u8], klen: usize, vlen: usize) -> usize
    requires { 43 ≤ length line.old }
    ensures end { result ≤ 43 }
    ensures long { length line.new ≡ length line.old }
    ensures bytes { take result line.new
        ≡ codes "+" ++ decimal klen ++ codes "," ++ decimal vlen ++ codes ":" }
{
    let plus = put_mark(line, 0, b'+');
    let key = put_number(line, plus, klen);
    let comma = put_mark(line, key, b',');
    let value = put_number(line, comma, vlen);
    put_mark(line, value, b':')
}

/// Puts a record into a line that has room for it, and answers the place after it.
#[inline(always)]
fn put_record(line: &mut [u8], key: &[u8], value: &[u8]) -> usize
    requires { 46 + length key.now + length value.now ≤ length line.old }
    ensures within { result ≤ length line.new }
    ensures bytes { take result line.new
        ≡ spelling_of (record { key = key.now; value = value.now }) }
{
    let lengths = put_lengths(line, key.len(), value.len());
    let key = put_piece(line, lengths, key);
    let dash = put_mark(line, key, b'-');
    let angle = put_mark(line, dash, b'>');
    let value = put_piece(line, angle, value);
    put_mark(line, value, b'\n')
}

/// Writes a record of a native text piece by piece.
#[inline(never)]
fn write_long<W: Sink>(w: &mut W, key: &[u8], value: &[u8]) -> Result<(), OutFault>
    ensures writes { Writes result (W.contents w.old) (W.contents w.new) (spelling_of (record { key = key.now; value = value.now })) }
    ensures failed { OnErr result (W.failed w.new) }
{
    let mut line = [0u8; LONGEST];
    let lengths = put_lengths(&mut line, key.len(), value.len());
    write_each(w, &[&line[..lengths], key, b"->", value, b"\n"])
}

/// Writes a record of a native text, with the shortest numerals. After an `OutFault` the writer
/// holds a prefix of it.
#[inline(always)]
pub fn write_record<W: Sink>(w: &mut W, key: &[u8], value: &[u8]) -> Result<(), OutFault>
    ensures writes { Writes result (W.contents w.old) (W.contents w.new) (spelling_of (record { key = key.now; value = value.now })) }
    ensures failed { OnErr result (W.failed w.new) }
{
    if ROOM < key.len() || ROOM - key.len() < value.len() {
        return write_long(w, key, value);
    }
    // A short record goes as one, since each piece is a call of the writer.
    let mut line = [0u8; LINE];
    let end = put_record(&mut line, key, value);
    write_at_once(w, &line[..end])
}

/// Writes the newline that ends a native text. After an `OutFault` the writer holds a prefix of it.
pub fn write_end<W: Sink>(w: &mut W) -> Result<(), OutFault>
    ensures writes { Writes result (W.contents w.old) (W.contents w.new) (codes "\n") }
    ensures failed { OnErr result (W.failed w.new) }
{
    write_whole(w, b"\n")
}
