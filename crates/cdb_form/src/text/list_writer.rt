// The texts of keys to a writer.
ghost use Rattle.std.specs.Prelude.{OnErr, ◌≡◌, ◌+◌, ◌≤◌, length, take};
ghost use Rattle.cdb_form.specs.Text.Parse.{key_line, list_line};
ghost use Rattle.cdb_form.specs.Views.KnownBytes.{Writes};

use crate::text::line::{LINE, put_mark, put_number, put_piece};
use crate::writing::{OutFault, Sink, write_at_once, write_each};
use itoa::Buffer;

/// The length in bytes of the longest key that fits into a line, beside a numeral of 20 digits and
/// three marks.
const ROOM: usize = LINE - 23;

/// Puts a key with its length into a line that has room for it, and answers the place after it.
#[inline(always)]
fn put_list_key(line: &mut [u8], key: &[u8]) -> usize
    requires { 23 + length key.now ≤ length line.old }
    ensures within { result ≤ length line.new }
    ensures bytes { take result line.new ≡ list_line key.now }
{
    let plus = put_mark(line, 0, b'+');
    let number = put_number(line, plus, key.len());
    let colon = put_mark(line, number, b':');
    let key = put_piece(line, colon, key);
    put_mark(line, key, b'\n')
}

/// Writes a key of a list text piece by piece.
#[inline(never)]
fn write_long_key<W: Sink>(w: &mut W, key: &[u8]) -> Result<(), OutFault>
    ensures writes { Writes result (W.contents w.old) (W.contents w.new) (list_line key.now) }
    ensures failed { OnErr result (W.failed w.new) }
{
    let mut klen = Buffer::new();
    let klen = klen.format(key.len()).as_bytes();
    write_each(w, &[b"+", klen, b":", key, b"\n"])
}

/// Writes a key of a list text, with its length in the shortest decimal. After an `OutFault` the
/// writer holds a prefix of it.
#[inline(always)]
pub fn write_list_record<W: Sink>(w: &mut W, key: &[u8]) -> Result<(), OutFault>
    ensures writes { Writes result (W.contents w.old) (W.contents w.new) (list_line key.now) }
    ensures failed { OnErr result (W.failed w.new) }
{
    if ROOM < key.len() {
        return write_long_key(w, key);
    }
    let mut line = [0u8; LINE];
    let end = put_list_key(&mut line, key);
    write_at_once(w, &line[..end])
}

/// Puts a key and a newline into a line that has room for them, and answers the place after them.
#[inline(always)]
fn put_map_key(line: &mut [u8], key: &[u8]) -> usize
    requires { 1 + length key.now ≤ length line.old }
    ensures within { result ≤ length line.new }
    ensures bytes { take result line.new ≡ key_line key.now }
{
    let key = put_piece(line, 0, key);
    put_mark(line, key, b'\n')
}

/// Writes a key and a newline. After an `OutFault` the writer holds a prefix of them.
#[inline(always)]
pub fn write_map_key<W: Sink>(w: &mut W, key: &[u8]) -> Result<(), OutFault>
    ensures writes { Writes result (W.contents w.old) (W.contents w.new) (key_line key.now) }
    ensures failed { OnErr result (W.failed w.new) }
{
    if LINE <= key.len() {
        return write_each(w, &[key, b"\n"]);
    }
    let mut line = [0u8; LINE];
    let end = put_map_key(&mut line, key);
    write_at_once(w, &line[..end])
}
