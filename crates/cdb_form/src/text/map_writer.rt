// A map text to a writer.
ghost use Rattle.std.specs.Prelude.{OnErr, ◌≡◌, ◌+◌, ◌≤◌, length, take};
ghost use Rattle.cdb_form.specs.Text.Map.{map_line};
ghost use Rattle.cdb_form.specs.Views.KnownBytes.{Writes};

use crate::text::line::{LINE, put_mark, put_piece};
use crate::writing::{OutFault, Sink, write_at_once, write_each};

/// The greatest number of bytes of a key and a value together that fit into a line.
const ROOM: usize = LINE - 2;

/// Puts the line of a record into a line that has room for it, and answers the place after it.
#[inline(always)]
fn put_map_record(line: &mut [u8], key: &[u8], value: &[u8]) -> usize
    requires { 2 + length key.now + length value.now ≤ length line.old }
    ensures within { result ≤ length line.new }
    ensures bytes { take result line.new ≡ map_line (record { key = key.now; value = value.now }) }
{
    let key = put_piece(line, 0, key);
    let blank = put_mark(line, key, b' ');
    let value = put_piece(line, blank, value);
    put_mark(line, value, b'\n')
}

/// Writes the line of a record. After an `OutFault` the writer holds a prefix of it.
#[inline(always)]
pub fn write_map_record<W: Sink>(w: &mut W, key: &[u8], value: &[u8]) -> Result<(), OutFault>
    ensures writes { Writes result (W.contents w.old) (W.contents w.new) (map_line (record { key = key.now; value = value.now })) }
    ensures failed { OnErr result (W.failed w.new) }
{
    if ROOM < key.len() || ROOM - key.len() < value.len() {
        return write_each(w, &[key, b" ", value, b"\n"]);
    }
    let mut line = [0u8; LINE];
    let end = put_map_record(&mut line, key, value);
    write_at_once(w, &line[..end])
}
