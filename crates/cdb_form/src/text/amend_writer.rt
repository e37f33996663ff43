// A removal of an amending text to a writer.
ghost use Rattle.std.specs.Prelude.{OnErr};
ghost use Rattle.cdb_form.specs.Text.Parse.{removal_line};
ghost use Rattle.cdb_form.specs.Views.KnownBytes.{Writes};

use crate::writing::{OutFault, Sink, write_pieces};
use itoa::Buffer;

/// Writes a removal of an amending text, with the shortest numeral. After an `OutFault` the writer
/// holds a prefix of it.
pub fn write_removal<W: Sink>(w: &mut W, key: &[u8]) -> Result<(), OutFault>
    ensures writes { Writes result (W.contents w.old) (W.contents w.new) (removal_line key.now) }
    ensures failed { OnErr result (W.failed w.new) }
{
    let mut klen = Buffer::new();
    let klen = klen.format(key.len()).as_bytes();
    write_pieces(w, &[b"-", klen, b":", key, b"\n"])
}
