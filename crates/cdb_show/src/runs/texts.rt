// A file made a text: a dump has its records, a list their keys.
ghost use Rattle.std.specs.Prelude.{ℕ, List, Option};
ghost use Rattle.cdb_show.specs.Views.Output.{OutputSays};
ghost use Rattle.cdb_show.specs.Runs.WalkText.{form_of, dump_form, list_form, WritesWalk};
ghost use Rattle.cdb_form.specs.Views.Feed.{reader_feed};

use crate::fault::Fault;
use crate::runs::content::Content;
use crate::runs::walk_text::write_walk;
use cdb_command::Style;
use cdb_form::{AtHand, Feeds, NoneAtHand, RecordReader, Sink, Width};
use std::alloc::Global;
use std::io::Read;

/// Writes the text of the records of a database file, in one pass over the file.
///
/// The file is read up to the end of its records and no further, and one record is held at a time.
/// The faults:
/// - `Walk(Short)`, `Walk(Table(n))`, `Walk(Record(place))`: the file is damaged; the texts of all
///   whole records before the damage were written, and no closing newline;
/// - `Walk(Input)`: the reader failed; the texts of all records that were read were written;
/// - `NoMemory`: an allocation failed; the texts of all records that were read were written;
/// - `Output`: the writer failed, and holds a prefix of the text.
///
/// The writer is flushed last, after a fault too.
///
/// The reader is dropped, and what it gave is not seen then. So of `Walk(Input)` and `NoMemory` the
/// contract says that the texts of some first records of the file were written.
pub fn dump_run<L: Width, R: Read + Drop, W: Sink>(
    alloc: Global,
    reader: R,
    style: Style,
    w: &mut W,
) -> Result<(), Fault>
    ensures writes { (rest : Option (List ℕ)) × WritesWalk L.WORD (dump_form style)
        (reader_feed (R.remaining reader)) (reader_feed rest)
        (W.contents w.old) (W.contents w.new) result }
    ensures output { OutputSays (W.failed w.new) result }
{
    let (_, answer) = text_run::<L, R, W, NoneAtHand>(alloc, Content::Records, reader, style, w);
    answer
}

/// Writes the text of the keys of a database file, as `dump_run` writes the text of the records.
/// Values are passed over, so they take no memory.
pub fn list_run<L: Width, R: Read + Drop, W: Sink>(
    alloc: Global,
    reader: R,
    style: Style,
    w: &mut W,
) -> Result<(), Fault>
    ensures writes { (rest : Option (List ℕ)) × WritesWalk L.WORD (list_form style)
        (reader_feed (R.remaining reader)) (reader_feed rest)
        (W.contents w.old) (W.contents w.new) result }
    ensures output { OutputSays (W.failed w.new) result }
{
    let (_, answer) = text_run::<L, R, W, NoneAtHand>(alloc, Content::Keys, reader, style, w);
    answer
}

/// Does what `dump_run` or `list_run` does, with whatever gives the bytes of the file, and returns
/// it, after a fault too. A record that it has at hand is taken without a request.
///
/// So the contract holds of each file that agrees with the bytes that were taken.
pub fn text_run<L: Width, F: Feeds, W: Sink, A: AtHand<F>>(
    alloc: Global,
    content: Content,
    reader: F,
    style: Style,
    w: &mut W,
) -> (F, Result<(), Fault>)
    ensures writes { WritesWalk L.WORD (form_of content style)
        (F.feed reader) (F.feed result.0) (W.contents w.old) (W.contents w.new) result.1 }
    ensures output { OutputSays (W.failed w.new) result.1 }
{
    let mut records = RecordReader::<F, L>::new(alloc, reader);
    let answer = write_walk::<L, F, W, A>(alloc, &mut records, content, style, w);
    (records.into_reader(), answer)
}
