// The text of the records or of the keys of a file.
ghost use Rattle.std.specs.Prelude.{OnErr, ◌≡◌, IfOk, IfErr, MatchBool};
ghost use Rattle.cdb_show.specs.Views.Output.{OutputSays};
ghost use Rattle.cdb_form.specs.Format.{KeyValue};
ghost use Rattle.cdb_form.specs.Views.KnownBytes.{Writes};
ghost use Rattle.cdb_form.specs.Views.RecordReader.{reader_of, IsFresh, GivesRecord, GivesEnd, Fails};
ghost use Rattle.cdb_show.specs.Runs.WalkText.{item_of, end_of, form_of, IsHeld, WritesWalk};
ghost use Rattle.cdb_show.specs.declared.runs.content.Content.TheVariants.{Keys};

use crate::fault::Fault;
use crate::runs::content::Content;
use crate::runs::flushed::flushed;
use cdb_command::Style;
use cdb_form::{
    AtHand, Feeds, OutFault, Record, RecordReader, Sink, WalkFault, Width, write_end,
    write_list_record, write_map_key, write_map_record, write_record,
};
use std::alloc::Global;

/// Reads what the text has of the next record over another record. A value that it does not have is
/// passed over, and takes no memory.
fn read_item<L: Width, R: Feeds>(
    records: &mut RecordReader<R, L>,
    content: Content,
    into: &mut Record,
) -> Result<bool, WalkFault>
    ensures gives { IfOk result (λ given. MatchBool given
        ((r : KeyValue) × IsHeld content into.new.key.items into.new.value.items r
        × GivesRecord L.WORD R.feed records.old records.new r)
        (GivesEnd L.WORD R.feed records.old records.new)) }
    ensures value { content ≡ Keys → into.new.value ≡ into.old.value }
    ensures fails { IfErr result (Fails L.WORD R.feed records.old records.new) }
{
    match content {
        Content::Records => records.read_into(into),
        Content::Keys => records.read_key(into),
    }
}

/// Writes what the text has of a record. After an `OutFault` the writer holds a prefix of it.
#[inline(always)]
fn write_item<W: Sink>(
    w: &mut W,
    content: Content,
    style: Style,
    key: &[u8],
    value: &[u8],
) -> Result<(), OutFault>
    ensures writes { (r : KeyValue) → IsHeld content key.now value.now r
        → Writes result (W.contents w.old) (W.contents w.new) (item_of content style r) }
    ensures failed { OnErr result (W.failed w.new) }
{
    match (content, style) {
        (Content::Records, Style::Native) => write_record(w, key, value),
        (Content::Records, Style::Map) => write_map_record(w, key, value),
        (Content::Keys, Style::Native) => write_list_record(w, key),
        (Content::Keys, Style::Map) => write_map_key(w, key),
    }
}

/// Writes what ends the text. After an `OutFault` the writer holds a prefix of it.
pub(crate) fn write_last<W: Sink>(w: &mut W, style: Style) -> Result<(), OutFault>
    ensures writes { Writes result (W.contents w.old) (W.contents w.new) (end_of style) }
    ensures failed { OnErr result (W.failed w.new) }
{
    match style {
        Style::Native => write_end(w),
        Style::Map => Ok(()),
    }
}

/// Writes the text of a file, which the writer may keep in a buffer. A record that is whole at hand
/// is written from where it lies.
fn write_unflushed<L: Width, R: Feeds, W: Sink, A: AtHand<R>>(
    alloc: Global,
    records: &mut RecordReader<R, L>,
    content: Content,
    style: Style,
    w: &mut W,
) -> Result<(), Fault>
    requires { IsFresh records.old }
    ensures writes { WritesWalk L.WORD (form_of content style) (R.feed (reader_of records.old))
        (R.feed (reader_of records.new)) (W.contents w.old) (W.contents w.new) result }
    ensures output { OutputSays (W.failed w.new) result }
{
    let mut record = Record {
        key: Vec::new(alloc),
        value: Vec::new(alloc),
    };
    loop {
        if let Some(peeked) = records.peek::<A>() {
            let len = peeked.len;
            let written = write_item(w, content, style, peeked.key, peeked.value);
            records.take_peeked::<A>(len);
            written?;
        } else if read_item(records, content, &mut record)? {
            write_item(w, content, style, &record.key, &record.value)?;
        } else {
            write_last(w, style)?;
            return Ok(());
        }
    }
}

/// Writes the text of an unread file, and flushes the writer, after a fault too.
pub(crate) fn write_walk<L: Width, R: Feeds, W: Sink, A: AtHand<R>>(
    alloc: Global,
    records: &mut RecordReader<R, L>,
    content: Content,
    style: Style,
    w: &mut W,
) -> Result<(), Fault>
    requires { IsFresh records.old }
    ensures writes { WritesWalk L.WORD (form_of content style) (R.feed (reader_of records.old))
        (R.feed (reader_of records.new)) (W.contents w.old) (W.contents w.new) result }
    ensures output { OutputSays (W.failed w.new) result }
{
    let written = write_unflushed::<L, R, W, A>(alloc, records, content, style, w);
    flushed(w, written)
}
