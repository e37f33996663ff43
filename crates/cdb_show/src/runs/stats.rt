// The statistics of a database.
ghost use Rattle.cdb_show.specs.Views.Output.{OutputSays};
ghost use Rattle.cdb_show.specs.Runs.Stats.{TellsStats};

use crate::fault::Fault;
use crate::runs::flushed::flushed;
use crate::runs::stats_text::write_stats;
use cdb_form::{Sink, Width};
use cdb_read::{Reader, stats};
use cdb_store::Store;

/// Writes the statistics of a database that was opened.
fn write_counted<L: Width, S: Store, W: Sink>(
    reader: &mut Reader<S, L>,
    w: &mut W,
) -> Result<(), Fault>
    ensures tells { TellsStats L.WORD S.Store reader.old.store reader.new.store (W.contents w.old)
        (W.contents w.new) result }
    ensures output { OutputSays (W.failed w.new) result }
{
    let counted = stats(reader)?;
    write_stats(&counted, w)?;
    Ok(())
}

/// Writes the statistics of a database, which the writer may keep in a buffer.
fn stats_unflushed<L: Width, S: Store, W: Sink>(store: S, w: &mut W) -> (S, Result<(), Fault>)
    ensures tells { TellsStats L.WORD S.Store store result.0 (W.contents w.old) (W.contents w.new)
        result.1 }
    ensures output { OutputSays (W.failed w.new) result.1 }
{
    let mut reader = match Reader::<S, L>::open(store) {
        Ok(reader) => reader,
        Err(unread) => return (unread.store, Err(Fault::from(unread.fault))),
    };
    let answer = write_counted(&mut reader, w);
    (reader.into_store(), answer)
}

/// Writes the statistics of the database in a store: how many records it has, how long their keys
/// and values are, how many tables have slots and how many of these are used, and how far those are
/// from where searches begin.
///
/// All is counted before anything is written, and no memory is taken. The faults:
/// - `Read(Short)`: the store is shorter than a head, and was not read;
/// - `Read(Table(n))`, `Read(Record(place))`: the file has this damage: its first table outside the
///   file, or else the damage of its records; damaged slots are not reported;
/// - `Read(Device)`: the store failed;
/// - `Output`: the writer failed, and holds a prefix of the text.
///
/// After a fault other than `Output` nothing was written. The store is returned whatever the
/// answer, and was only read. The writer is flushed last, after a fault too.
pub fn stats_run<L: Width, S: Store, W: Sink>(store: S, w: &mut W) -> (S, Result<(), Fault>)
    ensures tells { TellsStats L.WORD S.Store store result.0 (W.contents w.old) (W.contents w.new)
        result.1 }
    ensures output { OutputSays (W.failed w.new) result.1 }
{
    let (store, told) = stats_unflushed::<L, S, W>(store, w);
    let answer = flushed(w, told);
    (store, answer)
}
