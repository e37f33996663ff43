// The difference of two databases, as an amending text.
ghost use Rattle.cdb_show.specs.Views.Output.{OutputSays};
ghost use Rattle.cdb_show.specs.Runs.Difference.{TellsDifference, difference_state, difference_task};

use crate::fault::Fault;
use crate::runs::flushed::flushed;
use cdb_form::{Sink, Width};
use cdb_read::difference::write_difference;
use cdb_read::{ReadFault, Reader};
use cdb_store::Store;
use std::alloc::Global;

/// Writes the difference of two databases that were opened, unless one of them lacks tables, or has
/// one that lies outside the file.
fn write_opened<L: Width, S: Store, T: Store, W: Sink>(
    alloc: Global,
    old: &mut Reader<S, L>,
    new: &mut Reader<T, L>,
    w: &mut W,
) -> Result<(), Fault>
    ensures tells { TellsDifference (difference_task L.WORD S.Store T.Store)
        (difference_state old.old.store new.old.store (W.contents w.old))
        (difference_state old.new.store new.new.store (W.contents w.new)) result }
    ensures output { OutputSays (W.failed w.new) result }
{
    if old.lacks_tables() {
        return Err(Fault::NoOldTables);
    }
    if new.lacks_tables() {
        return Err(Fault::NoNewTables);
    }
    if let Some(n) = old.outside_table() {
        return Err(Fault::Old(ReadFault::Table(n)));
    }
    if let Some(n) = new.outside_table() {
        return Err(Fault::New(ReadFault::Table(n)));
    }
    match write_difference(alloc, old, new, w) {
        Ok(()) => Ok(()),
        Err(stop) => Err(Fault::of_stop(stop)),
    }
}

/// Writes the difference of two databases, which the writer may keep in a buffer.
fn difference_unflushed<L: Width, S: Store, T: Store, W: Sink>(
    alloc: Global,
    old: S,
    new: T,
    w: &mut W,
) -> (S, T, Result<(), Fault>)
    ensures tells { TellsDifference (difference_task L.WORD S.Store T.Store)
        (difference_state old new (W.contents w.old))
        (difference_state result.0 result.1 (W.contents w.new)) result.2 }
    ensures output { OutputSays (W.failed w.new) result.2 }
{
    let mut first = match Reader::<S, L>::open(old) {
        Ok(reader) => reader,
        Err(unread) => return (unread.store, new, Err(Fault::of_old(unread.fault))),
    };
    let mut second = match Reader::<T, L>::open(new) {
        Ok(reader) => reader,
        Err(unread) => return (
            first.into_store(),
            unread.store,
            Err(Fault::of_new(unread.fault)),
        ),
    };
    let answer = write_opened(alloc, &mut first, &mut second, w);
    (first.into_store(), second.into_store(), answer)
}

/// Writes what changed between two databases, the old one and the new one, as an amending text:
/// done to the old one, it leaves a database that answers each key as the new one does. It is the
/// text of `cdb_read::difference::write_difference`. The faults:
/// - `Old(fault)`, `New(fault)`: this database was not read: it is `Short`, or table `n` lies
///   outside of it, `Table(n)`, the first such one by its number; or its walk or a look-up met the
///   damage `Record(place)`, or its store failed, `Device`;
/// - `NoOldTables`, `NoNewTables`: no table of this database has slots, though bytes follow its
///   head: its words may have the other width;
/// - `Output`: the writer failed;
/// - `NoMemory`: an allocation failed.
///
/// The heads alone show, before anything else, whether a database is `Short`, whether one lacks
/// tables, and whether a table lies outside, in this order, and each time the old one first. After
/// these faults nothing was written. After the other faults a prefix of the text was written. Both
/// stores are returned whatever the answer, and were only read. The writer is flushed last, after a
/// fault too.
pub fn difference_run<L: Width, S: Store, T: Store, W: Sink>(
    alloc: Global,
    old: S,
    new: T,
    w: &mut W,
) -> (S, T, Result<(), Fault>)
    ensures tells { TellsDifference (difference_task L.WORD S.Store T.Store)
        (difference_state old new (W.contents w.old))
        (difference_state result.0 result.1 (W.contents w.new)) result.2 }
    ensures output { OutputSays (W.failed w.new) result.2 }
{
    let (old, new, written) = difference_unflushed::<L, S, T, W>(alloc, old, new, w);
    let answer = flushed(w, written);
    (old, new, answer)
}
