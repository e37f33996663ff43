// The end of each run.
ghost use Rattle.cdb_show.specs.Views.Output.{OutputSays};
ghost use Rattle.cdb_show.specs.Runs.Flushed.{Flushed, FlushedWhole};

use crate::fault::Fault;
use cdb_form::{Sink, flush_whole};

/// Flushes the writer of a run with this answer, after a fault too. A flush that fails is `Output`
/// if no other fault came.
pub fn flushed<W: Sink>(w: &mut W, answer: Result<(), Fault>) -> Result<(), Fault>
    ensures flushes { Flushed (W.contents w.old) (W.contents w.new) answer result }
    ensures output { OutputSays (W.failed w.old) answer → OutputSays (W.failed w.new) result }
{
    match (answer, flush_whole(w)) {
        (Ok(()), Err(_)) => Err(Fault::Output),
        (answer, _) => answer,
    }
}

/// Flushes the writer of a run that goes on after a key without a value. A flush that fails is
/// `Output` in place of `Missing` too, since a run that answers `Missing` writes all it found.
pub(crate) fn flushed_whole<W: Sink>(w: &mut W, answer: Result<(), Fault>) -> Result<(), Fault>
    ensures flushes { FlushedWhole (W.contents w.old) (W.contents w.new) answer result }
    ensures output { OutputSays (W.failed w.old) answer → OutputSays (W.failed w.new) result }
{
    match (answer, flush_whole(w)) {
        (Ok(()), Err(_)) => Err(Fault::Output),
        (Err(Fault::Missing), Err(_)) => Err(Fault::Output),
        (answer, _) => answer,
    }
}
