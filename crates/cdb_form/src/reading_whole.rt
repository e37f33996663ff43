// All that a reader has, into a vector, up to a limit.
ghost use Rattle.std.specs.Prelude.{◌≡◌, ◌+◌, ◌-◌, ◌<◌, ◌≤◌, Some, length, IfOk, IfErr, OnErr};
ghost use Rattle.cdb_form.specs.Views.Feed.{Consumes};
ghost use Rattle.cdb_form.specs.Views.Taking.{Gives, LosesAtMost};
ghost use Rattle.cdb_form.specs.Format.{AreBytes};
ghost use Rattle.cdb_form.specs.Views.InFault.{in_message};
ghost use Rattle.cdb_form.specs.declared.reading_whole.InFault.TheVariants.{Failed};

use crate::feeds::Feeds;
use crate::reading::{ReadStop, vector};
use std::error::Error;
use std::fmt;

/// The answer of `read_whole`: all of a reader's bytes came, or there are more.
#[derive(Clone, Copy, Debug, PartialEq, Eq)]
pub enum Extent {
    /// All bytes came: the reader is at its end.
    All,
    /// More bytes came than were allowed.
    More,
}

/// The reason why not all of a reader's bytes came.
#[derive(Clone, Copy, Debug, PartialEq, Eq)]
pub enum InFault {
    /// The reader failed.
    Failed,
    /// An allocation for the bytes failed.
    NoMemory,
}

impl InFault {
    /// Returns the fault's message, in words.
    pub fn message(&self) -> &'static str
        ensures { result.now ≡ in_message self.now }
    {
        match self {
            InFault::Failed => "input cannot be read",
            InFault::NoMemory => "no memory",
        }
    }
}

impl fmt::Display for InFault {
    ghost output = { λ f. Some (in_message f) };

    fn fmt<W: fmt::Write>(&self, f: &mut fmt::Formatter<W>) -> fmt::Result {
        f.write_str(self.message())
    }
}

impl Error for InFault {}

/// Takes all that a reader has into a vector, over what it holds, if that is `most` bytes or fewer.
///
/// One byte more is requested, to see that there is none. At `More` the vector holds `most + 1`
/// bytes, and the reader has what follows them. At `Failed` it holds the bytes that came before
/// the fault. Memory is requested as bytes come, a piece ahead.
pub fn read_whole<R: Feeds>(
    reader: &mut R,
    into: &mut Vec<u8>,
    most: u64,
) -> Result<Extent, InFault>
    ensures given { IfOk result (Gives most (R.feed reader.old) (R.feed reader.new)
        into.new.items) }
    ensures part { OnErr result (Consumes (R.feed reader.old) (R.feed reader.new)
        into.new.items) }
    ensures failed { IfErr result (λ f. f ≡ Failed → (R.feed reader.new).failed) }
    ensures few { IfErr result (λ _. length into.new.items ≤ most) }
    ensures are { AreBytes into.new.items }
    ensures loses { LosesAtMost (R.feed reader.old) (R.feed reader.new) (most + 1) }
{
    let mut asks = u64::MAX;
    match vector(reader, &mut asks, into, most.saturating_add(1), 4096) {
        Ok(()) => Ok(Extent::More),
        Err(ReadStop::Ended) => Ok(Extent::All),
        Err(ReadStop::Failed | ReadStop::Spent) => Err(InFault::Failed),
        Err(ReadStop::NoMemory) => Err(InFault::NoMemory),
    }
}
