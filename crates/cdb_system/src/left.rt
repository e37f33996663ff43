// The files that a command returns.
ghost use Rattle.std.specs.Prelude.{◌≡◌};
ghost use Rattle.cdb_system.specs.Opening.{none_left, read_left, base_left, both_left};
ghost use Rattle.cdb_system.specs.Opening.{stream_left, input_left, looked_left};

use crate::system::System;
use cdb_show::{Fault, InputReader, Inputs};

/// The files that a command opened and has not closed, and standard input if it was read, as they
/// are at its end. A clause says what was read of them, or made.
#[derive(Drop)]
pub struct Left<F, M, S, I> {
    /// The file that was read at places: the base of a create, or the old database of a difference,
    /// or the database of another command.
    pub read: Option<F>,
    /// The new database of a difference.
    pub other: Option<F>,
    /// The file that was made in place.
    pub made: Option<M>,
    /// The file that was read from its start.
    pub stream: Option<S>,
    /// The readers of inputs, in their order.
    pub inputs: Option<Vec<InputReader<S>>>,
    /// Standard input.
    pub input: Option<I>,
}

/// The files that a command on this system returns.
pub type LeftOf<Y> = Left<
    <Y as System>::File,
    <Y as System>::Made,
    <Y as System>::Stream,
    <Y as System>::Input,
>;

/// The files that a command returns, and its answer.
pub type Performed<Y> = (LeftOf<Y>, Result<(), Fault>);

/// Returns no file.
pub fn none_left<F: Drop, M: Drop, S: Drop, I: Drop>() -> Left<F, M, S, I>
    ensures { result ≡ none_left }
{
    Left {
        read: None,
        other: None,
        made: None,
        stream: None,
        inputs: None,
        input: None,
    }
}

/// Returns a file that was read at places.
pub fn read_left<F: Drop, M: Drop, S: Drop, I: Drop>(file: F) -> Left<F, M, S, I>
    ensures { result ≡ read_left file }
{
    Left {
        read: Some(file),
        ..none_left()
    }
}

/// Returns the base of a create, if it has one.
pub fn base_left<F: Drop, M: Drop, S: Drop, I: Drop>(base: Option<F>) -> Left<F, M, S, I>
    ensures { result ≡ base_left base }
{
    Left {
        read: base,
        ..none_left()
    }
}

/// Returns the two databases of a difference.
pub fn both_left<F: Drop, M: Drop, S: Drop, I: Drop>(old: F, new: F) -> Left<F, M, S, I>
    ensures { result ≡ both_left old new }
{
    Left {
        read: Some(old),
        other: Some(new),
        ..none_left()
    }
}

/// Returns a file that was read from its start.
pub fn stream_left<F: Drop, M: Drop, S: Drop, I: Drop>(file: S) -> Left<F, M, S, I>
    ensures { result ≡ stream_left file }
{
    Left {
        stream: Some(file),
        ..none_left()
    }
}

/// Returns standard input, which was read.
pub fn input_left<F: Drop, M: Drop, S: Drop, I: Drop>(input: I) -> Left<F, M, S, I>
    ensures { result ≡ input_left input }
{
    Left {
        input: Some(input),
        ..none_left()
    }
}

/// Returns the database of look-ups, and the readers of the inputs that gave the keys.
pub fn looked_left<F: Drop, M: Drop, S: Drop, I: Drop>(
    file: F,
    inputs: Inputs<S, I>,
) -> Left<F, M, S, I>
    ensures { result ≡ looked_left file inputs }
{
    Left {
        read: Some(file),
        inputs: Some(inputs.readers),
        input: Some(inputs.shared),
        ..none_left()
    }
}
