// A command to be performed.

use cdb_command::Command;
use cdb_show::Lines;

/// A command, and the lines of what it reads, which are counted if its faults are explained.
#[derive(Clone, Copy)]
pub struct Request<'a> {
    /// The command.
    pub command: &'a Command,
    /// The lines of its inputs.
    pub lines: &'a Lines,
}
