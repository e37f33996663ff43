// The options of a run that makes a database.
use cdb_command::MakeOptions;

/// The options of a make: how the database is made, and how its duplicates are explained.
#[derive(Clone, Copy, Debug, PartialEq, Eq)]
pub struct RunOptions<'a> {
    /// The options of the database.
    pub make: MakeOptions,
    /// The names of the inputs, if duplicates are to be explained: after the line of one comes
    /// another with the name of its input, the line at which its record begins there, and its key.
    pub names: Option<&'a [String]>,
}
