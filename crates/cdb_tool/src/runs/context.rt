// The context of a run that makes a database.
use crate::runs::options::RunOptions;
use cdb_show::Lines;

/// The context of each step of a run that makes a database: the options, and the lines of the
/// inputs.
#[derive(Clone, Copy)]
pub struct RunContext<'a> {
    /// The options: how the database is made, and how its duplicates are explained.
    pub options: RunOptions<'a>,
    /// The lines of the inputs, which are counted if duplicates are explained.
    pub lines: &'a Lines,
}
