// The options of a run that makes a database.
use crate::style::Style;
use cdb_form::Mode;

/// How a database is made of the records of some inputs.
#[derive(Clone, Copy, Debug, PartialEq, Eq)]
pub struct MakeOptions {
    /// The treatment of a record whose key is there already, unless the run is to stop there.
    pub mode: Mode,
    /// True if a record whose key is there already is reported.
    pub warn: bool,
    /// True if the run stops at the first record whose key is there already, and reports it. Each
    /// record is put by `Insert` then, whatever the mode.
    pub stop: bool,
    /// The form of the inputs.
    pub style: Style,
    /// The number of bytes that the database may have at most.
    pub limit: u64,
}
