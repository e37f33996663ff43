// The options of look-ups of the keys of inputs.
use cdb_command::Style;

/// The choice of values that are looked up for each key, and the form of the texts.
#[derive(Clone, Copy, Debug, PartialEq, Eq)]
pub struct LookupOptions {
    /// Only the value of each key with this number, counted from 1.
    pub number: Option<u64>,
    /// The form of the records that are written, and of the inputs that give the keys.
    pub style: Style,
}
