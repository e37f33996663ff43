// The form of the values that a look-up writes.
use cdb_command::Style;

/// The form of each value that is written.
#[derive(Clone, Copy)]
pub enum Shown<'a> {
    /// Alone, with a newline after it in lines.
    Value { lines: bool },
    /// As a record of this key.
    Record { key: &'a [u8], style: Style },
}
