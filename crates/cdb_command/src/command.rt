// The commands of the program.
use crate::options::MakeOptions;
use crate::style::Style;

/// The meaning of a command line. A name that is `None` is standard input, and `wide` says that
/// words have 8 bytes.
#[derive(Debug, Drop)]
pub enum Command {
    /// The values of a key, or the one with a number, counted from 1, are written, with a newline
    /// after each in `lines`.
    Query {
        name: String,
        key: String,
        number: Option<u64>,
        lines: bool,
        wide: bool,
    },
    /// The records of keys are written as a text, or for each key only the value with a number. The
    /// inputs give the keys.
    Lookups {
        name: String,
        inputs: Vec<String>,
        number: Option<u64>,
        style: Style,
        wide: bool,
    },
    /// The records are written as a text.
    Dump {
        name: Option<String>,
        style: Style,
        wide: bool,
    },
    /// The keys alone are written as a text.
    List {
        name: Option<String>,
        style: Style,
        wide: bool,
    },
    /// The statistics are written.
    Stats {
        name: Option<String>,
        wide: bool,
    },
    /// The database is checked.
    Check {
        name: Option<String>,
        wide: bool,
    },
    /// The difference of two databases, the old one and the new one, is written as a text that a
    /// create amends the old one by.
    Difference {
        old: String,
        new: String,
        wide: bool,
    },
    /// Make a database of the records of a base, if there is one, and of the inputs in turn. It is
    /// built in a temporary file, whose name the program chooses if none is given.
    Create {
        name: String,
        base: Option<String>,
        inputs: Vec<String>,
        temporary: Option<String>,
        options: MakeOptions,
        wide: bool,
    },
    /// The usage text is written.
    Help,
    /// The version is written.
    Version,
}
