// The reason why a command line is not understood.
ghost use Rattle.std.specs.Prelude.{◌≡◌, Some};
ghost use Rattle.cdb_command.specs.Usage.{usage_number, usage_message};

use std::alloc::{AllocError, AllocFailed};
use std::error::Error;
use std::fmt;

/// The reason why a command line has no meaning.
#[derive(Debug, Drop, PartialEq, Eq)]
pub enum Usage {
    /// The line has a letter that is no option, a long word, an option without its value, or one
    /// twice.
    Words,
    /// The line has no letter of a command.
    NoCommand,
    /// The line has the letters of several commands.
    TwoCommands,
    /// The line has this option, which its command doesn't take.
    Option(char),
    /// The number of a value isn't one from 1 to 4294967295 in decimal digits alone.
    Number,
    /// The line has too few names for its command, or too many.
    Names,
    /// Duplicates are to be replaced, and to be left out.
    Both,
    /// An allocation failed.
    NoMemory,
}

impl Usage {
    /// Returns the number of the fault, counted from 1 in the order of the variants.
    pub fn number(&self) -> u8
        ensures { result ≡ usage_number self.now }
    {
        match self {
            Usage::Words => 1,
            Usage::NoCommand => 2,
            Usage::TwoCommands => 3,
            Usage::Option(_) => 4,
            Usage::Number => 5,
            Usage::Names => 6,
            Usage::Both => 7,
            Usage::NoMemory => 8,
        }
    }

    /// Returns the fault in words: one sentence for all faults except `NoMemory`.
    pub fn message(&self) -> &'static str
        ensures { result.now ≡ usage_message self.now }
    {
        match self {
            Usage::NoMemory => "no memory",
            _ => "bad command line, see cdb -h",
        }
    }
}

impl fmt::Display for Usage {
    ghost output = { λ u. Some (usage_message u) };

    fn fmt<W: fmt::Write>(&self, f: &mut fmt::Formatter<W>) -> fmt::Result {
        f.write_str(self.message())
    }
}

impl Error for Usage {}

impl From<AllocError> for Usage {
    ghost use Rattle.cdb_command.specs.declared.usage.Usage.TheVariants.{NoMemory};

    ghost from_gives = { λ _ u. u ≡ NoMemory };

    fn from(_: AllocError) -> Usage {
        Usage::NoMemory
    }
}

impl<T: Drop> From<AllocFailed<T>> for Usage {
    ghost use Rattle.cdb_command.specs.declared.usage.Usage.TheVariants.{NoMemory};

    ghost from_gives = { λ _ u. u ≡ NoMemory };

    fn from(_: AllocFailed<T>) -> Usage {
        Usage::NoMemory
    }
}
