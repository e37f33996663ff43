// The reason why a command line is not understood, with the word or the letters at fault.
ghost use Rattle.std.specs.Prelude.{◌≡◌};
ghost use Rattle.cdb_command.specs.Refused.{refused_in, usage_of};

use crate::usage::Usage;
use std::alloc::{AllocError, AllocFailed};

/// A name that a command lacks.
#[derive(Clone, Copy, Debug, PartialEq, Eq)]
pub enum Lacking {
    /// The database.
    Database,
    /// The key that is looked up in the database.
    Key,
    /// The old one of two databases.
    Old,
    /// The new one of two databases.
    New,
}

/// The reason why a command line has no meaning, with the word or the letters at fault.
#[derive(Clone, Copy, Debug, PartialEq, Eq)]
pub enum WordFault<'a> {
    /// A letter that is no option.
    Unknown(char),
    /// A word that begins with two hyphens.
    Long(&'a str),
    /// A letter without the value that it takes.
    NoValue(char),
    /// A letter with a value that comes twice.
    Twice(char),
    /// The words are refused, and none of these is the reason.
    Words,
    /// The word `--help`, on a line without the letter of a command.
    Help,
    /// No letter of a command.
    NoCommand,
    /// The letters of two commands.
    TwoCommands(char, char),
    /// An option, and the letter of a command that doesn't take it.
    Option(char, char),
    /// A base beside `-t -`.
    BaseInPlace,
    /// A base that is the temporary file.
    BaseBuiltIn(&'a str),
    /// The number of a value that isn't one from 1 to 4294967295 in decimal digits alone.
    Number(&'a str),
    /// Too few names. This is the first that lacks.
    Lacks(Lacking),
    /// Too many names. This is the first that is too many.
    Surplus(&'a str),
    /// Duplicates are to be replaced, and to be left out.
    Both,
    /// An allocation failed.
    NoMemory,
}

impl<'a> WordFault<'a> {
    /// Returns the reason why the line has no meaning, without the word.
    pub fn usage(&self) -> Usage
        ensures { result ≡ usage_of (refused_in self.now) }
    {
        match *self {
            WordFault::Unknown(_)
            | WordFault::Long(_)
            | WordFault::NoValue(_)
            | WordFault::Twice(_)
            | WordFault::Words
            | WordFault::Help => Usage::Words,
            WordFault::NoCommand => Usage::NoCommand,
            WordFault::TwoCommands(_, _) => Usage::TwoCommands,
            WordFault::Option(option, _) => Usage::Option(option),
            WordFault::BaseInPlace | WordFault::BaseBuiltIn(_) => Usage::Option('b'),
            WordFault::Number(_) => Usage::Number,
            WordFault::Lacks(_) | WordFault::Surplus(_) => Usage::Names,
            WordFault::Both => Usage::Both,
            WordFault::NoMemory => Usage::NoMemory,
        }
    }
}

impl<'a> From<AllocError> for WordFault<'a> {
    ghost use Rattle.cdb_command.specs.declared.word_fault.WordFault.TheVariants.{NoMemory};

    ghost from_gives = { λ _ fault. fault ≡ NoMemory };

    fn from(_: AllocError) -> WordFault<'a> {
        WordFault::NoMemory
    }
}

impl<'a, T: Drop> From<AllocFailed<T>> for WordFault<'a> {
    ghost use Rattle.cdb_command.specs.declared.word_fault.WordFault.TheVariants.{NoMemory};

    ghost from_gives = { λ _ fault. fault ≡ NoMemory };

    fn from(_: AllocFailed<T>) -> WordFault<'a> {
        WordFault::NoMemory
    }
}
