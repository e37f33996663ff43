// The reasons why a text was not read.
ghost use Rattle.std.specs.Prelude.{◌≡◌};
ghost use Rattle.cdb_form.specs.Views.TextFault.{text_number, text_message, text_place};
ghost use Rattle.cdb_form.specs.Views.TextFault.{unread_fault};

use crate::reading::ReadStop;
use std::alloc::{AllocError, AllocFailed};
use std::error::Error;
use std::fmt;

/// The reason why a text was not read. A place is counted in bytes from the reader's first one.
#[derive(Clone, Copy, Debug, PartialEq, Eq)]
pub enum TextFault {
    /// No text of the form goes on with the byte at this place.
    Syntax(u64),
    /// The input ends at this place, within a text.
    Ended(u64),
    /// The digit at this place lifts a length above the greatest one.
    Large(u64),
    /// The reader failed.
    Input,
    /// The reader got all requests that it may get, and more bytes are needed.
    Endless,
    /// An allocation failed.
    NoMemory,
}

impl TextFault {
    /// Returns the number of the fault, counted from 1 in the order of the variants.
    pub fn number(&self) -> u8
        ensures { result ≡ text_number self.now }
    {
        match self {
            TextFault::Syntax(_) => 1,
            TextFault::Ended(_) => 2,
            TextFault::Large(_) => 3,
            TextFault::Input => 4,
            TextFault::Endless => 5,
            TextFault::NoMemory => 6,
        }
    }

    /// Returns the fault of a text whose reader gave `at` bytes, and then not the bytes requested.
    pub(crate) fn of_reader(unread: ReadStop, at: u64) -> TextFault
        ensures { result ≡ unread_fault at unread }
    {
        match unread {
            ReadStop::Ended => TextFault::Ended(at),
            ReadStop::Failed => TextFault::Input,
            ReadStop::Spent => TextFault::Endless,
            ReadStop::NoMemory => TextFault::NoMemory,
        }
    }

    /// Returns the fault's message. It follows the place, if the fault has one.
    pub fn message(&self) -> &'static str
        ensures { result.now ≡ text_message self.now }
    {
        match self {
            TextFault::Syntax(_) => "not a record",
            TextFault::Ended(_) => "text ends early",
            TextFault::Large(_) => "length too large",
            TextFault::Input => "cannot be read",
            TextFault::Endless => "has no end",
            TextFault::NoMemory => "no memory",
        }
    }

    /// Returns the place of the fault, in bytes from the reader's first one, if it has one.
    pub fn place(&self) -> Option<u64>
        ensures { result ≡ text_place self.now }
    {
        match *self {
            TextFault::Syntax(at) | TextFault::Ended(at) | TextFault::Large(at) => Some(at),
            _ => None,
        }
    }
}

impl fmt::Display for TextFault {
    ghost use Rattle.std.specs.Prelude.{Some};
    ghost use Rattle.cdb_form.specs.Views.TextFault.{text_display};

    ghost output = { λ f. Some (text_display f) };

    fn fmt<W: fmt::Write>(&self, f: &mut fmt::Formatter<W>) -> fmt::Result {
        match self.place() {
            Some(at) => write!(f, "byte {at}: {}", self.message()),
            None => f.write_str(self.message()),
        }
    }
}

impl Error for TextFault {}

impl From<AllocError> for TextFault {
    ghost use Rattle.cdb_form.specs.declared.text.fault.TextFault.TheVariants.{NoMemory};

    ghost from_gives = { λ _ f. f ≡ NoMemory };

    fn from(_: AllocError) -> TextFault {
        TextFault::NoMemory
    }
}

impl<T: Drop> From<AllocFailed<T>> for TextFault {
    ghost use Rattle.cdb_form.specs.declared.text.fault.TextFault.TheVariants.{NoMemory};

    ghost from_gives = { λ _ f. f ≡ NoMemory };

    fn from(_: AllocFailed<T>) -> TextFault {
        TextFault::NoMemory
    }
}
