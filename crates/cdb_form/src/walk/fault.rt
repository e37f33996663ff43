// The reasons why a walk of a database file ended before the record end.
ghost use Rattle.std.specs.Prelude.{◌≡◌, option_map};
ghost use Rattle.cdb_form.specs.Views.WalkFault.{walk_number, walk_message, walk_part, unread_walk};

use crate::reading::ReadStop;
use std::alloc::{AllocError, AllocFailed};
use std::error::Error;
use std::fmt;

/// The reason why a walk of a database file ended before the record end. A place is counted in
/// bytes from the file's start.
#[derive(Clone, Copy, Debug, PartialEq, Eq)]
pub enum WalkFault {
    /// The file is shorter than its head.
    Short,
    /// The table of this number has slots and lies within the head, at the record end.
    Table(u64),
    /// The record at this place isn't whole before both the record end and the end of the file.
    Record(u64),
    /// The reader failed.
    Input,
    /// An allocation failed.
    NoMemory,
}

impl WalkFault {
    /// Returns the number of the fault, counted from 1 in the order of the variants.
    pub fn number(&self) -> u8
        ensures { result ≡ walk_number self.now }
    {
        match self {
            WalkFault::Short => 1,
            WalkFault::Table(_) => 2,
            WalkFault::Record(_) => 3,
            WalkFault::Input => 4,
            WalkFault::NoMemory => 5,
        }
    }

    /// Returns the fault of a walk whose reader did not give the bytes requested: `early` if the
    /// reader had no more.
    pub(crate) fn of_reader(unread: ReadStop, early: WalkFault) -> WalkFault
        ensures { result ≡ unread_walk early unread }
    {
        match unread {
            ReadStop::Ended => early,
            ReadStop::Failed | ReadStop::Spent => WalkFault::Input,
            ReadStop::NoMemory => WalkFault::NoMemory,
        }
    }

    /// Returns the fault's message. It follows the part of the file, if the fault names one.
    pub fn message(&self) -> &'static str
        ensures { result.now ≡ walk_message self.now }
    {
        match self {
            WalkFault::Short => "database shorter than its head",
            WalkFault::Table(_) => "outside the file",
            WalkFault::Record(_) => "not whole",
            WalkFault::Input => "database cannot be read or written",
            WalkFault::NoMemory => "no memory",
        }
    }

    /// Returns the part of the file that the fault names, and its number or place, if it names one.
    pub fn part(&self) -> Option<(&'static str, u64)>
        ensures { option_map (λ p. (p.0.now, p.1)) result ≡ walk_part self.now }
    {
        match *self {
            WalkFault::Table(n) => Some(("table ", n)),
            WalkFault::Record(place) => Some(("record at ", place)),
            _ => None,
        }
    }
}

impl fmt::Display for WalkFault {
    ghost use Rattle.std.specs.Prelude.{Some};
    ghost use Rattle.cdb_form.specs.Views.WalkFault.{walk_display};

    ghost output = { λ f. Some (walk_display f) };

    fn fmt<W: fmt::Write>(&self, f: &mut fmt::Formatter<W>) -> fmt::Result {
        match self.part() {
            Some((part, number)) => write!(f, "{part}{number}: {}", self.message()),
            None => f.write_str(self.message()),
        }
    }
}

impl Error for WalkFault {}

impl From<AllocError> for WalkFault {
    ghost use Rattle.cdb_form.specs.declared.walk.fault.WalkFault.TheVariants.{NoMemory};

    ghost from_gives = { λ _ f. f ≡ NoMemory };

    fn from(_: AllocError) -> WalkFault {
        WalkFault::NoMemory
    }
}

impl<T: Drop> From<AllocFailed<T>> for WalkFault {
    ghost use Rattle.cdb_form.specs.declared.walk.fault.WalkFault.TheVariants.{NoMemory};

    ghost from_gives = { λ _ f. f ≡ NoMemory };

    fn from(_: AllocFailed<T>) -> WalkFault {
        WalkFault::NoMemory
    }
}
