// The reason why a database was not read.
ghost use Rattle.std.specs.Prelude.{◌≡◌};
ghost use Rattle.cdb_read.specs.Views.Reads.{read_number, read_message};

use cdb_form::{Damage, OutFault};
use cdb_store::StoreFault;
use std::alloc::{AllocError, AllocFailed};
use std::error::Error;
use std::fmt;

/// The reason why a database was not read. A place is counted in bytes from the file's start.
#[derive(Clone, Copy, Debug, PartialEq, Eq)]
pub enum ReadFault {
    /// The file is shorter than its head.
    Short,
    /// The table of this number doesn't lie after the head and inside the file.
    Table(u64),
    /// No whole record is at this place.
    Record(u64),
    /// In the table of the first number, the slot of the second, counted from 0, is wrong.
    Slot(u64, u64),
    /// The record at this place is in two slots.
    Twice(u64),
    /// The record at this place is in no slot.
    Unindexed(u64),
    /// The store failed.
    Device,
    /// An allocation failed.
    NoMemory,
    /// The writer failed.
    Output,
}

impl ReadFault {
    /// Returns the number of the fault, counted from 1 in the order of the variants.
    pub fn number(&self) -> u8
        ensures { result ≡ read_number self.now }
    {
        match self {
            ReadFault::Short => 1,
            ReadFault::Table(_) => 2,
            ReadFault::Record(_) => 3,
            ReadFault::Slot(_, _) => 4,
            ReadFault::Twice(_) => 5,
            ReadFault::Unindexed(_) => 6,
            ReadFault::Device => 7,
            ReadFault::NoMemory => 8,
            ReadFault::Output => 9,
        }
    }

    /// Returns the fault in words, which follow the part of the file if the fault names one.
    pub fn message(&self) -> &'static str
        ensures { result.now ≡ read_message self.now }
    {
        match self {
            ReadFault::Short => "database shorter than its head",
            ReadFault::Table(_) => "outside the file",
            ReadFault::Record(_) => "not whole",
            ReadFault::Slot(_, _) => "wrong",
            ReadFault::Twice(_) => "in two slots",
            ReadFault::Unindexed(_) => "in no slot",
            ReadFault::Device => "database cannot be read or written",
            ReadFault::NoMemory => "no memory",
            ReadFault::Output => "output cannot be written",
        }
    }
}

impl fmt::Display for ReadFault {
    ghost use Rattle.std.specs.Prelude.{Some};
    ghost use Rattle.cdb_read.specs.Views.Reads.{read_display};

    ghost output = { λ f. Some (read_display f) };

    fn fmt<W: fmt::Write>(&self, f: &mut fmt::Formatter<W>) -> fmt::Result {
        let message = self.message();
        match *self {
            ReadFault::Table(n) => write!(f, "table {n}: {message}"),
            ReadFault::Slot(n, i) => write!(f, "table {n}: slot {i}: {message}"),
            ReadFault::Record(place) | ReadFault::Twice(place) | ReadFault::Unindexed(place) => {
                write!(f, "record at {place}: {message}")
            }
            _ => f.write_str(message),
        }
    }
}

impl Error for ReadFault {}

impl From<Damage> for ReadFault {
    ghost use Rattle.cdb_read.specs.Views.Reads.{damage_fault};

    ghost from_gives = { λ d f. f ≡ damage_fault d };

    fn from(damage: Damage) -> ReadFault {
        match damage {
            Damage::Short => ReadFault::Short,
            Damage::Table(n) => ReadFault::Table(n),
            Damage::Record(place) => ReadFault::Record(place),
            Damage::Slot(n, i) => ReadFault::Slot(n, i),
            Damage::Twice(place) => ReadFault::Twice(place),
            Damage::Unindexed(place) => ReadFault::Unindexed(place),
        }
    }
}

impl From<AllocError> for ReadFault {
    ghost use Rattle.cdb_read.specs.declared.fault.ReadFault.TheVariants.{NoMemory};

    ghost from_gives = { λ _ f. f ≡ NoMemory };

    fn from(_: AllocError) -> ReadFault {
        ReadFault::NoMemory
    }
}

impl<T: Drop> From<AllocFailed<T>> for ReadFault {
    ghost use Rattle.cdb_read.specs.declared.fault.ReadFault.TheVariants.{NoMemory};

    ghost from_gives = { λ _ f. f ≡ NoMemory };

    fn from(_: AllocFailed<T>) -> ReadFault {
        ReadFault::NoMemory
    }
}

impl From<StoreFault> for ReadFault {
    ghost use Rattle.cdb_read.specs.Views.Reads.{store_fault};

    ghost from_gives = { λ e f. f ≡ store_fault e };

    fn from(fault: StoreFault) -> ReadFault {
        match fault {
            StoreFault::Device => ReadFault::Device,
            StoreFault::NoMemory => ReadFault::NoMemory,
        }
    }
}

impl From<OutFault> for ReadFault {
    ghost use Rattle.cdb_read.specs.declared.fault.ReadFault.TheVariants.{Output};

    ghost from_gives = { λ _ f. f ≡ Output };

    fn from(_: OutFault) -> ReadFault {
        ReadFault::Output
    }
}
