// The faults of a run.
ghost use Rattle.std.specs.Prelude.{◌≡◌};
ghost use Rattle.cdb_show.specs.Views.Fault.{fault_number, text_fault, walk_fault, make_fault};
ghost use Rattle.cdb_show.specs.Views.Fault.{in_fault, new_fault, old_fault, read_fault, stop_fault};

use cdb_form::{InFault, OutFault, TextFault, WalkFault};
use cdb_read::ReadFault;
use cdb_read::difference::Stop;
use cdb_store::MakeFault;
use std::alloc::{AllocError, AllocFailed};

/// The reason why a run stopped.
#[derive(Clone, Copy, Debug, PartialEq, Eq)]
pub enum Fault {
    /// An input, counted from 1, was not read as a text.
    Text(u64, TextFault),
    /// The database was not made.
    Make(MakeFault),
    /// A record had a key that was there already, and the run was to stop there.
    Duplicate,
    /// The value that was looked up is not there.
    Missing,
    /// A database in a store was not read.
    Read(ReadFault),
    /// A database file was not walked to its end.
    Walk(WalkFault),
    /// A writer failed.
    Output,
    /// More bytes came than were allowed.
    Long,
    /// A file was not opened or made.
    Open,
    /// A database was not given its name.
    Rename,
    /// Memory ran out.
    NoMemory,
    /// The old database of a difference was not read.
    Old(ReadFault),
    /// The new database of a difference was not read.
    New(ReadFault),
    /// The old database of a difference has no table with slots, though bytes follow its head.
    NoOldTables,
    /// The new database of a difference has no table with slots, though bytes follow its head.
    NoNewTables,
    /// The base of a create has no table with slots, though bytes follow its head.
    NoBaseTables,
}

impl Fault {
    /// The number of the fault.
    pub fn number(&self) -> u8
        ensures { result ≡ fault_number self.now }
    {
        match self {
            Fault::Text(_, _) => 1,
            Fault::Make(_) => 2,
            Fault::Duplicate => 3,
            Fault::Missing => 4,
            Fault::Read(_) => 5,
            Fault::Walk(_) => 6,
            Fault::Output => 7,
            Fault::Long => 8,
            Fault::Open => 9,
            Fault::Rename => 10,
            Fault::NoMemory => 11,
            Fault::Old(_) => 12,
            Fault::New(_) => 13,
            Fault::NoOldTables => 14,
            Fault::NoNewTables => 15,
            Fault::NoBaseTables => 16,
        }
    }

    /// The fault of a run whose input, counted from 1, was not read. Lack of memory is the
    /// run's own.
    pub fn of_text(input: u64, fault: TextFault) -> Fault
        ensures { result ≡ text_fault input fault }
    {
        match fault {
            TextFault::NoMemory => Fault::NoMemory,
            _ => Fault::Text(input, fault),
        }
    }
}

impl Fault {
    /// The fault of a run that reads an old and a new database, if the old one was not read. Lack
    /// of memory is the run's own, and so is a writer that failed.
    pub(crate) fn of_old(fault: ReadFault) -> Fault
        ensures { result ≡ old_fault fault }
    {
        match fault {
            ReadFault::NoMemory => Fault::NoMemory,
            ReadFault::Output => Fault::Output,
            _ => Fault::Old(fault),
        }
    }

    /// The same fault as `of_old` gives, if the new database was not read.
    pub(crate) fn of_new(fault: ReadFault) -> Fault
        ensures { result ≡ new_fault fault }
    {
        match fault {
            ReadFault::NoMemory => Fault::NoMemory,
            ReadFault::Output => Fault::Output,
            _ => Fault::New(fault),
        }
    }

    /// The fault of a run that did not write the difference of two databases, from its reason.
    pub(crate) fn of_stop(stop: Stop) -> Fault
        ensures { result ≡ stop_fault stop }
    {
        match stop {
            Stop::Own(fault) => Fault::of_old(fault),
            Stop::Other(fault) => Fault::of_new(fault),
        }
    }
}

/// Lack of memory in a reader is the run's own, and so is a writer that failed there.
impl From<ReadFault> for Fault {
    ghost from_gives = { λ read fault. fault ≡ read_fault read };

    fn from(fault: ReadFault) -> Fault {
        match fault {
            ReadFault::NoMemory => Fault::NoMemory,
            ReadFault::Output => Fault::Output,
            _ => Fault::Read(fault),
        }
    }
}

/// Lack of memory in a walk is the run's own.
impl From<WalkFault> for Fault {
    ghost from_gives = { λ walk fault. fault ≡ walk_fault walk };

    fn from(fault: WalkFault) -> Fault {
        match fault {
            WalkFault::NoMemory => Fault::NoMemory,
            _ => Fault::Walk(fault),
        }
    }
}

/// A reader that fails while a file is taken whole is reported as one that fails in a walk.
impl From<InFault> for Fault {
    ghost from_gives = { λ input fault. fault ≡ in_fault input };

    fn from(fault: InFault) -> Fault {
        match fault {
            InFault::NoMemory => Fault::NoMemory,
            InFault::Failed => Fault::Walk(WalkFault::Input),
        }
    }
}

/// Lack of memory in a maker is the run's own.
impl From<MakeFault> for Fault {
    ghost from_gives = { λ make fault. fault ≡ make_fault make };

    fn from(fault: MakeFault) -> Fault {
        match fault {
            MakeFault::NoMemory => Fault::NoMemory,
            _ => Fault::Make(fault),
        }
    }
}

impl From<AllocError> for Fault {
    ghost use Rattle.cdb_show.specs.declared.fault.Fault.TheVariants.{NoMemory};

    ghost from_gives = { λ _ f. f ≡ NoMemory };

    fn from(_: AllocError) -> Fault {
        Fault::NoMemory
    }
}

impl<T: Drop> From<AllocFailed<T>> for Fault {
    ghost use Rattle.cdb_show.specs.declared.fault.Fault.TheVariants.{NoMemory};

    ghost from_gives = { λ _ f. f ≡ NoMemory };

    /// Drops the value that was not stored.
    fn from(_: AllocFailed<T>) -> Fault {
        Fault::NoMemory
    }
}

impl From<OutFault> for Fault {
    ghost use Rattle.cdb_show.specs.declared.fault.Fault.TheVariants.{Output};

    ghost from_gives = { λ _ f. f ≡ Output };

    fn from(_: OutFault) -> Fault {
        Fault::Output
    }
}
