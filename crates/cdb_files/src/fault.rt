// The faults of a database that is made under its name, or opened.
ghost use Rattle.std.specs.Prelude.{◌≡◌, Some};
ghost use Rattle.cdb_files.specs.FileFault.{file_display, of_replace};

use cdb_make::MakeFault;
use cdb_names::ReplaceFault;
use cdb_read::{ReadFault, Unread};
use std::alloc::AllocFailed;
use std::error::Error;
use std::fmt;

/// The reason why a database was not made under its name, or not opened.
#[derive(Clone, Copy, Debug, PartialEq, Eq)]
pub enum FileFault {
    /// The file cannot be opened, or none can be made beside it.
    Open,
    /// An allocation failed, or the system had no memory.
    NoMemory,
    /// The file that was made cannot be synced.
    Write,
    /// The file that was made cannot be given the name.
    Rename,
    /// The database was not made.
    Make(MakeFault),
    /// The database was not read.
    Read(ReadFault),
}

impl fmt::Display for FileFault {
    ghost output = { λ f. Some (file_display f) };

    fn fmt<W: fmt::Write>(&self, f: &mut fmt::Formatter<W>) -> fmt::Result {
        match self {
            FileFault::Make(fault) => write!(f, "{fault}"),
            FileFault::Read(fault) => write!(f, "{fault}"),
            FileFault::Open => f.write_str("file cannot be opened"),
            FileFault::NoMemory => f.write_str("no memory"),
            FileFault::Write => f.write_str("database cannot be read or written"),
            FileFault::Rename => f.write_str("database cannot be renamed"),
        }
    }
}

impl Error for FileFault {}

impl From<ReplaceFault<MakeFault>> for FileFault {
    ghost from_gives = { λ e f. f ≡ of_replace e };

    fn from(fault: ReplaceFault<MakeFault>) -> FileFault {
        match fault {
            ReplaceFault::Open => FileFault::Open,
            ReplaceFault::NoMemory => FileFault::NoMemory,
            ReplaceFault::Write => FileFault::Write,
            ReplaceFault::Rename => FileFault::Rename,
            ReplaceFault::Build(fault) => FileFault::Make(fault),
        }
    }
}

impl<T: Drop> From<AllocFailed<T>> for FileFault {
    ghost use Rattle.cdb_files.specs.declared.fault.FileFault.TheVariants.{NoMemory};

    ghost from_gives = { λ _ f. f ≡ NoMemory };

    /// Drops the value that was not stored.
    fn from(_: AllocFailed<T>) -> FileFault {
        FileFault::NoMemory
    }
}

impl From<MakeFault> for FileFault {
    ghost use Rattle.cdb_files.specs.declared.fault.FileFault.TheVariants.{Make};

    ghost from_gives = { λ e f. f ≡ Make e };

    fn from(fault: MakeFault) -> FileFault {
        FileFault::Make(fault)
    }
}

impl From<ReadFault> for FileFault {
    ghost use Rattle.cdb_files.specs.declared.fault.FileFault.TheVariants.{Read};

    ghost from_gives = { λ e f. f ≡ Read e };

    fn from(fault: ReadFault) -> FileFault {
        FileFault::Read(fault)
    }
}

impl<S: Drop> From<Unread<S>> for FileFault {
    ghost use Rattle.cdb_files.specs.declared.fault.FileFault.TheVariants.{Read};

    ghost from_gives = { λ u f. f ≡ Read u.fault };

    /// Drops the store.
    fn from(unread: Unread<S>) -> FileFault {
        FileFault::Read(unread.fault)
    }
}
