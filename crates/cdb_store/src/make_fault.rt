// The reasons why a database was not made.
ghost use Rattle.std.specs.Prelude.{◌≡◌, Some};
ghost use Rattle.cdb_store.specs.MakeFault.{make_number, make_message};

use crate::store::StoreFault;
use std::alloc::{AllocError, AllocFailed};
use std::error::Error;
use std::fmt;

/// The reasons why a database was not made.
#[derive(Clone, Copy, Debug, PartialEq, Eq)]
pub enum MakeFault {
    /// An earlier call broke the maker, or its store returned other bytes than were written.
    Broken,
    /// The store failed while earlier records were read.
    Lookup,
    /// The finished file would pass the limit.
    TooBig,
    /// An allocation failed.
    NoMemory,
    /// The store failed while it was written.
    Writing,
}

impl MakeFault {
    /// Returns the number of the fault, counted from 1 in the order of the variants.
    pub fn number(&self) -> u8
        ensures { result ≡ make_number self.now }
    {
        match self {
            MakeFault::Broken => 1,
            MakeFault::Lookup => 2,
            MakeFault::TooBig => 3,
            MakeFault::NoMemory => 4,
            MakeFault::Writing => 5,
        }
    }

    /// Returns the fault's message, in words.
    pub fn message(&self) -> &'static str
        ensures { result.now ≡ make_message self.now }
    {
        match self {
            MakeFault::Broken => "database broken by an earlier fault",
            MakeFault::Lookup | MakeFault::Writing => "database cannot be read or written",
            MakeFault::TooBig => "database too large",
            MakeFault::NoMemory => "no memory",
        }
    }
}

impl fmt::Display for MakeFault {
    ghost output = { λ f. Some (make_message f) };

    fn fmt<W: fmt::Write>(&self, f: &mut fmt::Formatter<W>) -> fmt::Result {
        f.write_str(self.message())
    }
}

impl Error for MakeFault {}

impl From<AllocError> for MakeFault {
    ghost use Rattle.cdb_store.specs.declared.make_fault.MakeFault.TheVariants.{NoMemory};

    ghost from_gives = { λ _ f. f ≡ NoMemory };

    fn from(_: AllocError) -> MakeFault {
        MakeFault::NoMemory
    }
}

impl<T: Drop> From<AllocFailed<T>> for MakeFault {
    ghost use Rattle.cdb_store.specs.declared.make_fault.MakeFault.TheVariants.{NoMemory};

    ghost from_gives = { λ _ f. f ≡ NoMemory };

    fn from(_: AllocFailed<T>) -> MakeFault {
        MakeFault::NoMemory
    }
}

impl From<StoreFault> for MakeFault {
    ghost use Rattle.cdb_store.specs.MakeFault.{fault_of};

    ghost from_gives = { λ e f. f ≡ fault_of e };

    fn from(fault: StoreFault) -> MakeFault {
        match fault {
            StoreFault::Device => MakeFault::Writing,
            StoreFault::NoMemory => MakeFault::NoMemory,
        }
    }
}
