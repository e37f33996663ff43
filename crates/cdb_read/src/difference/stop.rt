// The reason why a difference of two databases was not written.
ghost use Rattle.std.specs.Prelude.{◌≡◌};
ghost use Rattle.cdb_read.specs.Differing.{flipped};

use crate::ReadFault;
use cdb_form::OutFault;
use std::alloc::AllocError;

/// The reason why a walk or a pass over a database beside another stopped. In a whole difference
/// the own database is the old one.
#[derive(Clone, Copy, Debug, PartialEq, Eq)]
pub enum Stop {
    /// The database that is walked was not read, an allocation failed, or the writer failed.
    Own(ReadFault),
    /// The other database was not read.
    Other(ReadFault),
}

impl Stop {
    /// Returns the same stop, with the two databases exchanged.
    pub(crate) fn flipped(self) -> Stop
        ensures { result ≡ flipped self }
    {
        match self {
            Stop::Own(fault) => Stop::Other(fault),
            Stop::Other(fault) => Stop::Own(fault),
        }
    }
}

impl From<ReadFault> for Stop {
    ghost use Rattle.cdb_read.specs.declared.difference.stop.Stop.TheVariants.{Own};

    ghost from_gives = { λ fault stop. stop ≡ Own fault };

    fn from(fault: ReadFault) -> Stop {
        Stop::Own(fault)
    }
}

impl From<AllocError> for Stop {
    ghost use Rattle.cdb_read.specs.declared.difference.stop.Stop.TheVariants.{Own};
    ghost use Rattle.cdb_read.specs.declared.fault.ReadFault.TheVariants.{NoMemory};

    ghost from_gives = { λ _ stop. stop ≡ Own NoMemory };

    fn from(_: AllocError) -> Stop {
        Stop::Own(ReadFault::NoMemory)
    }
}

impl From<OutFault> for Stop {
    ghost use Rattle.cdb_read.specs.declared.difference.stop.Stop.TheVariants.{Own};
    ghost use Rattle.cdb_read.specs.declared.fault.ReadFault.TheVariants.{Output};

    ghost from_gives = { λ _ stop. stop ≡ Own Output };

    fn from(_: OutFault) -> Stop {
        Stop::Own(ReadFault::Output)
    }
}
