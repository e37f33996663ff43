// The handle that a program in C holds of a database.
ghost use Rattle.std.specs.Prelude.{◌≡◌, Some, None, MatchOption};
ghost use Rattle.cdb_c.specs.Addresses.{is_kept};

use crate::maker::address::BoxAddress;
use crate::maker::database::Database;
use crate::maker::parts::Parts;
use std::alloc::Global;
use std::mem::replace;

/// A database on the heap, or none. A handle whose 16 bytes are zeros has none.
#[repr(C)]
#[derive(Drop)]
pub struct Handle {
    is_full: bool,
    address: BoxAddress,
    ghost agrees: { is_full ≡ is_kept address.kept },
}

impl Handle {
    ghost use Rattle.cdb_c.specs.Calls.{kept_in};

    /// Returns a handle of no database.
    pub(crate) fn empty(alloc: Global) -> Handle
        ensures { kept_in result ≡ None }
    {
        Handle {
            is_full: false,
            address: BoxAddress::empty(alloc),
        }
    }

    /// Returns a handle of a database.
    pub(crate) fn of(database: Box<Database>) -> Handle
        ensures { kept_in result ≡ Some database.value }
    {
        Handle {
            is_full: true,
            address: BoxAddress::of_parts(Parts::of(database)),
        }
    }

    /// Takes its database out of it.
    pub(crate) fn take(&mut self, alloc: Global) -> Option<Box<Database>>
        ensures taken { MatchOption result (kept_in self.old ≡ None)
            (λ b. kept_in self.old ≡ Some b.value) }
        ensures left { kept_in self.new ≡ None }
    {
        let Handle { is_full, address } = replace(self, Handle::empty(alloc));
        if is_full {
            Some(address.into_parts().into_box())
        } else {
            None
        }
    }
}
