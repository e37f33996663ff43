// A box of a database as an address, or no box.
ghost use Rattle.std.specs.Prelude.{◌≡◌, true, Option, Some, None};
ghost use Rattle.cdb_c.specs.declared.maker.database.Database.{Database};
ghost use Rattle.cdb_c.specs.Addresses.{kept_coded, address_owns, is_kept};

use crate::maker::database::Database;
use crate::maker::parts::Parts;
use std::alloc::Global;
use std::marker::Model;

/// The address of a database on the heap, or an address that means nothing.
///
/// Dropping a slot does not free the database: `Handle::take` returns its box.
#[repr(C)]
#[derive(Drop)]
pub struct BoxAddress {
    at: *mut u8,
    alloc: Global,
    pub ghost kept: { Option Database } by { kept_coded },
}

impl Model for BoxAddress {
    ghost also_owns = { λ s. address_owns s.alloc s.at s.kept };
}

impl BoxAddress {
    /// Returns a slot of no database. Its address means nothing.
    pub(crate) fn empty(alloc: Global) -> BoxAddress
        ensures { result.kept ≡ None }
    {
        BoxAddress {
            at: std::ptr::null_mut(),
            alloc,
        }
    }

    /// Returns a slot of a box's parts.
    pub(crate) fn of_parts(parts: Parts<Database, Global>) -> BoxAddress
        ensures { result.kept ≡ Some parts.value }
    {
        let Parts { ptr, alloc } = parts;
        BoxAddress {
            at: ptr as *mut u8,
            alloc,
        }
    }

    /// Returns the parts of its box.
    pub(crate) fn into_parts(self) -> Parts<Database, Global>
        requires { is_kept self.kept ≡ true }
        ensures { self.kept ≡ Some result.value }
    {
        let BoxAddress { at, alloc } = self;
        Parts {
            ptr: at as *mut Database,
            alloc,
        }
    }
}
