// The file of a database that is given up.
ghost use Rattle.std.specs.Prelude.{◌≡◌, None};
ghost use Rattle.cdb_c.specs.Calls.{kept_in, file_in, file_of_kept};

use crate::maker::database::Database;
use crate::maker::handle::Handle;
use cdb_store::{FileStore, RealFile};
use std::alloc::Global;
use std::os::fd::IntoRawFd;

/// Returns the file of a database, as it is: what its maker still collects is dropped, and nothing
/// is written.
pub(crate) fn file_of(database: Database) -> Option<FileStore<RealFile>>
    ensures { result ≡ file_in database }
{
    match database {
        Database::Open(making) => Some(making.maker.into_store().discard()),
        Database::Made(finished) => Some(finished.store.discard()),
        Database::Lent => None,
    }
}

/// Takes the database out of a handle, frees it, and returns its file.
pub(crate) fn taken_file(alloc: Global, handle: &mut Handle) -> Option<FileStore<RealFile>>
    ensures file { result ≡ file_of_kept (kept_in handle.old) }
    ensures none { kept_in handle.new ≡ None }
{
    match handle.take(alloc) {
        Some(database) => file_of(Box::into_inner(database)),
        None => None,
    }
}

/// Gives a file up to C, which has its descriptor. It stays open.
///
/// No contract can say that a descriptor stays open. So every other function returns the file that
/// it gives up, and only `leave_open` and `number` let go of a file.
pub(crate) fn leave_open(file: Option<FileStore<RealFile>>) {
    if let Some(file) = file {
        let _ = file.into_file().into_file().into_raw_fd();
    }
}
