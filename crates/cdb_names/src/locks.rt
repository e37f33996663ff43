// The system's answer to a request for a lock.
ghost use Rattle.std.specs.Prelude.{◌≡◌, IfErr, true};
ghost use Rattle.cdb_names.specs.Refusals.{may_be_for};
ghost use Rattle.cdb_names.specs.declared.answer.Lock.TheVariants.{Held};
ghost use Rattle.cdb_names.specs.declared.name_trace.NameCall.TheVariants.{Locked};

use crate::refusal::Cause;
use cdb_store::RealFile;
use std::fs::TryLockError;

/// Requests the lock of an open file, and does not wait for it. `Ok(false)`: its file system has no
/// locks. `Err`: another process holds the lock, or the system refused it.
pub fn locked(file: &RealFile) -> Result<bool, Cause>
    ensures { IfErr result (λ cause. may_be_for (Locked Held) cause ≡ true) }
{
    lock_of(file.try_lock())
}

/// Returns the outcome of a request for a lock. A file system has no locks only if it answers
/// `ENOLCK`, `ENOSYS` or `ENOTSUP`. Each other fault may hide a lock, as it does over NFS for a
/// file that was not opened to write.
fn lock_of(answer: Result<(), TryLockError>) -> Result<bool, Cause>
    ensures { IfErr result (λ cause. may_be_for (Locked Held) cause ≡ true) }
{
    match answer {
        Ok(()) => Ok(true),
        Err(TryLockError::WouldBlock) => Err(Cause::Held),
        Err(TryLockError::Error(error)) => match error.raw_os_error() {
            Some(ENOLCK | ENOSYS | ENOTSUP) => Ok(false),
            number => Err(Cause::of_number(number)),
        },
    }
}

/// The system's number for "no locks available".
const ENOLCK: i32 = 37;

/// The system's number for "function not implemented".
const ENOSYS: i32 = 38;

/// The system's number for "operation not supported".
const ENOTSUP: i32 = 95;
