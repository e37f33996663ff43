// The numbers that the making calls return to C, and the numbers that C passes.
ghost use Rattle.std.specs.Prelude.{◌≡◌};
ghost use Rattle.cdb_c.specs.Codes.{fault_code, put_code, done_code, found_code, removed_code};
ghost use Rattle.cdb_c.specs.Codes.{mode_of, appended_code};

use cdb_form::Mode;
use cdb_make::{MakeFault, Put};

/// Returns the number of a fault.
fn fault_code(fault: MakeFault) -> i32
    ensures { result ≡ fault_code fault }
{
    match fault {
        MakeFault::Broken => -1,
        MakeFault::Lookup => -2,
        MakeFault::TooBig => -3,
        MakeFault::NoMemory => -4,
        MakeFault::Writing => -5,
    }
}

/// Returns the number of a call that only succeeds or fails.
pub(crate) fn done_code(answer: Result<(), MakeFault>) -> i32
    ensures { result ≡ done_code answer }
{
    match answer {
        Ok(()) => 0,
        Err(fault) => fault_code(fault),
    }
}

/// Returns the number of a put: 1 says that the key was there.
pub(crate) fn put_code(answer: Result<Put, MakeFault>) -> i32
    ensures { result ≡ put_code answer }
{
    match answer {
        Ok(Put::Added) => 0,
        Ok(Put::AddedAgain | Put::Present | Put::Replaced(_)) => 1,
        Err(fault) => fault_code(fault),
    }
}

/// Returns the number of an append.
pub(crate) fn appended_code(answer: Result<usize, MakeFault>) -> i32
    ensures { result ≡ appended_code answer }
{
    match answer {
        Ok(_) => 0,
        Err(fault) => fault_code(fault),
    }
}

/// Returns the number of a look: 1 says that the key is there.
pub(crate) fn found_code(answer: Result<bool, MakeFault>) -> i32
    ensures { result ≡ found_code answer }
{
    match answer {
        Ok(false) => 0,
        Ok(true) => 1,
        Err(fault) => fault_code(fault),
    }
}

/// Returns the number of a removal: 1 says that there were records.
pub(crate) fn removed_code(answer: Result<u64, MakeFault>) -> i32
    ensures { result ≡ removed_code answer }
{
    match answer {
        Ok(0) => 0,
        Ok(_) => 1,
        Err(fault) => fault_code(fault),
    }
}

/// Returns the mode of a number of cdb.h.
pub(crate) fn mode_of(number: u32) -> Mode
    ensures { result ≡ mode_of number }
{
    match number {
        0 => Mode::Add,
        2 => Mode::Insert,
        3 => Mode::Warn,
        _ => Mode::Replace,
    }
}
