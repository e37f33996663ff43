// The exit status of the program.
ghost use Rattle.std.specs.Prelude.{◌≡◌};
ghost use Rattle.cdb_show.specs.Status.{is_damage, exit_status};

use crate::fault::Fault;
use cdb_command::Command;
use cdb_read::ReadFault;

/// The exit status if all went well.
pub const DONE: u8 = 0;

/// The exit status for a command line that isn't understood.
pub const BAD_USAGE: u8 = 2;

/// The exit status if a value is missing, and if a check met damage.
const NEGATIVE: u8 = 100;

/// The exit status for every other fault.
pub const FAILED: u8 = 111;

/// Returns true if a file is damaged, as a fault of its reader says.
fn is_damage(fault: ReadFault) -> bool
    ensures { result ≡ is_damage fault }
{
    match fault {
        ReadFault::Short
        | ReadFault::Table(_)
        | ReadFault::Record(_)
        | ReadFault::Slot(_, _)
        | ReadFault::Twice(_)
        | ReadFault::Unindexed(_) => true,
        ReadFault::Device | ReadFault::NoMemory | ReadFault::Output => false,
    }
}

/// The exit status of the program if a command ended by a fault: 100 for a value that is
/// missing, and for a damaged file that was checked; 111 for all else.
pub fn status_of(command: &Command, fault: &Fault) -> u8
    ensures { result ≡ exit_status command.now fault.now }
{
    match (command, *fault) {
        (_, Fault::Missing) => NEGATIVE,
        (Command::Check { .. }, Fault::Read(fault)) if is_damage(fault) => NEGATIVE,
        _ => FAILED,
    }
}
