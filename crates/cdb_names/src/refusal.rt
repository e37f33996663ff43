// The reason why a call on a name was refused.
ghost use Rattle.std.specs.Prelude.{◌≡◌, true};
ghost use Rattle.cdb_names.specs.Refusals.{is_of_system};

use std::alloc::{AllocError, Global};
use std::io;

/// The reason why a call on a name was refused: the system's error, or what was found.
#[derive(Clone, Copy, Debug, PartialEq, Eq)]
pub enum Cause {
    /// The system's error of this number.
    System(i32),
    /// A call failed, and the system gave no number.
    Failed,
    /// Another process holds the file, took its name or gave it another one.
    Held,
    /// Another process holds the lock of a file that has the permission bits of a whole one, so
    /// maybe no create makes it.
    Locked,
    /// A link has the name.
    Link,
    /// Something that is no regular file has the name.
    Special,
    /// A pipe or a device cannot be read by offset.
    NoPlaces,
    /// The file has the other name too.
    Same,
    /// The file is standard input.
    Input,
    /// The temporary file is not the one that was made, or has another length.
    Replaced,
    /// The temporary file was removed.
    Removed,
    /// The name no longer has the file that was opened under it.
    Lost,
    /// The file did not get its permission bits.
    Bits,
    /// The file got the number of a standard stream that is closed.
    Closed,
    /// The file is standard output.
    Output,
}

impl Cause {
    /// Returns the cause that the system gave.
    pub fn of_error(error: &io::Error) -> Cause
        ensures { is_of_system result ≡ true }
    {
        Cause::of_number(error.raw_os_error())
    }

    /// Returns the cause of a call whose error had this number, if it had one.
    pub fn of_number(number: Option<i32>) -> Cause
        ensures { is_of_system result ≡ true }
    {
        match number {
            Some(number) => Cause::System(number),
            None => Cause::Failed,
        }
    }
}

/// The newest call that refused a name, as far as it is kept.
#[derive(Drop)]
pub enum Newest {
    /// No call refused a name.
    Nothing,
    /// The name, and the reason.
    Refused(Refusal),
    /// A call refused a name, and an allocation for its copy failed.
    Unkept,
}

impl Newest {
    ghost use Rattle.std.specs.Prelude.{IfSome, string_bytes};
    ghost use Rattle.cdb_names.specs.Refusals.{refusal_in};
    ghost use Rattle.cdb_names.specs.declared.refusal.Newest.TheVariants.{Nothing};

    /// Returns the refusal of a call on a name, and on another one, if there is memory for their
    /// copies.
    pub fn copied(alloc: Global, name: &str, other: &str, cause: Cause) -> Newest
        ensures name { IfSome (refusal_in result) (λ r. string_bytes r.name ≡ name.now) }
        ensures other { IfSome (refusal_in result) (λ r. string_bytes r.other ≡ other.now) }
        ensures cause { IfSome (refusal_in result) (λ r. r.cause ≡ cause) }
        ensures refused { result ≡ Nothing → ⊥ }
    {
        match Refusal::new(alloc, name, other, cause) {
            Ok(refusal) => Newest::Refused(refusal),
            Err(_) => Newest::Unkept,
        }
    }
}

/// A name that a call refused, and the reason.
#[derive(Drop)]
pub struct Refusal {
    /// The name.
    pub name: String,
    /// The other name of the call, or none.
    pub other: String,
    /// The reason.
    pub cause: Cause,
}

impl Refusal {
    ghost use Rattle.std.specs.Prelude.{IfOk, string_bytes};

    /// Returns the refusal of a call on a name, and on another one.
    pub fn new(alloc: Global, name: &str, other: &str, cause: Cause) -> Result<Refusal, AllocError>
        ensures name { IfOk result (λ r. string_bytes r.name ≡ name.now) }
        ensures other { IfOk result (λ r. string_bytes r.other ≡ other.now) }
        ensures cause { IfOk result (λ r. r.cause ≡ cause) }
    {
        Ok(Refusal {
            name: String::from_str(alloc, name)?,
            other: String::from_str(alloc, other)?,
            cause,
        })
    }
}
