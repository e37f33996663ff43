// The names of the system: the lines that call it, and note its answers.
ghost use Rattle.std.specs.Prelude.{◌≡◌, [], ◌∷◌, IfErr, None, OnOk, Some, string_bytes, true};
ghost use Rattle.cdb_names.specs.declared.answer.Answer.TheVariants.{Yes};
ghost use Rattle.cdb_names.specs.declared.answer.Lock.TheVariants.{Held};
ghost use Rattle.cdb_names.specs.declared.name_trace.NameCall.TheVariants.{Locked, NotMade, NotOpened, Renamed, NotRenamed, Same};
ghost use Rattle.std.specs.Option.{ForSome};
ghost use Rattle.cdb_names.specs.declared.refusal.Newest.TheVariants.{Nothing};
ghost use Rattle.cdb_names.specs.Folder.{IsRemoval};
ghost use Rattle.cdb_names.specs.Refusals.{IsUnkept, IsUnrefused, may_be_for, refusal_in, refused_for, refused_name};

use crate::answer::{Answer, Found, Lock};
use crate::locks::locked;
use crate::looks::{Look, folder_of, has_name, is_link, is_one, is_one_of, looked};
use crate::name_fault::NameFault;
use crate::name_trace::{NameCall, NameTrace};
use crate::names::{Names, Unrenamed};
use crate::refusal::{Cause, Newest, Refusal};
use crate::replace::PRIVATE;
use crate::shown::Shown;
use crate::standard_input::input_look;
use crate::system_links::is_system_link;
use cdb_store::{RealFile, Trace};
use std::fs::{self, File, Metadata, Permissions};
use std::io::{self, ErrorKind};
use std::os::unix::fs::{MetadataExt, PermissionsExt};
use std::rt::Files;

/// The names of the system's files.
#[derive(Drop)]
pub struct RealNames<'a, R> {
    rt: &'a R,
    trace: NameTrace,
    /// The name that was refused last, if there was memory for it.
    last: Newest,
    /// The number of the error of the last call that failed on the file whose name was removed
    /// last.
    file_error: Option<i32>,
    /// The number of the error of the last removal, if that failed.
    unremoved: Option<i32>,
    ghost newest: { ForSome (refusal_in last) (λ refusal. refused_for refusal.cause trace.events
        ≡ Some (string_bytes refusal.name, string_bytes refusal.other)) },
    ghost none: { last ≡ Nothing → IsUnrefused trace.events },
}

impl<'a, R: Files<File = File> + AllocGlobal> RealNames<'a, R> {
    /// Returns names without calls.
    pub fn new(rt: &'a R) -> RealNames<'a, R>
        ensures { result.trace.events ≡ [] }
    {
        RealNames {
            rt,
            trace: NameTrace::new(),
            last: Newest::Nothing,
            file_error: None,
            unremoved: None,
        }
    }

    /// Notes a call that is on no file, and refused no name.
    fn note(&mut self, call: &NameCall, name: &str, other: &str)
        requires { refused_name call.now name.now other.now ≡ None }
        ensures trace { self.new.trace.events
            ≡ (call.now, name.now, other.now, []) ∷ self.old.trace.events }
    {
        self.trace
            .note(call, name.as_bytes(), other.as_bytes(), &Trace::new());
    }

    /// Notes a call that is on no file, and refused its first name.
    fn refuse(&mut self, call: &NameCall, name: &str, other: &str, cause: Cause)
        requires refused { refused_name call.now name.now other.now ≡ Some name.now }
        requires why { may_be_for call.now cause ≡ true }
        ensures trace { self.new.trace.events
            ≡ (call.now, name.now, other.now, []) ∷ self.old.trace.events }
    {
        self.refuse_of(call, name, other, name, cause, &Trace::new());
    }

    /// Notes a call on a file with these calls. The call refused the name `refused`.
    fn refuse_of(
        &mut self,
        call: &NameCall,
        name: &str,
        other: &str,
        refused: &str,
        cause: Cause,
        file: &Trace,
    )
        requires refused { refused_name call.now name.now other.now ≡ Some refused.now }
        requires why { may_be_for call.now cause ≡ true }
        ensures trace { self.new.trace.events
            ≡ (call.now, name.now, other.now, file.now.events) ∷ self.old.trace.events }
    {
        self.last = Newest::copied(self.rt.alloc(), refused, other, cause);
        self.trace
            .note(call, name.as_bytes(), other.as_bytes(), file);
    }
}

/// The permission bits for all, of a file's mode.
const FOR_ALL: u32 = 0o777;

/// Returns the permission bits for all, and the user, of what was looked at.
fn shown_by(found: &Metadata) -> Shown {
    Shown {
        bits: found.permissions().mode() & FOR_ALL,
        user: found.uid(),
    }
}

/// Removes a name if an open file has it. `Err`: it was not removed, with the number of the error
/// if a call failed. A look that failed is made once more.
fn removed<R: Files<File = File>>(rt: &R, name: &str, file: &RealFile) -> Result<(), Option<i32>> {
    let is_own = match has_name(rt, name, file) {
        Err(_) => has_name(rt, name, file)?,
        Ok(is_own) => is_own,
    };
    if !is_own {
        return Err(None);
    }
    fs::remove_file(rt, name).map_err(|error| error.raw_os_error())
}

/// Returns the permission bits and the user of what was looked at, if it is a regular file. `Err`:
/// the system did not say, with the number of its error.
fn held_in(look: &Look) -> Result<Option<Shown>, Option<i32>> {
    match look {
        Look::There(found) if found.is_file() => Ok(Some(shown_by(found))),
        Look::There(_) | Look::Missing => Ok(None),
        Look::Unknown(number) => Err(*number),
    }
}

/// Returns the fault of a call on a name that failed with this error.
fn fault_of(error: &io::Error) -> NameFault {
    if error.kind() == ErrorKind::OutOfMemory {
        NameFault::NoMemory
    } else {
        NameFault::Failed
    }
}

/// Returns the reason why the regular file that was seen under a name was not opened: it is gone,
/// so another create took it; it was no regular file when it was opened; or the system's error.
fn unopened(error: &io::Error, _fault: NameFault) -> Cause
    ensures { may_be_for (NotOpened _fault) result ≡ true }
{
    match error.raw_os_error() {
        None => Cause::Special,
        Some(_) if error.kind() == ErrorKind::NotFound => Cause::Held,
        number => Cause::of_number(number),
    }
}

/// Returns the reason why no file was made under a name that nothing had: the one that was there
/// could not be removed, another create has made one since, or the system's error.
fn unmade(error: &io::Error, unremoved: Option<i32>, _fault: NameFault) -> Cause
    ensures { may_be_for (NotMade _fault) result ≡ true }
{
    match unremoved {
        _ if error.kind() != ErrorKind::AlreadyExists => Cause::of_error(error),
        Some(number) => Cause::System(number),
        None => Cause::Held,
    }
}

/// Returns the reason why a lock is not to be had. A create may have left the file whole if another
/// process holds it and its permission bits are not those that a file has while it is built.
fn held_by(file: &RealFile, cause: Cause) -> Cause
    requires { may_be_for (Locked Held) cause ≡ true }
    ensures { may_be_for (Locked Held) result ≡ true }
{
    match (cause, file.metadata()) {
        (Cause::Held, Ok(found)) if shown_by(&found).bits & !PRIVATE != 0 => Cause::Locked,
        _ => cause,
    }
}

/// Returns the reason why two names had one file: it is one file under two names, unless the first
/// name does not have it any more. Then another create gave it the other name in the meantime.
fn same_cause<R: Files<File = File>>(rt: &R, own: &Look, name: &str) -> Cause
    ensures { may_be_for (Same Yes) result ≡ true }
{
    match is_one(own, &looked(fs::symlink_metadata(rt, name))) {
        Ok(false) => Cause::Held,
        Ok(true) | Err(_) => Cause::Same,
    }
}

// No proof shows that these lines do what they note: each has its tests, which are named at it.
impl<'a, R: Files<File = File> + AllocGlobal> Names for RealNames<'a, R> {
    type File = RealFile;

    ghost calls = { λ n. n.trace.events };

    ghost lacks = { λ n. IsUnkept n.last };

    fn refusal(&self) -> Option<&Refusal> {
        match &self.last {
            Newest::Refused(refusal) => Some(refusal),
            Newest::Nothing | Newest::Unkept => None,
        }
    }

    fn file_error(&self) -> Option<i32> {
        self.file_error
    }

    // Shown by tests/faults/names.py, and by the kinds of files in tests/cli/cases.py.
    fn is_special(&mut self, name: &str) -> Answer {
        let is = match looked(fs::metadata(self.rt, name)) {
            Look::There(found) if !found.is_file() => Ok(true),
            Look::There(_) | Look::Missing => is_system_link(self.rt, name),
            Look::Unknown(number) => Err(number),
        };
        match is {
            Ok(false) => {
                self.note(&NameCall::Special(Answer::No), name, "");
                Answer::No
            }
            Ok(true) => {
                let call = NameCall::Special(Answer::Yes);
                self.refuse(&call, name, "", Cause::Special);
                Answer::Yes
            }
            Err(number) => {
                let call = NameCall::Special(Answer::Unknown);
                self.refuse(&call, name, "", Cause::of_number(number));
                Answer::Unknown
            }
        }
    }

    // Shown by tests/faults/names.py, and by the rows over links and two file systems of the tests
    // crate.
    fn is_file_of(&mut self, name: &str, other: &str) -> Answer {
        let own = looked(fs::symlink_metadata(self.rt, name));
        let is = match &own {
            Look::Missing => Ok(false),
            Look::Unknown(number) => Err(*number),
            Look::There(_) => is_one_of(self.rt, &own, other),
        };
        match is {
            Ok(false) => {
                self.note(&NameCall::Same(Answer::No), name, other);
                Answer::No
            }
            Ok(true) => {
                let cause = same_cause(self.rt, &own, name);
                self.refuse(&NameCall::Same(Answer::Yes), name, other, cause);
                Answer::Yes
            }
            Err(number) => {
                let call = NameCall::Same(Answer::Unknown);
                self.refuse(&call, name, other, Cause::of_number(number));
                Answer::Unknown
            }
        }
    }

    // Shown by tests/faults/names.py and others.py.
    fn look(&mut self, name: &str) -> Found {
        let found = looked(fs::symlink_metadata(self.rt, name));
        match &found {
            Look::Missing => {
                self.note(&NameCall::Looked(Found::Nothing), name, "");
                Found::Nothing
            }
            Look::There(there) if there.is_file() => {
                self.note(&NameCall::Looked(Found::File), name, "");
                Found::File
            }
            Look::There(_) => {
                let cause = if is_link(&found) {
                    Cause::Link
                } else {
                    Cause::Special
                };
                self.refuse(&NameCall::Looked(Found::Other), name, "", cause);
                Found::Other
            }
            Look::Unknown(number) => {
                let call = NameCall::Looked(Found::Unknown);
                self.refuse(&call, name, "", Cause::of_number(*number));
                Found::Unknown
            }
        }
    }

    // Shown by tests/faults/others.py: a pipe that takes the name makes no create wait.
    fn open_old(&mut self, name: &str) -> Result<RealFile, NameFault> {
        match RealFile::open_regular(self.rt, name) {
            Ok(file) => {
                self.note(&NameCall::Opened, name, "");
                Ok(file)
            }
            Err(error) => {
                let fault = fault_of(&error);
                self.refuse(
                    &NameCall::NotOpened(fault),
                    name,
                    "",
                    unopened(&error, fault),
                );
                Err(fault)
            }
        }
    }

    // Shown by tests/cli/orders.py, permissions.py and tests/faults/killed.py.
    fn make_new(&mut self, name: &str, bits: u32) -> Result<RealFile, NameFault> {
        match RealFile::create_new(self.rt, name, bits) {
            Ok(file) => {
                self.note(&NameCall::Made(bits), name, "");
                Ok(file)
            }
            Err(error) => {
                let fault = fault_of(&error);
                let cause = unmade(&error, self.unremoved, fault);
                self.refuse(&NameCall::NotMade(fault), name, "", cause);
                Err(fault)
            }
        }
    }

    // Shown by tests/cli/orders.py, locked.py and tests/faults/others.py.
    fn lock(&mut self, name: &str, file: &RealFile) -> Lock {
        match locked(file) {
            Ok(true) => {
                self.note(&NameCall::Locked(Lock::Taken), name, "");
                Lock::Taken
            }
            Ok(false) => {
                self.note(&NameCall::Locked(Lock::Unsupported), name, "");
                Lock::Unsupported
            }
            Err(cause) => {
                let cause = held_by(file, cause);
                self.refuse(&NameCall::Locked(Lock::Held), name, "", cause);
                Lock::Held
            }
        }
    }

    // Shown by tests/cli/orders.py and tests/faults/others.py.
    fn has_file(&mut self, name: &str, file: &RealFile) -> Answer {
        match has_name(self.rt, name, file) {
            Ok(true) => {
                self.note(&NameCall::Own(Answer::Yes), name, "");
                Answer::Yes
            }
            Ok(false) => {
                self.refuse(&NameCall::Own(Answer::No), name, "", Cause::Held);
                Answer::No
            }
            Err(number) => {
                let call = NameCall::Own(Answer::Unknown);
                self.refuse(&call, name, "", Cause::of_number(number));
                Answer::Unknown
            }
        }
    }

    // Shown by tests/cli/standard.py.
    fn is_input(&mut self, name: &str) -> Answer {
        let is = match looked(fs::symlink_metadata(self.rt, name)) {
            Look::Missing => Ok(false),
            found => is_one(&found, &input_look(self.rt)),
        };
        match is {
            Ok(false) => {
                self.note(&NameCall::Input(Answer::No), name, "");
                Answer::No
            }
            Ok(true) => {
                self.refuse(&NameCall::Input(Answer::Yes), name, "", Cause::Input);
                Answer::Yes
            }
            Err(number) => {
                let call = NameCall::Input(Answer::Unknown);
                self.refuse(&call, name, "", Cause::of_number(number));
                Answer::Unknown
            }
        }
    }

    // Shown by tests/cli/permissions.py and tests/faults/names.py.
    fn bits_for(&mut self, name: &str) -> Option<Option<Shown>> {
        match held_in(&looked(fs::symlink_metadata(self.rt, name))) {
            Ok(held) => {
                self.note(&NameCall::Bits(Some(held)), name, "");
                Some(held)
            }
            Err(number) => {
                let cause = Cause::of_number(number);
                self.refuse(&NameCall::Bits(None), name, "", cause);
                None
            }
        }
    }

    // Shown by tests/cli/permissions.py and tests/faults/names.py.
    fn bits_of(&mut self, name: &str, file: &RealFile) -> Option<Shown> {
        match file.metadata() {
            Ok(found) => {
                let shown = shown_by(&found);
                self.trace.note(
                    &NameCall::Seen(Some(shown)),
                    name.as_bytes(),
                    b"",
                    file.trace(),
                );
                Some(shown)
            }
            Err(error) => {
                let cause = Cause::of_error(&error);
                self.refuse_of(&NameCall::Seen(None), name, "", name, cause, file.trace());
                None
            }
        }
    }

    // Shown by tests/cli/permissions.py and tests/faults/names.py.
    /// The name is refused until the file is seen to have its bits.
    fn set_bits(&mut self, name: &str, file: &RealFile, bits: u32) {
        let cause = match file.set_permissions(Permissions::from_mode(bits)) {
            Ok(()) => Cause::Bits,
            Err(error) => Cause::of_error(&error),
        };
        self.refuse_of(&NameCall::Set(bits), name, "", name, cause, file.trace());
    }

    // Shown by tests/cli/taken.py, orders.py and tests/faults/others.py.
    /// The reason why it was not removed is kept only for the next file of that name: else it would
    /// hide why the create ended.
    fn remove_own(&mut self, name: &str, file: &RealFile) {
        self.file_error = file.last_error();
        let removed = removed(self.rt, name, file);
        self.unremoved = match removed {
            Ok(()) => None,
            Err(number) => number,
        };
        let call = removal(removed.is_ok());
        self.trace.note(&call, name.as_bytes(), b"", file.trace());
    }

    // Shown by tests/cli/taken.py, tests/faults/names.py and syncs.py.
    fn rename(
        &mut self,
        file: RealFile,
        len: u64,
        name: &str,
        other: &str,
    ) -> Result<(), Unrenamed<RealFile>>
        ensures ok { OnOk result (self.new.trace.events
            ≡ (Renamed len, name.now, other.now, file.trace.events) ∷ self.old.trace.events) }
        ensures err { IfErr result (λ u. self.new.trace.events
            ≡ (NotRenamed len u.fault, name.now, other.now, file.trace.events)
            ∷ self.old.trace.events) }
        ensures kept { IfErr result (λ u. u.file ≡ file) }
    {
        match renamed(self.rt, &file, len, name, other) {
            Ok(()) => {
                let call = NameCall::Renamed(len);
                self.trace
                    .note(&call, name.as_bytes(), other.as_bytes(), file.trace());
                Ok(())
            }
            Err((fault, cause)) => {
                let call = NameCall::NotRenamed(len, fault);
                self.refuse_of(&call, name, other, other, cause, file.trace());
                Err(Unrenamed { file, fault })
            }
        }
    }

    // Shown by tests/faults/syncs.py.
    fn sync_folder(&mut self, name: &str) -> bool {
        let is_synced = match File::open(self.rt, folder_of(name)) {
            Ok(folder) => folder.sync_all().is_ok(),
            Err(_) => false,
        };
        if is_synced {
            self.note(&NameCall::Synced, name, "");
        } else {
            self.note(&NameCall::NotSynced, name, "");
        }
        is_synced
    }
}

/// Gives a file of this length the other name, if its own name still has it.
fn renamed<R: Files<File = File>>(
    rt: &R,
    file: &RealFile,
    len: u64,
    name: &str,
    other: &str,
) -> Result<(), (NameFault, Cause)>
    ensures { IfErr result (λ e. may_be_for (NotRenamed len e.0) e.1 ≡ true) }
{
    let found = match file.metadata() {
        Ok(found) => Look::There(found),
        Err(error) => return Err((NameFault::Failed, Cause::of_error(&error))),
    };
    let is_whole = matches!(&found, Look::There(found) if found.len() == len);
    let now = looked(fs::symlink_metadata(rt, name));
    let is_own = match is_one(&now, &found) {
        Ok(is_own) => is_own,
        Err(number) => return Err((NameFault::Failed, Cause::of_number(number))),
    };
    if matches!(now, Look::Missing) {
        return Err((NameFault::Failed, Cause::Removed));
    }
    if !is_own || !is_whole {
        return Err((NameFault::Failed, Cause::Replaced));
    }
    match fs::rename(rt, name, other) {
        Ok(()) => Ok(()),
        Err(error) => Err((fault_of(&error), Cause::of_error(&error))),
    }
}

/// Returns the call that a removal is noted as.
fn removal(removed: bool) -> NameCall
    ensures { IsRemoval result }
{
    if removed {
        NameCall::Removed
    } else {
        NameCall::NotRemoved
    }
}
