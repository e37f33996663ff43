// The system's files: the lines that open them, and note it.
ghost use Rattle.std.specs.Prelude.{◌≡◌, [], ◌∷◌, IfErr, None, OnOk, Some, string_bytes, true};
ghost use Rattle.std.specs.Option.{ForSome};
ghost use Rattle.cdb_names.specs.Refusals.{IsUnkept, is_of_system, refusal_in};
ghost use Rattle.cdb_names.specs.declared.refusal.Newest.TheVariants.{Nothing};
ghost use Rattle.cdb_system.specs.Opening.{IsUnrefused, Misses, refused_by, refused_open, unopened};
ghost use Rattle.cdb_system.specs.declared.open_trace.OpenCall.TheVariants.{Unopened};

use crate::open_trace::{OpenCall, OpenTrace};
use crate::seen::{FileNumber, Seen, SeenReader};
use crate::system::System;
use cdb_names::{Answer, Cause, Lock, NameFault, Newest, RealNames, Refusal, has_name, locked};
use cdb_show::{Fault, NotedReader};
use cdb_store::{FileStore, LAST_STANDARD, RealFile, StoreFault};
use std::fs::{self, File};
use std::io::{self, ErrorKind, Stdin};
use std::os::fd::AsRawFd;
use std::rt::Files;

/// The name under which the system shows the file of standard input.
const INPUT: &str = "/proc/self/fd/0";

/// The name under which the system shows the file of standard output.
const OUTPUT: &str = "/proc/self/fd/1";

/// The files of the system, by their names.
#[derive(Drop)]
pub struct RealSystem<'a, R> {
    rt: &'a R,
    /// The last state that was seen of the opened streams and of the standard ones.
    seen: &'a Seen,
    trace: OpenTrace,
    /// The name that was refused last, if there was memory for it.
    last: Newest,
    ghost newest: { ForSome (refusal_in last) (λ refusal. refused_open refusal.cause trace.events
        ≡ Some (string_bytes refusal.name, string_bytes refusal.other, refusal.cause)) },
    ghost none: { last ≡ Nothing → IsUnrefused trace.events },
}

/// The reason why a file was not opened: the fault, and its cause.
#[derive(Clone, Copy)]
struct Why {
    fault: NameFault,
    cause: Cause,
}

impl<'a, R: Files<File = File> + AllocGlobal> RealSystem<'a, R> {
    /// Returns the files, with no call on them yet.
    pub fn new(rt: &'a R, seen: &'a Seen) -> RealSystem<'a, R>
        ensures { result.trace.events ≡ [] }
    {
        RealSystem {
            rt,
            seen,
            trace: OpenTrace::new(),
            last: Newest::Nothing,
        }
    }

    /// Notes a call that refused no name.
    fn note(&mut self, call: &OpenCall, name: &str)
        requires { (why : Cause) → refused_by why call.now name.now ≡ None }
        ensures trace { self.new.trace.events ≡ (call.now, name.now) ∷ self.old.trace.events }
    {
        self.trace.note(call, name.as_bytes());
    }

    /// Notes a call that refused its name.
    fn refuse(&mut self, call: &OpenCall, name: &str, cause: Cause)
        requires { refused_by cause call.now name.now ≡ Some (name.now, [], cause) }
        ensures trace { self.new.trace.events ≡ (call.now, name.now) ∷ self.old.trace.events }
    {
        self.last = Newest::copied(self.rt.alloc(), name, "", cause);
        self.trace.note(call, name.as_bytes());
    }

    /// Notes that the file of a name was not opened, and returns the fault.
    fn refused(&mut self, why: Why, name: &str) -> Fault
        ensures fault { result ≡ unopened why.fault }
        ensures trace { self.new.trace.events
            ≡ (Unopened why.fault why.cause, name.now) ∷ self.old.trace.events }
    {
        self.refuse(&OpenCall::Unopened(why.fault, why.cause), name, why.cause);
        match why.fault {
            NameFault::Failed => Fault::Open,
            NameFault::NoMemory => Fault::NoMemory,
        }
    }

    /// Notes that the file of a name was opened by this call, or was not.
    fn given(
        &mut self,
        opened: Result<FileStore, Why>,
        call: &OpenCall,
        name: &str,
    ) -> Result<FileStore, Fault>
        requires { (why : Cause) → refused_by why call.now name.now ≡ None }
        ensures calls { OnOk result
            (self.new.trace.events ≡ (call.now, name.now) ∷ self.old.trace.events) }
        ensures fails { IfErr result
            (Misses name.now self.old.trace.events self.new.trace.events) }
    {
        match opened {
            Ok(store) => {
                self.note(call, name);
                Ok(store)
            }
            Err(why) => Err(self.refused(why, name)),
        }
    }
}

impl<'a, R: Files<File = File> + AllocGlobal> System for RealSystem<'a, R> {
    type File = FileStore;

    type Stream = NotedReader<SeenReader<'a, File>>;

    type Made = FileStore;

    type Input = NotedReader<SeenReader<'a, Stdin>>;

    type Names = RealNames<'a, R>;

    ghost calls = { λ s. s.trace.events };

    ghost lacks = { λ s. IsUnkept s.last };

    ghost gives = { λ _ _. Unit {0} };

    ghost reads = { λ _ _. Unit {0} };

    ghost makes = { λ _ _. Unit {0} };

    fn refusal(&self) -> Option<&Refusal> {
        match &self.last {
            Newest::Refused(refusal) => Some(refusal),
            Newest::Nothing | Newest::Unkept => None,
        }
    }

    fn store_error(&self, file: &FileStore) -> Option<i32> {
        file.file().last_error()
    }

    fn is_changed(&self, file: &FileStore) -> bool {
        file.file().is_changed()
    }

    fn made_error(&self, file: &FileStore) -> Option<i32> {
        file.file().last_error()
    }

    fn read_error(&self) -> Option<i32> {
        self.seen.read_error()
    }

    fn reads_output(&self) -> bool {
        self.seen.reads_output()
    }

    fn output_error(&self) -> Option<i32> {
        self.seen.output_error()
    }

    fn errors_error(&self) -> Option<i32> {
        self.seen.errors_error()
    }

    // Shown by tests/cli/cases.py and tests/faults/names.py.
    fn open_store(&mut self, name: &str) -> Result<FileStore, Fault> {
        let opened = match opened_at_places(self.rt, name) {
            Ok(file) => store_over(RealFile::opened(file)),
            Err(why) => Err(why),
        };
        self.given(opened, &OpenCall::AtPlaces, name)
    }

    // Shown by tests/cli/inputs.py.
    fn open_base(&mut self, name: &str) -> Result<FileStore, Fault> {
        let opened = match opened_at_places(self.rt, name) {
            Ok(file) => store_watching(file),
            Err(why) => Err(why),
        };
        self.given(opened, &OpenCall::Watched, name)
    }

    // Shown by tests/cli/inputs.py.
    fn keep_apart(&self) {
        let output = file_of(self.rt, OUTPUT);
        self.seen.keep_apart(output);
        if output.is_some() && output == file_of(self.rt, INPUT) {
            self.seen.refuse_input();
        }
    }

    // Shown by tests/cli/cases.py and tests/faults/closed.py.
    /// The file is given up if it got the number of a standard stream that is closed.
    fn open(&mut self, name: &str) -> Result<NotedReader<SeenReader<'a, File>>, Fault> {
        match opened_in_turn(self.rt, name, self.seen.output_file()) {
            Ok(file) => {
                self.note(&OpenCall::InTurn, name);
                Ok(NotedReader::over(SeenReader::new(file, self.seen)))
            }
            Err(why) => Err(self.refused(why, name)),
        }
    }

    // Shown by tests/cli/cases.py and tests/faults/names.py.
    fn is_stream(&mut self, name: &str) -> Answer {
        match is_stream(self.rt, name) {
            Ok(true) => {
                self.note(&OpenCall::Stream(Answer::Yes), name);
                Answer::Yes
            }
            Ok(false) => {
                self.note(&OpenCall::Stream(Answer::No), name);
                Answer::No
            }
            Err(cause) => {
                self.refuse(&OpenCall::Stream(Answer::Unknown), name, cause);
                Answer::Unknown
            }
        }
    }

    // Shown by tests/cli/cases.py and tests/faults/others.py.
    fn open_to_empty(&mut self, name: &str) -> Result<RealFile, Fault> {
        match RealFile::opened_to_empty(self.rt, name) {
            Ok(file) => {
                self.note(&OpenCall::ToEmpty, name);
                Ok(file)
            }
            Err(error) => Err(self.refused(of_emptying(self.rt, name, &error), name)),
        }
    }

    // Shown by tests/cli/orders.py and locked.py.
    /// A pipe or a device is never emptied, and its lock is not requested.
    fn lock(&mut self, name: &str, file: &RealFile) -> Lock {
        let lock = match file.metadata() {
            Ok(found) if !found.is_file() => Ok(false),
            Ok(_) => locked(file),
            Err(error) => Err(Cause::of_error(&error)),
        };
        match lock {
            Ok(true) => {
                self.note(&OpenCall::Locked(Lock::Taken), name);
                Lock::Taken
            }
            Ok(false) => {
                self.note(&OpenCall::Locked(Lock::Unsupported), name);
                Lock::Unsupported
            }
            Err(cause) => {
                self.refuse(&OpenCall::Locked(Lock::Held), name, cause);
                Lock::Held
            }
        }
    }

    // Shown by tests/cli/orders.py, tests/faults/names.py and others.py.
    fn has_file(&mut self, name: &str, file: &RealFile) -> Answer {
        match has_name(self.rt, name, file) {
            Ok(true) => {
                self.note(&OpenCall::Own(Answer::Yes), name);
                Answer::Yes
            }
            Ok(false) => {
                self.refuse(&OpenCall::Own(Answer::No), name, Cause::Lost);
                Answer::No
            }
            Err(number) => {
                let call = OpenCall::Own(Answer::Unknown);
                self.refuse(&call, name, Cause::of_number(number));
                Answer::Unknown
            }
        }
    }

    fn has_made(&mut self, name: &str, file: &FileStore) -> Answer {
        self.has_file(name, file.file())
    }

    // Shown by tests/cli/cases.py and tests/faults/others.py.
    fn empty(&mut self, name: &str, file: RealFile) -> Result<FileStore, Fault> {
        match file.emptied() {
            Ok(file) => {
                self.note(&OpenCall::Emptied, name);
                Ok(FileStore::made(file))
            }
            Err(error) => Err(self.refused(of_error(&error), name)),
        }
    }
}

/// Opens the file of a name at places. It has none if it is a pipe or a device.
fn opened_at_places<R: Files<File = File>>(rt: &R, name: &str) -> Result<File, Why> {
    match is_stream(rt, name) {
        Ok(false) => {}
        Ok(true) => return Err(found(Cause::NoPlaces)),
        Err(cause) => return Err(found(cause)),
    }
    match File::open(rt, name) {
        Ok(file) => Ok(file),
        Err(error) => Err(of_error(&error)),
    }
}

/// A store in a file that was just opened, whose reads fail once it changes.
fn store_watching(file: File) -> Result<FileStore, Why> {
    match RealFile::watched(file) {
        Ok(file) => store_over(file),
        Err(error) => Err(of_error(&error)),
    }
}

/// A store in a file that was just opened.
fn store_over(file: RealFile) -> Result<FileStore, Why>
    requires { file.trace.events ≡ [] }
{
    match FileStore::over(file) {
        Ok(store) => Ok(store),
        Err(StoreFault::Device) => Err(found(Cause::Failed)),
        Err(StoreFault::NoMemory) => Err(Why {
            fault: NameFault::NoMemory,
            cause: Cause::Failed,
        }),
    }
}

/// Opens the file of a name to be read from its start, unless it gets the number of a standard
/// stream, or is the file `other`.
fn opened_in_turn<R: Files<File = File>>(
    rt: &R,
    name: &str,
    other: Option<FileNumber>,
) -> Result<File, Why> {
    let file = match File::open(rt, name) {
        Ok(file) if file.as_raw_fd() <= LAST_STANDARD => return Err(found(Cause::Closed)),
        Ok(file) => file,
        Err(error) => return Err(of_error(&error)),
    };
    if other.is_none() {
        return Ok(file);
    }
    match file.metadata() {
        Ok(now) if other == Some(FileNumber::of(&now)) => Err(found(Cause::Output)),
        Ok(_) => Ok(file),
        Err(error) => Err(of_error(&error)),
    }
}

/// The regular file that a name leads to. `None`: it leads to another or to none, or the system does
/// not say.
fn file_of<R: Files<File = File>>(rt: &R, name: &str) -> Option<FileNumber> {
    match fs::metadata(rt, name) {
        Ok(found) if found.is_file() => Some(FileNumber::of(&found)),
        _ => None,
    }
}

/// Returns the reason for this cause, which is not lack of memory.
fn found(cause: Cause) -> Why {
    Why {
        fault: NameFault::Failed,
        cause,
    }
}

/// Returns the reason why the system opened no file, or did not empty one.
fn of_error(error: &io::Error) -> Why {
    let fault = if error.kind() == ErrorKind::OutOfMemory {
        NameFault::NoMemory
    } else {
        NameFault::Failed
    };
    Why {
        fault,
        cause: Cause::of_error(error),
    }
}

/// Returns the reason why the system opened no file to be emptied. A file that was there and was
/// not opened is a link, or was replaced. An error without a number means that the file got a
/// standard stream's.
fn of_emptying<R: Files<File = File>>(rt: &R, name: &str, error: &io::Error) -> Why {
    match error.kind() {
        ErrorKind::AlreadyExists => match fs::symlink_metadata(rt, name) {
            Ok(now) if now.is_symlink() => found(Cause::Link),
            _ => found(Cause::Lost),
        },
        ErrorKind::InvalidInput if error.raw_os_error().is_none() => found(Cause::Closed),
        _ => of_error(error),
    }
}

/// Returns true if a name leads to a pipe or a device, which is only read from its start to its
/// end. A name without a file does not.
fn is_stream<R: Files<File = File>>(rt: &R, name: &str) -> Result<bool, Cause>
    ensures { IfErr result (λ cause. is_of_system cause ≡ true) }
{
    match fs::metadata(rt, name) {
        Ok(found) => Ok(!found.is_file() && !found.is_dir()),
        Err(error) if error.kind() == ErrorKind::NotFound => Ok(false),
        Err(error) => Err(Cause::of_error(&error)),
    }
}
