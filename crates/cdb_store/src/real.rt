// The file of the system: the lines that call the system and note what it answered.
ghost use Rattle.std.specs.Prelude.{◌≡◌, ◌<◌, ◌↔◌, [], ◌∷◌, None, IfOk, IfErr};
ghost use Rattle.std.specs.IoError.{error_kind, raw_os_error};

use crate::raw::{RawFault, RawFile, note_part};
use crate::trace::{Call, Trace};
use std::fs::{self, File, Metadata, OpenOptions, Permissions, TryLockError};
use std::io::{self, ErrorKind};
use std::os::fd::AsRawFd;
use std::os::unix::fs::{FileExt, MetadataExt, OpenOptionsExt};
use std::rt::Files;

/// The mode of a file that all may read and write, before the umask takes bits from it.
pub const READ_AND_WRITTEN: u32 = 0o666;

/// The greatest number of a standard stream.
pub const LAST_STANDARD: i32 = 2;

/// Returns the opened file, or closes it if it has the number of a standard stream: what is meant
/// for that stream would be written into the file.
fn apart(file: File) -> io::Result<File> {
    if file.as_raw_fd() <= LAST_STANDARD {
        return Err(io::Error::from(ErrorKind::InvalidInput));
    }
    Ok(file)
}

/// Returns true if both are the metadata of one file.
fn is_one(one: &Metadata, other: &Metadata) -> bool {
    one.dev() == other.dev() && one.ino() == other.ino()
}

/// A file of the system.
#[derive(Drop)]
pub struct RealFile {
    file: File,
    trace: Trace,
    /// The system's number for its latest error in a raw call.
    error: Option<i32>,
    /// The stamp of the file when it was opened, if reads fail once that changes.
    seen: Option<Stamp>,
    /// True if a read failed because the stamp had changed.
    is_changed: bool,
}

/// A file's length in bytes, and the time of its last change in seconds and nanoseconds.
#[derive(Clone, Copy)]
struct Stamp {
    len: u64,
    seconds: i64,
    nanoseconds: i64,
}

impl Stamp {
    /// Returns the stamp of an open file.
    fn of(file: &File) -> io::Result<Stamp> {
        let found = file.metadata()?;
        Ok(Stamp {
            len: found.len(),
            seconds: found.mtime(),
            nanoseconds: found.mtime_nsec(),
        })
    }

    /// Returns true if both stamps are the same.
    fn is(&self, other: &Stamp) -> bool {
        self.len == other.len
            && self.seconds == other.seconds
            && self.nanoseconds == other.nanoseconds
    }
}

impl RealFile {
    ghost use Rattle.cdb_store.specs.FileStore.{events_of, trace_of};

    /// A file that was just opened, with no call noted.
    pub fn opened(file: File) -> RealFile
        ensures { result.trace.events ≡ [] }
    {
        RealFile {
            file,
            trace: Trace::new(),
            error: None,
            seen: None,
            is_changed: false,
        }
    }

    /// A file that was just opened. Its reads fail once its length or the time of its last change
    /// differs from now: bytes read before and after that might be of two files.
    pub fn watched(file: File) -> io::Result<RealFile>
        ensures { IfOk result (λ f. f.trace.events ≡ []) }
    {
        let seen = Stamp::of(&file)?;
        let mut watched = RealFile::opened(file);
        watched.seen = Some(seen);
        Ok(watched)
    }

    /// A file that was just made or emptied.
    pub fn made(file: File) -> RealFile
        ensures { events_of result ≡ (Call.Made, []) ∷ [] }
    {
        let mut made = RealFile::opened(file);
        made.trace.note(&Call::Made, &[]);
        made
    }

    /// Makes a file under a name that nothing has, for reading and writing. It follows no link. The
    /// file's mode is `mode` less the bits that the umask takes.
    pub fn create_new<R: Files<File = File>>(rt: &R, path: &str, mode: u32) -> io::Result<RealFile>
        ensures made { IfOk result (λ f. events_of f ≡ (Call.Made, []) ∷ []) }
    {
        let mut options = OpenOptions::new();
        options.create_new(true).mode(mode);
        let file = options.read(true).write(true).open(rt, path)?;
        match apart(file) {
            Ok(file) => Ok(RealFile::made(file)),
            Err(error) => {
                // It was just made. If it stays, a later create takes it away.
                let _ = fs::remove_file(rt, path);
                Err(error)
            }
        }
    }

    /// Opens a regular file for reading and writing. It does not wait: opening a pipe to read and
    /// write never makes a process wait, and then the function fails.
    ///
    /// `InvalidInput`: what was opened is no regular file, or it got the number of a standard
    /// stream.
    pub fn open_regular<R: Files<File = File>>(rt: &R, path: &str) -> io::Result<RealFile>
        ensures opened { IfOk result (λ f. events_of f ≡ []) }
    {
        let file = apart(OpenOptions::new().read(true).write(true).open(rt, path)?)?;
        if !file.metadata()?.is_file() {
            return Err(io::Error::from(ErrorKind::InvalidInput));
        }
        Ok(RealFile::opened(file))
    }

    /// Makes a file, or opens one that has the name without emptying it, for reading and writing.
    /// It fails if the name is a link.
    pub fn opened_to_empty<R: Files<File = File>>(rt: &R, path: &str) -> io::Result<RealFile>
        ensures opened { IfOk result (λ f. events_of f ≡ []) }
    {
        match RealFile::create_new(rt, path, READ_AND_WRITTEN) {
            Ok(made) => Ok(RealFile::opened(made.into_file())),
            Err(error) if error.kind() == ErrorKind::AlreadyExists => {
                let mut options = OpenOptions::new();
                let file = apart(options.read(true).write(true).open(rt, path)?)?;
                // The check comes after the open: a link is a file of its own.
                if !is_one(&file.metadata()?, &fs::symlink_metadata(rt, path)?) {
                    return Err(error);
                }
                Ok(RealFile::opened(file))
            }
            Err(error) => Err(error),
        }
    }

    /// Empties the file, if it is a regular one: a device has nothing that could be emptied.
    pub fn emptied(self) -> io::Result<RealFile>
        ensures made { IfOk result (λ f. events_of f ≡ (Call.Made, []) ∷ []) }
    {
        let file = self.into_file();
        if file.metadata()?.is_file() {
            file.set_len(0)?;
        }
        Ok(RealFile::made(file))
    }

    /// Takes the lock of the file, which is held until the file is closed. It does not wait:
    /// `WouldBlock` says that another has the lock.
    pub fn try_lock(&self) -> Result<(), TryLockError> {
        self.file.try_lock()
    }

    /// Gives the file these permission bits, whatever the umask.
    pub fn set_permissions(&self, permissions: Permissions) -> io::Result<()> {
        self.file.set_permissions(permissions)
    }

    /// Returns the system's file, which stays open.
    pub fn into_file(self) -> File {
        let RealFile { file, trace, .. } = self;
        drop(trace);
        file
    }

    /// Returns the system's number for the error of the last raw call that failed, if it had one. A
    /// read past the end of the file and a write that writes nothing fail without one.
    pub fn last_error(&self) -> Option<i32>
        ensures { result ≡ self.now.error }
    {
        self.error
    }

    /// Returns true if a read failed because the file had changed.
    pub fn is_changed(&self) -> bool
        ensures { result ≡ self.now.is_changed }
    {
        self.is_changed
    }

    /// Returns `read`, or `Failed` if the file is watched and has changed or its stamp can't be
    /// read.
    fn unchanged(&mut self, read: Result<usize, RawFault>) -> Result<usize, RawFault>
        ensures same { IfOk result (λ n. read ≡ Ok n) }
        ensures trace { self.new.trace ≡ self.old.trace }
    {
        let Some(seen) = self.seen else {
            return read;
        };
        match Stamp::of(&self.file) {
            Ok(now) if now.is(&seen) => read,
            Ok(_) => {
                self.is_changed = true;
                Err(RawFault::Failed)
            }
            Err(error) => {
                self.error = error.raw_os_error();
                Err(RawFault::Failed)
            }
        }
    }

    /// Returns the calls on the file, which only clauses read.
    pub fn trace(&self) -> &Trace
        ensures { result.now ≡ trace_of self.now }
    {
        &self.trace
    }

    /// Returns the file's metadata, with its kind, device and inode. It reads no byte of the file.
    pub fn metadata(&self) -> io::Result<Metadata> {
        self.file.metadata()
    }
}

/// Returns `Interrupted` if a signal interrupted the system's call, and `Failed` for any other
/// error.
fn fault_of(error: &io::Error) -> RawFault
    ensures { (result ≡ RawFault.Interrupted) ↔ (error_kind error.now ≡ ErrorKind.Interrupted) }
{
    if error.kind() == ErrorKind::Interrupted {
        RawFault::Interrupted
    } else {
        RawFault::Failed
    }
}

/// Returns the number of bytes that a read or a write did, at least one, or its fault. After a fault
/// `error` is the system's number for it, or `None` if the system met no error.
fn part_of(answer: io::Result<usize>, error: &mut Option<i32>) -> Result<usize, RawFault>
    ensures some { IfOk result (λ n. 0 < n) }
    ensures same { IfOk result (λ n. answer ≡ Ok n) }
    ensures again { IfErr answer (λ e. error_kind e ≡ ErrorKind.Interrupted
        → result ≡ Err RawFault.Interrupted) }
    ensures interrupt { result ≡ Err RawFault.Interrupted → IfErr answer (λ e.
        error_kind e ≡ ErrorKind.Interrupted) }
    ensures stays { IfOk result (λ _. error.new ≡ error.old) }
    ensures none { IfOk answer (λ n. n ≡ 0 → error.new ≡ None) }
    ensures number { IfErr answer (λ e. error.new ≡ raw_os_error e) }
{
    match answer {
        Ok(0) => {
            *error = None;
            Err(RawFault::Failed)
        }
        Ok(n) => Ok(n),
        Err(met) => {
            *error = met.raw_os_error();
            Err(fault_of(&met))
        }
    }
}

// No proof shows that these lines do what they note. Each function names its tests.
impl RawFile for RealFile {
    ghost calls = { λ f. f.trace.events };

    // Shown by tests/faults/run.py, with short and interrupted calls, and by tests/cli/inputs.py.
    fn read_some(&mut self, pos: u64, into: &mut [u8]) -> Result<usize, RawFault> {
        let read = part_of(self.file.read_at(into, pos), &mut self.error);
        let answer = self.unchanged(read);
        note_part(&mut self.trace, Call::Read(pos), Call::Failed, into, answer);
        answer
    }

    // Shown by tests/faults/run.py, with short and interrupted calls.
    fn write_some(&mut self, pos: u64, bytes: &[u8]) -> Result<usize, RawFault> {
        let answer = part_of(self.file.write_at(bytes, pos), &mut self.error);
        let failed = Call::NotWritten(pos, bytes.len() as u64);
        note_part(&mut self.trace, Call::Wrote(pos), failed, bytes, answer);
        answer
    }

    // Shown by tests/faults/run.py.
    fn length(&mut self) -> Result<u64, RawFault> {
        match self.file.metadata() {
            Ok(metadata) => {
                let len = metadata.len();
                self.trace.note(&Call::Length(len), &[]);
                Ok(len)
            }
            Err(error) => {
                self.error = error.raw_os_error();
                self.trace.note(&Call::Failed, &[]);
                Err(RawFault::Failed)
            }
        }
    }

    // Shown by tests/faults/run.py.
    fn set_length(&mut self, len: u64) -> Result<(), RawFault> {
        match self.file.set_len(len) {
            Ok(()) => {
                self.trace.note(&Call::Cut(len), &[]);
                Ok(())
            }
            Err(error) => {
                self.error = error.raw_os_error();
                self.trace.note(&Call::NotCut(len), &[]);
                Err(RawFault::Failed)
            }
        }
    }

    // Shown by tests/faults/syncs.py, names.py and run.py.
    fn sync(&mut self) -> Result<(), RawFault> {
        match self.file.sync_all() {
            Ok(()) => {
                self.trace.note(&Call::Synced, &[]);
                Ok(())
            }
            Err(error) => {
                self.error = error.raw_os_error();
                self.trace.note(&Call::NotSynced, &[]);
                Err(RawFault::Failed)
            }
        }
    }

    fn give(&mut self, pos: u64, bytes: &[u8]) {
        self.trace.note(&Call::Gave(pos), bytes);
    }

    fn refuse(&mut self) {
        self.trace.note(&Call::Refused, &[]);
    }

    fn refuse_sync(&mut self) {
        self.trace.note(&Call::NotSynced, &[]);
    }

    fn give_up(&mut self, pos: u64, n: u64) {
        self.trace.note(&Call::NotWritten(pos, n), &[]);
    }

    fn lose(&mut self, _least: u64, _most: u64) {
        self.trace.note(&Call::Lost, &[]);
    }
}
