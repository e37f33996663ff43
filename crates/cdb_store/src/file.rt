// A store in a file.
ghost use Rattle.std.specs.Prelude.{◌≡◌, ◌+◌, ◌<◌, ◌≤◌, ◌^◌, ◌↔◌, true, false, max, List, ℕ, []};
ghost use Rattle.std.specs.Prelude.{◌∷◌, length, IfOk, OnOk, OnErr, IsErrOf};
ghost use Rattle.std.proofs.Common.{arith};
ghost use Rattle.cdb_store.specs.declared.trace.Call.TheVariants.{Made, Length, Synced, Refused};
ghost use Rattle.cdb_store.specs.declared.store.StoreFault.TheVariants.{Device, NoMemory};
ghost use Rattle.cdb_store.specs.Images.{SameImages, AfterRead, AfterWrite, AfterTornWrite};
ghost use Rattle.cdb_store.specs.Images.{AfterCut, HasCause};
ghost use Rattle.cdb_store.specs.Calls.{lost, IsSynced, AreAtLeast, IsMeasured, failed_syncs};
ghost use Rattle.cdb_store.specs.Lengths.{file_size};
ghost use Rattle.std.specs.IoError.{error_kind};

use crate::raw::RawFile;
use crate::real::RealFile;
use crate::transfer::{length_within, read_all, write_all};
use crate::{Store, StoreFault};
use std::fs::{File, OpenOptions};
use std::io::{self, ErrorKind};
use std::rt::Files;

/// The greatest length of a file.
const GREATEST_LENGTH: u64 = (1 << 63) - 1;

/// A store in a file.
///
/// It takes no memory. After a write or a cut that failed it requests the file's length. If that
/// fails too, or the failed call cannot have left that length, `len` keeps its value and every
/// later call but `len` and `reserve` returns `Device`, without calling the file.
///
/// After a flush that failed every later flush returns `Device`, without calling the file: the
/// system may have dropped the bytes that it could not write.
#[derive(Drop)]
pub struct FileStore<F: RawFile = RealFile> {
    file: F,
    len: u64,
    /// True if a failed write or cut has left a length that couldn't be measured.
    is_lost: bool,
    /// True if a flush has failed.
    is_unsynced: bool,
    ghost bounded: { len < 2 ^ 63 },
    ghost known: { is_lost ≡ lost (F.calls file) },
    ghost sure: { is_unsynced ≡ false → failed_syncs (F.calls file) ≡ 0 },
    ghost unsure: { is_unsynced ≡ true → 0 < failed_syncs (F.calls file) },
    ghost long: { is_lost ≡ false → AreAtLeast len (F.calls file) },
}

/// Returns the fault for an error in opening a file: `NoMemory` if the system had none, else
/// `Device`.
fn open_fault(error: &io::Error) -> StoreFault
    ensures { (result ≡ NoMemory) ↔ (error_kind error.now ≡ ErrorKind.OutOfMemory) }
{
    if error.kind() == ErrorKind::OutOfMemory {
        StoreFault::NoMemory
    } else {
        StoreFault::Device
    }
}

impl FileStore {
    ghost use Rattle.cdb_store.specs.FileStore.{calls_of, images_of, len_of};

    /// Makes a file, or empties one that has the name, for reading and writing.
    ///
    /// `NoMemory`: the system had none. `Device`: the file can't be made or opened so.
    pub fn create<R: Files<File = File>>(rt: &R, path: &str) -> Result<FileStore, StoreFault>
        ensures images { IfOk result (λ f. (b : List ℕ) → (images_of f b ↔ (b ≡ []))) }
        ensures made { IfOk result (λ f. calls_of f ≡ (Made, []) ∷ []) }
    {
        let mut options = OpenOptions::new();
        options.create(true).truncate(true);
        FileStore::made_by(rt, options, path)
    }

    /// Makes a file for reading and writing. It follows no link of that name.
    ///
    /// `NoMemory`: the system had none. `Device`: the file can't be made, or something of that name
    /// is there already.
    pub fn create_new<R: Files<File = File>>(rt: &R, path: &str) -> Result<FileStore, StoreFault>
        ensures images { IfOk result (λ f. (b : List ℕ) → (images_of f b ↔ (b ≡ []))) }
        ensures made { IfOk result (λ f. calls_of f ≡ (Made, []) ∷ []) }
    {
        let mut options = OpenOptions::new();
        options.create_new(true);
        FileStore::made_by(rt, options, path)
    }

    /// Opens a file for reading and writing, by options that make it or empty it.
    fn made_by<R: Files<File = File>>(
        rt: &R,
        mut options: OpenOptions,
        path: &str,
    ) -> Result<FileStore, StoreFault>
        ensures images { IfOk result (λ f. (b : List ℕ) → (images_of f b ↔ (b ≡ []))) }
        ensures made { IfOk result (λ f. f.file.trace.events ≡ (Made, []) ∷ []) }
    {
        match options.read(true).write(true).open(rt, path) {
            Ok(file) => Ok(FileStore::empty(RealFile::made(file))),
            Err(error) => Err(open_fault(&error)),
        }
    }

    /// Opens a file for reading. A write or a cut of the store returns `Device`.
    ///
    /// `NoMemory`: the system had none. `Device`: the file can't be opened, reports no length, or
    /// has 2^63 bytes or more.
    pub fn open<R: Files<File = File>>(rt: &R, path: &str) -> Result<FileStore, StoreFault>
        ensures images { IfOk result (λ f. (b : List ℕ) → (images_of f b ↔ (length b ≡ len_of f))) }
        ensures told { IfOk result (λ f. calls_of f ≡ (Length (len_of f), []) ∷ []) }
    {
        match File::open(rt, path) {
            Ok(file) => FileStore::over(RealFile::opened(file)),
            Err(error) => Err(open_fault(&error)),
        }
    }
}

impl<F: RawFile> FileStore<F> {
    /// A store in a file that was just made or emptied.
    fn empty(file: F) -> FileStore<F>
        requires known { lost (F.calls file) ≡ false }
        requires sure { failed_syncs (F.calls file) ≡ 0 }
        ensures size { result.len ≡ 0 }
        ensures file { result.file ≡ file }
    {
        FileStore {
            file,
            len: 0,
            is_lost: false,
            is_unsynced: false,
        }
    }
}

impl<F: RawFile> FileStore<F> {
    ghost use Rattle.cdb_store.specs.FileStore.{file_of, len_of};

    /// A store in a raw file that was just made.
    pub fn made(file: F) -> FileStore<F>
        requires { F.calls file ≡ (Made, []) ∷ [] }
        ensures size { len_of result ≡ 0 }
        ensures file { file_of result ≡ file }
    {
        FileStore::empty(file)
    }

    /// Returns the store's raw file, for questions about it.
    pub fn file(&self) -> &F
        ensures { result.now ≡ file_of self.now }
    {
        &self.file
    }

    /// Returns the store's raw file, without the store.
    pub fn into_file(self) -> F
        ensures { result ≡ file_of self }
    {
        let FileStore {
            file,
            len: _,
            is_lost: _,
            is_unsynced: _,
        } = self;
        file
    }
}

impl<F: RawFile> FileStore<F> {
    ghost use Rattle.cdb_store.specs.FileStore.{calls_of};

    /// Returns `Device` if the length is lost, without calling the file.
    fn refuse_if_lost(&mut self) -> Result<(), StoreFault>
        ensures ok { OnOk result (self.new.is_lost ≡ false) }
        ensures same { OnOk result (self.new ≡ self.old) }
        ensures err { OnErr result (lost (calls_of self.old) ≡ true) }
        ensures refused { OnErr result (calls_of self.new ≡ (Refused, []) ∷ calls_of self.old) }
        ensures len { self.new.len ≡ self.old.len }
        ensures syncs { failed_syncs (calls_of self.new) ≡ failed_syncs (calls_of self.old) }
        ensures memory { IsErrOf result NoMemory → ⊥ }
    {
        if self.is_lost {
            self.file.refuse();
            return Err(StoreFault::Device);
        }
        Ok(())
    }
}

impl<F: RawFile + Drop> FileStore<F> {
    ghost use Rattle.cdb_store.specs.FileStore.{calls_of, images_of, len_of};

    /// A store in a raw file that was just opened, of the length that it reports.
    ///
    /// `Device`: the file reports no length, or 2^63 bytes or more.
    pub fn over(mut file: F) -> Result<FileStore<F>, StoreFault>
        requires { F.calls file ≡ [] }
        ensures images { IfOk result (λ f. (b : List ℕ) → (images_of f b ↔ (length b ≡ len_of f))) }
        ensures told { IfOk result (λ f. calls_of f ≡ (Length (len_of f), []) ∷ []) }
        ensures memory { IsErrOf result NoMemory → ⊥ }
    {
        match length_within(&mut file, 0, GREATEST_LENGTH) {
            Some(len) => Ok(FileStore {
                file,
                len,
                is_lost: false,
                is_unsynced: false,
            }),
            None => Err(StoreFault::Device),
        }
    }
}

impl<F: RawFile> Store for FileStore<F> {
    ghost use Rattle.cdb_store.specs.FileStore.{calls_of, images_of, failures_of, written_of};

    ghost size = { λ f. f.len };

    ghost image = { λ f. images_of f };

    ghost failures = { λ f. failures_of f };

    ghost unwritten = { λ f. failures_of f };

    ghost written = { λ f. written_of f };

    ghost room = { λ f. 2 ^ 63 };

    ghost settled = { λ f. IsSynced (calls_of f) };

    ghost in_room = { λ f. Prim.omega (arith, f.bounded) };

    ghost image_size = { λ f b is. file_size f.len (calls_of f) b is };

    fn len(&self) -> u64 {
        self.len
    }

    fn read_at(&mut self, pos: u64, into: &mut [u8]) -> Result<(), StoreFault>
        requires { pos + length into.old ≤ self.old.len }
        ensures ok { OnOk result
            (AfterRead pos into.new (images_of self.old) (images_of self.new)) }
        ensures err { OnErr result (SameImages (images_of self.old) (images_of self.new)) }
        ensures size { self.new.len ≡ self.old.len }
        ensures written { written_of self.new ≡ written_of self.old }
        ensures cause { HasCause (failures_of self.old) (failures_of self.new) result }
        ensures ok_failures { OnOk result (failures_of self.new ≡ failures_of self.old) }
        ensures memory { IsErrOf result NoMemory → ⊥ }
        ensures lost { lost (calls_of self.old) ≡ true → IsErrOf result Device }
        ensures still_known { lost (calls_of self.new) ≡ lost (calls_of self.old) }
        ensures syncs { failed_syncs (calls_of self.new) ≡ failed_syncs (calls_of self.old) }
    {
        self.refuse_if_lost()?;
        read_all(&mut self.file, pos, into)?;
        self.file.give(pos, into);
        Ok(())
    }

    fn write_at(&mut self, pos: u64, bytes: &[u8]) -> Result<(), StoreFault>
        requires start { pos ≤ self.old.len }
        requires end { pos + length bytes.now < 2 ^ 63 }
        ensures ok { OnOk result
            (AfterWrite pos bytes.now (images_of self.old) (images_of self.new)) }
        ensures ok_size { OnOk result (self.new.len ≡ max self.old.len (pos + length bytes.now)) }
        ensures ok_written { OnOk result
            (written_of self.new ≡ written_of self.old + length bytes.now) }
        ensures torn { AfterTornWrite pos (length bytes.now) (images_of self.old)
            (images_of self.new) }
        ensures longer { self.old.len ≤ self.new.len }
        ensures not_past { self.new.len ≤ max self.old.len (pos + length bytes.now) }
        ensures more_written { written_of self.old ≤ written_of self.new }
        ensures at_most_written { written_of self.new ≤ written_of self.old + length bytes.now }
        ensures memory { IsErrOf result NoMemory → ⊥ }
        ensures cause { HasCause (failures_of self.old) (failures_of self.new) result }
        ensures ok_failures { OnOk result (failures_of self.new ≡ failures_of self.old) }
        ensures lost { lost (calls_of self.old) ≡ true → IsErrOf result Device }
        ensures measured { OnErr result
            (IsMeasured self.old.len (max self.old.len (pos + length bytes.now)) self.old.len
            self.new.len (calls_of self.old) (calls_of self.new)) }
        ensures syncs { failed_syncs (calls_of self.new) ≡ failed_syncs (calls_of self.old) }
    {
        self.refuse_if_lost()?;
        let most = self.len.max(pos + bytes.len() as u64);
        match write_all(&mut self.file, pos, bytes) {
            Ok(()) => {
                self.len = most;
                Ok(())
            }
            Err(fault) => {
                match length_within(&mut self.file, self.len, most) {
                    Some(left) => self.len = left,
                    None => self.is_lost = true,
                }
                Err(fault)
            }
        }
    }

    fn reserve(&mut self, _len: u64) -> Result<(), StoreFault> {
        Ok(())
    }

    fn cut(&mut self, len: u64) -> Result<(), StoreFault>
        requires { len ≤ self.old.len }
        ensures images { AfterCut self.new.len (images_of self.old) (images_of self.new) }
        ensures ok { OnOk result (self.new.len ≡ len) }
        ensures no_shorter { len ≤ self.new.len }
        ensures no_longer { self.new.len ≤ self.old.len }
        ensures written { written_of self.new ≡ written_of self.old }
        ensures cause { HasCause (failures_of self.old) (failures_of self.new) result }
        ensures ok_failures { OnOk result (failures_of self.new ≡ failures_of self.old) }
        ensures memory { IsErrOf result NoMemory → ⊥ }
        ensures lost { lost (calls_of self.old) ≡ true → IsErrOf result Device }
        ensures measured { OnErr result
            (IsMeasured len self.old.len self.old.len self.new.len (calls_of self.old)
            (calls_of self.new)) }
        ensures syncs { failed_syncs (calls_of self.new) ≡ failed_syncs (calls_of self.old) }
    {
        self.refuse_if_lost()?;
        match self.file.set_length(len) {
            Ok(()) => {
                self.len = len;
                Ok(())
            }
            Err(_) => {
                match length_within(&mut self.file, len, self.len) {
                    Some(left) => self.len = left,
                    None => self.is_lost = true,
                }
                Err(StoreFault::Device)
            }
        }
    }

    /// Has the file synced, so that a loss of power does not take its bytes. After a flush that
    /// failed it returns `Device`, without calling the file.
    fn flush(&mut self) -> Result<(), StoreFault>
        ensures images { SameImages (images_of self.old) (images_of self.new) }
        ensures size { self.new.len ≡ self.old.len }
        ensures written { written_of self.new ≡ written_of self.old }
        ensures cause { HasCause (failures_of self.old) (failures_of self.new) result }
        ensures ok_failures { OnOk result (failures_of self.new ≡ failures_of self.old) }
        ensures memory { IsErrOf result NoMemory → ⊥ }
        ensures lost { lost (calls_of self.old) ≡ true → IsErrOf result Device }
        ensures still_known { lost (calls_of self.new) ≡ lost (calls_of self.old) }
        ensures ok { OnOk result (IsSynced (calls_of self.new)) }
        ensures synced { OnOk result (calls_of self.new ≡ (Synced, []) ∷ calls_of self.old) }
        ensures unsynced { 0 < failed_syncs (calls_of self.old) → IsErrOf result Device }
    {
        self.refuse_if_lost()?;
        if self.is_unsynced {
            self.file.refuse_sync();
            return Err(StoreFault::Device);
        }
        match self.file.sync() {
            Ok(()) => Ok(()),
            Err(_) => {
                self.is_unsynced = true;
                Err(StoreFault::Device)
            }
        }
    }
}
