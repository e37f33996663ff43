// A folder in memory that fails its calls from one on.
ghost use Rattle.std.specs.Prelude.{◌≡◌, [], ◌∷◌, IfErr, OnOk};
ghost use Rattle.cdb_names.specs.Folder.{IsCleared};
ghost use Rattle.cdb_names.specs.declared.name_trace.NameCall.TheVariants.{Renamed, NotRenamed};

use super::fake_file::FakeFile;
use cdb_files::{
    Answer, Found, Lock, NameCall, NameFault, NameTrace, Names, Refusal, Shown, Unrenamed, Wanted,
};
use cdb_store::Trace;
use std::alloc::Global;

/// What the name of the database has.
#[derive(Clone, Copy, Debug, PartialEq, Eq)]
pub enum Held {
    /// The old file.
    Old,
    /// The new file, which was synced before it got the name.
    New,
    /// A file that a crash may leave with any bytes.
    Torn,
    /// Nothing.
    Nothing,
}

/// A folder with a database. So many of its calls in a row, from one on, fail; and of a file that
/// it makes.
#[derive(Drop)]
pub struct FakeNames {
    /// What the database's name has.
    pub database: Held,
    /// The bytes of a new file under it.
    pub bytes: Vec<u8>,
    /// True if the temporary name has a file.
    pub has_temporary: bool,
    /// What it is, if it has one.
    pub kind: Found,
    /// True if another create holds it.
    pub is_held: bool,
    /// The permission bits of the new file.
    pub bits: u32,
    /// True if it keeps those that it is given.
    pub keeps_bits: bool,
    /// The permission bits that the database is to have, which a plain new file shows if it is new.
    pub wanted: Wanted,
    /// What another user's database shows, if it replaces one.
    pub others: Option<Shown>,
    /// The number of calls that were made.
    pub calls: u64,
    alloc: Global,
    first: u64,
    count: u64,
    file_first: u64,
    trace: NameTrace,
}

/// The permission bits of a file that one user alone may read and write.
pub const PRIVATE: u32 = 0o600;

/// The user who makes a database.
pub const MAKER: u32 = 1001;

/// The name of the database; any other is the temporary name.
pub const DATABASE: &str = "db";

impl FakeNames {
    /// A folder with an old database and an old temporary file.
    pub fn new(alloc: Global, first: u64, count: u64, file_first: u64) -> FakeNames {
        FakeNames {
            database: Held::Old,
            bytes: Vec::new(alloc),
            has_temporary: true,
            kind: Found::File,
            is_held: false,
            bits: PRIVATE,
            keeps_bits: true,
            wanted: Wanted::Old(0o644),
            others: None,
            calls: 0,
            alloc,
            first,
            count,
            file_first,
            trace: NameTrace::new(),
        }
    }

    /// Counts a call, and answers whether it fails.
    fn fails(&mut self) -> bool
        ensures { self.new.trace ≡ self.old.trace }
    {
        let call = self.calls;
        self.calls = call.saturating_add(1);
        call >= self.first && call - self.first < self.count
    }

    /// What a question is answered, if the call does not fail.
    fn answer(&mut self, answer: Answer) -> Answer
        ensures { self.new.trace ≡ self.old.trace }
    {
        if self.fails() {
            Answer::Unknown
        } else {
            answer
        }
    }

    /// Notes a call that is on no file.
    fn note(&mut self, call: &NameCall, name: &str, other: &str)
        ensures { self.new.trace.events
            ≡ (call.now, name.now, other.now, []) ∷ self.old.trace.events }
    {
        self.trace
            .note(call, name.as_bytes(), other.as_bytes(), &Trace::new());
    }

    /// Takes a name from its file, unless that fails, and notes it.
    fn take(&mut self, name: &str, file: &FakeFile)
        ensures { IsCleared name.now file.now.trace.events self.old.trace.events self.new.trace.events }
    {
        if self.fails() {
            self.note_removal(&NameCall::NotRemoved, name, file);
            return;
        }
        if name == DATABASE {
            self.database = Held::Nothing;
        } else {
            self.has_temporary = false;
        }
        self.note_removal(&NameCall::Removed, name, file);
    }

    /// Notes that a name was taken from its file, or was to be.
    fn note_removal(&mut self, call: &NameCall, name: &str, file: &FakeFile)
        ensures { self.new.trace.events
            ≡ (call.now, name.now, [], file.now.trace.events) ∷ self.old.trace.events }
    {
        self.trace.note(call, name.as_bytes(), b"", file.trace());
    }
}

impl Names for FakeNames {
    type File = FakeFile;

    ghost calls = { λ n. n.trace.events };

    ghost lacks = { λ _. Unit {0} };

    fn refusal(&self) -> Option<&Refusal> {
        None
    }

    fn file_error(&self) -> Option<i32> {
        None
    }

    fn is_special(&mut self, name: &str) -> Answer {
        let is = self.answer(Answer::No);
        self.note(&NameCall::Special(is), name, "");
        is
    }

    fn is_file_of(&mut self, name: &str, other: &str) -> Answer {
        let is = self.answer(Answer::No);
        self.note(&NameCall::Same(is), name, other);
        is
    }

    fn look(&mut self, name: &str) -> Found {
        let found = match (self.fails(), self.has_temporary) {
            (true, _) => Found::Unknown,
            (false, true) => self.kind,
            (false, false) => Found::Nothing,
        };
        self.note(&NameCall::Looked(found), name, "");
        found
    }

    fn open_old(&mut self, name: &str) -> Result<FakeFile, NameFault> {
        if self.fails() {
            self.note(&NameCall::NotOpened(NameFault::NoMemory), name, "");
            return Err(NameFault::NoMemory);
        }
        self.note(&NameCall::Opened, name, "");
        Ok(FakeFile::made(Vec::new(self.alloc), 1 << 40, 1))
    }

    fn make_new(&mut self, name: &str, bits: u32) -> Result<FakeFile, NameFault> {
        if self.fails() || self.has_temporary {
            self.note(&NameCall::NotMade(NameFault::Failed), name, "");
            return Err(NameFault::Failed);
        }
        self.has_temporary = true;
        self.bits = if bits == PRIVATE {
            PRIVATE
        } else {
            self.wanted.bits()
        };
        self.note(&NameCall::Made(bits), name, "");
        Ok(FakeFile::made(Vec::new(self.alloc), self.file_first, self.count))
    }

    fn lock(&mut self, name: &str, _file: &FakeFile) -> Lock {
        let lock = if self.is_held || self.fails() {
            Lock::Held
        } else {
            Lock::Taken
        };
        self.note(&NameCall::Locked(lock), name, "");
        lock
    }

    fn has_file(&mut self, name: &str, _file: &FakeFile) -> Answer {
        let is = self.answer(Answer::Yes);
        self.note(&NameCall::Own(is), name, "");
        is
    }

    fn is_input(&mut self, name: &str) -> Answer {
        let is = self.answer(Answer::No);
        self.note(&NameCall::Input(is), name, "");
        is
    }

    fn bits_for(&mut self, name: &str) -> Option<Option<Shown>> {
        let held = match (self.fails(), self.wanted) {
            (true, _) => None,
            (false, Wanted::New(_)) => Some(self.others),
            (false, Wanted::Old(bits)) => Some(Some(Shown { bits, user: MAKER })),
        };
        self.note(&NameCall::Bits(held), name, "");
        held
    }

    fn bits_of(&mut self, name: &str, file: &FakeFile) -> Option<Shown> {
        let shown = if self.fails() {
            None
        } else {
            Some(Shown {
                bits: self.bits,
                user: MAKER,
            })
        };
        self.trace
            .note(&NameCall::Seen(shown), name.as_bytes(), b"", file.trace());
        shown
    }

    fn set_bits(&mut self, name: &str, file: &FakeFile, bits: u32) {
        if !self.fails() && self.keeps_bits {
            self.bits = bits;
        }
        self.trace
            .note(&NameCall::Set(bits), name.as_bytes(), b"", file.trace());
    }

    fn remove_own(&mut self, name: &str, file: &FakeFile) {
        self.take(name, file);
    }

    fn rename(
        &mut self,
        file: FakeFile,
        len: u64,
        name: &str,
        other: &str,
    ) -> Result<(), Unrenamed<FakeFile>>
        ensures ok { OnOk result (self.new.trace.events
            ≡ (Renamed len, name.now, other.now, file.trace.events) ∷ self.old.trace.events) }
        ensures err { IfErr result (λ u. self.new.trace.events
            ≡ (NotRenamed len u.fault, name.now, other.now, file.trace.events)
            ∷ self.old.trace.events) }
        ensures kept { IfErr result (λ u. u.file ≡ file) }
    {
        let fails = self.fails();
        let call = if fails {
            NameCall::NotRenamed(len, NameFault::Failed)
        } else {
            NameCall::Renamed(len)
        };
        self.trace
            .note(&call, name.as_bytes(), other.as_bytes(), file.trace());
        if fails {
            let fault = NameFault::Failed;
            return Err(Unrenamed { file, fault });
        }
        self.has_temporary = false;
        self.database = if file.is_sure
            && self.wanted.suits(self.bits)
            && file.bytes.len() as u64 == len
        {
            Held::New
        } else {
            Held::Torn
        };
        self.bytes = file.bytes;
        Ok(())
    }

    fn sync_folder(&mut self, name: &str) -> bool {
        let is_synced = !self.fails();
        let call = if is_synced {
            NameCall::Synced
        } else {
            NameCall::NotSynced
        };
        self.note(&call, name, "");
        is_synced
    }
}
