// Names in folders, by the calls on them.
ghost use Rattle.std.specs.Prelude.{◌≡◌, ◌⊎◌, [], ◌∷◌, IfOk, IfErr, IfSome, None, OnOk};
ghost use Rattle.cdb_store.specs.declared.trace.Call.TheVariants.{Made as FileMade};
ghost use Rattle.cdb_names.specs.Folder.{IsCleared, MayTake, NameCalls};
ghost use Rattle.cdb_names.specs.Refusals.{IsNameRefusal, IsUnrefused};
ghost use Rattle.cdb_names.specs.declared.name_trace.NameCall.TheVariants.{
  Special,
  Same,
  Looked,
  Opened,
  NotOpened,
  Made,
  NotMade,
  Locked,
  Own,
  Input,
  Bits,
  Seen,
  Set,
  Renamed,
  NotRenamed,
  Synced,
  NotSynced,
};
ghost use Rattle.std.specs.Prelude.{cond};

use crate::answer::{Answer, Found, Lock};
use crate::name_fault::NameFault;
use crate::refusal::Refusal;
use crate::shown::Shown;
use cdb_store::RawFile;

/// A file that was not renamed, and the reason.
#[derive(Drop)]
pub struct Unrenamed<F> {
    /// The file.
    pub file: F,
    /// The reason why it was not renamed.
    pub fault: NameFault,
}

/// The names of files, by the calls on them. Each call notes its answer in proof-only data. A call
/// that failed never counts as an answer: the caller decides what follows from the failure.
pub trait Names {
    /// A file that was opened or made.
    type File: RawFile + Drop;

    /// The calls, the newest first.
    ghost calls: { Self → NameCalls };

    /// An allocation for a copy of the name that was refused last failed.
    ghost lacks: { Self → Type 0 };

    /// Returns the name that was refused last, and the reason. `None`: no name was, or there was no
    /// memory for a copy of it.
    fn refusal(&self) -> Option<&Refusal>
        ensures why { IfSome result (λ refusal. IsNameRefusal refusal.now (calls self.now)) }
        ensures none { result ≡ None → IsUnrefused (calls self.now) ⊎ lacks self.now };

    /// Returns the number of the error of the last call that failed on the file whose name was
    /// removed last, if the system gave one.
    fn file_error(&self) -> Option<i32>;

    /// Answers whether a name leads to something that is no regular file, and so is not to be
    /// replaced: a folder, a device, a socket or a pipe. A link that lies in `/dev` or `/proc`, or
    /// leads to such a link, counts too. Any other name that leads to nothing does not.
    fn is_special(&mut self, name: &str) -> Answer
        ensures { calls self.new ≡ (Special result, name.now, [], []) ∷ calls self.old };

    /// Answers whether the file or link that has a name has the other name too, or is the file that
    /// the other name leads to as a link. So a file is recognized by another spelling of its name
    /// and by a link to it, and a link by another spelling.
    fn is_file_of(&mut self, name: &str, other: &str) -> Answer
        ensures { calls self.new ≡ (Same result, name.now, other.now, []) ∷ calls self.old };

    /// Returns the kind of thing that has a name. A link is not followed.
    fn look(&mut self, name: &str) -> Found
        ensures { calls self.new ≡ (Looked result, name.now, [], []) ∷ calls self.old };

    /// Opens the regular file of a name to read and write it. It does not wait, whatever has the
    /// name by now. `Failed`: it cannot be opened, or what was opened is no regular file.
    fn open_old(&mut self, name: &str) -> Result<Self::File, NameFault>
        ensures ok { OnOk result
            (calls self.new ≡ (Opened, name.now, [], []) ∷ calls self.old) }
        ensures err { IfErr result
            (λ f. calls self.new ≡ (NotOpened f, name.now, [], []) ∷ calls self.old) };

    /// Makes a file under a name that nothing has, reads and writes it, and follows no link. It
    /// gets these permission bits, but for those that the umask or the folder's access list takes.
    fn make_new(&mut self, name: &str, bits: u32) -> Result<Self::File, NameFault>
        ensures ok { OnOk result (calls self.new ≡ (Made bits, name.now, [], []) ∷ calls self.old) }
        ensures err { IfErr result
            (λ f. calls self.new ≡ (NotMade f, name.now, [], []) ∷ calls self.old) }
        ensures file { IfOk result (λ f. Self.File.calls f ≡ (FileMade, []) ∷ []) };

    /// Requests the lock of an open file of a name, and does not wait for it.
    fn lock(&mut self, name: &str, file: &Self::File) -> Lock
        ensures { calls self.new ≡ (Locked result, name.now, [], []) ∷ calls self.old };

    /// Answers whether a name has an open file. A link is not followed.
    fn has_file(&mut self, name: &str, file: &Self::File) -> Answer
        ensures { calls self.new ≡ (Own result, name.now, [], []) ∷ calls self.old };

    /// Answers whether what has a name is the file of standard input. A link is not followed.
    fn is_input(&mut self, name: &str) -> Answer
        ensures { calls self.new ≡ (Input result, name.now, [], []) ∷ calls self.old };

    /// Returns the permission bits and the user of the regular file of a name. A link is not
    /// followed. `Some(None)`: no regular file has the name. `None`: the system did not say.
    fn bits_for(&mut self, name: &str) -> Option<Option<Shown>>
        ensures { calls self.new ≡ (Bits result, name.now, [], []) ∷ calls self.old };

    /// Returns the permission bits and the user of an open file of a name. `None`: the system did
    /// not say.
    fn bits_of(&mut self, name: &str, file: &Self::File) -> Option<Shown>
        ensures { calls self.new
            ≡ (Seen result, name.now, [], Self.File.calls file.now) ∷ calls self.old };

    /// Requests that the system give an open file of a name these permission bits, whatever the
    /// umask. `bits_of` reports whether the file has them then. Owner and group stay this user's,
    /// and bits beyond read, write and execute are not given.
    fn set_bits(&mut self, name: &str, file: &Self::File, bits: u32)
        ensures { calls self.new
            ≡ (Set bits, name.now, [], Self.File.calls file.now) ∷ calls self.old };

    /// Removes a name if an open file still has it. The file is one whose lock is held, or that was
    /// made to look at it.
    fn remove_own(&mut self, name: &str, file: &Self::File)
        requires { MayTake name.now (calls self.old) }
        ensures { IsCleared name.now (Self.File.calls file.now) (calls self.old) (calls self.new) };

    /// Gives an open file, which is then closed, the other name in place of its own. The file
    /// replaces what had the other name. `Failed` also if the file has another length or no longer
    /// has its name.
    fn rename(
        &mut self,
        file: Self::File,
        len: u64,
        name: &str,
        other: &str,
    ) -> Result<(), Unrenamed<Self::File>>
        ensures ok { OnOk result (calls self.new
            ≡ (Renamed len, name.now, other.now, Self.File.calls file) ∷ calls self.old) }
        ensures err { IfErr result (λ u. calls self.new
            ≡ (NotRenamed len u.fault, name.now, other.now, Self.File.calls file)
            ∷ calls self.old) }
        ensures kept { IfErr result (λ u. u.file ≡ file) };

    /// Syncs the folder of a name, so that its names survive a loss of power, and answers
    /// whether it did.
    fn sync_folder(&mut self, name: &str) -> bool
        ensures { calls self.new
            ≡ (cond result Synced NotSynced, name.now, [], []) ∷ calls self.old };
}
