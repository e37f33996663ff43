// A file is replaced under its name: in one step, or not at all.
ghost use Rattle.std.specs.Prelude.{◌≡◌, ◌≢◌, ℕ, ◌+◌, ◌<◌, ◌↔◌, ◌⊎◌, ⊤, List, [], ◌∷◌, IsTrue};
ghost use Rattle.std.specs.Prelude.{IfOk, IfErr, OnOk, OnErr, Result, Ok, Err, true, false};
ghost use Rattle.cdb_store.specs.Calls.{IsSynced, FileImage};
ghost use Rattle.cdb_store.specs.FileStore.{calls_of, failures_of, images_of};
ghost use Rattle.cdb_store.specs.Images.{SameImages};
ghost use Rattle.cdb_store.specs.declared.trace.Call.TheVariants.{Made as FileMade};
ghost use Rattle.cdb_store.specs.declared.trace.Call.TheVariants.{Synced as FileSynced};
ghost use Rattle.cdb_names.specs.Folder.{AreNamesApart, AreGuarded, HasBits, IsPlain, SeesBits, SeesUser, WereSeen, MayRemove, MayReplace, MayUndo, NameCalls};
ghost use Rattle.cdb_names.specs.declared.answer.Answer.TheVariants.{Yes, No};
ghost use Rattle.cdb_names.specs.declared.answer.Lock.TheVariants.{Held};
ghost use Rattle.cdb_names.specs.declared.name_trace.NameCall.TheVariants.{Same, Locked, Own};
ghost use Rattle.cdb_names.specs.declared.name_fault.NameFault.{NameFault};
ghost use Rattle.cdb_names.specs.declared.shown.Shown.{Shown};
ghost use Rattle.cdb_names.specs.declared.replace.ReplaceFault.TheVariants.{
  Open,
  NoMemory,
  Rename,
  Write,
};
ghost use Rattle.cdb_names.specs.Wanted.{IsUnwritable};
ghost use Rattle.cdb_names.specs.Replacing.{AreOfReplacing, AreSteps, AtEachMoment, ClearsFile, EndsIn, FailsRename, FailsToBuild, FailsToSeal, IsFree, IsMadeApart, IsNoName, IsOfBuilder, IsReadyToBuild, IsRenamed, IsUndoing, IsUnmade, LeavesNew, LeavesOldOrNew, RenamesFile, ReplacingStopsAt, StopsUnbuilt, TakesLock, BuilderTells, of_name, of_open, renames};

use crate::answer::{Answer, Found, Lock};
use crate::name_fault::NameFault;
use crate::names::{Names, Unrenamed};
use crate::shown::Shown;
use crate::wanted::Wanted;
use cdb_store::{FileStore, READ_AND_WRITTEN, RawFile, Store};

/// The permission bits of a file that this user alone may read and write.
pub(crate) const PRIVATE: u32 = 0o600;

/// The permission bit that lets its owner write a file.
const OWNER_WRITES: u32 = 0o200;

/// A builder of a file in an empty store.
pub trait Builder<S: Store> {
    /// The reason why it did not build the file.
    type Fault: Drop;

    /// The type of `told`, which it writes to beside the store, as for lines of warnings: `()` if
    /// there is nothing.
    type Told;

    /// The type of the value that it returns beside the store, such as what it read: `()` if there
    /// is nothing.
    type Back;

    /// The files that it may build if it returns this value.
    ghost builds: { Self → Self.Back → List ℕ → Type 0 };

    /// The faults that it may have, given the store as it was before and as it is after. A builder
    /// that leaves this out may fail for any reason.
    ghost fails: { Self → S → S → Self.Fault → Type 0 } = { λ _ _ _ _. ⊤ };

    /// The relation of the value that it returns, `told` as it was before and as it is after, the
    /// images of the store, and the answer.
    ghost tells: { Self → Self.Back → Self.Told → Self.Told → (List ℕ → Type 0)
        → Result Unit Self.Fault → Type 0 };

    /// The values that it may return if it is given no store.
    ghost gives_up: { Self → Self.Back → Type 0 };

    /// Builds the file, and returns the store. It need not flush the store: the caller does, after
    /// its own last change. After a fault the store may hold anything.
    fn build(self, store: S, told: &mut Self::Told) -> (S, Self::Back, Result<(), Self::Fault>)
        ensures built { OnOk result.2
            ((b : List ℕ) → S.image result.0 b → builds self result.1 b) }
        ensures fails { IfErr result.2 (fails self store result.0) }
        ensures tells { tells self result.1 told.old told.new (S.image result.0) result.2 };

    /// Returns what it holds: there is no store to build in.
    fn give_up(self) -> Self::Back
        ensures { gives_up self result };
}

/// The reason why a file was not replaced.
#[derive(Clone, Copy, Debug, PartialEq, Eq)]
pub enum ReplaceFault<E> {
    /// The file's name is empty or ends in a slash, or the temporary name is the same or leads to
    /// the same file; or the temporary name has something that is no regular file, or the file of
    /// another create; or no file could be made, or not with the old file's permissions; or the
    /// system did not say what a name has.
    Open,
    /// The system had no memory as the temporary file was opened, made or renamed.
    NoMemory,
    /// The file was built, and could not be synced.
    Write,
    /// The file's name leads to a folder, a device, a socket or a pipe, or the rename failed, or
    /// the file that was made no longer had the temporary name.
    Rename,
    /// The file was not built.
    Build(E),
}

/// Returns true if no file can have this name: it is empty or ends in a slash.
pub fn is_no_name(name: &str) -> bool
    ensures { IsTrue result ↔ IsNoName name.now }
{
    match name.as_bytes().last() {
        Some(last) => *last == b'/',
        None => true,
    }
}

/// Returns the caller's fault for the fault of an open.
fn open_fault<E>(fault: NameFault) -> ReplaceFault<E>
    ensures { result ≡ of_open fault }
{
    match fault {
        NameFault::Failed => ReplaceFault::Open,
        NameFault::NoMemory => ReplaceFault::NoMemory,
    }
}

/// Checks that a replacement can have these names: they are two, and the name leads to a regular
/// file or to nothing. Returns the permission bits and the user of a regular file that has the
/// name.
fn see_names<N: Names, E: Drop>(
    names: &mut N,
    name: &str,
    temporary: &str,
) -> Result<Option<Shown>, ReplaceFault<E>>
    ensures apart { OnOk result (temporary.now ≢ name.now) }
    ensures one_name { (temporary.now ≢ name.now) ⊎ (N.calls names.new ≡ N.calls names.old) }
    ensures no_name { (IsNoName name.now → ⊥)
        ⊎ ((result ≡ Err Open) × (N.calls names.new ≡ N.calls names.old)) }
    ensures steps { AreSteps temporary.now name.now (λ _. ⊥) (N.calls names.old)
        (N.calls names.new) }
    ensures plain { OnOk result (IsPlain name.now (N.calls names.new)) }
    ensures seen { IfOk result (λ held. SeesBits name.now held (N.calls names.new)) }
    ensures unmade { IsUnmade temporary.now (N.calls names.old) (N.calls names.new) }
    ensures renames { renames (N.calls names.new) ≡ renames (N.calls names.old) }
    ensures err { IfErr result
        (StopsUnbuilt temporary.now name.now (N.calls names.old) (N.calls names.new)) }
    ensures not_built { IfErr result (IsOfBuilder (λ _. ⊥)) }
{
    if is_no_name(name) {
        return Err(ReplaceFault::Open);
    }
    if temporary == name {
        return Err(ReplaceFault::Open);
    }
    match names.is_special(name) {
        Answer::No => {}
        Answer::Yes => return Err(ReplaceFault::Rename),
        Answer::Unknown => return Err(ReplaceFault::Open),
    }
    match names.bits_for(name) {
        Some(held) => Ok(held),
        None => Err(ReplaceFault::Open),
    }
}

/// Takes the lock of an open file of a name. Returns true unless another process may hold it.
fn is_locked<N: Names>(names: &mut N, name: &str, file: &N::File) -> bool
    ensures free { result ≡ true → TakesLock name.now (N.calls names.old) (N.calls names.new) }
    ensures held { result ≡ false
        → N.calls names.new ≡ (Locked Held, name.now, [], []) ∷ N.calls names.old }
{
    match names.lock(name, file) {
        Lock::Taken => true,
        Lock::Unsupported => true,
        Lock::Held => false,
    }
}

/// Removes the old file of the temporary name, once its lock is taken: no other create holds it
/// then.
fn remove_old<N: Names, E: Drop>(
    names: &mut N,
    name: &str,
    temporary: &str,
) -> Result<(), ReplaceFault<E>>
    requires seen { AreNamesApart temporary.now name.now (N.calls names.old) }
    ensures steps { AreSteps temporary.now name.now (λ _. ⊥) (N.calls names.old)
        (N.calls names.new) }
    ensures free { OnOk result (IsFree temporary.now (N.calls names.old) (N.calls names.new)) }
    ensures plain { IsPlain name.now (N.calls names.old) → IsPlain name.now (N.calls names.new) }
    ensures renames { renames (N.calls names.new) ≡ renames (N.calls names.old) }
    ensures err { IfErr result
        (ReplacingStopsAt temporary.now name.now (N.calls names.old) (N.calls names.new)) }
    ensures not_built { IfErr result (IsOfBuilder (λ _. ⊥)) }
{
    let old = match names.open_old(temporary) {
        Ok(old) => old,
        Err(fault) => return Err(open_fault(fault)),
    };
    if !is_locked(names, temporary, &old) {
        return Err(ReplaceFault::Open);
    }
    names.remove_own(temporary, &old);
    Ok(())
}

/// Sees that nothing has the temporary name, or removes the old file that has it, unless it is the
/// file to be replaced. If the look found nothing, nothing is removed: a file that is there by then
/// is another create's.
fn clear<N: Names, E: Drop>(
    names: &mut N,
    name: &str,
    temporary: &str,
) -> Result<(), ReplaceFault<E>>
    ensures steps { AreSteps temporary.now name.now (λ _. ⊥) (N.calls names.old)
        (N.calls names.new) }
    ensures free { OnOk result (IsFree temporary.now (N.calls names.old) (N.calls names.new)) }
    ensures plain { IsPlain name.now (N.calls names.old) → IsPlain name.now (N.calls names.new) }
    ensures renames { renames (N.calls names.new) ≡ renames (N.calls names.old) }
    ensures err { IfErr result
        (ReplacingStopsAt temporary.now name.now (N.calls names.old) (N.calls names.new)) }
    ensures not_built { IfErr result (IsOfBuilder (λ _. ⊥)) }
{
    match names.look(temporary) {
        Found::Nothing => return Ok(()),
        Found::File => {}
        Found::Other => return Err(ReplaceFault::Open),
        Found::Unknown => return Err(ReplaceFault::Open),
    }
    match names.is_file_of(temporary, name) {
        Answer::No => remove_old(names, name, temporary),
        Answer::Yes | Answer::Unknown => Err(ReplaceFault::Open),
    }
}

/// Returns true if the temporary name has the file that was made, and is of another file than the
/// name. Both are seen once the file is locked: another create may have taken it for an old file
/// before, and two names can be of one file though none was there.
fn is_own_apart<N: Names>(names: &mut N, name: &str, temporary: &str, file: &N::File) -> bool
    ensures seen { result ≡ true → N.calls names.new ≡ (Same No, temporary.now, name.now, [])
        ∷ (Own Yes, temporary.now, [], []) ∷ N.calls names.old }
    ensures undone { result ≡ false
        → IsUndoing temporary.now name.now (N.calls names.old) (N.calls names.new) }
    ensures steps { AreSteps temporary.now name.now (λ _. ⊥) (N.calls names.old)
        (N.calls names.new) }
    ensures may { MayUndo temporary.now (N.calls names.old)
        → MayUndo temporary.now (N.calls names.new) }
    ensures renames { renames (N.calls names.new) ≡ renames (N.calls names.old) }
{
    match names.has_file(temporary, file) {
        Answer::Yes => {}
        Answer::No => return false,
        Answer::Unknown => return false,
    }
    match names.is_file_of(temporary, name) {
        Answer::No => true,
        Answer::Yes => false,
        Answer::Unknown => false,
    }
}

/// Returns the permission bits that the system gives a plain new file of the folder, by the umask
/// and the folder's access list. A file that is made under the temporary name, which nothing has,
/// shows these, and is removed again. Its lock is not requested: whoever may read the file could
/// hold it.
fn show_bits<N: Names, E: Drop>(
    names: &mut N,
    name: &str,
    temporary: &str,
) -> Result<u32, ReplaceFault<E>>
    requires free { IsFree temporary.now [] (N.calls names.old) }
    ensures steps { AreSteps temporary.now name.now (λ _. ⊥) (N.calls names.old)
        (N.calls names.new) }
    ensures seen { IfOk result (λ bits. (shown : Shown) → shown.bits ≡ bits
        → WereSeen temporary.now name.now shown (N.calls names.new)) }
    ensures free { (first : NameCalls) → IsFree temporary.now first (N.calls names.old)
        → OnOk result (IsFree temporary.now first (N.calls names.new)) }
    ensures ready { OnOk result (IsFree temporary.now [] (N.calls names.new)) }
    ensures plain { IsPlain name.now (N.calls names.old) → IsPlain name.now (N.calls names.new) }
    ensures renames { renames (N.calls names.new) ≡ renames (N.calls names.old) }
    ensures err { (first : NameCalls) → IsFree temporary.now first (N.calls names.old)
        → IfErr result (ReplacingStopsAt temporary.now name.now first (N.calls names.new)) }
    ensures not_built { IfErr result (IsOfBuilder (λ _. ⊥)) }
{
    let file = match names.make_new(temporary, READ_AND_WRITTEN) {
        Ok(file) => file,
        Err(fault) => return Err(open_fault(fault)),
    };
    let shown = names.bits_of(temporary, &file);
    names.remove_own(temporary, &file);
    match shown {
        Some(shown) => Ok(shown.bits),
        None => Err(ReplaceFault::Open),
    }
}

/// Makes a file under the temporary name, which nothing has, for this user alone, and takes its
/// lock. Returns also the file's user.
fn make_own<N: Names, E: Drop>(
    names: &mut N,
    name: &str,
    temporary: &str,
) -> Result<(FileStore<N::File>, u32), ReplaceFault<E>>
    requires free { IsFree temporary.now [] (N.calls names.old) }
    ensures steps { AreSteps temporary.now name.now (λ _. ⊥) (N.calls names.old)
        (N.calls names.new) }
    ensures made { OnOk result
        (IsMadeApart temporary.now name.now (N.calls names.old) (N.calls names.new)) }
    ensures user { IfOk result (λ m. SeesUser temporary.now m.1 (N.calls names.new)) }
    ensures renames { renames (N.calls names.new) ≡ renames (N.calls names.old) }
    ensures err { (first : NameCalls) → IsFree temporary.now first (N.calls names.old)
        → IfErr result (ReplacingStopsAt temporary.now name.now first (N.calls names.new)) }
    ensures not_built { IfErr result (IsOfBuilder (λ _. ⊥)) }
    ensures empty { IfOk result (λ m. calls_of m.0 ≡ (FileMade, []) ∷ []) }
{
    let file = match names.make_new(temporary, PRIVATE) {
        Ok(file) => file,
        Err(fault) => return Err(open_fault(fault)),
    };
    if !is_locked(names, temporary, &file) {
        return Err(ReplaceFault::Open);
    }
    if !is_own_apart(names, name, temporary, &file) {
        names.remove_own(temporary, &file);
        return Err(ReplaceFault::Open);
    }
    let Some(shown) = names.bits_of(temporary, &file) else {
        names.remove_own(temporary, &file);
        return Err(ReplaceFault::Open);
    };
    Ok((FileStore::made(file), shown.user))
}

/// Makes a file under the temporary name, which nothing has, that is to have the permission bits of
/// a plain new file.
fn make_plain<N: Names, E: Drop>(
    names: &mut N,
    name: &str,
    temporary: &str,
) -> Result<(FileStore<N::File>, Shown), ReplaceFault<E>>
    requires free { IsFree temporary.now [] (N.calls names.old) }
    requires plain { IsPlain name.now (N.calls names.old) }
    ensures steps { AreSteps temporary.now name.now (λ _. ⊥) (N.calls names.old)
        (N.calls names.new) }
    ensures made { OnOk result (IsReadyToBuild temporary.now name.now (N.calls names.new)) }
    ensures renames { renames (N.calls names.new) ≡ renames (N.calls names.old) }
    ensures err { (first : NameCalls) → IsFree temporary.now first (N.calls names.old)
        → IfErr result (ReplacingStopsAt temporary.now name.now first (N.calls names.new)) }
    ensures empty { IfOk result (λ m. calls_of m.0 ≡ (FileMade, []) ∷ []) }
    ensures seen { IfOk result (λ m. WereSeen temporary.now name.now m.1 (N.calls names.new)) }
    ensures user { IfOk result (λ m. SeesUser temporary.now m.1.user (N.calls names.new)) }
    ensures not_built { IfErr result (IsOfBuilder (λ _. ⊥)) }
{
    let bits = show_bits(names, name, temporary)?;
    let made = make_own(names, name, temporary)?;
    let user = made.1;
    Ok((made.0, Shown { bits, user }))
}

/// Makes a file under the temporary name. An old file of that name is removed first; it is a fault
/// if that is the file to be replaced or another create holds it. Returns also the new file's user,
/// and the permission bits that it is to have if no file of this user has the name by then. They
/// come from the file that has the name now, if both files have the same user. Another user's bits
/// are his choice: then the new file is removed again, and made anew as if nothing had the name.
fn make_temporary<N: Names, E: Drop>(
    names: &mut N,
    name: &str,
    temporary: &str,
) -> Result<(FileStore<N::File>, Shown), ReplaceFault<E>>
    ensures apart { OnOk result (temporary.now ≢ name.now) }
    ensures one_name { (temporary.now ≢ name.now) ⊎ (N.calls names.new ≡ N.calls names.old) }
    ensures no_name { (IsNoName name.now → ⊥)
        ⊎ ((result ≡ Err Open) × (N.calls names.new ≡ N.calls names.old)) }
    ensures steps { AreSteps temporary.now name.now (λ _. ⊥) (N.calls names.old)
        (N.calls names.new) }
    ensures made { OnOk result (IsReadyToBuild temporary.now name.now (N.calls names.new)) }
    ensures renames { renames (N.calls names.new) ≡ renames (N.calls names.old) }
    ensures err { IfErr result
        (StopsUnbuilt temporary.now name.now (N.calls names.old) (N.calls names.new)) }
    ensures empty { IfOk result (λ s. calls_of s.0 ≡ (FileMade, []) ∷ []) }
    ensures seen { IfOk result (λ s. WereSeen temporary.now name.now s.1 (N.calls names.new)) }
    ensures user { IfOk result (λ s. SeesUser temporary.now s.1.user (N.calls names.new)) }
    ensures not_built { IfErr result (IsOfBuilder (λ _. ⊥)) }
{
    let held = see_names(names, name, temporary)?;
    clear(names, name, temporary)?;
    let Some(old) = held else {
        return make_plain(names, name, temporary);
    };
    let made = make_own(names, name, temporary)?;
    if made.1 == old.user {
        return Ok((made.0, old));
    }
    names.remove_own(temporary, made.0.file());
    make_plain(names, name, temporary)
}

/// Syncs a file.
fn sync<F: RawFile, E>(store: &mut FileStore<F>) -> Result<(), ReplaceFault<E>>
    ensures synced { OnOk result (IsSynced (calls_of store.new)) }
    ensures last { OnOk result (calls_of store.new ≡ (FileSynced, []) ∷ calls_of store.old) }
    ensures images { SameImages (images_of store.old) (images_of store.new) }
    ensures failures { OnOk result (failures_of store.new ≡ failures_of store.old) }
    ensures failed { OnErr result (failures_of store.old < failures_of store.new) }
    ensures err { IfErr result (λ f. f ≡ Write) }
{
    match store.flush() {
        Ok(()) => Ok(()),
        Err(_) => Err(ReplaceFault::Write),
    }
}

/// Syncs a file that its owner may not write once it has these permission bits. A create that is
/// killed then leaves a file that he cannot open to remove it, but its bytes are sure.
fn sync_unwritable<F: RawFile, E>(
    store: &mut FileStore<F>,
    bits: u32,
) -> Result<(), ReplaceFault<E>>
    ensures sure { OnOk result (IsUnwritable bits → IsSynced (calls_of store.new)) }
    ensures images { SameImages (images_of store.old) (images_of store.new) }
    ensures failures { OnOk result (failures_of store.new ≡ failures_of store.old) }
    ensures failed { OnErr result (failures_of store.old < failures_of store.new) }
    ensures err { IfErr result (λ f. f ≡ Write) }
{
    if bits & OWNER_WRITES != 0 {
        return Ok(());
    }
    sync(store)
}

/// Gives the file that was built the permission bits with which it may get its name, and then syncs
/// it with them. A look shows what the file system made of them. If the owner may not write it
/// then, it is synced before too: so a create that is killed leaves a file that he may write, and
/// so remove, until its bytes are sure. If no regular file of `shown`'s user has the name, it gets
/// `shown`'s bits.
fn seal<N: Names, E>(
    names: &mut N,
    store: &mut FileStore<N::File>,
    name: &str,
    temporary: &str,
    shown: Shown,
) -> Result<(), ReplaceFault<E>>
    ensures steps { AreSteps temporary.now name.now (λ _. ⊥) (N.calls names.old)
        (N.calls names.new) }
    ensures ok { OnOk result (HasBits temporary.now name.now shown (calls_of store.new)
        (N.calls names.old) (N.calls names.new)) }
    ensures may { MayRemove temporary.now name.now (N.calls names.old)
        → MayRemove temporary.now name.now (N.calls names.new) }
    ensures renames { renames (N.calls names.new) ≡ renames (N.calls names.old) }
    ensures err { IfErr result (λ f. FailsToSeal temporary.now name.now (N.calls names.old)
        (N.calls names.new) f) }
    ensures synced { OnOk result (IsSynced (calls_of store.new)) }
    ensures images { SameImages (images_of store.old) (images_of store.new) }
    ensures failed { result ≡ Err Write → failures_of store.old < failures_of store.new }
{
    let Some(held) = names.bits_for(name) else {
        return Err(ReplaceFault::Open);
    };
    let wanted = Wanted::of(held, shown.user, shown.bits);
    sync_unwritable(store, wanted.bits())?;
    names.set_bits(temporary, store.file(), wanted.bits());
    let Some(last) = names.bits_of(temporary, store.file()) else {
        return Err(ReplaceFault::Open);
    };
    if !wanted.suits(last.bits) {
        return Err(ReplaceFault::Open);
    }
    sync(store)
}

/// Returns the caller's fault for the fault of a rename.
fn rename_fault<E>(fault: NameFault) -> ReplaceFault<E>
    ensures { result ≡ of_name fault }
{
    match fault {
        NameFault::Failed => ReplaceFault::Rename,
        NameFault::NoMemory => ReplaceFault::NoMemory,
    }
}

/// Renames the finished, synced file of this length from its temporary name to its name.
fn publish<N: Names, E: Drop>(
    names: &mut N,
    file: N::File,
    len: u64,
    name: &str,
    temporary: &str,
) -> Result<(), ReplaceFault<E>>
    requires settled { IsSynced (N.File.calls file) }
    requires ready { MayReplace temporary.now name.now (N.File.calls file) (N.calls names.old) }
    ensures ok { OnOk result (IsRenamed temporary.now name.now (N.calls names.new)) }
    ensures file { OnOk result
        (RenamesFile temporary.now name.now len (N.File.calls file) (N.calls names.new)) }
    ensures steps { AreSteps temporary.now name.now (FileImage len (N.File.calls file))
        (N.calls names.old) (N.calls names.new) }
    ensures sure { OnOk result (LeavesNew name.now (FileImage len (N.File.calls file))
        (N.calls names.new)) }
    ensures renames_ok { OnOk result
        (renames (N.calls names.new) ≡ renames (N.calls names.old) + 1) }
    ensures renames_err { OnErr result (renames (N.calls names.new) ≡ renames (N.calls names.old)) }
    ensures err { IfErr result (λ e. (fault : NameFault) × (e ≡ of_name fault)
        × FailsRename temporary.now name.now (N.calls names.old) (N.calls names.new) fault) }
    ensures cleared { OnErr result
        (ClearsFile temporary.now (N.File.calls file) (N.calls names.old) (N.calls names.new)) }
{
    match names.rename(file, len, temporary, name) {
        Ok(()) => {
            names.sync_folder(name);
            Ok(())
        }
        Err(Unrenamed { file, fault }) => {
            names.remove_own(temporary, &file);
            Err(rename_fault(fault))
        }
    }
}

/// Builds a file under a temporary name, and gives it the name once it is whole and synced, in
/// place of the file that had it.
///
/// An old regular file of the temporary name is removed first, once its lock is taken, unless it is
/// the file to be replaced or another create holds it. Whatever else has that name stays, a link
/// too, and so does a file that came there after the look. The new file is made for this user alone
/// and locked until after the rename, so no other create takes it. Once it is whole it gets the
/// permission bits of the regular file that it replaces, if both have the same user, and is synced
/// with them. If its owner may not write it then, it is synced before too. If no file of this user
/// has the name by then, it gets the bits of his file that had the name before the build, or of a
/// plain new file: one that was made under the temporary name showed them before. After a fault the
/// temporary name is removed, if the file still has it. A folder that cannot be synced is no fault.
///
/// If the system did not say what a name has, nothing is touched: `Open`.
///
/// `told` is passed on to the builder. The value that the builder returned is returned: by its
/// build, or by `give_up` if no temporary file could be made.
pub fn replace_file<N: Names, B: Builder<FileStore<N::File>>>(
    names: &mut N,
    name: &str,
    temporary: &str,
    builder: B,
    told: &mut B::Told,
) -> (B::Back, Result<(), ReplaceFault<B::Fault>>)
    // Nothing but the rename touches the name, and it comes after a sync that no write follows.
    ensures calls { AreOfReplacing temporary.now name.now (B.builds builder result.0)
        (N.calls names.old) (N.calls names.new) }
    // A name is taken only from a file whose lock this create holds, or that it made to look at it.
    // A file is renamed only if its lock is held, its name was seen to have it, the two names were
    // seen to be of two files, and the name led to a regular file or to nothing. It was synced once
    // it had its permission bits, and before too if its owner may not write it with them. The bits
    // come from a file of the name whose user is the new file's, which this process made, or are no
    // others than a plain new file's. So another user's file gives none.
    ensures guarded { AreGuarded name.now (N.calls names.old) (N.calls names.new) }
    ensures ok { OnOk result.1 (IsRenamed temporary.now name.now (N.calls names.new)) }
    ensures renames_ok { OnOk result.1
        (renames (N.calls names.new) ≡ renames (N.calls names.old) + 1) }
    ensures renames_err { OnErr result.1
        (renames (N.calls names.new) ≡ renames (N.calls names.old)) }
    // The calls that ended it are its own. It made none only if no file can have the name, or if
    // one text was given for both names.
    ensures err { IfErr result.1
        (EndsIn temporary.now name.now (N.calls names.old) (N.calls names.new)) }
    // The fault of the builder is the one that it returned, and the temporary name is removed from
    // the file that it left.
    ensures build { IfErr result.1 (IsOfBuilder (FailsToBuild (B.fails builder) temporary.now
        (N.calls names.old) (N.calls names.new))) }
    // If nothing was built, no file is whole, the builder gave up, and `told` is as it was. Else
    // `told` is as the builder left it, and at Ok the file that it built then was renamed.
    ensures told { BuilderTells N.File.RawFile (B.gives_up builder) (B.tells builder) temporary.now name.now
        (N.calls names.old) (N.calls names.new) result.0 told.old told.new result.1 }
    // With one text for both names nothing is done.
    ensures one_name { (temporary.now ≢ name.now) ⊎ (N.calls names.new ≡ N.calls names.old) }
    // If the name is empty or ends in a slash, the file cannot be made, and nothing is done.
    ensures no_name { (IsNoName name.now → ⊥)
        ⊎ ((result.1 ≡ Err Open) × (N.calls names.new ≡ N.calls names.old)) }
    // A crash at any moment leaves the old file or the new one, whole, if the names are of two
    // files. A rename comes only after the system answered so.
    ensures any_moment { AtEachMoment (LeavesOldOrNew temporary.now name.now
        (B.builds builder result.0) (N.calls names.old)) (N.calls names.old)
        (N.calls names.new) }
    // Once the folder was synced, a crash leaves the new one.
    ensures sure { OnOk result.1
        (LeavesNew name.now (B.builds builder result.0) (N.calls names.new)) }
{
    let (empty, shown) = match make_temporary(names, name, temporary) {
        Ok(made) => made,
        Err(fault) => return (builder.give_up(), Err(fault)),
    };
    let (mut store, back, built) = builder.build(empty, told);
    if let Err(fault) = built {
        names.remove_own(temporary, store.file());
        return (back, Err(ReplaceFault::Build(fault)));
    }
    if let Err(fault) = seal(names, &mut store, name, temporary, shown) {
        names.remove_own(temporary, store.file());
        return (back, Err(fault));
    }
    let len = store.len();
    let published = publish(names, store.into_file(), len, name, temporary);
    (back, published)
}
