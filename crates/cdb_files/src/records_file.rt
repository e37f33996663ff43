// The database of some records, made under its name.
ghost use Rattle.std.specs.Prelude.{◌≡◌, ◌≤◌, ◌+◌, ◌++◌, [], ⊤, codes, IfErr, OnOk, OnErr};
ghost use Rattle.cdb_form.specs.Views.Pairs.{key_values};
ghost use Rattle.cdb_make.specs.Views.Maker.{Holds, IsFile, limit_of};
ghost use Rattle.cdb_names.specs.Folder.{AreGuarded};
ghost use Rattle.cdb_files.specs.Made.{
  FailsBeside,
  FailsBuilding,
  FailsMaking,
  FailsToMake,
  IsFileOf,
  IsOfBuilding,
};
ghost use Rattle.cdb_names.specs.Replacing.{AreOfReplacing, AtEachMoment, IsRenamed, LeavesNew, LeavesOldOrNew, renames};

use crate::fault::FileFault;
use cdb_form::{PIPE, Record, Width};
use cdb_make::{MakeFault, Maker, Mode};
use cdb_names::{Builder, Names, Unsynced, replace_file};
use cdb_store::{BufferedStore, Store};
use std::alloc::Global;
use std::marker::PhantomData;

/// Builds the database of some records, in their order.
#[derive(Drop)]
pub struct Records<'a, L: Width> {
    alloc: Global,
    records: &'a [Record],
    width: PhantomData<L>,
}

impl<'a, L: Width> Records<'a, L> {
    /// Returns the builder of a database of these records.
    pub fn new(alloc: Global, records: &'a [Record]) -> Records<'a, L>
        ensures { result.records.now ≡ records.now }
    {
        Records {
            alloc,
            records,
            width: PhantomData,
        }
    }
}

/// Puts records into a maker that holds none.
fn put_records<S: Store, L: Width>(
    maker: &mut Maker<S, L>,
    records: &[Record],
) -> Result<(), MakeFault>
    requires { Holds maker.old [] }
    ensures ok { OnOk result (Holds maker.new (key_values records.now)) }
    ensures failures { S.failures maker.old.store ≤ S.failures maker.new.store }
    ensures fine { OnOk result (S.failures maker.new.store ≡ S.failures maker.old.store) }
    ensures fails { IfErr result (FailsBuilding L.WORD (limit_of maker.old) records.now
        (S.failures maker.old.store) (S.failures maker.new.store) (S.image maker.new.store)) }
{
    for record in records {
        maker.put(Mode::Add, &record.key, &record.value)?;
    }
    Ok(())
}

/// Puts records into a store that is emptied, and finishes their file.
fn put_all<S: Store, L: Width>(
    alloc: Global,
    store: S,
    records: &[Record],
) -> (S, Result<(), MakeFault>)
    ensures settled { OnOk result.1 (S.settled result.0) }
    ensures file { OnOk result.1 (IsFile L.WORD (key_values records.now) (S.image result.0)) }
    ensures fails { IfErr result.1 (FailsBuilding L.WORD L.GREATEST records.now
        (S.failures store) (S.failures result.0) (S.image result.0)) }
{
    let mut maker = match Maker::<S, L>::new(alloc, store, L::GREATEST) {
        Ok(maker) => maker,
        Err(refused) => return (refused.store, Err(refused.fault)),
    };
    match put_records(&mut maker, records) {
        Ok(()) => {}
        Err(fault) => return (maker.into_store(), Err(fault)),
    }
    match maker.finish() {
        Ok(store) => (store, Ok(())),
        Err(unfinished) => (unfinished.maker.into_store(), Err(unfinished.fault)),
    }
}

impl<'a, S: Store, L: Width> Builder<S> for Records<'a, L> {
    type Fault = MakeFault;

    type Told = ();

    type Back = ();

    ghost builds = { λ r _. IsFileOf L.WORD r.records.now };

    ghost fails = { λ r old new. FailsBuilding L.WORD L.GREATEST r.records.now
        (S.failures old) (S.failures new) (S.image new) };

    ghost tells = { λ _ _ _ _ _ _. ⊤ };

    ghost gives_up = { λ _ _. ⊤ };

    fn build(self, store: S, _told: &mut ()) -> (S, (), Result<(), MakeFault>) {
        let Records {
            alloc,
            records,
            width: _,
        } = self;
        match BufferedStore::new(alloc, Unsynced::over(store), PIPE) {
            Ok(buffered) => {
                let (buffered, made) = put_all::<BufferedStore<Unsynced<S>>, L>(
                    alloc, buffered, records,
                );
                (buffered.discard().into_inner(), (), made)
            }
            Err(failed) => (failed.value.into_inner(), (), Err(MakeFault::NoMemory)),
        }
    }

    fn give_up(self) {}
}

/// Makes the database of some records under a name, through a temporary name, in place of what has
/// the name. Several records may have one key.
///
/// The name keeps what it had until the new file is whole and synced, and after a fault too.
/// Exception: a rename that happened although it answered a fault.
pub fn make_file_in<L: Width, N: Names>(
    names: &mut N,
    alloc: Global,
    name: &str,
    temporary: &str,
    records: &[Record],
) -> Result<(), FileFault>
    ensures ok { OnOk result (IsRenamed temporary.now name.now (N.calls names.new)) }
    ensures calls { AreOfReplacing temporary.now name.now (IsFileOf L.WORD records.now)
        (N.calls names.old) (N.calls names.new) }
    // A name is taken only from a file whose lock this create holds, and a file is renamed only if
    // it may replace the other.
    ensures guarded { AreGuarded name.now (N.calls names.old) (N.calls names.new) }
    ensures renamed { OnOk result
        (renames (N.calls names.new) ≡ renames (N.calls names.old) + 1) }
    ensures kept { OnErr result (renames (N.calls names.new) ≡ renames (N.calls names.old)) }
    ensures err { IfErr result
        (FailsMaking temporary.now name.now (N.calls names.old) (N.calls names.new)) }
    // The fault of the maker is the one that it answered.
    ensures build { IfErr result (IsOfBuilding (FailsToMake N.File.RawFile L.WORD L.GREATEST records.now
        temporary.now (N.calls names.old) (N.calls names.new))) }
    // A crash at any moment leaves the old file or the database of the records, if the names are of
    // two files. A rename comes only after the system answered so.
    ensures any_moment { AtEachMoment (LeavesOldOrNew temporary.now name.now (IsFileOf L.WORD records.now)
        (N.calls names.old)) (N.calls names.old) (N.calls names.new) }
    // Once the folder was synced, a crash leaves the database of the records.
    ensures sure { OnOk result
        (LeavesNew name.now (IsFileOf L.WORD records.now) (N.calls names.new)) }
{
    let builder = Records::<L>::new(alloc, records);
    let (_, replaced) = replace_file::<N, Records<L>>(names, name, temporary, builder, &mut ());
    match replaced {
        Ok(()) => Ok(()),
        Err(fault) => Err(FileFault::from(fault)),
    }
}

/// Makes the database of some records under a name, through the name with `.tmp` after it.
///
/// `Open`: the name is empty or ends in a slash, or no file can be made of that temporary name.
/// `Rename`: the file cannot be given the name, which may be a folder's. `Write`: the file cannot
/// be synced. `NoMemory`: an allocation failed, or the system had no memory. `Make`: the database
/// was not made.
///
/// The name keeps what it had after each fault. Exception: a rename that happened although it
/// answered a fault.
pub fn make_file<L: Width, N: Names>(
    names: &mut N,
    alloc: Global,
    name: &str,
    records: &[Record],
) -> Result<(), FileFault>
    ensures ok { OnOk result
        (IsRenamed (name.now ++ codes ".tmp") name.now (N.calls names.new)) }
    ensures calls { AreOfReplacing (name.now ++ codes ".tmp") name.now
        (IsFileOf L.WORD records.now) (N.calls names.old) (N.calls names.new) }
    ensures guarded { AreGuarded name.now (N.calls names.old) (N.calls names.new) }
    ensures renamed { OnOk result
        (renames (N.calls names.new) ≡ renames (N.calls names.old) + 1) }
    ensures kept { OnErr result (renames (N.calls names.new) ≡ renames (N.calls names.old)) }
    ensures err { IfErr result (FailsBeside (name.now ++ codes ".tmp") name.now
        (N.calls names.old) (N.calls names.new)) }
    // The fault of the maker is the one that it answered.
    ensures build { IfErr result (IsOfBuilding (FailsToMake N.File.RawFile L.WORD L.GREATEST records.now
        (name.now ++ codes ".tmp") (N.calls names.old) (N.calls names.new))) }
    // A crash at any moment leaves the old file or the database of the records, if the names are of
    // two files.
    ensures any_moment { AtEachMoment (LeavesOldOrNew (name.now ++ codes ".tmp") name.now
        (IsFileOf L.WORD records.now) (N.calls names.old)) (N.calls names.old)
        (N.calls names.new) }
    // Once the folder was synced, a crash leaves the database of the records.
    ensures sure { OnOk result
        (LeavesNew name.now (IsFileOf L.WORD records.now) (N.calls names.new)) }
{
    let Ok(temporary) = format!(in alloc; "{name}.tmp") else {
        return Err(FileFault::NoMemory);
    };
    make_file_in::<L, N>(names, alloc, name, temporary.as_str(), records)
}
