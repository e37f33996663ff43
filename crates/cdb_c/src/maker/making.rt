// The calls of a maker whose handle a program in C holds.
ghost use Rattle.cdb_form.specs.Format.{record_of, whole_records};
ghost use Rattle.std.specs.Prelude.{◌≡◌, ◌⊎◌, Some, None, Err, IfOk, IfErr, IsSome, OnOk, OnErr, length};
ghost use Rattle.std.specs.Fd.{file_raw_fd};
ghost use Rattle.cdb_store.specs.BufferedStore.{inner_of, capacity_of};
ghost use Rattle.cdb_store.specs.declared.make_fault.MakeFault.TheVariants.{Broken, NoMemory, Writing};
ghost use Rattle.cdb_make.specs.Views.Maker.{Puts, FailsPutting, Follows, Removes, FailsRemoving, FailsFinishing, WritesNothing, FailsLooking, SameCounts, MakerKeepsAll};
ghost use Rattle.cdb_make.specs.Views.Appending.{AppendsAll, FailsAppending};
ghost use Rattle.cdb_c.specs.Calls.{kept_in, file_of_kept, BetweenCalls, HasNoMaker, HasNewMaker, IsHandleFinished, FindsKey, IsNew, HandleCounts, HandleWrote};

use crate::maker::database::{Database, Finished, Making};
use crate::maker::file::GivenFile;
use crate::maker::handle::Handle;
use crate::maker::left::{file_of, leave_open, taken_file};
use cdb_form::{Narrow, Width};
use cdb_make::{MakeFault, Maker, Mode, Put, Refused};
use cdb_store::{BufferedStore, FileStore, RealFile, Store};
use std::alloc::Global;
use std::fs::File;
use std::mem::replace;
use std::os::fd::{AsRawFd, IntoRawFd};

/// The number of bytes that are written at a time.
const WINDOW: usize = 65536;

/// Returns the number of the descriptor of a file that C gives, which stays open. C compares it
/// with the number that it wrote into the block: so it sees whether a file is laid out as it takes
/// it to be.
pub fn number(file: GivenFile) -> i32
    ensures { result ≡ file_raw_fd file.file }
{
    let file = file.into_file();
    let number = file.as_raw_fd();
    // So it is not closed.
    let _ = file.into_raw_fd();
    number
}

/// Returns a store that collects what is written, until it has a window of it.
fn collecting(
    alloc: Global,
    file: FileStore<RealFile>,
) -> Result<BufferedStore<FileStore<RealFile>>, Refused<FileStore<RealFile>>>
    ensures inner { IfOk result (λ store. inner_of store ≡ file) }
    ensures window { IfOk result (λ store. capacity_of store ≡ 65536) }
    ensures kept { IfErr result (λ refused. refused.store ≡ file) }
    ensures fault { IfErr result (λ refused. refused.fault ≡ NoMemory) }
{
    match BufferedStore::new(alloc, file, WINDOW) {
        Ok(store) => Ok(store),
        Err(failed) => Err(Refused {
            store: failed.value,
            fault: MakeFault::NoMemory,
        }),
    }
}

/// Returns a new maker of an empty file of less than 4 GiB. The file is returned if that failed.
fn begin(alloc: Global, file: File) -> Result<Making, Refused<FileStore<RealFile>>>
    ensures new { IfOk result IsNew }
    ensures fault { IfErr result (λ r. (r.fault ≡ NoMemory) ⊎ (r.fault ≡ Writing)) }
{
    let store = collecting(alloc, FileStore::made(RealFile::made(file)))?;
    match Maker::lazy(alloc, store, Narrow::GREATEST) {
        Ok(maker) => Ok(Making { maker }),
        Err(refused) => Err(Refused {
            store: refused.store.discard(),
            fault: refused.fault,
        }),
    }
}

/// Begins a database as `start` does, and returns the file that no database has then: the file of
/// the database before, or the given file if it failed.
fn begin_in(
    alloc: Global,
    handle: &mut Handle,
    file: File,
) -> (Result<(), MakeFault>, Option<FileStore<RealFile>>)
    ensures ok { OnOk result.0 (HasNewMaker (kept_in handle.new)) }
    ensures older { OnOk result.0 (result.1 ≡ file_of_kept (kept_in handle.old)) }
    ensures err { OnErr result.0 (kept_in handle.new ≡ kept_in handle.old) }
    ensures given { OnErr result.0 (IsSome result.1) }
    ensures fault { IfErr result.0 (λ f. (f ≡ NoMemory) ⊎ (f ≡ Writing)) }
{
    let making = match begin(alloc, file) {
        Ok(making) => making,
        Err(refused) => return (Err(refused.fault), Some(refused.store)),
    };
    match Box::new(alloc, Database::Open(making)) {
        Ok(database) => {
            let older = taken_file(alloc, handle);
            *handle = Handle::of(database);
            (Ok(()), older)
        }
        Err(failed) => (Err(MakeFault::NoMemory), file_of(failed.value)),
    }
}

/// Begins a database in an empty file, which C gives. The file stays open. The database that the
/// handle held before is freed.
///
/// `NoMemory`: an allocation failed. `Writing`: the file failed. The handle keeps what it held
/// then.
pub fn start(alloc: Global, handle: &mut Handle, file: GivenFile) -> Result<(), MakeFault>
    ensures ok { OnOk result (HasNewMaker (kept_in handle.new)) }
    ensures err { OnErr result (kept_in handle.new ≡ kept_in handle.old) }
    ensures fault { IfErr result (λ f. (f ≡ NoMemory) ⊎ (f ≡ Writing)) }
{
    let (answer, left) = begin_in(alloc, handle, file.into_file());
    leave_open(left);
    answer
}

/// Appends the whole records at the start of some bytes, if the database has an open maker.
fn append_in(database: &mut Database, bytes: &[u8]) -> Result<usize, MakeFault>
    ensures ok { IfOk result (λ k. BetweenCalls (Some database.old) (Some database.new) (λ m n.
        AppendsAll m.maker n.maker (whole_records 4 (length bytes.now) bytes.now) k)) }
    ensures fails { IfErr result (λ f. BetweenCalls (Some database.old) (Some database.new) (λ m n.
        FailsAppending m.maker n.maker (whole_records 4 (length bytes.now) bytes.now) f)) }
    ensures keeps { BetweenCalls (Some database.old) (Some database.new) (λ m n.
        MakerKeepsAll m.maker n.maker) }
    ensures follows { BetweenCalls (Some database.old) (Some database.new) (λ m n.
        Follows m.maker n.maker) }
    ensures no_maker { HasNoMaker (Some database.old) → result ≡ Err Broken }
{
    match database {
        Database::Open(making) => making.maker.append(bytes),
        Database::Made(_) | Database::Lent => Err(MakeFault::Broken),
    }
}

/// Appends the whole records at the start of some bytes, as `Maker::append` does. `Broken`: the
/// handle has no maker, or a broken one.
pub fn append(alloc: Global, handle: &mut Handle, bytes: &[u8]) -> Result<usize, MakeFault>
    ensures ok { IfOk result (λ k. BetweenCalls (kept_in handle.old) (kept_in handle.new) (λ m n.
        AppendsAll m.maker n.maker (whole_records 4 (length bytes.now) bytes.now) k)) }
    ensures fails { IfErr result (λ f. BetweenCalls (kept_in handle.old) (kept_in handle.new) (λ m n.
        FailsAppending m.maker n.maker (whole_records 4 (length bytes.now) bytes.now) f)) }
    ensures keeps { BetweenCalls (kept_in handle.old) (kept_in handle.new) (λ m n.
        MakerKeepsAll m.maker n.maker) }
    ensures follows { BetweenCalls (kept_in handle.old) (kept_in handle.new) (λ m n.
        Follows m.maker n.maker) }
    ensures no_maker { HasNoMaker (kept_in handle.old) → result ≡ Err Broken }
{
    let Some(mut database) = handle.take(alloc) else {
        return Err(MakeFault::Broken);
    };
    let answer = append_in(&mut *database, bytes);
    *handle = Handle::of(database);
    answer
}

/// Returns the number of records that a maker holds.
fn count_in(database: &Database) -> u64
    ensures { HandleCounts (Some database.now) result }
{
    match database {
        Database::Open(making) => making.maker.count(),
        Database::Made(_) | Database::Lent => 0,
    }
}

/// Returns the number of records that a maker holds. 0: the handle has none.
pub fn count(alloc: Global, handle: &mut Handle) -> u64
    ensures count { HandleCounts (kept_in handle.old) result }
    ensures kept { kept_in handle.new ≡ kept_in handle.old }
{
    let Some(database) = handle.take(alloc) else {
        return 0;
    };
    let count = count_in(&database);
    *handle = Handle::of(database);
    count
}

/// Returns the number of bytes that the file of a maker has, by the calls that were made of it.
fn written_in(database: &Database) -> u64
    ensures { HandleWrote (Some database.now) result }
{
    match database {
        Database::Open(making) => making.maker.store().inner().len(),
        Database::Made(_) | Database::Lent => 0,
    }
}

/// Returns the number of bytes that the file of a maker has, by the calls that were made of it:
/// what the maker still collects is not there. 0: the handle has none.
pub fn written(alloc: Global, handle: &mut Handle) -> u64
    ensures written { HandleWrote (kept_in handle.old) result }
    ensures kept { kept_in handle.new ≡ kept_in handle.old }
{
    let Some(database) = handle.take(alloc) else {
        return 0;
    };
    let written = written_in(&database);
    *handle = Handle::of(database);
    written
}

/// Puts a record, if the database has an open maker.
fn put_in(database: &mut Database, mode: Mode, key: &[u8], value: &[u8]) -> Result<Put, MakeFault>
    ensures puts { IfOk result (λ p. BetweenCalls (Some database.old) (Some database.new) (λ m n.
        Puts m.maker n.maker mode (record_of key.now value.now) p)) }
    ensures fails { IfErr result (λ f. BetweenCalls (Some database.old) (Some database.new) (λ m n.
        FailsPutting m.maker n.maker mode (record_of key.now value.now) f)) }
    ensures follows { BetweenCalls (Some database.old) (Some database.new) (λ m n.
        Follows m.maker n.maker) }
    ensures no_maker { HasNoMaker (Some database.old) → result ≡ Err Broken }
{
    match database {
        Database::Open(making) => making.maker.put(mode, key, value),
        Database::Made(_) | Database::Lent => Err(MakeFault::Broken),
    }
}

/// Puts a record, as `Maker::put` does. `Broken`: the handle has no maker, or a broken one.
pub fn put(
    alloc: Global,
    handle: &mut Handle,
    mode: Mode,
    key: &[u8],
    value: &[u8],
) -> Result<Put, MakeFault>
    ensures puts { IfOk result (λ p. BetweenCalls (kept_in handle.old) (kept_in handle.new) (λ m n.
        Puts m.maker n.maker mode (record_of key.now value.now) p)) }
    ensures fails { IfErr result (λ f. BetweenCalls (kept_in handle.old) (kept_in handle.new) (λ m n.
        FailsPutting m.maker n.maker mode (record_of key.now value.now) f)) }
    ensures follows { BetweenCalls (kept_in handle.old) (kept_in handle.new) (λ m n.
        Follows m.maker n.maker) }
    ensures no_maker { HasNoMaker (kept_in handle.old) → result ≡ Err Broken }
{
    let Some(mut database) = handle.take(alloc) else {
        return Err(MakeFault::Broken);
    };
    let answer = put_in(&mut *database, mode, key, value);
    *handle = Handle::of(database);
    answer
}

/// Returns true if some record of a maker has a key.
fn look(making: &mut Making, key: &[u8]) -> Result<bool, MakeFault>
    ensures there { IfOk result (λ there. FindsKey there key.now making.old making.new) }
    ensures ok { OnOk result (WritesNothing making.old.maker making.new.maker) }
    ensures fails { IfErr result (FailsLooking making.old.maker making.new.maker) }
    ensures follows { Follows making.old.maker making.new.maker }
    ensures counts { SameCounts making.old.maker making.new.maker }
{
    making.maker.exists(key)
}

/// Returns true if some record has a key, if the database has an open maker.
fn look_in(database: &mut Database, key: &[u8]) -> Result<bool, MakeFault>
    ensures there { IfOk result (λ there. BetweenCalls (Some database.old) (Some database.new)
        (FindsKey there key.now)) }
    ensures ok { OnOk result (BetweenCalls (Some database.old) (Some database.new) (λ m n.
        WritesNothing m.maker n.maker)) }
    ensures fails { IfErr result (λ f. BetweenCalls (Some database.old) (Some database.new) (λ m n.
        FailsLooking m.maker n.maker f)) }
    ensures follows { BetweenCalls (Some database.old) (Some database.new) (λ m n.
        Follows m.maker n.maker) }
    ensures counts { BetweenCalls (Some database.old) (Some database.new) (λ m n.
        SameCounts m.maker n.maker) }
    ensures no_maker { HasNoMaker (Some database.old) → result ≡ Err Broken }
{
    match database {
        Database::Open(making) => look(making, key),
        Database::Made(_) | Database::Lent => Err(MakeFault::Broken),
    }
}

/// Returns true if some record has a key, as `Maker::exists` says. `Broken`: the handle has no
/// maker, or a broken one.
pub fn exists(alloc: Global, handle: &mut Handle, key: &[u8]) -> Result<bool, MakeFault>
    ensures there { IfOk result (λ there. BetweenCalls (kept_in handle.old) (kept_in handle.new)
        (FindsKey there key.now)) }
    ensures ok { OnOk result (BetweenCalls (kept_in handle.old) (kept_in handle.new) (λ m n.
        WritesNothing m.maker n.maker)) }
    ensures fails { IfErr result (λ f. BetweenCalls (kept_in handle.old) (kept_in handle.new) (λ m n.
        FailsLooking m.maker n.maker f)) }
    ensures follows { BetweenCalls (kept_in handle.old) (kept_in handle.new) (λ m n.
        Follows m.maker n.maker) }
    ensures counts { BetweenCalls (kept_in handle.old) (kept_in handle.new) (λ m n.
        SameCounts m.maker n.maker) }
    ensures no_maker { HasNoMaker (kept_in handle.old) → result ≡ Err Broken }
{
    let Some(mut database) = handle.take(alloc) else {
        return Err(MakeFault::Broken);
    };
    let answer = look_in(&mut *database, key);
    *handle = Handle::of(database);
    answer
}

/// Takes out every record of a key, if the database has an open maker.
fn remove_in(database: &mut Database, key: &[u8]) -> Result<u64, MakeFault>
    ensures removes { IfOk result (λ n. BetweenCalls (Some database.old) (Some database.new) (λ m o.
        Removes m.maker o.maker key.now n)) }
    ensures fails { IfErr result (λ f. BetweenCalls (Some database.old) (Some database.new) (λ m n.
        FailsRemoving m.maker n.maker key.now f)) }
    ensures follows { BetweenCalls (Some database.old) (Some database.new) (λ m n.
        Follows m.maker n.maker) }
    ensures no_maker { HasNoMaker (Some database.old) → result ≡ Err Broken }
{
    match database {
        Database::Open(making) => making.maker.remove(key),
        Database::Made(_) | Database::Lent => Err(MakeFault::Broken),
    }
}

/// Takes out every record of a key, as `Maker::remove` does. `Broken`: the handle has no maker, or
/// a broken one.
pub fn remove(alloc: Global, handle: &mut Handle, key: &[u8]) -> Result<u64, MakeFault>
    ensures removes { IfOk result (λ n. BetweenCalls (kept_in handle.old) (kept_in handle.new) (λ m o.
        Removes m.maker o.maker key.now n)) }
    ensures fails { IfErr result (λ f. BetweenCalls (kept_in handle.old) (kept_in handle.new) (λ m n.
        FailsRemoving m.maker n.maker key.now f)) }
    ensures follows { BetweenCalls (kept_in handle.old) (kept_in handle.new) (λ m n.
        Follows m.maker n.maker) }
    ensures no_maker { HasNoMaker (kept_in handle.old) → result ≡ Err Broken }
{
    let Some(mut database) = handle.take(alloc) else {
        return Err(MakeFault::Broken);
    };
    let answer = remove_in(&mut *database, key);
    *handle = Handle::of(database);
    answer
}

/// Finishes a database. Returns the database as it is then, and whether that failed.
fn finished(database: Database) -> (Database, Result<(), MakeFault>)
    ensures ok { OnOk result.1 (IsHandleFinished (Some database) (Some result.0)) }
    ensures fails { IfErr result.1 (λ f. BetweenCalls (Some database) (Some result.0) (λ m n.
        FailsFinishing m.maker n.maker f)) }
    ensures no_maker { HasNoMaker (Some database) → result.1 ≡ Err Broken }
{
    match database {
        Database::Open(making) => match making.maker.finish() {
            Ok(store) => (Database::Made(Finished { store }), Ok(())),
            Err(unfinished) => {
                let maker = unfinished.maker;
                (Database::Open(Making { maker }), Err(unfinished.fault))
            }
        },
        Database::Made(finished) => (Database::Made(finished), Err(MakeFault::Broken)),
        Database::Lent => (Database::Lent, Err(MakeFault::Broken)),
    }
}

/// Finishes the file of its records, as `Maker::finish` does. `Broken`: an earlier call broke the
/// maker, or the handle has none.
pub fn finish(alloc: Global, handle: &mut Handle) -> Result<(), MakeFault>
    ensures ok { OnOk result (IsHandleFinished (kept_in handle.old) (kept_in handle.new)) }
    ensures fails { IfErr result (λ f. BetweenCalls (kept_in handle.old) (kept_in handle.new) (λ m n.
        FailsFinishing m.maker n.maker f)) }
    ensures no_maker { HasNoMaker (kept_in handle.old) → result ≡ Err Broken }
{
    let Some(mut database) = handle.take(alloc) else {
        return Err(MakeFault::Broken);
    };
    let (left, answer) = finished(replace(&mut *database, Database::Lent));
    *database = left;
    *handle = Handle::of(database);
    answer
}

/// Frees what a handle holds. The file stays open.
pub fn release(alloc: Global, handle: &mut Handle)
    ensures { kept_in handle.new ≡ None }
{
    leave_open(taken_file(alloc, handle));
}
