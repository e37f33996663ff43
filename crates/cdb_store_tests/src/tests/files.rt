// Stores in files of the system. The files lie in the folder that each test runs in.
ghost use Rattle.std.specs.Prelude.{◌≡◌, false};
ghost use Rattle.cdb_store.specs.Calls.{lost};

use cdb_store::{FileStore, READ_AND_WRITTEN, RawFault, RawFile, RealFile, Store, StoreFault};
use std::fs::{self, File, Permissions};
use std::io;
use std::os::unix::fs::{FileExt, PermissionsExt, symlink};
use std::test::Fail;

/// Leaves `xy` in an empty store, and has it flushed.
fn leave_two<S: Store>(store: &mut S) -> bool {
    store.write_at(0, b"xyz").is_ok()
        && store.len() >= 2
        && store.cut(2).is_ok()
        && store.reserve(1 << 40).is_ok()
        && store.flush().is_ok()
}

/// Returns true if a store is `xy`.
fn has_two<S: Store>(store: &mut S) -> bool {
    let mut into = [0; 2];
    store.len() == 2 && store.read_at(0, &mut into).is_ok() && into == *b"xy"
}

/// Returns true if a store is `xy`, and stays so when a write and a cut fail.
fn only_gives_two<S: Store>(store: &mut S) -> bool {
    let failed = Err(StoreFault::Device);
    let is_there = has_two(store);
    is_there && store.write_at(0, b"a") == failed && store.cut(0) == failed && has_two(store)
}

#[test]
fn a_file_is_made_written_cut_and_read(rt: HostRuntime) -> Result<(), Fail> {
    assert!(rt; leave_two(&mut FileStore::create(&rt, "made.store")?));
    assert!(rt; only_gives_two(&mut FileStore::open(&rt, "made.store")?));
    assert!(rt; FileStore::create(&rt, "made.store")?.len() == 0);
    assert!(rt; FileStore::open(&rt, "made.store")?.len() == 0);
    Ok(())
}

/// Returns true if a name is reported as a device that failed.
fn opening_fails(rt: &HostRuntime, name: &str) -> bool {
    match FileStore::open(rt, name) {
        Ok(_) => false,
        Err(fault) => fault == StoreFault::Device,
    }
}

#[test]
fn names_that_cannot_be_opened(rt: HostRuntime) {
    // a name that isn't there, and one below it
    for name in ["missing.store", "missing/x.store"] {
        assert!(rt; opening_fails(&rt, name), "{name}");
    }
    // a folder as a name, a folder that isn't there, and one in which no file can be made
    for name in [".", "missing/x.store", "/proc/x.store"] {
        assert!(rt; FileStore::create(&rt, name).is_err(), "{name}");
    }
}

/// Returns true if a name is refused for a new file.
fn is_refused(rt: &HostRuntime, name: &str) -> bool {
    FileStore::create_new(rt, name).is_err()
}

#[test]
fn a_new_file_takes_no_name_that_is_there(rt: HostRuntime) -> Result<(), Fail> {
    assert!(rt; leave_two(&mut FileStore::create_new(&rt, "new.store")?));
    symlink(&rt, "other.store", "link.store")?;
    for name in ["new.store", "link.store", ".", "missing/x.store"] {
        assert!(rt; is_refused(&rt, name), "{name}");
    }
    assert!(rt; has_two(&mut FileStore::open(&rt, "new.store")?));
    assert!(rt; !fs::exists(&rt, "other.store")?);
    Ok(())
}

/// A file that is opened or made to be emptied, and then is.
fn emptied(rt: &HostRuntime, name: &str) -> io::Result<FileStore> {
    Ok(FileStore::made(RealFile::opened_to_empty(rt, name)?.emptied()?))
}

/// Returns true if a name is refused for a file that is to be emptied.
fn is_foreign(rt: &HostRuntime, name: &str) -> bool {
    RealFile::opened_to_empty(rt, name).is_err()
}

#[test]
fn a_file_is_opened_or_made_to_be_emptied_and_no_link_followed(
    rt: HostRuntime,
) -> Result<(), Fail> {
    assert!(rt; leave_two(&mut emptied(&rt, "own.store")?));
    assert!(rt; has_two(&mut FileStore::open(&rt, "own.store")?));
    drop(RealFile::opened_to_empty(&rt, "own.store")?);
    assert!(rt; has_two(&mut FileStore::open(&rt, "own.store")?));
    symlink(&rt, "own.store", "to_own.store")?;
    symlink(&rt, "nothing.store", "to_nothing.store")?;
    for name in ["to_own.store", "to_nothing.store", ".", "missing/x.store"] {
        assert!(rt; is_foreign(&rt, name), "{name}");
    }
    assert!(rt; has_two(&mut FileStore::open(&rt, "own.store")?));
    assert!(rt; !fs::exists(&rt, "nothing.store")?);
    assert!(rt; emptied(&rt, "own.store")?.len() == 0);
    assert!(rt; FileStore::open(&rt, "own.store")?.len() == 0);
    Ok(())
}

/// The permission bits of the file of a name.
fn mode_of(rt: &HostRuntime, name: &str) -> Option<u32> {
    match fs::metadata(rt, name) {
        Ok(found) => Some(found.permissions().mode() & 0o777),
        Err(_) => None,
    }
}

#[test]
fn a_new_file_has_the_permissions_that_it_is_given(rt: HostRuntime) -> Result<(), Fail> {
    let file = RealFile::create_new(&rt, "private.store", 0o600)?;
    assert!(rt; mode_of(&rt, "private.store") == Some(0o600));
    file.set_permissions(Permissions::from_mode(0o646))?;
    assert!(rt; mode_of(&rt, "private.store") == Some(0o646));
    Ok(())
}

#[test]
fn a_lock_is_held_until_its_file_is_closed(rt: HostRuntime) -> Result<(), Fail> {
    let one = RealFile::create_new(&rt, "locked.store", READ_AND_WRITTEN)?;
    assert!(rt; one.try_lock().is_ok());
    let other = File::open(&rt, "locked.store")?;
    assert!(rt; other.try_lock().is_err());
    drop(one);
    assert!(rt; other.try_lock().is_ok());
    Ok(())
}

#[test]
fn a_folder_that_is_read_only(rt: HostRuntime) -> Result<(), Fail> {
    fs::create_dir(&rt, "sealed")?;
    fs::set_permissions(&rt, "sealed", Permissions::from_mode(0o555))?;
    // the system lets root alone make a file there
    let is_root = File::create(&rt, "sealed/probe").is_ok();
    assert!(rt; FileStore::create(&rt, "sealed/x.store").is_ok() == is_root);
    Ok(())
}

#[test]
fn a_folder_gives_no_bytes(rt: HostRuntime) -> Result<(), Fail> {
    let mut store = FileStore::open(&rt, "/usr")?;
    let mut into = [0; 1];
    let failed = Err(StoreFault::Device);
    let is_refused = store.len() >= 1 && store.read_at(0, &mut into) == failed;
    assert!(rt; is_refused && store.write_at(0, b"a") == failed);
    Ok(())
}

#[test]
fn a_full_device(rt: HostRuntime) -> Result<(), Fail> {
    let mut store = FileStore::create(&rt, "/dev/full")?;
    let failed = Err(StoreFault::Device);
    let once = store.len() == 0 && store.write_at(0, b"abc") == failed;
    let twice = store.len() == 0 && store.write_at(0, b"abc") == failed;
    assert!(rt; once && twice && store.flush() == failed);
    Ok(())
}

/// Leaves a file of 5 GiB of which the last two bytes alone are written, if there is room.
fn leave_long(rt: &HostRuntime, name: &str) -> Result<bool, Fail> {
    let file = File::create(rt, name)?;
    match file.write_at(b"xy", (5 << 30) - 2) {
        Ok(2) => Ok(true),
        _ => Ok(false),
    }
}

#[test]
fn a_file_is_read_above_4_gib(rt: HostRuntime) -> Result<(), Fail> {
    if !leave_long(&rt, "long.store")? {
        println!(rt; "not tested: no file of 5 GiB can be made here")?;
        return Ok(());
    }
    let mut store = FileStore::open(&rt, "long.store")?;
    let mut into = [0; 2];
    let is_read = store.len() == 5 << 30 && store.read_at((5 << 30) - 2, &mut into).is_ok();
    // Where a position cut to 32 bits would read.
    let mut low = [1; 2];
    let is_low = store.len() == 5 << 30 && store.read_at((1 << 30) - 2, &mut low).is_ok();
    fs::remove_file(&rt, "long.store")?;
    assert!(rt; is_read && into == *b"xy");
    assert!(rt; is_low && low == [0; 2]);
    Ok(())
}

/// What a raw file of the system answers of its length.
fn has_length<F: RawFile>(file: &mut F, len: u64) -> bool
    requires { lost (F.calls file.old) ≡ false }
    ensures { lost (F.calls file.new) ≡ false }
{
    file.length() == Ok(len)
}

/// Writes two bytes at the end of 5 GiB, and cuts one of them off.
fn write_long<F: RawFile>(file: &mut F) -> Result<bool, RawFault>
    requires { lost (F.calls file.old) ≡ false }
    ensures { lost (F.calls file.new) ≡ false }
{
    let written = file.write_some((5 << 30) - 2, b"xy")?;
    let is_long = has_length(file, 5 << 30);
    file.set_length((5 << 30) - 1)?;
    Ok(written == 2 && is_long && has_length(file, (5 << 30) - 1))
}

/// Returns true if a raw file has this byte at a position.
fn has_byte<F: RawFile>(file: &mut F, pos: u64, byte: u8) -> bool
    requires { lost (F.calls file.old) ≡ false }
    ensures { lost (F.calls file.new) ≡ false }
{
    let mut into = [byte ^ 1];
    file.read_some(pos, &mut into) == Ok(1) && into == [byte]
}

#[test]
fn a_file_is_written_and_cut_above_4_gib(rt: HostRuntime) -> Result<(), Fail> {
    let mut file = RealFile::create_new(&rt, "longer.store", READ_AND_WRITTEN)?;
    let answer = write_long(&mut file);
    let is_there = has_byte(&mut file, (5 << 30) - 2, b'x');
    // Where a position cut to 32 bits would be written.
    let is_low = has_byte(&mut file, (1 << 30) - 2, 0);
    fs::remove_file(&rt, "longer.store")?;
    if answer == Err(RawFault::Failed) {
        println!(rt; "not tested: no file of 5 GiB can be made here")?;
        return Ok(());
    }
    assert!(rt; answer == Ok(true) && is_there && is_low);
    Ok(())
}

/// Writes a byte where no file can have one.
fn write_too_far<F: RawFile>(file: &mut F)
    requires { lost (F.calls file.old) ≡ false }
    ensures { lost (F.calls file.new) ≡ false }
{
    let _ = file.write_some(i64::MAX as u64, b"x");
}

#[test]
fn a_read_past_the_end_keeps_no_error_of_before(rt: HostRuntime) -> Result<(), Fail> {
    let mut file = RealFile::create_new(&rt, "empty.store", READ_AND_WRITTEN)?;
    write_too_far(&mut file);
    assert!(rt; file.last_error().is_some(), "the write");
    assert!(rt;
        !has_byte(&mut file, 0, b'x') && file.last_error().is_none(),
        "the read"
    );
    Ok(())
}
