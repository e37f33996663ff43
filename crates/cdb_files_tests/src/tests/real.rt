// Calls on names of the system, one by one: what they leave if another has the name.
use cdb_files::{Answer, Found, Lock, NameFault, Names, RealNames};
use cdb_store::RealFile;
use std::fs;
use std::os::unix::fs::{MetadataExt, symlink};
use std::test::Fail;

/// A file that is made under a name that nothing has.
fn made(rt: &HostRuntime, name: &str) -> Result<RealFile, NameFault> {
    RealNames::new(rt).make_new(name, 0o600)
}

/// Returns true if a file of so many bytes is given another name.
fn is_renamed(rt: &HostRuntime, file: RealFile, len: u64, name: &str, other: &str) -> bool {
    RealNames::new(rt).rename(file, len, name, other).is_ok()
}

/// Returns true if a name has a file of so many bytes.
fn has_bytes(rt: &HostRuntime, name: &str, len: u64) -> bool {
    matches!(fs::metadata(rt, name), Ok(found) if found.len() == len)
}

#[test]
fn a_new_file_takes_no_name_that_is_there(rt: HostRuntime) -> Result<(), Fail> {
    fs::write(&rt, "there", "kept")?;
    symlink(&rt, "nothing", "dangling")?;
    for name in ["there", "dangling", ".", "missing/x"] {
        assert!(rt; made(&rt, name).is_err(), "{name}");
    }
    assert!(rt; has_bytes(&rt, "there", 4), "another's file");
    assert!(rt; !fs::exists(&rt, "nothing")?, "what a link leads to");
    Ok(())
}

#[test]
fn a_file_of_another_length_is_not_renamed(rt: HostRuntime) -> Result<(), Fail> {
    let Ok(file) = made(&rt, "long.tmp") else {
        return Err(Fail::new("no file"));
    };
    assert!(rt;
        !is_renamed(&rt, file, 1, "long.tmp", "long"),
        "one byte more"
    );
    assert!(rt; has_bytes(&rt, "long.tmp", 0) && !fs::exists(&rt, "long")?);
    Ok(())
}

#[test]
fn a_file_of_its_length_is_renamed(rt: HostRuntime) -> Result<(), Fail> {
    let Ok(file) = made(&rt, "own.tmp") else {
        return Err(Fail::new("no file"));
    };
    assert!(rt; is_renamed(&rt, file, 0, "own.tmp", "own"), "no byte");
    assert!(rt; has_bytes(&rt, "own", 0) && !fs::exists(&rt, "own.tmp")?);
    Ok(())
}

#[test]
fn another_file_under_the_temporary_name_is_not_renamed(rt: HostRuntime) -> Result<(), Fail> {
    let Ok(file) = made(&rt, "taken.tmp") else {
        return Err(Fail::new("no file"));
    };
    fs::remove_file(&rt, "taken.tmp")?;
    fs::write(&rt, "taken.tmp", "")?;
    let own = RealNames::new(&rt).has_file("taken.tmp", &file);
    assert!(rt; own == Answer::No, "another's");
    assert!(rt; !is_renamed(&rt, file, 0, "taken.tmp", "taken"), "renamed");
    assert!(rt; has_bytes(&rt, "taken.tmp", 0) && !fs::exists(&rt, "taken")?);
    Ok(())
}

#[test]
fn a_look_tells_what_a_name_has(rt: HostRuntime) -> Result<(), Fail> {
    fs::write(&rt, "looked", "")?;
    symlink(&rt, "looked", "pointing")?;
    let rows = [
        ("looked", Found::File),
        ("pointing", Found::Other),
        (".", Found::Other),
        ("absent", Found::Nothing),
        ("looked/under", Found::Unknown),
    ];
    for (name, wanted) in rows {
        assert!(rt; RealNames::new(&rt).look(name) == wanted, "{name}");
    }
    Ok(())
}

#[test]
fn a_locked_file_is_held(rt: HostRuntime) -> Result<(), Fail> {
    let Ok(file) = made(&rt, "locked.tmp") else {
        return Err(Fail::new("no file"));
    };
    let lock = RealNames::new(&rt).lock("locked.tmp", &file);
    assert!(rt; lock == Lock::Taken, "the first");
    let Ok(old) = RealNames::new(&rt).open_old("locked.tmp") else {
        return Err(Fail::new("not opened"));
    };
    let lock = RealNames::new(&rt).lock("locked.tmp", &old);
    assert!(rt; lock == Lock::Held, "the second");
    drop(file);
    let lock = RealNames::new(&rt).lock("locked.tmp", &old);
    assert!(rt; lock == Lock::Taken, "the first is closed");
    assert!(rt; RealNames::new(&rt).open_old(".").is_err(), "a folder");
    Ok(())
}

/// The number of a file in its file system, and that system's.
fn numbers_of(rt: &HostRuntime, name: &str) -> Option<(u64, u64)> {
    match fs::symlink_metadata(rt, name) {
        Ok(found) => Some((found.ino(), found.dev())),
        Err(_) => None,
    }
}

/// Roots of file systems, some of which have one number.
const ROOTS: [&str; 5] = ["/proc", "/sys", "/dev/pts", "/dev/shm", "/dev/mqueue"];

#[test]
fn files_of_two_devices_are_two(rt: HostRuntime) -> Result<(), Fail> {
    let mut compared = 0u32;
    for name in ROOTS {
        for other in ROOTS {
            let (Some(one), Some(two)) = (numbers_of(&rt, name), numbers_of(&rt, other)) else {
                continue;
            };
            let is_one = RealNames::new(&rt).is_file_of(name, other);
            let wanted = if one == two { Answer::Yes } else { Answer::No };
            assert!(rt; is_one == wanted, "{name} {other}");
            if one.0 == two.0 && one.1 != two.1 {
                compared = compared.saturating_add(1);
            }
        }
    }
    if compared == 0 {
        println!(rt; "not tested: no two file systems have a file of one number")?;
    }
    Ok(())
}

#[test]
fn a_link_to_a_file_is_not_the_file(rt: HostRuntime) -> Result<(), Fail> {
    fs::write(&rt, "file", "kept")?;
    symlink(&rt, "file", "link")?;
    fs::hard_link(&rt, "file", "again")?;
    let rows = [
        ("file", "file", Answer::Yes),
        ("again", "file", Answer::Yes),
        ("./file", "file", Answer::Yes),
        ("file", "link", Answer::Yes),
        ("link", "file", Answer::No),
        ("file", "missing", Answer::No),
        ("missing", "missing", Answer::No),
        ("file/under", "file", Answer::Unknown),
        ("file", "file/under", Answer::Unknown),
    ];
    for (name, other, wanted) in rows {
        let is_one = RealNames::new(&rt).is_file_of(name, other);
        assert!(rt; is_one == wanted, "{name} {other}");
    }
    Ok(())
}
