// Files of the system: made, opened and read.
use super::faults::two_records;
use cdb_files::{FileFault, RealNames, make_file, make_file_in, open_file};
use cdb_form::{Narrow, Wide};
use std::fs;
use std::os::unix::fs::symlink;
use std::test::Fail;

#[test]
fn a_file_is_made_and_asked(rt: HostRuntime) -> Result<(), Fail> {
    let records = two_records(rt.alloc())?;
    make_file::<Narrow, _>(&mut RealNames::new(&rt), rt.alloc(), "made.cdb", &records)?;
    let mut reader = open_file::<Narrow, _>(&rt, "made.cdb")?;
    for record in &records {
        match reader.get(rt.alloc(), &record.key)? {
            Some(value) => assert!(rt; value == record.value, "value"),
            None => assert!(rt; false, "no value"),
        }
    }
    assert!(rt; reader.get(rt.alloc(), b"three")?.is_none(), "three");
    assert!(rt; !fs::exists(&rt, "made.cdb.tmp")?, "temporary");
    fs::remove_file(&rt, "made.cdb")?;
    Ok(())
}

#[test]
fn the_first_value_is_given(rt: HostRuntime) -> Result<(), Fail> {
    let mut records = two_records(rt.alloc())?;
    for record in two_records(rt.alloc())? {
        let mut record = record;
        record.value = Vec::from_slice(rt.alloc(), b"later")?;
        records.push(record)?;
    }
    make_file::<Wide, _>(&mut RealNames::new(&rt), rt.alloc(), "first.cdb", &records)?;
    let mut reader = open_file::<Wide, _>(&rt, "first.cdb")?;
    match reader.get(rt.alloc(), b"one")? {
        Some(value) => assert!(rt; value.as_slice() == b"Hello".as_slice(), "value"),
        None => assert!(rt; false, "no value"),
    }
    fs::remove_file(&rt, "first.cdb")?;
    Ok(())
}

#[test]
fn a_file_that_is_not_there_is_not_opened(rt: HostRuntime) -> Result<(), Fail> {
    assert!(rt;
        open_file::<Narrow, _>(&rt, "none.cdb").err() == Some(FileFault::Open),
        "open"
    );
    Ok(())
}

#[test]
fn a_link_of_the_temporary_name_stays(rt: HostRuntime) -> Result<(), Fail> {
    fs::write(&rt, "other", "kept")?;
    symlink(&rt, "other", "link.cdb.tmp")?;
    let records = two_records(rt.alloc())?;
    let made = make_file::<Narrow, _>(&mut RealNames::new(&rt), rt.alloc(), "link.cdb", &records);
    assert!(rt; made.err() == Some(FileFault::Open), "a link is there");
    assert!(rt; fs::metadata(&rt, "other")?.len() == 4, "other");
    assert!(rt;
        fs::symlink_metadata(&rt, "link.cdb.tmp")?.is_symlink(),
        "link"
    );
    assert!(rt; !fs::exists(&rt, "link.cdb")?, "made");
    fs::remove_file(&rt, "link.cdb.tmp")?;
    fs::remove_file(&rt, "other")?;
    Ok(())
}

/// The answer of a make through another spelling of the database's name.
fn made_by_another_spelling(rt: &HostRuntime) -> Result<Option<FileFault>, Fail> {
    let records = two_records(rt.alloc())?;
    let made = make_file_in::<Narrow, _>(
        &mut RealNames::new(rt),
        rt.alloc(),
        "named.cdb",
        "./named.cdb",
        &records,
    );
    Ok(made.err())
}

#[test]
fn a_database_is_not_its_own_temporary_file(rt: HostRuntime) -> Result<(), Fail> {
    assert!(rt; made_by_another_spelling(&rt)? == Some(FileFault::Open));
    assert!(rt; !fs::exists(&rt, "named.cdb")?, "none was there");
    fs::write(&rt, "named.cdb", "kept")?;
    assert!(rt; made_by_another_spelling(&rt)? == Some(FileFault::Open));
    assert!(rt; fs::metadata(&rt, "named.cdb")?.len() == 4, "a file");
    fs::rename(&rt, "named.cdb", "target")?;
    symlink(&rt, "target", "named.cdb")?;
    assert!(rt; made_by_another_spelling(&rt)? == Some(FileFault::Open));
    assert!(rt;
        fs::symlink_metadata(&rt, "named.cdb")?.is_symlink(),
        "a link"
    );
    fs::remove_file(&rt, "named.cdb")?;
    fs::remove_file(&rt, "target")?;
    Ok(())
}
