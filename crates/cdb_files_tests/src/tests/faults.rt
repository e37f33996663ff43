// Each call on a name, and each on the file, fails in turn, alone and with all that come after it.
use super::fake_names::{DATABASE, FakeNames, Held, MAKER, PRIVATE};
use cdb_files::{FileFault, Found, Shown, Wanted, make_file_in};
use cdb_form::{Narrow, Record};
use std::alloc::Global;
use std::test::Fail;

/// How many calls on names a make takes that can fail: special, old bits, look, compare, open, lock,
/// remove, make, lock, look at the own name, compare, bits, old bits, set bits, bits, rename, sync.
const NAME_CALLS: u64 = 17;

/// How many it takes of a new name: after the removal it makes a plain file too, looks at its bits
/// and removes it.
const NEW_NAME_CALLS: u64 = 20;

/// How many it takes over another user's file: it makes its own before, sees whose it is, and
/// removes it.
const OTHERS_NAME_CALLS: u64 = 26;

/// More calls than a make takes of the file.
const FILE_CALLS: u64 = 40;

/// The two records of the worked file.
pub fn two_records(alloc: Global) -> Result<Vec<Record>, Fail> {
    let mut records = Vec::new(alloc);
    for (key, value) in [("one", "Hello"), ("two", "Goodbye")] {
        records.push(Record {
            key: Vec::from_slice(alloc, key.as_bytes())?,
            value: Vec::from_slice(alloc, value.as_bytes())?,
        })?;
    }
    Ok(records)
}

/// Returns true if a make that answered so left what it is to leave: at a fault the old file and,
/// unless the removal failed, no temporary name; at Ok the new one.
fn is_right(names: &FakeNames, made: bool) -> bool {
    match names.database {
        Held::Old => !made,
        Held::New => made && !names.has_temporary && names.bytes.len() == 2048 + 16 + 18 + 32,
        Held::Torn | Held::Nothing => false,
    }
}

#[test]
fn each_call_on_a_name_fails(rt: HostRuntime) -> Result<(), Fail> {
    let records = two_records(rt.alloc())?;
    let rows = [
        (Wanted::Old(0o644), None, NAME_CALLS),
        (Wanted::New(0o644), None, NEW_NAME_CALLS),
        (
            Wanted::New(0o644),
            Some(Shown {
                bits: 0o666,
                user: MAKER + 1,
            }),
            OTHERS_NAME_CALLS,
        ),
    ];
    for (wanted, others, calls) in rows {
        for first in 0..=calls {
            for count in [1, 100] {
                let mut names = FakeNames::new(rt.alloc(), first, count, 1 << 40);
                names.wanted = wanted;
                names.others = others;
                // A new file is left its own bits if the system gives it no others.
                let is_set = first == calls - 4 && count == 1;
                let keeps_bits = is_set && calls != NAME_CALLS;
                let made = make_file_in::<Narrow, FakeNames>(
                    &mut names,
                    rt.alloc(),
                    DATABASE,
                    "db.tmp",
                    &records,
                );
                assert!(rt;
                    made.is_ok() == (first.saturating_add(1) >= calls || keeps_bits),
                    "{first} {count}"
                );
                assert!(rt; is_right(&names, made.is_ok()), "{first} {count}");
                assert!(rt;
                    (made.err() == Some(FileFault::NoMemory)) == (first == 4),
                    "{first}"
                );
            }
        }
    }
    Ok(())
}

#[test]
fn each_call_on_the_file_fails(rt: HostRuntime) -> Result<(), Fail> {
    let records = two_records(rt.alloc())?;
    for first in 0..FILE_CALLS {
        let mut names = FakeNames::new(rt.alloc(), 1 << 40, 1 << 40, first);
        let made = make_file_in::<Narrow, FakeNames>(
            &mut names,
            rt.alloc(),
            DATABASE,
            "db.tmp",
            &records,
        );
        assert!(rt; is_right(&names, made.is_ok()), "{first}");
        assert!(rt; made.is_ok() || !names.has_temporary, "{first}");
        assert!(rt; first != 0 || made.is_err(), "the first call");
        assert!(rt; first != FILE_CALLS - 1 || made.is_ok(), "no call");
    }
    Ok(())
}

#[test]
fn bad_names_are_refused_before_anything_is_touched(rt: HostRuntime) -> Result<(), Fail> {
    let records = two_records(rt.alloc())?;
    for (name, temporary) in [("", ".tmp"), ("sub/", "sub/.tmp"), ("db", "db")] {
        let mut names = FakeNames::new(rt.alloc(), 1 << 40, 1, 1 << 40);
        let made = make_file_in::<Narrow, FakeNames>(
            &mut names,
            rt.alloc(),
            name,
            temporary,
            &records,
        );
        assert!(rt; made.is_err() && names.calls == 0, "{name}");
    }
    Ok(())
}

#[test]
fn a_temporary_file_that_another_create_holds_is_left(rt: HostRuntime) -> Result<(), Fail> {
    let records = two_records(rt.alloc())?;
    let mut names = FakeNames::new(rt.alloc(), 1 << 40, 1, 1 << 40);
    names.is_held = true;
    let made = make_file_in::<Narrow, FakeNames>(
        &mut names,
        rt.alloc(),
        DATABASE,
        "db.tmp",
        &records,
    );
    assert!(rt; made.err() == Some(FileFault::Open));
    assert!(rt; names.database == Held::Old && names.has_temporary);
    Ok(())
}

#[test]
fn a_file_system_that_keeps_no_bits_shuts_out_no_reader(rt: HostRuntime) -> Result<(), Fail> {
    let records = two_records(rt.alloc())?;
    let rows = [
        (Wanted::New(0o644), true),
        (Wanted::New(0o400), false),
        (Wanted::Old(0o644), false),
        (Wanted::Old(PRIVATE), true),
    ];
    for (wanted, is_made) in rows {
        let mut names = FakeNames::new(rt.alloc(), 1 << 40, 1, 1 << 40);
        names.keeps_bits = false;
        names.wanted = wanted;
        let made = make_file_in::<Narrow, FakeNames>(
            &mut names,
            rt.alloc(),
            DATABASE,
            "db.tmp",
            &records,
        );
        assert!(rt; made.is_ok() == is_made, "{wanted:?}");
        assert!(rt;
            is_right(&names, made.is_ok()) && !names.has_temporary,
            "{wanted:?}"
        );
    }
    Ok(())
}

#[test]
fn what_is_no_regular_file_keeps_the_temporary_name(rt: HostRuntime) -> Result<(), Fail> {
    let records = two_records(rt.alloc())?;
    let mut names = FakeNames::new(rt.alloc(), 1 << 40, 1, 1 << 40);
    names.kind = Found::Other;
    let made = make_file_in::<Narrow, FakeNames>(
        &mut names,
        rt.alloc(),
        DATABASE,
        "db.tmp",
        &records,
    );
    assert!(rt; made.err() == Some(FileFault::Open));
    assert!(rt; names.database == Held::Old && names.has_temporary);
    Ok(())
}
