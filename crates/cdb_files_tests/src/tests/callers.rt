// Each caller once.
ghost use Rattle.std.specs.Prelude.{◌≤◌};
ghost use Rattle.cdb_form.specs.Format.{head_size};

mod drawn;

use cdb_files::examples::{AskFault, Built, Edit, Step, build_and_ask, first_record, make_and_get};
use cdb_form::{Narrow, Record, Wide, Width};
use cdb_make::{MakeFault, Maker, Mode};
use cdb_read::{ReadFault, Reader, check};
use cdb_store::{FuseStore, MemStore};
use std::alloc::Global;
use std::io::Write;
use std::prelude::*;
use std::test::Fail;

#[test]
fn the_first_record_of_a_text(rt: HostRuntime) -> Result<(), Fail> {
    let text: &[u8] = b"+3,5:one->Hello\n\n";
    let (rest, record) = first_record(rt.alloc(), text);
    let record = record?.ok_or("none")?;
    assert!(rt; record.key.as_slice() == b"one".as_slice() && rest == b"\n".as_slice());
    let none: &[u8] = b"\n";
    assert!(rt; matches!(first_record(rt.alloc(), none), (_, Ok(None))));
    Ok(())
}

/// Returns true if the database of `one` with `Hello`, made under a name, gives this value of a
/// key.
fn gives(rt: &HostRuntime, key: &[u8], wanted: Option<&[u8]>) -> Result<bool, Fail> {
    let mut records = Vec::new(rt.alloc());
    records.push(Record {
        key: b"one".to_vec(rt.alloc())?,
        value: b"Hello".to_vec(rt.alloc())?,
    })?;
    match make_and_get(rt, "made.store", &records, key) {
        Ok(value) => Ok(value.as_deref() == wanted),
        Err(_) => Ok(false),
    }
}

#[test]
fn a_database_is_made_under_its_name_and_asked(rt: HostRuntime) -> Result<(), Fail> {
    assert!(rt;
        gives(&rt, b"one", Some(b"Hello".as_slice()))?,
        "a key that is there"
    );
    assert!(rt; gives(&rt, b"two", None)?, "one that is not");
    Ok(())
}

/// A record of a key and a value.
fn pair(alloc: Global, key: &[u8], value: &[u8]) -> Result<Record, Fail> {
    Ok(Record {
        key: key.to_vec(alloc)?,
        value: value.to_vec(alloc)?,
    })
}

/// The changes of a table: a mode, a key and a value, or a key that is taken out.
fn changes(alloc: Global, rows: &[(Option<Mode>, &[u8], &[u8])]) -> Result<Vec<Step>, Fail> {
    let mut steps = Vec::new(alloc);
    for (mode, key, value) in rows {
        let change = match mode {
            Some(mode) => Edit::Put(*mode, pair(alloc, key, value)?),
            None => Edit::Remove(key.to_vec(alloc)?),
        };
        steps.push(Step::Edit(change))?;
    }
    Ok(steps)
}

/// A file made in memory by some steps, and why each was refused.
#[derive(Drop)]
struct MadeFile {
    file: Vec<u8>,
    faults: Vec<Option<MakeFault>>,
}

/// The file that some steps make in memory. The values of a key are written.
fn make_and_ask<L: Width, W: Write>(
    alloc: Global,
    limit: u64,
    steps: &[Step],
    key: &[u8],
    w: &mut W,
) -> Result<MadeFile, AskFault>
    requires head { head_size L.WORD ≤ limit }
    requires words { limit ≤ L.GREATEST }
{
    match build_and_ask::<_, L, W>(alloc, MemStore::new(alloc), limit, steps, key, w) {
        Ok(Built { store, faults }) => Ok(MadeFile {
            file: store.into_vec(),
            faults,
        }),
        Err(unbuilt) => Err(unbuilt.fault),
    }
}

/// How a record is put, or that a key is removed.
type Row = (Option<Mode>, &'static [u8], &'static [u8]);

const MIXED: [Row; 10] = [
    (Some(Mode::Add), b"a", b"1"),
    (Some(Mode::Add), b"a", b"2"),
    (Some(Mode::Warn), b"one", b"Hello"),
    (Some(Mode::Insert), b"a", b"3"),
    (Some(Mode::Insert), b"b", b"4"),
    (None, b"one", b""),
    (
        Some(Mode::Add),
        b"c",
        b"0123456789012345678901234567890123456789",
    ),
    (Some(Mode::Replace), b"b", b"5"),
    (Some(Mode::Warn), b"a", b"6"),
    (None, b"zzz", b""),
];

/// All modes, two removals, and a record that would pass a limit of 2160 bytes.
fn mixed(alloc: Global) -> Result<Vec<Step>, Fail> {
    changes(alloc, &MIXED)
}

/// What the mixed changes leave: four records, one after the other.
const LEFT: &[u8] = b"\x01\0\0\0\x01\0\0\0a1\x01\0\0\0\x01\0\0\0a2\x01\0\0\0\x01\0\0\0b5\
\x01\0\0\0\x01\0\0\0a6";

#[test]
fn changes_are_made_and_a_key_is_asked_for(rt: HostRuntime) -> Result<(), Fail> {
    let alloc = rt.alloc();
    let mut out = Vec::new(alloc);
    let made = make_and_ask::<Narrow, _>(alloc, 2160, &mixed(alloc)?, b"a", &mut out)?;
    assert!(rt; out.as_slice() == b"126".as_slice());
    assert!(rt; made.file.len() == 2152);
    assert!(rt; made.file.get(2048..2088) == Some(LEFT));
    for (i, fault) in made.faults.iter().enumerate() {
        let wanted = if i == 6 {
            Some(MakeFault::TooBig)
        } else {
            None
        };
        assert!(rt; *fault == wanted);
    }
    assert!(rt; made.faults.len() == 10);
    Ok(())
}

/// The records that they leave, each added.
const SCRATCH: [Row; 4] = [
    (Some(Mode::Add), b"a", b"1"),
    (Some(Mode::Add), b"a", b"2"),
    (Some(Mode::Add), b"b", b"5"),
    (Some(Mode::Add), b"a", b"6"),
];

#[test]
fn changes_leave_the_file_made_from_scratch(rt: HostRuntime) -> Result<(), Fail> {
    let alloc = rt.alloc();
    let left = changes(alloc, &SCRATCH)?;
    let mut out = Vec::new(alloc);
    let changed = make_and_ask::<Wide, _>(alloc, 4320, &mixed(alloc)?, b"b", &mut out)?;
    let scratch = make_and_ask::<Wide, _>(alloc, Wide::GREATEST, &left, b"zzz", &mut out)?;
    assert!(rt; out.as_slice() == b"5".as_slice());
    assert!(rt; scratch.file.len() == 4296);
    assert!(rt; changed.file.as_slice() == scratch.file.as_slice());
    Ok(())
}

#[test]
fn a_writer_that_fails_holds_a_prefix_of_the_values(rt: HostRuntime) -> Result<(), Fail> {
    let alloc = rt.alloc();
    let mut room = [0; 2];
    let mut left = room.as_mut_slice();
    let made = make_and_ask::<Narrow, _>(alloc, 2160, &mixed(alloc)?, b"a", &mut left);
    assert!(rt; matches!(made, Err(AskFault::Read(ReadFault::Output))));
    assert!(rt; room.as_slice() == b"12".as_slice());
    Ok(())
}

/// Checks a file.
fn checked(alloc: Global, file: Vec<u8>) -> Result<(), ReadFault> {
    match Reader::<MemStore, Narrow>::open(MemStore::from_vec(file)) {
        Ok(mut reader) => check(alloc, &mut reader),
        Err(unread) => Err(unread.fault),
    }
}

/// What a check reports of a file of zeros whose table 0 has a slot at 2048 that names a place.
fn told_of(alloc: Global, slots: u8, place: u8) -> Result<(), ReadFault> {
    let mut file = vec![in alloc; 0u8; 2056]?;
    for (here, byte) in file.iter_mut().skip(1).zip([8, 0, 0, slots]) {
        *here = byte;
    }
    for here in file.iter_mut().skip(2052).take(1) {
        *here = place;
    }
    checked(alloc, file)?;
    Ok(())
}

#[test]
fn a_file_passes_where_it_is_sound(rt: HostRuntime) -> Result<(), Fail> {
    assert!(rt; told_of(rt.alloc(), 1, 0) == Ok(()));
    assert!(rt; told_of(rt.alloc(), 2, 0) == Err(ReadFault::Table(0)));
    assert!(rt; told_of(rt.alloc(), 1, 1) == Err(ReadFault::Slot(0, 0)));
    Ok(())
}

/// A record, a finish, and another record of the same key.
fn steps_round_a_finish(alloc: Global) -> Result<Vec<Step>, Fail> {
    let mut steps = changes(alloc, &SCRATCH[..1])?;
    steps.push(Step::Finish)?;
    for step in changes(alloc, &SCRATCH[1..2])? {
        steps.push(step)?;
    }
    Ok(steps)
}

#[test]
fn a_finish_that_is_refused_keeps_the_records(rt: HostRuntime) -> Result<(), Fail> {
    let alloc = rt.alloc();
    let steps = steps_round_a_finish(alloc)?;
    let (mut taken, mut refused) = (0u64, 0u64);
    for calls in 0..30u64 {
        let mut out = Vec::new(alloc);
        let fuse = FuseStore::new(MemStore::new(alloc), calls, 0);
        let built = build_and_ask::<_, Narrow, _>(
            alloc,
            fuse,
            Narrow::GREATEST,
            &steps,
            b"a",
            &mut out,
        );
        let Ok(Built { store, faults }) = built else {
            continue;
        };
        let size = store.into_inner().into_vec().len();
        if faults.len() == 3 {
            assert!(rt; out.as_slice() == b"12".as_slice() && size == 2100);
            refused = refused.saturating_add(1);
        } else if out.as_slice() == b"1".as_slice() {
            assert!(rt; faults.len() == 1 && size == 2074);
            taken = taken.saturating_add(1);
        }
    }
    // A finish of one record makes five calls, each of which failed once.
    assert!(rt; refused == 5 && taken > 0);
    Ok(())
}

#[test]
fn a_database_that_is_not_finished_is_damaged(rt: HostRuntime) -> Result<(), Fail> {
    let alloc = rt.alloc();
    let store = MemStore::new(alloc);
    let Ok(mut maker) = Maker::<_, Narrow>::new(alloc, store, Narrow::GREATEST) else {
        return Err(Fail::new("no maker"));
    };
    maker.put(Mode::Add, b"a", b"1")?;
    let left = maker.into_store().into_vec();
    assert!(rt; checked(alloc, left) == Err(ReadFault::Table(0)));
    Ok(())
}
