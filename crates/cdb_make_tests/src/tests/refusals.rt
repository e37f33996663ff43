// Scripts of which `tests/faults/calls.py` refuses each request for memory in turn, or counts the
// requests. It reads what a test prints: whether the refusal came to a call of the script, to what
// its file is compared with, or to neither.
use super::again::{Cause, play};
use super::appends::run_of;
use super::makers::{EAGER, LAZY, Way, finished, maker_in};
use super::model::expected;
use super::scripts::{ADDED, Answer, Call, act, add, exists, put, remove, replace, replaced};
use cdb_form::Narrow;
use cdb_make::{MakeFault, Maker, Mode, Put};
use cdb_store::{FuseStore, MemStore, Store};
use std::alloc::Global;
use std::prelude::*;
use std::test::Fail;

/// What came of a script.
#[derive(Clone, Copy, Debug, PartialEq, Eq)]
enum Came {
    /// All went well at once.
    Whole,
    /// There was no memory for what it needs or is compared with.
    NoInputs,
    /// A call was refused memory, and all went well when it was made again.
    NoMemory,
}

/// Prints what came.
fn tell(rt: &HostRuntime, came: Came) -> Result<(), Fail> {
    println!(rt; "{came:?}")?;
    Ok(())
}

/// A call, what it answers, and how many bytes it writes.
type Row<'a> = (Call<'a>, Answer, u64);

/// What came of a script whose file has so many bytes.
fn came_of(alloc: Global, way: Way, script: &[Call], size: usize) -> Result<Came, Fail> {
    let Ok(wanted) = expected::<Narrow>(alloc, script) else {
        return Ok(Came::NoInputs);
    };
    let (store, how) = (MemStore::new(alloc), (Cause::Memory, way));
    let played = play::<_, Narrow>(alloc, store, how, script, &wanted)?;
    let file = played.store.bytes();
    if played.broke || file != wanted.file.as_slice() || file.len() != size {
        return Err(Fail::new("another file"));
    }
    Ok(if played.met {
        Came::NoMemory
    } else {
        Came::Whole
    })
}

#[test]
fn adds_tell_refused_memory(rt: HostRuntime) -> Result<(), Fail> {
    let script = [
        add(b"a", b"1"),
        add(b"a", b"2"),
        add(b"a", b"3"),
        add(b"a", b"4"),
    ];
    tell(&rt, came_of(rt.alloc(), EAGER, &script, 2152)?)
}

#[test]
fn many_adds_tell_refused_memory(rt: HostRuntime) -> Result<(), Fail> {
    let mut script = [add(b"a", b"1"); 41];
    script[40] = exists(b"a");
    tell(&rt, came_of(rt.alloc(), EAGER, &script, 3088)?)
}

/// Three records, of which the first is replaced.
fn order() -> [Row<'static>; 4] {
    [
        (add(b"a", b"1"), ADDED, 10),
        (add(b"one", b"Hello"), ADDED, 16),
        (add(b"two", b"Goodbye"), ADDED, 18),
        (replace(b"a", b"2"), replaced(1), 44),
    ]
}

/// Five records, of which three are removed.
fn gaps() -> [Row<'static>; 7] {
    [
        (add(b"a", b"1"), ADDED, 10),
        (add(b"one", b"Hello"), ADDED, 16),
        (add(b"a", b"2"), ADDED, 10),
        (add(b"two", b"Goodbye"), ADDED, 18),
        (add(b"a", b"3"), ADDED, 10),
        (remove(b"a"), Answer::Removed(3), 34),
        (exists(b"one"), Answer::There(true), 0),
    ]
}

#[test]
fn a_replacement_tells_no_refused_memory(rt: HostRuntime) -> Result<(), Fail> {
    tell(
        &rt,
        came_of(rt.alloc(), EAGER, &order().map(|row| row.0), 2140)?,
    )
}

#[test]
fn a_removal_and_a_look_tell_no_refused_memory(rt: HostRuntime) -> Result<(), Fail> {
    tell(
        &rt,
        came_of(rt.alloc(), EAGER, &gaps().map(|row| row.0), 2114)?,
    )
}

/// A maker of two records in memory.
fn two_records(alloc: Global) -> Result<Maker<MemStore, Narrow>, MakeFault> {
    let mut maker = maker_in::<MemStore, Narrow>(alloc, MemStore::new(alloc))?;
    maker.put(Mode::Add, b"one", b"Hello")?;
    maker.put(Mode::Add, b"two", b"Goodbye")?;
    Ok(maker)
}

/// The file of a maker to which the finish was refused, with a record more.
fn with_one_more(maker: Maker<MemStore, Narrow>) -> Result<Vec<u8>, MakeFault> {
    let mut maker = maker;
    maker.put(Mode::Add, b"a", b"1")?;
    Ok(finished(maker)?.into_vec())
}

/// What came of a finish, after which a maker to which it was refused takes a record more.
fn came_of_finish(alloc: Global) -> Result<Came, Fail> {
    let calls = [
        add(b"one", b"Hello"),
        add(b"two", b"Goodbye"),
        add(b"a", b"1"),
    ];
    let wanted = expected::<Narrow>(alloc, &calls[..2]);
    let more = expected::<Narrow>(alloc, &calls);
    let (Ok(wanted), Ok(more), Ok(maker)) = (wanted, more, two_records(alloc)) else {
        return Ok(Came::NoInputs);
    };
    let held = (maker.count(), maker.size());
    let (file, wanted, size, came) = match maker.finish() {
        Ok(store) => (store.into_vec(), wanted.file, 2114, Came::Whole),
        Err(unfinished) => {
            let maker = unfinished.maker;
            if unfinished.fault != MakeFault::NoMemory || held != (maker.count(), maker.size()) {
                return Err(Fail::new("another fault of the finish"));
            }
            (with_one_more(maker)?, more.file, 2140, Came::NoMemory)
        }
    };
    if file == wanted && file.len() == size {
        Ok(came)
    } else {
        Err(Fail::new("another file"))
    }
}

#[test]
fn a_finish_tells_refused_memory(rt: HostRuntime) -> Result<(), Fail> {
    tell(&rt, came_of_finish(rt.alloc())?)
}

/// The file of a maker, whose finish is made again if memory was refused to it, and whether it was.
fn finished_again(maker: Maker<MemStore, Narrow>) -> Result<(Vec<u8>, bool), Fail> {
    match maker.finish() {
        Ok(store) => Ok((store.into_vec(), false)),
        Err(unfinished) => {
            if unfinished.fault != MakeFault::NoMemory {
                return Err(Fail::new("another fault of the finish"));
            }
            Ok((finished(unfinished.maker)?.into_vec(), true))
        }
    }
}

/// Appends the records of a script at once, and those that memory was refused to again. Answers
/// whether it was.
fn append_again(
    alloc: Global,
    maker: &mut Maker<MemStore, Narrow>,
    script: &[Call],
    run: &[u8],
) -> Result<bool, Fail> {
    match maker.append(run) {
        Ok(taken) if taken == run.len() => Ok(false),
        Err(MakeFault::NoMemory) => {
            let later = script.get(maker.count() as usize..).unwrap_or(&[]);
            let rest = run_of(alloc, later, 4)?;
            if rest.is_empty() || maker.append(&rest)? != rest.len() {
                return Err(Fail::new("the rest of a run is not appended"));
            }
            Ok(true)
        }
        _ => Err(Fail::new("another answer of an append")),
    }
}

/// What came of records that are appended at once.
fn came_of_append(alloc: Global, script: &[Call]) -> Result<Came, Fail> {
    let wanted = expected::<Narrow>(alloc, script);
    let made = maker_in::<MemStore, Narrow>(alloc, MemStore::new(alloc));
    let (Ok(wanted), Ok(mut maker), Ok(run)) = (wanted, made, run_of(alloc, script, 4)) else {
        return Ok(Came::NoInputs);
    };
    let met = append_again(alloc, &mut maker, script, &run)?;
    let (file, late) = finished_again(maker)?;
    if file != wanted.file {
        return Err(Fail::new("another file"));
    }
    Ok(if met || late {
        Came::NoMemory
    } else {
        Came::Whole
    })
}

#[test]
fn an_append_tells_refused_memory(rt: HostRuntime) -> Result<(), Fail> {
    let mut script = [add(b"a", b"1"); 12];
    script[3] = add(b"one", b"Hello");
    script[7] = add(b"two", b"Goodbye");
    tell(&rt, came_of_append(rt.alloc(), &script)?)
}

/// Makes calls on a maker in a store with room for so many bytes.
fn make(alloc: Global, room: u32, rows: &[Row]) -> Result<Came, Fail> {
    let mut store = MemStore::new(alloc);
    store.reserve(u64::from(room))?;
    let store = FuseStore::new(store, u64::MAX, 0);
    let mut maker = maker_in::<FuseStore<MemStore>, Narrow>(alloc, store)?;
    for (call, answer, wrote) in rows {
        let before = maker.store().written();
        let given = act(&mut maker, call)?;
        if given != *answer || before.checked_add(*wrote) != Some(maker.store().written()) {
            return Err(Fail::new("another answer, or other bytes are written"));
        }
    }
    Ok(Came::Whole)
}

#[test]
fn asks_before_a_replacement(rt: HostRuntime) -> Result<(), Fail> {
    tell(&rt, make(rt.alloc(), 0, &order()[..3])?)
}

#[test]
fn asks_with_a_replacement(rt: HostRuntime) -> Result<(), Fail> {
    tell(&rt, make(rt.alloc(), 0, &order())?)
}

/// Four values of a key, which are replaced by one.
fn four() -> [Row<'static>; 5] {
    [
        (add(b"a", b"1"), ADDED, 10),
        (add(b"a", b"2"), ADDED, 10),
        (add(b"a", b"3"), ADDED, 10),
        (add(b"a", b"4"), ADDED, 10),
        (replace(b"a", b"5"), replaced(4), 10),
    ]
}

#[test]
fn asks_before_a_replacement_of_four(rt: HostRuntime) -> Result<(), Fail> {
    tell(&rt, make(rt.alloc(), 0, &four()[..4])?)
}

#[test]
fn asks_with_a_replacement_of_four(rt: HostRuntime) -> Result<(), Fail> {
    tell(&rt, make(rt.alloc(), 0, &four())?)
}

#[test]
fn asks_before_a_removal(rt: HostRuntime) -> Result<(), Fail> {
    tell(&rt, make(rt.alloc(), 0, &gaps()[..5])?)
}

#[test]
fn asks_with_a_removal(rt: HostRuntime) -> Result<(), Fail> {
    tell(&rt, make(rt.alloc(), 0, &gaps()[..6])?)
}

#[test]
fn asks_with_a_removal_and_a_look(rt: HostRuntime) -> Result<(), Fail> {
    tell(&rt, make(rt.alloc(), 0, &gaps())?)
}

/// Many records of a key, and then the first look.
fn many() -> [Row<'static>; 41] {
    let mut rows = [(add(b"a", b"1"), ADDED, 10); 41];
    rows[40] = (exists(b"a"), Answer::There(true), 0);
    rows
}

#[test]
fn asks_before_a_first_look(rt: HostRuntime) -> Result<(), Fail> {
    let rows = [(add(b"a", b"1"), ADDED, 10); 40];
    tell(&rt, make(rt.alloc(), 0, &rows)?)
}

#[test]
fn asks_with_a_first_look(rt: HostRuntime) -> Result<(), Fail> {
    tell(&rt, make(rt.alloc(), 0, &many())?)
}

/// A record is added, and its key found by an insertion.
fn found() -> [Row<'static>; 2] {
    [
        (add(b"a", b"1"), ADDED, 10),
        (put(Mode::Insert, b"a", b"2"), Answer::Put(Put::Present), 0),
    ]
}

#[test]
fn asks_before_an_insertion_that_finds_its_key(rt: HostRuntime) -> Result<(), Fail> {
    tell(&rt, make(rt.alloc(), 0, &found()[..1])?)
}

#[test]
fn asks_with_an_insertion_that_finds_its_key(rt: HostRuntime) -> Result<(), Fail> {
    tell(&rt, make(rt.alloc(), 0, &found())?)
}

#[test]
fn asks_before_a_longer_replacement(rt: HostRuntime) -> Result<(), Fail> {
    let rows = [(add(b"a", b"1"), ADDED, 10)];
    tell(&rt, make(rt.alloc(), 4096, &rows)?)
}

#[test]
fn asks_with_a_longer_replacement(rt: HostRuntime) -> Result<(), Fail> {
    let value = [b'x'; 1000];
    let rows = [
        (add(b"a", b"1"), ADDED, 10),
        (replace(b"a", &value), replaced(1), 1009),
    ];
    tell(&rt, make(rt.alloc(), 4096, &rows)?)
}

/// A record is added and removed, and a long one of its key added.
fn anew(value: &[u8]) -> [Row; 3] {
    [
        (add(b"a", b"1"), ADDED, 10),
        (remove(b"a"), Answer::Removed(1), 0),
        (add(b"a", value), ADDED, 10009),
    ]
}

#[test]
fn asks_before_a_long_record(rt: HostRuntime) -> Result<(), Fail> {
    tell(&rt, make(rt.alloc(), 32768, &anew(&[b'x'; 10000])[..2])?)
}

#[test]
fn asks_with_a_long_record(rt: HostRuntime) -> Result<(), Fail> {
    tell(&rt, make(rt.alloc(), 32768, &anew(&[b'x'; 10000]))?)
}

#[test]
fn a_lazy_maker_tells_refused_memory(rt: HostRuntime) -> Result<(), Fail> {
    let script = [
        add(b"a", b"1"),
        add(b"one", b"Hello"),
        add(b"a", b"2"),
        replace(b"one", b"a longer value"),
        remove(b"a"),
        add(b"two", b"Goodbye"),
        replace(b"two", b"a longer value"),
    ];
    tell(&rt, came_of(rt.alloc(), LAZY, &script, 2130)?)
}
