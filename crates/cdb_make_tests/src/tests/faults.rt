//! Makers over stores of which each call fails in turn.
use super::again::{Cause, Played, play};
use super::drawn::{KEYS, draw, drawn_calls, mixed_calls};
use super::makers::{EAGER, LAZY, Way, buffered};
use super::model::{Wanted, expected_within};
use super::scripts::{Call, add, exists, long, remove, replace};
use cdb_form::{Narrow, Wide, Width};
use cdb_store::{FuseStore, MemStore};
use std::alloc::Global;
use std::prelude::*;
use std::process::Abort;
use std::test::Fail;

/// The number of bytes that a buffer over the fuse has; none: there is no buffer.
const BUFFERS: [Option<usize>; 3] = [None, Some(16), Some(4096)];

/// A store of which one call fails.
type Fuse = FuseStore<MemStore>;

/// How a script is played over a fuse.
#[derive(Clone, Copy)]
struct Trial {
    way: Way,
    /// The number of bytes that a buffer over the fuse has.
    buffer: Option<usize>,
    /// The number of bytes that the write that fails writes.
    part: u64,
}

/// Plays a script over a buffer over a fuse.
fn play_buffered<L: Width>(
    alloc: Global,
    fuse: Fuse,
    (capacity, way): (usize, Way),
    script: &[Call],
    wanted: &Wanted,
) -> Result<Played<Fuse>, Fail> {
    let buffer = buffered(alloc, fuse, capacity)?;
    let Played { store, met, broke } = play::<_, L>(
        alloc,
        buffer,
        (Cause::Device, way),
        script,
        wanted,
    )?;
    let (store, answer) = store.into_inner();
    answer?;
    Ok(Played { store, met, broke })
}

/// Returns true if a script meets the fault of a store that fails the call after so many. It comes
/// to what is wanted in any case, unless it leaves the maker broken.
fn meets_fault<L: Width>(
    alloc: Global,
    script: &[Call],
    wanted: &Wanted,
    trial: Trial,
    calls: u64,
) -> Result<bool, Fail> {
    let (way, fuse) = (
        trial.way,
        FuseStore::new(MemStore::new(alloc), calls, trial.part),
    );
    let played = match trial.buffer {
        None => play::<_, L>(alloc, fuse, (Cause::Device, way), script, wanted)?,
        Some(capacity) => play_buffered::<L>(alloc, fuse, (capacity, way), script, wanted)?,
    };
    let Played { store, met, broke } = played;
    if met != (store.calls() > calls) {
        return Err(Fail::new("a fault is passed over, or told without a cause"));
    }
    if broke || store.into_inner().into_vec() == wanted.file {
        Ok(met)
    } else {
        Err(Fail::new("a fault changes what is made"))
    }
}

/// Returns the number of calls of the store that a script makes, each of which failed once.
fn faults<L: Width>(alloc: Global, script: &[Call], trial: Trial) -> Result<u64, Fail> {
    let wanted = expected_within::<L>(alloc, script, trial.way.most)?;
    for calls in 0..2000u64 {
        if !meets_fault::<L>(alloc, script, &wanted, trial, calls)? {
            return Ok(calls);
        }
    }
    Err(Fail::new("a script has no end"))
}

/// Returns the number of calls of the store that a script makes over each of `BUFFERS`, each of
/// which failed once.
fn faults_over_buffers(
    alloc: Global,
    script: &[Call],
    way: Way,
    part: u64,
) -> Result<[u64; 3], Fail> {
    let mut met = [0; 3];
    for (count, buffer) in met.iter_mut().zip(BUFFERS) {
        *count = faults::<Narrow>(alloc, script, Trial { way, buffer, part })?;
    }
    Ok(met)
}

/// Asserts how many calls of the store a script makes over each of `BUFFERS`, whatever part of its
/// bytes a failed write writes: on an eager maker, and on a lazy one. A long buffer of the lazy one
/// forwards the record that it put last before the pass, which is one write more.
fn assert_faults(
    rt: &impl Abort,
    alloc: Global,
    script: &[Call],
    eager: [u64; 3],
    lazy: [u64; 3],
) -> Result<(), Fail> {
    for part in [0, 1, 4095, 10000] {
        let met = faults_over_buffers(alloc, script, EAGER, part)?;
        assert!(rt; met == eager, "part {part}: {met:?}");
        let met = faults_over_buffers(alloc, script, LAZY, part)?;
        assert!(rt; met == lazy, "lazy, part {part}: {met:?}");
    }
    Ok(())
}

#[test]
fn faults_of_a_replacement_and_a_look(rt: HostRuntime) -> Result<(), Fail> {
    let script = [
        add(b"a", b"1"),
        add(b"one", b"Hello"),
        add(b"two", b"Goodbye"),
        exists(b"one"),
        replace(b"a", b"2"),
    ];
    assert_faults(&rt, rt.alloc(), &script, [18, 18, 9], [18, 18, 9])
}

#[test]
fn faults_of_a_removal_of_three(rt: HostRuntime) -> Result<(), Fail> {
    let script = [
        add(b"a", b"1"),
        add(b"one", b"Hello"),
        add(b"a", b"2"),
        add(b"two", b"Goodbye"),
        add(b"a", b"3"),
        remove(b"a"),
        exists(b"one"),
    ];
    assert_faults(&rt, rt.alloc(), &script, [22, 21, 10], [22, 21, 10])
}

#[test]
fn faults_of_a_long_move(rt: HostRuntime) -> Result<(), Fail> {
    let ten = long(rt.alloc(), 10000)?;
    let script = [add(b"a", b"1"), add(b"b", &ten), replace(b"a", b"2")];
    assert_faults(&rt, rt.alloc(), &script, [17, 17, 14], [17, 17, 15])
}

#[test]
fn faults_of_two_long_moves(rt: HostRuntime) -> Result<(), Fail> {
    let (ten, five) = (long(rt.alloc(), 10000)?, long(rt.alloc(), 5000)?);
    let script = [
        add(b"a", b"1"),
        add(b"b", &ten),
        add(b"a", b"2"),
        add(b"c", &five),
        replace(b"a", b"3"),
    ];
    assert_faults(&rt, rt.alloc(), &script, [25, 25, 21], [25, 25, 22])
}

#[test]
fn faults_of_a_lazy_maker_leave_its_records(rt: HostRuntime) -> Result<(), Fail> {
    let ten = long(rt.alloc(), 10000)?;
    let script = [
        add(b"a", b"1"),
        add(b"one", b"Hello"),
        add(b"a", b"2"),
        replace(b"a", b"3"),
        add(b"b", &ten),
        remove(b"one"),
        replace(b"a", b"4"),
    ];
    for part in [0, 1, 4095, 10000] {
        let (way, buffer) = (LAZY, None);
        let calls = faults::<Narrow>(rt.alloc(), &script, Trial { way, buffer, part })?;
        assert!(rt; calls > 13, "part {part}: {calls}");
    }
    Ok(())
}

#[test]
fn faults_of_drawn_scripts_leave_their_records(rt: HostRuntime) -> Result<(), Fail> {
    let mut state = 0x27d4eb2f165667c5;
    for _ in 0..150u32 {
        let calls = drawn_calls(rt.alloc(), &mut state, &KEYS, 3, 16)?;
        for way in [EAGER, LAZY] {
            let (buffer, part) = (None, 1);
            faults::<Narrow>(rt.alloc(), &calls, Trial { way, buffer, part })?;
        }
    }
    Ok(())
}

/// Each call of the store fails once, while scripts that append too are played, each on an eager
/// maker and on a lazy one; each third may have a file of a few records at most. Answers how many
/// calls of the store the script with the fewest makes.
fn faults_of_mixed_scripts<L: Width>(alloc: Global, seed: u64) -> Result<u64, Fail> {
    let (mut state, mut fewest) = (seed, u64::MAX);
    for number in 0..12u32 {
        let calls = mixed_calls(alloc, &mut state, 30)?;
        let most = if number % 3 == 1 { Some(552) } else { None };
        let way = if number % 2 == 0 { LAZY } else { EAGER };
        let way = Way { most, ..way };
        let (buffer, part) = (None, draw(&mut state) % 32);
        fewest = fewest.min(faults::<L>(alloc, &calls, Trial { way, buffer, part })?);
    }
    Ok(fewest)
}

#[test]
fn faults_of_scripts_that_append_leave_their_records(rt: HostRuntime) -> Result<(), Fail> {
    let fewest = faults_of_mixed_scripts::<Narrow>(rt.alloc(), 0xd1342543de82ef95)?;
    assert!(rt; fewest > 20, "{fewest}");
    Ok(())
}

#[test]
fn faults_of_wide_scripts_that_append_leave_their_records(rt: HostRuntime) -> Result<(), Fail> {
    let fewest = faults_of_mixed_scripts::<Wide>(rt.alloc(), 0xaf251af3b0f025b5)?;
    assert!(rt; fewest > 20, "{fewest}");
    Ok(())
}
