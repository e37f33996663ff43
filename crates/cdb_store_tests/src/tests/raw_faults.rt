// A store in a file whose raw calls fail, do a part or are interrupted, each in turn.
use super::support::again::script;
use super::support::fake::{FakeFile, Trouble};
use cdb_store::{FileStore, Store, StoreFault};
use std::test::Fail;

/// The last raw call of the script if no call is in trouble. Its first is 1: raw call 0 requests
/// the length as the file is opened.
const LAST: u64 = 9;

#[test]
fn parts_and_interrupts_change_nothing(rt: HostRuntime) -> Result<(), Fail> {
    for first in 1..=LAST + 1 {
        for (count, trouble) in [
            (1, Trouble::OneByte),
            (1000, Trouble::OneByte),
            (1, Trouble::Interrupted),
        ] {
            let file = FakeFile::new(Vec::new(rt.alloc()), first, count, trouble);
            let mut store = FileStore::over(file)?;
            let outcome = script(&mut store, false);
            // a cut and a sync aren't made again: std does so by itself
            let is_once = (first == 7 || first == 8) && matches!(trouble, Trouble::Interrupted);
            assert!(rt;
                outcome.is_right && outcome.failed == is_once as u64,
                "{first}"
            );
        }
    }
    Ok(())
}

#[test]
fn reads_and_writes_are_asked_1001_times(rt: HostRuntime) -> Result<(), Fail> {
    for first in [1, 2, 3, 4, 5, 6, 9] {
        for (count, failed) in [(1000, 0), (1001, 1)] {
            let file = FakeFile::new(Vec::new(rt.alloc()), first, count, Trouble::Interrupted);
            let mut store = FileStore::over(file)?;
            let outcome = script(&mut store, false);
            assert!(rt;
                outcome.is_right && outcome.failed == failed,
                "{first} {count}"
            );
        }
    }
    Ok(())
}

/// Of a store of `abc`, whether a read answered Ok and gave that, and whether a write after it
/// answered Ok and the store is longer then.
fn reads_and_writes<S: Store>(store: &mut S) -> [bool; 4] {
    let mut into = [0; 3];
    let read = store.len() == 3 && store.read_at(0, &mut into).is_ok();
    let written = store.len() == 3 && store.write_at(3, b"def").is_ok();
    [read, into == *b"abc", written, store.len() == 6]
}

#[test]
fn interrupts_are_counted_anew_at_each_byte(rt: HostRuntime) -> Result<(), Fail> {
    for (interrupts, is_ok) in [(1000, true), (1001, false)] {
        let trouble = Trouble::OneByteAfter(interrupts);
        let file = FakeFile::new(b"abc".to_vec(rt.alloc())?, 1, u64::MAX, trouble);
        let mut store = FileStore::over(file)?;
        assert!(rt; reads_and_writes(&mut store) == [is_ok; 4], "{interrupts}");
    }
    Ok(())
}

#[test]
fn each_raw_call_fails_in_turn(rt: HostRuntime) -> Result<(), Fail> {
    for first in 1..=LAST + 1 {
        let file = FakeFile::new(Vec::new(rt.alloc()), first, 1, Trouble::Fails);
        let mut store = FileStore::over(file)?;
        let outcome = script(&mut store, false);
        assert!(rt;
            outcome.is_right && outcome.failed == (first <= LAST) as u64,
            "{first}"
        );
    }
    Ok(())
}

/// Whether a read, a write, a flush and a cut to one byte answered Ok.
fn each_other_call<S: Store>(store: &mut S) -> [bool; 4] {
    let mut into = [0; 6];
    let read = store.len() >= 6 && store.read_at(0, &mut into).is_ok();
    let written = store.write_at(0, b"a").is_ok();
    let flushed = store.flush().is_ok();
    let cut = store.len() >= 1 && store.cut(1).is_ok();
    [read, written, flushed, cut]
}

#[test]
fn the_length_is_asked_after_a_failed_write(rt: HostRuntime) -> Result<(), Fail> {
    // what length the file reports, the length then, and whether the store goes on
    for (told, len, goes_on) in [
        (5, 6, false),
        (6, 6, true),
        (7, 7, true),
        (8, 8, true),
        (9, 6, false),
    ] {
        let file = FakeFile::new(Vec::new(rt.alloc()), 2, 2, Trouble::Tells(told));
        let mut store = FileStore::over(file)?;
        store.write_at(0, b"abcdef")?;
        let refused = store.len() >= 6 && store.write_at(5, b"XYZ") == Err(StoreFault::Device);
        assert!(rt; refused && store.len() == len, "{told}");
        assert!(rt; each_other_call(&mut store) == [goes_on; 4], "{told}");
        store.reserve(100)?;
        assert!(rt; store.len() == if goes_on { 1 } else { 6 }, "{told}");
    }
    Ok(())
}

#[test]
fn the_length_is_asked_after_a_failed_cut(rt: HostRuntime) -> Result<(), Fail> {
    for (told, len, goes_on) in [(1, 6, false), (2, 2, true), (6, 6, true), (7, 6, false)] {
        let file = FakeFile::new(Vec::new(rt.alloc()), 2, 2, Trouble::Tells(told));
        let mut store = FileStore::over(file)?;
        store.write_at(0, b"abcdef")?;
        let is_refused = store.len() >= 2 && store.cut(2) == Err(StoreFault::Device);
        let left = store.len();
        let is_flushed = store.flush().is_ok();
        assert!(rt;
            is_refused && left == len && is_flushed == goes_on,
            "{told}"
        );
    }
    Ok(())
}

#[test]
fn a_file_of_2_to_the_63_bytes_is_refused(rt: HostRuntime) -> Result<(), Fail> {
    for (told, is_opened) in [((1 << 63) - 1, true), (1 << 63, false)] {
        let file = FakeFile::new(Vec::new(rt.alloc()), 0, 1, Trouble::Tells(told));
        assert!(rt; FileStore::over(file).is_ok() == is_opened);
    }
    Ok(())
}
