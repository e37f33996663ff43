//! Databases that are not finished, and looks that fail at the limit.
use super::makers::{EAGER, LAZY, Way, finished, made_in};
use super::model::expected;
use super::scripts::add;
use cdb_form::{Narrow, Wide, Width};
use cdb_make::{MakeFault, Maker, Mode, Put};
use cdb_store::{FuseStore, MemStore};
use std::alloc::Global;
use std::prelude::*;
use std::test::Fail;

/// How many of the first bytes of a maker's store are all ones.
fn ones<L: Width>(maker: &Maker<MemStore, L>) -> usize {
    let bytes = maker.store().bytes();
    bytes.iter().take_while(|byte| **byte == 0xff).count()
}

/// How many bytes of all ones are at the start of a store after each of five calls, and once it is
/// finished.
fn ones_after_calls<L: Width>(alloc: Global, way: Way) -> Result<[usize; 6], Fail> {
    let mut maker = made_in::<MemStore, L>(alloc, MemStore::new(alloc), way)?;
    let begun = ones(&maker);
    maker.put(Mode::Add, b"a", b"1")?;
    let added = ones(&maker);
    maker.put(Mode::Replace, b"a", b"2")?;
    let replaced = ones(&maker);
    maker.exists(b"a")?;
    let looked = ones(&maker);
    maker.remove(b"a")?;
    let removed = ones(&maker);
    let file = finished(maker)?.into_vec();
    let left = file.iter().take_while(|byte| **byte == 0xff).count();
    Ok([begun, added, replaced, looked, removed, left])
}

#[test]
fn the_head_is_all_ones_until_the_finish(rt: HostRuntime) -> Result<(), Fail> {
    for way in [EAGER, LAZY] {
        let narrow = ones_after_calls::<Narrow>(rt.alloc(), way)?;
        let wide = ones_after_calls::<Wide>(rt.alloc(), way)?;
        assert!(rt; narrow == [2048, 2048, 2048, 2048, 2048, 0], "{way:?}");
        assert!(rt; wide == [4096, 4096, 4096, 4096, 4096, 0], "{way:?}");
    }
    Ok(())
}

/// A maker with one record, at a limit that leaves no room for another, over a store that fails the
/// call after so many.
fn full_maker(
    alloc: Global,
    way: Way,
    calls: u64,
) -> Result<Maker<FuseStore<MemStore>, Narrow>, MakeFault> {
    let fuse = FuseStore::new(MemStore::new(alloc), calls, 0);
    let most = Some(26);
    let mut maker = made_in::<_, Narrow>(alloc, fuse, Way { most, ..way })?;
    maker.put(Mode::Add, b"a", b"1")?;
    Ok(maker)
}

#[test]
fn a_failed_look_is_told_before_the_limit(rt: HostRuntime) -> Result<(), Fail> {
    for way in [EAGER, LAZY] {
        let mut whole = full_maker(rt.alloc(), way, u64::MAX)?;
        let calls = whole.store().calls();
        assert!(rt;
            whole.put(Mode::Warn, b"a", b"2") == Err(MakeFault::TooBig),
            "{way:?}"
        );
        for mode in [Mode::Warn, Mode::Insert, Mode::Replace] {
            let mut failing = full_maker(rt.alloc(), way, calls)?;
            let answer = failing.put(mode, b"a", b"23");
            assert!(rt; answer == Err(MakeFault::Lookup), "{way:?}, {mode:?}");
        }
        // One that looks for nothing makes no call.
        let mut failing = full_maker(rt.alloc(), way, calls)?;
        let answer = failing.put(Mode::Add, b"a", b"2");
        assert!(rt;
            answer == Err(MakeFault::TooBig) && failing.store().calls() == calls,
            "{way:?}"
        );
    }
    Ok(())
}

/// A maker with two records of a key, over a store that fails the call after so many.
fn two_of_a_key(
    alloc: Global,
    way: Way,
    calls: u64,
) -> Result<Maker<FuseStore<MemStore>, Narrow>, MakeFault> {
    let fuse = FuseStore::new(MemStore::new(alloc), calls, 0);
    let mut maker = made_in::<_, Narrow>(alloc, fuse, way)?;
    maker.put(Mode::Add, b"a", b"1")?;
    maker.put(Mode::Add, b"a", b"2")?;
    Ok(maker)
}

#[test]
fn what_a_failed_look_has_found_stays(rt: HostRuntime) -> Result<(), Fail> {
    let calls = [add(b"a", b"1"), add(b"a", b"2"), add(b"one", b"3")];
    let wanted = expected::<Narrow>(rt.alloc(), &calls)?;
    for way in [EAGER, LAZY] {
        let before = two_of_a_key(rt.alloc(), way, u64::MAX)?.store().calls();
        // It reads the newer record, and fails at the older one.
        let mut maker = two_of_a_key(rt.alloc(), way, before.saturating_add(1))?;
        assert!(rt; maker.remove(b"a") == Err(MakeFault::Lookup), "{way:?}");
        assert!(rt;
            maker.put(Mode::Add, b"one", b"3") == Ok(Put::Added),
            "{way:?}"
        );
        assert!(rt;
            maker.count() == 3 && maker.remove(b"two") == Ok(0),
            "{way:?}"
        );
        let file = finished(maker)?.into_inner().into_vec();
        assert!(rt; file == wanted.file, "{way:?}");
    }
    Ok(())
}
