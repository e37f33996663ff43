//! Records that a maker puts by one write of their bytes.
use super::appends::{fused, one_record, run_of};
use super::makers::{EAGER, LAZY, Way, finished, made_in, maker_in};
use super::model::{expected, expected_within};
use super::scarce::ScarceStore;
use super::scripts::{Answer, Call, Step, add, put, replace};
use cdb_form::{Narrow, Wide, Width, record_len};
use cdb_make::{MakeFault, Maker, Mode, Put, first_record};
use cdb_store::{MemStore, Store};
use std::alloc::Global;
use std::prelude::*;
use std::test::Fail;

/// Puts the record with which some bytes begin.
fn put_first<S: Store, L: Width>(
    maker: &mut Maker<S, L>,
    mode: Mode,
    bytes: &[u8],
) -> Result<Put, MakeFault> {
    match record_len::<L>(bytes) {
        Some(_) => maker.put_whole(mode, first_record::<L>(bytes)),
        None => Err(MakeFault::Broken),
    }
}

/// Puts the record of a call by its bytes, behind which there is one that is not its own.
fn put_whole<S: Store, L: Width>(
    alloc: Global,
    maker: &mut Maker<S, L>,
    call: &Call,
) -> Result<Put, MakeFault> {
    let mut bytes = run_of(alloc, &[*call], L::WORD)?;
    bytes.push(b'?')?;
    match call.step {
        Step::Put(mode) => put_first(maker, mode, &bytes),
        _ => Err(MakeFault::Broken),
    }
}

/// Returns true if puts by bytes come to what a plain list of records does.
fn come_to<L: Width>(alloc: Global, calls: &[Call], way: Way) -> Result<bool, Fail> {
    let wanted = expected_within::<L>(alloc, calls, way.most)?;
    let mut maker: Maker<MemStore, L> = made_in(alloc, MemStore::new(alloc), way)?;
    for (call, answer) in calls.iter().zip(wanted.answers.iter()) {
        let given = match put_whole(alloc, &mut maker, call) {
            Ok(put) => Answer::Put(put),
            Err(fault) => Answer::Refused(fault),
        };
        if given != *answer {
            return Ok(false);
        }
    }
    Ok(maker.count() == wanted.count && finished(maker)?.into_vec() == wanted.file)
}

#[test]
fn whole_records_are_put_by_each_mode(rt: HostRuntime) -> Result<(), Fail> {
    let alloc = rt.alloc();
    for mode in [Mode::Add, Mode::Warn, Mode::Insert, Mode::Replace] {
        let calls = [
            put(mode, b"a", b"1"),
            put(mode, b"a", b"22"),
            put(mode, b"b", b""),
        ];
        for way in [EAGER, LAZY] {
            assert!(rt; come_to::<Narrow>(alloc, &calls, way)?, "{mode:?}, {way:?}");
            assert!(rt; come_to::<Wide>(alloc, &calls, way)?, "{mode:?}, {way:?}");
            // With their slots the three have 78 bytes.
            for most in 0..80u16 {
                let most = Some(most);
                let way = Way { most, ..way };
                assert!(rt; come_to::<Narrow>(alloc, &calls, way)?, "{mode:?}, {way:?}");
            }
        }
    }
    Ok(())
}

#[test]
fn a_whole_record_is_one_write(rt: HostRuntime) -> Result<(), Fail> {
    let mut maker = fused(rt.alloc(), u64::MAX, 0)?;
    let (calls, written) = (maker.store().calls(), maker.store().written());
    let answer = put_whole(rt.alloc(), &mut maker, &add(b"one", b"Hello"));
    assert!(rt; answer == Ok(Put::Added));
    assert!(rt; maker.store().calls() == calls.saturating_add(1));
    assert!(rt; maker.store().written() == written.saturating_add(16));
    Ok(())
}

#[test]
fn a_failed_write_of_a_whole_record_leaves_the_others(rt: HostRuntime) -> Result<(), Fail> {
    let alloc = rt.alloc();
    let calls = [add(b"a", b"1"), add(b"one", b"Hello")];
    let wanted = expected::<Narrow>(alloc, &calls)?;
    let before = one_record(alloc, u64::MAX, 0)?.store().calls();
    for part in [0u64, 1, 15, 16] {
        let mut maker = one_record(alloc, before, part)?;
        let answer = put_whole(alloc, &mut maker, &calls[1]);
        assert!(rt; answer == Err(MakeFault::Writing), "part {part}");
        assert!(rt; !maker.is_broken() && maker.count() == 1, "part {part}");
        assert!(rt;
            put_whole(alloc, &mut maker, &calls[1]) == Ok(Put::Added),
            "part {part}"
        );
        let file = finished(maker)?.into_inner().into_vec();
        assert!(rt; file == wanted.file, "part {part}");
    }
    Ok(())
}

#[test]
fn a_failed_whole_replacement_tells_what_is_left(rt: HostRuntime) -> Result<(), Fail> {
    let alloc = rt.alloc();
    let call = replace(b"a", b"22");
    let before = one_record(alloc, u64::MAX, 0)?.store().calls();
    let (mut looking, mut writing) = (0u32, 0u32);
    for calls in 0..8u64 {
        let mut maker = one_record(alloc, before.saturating_add(calls), 0)?;
        match put_whole(alloc, &mut maker, &call) {
            Ok(put) => assert!(rt; put == Put::Replaced(1), "{calls} calls"),
            Err(MakeFault::Lookup) => {
                looking = looking.saturating_add(1);
                assert!(rt; !maker.is_broken() && maker.count() == 1, "{calls} calls");
                let again = put_whole(alloc, &mut maker, &call);
                assert!(rt; again == Ok(Put::Replaced(1)), "{calls} calls");
            }
            Err(fault) => {
                writing = writing.saturating_add(1);
                assert!(rt;
                    fault == MakeFault::Writing && maker.is_broken(),
                    "{calls} calls"
                );
                let again = put_whole(alloc, &mut maker, &add(b"b", b""));
                assert!(rt; again == Err(MakeFault::Broken), "{calls} calls");
            }
        }
    }
    assert!(rt; looking > 0 && writing > 0);
    Ok(())
}

#[test]
fn a_store_without_room_takes_no_whole_record(rt: HostRuntime) -> Result<(), Fail> {
    let alloc = rt.alloc();
    let calls = [add(b"one", b"Hello")];
    let store = ScarceStore::new(MemStore::new(alloc), 2048, 1);
    let mut maker: Maker<ScarceStore<MemStore>, Narrow> = maker_in(alloc, store)?;
    let answer = put_whole(alloc, &mut maker, &calls[0]);
    assert!(rt; answer == Err(MakeFault::NoMemory));
    assert!(rt; !maker.is_broken() && maker.count() == 0);
    assert!(rt; put_whole(alloc, &mut maker, &calls[0]) == Ok(Put::Added));
    let file = finished(maker)?.inner.into_vec();
    assert!(rt; file == expected::<Narrow>(alloc, &calls)?.file);
    Ok(())
}
