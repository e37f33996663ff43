//! Files that a maker makes in place, with their places and the bytes that each call writes.
use super::makers::{EAGER, LAZY, Way, finished, made_in};
use super::model::expected;
use super::scripts::{
    ADDED, Answer, Made, add, answer_of, comes_late_to, comes_to, exists, long, put, remove,
    replace, replaced, words,
};
use cdb_form::{Narrow, Wide};
use cdb_make::{MakeFault, Maker, Mode, Put};
use cdb_store::MemStore;
use std::alloc::Global;
use std::prelude::*;
use std::process::Abort;
use std::test::Fail;

/// Asserts what a script answered, what each call wrote and at last the finish, and which words are
/// stored from a place on.
fn assert_made(
    rt: &impl Abort,
    made: &Made,
    answers: &[Answer],
    wrote: &[u64],
    place: usize,
    slots: &[u32],
) {
    let is_answered = made.answers.as_slice() == answers && made.wrote.as_slice() == wrote;
    assert!(rt; is_answered && words(&made.file, place, slots));
}

#[test]
fn records_of_a_key_fill_their_table_in_order(rt: HostRuntime) -> Result<(), Fail> {
    let alloc = rt.alloc();
    let calls = [
        add(b"a", b"1"),
        add(b"a", b"2"),
        add(b"a", b"3"),
        add(b"a", b"4"),
        replace(b"a", b"5"),
    ];
    let four = comes_to::<Narrow>(alloc, &calls[..4])?;
    let slots = [
        177604, 2078, 0, 0, 0, 0, 0, 0, 0, 0, 177604, 2048, 177604, 2058, 177604, 2068,
    ];
    let answers = [ADDED, ADDED, ADDED, ADDED, replaced(4)];
    let wrote = [10, 10, 10, 10, 2112];
    assert_made(&rt, &four, &answers[..4], &wrote, 2088, &slots);
    let one = comes_to::<Narrow>(alloc, &calls)?;
    let wrote = [10, 10, 10, 10, 10, 2064];
    assert_made(&rt, &one, &answers, &wrote, 2058, &[0, 0, 177604, 2048]);
    Ok(())
}

#[test]
fn a_key_is_replaced_beside_one_of_its_hash(rt: HostRuntime) -> Result<(), Fail> {
    let calls = [add(b"cB", b"x"), add(b"bc", b"y"), replace(b"bc", b"z")];
    let made = comes_to::<Narrow>(rt.alloc(), &calls)?;
    let answers = [ADDED, ADDED, replaced(1)];
    let slots = [0, 0, 0, 0, 5861060, 2048, 5861060, 2059];
    assert_made(&rt, &made, &answers, &[11, 11, 11, 2080], 2070, &slots);
    Ok(())
}

#[test]
fn a_replaced_record_stands_last(rt: HostRuntime) -> Result<(), Fail> {
    let calls = [
        add(b"a", b"1"),
        add(b"one", b"Hello"),
        add(b"two", b"Goodbye"),
        replace(b"a", b"2"),
        exists(b"one"),
        exists(b"zzz"),
        remove(b"zzz"),
        remove(b"a"),
    ];
    let answers = [
        ADDED,
        ADDED,
        ADDED,
        replaced(1),
        Answer::There(true),
        Answer::There(false),
        Answer::Removed(0),
        Answer::Removed(1),
    ];
    let three = comes_to::<Narrow>(rt.alloc(), &calls[..6])?;
    let slots = [
        193421353, 2064, 0, 0, 0, 0, 193420161, 2048, 0, 0, 177604, 2082,
    ];
    let wrote = [10, 16, 18, 44, 0, 0, 2096];
    assert_made(&rt, &three, &answers[..6], &wrote, 2092, &slots);
    let two = comes_to::<Narrow>(rt.alloc(), &calls)?;
    let slots = [193421353, 2064, 0, 0, 0, 0, 193420161, 2048];
    let wrote = [10, 16, 18, 44, 0, 0, 0, 0, 2080];
    assert_made(&rt, &two, &answers, &wrote, 2082, &slots);
    // A lazy maker writes the record alone, and the finish moves two of the four before its tables.
    let late = comes_late_to::<Narrow>(rt.alloc(), &calls)?;
    let wrote = [10, 16, 18, 10, 0, 0, 0, 0, 2114];
    assert_made(&rt, &late, &answers, &wrote, 2082, &slots);
    Ok(())
}

#[test]
fn all_records_of_a_key_are_removed(rt: HostRuntime) -> Result<(), Fail> {
    let calls = [
        add(b"a", b"1"),
        add(b"one", b"Hello"),
        add(b"a", b"2"),
        add(b"two", b"Goodbye"),
        add(b"a", b"3"),
        remove(b"a"),
    ];
    let made = comes_to::<Narrow>(rt.alloc(), &calls)?;
    let answers = [ADDED, ADDED, ADDED, ADDED, ADDED, Answer::Removed(3)];
    let slots = [193421353, 2064, 0, 0, 0, 0, 193420161, 2048];
    let wrote = [10, 16, 10, 18, 10, 34, 2080];
    assert_made(&rt, &made, &answers, &wrote, 2082, &slots);
    let late = comes_late_to::<Narrow>(rt.alloc(), &calls)?;
    let wrote = [10, 16, 10, 18, 10, 0, 2114];
    assert_made(&rt, &late, &answers, &wrote, 2082, &slots);
    Ok(())
}

#[test]
fn a_key_that_is_there_is_warned_of_or_kept(rt: HostRuntime) -> Result<(), Fail> {
    let calls = [
        put(Mode::Insert, b"a", b"1"),
        put(Mode::Insert, b"a", b"9"),
        put(Mode::Warn, b"a", b"2"),
    ];
    let answers = [
        ADDED,
        Answer::Put(Put::Present),
        Answer::Put(Put::AddedAgain),
    ];
    let one = comes_to::<Narrow>(rt.alloc(), &calls[..2])?;
    let slots = [0, 0, 177604, 2048];
    assert_made(&rt, &one, &answers[..2], &[10, 0, 2064], 2058, &slots);
    let two = comes_to::<Narrow>(rt.alloc(), &calls)?;
    let slots = [0, 0, 177604, 2048, 177604, 2058, 0, 0];
    assert_made(&rt, &two, &answers, &[10, 0, 10, 2080], 2068, &slots);
    Ok(())
}

#[test]
fn long_records_are_moved_whole(rt: HostRuntime) -> Result<(), Fail> {
    let (ten, five) = (long(rt.alloc(), 10000)?, long(rt.alloc(), 5000)?);
    let calls = [add(b"a", b"1"), add(b"b", &ten), replace(b"a", b"2")];
    let two = comes_to::<Narrow>(rt.alloc(), &calls)?;
    let slots = [0, 0, 177604, 12057, 0, 0, 177607, 2048];
    let answers = [ADDED, ADDED, replaced(1)];
    assert_made(
        &rt,
        &two,
        &answers,
        &[10, 10009, 10019, 2080],
        12067,
        &slots,
    );
    let mut calls = [
        add(b"a", b"1"),
        add(b"b", &ten),
        add(b"a", b"2"),
        add(b"c", &five),
        replace(b"a", b"3"),
    ];
    let three = comes_to::<Narrow>(rt.alloc(), &calls)?;
    let slots = [0, 0, 177604, 17066, 0, 0, 177606, 12057, 0, 0, 177607, 2048];
    let answers = [ADDED, ADDED, ADDED, ADDED, replaced(2)];
    let wrote = [10, 10009, 10, 5009, 15028, 2096];
    assert_made(&rt, &three, &answers, &wrote, 17076, &slots);
    calls[4] = remove(b"a");
    let left = comes_to::<Narrow>(rt.alloc(), &calls)?;
    let slots = [0, 0, 177606, 12057, 0, 0, 177607, 2048];
    let answers = [ADDED, ADDED, ADDED, ADDED, Answer::Removed(2)];
    let wrote = [10, 10009, 10, 5009, 15018, 2080];
    assert_made(&rt, &left, &answers, &wrote, 17066, &slots);
    Ok(())
}

/// A value of 40 bytes.
const FORTY: &[u8] = b"0123456789012345678901234567890123456789";

/// A value of 39 bytes.
const LESS: &[u8] = b"012345678901234567890123456789012345678";

/// Another value of 39 bytes.
const OTHER: &[u8] = b"987654321098765432109876543210987654321";

#[test]
fn a_record_is_too_big_only_where_the_file_would_pass_the_limit(
    rt: HostRuntime,
) -> Result<(), Fail> {
    let too_big = Answer::Refused(MakeFault::TooBig);
    // What is put, what that answers, and how long the file then is.
    let rows = [
        (add(b"a", FORTY), too_big, 2048),
        (add(b"a", LESS), ADDED, 2112),
        (replace(b"a", OTHER), replaced(1), 2112),
        (replace(b"a", FORTY), too_big, 2112),
        (add(b"", b""), too_big, 2112),
    ];
    let wanted = expected::<Narrow>(rt.alloc(), &[add(b"a", OTHER)])?;
    for way in [EAGER, LAZY] {
        let most = Some(64);
        let store = MemStore::new(rt.alloc());
        let mut maker: Maker<MemStore, Narrow> = made_in(rt.alloc(), store, Way { most, ..way })?;
        for (row, (call, given, size)) in rows.iter().enumerate() {
            let same = answer_of(&mut maker, call) == *given && maker.size() == *size;
            assert!(rt; same, "{way:?}, row {row}");
        }
        let store = finished(maker)?;
        assert!(rt; store.bytes() == wanted.file.as_slice(), "{way:?}");
    }
    Ok(())
}

#[test]
fn words_of_8_bytes_are_made_in_place(rt: HostRuntime) -> Result<(), Fail> {
    let calls = [
        add(b"one", b"Hello"),
        add(b"a", b"1"),
        add(b"two", b"Goodbye"),
        replace(b"one", b"again"),
        remove(b"a"),
    ];
    let made = comes_to::<Wide>(rt.alloc(), &calls)?;
    assert!(rt; made.wrote.as_slice() == [24, 18, 26, 68, 50, 4160].as_slice());
    Ok(())
}

#[test]
fn records_of_about_the_length_of_a_piece_stand_whole(rt: HostRuntime) -> Result<(), Fail> {
    let bytes = long(rt.alloc(), 300)?;
    for len in 240..260usize {
        let value = bytes.get(..len).unwrap_or(b"");
        let made = comes_to::<Narrow>(rt.alloc(), &[add(b"one", value)])?;
        let mut record = Vec::new(rt.alloc());
        record.extend_from_slice(&3u32.to_le_bytes())?;
        record.extend_from_slice(&(len as u32).to_le_bytes())?;
        record.extend_from_slice(b"one")?;
        record.extend_from_slice(value)?;
        let stands = made.file.get(2048..2059 + len) == Some(record.as_slice());
        assert!(rt; stands && made.wrote.first() == Some(&(11 + len as u64)));
    }
    Ok(())
}
