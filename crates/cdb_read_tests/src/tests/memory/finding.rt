// Look-ups: values in order, and keys that are not there.
use super::files::{beside_file, four_file};
use crate::tests::files::{two_file, wide_file};
use cdb_form::{Damage, Narrow, Wide, Width, head_size};
use cdb_read::Span;
use cdb_read::memory::{begin, find, next};
use std::prelude::*;
use std::test::Fail;

/// What a call of `find` or `next` answers.
pub(super) type Answer = Result<Option<Span>, Damage>;

/// That nothing is left.
pub(super) const NONE: Answer = Ok(None);

/// A value's span.
pub(super) fn value(place: u64, len: u64) -> Answer {
    Ok(Some(Span { place, len }))
}

/// Returns true if `begin` and `next` give these answers in turn. A damage of `begin` counts as
/// each answer.
fn searches<L: Width>(file: &[u8], key: &[u8], wanted: &[Answer]) -> bool {
    if file.len() < head_size::<L>() {
        return false;
    }
    let mut same = true;
    match begin::<L>(file, key) {
        Ok(search) => {
            let mut search = search;
            for answer in wanted {
                same = same && next::<L>(file, key, &mut search) == *answer;
            }
        }
        Err(damage) => {
            for answer in wanted {
                same = same && Err(damage) == *answer;
            }
        }
    }
    same
}

/// And whether `find` gives the first of them.
pub(super) fn gives<L: Width>(file: &[u8], key: &[u8], wanted: &[Answer]) -> bool {
    if file.len() < head_size::<L>() {
        return false;
    }
    match wanted.first() {
        Some(first) => find::<L>(file, key) == *first && searches::<L>(file, key, wanted),
        None => false,
    }
}

#[test]
fn the_values_of_two_keys_are_found(rt: HostRuntime) -> Result<(), Fail> {
    let file = two_file(rt.alloc())?;
    assert!(rt;
        gives::<Narrow>(&file, b"one", &[value(2059, 5), NONE, NONE]),
        "one"
    );
    assert!(rt;
        gives::<Narrow>(&file, b"two", &[value(2075, 7), NONE, NONE]),
        "two"
    );
    assert!(rt; gives::<Narrow>(&file, b"zzz", &[NONE, NONE]), "zzz");
    Ok(())
}

#[test]
fn a_search_goes_round_and_keeps_the_order(rt: HostRuntime) -> Result<(), Fail> {
    let file = four_file(rt.alloc())?;
    let wanted = [
        value(2057, 1),
        value(2067, 1),
        value(2077, 1),
        value(2087, 1),
        NONE,
        NONE,
    ];
    assert!(rt; gives::<Narrow>(&file, b"a", &wanted), "four values");
    assert!(rt;
        file.get(2057) == Some(&b'1') && file.get(2087) == Some(&b'4'),
        "the first and the last"
    );
    Ok(())
}

#[test]
fn two_keys_of_one_hash_are_told_apart(rt: HostRuntime) -> Result<(), Fail> {
    let file = beside_file(rt.alloc())?;
    assert!(rt; file.len() == 2102, "the file");
    assert!(rt;
        gives::<Narrow>(&file, b"cB", &[value(2058, 1), NONE]),
        "cB"
    );
    assert!(rt;
        gives::<Narrow>(&file, b"bc", &[value(2069, 1), NONE]),
        "bc"
    );
    Ok(())
}

#[test]
fn an_empty_database_has_no_key(rt: HostRuntime) -> Result<(), Fail> {
    let file = vec![in rt.alloc(); 0u8; 2048]?;
    assert!(rt; gives::<Narrow>(&file, b"one", &[NONE, NONE]), "one");
    assert!(rt; gives::<Narrow>(&file, b"", &[NONE, NONE]), "the empty key");
    Ok(())
}

#[test]
fn words_of_8_bytes_are_looked_up(rt: HostRuntime) -> Result<(), Fail> {
    let file = wide_file(rt.alloc())?;
    assert!(rt;
        gives::<Wide>(&file, b"one", &[value(4115, 5), NONE, NONE]),
        "one"
    );
    assert!(rt; gives::<Wide>(&file, b"two", &[NONE]), "two");
    Ok(())
}
