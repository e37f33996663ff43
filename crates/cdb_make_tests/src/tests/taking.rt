//! Records of a key, taken out from between others.
use super::scripts::{Call, add, all_come_to, exists, long, remove, replace};
use cdb_form::{Narrow, Wide, hash};
use std::alloc::Global;
use std::prelude::*;
use std::test::Fail;

/// Runs a script, which is to leave the records that a plain list has.
fn leaves(alloc: Global, calls: &[Call]) -> Result<(), Fail> {
    all_come_to::<Narrow>(alloc, calls, None)?;
    all_come_to::<Wide>(alloc, calls, None)?;
    Ok(())
}

#[test]
fn the_first_a_middle_and_the_last_record_are_taken_out(rt: HostRuntime) -> Result<(), Fail> {
    let keys: [&[u8]; 5] = [b"one", b"two", b"three", b"", b"none"];
    for key in keys {
        let calls = [
            add(b"one", b"1"),
            add(b"two", b"22"),
            add(b"three", b""),
            add(b"", b"4"),
            remove(key),
        ];
        leaves(rt.alloc(), &calls)?;
    }
    Ok(())
}

#[test]
fn several_gaps_are_closed_round_long_records(rt: HostRuntime) -> Result<(), Fail> {
    let long = long(rt.alloc(), 10000)?;
    let calls = [
        add(b"kept", b"first"),
        add(b"gone", b"1"),
        add(b"long", &long),
        add(b"gone", b"second"),
        add(b"", &long),
        add(b"gone", &long),
        remove(b"gone"),
    ];
    leaves(rt.alloc(), &calls)
}

#[test]
fn records_at_both_ends_are_taken_out(rt: HostRuntime) -> Result<(), Fail> {
    // The last goes before the first, between them a look, and then records that follow.
    let calls = [
        add(b"one", b"1"),
        add(b"two", b"22"),
        add(b"a", b"333"),
        add(b"bc", b"4"),
        remove(b"bc"),
        exists(b"bc"),
        remove(b"one"),
        exists(b"one"),
        exists(b"two"),
        add(b"one", b"5"),
        replace(b"two", b"6"),
        exists(b"bc"),
    ];
    for len in 5..13usize {
        leaves(rt.alloc(), calls.get(..len).unwrap_or(&[]))?;
    }
    Ok(())
}

#[test]
fn all_records_are_taken_out(rt: HostRuntime) -> Result<(), Fail> {
    let calls = [
        add(b"k", b"1"),
        add(b"k", b"2"),
        add(b"k", b"3"),
        remove(b"k"),
    ];
    leaves(rt.alloc(), &calls)
}

#[test]
fn keys_with_one_hash_are_told_apart(rt: HostRuntime) -> Result<(), Fail> {
    assert!(rt; hash(b"cB") == hash(b"bc"));
    let calls = [
        add(b"cB", b"1"),
        add(b"bc", b"2"),
        add(b"cB", b"3"),
        remove(b"cB"),
        exists(b"bc"),
        exists(b"cB"),
    ];
    leaves(rt.alloc(), &calls)
}

#[test]
fn long_keys_are_compared_to_their_end(rt: HostRuntime) -> Result<(), Fail> {
    let mut one = vec![in rt.alloc(); b'x'; 5000]?;
    one.extend_from_slice(b"cB")?;
    let mut other = vec![in rt.alloc(); b'x'; 5000]?;
    other.extend_from_slice(b"bc")?;
    assert!(rt; hash(&one) == hash(&other));
    let calls = [add(&one, b"1"), add(&other, b"2"), remove(&other)];
    leaves(rt.alloc(), &calls)
}
