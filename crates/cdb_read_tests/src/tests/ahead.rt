// The further values of a key: many are read at a time, and a bad place spoils no value but its
// own.
use super::bad_bytes::opened;
use super::counting::four_file;
use super::files::{fused, opened_again, push_words};
use cdb_form::Narrow;
use cdb_read::{ReadFault, Span};
use std::alloc::{AllocError, Global};
use std::prelude::*;
use std::test::Fail;

/// The number of values that the long file has.
const MANY: u64 = 600;

/// The hash of the key `a`, whose table is 196.
const HASH: u64 = 177604;

/// The file of many values of the key `a`, each a byte.
fn many_file(alloc: Global) -> Result<Vec<u8>, AllocError> {
    let (end, slots) = (2048 + 10 * MANY, 2 * MANY);
    let mut file = Vec::new(alloc);
    for n in 0..256u64 {
        let place = if n <= 196 { end } else { end + 8 * slots };
        push_words(&mut file, place, if n == 196 { slots } else { 0 }, 4)?;
    }
    for _ in 0..MANY {
        push_words(&mut file, 1, 1, 4)?;
        file.extend_from_slice(b"a.")?;
    }
    let home = HASH / 256 % slots;
    for slot in 0..slots {
        let entry = (slot + slots - home) % slots;
        if entry < MANY {
            push_words(&mut file, HASH, 2048 + 10 * entry, 4)?;
        } else {
            push_words(&mut file, 0, 0, 4)?;
        }
    }
    Ok(file)
}

#[test]
fn further_values_are_read_many_at_once(rt: HostRuntime) -> Result<(), Fail> {
    let alloc = rt.alloc();
    let mut reader = opened_again::<Narrow>(fused(many_file(alloc)?, u64::MAX))?;
    let mut finder = reader.find(b"a");
    let mut values = Vec::new(alloc);
    for _ in 0..=MANY {
        if let Some(span) = finder.next()? {
            finder.copy(span, &mut values)?;
        }
    }
    let calls = reader.into_store().calls();
    assert!(rt; values.len() as u64 == MANY && values.iter().all(|byte| *byte == b'.'));
    // The head; a slot, a record and a value; then 9600 bytes of slots and 6000 of records.
    assert!(rt; calls <= 12, "{calls}");
    Ok(())
}

#[test]
fn a_bad_place_spoils_no_other_value(rt: HostRuntime) -> Result<(), Fail> {
    // The value of the fourth record is bad.
    let alloc = rt.alloc();
    let mut reader = opened::<Narrow>(four_file(alloc)?, &[(2087, 2088)])?;
    let mut finder = reader.find(b"a");
    let mut values = Vec::new(alloc);
    for place in [2057, 2067, 2077] {
        let found = finder.next()?;
        assert!(rt; found == Some(Span { place, len: 1 }), "{place}");
        if let Some(span) = found {
            finder.copy(span, &mut values)?;
        }
    }
    assert!(rt; values.as_slice() == b"123".as_slice());
    let last = finder.next()?;
    assert!(rt;
        last == Some(Span {
            place: 2087,
            len: 1
        }),
        "its key is read, and not its value"
    );
    if let Some(span) = last {
        let copied = finder.copy(span, &mut values);
        assert!(rt; copied == Err(ReadFault::Device), "its value is bad");
    }
    Ok(())
}
