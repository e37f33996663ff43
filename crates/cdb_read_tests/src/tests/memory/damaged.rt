// Look-ups in damaged files, and states that nobody left.
use super::files::four_file;
use super::finding::{Answer, NONE, gives, value};
use crate::tests::files::{changed, two_file};
use cdb_form::{Damage, Narrow};
use cdb_read::memory::{Search, next};
use std::prelude::*;
use std::test::Fail;

/// A damage, twice.
fn stays(damage: Damage) -> [Answer; 2] {
    [Err(damage), Err(damage)]
}

#[test]
fn a_table_outside_is_a_damage_for_its_keys(rt: HostRuntime) -> Result<(), Fail> {
    // Table 7 begins at the file's end. The hash of the byte a2 is 177415.
    let file = changed(two_file(rt.alloc())?, 56, b"\x42\x08\0\0\x01\0\0\0");
    assert!(rt;
        gives::<Narrow>(&file, b"\xa2", &stays(Damage::Table(7))),
        "its key"
    );
    assert!(rt;
        gives::<Narrow>(&file, b"one", &[value(2059, 5), NONE]),
        "another key"
    );
    Ok(())
}

#[test]
fn a_damaged_record_stays_the_answer(rt: HostRuntime) -> Result<(), Fail> {
    // The slot of `two` has the place 2065 instead of 2064.
    let file = changed(two_file(rt.alloc())?, 2086, b"\x11");
    assert!(rt;
        gives::<Narrow>(&file, b"two", &stays(Damage::Record(2065))),
        "two"
    );
    assert!(rt;
        gives::<Narrow>(&file, b"one", &[value(2059, 5), NONE]),
        "one"
    );
    // The slot of the third value of `a` has the place 2069.
    let file = changed(four_file(rt.alloc())?, 2148, b"\x15");
    let damage = Err(Damage::Record(2069));
    let wanted = [value(2057, 1), value(2067, 1), damage, damage];
    assert!(rt; gives::<Narrow>(&file, b"a", &wanted), "a later record");
    Ok(())
}

#[test]
fn a_value_may_pass_the_record_end(rt: HostRuntime) -> Result<(), Fail> {
    // The value of `two` has 8 bytes: it takes the first byte of table 41.
    let file = changed(two_file(rt.alloc())?, 2068, b"\x08");
    assert!(rt;
        gives::<Narrow>(&file, b"two", &[value(2075, 8), NONE]),
        "two"
    );
    Ok(())
}

#[test]
fn a_cut_file_has_lost_its_tables(rt: HostRuntime) -> Result<(), Fail> {
    let mut file = two_file(rt.alloc())?;
    file.truncate(2070);
    assert!(rt;
        gives::<Narrow>(&file, b"one", &stays(Damage::Table(129))),
        "one"
    );
    assert!(rt;
        gives::<Narrow>(&file, b"two", &stays(Damage::Table(41))),
        "two"
    );
    Ok(())
}

/// Returns true if `next` answers a damage from a state, and leaves it.
fn refuses(file: &[u8], key: &[u8], state: Search, damage: Damage) -> bool {
    let mut search = state;
    let answer = next::<Narrow>(file, key, &mut search);
    answer == Err(damage) && search == state
}

#[test]
fn a_state_outside_the_file_is_a_damage(rt: HostRuntime) -> Result<(), Fail> {
    let file = two_file(rt.alloc())?;
    let hash = 193420161;
    let far = Search {
        hash,
        table: u64::MAX - 7,
        slots: u64::MAX,
        slot: u64::MAX - 1,
        left: u64::MAX,
    };
    let long = Search {
        hash,
        table: 2098,
        slots: 2,
        slot: 0,
        left: u64::MAX,
    };
    let late = Search {
        hash,
        table: 2098,
        slots: 2,
        slot: 2,
        left: 1,
    };
    assert!(rt;
        refuses(&file, b"one", far, Damage::Table(129)),
        "a table far away"
    );
    assert!(rt;
        refuses(&file, b"one", long, Damage::Table(129)),
        "too many slots left"
    );
    assert!(rt;
        refuses(&file, b"one", late, Damage::Table(129)),
        "a slot after the last"
    );
    assert!(rt; refuses(&[], b"one", late, Damage::Table(129)), "no file");
    Ok(())
}

#[test]
fn a_made_up_state_inside_the_file_is_answered_inside(rt: HostRuntime) -> Result<(), Fail> {
    let file = two_file(rt.alloc())?;
    // The records read as slots.
    for slots in 1..8u64 {
        let mut search = Search {
            hash: 193420161,
            table: 2048,
            slots,
            slot: 0,
            left: slots,
        };
        let answer = next::<Narrow>(&file, b"one", &mut search);
        assert!(rt; answer == NONE && search.left == 0, "{slots}");
    }
    Ok(())
}
