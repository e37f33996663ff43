// Walks: records in order, damage, and states that nobody left.
use super::files::four_file;
use crate::tests::files::{changed, two_file, wide_file};
use cdb_form::{Damage, Narrow, Wide, Width, head_size};
use cdb_read::memory::{RecordArea, first_record, next_record};
use cdb_read::{Pair, Span};
use std::prelude::*;
use std::test::Fail;

/// What a call of `next_record` answers.
type Answer = Result<Option<Pair>, Damage>;

/// That the walk has ended.
const NONE: Answer = Ok(None);

/// A record: its place, the place and the length of its key, and those of its value.
fn pair(place: u64, key: (u64, u64), value: (u64, u64)) -> Answer {
    Ok(Some(Pair {
        place,
        key: Span {
            place: key.0,
            len: key.1,
        },
        value: Span {
            place: value.0,
            len: value.1,
        },
    }))
}

/// The records of the file of two.
fn one() -> Answer {
    pair(2048, (2056, 3), (2059, 5))
}

fn two() -> Answer {
    pair(2064, (2072, 3), (2075, 7))
}

/// Returns true if a walk gives these answers in turn. A damage of `first_record` counts as each
/// answer.
fn walks<L: Width>(file: &[u8], wanted: &[Answer]) -> bool {
    if file.len() < head_size::<L>() {
        return false;
    }
    let mut same = true;
    match first_record::<L>(file) {
        Ok(rest) => {
            let mut rest = rest;
            for answer in wanted {
                same = same && next_record::<L>(file, &mut rest) == *answer;
            }
        }
        Err(damage) => {
            for answer in wanted {
                same = same && Err(damage) == *answer;
            }
        }
    }
    same
}

#[test]
fn the_records_of_worked_files_are_walked(rt: HostRuntime) -> Result<(), Fail> {
    let file = two_file(rt.alloc())?;
    assert!(rt;
        walks::<Narrow>(&file, &[one(), two(), NONE, NONE]),
        "two records"
    );
    let file = four_file(rt.alloc())?;
    let wanted = [
        pair(2048, (2056, 1), (2057, 1)),
        pair(2058, (2066, 1), (2067, 1)),
        pair(2068, (2076, 1), (2077, 1)),
        pair(2078, (2086, 1), (2087, 1)),
        NONE,
    ];
    assert!(rt; walks::<Narrow>(&file, &wanted), "four records");
    let file = wide_file(rt.alloc())?;
    let wanted = [pair(4096, (4112, 3), (4115, 5)), NONE];
    assert!(rt; walks::<Wide>(&file, &wanted), "words of 8 bytes");
    let file = vec![in rt.alloc(); 0u8; 2048]?;
    assert!(rt; walks::<Narrow>(&file, &[NONE, NONE]), "2048 zero bytes");
    Ok(())
}

#[test]
fn a_damage_ends_a_walk_and_stays(rt: HostRuntime) -> Result<(), Fail> {
    let alloc = rt.alloc();
    let second = Err(Damage::Record(2064));
    // The value of `two` passes the record end.
    let file = changed(two_file(alloc)?, 2068, b"\x08");
    assert!(rt;
        walks::<Narrow>(&file, &[one(), second, second]),
        "a value too long"
    );
    let mut file = two_file(alloc)?;
    file.truncate(2070);
    assert!(rt;
        walks::<Narrow>(&file, &[one(), second, second]),
        "a cut file"
    );
    // Table 0 has a slot at place 100.
    let file = changed(two_file(alloc)?, 0, b"\x64\0\0\0\x01\0\0\0");
    assert!(rt;
        walks::<Narrow>(&file, &[Err(Damage::Table(0)); 2]),
        "a table in the head"
    );
    Ok(())
}

#[test]
fn a_made_up_walk_is_inside_or_damage(rt: HostRuntime) -> Result<(), Fail> {
    let file = two_file(rt.alloc())?;
    let far = RecordArea {
        place: u64::MAX - 1,
        end: u64::MAX,
    };
    let mut rest = far;
    let answer = next_record::<Narrow>(&file, &mut rest);
    assert!(rt;
        answer == Err(Damage::Record(u64::MAX - 1)) && rest == far,
        "far away"
    );
    let mut rest = RecordArea { place: 9, end: 3 };
    assert!(rt;
        next_record::<Narrow>(&file, &mut rest) == NONE,
        "past its end"
    );
    let mut rest = RecordArea {
        place: 2064,
        end: u64::MAX,
    };
    assert!(rt; next_record::<Narrow>(&file, &mut rest) == two(), "no end");
    Ok(())
}
