// The reader of lists, on texts worked out by hand and over readers that fail.
use super::fakes::{Behind, FakeReader};
use cdb_form::{ListReader, Narrow, Record, TextFault, Wide, Width};
use std::alloc::Global;
use std::prelude::*;
use std::test::Fail;

// Returns the number of keys that the list has and how long they are together, and its fault. No
// more than 2^48 requests are allowed.
fn read_all<L: Width>(
    alloc: Global,
    reader: FakeReader<'_>,
    asks: u64,
) -> (usize, usize, Option<TextFault>) {
    let mut keys: ListReader<FakeReader<'_>, L> = ListReader::with_bound(reader, asks.min(1 << 48));
    let mut item = Record {
        key: Vec::new(alloc),
        value: Vec::new(alloc),
    };
    let (mut count, mut long) = (0usize, 0usize);
    for _ in 0..1000 {
        match keys.read_into(&mut item) {
            Ok(true) => {
                count = count.saturating_add(1);
                long = long.saturating_add(item.key.len());
            }
            Ok(false) => return (count, long, None),
            Err(fault) => return (count, long, Some(fault)),
        }
    }
    (count, long, None)
}

fn read_narrow(alloc: Global, text: &[u8]) -> (usize, usize, Option<TextFault>) {
    read_all::<Narrow>(alloc, FakeReader::new(text, Behind::End), 1 << 48)
}

/// Lists, how many keys they have, how long these are, and their faults.
const READ: [(&[u8], usize, usize, Option<TextFault>); 16] = [
    (b"+3:one\n+5:three\n\n", 2, 8, None),
    (b"\n", 0, 0, None),
    (b"+0:\n\n", 1, 0, None),
    (b"+002:\n\n\n\nrest", 1, 2, None),
    (b"", 0, 0, Some(TextFault::Ended(0))),
    (b"3:one\n", 0, 0, Some(TextFault::Syntax(0))),
    (b"-3:one\n\n", 0, 0, Some(TextFault::Syntax(0))),
    (b"+:", 0, 0, Some(TextFault::Syntax(1))),
    (b"+3,5:one->Hello\n\n", 0, 0, Some(TextFault::Syntax(2))),
    (b"+4294967296:", 0, 0, Some(TextFault::Large(10))),
    (b"+4294967295:", 0, 0, Some(TextFault::Ended(12))),
    (b"+3:on", 0, 0, Some(TextFault::Ended(5))),
    (b"+3:onex\n", 0, 0, Some(TextFault::Syntax(6))),
    (b"+3:one", 0, 0, Some(TextFault::Ended(6))),
    (b"+3:one\n", 1, 3, Some(TextFault::Ended(7))),
    (b"+3:one\n+1\n", 1, 3, Some(TextFault::Syntax(9))),
];

#[test]
fn keys_and_refused_lists(rt: HostRuntime) {
    for &(text, count, long, fault) in &READ {
        assert!(rt;
            read_narrow(rt.alloc(), text) == (count, long, fault),
            "{text:?}"
        );
    }
}

#[test]
fn wide_lengths_of_keys(rt: HostRuntime) {
    let long = FakeReader::new(b"+4294967296:", Behind::End);
    let answer = read_all::<Wide>(rt.alloc(), long, 1 << 48);
    assert!(rt; answer == (0, 0, Some(TextFault::Ended(12))), "a long key");
    let longer = FakeReader::new(b"+9223372036854775808:", Behind::End);
    let answer = read_all::<Wide>(rt.alloc(), longer, 1 << 48);
    assert!(rt;
        answer == (0, 0, Some(TextFault::Large(19))),
        "a longer one"
    );
}

#[test]
fn lists_of_readers_that_fail(rt: HostRuntime) {
    let failed = FakeReader::new(b"+3:one\n+3:t", Behind::Failure);
    let answer = read_all::<Narrow>(rt.alloc(), failed, 1 << 48);
    assert!(rt; answer == (1, 3, Some(TextFault::Input)), "a failure");
    let endless = FakeReader::new(b"", Behind::ForEver(b'+'));
    let answer = read_all::<Narrow>(rt.alloc(), endless, 1);
    assert!(rt; answer == (0, 0, Some(TextFault::Endless)), "no end");
}

// Returns true if a list has one key, and no more for good; the rest stays.
fn gives_one(alloc: Global, text: &mut &[u8]) -> bool {
    let mut keys: ListReader<&mut &[u8], Narrow> = ListReader::new(text);
    let mut item = Record {
        key: Vec::new(alloc),
        value: Vec::new(alloc),
    };
    let one: &[u8] = b"one";
    let is_one = matches!(keys.read_into(&mut item), Ok(true)) && item.key.as_slice() == one;
    let ends = (0..3).all(|_| matches!(keys.read_into(&mut item), Ok(false)));
    let _left = keys.into_reader();
    is_one && ends
}

#[test]
fn keys_are_given_and_the_rest_stays(rt: HostRuntime) -> Result<(), Fail> {
    let mut rest: &[u8] = b"+3:one\n\nrest";
    let wanted: &[u8] = b"rest";
    assert!(rt; gives_one(rt.alloc(), &mut rest), "one key");
    assert!(rt; rest == wanted, "the rest");
    Ok(())
}
