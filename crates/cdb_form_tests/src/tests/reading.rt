// Whole reads, at the edges of what is allowed, and over readers that fail.
use super::fakes::{Behind, FakeReader};
use cdb_form::{Extent, InFault, read_whole};
use std::alloc::Global;
use std::prelude::*;
use std::test::Fail;

/// How long a text is, how much of it may be taken, the answer, what is taken and what is left.
const WHOLE: [(usize, u32, Extent, usize, usize); 11] = [
    (0, 0, Extent::All, 0, 0),
    (1, 0, Extent::More, 1, 0),
    (4095, 4096, Extent::All, 4095, 0),
    (4096, 4096, Extent::All, 4096, 0),
    (4097, 4096, Extent::More, 4097, 0),
    (10000, 4096, Extent::More, 4097, 5903),
    (10000, 9998, Extent::More, 9999, 1),
    (10000, 9999, Extent::More, 10000, 0),
    (10000, 10000, Extent::All, 10000, 0),
    (10000, 10001, Extent::All, 10000, 0),
    (10000, u32::MAX, Extent::All, 10000, 0),
];

#[test]
fn no_more_than_one_byte_above_the_most_is_taken(rt: HostRuntime) -> Result<(), Fail> {
    for &(len, most, extent, taken, left) in &WHOLE {
        let text = vec![in rt.alloc(); b'x'; len]?;
        let mut reader = FakeReader::new(&text, Behind::End);
        let mut held = vec![in rt.alloc(); b'y'; 3]?;
        let answer = read_whole(&mut reader, &mut held, u64::from(most));
        let is_prefix = held.len() == taken && held.iter().all(|byte| *byte == b'x');
        let is_right = answer == Ok(extent) && is_prefix && reader.text.len() == left;
        assert!(rt; is_right && reader.greatest_ask <= 4096, "{most} of {len}");
    }
    Ok(())
}

/// Returns true if a read of so many bytes at most answers so, and holds these bytes then.
fn reads_so(
    alloc: Global,
    mut reader: FakeReader<'_>,
    most: u32,
    want: Result<Extent, InFault>,
    bytes: &[u8],
) -> bool {
    let mut held = Vec::new(alloc);
    read_whole(&mut reader, &mut held, u64::from(most)) == want && held.as_slice() == bytes
}

#[test]
fn a_reader_that_fails_gave_what_came_before(rt: HostRuntime) {
    let cases = [
        (4, Ok(Extent::More)),
        (5, Err(InFault::Failed)),
        (6, Err(InFault::Failed)),
    ];
    for (most, want) in cases {
        let reader = FakeReader::new(b"Hello", Behind::Failure);
        assert!(rt;
            reads_so(rt.alloc(), reader, most, want, b"Hello"),
            "{most}"
        );
    }
}

#[test]
fn interrupts_of_a_reader_are_counted_in_a_row(rt: HostRuntime) {
    let cases: [(u64, Result<Extent, InFault>, &[u8]); 2] = [
        (1000, Ok(Extent::All), b"Hello"),
        (1001, Err(InFault::Failed), b""),
    ];
    for (interrupts, want, bytes) in cases {
        let reader = FakeReader::interrupted_each(b"Hello", interrupts);
        assert!(rt;
            reads_so(rt.alloc(), reader, 5, want, bytes),
            "{interrupts} before each byte"
        );
    }
}

#[test]
fn faults_of_a_reader_are_said(rt: HostRuntime) -> Result<(), Fail> {
    let cases = [
        (InFault::Failed, "input cannot be read"),
        (InFault::NoMemory, "no memory"),
    ];
    for (fault, words) in cases {
        let said = fault.to_string(rt.alloc())?;
        assert!(rt;
            fault.message() == words && said.as_str() == words,
            "{words}"
        );
    }
    Ok(())
}
