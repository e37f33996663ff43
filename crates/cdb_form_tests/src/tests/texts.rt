// The text reader, on texts worked out by hand and over readers that fail.
use super::fakes::{Behind, FakeReader};
use cdb_form::{Narrow, TextFault, TextReader, Wide, Width};
use std::alloc::Global;
use std::io::Read;
use std::prelude::*;
use std::test::Fail;

const TWO: &[u8] = b"+3,5:one->Hello\n+3,7:two->Goodbye\n\n";

// Returns the number of records that the text has, and its fault. No more than 2^48 requests are
// allowed.
fn read_all<L: Width, R: Read + Drop>(
    alloc: Global,
    reader: R,
    asks: u64,
) -> (usize, Option<TextFault>) {
    let mut texts: TextReader<R, L> = TextReader::with_bound(alloc, reader, asks.min(1 << 48));
    let mut count = 0usize;
    for _ in 0..1000 {
        match texts.next() {
            Ok(Some(_)) => count = count.saturating_add(1),
            Ok(None) => return (count, None),
            Err(fault) => return (count, Some(fault)),
        }
    }
    (count, None)
}

fn read_narrow(alloc: Global, text: &[u8]) -> (usize, Option<TextFault>) {
    read_all::<Narrow, FakeReader<'_>>(alloc, FakeReader::new(text, Behind::End), 1 << 48)
}

/// Texts, how many records they have, and their faults.
const READ: [(&[u8], usize, Option<TextFault>); 15] = [
    (TWO, 2, None),
    (b"\n", 0, None),
    (b"+0,0:->\n\n", 1, None),
    (b"+003,05:one->Hello\n\nrest", 1, None),
    (b"", 0, Some(TextFault::Ended(0))),
    (b"*", 0, Some(TextFault::Syntax(0))),
    (b"+,5:", 0, Some(TextFault::Syntax(1))),
    (b"+4294967296,0:", 0, Some(TextFault::Large(10))),
    (b"+4294967295,0:", 0, Some(TextFault::Ended(14))),
    (b"+3,5:one=>Hello", 0, Some(TextFault::Syntax(8))),
    (b"+3,5:one->Hell", 0, Some(TextFault::Ended(14))),
    (b"+3,5:one->Hello!", 0, Some(TextFault::Syntax(15))),
    (b"+3,5:one->Hello\n", 1, Some(TextFault::Ended(16))),
    (b"+1,1:a->1\n-1:a\n\n", 1, Some(TextFault::Syntax(10))),
    (b"-3:one\n\n", 0, Some(TextFault::Syntax(0))),
];

#[test]
fn records_and_refused_texts(rt: HostRuntime) {
    for &(text, count, fault) in &READ {
        assert!(rt; read_narrow(rt.alloc(), text) == (count, fault), "{text:?}");
    }
}

/// Texts in wide words, and their faults.
const WIDE: [(&[u8], TextFault); 3] = [
    (b"+4294967296,0:", TextFault::Ended(14)),
    // Memory is allocated only as bytes come.
    (b"+9223372036854775807,0:", TextFault::Ended(23)),
    (b"+9223372036854775808,0:", TextFault::Large(19)),
];

#[test]
fn wide_lengths(rt: HostRuntime) {
    for &(text, fault) in &WIDE {
        let reader = FakeReader::new(text, Behind::End);
        let answer = read_all::<Wide, FakeReader<'_>>(rt.alloc(), reader, 1 << 48);
        assert!(rt; answer == (0, Some(fault)), "{text:?}");
    }
}

// Returns true if a text has one record, and no more for good.
fn gives_hello(alloc: Global, text: &mut &[u8]) -> bool {
    let mut texts: TextReader<&mut &[u8], Narrow> = TextReader::new(alloc, text);
    let (key, value): (&[u8], &[u8]) = (b"one", b"Hello");
    let is_hello = match texts.next() {
        Ok(Some(it)) => it.key.as_slice() == key && it.value.as_slice() == value,
        _ => false,
    };
    is_hello && (0..3).all(|_| matches!(texts.next(), Ok(None)))
}

#[test]
fn records_are_given_and_the_rest_stays(rt: HostRuntime) {
    let mut rest: &[u8] = b"+003,05:one->Hello\n\nrest";
    assert!(rt; gives_hello(rt.alloc(), &mut rest));
    assert!(rt; rest == b"rest".as_slice());
}

#[test]
fn a_text_without_end_is_given_up_for_good(rt: HostRuntime) {
    let reader = FakeReader::new(b"+", Behind::ForEver(b'0'));
    let mut texts: TextReader<FakeReader<'_>, Narrow> = TextReader::with_bound(
        rt.alloc(),
        reader,
        100,
    );
    for _ in 0..2 {
        assert!(rt; matches!(texts.next(), Err(TextFault::Endless)));
    }
}

#[test]
fn each_cut_text_ends_early_and_each_failure_is_input(rt: HostRuntime) {
    for cut in 0..TWO.len() {
        let (_, fault) = read_narrow(rt.alloc(), &TWO[..cut]);
        assert!(rt; fault == Some(TextFault::Ended(cut as u64)), "cut at {cut}");
        let reader = FakeReader::new(&TWO[..cut], Behind::Failure);
        let (_, fault) = read_all::<Narrow, FakeReader<'_>>(rt.alloc(), reader, 1 << 48);
        assert!(rt; fault == Some(TextFault::Input), "failure at {cut}");
    }
}

#[test]
fn interruptions_are_asked_again(rt: HostRuntime) {
    let cases = [
        (1000, 1 << 48, 2, None),
        (1001, 1 << 48, 0, Some(TextFault::Input)),
        (u64::MAX, 100, 0, Some(TextFault::Endless)),
        (u64::MAX, 2000, 0, Some(TextFault::Input)),
    ];
    for (interrupts, asks, count, fault) in cases {
        let reader = FakeReader::interrupted(TWO, interrupts);
        let answer = read_all::<Narrow, FakeReader<'_>>(rt.alloc(), reader, asks);
        assert!(rt;
            answer == (count, fault),
            "{interrupts} interruptions, {asks} asks"
        );
    }
}

#[test]
fn interruptions_are_counted_in_a_row(rt: HostRuntime) {
    for (interrupts, answer) in [(1000, (2, None)), (1001, (0, Some(TextFault::Input)))] {
        let reader = FakeReader::interrupted_each(TWO, interrupts);
        let found = read_all::<Narrow, FakeReader<'_>>(rt.alloc(), reader, 1 << 48);
        assert!(rt; found == answer, "{interrupts} before each byte");
    }
}

#[test]
fn as_many_asks_as_are_made_suffice(rt: HostRuntime) {
    let mut counted = FakeReader::new(TWO, Behind::End);
    let answer = read_all::<Narrow, &mut FakeReader<'_>>(rt.alloc(), &mut counted, 1 << 48);
    assert!(rt; answer == (2, None));
    let asks = counted.calls;
    assert!(rt; asks > 0);
    for (bound, fault) in [(asks, None), (asks - 1, Some(TextFault::Endless))] {
        let reader = FakeReader::new(TWO, Behind::End);
        let answer = read_all::<Narrow, FakeReader<'_>>(rt.alloc(), reader, bound);
        assert!(rt; answer == (2, fault), "{bound} asks");
    }
}

/// Texts, their faults, and what is left.
const BEHIND: [(&[u8], TextFault, &[u8]); 7] = [
    (b"*+1,1:", TextFault::Syntax(0), b"+1,1:"),
    (b"+,5:one", TextFault::Syntax(1), b"5:one"),
    (b"+4294967296,0:", TextFault::Large(10), b",0:"),
    (b"+3;5:one", TextFault::Syntax(2), b"5:one"),
    (b"+1,1:a=>b\n\n", TextFault::Syntax(6), b">b\n\n"),
    (b"+1,1:a-]b\n\n", TextFault::Syntax(7), b"b\n\n"),
    (b"+1,1:a->b!\n\n", TextFault::Syntax(9), b"\n\n"),
];

#[test]
fn what_stands_behind_a_fault_stays(rt: HostRuntime) {
    for &(text, fault, rest) in &BEHIND {
        let mut reader = text;
        let answer = read_all::<Narrow, &mut &[u8]>(rt.alloc(), &mut reader, 1 << 48);
        assert!(rt; answer == (0, Some(fault)), "{text:?}");
        assert!(rt; reader == rest, "{text:?}");
    }
}

// Returns true if a text has one record, of a value of 9000 bytes.
fn gives_long(alloc: Global, reader: &mut FakeReader<'_>) -> bool {
    let mut texts: TextReader<&mut FakeReader<'_>, Narrow> = TextReader::new(alloc, reader);
    let is_long = matches!(texts.next(), Ok(Some(it)) if it.value.len() == 9000);
    is_long && matches!(texts.next(), Ok(None))
}

#[test]
fn no_ask_is_for_more_than_it_may_be(rt: HostRuntime) -> Result<(), Fail> {
    let mut text = b"+1,9000:k->".to_vec(rt.alloc())?;
    for _ in 0..9000 {
        text.push(b'v')?;
    }
    text.extend_from_slice(b"\n\n")?;
    let mut reader = FakeReader::new(&text, Behind::Failure);
    assert!(rt; gives_long(rt.alloc(), &mut reader));
    assert!(rt; reader.greatest_ask <= 4096);
    Ok(())
}

/// Faults, their numbers and their words.
const SAID: [(TextFault, u8, &str); 6] = [
    (TextFault::Syntax(7), 1, "byte 7: not a record"),
    (TextFault::Ended(0), 2, "byte 0: text ends early"),
    (TextFault::Large(10), 3, "byte 10: length too large"),
    (TextFault::Input, 4, "cannot be read"),
    (TextFault::Endless, 5, "has no end"),
    (TextFault::NoMemory, 6, "no memory"),
];

#[test]
fn faults_are_numbered_and_said(rt: HostRuntime) -> Result<(), Fail> {
    for &(fault, number, words) in &SAID {
        let said = fault.to_string(rt.alloc())?;
        assert!(rt;
            fault.number() == number && said.as_str() == words,
            "{words}"
        );
    }
    Ok(())
}
