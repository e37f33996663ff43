// make_bytes, over files worked out by hand and over readers and writers that fail.
use super::fakes::{FakeReader, FakeWriter, FullWriter, NotingWriter, SlowWriter};
use super::worked::{File, TWO_TEXT};
use cdb_form::{Narrow, TextFault, Wide};
use cdb_tool::{Fault, make_bytes};
use std::alloc::Global;
use std::io::Read;
use std::prelude::*;
use std::test::Fail;

// The answer for a text, and what was written.
fn made<R: Read + Drop>(alloc: Global, text: R) -> (Result<(), Fault>, Vec<u8>) {
    let mut out = Vec::new(alloc);
    let answer = make_bytes::<Narrow, R, Vec<u8>>(alloc, text, &mut out);
    (answer, out)
}

// Returns true if the answer for a text is this one, and this file was written.
fn makes<R: Read + Drop>(alloc: Global, text: R, want: Result<(), Fault>, file: &[u8]) -> bool {
    let (answer, out) = made(alloc, text);
    answer == want && out.as_slice() == file
}

const WORKED: [(&[u8], File, usize); 4] = [
    (TWO_TEXT, File::Two, 2114),
    (b"\n", File::None, 2048),
    (b"+0,0:->\n\n", File::EmptyRecord, 2072),
    (
        b"+1,1:a->1\n+1,1:a->2\n+1,1:a->3\n+1,1:a->4\n\n",
        File::FourValues,
        2152,
    ),
];

#[test]
fn worked_files(rt: HostRuntime) -> Result<(), Fail> {
    for &(text, file, size) in &WORKED {
        let bytes = file.bytes(rt.alloc())?;
        let is_made = makes(rt.alloc(), text, Ok(()), &bytes);
        assert!(rt; is_made && bytes.len() == size, "{file:?}");
    }
    Ok(())
}

const WIDE: [(&[u8], File, usize); 2] = [
    (b"\n", File::WideNone, 4096),
    (b"+3,5:one->Hello\n\n", File::WideOne, 4152),
];

/// Returns true if a wide file is made of a text.
fn makes_wide(alloc: Global, text: &[u8], file: &[u8]) -> bool {
    let mut out = Vec::new(alloc);
    let answer = make_bytes::<Wide, &[u8], Vec<u8>>(alloc, text, &mut out);
    answer == Ok(()) && out.as_slice() == file
}

#[test]
fn wide_files(rt: HostRuntime) -> Result<(), Fail> {
    for &(text, file, size) in &WIDE {
        let bytes = file.bytes(rt.alloc())?;
        let is_made = makes_wide(rt.alloc(), text, &bytes);
        assert!(rt; is_made && bytes.len() == size, "{file:?}");
    }
    Ok(())
}

/// Texts, their faults, and what is left: what follows the byte at the fault's place.
const REFUSED: [(&[u8], TextFault, &[u8]); 8] = [
    (b"", TextFault::Ended(0), b""),
    (b"*rest", TextFault::Syntax(0), b"rest"),
    (b"+,5:", TextFault::Syntax(1), b"5:"),
    (b"+4294967296,0:", TextFault::Large(10), b",0:"),
    (b"+3,5:one=>Hello", TextFault::Syntax(8), b">Hello"),
    (b"+3,5:one->Hell", TextFault::Ended(14), b""),
    (b"+3,5:one->Hello!\n\n", TextFault::Syntax(15), b"\n\n"),
    (b"+3,5:one->Hello\n", TextFault::Ended(16), b""),
];

/// Returns true if a text is refused with nothing written, and with so much of it left.
fn is_refused(alloc: Global, text: &[u8], fault: TextFault, left: &[u8]) -> bool {
    let mut w = FakeWriter::new(alloc, 4096);
    let mut rest = text;
    let answer = make_bytes::<Narrow, _, FakeWriter>(alloc, &mut rest, &mut w);
    let is_untouched = w.held.is_empty() && w.flushes == 1;
    is_untouched && answer == Err(Fault::Text(1, fault)) && rest == left
}

#[test]
fn refused_texts_leave_nothing_written_and_their_rest_unread(rt: HostRuntime) {
    for &(text, fault, left) in &REFUSED {
        assert!(rt; is_refused(rt.alloc(), text, fault, left), "{text:?}");
    }
}

#[test]
fn the_rest_of_the_reader_stays(rt: HostRuntime) -> Result<(), Fail> {
    let mut rest: &[u8] = b"+003,05:one->Hello\n\nrest";
    let file = File::One.bytes(rt.alloc())?;
    assert!(rt; makes(rt.alloc(), &mut rest, Ok(()), &file));
    assert!(rt; rest == b"rest".as_slice());
    Ok(())
}

#[test]
fn cut_texts_and_failing_readers(rt: HostRuntime) {
    for cut in 0..TWO_TEXT.len() {
        for (fails, fault) in [
            (false, TextFault::Ended(cut as u64)),
            (true, TextFault::Input),
        ] {
            let reader = FakeReader {
                interrupts: 0,
                text: &TWO_TEXT[..cut],
                fails,
            };
            let want = Err(Fault::Text(1, fault));
            assert!(rt; makes(rt.alloc(), reader, want, b""), "cut at {cut}");
        }
    }
}

#[test]
fn interruptions_are_asked_again(rt: HostRuntime) -> Result<(), Fail> {
    let file = File::Two.bytes(rt.alloc())?;
    for (interrupts, want, written) in [
        (1000, Ok(()), file.len()),
        (1001, Err(Fault::Text(1, TextFault::Input)), 0),
    ] {
        let reader = FakeReader {
            interrupts,
            text: TWO_TEXT,
            fails: false,
        };
        let front = file.get(..written).unwrap_or(&file);
        let is_made = makes(rt.alloc(), reader, want, front);
        assert!(rt; is_made, "{interrupts} interruptions");
    }
    Ok(())
}

#[test]
fn a_writer_that_fails_holds_a_prefix(rt: HostRuntime) -> Result<(), Fail> {
    let file = File::Two.bytes(rt.alloc())?;
    for room in 0..file.len() + 1 {
        let mut w = FakeWriter::new(rt.alloc(), room);
        let answer = make_bytes::<Narrow, &[u8], FakeWriter>(rt.alloc(), TWO_TEXT, &mut w);
        assert!(rt; w.holds_prefix(answer, &file, room), "room for {room}");
    }
    Ok(())
}

#[test]
fn a_failing_flush_is_output_where_no_other_fault_came(rt: HostRuntime) {
    let cases: [(&[u8], Fault); 2] = [
        (TWO_TEXT, Fault::Output),
        (b"*", Fault::Text(1, TextFault::Syntax(0))),
    ];
    for (text, fault) in cases {
        let mut w = FakeWriter::new(rt.alloc(), 4096);
        w.flush_fails = true;
        let answer = make_bytes::<Narrow, &[u8], FakeWriter>(rt.alloc(), text, &mut w);
        assert!(rt; answer == Err(fault), "{text:?}");
    }
}

// No clause refuses a body that always gives up for memory.
#[test]
fn always_no_memory(rt: HostRuntime) {
    let (answer, _) = made(rt.alloc(), TWO_TEXT);
    assert!(rt; answer != Err(Fault::NoMemory));
}

// Nor one that always says that its reader or its writer failed.
#[test]
fn always_endless_or_output(rt: HostRuntime) {
    let (answer, _) = made(rt.alloc(), TWO_TEXT);
    let faults = [
        Fault::Text(1, TextFault::Endless),
        Fault::Text(1, TextFault::Input),
        Fault::Output,
    ];
    for fault in faults {
        assert!(rt; answer != Err(fault));
    }
}

#[test]
fn interrupts_of_a_writer_are_counted_in_a_row(rt: HostRuntime) -> Result<(), Fail> {
    let file = File::None.bytes(rt.alloc())?;
    for (interrupts, want) in [(1000, Ok(())), (1001, Err(Fault::Output))] {
        let mut w = SlowWriter::new(rt.alloc(), interrupts);
        let answer = make_bytes::<Narrow, &[u8], SlowWriter>(rt.alloc(), b"\n", &mut w);
        let is_written = want.is_err() || w.held.as_slice() == file.as_slice();
        assert!(rt; answer == want && is_written, "{interrupts} interruptions");
    }
    let answer = make_bytes::<Narrow, &[u8], FullWriter>(rt.alloc(), b"\n", &mut FullWriter);
    assert!(rt; answer == Err(Fault::Output));
    Ok(())
}

#[test]
fn the_flush_comes_last(rt: HostRuntime) {
    for (text, fails) in [
        (TWO_TEXT, false),
        (TWO_TEXT, true),
        (b"*".as_slice(), false),
    ] {
        let mut w = NotingWriter {
            calls: Vec::new(rt.alloc()),
            fails,
        };
        let _ = make_bytes::<Narrow, &[u8], NotingWriter>(rt.alloc(), text, &mut w);
        assert!(rt; w.was_flushed_last(), "{text:?}");
    }
}
