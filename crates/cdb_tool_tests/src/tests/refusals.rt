// Runs whose requests for memory `tests/faults/calls.py` refuses, each in turn. It reads what a
// test prints: whether the refusal came to the run, to what the run is made on, or to neither.
use super::amending::{LAST_ALONE, ONE_AGAIN, amend_two};
use super::halting::put_in_memory;
use super::running::{Duplicates, TWICE, run};
use super::worked::{File, Run, TWO_TEXT, bytes_of};
use cdb_form::Narrow;
use cdb_make::Mode;
use cdb_store::MemStore;
use cdb_tool::{Fault, Style, difference_run, dump_run, list_run, load};
use std::alloc::{AllocError, Global};
use std::prelude::*;
use std::test::Fail;

/// What came of a run, and of the same run again if memory was refused to the first.
#[derive(Clone, Copy, Debug, PartialEq, Eq)]
enum Came {
    Whole,
    NoInputs,
    NoMemory,
    Wrong,
}

/// Two records, with no slots after them where tables begin. The key of the second takes more
/// memory.
const FILE: [Run; 5] = [
    (256, b"\x54\x08\0\0\x02\0\0\0"),
    (1, b"\x03\0\0\0\x05\0\0\0oneHello"),
    (1, b"\x35\0\0\0\x07\0\0\0"),
    (53, b"k"),
    (1, b"Goodbye"),
];

/// The file, and room for a list of it.
fn inputs(alloc: Global) -> Result<(Vec<u8>, Vec<u8>), AllocError> {
    let file = bytes_of(alloc, &FILE)?;
    let out = Vec::with_capacity(alloc, 128)?;
    Ok((file, out))
}

/// A list of the file, and what came of it. `texts` are those of no record, of one and of both, and
/// then the whole list.
fn list(alloc: Global, style: Style, texts: [&[u8]; 4]) -> Came {
    let Ok((file, mut out)) = inputs(alloc) else {
        return Came::NoInputs;
    };
    let [none, one, both, whole] = texts;
    let first = list_run::<Narrow, &[u8], Vec<u8>>(alloc, &file, style, &mut out);
    let written = out.as_slice();
    let came = match first {
        Ok(()) if written == whole => return Came::Whole,
        Err(Fault::NoMemory) if written == none || written == one || written == both => {
            Came::NoMemory
        }
        _ => return Came::Wrong,
    };
    out.clear();
    match list_run::<Narrow, &[u8], Vec<u8>>(alloc, &file, style, &mut out) {
        Ok(()) if out.as_slice() == whole => came,
        _ => Came::Wrong,
    }
}

/// Prints what came, which is to be right.
fn tell(rt: &HostRuntime, came: Came) -> Result<(), Fail> {
    println!(rt; "{came:?}")?;
    if came == Came::Wrong {
        return Err(Fail::new("another answer"));
    }
    Ok(())
}

#[test]
fn a_list_tells_refused_memory(rt: HostRuntime) -> Result<(), Fail> {
    let texts: [&[u8]; 4] = [
        b"",
        b"+3:one\n",
        b"+3:one\n+53:kkkkkkkkkkkkkkkkkkkkkkkkkkkkkkkkkkkkkkkkkkkkkkkkkkkkk\n",
        b"+3:one\n+53:kkkkkkkkkkkkkkkkkkkkkkkkkkkkkkkkkkkkkkkkkkkkkkkkkkkkk\n\n",
    ];
    let came = list(rt.alloc(), Style::Native, texts);
    tell(&rt, came)
}

#[test]
fn a_list_of_a_map_tells_refused_memory(rt: HostRuntime) -> Result<(), Fail> {
    let texts: [&[u8]; 4] = [
        b"",
        b"one\n",
        b"one\nkkkkkkkkkkkkkkkkkkkkkkkkkkkkkkkkkkkkkkkkkkkkkkkkkkkkk\n",
        b"one\nkkkkkkkkkkkkkkkkkkkkkkkkkkkkkkkkkkkkkkkkkkkkkkkkkkkkk\n",
    ];
    let came = list(rt.alloc(), Style::Map, texts);
    tell(&rt, came)
}

/// What came of a dump of the two-record file. If memory is refused, it has written the text of no
/// record, of one or of both, and no closing newline.
fn dump(alloc: Global) -> Came {
    let Ok(file) = File::Two.bytes(alloc) else {
        return Came::NoInputs;
    };
    let Ok(mut out) = Vec::with_capacity(alloc, 128) else {
        return Came::NoInputs;
    };
    let first = dump_run::<Narrow, &[u8], Vec<u8>>(alloc, &file, Style::Native, &mut out);
    match first {
        Ok(()) if out.as_slice() == TWO_TEXT => return Came::Whole,
        Err(Fault::NoMemory)
            if [0, 16, 34]
                .iter()
                .any(|n| Some(&*out) == TWO_TEXT.get(..*n)) => {}
        _ => return Came::Wrong,
    }
    out.clear();
    match dump_run::<Narrow, &[u8], Vec<u8>>(alloc, &file, Style::Native, &mut out) {
        Ok(()) if out.as_slice() == TWO_TEXT => Came::NoMemory,
        _ => Came::Wrong,
    }
}

#[test]
fn a_dump_tells_refused_memory(rt: HostRuntime) -> Result<(), Fail> {
    tell(&rt, dump(rt.alloc()))
}

/// What changed between the two-record file and one with another value of a key.
const CHANGE: &[u8] = b"-3:one\n+3,5:one->Again\n\n";

/// A difference of two files: what was written, the files again, and the answer.
fn differ(alloc: Global, old: MemStore, new: MemStore, out: &mut Vec<u8>) -> Differed {
    out.clear();
    let (old, new, answer) = difference_run::<Narrow, MemStore, MemStore, Vec<u8>>(
        alloc, old, new, out,
    );
    let written = out.as_slice();
    Differed {
        old,
        new,
        is_whole: answer == Ok(()) && written == CHANGE,
        is_refused: answer == Err(Fault::NoMemory) && CHANGE.starts_with(written),
    }
}

/// What came of a difference, and its files.
#[derive(Drop)]
struct Differed {
    old: MemStore,
    new: MemStore,
    is_whole: bool,
    is_refused: bool,
}

/// What came of the difference of the two-record file and of another.
fn differ_twice(alloc: Global) -> Came {
    let Ok(old) = File::Two.bytes(alloc) else {
        return Came::NoInputs;
    };
    let Ok(new) = bytes_of(alloc, &ONE_AGAIN) else {
        return Came::NoInputs;
    };
    let Ok(mut out) = Vec::with_capacity(alloc, 128) else {
        return Came::NoInputs;
    };
    let first = differ(
        alloc,
        MemStore::from_vec(old),
        MemStore::from_vec(new),
        &mut out,
    );
    if first.is_whole {
        return Came::Whole;
    }
    let again = differ(alloc, first.old, first.new, &mut out);
    if first.is_refused && again.is_whole {
        Came::NoMemory
    } else {
        Came::Wrong
    }
}

#[test]
fn a_difference_tells_refused_memory(rt: HostRuntime) -> Result<(), Fail> {
    tell(&rt, differ_twice(rt.alloc()))
}

/// What came of a run of two values of a key in a mode, which makes this file.
fn put_twice(alloc: Global, mode: Mode, file: File) -> Came {
    let Ok(wanted) = file.bytes(alloc) else {
        return Came::NoInputs;
    };
    let Ok(made) = run(alloc, &[TWICE], mode, Duplicates::Silent) else {
        return Came::NoInputs;
    };
    if made.is(Ok(()), &wanted, b"") {
        return Came::Whole;
    }
    let is_made = match run(alloc, &[TWICE], mode, Duplicates::Silent) {
        Ok(again) => again.is(Ok(()), &wanted, b""),
        Err(_) => false,
    };
    if made.answer == Err(Fault::NoMemory) && is_made {
        Came::NoMemory
    } else {
        Came::Wrong
    }
}

#[test]
fn an_adding_run_tells_refused_memory(rt: HostRuntime) -> Result<(), Fail> {
    tell(&rt, put_twice(rt.alloc(), Mode::Add, File::BothValues))
}

#[test]
fn a_warning_run_tells_refused_memory(rt: HostRuntime) -> Result<(), Fail> {
    tell(&rt, put_twice(rt.alloc(), Mode::Warn, File::BothValues))
}

#[test]
fn an_inserting_run_tells_refused_memory(rt: HostRuntime) -> Result<(), Fail> {
    tell(&rt, put_twice(rt.alloc(), Mode::Insert, File::FirstValue))
}

#[test]
fn a_replacing_run_tells_refused_memory(rt: HostRuntime) -> Result<(), Fail> {
    tell(&rt, put_twice(rt.alloc(), Mode::Replace, File::SecondValue))
}

/// Whether the two-record file is amended so by a text, and what was answered. `None`: there was no
/// memory for base and text. The base is to be returned as it was.
fn amended(alloc: Global, text: &'static [u8], two: &[u8], file: &[u8]) -> Option<(bool, bool)> {
    match amend_two(alloc, text, Mode::Warn, Duplicates::Told) {
        Ok(amended) => {
            let is_refused = amended.answer == Err(Fault::NoMemory)
                && amended.base.as_slice() == two;
            Some((amended.made(file, b"", two), is_refused))
        }
        Err(_) => None,
    }
}

/// What came of amending the two-record file by a text, which makes this file.
fn amend(alloc: Global, text: &'static [u8], runs: &[Run]) -> Came {
    let Ok(two) = File::Two.bytes(alloc) else {
        return Came::NoInputs;
    };
    let Ok(file) = bytes_of(alloc, runs) else {
        return Came::NoInputs;
    };
    match amended(alloc, text, &two, &file) {
        None => Came::NoInputs,
        Some((true, _)) => Came::Whole,
        Some((false, true)) if amended(alloc, text, &two, &file) == Some((true, false)) => {
            Came::NoMemory
        }
        Some(_) => Came::Wrong,
    }
}

#[test]
fn a_removal_from_a_base_tells_refused_memory(rt: HostRuntime) -> Result<(), Fail> {
    tell(&rt, amend(rt.alloc(), b"-3:one\n\n", &LAST_ALONE))
}

#[test]
fn an_amended_base_tells_refused_memory(rt: HostRuntime) -> Result<(), Fail> {
    let text: &[u8] = b"-3:one\n+3,5:one->Again\n\n";
    tell(&rt, amend(rt.alloc(), text, &ONE_AGAIN))
}

/// Returns true if the file is loaded whole.
fn loads(alloc: Global, file: &[u8]) -> Result<bool, Fault> {
    let bytes = load::<&[u8]>(alloc, file, 20_000)?.into_vec();
    Ok(bytes.as_slice() == file)
}

#[test]
fn a_load_tells_refused_memory(rt: HostRuntime) -> Result<(), Fail> {
    let came = match bytes_of(rt.alloc(), &[(2000, b"0123456789")]) {
        Err(_) => Came::NoInputs,
        Ok(file) => match loads(rt.alloc(), &file) {
            Ok(true) => Came::Whole,
            Err(Fault::NoMemory) if loads(rt.alloc(), &file) == Ok(true) => Came::NoMemory,
            _ => Came::Wrong,
        },
    };
    tell(&rt, came)
}

#[test]
fn inputs_tell_refused_memory(rt: HostRuntime) -> Result<(), Fail> {
    let came = match put_in_memory(rt.alloc()) {
        None => Came::NoInputs,
        Some((Ok(()), 4, true)) => Came::Whole,
        Some((Err(Fault::NoMemory), _, true))
            if put_in_memory(rt.alloc()) == Some((Ok(()), 4, true)) => { Came::NoMemory }
        Some(_) => Came::Wrong,
    };
    tell(&rt, came)
}
