// The reader of records, on worked, damaged and foreign files, and over readers that fail.
ghost use Rattle.std.specs.Prelude.{◌≡◌, None, IfOk, MatchOption};
ghost use Rattle.cdb_form.specs.Format.{walk_of};
ghost use Rattle.cdb_form.specs.Views.Feed.{FromTo};
ghost use Rattle.cdb_form.specs.Views.RecordReader.{IsFresh, reader_of};
ghost use Rattle.cdb_form.specs.Views.WalkFault.{IsDamage, damage_of};
ghost use Rattle.cdb_form.specs.Views.Pairs.{key_values};

use super::fakes::{Behind, FakeReader};
use cdb_form::{Feeds, Narrow, Record, RecordReader, WalkFault, Wide, Width};
use std::alloc::{AllocError, Global};
use std::io::Read;
use std::prelude::*;
use std::test::Fail;

// The records of a file and its fault: a caller that is proved to have the walk.
fn walk<L: Width, F: Feeds>(
    alloc: Global,
    reader: &mut RecordReader<F, L>,
) -> Result<(Vec<Record>, Option<WalkFault>), AllocError>
    requires { IsFresh reader.old }
    ensures { IfOk result (λ p. MatchOption p.1
        (FromTo (F.feed (reader_of reader.old)) (F.feed (reader_of reader.new)) (λ text rest.
        walk_of L.WORD text ≡ record { records = key_values p.0.items; damage = None }))
        (λ f. IsDamage f
        → FromTo (F.feed (reader_of reader.old)) (F.feed (reader_of reader.new)) (λ text rest.
        walk_of L.WORD text ≡ record { records = key_values p.0.items; damage = damage_of f }))) }
{
    let mut records = Vec::new(alloc);
    loop {
        match reader.next() {
            Ok(Some(record)) => records.push(record)?,
            Ok(None) => return Ok((records, None)),
            Err(fault) => return Ok((records, Some(fault))),
        }
    }
}

// Returns true if a file has so many records, and this fault.
fn walks<L: Width, R: Read + Drop>(
    alloc: Global,
    reader: R,
    records: usize,
    fault: Option<WalkFault>,
) -> Result<bool, AllocError> {
    let mut reader: RecordReader<R, L> = RecordReader::new(alloc, reader);
    let (given, found) = walk::<L, R>(alloc, &mut reader)?;
    Ok(given.len() == records && found == fault)
}

fn walks_narrow(
    alloc: Global,
    file: &[u8],
    records: usize,
    fault: Option<WalkFault>,
) -> Result<bool, AllocError> {
    walks::<Narrow, FakeReader<'_>>(alloc, FakeReader::new(file, Behind::End), records, fault)
}

// Two words of so many bytes.
fn push_words(file: &mut Vec<u8>, first: u64, second: u64, size: usize) -> Result<(), AllocError> {
    let size = size.min(8);
    file.extend_from_slice(&first.to_le_bytes()[..size])?;
    file.extend_from_slice(&second.to_le_bytes()[..size])?;
    Ok(())
}

// What follows the head of the file of two records.
const TWO_BODY: &[u8] = b"\x03\0\0\0\x05\0\0\0oneHello\x03\0\0\0\x07\0\0\0twoGoodbye\
    \x29\x60\x87\x0b\x10\x08\0\0\0\0\0\0\0\0\0\0\
    \0\0\0\0\0\0\0\0\x81\x5b\x87\x0b\0\x08\0\0";

// The file of two records, whose tables begin at 2082 and 2098.
fn two_file(alloc: Global) -> Result<Vec<u8>, AllocError> {
    let mut file = Vec::new(alloc);
    for n in 0..256usize {
        let place = match n {
            0..=41 => 2082,
            42..=129 => 2098,
            _ => 2114,
        };
        let slots = if n == 41 || n == 129 { 2 } else { 0 };
        push_words(&mut file, place, slots, 4)?;
    }
    file.extend_from_slice(TWO_BODY)?;
    Ok(file)
}

// A file of another program: a table of one slot, and no place of the others.
fn foreign_file(alloc: Global) -> Result<Vec<u8>, AllocError> {
    let mut file = vec![in alloc; 0u8; 2048]?;
    put_words(&mut file, 196, 2058, 1);
    file.extend_from_slice(b"\x01\0\0\0\x01\0\0\0a1")?;
    push_words(&mut file, 177604, 2048, 4)?;
    Ok(file)
}

// A file of one record in words of 8 bytes.
fn wide_file(alloc: Global) -> Result<Vec<u8>, AllocError> {
    let mut file = Vec::new(alloc);
    for n in 0..256usize {
        let place = if n <= 129 { 4120 } else { 4152 };
        let slots = if n == 129 { 2 } else { 0 };
        push_words(&mut file, place, slots, 8)?;
    }
    push_words(&mut file, 3, 5, 8)?;
    file.extend_from_slice(b"oneHello")?;
    push_words(&mut file, 0, 0, 8)?;
    push_words(&mut file, 193420161, 4096, 8)?;
    Ok(file)
}

// Leaves some bytes from a place on.
fn put(file: &mut [u8], at: usize, bytes: &[u8]) {
    for (i, byte) in bytes.iter().enumerate() {
        if let Some(into) = file.get_mut(at.saturating_add(i)) {
            *into = *byte;
        }
    }
}

// Leaves another pointer to a table.
fn put_words(file: &mut [u8], table: usize, place: u32, slots: u32) {
    let at = table.saturating_mul(8);
    put(file, at, &place.to_le_bytes());
    put(file, at.saturating_add(4), &slots.to_le_bytes());
}

// Returns true if a file has exactly these records, and no fault.
fn gives(alloc: Global, file: &[u8], want: &[(&[u8], &[u8])]) -> Result<bool, AllocError> {
    let mut reader: RecordReader<&[u8], Narrow> = RecordReader::new(alloc, file);
    let (records, fault) = walk::<Narrow, &[u8]>(alloc, &mut reader)?;
    let mut is_same = fault.is_none() && records.len() == want.len();
    for (record, (key, value)) in records.iter().zip(want.iter()) {
        is_same = is_same && record.key.as_slice() == *key && record.value.as_slice() == *value;
    }
    Ok(is_same)
}

// The file of no record.
fn empty_file(alloc: Global) -> Result<Vec<u8>, AllocError> {
    let mut file = Vec::new(alloc);
    for _ in 0..256usize {
        push_words(&mut file, 2048, 0, 4)?;
    }
    Ok(file)
}

#[test]
fn whole_and_foreign_files(rt: HostRuntime) -> Result<(), Fail> {
    let want: [(&[u8], &[u8]); 2] = [(b"one", b"Hello"), (b"two", b"Goodbye")];
    assert!(rt; gives(rt.alloc(), &two_file(rt.alloc())?, &want)?);
    assert!(rt; walks_narrow(rt.alloc(), &foreign_file(rt.alloc())?, 1, None)?);
    Ok(())
}

#[test]
fn files_of_no_record(rt: HostRuntime) -> Result<(), Fail> {
    assert!(rt; walks_narrow(rt.alloc(), &empty_file(rt.alloc())?, 0, None)?);
    let zeros = vec![in rt.alloc(); 0u8; 2048]?;
    assert!(rt; walks_narrow(rt.alloc(), &zeros, 0, None)?);
    Ok(())
}

#[test]
fn a_longer_file(rt: HostRuntime) -> Result<(), Fail> {
    let mut longer = two_file(rt.alloc())?;
    longer.extend_from_slice(b"12345")?;
    assert!(rt; walks_narrow(rt.alloc(), &longer, 2, None)?);
    Ok(())
}

/// The file of two records with other bytes from a place on, how many records it has, and its
/// fault.
type Changed = (usize, &'static [u8], usize, Option<WalkFault>);

const CHANGED: [Changed; 9] = [
    // a table after the end, and a pointer of all ones
    (56, b"\x42\x08\0\0\x01\0\0\0", 2, None),
    (1032, b"\xff\xff\xff\xff\xff\xff\xff\xff", 2, None),
    // a slot without a record's place
    (2086, b"\x11", 2, None),
    // a value that reaches past the record end, and lengths that reach past the end of every file
    (2068, b"\x08", 1, Some(WalkFault::Record(2064))),
    (2048, b"\xff\xff\xff\xff", 0, Some(WalkFault::Record(2048))),
    (
        2048,
        b"\xff\xff\xff\xff\xff\xff\xff\xff",
        0,
        Some(WalkFault::Record(2048)),
    ),
    // tables that begin within the head: the first is reported; one without slots does not count
    (0, b"\x64\0\0\0\x01\0\0\0", 0, Some(WalkFault::Table(0))),
    (
        24,
        b"\x64\0\0\0\x01\0\0\0\x64\0\0\0\x01\0\0\0",
        0,
        Some(WalkFault::Table(3)),
    ),
    (0, b"\x64\0\0\0\0\0\0\0", 2, None),
];

/// Returns true if a changed file has its records and its fault.
fn changed_walks(alloc: Global, changed: &Changed) -> Result<bool, AllocError> {
    let (at, bytes, records, fault) = *changed;
    let mut file = two_file(alloc)?;
    put(&mut file, at, bytes);
    walks_narrow(alloc, &file, records, fault)
}

#[test]
fn changed_bytes(rt: HostRuntime) -> Result<(), Fail> {
    for changed in &CHANGED {
        let is_walked = changed_walks(rt.alloc(), changed)?;
        assert!(rt; is_walked, "{:?} at {}", changed.1, changed.0);
    }
    Ok(())
}

// What the first bytes of the file of two records are answered by.
fn answer_of_cut(cut: usize) -> (usize, Option<WalkFault>) {
    match cut {
        0..2048 => (0, Some(WalkFault::Short)),
        2048..2064 => (0, Some(WalkFault::Record(2048))),
        2064..2082 => (1, Some(WalkFault::Record(2064))),
        _ => (2, None),
    }
}

#[test]
fn each_cut_file_and_each_failure(rt: HostRuntime) -> Result<(), Fail> {
    let file = two_file(rt.alloc())?;
    for cut in 0..file.len() + 1 {
        let (records, fault) = answer_of_cut(cut);
        assert!(rt;
            walks_narrow(rt.alloc(), &file[..cut], records, fault)?,
            "cut at {cut}"
        );
        let reader = FakeReader::new(&file[..cut], Behind::Failure);
        let fault = fault.map(|_| WalkFault::Input);
        let is_walked = walks::<Narrow, FakeReader<'_>>(rt.alloc(), reader, records, fault)?;
        assert!(rt; is_walked, "failure at {cut}");
    }
    Ok(())
}

#[test]
fn wide_files(rt: HostRuntime) -> Result<(), Fail> {
    let file = wide_file(rt.alloc())?;
    assert!(rt; file.len() == 4152);
    let cases = [
        (4095, 0, Some(WalkFault::Short)),
        (4096, 0, Some(WalkFault::Record(4096))),
        (4119, 0, Some(WalkFault::Record(4096))),
        (4120, 1, None),
        (4152, 1, None),
    ];
    for (cut, records, fault) in cases {
        let reader = FakeReader::new(&file[..cut], Behind::End);
        let is_walked = walks::<Wide, FakeReader<'_>>(rt.alloc(), reader, records, fault)?;
        assert!(rt; is_walked, "cut at {cut}");
    }
    let mut file = file;
    put(&mut file, 4096, &[255; 16]);
    let reader = FakeReader::new(&file, Behind::End);
    let fault = Some(WalkFault::Record(4096));
    assert!(rt; walks::<Wide, FakeReader<'_>>(rt.alloc(), reader, 0, fault)?);
    Ok(())
}

/// A wide file whose tables lie far past its end: a header of these lengths, and ten bytes.
fn far_file(alloc: Global, klen: u64, vlen: u64) -> Result<Vec<u8>, AllocError> {
    let mut file = Vec::new(alloc);
    for _ in 0..256usize {
        push_words(&mut file, 1 << 62, 1, 8)?;
    }
    push_words(&mut file, klen, vlen, 8)?;
    file.extend_from_slice(b"0123456789")?;
    Ok(file)
}

#[test]
fn a_length_that_nothing_follows_takes_no_memory(rt: HostRuntime) -> Result<(), Fail> {
    for (klen, vlen) in [(1 << 60, 0), (4, 1 << 60), (1 << 60, 1 << 60)] {
        let file = far_file(rt.alloc(), klen, vlen)?;
        let reader = FakeReader::new(&file, Behind::End);
        let fault = Some(WalkFault::Record(4096));
        let is_walked = walks::<Wide, FakeReader<'_>>(rt.alloc(), reader, 0, fault)?;
        assert!(rt; is_walked, "{klen}, {vlen}");
    }
    Ok(())
}

#[test]
fn interruptions_and_small_pieces(rt: HostRuntime) -> Result<(), Fail> {
    let file = two_file(rt.alloc())?;
    for (interrupts, answer) in [(1000, (2, None)), (1001, (0, Some(WalkFault::Input)))] {
        let reader = FakeReader::interrupted(&file, interrupts);
        let (records, fault) = answer;
        let is_walked = walks::<Narrow, FakeReader<'_>>(rt.alloc(), reader, records, fault)?;
        assert!(rt; is_walked, "{interrupts} interruptions");
    }
    let mut reader = FakeReader::new(&file, Behind::Failure);
    reader.most = 1;
    assert!(rt; walks::<Narrow, FakeReader<'_>>(rt.alloc(), reader, 2, None)?);
    Ok(())
}

/// A file of one record, of a key and a value of so many bytes.
fn long_file(alloc: Global, klen: u32, vlen: u32) -> Result<Vec<u8>, AllocError> {
    let (klen, vlen) = (klen.min(4096), vlen.min(4096));
    let mut file = vec![in alloc; 0u8; 2048]?;
    put_words(&mut file, 0, 2056 + klen + vlen, 1);
    file.extend_from_slice(&klen.to_le_bytes())?;
    file.extend_from_slice(&vlen.to_le_bytes())?;
    for _ in 0..klen + vlen {
        file.push(b'x')?;
    }
    Ok(file)
}

/// Returns true if a reader of keys alone gives one of so many bytes, and then the end.
fn gives_key(alloc: Global, reader: FakeReader<'_>, klen: usize) -> bool {
    let mut reader: RecordReader<FakeReader<'_>, Narrow> = RecordReader::new(alloc, reader);
    let mut record = Record {
        key: Vec::new(alloc),
        value: Vec::new(alloc),
    };
    let is_given = reader.read_key(&mut record) == Ok(true) && record.key.len() == klen;
    is_given && reader.read_key(&mut record) == Ok(false)
}

#[test]
fn long_keys_and_values_come_byte_by_byte(rt: HostRuntime) -> Result<(), Fail> {
    // More pieces than interrupts are waited for.
    for (klen, vlen) in [(1, 3000), (3000, 1)] {
        let file = long_file(rt.alloc(), klen, vlen)?;
        let mut reader = FakeReader::new(&file, Behind::Failure);
        reader.most = 1;
        let is_walked = walks::<Narrow, FakeReader<'_>>(rt.alloc(), reader, 1, None)?;
        assert!(rt; is_walked, "{klen} and {vlen}");
        let mut reader = FakeReader::new(&file, Behind::Failure);
        reader.most = 1;
        assert!(rt;
            gives_key(rt.alloc(), reader, klen as usize),
            "{klen} alone"
        );
    }
    Ok(())
}

#[test]
fn interruptions_are_counted_in_a_row(rt: HostRuntime) -> Result<(), Fail> {
    let file = foreign_file(rt.alloc())?;
    for (interrupts, answer) in [(1000, (1, None)), (1001, (0, Some(WalkFault::Input)))] {
        let reader = FakeReader::interrupted_each(&file, interrupts);
        let (records, fault) = answer;
        let is_walked = walks::<Narrow, FakeReader<'_>>(rt.alloc(), reader, records, fault)?;
        assert!(rt; is_walked, "{interrupts} before each byte");
    }
    Ok(())
}

#[test]
fn what_follows_a_damaged_header_stays(rt: HostRuntime) -> Result<(), Fail> {
    let mut file = two_file(rt.alloc())?;
    put(&mut file, 2068, &[8]);
    let mut rest = file.as_slice();
    let fault = Some(WalkFault::Record(2064));
    assert!(rt; walks::<Narrow, &mut &[u8]>(rt.alloc(), &mut rest, 1, fault)?);
    assert!(rt; rest == file.get(2072..).ok_or("short")?);
    Ok(())
}

// Returns true if the two records are read, and then the end for good.
fn reads_to_the_end(alloc: Global, rest: &mut &[u8]) -> bool {
    let mut reader: RecordReader<&mut &[u8], Narrow> = RecordReader::new(alloc, rest);
    let mut record = Record {
        key: Vec::new(alloc),
        value: Vec::new(alloc),
    };
    for key in [b"one", b"two"] {
        let is_given = reader.read_into(&mut record) == Ok(true);
        if !is_given || record.key.as_slice() != key.as_slice() {
            return false;
        }
    }
    for _ in 0..3 {
        let is_end = reader.read_into(&mut record) == Ok(false);
        if !is_end || !matches!(reader.next(), Ok(None)) {
            return false;
        }
    }
    true
}

#[test]
fn what_follows_the_record_end_stays(rt: HostRuntime) -> Result<(), Fail> {
    let file = two_file(rt.alloc())?;
    let mut rest = file.as_slice();
    assert!(rt; reads_to_the_end(rt.alloc(), &mut rest));
    assert!(rt; file.len() == 2114 && Some(rest) == file.get(2082..));
    Ok(())
}

// Returns true if the keys of the two records are read over a record whose value stays, and then
// the end.
fn reads_keys(alloc: Global, rest: &mut &[u8]) -> Result<bool, AllocError> {
    let mut reader: RecordReader<&mut &[u8], Narrow> = RecordReader::new(alloc, rest);
    let mut record = Record {
        key: Vec::new(alloc),
        value: b"kept".to_vec(alloc)?,
    };
    for key in [b"one", b"two"] {
        let is_given = reader.read_key(&mut record) == Ok(true)
            && record.value.as_slice() == b"kept".as_slice();
        if !is_given || record.key.as_slice() != key.as_slice() {
            return Ok(false);
        }
    }
    Ok(reader.read_key(&mut record) == Ok(false) && record.value.as_slice() == b"kept".as_slice())
}

#[test]
fn keys_are_read_without_their_values(rt: HostRuntime) -> Result<(), Fail> {
    let file = two_file(rt.alloc())?;
    let mut rest = file.as_slice();
    assert!(rt; reads_keys(rt.alloc(), &mut rest)?);
    assert!(rt; file.len() == 2114 && Some(rest) == file.get(2082..));
    Ok(())
}

#[test]
fn a_fault_stays(rt: HostRuntime) -> Result<(), Fail> {
    let file = two_file(rt.alloc())?;
    let cut = file.get(..2070).ok_or("short")?;
    let mut reader: RecordReader<&[u8], Narrow> = RecordReader::new(rt.alloc(), cut);
    assert!(rt; matches!(reader.next(), Ok(Some(_))));
    for _ in 0..3 {
        assert!(rt; matches!(reader.next(), Err(WalkFault::Record(2064))));
    }
    Ok(())
}

/// Faults, their numbers and their words.
const SAID: [(WalkFault, u8, &str); 5] = [
    (WalkFault::Short, 1, "database shorter than its head"),
    (WalkFault::Table(7), 2, "table 7: outside the file"),
    (WalkFault::Record(2048), 3, "record at 2048: not whole"),
    (WalkFault::Input, 4, "database cannot be read or written"),
    (WalkFault::NoMemory, 5, "no memory"),
];

#[test]
fn faults_are_numbered_and_said(rt: HostRuntime) -> Result<(), Fail> {
    for &(fault, number, words) in &SAID {
        let said = fault.to_string(rt.alloc())?;
        assert!(rt;
            fault.number() == number && said.as_str() == words,
            "{words}"
        );
    }
    Ok(())
}
