// Files worked out by hand, in runs of equal pieces.
use std::alloc::{AllocError, Global};
use std::prelude::*;

/// A piece of a file, and how often it appears there.
pub(super) type Run = (usize, &'static [u8]);

/// A file worked out by hand. A table of tests names it: its runs in each row would be proved with
/// each row.
#[derive(Clone, Copy, Debug)]
pub(super) enum File {
    Two,
    One,
    None,
    Zeros,
    EmptyRecord,
    FourValues,
    BothValues,
    FirstValue,
    SecondValue,
    SameHash,
    FullTable,
    Foreign,
    Far,
    WideNone,
    WideOne,
    WideTwo,
}

impl File {
    /// Its bytes.
    pub(super) fn bytes(self, alloc: Global) -> Result<Vec<u8>, AllocError> {
        bytes_of(alloc, self.runs())
    }

    /// Its bytes, with others from a place on.
    pub(super) fn changed(
        self,
        alloc: Global,
        place: usize,
        new: &[u8],
    ) -> Result<Vec<u8>, AllocError> {
        Ok(with_bytes(self.bytes(alloc)?, place, new))
    }

    fn runs(self) -> &'static [Run] {
        match self {
            File::Two => &TWO,
            File::One => &ONE,
            File::None => &NONE,
            File::Zeros => &ZEROS,
            File::EmptyRecord => &EMPTY_RECORD,
            File::FourValues => &FOUR_VALUES,
            File::BothValues => &BOTH_VALUES,
            File::FirstValue => &FIRST_VALUE,
            File::SecondValue => &SECOND_VALUE,
            File::SameHash => &SAME_HASH,
            File::FullTable => &FULL_TABLE,
            File::Foreign => &FOREIGN,
            File::Far => &FAR,
            File::WideNone => &WIDE_NONE,
            File::WideOne => &WIDE_ONE,
            File::WideTwo => &WIDE_TWO,
        }
    }
}

pub(super) const TWO_TEXT: &[u8] = b"+3,5:one->Hello\n+3,7:two->Goodbye\n\n";

/// Two records, in tables 41 and 129: 2114 bytes.
const TWO: [Run; 13] = [
    (41, b"\x22\x08\0\0\0\0\0\0"),
    (1, b"\x22\x08\0\0\x02\0\0\0"),
    (87, b"\x32\x08\0\0\0\0\0\0"),
    (1, b"\x32\x08\0\0\x02\0\0\0"),
    (126, b"\x42\x08\0\0\0\0\0\0"),
    (1, b"\x03\0\0\0\x05\0\0\0"),
    (1, b"oneHello"),
    (1, b"\x03\0\0\0\x07\0\0\0"),
    (1, b"twoGoodbye"),
    (1, b"\x29\x60\x87\x0b\x10\x08\0\0"),
    (1, b"\0\0\0\0\0\0\0\0"),
    (1, b"\0\0\0\0\0\0\0\0"),
    (1, b"\x81\x5b\x87\x0b\0\x08\0\0"),
];

/// The first of them alone: 2080 bytes.
const ONE: [Run; 7] = [
    (129, b"\x10\x08\0\0\0\0\0\0"),
    (1, b"\x10\x08\0\0\x02\0\0\0"),
    (126, b"\x20\x08\0\0\0\0\0\0"),
    (1, b"\x03\0\0\0\x05\0\0\0"),
    (1, b"oneHello"),
    (1, b"\0\0\0\0\0\0\0\0"),
    (1, b"\x81\x5b\x87\x0b\0\x08\0\0"),
];

/// No record: 2048 bytes.
const NONE: [Run; 1] = [(256, b"\0\x08\0\0\0\0\0\0")];

/// No key has a table: 2048 bytes.
const ZEROS: [Run; 1] = [(256, b"\0\0\0\0\0\0\0\0")];

/// An empty key with an empty value, in table 5: 2072 bytes.
const EMPTY_RECORD: [Run; 6] = [
    (5, b"\x08\x08\0\0\0\0\0\0"),
    (1, b"\x08\x08\0\0\x02\0\0\0"),
    (250, b"\x18\x08\0\0\0\0\0\0"),
    (1, b"\0\0\0\0\0\0\0\0"),
    (1, b"\0\0\0\0\0\0\0\0"),
    (1, b"\x05\x15\0\0\0\x08\0\0"),
];

/// Four values of one key, whose table is filled round its end: 2152 bytes.
const FOUR_VALUES: [Run; 12] = [
    (196, b"\x28\x08\0\0\0\0\0\0"),
    (1, b"\x28\x08\0\0\x08\0\0\0"),
    (59, b"\x68\x08\0\0\0\0\0\0"),
    (1, b"\x01\0\0\0\x01\0\0\0a1"),
    (1, b"\x01\0\0\0\x01\0\0\0a2"),
    (1, b"\x01\0\0\0\x01\0\0\0a3"),
    (1, b"\x01\0\0\0\x01\0\0\0a4"),
    (1, b"\xc4\xb5\x02\0\x1e\x08\0\0"),
    (4, b"\0\0\0\0\0\0\0\0"),
    (1, b"\xc4\xb5\x02\0\0\x08\0\0"),
    (1, b"\xc4\xb5\x02\0\x0a\x08\0\0"),
    (1, b"\xc4\xb5\x02\0\x14\x08\0\0"),
];

/// Two values of one key, in table 196: 2100 bytes.
const BOTH_VALUES: [Run; 9] = [
    (196, b"\x14\x08\0\0\0\0\0\0"),
    (1, b"\x14\x08\0\0\x04\0\0\0"),
    (59, b"\x34\x08\0\0\0\0\0\0"),
    (1, b"\x01\0\0\0\x01\0\0\0a1"),
    (1, b"\x01\0\0\0\x01\0\0\0a2"),
    (1, b"\0\0\0\0\0\0\0\0"),
    (1, b"\xc4\xb5\x02\0\0\x08\0\0"),
    (1, b"\xc4\xb5\x02\0\x0a\x08\0\0"),
    (1, b"\0\0\0\0\0\0\0\0"),
];

/// The first of them alone: 2074 bytes.
const FIRST_VALUE: [Run; 6] = [
    (196, b"\x0a\x08\0\0\0\0\0\0"),
    (1, b"\x0a\x08\0\0\x02\0\0\0"),
    (59, b"\x1a\x08\0\0\0\0\0\0"),
    (1, b"\x01\0\0\0\x01\0\0\0a1"),
    (1, b"\0\0\0\0\0\0\0\0"),
    (1, b"\xc4\xb5\x02\0\0\x08\0\0"),
];

/// The second: 2074 bytes.
const SECOND_VALUE: [Run; 6] = [
    (196, b"\x0a\x08\0\0\0\0\0\0"),
    (1, b"\x0a\x08\0\0\x02\0\0\0"),
    (59, b"\x1a\x08\0\0\0\0\0\0"),
    (1, b"\x01\0\0\0\x01\0\0\0a2"),
    (1, b"\0\0\0\0\0\0\0\0"),
    (1, b"\xc4\xb5\x02\0\0\x08\0\0"),
];

/// Two keys of one hash, in table 196: 2102 bytes.
const SAME_HASH: [Run; 8] = [
    (196, b"\x16\x08\0\0\0\0\0\0"),
    (1, b"\x16\x08\0\0\x04\0\0\0"),
    (59, b"\x36\x08\0\0\0\0\0\0"),
    (1, b"\x02\0\0\0\x01\0\0\0cBx"),
    (1, b"\x02\0\0\0\x01\0\0\0bcz"),
    (2, b"\0\0\0\0\0\0\0\0"),
    (1, b"\xc4\x6e\x59\0\0\x08\0\0"),
    (1, b"\xc4\x6e\x59\0\x0b\x08\0\0"),
];

/// Two values of one key, made by another program: a table without an empty slot, which is filled
/// from its end on. 2084 bytes.
const FULL_TABLE: [Run; 7] = [
    (196, b"\0\0\0\0\0\0\0\0"),
    (1, b"\x14\x08\0\0\x02\0\0\0"),
    (59, b"\0\0\0\0\0\0\0\0"),
    (1, b"\x01\0\0\0\x01\0\0\0a1"),
    (1, b"\x01\0\0\0\x01\0\0\0a2"),
    (1, b"\xc4\xb5\x02\0\x0a\x08\0\0"),
    (1, b"\xc4\xb5\x02\0\0\x08\0\0"),
];

/// One record, in a table of 16 slots: its hash, of slot 5, is stored in slots 14 and 15. No
/// program makes such a file. 2186 bytes.
const FAR: [Run; 8] = [
    (196, b"\0\0\0\0\0\0\0\0"),
    (1, b"\x0a\x08\0\0\x10\0\0\0"),
    (59, b"\0\0\0\0\0\0\0\0"),
    (1, b"\x01\0\0\0\x01\0\0\0"),
    (1, b"a1"),
    (14, b"\0\0\0\0\0\0\0\0"),
    (1, b"\xc4\xb5\x02\0\0\x08\0\0"),
    (1, b"\xc4\xb5\x02\0\0\x08\0\0"),
];

/// One record, made by another program: a table of one slot, and no place in the other pointers.
const FOREIGN: [Run; 6] = [
    (196, b"\0\0\0\0\0\0\0\0"),
    (1, b"\x0a\x08\0\0\x01\0\0\0"),
    (59, b"\0\0\0\0\0\0\0\0"),
    (1, b"\x01\0\0\0\x01\0\0\0"),
    (1, b"a1"),
    (1, b"\xc4\xb5\x02\0\0\x08\0\0"),
];

/// Words of 8 bytes, no record: 4096 bytes.
const WIDE_NONE: [Run; 1] = [(256, b"\0\x10\0\0\0\0\0\0\0\0\0\0\0\0\0\0")];

/// Words of 8 bytes, one record, in table 129: 4152 bytes.
const WIDE_ONE: [Run; 7] = [
    (129, b"\x18\x10\0\0\0\0\0\0\0\0\0\0\0\0\0\0"),
    (1, b"\x18\x10\0\0\0\0\0\0\x02\0\0\0\0\0\0\0"),
    (126, b"\x38\x10\0\0\0\0\0\0\0\0\0\0\0\0\0\0"),
    (1, b"\x03\0\0\0\0\0\0\0\x05\0\0\0\0\0\0\0"),
    (1, b"oneHello"),
    (1, b"\0\0\0\0\0\0\0\0\0\0\0\0\0\0\0\0"),
    (1, b"\x81\x5b\x87\x0b\0\0\0\0\0\x10\0\0\0\0\0\0"),
];

/// Words of 8 bytes, two records, in tables 41 and 129: 4210 bytes.
const WIDE_TWO: [Run; 13] = [
    (41, b"\x32\x10\0\0\0\0\0\0\0\0\0\0\0\0\0\0"),
    (1, b"\x32\x10\0\0\0\0\0\0\x02\0\0\0\0\0\0\0"),
    (87, b"\x52\x10\0\0\0\0\0\0\0\0\0\0\0\0\0\0"),
    (1, b"\x52\x10\0\0\0\0\0\0\x02\0\0\0\0\0\0\0"),
    (126, b"\x72\x10\0\0\0\0\0\0\0\0\0\0\0\0\0\0"),
    (1, b"\x03\0\0\0\0\0\0\0\x05\0\0\0\0\0\0\0"),
    (1, b"oneHello"),
    (1, b"\x03\0\0\0\0\0\0\0\x07\0\0\0\0\0\0\0"),
    (1, b"twoGoodbye"),
    (1, b"\x29\x60\x87\x0b\0\0\0\0\x18\x10\0\0\0\0\0\0"),
    (1, b"\0\0\0\0\0\0\0\0\0\0\0\0\0\0\0\0"),
    (1, b"\0\0\0\0\0\0\0\0\0\0\0\0\0\0\0\0"),
    (1, b"\x81\x5b\x87\x0b\0\0\0\0\0\x10\0\0\0\0\0\0"),
];

/// The bytes of some runs.
pub(super) fn bytes_of(alloc: Global, runs: &[Run]) -> Result<Vec<u8>, AllocError> {
    let mut bytes = Vec::new(alloc);
    for (count, piece) in runs {
        for _ in 0..*count {
            bytes.extend_from_slice(piece)?;
        }
    }
    Ok(bytes)
}

/// Some bytes with others from a place on.
pub(super) fn with_bytes(mut bytes: Vec<u8>, place: usize, new: &[u8]) -> Vec<u8> {
    for (k, byte) in new.iter().enumerate() {
        if let Some(old) = bytes.get_mut(place.saturating_add(k)) {
            *old = *byte;
        }
    }
    bytes
}
