// Files of one table, worked out by hand.
use crate::tests::files::push_words;
use std::alloc::{AllocError, Global};
use std::prelude::*;

/// A head whose only table with slots is table 196, and then a body.
fn with_table_196(
    alloc: Global,
    place: u64,
    slots: u64,
    body: &[u8],
) -> Result<Vec<u8>, AllocError> {
    let mut file = Vec::new(alloc);
    for n in 0..256usize {
        let many = if n == 196 { slots } else { 0 };
        push_words(&mut file, place, many, 4)?;
    }
    file.extend_from_slice(body)?;
    Ok(file)
}

/// The records of `a` with the values 1 to 4, and their table of 8 slots. The records fill the
/// slots 5, 6, 7 and 0.
const FOUR_BODY: &[u8] = b"\x01\0\0\0\x01\0\0\0a1\x01\0\0\0\x01\0\0\0a2\
    \x01\0\0\0\x01\0\0\0a3\x01\0\0\0\x01\0\0\0a4\
    \xc4\xb5\x02\0\x1e\x08\0\0\0\0\0\0\0\0\0\0\0\0\0\0\0\0\0\0\
    \0\0\0\0\0\0\0\0\0\0\0\0\0\0\0\0\xc4\xb5\x02\0\0\x08\0\0\
    \xc4\xb5\x02\0\x0a\x08\0\0\xc4\xb5\x02\0\x14\x08\0\0";

/// The file of four values of the key `a`.
pub(super) fn four_file(alloc: Global) -> Result<Vec<u8>, AllocError> {
    with_table_196(alloc, 2088, 8, FOUR_BODY)
}

/// The records of `cB` and `bc`, which have one hash, and their table of 4 slots. The records fill
/// the slots 2 and 3.
const BESIDE_BODY: &[u8] = b"\x02\0\0\0\x01\0\0\0cBx\x02\0\0\0\x01\0\0\0bcz\
    \0\0\0\0\0\0\0\0\0\0\0\0\0\0\0\0\
    \xc4\x6e\x59\0\0\x08\0\0\xc4\x6e\x59\0\x0b\x08\0\0";

/// The file of `cB` -> `x` and `bc` -> `z`.
pub(super) fn beside_file(alloc: Global) -> Result<Vec<u8>, AllocError> {
    with_table_196(alloc, 2070, 4, BESIDE_BODY)
}
