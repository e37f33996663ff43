// Files worked out by hand, and the stores and readers over them.
use cdb_form::Width;
use cdb_read::{ReadFault, Reader};
use cdb_store::{FuseStore, MemStore};
use std::alloc::{AllocError, Global};
use std::prelude::*;

/// A store that fails one of its reads.
pub(super) type Fused = FuseStore<MemStore>;

/// What follows the head in the file of `one` -> `Hello` and `two` -> `Goodbye`, whose tables 41
/// and 129 begin at 2082 and 2098.
const TWO_BODY: &[u8] = b"\x03\0\0\0\x05\0\0\0oneHello\x03\0\0\0\x07\0\0\0twoGoodbye\
    \x29\x60\x87\x0b\x10\x08\0\0\0\0\0\0\0\0\0\0\
    \0\0\0\0\0\0\0\0\x81\x5b\x87\x0b\0\x08\0\0";

/// Adds two words of a size.
pub(super) fn push_words(
    file: &mut Vec<u8>,
    first: u64,
    second: u64,
    size: usize,
) -> Result<(), AllocError> {
    let size = size.min(8);
    file.extend_from_slice(&first.to_le_bytes()[..size])?;
    file.extend_from_slice(&second.to_le_bytes()[..size])?;
    Ok(())
}

/// The file of the two records.
pub(super) fn two_file(alloc: Global) -> Result<Vec<u8>, AllocError> {
    let mut file = Vec::new(alloc);
    for n in 0..256usize {
        let place = match n {
            0..=41 => 2082,
            42..=129 => 2098,
            _ => 2114,
        };
        let slots = if n == 41 || n == 129 { 2 } else { 0 };
        push_words(&mut file, place, slots, 4)?;
    }
    file.extend_from_slice(TWO_BODY)?;
    Ok(file)
}

/// The file of `one` -> `Hello` in words of 8 bytes.
pub(super) fn wide_file(alloc: Global) -> Result<Vec<u8>, AllocError> {
    let mut file = Vec::new(alloc);
    for n in 0..256usize {
        let place = if n <= 129 { 4120 } else { 4152 };
        let slots = if n == 129 { 2 } else { 0 };
        push_words(&mut file, place, slots, 8)?;
    }
    push_words(&mut file, 3, 5, 8)?;
    file.extend_from_slice(b"oneHello")?;
    push_words(&mut file, 0, 0, 8)?;
    push_words(&mut file, 193420161, 4096, 8)?;
    Ok(file)
}

/// A store with these bytes that passes so many calls and fails the next one.
pub(super) fn fused(bytes: Vec<u8>, calls: u64) -> Fused {
    FuseStore::new(MemStore::from_vec(bytes), calls, 0)
}

/// A reader of a file whose store fails one call. If the first call failed, it is opened again.
pub(super) fn opened_again<L: Width>(store: Fused) -> Result<Reader<Fused, L>, ReadFault> {
    match Reader::<Fused, L>::open(store) {
        Ok(reader) => Ok(reader),
        Err(unread) if unread.fault == ReadFault::Device => {
            Reader::<Fused, L>::open(unread.store).map_err(|unread| unread.fault)
        }
        Err(unread) => Err(unread.fault),
    }
}

/// A file with other bytes from a place on.
pub(super) fn changed(file: Vec<u8>, at: usize, bytes: &[u8]) -> Vec<u8> {
    let mut file = file;
    for (here, byte) in file.iter_mut().skip(at).zip(bytes) {
        *here = *byte;
    }
    file
}
