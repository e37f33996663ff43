// Three pieces, written as one: what a fault leaves of them, and want of memory.
ghost use Rattle.std.specs.Prelude.{◌≤◌, ◌<◌, ◌^◌};

use super::support::buffered::buffered;
use cdb_store::{FuseStore, MemStore, Store, StoreFault};
use std::alloc::{AllocError, Global};
use std::test::Fail;

/// A store that has no memory past its room.
#[derive(Drop)]
struct FullStore<S: Store> {
    inner: S,
    room: u64,
    ghost sized: { S.size inner ≤ room },
    ghost within: { room ≤ S.room inner },
}

impl<S: Store> FullStore<S> {
    /// A store whose room is what it holds.
    fn new(inner: S) -> FullStore<S> {
        let room = inner.len();
        FullStore { inner, room }
    }

    /// Gives it this room, if there is memory for it.
    fn widen(&mut self, room: u64)
        requires { room < 2 ^ 63 }
    {
        if room > self.room && self.inner.reserve(room).is_ok() {
            self.room = room;
        }
    }
}

impl<S: Store> Store for FullStore<S> {
    ghost size = { λ s. S.size s.inner };

    ghost image = { λ s. S.image s.inner };

    ghost failures = { λ s. S.failures s.inner };

    ghost unwritten = { λ s. S.unwritten s.inner };

    ghost written = { λ s. S.written s.inner };

    ghost room = { λ s. s.room };

    ghost settled = { λ s. S.settled s.inner };

    ghost in_room = { λ s. s.sized };

    ghost image_size = { λ s. S.image_size s.inner };

    fn len(&self) -> u64 {
        self.inner.len()
    }

    fn read_at(&mut self, pos: u64, into: &mut [u8]) -> Result<(), StoreFault> {
        self.inner.read_at(pos, into)
    }

    fn write_at(&mut self, pos: u64, bytes: &[u8]) -> Result<(), StoreFault> {
        if pos + bytes.len() as u64 > self.room {
            return Err(StoreFault::NoMemory);
        }
        self.inner.write_at(pos, bytes)
    }

    fn reserve(&mut self, len: u64) -> Result<(), StoreFault> {
        if len > self.room {
            return Err(StoreFault::NoMemory);
        }
        Ok(())
    }

    fn cut(&mut self, len: u64) -> Result<(), StoreFault> {
        self.inner.cut(len)
    }

    fn flush(&mut self) -> Result<(), StoreFault> {
        self.inner.flush()
    }
}

/// What a write of three pieces at a position of a store answers, if the store is so long.
fn write<S: Store>(store: &mut S, pos: u64, pieces: [&[u8]; 3]) -> Option<Result<(), StoreFault>> {
    let [first, second, third] = pieces;
    if store.len() < pos || pos > 999 || [first, second, third].iter().any(|it| it.len() > 999) {
        return None;
    }
    Some(store.write_parts(pos, first, second, third))
}

#[test]
fn a_fuse_fails_three_pieces_as_one_write(rt: HostRuntime) -> Result<(), Fail> {
    let failed = Some(Err(StoreFault::Device));
    for (limit, part, answer, left, taken) in [
        (0, 0, failed, b"abc".as_slice(), 0),
        (0, 1, failed, b"abcd".as_slice(), 1),
        (0, 3, failed, b"abcdef".as_slice(), 3),
        (0, 6, failed, b"abcdefghi".as_slice(), 6),
        (0, 8, failed, b"abcdefghij".as_slice(), 7),
        (1, 1, Some(Ok(())), b"abcdefghij".as_slice(), 7),
    ] {
        let inner = MemStore::from_vec(b"abc".to_vec(rt.alloc())?);
        let mut store = FuseStore::new(inner, limit, part);
        let answered = write(&mut store, 3, [b"de", b"fgh", b"ij"]);
        let (calls, written) = (store.calls(), store.written());
        let bytes = store.into_inner().into_vec();
        assert!(rt;
            answered == answer && bytes.as_slice() == left,
            "{limit}, {part}"
        );
        assert!(rt; calls == 1 && written == taken, "{limit}, {part}");
    }
    Ok(())
}

/// What a store with no way of its own to write pieces answers, and has after them, if its write
/// after `limit` others fails and writes one byte.
fn left_of(
    alloc: Global,
    limit: u64,
    pieces: [&[u8]; 3],
) -> Result<(Option<Result<(), StoreFault>>, Vec<u8>), AllocError> {
    let mut store = FullStore::new(FuseStore::new(MemStore::new(alloc), limit, 1));
    store.widen(999);
    let answered = write(&mut store, 0, pieces);
    Ok((answered, store.inner.into_inner().into_vec()))
}

#[test]
fn few_bytes_are_one_write_and_more_are_three(rt: HostRuntime) -> Result<(), Fail> {
    let failed = Some(Err(StoreFault::Device));
    for (size, limit, answer, left) in [
        (85, 0, failed, 1),
        (85, 1, Some(Ok(())), 255),
        (86, 0, failed, 1),
        (86, 1, failed, 87),
        (86, 2, failed, 173),
        (86, 3, Some(Ok(())), 258),
    ] {
        let one = vec![in rt.alloc(); 7u8; size]?;
        let (answered, bytes) = left_of(rt.alloc(), limit, [&one, &one, &one])?;
        assert!(rt;
            answered == answer && bytes.len() == left,
            "{size}, {limit}"
        );
    }
    Ok(())
}

#[test]
fn a_buffer_keeps_pieces_that_are_not_handed_on(rt: HostRuntime) -> Result<(), Fail> {
    let inner = FuseStore::new(MemStore::new(rt.alloc()), 0, 2);
    let mut store = buffered(rt.alloc(), inner, 8)?;
    let first = write(&mut store, 0, [b"ab", b"cd", b"ef"]);
    let refused = write(&mut store, 6, [b"g", b"h", b"i"]);
    let again = write(&mut store, 6, [b"g", b"h", b"i"]);
    assert!(rt; first == Some(Ok(())) && refused == Some(Err(StoreFault::Device)));
    let (inner, answer) = store.into_inner();
    let bytes = inner.into_inner().into_vec();
    assert!(rt; again == Some(Ok(())) && answer.is_ok());
    assert!(rt; bytes.as_slice() == b"abcdefghi".as_slice());
    Ok(())
}

#[test]
fn pieces_without_memory_change_nothing(rt: HostRuntime) -> Result<(), Fail> {
    let refused = Some(Err(StoreFault::NoMemory));
    let inner = MemStore::from_vec(b"abcdef".to_vec(rt.alloc())?);
    let mut store = FullStore::new(inner);
    assert!(rt; write(&mut store, 4, [b"X", b"Y", b"Z"]) == refused);
    let mut store = buffered(rt.alloc(), store, 4)?;
    let within = write(&mut store, 1, [b"X", b"", b"Y"]);
    assert!(rt; within == Some(Ok(())) && store.len() == 6);
    assert!(rt; write(&mut store, 3, [b"1", b"2", b"34"]) == refused);
    assert!(rt; write(&mut store, 3, [b"12345", b"6", b"7"]) == refused);
    let (store, answer) = store.into_inner();
    let bytes = store.inner.into_vec();
    assert!(rt; answer.is_ok() && bytes.as_slice() == b"aXYdef".as_slice());
    Ok(())
}
