//! Makers over a store that once gives back other bytes than were written. It has no image then,
//! and contracts promise nothing of the file; what a call may answer is seen here.
ghost use Rattle.std.specs.Prelude.{◌≡◌};

use super::makers::{EAGER, LAZY, Way, made_in, refused_finish};
use super::scripts::{Answer, Call, add, answer_of, exists, remove, replace};
use cdb_form::Narrow;
use cdb_make::{MakeFault, Maker};
use cdb_store::{MemStore, Store, StoreFault};
use std::alloc::Global;
use std::prelude::*;
use std::test::Fail;

/// A store whose read of a number gives other bytes than it holds.
#[derive(Drop)]
struct LyingStore<S: Store> {
    /// The store.
    inner: S,
    /// The number of reads that come before the one that lies.
    honest: u64,
    /// The number of reads there were.
    reads: u64,
}

impl<S: Store> LyingStore<S> {
    /// Changes what a read gave, if it is the one that lies.
    fn lie(&mut self, bytes: &mut [u8])
        ensures { self.new.inner ≡ self.old.inner }
    {
        if self.reads == self.honest {
            for byte in bytes {
                *byte = !*byte;
            }
        }
        self.reads = self.reads.saturating_add(1);
    }
}

impl<S: Store> Store for LyingStore<S> {
    ghost size = { λ s. S.size s.inner };

    ghost image = { λ s bytes. ⊥ };

    ghost failures = { λ s. S.failures s.inner };

    ghost unwritten = { λ s. S.unwritten s.inner };

    ghost written = { λ s. S.written s.inner };

    ghost room = { λ s. S.room s.inner };

    ghost settled = { λ s. S.settled s.inner };

    ghost in_room = { λ s. S.in_room s.inner };

    ghost image_size = { λ s bytes none. absurd none };

    fn len(&self) -> u64 {
        self.inner.len()
    }

    fn read_at(&mut self, pos: u64, into: &mut [u8]) -> Result<(), StoreFault> {
        self.inner.read_at(pos, into)?;
        self.lie(into);
        Ok(())
    }

    fn write_at(&mut self, pos: u64, bytes: &[u8]) -> Result<(), StoreFault> {
        self.inner.write_at(pos, bytes)
    }

    fn reserve(&mut self, len: u64) -> Result<(), StoreFault> {
        self.inner.reserve(len)
    }

    fn cut(&mut self, len: u64) -> Result<(), StoreFault> {
        self.inner.cut(len)
    }

    fn flush(&mut self) -> Result<(), StoreFault> {
        self.inner.flush()
    }
}

/// A maker over such a store.
type Deceived = Maker<LyingStore<MemStore>, Narrow>;

/// What a script came to whose store lied once.
#[derive(Clone, Copy, Debug, PartialEq, Eq)]
enum End {
    /// No call answered a fault.
    Whole,
    /// A call answered `Broken`, and all later ones did.
    Broken,
    /// A call answered another fault, or a call after `Broken` answered something else.
    Wrong,
}

/// The calls of the script.
fn calls() -> [Call<'static>; 7] {
    [
        add(b"one", b"Hello"),
        add(b"two", b"Goodbye"),
        replace(b"one", b"Again"),
        exists(b"two"),
        add(b"two", b"more"),
        remove(b"two"),
        replace(b"three", b"3"),
    ]
}

/// What the calls come to on a maker, and whether it is broken then as they said.
fn end_of(maker: &mut Deceived) -> End {
    let mut end = End::Whole;
    for call in &calls() {
        end = match (end, answer_of(maker, call)) {
            (End::Wrong, _) => End::Wrong,
            (_, Answer::Refused(MakeFault::Broken)) => End::Broken,
            (End::Broken, _) | (_, Answer::Refused(_)) => End::Wrong,
            (End::Whole, _) => End::Whole,
        };
    }
    if maker.is_broken() == (end == End::Broken) {
        end
    } else {
        End::Wrong
    }
}

/// What the script comes to if the read of a number lies, and how many reads there were.
fn deceived(alloc: Global, way: Way, honest: u64) -> Result<(End, u64), Fail> {
    let store = LyingStore {
        inner: MemStore::new(alloc),
        honest,
        reads: 0,
    };
    let mut maker: Deceived = made_in(alloc, store, way)?;
    let end = end_of(&mut maker);
    if end == End::Broken {
        let maker = refused_finish(maker, MakeFault::Broken)?;
        return Ok((end, maker.into_store().reads));
    }
    Ok((end, maker.into_store().reads))
}

/// Of the reads of the script, how many break the maker if they lie, and how many they are. Each
/// other one leaves answers without a fault.
fn counted(alloc: Global, way: Way) -> Result<(u64, u64), Fail> {
    let (end, reads) = deceived(alloc, way, u64::MAX)?;
    if end != End::Whole {
        return Err(Fail::new("a fault though no read lied"));
    }
    let mut broken = 0u64;
    for honest in 0..reads.min(100) {
        match deceived(alloc, way, honest)? {
            (End::Broken, _) => broken = broken.saturating_add(1),
            (End::Whole, _) => {}
            (End::Wrong, _) => return Err(Fail::new("another fault than Broken")),
        }
    }
    Ok((broken, reads))
}

#[test]
fn other_bytes_break_a_maker_or_are_taken_for_another_key(rt: HostRuntime) -> Result<(), Fail> {
    let came = [counted(rt.alloc(), EAGER)?, counted(rt.alloc(), LAZY)?];
    assert!(rt; came == [(5, 6), (4, 4)], "{came:?}");
    Ok(())
}
