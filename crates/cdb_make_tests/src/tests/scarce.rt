//! Makers over a store that refuses memory.
ghost use Rattle.std.specs.Prelude.{◌≡◌, ◌<◌, ◌≤◌, true};

use super::drawn::{KEYS, drawn_calls};
use super::makers::{EAGER, LAZY, Way, finished, made_in, refused_finish};
use super::model::{Wanted, expected};
use super::scripts::{Answer, Call, add, answer_of};
use cdb_form::Narrow;
use cdb_make::{MakeFault, Maker, Mode, Put};
use cdb_store::{MemStore, Store, StoreFault};
use std::alloc::Global;
use std::prelude::*;
use std::test::Fail;

/// A store that refuses memory so often, once it is so long.
#[derive(Drop)]
pub(super) struct ScarceStore<S: Store> {
    /// The store.
    pub(super) inner: S,
    /// What a write needs no memory below.
    room: u64,
    /// How long it is before memory is refused.
    from: u64,
    /// How often memory is refused.
    refusals: u64,
    ghost sized: { S.size inner ≤ room },
    ghost within: { room ≤ S.room inner },
}

impl<S: Store> ScarceStore<S> {
    /// A store that has no room yet.
    pub(super) fn new(inner: S, from: u64, refusals: u64) -> ScarceStore<S> {
        let room = inner.len();
        ScarceStore {
            inner,
            room,
            from,
            refusals,
        }
    }

    /// Returns true if memory for bytes up to `end` is refused.
    fn refuses(&mut self, end: u64) -> bool
        ensures inner { self.new.inner ≡ self.old.inner }
        ensures room { self.new.room ≡ self.old.room }
        ensures past { result ≡ true → self.old.room < end }
    {
        if end <= self.room || self.inner.len() < self.from || self.refusals == 0 {
            return false;
        }
        self.refusals -= 1;
        true
    }
}

impl<S: Store> Store for ScarceStore<S> {
    ghost size = { λ s. S.size s.inner };

    ghost image = { λ s. S.image s.inner };

    ghost failures = { λ s. S.failures s.inner };

    ghost unwritten = { λ s. S.unwritten s.inner };

    ghost written = { λ s. S.written s.inner };

    ghost room = { λ s. s.room };

    ghost settled = { λ s. S.settled s.inner };

    ghost in_room = { λ s. s.sized };

    ghost image_size = { λ s. S.image_size s.inner };

    fn len(&self) -> u64 {
        self.inner.len()
    }

    fn read_at(&mut self, pos: u64, into: &mut [u8]) -> Result<(), StoreFault> {
        self.inner.read_at(pos, into)
    }

    fn write_at(&mut self, pos: u64, bytes: &[u8]) -> Result<(), StoreFault> {
        if self.refuses(pos + bytes.len() as u64) {
            return Err(StoreFault::NoMemory);
        }
        let answer = self.inner.write_at(pos, bytes);
        self.room = self.room.max(self.inner.len());
        answer
    }

    fn reserve(&mut self, len: u64) -> Result<(), StoreFault> {
        if self.refuses(len) {
            return Err(StoreFault::NoMemory);
        }
        self.inner.reserve(len)?;
        self.room = self.room.max(len);
        Ok(())
    }

    fn cut(&mut self, len: u64) -> Result<(), StoreFault> {
        self.inner.cut(len)
    }

    fn flush(&mut self) -> Result<(), StoreFault> {
        self.inner.flush()
    }
}

/// A maker over such a store.
type Held = Maker<ScarceStore<MemStore>, Narrow>;

/// A maker of two records, to which memory is refused so often then.
fn two_records(alloc: Global, way: Way, refusals: u32) -> Result<Held, Fail> {
    let store = ScarceStore::new(MemStore::new(alloc), 2048 + 16 + 18, u64::from(refusals));
    let mut maker: Held = made_in(alloc, store, way)?;
    maker.put(Mode::Add, b"one", b"Hello")?;
    maker.put(Mode::Add, b"two", b"Goodbye")?;
    Ok(maker)
}

/// Returns true if each of two puts that want memory is refused.
fn refuses_puts(maker: &mut Held) -> bool {
    let refused = Err(MakeFault::NoMemory);
    maker.put(Mode::Add, b"a", b"1") == refused
        && maker.put(Mode::Replace, b"one", b"a longer value") == refused
}

/// The file with a record more, once memory is given.
fn with_one_more(mut maker: Held) -> Result<Vec<u8>, Fail> {
    maker.put(Mode::Add, b"a", b"1")?;
    Ok(finished(maker)?.inner.into_vec())
}

#[test]
fn refused_memory_leaves_what_was_held(rt: HostRuntime) -> Result<(), Fail> {
    // A lazy maker requests memory for a replacement twice: for its record beside those that go,
    // and without them.
    for (way, refusals) in [(EAGER, 3), (LAZY, 4)] {
        let mut maker = two_records(rt.alloc(), way, refusals)?;
        assert!(rt; refuses_puts(&mut maker), "{way:?}");
        let maker = refused_finish(maker, MakeFault::NoMemory)?;
        assert!(rt; !maker.is_broken() && maker.count() == 2, "{way:?}");
        let file = with_one_more(maker)?;
        let calls = [
            add(b"one", b"Hello"),
            add(b"two", b"Goodbye"),
            add(b"a", b"1"),
        ];
        let wanted = expected::<Narrow>(rt.alloc(), &calls)?;
        assert!(rt; file == wanted.file && file.len() == 2140, "{way:?}");
    }
    Ok(())
}

#[test]
fn a_pass_makes_room_for_a_record(rt: HostRuntime) -> Result<(), Fail> {
    let mut maker = two_records(rt.alloc(), LAZY, 1)?;
    assert!(rt; maker.remove(b"one") == Ok(1));
    assert!(rt; maker.put(Mode::Add, b"a", b"1") == Ok(Put::Added));
    assert!(rt; maker.count() == 2);
    let calls = [add(b"two", b"Goodbye"), add(b"a", b"1")];
    let wanted = expected::<Narrow>(rt.alloc(), &calls)?;
    assert!(rt; finished(maker)?.inner.into_vec() == wanted.file);
    Ok(())
}

/// Makes the calls of a script on a lazy maker to whose store memory is refused once, when it is so
/// long. A call to which it was refused is made again. It is to come to what is wanted.
fn comes_to_it(alloc: Global, calls: &[Call], wanted: &Wanted, from: u64) -> Result<(), Fail> {
    let store = ScarceStore::new(MemStore::new(alloc), from, 1);
    let mut maker: Held = made_in(alloc, store, LAZY)?;
    for (call, expected) in calls.iter().zip(wanted.answers.iter()) {
        let mut given = answer_of(&mut maker, call);
        if given == Answer::Refused(MakeFault::NoMemory) {
            given = answer_of(&mut maker, call);
        }
        if given != *expected {
            return Err(Fail::new("another answer"));
        }
    }
    let store = match maker.finish() {
        Ok(store) => store,
        Err(unfinished) => finished(unfinished.maker)?,
    };
    if store.inner.into_vec() == wanted.file {
        Ok(())
    } else {
        Err(Fail::new("another file"))
    }
}

#[test]
fn refused_memory_leaves_drawn_scripts(rt: HostRuntime) -> Result<(), Fail> {
    let mut state = 0xd6e8feb86659fd93;
    for _ in 0..300u32 {
        let calls = drawn_calls(rt.alloc(), &mut state, &KEYS, 3, 16)?;
        let wanted = expected::<Narrow>(rt.alloc(), &calls)?;
        for step in 0..12u64 {
            comes_to_it(rt.alloc(), &calls, &wanted, 2049 + 40 * step)?;
        }
    }
    Ok(())
}
