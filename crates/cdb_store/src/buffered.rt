// A store that collects writes which continue one another.
ghost use Rattle.std.specs.Prelude.{◌≡◌, ℕ, ◌+◌, ◌<◌, ◌≤◌, ◌^◌, ◌↔◌, ◌++◌, max, [], List, length};
ghost use Rattle.std.specs.Prelude.{IsTrue, IsOk, OnOk, OnErr, IfOk, IfErr, IsErrOf, vec_capacity};
ghost use Rattle.std.proofs.Common.{arith};
ghost use Rattle.cdb_store.specs.declared.store.StoreFault.TheVariants.{NoMemory};
ghost use Rattle.cdb_store.specs.Images.{AreApart, SameImages, AfterRead, AfterTornWrite, HasCause};
ghost use Rattle.cdb_store.specs.Lengths.{over_taken};

use crate::bytes::{join, read_from};
use crate::trace::{Call, Trace, note_parts};
use crate::{Store, StoreFault};
use std::alloc::{AllocError, AllocFailed, Global};

/// A store over another that collects writes which continue one another in one buffer.
///
/// It forwards the bytes at a write to another position, at a read of bytes that lie only in part
/// in the buffer, at a cut, at `flush`, and when the buffer is full. Bytes in the buffer are read
/// from it, and a read that touches none of them goes straight to the inner store. A write first
/// reserves its room in the inner store, so forwarding the buffer takes no memory. If forwarding
/// fails, the buffer keeps its bytes, and the next call that forwards tries again. Dropping the
/// store loses the buffer: call `flush` or `into_inner` first.
#[derive(Drop)]
pub struct BufferedStore<S: Store> {
    inner: S,
    /// The buffer: its first `held` bytes are not forwarded yet. It grows to `capacity` bytes at
    /// most.
    buffer: Vec<u8>,
    /// The number of bytes in the buffer that are not forwarded yet.
    held: usize,
    /// The position in the store of the buffer's first byte.
    pos: u64,
    /// The greatest number of bytes in the buffer.
    capacity: usize,
    trace: Trace,
    ghost placed: { pos ≤ S.size inner },
    ghost backed: { pos + held ≤ S.room inner },
    ghost bounded: { pos + held < 2 ^ 63 },
    ghost kept: { held ≤ length buffer.items },
    ghost limited: { length buffer.items ≤ capacity },
    ghost allocated: { capacity ≤ vec_capacity buffer },
}

impl<S: Store> BufferedStore<S> {
    ghost use Rattle.cdb_store.specs.BufferedStore.{held_of, bytes_of, size_of, images_of};
    ghost use Rattle.cdb_store.specs.BufferedStore.{inner_of, capacity_of, start_of, written_of};

    /// A store over `inner` with a buffer of `capacity` bytes.
    ///
    /// If memory for the buffer is refused, the inner store is returned as it was.
    pub fn new(alloc: Global, inner: S, capacity: usize) -> Result<BufferedStore<S>, AllocFailed<S>>
        ensures images { IfOk result (λ f. SameImages (S.image inner) (images_of f)) }
        ensures size { IfOk result (λ f. size_of f ≡ S.size inner) }
        ensures failures { IfOk result (λ f. S.failures (inner_of f) ≡ S.failures inner) }
        ensures unwritten { IfOk result (λ f. S.unwritten (inner_of f) ≡ S.unwritten inner) }
        ensures room { IfOk result (λ f. S.room (inner_of f) ≡ S.room inner) }
        ensures inner { IfOk result (λ f. inner_of f ≡ inner) }
        ensures capacity { IfOk result (λ f. capacity_of f ≡ capacity) }
        ensures err { IfErr result (λ f. f.value ≡ inner) }
    {
        match Vec::with_capacity(alloc, capacity) {
            Ok(buffer) => Ok(BufferedStore {
                inner,
                buffer,
                held: 0,
                pos: 0,
                capacity,
                trace: Trace::new(),
            }),
            Err(_) => Err(AllocFailed { value: inner }),
        }
    }

    /// Forwards the bytes in the buffer, and returns the inner store and how that went.
    ///
    /// After `Device` the inner store lacks those bytes: their range may hold anything.
    pub fn into_inner(mut self) -> (S, Result<(), StoreFault>)
        ensures images { OnOk result.1 (SameImages (images_of self) (S.image result.0)) }
        ensures size { OnOk result.1 (S.size result.0 ≡ size_of self) }
        ensures torn { AfterTornWrite (start_of self) (held_of self) (S.image (inner_of self))
            (S.image result.0) }
        ensures no_shorter { S.size (inner_of self) ≤ S.size result.0 }
        ensures no_longer { S.size result.0 ≤ size_of self }
        ensures handed { OnOk result.1 (S.written result.0 ≡ S.written (inner_of self) + held_of self) }
        ensures at_most_handed { S.written result.0 ≤ S.written (inner_of self) + held_of self }
        ensures room { S.room (inner_of self) ≤ S.room result.0 }
        ensures memory { IsErrOf result.1 NoMemory → ⊥ }
        ensures cause { HasCause (S.failures (inner_of self)) (S.failures result.0) result.1 }
        ensures unwritten { HasCause (S.unwritten (inner_of self)) (S.unwritten result.0) result.1 }
    {
        let answer = self.settle();
        let BufferedStore {
            inner,
            buffer,
            held: _,
            pos: _,
            capacity: _,
            trace,
        } = self;
        drop(buffer);
        drop(trace);
        (inner, answer)
    }

    /// Returns the inner store, for its length: it lacks the bytes in the buffer.
    pub fn inner(&self) -> &S
        ensures { result.now ≡ inner_of self.now }
    {
        &self.inner
    }

    /// Returns the inner store as it is. Bytes left in the buffer are lost: right after a flush
    /// that returned `Ok` there are none.
    pub fn discard(self) -> S
        ensures { result ≡ inner_of self }
    {
        let BufferedStore {
            inner,
            buffer,
            held: _,
            pos: _,
            capacity: _,
            trace,
        } = self;
        drop(buffer);
        drop(trace);
        inner
    }

    /// Forwards the bytes in the buffer.
    fn settle(&mut self) -> Result<(), StoreFault>
        ensures images { SameImages (images_of self.old) (images_of self.new) }
        ensures size { size_of self.new ≡ size_of self.old }
        ensures torn { AfterTornWrite self.old.pos (held_of self.old) (S.image self.old.inner)
            (S.image self.new.inner) }
        ensures empty { OnOk result (bytes_of self.new ≡ []) }
        ensures none_held { OnOk result (held_of self.new ≡ 0) }
        ensures handed { OnOk result
            (S.written self.new.inner ≡ S.written self.old.inner + held_of self.old) }
        ensures at_most_handed { S.written self.new.inner
            ≤ S.written self.old.inner + held_of self.old }
        ensures longer { S.size self.old.inner ≤ S.size self.new.inner }
        ensures not_past { S.size self.new.inner ≤ size_of self.old }
        ensures kept { OnErr result
            ((self.new.pos ≡ self.old.pos) × (bytes_of self.new ≡ bytes_of self.old)) }
        ensures trace { self.new.trace ≡ self.old.trace }
        ensures capacity { self.new.capacity ≡ self.old.capacity }
        ensures room { S.room self.old.inner ≤ S.room self.new.inner }
        ensures memory { IsErrOf result NoMemory → ⊥ }
        ensures unwritten { HasCause (S.unwritten self.old.inner) (S.unwritten self.new.inner)
            result }
        ensures cause { HasCause (S.failures self.old.inner) (S.failures self.new.inner) result }
        ensures ok_failures { OnOk result (S.failures self.new.inner ≡ S.failures self.old.inner) }
    {
        if self.held > 0 {
            self.inner.write_at(self.pos, &self.buffer[..self.held])?;
            self.held = 0;
        }
        Ok(())
    }

    /// Makes the buffer continue at `pos`, with room for `n` more bytes.
    #[cold]
    #[inline(never)]
    fn make_room(&mut self, pos: u64, n: usize) -> Result<(), StoreFault>
        requires start { pos ≤ size_of self.old }
        requires end { pos < 2 ^ 63 }
        requires fits { n ≤ self.old.capacity }
        ensures images { SameImages (images_of self.old) (images_of self.new) }
        ensures size { size_of self.new ≡ size_of self.old }
        ensures continues { OnOk result (pos ≡ self.new.pos + held_of self.new) }
        ensures free { OnOk result (held_of self.new + n ≤ self.new.capacity) }
        ensures goes_on { pos ≡ self.old.pos + held_of self.old
            → held_of self.old + n ≤ self.old.capacity → self.new ≡ self.old }
        ensures trace { self.new.trace ≡ self.old.trace }
        ensures room { S.room self.old.inner ≤ S.room self.new.inner }
        ensures memory { IsErrOf result NoMemory → ⊥ }
        ensures unwritten { HasCause (S.unwritten self.old.inner) (S.unwritten self.new.inner)
            result }
        ensures cause { HasCause (S.failures self.old.inner) (S.failures self.new.inner) result }
        ensures ok_failures { OnOk result (S.failures self.new.inner ≡ S.failures self.old.inner) }
    {
        if pos == self.pos + self.held as u64 && n <= self.capacity - self.held {
            return Ok(());
        }
        self.settle()?;
        self.pos = pos;
        Ok(())
    }

    /// Lengthens the buffer, if need be, so that `n` bytes follow the held ones. It takes no
    /// memory.
    #[inline(always)]
    fn widen(&mut self, n: usize) -> Result<(), AllocError>
        requires { held_of self.old + n ≤ self.old.capacity }
        ensures ok { IsOk result }
        ensures wide { held_of self.new + n ≤ length self.new.buffer.items }
        ensures bytes { bytes_of self.new ≡ bytes_of self.old }
        ensures held { self.new.held ≡ self.old.held }
        ensures pos { self.new.pos ≡ self.old.pos }
        ensures inner { self.new.inner ≡ self.old.inner }
        ensures capacity { self.new.capacity ≡ self.old.capacity }
        ensures trace { self.new.trace ≡ self.old.trace }
    {
        if n <= self.buffer.len() - self.held {
            return Ok(());
        }
        lengthen(&mut self.buffer, self.held + n, self.capacity)
    }

    /// Makes the buffer ready for `n` more bytes at `pos`. Mostly it is, which takes a single test.
    #[inline(always)]
    fn prepare(&mut self, pos: u64, n: usize) -> Result<(), StoreFault>
        requires start { pos ≤ size_of self.old }
        requires end { pos < 2 ^ 63 }
        requires fits { n ≤ self.old.capacity }
        ensures images { SameImages (images_of self.old) (images_of self.new) }
        ensures size { size_of self.new ≡ size_of self.old }
        ensures continues { OnOk result (pos ≡ self.new.pos + held_of self.new) }
        ensures wide { OnOk result (held_of self.new + n ≤ length self.new.buffer.items) }
        ensures written { written_of self.new ≡ written_of self.old }
        ensures trace { self.new.trace ≡ self.old.trace }
        ensures room { S.room self.old.inner ≤ S.room self.new.inner }
        ensures memory { IsErrOf result NoMemory → ⊥ }
        ensures unwritten { HasCause (S.unwritten self.old.inner) (S.unwritten self.new.inner)
            result }
        ensures cause { HasCause (S.failures self.old.inner) (S.failures self.new.inner) result }
        ensures ok_failures { OnOk result (S.failures self.new.inner ≡ S.failures self.old.inner) }
    {
        if pos == self.pos + self.held as u64 && n <= self.buffer.len() - self.held {
            return Ok(());
        }
        self.make_room(pos, n)?;
        self.widen(n)?;
        Ok(())
    }
}

/// Lengthens an empty buffer to `end` bytes, and another one to twice that or to `most`, whichever
/// is less. `most` is within its capacity. So for a few bytes only a few are cleared.
#[cold]
#[inline(never)]
fn lengthen(buffer: &mut Vec<u8>, end: usize, most: usize) -> Result<(), AllocError>
    requires end { end ≤ most }
    requires length { length buffer.old.items < end }
    requires capacity { most ≤ vec_capacity buffer.old }
    ensures ok { IsOk result }
    ensures items { (rest : List ℕ) × (buffer.new.items ≡ buffer.old.items ++ rest) }
    ensures wide { end ≤ length buffer.new.items }
    ensures within { length buffer.new.items ≤ most }
    ensures capacity { most ≤ vec_capacity buffer.new }
{
    let len = if buffer.is_empty() {
        end
    } else {
        end.saturating_mul(2).min(most)
    };
    buffer.resize(len, 0)
}

/// Returns true if the `n` bytes at `pos` all lie among the `held` bytes at `start`.
fn lies_within(pos: u64, n: usize, start: u64, held: usize) -> bool
    requires { start + held < 2 ^ 63 }
    ensures { IsTrue result ↔ ((start ≤ pos) × (pos + n ≤ start + held)) }
{
    start <= pos && pos <= start + held as u64 && n as u64 <= start + held as u64 - pos
}

/// Returns true if the `n` bytes at `pos` and the `held` bytes at `start` have no byte in common.
fn lies_apart(pos: u64, n: usize, start: u64, held: usize) -> bool
    requires { start + held < 2 ^ 63 }
    ensures { IsTrue result ↔ AreApart pos n start held }
{
    (pos <= start && n as u64 <= start - pos) || start + held as u64 <= pos
}

impl<S: Store> Store for BufferedStore<S> {
    ghost use Rattle.cdb_store.specs.BufferedStore.{held_of, size_of, images_of, written_of};

    ghost size = { λ f. size_of f };

    ghost image = { λ f. images_of f };

    ghost failures = { λ f. S.failures f.inner };

    ghost unwritten = { λ f. S.unwritten f.inner };

    ghost written = { λ f. written_of f };

    ghost room = { λ f. S.room f.inner };

    ghost settled = { λ f. (f.held ≡ 0) × S.settled f.inner };

    ghost in_room = { λ f. Prim.omega (arith, f.backed, S.in_room f.inner) };

    ghost image_size = { λ f b is. over_taken f.pos f.held f.buffer.items (S.size f.inner) (S.image f.inner) (S.image_size f.inner) f.placed f.kept b is };

    fn len(&self) -> u64 {
        self.inner.len().max(self.pos + self.held as u64)
    }

    fn read_at(&mut self, pos: u64, into: &mut [u8]) -> Result<(), StoreFault>
        requires { pos + length into.old ≤ size_of self.old }
        ensures ok { OnOk result
            (AfterRead pos into.new (images_of self.old) (images_of self.new)) }
        ensures err { OnErr result (SameImages (images_of self.old) (images_of self.new)) }
        ensures size { size_of self.new ≡ size_of self.old }
        ensures written { written_of self.new ≡ written_of self.old }
        ensures room { S.room self.old.inner ≤ S.room self.new.inner }
        ensures unwritten { S.unwritten self.old.inner ≤ S.unwritten self.new.inner }
        ensures cause { HasCause (S.failures self.old.inner) (S.failures self.new.inner) result }
        ensures ok_failures { OnOk result (S.failures self.new.inner ≡ S.failures self.old.inner) }
        ensures memory { IsErrOf result NoMemory → ⊥ }
        ensures passed { AreApart pos (length into.old) self.old.pos (held_of self.old)
            → pos + length into.old ≤ S.size self.old.inner
            → (self.new.buffer ≡ self.old.buffer) × (held_of self.new ≡ held_of self.old)
            × (S.written self.new.inner ≡ S.written self.old.inner) }
    {
        let (n, held) = (into.len(), self.held);
        if lies_within(pos, n, self.pos, held) {
            read_from(&self.buffer[..held], (pos - self.pos) as usize, into);
            return Ok(());
        }
        let below = self.inner.len();
        if lies_apart(pos, n, self.pos, held) && pos <= below && n as u64 <= below - pos {
            return self.inner.read_at(pos, into);
        }
        self.settle()?;
        self.inner.read_at(pos, into)
    }

    #[inline(always)]
    fn write_at(&mut self, pos: u64, bytes: &[u8]) -> Result<(), StoreFault> {
        self.inner.reserve(pos + bytes.len() as u64)?;
        if bytes.len() > self.capacity {
            self.settle()?;
            self.inner.write_at(pos, bytes)?;
            self.trace.note(&Call::Wrote(pos), bytes);
            return Ok(());
        }
        self.prepare(pos, bytes.len())?;
        self.buffer[self.held..self.held + bytes.len()].copy_from_slice(bytes);
        self.held += bytes.len();
        self.trace.note(&Call::Wrote(pos), bytes);
        Ok(())
    }

    #[inline(always)]
    fn write_parts(
        &mut self,
        pos: u64,
        first: &[u8],
        second: &[u8],
        third: &[u8],
    ) -> Result<(), StoreFault> {
        let n = first.len() + second.len() + third.len();
        self.inner.reserve(pos + n as u64)?;
        if n > self.capacity {
            self.settle()?;
            self.inner.write_parts(pos, first, second, third)?;
            note_parts(&mut self.trace, pos, first, second, third);
            return Ok(());
        }
        self.prepare(pos, n)?;
        let free = &mut self.buffer[self.held..self.held + n];
        join(first, second, third, free);
        self.held += n;
        note_parts(&mut self.trace, pos, first, second, third);
        Ok(())
    }

    fn reserve(&mut self, len: u64) -> Result<(), StoreFault> {
        self.inner.reserve(len)
    }

    fn cut(&mut self, len: u64) -> Result<(), StoreFault> {
        self.settle()?;
        self.pos = self.pos.min(len);
        self.inner.cut(len)
    }

    fn flush(&mut self) -> Result<(), StoreFault>
        ensures images { SameImages (images_of self.old) (images_of self.new) }
        ensures size { size_of self.new ≡ size_of self.old }
        ensures written { written_of self.new ≡ written_of self.old }
        ensures room { S.room self.old.inner ≤ S.room self.new.inner }
        ensures unwritten { HasCause (S.unwritten self.old.inner) (S.unwritten self.new.inner)
            result }
        ensures cause { HasCause (S.failures self.old.inner) (S.failures self.new.inner) result }
        ensures ok_failures { OnOk result (S.failures self.new.inner ≡ S.failures self.old.inner) }
        ensures memory { IsErrOf result NoMemory → ⊥ }
        ensures ok { OnOk result ((held_of self.new ≡ 0) × S.settled self.new.inner) }
        ensures handed { OnOk result
            (S.written self.new.inner ≡ S.written self.old.inner + held_of self.old) }
    {
        // What was collected goes first, so that the inner store hands it on too.
        self.settle()?;
        self.inner.flush()
    }
}
