// A store that fails one call, for tests of what is built on stores.
ghost use Rattle.std.specs.Prelude.{◌≡◌, ◌+◌, ◌<◌, ◌≤◌, ◌^◌, ◌↔◌, ◌⊎◌, max, length, take, IsTrue};
ghost use Rattle.std.specs.Prelude.{OnOk, OnErr, IsErrOf, ◌++◌};
ghost use Rattle.cdb_store.specs.declared.store.StoreFault.TheVariants.{Device, NoMemory};
ghost use Rattle.cdb_store.specs.Images.{SameImages, AfterRead, AfterWrite, AfterTornWrite};
ghost use Rattle.cdb_store.specs.Images.{AfterCut, HasCause};
ghost use Rattle.cdb_store.specs.Fuse.{Blows, capped, PartWritten};

use crate::{Store, StoreFault};

/// A store that passes a number of calls to the inner store, fails the next one, and passes all
/// later ones.
///
/// The calls that count are `read_at`, `write_at`, `write_parts`, `cut` and `flush`. The write that
/// fails first writes a part of its bytes; any other call that fails does nothing.
#[derive(Drop)]
pub struct FuseStore<S> {
    inner: S,
    /// The number of calls that pass before the one that fails.
    limit: u64,
    /// The number of bytes that the failed write writes.
    part: u64,
    /// The number of calls so far that count.
    calls: u64,
    /// The number of bytes in the inner store's writes that returned `Ok`.
    written: u64,
}

impl<S: Store> FuseStore<S> {
    ghost use Rattle.cdb_store.specs.FuseStore.{inner_of, limit_of, part_of, calls_of, counted_by};

    /// A fuse that passes `calls` calls and fails the next one; with `u64::MAX` it fails none.
    ///
    /// A write that it fails first writes its first `part` bytes, or all if it is shorter.
    pub fn new(inner: S, calls: u64, part: u64) -> FuseStore<S>
        ensures inner { inner_of result ≡ inner }
        ensures limit { limit_of result ≡ calls }
        ensures part { part_of result ≡ part }
        ensures calls { calls_of result ≡ 0 }
        ensures written { counted_by result ≡ 0 }
    {
        FuseStore {
            inner,
            limit: calls,
            part,
            calls: 0,
            written: 0,
        }
    }

    /// The inner store, as it is.
    pub fn into_inner(self) -> S
        ensures { result ≡ inner_of self }
    {
        let FuseStore {
            inner,
            limit: _,
            part: _,
            calls: _,
            written: _,
        } = self;
        inner
    }

    /// Returns the number of calls that counted so far, the failed one too. It stops at `u64::MAX`.
    pub fn calls(&self) -> u64
        ensures { result ≡ calls_of self.now }
    {
        self.calls
    }

    /// Returns the number of bytes in the inner store's writes that returned `Ok`. It stops at
    /// `u64::MAX`.
    pub fn written(&self) -> u64
        ensures { result ≡ counted_by self.now }
    {
        self.written
    }
}

/// Counts a call, and returns true if it is the one to fail.
fn blows(calls: &mut u64, limit: u64) -> bool
    ensures counted { calls.new ≡ capped (calls.old + 1) }
    ensures fits { calls.old < 2 ^ 64 }
    ensures at_limit { IsTrue result ↔ Blows calls.old limit }
{
    let is_last = *calls == limit && limit < u64::MAX;
    *calls = calls.saturating_add(1);
    is_last
}

/// The first `n` bytes of three pieces that are written one after another, as three pieces.
fn first_bytes<'a>(
    n: usize,
    first: &'a [u8],
    second: &'a [u8],
    third: &'a [u8],
) -> (&'a [u8], &'a [u8], &'a [u8])
    ensures { result.0.now ++ (result.1.now ++ result.2.now)
        ≡ take n (first.now ++ (second.now ++ third.now)) }
{
    let of_first = n.min(first.len());
    let of_second = (n - of_first).min(second.len());
    let of_third = (n - of_first - of_second).min(third.len());
    (&first[..of_first], &second[..of_second], &third[..of_third])
}

#[tactic(auto, using(crate::proofs::FuseLemmas::fuse_passes, crate::proofs::FuseLemmas::fuse_passes_fine))]
impl<S: Store> Store for FuseStore<S> {
    ghost use Rattle.cdb_store.specs.FuseStore.{failures_of, IsLast, IsCounted};

    ghost size = { λ f. S.size f.inner };

    ghost image = { λ f. S.image f.inner };

    ghost failures = { λ f. failures_of S.failures f };

    ghost unwritten = { λ f. failures_of S.unwritten f };

    ghost written = { λ f. S.written f.inner };

    ghost room = { λ f. S.room f.inner };

    ghost settled = { λ f. S.settled f.inner };

    ghost in_room = { λ f. S.in_room f.inner };

    ghost image_size = { λ f. S.image_size f.inner };

    fn len(&self) -> u64 {
        self.inner.len()
    }

    fn read_at(&mut self, pos: u64, into: &mut [u8]) -> Result<(), StoreFault>
        requires { pos + length into.old ≤ S.size self.old.inner }
        ensures ok { OnOk result
            (AfterRead pos into.new (S.image self.old.inner) (S.image self.new.inner)) }
        ensures err { OnErr result (SameImages (S.image self.old.inner) (S.image self.new.inner)) }
        ensures size { S.size self.new.inner ≡ S.size self.old.inner }
        ensures written { S.written self.new.inner ≡ S.written self.old.inner }
        ensures room { S.room self.old.inner ≤ S.room self.new.inner }
        ensures unwritten { failures_of S.unwritten self.old ≤ failures_of S.unwritten self.new }
        ensures cause { HasCause (failures_of S.failures self.old) (failures_of S.failures self.new)
            result }
        ensures ok_failures { OnOk result
            (failures_of S.failures self.new ≡ failures_of S.failures self.old) }
        ensures memory { IsErrOf result NoMemory → ⊥ }
        ensures counted { IsCounted self.old self.new }
        ensures same_written { self.new.written ≡ self.old.written }
        ensures fails { IsLast self.old
            → IsErrOf result Device × (self.new.inner ≡ self.old.inner) }
    {
        if blows(&mut self.calls, self.limit) {
            return Err(StoreFault::Device);
        }
        self.inner.read_at(pos, into)
    }

    fn write_at(&mut self, pos: u64, bytes: &[u8]) -> Result<(), StoreFault>
        requires start { pos ≤ S.size self.old.inner }
        requires end { pos + length bytes.now < 2 ^ 63 }
        ensures ok { OnOk result
            (AfterWrite pos bytes.now (S.image self.old.inner) (S.image self.new.inner)) }
        ensures ok_size { OnOk result
            (S.size self.new.inner ≡ max (S.size self.old.inner) (pos + length bytes.now)) }
        ensures ok_written { OnOk result
            (S.written self.new.inner ≡ S.written self.old.inner + length bytes.now) }
        ensures torn { AfterTornWrite pos (length bytes.now) (S.image self.old.inner)
            (S.image self.new.inner) }
        ensures longer { S.size self.old.inner ≤ S.size self.new.inner }
        ensures not_past { S.size self.new.inner
            ≤ max (S.size self.old.inner) (pos + length bytes.now) }
        ensures more_written { S.written self.old.inner ≤ S.written self.new.inner }
        ensures at_most_written { S.written self.new.inner
            ≤ S.written self.old.inner + length bytes.now }
        ensures memory { IsErrOf result NoMemory
            → SameImages (S.image self.old.inner) (S.image self.new.inner) }
        ensures memory_size { IsErrOf result NoMemory
            → S.size self.new.inner ≡ S.size self.old.inner }
        ensures memory_written { IsErrOf result NoMemory
            → S.written self.new.inner ≡ S.written self.old.inner }
        ensures memory_room { IsErrOf result NoMemory
            → S.room self.new.inner ≡ S.room self.old.inner }
        ensures memory_failures { IsErrOf result NoMemory
            → failures_of S.failures self.new ≡ failures_of S.failures self.old }
        ensures past_room { IsErrOf result NoMemory
            → S.room self.old.inner < pos + length bytes.now }
        ensures room { S.room self.old.inner ≤ S.room self.new.inner }
        ensures unwritten { HasCause (failures_of S.unwritten self.old)
            (failures_of S.unwritten self.new) result }
        ensures cause { HasCause (failures_of S.failures self.old) (failures_of S.failures self.new)
            result }
        ensures ok_failures { OnOk result
            (failures_of S.failures self.new ≡ failures_of S.failures self.old) }
        ensures counted { IsCounted self.old self.new }
        ensures count_ok { OnOk result
            (self.new.written ≡ capped (self.old.written + length bytes.now)) }
        ensures count_err { OnErr result (IsLast self.old ⊎ (self.new.written ≡ self.old.written)) }
        ensures fails { IsLast self.old → IsErrOf result Device }
        ensures part_torn { IsLast self.old
            → AfterTornWrite pos (length (take self.old.part bytes.now)) (S.image self.old.inner)
            (S.image self.new.inner) }
        ensures part_size { IsLast self.old → S.size self.new.inner
            ≤ max (S.size self.old.inner) (pos + length (take self.old.part bytes.now)) }
        ensures part_written { IsLast self.old → S.written self.new.inner
            ≤ S.written self.old.inner + length (take self.old.part bytes.now) }
        ensures part { IsLast self.old
            → PartWritten pos (take self.old.part bytes.now) (S.image self.old.inner)
            (S.image self.new.inner) (S.failures self.old.inner, S.failures self.new.inner)
            (S.room self.old.inner) (self.old.written, self.new.written) }
    {
        if blows(&mut self.calls, self.limit) {
            let n = self.part.min(bytes.len() as u64) as usize;
            if let Ok(()) = self.inner.write_at(pos, &bytes[..n]) {
                self.written = self.written.saturating_add(n as u64);
            }
            return Err(StoreFault::Device);
        }
        self.inner.write_at(pos, bytes)?;
        self.written = self.written.saturating_add(bytes.len() as u64);
        Ok(())
    }

    fn write_parts(
        &mut self,
        pos: u64,
        first: &[u8],
        second: &[u8],
        third: &[u8],
    ) -> Result<(), StoreFault>
        requires start { pos ≤ S.size self.old.inner }
        requires end { pos + length (first.now ++ (second.now ++ third.now)) < 2 ^ 63 }
        ensures ok { OnOk result
            (AfterWrite pos (first.now ++ (second.now ++ third.now)) (S.image self.old.inner) (S.image self.new.inner)) }
        ensures ok_size { OnOk result
            (S.size self.new.inner ≡ max (S.size self.old.inner) (pos + length (first.now ++ (second.now ++ third.now)))) }
        ensures ok_written { OnOk result
            (S.written self.new.inner ≡ S.written self.old.inner + length (first.now ++ (second.now ++ third.now))) }
        ensures torn { AfterTornWrite pos (length (first.now ++ (second.now ++ third.now))) (S.image self.old.inner)
            (S.image self.new.inner) }
        ensures longer { S.size self.old.inner ≤ S.size self.new.inner }
        ensures not_past { S.size self.new.inner
            ≤ max (S.size self.old.inner) (pos + length (first.now ++ (second.now ++ third.now))) }
        ensures more_written { S.written self.old.inner ≤ S.written self.new.inner }
        ensures at_most_written { S.written self.new.inner
            ≤ S.written self.old.inner + length (first.now ++ (second.now ++ third.now)) }
        ensures memory { IsErrOf result NoMemory
            → SameImages (S.image self.old.inner) (S.image self.new.inner) }
        ensures memory_size { IsErrOf result NoMemory
            → S.size self.new.inner ≡ S.size self.old.inner }
        ensures memory_written { IsErrOf result NoMemory
            → S.written self.new.inner ≡ S.written self.old.inner }
        ensures memory_room { IsErrOf result NoMemory
            → S.room self.new.inner ≡ S.room self.old.inner }
        ensures memory_failures { IsErrOf result NoMemory
            → failures_of S.failures self.new ≡ failures_of S.failures self.old }
        ensures past_room { IsErrOf result NoMemory
            → S.room self.old.inner < pos + length (first.now ++ (second.now ++ third.now)) }
        ensures room { S.room self.old.inner ≤ S.room self.new.inner }
        ensures unwritten { HasCause (failures_of S.unwritten self.old)
            (failures_of S.unwritten self.new) result }
        ensures cause { HasCause (failures_of S.failures self.old) (failures_of S.failures self.new)
            result }
        ensures ok_failures { OnOk result
            (failures_of S.failures self.new ≡ failures_of S.failures self.old) }
        ensures counted { IsCounted self.old self.new }
        ensures count_ok { OnOk result
            (self.new.written ≡ capped (self.old.written + length (first.now ++ (second.now ++ third.now)))) }
        ensures count_err { OnErr result (IsLast self.old ⊎ (self.new.written ≡ self.old.written)) }
        ensures fails { IsLast self.old → IsErrOf result Device }
        ensures part_torn { IsLast self.old
            → AfterTornWrite pos (length (take self.old.part (first.now ++ (second.now ++ third.now)))) (S.image self.old.inner)
            (S.image self.new.inner) }
        ensures part_size { IsLast self.old → S.size self.new.inner
            ≤ max (S.size self.old.inner) (pos + length (take self.old.part (first.now ++ (second.now ++ third.now)))) }
        ensures part_written { IsLast self.old → S.written self.new.inner
            ≤ S.written self.old.inner + length (take self.old.part (first.now ++ (second.now ++ third.now))) }
        ensures part { IsLast self.old
            → PartWritten pos (take self.old.part (first.now ++ (second.now ++ third.now))) (S.image self.old.inner)
            (S.image self.new.inner) (S.failures self.old.inner, S.failures self.new.inner)
            (S.room self.old.inner) (self.old.written, self.new.written) }
    {
        let n = first.len() + second.len() + third.len();
        if blows(&mut self.calls, self.limit) {
            let part = self.part.min(n as u64) as usize;
            let (a, b, c) = first_bytes(part, first, second, third);
            if let Ok(()) = self.inner.write_parts(pos, a, b, c) {
                self.written = self.written.saturating_add(part as u64);
            }
            return Err(StoreFault::Device);
        }
        self.inner.write_parts(pos, first, second, third)?;
        self.written = self.written.saturating_add(n as u64);
        Ok(())
    }

    fn reserve(&mut self, len: u64) -> Result<(), StoreFault>
        requires { len < 2 ^ 63 }
        ensures ok { OnOk result (len ≤ S.room self.new.inner) }
        ensures past_room { OnErr result (S.room self.old.inner < len) }
        ensures err_room { OnErr result (S.room self.new.inner ≡ S.room self.old.inner) }
        ensures ok_failures { OnOk result
            (S.failures self.new.inner ≡ S.failures self.old.inner) }
        ensures err_failures { OnErr result
            (S.failures self.new.inner ≡ S.failures self.old.inner) }
        ensures device { IsErrOf result Device → ⊥ }
        ensures images { SameImages (S.image self.old.inner) (S.image self.new.inner) }
        ensures size { S.size self.new.inner ≡ S.size self.old.inner }
        ensures written { S.written self.new.inner ≡ S.written self.old.inner }
        ensures room { S.room self.old.inner ≤ S.room self.new.inner }
        ensures unwritten { failures_of S.unwritten self.old ≤ failures_of S.unwritten self.new }
        ensures failures { failures_of S.failures self.old ≤ failures_of S.failures self.new }
        ensures same_calls { self.new.calls ≡ self.old.calls }
        ensures same_limit { self.new.limit ≡ self.old.limit }
        ensures same_part { self.new.part ≡ self.old.part }
        ensures same_written { self.new.written ≡ self.old.written }
    {
        self.inner.reserve(len)
    }

    fn cut(&mut self, len: u64) -> Result<(), StoreFault>
        requires { len ≤ S.size self.old.inner }
        ensures images { AfterCut (S.size self.new.inner) (S.image self.old.inner)
            (S.image self.new.inner) }
        ensures ok { OnOk result (S.size self.new.inner ≡ len) }
        ensures no_shorter { len ≤ S.size self.new.inner }
        ensures no_longer { S.size self.new.inner ≤ S.size self.old.inner }
        ensures written { S.written self.new.inner ≡ S.written self.old.inner }
        ensures room { S.room self.old.inner ≤ S.room self.new.inner }
        ensures unwritten { HasCause (failures_of S.unwritten self.old)
            (failures_of S.unwritten self.new) result }
        ensures cause { HasCause (failures_of S.failures self.old) (failures_of S.failures self.new)
            result }
        ensures ok_failures { OnOk result
            (failures_of S.failures self.new ≡ failures_of S.failures self.old) }
        ensures memory { IsErrOf result NoMemory → ⊥ }
        ensures counted { IsCounted self.old self.new }
        ensures same_written { self.new.written ≡ self.old.written }
        ensures fails { IsLast self.old
            → IsErrOf result Device × (self.new.inner ≡ self.old.inner) }
    {
        if blows(&mut self.calls, self.limit) {
            return Err(StoreFault::Device);
        }
        self.inner.cut(len)
    }

    fn flush(&mut self) -> Result<(), StoreFault>
        ensures ok { OnOk result (S.settled self.new.inner) }
        ensures images { SameImages (S.image self.old.inner) (S.image self.new.inner) }
        ensures size { S.size self.new.inner ≡ S.size self.old.inner }
        ensures written { S.written self.new.inner ≡ S.written self.old.inner }
        ensures room { S.room self.old.inner ≤ S.room self.new.inner }
        ensures unwritten { HasCause (failures_of S.unwritten self.old)
            (failures_of S.unwritten self.new) result }
        ensures cause { HasCause (failures_of S.failures self.old) (failures_of S.failures self.new)
            result }
        ensures ok_failures { OnOk result
            (failures_of S.failures self.new ≡ failures_of S.failures self.old) }
        ensures memory { IsErrOf result NoMemory → ⊥ }
        ensures counted { IsCounted self.old self.new }
        ensures same_written { self.new.written ≡ self.old.written }
        ensures fails { IsLast self.old
            → IsErrOf result Device × (self.new.inner ≡ self.old.inner) }
    {
        if blows(&mut self.calls, self.limit) {
            return Err(StoreFault::Device);
        }
        self.inner.flush()
    }
}
