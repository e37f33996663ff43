// A store in memory.
ghost use Rattle.std.specs.Prelude.{◌≡◌, ◌↔◌, List, ℕ, [], max, length, vec_capacity};
ghost use Rattle.std.proofs.Common.{arith};
ghost use Rattle.cdb_store.specs.Lengths.{same_length};
ghost use Rattle.cdb_store.specs.Calls.{written_count};

use crate::bytes::{read_from, write_over, write_parts_over};
use crate::trace::{Call, Trace, note_parts};
use crate::{Store, StoreFault};
use std::alloc::Global;

/// A store in memory. It never returns `Device`.
#[derive(Drop)]
pub struct MemStore {
    bytes: Vec<u8>,
    trace: Trace,
}

impl MemStore {
    ghost use Rattle.cdb_store.specs.Contents.{contents};

    /// An empty store, which grows by this allocator.
    pub fn new(alloc: Global) -> MemStore
        ensures { contents result ≡ [] }
    {
        MemStore::from_vec(Vec::new(alloc))
    }

    /// A store of these bytes, which grows by the vector's allocator.
    pub fn from_vec(bytes: Vec<u8>) -> MemStore
        ensures { contents result ≡ bytes.items }
    {
        let trace = Trace::new();
        MemStore { bytes, trace }
    }

    /// Returns the store's bytes, its only image.
    pub fn bytes(&self) -> &[u8]
        ensures bytes { result.now ≡ contents self.now }
        ensures images { (b : List ℕ)
            → (⟦<MemStore as Store>⟧.image self.now b ↔ (b ≡ result.now)) }
    {
        self.bytes.as_slice()
    }

    /// Returns the store's bytes, in the vector that held them.
    pub fn into_vec(self) -> Vec<u8>
        ensures { result.items ≡ contents self }
    {
        let MemStore { bytes, trace } = self;
        drop(trace);
        bytes
    }
}

impl Store for MemStore {
    ghost size = { λ m. length m.bytes.items };

    ghost image = { λ m b. b ≡ m.bytes.items };

    ghost failures = { λ _. 0 };

    ghost unwritten = { λ _. 0 };

    ghost written = { λ m. written_count m.trace.events };

    ghost room = { λ m. max (length m.bytes.items) (vec_capacity m.bytes) };

    ghost settled = { λ m. Unit {0} };

    ghost in_room = { λ m. Prim.omega arith };

    ghost image_size = { λ m b is. same_length b m.bytes.items is };

    fn len(&self) -> u64 {
        self.bytes.len() as u64
    }

    fn read_at(&mut self, pos: u64, into: &mut [u8]) -> Result<(), StoreFault> {
        read_from(&self.bytes, pos as usize, into);
        Ok(())
    }

    fn write_at(&mut self, pos: u64, bytes: &[u8]) -> Result<(), StoreFault> {
        write_over(&mut self.bytes, pos as usize, bytes)?;
        self.trace.note(&Call::Wrote(pos), bytes);
        Ok(())
    }

    fn write_parts(
        &mut self,
        pos: u64,
        first: &[u8],
        second: &[u8],
        third: &[u8],
    ) -> Result<(), StoreFault> {
        write_parts_over(&mut self.bytes, pos as usize, first, second, third)?;
        note_parts(&mut self.trace, pos, first, second, third);
        Ok(())
    }

    fn reserve(&mut self, len: u64) -> Result<(), StoreFault> {
        let now = self.bytes.len();
        if len as usize > now {
            self.bytes.reserve(len as usize - now)?;
        }
        Ok(())
    }

    fn cut(&mut self, len: u64) -> Result<(), StoreFault> {
        self.bytes.truncate(len as usize);
        Ok(())
    }

    fn flush(&mut self) -> Result<(), StoreFault> {
        Ok(())
    }
}
