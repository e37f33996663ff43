// Records of an input that wait to be put, as a file has them: so many of them are written at once.
ghost use Rattle.std.specs.Prelude.{◌≡◌, ◌+◌, ◌*◌, ◌<◌, ◌≤◌, ◌^◌, ◌++◌, ◌∷◌, [], List, true, false, take, vec_len, OnOk};
ghost use Rattle.std.specs.Bool.{Decides};
ghost use Rattle.cdb_form.specs.Format.{KeyValue};
ghost use Rattle.cdb_form.specs.Views.Fill.{HasRoom};
ghost use Rattle.cdb_form.specs.Views.Pairs.{key_value};

use cdb_form::{AtHand, Feeds, Record, Width, fill_one};
use cdb_show::ItemReader;
use std::alloc::{AllocError, Global};
use std::marker::PhantomData;

/// The number of bytes that a batch has at first, once a record came.
const FIRST: usize = 4096;

/// The number of bytes that a batch has at most. They are more than a store's buffer has, so they
/// are written without a copy. A longer value is read in pieces.
pub(crate) const MOST: usize = 128 * 1024;

/// Records that wait, and how many items were done before them.
#[derive(Drop)]
pub(crate) struct Batch<L> {
    pub(crate) bytes: Vec<u8>,
    /// The number of bytes that the records have.
    pub(crate) held: usize,
    /// The number of records.
    pub(crate) count: usize,
    /// The number of items of the input that were done.
    pub(crate) done: u64,
    width: PhantomData<L>,
    ghost within: { held ≤ vec_len bytes },
    ghost few: { count ≤ held },
}

impl<L: Width> Batch<L> {
    ghost use Rattle.cdb_tool.specs.Runs.Batches.{HoldsBatch, TakesMore};

    /// No record waits, and no item was done.
    pub(crate) fn new(alloc: Global) -> Batch<L>
        ensures none { HoldsBatch L.WORD L.TOP result [] }
        ensures done { result.done ≡ 0 }
    {
        Batch {
            bytes: Vec::new(alloc),
            held: 0,
            count: 0,
            done: 0,
            width: PhantomData,
        }
    }

    /// The records, as a file has them.
    pub(crate) fn records(&self) -> &[u8]
        ensures { result.now ≡ take self.now.held self.now.bytes.items }
    {
        &self.bytes[..self.held]
    }

    /// Returns true if the records take more than half of the room.
    pub(crate) fn is_full(&self) -> bool
        ensures { Decides result (vec_len self.now.bytes < 2 * self.now.held) }
    {
        self.held > self.bytes.len() / 2
    }

    /// Takes the records that an input has at hand, as long as there is room.
    #[inline(always)]
    pub(crate) fn fill<F: Feeds, A: AtHand<F>>(&mut self, items: &mut ItemReader<F, L>)
        ensures takes { TakesMore L.WORD L.TOP L.GREATEST F.feed items.old items.new self.old self.new }
        ensures done { self.new.done ≡ self.old.done }
    {
        let filled = items.fill::<A>(&mut self.bytes, self.held);
        self.held = filled.held;
        self.count += filled.count as usize;
    }

    /// Takes a record, and returns true, if there is room.
    pub(crate) fn add(&mut self, item: &Record) -> bool
        ensures added { result ≡ true → (rs : List KeyValue) → HoldsBatch L.WORD L.TOP self.old rs
            → HoldsBatch L.WORD L.TOP self.new (rs ++ key_value item.now ∷ []) }
        ensures full { result ≡ false → self.new ≡ self.old }
        ensures room { result ≡ false → HasRoom L.WORD L.TOP self.old.held
            (vec_len self.old.bytes) (key_value item.now) → ⊥ }
        ensures done { self.new.done ≡ self.old.done }
    {
        let held = fill_one::<L>(&item.key, &item.value, &mut self.bytes, self.held);
        if held == self.held {
            return false;
        }
        self.held = held;
        self.count += 1;
        true
    }

    /// The records were put.
    pub(crate) fn clear(&mut self)
        requires { self.old.done + self.old.count ≤ 2 ^ 48 }
        ensures none { HoldsBatch L.WORD L.TOP self.new [] }
        ensures done { self.new.done ≡ self.old.done + self.old.count }
    {
        self.done += self.count as u64;
        self.held = 0;
        self.count = 0;
    }

    /// Makes room for so many bytes. No record waits.
    pub(crate) fn reserve(&mut self, size: usize) -> Result<(), AllocError>
        requires { HoldsBatch L.WORD L.TOP self.old [] }
        ensures room { OnOk result (size ≤ vec_len self.new.bytes) }
        ensures none { HoldsBatch L.WORD L.TOP self.new [] }
        ensures done { self.new.done ≡ self.old.done }
    {
        if self.bytes.len() < size {
            self.bytes.resize(size, 0)?;
        }
        Ok(())
    }

    /// Makes room for twice as many bytes, up to the most. No record waits.
    pub(crate) fn grow(&mut self) -> Result<(), AllocError>
        requires { HoldsBatch L.WORD L.TOP self.old [] }
        ensures none { HoldsBatch L.WORD L.TOP self.new [] }
        ensures done { self.new.done ≡ self.old.done }
    {
        let size = self.bytes.len().saturating_mul(2).max(FIRST).min(MOST);
        self.reserve(size)
    }
}
