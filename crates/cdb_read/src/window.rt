// Bytes of a store that were read ahead.
ghost use Rattle.std.specs.Prelude.{◌≡◌, ◌+◌, ◌-◌, ◌<◌, ◌≤◌, ◌^◌, length, min, IfErr, OnOk};
ghost use Rattle.std.specs.Bool.{OnTrue};
ghost use Rattle.cdb_store.specs.Images.{part};
ghost use Rattle.cdb_store.specs.Reads.{OnlyReads};
ghost use Rattle.cdb_read.specs.Views.Reads.{StoreFails};
ghost use Rattle.cdb_read.specs.Views.Window.{Shows, Covers};

use crate::fault::ReadFault;
use crate::pieces::read_part;
use crate::span::has_bytes;
use cdb_store::Store;

/// The number of bytes that a window has room for.
pub(crate) const WINDOW: usize = 4096;

/// Bytes of a store that were read, and their place.
#[derive(Drop)]
pub(crate) struct Window {
    /// The bytes that were read, and after them others.
    pub(crate) bytes: [u8; WINDOW],
    /// The place of the first byte that was read.
    pub(crate) place: u64,
    /// The number of bytes that were read.
    pub(crate) len: usize,
}

impl Window {
    /// Returns a window that shows nothing.
    pub(crate) fn new() -> Window
        ensures { result.len ≡ 0 }
    {
        Window::over([0; WINDOW])
    }

    /// Returns a window over these bytes, which shows nothing.
    pub(crate) fn over(bytes: [u8; WINDOW]) -> Window
        ensures { result.len ≡ 0 }
    {
        Window {
            bytes,
            place: 0,
            len: 0,
        }
    }

    /// Returns true if the window has the `n` bytes at a place.
    pub(crate) fn covers(&self, place: u64, n: u64) -> bool
        ensures { OnTrue result (Covers self.now place n) }
    {
        self.place <= place && has_bytes(self.len as u64, place - self.place, n)
    }

    /// Returns the `n` bytes at a place, which the window has.
    pub(crate) fn shown(&self, place: u64, n: usize) -> &[u8]
        requires short { self.now.len ≤ 4096 }
        requires covers { Covers self.now place n }
        ensures is { result.now ≡ part (place - self.now.place) n self.now.bytes }
        ensures long { length result.now ≡ n }
    {
        let at = (place - self.place) as usize;
        &self.bytes[at..at + n]
    }

    /// Reads `most` bytes at a place, or fewer if the store or the window ends before.
    fn fill<S: Store>(&mut self, store: &mut S, place: u64, most: usize) -> Result<(), ReadFault>
        requires inside { place ≤ S.size store.old }
        ensures place { OnOk result (self.new.place ≡ place) }
        ensures len { OnOk result (self.new.len ≡ min (S.size store.old - place) (min most 4096)) }
        ensures shows { Shows self.new (S.image store.new) }
        ensures reads { OnlyReads S.Store store.old store.new }
        ensures fails { IfErr result (StoreFails S.Store store.old store.new) }
    {
        self.len = 0;
        let n = (store.len() - place).min(most.min(WINDOW) as u64) as usize;
        read_part(store, place, &mut self.bytes[..n])?;
        self.place = place;
        self.len = n;
        Ok(())
    }

    /// Covers the `n` bytes at a place. If the window lacks them, the store is read, for `ahead`
    /// bytes or `n` if that is more.
    #[inline(always)]
    pub(crate) fn cover<S: Store>(
        &mut self,
        store: &mut S,
        place: u64,
        n: usize,
        ahead: usize,
    ) -> Result<(), ReadFault>
        requires short { n ≤ 4096 }
        requires inside { place + n ≤ S.size store.old }
        requires shows { Shows self.old (S.image store.old) }
        ensures covers { OnOk result (Covers self.new place n) }
        ensures shows { Shows self.new (S.image store.new) }
        ensures reads { OnlyReads S.Store store.old store.new }
        ensures fails { IfErr result (StoreFails S.Store store.old store.new) }
    {
        if self.covers(place, n as u64) {
            return Ok(());
        }
        self.fill(store, place, n.max(ahead))
    }

    /// Covers the `n` bytes at a place. If the window lacks them, it is filled with the bytes that
    /// end with them; if these would begin before `least`, with bytes that begin at `least`.
    pub(crate) fn cover_back<S: Store>(
        &mut self,
        store: &mut S,
        place: u64,
        n: usize,
        least: u64,
    ) -> Result<(), ReadFault>
        requires short { n ≤ 4096 }
        requires inside { place + n ≤ S.size store.old }
        requires fits { S.size store.old < 2 ^ 64 }
        requires shows { Shows self.old (S.image store.old) }
        ensures covers { OnOk result (Covers self.new place n) }
        ensures shows { Shows self.new (S.image store.new) }
        ensures reads { OnlyReads S.Store store.old store.new }
        ensures fails { IfErr result (StoreFails S.Store store.old store.new) }
    {
        if self.covers(place, n as u64) {
            return Ok(());
        }
        let end = place + n as u64;
        let from = end.saturating_sub(WINDOW as u64).max(least).min(place);
        self.fill(store, from, WINDOW)
    }
}
