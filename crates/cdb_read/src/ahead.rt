// Bytes of a database that are at hand.
ghost use Rattle.std.specs.Prelude.{◌≡◌, ℕ, ◌+◌, ◌≤◌, List, IfErr, OnOk};
ghost use Rattle.cdb_store.specs.Images.{part};
ghost use Rattle.cdb_store.specs.Reads.{OnlyReads};
ghost use Rattle.cdb_read.specs.Views.Reads.{StoreFails};
ghost use Rattle.cdb_read.specs.Views.Reader.{IsAtHand};

use crate::fault::ReadFault;
use crate::reader::Reader;
use crate::window::WINDOW;
use cdb_form::Width;
use cdb_store::Store;

/// The greatest number of bytes that can be at hand at a time.
pub const AT_HAND: usize = WINDOW;

impl<S: Store, L: Width> Reader<S, L> {
    /// Brings the `n` bytes at a place, which lie inside the file, to hand. The store is read only
    /// if they are not at hand yet, and then for `AT_HAND` bytes.
    #[inline(always)]
    pub fn read_ahead(&mut self, place: u64, n: usize) -> Result<(), ReadFault>
        requires short { n ≤ 4096 }
        requires inside { place + n ≤ S.size self.old.store }
        ensures at_hand { OnOk result (IsAtHand self.new place n) }
        ensures reads { OnlyReads S.Store self.old.store self.new.store }
        ensures fails { IfErr result (StoreFails S.Store self.old.store self.new.store) }
    {
        self.window.cover(&mut self.store, place, n, WINDOW)
    }

    /// Returns the `n` bytes at a place, which are at hand.
    #[inline(always)]
    pub fn at_hand(&self, place: u64, n: usize) -> &[u8]
        requires at_hand { IsAtHand self.now place n }
        ensures is { (b : List ℕ) → S.image self.now.store b → result.now ≡ part place n b }
    {
        self.window.shown(place, n)
    }
}
