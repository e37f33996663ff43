// Bytes of the file that a finder searches.
ghost use Rattle.std.specs.Prelude.{◌≡◌, ℕ, ◌+◌, ◌≤◌, List, length, IfErr, OnOk};
ghost use Rattle.cdb_store.specs.Images.{part};
ghost use Rattle.cdb_store.specs.Reads.{OnlyReads};
ghost use Rattle.cdb_read.specs.Views.Reads.{StoreFails};

use crate::fault::ReadFault;
use crate::lookup::finder::Finder;
use crate::pieces::read_part;
use crate::reader::Reader;
use crate::window::WINDOW;
use cdb_form::Width;
use cdb_store::Store;

impl<S: Store, L: Width> Reader<S, L> {
    /// Fills `into` with the bytes at a place. If they fit in the window, the store is read only if
    /// the window lacks them, and then for a whole window.
    fn read_at(&mut self, place: u64, into: &mut [u8]) -> Result<(), ReadFault>
        requires inside { place + length into.old ≤ S.size self.old.store }
        ensures reads { OnlyReads S.Store self.old.store self.new.store }
        ensures read { (b : List ℕ) → S.image self.new.store b
            → OnOk result (into.new ≡ part place (length into.new) b) }
        ensures fails { IfErr result (StoreFails S.Store self.old.store self.new.store) }
    {
        let n = into.len();
        if n > WINDOW {
            return read_part(&mut self.store, place, into);
        }
        self.window.cover(&mut self.store, place, n, WINDOW)?;
        into.copy_from_slice(self.window.shown(place, n));
        Ok(())
    }
}

impl<'a, S: Store, L: Width> Finder<'a, S, L> {
    /// Fills `into` with the bytes of the file at a place. The look-up stays where it is.
    ///
    /// `Device`: the store failed, and `into` holds anything.
    pub fn read_at(&mut self, place: u64, into: &mut [u8]) -> Result<(), ReadFault>
        requires inside { place + length into.old ≤ S.size self.old.reader.now.store }
        ensures same_reader { self.new.reader.ghost_name ≡ self.old.reader.ghost_name }
        ensures key { self.new.key.now ≡ self.old.key.now }
        ensures stays { self.new.searching ≡ self.old.searching }
        ensures reads { OnlyReads S.Store self.old.reader.now.store self.new.reader.now.store }
        ensures read { (b : List ℕ) → S.image self.new.reader.now.store b
            → OnOk result (into.new ≡ part place (length into.new) b) }
        ensures fails { IfErr result
            (StoreFails S.Store self.old.reader.now.store self.new.reader.now.store) }
    {
        self.reader.read_at(place, into)
    }
}
