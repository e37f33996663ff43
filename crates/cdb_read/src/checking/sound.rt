// The check whether a file is sound.
ghost use Rattle.std.specs.Prelude.{◌≡◌, ℕ, List, All, map, length, OnOk, IfErr};
ghost use Rattle.cdb_form.specs.Views.Pairs.{pointer_pair};
ghost use Rattle.cdb_read.specs.Sound.{IsSound};
ghost use Rattle.cdb_read.specs.Views.Check.{CheckFails, ReadTells, TablesAreClear, TablesHave};
ghost use Rattle.cdb_read.specs.Views.Spans.{StandsInside};
ghost use Rattle.cdb_store.specs.Reads.{OnlyReads};

use crate::checking::collected::walk_entries;
use crate::checking::record_lists::first_unmarked;
use crate::checking::slots::check_tables;
use crate::checking::table_records::TableRecords;
use crate::fault::ReadFault;
use crate::reader::Reader;
use crate::tables::first_outside;
use cdb_form::Width;
use cdb_store::Store;
use std::alloc::Global;

impl<S: Store, L: Width> Reader<S, L> {
    /// Checks the slots of all tables, which lie inside the file if they have slots, and marks
    /// their records.
    fn check_slots(&mut self, alloc: Global, lists: &mut [TableRecords]) -> Result<(), ReadFault>
        requires many { length lists.old ≡ 256 }
        requires inside { All (StandsInside L.WORD (S.size self.old.store))
            (map pointer_pair self.old.head.pointers) }
        ensures clear { (b : List ℕ) → S.image self.new.store b
            → OnOk result (TablesAreClear L.WORD b lists.old lists.new) }
        ensures reads { OnlyReads S.Store self.old.store self.new.store }
        ensures fails { IfErr result
            (ReadTells S.Store (TablesHave L.WORD lists.old) self.old.store self.new.store) }
    {
        check_tables::<S, L>(
            alloc,
            &mut self.store,
            &self.head.pointers,
            &mut self.window,
            lists,
        )
    }
}

/// Checks whether a file is sound: its tables and its records lie where they should, and used slots
/// and records match one to one, each slot where a search for its hash comes to it.
///
/// It returns the first fault, in this order. `Table`: the first table by its number with slots
/// that doesn't lie after the head and inside the file. `Record`: no whole record is there. `Slot`:
/// the first wrong used slot, if no record has its hash and its place, its hash belongs to another
/// table, or an empty slot lies on the way from where its search begins. Else `Twice`: an earlier
/// slot has its record. `Unindexed`: the first record that no slot has. `NoMemory` and `Device`: an
/// allocation or the store failed.
///
/// The walk, and then the slots, are read through the window, 4096 bytes at a time. A table that is
/// what its records make of it, put in their order, is right as a whole; another is checked slot by
/// slot.
///
/// It takes 13 bytes of memory a record. For one table's records it takes 24 more a record, or 40
/// if words are wide, and does without if that allocation fails. Its time is in order n log n.
/// Whatever it returns, the reader stays as usable as it was.
pub fn check<L: Width, S: Store>(alloc: Global, reader: &mut Reader<S, L>) -> Result<(), ReadFault>
    ensures reads { OnlyReads S.Store reader.old.store reader.new.store }
    ensures sound { (b : List ℕ) → S.image reader.new.store b
        → OnOk result (IsSound L.WORD b) }
    ensures fails { IfErr result
        (CheckFails L.WORD S.Store reader.old.store reader.new.store) }
{
    let outside = first_outside::<L>(&reader.head.pointers, reader.store.len());
    if let Some(n) = outside {
        return Err(ReadFault::Table(n));
    }
    let mut lists = walk_entries(alloc, reader)?;
    reader.check_slots(alloc, &mut lists)?;
    match first_unmarked(&lists) {
        Some(place) => Err(ReadFault::Unindexed(place)),
        None => Ok(()),
    }
}
