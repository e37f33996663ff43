// The slots of tables, checked against the records of a walk.
ghost use Rattle.std.specs.Prelude.{◌≡◌, ℕ, ◌<◌, ◌^◌, List, All, map, length, OnOk, IfErr};
ghost use Rattle.cdb_form.specs.Format.{head_at};
ghost use Rattle.cdb_form.specs.Views.Pairs.{pointer_pair, slot_pair};
ghost use Rattle.cdb_read.specs.Views.Check.{FaultTells, ReadTells, SlotIsClear, SlotHas, TableIsClear, TableHas, TablesAreClear, TablesHave};
ghost use Rattle.cdb_read.specs.Views.Spans.{StandsInside};
ghost use Rattle.cdb_store.specs.Reads.{OnlyReads};
ghost use Rattle.cdb_read.specs.Views.Window.{Shows};

use crate::checking::directory::Directory;
use crate::checking::filled_table::is_filled;
use crate::checking::slot_runs::{last_run, run_with};
use crate::checking::table_records::TableRecords;
use crate::fault::ReadFault;
use crate::tables::{distance_of, slot_at};
use crate::window::{WINDOW, Window};
use cdb_form::{Pointer, Slot, Width, table_number};
use cdb_store::Store;
use std::alloc::Global;

/// Checks used slot `i` of table `n`, and marks its record if the slot is right. `is_reached` is
/// true if a search comes to the slot.
fn check_slot(
    entries: &mut TableRecords,
    directory: &Directory,
    n: u64,
    i: u64,
    slot: Slot,
    is_reached: bool,
) -> Result<(), ReadFault>
    ensures clear { OnOk result
        (SlotIsClear n i (slot_pair slot) is_reached entries.old entries.new) }
    ensures fails { IfErr result
        (FaultTells (SlotHas n i (slot_pair slot) is_reached entries.old)) }
{
    if table_number(slot.hash) as u64 != n || !is_reached {
        return Err(ReadFault::Slot(n, i));
    }
    let Some(k) = entries.number_of(directory, slot) else {
        return Err(ReadFault::Slot(n, i));
    };
    if entries.is_marked(k) {
        return Err(ReadFault::Twice(slot.place));
    }
    entries.mark(k);
    Ok(())
}

/// Checks table `n` against the records of its list, and marks these: all in one step if the table
/// is what they make of it, else slot by slot. The run of used slots before each slot is known as
/// the slots pass, so no way to a slot is gone twice.
fn check_table<S: Store, L: Width>(
    alloc: Global,
    store: &mut S,
    n: u64,
    table: Pointer,
    window: &mut Window,
    entries: &mut TableRecords,
) -> Result<(), ReadFault>
    requires inside { StandsInside L.WORD (S.size store.old) (pointer_pair table) }
    requires fits { S.size store.old < 2 ^ 64 }
    requires shows { Shows window.old (S.image store.old) }
    ensures shows { Shows window.new (S.image store.new) }
    ensures clear { (b : List ℕ) → S.image store.new b → OnOk result
        (TableIsClear L.WORD n (pointer_pair table) b entries.old entries.new) }
    ensures reads { OnlyReads S.Store store.old store.new }
    ensures fails { IfErr result (ReadTells S.Store
        (TableHas L.WORD n (pointer_pair table) entries.old) store.old store.new) }
{
    if is_filled::<S, L>(alloc, store, n, table, window, entries)? {
        entries.mark_all();
        return Ok(());
    }
    let directory = entries.directory(alloc);
    let mut run = last_run::<S, L>(store, table, window)?;
    for i in 0..table.slots {
        let slot = slot_at::<S, L>(store, table, i, window, WINDOW)?;
        if slot.place != 0 {
            let is_reached = distance_of(table.slots, slot.hash, i) <= run;
            check_slot(entries, &directory, n, i, slot, is_reached)?;
        }
        run = run_with(run, slot);
    }
    Ok(())
}

/// Checks the slots of all tables, each against the records of its list only, and marks these.
pub(crate) fn check_tables<S: Store, L: Width>(
    alloc: Global,
    store: &mut S,
    tables: &[Pointer],
    window: &mut Window,
    lists: &mut [TableRecords],
) -> Result<(), ReadFault>
    requires many { length tables.now ≡ 256 }
    requires lists { length lists.old ≡ 256 }
    requires known { (b : List ℕ) → S.image store.old b
        → head_at L.WORD b ≡ map pointer_pair tables.now }
    requires inside { All (StandsInside L.WORD (S.size store.old)) (map pointer_pair tables.now) }
    requires fits { S.size store.old < 2 ^ 64 }
    requires shows { Shows window.old (S.image store.old) }
    ensures shows { Shows window.new (S.image store.new) }
    ensures clear { (b : List ℕ) → S.image store.new b
        → OnOk result (TablesAreClear L.WORD b lists.old lists.new) }
    ensures reads { OnlyReads S.Store store.old store.new }
    ensures fails { IfErr result
        (ReadTells S.Store (TablesHave L.WORD lists.old) store.old store.new) }
{
    for n in 0..tables.len() {
        check_table::<S, L>(alloc, store, n as u64, tables[n], window, &mut lists[n])?;
    }
    Ok(())
}
