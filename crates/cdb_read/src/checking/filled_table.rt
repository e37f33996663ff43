// A table that its records fill in their order, as a maker leaves it.
ghost use Rattle.std.specs.Prelude.{◌≡◌, ℕ, ◌*◌, ◌<◌, ◌≤◌, ◌^◌, List, true, get_or, length, replicate, IfOk, IfErr};
ghost use Rattle.cdb_form.specs.Format.{pair_size, slots_of};
ghost use Rattle.cdb_form.specs.Views.Pairs.{pointer_pair, slots_in};
ghost use Rattle.cdb_store.specs.Reads.{OnlyReads};
ghost use Rattle.cdb_read.specs.Views.Check.{AreFresh, IsFilled};
ghost use Rattle.cdb_read.specs.Views.Spans.{StandsInside};
ghost use Rattle.cdb_read.specs.Views.Reads.{StoreFails};
ghost use Rattle.cdb_read.specs.Views.TableRecords.{entry_pairs};
ghost use Rattle.cdb_read.specs.Views.Window.{Shows};

use crate::checking::table_records::TableRecords;
use crate::fault::ReadFault;
use crate::lookup::key_at::bytes_are_at;
use crate::window::Window;
use cdb_form::{Pointer, Width, pair_size, put_entry};
use cdb_store::Store;
use std::alloc::{AllocError, Global};

/// Fills bytes that are zeros with the slots of the table of some records, put in their order.
fn put_all<L: Width>(bytes: &mut [u8], runs: &mut [u32], entries: &TableRecords)
    requires fits { (k : ℕ) → k < length entries.now.places.items
        → get_or entries.now.places.items k 0 ≤ L.TOP }
    requires bytes { bytes.old
        ≡ replicate (pair_size L.WORD * (2 * length entries.now.places.items)) 0 }
    requires runs { length runs.old ≡ 2 * length entries.now.places.items }
    ensures filled { slots_in L.WORD bytes.new ≡ slots_of (entry_pairs entries.now) }
{
    for k in 0..entries.len() {
        put_entry::<L>(bytes, runs, entries.slot(k));
    }
}

/// Returns the bytes of the table of some records, put in their order. It has two slots for each
/// record.
fn fill_table<L: Width>(
    alloc: Global,
    entries: &TableRecords,
    n: u64,
    slots: usize,
) -> Result<Vec<u8>, AllocError>
    requires fresh { AreFresh n L.TOP entries.now }
    requires slots { slots ≡ 2 * length entries.now.places.items }
    requires fits { pair_size L.WORD * slots < 2 ^ 64 }
    ensures long { IfOk result (λ bytes. length bytes.items ≡ pair_size L.WORD * slots) }
    ensures filled { IfOk result (λ bytes.
        slots_in L.WORD bytes.items ≡ slots_of (entry_pairs entries.now)) }
{
    let mut bytes = vec![in alloc; 0u8; pair_size::<L>() * slots]?;
    let mut runs = vec![in alloc; 0u32; slots]?;
    put_all::<L>(&mut bytes, &mut runs, entries);
    Ok(bytes)
}

/// Returns true if table `n` is what its records make of it, put in their order, and no slot points
/// to one of them yet. Returns false also if an allocation fails.
pub(crate) fn is_filled<S: Store, L: Width>(
    alloc: Global,
    store: &mut S,
    n: u64,
    table: Pointer,
    window: &mut Window,
    entries: &TableRecords,
) -> Result<bool, ReadFault>
    requires inside { StandsInside L.WORD (S.size store.old) (pointer_pair table) }
    requires fits { S.size store.old < 2 ^ 64 }
    requires shows { Shows window.old (S.image store.old) }
    ensures shows { Shows window.new (S.image store.new) }
    ensures filled { (b : List ℕ) → S.image store.new b → IfOk result (λ yes. yes ≡ true
        → IsFilled L.WORD n L.TOP (pointer_pair table) b entries.now) }
    ensures reads { OnlyReads S.Store store.old store.new }
    ensures fails { IfErr result (StoreFails S.Store store.old store.new) }
{
    let slots = table.slots;
    if slots == 0 || slots != 2 * entries.len() as u64 || !entries.are_fresh(n, L::TOP) {
        return Ok(false);
    }
    match fill_table::<L>(alloc, entries, n, slots as usize) {
        Ok(bytes) => bytes_are_at(store, table.place, &bytes, window),
        Err(_) => Ok(false),
    }
}
