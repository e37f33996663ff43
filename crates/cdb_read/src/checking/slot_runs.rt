// Runs of used slots, one after the other.
ghost use Rattle.std.specs.Prelude.{◌≡◌, ℕ, ◌+◌, ◌*◌, ◌<◌, ◌≤◌, ◌^◌, ◌∷◌, [], ◌++◌, List, IfOk, IfErr};
ghost use Rattle.cdb_form.specs.Format.{WordPair};
ghost use Rattle.cdb_form.specs.Views.Pairs.{pointer_pair, slot_pair};
ghost use Rattle.cdb_read.specs.Lookup.{slots_at};
ghost use Rattle.cdb_read.specs.Sound.{run_of};
ghost use Rattle.cdb_read.specs.Views.Spans.{StandsInside};
ghost use Rattle.cdb_store.specs.Reads.{OnlyReads};
ghost use Rattle.cdb_read.specs.Views.Reads.{StoreFails};
ghost use Rattle.cdb_read.specs.Views.Window.{Shows};

use crate::fault::ReadFault;
use crate::tables::slot_at;
use crate::window::{WINDOW, Window};
use cdb_form::{Pointer, Slot, Width, pair_size};
use cdb_store::Store;

/// Returns the length of the run of used slots that ends with `slot`, after a run of length `run`.
pub(crate) fn run_with(run: u64, slot: Slot) -> u64
    requires { run < 2 ^ 63 }
    ensures run { (slots : List WordPair) → run ≡ run_of slots
        → result ≡ run_of (slots ++ slot_pair slot ∷ []) }
    ensures small { result ≤ run + 1 }
{
    if slot.place == 0 { 0 } else { run + 1 }
}

/// Returns the length of the run of used slots that ends a table. It is counted from the last slot
/// back, and many slots are read at a time.
pub(crate) fn last_run<S: Store, L: Width>(
    store: &mut S,
    table: Pointer,
    window: &mut Window,
) -> Result<u64, ReadFault>
    requires inside { StandsInside L.WORD (S.size store.old) (pointer_pair table) }
    requires fits { S.size store.old < 2 ^ 64 }
    requires shows { Shows window.old (S.image store.old) }
    ensures shows { Shows window.new (S.image store.new) }
    ensures run { (b : List ℕ) → S.image store.new b
        → IfOk result (λ run. run ≡ run_of (slots_at L.WORD b (pointer_pair table))) }
    ensures small { IfOk result (λ run. run ≤ table.slots) }
    ensures reads { OnlyReads S.Store store.old store.new }
    ensures fails { IfErr result (StoreFails S.Store store.old store.new) }
{
    let slot_size = pair_size::<L>();
    for run in 0..table.slots {
        let i = table.slots - 1 - run;
        let place = table.place + slot_size as u64 * i;
        window.cover_back(store, place, slot_size, table.place)?;
        let slot = slot_at::<S, L>(store, table, i, window, WINDOW)?;
        if slot.place == 0 {
            return Ok(run);
        }
    }
    Ok(table.slots)
}
