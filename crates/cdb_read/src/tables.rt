// The tables of a database, and the slots of them all.
ghost use Rattle.std.specs.Prelude.{◌≡◌, ℕ, ◌+◌, ◌*◌, ◌<◌, ◌≤◌, ◌^◌, ◌++◌, List, All, length, drop, map, not, position, ◌==◌, IfOk, IfErr, OnOk, IfNone};
ghost use Rattle.std.specs.List.{list_any};
ghost use Rattle.cdb_form.specs.Format.{home_slot, pair_size, pair_at};
ghost use Rattle.cdb_form.specs.Views.Pairs.{pointer_pair, slot_pair};
ghost use Rattle.cdb_read.specs.Sound.{distance};
ghost use Rattle.cdb_read.specs.Statistics.{distances_in, distances_of, is_outside, table_sizes};
ghost use Rattle.cdb_read.specs.Views.Stats.{Counts, Spreads};
ghost use Rattle.cdb_read.specs.Views.Spans.{StandsInside};
ghost use Rattle.cdb_store.specs.Reads.{OnlyReads};
ghost use Rattle.cdb_read.specs.Views.Reads.{StoreFails};
ghost use Rattle.cdb_read.specs.Views.Window.{Shows};

use crate::fault::ReadFault;
use crate::lookup::probe::lies_inside;
use crate::statistics::distances::Distances;
use crate::statistics::spread::Spread;
use crate::window::{WINDOW, Window};
use cdb_form::{Pointer, Slot, Width, home_slot, pair_size, read_slot};
use cdb_store::Store;

/// Returns the number of the first table with slots that doesn't lie after the head and inside a
/// file of `size` bytes.
pub(crate) fn first_outside<L: Width>(tables: &[Pointer], size: u64) -> Option<u64>
    ensures first { (b : List ℕ) → length b ≡ size
        → result ≡ position (is_outside L.WORD b) (map pointer_pair tables.now) }
    ensures inside { IfNone result (All (StandsInside L.WORD size) (map pointer_pair tables.now)) }
{
    for n in 0..tables.len() {
        let table = tables[n];
        if table.slots != 0 && !lies_inside::<L>(table, size) {
            return Some(n as u64);
        }
    }
    None
}

/// Returns true if a table has slots.
pub(crate) fn any_slots(tables: &[Pointer]) -> bool
    ensures { result ≡ list_any (λ p. not (p.slots == 0)) tables.now }
{
    tables.iter().any(|table| table.slots != 0)
}

/// Returns the spread of the numbers of slots of the tables that have slots.
pub(crate) fn sizes_of(tables: &[Pointer]) -> Spread
    ensures { Spreads result (table_sizes (map pointer_pair tables.now)) }
{
    let mut sizes = Spread::new();
    for n in 0..tables.len() {
        let slots = tables[n].slots;
        if slots != 0 {
            sizes.count(slots);
        }
    }
    sizes
}

/// Returns how far slot `n` lies after the slot at which the search for a hash begins.
pub(crate) fn distance_of(slots: u64, hash: u64, n: u64) -> u64
    requires { n < slots }
    ensures distance { result ≡ distance (home_slot hash slots) slots n }
    ensures within { result < slots }
{
    let home = home_slot(hash, slots);
    if home <= n {
        n - home
    } else {
        slots - (home - n)
    }
}

/// Returns slot `n` of a table. If the window lacks it, the store is read, for `ahead` bytes.
#[inline(always)]
pub(crate) fn slot_at<S: Store, L: Width>(
    store: &mut S,
    table: Pointer,
    n: u64,
    window: &mut Window,
    ahead: usize,
) -> Result<Slot, ReadFault>
    requires inside { table.place + pair_size L.WORD * table.slots ≤ S.size store.old }
    requires slot { n < table.slots }
    requires fits { S.size store.old < 2 ^ 64 }
    requires shows { Shows window.old (S.image store.old) }
    ensures shows { Shows window.new (S.image store.new) }
    ensures read { (b : List ℕ) → S.image store.new b → IfOk result (λ slot.
        slot_pair slot ≡ pair_at L.WORD (drop (table.place + pair_size L.WORD * n) b)) }
    ensures reads { OnlyReads S.Store store.old store.new }
    ensures fails { IfErr result (StoreFails S.Store store.old store.new) }
{
    let slot_size = pair_size::<L>();
    let place = table.place + slot_size as u64 * n;
    window.cover(store, place, slot_size, ahead)?;
    Ok(read_slot::<L>(window.shown(place, slot_size)))
}

/// Counts the used slots of a table in `distances`. Many slots are read at a time.
fn count_table<S: Store, L: Width>(
    store: &mut S,
    table: Pointer,
    window: &mut Window,
    distances: &mut Distances,
) -> Result<(), ReadFault>
    requires inside { StandsInside L.WORD (S.size store.old) (pointer_pair table) }
    requires fits { S.size store.old < 2 ^ 64 }
    requires shows { Shows window.old (S.image store.old) }
    ensures shows { Shows window.new (S.image store.new) }
    ensures counts { (b : List ℕ) → S.image store.new b
        → (ds : List ℕ) → Counts distances.old ds
        → OnOk result (Counts distances.new (ds ++ distances_in L.WORD b (pointer_pair table))) }
    ensures reads { OnlyReads S.Store store.old store.new }
    ensures fails { IfErr result (StoreFails S.Store store.old store.new) }
{
    for n in 0..table.slots {
        let slot = slot_at::<S, L>(store, table, n, window, WINDOW)?;
        if slot.place != 0 {
            distances.count(distance_of(table.slots, slot.hash, n));
        }
    }
    Ok(())
}

/// Counts the used slots of all tables.
pub(crate) fn count_tables<S: Store, L: Width>(
    store: &mut S,
    tables: &[Pointer],
    window: &mut Window,
) -> Result<Distances, ReadFault>
    requires inside { All (StandsInside L.WORD (S.size store.old)) (map pointer_pair tables.now) }
    requires fits { S.size store.old < 2 ^ 64 }
    requires shows { Shows window.old (S.image store.old) }
    ensures shows { Shows window.new (S.image store.new) }
    ensures counts { (b : List ℕ) → S.image store.new b → IfOk result (λ distances.
        Counts distances (distances_of L.WORD b (map pointer_pair tables.now))) }
    ensures reads { OnlyReads S.Store store.old store.new }
    ensures fails { IfErr result (StoreFails S.Store store.old store.new) }
{
    let mut distances = Distances::new();
    for n in 0..tables.len() {
        count_table::<S, L>(store, tables[n], window, &mut distances)?;
    }
    Ok(distances)
}
