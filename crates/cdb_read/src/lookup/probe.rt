// The state of a search.
ghost use Rattle.std.specs.Prelude.{◌≡◌, ◌<◌, ℕ, List, length};
ghost use Rattle.std.specs.Bool.{Decides};
ghost use Rattle.cdb_form.specs.Format.{key_hash};
ghost use Rattle.cdb_form.specs.Views.Pairs.{pointer_pair};
ghost use Rattle.cdb_read.specs.Lookup.{found_by};
ghost use Rattle.cdb_read.specs.Views.Spans.{LiesInside};
ghost use Rattle.cdb_read.specs.Views.Search.{next_probe, IsSearchInside, found_ahead};

use cdb_form::{Pointer, Width, head_size, home_slot, pair_size, table_number};

/// The next step of a search.
#[derive(Clone, Copy)]
pub enum Searching {
    /// The search looks at a slot.
    At(Probe),
    /// Nothing is left.
    AtEnd,
    /// The table of this number doesn't lie after the head and inside the file.
    NoTable(u64),
    /// No whole record is at this place.
    NoRecord(u64),
}

/// A slot of a table that a search looks at.
#[derive(Clone, Copy)]
pub struct Probe {
    /// The pointer to the table.
    pub table: Pointer,
    /// The number of the slot.
    pub slot: u64,
    /// The number of slots that are left, this one among them.
    pub left: u64,
}

impl Probe {
    /// Returns the probe after this one. After the last slot comes the first.
    pub fn next(self) -> Probe
        requires slot { self.slot < self.table.slots }
        requires left { 0 < self.left }
        ensures { result ≡ next_probe self }
    {
        let slot = self.slot + 1;
        Probe {
            table: self.table,
            // A division would cost more than the rest of a probe.
            slot: if slot < self.table.slots { slot } else { 0 },
            left: self.left - 1,
        }
    }
}

/// Returns true if a table lies after the head and inside a file of `size` bytes.
pub fn lies_inside<L: Width>(table: Pointer, size: u64) -> bool
    ensures { Decides result (LiesInside L.WORD size (pointer_pair table)) }
{
    let slot_size = pair_size::<L>() as u64;
    head_size::<L>() as u64 <= table.place
        && table.place <= size
        && table.slots <= (size - table.place) / slot_size
}

/// Returns the state at which the search of a key with this hash begins in its table, in a file of
/// `size` bytes that has this table.
pub fn first_probe<L: Width>(table: Pointer, hash: u64, size: u64) -> Searching
    ensures inside { IsSearchInside L.WORD size result }
    ensures finds { (b key : List ℕ) → size ≡ length b → hash ≡ key_hash key
        → found_ahead L.WORD b key result ≡ found_by L.WORD b key (pointer_pair table) }
{
    if table.slots == 0 {
        return Searching::AtEnd;
    }
    if !lies_inside::<L>(table, size) {
        return Searching::NoTable(table_number(hash) as u64);
    }
    Searching::At(Probe {
        table,
        slot: home_slot(hash, table.slots),
        left: table.slots,
    })
}
