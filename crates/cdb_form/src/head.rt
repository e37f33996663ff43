// The head of a file: the pointers to its tables.
ghost use Rattle.std.specs.Prelude.{◌≡◌, ◌+◌, ◌*◌, ◌<◌, length, map, flat_map, All, ◌==◌, ◌&&◌, not, min, filter, position};
ghost use Rattle.cdb_form.specs.Format.{pair_bytes, pair_size, head_size, pair_at, head_at};
ghost use Rattle.std.specs.List.{reduce};
ghost use Rattle.cdb_form.specs.Views.Pairs.{pointer_pair, head_pairs, PairFits};

use crate::pair::{TwoWords, pair_size, read_pair, write_pair};
use crate::width::Width;

/// The greatest size of a head, in bytes: its size if words have 8 bytes.
pub const GREATEST_HEAD: usize = 4096;

/// The place of a table, and its number of slots.
#[derive(Clone, Copy, Debug, PartialEq, Eq)]
pub struct Pointer {
    /// The place of the table's first slot, in bytes from the file's start.
    pub place: u64,
    /// The number of the table's slots.
    pub slots: u64,
}

/// The pointers to the 256 tables, with which a file begins.
#[derive(Clone, Copy, Debug, PartialEq, Eq)]
pub struct Head {
    /// The pointer to each table, in the order of their numbers.
    pub pointers: [Pointer; 256],
}

/// Returns the least place of a table that has slots.
fn least_place(pointers: &[Pointer]) -> Option<u64>
    ensures { result ≡ reduce min (map (λ p. p.place) (filter (λ p.
        not (p.slots == 0)) pointers.now)) }
{
    let used = pointers.iter().filter(|p| p.slots != 0);
    used.map(|p| p.place).min()
}

/// Returns the number of the first table that has slots and lies at a place.
fn first_at(pointers: &[Pointer], at: u64) -> Option<usize>
    ensures { result ≡ position (λ p. not (p.slots == 0) && (p.place == at)) pointers.now }
{
    pointers.iter().position(|p| p.slots != 0 && p.place == at)
}

impl Head {
    ghost use Rattle.cdb_form.specs.Format.{least_place, first_table_at};

    /// Returns the record end: the least place of a table that has slots, or the place after the
    /// head if none has.
    pub fn record_end<L: Width>(&self) -> u64
        ensures { result ≡ least_place (head_size L.WORD) (head_pairs self.now) }
    {
        least_place(&self.pointers).unwrap_or(head_size::<L>() as u64)
    }

    /// Returns the number of the first table that has slots and lies at a place; 256 if there is
    /// none.
    pub fn first_table_at(&self, place: u64) -> usize
        ensures { result ≡ first_table_at place (head_pairs self.now) }
    {
        first_at(&self.pointers, place).unwrap_or(self.pointers.len())
    }
}

/// Returns the number of bytes that the head takes, and so the place of the first record.
pub fn head_size<L: Width>() -> usize
    ensures { result ≡ head_size L.WORD }
{
    512 * L::WORD
}

/// The pointer that two words of `WORD` bytes are.
pub fn read_pointer<L: Width>(from: &[u8]) -> Pointer
    requires { length from.now ≡ pair_size L.WORD }
    ensures read { pointer_pair result ≡ pair_at L.WORD from.now }
    ensures fits { PairFits L.TOP (pointer_pair result) }
{
    let pair = read_pair::<L>(from);
    Pointer {
        place: pair.first,
        slots: pair.second,
    }
}

/// Leaves the bytes of a pointer, two words of `WORD` bytes.
pub fn write_pointer<L: Width>(pointer: Pointer, into: &mut [u8])
    requires long { length into.old ≡ pair_size L.WORD }
    requires fits { PairFits L.TOP (pointer_pair pointer) }
    ensures written { into.new ≡ pair_bytes L.WORD (pointer_pair pointer) }
    ensures read_back { pair_at L.WORD into.new ≡ pointer_pair pointer }
{
    let pair = TwoWords {
        first: pointer.place,
        second: pointer.slots,
    };
    write_pair::<L>(pair, into);
}

/// The head that the first `head_size` bytes of a file are.
pub fn read_head<L: Width>(from: &[u8]) -> Head
    requires { length from.now ≡ head_size L.WORD }
    ensures read { head_pairs result ≡ head_at L.WORD from.now }
    ensures fits { All (PairFits L.TOP) (head_pairs result) }
{
    let size = pair_size::<L>();
    let mut pointers = [Pointer { place: 0, slots: 0 }; 256];
    for n in 0..256 {
        pointers[n] = read_pointer::<L>(&from[size * n..size * n + size]);
    }
    Head { pointers }
}

/// Leaves the bytes of a head.
pub fn write_head<L: Width>(head: &Head, into: &mut [u8])
    requires long { length into.old ≡ head_size L.WORD }
    requires fits { All (PairFits L.TOP) (head_pairs head.now) }
    ensures written { into.new ≡ flat_map (pair_bytes L.WORD) (head_pairs head.now) }
    ensures read_back { head_at L.WORD into.new ≡ head_pairs head.now }
{
    let size = pair_size::<L>();
    for n in 0..256 {
        write_pointer::<L>(head.pointers[n], &mut into[size * n..size * n + size]);
    }
}
