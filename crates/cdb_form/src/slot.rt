// A slot of a table.
ghost use Rattle.std.specs.Prelude.{◌≡◌, length};
ghost use Rattle.cdb_form.specs.Format.{pair_bytes, pair_size, pair_at};
ghost use Rattle.cdb_form.specs.Views.Pairs.{slot_pair, PairFits};

use crate::pair::{TwoWords, read_pair, write_pair};
use crate::width::Width;

/// A slot of a table. An empty one has the place 0.
#[derive(Clone, Copy, Debug, PartialEq, Eq)]
pub struct Slot {
    /// The hash of a record's key.
    pub hash: u64,
    /// The place of the record, in bytes from the file's start.
    pub place: u64,
}

/// The slot that two words of `WORD` bytes are.
pub fn read_slot<L: Width>(from: &[u8]) -> Slot
    requires { length from.now ≡ pair_size L.WORD }
    ensures read { slot_pair result ≡ pair_at L.WORD from.now }
    ensures fits { PairFits L.TOP (slot_pair result) }
{
    let pair = read_pair::<L>(from);
    Slot {
        hash: pair.first,
        place: pair.second,
    }
}

/// Leaves the bytes of a slot, two words of `WORD` bytes.
pub fn write_slot<L: Width>(slot: Slot, into: &mut [u8])
    requires long { length into.old ≡ pair_size L.WORD }
    requires fits { PairFits L.TOP (slot_pair slot) }
    ensures written { into.new ≡ pair_bytes L.WORD (slot_pair slot) }
    ensures read_back { pair_at L.WORD into.new ≡ slot_pair slot }
{
    let pair = TwoWords {
        first: slot.hash,
        second: slot.place,
    };
    write_pair::<L>(pair, into);
}
