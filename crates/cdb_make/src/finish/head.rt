// The head, written to a store.
ghost use Rattle.std.specs.Prelude.{◌≡◌, ◌+◌, ◌*◌, ◌<◌, ◌≤◌, List, length, map, sum, OnOk, IsErrOf};
ghost use Rattle.cdb_store.specs.declared.store.StoreFault.TheVariants.{NoMemory};
ghost use Rattle.cdb_store.specs.Images.{AfterWrite, AfterTornWrite, HasCause};
ghost use Rattle.cdb_form.specs.Format.{pointers_from, WordPair, head_size, slots_of};
ghost use Rattle.cdb_form.specs.Views.Pairs.{head_pairs};
ghost use Rattle.cdb_make.specs.Spans.{head_bytes};

use cdb_form::{GREATEST_HEAD, Head, Pointer, Width, head_size, pair_size, write_head};
use cdb_store::{Store, StoreFault};

/// Returns the pointers to the tables, with `counts` entries each. The first table begins at `end`.
fn head_of<L: Width>(counts: &[usize], end: u64) -> Head
    requires long { length counts.now ≡ 256 }
    requires limit { end + 4 * L.WORD * sum counts.now ≤ L.GREATEST }
    ensures { (tables : List (List WordPair)) → counts.now ≡ map length tables
        → head_pairs result ≡ pointers_from L.WORD end (map slots_of tables) }
{
    let size = pair_size::<L>() as u64;
    let mut pointers = [Pointer { place: 0, slots: 0 }; 256];
    let mut place = end;
    for n in 0..256 {
        let slots = 2 * counts[n] as u64;
        pointers[n] = Pointer { place, slots };
        place += size * slots;
    }
    Head { pointers }
}

/// Writes the head at the start of a store that has forwarded all else: so no head is on the disk
/// before what it points to. It takes no memory.
///
/// `Device`: the head's bytes may be any, and those after it stay.
pub(crate) fn write_pointers<S: Store, L: Width>(
    store: &mut S,
    counts: &[usize],
    end: u64,
) -> Result<(), StoreFault>
    requires long { length counts.now ≡ 256 }
    requires limit { end + 4 * L.WORD * sum counts.now ≤ L.GREATEST }
    requires settled { S.settled store.old }
    requires inside { head_size L.WORD ≤ S.size store.old }
    requires room { head_size L.WORD ≤ S.room store.old }
    ensures ok { (tables : List (List WordPair)) → counts.now ≡ map length tables
        → OnOk result (AfterWrite 0 (head_bytes L.WORD end tables)
        (S.image store.old) (S.image store.new)) }
    ensures torn { AfterTornWrite 0 (head_size L.WORD) (S.image store.old) (S.image store.new) }
    ensures size { S.size store.new ≡ S.size store.old }
    ensures written { OnOk result
        (S.written store.new ≡ S.written store.old + head_size L.WORD) }
    ensures room { S.room store.old ≤ S.room store.new }
    ensures memory { IsErrOf result NoMemory → ⊥ }
    ensures cause { HasCause (S.failures store.old) (S.failures store.new) result }
    ensures unwritten { S.unwritten store.old ≤ S.unwritten store.new }
{
    let head = head_of::<L>(counts, end);
    let mut bytes = [0u8; GREATEST_HEAD];
    let bytes = &mut bytes[..head_size::<L>()];
    write_head::<L>(&head, bytes);
    store.write_at(0, bytes)
}
