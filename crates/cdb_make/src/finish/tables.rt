// The tables, written to a store.
ghost use Rattle.std.specs.Prelude.{◌≡◌, ◌+◌, ◌*◌, ◌<◌, ◌≤◌, length, flat_map, map, max, sum_by, All, OnOk, IfOk, IsErrOf};
ghost use Rattle.cdb_store.specs.declared.store.StoreFault.TheVariants.{Device, NoMemory};
ghost use Rattle.cdb_store.specs.Images.{AfterWrite, AfterTornWrite, HasCause};
ghost use Rattle.cdb_form.specs.Format.{pair_size};
ghost use Rattle.cdb_make.specs.Spans.{table_bytes, tables_end};
ghost use Rattle.cdb_make.specs.Tables.{all_gathered, gathered_in, roll_tables, HaveRoom};

use crate::finish::gather::{GROUPS, TABLES, gather};
use crate::finish::gathered::Gathered;
use crate::roll::Roll;
use cdb_form::{Width, pair_size, put_entry};
use cdb_store::{Store, StoreFault};

/// Leaves the bytes of the table of some entries, filled in their order. It has two slots for each.
fn fill_table_of<L: Width>(bytes: &mut [u8], runs: &mut [u32], list: &Gathered<L>)
    requires bytes { length bytes.old ≡ pair_size L.WORD * (2 * length (gathered_in list.now)) }
    requires runs { 2 * length (gathered_in list.now) ≤ length runs.old }
    ensures filled { bytes.new ≡ table_bytes L.WORD (gathered_in list.now) }
{
    bytes.fill(0);
    let runs = &mut runs[..2 * list.len()];
    for n in 0..list.len() {
        put_entry::<L>(bytes, runs, list.entry(n));
    }
}

/// Writes the table of some entries at a place, through its bytes. It takes no memory. A table with
/// no slots isn't written.
///
/// `Device`: the table's bytes may be any, and those before and after it stay.
fn write_table<S: Store, L: Width>(
    store: &mut S,
    place: u64,
    list: &Gathered<L>,
    runs: &mut [u32],
    bytes: &mut [u8],
) -> Result<(), StoreFault>
    requires runs { 2 * length (gathered_in list.now) ≤ length runs.old }
    requires bytes { length bytes.old ≡ pair_size L.WORD * (2 * length (gathered_in list.now)) }
    requires inside { place ≤ S.size store.old }
    requires limit { place + length bytes.old ≤ L.GREATEST }
    requires room { place + length bytes.old ≤ S.room store.old }
    ensures ok { OnOk result (AfterWrite place (table_bytes L.WORD (gathered_in list.now))
        (S.image store.old) (S.image store.new)) }
    ensures ok_size { OnOk result
        (S.size store.new ≡ max (S.size store.old) (place + length bytes.old)) }
    ensures written { OnOk result (S.written store.new ≡ S.written store.old + length bytes.old) }
    ensures torn { AfterTornWrite place (length bytes.old) (S.image store.old) (S.image store.new) }
    ensures longer { S.size store.old ≤ S.size store.new }
    ensures room { S.room store.old ≤ S.room store.new }
    ensures memory { IsErrOf result NoMemory → ⊥ }
    ensures cause { HasCause (S.failures store.old) (S.failures store.new) result }
    ensures unwritten { S.unwritten store.old ≤ S.unwritten store.new }
{
    if bytes.is_empty() {
        return Ok(());
    }
    fill_table_of(bytes, runs, list);
    store.write_at(place, bytes)
}

/// Writes one table after another, the first at `start`, each through the same bytes, and returns
/// the place after the last. It takes no memory.
///
/// `Device`: the tables' bytes may be any, and those before and after them stay.
fn write_group<S: Store, L: Width>(
    store: &mut S,
    lists: &[Gathered<L>],
    start: u64,
    runs: &mut [u32],
    bytes: &mut [u8],
) -> Result<u64, StoreFault>
    requires runs { All (λ list. 2 * length list ≤ length runs.old) (all_gathered lists.now) }
    requires bytes { length bytes.old ≡ pair_size L.WORD * length runs.old }
    requires inside { start ≤ S.size store.old }
    requires limit { tables_end L.WORD start (all_gathered lists.now) ≤ L.GREATEST }
    requires room { tables_end L.WORD start (all_gathered lists.now) ≤ S.room store.old }
    ensures ok { OnOk result
        (AfterWrite start (flat_map (table_bytes L.WORD) (all_gathered lists.now))
        (S.image store.old) (S.image store.new)) }
    ensures end { IfOk result (λ end. end ≡ tables_end L.WORD start (all_gathered lists.now)) }
    ensures ok_size { OnOk result (S.size store.new
        ≡ max (S.size store.old) (tables_end L.WORD start (all_gathered lists.now))) }
    ensures written { OnOk result (S.written store.new + start
        ≡ S.written store.old + tables_end L.WORD start (all_gathered lists.now)) }
    ensures torn { AfterTornWrite start (4 * L.WORD * sum_by length (all_gathered lists.now))
        (S.image store.old) (S.image store.new) }
    ensures longer { S.size store.old ≤ S.size store.new }
    ensures room { S.room store.old ≤ S.room store.new }
    ensures memory { IsErrOf result NoMemory → ⊥ }
    ensures cause { IsErrOf result Device → S.failures store.old < S.failures store.new }
    ensures failures { S.failures store.old ≤ S.failures store.new }
    ensures unwritten { S.unwritten store.old ≤ S.unwritten store.new }
{
    let size = pair_size::<L>();
    let mut place = start;
    for list in lists {
        let count = 2 * list.len();
        let bytes = &mut bytes[..size * count];
        write_table::<S, L>(store, place, list, runs, bytes)?;
        place += bytes.len() as u64;
    }
    Ok(place)
}

/// Writes the tables of a roll one after another, the first at `end`. It gathers some at a time, by
/// a pass over the roll's entries. It takes no memory.
///
/// `Device`: the tables' bytes may be any, and those before and after them stay.
pub(crate) fn write_tables<S: Store, L: Width>(
    store: &mut S,
    roll: &Roll<L>,
    end: u64,
    lists: &mut [Gathered<L>],
    runs: &mut [u32],
    bytes: &mut [u8],
) -> Result<(), StoreFault>
    requires lists { length lists.old ≡ 32 }
    requires gathers { HaveRoom (map length (roll_tables roll.now)) lists.old }
    requires runs { All (λ table. 2 * length table ≤ length runs.old) (roll_tables roll.now) }
    requires bytes { length bytes.old ≡ pair_size L.WORD * length runs.old }
    requires inside { end ≤ S.size store.old }
    requires limit { tables_end L.WORD end (roll_tables roll.now) ≤ L.GREATEST }
    requires room { tables_end L.WORD end (roll_tables roll.now) ≤ S.room store.old }
    ensures ok { OnOk result
        (AfterWrite end (flat_map (table_bytes L.WORD) (roll_tables roll.now))
        (S.image store.old) (S.image store.new)) }
    ensures ok_size { OnOk result (S.size store.new
        ≡ max (S.size store.old) (tables_end L.WORD end (roll_tables roll.now))) }
    ensures written { OnOk result (S.written store.new + end
        ≡ S.written store.old + tables_end L.WORD end (roll_tables roll.now)) }
    ensures torn { AfterTornWrite end (4 * L.WORD * sum_by length (roll_tables roll.now))
        (S.image store.old) (S.image store.new) }
    ensures longer { S.size store.old ≤ S.size store.new }
    ensures room { S.room store.old ≤ S.room store.new }
    ensures memory { IsErrOf result NoMemory → ⊥ }
    ensures cause { HasCause (S.failures store.old) (S.failures store.new) result }
    ensures unwritten { S.unwritten store.old ≤ S.unwritten store.new }
{
    let mut place = end;
    for group in 0..GROUPS {
        gather(lists, roll, TABLES * group);
        place = write_group::<S, L>(store, lists, place, runs, bytes)?;
    }
    Ok(())
}
