// The whole file of a roll's records, in their store.
ghost use Rattle.std.specs.Prelude.{◌≡◌, ◌+◌, ◌-◌, ◌*◌, ◌<◌, ◌≤◌, ◌⊎◌, length, map, All, Err, OnOk, IfErr, IsErrOf, flat_map};
ghost use Rattle.cdb_store.specs.declared.store.StoreFault.TheVariants.{NoMemory as Refused};
ghost use Rattle.cdb_store.specs.Images.{SameImages, KeepsPart, HasCause, ImagesHold as AreIn};
ghost use Rattle.cdb_form.specs.Format.{head_size, pair_size};
ghost use Rattle.cdb_store.specs.declared.make_fault.MakeFault.TheVariants.{NoMemory, Writing};
ghost use Rattle.cdb_make.specs.Tables.{EndsWith, IsFinished, HeadIsLast, roll_tables, HaveRoom};
ghost use Rattle.cdb_make.specs.Spans.{table_bytes, tables_end};

use crate::finish::counts::{counts_of, longest};
use crate::finish::gather::room_for;
use crate::finish::gathered::Gathered;
use crate::finish::head::write_pointers;
use crate::finish::tables::write_tables;
use crate::roll::Roll;
use cdb_form::{Width, pair_size};
use cdb_store::{MakeFault, Store, StoreFault};
use std::alloc::Global;

/// Writes the tables after the records up to `last`, cuts the store after them, and flushes it, so
/// that the tables are stored before the head is. It takes no memory.
///
/// `Device`: the bytes of the records and before them stay.
fn settle_tables<S: Store, L: Width>(
    store: &mut S,
    roll: &Roll<L>,
    last: u64,
    lists: &mut [Gathered<L>],
    runs: &mut [u32],
    bytes: &mut [u8],
) -> Result<(), StoreFault>
    requires start { head_size L.WORD ≤ roll.now.end }
    requires inside { roll.now.end ≤ S.size store.old }
    requires last { last ≡ tables_end L.WORD roll.now.end (roll_tables roll.now) }
    requires limit { last ≤ L.GREATEST }
    requires room { last ≤ S.room store.old }
    requires lists { length lists.old ≡ 32 }
    requires gathers { HaveRoom (map length (roll_tables roll.now)) lists.old }
    requires runs { All (λ table. 2 * length table ≤ length runs.old) (roll_tables roll.now) }
    requires bytes { length bytes.old ≡ pair_size L.WORD * length runs.old }
    ensures ends { OnOk result (EndsWith roll.now.end
        (flat_map (table_bytes L.WORD) (roll_tables roll.now))
        (S.image store.old) (S.image store.new)) }
    ensures held { OnOk result (AreIn roll.now.end
        (flat_map (table_bytes L.WORD) (roll_tables roll.now)) (S.image store.new)) }
    ensures settled { OnOk result (S.settled store.new) }
    ensures size { OnOk result (S.size store.new ≡ last) }
    ensures written { OnOk result
        (S.written store.new + roll.now.end ≡ S.written store.old + last) }
    ensures kept { KeepsPart (head_size L.WORD) (roll.now.end - head_size L.WORD)
        (S.image store.old) (S.image store.new) }
    ensures head { KeepsPart 0 (head_size L.WORD) (S.image store.old) (S.image store.new) }
    ensures inside { roll.now.end ≤ S.size store.new }
    ensures room { S.room store.old ≤ S.room store.new }
    ensures memory { IsErrOf result Refused → ⊥ }
    ensures cause { HasCause (S.failures store.old) (S.failures store.new) result }
    ensures unwritten { S.unwritten store.old ≤ S.unwritten store.new }
{
    write_tables::<S, L>(store, roll, roll.end, lists, runs, bytes)?;
    store.cut(last)?;
    store.flush()
}

/// Writes the tables after the records up to `last`, cuts the store after them, and once that is
/// forwarded writes the head, and flushes it. It takes no memory.
///
/// `Device`: the bytes of the records stay.
fn write_parts<S: Store, L: Width>(
    store: &mut S,
    roll: &Roll<L>,
    last: u64,
    counts: &[usize],
    lists: &mut [Gathered<L>],
    runs: &mut [u32],
    bytes: &mut [u8],
) -> Result<(), StoreFault>
    requires start { head_size L.WORD ≤ roll.now.end }
    requires inside { roll.now.end ≤ S.size store.old }
    requires last { last ≡ tables_end L.WORD roll.now.end (roll_tables roll.now) }
    requires limit { last ≤ L.GREATEST }
    requires room { last ≤ S.room store.old }
    requires counts { counts.now ≡ map length (roll_tables roll.now) }
    requires lists { length lists.old ≡ 32 }
    requires gathers { HaveRoom counts.now lists.old }
    requires runs { All (λ table. 2 * length table ≤ length runs.old) (roll_tables roll.now) }
    requires bytes { length bytes.old ≡ pair_size L.WORD * length runs.old }
    ensures file { OnOk result (IsFinished L.WORD roll.now.end (roll_tables roll.now)
        (S.image store.old) (S.image store.new)) }
    ensures size { OnOk result (S.size store.new ≡ last) }
    ensures written { OnOk result
        (S.written store.new + roll.now.end ≡ S.written store.old + (head_size L.WORD + last)) }
    ensures settled { OnOk result (S.settled store.new) }
    ensures head_last { HeadIsLast L.WORD roll.now.end (roll_tables roll.now) (S.image store.old)
        (S.image store.new) }
    ensures kept { KeepsPart (head_size L.WORD) (roll.now.end - head_size L.WORD)
        (S.image store.old) (S.image store.new) }
    ensures inside { roll.now.end ≤ S.size store.new }
    ensures room { S.room store.old ≤ S.room store.new }
    ensures memory { IsErrOf result Refused → ⊥ }
    ensures cause { HasCause (S.failures store.old) (S.failures store.new) result }
    ensures unwritten { S.unwritten store.old ≤ S.unwritten store.new }
{
    settle_tables::<S, L>(store, roll, last, lists, runs, bytes)?;
    write_pointers::<S, L>(store, counts, roll.end)?;
    store.flush()
}

/// Writes the tables and the head of the records of a roll, cuts the store after the tables, and
/// flushes it.
///
/// All memory is taken before the first byte is written, so `NoMemory` leaves the store as it was.
/// `Writing`: the store failed. The records' bytes stay whatever the answer, and the head is
/// written last.
pub(crate) fn finish<S: Store, L: Width>(
    alloc: Global,
    store: &mut S,
    roll: &Roll<L>,
) -> Result<(), MakeFault>
    requires start { head_size L.WORD ≤ roll.now.end }
    requires inside { roll.now.end ≤ S.size store.old }
    requires limit { roll.now.end + 4 * L.WORD * length roll.now.hashes.items ≤ L.GREATEST }
    ensures file { OnOk result (IsFinished L.WORD roll.now.end (roll_tables roll.now)
        (S.image store.old) (S.image store.new)) }
    ensures size { OnOk result (S.size store.new
        ≡ roll.now.end + 4 * L.WORD * length roll.now.hashes.items) }
    ensures written { OnOk result (S.written store.new + roll.now.end ≡ S.written store.old
        + (head_size L.WORD + (roll.now.end + 4 * L.WORD * length roll.now.hashes.items))) }
    ensures settled { OnOk result (S.settled store.new) }
    ensures head_last { HeadIsLast L.WORD roll.now.end (roll_tables roll.now) (S.image store.old)
        (S.image store.new) }
    ensures kept { KeepsPart (head_size L.WORD) (roll.now.end - head_size L.WORD)
        (S.image store.old) (S.image store.new) }
    ensures inside { roll.now.end ≤ S.size store.new }
    ensures room { S.room store.old ≤ S.room store.new }
    ensures memory { result ≡ Err NoMemory → SameImages (S.image store.old) (S.image store.new) }
    ensures memory_size { result ≡ Err NoMemory → S.size store.new ≡ S.size store.old }
    ensures memory_written { result ≡ Err NoMemory → S.written store.new ≡ S.written store.old }
    ensures memory_failures { result ≡ Err NoMemory → S.failures store.new ≡ S.failures store.old }
    ensures failed { result ≡ Err Writing → S.failures store.old < S.failures store.new }
    ensures faults { IfErr result (λ f. (f ≡ NoMemory) ⊎ (f ≡ Writing)) }
    ensures failures { S.failures store.old ≤ S.failures store.new }
    ensures unwritten { S.unwritten store.old ≤ S.unwritten store.new }
{
    let counts = counts_of(roll);
    let mut lists = room_for::<L>(alloc, &counts)?;
    let most = 2 * longest(&counts);
    let mut runs = vec![in alloc; 0u32; most]?;
    let mut bytes = vec![in alloc; 0u8; pair_size::<L>() * most]?;
    let last = roll.end + 2 * pair_size::<L>() as u64 * roll.len() as u64;
    store.reserve(last)?;
    write_parts::<S, L>(
        store, roll, last, &counts, &mut lists, &mut runs, &mut bytes,
    )?;
    Ok(())
}
