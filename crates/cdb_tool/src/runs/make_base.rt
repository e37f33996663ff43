// The records of a base, which a maker begins with.
ghost use Rattle.std.specs.Prelude.{◌≡◌, ◌+◌, ◌<◌, ◌≤◌, ℕ, List, [], true, OnOk, IfOk, IfErr};
ghost use Rattle.cdb_store.specs.Reads.{OnlyReads};
ghost use Rattle.cdb_form.specs.Format.{KeyValue, Walked, with_records};
ghost use Rattle.cdb_make.specs.Views.Long.{IsPart};
ghost use Rattle.cdb_make.specs.Views.Maker.{Holds, WhereHonest, limit_of, store_of};
ghost use Rattle.cdb_read.specs.Views.Walking.{left_of, bytes_left};
ghost use Rattle.cdb_tool.specs.Runs.Make.{AddsNext, AddsRecord, NotAdded, PutsValue, RecordNotAdded, BaseFails, HandsBack, BaseHasFailed, IsOfMaking, StepsOn, AddsBase, HoldsBase, BaseStopped};

use crate::runs::batch::MOST;
use cdb_form::Width;
use cdb_make::{LongRecord, Maker, Mode};
use cdb_read::{Pair, Reader, Span, Walk, walk};
use cdb_show::Fault;
use cdb_store::Store;
use std::alloc::{AllocError, Global};

/// The number of bytes of a base that are read at a time.
const AT_ONCE: usize = 65536;

/// Room for what is read of a base.
#[derive(Drop)]
struct Room {
    /// The records that are copied as they are.
    window: Vec<u8>,
    /// The key of a record that is longer, and its value or a piece of that.
    key: Vec<u8>,
    value: Vec<u8>,
}

impl Room {
    /// A window of zeros, and no record.
    fn new(alloc: Global) -> Result<Room, AllocError> {
        let mut window = Vec::new(alloc);
        window.resize(AT_ONCE, 0)?;
        Ok(Room {
            window,
            key: Vec::new(alloc),
            value: Vec::new(alloc),
        })
    }
}

/// Writes the value of a record that was begun, a piece after the other.
fn copy_value<L: Width, S: Store, B: Store>(
    maker: &mut Maker<S, L>,
    records: &mut Walk<'_, B, L>,
    value: Span,
    piece: &mut Vec<u8>,
    mut long: LongRecord,
) -> Result<(), Fault>
    requires inside { value.place + value.len ≤ B.size records.old.reader.now.store }
    requires begun { (first : _) × (key : List ℕ) × IsPart first maker.old key value.len [] long }
    ensures same_reader { records.new.reader.ghost_name ≡ records.old.reader.ghost_name }
    ensures stays { records.new.walking ≡ records.old.walking }
    ensures reads { OnlyReads B.Store records.old.reader.now.store records.new.reader.now.store }
    ensures puts { (first : _) (key : List ℕ) → IsPart first maker.old key value.len [] long
        → OnOk result (PutsValue (B.image records.new.reader.now.store) first maker.new key value) }
    ensures fails { IfErr result (λ f. (limit : ℕ) (walk : Walked) → NotAdded L.WORD limit walk f) }
    ensures own { IfErr result IsOfMaking }
    ensures step { (first : _) (key : List ℕ) → IsPart first maker.old key value.len [] long
        → StepsOn first maker.new
        (B.failures records.old.reader.now.store < B.failures records.new.reader.now.store) ⊥ result }
{
    let end = value.place + value.len;
    while long.left() > 0 {
        let len = long.left().min(MOST as u64);
        let place = end - long.left();
        records.value_into(Span { place, len }, piece)?;
        maker.write_long(&mut long, piece)?;
    }
    maker.end_long(long);
    Ok(())
}

/// Adds the record of a walk that has no room in a window.
fn add_long_record<L: Width, S: Store, B: Store>(
    maker: &mut Maker<S, L>,
    records: &mut Walk<'_, B, L>,
    pair: Pair,
    room: &mut Room,
) -> Result<(), Fault>
    requires key { pair.key.place + pair.key.len ≤ B.size records.old.reader.now.store }
    requires value { pair.value.place + pair.value.len ≤ B.size records.old.reader.now.store }
    ensures same_reader { records.new.reader.ghost_name ≡ records.old.reader.ghost_name }
    ensures stays { records.new.walking ≡ records.old.walking }
    ensures reads { OnlyReads B.Store records.old.reader.now.store records.new.reader.now.store }
    ensures ok { OnOk result (AddsRecord (B.image records.new.reader.now.store) pair
        maker.old maker.new) }
    ensures fails { IfErr result (RecordNotAdded (B.image records.new.reader.now.store) pair
        maker.old maker.new) }
    ensures step { StepsOn maker.old maker.new
        (B.failures records.old.reader.now.store < B.failures records.new.reader.now.store) ⊥ result }
    ensures own { IfErr result IsOfMaking }
{
    records.value_into(pair.key, &mut room.key)?;
    if let Some(long) = maker.begin_long(&room.key, pair.value.len)? {
        return copy_value(maker, records, pair.value, &mut room.value, long);
    }
    records.value_into(pair.value, &mut room.value)?;
    maker.put(Mode::Add, &room.key, &room.value)?;
    Ok(())
}

/// Adds the next records of a walk: all that are whole in the window, as they are, or the next one
/// if it has no room there. Returns true if there were any.
fn add_next<L: Width, S: Store, B: Store>(
    maker: &mut Maker<S, L>,
    records: &mut Walk<'_, B, L>,
    room: &mut Room,
) -> Result<bool, Fault>
    ensures same_reader { records.new.reader.ghost_name ≡ records.old.reader.ghost_name }
    ensures reads { OnlyReads B.Store records.old.reader.now.store records.new.reader.now.store }
    ensures ok { IfOk result (λ more. AddsNext L.WORD (B.image records.new.reader.now.store)
        (λ b. left_of L.WORD b records.old) (λ b. left_of L.WORD b records.new)
        maker.old maker.new more) }
    ensures fewer { IfOk result (λ more. more ≡ true → bytes_left records.new < bytes_left records.old) }
    ensures fails { IfErr result (λ f. (rs : List KeyValue) → Holds maker.old rs → (b : List ℕ)
        → B.image records.new.reader.now.store b → WhereHonest (S.image (store_of maker.new))
        (NotAdded L.WORD (limit_of maker.old)
        (with_records rs (left_of L.WORD b records.old)) f)) }
    ensures step { StepsOn maker.old maker.new
        (B.failures records.old.reader.now.store < B.failures records.new.reader.now.store) ⊥ result }
    ensures own { IfErr result IsOfMaking }
{
    let n = records.records_into(&mut room.window)?;
    if n > 0 {
        maker.append(&room.window[..n])?;
        return Ok(true);
    }
    let Some(pair) = records.next()? else {
        return Ok(false);
    };
    add_long_record(maker, records, pair, room)?;
    Ok(true)
}

/// Adds all records of a database to a maker that holds none. They are copied as they are, by
/// windows.
fn add_records<L: Width, S: Store, B: Store>(
    alloc: Global,
    maker: &mut Maker<S, L>,
    reader: &mut Reader<B, L>,
) -> Result<(), Fault>
    ensures reads { OnlyReads B.Store reader.old.store reader.new.store }
    ensures ok { Holds maker.old [] → OnOk result
        (AddsBase L.WORD (B.image reader.new.store) maker.new) }
    ensures fails { Holds maker.old [] → IfErr result (λ f. (b : List ℕ)
        → B.image reader.new.store b → WhereHonest (S.image (store_of maker.new))
        (BaseFails L.WORD (limit_of maker.old) b f)) }
    ensures step { StepsOn maker.old maker.new
        (B.failures reader.old.store < B.failures reader.new.store) ⊥ result }
    ensures own { IfErr result IsOfMaking }
{
    let mut room = Room::new(alloc)?;
    // So all records are tagged, also if the first has no room in the window.
    maker.append(&[])?;
    let mut records = walk(reader);
    while add_next(maker, &mut records, &mut room)? {}
    Ok(())
}

/// Adds all records of a base, if there is one, to a maker that holds none. The base is returned.
pub(crate) fn add_base<L: Width, S: Store, B: Store>(
    alloc: Global,
    maker: &mut Maker<S, L>,
    base: Option<B>,
) -> (Option<B>, Result<(), Fault>)
    ensures hands { HandsBack B.Store base result.0 }
    ensures ok { Holds maker.old [] → OnOk result.1
        (HoldsBase L.WORD B.Store result.0 maker.new) }
    ensures fails { Holds maker.old [] → IfErr result.1 (λ f.
        BaseStopped L.WORD (limit_of maker.old) B.Store result.0 (S.image (store_of maker.new)) f) }
    ensures step { StepsOn maker.old maker.new (BaseHasFailed B.Store base result.0) ⊥ result.1 }
    ensures own { IfErr result.1 IsOfMaking }
{
    let Some(base) = base else {
        return (None, Ok(()));
    };
    let mut reader = match Reader::<B, L>::open(base) {
        Ok(reader) => reader,
        Err(unread) => return (Some(unread.store), Err(Fault::from(unread.fault))),
    };
    let added = add_records(alloc, maker, &mut reader);
    (Some(reader.into_store()), added)
}
