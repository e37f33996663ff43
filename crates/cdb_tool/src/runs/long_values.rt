// A record of an input whose value is too long to wait is read in pieces. An added one goes to the
// store as it is read.
ghost use Rattle.std.specs.Prelude.{◌≡◌, ◌+◌, ◌<◌, ◌≤◌, ◌⊎◌, ◌^◌, ℕ, [], List, length, Ok, None, OnOk, OnErr, IfOk, IfErr, IfSome};
ghost use Rattle.cdb_form.specs.Format.{KeyValue, record_of};
ghost use Rattle.cdb_form.specs.declared.mode.Mode.TheVariants.{Add};
ghost use Rattle.cdb_make.specs.declared.answer.Put.TheVariants.{Added};
ghost use Rattle.cdb_make.specs.declared.maker.Maker.{Maker};
ghost use Rattle.cdb_make.specs.Views.Long.{FailsLong, IsPart};
ghost use Rattle.cdb_make.specs.Views.Maker.{Follows, HasNotFailed, Puts as PutsRecord, SameCounts};
ghost use Rattle.cdb_show.specs.Runs.InputTask.{progress};
ghost use Rattle.cdb_show.specs.declared.fault.Fault.TheVariants.{NoMemory};
ghost use Rattle.cdb_show.specs.declared.runs.item_reader.ItemReader.{ItemReader};
ghost use Rattle.cdb_show.specs.Views.ItemReader.{AmidValue};
ghost use Rattle.cdb_tool.specs.Runs.Batches.{HoldsBatch};
ghost use Rattle.cdb_tool.specs.Runs.LongValues.{HasTextFault, IsAmid, IsRead, LongItem, PutsLong, StopsAdding, StopsLong, long_item};
ghost use Rattle.cdb_tool.specs.Runs.Make.{StepsOn};

use crate::runs::batch::{Batch, MOST};
use crate::runs::make_input::{Met, Puts, put_mode, put_record};
use cdb_form::{Feeds, Sink, Width};
use cdb_make::{LongRecord, MakeFault, Maker, Mode};
use cdb_show::{Fault, ItemReader};
use cdb_store::Store;
use std::alloc::Global;

/// Reads a value of `vlen` bytes whole, a piece after the other. Its memory grows with the bytes that
/// come.
fn read_whole<L: Width, F: Feeds>(
    alloc: Global,
    items: &mut ItemReader<F, L>,
    input: u64,
    vlen: u64,
    piece: &mut [u8],
) -> Result<Vec<u8>, Fault>
    requires room { 0 < length piece.old }
    requires left { (it : LongItem F L) × (it.vlen ≡ vlen)
        × IsAmid L.GREATEST F.feed it items.old [] }
    ensures read { (it : LongItem F L) → it.vlen ≡ vlen → IsAmid L.GREATEST F.feed it items.old []
        → IfOk result (λ value. IsRead L.GREATEST F.feed it items.new value.items) }
    ensures fails { (it : LongItem F L) → it.input ≡ input → it.vlen ≡ vlen
        → IsAmid L.GREATEST F.feed it items.old [] → IfErr result (λ fault.
        HasTextFault L.GREATEST F.feed it items.new fault
        ⊎ ((fault ≡ NoMemory) × ((got : List ℕ) × IsAmid L.GREATEST F.feed it items.new got))) }
{
    let mut value = Vec::new(alloc);
    while (value.len() as u64) < vlen {
        let n = match items.read_value(piece, vlen - value.len() as u64) {
            Ok(n) => n,
            Err(fault) => return Err(Fault::of_text(input, fault)),
        };
        value.extend_from_slice(&piece[..n])?;
    }
    match items.end_value() {
        Ok(()) => Ok(value),
        Err(fault) => Err(Fault::of_text(input, fault)),
    }
}

/// Begins to add a record after the others of a maker, if it can be written in pieces.
fn begin_added<L: Width, S: Store>(
    maker: &mut Maker<S, L>,
    mode: Mode,
    key: &[u8],
    vlen: u64,
) -> Result<Option<LongRecord>, MakeFault>
    ensures begins { IfOk result (λ long. IfSome long (λ it. (mode ≡ Add)
        × IsPart maker.old maker.new key.now vlen [] it)) }
    ensures none { result ≡ Ok None → maker.new ≡ maker.old }
    ensures fails { IfErr result (FailsLong maker.old maker.new) }
    ensures follows { Follows maker.old maker.new }
    ensures fine { OnOk result (HasNotFailed maker.old maker.new) }
    ensures counts { OnErr result (SameCounts maker.old maker.new) }
{
    match mode {
        Mode::Add => maker.begin_long(key, vlen),
        Mode::Warn | Mode::Insert | Mode::Replace => Ok(None),
    }
}

/// Adds a record that was begun: its value is written as it is read.
fn add_long<L: Width, S: Store, F: Feeds>(
    maker: &mut Maker<S, L>,
    input: u64,
    items: &mut ItemReader<F, L>,
    mut long: LongRecord,
    piece: &mut [u8],
) -> Result<(), Fault>
    requires room { 0 < length piece.old }
    requires begun { (first : _) × (it : LongItem F L)
        × IsPart first maker.old it.key it.vlen [] long
        × IsAmid L.GREATEST F.feed it items.old [] }
    ensures puts { (first : _) (it : LongItem F L) → IsPart first maker.old it.key it.vlen [] long
        → IsAmid L.GREATEST F.feed it items.old [] → OnOk result ((value : List ℕ)
        × IsRead L.GREATEST F.feed it items.new value
        × PutsRecord first maker.new Add (record_of it.key value) Added) }
    ensures fails { (first : _) (it : LongItem F L) → it.input ≡ input
        → IsPart first maker.old it.key it.vlen [] long
        → IsAmid L.GREATEST F.feed it items.old []
        → IfErr result (StopsAdding L.GREATEST F.feed it items.new first maker.new) }
    ensures follows { Follows maker.old maker.new }
    ensures fine { OnOk result (HasNotFailed maker.old maker.new) }
    ensures counts { OnErr result (SameCounts maker.old maker.new) }
{
    while long.left() > 0 {
        let n = match items.read_value(piece, long.left()) {
            Ok(n) => n,
            Err(fault) => return Err(Fault::of_text(input, fault)),
        };
        maker.write_long(&mut long, &piece[..n])?;
    }
    if let Err(fault) = items.end_value() {
        return Err(Fault::of_text(input, fault));
    }
    maker.end_long(long);
    Ok(())
}

impl Puts<'_> {
    /// Puts a record after those that wait. Its key was read, and its value of `vlen` bytes is left
    /// in its text. It begins at `line` of its input.
    pub(super) fn put_long<L: Width, S: Store, F: Feeds, E: Sink>(
        &self,
        maker: &mut Maker<S, L>,
        input: u64,
        line: u64,
        batch: &mut Batch<L>,
        items: &mut ItemReader<F, L>,
        key: &[u8],
        vlen: u64,
        errors: &mut E,
    ) -> Result<(), Fault>
        requires holds { (rs : List KeyValue) × HoldsBatch L.WORD L.TOP batch.old rs }
        requires few { batch.old.done + batch.old.count ≤ 2 ^ 48 }
        requires left { (first : ItemReader F L)
            × AmidValue L.GREATEST F.feed first items.old key.now vlen [] }
        ensures puts { (first : ItemReader F L)
            → AmidValue L.GREATEST F.feed first items.old key.now vlen []
            → OnOk result (PutsLong self.now.options L.GREATEST F.feed
            (long_item input first key.now vlen) items.new batch.old batch.new
            (progress (E.contents errors.old) maker.old)
            (progress (E.contents errors.new) maker.new)) }
        ensures fails { (first : ItemReader F L)
            → AmidValue L.GREATEST F.feed first items.old key.now vlen []
            → IfErr result (StopsLong self.now.options L.GREATEST F.feed
            (long_item input first key.now vlen) items.new batch.old
            (progress (E.contents errors.old) maker.old)
            (progress (E.contents errors.new) maker.new)) }
        ensures step { StepsOn maker.old maker.new ⊥ (E.failed errors.new) result }
    {
        self.put_waiting(maker, input, line, batch, errors)?;
        batch.reserve(MOST)?;
        batch.done += 1;
        let mode = put_mode(&self.options.make);
        if let Some(long) = begin_added(maker, mode, key, vlen)? {
            return add_long(maker, input, items, long, &mut batch.bytes);
        }
        let value = read_whole(self.context.alloc, items, input, vlen, &mut batch.bytes)?;
        let met = Met {
            options: &self.options,
            mode,
            input,
            number: batch.done,
            line,
        };
        put_record(maker, met, key, &value, errors)
    }
}
