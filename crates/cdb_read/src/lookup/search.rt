// The search of a key in a table.
ghost use Rattle.std.specs.Prelude.{◌≡◌, ℕ, ◌<◌, ◌^◌, List, IfOk, IfErr};
ghost use Rattle.cdb_form.specs.Format.{key_hash};
ghost use Rattle.cdb_form.specs.Views.Pairs.{slot_pair};
ghost use Rattle.cdb_store.specs.Reads.{OnlyReads};
ghost use Rattle.cdb_read.specs.Views.Reads.{StoreFails};
ghost use Rattle.cdb_read.specs.Views.Search.{probe_slot, ProbedFrom, ProbedWithin, Meets, MetWithin, ProbeInside};
ghost use Rattle.cdb_read.specs.Views.Window.{Shows};

use crate::fault::ReadFault;
use crate::lookup::key_at::{Look, look_at};
use crate::lookup::probe::Probe;
use crate::span::Span;
use crate::tables::slot_at;
use crate::window::Window;
use cdb_form::{Slot, Width};
use cdb_store::Store;

/// The number of bytes of slots that are read at a time, if no more are to be read ahead.
const SLOTS_AHEAD: usize = 64;

/// The result of one probe of a search.
#[derive(Clone, Copy)]
pub enum Probed {
    /// The slot is empty, and ends the search.
    Empty,
    /// The slot's record has another key.
    Passed,
    /// The slot's record has the key, and this value.
    Value(Span),
    /// The slot points to this place, where no whole record is.
    Broken(u64),
}

/// The result of some probes of a search.
#[derive(Clone, Copy)]
pub enum Met {
    /// No slot is left.
    End,
    /// A value, and the probe after it.
    Value(Span, Probe),
    /// No whole record is at this place.
    Broken(u64),
}

/// Returns the slot of a probe.
fn read_probe<S: Store, L: Width>(
    store: &mut S,
    probe: Probe,
    window: &mut Window,
    ahead: usize,
) -> Result<Slot, ReadFault>
    requires inside { ProbeInside L.WORD (S.size store.old) probe }
    requires fits { S.size store.old < 2 ^ 64 }
    requires shows { Shows window.old (S.image store.old) }
    ensures shows { Shows window.new (S.image store.new) }
    ensures read { (b : List ℕ) → S.image store.new b
        → IfOk result (λ slot. slot_pair slot ≡ probe_slot L.WORD b probe) }
    ensures reads { OnlyReads S.Store store.old store.new }
    ensures fails { IfErr result (StoreFails S.Store store.old store.new) }
{
    slot_at::<S, L>(
        store,
        probe.table,
        probe.slot,
        window,
        SLOTS_AHEAD.max(ahead),
    )
}

/// Makes one probe of the search of a key, which has this hash.
fn make_probe<S: Store, L: Width>(
    store: &mut S,
    probe: Probe,
    key: &[u8],
    hash: u64,
    slots: &mut Window,
    window: &mut Window,
    ahead: usize,
) -> Result<Probed, ReadFault>
    requires inside { ProbeInside L.WORD (S.size store.old) probe }
    requires left { 0 < probe.left }
    requires hash { hash ≡ key_hash key.now }
    requires fits { S.size store.old < 2 ^ 64 }
    requires shows { Shows window.old (S.image store.old) }
    requires slots { Shows slots.old (S.image store.old) }
    ensures shows { Shows window.new (S.image store.new) }
    ensures slots { Shows slots.new (S.image store.new) }
    ensures steps { IfOk result (λ step. ProbedFrom L.WORD key.now probe step (S.image store.new)) }
    ensures within { IfOk result (ProbedWithin (S.size store.new)) }
    ensures reads { OnlyReads S.Store store.old store.new }
    ensures fails { IfErr result (StoreFails S.Store store.old store.new) }
{
    let slot = read_probe::<S, L>(store, probe, slots, ahead)?;
    if slot.place == 0 {
        return Ok(Probed::Empty);
    }
    if slot.hash != hash {
        return Ok(Probed::Passed);
    }
    match look_at::<S, L>(store, slot.place, key, window, ahead)? {
        Look::Broken => Ok(Probed::Broken(slot.place)),
        Look::Other => Ok(Probed::Passed),
        Look::Value(span) => Ok(Probed::Value(span)),
    }
}

/// Searches a key, which has this hash, starting at a probe, up to its next value. Slots are read
/// through `slots` and records through `window`, `ahead` bytes at a time if fewer are needed.
#[inline(always)]
pub(crate) fn next_met<S: Store, L: Width>(
    store: &mut S,
    from: Probe,
    key: &[u8],
    hash: u64,
    slots: &mut Window,
    window: &mut Window,
    ahead: usize,
) -> Result<Met, ReadFault>
    requires inside { ProbeInside L.WORD (S.size store.old) from }
    requires hash { hash ≡ key_hash key.now }
    requires fits { S.size store.old < 2 ^ 64 }
    requires shows { Shows window.old (S.image store.old) }
    requires slots { Shows slots.old (S.image store.old) }
    ensures shows { Shows window.new (S.image store.new) }
    ensures slots { Shows slots.new (S.image store.new) }
    ensures meets { IfOk result (λ met. Meets L.WORD key.now from met (S.image store.new)) }
    ensures within { IfOk result (MetWithin L.WORD (S.size store.new) from) }
    ensures reads { OnlyReads S.Store store.old store.new }
    ensures fails { IfErr result (StoreFails S.Store store.old store.new) }
{
    let mut probe = from;
    while probe.left > 0 {
        match make_probe::<S, L>(store, probe, key, hash, slots, window, ahead)? {
            Probed::Empty => return Ok(Met::End),
            Probed::Passed => probe = probe.next(),
            Probed::Value(span) => return Ok(Met::Value(span, probe.next())),
            Probed::Broken(place) => return Ok(Met::Broken(place)),
        }
    }
    Ok(Met::End)
}
