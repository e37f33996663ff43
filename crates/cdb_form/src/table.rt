// One table, filled in its own bytes.
ghost use Rattle.std.specs.Prelude.{◌≡◌, ◌+◌, ◌%◌, ◌<◌, ◌≤◌, length, drop, get_or, min};
ghost use Rattle.std.specs.List.{prefix_len};
ghost use Rattle.cdb_form.specs.Format.{is_used, slots_from, slots_with, empty_slot};
ghost use Rattle.cdb_form.specs.Views.Pairs.{slot_pair, PairFits, IsRun, AreRuns, slots_in};

use crate::key_hash::home_slot;
use crate::pair::pair_size;
use crate::slot::{Slot, write_slot};
use crate::width::Width;

/// Returns true if a slot of a table's bytes is used.
#[inline(always)]
fn is_used<L: Width>(bytes: &[u8], at: usize) -> bool
    requires { at < length (slots_in L.WORD bytes.now) }
    ensures { result ≡ is_used (get_or (slots_in L.WORD bytes.now) at empty_slot) }
{
    let size = pair_size::<L>();
    let slot = &bytes[size * at..size * at + size];
    L::read_word(&slot[L::WORD..]) != 0
}

/// Returns the number of slots, starting at `at`, that are known to be used: none if `at` is empty,
/// or past the last slot.
#[inline(always)]
fn run_at<L: Width>(bytes: &[u8], runs: &[u32], at: usize) -> usize
    requires long { length runs.now ≡ length (slots_in L.WORD bytes.now) }
    requires runs { AreRuns runs.now (slots_in L.WORD bytes.now) }
    ensures run { IsRun at result (slots_in L.WORD bytes.now) }
    ensures none { result ≡ 0 → prefix_len is_used (drop at (slots_in L.WORD bytes.now)) ≡ 0 }
{
    if at < runs.len() && is_used::<L>(bytes, at) {
        (runs[at] as usize).max(1)
    } else {
        0
    }
}

/// Returns the note for a run of used slots: their number, or the greatest that 32 bits hold.
#[inline(always)]
fn noted(run: usize) -> u32
    ensures { result ≡ min run 4294967295 }
{
    run.min(u32::MAX as usize) as u32
}

/// Returns the first empty slot at or after `from`, or the number of slots. It joins the runs that
/// it passes two by two, so the next search takes fewer steps.
#[inline(always)]
fn next_empty<L: Width>(bytes: &[u8], runs: &mut [u32], from: usize) -> usize
    requires long { length runs.old ≡ length (slots_in L.WORD bytes.now) }
    requires runs { AreRuns runs.old (slots_in L.WORD bytes.now) }
    requires from { from ≤ length (slots_in L.WORD bytes.now) }
    ensures first { result
        ≡ from + prefix_len is_used (drop from (slots_in L.WORD bytes.now)) }
    ensures within { result ≤ length (slots_in L.WORD bytes.now) }
    ensures runs { AreRuns runs.new (slots_in L.WORD bytes.now) }
{
    let mut at = from;
    let mut run = run_at::<L>(bytes, runs, at);
    while run > 0 {
        let joined = run + run_at::<L>(bytes, runs, at + run);
        runs[at] = noted(joined);
        at += joined;
        run = run_at::<L>(bytes, runs, at);
    }
    at
}

/// Returns the first empty slot at or after `home`, or else the first before it; `home` if none is.
#[inline(always)]
fn first_empty<L: Width>(bytes: &[u8], runs: &mut [u32], home: usize) -> usize
    requires long { length runs.old ≡ length (slots_in L.WORD bytes.now) }
    requires runs { AreRuns runs.old (slots_in L.WORD bytes.now) }
    requires home { home < length (slots_in L.WORD bytes.now) }
    ensures within { result < length (slots_in L.WORD bytes.now) }
    ensures first { result
        ≡ (home + prefix_len is_used (slots_from home (slots_in L.WORD bytes.now)))
        % length (slots_in L.WORD bytes.now) }
    ensures runs { AreRuns runs.new (slots_in L.WORD bytes.now) }
{
    if !is_used::<L>(bytes, home) {
        return home;
    }
    let behind = next_empty::<L>(bytes, runs, home);
    if behind < runs.len() {
        behind
    } else {
        next_empty::<L>(bytes, runs, 0).min(home)
    }
}

/// Writes an entry into the first empty slot from its home, as Bernstein's cdb specification says.
///
/// `bytes` is a table with at least one slot, and `runs` has a number for each slot: in a table
/// without entries all bytes and all numbers are 0. The calls note in `runs` the lengths of runs of
/// used slots, so a search passes a run in one step.
#[inline(always)]
pub fn put_entry<L: Width>(bytes: &mut [u8], runs: &mut [u32], entry: Slot)
    requires some { 0 < length (slots_in L.WORD bytes.old) }
    requires long { length runs.old ≡ length (slots_in L.WORD bytes.old) }
    requires runs { AreRuns runs.old (slots_in L.WORD bytes.old) }
    requires fits { PairFits L.TOP (slot_pair entry) }
    ensures put { slots_in L.WORD bytes.new
        ≡ slots_with (slots_in L.WORD bytes.old) (slot_pair entry) }
    ensures runs { AreRuns runs.new (slots_in L.WORD bytes.new) }
{
    let size = pair_size::<L>();
    let home = home_slot(entry.hash, runs.len() as u64);
    let place = first_empty::<L>(bytes, runs, home as usize);
    if is_used::<L>(bytes, place) {
        // No slot is empty, and the entry takes the place of another.
        runs.fill(0);
    } else {
        runs[place] = 0;
    }
    write_slot::<L>(entry, &mut bytes[size * place..size * place + size]);
}
