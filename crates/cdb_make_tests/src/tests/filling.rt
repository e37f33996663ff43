//! Tables with long runs of used slots, beside tables that are filled slot by slot.
use super::drawn::draw;
use super::makers::{finished, maker_in};
use super::scripts::words;
use cdb_form::{Narrow, hash};
use cdb_make::{Maker, Mode};
use cdb_store::{MemStore, Store};
use std::alloc::Global;
use std::prelude::*;
use std::test::Fail;

/// Some drawn keys of one table, at most 16.
fn keys_of_a_table(alloc: Global, state: &mut u64) -> Result<Vec<[u8; 4]>, Fail> {
    let mut keys = Vec::new(alloc);
    for _ in 0..4096u32 {
        let key = ((draw(state) >> 32) as u32).to_le_bytes();
        if hash(&key) % 256 == 7 && keys.len() < 16 {
            keys.push(key)?;
        }
    }
    Ok(keys)
}

/// The first empty slot from home on, and round to it.
fn empty_from(slots: &[(u32, u32)], home: usize) -> usize {
    for step in 0..slots.len() {
        let n = home.wrapping_add(step) % slots.len().max(1);
        if slots.get(n).is_some_and(|slot| slot.1 == 0) {
            return n;
        }
    }
    slots.len()
}

/// The words of a table of these entries, filled slot by slot.
fn filled(alloc: Global, entries: &[(u32, u32)]) -> Result<Vec<u32>, Fail> {
    let mut slots = Vec::new(alloc);
    for _ in 0..entries.len().saturating_mul(2) {
        slots.push((0u32, 0u32))?;
    }
    for entry in entries {
        let home = (entry.0 / 256) as usize % slots.len().max(1);
        let n = empty_from(&slots, home);
        if let Some(slot) = slots.get_mut(n) {
            *slot = *entry;
        }
    }
    let mut words = Vec::new(alloc);
    for slot in slots.iter() {
        words.push(slot.0)?;
        words.push(slot.1)?;
    }
    Ok(words)
}

/// Returns true if the table of some records with drawn keys is the one that is filled slot by
/// slot.
fn is_filled(alloc: Global, state: &mut u64) -> Result<bool, Fail> {
    let keys = keys_of_a_table(alloc, state)?;
    let mut maker: Maker<MemStore, Narrow> = maker_in(alloc, MemStore::new(alloc))?;
    let mut entries = Vec::new(alloc);
    for _ in 0..draw(state) % 200 {
        let n = (draw(state) >> 32) as usize % keys.len().max(1);
        let key = keys.get(n).copied().unwrap_or([0; 4]);
        let place = u32::try_from(maker.store().len()).unwrap_or(0);
        entries.push((hash(&key), place))?;
        maker.put(Mode::Add, &key, b"")?;
    }
    let end = maker.store().len() as usize;
    let file = finished(maker)?.into_vec();
    let wanted = filled(alloc, &entries)?;
    Ok(words(&file, end, &wanted))
}

#[test]
fn long_runs_of_used_slots_are_filled_in_order(rt: HostRuntime) -> Result<(), Fail> {
    let mut state = 0x243f6a8885a308d3;
    for _ in 0..40u32 {
        assert!(rt; is_filled(rt.alloc(), &mut state)?);
    }
    Ok(())
}
