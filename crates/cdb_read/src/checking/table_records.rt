// The records of a walk whose keys have one table, as a check keeps them.
ghost use Rattle.std.specs.Prelude.{◌≡◌, ◌<◌, ◌^◌, [], OnOk, IfSome, MatchOption, length, get_or, replicate, slice_set, true, false, List, option_map};

use crate::checking::directory::Directory;
use cdb_form::{Slot, table_number};
use std::alloc::{AllocError, Global};

/// The records of one table, in the order of their places: 13 bytes each.
///
/// Places, hashes and marks are kept apart, so a search for a place reads little else.
#[derive(Drop)]
pub(crate) struct TableRecords {
    /// The place of each record, in bytes from the file's start.
    places: Vec<u64>,
    /// The hash of each record's key.
    hashes: Vec<u32>,
    /// For each record, true if a slot points to it.
    marks: Vec<bool>,
    ghost paired: { length hashes.items ≡ length places.items },
    ghost marked: { length marks.items ≡ length places.items },
}

impl TableRecords {
    ghost use Rattle.std.specs.List.{list_any};
    ghost use Rattle.std.specs.List.Sorted.{IsStrictlyIncreasing};
    ghost use Rattle.cdb_form.specs.Format.{WordPair};
    ghost use Rattle.cdb_form.specs.Views.Pairs.{slot_pair};
    ghost use Rattle.cdb_form.specs.declared.damage.Damage.TheVariants.{Unindexed};
    ghost use Rattle.cdb_read.specs.Sound.{first_of, is_same, lost_fault};
    ghost use Rattle.cdb_read.specs.Views.TableRecords.{entry_pairs, HasEntry, HasMore, Marks};
    ghost use Rattle.cdb_read.specs.Views.Check.{AreFresh};

    /// Returns a list without records.
    pub(crate) fn new(alloc: Global) -> TableRecords
        ensures entries { entry_pairs result ≡ [] }
        ensures marks { result.marks.items ≡ [] }
    {
        TableRecords {
            places: Vec::new(alloc),
            hashes: Vec::new(alloc),
            marks: Vec::new(alloc),
        }
    }

    /// Adds a record after the others. No slot points to it yet. If an allocation fails, the
    /// records stay.
    pub(crate) fn push(&mut self, place: u64, hash: u32) -> Result<(), AllocError>
        ensures { OnOk result (HasMore self.old self.new place hash) }
    {
        self.places.reserve(1)?;
        self.hashes.reserve(1)?;
        self.marks.reserve(1)?;
        self.places.push_reserved(place);
        self.hashes.push_reserved(hash);
        self.marks.push_reserved(false);
        Ok(())
    }

    /// Returns the number of records.
    pub(crate) fn len(&self) -> usize
        ensures { result ≡ length self.now.places.items }
    {
        self.places.len()
    }

    /// Returns the slot that points to record `k`.
    #[inline(always)]
    pub(crate) fn slot(&self, k: usize) -> Slot
        requires { k < length self.now.places.items }
        ensures place { result.place ≡ get_or self.now.places.items k 0 }
        ensures hash { result.hash ≡ get_or self.now.hashes.items k 0 }
        ensures small { result.hash < 2 ^ 32 }
    {
        Slot {
            hash: u64::from(self.hashes[k]),
            place: self.places[k],
        }
    }

    /// Returns true if all records have table `n` and places of at most `top`, and no slot points
    /// to one.
    pub(crate) fn are_fresh(&self, n: u64, top: u64) -> bool
        ensures { result ≡ true → AreFresh n top self.now }
    {
        for k in 0..self.places.len() {
            let is_of = table_number(u64::from(self.hashes[k])) as u64 == n;
            if !is_of || self.places[k] > top || self.marks[k] {
                return false;
            }
        }
        true
    }

    /// Notes that a slot points to each record.
    pub(crate) fn mark_all(&mut self)
        ensures places { self.new.places ≡ self.old.places }
        ensures hashes { self.new.hashes ≡ self.old.hashes }
        ensures marks { self.new.marks.items ≡ replicate (length self.old.marks.items) true }
    {
        self.marks.fill(true);
    }

    /// Returns a directory of the places.
    pub(crate) fn directory(&self, alloc: Global) -> Directory {
        Directory::of(alloc, &self.places)
    }

    /// Returns the number of the record that has the place and the hash of a slot.
    pub(crate) fn number_of(&self, directory: &Directory, slot: Slot) -> Option<usize>
        ensures within { IfSome result (λ k. k < length self.now.places.items) }
        ensures finds { IsStrictlyIncreasing self.now.places.items → MatchOption result
            (list_any (is_same (slot_pair slot)) (entry_pairs self.now) ≡ false)
            (HasEntry self.now slot) }
    {
        let between = directory.between(&self.places, slot.place);
        match self.places[between.from..between.to].binary_search(&slot.place) {
            Ok(at) => {
                let k = between.from + at;
                if u64::from(self.hashes[k]) == slot.hash {
                    Some(k)
                } else {
                    None
                }
            }
            Err(_) => None,
        }
    }

    /// Returns true if a slot points to record `k`.
    pub(crate) fn is_marked(&self, k: usize) -> bool
        requires { k < length self.now.places.items }
        ensures { result ≡ get_or self.now.marks.items k false }
    {
        self.marks[k]
    }

    /// Notes that a slot points to record `k`.
    pub(crate) fn mark(&mut self, k: usize)
        requires { k < length self.old.places.items }
        ensures places { self.new.places ≡ self.old.places }
        ensures hashes { self.new.hashes ≡ self.old.hashes }
        ensures marks { self.new.marks.items ≡ slice_set self.old.marks.items k true }
    {
        self.marks[k] = true;
    }

    /// Returns the place of the first record that no slot points to.
    pub(crate) fn first_unmarked(&self) -> Option<u64>
        ensures { (entries slots : List WordPair) → Marks self.now entries slots
            → option_map (λ place. Unindexed place) result
            ≡ first_of (lost_fault slots) entries }
    {
        for k in 0..self.places.len() {
            if !self.marks[k] {
                return Some(self.places[k]);
            }
        }
        None
    }
}
