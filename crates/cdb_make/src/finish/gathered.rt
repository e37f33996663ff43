// The entries that were gathered of a table.
ghost use Rattle.std.specs.Prelude.{◌≡◌, ◌<◌, ◌≤◌, [], ◌∷◌, ◌++◌, length, get_or, vec_capacity, IfOk};
ghost use Rattle.cdb_form.specs.Views.Pairs.{slot_pair, PairFits};
ghost use Rattle.cdb_make.specs.Views.Places.{places_in, places_room};

use crate::places::Places;
use cdb_form::{Slot, Width};
use std::alloc::{AllocError, Global};

/// The entries that were gathered of a table: 8 bytes each, or 12 if words are wide.
#[derive(Drop)]
pub(crate) struct Gathered<L: Width> {
    hashes: Vec<u32>,
    places: Places<L>,
    ghost paired: { length (places_in places) ≡ length hashes.items },
    ghost hash_room: { length hashes.items ≤ vec_capacity hashes },
    ghost place_room: { length (places_in places) ≤ places_room places },
}

impl<L: Width> Gathered<L> {
    ghost use Rattle.cdb_make.specs.Tables.{gathered_in, gathered_room};

    /// Returns an empty list, with room for `count` entries.
    pub(crate) fn with_room(alloc: Global, count: usize) -> Result<Gathered<L>, AllocError>
        ensures none { IfOk result (λ g. gathered_in g ≡ []) }
        ensures room { IfOk result (λ g. count ≤ gathered_room g) }
    {
        Ok(Gathered {
            hashes: Vec::with_capacity(alloc, count)?,
            places: Places::with_room(alloc, count)?,
        })
    }

    /// Returns the number of entries.
    pub(crate) fn len(&self) -> usize
        ensures { result ≡ length (gathered_in self.now) }
    {
        self.hashes.len()
    }

    /// Returns entry `n`.
    pub(crate) fn entry(&self, n: usize) -> Slot
        requires { n < length (gathered_in self.now) }
        ensures entry { slot_pair result ≡ get_or (gathered_in self.now) n (slot_pair result) }
        ensures fits { PairFits L.TOP (slot_pair result) }
    {
        let hash = u64::from(self.hashes[n]);
        let place = self.places.at(n);
        Slot { hash, place }
    }

    /// Leaves no entries. The room stays.
    pub(crate) fn clear(&mut self)
        ensures none { gathered_in self.new ≡ [] }
        ensures room { gathered_room self.new ≡ gathered_room self.old }
    {
        self.hashes.truncate(0);
        self.places.truncate(0);
    }

    /// Adds an entry. There is room for it.
    #[inline(always)]
    pub(crate) fn push(&mut self, hash: u32, place: u64)
        requires fits { place ≤ L.TOP }
        requires room { length (gathered_in self.old) < gathered_room self.old }
        ensures more { gathered_in self.new
            ≡ gathered_in self.old ++ record { first = hash; second = place } ∷ [] }
        ensures room { gathered_room self.new ≡ gathered_room self.old }
    {
        self.hashes.push_reserved(hash);
        self.places.push(place);
    }
}
