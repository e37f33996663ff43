// The places of some records, in as few bytes as the width of a word allows.
ghost use Rattle.std.specs.Prelude.{◌≡◌, ◌+◌, ◌<◌, ◌≤◌, [], ◌∷◌, ◌++◌, length, take, get_or};
ghost use Rattle.std.specs.Prelude.{slice_set, true, false, vec_capacity, IfOk, OnOk, OnErr};

use crate::growth::reserve_one;
use cdb_form::Width;
use std::alloc::{AllocError, Global};
use std::marker::PhantomData;

/// The number of places that have the same upper half.
const HALF: u64 = 4294967296;

/// Returns true if places have an upper half.
fn is_wide<L: Width>() -> bool
    ensures wide { result ≡ true → L.WORD ≡ 8 }
    ensures narrow { result ≡ false → L.WORD ≡ 4 }
{
    L::WORD == 8
}

/// Places, in the order of their pushes: 4 bytes each, or 8 if words are wide.
#[derive(Drop)]
pub(crate) struct Places<L: Width> {
    /// The lower half of each place.
    lows: Vec<u32>,
    /// The upper half of each place, if words are wide.
    highs: Vec<u32>,
    width: PhantomData<L>,
    ghost narrow: { L.WORD ≡ 4 → highs.items ≡ [] },
    ghost wide: { L.WORD ≡ 8 → length highs.items ≡ length lows.items },
    ghost low_room: { length lows.items ≤ vec_capacity lows },
    ghost high_room: { length highs.items ≤ vec_capacity highs },
}

impl<L: Width> Places<L> {
    ghost use Rattle.cdb_make.specs.Views.Places.{places_in, places_room};

    /// Returns an empty list of places.
    pub(crate) fn new(alloc: Global) -> Places<L>
        ensures { places_in result ≡ [] }
    {
        Places {
            lows: Vec::new(alloc),
            highs: Vec::new(alloc),
            width: PhantomData,
        }
    }

    /// Returns an empty list of places, with room for `count`.
    pub(crate) fn with_room(alloc: Global, count: usize) -> Result<Places<L>, AllocError>
        ensures none { IfOk result (λ p. places_in p ≡ []) }
        ensures room { IfOk result (λ p. count ≤ places_room p) }
    {
        let upper = if is_wide::<L>() { count } else { 0 };
        Ok(Places {
            lows: Vec::with_capacity(alloc, count)?,
            highs: Vec::with_capacity(alloc, upper)?,
            width: PhantomData,
        })
    }

    /// Returns the number of places.
    pub(crate) fn len(&self) -> usize
        ensures { result ≡ length (places_in self.now) }
    {
        self.lows.len()
    }

    /// Returns place `n`.
    pub(crate) fn at(&self, n: usize) -> u64
        requires { n < length (places_in self.now) }
        ensures at { result ≡ get_or (places_in self.now) n result }
        ensures top { result ≤ L.TOP }
    {
        let low = u64::from(self.lows[n]);
        if is_wide::<L>() {
            low + u64::from(self.highs[n]) * HALF
        } else {
            low
        }
    }

    /// Returns the number of places that there can be before they take memory.
    pub(crate) fn room(&self) -> usize
        ensures { result ≡ places_room self.now }
    {
        if is_wide::<L>() {
            self.lows.capacity().min(self.highs.capacity())
        } else {
            self.lows.capacity()
        }
    }

    /// Makes room for one more place. If an allocation fails, the places stay.
    #[inline(always)]
    pub(crate) fn reserve(&mut self) -> Result<(), AllocError>
        ensures places { places_in self.new ≡ places_in self.old }
        ensures ok { OnOk result (length (places_in self.new) < places_room self.new) }
        ensures full { OnErr result (places_room self.old ≤ length (places_in self.old)) }
        ensures room { places_room self.old ≤ places_room self.new }
    {
        if is_wide::<L>() {
            reserve_one(&mut self.highs)?;
            reserve_one(&mut self.lows)
        } else {
            reserve_one(&mut self.lows)
        }
    }

    /// Adds a place. There is room for it.
    pub(crate) fn push(&mut self, place: u64)
        requires room { length (places_in self.old) < places_room self.old }
        requires fits { place ≤ L.TOP }
        ensures places { places_in self.new ≡ places_in self.old ++ place ∷ [] }
        ensures room { places_room self.new ≡ places_room self.old }
    {
        if is_wide::<L>() {
            self.highs.push_reserved((place / HALF) as u32);
            self.lows.push_reserved((place % HALF) as u32);
        } else {
            self.lows.push_reserved(place as u32);
        }
    }

    /// Replaces place `n` by another one.
    pub(crate) fn set(&mut self, n: usize, place: u64)
        requires within { n < length (places_in self.old) }
        requires fits { place ≤ L.TOP }
        ensures places { places_in self.new ≡ slice_set (places_in self.old) n place }
        ensures room { places_room self.new ≡ places_room self.old }
    {
        if is_wide::<L>() {
            self.highs[n] = (place / HALF) as u32;
            self.lows[n] = (place % HALF) as u32;
        } else {
            self.lows[n] = place as u32;
        }
    }

    /// Leaves the first `n` places, or all if they are fewer. The room stays.
    pub(crate) fn truncate(&mut self, n: usize)
        ensures places { places_in self.new ≡ take n (places_in self.old) }
        ensures room { places_room self.new ≡ places_room self.old }
    {
        self.lows.truncate(n);
        self.highs.truncate(n);
    }
}
