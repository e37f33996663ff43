// A directory of rising places, which shortens the search for a place.
ghost use Rattle.std.specs.Prelude.{◌≡◌, ℕ, ◌<◌, ◌≤◌, length, get_or, true};
ghost use Rattle.std.specs.List.Sorted.{IsStrictlyIncreasing};

use std::alloc::{AllocError, Global};

/// The numbers that are at least `from` and less than `to`.
#[derive(Clone, Copy)]
pub(crate) struct Between {
    pub(crate) from: usize,
    pub(crate) to: usize,
}

/// The number of the first place in each bucket, for places that rise. All buckets have the same
/// number of bytes.
///
/// It shortens a search and decides nothing: its answers are compared with the places.
#[derive(Drop)]
pub(crate) struct Directory {
    /// For each bucket the number of the first place in it or after it, and last the number of
    /// places.
    firsts: Vec<usize>,
    /// A bucket has 2 to the power of `shift` bytes.
    shift: u32,
    ghost short: { shift < 64 },
}

/// Returns the number of the first place of each bucket. Without places there are no buckets.
fn firsts_of(alloc: Global, places: &[u64], shift: u32) -> Result<Vec<usize>, AllocError>
    requires { shift < 64 }
{
    let mut firsts = Vec::new(alloc);
    if places.is_empty() {
        return Ok(firsts);
    }
    firsts.reserve(places.len() / 2 + 3)?;
    for k in 0..places.len() {
        let buckets = ((places[k] >> shift) as usize).saturating_add(1);
        if firsts.len() < buckets {
            firsts.resize(buckets, k)?;
        }
    }
    firsts.push(places.len())?;
    Ok(firsts)
}

impl Directory {
    /// Returns the directory of some places: 4 bytes a place. If they are spread evenly, a bucket
    /// has two to four of them. If an allocation fails the directory is empty, and a search goes
    /// through all places.
    pub(crate) fn of(alloc: Global, places: &[u64]) -> Directory {
        let most = places.last().copied().unwrap_or(0);
        let bytes = most / (places.len() as u64 / 4 + 1);
        let shift = 63 - (bytes | 1).leading_zeros().min(63);
        let firsts = match firsts_of(alloc, places, shift) {
            Ok(firsts) => firsts,
            Err(_) => Vec::new(alloc),
        };
        Directory { firsts, shift }
    }

    /// Returns a range that holds the number of a place, if it is one of these places.
    pub(crate) fn between(&self, places: &[u64], place: u64) -> Between
        ensures within { (result.from ≤ result.to) × (result.to ≤ length places.now) }
        ensures holds { IsStrictlyIncreasing places.now → (k : ℕ) → k < length places.now
            → get_or places.now k 0 ≡ place → (result.from ≤ k) × (k < result.to) }
    {
        let bucket = (place >> self.shift) as usize;
        if bucket < self.firsts.len() && self.firsts.len() - bucket > 1 {
            let from = self.firsts[bucket];
            let to = self.firsts[bucket + 1];
            if from <= to && is_below(places, from, place) && is_above(places, to, place) {
                return Between { from, to };
            }
        }
        Between {
            from: 0,
            to: places.len(),
        }
    }
}

/// Returns true if the places before number `n` are below a place.
fn is_below(places: &[u64], n: usize, place: u64) -> bool
    ensures { result ≡ true → IsStrictlyIncreasing places.now → (k : ℕ) → k < n
        → get_or places.now k 0 ≡ place → ⊥ }
{
    n == 0 || (n <= places.len() && places[n - 1] < place)
}

/// Returns true if place number `n` and those after it are above a place.
fn is_above(places: &[u64], n: usize, place: u64) -> bool
    ensures within { result ≡ true → n ≤ length places.now }
    ensures above { result ≡ true → IsStrictlyIncreasing places.now → (k : ℕ) → n ≤ k
        → k < length places.now → get_or places.now k 0 ≡ place → ⊥ }
{
    n == places.len() || (n < places.len() && place < places[n])
}
