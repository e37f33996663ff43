// The distances of used slots from the slots where their searches begin.
ghost use Rattle.std.specs.Prelude.{ℕ, ◌++◌, [], ◌∷◌, List};

/// The number of distances that are counted apart: 0 to 9, and 10 or more.
pub(crate) const DISTANCES: usize = 11;

/// Counts of used slots. Each count stops at the greatest number.
#[derive(Clone, Copy)]
pub(crate) struct Distances {
    /// The number of used slots.
    pub(crate) entries: u64,
    /// The number of used slots that lie elsewhere than where their searches begin.
    pub(crate) collisions: u64,
    /// The number of used slots at each distance. The last one includes all greater distances.
    pub(crate) counts: [u64; DISTANCES],
}

impl Distances {
    ghost use Rattle.cdb_read.specs.Views.Stats.{Counts};

    /// Returns the counts of no slots.
    pub(crate) fn new() -> Distances
        ensures { Counts result [] }
    {
        Distances {
            entries: 0,
            collisions: 0,
            counts: [0; DISTANCES],
        }
    }

    /// Counts one more used slot, at this distance.
    pub(crate) fn count(&mut self, distance: u64)
        ensures { (ds : List ℕ) → Counts self.old ds → Counts self.new (ds ++ distance ∷ []) }
    {
        let class = distance.min(10) as usize;
        self.entries = self.entries.saturating_add(1);
        if distance != 0 {
            self.collisions = self.collisions.saturating_add(1);
        }
        self.counts[class] = self.counts[class].saturating_add(1);
    }
}
