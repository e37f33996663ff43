// How numbers lie: the least, the average and the greatest of them.
ghost use Rattle.std.specs.Prelude.{ℕ, ◌+◌, ◌*◌, ◌<◌, ◌≤◌, ◌≡◌, ◌++◌, [], ◌∷◌, List};

/// The count, the least, the greatest and the sum of some numbers. Without numbers all are 0.
#[derive(Clone, Copy)]
pub(crate) struct Spread {
    /// The count of the numbers.
    pub(crate) count: u64,
    /// The least number.
    pub(crate) least: u64,
    /// The greatest number.
    pub(crate) greatest: u64,
    /// The sum of the numbers.
    pub(crate) sum: u128,
    pub(crate) ghost bounded: { sum ≤ 18446744073709551615 * count },
}

impl Spread {
    ghost use Rattle.cdb_read.specs.Statistics.{average_of};
    ghost use Rattle.cdb_read.specs.Views.Stats.{Spreads};

    /// Returns the spread of no numbers.
    pub(crate) fn new() -> Spread
        ensures spreads { Spreads result [] }
        ensures count { result.count ≡ 0 }
    {
        Spread {
            count: 0,
            least: 0,
            greatest: 0,
            sum: 0,
        }
    }

    /// Counts one more number.
    pub(crate) fn count(&mut self, n: u64)
        requires room { self.old.count < 18446744073709551615 }
        ensures spreads { (ns : List ℕ) → Spreads self.old ns → Spreads self.new (ns ++ n ∷ []) }
        ensures count { self.new.count ≡ self.old.count + 1 }
    {
        let least = if self.count == 0 {
            n
        } else {
            self.least.min(n)
        };
        *self = Spread {
            count: self.count + 1,
            least,
            greatest: self.greatest.max(n),
            sum: self.sum + u128::from(n),
        };
    }

    /// Returns the average, rounded down, or 0 without numbers.
    pub(crate) fn average(&self) -> u64
        ensures { (ns : List ℕ) → Spreads self.now ns → result ≡ average_of ns }
    {
        if self.count == 0 {
            return 0;
        }
        (self.sum / u128::from(self.count)) as u64
    }
}
