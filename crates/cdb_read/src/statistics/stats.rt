// The counts of a database.
ghost use Rattle.std.specs.Prelude.{◌≡◌, ℕ, List};

use crate::statistics::distances::Distances;
use crate::statistics::lengths::Lengths;
use crate::statistics::spread::Spread;

/// Counts of what a database holds. A count of slots stops at the greatest number; the least, the
/// average and the greatest of nothing are 0, and an average is rounded down.
#[derive(Clone, Copy, Debug, PartialEq, Eq)]
pub struct Stats {
    /// The number of records.
    pub records: u64,
    /// The length of the shortest key.
    pub key_least: u64,
    /// The average length of a key.
    pub key_average: u64,
    /// The length of the longest key.
    pub key_greatest: u64,
    /// The length of the shortest value.
    pub value_least: u64,
    /// The average length of a value.
    pub value_average: u64,
    /// The length of the longest value.
    pub value_greatest: u64,
    /// The number of tables that have slots.
    pub tables: u64,
    /// The number of slots that are used.
    pub entries: u64,
    /// The number of used slots that lie elsewhere than where their searches begin.
    pub collisions: u64,
    /// The fewest slots of a table that has some.
    pub size_least: u64,
    /// The average number of slots of a table that has some.
    pub size_average: u64,
    /// The most slots of a table.
    pub size_greatest: u64,
    /// The number of used slots that lie at a distance of 0 to 9 slots from where their searches
    /// begin, and how many at 10 or more.
    pub distances: [u64; 11],
}

impl Stats {
    ghost use Rattle.cdb_read.specs.Statistics.{stats_of};
    ghost use Rattle.cdb_read.specs.Views.Stats.{Counts, Spreads};

    /// Returns the counts for these lengths of records, sizes of tables and distances of slots.
    pub(crate) fn from_counts(lengths: &Lengths, sizes: &Spread, distances: &Distances) -> Stats
        ensures { (keys values slots ds : List ℕ) → Spreads lengths.now.keys keys
            → Spreads lengths.now.values values → Spreads sizes.now slots
            → Counts distances.now ds → result ≡ stats_of keys values slots ds }
    {
        let Lengths { keys, values } = lengths;
        Stats {
            records: keys.count,
            key_least: keys.least,
            key_average: keys.average(),
            key_greatest: keys.greatest,
            value_least: values.least,
            value_average: values.average(),
            value_greatest: values.greatest,
            tables: sizes.count,
            entries: distances.entries,
            collisions: distances.collisions,
            size_least: sizes.least,
            size_average: sizes.average(),
            size_greatest: sizes.greatest,
            distances: distances.counts,
        }
    }
}
