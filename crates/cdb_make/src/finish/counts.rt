// The number of entries that each table has.
ghost use Rattle.std.specs.Prelude.{◌≡◌, ℕ, ◌+◌, ◌*◌, ◌<◌, ◌≤◌, length, map, get_or, All};
ghost use Rattle.cdb_make.specs.Tables.{roll_tables};

use crate::finish::gather::{GROUPS, TABLES};
use crate::roll::Roll;
use cdb_form::{Width, table_number};

/// Returns the number of entries that each table has.
pub(crate) fn counts_of<L: Width>(roll: &Roll<L>) -> [usize; 256]
    ensures { result ≡ map length (roll_tables roll.now) }
{
    let mut counts = [0usize; 256];
    for n in 0..roll.len() {
        counts[table_number(u64::from(roll.hashes[n]))] += 1;
    }
    counts
}

/// Returns the greatest of some counts.
pub(crate) fn longest(counts: &[usize]) -> usize
    ensures most { All (λ count. count ≤ result) counts.now }
    ensures least { (most : ℕ) → All (λ count. count ≤ most) counts.now → result ≤ most }
{
    let mut most = 0;
    for count in counts {
        most = most.max(*count);
    }
    most
}

/// Returns the greatest of the counts of table `n` and of every 32nd table after it.
pub(crate) fn most_of(counts: &[usize], n: usize) -> usize
    requires long { length counts.now ≡ 256 }
    requires within { n < 32 }
    ensures { (group : ℕ) → group < 8 → get_or counts.now (32 * group + n) 0 ≤ result }
{
    let mut most = 0;
    for group in 0..GROUPS {
        most = most.max(counts[TABLES * group + n]);
    }
    most
}
