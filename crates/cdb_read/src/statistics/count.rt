// Counts what a database holds.
ghost use Rattle.std.specs.Prelude.{ℕ, List, All, map, IfOk, IfErr};
ghost use Rattle.cdb_form.specs.Format.{head_at};
ghost use Rattle.cdb_form.specs.Views.Pairs.{pointer_pair};
ghost use Rattle.cdb_read.specs.Statistics.{distances_of};
ghost use Rattle.cdb_read.specs.Views.Stats.{Counts, HasStats, StatsFail};
ghost use Rattle.cdb_read.specs.Views.Spans.{StandsInside};
ghost use Rattle.cdb_store.specs.Reads.{OnlyReads};
ghost use Rattle.cdb_read.specs.Views.Reads.{StoreFails};

use crate::fault::ReadFault;
use crate::reader::Reader;
use crate::statistics::distances::Distances;
use crate::statistics::lengths::walk_lengths;
use crate::statistics::stats::Stats;
use crate::tables::{count_tables, first_outside, sizes_of};
use cdb_form::Width;
use cdb_store::Store;

impl<S: Store, L: Width> Reader<S, L> {
    /// Counts the used slots of all tables, which lie inside the file if they have slots.
    fn count_slots(&mut self) -> Result<Distances, ReadFault>
        requires inside { All (StandsInside L.WORD (S.size self.old.store))
            (map pointer_pair self.old.head.pointers) }
        ensures counts { (b : List ℕ) → S.image self.new.store b → IfOk result (λ distances.
            Counts distances (distances_of L.WORD b (head_at L.WORD b))) }
        ensures reads { OnlyReads S.Store self.old.store self.new.store }
        ensures fails { IfErr result (StoreFails S.Store self.old.store self.new.store) }
    {
        count_tables::<S, L>(&mut self.store, &self.head.pointers, &mut self.window)
    }
}

/// Counts what a database holds. Records and the slots of each table are read through the window,
/// and no memory is allocated.
///
/// It returns `Table` if a table with slots doesn't lie after the head and inside the file, the
/// first one by its number; else `Record` if no whole record is at a place; and `Device` if the
/// store failed. The reader stays as usable as it was.
pub fn stats<L: Width, S: Store>(reader: &mut Reader<S, L>) -> Result<Stats, ReadFault>
    ensures reads { OnlyReads S.Store reader.old.store reader.new.store }
    ensures counts { (b : List ℕ) → S.image reader.new.store b
        → IfOk result (HasStats L.WORD b) }
    ensures fails { IfErr result (StatsFail L.WORD S.Store reader.old.store reader.new.store) }
{
    let outside = first_outside::<L>(&reader.head.pointers, reader.store.len());
    if let Some(n) = outside {
        return Err(ReadFault::Table(n));
    }
    let lengths = walk_lengths(reader)?;
    let sizes = sizes_of(&reader.head.pointers);
    let distances = reader.count_slots()?;
    Ok(Stats::from_counts(&lengths, &sizes, &distances))
}
