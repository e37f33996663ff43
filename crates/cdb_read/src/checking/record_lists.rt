// The records of a walk, table by table.
ghost use Rattle.std.specs.Prelude.{◌≡◌, [], List, IfOk, OnOk, length, option_map};
ghost use Rattle.cdb_form.specs.Format.{WordPair};
ghost use Rattle.cdb_form.specs.declared.damage.Damage.TheVariants.{Unindexed};
ghost use Rattle.cdb_read.specs.Sound.{first_of, lost_fault};
ghost use Rattle.cdb_read.specs.Views.RecordLists.{earlier_of, HasAdded, ListsMark};

use crate::checking::table_records::TableRecords;
use cdb_form::table_number;
use std::alloc::{AllocError, Global};

/// Returns 256 lists without records, one for each table.
pub(crate) fn no_lists(alloc: Global) -> Result<Vec<TableRecords>, AllocError>
    ensures { IfOk result (λ lists. ListsMark lists.items [] []) }
{
    let mut lists = Vec::new(alloc);
    for _ in 0..256usize {
        lists.push(TableRecords::new(alloc))?;
    }
    Ok(lists)
}

/// Adds a record to the list of its table. No slot points to it yet.
pub(crate) fn add_entry(
    lists: &mut Vec<TableRecords>,
    place: u64,
    hash: u32,
) -> Result<(), AllocError>
    requires { length lists.old.items ≡ 256 }
    ensures many { length lists.new.items ≡ 256 }
    ensures more { OnOk result
        (HasAdded lists.old.items lists.new.items (record { first = hash; second = place })) }
{
    lists[table_number(u64::from(hash))].push(place, hash)
}

/// Returns the lesser of two places, if there are any.
fn earlier(first: Option<u64>, other: Option<u64>) -> Option<u64>
    ensures { result ≡ earlier_of first other }
{
    match (first, other) {
        (Some(a), Some(b)) => Some(a.min(b)),
        (Some(a), None) => Some(a),
        (None, b) => b,
    }
}

/// Returns the place of the first record that no slot points to.
pub(crate) fn first_unmarked(lists: &[TableRecords]) -> Option<u64>
    ensures { (entries slots : List WordPair) → ListsMark lists.now entries slots
        → option_map (λ place. Unindexed place) result ≡ first_of (lost_fault slots) entries }
{
    let mut first = None;
    for list in lists {
        first = earlier(first, list.first_unmarked());
    }
    first
}
