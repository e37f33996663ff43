// The records of a walk, collected table by table.
ghost use Rattle.std.specs.Prelude.{◌≡◌, ℕ, List, IfOk, IfErr, length};
ghost use Rattle.cdb_read.specs.Views.Check.{CheckTells, HasEntries, WalkHas};
ghost use Rattle.cdb_store.specs.Reads.{OnlyReads};

use crate::checking::record_lists::{add_entry, no_lists};
use crate::checking::table_records::TableRecords;
use crate::fault::ReadFault;
use crate::reader::Reader;
use crate::walking::start::walk;
use cdb_form::Width;
use cdb_store::Store;
use std::alloc::Global;

/// Returns the place of each record, and the hash of its key, in the list of its table. None is
/// marked.
pub(crate) fn walk_entries<S: Store, L: Width>(
    alloc: Global,
    reader: &mut Reader<S, L>,
) -> Result<Vec<TableRecords>, ReadFault>
    ensures reads { OnlyReads S.Store reader.old.store reader.new.store }
    ensures head { reader.new.head ≡ reader.old.head }
    ensures many { IfOk result (λ lists. length lists.items ≡ 256) }
    ensures entries { (b : List ℕ) → S.image reader.new.store b
        → IfOk result (λ lists. HasEntries L.WORD b lists.items) }
    ensures fails { IfErr result
        (CheckTells S.Store (WalkHas L.WORD) reader.old.store reader.new.store) }
{
    let mut lists = no_lists(alloc)?;
    let mut records = walk(reader);
    while let Some(pair) = records.next()? {
        let hash = records.hash(pair.key)?;
        add_entry(&mut lists, pair.place, hash)?;
    }
    Ok(lists)
}
