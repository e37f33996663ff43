// The lengths of the keys and the values of a database.
ghost use Rattle.std.specs.Prelude.{◌≡◌, ℕ, List, IfOk, IfErr};
ghost use Rattle.cdb_read.specs.Views.Reads.{HasLengths, LengthsFail};
ghost use Rattle.cdb_store.specs.Reads.{OnlyReads};

use crate::fault::ReadFault;
use crate::reader::Reader;
use crate::statistics::spread::Spread;
use crate::walking::start::walk;
use cdb_form::Width;
use cdb_store::Store;

/// The lengths of keys and values.
#[derive(Clone, Copy)]
pub(crate) struct Lengths {
    /// The lengths of the keys.
    pub(crate) keys: Spread,
    /// The lengths of the values.
    pub(crate) values: Spread,
}

/// Returns the lengths of the keys and the values of all records. No memory is allocated.
pub(crate) fn walk_lengths<S: Store, L: Width>(
    reader: &mut Reader<S, L>,
) -> Result<Lengths, ReadFault>
    ensures reads { OnlyReads S.Store reader.old.store reader.new.store }
    ensures head { reader.new.head ≡ reader.old.head }
    ensures lengths { (b : List ℕ) → S.image reader.new.store b
        → IfOk result (HasLengths L.WORD b) }
    ensures fails { IfErr result
        (LengthsFail L.WORD S.Store reader.old.store reader.new.store) }
{
    let mut keys = Spread::new();
    let mut values = Spread::new();
    let mut records = walk(reader);
    while let Some(pair) = records.next()? {
        keys.count(pair.key.len);
        values.count(pair.value.len);
    }
    Ok(Lengths { keys, values })
}
