// A caller of cdb_read.
ghost use Rattle.std.specs.Prelude.{◌≡◌, ℕ, ◌≤◌, List, All, IfErr};
ghost use Rattle.std.specs.List.{concat};
ghost use Rattle.cdb_form.specs.Format.{file_size, KeyValue, IsRecord};
ghost use Rattle.cdb_form.specs.Views.KnownBytes.{Writes};
ghost use Rattle.cdb_make.specs.Views.Maker.{IsFile};
ghost use Rattle.cdb_read.specs.Lookup.{values_of};
ghost use Rattle.cdb_store.specs.Reads.{OnlyReads};
ghost use Rattle.cdb_read.specs.declared.fault.ReadFault.TheVariants.{Output};
ghost use Rattle.cdb_read.specs.Views.Reads.{CopyingFails};

use cdb_form::{Sink, Width};
use cdb_read::{ReadFault, Reader};
use cdb_store::Store;

/// Writes the values of a key in a database, one after the other.
///
/// A file that was made has no damage: the call fails with `Device` if the store failed, and with
/// `Output` if the writer failed. Either way the writer then holds a prefix of the values.
pub fn write_values<L: Width, S: Store, W: Sink>(
    reader: &mut Reader<S, L>,
    key: &[u8],
    w: &mut W,
) -> Result<(), ReadFault>
    ensures reads { OnlyReads S.Store reader.old.store reader.new.store }
    ensures values { (rs : List KeyValue) → All IsRecord rs → file_size L.WORD rs ≤ L.GREATEST
        → IsFile L.WORD rs (S.image reader.old.store)
        → (b : List ℕ) → S.image reader.new.store b
        → Writes result (W.contents w.old) (W.contents w.new) (concat (values_of key.now rs)) }
    ensures sound { (rs : List KeyValue) → All IsRecord rs → file_size L.WORD rs ≤ L.GREATEST
        → IsFile L.WORD rs (S.image reader.old.store)
        → (b : List ℕ) → S.image reader.new.store b
        → IfErr result (CopyingFails S.Store reader.old.store reader.new.store) }
    ensures failed { IfErr result (λ fault. fault ≡ Output → W.failed w.new) }
{
    let mut finder = reader.find(key);
    while let Some(span) = finder.next()? {
        finder.copy(span, w)?;
    }
    Ok(())
}
