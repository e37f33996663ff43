// A caller of cdb_make: a record is put, or every record of a key is taken out.
ghost use Rattle.std.specs.Prelude.{◌≡◌, false, List};
ghost use Rattle.cdb_form.specs.Format.{KeyValue};
ghost use Rattle.cdb_make.specs.Views.Maker.{is_lazy};
ghost use Rattle.cdb_files.specs.Callers.{HoldsWhole, TriesCall, call_of};

use cdb_form::{Record, Width};
use cdb_make::{MakeFault, Maker, Mode};
use cdb_store::Store;

/// A change of the records of a database.
#[derive(Debug, Drop)]
pub enum Edit {
    /// A record is put: the mode says what is done if its key is there already.
    Put(Mode, Record),
    /// Every record of a key is taken out.
    Remove(Vec<u8>),
}

/// Makes a change to a maker that takes records out immediately. Returns the fault, if the change
/// was refused.
pub(crate) fn make_edit<S: Store, L: Width>(
    maker: &mut Maker<S, L>,
    change: &Edit,
) -> Option<MakeFault>
    requires { is_lazy maker.old ≡ false }
    ensures { (rs : List KeyValue) → HoldsWhole maker.old rs
        → TriesCall maker.old maker.new rs (call_of change.now) result }
{
    match change {
        Edit::Put(mode, pair) => maker.put(*mode, &pair.key, &pair.value).err(),
        Edit::Remove(key) => maker.remove(key).err(),
    }
}
