// The head of a base, which is read before anything is made.
ghost use Rattle.cdb_show.specs.Views.Output.{OutputSays};
ghost use Rattle.cdb.specs.Creating.{SeesBase, SeesHead};
ghost use Rattle.cdb.specs.Reasons.{HasReason, store_reasons};
ghost use Rattle.cdb_system.specs.Answered.{if_some};
ghost use Rattle.std.specs.Prelude.{IfErr, [], ◌∷◌};

use cdb_form::Width;
use cdb_read::Reader;
use cdb_store::Store;
use cdb_tool::Fault;

/// Reads the head of a base, and returns the base.
// Inlined, it leaves the room of a reader on the stack of the whole create.
#[inline(never)]
fn see_head<L: Width, F: Store>(base: F) -> (F, Result<(), Fault>)
    ensures sees { SeesHead L.WORD F.Store base result.0 result.1 }
    ensures reason { IfErr result.1 (HasReason (store_reasons F.Store (result.0 ∷ []) ⊥)) }
    ensures output { OutputSays ⊥ result.1 }
{
    let reader = match Reader::<F, L>::open(base) {
        Ok(reader) => reader,
        Err(unread) => return (unread.store, Err(Fault::from(unread.fault))),
    };
    let lacks = reader.lacks_tables();
    let base = reader.into_store();
    if lacks {
        return (base, Err(Fault::NoBaseTables));
    }
    (base, Ok(()))
}

/// Reads the head of a base, if there is one, and returns the base.
///
/// `Read(Short)`: it is shorter than its head. `NoBaseTables`: no table has slots, though bytes
/// follow the head. Its words may have the other width, and then a run would find no record in it.
/// `Read(Device)`: its store failed.
pub(crate) fn see_base<L: Width, F: Store>(base: Option<F>) -> (Option<F>, Result<(), Fault>)
    ensures sees { SeesBase L.WORD F.Store base result.0 result.1 }
    ensures reason { IfErr result.1 (HasReason (store_reasons F.Store (if_some result.0) ⊥)) }
    ensures output { OutputSays ⊥ result.1 }
{
    match base {
        Some(base) => {
            let (base, seen) = see_head::<L, F>(base);
            (Some(base), seen)
        }
        None => (None, Ok(())),
    }
}
