// The check of a database.
ghost use Rattle.std.specs.Prelude.{OnOk, IfErr};
ghost use Rattle.cdb_store.specs.Reads.{OnlyReads};
ghost use Rattle.cdb_show.specs.Runs.Stats.{FindsSound, CheckingFails};

use crate::fault::Fault;
use cdb_form::Width;
use cdb_read::{Reader, check};
use cdb_store::Store;
use std::alloc::Global;

/// Checks whether the database in a store is sound, whatever program made it: its tables and its
/// records agree. `README.md` of `cdb_read` says what that means for look-ups. The faults:
/// - `Read(Short)`: the store is shorter than a head, and was not read;
/// - `Read(Table(n))`, `Read(Record(place))`, `Read(Slot(n, i))`, `Read(Twice(place))`,
///   `Read(Unindexed(place))`: the file is not sound, and this is the first of its faults;
/// - `Read(Device)`: the store failed;
/// - `NoMemory`: memory ran out. 13 bytes are taken for each record.
///
/// The store is returned whatever the answer, and was only read.
// Inlined, it takes room on the stack of a check of standard input, besides the room of this call.
#[inline(never)]
pub fn check_run<L: Width, S: Store>(alloc: Global, store: S) -> (S, Result<(), Fault>)
    ensures reads { OnlyReads S.Store store result.0 }
    ensures sound { OnOk result.1 (FindsSound L.WORD S.Store result.0) }
    ensures fails { IfErr result.1 (CheckingFails L.WORD S.Store store result.0) }
{
    let mut reader = match Reader::<S, L>::open(store) {
        Ok(reader) => reader,
        Err(unread) => return (unread.store, Err(Fault::from(unread.fault))),
    };
    let checked = check(alloc, &mut reader);
    (reader.into_store(), checked.map_err(Fault::from))
}
