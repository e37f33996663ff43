// A database is opened by its name.
ghost use Rattle.std.specs.Prelude.{◌≡◌, ◌⊎◌, IfErr, IfOk};
ghost use Rattle.cdb_files.specs.Opening.{OpensFile, OpensNone, OpensOne};
ghost use Rattle.cdb_read.specs.declared.fault.ReadFault.TheVariants.{Short, Device};
ghost use Rattle.cdb_files.specs.declared.fault.FileFault.TheVariants.{NoMemory, Open, Read};

use crate::fault::FileFault;
use cdb_form::Width;
use cdb_read::Reader;
use cdb_store::{FileStore, Store, StoreFault};
use std::fs::File;
use std::rt::Files;

/// Returns a reader of the database in a store, whose head it reads, if the store was opened.
fn read_opened<S: Store + Drop, L: Width>(
    opened: Result<S, StoreFault>,
) -> Result<Reader<S, L>, FileFault>
    ensures opens { IfOk result (OpensOne opened) }
    ensures fails { IfErr result (OpensNone L.WORD S.Store opened) }
{
    match opened {
        Ok(store) => Ok(Reader::open(store)?),
        Err(StoreFault::NoMemory) => Err(FileFault::NoMemory),
        Err(StoreFault::Device) => Err(FileFault::Open),
    }
}

/// Opens the database of a name, reads its head, and returns its reader.
///
/// `Open`: the file cannot be opened. `NoMemory`: the system had no memory for it. `Read(Short)`:
/// the file is shorter than a head. `Read(Device)`: it cannot be read.
pub fn open_file<L: Width, R: Files<File = File>>(
    rt: &R,
    name: &str,
) -> Result<Reader<FileStore, L>, FileFault>
    ensures opens { IfOk result OpensFile }
    ensures fails { IfErr result
        (λ f. (f ≡ Open) ⊎ (f ≡ NoMemory) ⊎ (f ≡ Read Short) ⊎ (f ≡ Read Device)) }
{
    read_opened::<FileStore, L>(FileStore::open(rt, name))
}
