// A caller of cdb_files: it makes a database under its name, opens it, and looks up a value.
use crate::{FileFault, RealNames, make_file, open_file};
use cdb_form::{Narrow, Record};
use std::fs::File;
use std::rt::Files;

/// Makes the database of some records under a name, and gives the first value of a key in it.
///
/// The name keeps what it had until the database is whole, and after a fault too. Exception: a
/// rename that happened although it answered a fault.
pub fn make_and_get<R: Files<File = File> + AllocGlobal>(
    rt: &R,
    name: &str,
    records: &[Record],
    key: &[u8],
) -> Result<Option<Vec<u8>>, FileFault> {
    let mut names = RealNames::new(rt);
    make_file::<Narrow, RealNames<R>>(&mut names, rt.alloc(), name, records)?;
    let mut reader = open_file::<Narrow, R>(rt, name)?;
    Ok(reader.get(rt.alloc(), key)?)
}
