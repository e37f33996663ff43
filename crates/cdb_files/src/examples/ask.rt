// The faults of a database that is built and read.
use cdb_make::MakeFault;
use cdb_read::ReadFault;

/// The reason why the values of a key were not written.
#[derive(Clone, Copy, Debug, PartialEq, Eq)]
pub enum AskFault {
    /// The database was not finished.
    Make(MakeFault),
    /// The database was not read, or the values were not written.
    Read(ReadFault),
}
