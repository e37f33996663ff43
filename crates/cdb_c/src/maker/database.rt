// A database that is being made, or is made.
use cdb_form::Narrow;
use cdb_make::Maker;
use cdb_store::{BufferedStore, FileStore, RealFile};

/// A maker of a file, which closes the gaps of records that go in one pass.
#[derive(Drop)]
pub struct Making {
    pub maker: Maker<BufferedStore<FileStore<RealFile>>, Narrow>,
}

/// A finished file.
#[derive(Drop)]
pub struct Finished {
    pub store: BufferedStore<FileStore<RealFile>>,
}

/// A database that is being made, or its finished file.
#[derive(Drop)]
pub enum Database {
    /// Records are put and taken out.
    Open(Making),
    /// The file is finished.
    Made(Finished),
    /// A call has it, and returns another.
    Lent,
}
