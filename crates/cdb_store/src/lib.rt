//! Stores: bytes that are read, written and cut at any position, in memory and in files.
#![tactic(auto)]

mod buffered;
mod bytes;
mod file;
mod fuse;
pub mod laws;
mod make_fault;
mod memory;
mod raw;
mod real;
mod store;
mod trace;
mod transfer;

pub use buffered::BufferedStore;
pub use file::FileStore;
pub use fuse::FuseStore;
pub use make_fault::MakeFault;
pub use memory::MemStore;
pub use raw::{RawFault, RawFile, note_part};
pub use real::{LAST_STANDARD, READ_AND_WRITTEN, RealFile};
pub use store::{Store, StoreFault};
pub use trace::{Call, Trace};
