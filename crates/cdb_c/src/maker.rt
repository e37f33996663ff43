// A maker of a database that a program in C holds between its calls.
//
// C holds a `Handle`, 16 bytes. Zeros mean that it has no database. Each call takes the database
// out of the handle, makes the call of its `Maker`, and puts it back. C gives the file, which is
// written as records come.
mod address;
mod database;
mod file;
mod handle;
mod left;
mod making;
mod parts;

pub use address::BoxAddress;
pub use database::{Database, Finished, Making};
pub use file::GivenFile;
pub use handle::Handle;
pub use making::{append, count, exists, finish, number, put, release, remove, start, written};
