//! Callers of the library crates, as a newcomer would write them. Each is proved from the public
//! contracts of the functions that it calls, and from these crates' lemmas about the words of the
//! clauses.

mod ask;
mod edits;
mod files;
mod form;
mod read;
mod steps;

pub use ask::AskFault;
pub use edits::Edit;
pub use files::make_and_get;
pub use form::first_record;
pub use read::write_values;
pub use steps::{Built, Step, Unbuilt, build, build_and_ask};
