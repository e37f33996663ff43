//! Look-ups and walks over a constant database that is a byte slice.
//!
//! A program that has a database in memory, mapped or embedded, reads it here. No call allocates,
//! copies bytes of the file, or keeps anything: the caller holds the state of a search or a walk.

mod meeting;
mod search;
mod walk;

pub use search::{Search, begin, find, next};
pub use walk::{RecordArea, first_record, next_record};
