//! Makes constant databases: a `Maker` puts records into a store and takes them out again, in
//! place, and finishes their file. It notes them in one roll, in their order.
#![tactic(auto)]

mod answer;
mod append;
mod candidate;
mod chains;
mod compact;
mod finish;
mod growth;
mod key_at;
pub mod laws;
mod lifetime;
mod long;
mod look;
mod maker;
mod mark;
mod modes;
mod move_down;
mod places;
mod put;
mod reading;
mod remove;
mod roll;
mod tags;
mod write;

pub use answer::Put;
pub use append::{FirstRecord, first_record};
pub use cdb_form::Mode;
pub use cdb_store::MakeFault;
pub use lifetime::{Refused, Unfinished};
pub use long::LongRecord;
pub use maker::Maker;
