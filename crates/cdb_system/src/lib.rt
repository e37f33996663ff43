//! The requests of the program `cdb` to the system, its commands that only read, and its lines
//! about faults.
#![tactic(auto)]

mod causes;
mod differing;
mod explaining;
mod inputs;
mod left;
mod looking;
mod open_trace;
mod places;
mod reading;
mod real_system;
mod request;
mod seen;
mod system;
mod system_words;
mod telling;

pub use causes::{Reason, Told, reason_of};
pub use differing::difference;
pub use inputs::{HYPHEN, is_standard, open_base, open_inputs};
pub use left::{
    Left, LeftOf, Performed, base_left, both_left, input_left, looked_left, none_left, read_left,
    stream_left,
};
pub use looking::{KeyLookups, lookups};
pub use open_trace::{OpenCall, OpenTrace};
pub use places::is_in_place;
pub use reading::{FileText, check, query, stats, text};
pub use real_system::RealSystem;
pub use request::Request;
pub use seen::{Seen, SeenReader, SeenWriter};
pub use system::System;
pub use telling::{refuse, refuse_unbuffered, tell};
