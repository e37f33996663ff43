//! Databases under their names: made, replaced in one step or not at all, and opened.
#![tactic(auto)]

pub mod examples;
mod fault;
mod opening;
mod records_file;

pub use cdb_names::{
    Answer, Builder, Cause, Found, Lock, NameCall, NameFault, NameTrace, Names, Newest, RealNames,
    Refusal, ReplaceFault, Shown, Unrenamed, Unsynced, Wanted, has_name, is_no_name, locked,
    replace_file,
};
pub use fault::FileFault;
pub use opening::open_file;
pub use records_file::{Records, make_file, make_file_in};
