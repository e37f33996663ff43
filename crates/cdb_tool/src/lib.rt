//! The runs of the program `cdb`, which work on inputs, stores and outputs. Other programs may call
//! them too. The runs that only read come from `cdb_show`.
#![tactic(auto)]

pub mod laws;
mod runs;

pub use cdb_command::{
    Command, Lacking, MakeOptions, Style, Usage, WordFault, escaped, explains, plan,
    plan_explained, printable_len, write_usage, write_version,
};
pub use cdb_show::{
    BAD_USAGE, Content, DONE, FAILED, Fault, InWindow, Inputs, Lines, LookupOptions, NoWindow,
    Noted, Output, STANDARD_INPUT, Shown, Window, check_run, difference_run, dump_run, flushed,
    input_at, list_run, load, load_from, lookups_run, query_from, query_run, stats_run, status_of,
    text_run, write_fault, write_word_fault,
};
pub use runs::context::RunContext;
pub use runs::make::{make_run, make_run_from, put_inputs};
pub use runs::make_bytes::make_bytes;
pub use runs::options::RunOptions;
