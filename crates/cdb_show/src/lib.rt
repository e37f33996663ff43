//! The runs of the program `cdb` that only read: each shows something of inputs and stores. Other
//! programs may call them too. The runs that make a database share the inputs, outputs, faults and
//! lines of this crate.
#![tactic(auto)]

mod counting;
mod fault;
mod input_name;
mod input_reader;
mod inputs;
mod key_line;
pub mod laws;
mod line_count;
mod lines;
mod message;
mod noted;
mod noted_reader;
mod output;
mod parser;
mod read_trace;
mod runs;
mod shown;
mod status;
mod window;
mod word_message;

pub use fault::Fault;
pub use input_name::{STANDARD_INPUT, input_at};
pub use input_reader::InputReader;
pub use inputs::{Inputs, SharedWindow};
pub use key_line::write_duplicates;
pub use lines::{InLined, Lined, Lines};
pub use message::write_fault;
pub use noted::Noted;
pub use noted_reader::NotedReader;
pub use output::Output;
pub use parser::InputParser;
pub use read_trace::{ReadCall, ReadTrace};
pub use runs::check::check_run;
pub use runs::content::Content;
pub use runs::difference::difference_run;
pub use runs::flushed::flushed;
pub use runs::input_task::{InputContext, InputTask};
pub use runs::input_turns::do_inputs;
pub use runs::item_reader::ItemReader;
pub use runs::load::{load, load_from};
pub use runs::lookup_options::LookupOptions;
pub use runs::lookups_of_inputs::lookups_run;
pub use runs::query::{query_from, query_run};
pub use runs::shown::Shown;
pub use runs::stats::stats_run;
pub use runs::texts::{dump_run, list_run, text_run};
pub use shown::write_line;
pub use status::{BAD_USAGE, DONE, FAILED, status_of};
pub use window::{InWindow, NoWindow, Window};
pub use word_message::write_word_fault;
