//! The command line of the program `cdb`: its words become a `Command`.
#![tactic(auto)]

mod bad_word;
mod command;
mod explained;
mod letters;
mod line;
mod options;
mod owned;
mod parser;
mod planning;
mod rules;
mod shown;
mod style;
mod usage;
mod usage_text;
mod word_fault;
mod words;

pub use command::Command;
pub use explained::explains;
pub use options::MakeOptions;
pub use planning::{plan, plan_explained};
pub use shown::{escaped, printable_len};
pub use style::Style;
pub use usage::Usage;
pub use usage_text::{write_usage, write_version};
pub use word_fault::{Lacking, WordFault};
