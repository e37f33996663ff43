// The runs of the program that show something on request.
pub mod check;
pub mod content;
pub mod difference;
pub mod flushed;
pub mod input_task;
pub mod input_turns;
pub mod item_reader;
mod key_reader;
pub mod load;
pub mod lookup_options;
pub mod lookups;
pub mod lookups_of_inputs;
pub mod query;
pub mod shown;
pub mod stats;
mod stats_text;
pub mod texts;
mod walk_text;
