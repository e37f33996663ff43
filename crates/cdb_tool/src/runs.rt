// The runs that make a database.
mod batch;
pub mod context;
mod long_values;
pub mod make;
mod make_base;
pub mod make_bytes;
mod make_input;
pub mod options;
mod put_batches;
