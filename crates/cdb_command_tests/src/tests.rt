//! What contracts can't say, and rows of the command line worked out by hand.
mod asked;
mod explained;
mod faults;
mod lines;
mod refusals;
mod refused;
mod shown;
mod usage_texts;
