//! Tests of `cdb_form`: texts, words and walks worked out by hand, and faults of readers and
//! writers.
#![tactic(auto)]

#[cfg(test)]
mod tests;
