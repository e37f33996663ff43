//! Tests of `cdb_read`: databases worked out by hand, damaged, foreign, and in stores that fail.
#![tactic(auto)]

#[cfg(test)]
mod tests;
