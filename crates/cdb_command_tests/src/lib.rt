//! Tests of `cdb_command`: rows of the command line worked out by hand, and want of memory.
#![tactic(auto)]

#[cfg(test)]
mod tests;
