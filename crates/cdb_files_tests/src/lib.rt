//! Tests of `cdb_files`: a folder in memory that fails each call in turn, and files of the system.
#![tactic(auto)]

#[cfg(test)]
mod tests;
