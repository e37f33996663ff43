//! Tests of `cdb_make`: a maker over stores in memory and files, with faults of the store and want
//! of memory.
#![tactic(auto)]

#[cfg(test)]
mod tests;
