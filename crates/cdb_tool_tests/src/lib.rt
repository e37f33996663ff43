//! Tests of `cdb_tool`: files and lines worked out by hand, and faults of readers, writers and
//! stores.
#![tactic(auto)]

#[cfg(test)]
mod tests;
