//! Tests of `cdb_store`: stores in memory, files of the system, a raw file that fails each call in
//! turn, and the fuse.
#![tactic(auto)]

#[cfg(test)]
mod tests;
