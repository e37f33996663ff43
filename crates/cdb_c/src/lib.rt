//! Constant databases for programs in C: what the C library looks up, walks over and makes.
//!
//! A look-up takes the bytes of a file, and answers by a number: 1 for what was found, 0 for
//! nothing more, -1 for a damage. It writes the value or the record that it found to a struct of
//! the caller. A making call takes a handle, and answers 0 or more, or minus the number of a fault.
//! `clib/` has the C functions that call these.
#![tactic(auto)]

mod codes;
mod finding;
mod hashing;
mod maker;
mod making;
mod walking;
mod words;

pub use finding::{Found, State};
pub use walking::Placed;
