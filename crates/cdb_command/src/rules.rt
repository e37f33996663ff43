// The rules of a command line, one by one.
pub(crate) mod asking;
pub(crate) mod base;
pub(crate) mod letter;
pub(crate) mod names;
pub(crate) mod number;
pub(crate) mod options;
pub(crate) mod stray;
