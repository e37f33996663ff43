// The tables and the head are written.
pub(crate) mod counts;
pub(crate) mod file;
pub(crate) mod gather;
pub(crate) mod gathered;
pub(crate) mod head;
pub(crate) mod tables;
