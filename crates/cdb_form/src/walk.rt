// The records of a file, one after the other.
pub(crate) mod fault;
mod keeping;
mod next_record;
pub(crate) mod prefix;
mod record_area;
pub(crate) mod record_reader;
mod source;
