// The records of a database, one after the other.
pub(crate) mod bookmark;
pub(crate) mod record_at;
pub(crate) mod records;
pub(crate) mod start;
pub(crate) mod state;
pub(crate) mod whole_records;
