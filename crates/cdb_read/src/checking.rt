// The check that the tables of a database and its records agree.
pub(crate) mod collected;
pub(crate) mod directory;
pub(crate) mod filled_table;
pub(crate) mod key_hash;
pub(crate) mod record_lists;
pub(crate) mod slot_runs;
pub(crate) mod slots;
pub(crate) mod sound;
pub(crate) mod table_records;
