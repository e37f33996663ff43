// An item of an amending text, in memory.
use crate::record::Record;

/// An item of an amending text: a record to put, or a key to remove.
#[derive(Debug, Drop)]
pub enum Item {
    /// The record is put.
    Put(Record),
    /// Each record of this key is removed.
    Remove(Vec<u8>),
}

/// The kind of an item that was read over a record.
#[derive(Clone, Copy, Debug, PartialEq, Eq)]
pub enum ItemKind {
    /// The record is put.
    Put,
    /// Each record of the key that was read is removed. The value means nothing.
    Remove,
}
