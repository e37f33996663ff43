// The damage of a database file.

/// The damage of a database file, by the definitions of the format. A place is counted in bytes
/// from the file's start.
#[derive(Clone, Copy, Debug, PartialEq, Eq)]
pub enum Damage {
    /// The file is shorter than its head.
    Short,
    /// The table of this number has slots and doesn't lie after the head and inside the file; for
    /// a walk, the records end before the head does.
    Table(u64),
    /// No whole record is at this place.
    Record(u64),
    /// A slot is wrong: its table's number, and its own number in the table, counted from 0.
    Slot(u64, u64),
    /// The record at this place is in two slots.
    Twice(u64),
    /// The record at this place is in no slot.
    Unindexed(u64),
}
