// The state of a walk.
ghost use Rattle.std.specs.Prelude.{◌≤◌};

/// The area of the records that a walk has left: from the next place to the record end.
#[derive(Clone, Copy)]
pub(crate) struct RecordArea {
    /// The place of the next record, in bytes from the file's start.
    pub(crate) place: u64,
    /// The record end.
    pub(crate) end: u64,
    pub(crate) ghost ordered: { place ≤ end },
}

/// The next step of a walk.
#[derive(Clone, Copy)]
pub(crate) enum Walking {
    /// The walk looks at the next place.
    At(RecordArea),
    /// Nothing is left.
    AtEnd,
    /// The table of this number lies before the record area.
    NoTable(u64),
    /// No whole record is at this place.
    NoRecord(u64),
}
