// The streams that a command writes.

/// Standard output, and standard error for the lines of duplicates and of a fault.
#[derive(Drop)]
pub(crate) struct Streams<O, E> {
    pub(crate) output: O,
    pub(crate) errors: E,
}
