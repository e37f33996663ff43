// The parts of a record that are kept.

/// The parts that are kept of a record that is read.
#[derive(Clone, Copy)]
pub(crate) enum Keeping {
    /// The key and the value.
    Both,
    /// The key alone. The value is passed over, and takes no memory.
    Key,
}
