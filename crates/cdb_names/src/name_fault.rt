// The reason why a call on a name did nothing.

/// The reason why a call on a name did nothing.
#[derive(Clone, Copy, Debug, PartialEq, Eq)]
pub enum NameFault {
    /// The call failed.
    Failed,
    /// An allocation failed.
    NoMemory,
}
