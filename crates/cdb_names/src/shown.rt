// The permission bits and the user of a regular file.

/// The permission bits and the user of a regular file, as the system shows them.
#[derive(Clone, Copy, Debug, PartialEq, Eq)]
pub struct Shown {
    /// The permission bits of the file, for all.
    pub bits: u32,
    /// The number of the user whose file it is.
    pub user: u32,
}
