// Parts of each record of a file.
/// The part of each record that a text has.
#[derive(Clone, Copy, Debug, PartialEq, Eq)]
pub enum Content {
    /// Each record.
    Records,
    /// The key of each record.
    Keys,
}
