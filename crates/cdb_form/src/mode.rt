// The modes of a put.

/// The mode of a put: how it treats a key that is there already.
#[derive(Clone, Copy, Debug, PartialEq, Eq)]
pub enum Mode {
    /// The record is appended, and nothing is looked for.
    Add,
    /// The record is appended, and the answer says whether its key was there.
    Warn,
    /// The record is appended only if its key isn't there.
    Insert,
    /// Every record of its key is taken out, and the record is appended.
    Replace,
}
