// The reader of an input.

/// The reader of an input of a run.
#[derive(Drop)]
pub enum InputReader<R> {
    /// The input has a reader of its own.
    Own(R),
    /// The input has the reader that several inputs share. It begins where the last of these inputs
    /// stopped.
    Shared,
}
