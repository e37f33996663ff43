// The letters, values and names of a command line.
use crate::letters::Flags;

/// The letters, values and names that a line has after the program's name.
#[derive(Clone, Copy)]
pub(crate) struct Line<'a, 'b> {
    pub(crate) flags: Flags,
    /// The value of `-n`.
    pub(crate) number: Option<&'a str>,
    /// The value of `-t`.
    pub(crate) temporary: Option<&'a str>,
    /// The value of `-b`.
    pub(crate) base: Option<&'a str>,
    /// The names, or `None` if there are none.
    pub(crate) names: Option<&'b [&'a str]>,
}
