// The answer of a put.
ghost use Rattle.std.specs.Prelude.{◌≡◌};
ghost use Rattle.cdb_make.specs.Views.Maker.{is_present};

/// The answer of a put: what it did.
#[derive(Clone, Copy, Debug, PartialEq, Eq)]
pub enum Put {
    /// The record was appended, and no record of its key was there or looked for.
    Added,
    /// The record was appended, and its key was there already.
    AddedAgain,
    /// The key was there already, and nothing was appended.
    Present,
    /// This number of records of its key were taken out, and the record was appended.
    Replaced(u64),
}

impl Put {
    /// Returns true if the key was there already, and nothing was appended.
    pub(crate) fn is_present(self) -> bool
        ensures { result ≡ is_present self }
    {
        match self {
            Put::Present => true,
            Put::Added | Put::AddedAgain | Put::Replaced(_) => false,
        }
    }
}
