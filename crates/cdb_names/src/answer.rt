// The answers of the system about names and locks.

/// The answer to a question of yes or no.
#[derive(Clone, Copy, Debug, PartialEq, Eq)]
pub enum Answer {
    /// Yes, it is so.
    Yes,
    /// No, it is not so.
    No,
    /// The system did not say: the call failed.
    Unknown,
}

/// The kind of thing that has a name. A link is not followed.
#[derive(Clone, Copy, Debug, PartialEq, Eq)]
pub enum Found {
    /// Nothing.
    Nothing,
    /// A regular file.
    File,
    /// A link, a folder, a device, a socket or a pipe.
    Other,
    /// The system did not say: the call failed.
    Unknown,
}

/// The outcome of a request for a file's lock.
#[derive(Clone, Copy, Debug, PartialEq, Eq)]
pub enum Lock {
    /// This process holds the lock until the file is closed.
    Taken,
    /// The file system knows no locks.
    Unsupported,
    /// Another process holds the lock, or the system refused it.
    Held,
}
