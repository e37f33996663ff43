//! The calls on names and their answers, which only clauses read.
ghost use Rattle.std.specs.Prelude.{◌≡◌, List, ℕ, [], ◌∷◌};
ghost use Rattle.std.specs.Borrow.{ftrue};
ghost use Rattle.cdb_store.specs.Calls.{Calls};
ghost use Rattle.cdb_names.specs.declared.name_trace.NameCall.{NameCall};

use crate::answer::{Answer, Found, Lock};
use crate::name_fault::NameFault;
use crate::shown::Shown;
use cdb_store::Trace;
use std::marker::{Model, PhantomData};

/// A call on names, with its answer.
#[derive(Clone, Copy)]
pub enum NameCall {
    /// The answer whether the name leads to something that is no regular file.
    Special(Answer),
    /// The answer whether the file of the name has the other name too.
    Same(Answer),
    /// The kind of thing that has the name.
    Looked(Found),
    /// The regular file of the name was opened.
    Opened,
    /// The regular file of the name was not opened.
    NotOpened(NameFault),
    /// A new file was made under the name, with a request for these permission bits.
    Made(u32),
    /// No file was made under the name.
    NotMade(NameFault),
    /// The outcome of the request for the lock of the file that was opened or made last.
    Locked(Lock),
    /// The answer whether the file that was opened or made last has the name.
    Own(Answer),
    /// The answer whether standard input is the file of the name.
    Input(Answer),
    /// The permission bits and the user of the regular file that has the name, or that none has it,
    /// if the system said.
    Bits(Option<Option<Shown>>),
    /// The permission bits and the user of the open file of the name, if the system said.
    Seen(Option<Shown>),
    /// The system was requested to give the file of the name these permission bits.
    Set(u32),
    /// The name was taken from its file, or had none.
    Removed,
    /// The removal failed, or its outcome is unknown.
    NotRemoved,
    /// The file of the name, with this number of bytes, replaced what had the other name.
    Renamed(u64),
    /// The rename failed, or its outcome is unknown.
    NotRenamed(u64, NameFault),
    /// The folder of the name was synced.
    Synced,
    /// The folder of the name was not synced.
    NotSynced,
}

/// A list of calls, the newest first, each with its name, its other name, and the calls on its
/// file. It takes no memory, and its methods do nothing at run time.
#[derive(Drop)]
pub struct NameTrace {
    marker: PhantomData<u8>,
    pub ghost events: { List (NameCall × List ℕ × List ℕ × Calls) },
}

impl Model for NameTrace {
    ghost also_owns = { λ _. ftrue };
}

impl NameTrace {
    /// Returns a list without calls.
    pub fn new() -> NameTrace
        ensures { result.events ≡ [] }
    {
        NameTrace {
            marker: PhantomData,
        }
    }

    /// Adds a call.
    pub fn note(&mut self, _call: &NameCall, _name: &[u8], _other: &[u8], _file: &Trace)
        ensures { self.new.events
            ≡ (_call.now, _name.now, _other.now, _file.now.events) ∷ self.old.events }
    {}
}
