// The calls on files and what they answered, which only clauses read.
ghost use Rattle.std.specs.Prelude.{◌≡◌, List, ℕ, [], ◌∷◌};
ghost use Rattle.std.specs.Borrow.{ftrue};
ghost use Rattle.cdb_system.specs.declared.open_trace.OpenCall.{OpenCall};

use cdb_names::{Answer, Cause, Lock, NameFault};
use std::marker::{Model, PhantomData};

/// A call on the file of a name.
#[derive(Clone, Copy)]
pub enum OpenCall {
    /// It was opened, to be read at places.
    AtPlaces,
    /// It was opened to be read at places, and its reads fail once another process has changed it.
    Watched,
    /// It was opened, to be read from its start.
    InTurn,
    /// The answer to whether it is a stream: a pipe or a device.
    Stream(Answer),
    /// It was opened or made, to be emptied.
    ToEmpty,
    /// The answer to the request for the lock of the file that was opened or made to be emptied.
    Locked(Lock),
    /// The answer to whether the name has the file that was opened or made to be emptied.
    Own(Answer),
    /// It was emptied, to be written.
    Emptied,
    /// It was not opened: the fault, and its cause.
    Unopened(NameFault, Cause),
}

/// A list of calls, the newest first, each with its name. It takes no memory, and its methods do
/// nothing at run time.
#[derive(Drop)]
pub struct OpenTrace {
    marker: PhantomData<u8>,
    pub ghost events: { List (OpenCall × List ℕ) },
}

impl Model for OpenTrace {
    ghost also_owns = { λ _. ftrue };
}

impl OpenTrace {
    /// Returns an empty list.
    pub fn new() -> OpenTrace
        ensures { result.events ≡ [] }
    {
        OpenTrace {
            marker: PhantomData,
        }
    }

    /// Adds a call.
    pub fn note(&mut self, _call: &OpenCall, _name: &[u8])
        ensures { self.new.events ≡ (_call.now, _name.now) ∷ self.old.events }
    {}
}
