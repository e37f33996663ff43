// The bytes that a reader gave, which only clauses read.
ghost use Rattle.std.specs.Prelude.{◌≡◌, List, ℕ, [], ◌∷◌};
ghost use Rattle.std.specs.Borrow.{ftrue};
ghost use Rattle.cdb_show.specs.declared.read_trace.ReadCall.{ReadCall};

use std::marker::{Model, PhantomData};

/// An answer of a reader.
#[derive(Clone, Copy)]
pub enum ReadCall {
    /// It gave bytes, or had no room to give any.
    Gave,
    /// It was at its end.
    Ended,
}

/// A list of answers, the newest first, each with its bytes. It takes no memory, and its methods do
/// nothing at run time.
#[derive(Drop)]
pub struct ReadTrace {
    marker: PhantomData<u8>,
    pub ghost events: { List (ReadCall × List ℕ) },
}

impl Model for ReadTrace {
    ghost also_owns = { λ _. ftrue };
}

impl ReadTrace {
    /// Returns an empty list.
    pub fn new() -> ReadTrace
        ensures { result.events ≡ [] }
    {
        ReadTrace {
            marker: PhantomData,
        }
    }

    /// Adds an answer with its bytes.
    pub fn note(&mut self, _call: &ReadCall, _bytes: &[u8])
        ensures { self.new.events ≡ (_call.now, _bytes.now) ∷ self.old.events }
    {}
}
