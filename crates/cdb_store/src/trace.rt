//! The calls on a file and what they answered, which only clauses read.
ghost use Rattle.std.specs.Prelude.{◌≡◌, List, ℕ, [], ◌∷◌, ◌+◌, ◌<◌, ◌^◌, ◌++◌, length};
ghost use Rattle.std.specs.Borrow.{ftrue};
ghost use Rattle.cdb_store.specs.declared.trace.Call.{Call};
ghost use Rattle.cdb_store.specs.Calls.{written_count};

use std::marker::{Model, PhantomData};

/// The answer of a call on a file, or a note that the store made.
#[derive(Clone, Copy)]
pub enum Call {
    /// The file was made, or emptied.
    Made,
    /// The file gave bytes that start at this position.
    Read(u64),
    /// The store gave its caller bytes that start at this position, as the file gave them.
    Gave(u64),
    /// The file took bytes that start at this position.
    Wrote(u64),
    /// A write failed or was given up: its position and its number of bytes.
    NotWritten(u64, u64),
    /// The file reported this length.
    Length(u64),
    /// The file was cut to this length.
    Cut(u64),
    /// Cutting the file to this length failed.
    NotCut(u64),
    /// The file was synced.
    Synced,
    /// Syncing the file failed, or the store refused it since an earlier sync had failed.
    NotSynced,
    /// A signal interrupted a call, which did nothing.
    Interrupted,
    /// A call that changes no byte failed.
    Failed,
    /// The store refused a call without calling the file again.
    Refused,
    /// The answer before this one is no length that the file can have.
    Lost,
}

/// A list of calls, the newest first, each with its bytes. It takes no memory, and its methods do
/// nothing at run time. A raw file of one's own can keep its calls in a trace.
#[derive(Drop)]
pub struct Trace {
    marker: PhantomData<u8>,
    pub ghost events: { List (Call × List ℕ) },
}

impl Model for Trace {
    ghost also_owns = { λ _. ftrue };
}

impl Trace {
    /// No calls.
    pub fn new() -> Trace
        ensures { result.events ≡ [] }
    {
        Trace {
            marker: PhantomData,
        }
    }

    /// Adds a call with its bytes: those that came or were written, or none.
    pub fn note(&mut self, _call: &Call, _bytes: &[u8])
        ensures { self.new.events ≡ (_call.now, _bytes.now) ∷ self.old.events }
    {}
}

/// Notes that three pieces were written, one after another.
pub(crate) fn note_parts(trace: &mut Trace, pos: u64, first: &[u8], second: &[u8], third: &[u8])
    requires { pos + length (first.now ++ (second.now ++ third.now)) < 2 ^ 63 }
    ensures { written_count trace.new.events
        ≡ written_count trace.old.events + length (first.now ++ (second.now ++ third.now)) }
{
    let second_pos = pos + first.len() as u64;
    let third_pos = second_pos + second.len() as u64;
    trace.note(&Call::Wrote(pos), first);
    trace.note(&Call::Wrote(second_pos), second);
    trace.note(&Call::Wrote(third_pos), third);
}
