// A file by its raw calls.
ghost use Rattle.std.specs.Prelude.{◌≡◌, ℕ, ◌<◌, ◌≤◌, ◌⊎◌, false, true, List, [], ◌∷◌, length};
ghost use Rattle.std.specs.Prelude.{take, IfOk, IfErr, OnOk, OnErr};
ghost use Rattle.std.specs.Result.{ForOk};
ghost use Rattle.cdb_store.specs.declared.trace.Call.{Call};
ghost use Rattle.cdb_store.specs.declared.trace.Call.TheVariants.{Read, Gave, Wrote, NotWritten};
ghost use Rattle.cdb_store.specs.declared.trace.Call.TheVariants.{Length, Cut, NotCut, Synced};
ghost use Rattle.cdb_store.specs.declared.trace.Call.TheVariants.{NotSynced};
ghost use Rattle.cdb_store.specs.declared.trace.Call.TheVariants.{Failed, Refused, Lost};
ghost use Rattle.cdb_store.specs.Calls.{lost, ended, failed_syncs, GivenUp, Came, IsUntold};

use crate::trace::{Call, Trace};

/// The fault of a raw call.
#[derive(Clone, Copy, Debug, PartialEq, Eq)]
pub enum RawFault {
    /// A signal interrupted the call before it did anything.
    Interrupted,
    /// The call failed, or did nothing.
    Failed,
}

/// The raw calls of a file. Each notes its answer in proof-only data.
///
/// A call makes one request, and the file may do less of it. After the file's length is lost no
/// call reaches it, and after a sync that failed no other sync does. `give`, `refuse`,
/// `refuse_sync`, `give_up` and `lose` do nothing at run time: a store notes by them what it makes
/// of the answers, and each requires the answers that allow it.
pub trait RawFile {
    /// The calls, the newest first.
    ghost calls: { Self → List (Call × List ℕ) };

    /// Reads at least one byte at `pos`. If the file has none there, it returns `Failed`.
    fn read_some(&mut self, pos: u64, into: &mut [u8]) -> Result<usize, RawFault>
        requires some { 0 < length into.old }
        requires known { lost (calls self.old) ≡ false }
        ensures count { IfOk result (λ n. (0 < n) × (n ≤ length into.new)) }
        ensures ok { IfOk result
            (λ n. calls self.new ≡ (Read pos, take n into.new) ∷ calls self.old) }
        ensures err { IfErr result (λ e. calls self.new ≡ (ended Failed e, []) ∷ calls self.old) };

    /// Writes at least one byte at `pos`. If the file takes none, it returns `Failed`.
    fn write_some(&mut self, pos: u64, bytes: &[u8]) -> Result<usize, RawFault>
        requires some { 0 < length bytes.now }
        requires known { lost (calls self.old) ≡ false }
        ensures count { IfOk result (λ n. (0 < n) × (n ≤ length bytes.now)) }
        ensures ok { IfOk result
            (λ n. calls self.new ≡ (Wrote pos, take n bytes.now) ∷ calls self.old) }
        ensures err { IfErr result
            (λ e. calls self.new
            ≡ (ended (NotWritten pos (length bytes.now)) e, []) ∷ calls self.old) };

    /// Requests the file's length.
    fn length(&mut self) -> Result<u64, RawFault>
        requires { lost (calls self.old) ≡ false }
        ensures ok { IfOk result (λ n. calls self.new ≡ (Length n, []) ∷ calls self.old) }
        ensures err { OnErr result (calls self.new ≡ (Failed, []) ∷ calls self.old) };

    /// Cuts the file to the length `len`.
    fn set_length(&mut self, len: u64) -> Result<(), RawFault>
        requires { lost (calls self.old) ≡ false }
        ensures ok { OnOk result (calls self.new ≡ (Cut len, []) ∷ calls self.old) }
        ensures err { OnErr result (calls self.new ≡ (NotCut len, []) ∷ calls self.old) };

    /// Syncs the file's bytes, so that they survive a loss of power.
    ///
    /// After a sync that failed none may follow: the system may have dropped the bytes that it
    /// could not write, and then a later sync succeeds without them.
    fn sync(&mut self) -> Result<(), RawFault>
        requires known { lost (calls self.old) ≡ false }
        requires sure { failed_syncs (calls self.old) ≡ 0 }
        ensures ok { OnOk result (calls self.new ≡ (Synced, []) ∷ calls self.old) }
        ensures err { OnErr result (calls self.new ≡ (NotSynced, []) ∷ calls self.old) };

    /// Notes that bytes which came are given back to the caller.
    fn give(&mut self, pos: u64, bytes: &[u8])
        requires { Came pos bytes.now (calls self.old) }
        ensures { calls self.new ≡ (Gave pos, bytes.now) ∷ calls self.old };

    /// Notes that the store refuses a call: the length is lost, or each of 1001 calls was
    /// interrupted.
    fn refuse(&mut self)
        requires { (lost (calls self.old) ≡ true) ⊎ GivenUp (calls self.old) }
        ensures { calls self.new ≡ (Refused, []) ∷ calls self.old };

    /// Notes that the store refuses a sync, since one has failed.
    fn refuse_sync(&mut self)
        requires { 0 < failed_syncs (calls self.old) }
        ensures { calls self.new ≡ (NotSynced, []) ∷ calls self.old };

    /// Notes that a write of `n` bytes was given up, each of 1001 calls being interrupted.
    fn give_up(&mut self, pos: u64, n: u64)
        requires { GivenUp (calls self.old) }
        ensures { calls self.new ≡ (NotWritten pos n, []) ∷ calls self.old };

    /// Notes that the length just reported isn't one from `least` to `most`, or that none was.
    fn lose(&mut self, least: u64, most: u64)
        requires { IsUntold least most (calls self.old) }
        ensures { calls self.new ≡ (Lost, []) ∷ calls self.old };
}

/// Returns the note of a call that ended in `fault`: `failed`, unless a signal interrupted it.
fn ended_as(failed: Call, fault: RawFault) -> Call
    ensures { result ≡ ended failed fault }
{
    match fault {
        RawFault::Interrupted => Call::Interrupted,
        RawFault::Failed => failed,
    }
}

/// Notes the answer of a raw read or write: the bytes that it did, as `done`, or its fault, as
/// `failed` unless a signal interrupted it.
pub fn note_part(
    trace: &mut Trace,
    done: Call,
    failed: Call,
    bytes: &[u8],
    answer: Result<usize, RawFault>,
)
    requires { ForOk answer (λ n. n ≤ length bytes.now) }
    ensures ok { IfOk answer
        (λ n. trace.new.events ≡ (done, take n bytes.now) ∷ trace.old.events) }
    ensures err { IfErr answer (λ e. trace.new.events ≡ (ended failed e, []) ∷ trace.old.events) }
{
    match answer {
        Ok(n) => trace.note(&done, &bytes[..n]),
        Err(fault) => trace.note(&ended_as(failed, fault), &[]),
    }
}
