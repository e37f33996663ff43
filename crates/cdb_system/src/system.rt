// The files of a system, by their names and the calls on them.
ghost use Rattle.std.specs.Prelude.{◌≡◌, ◌⊎◌, ◌∷◌, ℕ, List, IfOk, IfErr, IfSome, None, OnOk};
ghost use Rattle.cdb_show.specs.Feed.{IsUnread};
ghost use Rattle.cdb_system.specs.Opening.{IsOpenRefusal, IsUnrefused, OpenCalls, Misses, MayEmpty};
ghost use Rattle.cdb_system.specs.declared.open_trace.OpenCall.TheVariants.{AtPlaces, InTurn, Stream, Watched, Emptied, Locked, Own, ToEmpty};

use cdb_form::Feeds;
use cdb_names::{Answer, Lock, Names, Refusal};
use cdb_show::Fault;
use cdb_store::{RealFile, Store};

/// The files of a system, by their names. Each call on them is noted in proof-only data.
pub trait System {
    /// A file that is read at places.
    type File: Store + Drop;

    /// A file that is read from its start. Something is known of its bytes in the end.
    type Stream: Feeds + Drop;

    /// A file that is made.
    type Made: Store + Drop;

    /// Standard input. Something is known of its bytes in the end.
    type Input: Feeds + Drop;

    /// The names of its files.
    type Names: Names;

    /// The calls, the newest first.
    ghost calls: { Self → OpenCalls };

    /// Memory for a copy of the name that was refused last was refused.
    ghost lacks: { Self → Type 0 };

    /// This file was given for the name, to be read at places.
    ghost gives: { List ℕ → Self.File → Type 0 };

    /// This file was given for the name, to be read from its start.
    ghost reads: { List ℕ → Self.Stream → Type 0 };

    /// This file was given for the name, to be written.
    ghost makes: { List ℕ → Self.Made → Type 0 };

    /// The name of the file that was not opened last, and why. `None`: each was, or there was no
    /// memory for a copy of it.
    fn refusal(&self) -> Option<&Refusal>
        ensures why { IfSome result (λ refusal. IsOpenRefusal refusal.now (calls self.now)) }
        ensures none { result ≡ None → IsUnrefused (calls self.now) ⊎ lacks self.now };

    /// The number of the error of the last call that failed on a file that is read at places, if
    /// the system gave one.
    fn store_error(&self, file: &Self::File) -> Option<i32>;

    /// The number of the error of the last call that failed on a file that is made.
    fn made_error(&self, file: &Self::Made) -> Option<i32>;

    /// Returns true if a read of a base failed since the file had changed.
    fn is_changed(&self, file: &Self::File) -> bool;

    /// The number of the error of the last read of an input that failed.
    fn read_error(&self) -> Option<i32>;

    /// Returns true if the last read of an input that failed was refused, since standard output
    /// writes into the file.
    fn reads_output(&self) -> bool;

    /// The number of the error of the last write on standard output that failed.
    fn output_error(&self) -> Option<i32>;

    /// The number of the error of the last write on standard error that failed.
    fn errors_error(&self) -> Option<i32>;

    /// Opens the file of a name, to be read at places. `Open`: it cannot be opened, or it is a pipe
    /// or a device, which has no places to be read at.
    fn open_store(&mut self, name: &str) -> Result<Self::File, Fault>
        ensures calls { OnOk result (calls self.new ≡ (AtPlaces, name.now) ∷ calls self.old) }
        ensures gives { IfOk result (gives name.now) }
        ensures fails { IfErr result (Misses name.now (calls self.old) (calls self.new)) };

    /// Opens the base of a create, as `open_store` does a file. Its reads fail once another process
    /// has changed the file: what was read before and after that may belong to two databases.
    fn open_base(&mut self, name: &str) -> Result<Self::File, Fault>
        ensures calls { OnOk result (calls self.new ≡ (Watched, name.now) ∷ calls self.old) }
        ensures gives { IfOk result (gives name.now) }
        ensures fails { IfErr result (Misses name.now (calls self.old) (calls self.new)) };

    /// Refuses every later read of the file into which standard output writes: it is not opened,
    /// and as standard input its reads fail. A command would otherwise read its own output, without
    /// an end.
    fn keep_apart(&self);

    /// Opens the file of a name, to be read from its start: nothing was taken of it yet. `Open`: it
    /// cannot be opened.
    fn open(&mut self, name: &str) -> Result<Self::Stream, Fault>
        ensures calls { OnOk result (calls self.new ≡ (InTurn, name.now) ∷ calls self.old) }
        ensures reads { IfOk result (reads name.now) }
        ensures unread { IfOk result (λ stream. IsUnread (Self.Stream.feed stream)) }
        ensures fails { IfErr result (Misses name.now (calls self.old) (calls self.new)) };

    /// Answers whether a name leads to a pipe or a device, which is only read from its start to its
    /// end.
    fn is_stream(&mut self, name: &str) -> Answer
        ensures calls { calls self.new ≡ (Stream result, name.now) ∷ calls self.old };

    /// Opens the file of a name, or makes one, to be emptied. It stays as it is. `Open`: it cannot
    /// be opened, or the name is a link, which is not followed.
    fn open_to_empty(&mut self, name: &str) -> Result<RealFile, Fault>
        ensures calls { OnOk result (calls self.new ≡ (ToEmpty, name.now) ∷ calls self.old) }
        ensures fails { IfErr result (Misses name.now (calls self.old) (calls self.new)) };

    /// Requests the lock of the file that was opened to be emptied, and does not wait for it.
    fn lock(&mut self, name: &str, file: &RealFile) -> Lock
        ensures calls { calls self.new ≡ (Locked result, name.now) ∷ calls self.old };

    /// Answers whether a name has the file that was opened to be emptied. A link is not followed.
    fn has_file(&mut self, name: &str, file: &RealFile) -> Answer
        ensures { calls self.new ≡ (Own result, name.now) ∷ calls self.old };

    /// Answers whether a name has a file that was made. A link is not followed.
    fn has_made(&mut self, name: &str, file: &Self::Made) -> Answer
        ensures { calls self.new ≡ (Own result, name.now) ∷ calls self.old };

    /// Empties the file of a name, whose lock is held, to be read and written at places. `Open`: it
    /// cannot be emptied.
    fn empty(&mut self, name: &str, file: RealFile) -> Result<Self::Made, Fault>
        requires held { MayEmpty name.now (calls self.old) }
        ensures calls { OnOk result (calls self.new ≡ (Emptied, name.now) ∷ calls self.old) }
        ensures makes { IfOk result (makes name.now) }
        ensures fails { IfErr result (Misses name.now (calls self.old) (calls self.new)) };
}
