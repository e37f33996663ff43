// A reader that notes what it gave.
ghost use Rattle.std.specs.Prelude.{◌≡◌, ◌<◌, ◌≤◌, List, ℕ, [], length, take, true, false, IfOk, OnErr, OnOk};
ghost use Rattle.std.specs.Io.KnownBytes.{ReadConsumes};
ghost use Rattle.cdb_form.specs.Views.Feed.{Consumes, IsAtEnd, Keeps, StillAgrees};
ghost use Rattle.cdb_show.specs.Feed.{IsUnread, noted_feed, came_of};

use crate::read_trace::{ReadCall, ReadTrace};
use cdb_form::Feeds;
use std::io::{self, Read};

/// A reader that notes what it gave. The standard library does not know what the reader of a file
/// or of standard input gives.
///
/// Once the reader has answered that it is at its end, it is not called again: a terminal would go
/// on after its end.
#[derive(Drop)]
pub struct NotedReader<R> {
    reader: R,
    ended: bool,
    trace: ReadTrace,
    /// The reads that failed, each as an answer with no bytes.
    refused: ReadTrace,
}

impl<R> NotedReader<R> {
    /// Returns a reader over `reader` that has noted nothing yet.
    pub fn over(reader: R) -> NotedReader<R>
        ensures nothing { came_of result.trace.events ≡ [] }
        ensures unread { IsUnread (noted_feed result) }
        ensures agrees { (whole : List ℕ) → (noted_feed result).may whole whole }
        ensures inner { result.reader ≡ reader }
        ensures unrefused { (noted_feed result).failed → ⊥ }
    {
        NotedReader {
            reader,
            ended: false,
            trace: ReadTrace::new(),
            refused: ReadTrace::new(),
        }
    }
}

impl<R: Read> Feeds for NotedReader<R> {
    ghost use Rattle.cdb_show.specs.Feed.{same_continued};

    ghost feed = { noted_feed };

    ghost one_rest = { λ r whole first second one other. same_continued one other };

    /// Notes no more than it answers: all bytes that agreed before and go on with those that came,
    /// or are at their end if it is, still agree.
    fn read_some(&mut self, into: &mut [u8]) -> io::Result<usize>
        ensures bound { IfOk result (λ n. n ≤ length into.new) }
        ensures bytes { IfOk result (λ n.
            Consumes (noted_feed self.old) (noted_feed self.new) (take n into.new)) }
        ensures end { IfOk result (λ n.
            n ≡ 0 → 0 < length into.old → IsAtEnd (noted_feed self.new)) }
        ensures kept { OnErr result (Keeps (noted_feed self.old) (noted_feed self.new)) }
        ensures agrees { IfOk result (λ n. StillAgrees (noted_feed self.old) (noted_feed self.new)
            (take n into.new) ((n ≡ 0) × (0 < length into.old))) }
        ensures agrees_err { OnErr result
            (StillAgrees (noted_feed self.old) (noted_feed self.new) [] ⊥) }
        // And it answers what its reader gave, for every reader that reports its bytes: so nothing
        // that was taken is lost, and an end is the reader's own, or came before.
        ensures given { self.old.ended ≡ false → ReadConsumes (R.remaining self.old.reader)
            (R.remaining self.new.reader) result into.new }
        ensures stays { self.old.ended ≡ true → self.new.reader ≡ self.old.reader }
        // And it notes each read that failed, and no other.
        ensures failed { OnErr result (noted_feed self.new).failed }
        ensures unrefused { OnOk result (self.new.refused ≡ self.old.refused) }
    {
        if self.ended {
            return Ok(0);
        }
        let n = match self.reader.read(into) {
            Ok(n) => n,
            Err(error) => {
                self.refused.note(&ReadCall::Ended, &[]);
                return Err(error);
            }
        };
        if n == 0 && !into.is_empty() {
            self.ended = true;
            self.trace.note(&ReadCall::Ended, &[]);
        } else {
            self.trace.note(&ReadCall::Gave, &into[..n]);
        }
        Ok(n)
    }
}
