// The trait of readers.
ghost use Rattle.std.specs.Prelude.{◌≡◌, ◌<◌, ◌≤◌, ℕ, List, length, take, IfOk, OnErr};
ghost use Rattle.cdb_form.specs.Views.Feed.{Feed, Consumes, Keeps, IsAtEnd};

use std::io::{self, Read};

/// A reader: any `Read`, or one of one's own, about which contracts know more.
///
/// A contract describes a reader by its feed: the byte lists that may be all that the reader has,
/// each with those that may be left of it.
pub trait Feeds {
    /// The reader's feed: the facts known about its bytes.
    ghost feed: { Self → Feed };

    /// Takes some of the next bytes. It takes none only at the end, or if `into` is empty.
    fn read_some(&mut self, into: &mut [u8]) -> io::Result<usize>
        ensures bound { IfOk result (λ n. n ≤ length into.new) }
        ensures bytes { IfOk result (λ n.
            Consumes (feed self.old) (feed self.new) (take n into.new)) }
        ensures end { IfOk result (λ n. n ≡ 0 → 0 < length into.old → IsAtEnd (feed self.new)) }
        ensures kept { OnErr result (Keeps (feed self.old) (feed self.new)) }
        ensures failed { OnErr result (feed self.new).failed };

    /// All bytes of the reader determine which are left.
    ghost one_rest: { (it : Self) → (whole first second : List ℕ)
        → (feed it).may whole first → (feed it).may whole second → first ≡ second };
}

impl<R: Read> Feeds for R {
    ghost use Rattle.cdb_form.specs.Views.Feed.{reader_feed, same_remaining};

    ghost feed = { λ r. reader_feed (R.remaining r) };

    ghost one_rest = { λ r whole first second one other. same_remaining one other };

    #[inline(always)]
    fn read_some(&mut self, into: &mut [u8]) -> io::Result<usize> {
        self.read(into)
    }
}
