// A reader of a text, with the count of what it gave and of the requests that it may still get.
ghost use Rattle.std.specs.Prelude.{◌≡◌, ◌+◌, ◌*◌, ◌^◌, ◌<◌, ◌≤◌, [], ◌∷◌, length, take, OnOk, OnErr, IfOk, IfErr, MatchOption};
ghost use Rattle.cdb_form.specs.Views.Feed.{Consumes, IsAtEnd, Keeps};

use crate::feeds::Feeds;
use crate::reading::{some_bytes, vector};
use crate::text::at_hand::{AtHand, window_within};
use crate::text::fault::TextFault;

/// The number of bytes of a key or value that are requested at a time.
pub(crate) const PIECE: u64 = 4096;

/// A reader with the count of the bytes that it gave, and of the requests that it has left.
#[derive(Drop)]
pub(crate) struct Source<R> {
    pub(crate) reader: R,
    pub(crate) taken: u64,
    pub(crate) asks: u64,
    ghost counted: { taken + 4096 * asks ≤ 2 ^ 60 },
}

impl<R: Feeds> Source<R> {
    ghost use Rattle.cdb_form.specs.Format.{AreBytes};
    ghost use Rattle.cdb_form.specs.Views.NativeParser.{FailsIn, Leaves, FailsBytes};
    ghost use Rattle.cdb_form.specs.Views.Source.{IsTold, Takes, at_hand, budget};
    ghost use Rattle.cdb_form.specs.Views.TextFault.{IsReadFault};

    /// A reader that gave nothing yet, and may get `asks` requests.
    pub(crate) fn new(reader: R, asks: u64) -> Source<R>
        requires { asks ≤ 2 ^ 48 }
        ensures reader { result.reader ≡ reader }
        ensures taken { result.taken ≡ 0 }
        ensures asks { result.asks ≡ asks }
    {
        Source {
            reader,
            taken: 0,
            asks,
        }
    }

    /// The next byte, or `None` at the end.
    #[inline(always)]
    pub(crate) fn byte(&mut self) -> Result<Option<u8>, TextFault>
        ensures bytes { IfOk result (λ found. MatchOption found
            (Keeps (R.feed self.old.reader) (R.feed self.new.reader)
            × IsAtEnd (R.feed self.new.reader))
            (λ b. Consumes (R.feed self.old.reader) (R.feed self.new.reader) (b ∷ []))) }
        ensures counted { IfOk result (λ found.
            MatchOption found (self.new.taken ≡ self.old.taken) (λ b.
            self.new.taken ≡ self.old.taken + 1)) }
        ensures fewer { OnOk result (self.new.asks < self.old.asks) }
        ensures no_more { self.new.asks ≤ self.old.asks }
        ensures spends { self.old.asks ≤ self.new.asks + 1001 }
        ensures kept { OnErr result (Keeps (R.feed self.old.reader)
            (R.feed self.new.reader)) }
        ensures same { OnErr result (self.new.taken ≡ self.old.taken) }
        ensures fails { IfErr result IsReadFault }
        ensures told { IfErr result (IsTold (R.feed self.new.reader) self.new.asks) }
    {
        let mut one = [0u8; 1];
        let n = match some_bytes(&mut self.reader, &mut self.asks, &mut one) {
            Ok(n) => n,
            Err(unread) => return Err(TextFault::of_reader(unread, self.taken)),
        };
        if n == 0 {
            return Ok(None);
        }
        self.taken += 1;
        Ok(Some(one[0]))
    }

    /// Returns the bytes at hand, but no more than there are requests left.
    #[inline(always)]
    pub(crate) fn at_hand<A: AtHand<R>>(&self) -> &[u8]
        ensures { result.now ≡ at_hand A.held self.now }
    {
        window_within::<R, A>(&self.reader, self.asks)
    }

    /// Takes the first `n` of the bytes at hand. Each counts as a request.
    #[inline(always)]
    pub(crate) fn take_at_hand<A: AtHand<R>>(&mut self, n: usize)
        requires { n ≤ length (at_hand A.held self.old) }
        ensures takes { Takes R.feed self.old self.new (take n (at_hand A.held self.old)) }
        ensures taken { self.new.taken ≡ self.old.taken + n }
        ensures asks { self.old.asks ≡ self.new.asks + n }
    {
        A::take(&mut self.reader, n);
        self.asks -= n as u64;
        self.taken += n as u64;
    }

    /// The next byte, or `None` at the end. A byte at hand is taken without a request, and counts
    /// as a request.
    #[inline(always)]
    pub(crate) fn next_byte<A: AtHand<R>>(&mut self) -> Result<Option<u8>, TextFault>
        ensures bytes { IfOk result (λ found. MatchOption found
            (Keeps (R.feed self.old.reader) (R.feed self.new.reader)
            × IsAtEnd (R.feed self.new.reader))
            (λ b. Consumes (R.feed self.old.reader) (R.feed self.new.reader) (b ∷ []))) }
        ensures counted { IfOk result (λ found.
            MatchOption found (self.new.taken ≡ self.old.taken) (λ b.
            self.new.taken ≡ self.old.taken + 1)) }
        ensures fewer { OnOk result (self.new.asks < self.old.asks) }
        ensures no_more { self.new.asks ≤ self.old.asks }
        ensures spends { self.old.asks ≤ self.new.asks + 1001 }
        ensures kept { OnErr result (Keeps (R.feed self.old.reader)
            (R.feed self.new.reader)) }
        ensures same { OnErr result (self.new.taken ≡ self.old.taken) }
        ensures fails { IfErr result IsReadFault }
        ensures told { IfErr result (IsTold (R.feed self.new.reader) self.new.asks) }
    {
        let Some(&byte) = self.at_hand::<A>().first() else {
            return self.byte();
        };
        self.take_at_hand::<A>(1);
        Ok(Some(byte))
    }

    /// Takes the next `len` bytes. It allocates memory as they come, a piece ahead.
    #[inline(always)]
    pub(crate) fn bytes(&mut self, into: &mut Vec<u8>, len: u64) -> Result<(), TextFault>
        requires { len ≤ 2 ^ 63 }
        ensures read { OnOk result (Consumes (R.feed self.old.reader)
            (R.feed self.new.reader) into.new.items) }
        ensures are { AreBytes into.new.items }
        ensures long { OnOk result (length into.new.items ≡ len) }
        ensures counted { OnOk result (self.new.taken ≡ self.old.taken + len) }
        ensures fewer { self.new.asks ≤ self.old.asks }
        ensures fails { IfErr result (FailsIn R.feed self.old self.new
            (FailsBytes len self.old.taken)) }
        ensures later { self.old.taken ≤ self.new.taken }
        ensures leaves { IfErr result (Leaves R.feed self.old self.new) }
        ensures spends { OnOk result (budget self.old ≤ budget self.new) }
    {
        let answer = vector(&mut self.reader, &mut self.asks, into, len, PIECE);
        self.taken += into.len() as u64;
        match answer {
            Ok(()) => Ok(()),
            Err(unread) => Err(TextFault::of_reader(unread, self.taken)),
        }
    }
}
