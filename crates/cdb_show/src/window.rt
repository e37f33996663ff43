// A window over a reader, which gives single bytes fast.
ghost use Rattle.std.specs.Prelude.{◌≡◌, ◌<◌, ◌≤◌, [], length, take, min, IfOk, IfErr, OnOk, OnErr};
ghost use Rattle.std.specs.Prelude.{vec_len};
ghost use Rattle.cdb_form.specs.Views.Feed.{Consumes, IsAtEnd, Keeps};

use cdb_form::{AtHand, Feeds, PIPE};
use std::alloc::Global;
use std::io::{self, ErrorKind};

/// The number of bytes that a window has that may grow.
const FIRST: usize = 4096;

/// Takes the bytes of a reader many at a time, and gives them as they are requested. `into_reader`
/// returns the reader.
///
/// The contracts hold of whatever bytes agree with those that the reader gave.
#[derive(Drop)]
pub struct Window<F> {
    reader: F,
    window: Vec<u8>,
    start: usize,
    end: usize,
    /// The number of bytes that the window has once a read has filled it.
    most: usize,
    ghost some: { 0 < vec_len window },
    ghost ordered: { start ≤ end },
    ghost within: { end ≤ vec_len window },
}

/// Memory for a window was refused.
#[derive(Drop)]
pub struct NoWindow<F> {
    /// The reader, as it came.
    pub reader: F,
}

impl<F: Feeds> Window<F> {
    ghost use Rattle.cdb_show.specs.Views.Window.{feed_of, held_in, reader_of};

    /// Returns an empty window of `size` bytes over a reader. Nothing is taken from the reader yet.
    /// If the allocation fails, `NoWindow` has the reader as it came.
    pub fn new(alloc: Global, reader: F, size: usize) -> Result<Window<F>, NoWindow<F>>
        requires { 0 < size }
        ensures reader { IfOk result (λ w. reader_of w ≡ reader) }
        ensures empty { IfOk result (λ w. held_in w ≡ []) }
        ensures kept { IfOk result (λ w. Keeps (F.feed reader) (feed_of F.feed w)) }
        ensures agrees { IfOk result (λ w. Keeps (feed_of F.feed w) (F.feed reader)) }
        ensures size { IfOk result (λ w. vec_len w.window ≡ size) }
        ensures back { IfErr result (λ e. e.reader ≡ reader) }
    {
        match vec![in alloc; 0u8; size] {
            Ok(window) => Ok(Window {
                reader,
                window,
                start: 0,
                end: 0,
                most: size,
            }),
            Err(_) => Err(NoWindow { reader }),
        }
    }

    /// Returns an empty window of 4096 bytes over a reader. Nothing is taken from the reader yet.
    /// Once a read has filled the window, it becomes as long as a pipe (`PIPE` bytes), if there is
    /// memory for that. If the first allocation fails, `NoWindow` has the reader as it came.
    pub fn growing(alloc: Global, reader: F) -> Result<Window<F>, NoWindow<F>>
        ensures reader { IfOk result (λ w. reader_of w ≡ reader) }
        ensures empty { IfOk result (λ w. held_in w ≡ []) }
        ensures kept { IfOk result (λ w. Keeps (F.feed reader) (feed_of F.feed w)) }
        ensures agrees { IfOk result (λ w. Keeps (feed_of F.feed w) (F.feed reader)) }
        ensures back { IfErr result (λ e. e.reader ≡ reader) }
    {
        let mut window = Window::new(alloc, reader, FIRST)?;
        window.most = PIPE;
        Ok(window)
    }

    /// Returns the reader. The bytes that the window holds are lost.
    pub fn into_reader(self) -> F
        ensures reader { result ≡ reader_of self }
        ensures lost { Consumes (feed_of F.feed self) (F.feed result) (held_in self) }
    {
        self.reader
    }

    /// Makes the empty window as long as it may become.
    #[cold]
    #[inline(never)]
    fn grow(&mut self)
        requires { self.old.start ≡ self.old.end }
        ensures bytes { Keeps (feed_of F.feed self.old) (feed_of F.feed self.new) }
        ensures empty { self.new.start ≡ self.new.end }
    {
        self.start = 0;
        self.end = 0;
        if self.window.len() < self.most {
            // Without memory the window stays as it is.
            let _ = self.window.resize(self.most, 0);
        }
    }

    /// Fills the empty window, by one request to the reader.
    #[cold]
    #[inline(never)]
    fn refill(&mut self) -> Result<(), ErrorKind>
        requires { self.old.start ≡ self.old.end }
        ensures bytes { Keeps (feed_of F.feed self.old) (feed_of F.feed self.new) }
        ensures end { OnOk result
            (self.new.start ≡ self.new.end → IsAtEnd (feed_of F.feed self.new)) }
        ensures empty { OnErr result (self.new.start ≡ self.new.end) }
        ensures failed { OnErr result (feed_of F.feed self.new).failed }
    {
        if self.end == self.window.len() {
            self.grow();
        }
        match self.reader.read_some(&mut self.window) {
            Ok(n) => {
                self.start = 0;
                self.end = n;
                Ok(())
            }
            Err(e) => Err(e.kind()),
        }
    }

    /// Gives bytes of the reader past the empty window, by one request.
    #[cold]
    #[inline(never)]
    fn read_past(&mut self, buf: &mut [u8]) -> Result<usize, ErrorKind>
        requires { self.old.start ≡ self.old.end }
        ensures bound { IfOk result (λ n. n ≤ length buf.new) }
        ensures bytes { IfOk result (λ n.
            Consumes (feed_of F.feed self.old) (feed_of F.feed self.new) (take n buf.new)) }
        ensures end { IfOk result (λ n.
            n ≡ 0 → 0 < length buf.old → IsAtEnd (feed_of F.feed self.new)) }
        ensures kept { OnErr result (Keeps (feed_of F.feed self.old) (feed_of F.feed self.new)) }
        ensures failed { OnErr result (feed_of F.feed self.new).failed }
    {
        match self.reader.read_some(buf) {
            Ok(n) => Ok(n),
            Err(e) => Err(e.kind()),
        }
    }

    /// Returns the bytes at hand: the bytes of the window that were not given yet.
    #[inline(always)]
    fn at_hand(&self) -> &[u8]
        ensures { result.now ≡ held_in self.now }
    {
        &self.window[self.start..self.end]
    }

    /// Takes the first `n` of the bytes at hand.
    #[inline(always)]
    fn take_at_hand(&mut self, n: usize)
        requires { n ≤ length (held_in self.old) }
        ensures { Consumes (feed_of F.feed self.old) (feed_of F.feed self.new)
            (take n (held_in self.old)) }
    {
        self.start += n;
    }

    /// Gives bytes of the window.
    fn give(&mut self, buf: &mut [u8]) -> usize
        ensures count { result ≡ min (length buf.old) (length (held_in self.old)) }
        ensures bound { result ≤ length buf.new }
        ensures bytes { Consumes (feed_of F.feed self.old) (feed_of F.feed self.new)
            (take result buf.new) }
    {
        let window = self.at_hand();
        let n = buf.len().min(window.len());
        buf[..n].copy_from_slice(&window[..n]);
        self.take_at_hand(n);
        n
    }
}

impl<F: Feeds> Feeds for Window<F> {
    ghost use Rattle.cdb_show.specs.Views.Window.{feed_of};
    ghost use Rattle.cdb_show.specs.Views.WindowRests.{same_held};

    ghost feed = { λ w. feed_of F.feed w };

    ghost one_rest = { λ w whole first second one other.
        same_held (F.one_rest w.reader whole) one other };

    #[inline(always)]
    fn read_some(&mut self, into: &mut [u8]) -> io::Result<usize> {
        // A read of `PIPE` bytes or more goes past the empty window, which saves a copy. The limit
        // is a constant, which keeps shorter reads as fast as they are without it.
        if PIPE <= into.len() && self.start == self.end {
            return match self.read_past(into) {
                Ok(n) => Ok(n),
                Err(kind) => Err(io::Error::from(kind)),
            };
        }
        if self.start == self.end
            && let Err(kind) = self.refill()
        {
            return Err(io::Error::from(kind));
        }
        if self.start == self.end {
            return Ok(0);
        }
        Ok(self.give(into))
    }
}

/// The window's bytes are at hand.
#[derive(Clone, Copy)]
pub struct InWindow;

impl<F: Feeds> AtHand<Window<F>> for InWindow {
    ghost use Rattle.cdb_show.specs.Views.Window.{held_in};

    ghost held = { held_in };

    #[inline(always)]
    fn window(reader: &Window<F>) -> &[u8] {
        reader.at_hand()
    }

    #[inline(always)]
    fn take(reader: &mut Window<F>, n: usize) {
        reader.take_at_hand(n);
    }
}
