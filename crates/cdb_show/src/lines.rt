// The lines of inputs, which are counted as their bytes are taken.
ghost use Rattle.std.specs.Prelude.{◌≡◌};
ghost use Rattle.cdb_show.specs.Views.Window.{feed_of, held_in, reader_of};

use crate::line_count::LineCount;
use crate::window::{InWindow, Window};
use cdb_form::{AtHand, Feeds};
use std::cell::Cell;
use std::io;

/// The lines of the inputs of a run, counted as their bytes are taken. Counting starts at an
/// input's first byte, or at the first byte of the reader that inputs share. No clause mentions the
/// count, which is kept in a cell; the clauses of `LineCount` say what each step does to it.
#[derive(Drop)]
pub struct Lines {
    /// True if the lines are counted.
    pub counts: bool,
    count: Cell<LineCount>,
}

impl Lines {
    /// Returns the lines before anything was taken.
    pub fn new(counts: bool) -> Lines
        ensures { result.counts ≡ counts }
    {
        Lines {
            counts,
            count: Cell::new(LineCount::new()),
        }
    }

    /// Begins an input: at the start of its own reader, or where the last input that shares its
    /// reader stopped.
    pub fn begin(&self, is_shared: bool) {
        self.count.set(self.count.get().begun(is_shared));
    }

    /// Counts the lines of bytes that are taken.
    #[cold]
    #[inline(never)]
    fn take(&self, bytes: &[u8]) {
        self.count.set(self.count.get().more(bytes));
    }

    /// The line, counted from 1, of the byte that comes next.
    #[inline(always)]
    pub fn next(&self) -> u64 {
        self.count.get().next()
    }

    /// The line, counted from 1, of the byte that was taken last.
    pub fn last(&self) -> u64 {
        self.count.get().last()
    }

    /// Returns the line, counted from 1, of a fault at `place` of the input that was read last.
    /// `place` counts bytes from that input's first one; nothing after it was taken.
    pub fn line_at(&self, place: u64) -> u64 {
        self.count.get().line_at(place)
    }
}

/// The bytes of its window are at hand.
#[derive(Clone, Copy)]
pub struct InLined;

/// A window whose lines are counted as its bytes are taken.
#[derive(Drop)]
pub struct Lined<'a, F> {
    window: Window<F>,
    lines: &'a Lines,
}

impl<'a, F> Lined<'a, F> {
    /// A window whose lines are counted in `lines`, starting with its next byte.
    pub fn new(window: Window<F>, lines: &'a Lines) -> Lined<'a, F>
        ensures { result.window ≡ window }
    {
        Lined { window, lines }
    }

    /// The window, which goes on after what was taken.
    pub fn into_window(self) -> Window<F>
        ensures { result ≡ self.entry.window }
    {
        self.window
    }
}

impl<'a, F: Feeds> Feeds for Lined<'a, F> {
    ghost use Rattle.cdb_show.specs.Views.WindowRests.{same_held};

    ghost feed = { λ r. feed_of F.feed r.window };

    ghost one_rest = { λ r whole first second one other.
        same_held (F.one_rest (reader_of r.window) whole) one other };

    #[inline(always)]
    fn read_some(&mut self, into: &mut [u8]) -> io::Result<usize> {
        let n = self.window.read_some(into)?;
        self.lines.take(&into[..n]);
        Ok(n)
    }
}

impl<'a, F: Feeds> AtHand<Lined<'a, F>> for InLined {
    ghost held = { λ r. held_in r.window };

    #[inline(always)]
    fn window<'w>(reader: &'w Lined<'a, F>) -> &'w [u8] {
        InWindow::window(&reader.window)
    }

    #[inline(always)]
    fn take(reader: &mut Lined<'a, F>, n: usize) {
        let window = InWindow::window(&reader.window);
        reader.lines.take(&window[..n]);
        InWindow::take(&mut reader.window, n);
    }
}
