// The lines of an input, as its bytes are taken.
ghost use Rattle.std.specs.Prelude.{◌≡◌, ℕ, ◌+◌, ◌-◌, ◌<◌, ◌≤◌, ◌^◌, List, [], ◌++◌, length, if◌then◌else◌};
ghost use Rattle.cdb_show.specs.Lines.{Counts, line_of, shared_newlines};

use crate::counting::newlines;

/// The numbers of newlines and bytes that were taken of the input that was begun last.
#[derive(Clone, Copy)]
pub(crate) struct LineCount {
    /// The number of newlines that were taken: of the input, or of the reader that it shares with
    /// others.
    newlines: u64,
    /// True if the byte that was taken last is no newline.
    amid: bool,
    /// The number of bytes that were taken of the input.
    bytes: u64,
    /// True if the input shares its reader with others.
    is_shared: bool,
    /// The number of newlines that were taken of that reader before another input began.
    shared: u64,
}

impl LineCount {
    /// Returns the count when nothing was taken yet.
    pub(crate) fn new() -> LineCount
        ensures counts { Counts 0 [] result }
        ensures shared { shared_newlines result ≡ 0 }
    {
        LineCount {
            newlines: 0,
            amid: false,
            bytes: 0,
            is_shared: false,
            shared: 0,
        }
    }

    /// Returns the count as an input begins: at the start of its own reader, or where the last
    /// input that shares its reader stopped.
    pub(crate) fn begun(self, is_shared: bool) -> LineCount
        ensures counts { Counts (if is_shared then shared_newlines self else 0) [] result }
        ensures shared { shared_newlines result ≡ shared_newlines self }
        ensures kind { result.is_shared ≡ is_shared }
    {
        let shared = if self.is_shared {
            self.newlines
        } else {
            self.shared
        };
        LineCount {
            newlines: if is_shared { shared } else { 0 },
            amid: false,
            bytes: 0,
            is_shared,
            shared,
        }
    }

    /// Returns the count after `bytes` were taken too.
    pub(crate) fn more(self, bytes: &[u8]) -> LineCount
        ensures counts { (before : ℕ) → (taken : List ℕ) → Counts before taken self
            → Counts before (taken ++ bytes.now) result }
        ensures shared { result.is_shared ≡ self.is_shared }
        ensures others { result.shared ≡ self.shared }
    {
        let Some(last) = bytes.last() else {
            return self;
        };
        LineCount {
            newlines: self.newlines.saturating_add(newlines(bytes)),
            amid: *last != b'\n',
            bytes: self.bytes.saturating_add(bytes.len() as u64),
            ..self
        }
    }

    /// The line, counted from 1, of the byte that comes next.
    #[inline(always)]
    pub(crate) fn next(self) -> u64
        ensures { (before : ℕ) → (taken : List ℕ) → Counts before taken self
            → before + length taken < 2 ^ 64 - 1
            → result ≡ line_of before taken (length taken) }
    {
        self.newlines.saturating_add(1)
    }

    /// The line, counted from 1, of the byte that was taken last.
    pub(crate) fn last(self) -> u64
        ensures { (before : ℕ) → (taken : List ℕ) → Counts before taken self
            → before + length taken < 2 ^ 64 - 1 → 0 < length taken
            → result ≡ line_of before taken (length taken - 1) }
    {
        if self.amid {
            self.next()
        } else {
            self.newlines
        }
    }

    /// The line, counted from 1, of this place in the input: of the byte that was taken last, or of
    /// the one that comes next.
    pub(crate) fn line_at(self, place: u64) -> u64
        ensures { (before : ℕ) → (taken : List ℕ) → Counts before taken self
            → before + length taken < 2 ^ 64 - 1 → place ≤ length taken
            → length taken ≤ place + 1 → result ≡ line_of before taken place }
    {
        if place < self.bytes {
            self.last()
        } else {
            self.next()
        }
    }
}
