// The mark of a record.
ghost use Rattle.std.specs.Prelude.{◌≡◌, ℕ, ◌<◌, ◌≤◌, true, false, length, get_or};
ghost use Rattle.cdb_make.specs.Spans.{is_gone, is_found, gone_of, found_of, all_marks};

/// The mark of a record: whether it stays or goes.
#[derive(Clone, Copy, Debug, PartialEq, Eq)]
pub(crate) enum Mark {
    /// The record stays.
    Stays,
    /// The record stays, and a look has found it.
    Found,
    /// The record goes with the next pass.
    Gone,
}

impl Mark {
    /// Returns true if the record goes with the next pass.
    #[inline(always)]
    pub(crate) fn is_gone(self) -> bool
        ensures { result ≡ is_gone self }
    {
        match self {
            Mark::Stays | Mark::Found => false,
            Mark::Gone => true,
        }
    }

    /// Returns true if a look has found the record.
    #[inline(always)]
    pub(crate) fn is_found(self) -> bool
        ensures { result ≡ is_found self }
    {
        match self {
            Mark::Stays | Mark::Gone => false,
            Mark::Found => true,
        }
    }
}

/// Returns true if record `n` goes.
#[inline(always)]
pub(crate) fn is_gone_at(marks: &[Mark], n: usize) -> bool
    requires { n < length marks.now }
    ensures { result ≡ get_or (gone_of marks.now) n true }
{
    marks[n].is_gone()
}

/// Returns true if record `n` goes. Records past the marks stay.
#[inline(always)]
pub(crate) fn is_gone_of_all(marks: &[Mark], n: usize) -> bool
    ensures { (count : ℕ) → length marks.now ≤ count → n < count
        → result ≡ get_or (gone_of (all_marks count marks.now)) n true }
{
    n < marks.len() && is_gone_at(marks, n)
}

/// Returns true if a look has found record `n`.
#[inline(always)]
pub(crate) fn is_found_at(marks: &[Mark], n: usize) -> bool
    requires { n < length marks.now }
    ensures { result ≡ get_or (found_of marks.now) n false }
{
    marks[n].is_found()
}
