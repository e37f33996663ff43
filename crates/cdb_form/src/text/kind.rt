// The kinds of bytes of a map text.
ghost use Rattle.std.specs.Prelude.{◌≡◌, ◌≤◌, length, take};
ghost use Rattle.std.specs.List.{AllPass};
ghost use Rattle.cdb_form.specs.Views.MapParser.{is_of};

use memchr::{memchr, memchr3};

/// A kind of bytes that follow one another.
#[derive(Clone, Copy)]
pub(crate) enum Kind {
    /// A space or a tab.
    Blank,
    /// A byte of a key: neither a blank nor a newline.
    InWord,
    /// A byte of a line: no newline.
    InLine,
}

impl Kind {
    /// Returns true if a byte has this kind.
    pub(crate) fn has(self, byte: u8) -> bool
        ensures { result ≡ is_of self byte }
    {
        match self {
            Kind::Blank => byte == b' ' || byte == b'\t',
            Kind::InWord => byte != b' ' && byte != b'\t' && byte != b'\n',
            Kind::InLine => byte != b'\n',
        }
    }

    /// Returns the number of bytes of this kind that `bytes` begins with. Blanks are few, and not
    /// looked for: their number is 0.
    #[inline(always)]
    pub(crate) fn run(self, bytes: &[u8]) -> usize
        ensures within { result ≤ length bytes.now }
        ensures each { AllPass (is_of self) (take result bytes.now) }
    {
        let other = match self {
            Kind::Blank => Some(0),
            Kind::InWord => memchr3(b' ', b'\t', b'\n', bytes),
            Kind::InLine => memchr(b'\n', bytes),
        };
        match other {
            Some(place) => place,
            None => bytes.len(),
        }
    }
}
