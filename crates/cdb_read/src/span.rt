// The places of keys and values in a file.
ghost use Rattle.std.specs.Prelude.{◌+◌, ◌<◌, ◌≤◌, MatchOption};
ghost use Rattle.std.specs.Bool.{Decides};
ghost use Rattle.cdb_form.specs.Format.{pair_size};
ghost use Rattle.cdb_read.specs.Views.Spans.{HasSpans};

use cdb_form::{Header, Width, pair_size};

/// Some bytes of a file.
#[derive(Clone, Copy, Debug, PartialEq, Eq)]
pub struct Span {
    /// The place of the first byte, in bytes from the file's start.
    pub place: u64,
    /// The number of bytes.
    pub len: u64,
}

/// The place of a record of a file, and the spans of its key and its value.
#[derive(Clone, Copy, Debug, PartialEq, Eq)]
pub struct Pair {
    /// The place of the record.
    pub place: u64,
    /// The span of the key.
    pub key: Span,
    /// The span of the value.
    pub value: Span,
}

/// Returns true if a file of `size` bytes has `len` bytes at a place.
#[inline(always)]
pub fn has_bytes(size: u64, place: u64, len: u64) -> bool
    ensures { Decides result (place + len ≤ size) }
{
    place <= size && len <= size - place
}

/// Returns the spans of the record at a place that has this header, or `None` if the record passes
/// the limit. The header does not pass it.
#[inline(always)]
pub fn spans<L: Width>(place: u64, header: Header, limit: u64) -> Option<Pair>
    requires { place + pair_size L.WORD ≤ limit }
    ensures { MatchOption result
        (limit < place + (pair_size L.WORD + header.klen + header.vlen))
        (HasSpans L.WORD place header limit) }
{
    let key = Span {
        place: place + pair_size::<L>() as u64,
        len: header.klen,
    };
    if !has_bytes(limit, key.place, key.len) {
        return None;
    }
    let value = Span {
        place: key.place + key.len,
        len: header.vlen,
    };
    if !has_bytes(limit, value.place, value.len) {
        return None;
    }
    Some(Pair { place, key, value })
}
