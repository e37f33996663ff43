// The records that some bytes of a text begin with, as a file has them.
ghost use Rattle.std.specs.Prelude.{◌≡◌, ◌+◌, ◌≤◌, length, take, ◌++◌};
ghost use Rattle.cdb_form.specs.Format.{pair_size, record_bytes, record_of};
ghost use Rattle.cdb_form.specs.Views.Fill.{BeginsWithEach, Fills, PutsIfRoom, nothing};
ghost use Rattle.cdb_form.specs.Views.Prefix.{BeginsWithLine, BeginsWithRecord};

use crate::copying::{copy_past, copy_short};
use crate::header::{Header, write_header};
use crate::pair::pair_size;
use crate::text::prefix::{has_body, short_lengths};
use crate::text::prefix_line::plain_line;
use crate::width::Width;

/// How many bytes are copied at once, and past the end of what is copied at most.
const PIECE: usize = 64;

/// What was filled.
#[derive(Clone, Copy)]
pub struct Filled {
    /// How many bytes of the text were taken.
    pub taken: usize,
    /// How many bytes of the buffer hold records now.
    pub held: usize,
    /// How many records came.
    pub count: u64,
}

impl Filled {
    /// No record came behind the first `held` bytes.
    pub(crate) fn none(held: usize) -> Filled
        ensures { result ≡ nothing held }
    {
        Filled {
            taken: 0,
            held,
            count: 0,
        }
    }
}

/// Puts a header, a key and a value behind the first `end` bytes, and up to 64 bytes after them.
#[inline(always)]
fn put_past<L: Width>(
    key: &[u8],
    klen: usize,
    value: &[u8],
    vlen: usize,
    into: &mut [u8],
    end: usize,
)
    requires key { klen + 64 ≤ length key.now }
    requires value { vlen + 64 ≤ length value.now }
    requires key_fits { klen ≤ L.TOP }
    requires value_fits { vlen ≤ L.TOP }
    requires into { end + pair_size L.WORD + klen + vlen + 64 ≤ length into.old }
    ensures { take (end + pair_size L.WORD + klen + vlen) into.new ≡ take end into.old
        ++ record_bytes L.WORD (record_of (take klen key.now) (take vlen value.now)) }
{
    let pair = pair_size::<L>();
    L::write_word(klen as u64, &mut into[end..end + L::WORD]);
    L::write_word(vlen as u64, &mut into[end + L::WORD..end + pair]);
    copy_short(key, &mut into[end + pair..], klen);
    copy_past(value, &mut into[end + pair + klen..], vlen);
}

/// Puts the records that a text begins with behind the first `held` bytes, as long as their lengths
/// are short and there is room. The bytes behind them may be anything.
#[inline(never)]
pub fn fill<L: Width>(text: &[u8], into: &mut [u8], held: usize) -> Filled
    requires { held ≤ length into.old }
    ensures fills { Fills (λ rs. BeginsWithEach (BeginsWithRecord L.GREATEST) rs text.now result.taken)
        L.WORD L.TOP into.old into.new held result }
    ensures within { result.taken ≤ length text.now }
    ensures few { result.count ≤ result.taken }
{
    let pair = pair_size::<L>();
    let (mut taken, mut end, mut count) = (0, held, 0);
    while 16 <= text.len() - taken {
        let lengths = short_lengths(&text[taken..], L::GREATEST);
        if lengths.end == 0 {
            break;
        }
        let (klen, vlen) = (lengths.klen, lengths.vlen);
        let body = &text[taken + lengths.end..];
        if body.len() < klen + vlen + 3 + PIECE || into.len() - end < pair + klen + vlen + PIECE {
            break;
        }
        if !has_body(body, klen, vlen) {
            break;
        }
        put_past::<L>(body, klen, &body[klen + 2..], vlen, into, end);
        end += pair + klen + vlen;
        taken += lengths.end + klen + vlen + 3;
        count += 1;
    }
    Filled {
        taken,
        held: end,
        count,
    }
}

/// Does the same with the plain lines that a map text begins with.
#[inline(never)]
pub(crate) fn fill_lines<L: Width>(text: &[u8], into: &mut [u8], held: usize) -> Filled
    requires { held ≤ length into.old }
    ensures fills { Fills (λ rs. BeginsWithEach BeginsWithLine rs text.now result.taken)
        L.WORD L.TOP into.old into.new held result }
    ensures within { result.taken ≤ length text.now }
    ensures few { result.count ≤ result.taken }
{
    let pair = pair_size::<L>();
    // A line that is longer than a word's greatest number has no room.
    let limit = held + (into.len() - held).min(u32::MAX as usize);
    let (mut taken, mut end, mut count) = (0, held, 0);
    while PIECE < text.len() - taken {
        let bytes = &text[taken..];
        let Some(line) = plain_line(bytes) else {
            break;
        };
        let (klen, vlen) = (line.key.len(), line.value.len());
        if bytes.len() < line.len + PIECE || limit - end < pair + klen + vlen + PIECE {
            break;
        }
        put_past::<L>(bytes, klen, &bytes[klen + 1..], vlen, into, end);
        end += pair + klen + vlen;
        taken += line.len;
        count += 1;
    }
    Filled {
        taken,
        held: end,
        count,
    }
}

/// Puts a record behind the first `held` bytes, and answers how many there are then: no more if it
/// has no room, or a length that no word holds.
pub fn fill_one<L: Width>(key: &[u8], value: &[u8], into: &mut [u8], held: usize) -> usize
    requires { held ≤ length into.old }
    ensures { PutsIfRoom L.WORD L.TOP into.old into.new held result (record_of key.now value.now) }
{
    let pair = pair_size::<L>();
    let (klen, vlen) = (key.len(), value.len());
    if L::TOP < klen as u64 || L::TOP < vlen as u64 {
        return held;
    }
    if into.len() - held < pair || into.len() - held - pair < klen + vlen {
        return held;
    }
    let header = Header {
        klen: klen as u64,
        vlen: vlen as u64,
    };
    let at = held + pair;
    write_header::<L>(header, &mut into[held..at]);
    into[at..at + klen].copy_from_slice(key);
    into[at + klen..at + klen + vlen].copy_from_slice(value);
    at + klen + vlen
}
