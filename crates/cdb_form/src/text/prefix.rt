// The parts of the record of a native text that some bytes begin with.
ghost use Rattle.std.specs.Prelude.{◌≡◌, true, ◌+◌, ◌<◌, ◌≤◌, length, take};
ghost use Rattle.std.specs.Str.Parse.{AllDigits, digits_value};
ghost use Rattle.cdb_form.specs.Views.Prefix.{BeginsWithBody, BeginsWithLengths};

use crate::text::lanes::digit_ends;
use byteorder::{ByteOrder, LittleEndian};
use std::simd::prelude::*;

/// The lengths of a record that some bytes begin with.
#[derive(Clone, Copy)]
pub(crate) struct PrefixLengths {
    pub(crate) klen: usize,
    pub(crate) vlen: usize,
    /// The place of the key, or 0 if there are no lengths.
    pub(crate) end: usize,
}

/// The number of the 1 to 4 digits that some bytes begin with.
#[inline(always)]
fn short_number(bytes: &[u8], digits: u32) -> usize
    requires long { 4 ≤ length bytes.now }
    requires some { 1 ≤ digits }
    requires few { digits ≤ 4 }
    requires each { AllDigits 10 (take digits bytes.now) }
    ensures value { digits_value 10 (take digits bytes.now) ≡ result }
    ensures short { result < 10000 }
{
    let word = LittleEndian::read_u32(bytes);
    let ends = (word << (32 - 8 * digits)) & 0x0f0f0f0f;
    let tens = ends.wrapping_mul(10).wrapping_add(ends >> 8) & 0x00ff00ff;
    (tens.wrapping_mul(100).wrapping_add(tens >> 16) & 0xffff) as usize
}

/// The lengths, neither above `greatest`, of the record that some bytes begin with, if each has 1 to
/// 4 digits. If there are none, their end is 0.
#[inline(always)]
pub(crate) fn short_lengths(bytes: &[u8], greatest: u64) -> PrefixLengths
    requires { 16 ≤ length bytes.now }
    ensures begins { 0 < result.end → BeginsWithLengths greatest bytes.now result }
    ensures short { (result.klen < 10000) × (result.vlen < 10000) }
{
    let none = PrefixLengths {
        klen: 0,
        vlen: 0,
        end: 0,
    };
    if bytes[0] != b'+' {
        return none;
    }
    let ends = digit_ends(u8x16::from_slice(bytes));
    let behind = ends & ends.wrapping_sub(1);
    let comma = behind.trailing_zeros();
    let rest = behind & behind.wrapping_sub(1);
    let colon = rest.trailing_zeros();
    if comma.wrapping_sub(2) > 3 || colon.wrapping_sub(comma + 2) > 3 {
        return none;
    }
    if bytes[comma as usize] != b',' || bytes[colon as usize] != b':' {
        return none;
    }
    let klen = short_number(&bytes[1..5], comma - 1);
    let at = comma as usize + 1;
    let vlen = short_number(&bytes[at..at + 4], colon - comma - 1);
    if greatest < klen as u64 || greatest < vlen as u64 {
        return none;
    }
    PrefixLengths {
        klen,
        vlen,
        end: colon as usize + 1,
    }
}

/// Returns true if some bytes begin with a key and a value of these lengths, with their marks.
#[inline(always)]
pub(crate) fn has_body(bytes: &[u8], klen: usize, vlen: usize) -> bool
    requires { klen + vlen < 2000000000 }
    ensures { result ≡ true → BeginsWithBody klen vlen bytes.now }
{
    if bytes.len() < klen + vlen + 3 {
        return false;
    }
    if bytes[klen] != b'-' || bytes[klen + 1] != b'>' {
        return false;
    }
    bytes[klen + 2 + vlen] == b'\n'
}
