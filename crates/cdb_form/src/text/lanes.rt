// Bytes that are looked at 16 or 32 at a time.
ghost use Rattle.std.specs.Prelude.{◌≡◌, true, ℕ, ◌%◌, ◌+◌, ◌<◌, ◌≤◌, length, map, nat_le, slice_index};
ghost use Rattle.std.specs.Simd.Lanes.{mask_l};
ghost use Rattle.cdb_form.specs.Views.Prefix.{may_end};
ghost use Rattle.cdb_form.specs.Views.MapParser.{is_of};
ghost use Rattle.cdb_form.specs.declared.text.kind.Kind.TheVariants.{InWord};

use crate::text::kind::Kind;
use std::simd::prelude::*;

/// Returns a bit for each of 32 bytes: 1 if the byte may be of another kind.
#[inline(always)]
fn ends(kind: Kind, bytes: u8x32) -> u64
    ensures { result ≡ mask_l (map (may_end kind) bytes) }
{
    match kind {
        Kind::Blank => bytes.simd_ne(u8x32::splat(b' ')).to_bitmask(),
        Kind::InWord => bytes.simd_le(u8x32::splat(b' ')).to_bitmask(),
        Kind::InLine => bytes.simd_eq(u8x32::splat(b'\n')).to_bitmask(),
    }
}

/// Returns a bit for each of 16 bytes: 1 if the byte may end a word.
#[inline(always)]
fn word_ends(bytes: u8x16) -> u64
    ensures { result ≡ mask_l (map (may_end InWord) bytes) }
{
    bytes.simd_le(u8x16::splat(b' ')).to_bitmask()
}

/// Returns a bit for each of 16 bytes: 1 if the byte is no digit.
#[inline(always)]
pub(crate) fn digit_ends(bytes: u8x16) -> u64
    ensures { result ≡ mask_l (map (λ c. nat_le 10 ((c + 208) % 256)) bytes) }
{
    (bytes - u8x16::splat(b'0'))
        .simd_ge(u8x16::splat(10))
        .to_bitmask()
}

/// Returns the number of bytes of a word that some bytes begin with, as far as whole 16 show it:
/// most words are short.
#[inline(always)]
pub(crate) fn word_run(bytes: &[u8]) -> usize
    ensures within { result ≤ length bytes.now }
    ensures each { (k : ℕ) → k < result → is_of InWord (slice_index bytes.now k) ≡ true }
{
    let mut place = 0;
    while 16 <= bytes.len() - place {
        let ends = word_ends(u8x16::from_slice(&bytes[place..]));
        if ends != 0 {
            return place + ends.trailing_zeros() as usize;
        }
        place += 16;
    }
    place
}

/// Returns the number of bytes of a kind that some bytes begin with, as far as whole 32 show it.
#[inline(always)]
pub(crate) fn wide_run(kind: Kind, bytes: &[u8]) -> usize
    ensures within { result ≤ length bytes.now }
    ensures each { (k : ℕ) → k < result → is_of kind (slice_index bytes.now k) ≡ true }
{
    let mut place = 0;
    while 32 <= bytes.len() - place {
        let ends = ends(kind, u8x32::from_slice(&bytes[place..]));
        if ends != 0 {
            return place + ends.trailing_zeros() as usize;
        }
        place += 32;
    }
    place
}
