// The widths of a word.
ghost use Rattle.std.specs.Prelude.{◌≡◌, ℕ, ◌+◌, ◌*◌, ◌^◌, ◌<◌, ◌≤◌, ◌⊎◌, length};
ghost use Rattle.byteorder.specs.Endian.{little_number, little_bytes};

use byteorder::{ByteOrder, LittleEndian};

/// The width of a file's words. Every layout follows from it.
pub trait Width {
    ghost WORD: { ℕ };

    ghost TOP: { ℕ };

    ghost GREATEST: { ℕ };

    /// The bytes of a word.
    const WORD: usize;

    /// The greatest word.
    const TOP: u64;

    /// The greatest size of a file, and the greatest length in a native text, in bytes.
    const GREATEST: u64;

    /// The number that `WORD` bytes are, the lowest byte first.
    fn read_word(from: &[u8]) -> u64
        requires { length from.now ≡ WORD }
        ensures number { result ≡ little_number WORD from.now }
        ensures top { result ≤ TOP };

    /// Leaves the `WORD` bytes of a number, the lowest byte first.
    fn write_word(word: u64, into: &mut [u8])
        requires long { length into.old ≡ WORD }
        requires fits { word ≤ TOP }
        ensures { into.new ≡ little_bytes WORD word };

    ghost four_or_eight: { (WORD ≡ 4) ⊎ (WORD ≡ 8) };

    ghost top_is: { TOP + 1 ≡ 256 ^ WORD };

    ghost greatest_fits: { (GREATEST ≤ TOP) × (GREATEST < 2 ^ 63) × (512 * WORD ≤ GREATEST) };
}

/// Words of 4 bytes: Bernstein's cdb.
#[derive(Clone, Copy, Debug, PartialEq, Eq)]
pub struct Narrow;

/// Words of 8 bytes, for files above 4 GiB.
#[derive(Clone, Copy, Debug, PartialEq, Eq)]
pub struct Wide;

impl Width for Narrow {
    ghost use Rattle.std.proofs.Common.{rules, inl, inr, refl};

    ghost WORD = { 4 };

    ghost TOP = { 4294967295 };

    ghost GREATEST = { 4294967295 };

    ghost four_or_eight = { inl refl };

    ghost top_is = { refl };

    ghost greatest_fits = { Prim.search rules };

    const WORD: usize = 4;

    const TOP: u64 = 4294967295;

    const GREATEST: u64 = 4294967295;

    fn read_word(from: &[u8]) -> u64 {
        u64::from(LittleEndian::read_u32(from))
    }

    fn write_word(word: u64, into: &mut [u8]) {
        LittleEndian::write_u32(into, word as u32);
    }
}

impl Width for Wide {
    ghost use Rattle.std.proofs.Common.{rules, inl, inr, refl};

    ghost WORD = { 8 };

    ghost TOP = { 18446744073709551615 };

    ghost GREATEST = { 9223372036854775807 };

    ghost four_or_eight = { inr refl };

    ghost top_is = { refl };

    ghost greatest_fits = { Prim.search rules };

    const WORD: usize = 8;

    const TOP: u64 = 18446744073709551615;

    const GREATEST: u64 = 9223372036854775807;

    fn read_word(from: &[u8]) -> u64 {
        LittleEndian::read_u64(from)
    }

    fn write_word(word: u64, into: &mut [u8]) {
        LittleEndian::write_u64(into, word);
    }
}
