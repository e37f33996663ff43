// Two words side by side: a header, a slot or a pointer.
ghost use Rattle.std.specs.Prelude.{◌≡◌, ◌*◌, length};
ghost use Rattle.cdb_form.specs.Format.{pair_bytes, pair_size, pair_at};
ghost use Rattle.cdb_form.specs.Views.Pairs.{pair_of, PairFits};

use crate::width::Width;

/// The greatest size of two words, in bytes: their size if words have 8 bytes.
pub const GREATEST_PAIR: usize = 16;

/// Two words.
#[derive(Clone, Copy)]
pub(crate) struct TwoWords {
    pub(crate) first: u64,
    pub(crate) second: u64,
}

/// Returns the number of bytes that two words take, and so a header, a slot or a pointer.
pub fn pair_size<L: Width>() -> usize
    ensures { result ≡ pair_size L.WORD }
{
    2 * L::WORD
}

/// The two words of some bytes.
pub(crate) fn read_pair<L: Width>(from: &[u8]) -> TwoWords
    requires { length from.now ≡ pair_size L.WORD }
    ensures read { pair_of result ≡ pair_at L.WORD from.now }
    ensures fits { PairFits L.TOP (pair_of result) }
{
    TwoWords {
        first: L::read_word(&from[..L::WORD]),
        second: L::read_word(&from[L::WORD..]),
    }
}

/// Leaves the bytes of two words.
pub(crate) fn write_pair<L: Width>(pair: TwoWords, into: &mut [u8])
    requires long { length into.old ≡ pair_size L.WORD }
    requires fits { PairFits L.TOP (pair_of pair) }
    ensures written { into.new ≡ pair_bytes L.WORD (pair_of pair) }
    ensures read_back { pair_at L.WORD into.new ≡ pair_of pair }
{
    L::write_word(pair.first, &mut into[..L::WORD]);
    L::write_word(pair.second, &mut into[L::WORD..]);
}
