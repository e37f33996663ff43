// The header of a record.
ghost use Rattle.std.specs.Prelude.{◌≡◌, length};
ghost use Rattle.cdb_form.specs.Format.{pair_bytes, pair_size, pair_at};
ghost use Rattle.cdb_form.specs.Views.Pairs.{header_pair, PairFits};

use crate::pair::{TwoWords, read_pair, write_pair};
use crate::width::Width;

/// The header of a record, as Bernstein's cdb specification has it: two words before the key.
#[derive(Clone, Copy, Debug, PartialEq, Eq)]
pub struct Header {
    /// The length of the key, in bytes.
    pub klen: u64,
    /// The length of the value, in bytes.
    pub vlen: u64,
}

/// The header that two words of `WORD` bytes are.
pub fn read_header<L: Width>(from: &[u8]) -> Header
    requires { length from.now ≡ pair_size L.WORD }
    ensures read { header_pair result ≡ pair_at L.WORD from.now }
    ensures fits { PairFits L.TOP (header_pair result) }
{
    let pair = read_pair::<L>(from);
    Header {
        klen: pair.first,
        vlen: pair.second,
    }
}

/// Leaves the bytes of a header, two words of `WORD` bytes.
pub fn write_header<L: Width>(header: Header, into: &mut [u8])
    requires long { length into.old ≡ pair_size L.WORD }
    requires fits { PairFits L.TOP (header_pair header) }
    ensures written { into.new ≡ pair_bytes L.WORD (header_pair header) }
    ensures read_back { pair_at L.WORD into.new ≡ header_pair header }
{
    let pair = TwoWords {
        first: header.klen,
        second: header.vlen,
    };
    write_pair::<L>(pair, into);
}
