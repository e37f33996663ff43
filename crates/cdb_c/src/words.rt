// A word of a file.
ghost use Rattle.std.specs.Prelude.{◌≡◌};
ghost use Rattle.byteorder.specs.Endian.{little_number, little_bytes};

use cdb_form::{Narrow, Width};

/// Returns the number that four bytes are, the lowest one first.
#[unsafe(no_mangle)]
pub extern "C" fn cdb_unpack(bytes: &[u8; 4]) -> u32
    ensures { result ≡ little_number 4 bytes.now }
{
    Narrow::read_word(bytes) as u32
}

/// Writes a number into four bytes, the lowest one first.
#[unsafe(no_mangle)]
pub extern "C" fn cdb_pack(number: u32, bytes: &mut [u8; 4])
    ensures { bytes.new ≡ little_bytes 4 number }
{
    Narrow::write_word(u64::from(number), bytes);
}
