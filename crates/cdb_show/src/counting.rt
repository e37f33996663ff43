// The number of newlines that some bytes have.
ghost use Rattle.std.specs.Prelude.{◌≡◌, ◌≤◌, length};
ghost use Rattle.cdb_show.specs.Lines.{newlines};

/// The number of bytes that are counted at a time: the most that a one-byte counter, which is fast,
/// can count.
const FEW: usize = 255;

/// Returns the number of newlines that a few bytes have.
fn few_newlines(bytes: &[u8]) -> u8
    requires { length bytes.now ≤ 255 }
    ensures { result ≡ newlines bytes.now }
{
    let mut count = 0u8;
    for byte in bytes {
        count += u8::from(*byte == b'\n');
    }
    count
}

/// Returns the number of newlines that some bytes have.
pub(crate) fn newlines(bytes: &[u8]) -> u64
    ensures { result ≡ newlines bytes.now }
{
    let mut count = 0u64;
    let mut at = 0;
    while at < bytes.len() {
        let few = (bytes.len() - at).min(FEW);
        count += u64::from(few_newlines(&bytes[at..at + few]));
        at += few;
    }
    count
}
