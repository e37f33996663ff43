// The record of a database file that some bytes begin with.
ghost use Rattle.std.specs.Prelude.{◌<◌, IfSome};
ghost use Rattle.cdb_form.specs.Views.Prefix.{IsStored, PrefixTells, shown_by};

use crate::header::read_header;
use crate::pair::pair_size;
use crate::record::PeekedRecord;
use crate::width::Width;

/// Returns the number of bytes that the record has that some bytes begin with, or `None` if they
/// end before it does.
pub fn record_len<L: Width>(bytes: &[u8]) -> Option<usize>
    ensures { PrefixTells L.WORD bytes.now result }
{
    let size = pair_size::<L>();
    if bytes.len() < size {
        return None;
    }
    let header = read_header::<L>(&bytes[..size]);
    // The lengths may be any: their sum may pass a word.
    let held = (bytes.len() - size) as u64;
    if held < header.klen || held - header.klen < header.vlen {
        return None;
    }
    Some(size + header.klen as usize + header.vlen as usize)
}

/// The record that some bytes begin with, if it is whole there.
#[inline(always)]
pub(crate) fn stored_record<L: Width>(bytes: &[u8]) -> Option<PeekedRecord<'_>>
    ensures { IfSome result (λ f. IsStored L.WORD bytes.now f.len (shown_by f)) }
{
    let size = pair_size::<L>();
    if bytes.len() < size {
        return None;
    }
    let header = read_header::<L>(&bytes[..size]);
    let body = &bytes[size..];
    // The lengths may be any: their sum may pass a word.
    let held = body.len() as u64;
    if held < header.klen || held - header.klen < header.vlen {
        return None;
    }
    let (klen, vlen) = (header.klen as usize, header.vlen as usize);
    Some(PeekedRecord {
        key: &body[..klen],
        value: &body[klen..klen + vlen],
        len: size + klen + vlen,
    })
}
