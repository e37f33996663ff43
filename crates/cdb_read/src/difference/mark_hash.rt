// The hash that marks a key.
ghost use Rattle.std.specs.Prelude.{◌≡◌, ℕ, ◌+◌, ◌≤◌, List, IfErr, IfOk, fold};
ghost use Rattle.cdb_store.specs.Reads.{OnlyReads};
ghost use Rattle.cdb_read.specs.Lookup.{bytes_of};
ghost use Rattle.cdb_read.specs.Views.Reads.{StoreFails};
ghost use Rattle.cdb_read.specs.Differing.{mark_hash, mark_step};

use crate::{AT_HAND, ReadFault, Reader, Span};
use cdb_form::Width;
use cdb_store::Store;

/// The start of a hash. Each byte multiplies the hash by `FACTOR`. The format multiplies by 33, so
/// keys that share a hash of the format need not share one here.
const START: u32 = 2166136261;

const FACTOR: u32 = 2654435761;

/// Returns the hash so far, continued with these bytes.
#[inline(always)]
fn hash_each(hash: u32, bytes: &[u8]) -> u32
    ensures { result ≡ fold mark_step hash bytes.now }
{
    let mut hash = hash;
    for byte in bytes {
        hash = hash.wrapping_mul(FACTOR) ^ u32::from(*byte);
    }
    hash
}

/// Returns the hash that marks a key. The key is read piece by piece.
#[inline(always)]
pub(crate) fn mark_hash<L: Width, S: Store>(
    reader: &mut Reader<S, L>,
    key: Span,
) -> Result<u32, ReadFault>
    requires inside { key.place + key.len ≤ S.size reader.old.store }
    ensures reads { OnlyReads S.Store reader.old.store reader.new.store }
    ensures hash { (b : List ℕ) → S.image reader.new.store b
        → IfOk result (λ h. h ≡ mark_hash (bytes_of b key)) }
    ensures fails { IfErr result (StoreFails S.Store reader.old.store reader.new.store) }
{
    let mut hash = START;
    let mut done = 0;
    while done < key.len {
        let n = (key.len - done).min(AT_HAND as u64) as usize;
        reader.read_ahead(key.place + done, n)?;
        hash = hash_each(hash, reader.at_hand(key.place + done, n));
        done += n as u64;
    }
    Ok(hash)
}
