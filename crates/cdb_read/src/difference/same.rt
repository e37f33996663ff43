// The comparison of bytes of two databases.
ghost use Rattle.std.specs.Prelude.{◌≡◌, ◌+◌, ◌≤◌, ℕ, List, IfErr, IfOk};
ghost use Rattle.std.specs.Bool.{Decides};
ghost use Rattle.cdb_read.specs.Lookup.{bytes_of};
ghost use Rattle.cdb_read.specs.Differing.{BytesStop, ReadBoth};

use crate::difference::stop::Stop;
use crate::{AT_HAND, Reader, Span};
use cdb_form::Width;
use cdb_store::Store;

/// Returns true if some bytes are the same.
pub(crate) fn is_same(piece: &[u8], beside: &[u8]) -> bool
    ensures { Decides result (piece.now ≡ beside.now) }
{
    piece == beside
}

/// Returns true if two spans have the same bytes. They are compared piece by piece, up to the first
/// that differs.
#[inline(always)]
pub(crate) fn is_same_span<L: Width, S: Store, T: Store>(
    own: &mut Reader<S, L>,
    mine: Span,
    other: &mut Reader<T, L>,
    theirs: Span,
) -> Result<bool, Stop>
    requires inside { mine.place + mine.len ≤ S.size own.old.store }
    requires within { theirs.place + theirs.len ≤ T.size other.old.store }
    ensures reads { ReadBoth own.old own.new other.old other.new }
    ensures same { (b c : List ℕ) → S.image own.new.store b → T.image other.new.store c
        → IfOk result (λ same. Decides same (bytes_of b mine ≡ bytes_of c theirs)) }
    ensures fails { IfErr result (BytesStop S.Store T.Store own.old.store own.new.store
        other.old.store other.new.store) }
{
    if mine.len != theirs.len {
        return Ok(false);
    }
    let mut done = 0;
    while done < mine.len {
        let n = (mine.len - done).min(AT_HAND as u64) as usize;
        own.read_ahead(mine.place + done, n)?;
        match other.read_ahead(theirs.place + done, n) {
            Ok(()) => {}
            Err(fault) => return Err(Stop::Other(fault)),
        }
        let piece = own.at_hand(mine.place + done, n);
        let beside = other.at_hand(theirs.place + done, n);
        if !is_same(piece, beside) {
            return Ok(false);
        }
        done += n as u64;
    }
    Ok(true)
}
