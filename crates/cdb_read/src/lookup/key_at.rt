// The record at a place, and whether it has a key.
ghost use Rattle.std.specs.Prelude.{◌+◌, ◌<◌, ◌≤◌, ◌^◌, length, IfOk, IfErr};
ghost use Rattle.cdb_store.specs.Reads.{OnlyReads};
ghost use Rattle.cdb_read.specs.Views.Reads.{StoreFails};
ghost use Rattle.cdb_read.specs.Views.Search.{TellsSame, LooksAt, LookWithin};
ghost use Rattle.cdb_read.specs.Views.Window.{Shows};

use crate::fault::ReadFault;
use crate::span::{Span, has_bytes, spans};
use crate::window::{WINDOW, Window};
use cdb_form::{Width, head_size, pair_size, read_header};
use cdb_store::Store;

/// The result of a look for a key at a place.
#[derive(Clone, Copy)]
pub enum Look {
    /// No whole record.
    Broken,
    /// A record with another key.
    Other,
    /// A record with the key, and the span of its value.
    Value(Span),
}

/// Returns true if these bytes are at a place. At most a window is read at a time.
#[inline(always)]
pub(crate) fn bytes_are_at<S: Store>(
    store: &mut S,
    place: u64,
    bytes: &[u8],
    window: &mut Window,
) -> Result<bool, ReadFault>
    requires shows { Shows window.old (S.image store.old) }
    requires inside { place + length bytes.now ≤ S.size store.old }
    requires fits { S.size store.old < 2 ^ 64 }
    ensures shows { Shows window.new (S.image store.new) }
    ensures same { IfOk result (λ same. TellsSame same place bytes.now (S.image store.new)) }
    ensures reads { OnlyReads S.Store store.old store.new }
    ensures fails { IfErr result (StoreFails S.Store store.old store.new) }
{
    let mut done = 0;
    while done < bytes.len() {
        let n = (bytes.len() - done).min(WINDOW);
        window.cover(store, place + done as u64, n, n)?;
        if window.shown(place + done as u64, n) != &bytes[done..done + n] {
            return Ok(false);
        }
        done += n;
    }
    Ok(true)
}

/// Looks whether the record at a place has a key. If the window lacks the header, `ahead` bytes are
/// read at the place, or the header and the key's length if that is more.
pub(crate) fn look_at<S: Store, L: Width>(
    store: &mut S,
    place: u64,
    key: &[u8],
    window: &mut Window,
    ahead: usize,
) -> Result<Look, ReadFault>
    requires shows { Shows window.old (S.image store.old) }
    ensures shows { Shows window.new (S.image store.new) }
    ensures looks { IfOk result (λ look.
        LooksAt L.WORD key.now place look (S.image store.new)) }
    ensures within { IfOk result (LookWithin (S.size store.new)) }
    ensures reads { OnlyReads S.Store store.old store.new }
    ensures fails { IfErr result (StoreFails S.Store store.old store.new) }
{
    let size = store.len();
    let header_size = pair_size::<L>();
    if place < head_size::<L>() as u64 || !has_bytes(size, place, header_size as u64) {
        return Ok(Look::Broken);
    }
    window.cover(
        store,
        place,
        header_size,
        header_size.saturating_add(key.len()).max(ahead),
    )?;
    let header = read_header::<L>(window.shown(place, header_size));
    let Some(record) = spans::<L>(place, header, size) else {
        return Ok(Look::Broken);
    };
    if record.key.len != key.len() as u64 || !bytes_are_at(store, record.key.place, key, window)? {
        return Ok(Look::Other);
    }
    Ok(Look::Value(record.value))
}
