// The record at a place.
ghost use Rattle.std.specs.Prelude.{◌<◌, IfOk, IfErr};
ghost use Rattle.cdb_store.specs.Reads.{OnlyReads};
ghost use Rattle.cdb_read.specs.Views.Reads.{StoreFails};
ghost use Rattle.cdb_read.specs.Views.Walking.{StandsAt, StandsWithin};
ghost use Rattle.cdb_read.specs.Views.Window.{Shows};

use crate::fault::ReadFault;
use crate::span::{Pair, has_bytes, spans};
use crate::walking::state::RecordArea;
use crate::window::{WINDOW, Window};
use cdb_form::{Width, pair_size, read_header};
use cdb_store::Store;

/// Returns the spans of the next record, if it is whole before the record end and before the end of
/// the file.
pub(crate) fn record_at<S: Store, L: Width>(
    store: &mut S,
    window: &mut Window,
    rest: RecordArea,
) -> Result<Option<Pair>, ReadFault>
    requires before { rest.place < rest.end }
    requires shows { Shows window.old (S.image store.old) }
    ensures stands { IfOk result (λ found. StandsAt L.WORD rest found (S.image store.new)) }
    ensures within { IfOk result (StandsWithin L.WORD rest (S.size store.new)) }
    ensures shows { Shows window.new (S.image store.new) }
    ensures reads { OnlyReads S.Store store.old store.new }
    ensures fails { IfErr result (StoreFails S.Store store.old store.new) }
{
    let place = rest.place;
    let limit = store.len().min(rest.end);
    let header_size = pair_size::<L>();
    if !has_bytes(limit, place, header_size as u64) {
        return Ok(None);
    }
    window.cover(store, place, header_size, WINDOW)?;
    let header = read_header::<L>(window.shown(place, header_size));
    Ok(spans::<L>(place, header, limit))
}
