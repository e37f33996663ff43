// A record is written to a store.
ghost use Rattle.std.specs.Prelude.{◌≡◌, ◌+◌, ◌<◌, ◌≤◌, ◌^◌, length, OnOk};
ghost use Rattle.cdb_form.specs.Format.{record_of, record_bytes, record_size};
ghost use Rattle.cdb_make.specs.Views.Long.{begun_bytes};
ghost use Rattle.cdb_make.specs.Views.Writing.{WritesBehind, WritesWithin, AreWhole};

use cdb_form::{GREATEST_PAIR, Header, Width, pair_size, write_header};
use cdb_store::{Store, StoreFault};

/// Writes a record's header, its key and the first bytes of its value at `pos`, one after another, as
/// one write would: over the bytes that are there and past the end. `vlen` is the length of the
/// whole value.
///
/// It fails as `append_record` does.
#[inline(always)]
pub(crate) fn begin_record<S: Store, L: Width>(
    store: &mut S,
    pos: u64,
    key: &[u8],
    vlen: u64,
    first: &[u8],
) -> Result<(), StoreFault>
    requires inside { pos ≤ S.size store.old }
    requires end { pos + record_size L.WORD (record_of key.now first.now) < 2 ^ 63 }
    requires fits { length key.now + vlen ≤ L.TOP }
    ensures ok { OnOk result (WritesBehind S.Store pos
        (begun_bytes L.WORD key.now vlen first.now) store.old store.new) }
    ensures fine { OnOk result (S.failures store.new ≡ S.failures store.old) }
    ensures within { WritesWithin S.Store pos
        (record_size L.WORD (record_of key.now first.now)) store.old store.new
        result }
{
    let header = Header {
        klen: key.len() as u64,
        vlen,
    };
    let mut words = [0u8; GREATEST_PAIR];
    let words = &mut words[..pair_size::<L>()];
    write_header::<L>(header, words);
    store.write_parts(pos, words, key, first)
}

/// Writes a record's header, key and value at `pos`, one after another, as one write would: over
/// the bytes that are there and past the end. `bytes` holds all of these, or is empty if they are
/// not at hand as a file has them.
///
/// `pos` is at most the store's length. The store's room is made first, so if an allocation fails
/// (`NoMemory`) nothing has changed. After `Device` the record's range may hold any bytes, and
/// those outside of it stay.
#[inline(always)]
pub(crate) fn append_record<S: Store, L: Width>(
    store: &mut S,
    pos: u64,
    key: &[u8],
    value: &[u8],
    bytes: &[u8],
) -> Result<(), StoreFault>
    requires inside { pos ≤ S.size store.old }
    requires end { pos + record_size L.WORD (record_of key.now value.now) < 2 ^ 63 }
    requires fits { length key.now + length value.now ≤ L.TOP }
    requires whole { AreWhole L.WORD (record_of key.now value.now) bytes.now }
    ensures ok { OnOk result (WritesBehind S.Store pos
        (record_bytes L.WORD (record_of key.now value.now)) store.old store.new) }
    ensures fine { OnOk result (S.failures store.new ≡ S.failures store.old) }
    ensures within { WritesWithin S.Store pos
        (record_size L.WORD (record_of key.now value.now)) store.old store.new
        result }
{
    if bytes.is_empty() {
        return begin_record::<S, L>(store, pos, key, value.len() as u64, value);
    }
    store.write_at(pos, bytes)
}
