// The record at a place, and whether it has a key.
ghost use Rattle.std.specs.Prelude.{◌≡◌, ◌+◌, ◌*◌, ◌<◌, ◌≤◌, ◌^◌, length, drop, OnOk, OnErr, IfOk, IsErrOf};
ghost use Rattle.cdb_store.specs.declared.store.StoreFault.TheVariants.{NoMemory};
ghost use Rattle.cdb_store.specs.Reads.{OnlyReads};
ghost use Rattle.cdb_make.specs.declared.key_at.LookFault.TheVariants.{Failed, Foreign};
ghost use Rattle.cdb_make.specs.Chains.{TellsSameInImages, HoldAt, HasLengthsInImages, LooksAtImages, SizeWithin};

use cdb_form::{GREATEST_PAIR, Header, Width, pair_size, read_header};
use cdb_store::{Store, StoreFault};

/// The number of bytes of a key that are read at a time.
const PIECE: usize = 4096;

/// The longest key, in bytes, that is read by a piece of this length.
const SHORT: usize = 256;

/// The longest key that is read with the header before it.
const BESIDE: usize = 48;

/// The reason why a look failed.
#[derive(Clone, Copy)]
pub(crate) enum LookFault {
    /// The store failed.
    Failed,
    /// The store gave back bytes that were not written to it.
    Foreign,
}

impl From<StoreFault> for LookFault {
    ghost from_gives = { λ _ e. e ≡ Failed };

    fn from(_: StoreFault) -> Self {
        LookFault::Failed
    }
}

/// Returns true if a key's bytes are at a place. It reads at most the length of `piece` at a time.
fn is_read_at<S: Store>(
    store: &mut S,
    place: u64,
    key: &[u8],
    piece: &mut [u8],
) -> Result<bool, StoreFault>
    requires piece { 0 < length piece.old }
    requires inside { place + length key.now ≤ S.size store.old }
    requires fits { place + length key.now < 2 ^ 63 }
    ensures same { IfOk result (λ same. TellsSameInImages same place key.now (S.image store.new)) }
    ensures reads { OnlyReads S.Store store.old store.new }
    ensures ok_failures { OnOk result (S.failures store.new ≡ S.failures store.old) }
    ensures failed { OnErr result (S.failures store.old < S.failures store.new) }
    ensures memory { IsErrOf result NoMemory → ⊥ }
{
    let mut done = 0;
    while done < key.len() {
        let n = (key.len() - done).min(piece.len());
        store.read_at(place + done as u64, &mut piece[..n])?;
        if piece[..n] != key[done..done + n] {
            return Ok(false);
        }
        done += n;
    }
    Ok(true)
}

/// Returns true if a key's bytes are at a place. A piece is zeroed at each call, so short keys have
/// a short one.
pub(crate) fn key_is_at<S: Store>(store: &mut S, place: u64, key: &[u8]) -> Result<bool, StoreFault>
    requires inside { place + length key.now ≤ S.size store.old }
    requires fits { place + length key.now < 2 ^ 63 }
    ensures same { IfOk result (λ same. TellsSameInImages same place key.now (S.image store.new)) }
    ensures reads { OnlyReads S.Store store.old store.new }
    ensures ok_failures { OnOk result (S.failures store.new ≡ S.failures store.old) }
    ensures failed { OnErr result (S.failures store.old < S.failures store.new) }
    ensures memory { IsErrOf result NoMemory → ⊥ }
{
    if key.len() <= SHORT {
        is_read_at(store, place, key, &mut [0; SHORT])
    } else {
        is_read_at(store, place, key, &mut [0; PIECE])
    }
}

/// Returns the number of bytes of a key that are read with the header of a record: all if the key
/// is short and fits into `room` bytes, else none.
fn bytes_beside(key: &[u8], room: u64) -> usize
    ensures all { 0 < result → result ≡ length key.now }
    ensures within { result ≤ room }
    ensures few { result ≤ 48 }
{
    if key.len() <= BESIDE && key.len() as u64 <= room {
        key.len()
    } else {
        0
    }
}

/// Returns true if a key's bytes are at a place. `bytes` were read there already: they have the
/// key's length, or none were.
fn key_follows<S: Store>(
    store: &mut S,
    place: u64,
    bytes: &[u8],
    key: &[u8],
) -> Result<bool, StoreFault>
    requires inside { place + length key.now ≤ S.size store.old }
    requires fits { place + length key.now < 2 ^ 63 }
    requires all { 0 < length bytes.now → length bytes.now ≡ length key.now }
    ensures same { HoldAt place bytes.now (S.image store.old)
        → IfOk result (λ same. TellsSameInImages same place key.now (S.image store.new)) }
    ensures reads { OnlyReads S.Store store.old store.new }
    ensures ok_failures { OnOk result (S.failures store.new ≡ S.failures store.old) }
    ensures failed { OnErr result (S.failures store.old < S.failures store.new) }
    ensures memory { IsErrOf result NoMemory → ⊥ }
{
    if bytes.is_empty() {
        key_is_at(store, place, key)
    } else {
        Ok(bytes == key)
    }
}

/// Fills `front` with the bytes at a record's place, and returns the header that it begins with.
fn read_prefix<S: Store, L: Width>(
    store: &mut S,
    place: u64,
    front: &mut [u8],
) -> Result<Header, StoreFault>
    requires header { 2 * L.WORD ≤ length front.old }
    requires inside { place + length front.old ≤ S.size store.old }
    requires fits { place + length front.old < 2 ^ 63 }
    ensures lengths { IfOk result
        (λ h. HasLengthsInImages L.WORD place h.klen h.vlen (S.image store.new)) }
    ensures held { OnOk result (HoldAt (place + 2 * L.WORD) (drop (2 * L.WORD) front.new)
        (S.image store.new)) }
    ensures long { length front.new ≡ length front.old }
    ensures reads { OnlyReads S.Store store.old store.new }
    ensures ok_failures { OnOk result (S.failures store.new ≡ S.failures store.old) }
    ensures failed { OnErr result (S.failures store.old < S.failures store.new) }
    ensures memory { IsErrOf result NoMemory → ⊥ }
{
    store.read_at(place, front)?;
    Ok(read_header::<L>(&front[..pair_size::<L>()]))
}

/// Returns the number of bytes that the record at a place takes, if it has this key. The header and
/// a short key take one read.
///
/// `Foreign`: the header, or the record by the lengths in its header, passes `end`.
pub(crate) fn look_at<S: Store, L: Width>(
    store: &mut S,
    place: u64,
    end: u64,
    key: &[u8],
) -> Result<Option<u64>, LookFault>
    requires inside { end ≤ S.size store.old }
    requires fits { end < 2 ^ 63 }
    ensures looks { LooksAtImages L.WORD place end key.now result (S.image store.new) }
    ensures within { SizeWithin place end result }
    ensures reads { OnlyReads S.Store store.old store.new }
    ensures ok_failures { OnOk result (S.failures store.new ≡ S.failures store.old) }
    ensures failed { result ≡ Err Failed → S.failures store.old < S.failures store.new }
{
    let header_size = pair_size::<L>();
    let key_place = place.saturating_add(header_size as u64);
    if end < key_place {
        return Err(LookFault::Foreign);
    }
    let room = end - key_place;
    let mut front = [0; GREATEST_PAIR + BESIDE];
    let front = &mut front[..header_size + bytes_beside(key, room)];
    let header = read_prefix::<S, L>(store, place, front)?;
    if room < header.klen || room - header.klen < header.vlen {
        return Err(LookFault::Foreign);
    }
    if header.klen != key.len() as u64
        || !key_follows(store, key_place, &front[header_size..], key)?
    {
        return Ok(None);
    }
    Ok(Some(header_size as u64 + header.klen + header.vlen))
}
