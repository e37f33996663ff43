//! Consequences of a store's contract for its callers. Each law is the contract of a function whose
//! parameters are what it ranges over, among them the store before and after a call.
ghost use Rattle.std.specs.Prelude.{◌≡◌, ◌+◌, ◌≤◌, ◌++◌, length};
ghost use Rattle.cdb_store.specs.Images.{SameImages, AfterRead, AfterWrite, AfterTornWrite, AfterCut, TornWithin, AreApart, ImagesHold, Copied, StaysHeld, HasNoImage, Gathered};

use crate::Store;

/// Bytes that a store holds stay held by a write of `n` bytes elsewhere, done or failed, by a move
/// to elsewhere, by a cut after them, by a read, and by what changes no byte.
pub fn held_bytes_stay<S: Store>(
    _before: &S,
    _after: &S,
    _pos: u64,
    _held: &[u8],
    _start: u64,
    _n: u64,
    _given: &[u8],
)
    ensures write { AreApart _pos (length _held.now) _start _n
        → AfterTornWrite _start _n (S.image _before.now) (S.image _after.now)
        → StaysHeld _pos _held.now (S.image _before.now) (S.image _after.now) }
    ensures moving { AreApart _pos (length _held.now) _start _n
        → TornWithin _start _n (S.image _before.now) (S.image _after.now)
        → StaysHeld _pos _held.now (S.image _before.now) (S.image _after.now) }
    ensures cut { _pos + length _held.now ≤ _n
        → AfterCut _n (S.image _before.now) (S.image _after.now)
        → StaysHeld _pos _held.now (S.image _before.now) (S.image _after.now) }
    ensures read { AfterRead _start _given.now (S.image _before.now) (S.image _after.now)
        → StaysHeld _pos _held.now (S.image _before.now) (S.image _after.now) }
    ensures same { SameImages (S.image _before.now) (S.image _after.now)
        → StaysHeld _pos _held.now (S.image _before.now) (S.image _after.now) }
{}

/// Bytes that were written are held, and bytes that are held one after the other are held as one.
pub fn written_bytes_are_held<S: Store>(
    _before: &S,
    _after: &S,
    _pos: u64,
    _bytes: &[u8],
    _more: &[u8],
)
    ensures write { _pos ≤ S.size _before.now
        → AfterWrite _pos _bytes.now (S.image _before.now) (S.image _after.now)
        → ImagesHold _pos _bytes.now (S.image _after.now) }
    ensures join { ImagesHold _pos _bytes.now (S.image _after.now)
        → ImagesHold (_pos + length _bytes.now) _more.now (S.image _after.now)
        → ImagesHold _pos (_bytes.now ++ _more.now) (S.image _after.now) }
{}

/// If other bytes come back than are held, no image is left.
pub fn other_bytes_leave_no_image<S: Store>(
    _before: &S,
    _after: &S,
    _pos: u64,
    _held: &[u8],
    _given: &[u8],
)
    ensures { length _given.now ≡ length _held.now
        → (_given.now ≡ _held.now → ⊥)
        → ImagesHold _pos _held.now (S.image _before.now)
        → AfterRead _pos _given.now (S.image _before.now) (S.image _after.now)
        → HasNoImage (S.image _after.now) }
{}

/// Bytes that were held in a piece that was moved down are held at the place they were moved to.
pub fn moved_bytes_are_held<S: Store>(
    _before: &S,
    _after: &S,
    _from: u64,
    _to: u64,
    _n: u64,
    _offset: u64,
    _held: &[u8],
)
    ensures { _to ≤ _from
        → _from + _n ≤ S.size _before.now
        → _offset + length _held.now ≤ _n
        → Copied _from _to _n (S.image _before.now) (S.image _after.now)
        → ImagesHold (_from + _offset) _held.now (S.image _before.now)
        → ImagesHold (_to + _offset) _held.now (S.image _after.now) }
{}

/// Two pieces that were moved down one after the other are there as one.
pub fn moved_pieces_are_one<S: Store>(
    _before: &S,
    _between: &S,
    _after: &S,
    _from: u64,
    _n: u64,
    _next: u64,
    _m: u64,
    _to: u64,
)
    ensures { _to ≤ _from
        → _from + _n ≤ _next
        → _next + _m ≤ S.size _before.now
        → Copied _from _to _n (S.image _before.now) (S.image _between.now)
        → Copied _next (_to + _n) _m (S.image _between.now) (S.image _after.now)
        → Gathered _from _n _next _m _to (S.image _before.now) (S.image _after.now) }
{}
