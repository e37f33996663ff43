// The gaps of the records that go, closed in one pass.
ghost use Rattle.std.specs.Prelude.{◌≡◌, ℕ, ◌+◌, ◌<◌, ◌≤◌, ◌^◌, List, length, get_or, sum, take, OnOk, IsErrOf};
ghost use Rattle.cdb_store.specs.declared.store.StoreFault.TheVariants.{NoMemory};
ghost use Rattle.cdb_store.specs.Images.{KeepsPart, HasCause};
ghost use Rattle.cdb_make.specs.Spans.{gone_of, IsFirstMarked, AreSpans, AreOf, Turns, left, behind};
ghost use Rattle.cdb_make.specs.Views.Places.{places_in, places_room};

use crate::mark::{Mark, is_gone_at};
use crate::move_down::move_down;
use crate::places::Places;
use cdb_form::Width;
use cdb_store::{Store, StoreFault};

/// Returns the place of record `n`, or `end` if `n` is past the last record.
#[inline(always)]
pub(crate) fn place_at<L: Width>(places: &Places<L>, n: usize, end: u64) -> u64
    ensures { result ≡ get_or (places_in places.now) n end }
{
    if n < places.len() { places.at(n) } else { end }
}

/// Moves the records that stay down, side by side. Each byte after the first gap moves once.
///
/// `first` is the number of the first record that goes, or the number of records if none goes. It
/// takes no memory. `Device`: the bytes before the records stay.
pub(crate) fn compact_bytes<S: Store, L: Width>(
    store: &mut S,
    start: u64,
    places: &Places<L>,
    marks: &[Mark],
    first: usize,
    end: u64,
) -> Result<(), StoreFault>
    requires spans { AreSpans start (places_in places.now) end }
    requires long { length marks.now ≡ length (places_in places.now) }
    requires first { IsFirstMarked (gone_of marks.now) first }
    requires inside { end ≤ S.size store.old }
    requires fits { end < 2 ^ 63 }
    ensures turns { OnOk result (Turns start (places_in places.now) end (gone_of marks.now)
        (S.image store.old) (S.image store.new)) }
    ensures written { (sizes : List ℕ) → AreOf start (places_in places.now) end sizes
        → OnOk result
        (S.written store.new ≡ S.written store.old + sum (behind (gone_of marks.now) sizes)) }
    ensures head { KeepsPart 0 start (S.image store.old) (S.image store.new) }
    ensures size { S.size store.new ≡ S.size store.old }
    ensures room { S.room store.old ≤ S.room store.new }
    ensures memory { IsErrOf result NoMemory → ⊥ }
    ensures cause { HasCause (S.failures store.old) (S.failures store.new) result }
    ensures unwritten { S.unwritten store.old ≤ S.unwritten store.new }
    ensures ok_failures { OnOk result (S.failures store.new ≡ S.failures store.old) }
{
    let mut from = place_at(places, first, end);
    let mut to = from;
    for n in first..marks.len() {
        if !is_gone_at(marks, n) {
            continue;
        }
        let place = places.at(n);
        move_down(store, from, to, place - from)?;
        to += place - from;
        from = place_at(places, n + 1, end);
    }
    move_down(store, from, to, end - from)
}

/// The records that are left once others were taken out.
#[derive(Clone, Copy)]
pub(crate) struct Left {
    /// The number of records that are left.
    pub(crate) count: usize,
    /// The place after the last record that is left.
    pub(crate) end: u64,
}

/// Moves the hash and the new place of each record that stays before all others. `first` is the
/// number of the first record that goes, or the number of records if none goes.
pub(crate) fn compact_entries<L: Width>(
    start: u64,
    hashes: &mut [u32],
    places: &mut Places<L>,
    marks: &[Mark],
    first: usize,
    end: u64,
) -> Left
    requires spans { AreSpans start (places_in places.old) end }
    requires paired { length hashes.old ≡ length (places_in places.old) }
    requires long { length marks.now ≡ length (places_in places.old) }
    requires first { IsFirstMarked (gone_of marks.now) first }
    requires fits { end ≤ L.TOP }
    ensures within { result.count ≤ length (places_in places.old) }
    ensures past { first ≤ result.count }
    ensures hashes { take result.count hashes.new ≡ left (gone_of marks.now) hashes.old }
    ensures of { (sizes : List ℕ) → AreOf start (places_in places.old) end sizes
        → AreOf start (take result.count (places_in places.new)) result.end
        (left (gone_of marks.now) sizes) }
    ensures low { result.end ≤ end }
    ensures long { length hashes.new ≡ length hashes.old }
    ensures places { length (places_in places.new) ≡ length (places_in places.old) }
    ensures room { places_room places.new ≡ places_room places.old }
{
    let mut count = first;
    let mut to = place_at(places, first, end);
    for n in first..marks.len() {
        if is_gone_at(marks, n) {
            continue;
        }
        let size = place_at(places, n + 1, end) - places.at(n);
        hashes[count] = hashes[n];
        places.set(count, to);
        count += 1;
        to += size;
    }
    Left { count, end: to }
}
