// The tags of keys: a second hash, which keys of one hash rarely share.
ghost use Rattle.std.specs.Prelude.{◌≡◌, ◌<◌, ◌≤◌, ◌∷◌, ◌++◌, [], ℕ, List, true, fold, length, take, cond, vec_capacity, OnOk, OnErr};
ghost use Rattle.cdb_make.specs.Spans.{gone_of, IsFirstMarked, left};
ghost use Rattle.cdb_make.specs.Chains.{tag_step, second_hash, searched_by};

use crate::growth::reserve_one;
use crate::mark::{Mark, is_gone_at};
use std::alloc::AllocError;

/// The tag so far with each of these bytes. Inlined over eight of them it has no loop.
#[inline(always)]
fn tag_each(tag: u32, bytes: &[u8]) -> u32
    ensures { result ≡ fold tag_step tag bytes.now }
{
    let mut tag = tag;
    for byte in bytes {
        tag = tag
            .wrapping_mul(2_246_822_507)
            .wrapping_add(u32::from(*byte));
    }
    tag
}

/// The second hash of a key. Keys that have one cdb hash, as a text may have by intent, mostly
/// differ in it.
pub(crate) fn second_hash(key: &[u8]) -> u32
    ensures { result ≡ second_hash key.now }
{
    let mut tag = 2_166_136_261;
    let (eights, rest) = key.as_chunks::<8>();
    for eight in eights {
        tag = tag_each(tag, eight);
    }
    tag_each(tag, rest)
}

/// Returns the number by which a record is found whose key has this hash: its tag, if there are tags.
#[inline(always)]
pub(crate) fn number_of(tagged: bool, hash: u32, key: &[u8]) -> u32
    ensures { result ≡ cond tagged (second_hash key.now) hash }
{
    if tagged { second_hash(key) } else { hash }
}

/// Returns the numbers that looks search: the entries' tags if there are tags, else their hashes.
#[inline(always)]
pub(crate) fn searched<'a>(tagged: bool, tags: &'a [u32], hashes: &'a [u32]) -> &'a [u32]
    ensures { result.now ≡ searched_by tagged tags.now hashes.now }
{
    if tagged { tags } else { hashes }
}

/// Makes room for one more tag, if there are tags. If an allocation fails, nothing has changed.
#[inline(always)]
pub(crate) fn reserve_tag(tagged: bool, tags: &mut Vec<u32>) -> Result<(), AllocError>
    ensures items { tags.new.items ≡ tags.old.items }
    ensures ok { OnOk result (tagged ≡ true → length tags.new.items < vec_capacity tags.new) }
    ensures full { OnErr result ((tagged ≡ true) × (vec_capacity tags.old ≤ length tags.old.items)) }
    ensures room { vec_capacity tags.old ≤ vec_capacity tags.new }
{
    if tagged {
        return reserve_one(tags);
    }
    Ok(())
}

/// Notes one more tag, if there are tags. There is room for it.
#[inline(always)]
pub(crate) fn push_tag(tagged: bool, tags: &mut Vec<u32>, tag: u32)
    requires { tagged ≡ true → length tags.old.items < vec_capacity tags.old }
    ensures more { (hashes : List ℕ) (hash : ℕ) → searched_by tagged tags.new.items (hashes ++ hash ∷ [])
        ≡ searched_by tagged tags.old.items hashes ++ cond tagged tag hash ∷ [] }
    ensures room { length tags.old.items ≤ vec_capacity tags.old
        → length tags.new.items ≤ vec_capacity tags.new }
    ensures capacity { vec_capacity tags.new ≡ vec_capacity tags.old }
{
    if tagged {
        tags.push_reserved(tag);
    }
}

/// Moves the tag of each record that stays before all others, and returns the number of these.
/// `first` is the number of the first record that goes, or the number of records if none goes.
fn compact_each(tags: &mut [u32], marks: &[Mark], first: usize) -> usize
    requires long { length marks.now ≡ length tags.old }
    requires first { IsFirstMarked (gone_of marks.now) first }
    ensures within { result ≤ length tags.old }
    ensures tags { take result tags.new ≡ left (gone_of marks.now) tags.old }
    ensures long { length tags.new ≡ length tags.old }
{
    let mut count = first;
    for n in first..marks.len() {
        if is_gone_at(marks, n) {
            continue;
        }
        tags[count] = tags[n];
        count += 1;
    }
    count
}

/// Takes out the tags of the records that go, if there are tags.
pub(crate) fn compact_tags(tagged: bool, tags: &mut Vec<u32>, marks: &[Mark], first: usize)
    requires long { tagged ≡ true → length marks.now ≡ length tags.old.items }
    requires first { IsFirstMarked (gone_of marks.now) first }
    ensures left { (hashes : List ℕ) → searched_by tagged tags.new.items (left (gone_of marks.now) hashes)
        ≡ left (gone_of marks.now) (searched_by tagged tags.old.items hashes) }
    ensures few { length tags.new.items ≤ length tags.old.items }
    ensures room { vec_capacity tags.old ≤ vec_capacity tags.new }
{
    if tagged {
        let count = compact_each(tags, marks, first);
        tags.truncate(count);
    }
}
