// The entries of some tables, gathered in their order.
ghost use Rattle.std.specs.Prelude.{◌≡◌, ℕ, ◌+◌, ◌<◌, ◌≤◌, ◌++◌, ◌∷◌, [], length, get_or, IfOk, slice_set, map};
ghost use Rattle.std.specs.Simd.Lanes.{mask_l};
ghost use Rattle.cdb_make.specs.Tables.{is_among, AreGathered, HaveRoomFor, all_gathered, rooms_of, roll_entries, tables_of, HaveRoom};

use crate::finish::counts::most_of;
use crate::finish::gathered::Gathered;
use crate::roll::Roll;
use cdb_form::{Width, table_number};
use std::alloc::{AllocError, Global};
use std::simd::prelude::*;

/// The number of tables that are gathered at a time. More would take more memory, and fewer would
/// take more passes over all hashes.
pub(crate) const TABLES: usize = 32;

/// The number of times that tables are gathered, each by a pass over all hashes.
pub(crate) const GROUPS: usize = 8;

/// Returns an empty list for each table that is gathered at a time, with room for the largest table
/// that the list is used for.
pub(crate) fn room_for<L: Width>(
    alloc: Global,
    counts: &[usize],
) -> Result<Vec<Gathered<L>>, AllocError>
    requires { length counts.now ≡ 256 }
    ensures long { IfOk result (λ gs. length gs.items ≡ 32) }
    ensures room { IfOk result (λ gs. HaveRoom counts.now gs.items) }
{
    let mut gathered = Vec::with_capacity(alloc, TABLES)?;
    for n in 0..TABLES {
        gathered.push_reserved(Gathered::with_room(alloc, most_of(counts, n))?);
    }
    Ok(gathered)
}

/// Leaves no entries. The room stays.
fn clear<L: Width>(gathered: &mut [Gathered<L>])
    ensures none { (k : ℕ) → get_or (all_gathered gathered.new) k [] ≡ [] }
    ensures rooms { rooms_of gathered.new ≡ rooms_of gathered.old }
    ensures long { length gathered.new ≡ length gathered.old }
{
    for n in 0..gathered.len() {
        gathered[n].clear();
    }
}

/// Adds an entry to table `n` of those that are gathered.
#[inline(always)]
fn push<L: Width>(gathered: &mut [Gathered<L>], n: usize, hash: u32, place: u64)
    requires fits { place ≤ L.TOP }
    requires within { n < length gathered.old }
    requires room { length (get_or (all_gathered gathered.old) n []) < get_or (rooms_of gathered.old) n 0 }
    ensures more { all_gathered gathered.new ≡ slice_set (all_gathered gathered.old) n
        (get_or (all_gathered gathered.old) n [] ++ record { first = hash; second = place } ∷ []) }
    ensures rooms { rooms_of gathered.new ≡ rooms_of gathered.old }
    ensures long { length gathered.new ≡ length gathered.old }
{
    gathered[n].push(hash, place);
}

/// Returns a bit for each of 16 hashes: 1 if it belongs to table `first` or to one of the `more`
/// tables after it. Table 0 follows table 255.
#[inline(always)]
fn of_tables(hashes: u32x16, first: u8, more: u8) -> u64
    ensures { result ≡ mask_l (map (is_among first more) hashes) }
{
    let tables = (hashes & u32x16::splat(0xff)).cast::<u8>();
    let after = tables - u8x16::splat(first);
    after.simd_le(u8x16::splat(more)).to_bitmask()
}

/// Gathers the entry of a record, if it belongs to one of the tables.
#[inline(always)]
fn gather_one<L: Width>(gathered: &mut [Gathered<L>], roll: &Roll<L>, first: usize, n: usize)
    requires inside { n < length roll.now.hashes.items }
    requires room { HaveRoomFor roll.now first gathered.old }
    requires before { AreGathered roll.now first n gathered.old }
    ensures all { AreGathered roll.now first (n + 1) gathered.new }
    ensures rooms { rooms_of gathered.new ≡ rooms_of gathered.old }
    ensures long { length gathered.new ≡ length gathered.old }
{
    let hash = roll.hashes[n];
    let table = table_number(u64::from(hash));
    if first <= table && table - first < gathered.len() {
        let place = roll.places.at(n);
        push(gathered, table - first, hash, place);
    }
}

/// Gathers the entries of 16 records. It visits only the records of the tables that are gathered.
#[inline(always)]
fn gather_sixteen<L: Width>(gathered: &mut [Gathered<L>], roll: &Roll<L>, first: usize, n: usize)
    requires within { first + length gathered.old ≤ 256 }
    requires inside { n + 16 ≤ length roll.now.hashes.items }
    requires room { HaveRoomFor roll.now first gathered.old }
    requires before { AreGathered roll.now first n gathered.old }
    ensures all { AreGathered roll.now first (n + 16) gathered.new }
    ensures rooms { rooms_of gathered.new ≡ rooms_of gathered.old }
    ensures long { length gathered.new ≡ length gathered.old }
{
    let hashes = u32x16::from_slice(&roll.hashes[n..]);
    let more = gathered.len().saturating_sub(1) as u8;
    let mut left = of_tables(hashes, (first % 256) as u8, more);
    let mut at = n;
    while left != 0 {
        let apart = left.trailing_zeros();
        gather_one(gathered, roll, first, at + apart as usize);
        at += apart as usize + 1;
        left = left >> apart >> 1;
    }
}

/// Gathers the entries of a roll 16 records at a time, and returns the number of records it looked
/// at.
fn gather_sixteens<L: Width>(gathered: &mut [Gathered<L>], roll: &Roll<L>, first: usize) -> usize
    requires within { first + length gathered.old ≤ 256 }
    requires room { HaveRoomFor roll.now first gathered.old }
    requires none { AreGathered roll.now first 0 gathered.old }
    ensures inside { result ≤ length roll.now.hashes.items }
    ensures far { length roll.now.hashes.items < result + 16 }
    ensures all { AreGathered roll.now first result gathered.new }
    ensures rooms { rooms_of gathered.new ≡ rooms_of gathered.old }
    ensures long { length gathered.new ≡ length gathered.old }
{
    let mut n = 0;
    while 16 <= roll.len() - n {
        gather_sixteen(gathered, roll, first, n);
        n += 16;
    }
    n
}

/// Gathers the entries of table `first` and the tables after it into a list each, in the order of
/// the records. It takes no memory.
pub(crate) fn gather<L: Width>(gathered: &mut [Gathered<L>], roll: &Roll<L>, first: usize)
    requires within { first + length gathered.old ≤ 256 }
    requires room { (k : ℕ) → k < length gathered.old
        → length (get_or (tables_of (roll_entries roll.now) first (length gathered.old)) k [])
        ≤ get_or (rooms_of gathered.old) k 0 }
    ensures all { all_gathered gathered.new
        ≡ tables_of (roll_entries roll.now) first (length gathered.old) }
    ensures rooms { rooms_of gathered.new ≡ rooms_of gathered.old }
    ensures long { length gathered.new ≡ length gathered.old }
{
    clear(gathered);
    for n in gather_sixteens(gathered, roll, first)..roll.len() {
        gather_one(gathered, roll, first, n);
    }
}
