// The entries of a roll, found by their hashes.
ghost use Rattle.std.specs.Prelude.{◌≡◌, ℕ, List, [], ◌+◌, ◌-◌, ◌/◌, ◌<◌, ◌≤◌, ◌^◌, length, min, map, Bool, slice_index, slice_set, get_or, vec_capacity, true, false, OnOk};
ghost use Rattle.std.specs.Bool.{Decides};
ghost use Rattle.cdb_make.specs.Spans.{gone_of, all_marks, taken, HaveHash, IsTakenFrom};
ghost use Rattle.cdb_make.specs.Chains.{AreChained, FindsLast, IsLast, IsIn, Has, Reaches, bucket_of};

use crate::mark::{Mark, is_found_at, is_gone_at, is_gone_of_all};
use std::alloc::{AllocError, Global};

/// The greatest number of entries in chains, since their numbers are 32 bits wide.
const MOST: usize = 4294967295;

/// Returns true if an entry has a hash, and its record does not go.
#[inline(always)]
fn is_left(hashes: &[u32], marks: &[Mark], hash: u32, entry: usize) -> bool
    requires within { entry < length hashes.now }
    requires long { length marks.now ≤ length hashes.now }
    ensures { Decides result (Has hash hashes.now (gone_of (all_marks (length hashes.now) marks.now)) entry) }
{
    hashes[entry] == hash && !is_gone_of_all(marks, entry)
}

/// Marks as gone each record at or after `from` that a look has found.
fn take_each(marks: &mut [Mark], from: usize)
    requires { from ≤ length marks.old }
    ensures long { length marks.new ≡ length marks.old }
    ensures taken { IsTakenFrom from (length marks.old) marks.old marks.new }
{
    for n in from..marks.len() {
        if is_found_at(marks, n) {
            marks[n] = Mark::Gone;
        }
    }
}

/// The first entries of a roll in chains, a chain for the hashes of each bucket: 8 to 12 bytes an
/// entry. So a search looks at few entries with other hashes, however many there are.
#[derive(Drop)]
pub(crate) struct Chains {
    /// For each bucket the number after its last entry, or 0 if it has none.
    heads: Vec<u32>,
    /// For each entry the number after the one before it in its bucket, or 0 if it is the first.
    before: Vec<u32>,
    ghost heads_room: { length heads.items ≤ vec_capacity heads },
    ghost before_room: { length before.items ≤ vec_capacity before },
    ghost spread: { length before.items ≤ length heads.items },
    ghost most: { length heads.items ≤ 2 ^ 32 - 1 },
}

impl Chains {
    ghost use Rattle.cdb_make.specs.Views.Chains.{LinksIfRoom, LinksNext, HasRoomFor, HasNoRoom};

    /// Chains of no entries.
    pub(crate) fn new(alloc: Global) -> Chains
        ensures heads { result.heads.items ≡ [] }
        ensures before { result.before.items ≡ [] }
        ensures none { HasNoRoom result }
    {
        Chains {
            heads: Vec::new(alloc),
            before: Vec::new(alloc),
        }
    }

    /// Returns the bucket of a hash.
    fn bucket(&self, hash: u32) -> usize
        requires { 0 < length self.now.heads.items }
        ensures bucket { result ≡ bucket_of (length self.now.heads.items) hash }
        ensures within { result < length self.now.heads.items }
    {
        hash as usize % self.heads.len()
    }

    /// Returns the last entry below `end` that has the hash and does not go. If `end` is the number
    /// of such an entry, the search goes on from it.
    pub(crate) fn last(
        &self,
        hashes: &[u32],
        marks: &[Mark],
        hash: u32,
        end: usize,
    ) -> Option<usize>
        requires chained { AreChained self.now.heads.items self.now.before.items hashes.now (gone_of (all_marks (length hashes.now) marks.now)) }
        requires long { length marks.now ≤ length hashes.now }
        requires end { end ≤ length hashes.now }
        ensures { FindsLast (Has hash hashes.now (gone_of (all_marks (length hashes.now) marks.now))) end result }
    {
        let mut at = end;
        while at > self.before.len() {
            at -= 1;
            if is_left(hashes, marks, hash, at) {
                return Some(at);
            }
        }
        self.last_linked(hashes, marks, hash, at)
    }

    /// Returns the number after the first entry that a search below `end` looks at: the one before
    /// `end` in its bucket if entry `end` has the hash and does not go, so that no entry of a hash
    /// is looked at twice, else the last of the bucket.
    fn start(&self, hashes: &[u32], marks: &[Mark], hash: u32, end: usize) -> usize
        requires chained { AreChained self.now.heads.items self.now.before.items hashes.now (gone_of (all_marks (length hashes.now) marks.now)) }
        requires long { length marks.now ≤ length hashes.now }
        requires end { end ≤ length self.now.before.items }
        requires some { 0 < end }
        ensures reaches { Reaches (length self.now.heads.items) hash hashes.now (gone_of (all_marks (length hashes.now) marks.now))
            (length self.now.before.items) end result }
        ensures next { end < length self.now.before.items
            → Has hash hashes.now (gone_of (all_marks (length hashes.now) marks.now)) end
            → result ≡ slice_index self.now.before.items end }
    {
        if end < self.before.len() && is_left(hashes, marks, hash, end) {
            return self.before[end] as usize;
        }
        self.heads[self.bucket(hash)] as usize
    }

    /// Does what `last` does, among the entries that are in chains.
    fn last_linked(&self, hashes: &[u32], marks: &[Mark], hash: u32, end: usize) -> Option<usize>
        requires chained { AreChained self.now.heads.items self.now.before.items hashes.now (gone_of (all_marks (length hashes.now) marks.now)) }
        requires long { length marks.now ≤ length hashes.now }
        requires end { end ≤ length self.now.before.items }
        ensures { FindsLast (Has hash hashes.now (gone_of (all_marks (length hashes.now) marks.now))) end result }
    {
        if end == 0 {
            return None;
        }
        let mut at = self.start(hashes, marks, hash, end);
        while at > 0 {
            if at <= end && hashes[at - 1] == hash {
                return Some(at - 1);
            }
            at = self.before[at - 1] as usize;
        }
        None
    }

    /// Links the first unlinked entry into its bucket's chain, unless it goes.
    fn link(&mut self, hashes: &[u32], marks: &[Mark])
        requires chained { AreChained self.old.heads.items self.old.before.items hashes.now (gone_of (all_marks (length hashes.now) marks.now)) }
        requires long { length marks.now ≤ length hashes.now }
        requires some { length self.old.before.items < length hashes.now }
        requires room { length self.old.before.items < vec_capacity self.old.before }
        requires spread { length self.old.before.items < length self.old.heads.items }
        ensures chained { AreChained self.new.heads.items self.new.before.items hashes.now (gone_of (all_marks (length hashes.now) marks.now)) }
        ensures more { length self.new.before.items ≡ length self.old.before.items + 1 }
        ensures wide { length self.new.heads.items ≡ length self.old.heads.items }
        ensures heads { vec_capacity self.new.heads ≡ vec_capacity self.old.heads }
        ensures capacity { vec_capacity self.new.before ≡ vec_capacity self.old.before }
    {
        let entry = self.before.len();
        let bucket = self.bucket(hashes[entry]);
        self.before.push_reserved(self.heads[bucket]);
        if !is_gone_of_all(marks, entry) {
            self.heads[bucket] = entry as u32 + 1;
        }
    }

    /// Returns the number of entries that are in chains.
    pub(crate) fn len(&self) -> usize
        ensures { result ≡ length self.now.before.items }
    {
        self.before.len()
    }

    /// Returns true if one more entry can be put into a chain.
    #[inline(always)]
    fn has_room(&self) -> bool
        ensures room { result ≡ true → length self.now.before.items < vec_capacity self.now.before }
        ensures spread { result ≡ true → length self.now.before.items < length self.now.heads.items }
        ensures full { result ≡ false → length self.now.before.items < vec_capacity self.now.before
            → length self.now.heads.items ≤ length self.now.before.items }
    {
        self.before.len() < self.heads.len() && self.before.len() < self.before.capacity()
    }

    /// Links a new entry into its bucket's chain if that is wanted, all before it are linked, and
    /// there is room for it. It takes no memory.
    #[inline(always)]
    pub(crate) fn push(&mut self, wanted: bool, entry: usize, hash: u32)
        ensures chained { (hashes : List ℕ) (marks : List Bool)
            → AreChained self.old.heads.items self.old.before.items hashes marks
            → entry < length hashes
            → (wanted ≡ true → slice_index hashes entry ≡ hash)
            → get_or marks entry true ≡ false
            → AreChained self.new.heads.items self.new.before.items hashes marks }
        ensures next { wanted ≡ true → LinksNext entry self.old self.new }
    {
        if wanted && entry == self.before.len() && self.has_room() {
            let bucket = self.bucket(hash);
            self.before.push_reserved(self.heads[bucket]);
            self.heads[bucket] = entry as u32 + 1;
        }
    }

    /// Takes the last linked entry out of its chain.
    fn unlink(&mut self, hashes: &[u32], marks: &[Mark])
        requires chained { AreChained self.old.heads.items self.old.before.items hashes.now (gone_of marks.now) }
        requires long { length marks.now ≡ length hashes.now }
        requires some { 0 < length self.old.before.items }
        ensures chained { AreChained self.new.heads.items self.new.before.items hashes.now (gone_of marks.now) }
        ensures fewer { length self.new.before.items + 1 ≡ length self.old.before.items }
        ensures wide { length self.new.heads.items ≡ length self.old.heads.items }
        ensures heads { vec_capacity self.new.heads ≡ vec_capacity self.old.heads }
        ensures capacity { vec_capacity self.new.before ≡ vec_capacity self.old.before }
    {
        let entry = self.before.len() - 1;
        if !is_gone_at(marks, entry) {
            let bucket = self.bucket(hashes[entry]);
            self.heads[bucket] = self.before[entry];
        }
        self.before.truncate(entry);
    }

    /// Takes an entry out of its chain, before it is marked as gone. `newer` is the number after
    /// the next entry of its bucket, or 0 if it is the last.
    pub(crate) fn drop_entry(&mut self, hashes: &[u32], marks: &[Mark], newer: usize, entry: usize)
        requires chained { AreChained self.old.heads.items self.old.before.items hashes.now (gone_of marks.now) }
        requires long { length marks.now ≡ length hashes.now }
        requires linked { entry < length self.old.before.items }
        requires stays { get_or (gone_of marks.now) entry true ≡ false }
        requires last { newer ≡ 0 → slice_index self.old.heads.items
            (bucket_of (length self.old.heads.items) (slice_index hashes.now entry)) ≡ entry + 1 }
        requires next { 0 < newer → (newer ≤ length self.old.before.items)
            × (get_or (gone_of marks.now) (newer - 1) true ≡ false)
            × (slice_index self.old.before.items (newer - 1) ≡ entry + 1) }
        ensures chained { AreChained self.new.heads.items self.new.before.items hashes.now
            (slice_set (gone_of marks.now) entry true) }
        ensures long { length self.new.before.items ≡ length self.old.before.items }
        ensures wide { length self.new.heads.items ≡ length self.old.heads.items }
        ensures head { newer ≡ 0 → slice_index self.new.heads.items
            (bucket_of (length self.old.heads.items) (slice_index hashes.now entry))
            ≡ slice_index self.old.before.items entry }
        ensures next { 0 < newer → slice_index self.new.before.items (newer - 1)
            ≡ slice_index self.old.before.items entry }
    {
        let left = self.before[entry];
        if newer == 0 {
            let bucket = self.bucket(hashes[entry]);
            self.heads[bucket] = left;
        } else {
            self.before[newer - 1] = left;
        }
    }

    /// Returns the number of entries that can be in chains before they take memory.
    fn room(&self) -> usize
        ensures { result ≡ min (min (vec_capacity self.now.before) (vec_capacity self.now.heads)) (2 ^ 32 - 1) }
    {
        self.before.capacity().min(self.heads.capacity()).min(MOST)
    }

    /// Makes room for `count` entries, or for `MOST` if that is less. The chains stay. If an
    /// allocation fails while there are no chains, there may be no room any more.
    pub(crate) fn reserve(&mut self, count: usize) -> Result<(), AllocError>
        ensures heads { self.new.heads.items ≡ self.old.heads.items }
        ensures before { self.new.before.items ≡ self.old.before.items }
        ensures room { OnOk result (HasRoomFor count self.new) }
    {
        let wanted = count.min(MOST);
        if self.heads.is_empty() {
            // So no room is copied that was never used.
            self.before.shrink_to_fit();
            self.heads.shrink_to_fit();
        }
        self.before
            .reserve_exact(wanted.saturating_sub(self.before.len()))?;
        self.heads.reserve(wanted.saturating_sub(self.heads.len()))
    }

    /// Links entries into their buckets' chains until `most` are linked.
    fn link_up_to(&mut self, hashes: &[u32], marks: &[Mark], most: usize)
        requires chained { AreChained self.old.heads.items self.old.before.items hashes.now (gone_of (all_marks (length hashes.now) marks.now)) }
        requires long { length marks.now ≤ length hashes.now }
        requires some { length self.old.before.items ≤ most }
        requires within { most ≤ length hashes.now }
        requires room { most ≤ vec_capacity self.old.before }
        requires spread { most ≤ length self.old.heads.items }
        ensures chained { AreChained self.new.heads.items self.new.before.items hashes.now (gone_of (all_marks (length hashes.now) marks.now)) }
        ensures all { length self.new.before.items ≡ most }
        ensures room { vec_capacity self.new.before ≡ vec_capacity self.old.before }
    {
        while self.before.len() < most {
            self.link(hashes, marks);
        }
    }

    /// Takes all entries out of their chains, and makes all the buckets that there is room for.
    fn widen(&mut self)
        ensures chained { (hashes : List ℕ) (marks : List Bool)
            → AreChained self.new.heads.items self.new.before.items hashes marks }
        ensures none { self.new.before.items ≡ [] }
        ensures wide { length self.new.heads.items
            ≡ min (vec_capacity self.old.heads) (2 ^ 32 - 1) }
        ensures capacity { vec_capacity self.new.before ≡ vec_capacity self.old.before }
    {
        let room = self.heads.capacity().min(MOST);
        self.before.clear();
        self.heads.clear();
        // It takes no memory.
        let _ = self.heads.resize(room, 0);
    }

    /// Links the unlinked entries into their buckets' chains, until there is no more room. It takes
    /// no memory. A look compares the others one by one.
    pub(crate) fn link_all(&mut self, hashes: &[u32], marks: &[Mark])
        requires chained { AreChained self.old.heads.items self.old.before.items hashes.now (gone_of (all_marks (length hashes.now) marks.now)) }
        requires long { length marks.now ≤ length hashes.now }
        ensures chained { AreChained self.new.heads.items self.new.before.items hashes.now (gone_of (all_marks (length hashes.now) marks.now)) }
        ensures linked { LinksIfRoom (length hashes.now) self.old self.new }
        ensures room { vec_capacity self.new.before ≡ vec_capacity self.old.before }
    {
        let most = hashes.len().min(self.room());
        if most <= self.before.len() {
            return;
        }
        if most > self.heads.len() {
            self.widen();
        }
        self.link_up_to(hashes, marks, most);
    }

    /// Takes the entries at and after `from` out of their chains.
    pub(crate) fn cut(&mut self, hashes: &[u32], marks: &[Mark], from: usize)
        requires chained { AreChained self.old.heads.items self.old.before.items hashes.now (gone_of marks.now) }
        requires long { length marks.now ≡ length hashes.now }
        ensures chained { AreChained self.new.heads.items self.new.before.items hashes.now (gone_of marks.now) }
        ensures left { length self.new.before.items ≤ from }
    {
        while self.before.len() > from {
            self.unlink(hashes, marks);
        }
    }

    /// Returns the number after the last entry in the bucket of a hash, or 0 if it has none.
    fn head(&self, hashes: &[u32], marks: &[Mark], hash: u32) -> usize
        requires chained { AreChained self.now.heads.items self.now.before.items hashes.now (gone_of marks.now) }
        ensures last { IsLast (IsIn (length self.now.heads.items)
            (bucket_of (length self.now.heads.items) hash) hashes.now (gone_of marks.now))
            (length self.now.before.items) result }
        ensures head { 0 < result → slice_index self.now.heads.items
            (bucket_of (length self.now.heads.items) hash) ≡ result }
    {
        if self.heads.is_empty() {
            0
        } else {
            self.heads[self.bucket(hash)] as usize
        }
    }

    /// Takes the records of a hash that a look has found out of their chain, and marks them as
    /// gone.
    fn take_linked(&mut self, hashes: &[u32], marks: &mut [Mark], hash: u32)
        requires chained { AreChained self.old.heads.items self.old.before.items hashes.now (gone_of marks.old) }
        requires long { length marks.old ≡ length hashes.now }
        requires found { HaveHash hash hashes.now marks.old }
        ensures chained { AreChained self.new.heads.items self.new.before.items hashes.now (gone_of marks.new) }
        ensures long { length marks.new ≡ length marks.old }
        ensures same { length self.new.before.items ≡ length self.old.before.items }
        ensures linked { IsTakenFrom 0 (length self.old.before.items) marks.old marks.new }
    {
        let mut newer = 0;
        let mut at = self.head(hashes, marks, hash);
        while at > 0 {
            let entry = at - 1;
            let older = self.before[entry] as usize;
            if is_found_at(marks, entry) {
                self.drop_entry(hashes, marks, newer, entry);
                marks[entry] = Mark::Gone;
            } else {
                newer = at;
            }
            at = older;
        }
    }

    /// Marks as gone the records of a hash that a look has found, and takes them out of their
    /// chain.
    pub(crate) fn take(&mut self, hashes: &[u32], marks: &mut [Mark], hash: u32)
        requires chained { AreChained self.old.heads.items self.old.before.items hashes.now (gone_of marks.old) }
        requires long { length marks.old ≡ length hashes.now }
        requires found { HaveHash hash hashes.now marks.old }
        ensures chained { AreChained self.new.heads.items self.new.before.items hashes.now (gone_of marks.new) }
        ensures marks { marks.new ≡ map taken marks.old }
        ensures same { length self.new.before.items ≡ length self.old.before.items }
    {
        self.take_linked(hashes, marks, hash);
        take_each(marks, self.before.len());
    }
}
