// The notes about the records on a store.
ghost use Rattle.std.specs.Prelude.{◌≡◌, ℕ, ◌+◌, ◌-◌, ◌<◌, ◌≤◌, ◌^◌, ◌⊎◌, List, [], ◌∷◌, ◌++◌, true, false, get_or, slice_set, take, length, min, cond, vec_capacity, OnOk, OnErr};
ghost use Rattle.cdb_form.specs.Format.{head_size, key_hash};
ghost use Rattle.cdb_make.specs.Chains.{second_hash, searched_by, AreChained, FindsLast, Has};
ghost use Rattle.cdb_make.specs.Spans.{gone_of, found_of, all_marks, HaveHash, IsFirstMarked, IsPutBackFrom, AreNone, AreRising, AreOf, IsPicked, left, or_each};
ghost use Rattle.cdb_make.specs.declared.mark.Mark.TheVariants.{Stays, Gone};
ghost use Rattle.cdb_make.specs.Views.Places.{places_in, places_room};

use crate::chains::Chains;
use crate::compact::{compact_entries, place_at};
use crate::growth::reserve_one;
use crate::mark::{Mark, is_found_at};
use crate::places::Places;
use crate::tags::{compact_tags, push_tag, reserve_tag, searched, second_hash};
use cdb_form::{Width, hash, head_size};
use std::alloc::{AllocError, Global};
use std::marker::PhantomData;

/// Some records of a roll, picked by a look or for a pass.
#[derive(Clone, Copy)]
pub(crate) struct Picked {
    /// The number of the first picked record. If there is none, it is past all, however many
    /// records follow.
    pub(crate) first: usize,
    /// The number of picked records.
    pub(crate) count: u64,
    /// The number of bytes of the picked records.
    pub(crate) size: u64,
}

/// No records.
fn none() -> Picked
    ensures first { result.first ≡ 2 ^ 64 - 1 }
    ensures count { result.count ≡ 0 }
    ensures size { result.size ≡ 0 }
{
    Picked {
        first: usize::MAX,
        count: 0,
        size: 0,
    }
}

/// Leaves the records at and after `from` as if no look had found them.
fn put_each_back(marks: &mut [Mark], from: usize)
    requires { from ≤ length marks.old }
    ensures back { IsPutBackFrom from (length marks.old) marks.old marks.new }
    ensures long { length marks.new ≡ length marks.old }
{
    for n in from..marks.len() {
        if is_found_at(marks, n) {
            marks[n] = Mark::Stays;
        }
    }
}

/// Leaves the marks of the records before `first`, which stay. The others have no marks then, and
/// so they stay.
fn compact_marks(marks: &mut Vec<Mark>, first: usize)
    requires { (k : ℕ) → k < first → get_or marks.old.items k Gone ≡ Stays }
    ensures stay { (count k : ℕ) → first ≤ count → k < count
        → get_or (all_marks count marks.new.items) k Gone ≡ Stays }
    ensures few { length marks.new.items ≤ first }
    ensures kept { marks.new.items ≡ take first marks.old.items }
    ensures room { vec_capacity marks.new ≡ vec_capacity marks.old }
{
    marks.truncate(first);
}

/// Makes room for `most` marks, if there is no room for more than `count`. If an allocation fails,
/// nothing has changed.
fn reserve_marks(marks: &mut Vec<Mark>, count: usize, most: usize) -> Result<(), AllocError>
    requires few { length marks.old.items ≤ count }
    requires more { count < most }
    ensures items { marks.new.items ≡ marks.old.items }
    ensures ok { OnOk result (count < vec_capacity marks.new) }
    ensures all { OnOk result ((count < vec_capacity marks.old) ⊎ (most ≤ vec_capacity marks.new)) }
    ensures full { OnErr result (vec_capacity marks.old ≤ count) }
    ensures room { vec_capacity marks.old ≤ vec_capacity marks.new }
{
    if count < marks.capacity() {
        return Ok(());
    }
    if marks.is_empty() {
        // So no room is copied that was never used.
        *marks = Vec::with_capacity(*marks.allocator(), most)?;
        return Ok(());
    }
    marks.reserve_exact(most - marks.len())
}

/// Gives each of the first `count` records a mark: those that have none so far stay. There is room
/// for the marks.
#[inline(always)]
fn mark_each(marks: &mut Vec<Mark>, count: usize)
    requires few { length marks.old.items ≤ count }
    requires room { count ≤ vec_capacity marks.old }
    ensures all { marks.new.items ≡ all_marks count marks.old.items }
    ensures room { vec_capacity marks.new ≡ vec_capacity marks.old }
{
    while marks.len() < count {
        marks.push_reserved(Mark::Stays);
    }
}

/// The hash of each record's key and the record's place, in the order of the file, and the records
/// that go.
///
/// If a look or an append of a lazy maker came before the first record, each has a tag too: then
/// keys that all have one hash are found as fast as others.
#[derive(Drop)]
pub(crate) struct Roll<L: Width> {
    /// The hash of each record's key.
    pub(crate) hashes: Vec<u32>,
    /// The second hash of each record's key, if they are tagged.
    pub(crate) tags: Vec<u32>,
    /// True if each record has a tag, and is found by it and not by its hash.
    pub(crate) tagged: bool,
    /// The place of each record, in bytes from the file's start.
    pub(crate) places: Places<L>,
    /// The mark of each record. Records past the marks stay: a maker that only adds makes none.
    pub(crate) marks: Vec<Mark>,
    /// The records that stay, by their tags or their hashes.
    pub(crate) chains: Chains,
    /// The records that go with the next pass.
    pub(crate) gone: Picked,
    /// The records that the last look has found.
    pub(crate) found: Picked,
    /// The place after the last record.
    pub(crate) end: u64,
    /// The number of records that there can be before memory is taken.
    pub(crate) most: usize,
    pub(crate) width: PhantomData<L>,
    ghost paired: { length (places_in places) ≡ length hashes.items },
    ghost marked: { length marks.items ≤ length hashes.items },
    ghost numbered: { length (searched_by tagged tags.items hashes.items) ≡ length hashes.items },
    ghost chained: { AreChained chains.heads.items chains.before.items (searched_by tagged tags.items hashes.items) (gone_of (all_marks (length hashes.items) marks.items)) },
    ghost spans: { AreRising (head_size L.WORD) (places_in places) end },
    ghost picked: { IsPicked (head_size L.WORD) (places_in places) end (gone_of (all_marks (length hashes.items) marks.items)) gone },
    ghost sought: { IsPicked (head_size L.WORD) (places_in places) end (found_of (all_marks (length hashes.items) marks.items)) found },
    ghost hash_room: { length hashes.items ≤ vec_capacity hashes },
    ghost tag_room: { length tags.items ≤ vec_capacity tags },
    ghost place_room: { length (places_in places) ≤ places_room places },
    ghost room: { length hashes.items ≤ vec_capacity marks },
    ghost most_hashes: { most ≤ vec_capacity hashes },
    ghost most_tags: { tagged ≡ true → most ≤ vec_capacity tags },
    ghost most_places: { most ≤ places_room places },
    ghost most_marks: { most ≤ vec_capacity marks },
    ghost fits: { end ≤ L.GREATEST },
}

impl<L: Width> Roll<L> {
    ghost use Rattle.cdb_make.specs.Views.Chains.{LinksIfRoom, LinksNext, HasRoomFor, HasNoRoom};
    ghost use Rattle.cdb_make.specs.Views.Roll.{searched, sought_in, marks_in, IsSought, HasRoom, SameRecords};

    /// No records.
    pub(crate) fn new(alloc: Global) -> Roll<L>
        ensures hashes { result.hashes.items ≡ [] }
        ensures searched { searched result ≡ [] }
        ensures places { places_in result.places ≡ [] }
        ensures marks { marks_in result ≡ [] }
        ensures gone { result.gone.size ≡ 0 }
        ensures end { result.end ≡ head_size L.WORD }
    {
        Roll {
            hashes: Vec::new(alloc),
            tags: Vec::new(alloc),
            tagged: false,
            places: Places::new(alloc),
            marks: Vec::new(alloc),
            chains: Chains::new(alloc),
            gone: none(),
            found: none(),
            end: head_size::<L>() as u64,
            most: 0,
            width: PhantomData,
        }
    }

    /// Returns the number of all records, with those that go.
    pub(crate) fn len(&self) -> usize
        ensures { result ≡ length self.now.hashes.items }
    {
        self.hashes.len()
    }

    /// Returns the place where the records would end without those that go.
    pub(crate) fn left_end(&self) -> u64
        ensures { result + self.now.gone.size ≡ self.now.end }
    {
        self.end - self.gone.size
    }

    /// Returns the number of records without those that go.
    pub(crate) fn left_count(&self) -> u64
        ensures { result + self.now.gone.count ≡ length self.now.hashes.items }
    {
        self.len() as u64 - self.gone.count
    }

    /// Returns the place where the records would end without those that go and those that were
    /// found.
    pub(crate) fn kept_end(&self) -> u64
        ensures { result + (self.now.gone.size + self.now.found.size) ≡ self.now.end }
    {
        self.end - self.gone.size - self.found.size
    }

    /// Returns the number of records without those that go and those that were found.
    pub(crate) fn kept_count(&self) -> u64
        ensures { result + (self.now.gone.count + self.now.found.count)
            ≡ length self.now.hashes.items }
    {
        self.len() as u64 - self.gone.count - self.found.count
    }

    /// Returns true if no record goes and none was found.
    pub(crate) fn takes_none(&self) -> bool
        ensures none { result ≡ true → self.now.gone.count + self.now.found.count ≡ 0 }
        ensures some { result ≡ false → 0 < self.now.gone.count + self.now.found.count }
    {
        self.gone.count == 0 && self.found.count == 0
    }

    /// Returns the number of the first record that goes, or the number of records if none goes.
    pub(crate) fn first_gone(&self) -> usize
        ensures { IsFirstMarked (gone_of (marks_in self.now)) result }
    {
        self.gone.first.min(self.len())
    }

    /// Returns the number that a look for a key searches. If no record was noted before, the look
    /// begins the tags. `hash` is the key's hash.
    #[inline(always)]
    pub(crate) fn sought_by_look(&self, hash: u32, key: &[u8]) -> u32
        requires { hash ≡ key_hash key.now }
        ensures { IsSought self.now key.now result }
    {
        if self.tagged || self.hashes.capacity() == 0 {
            second_hash(key)
        } else {
            hash
        }
    }

    /// Begins the tags of the records if that is wanted, unless some records were noted before.
    #[inline(always)]
    pub(crate) fn tag(&mut self, wanted: bool)
        ensures sought { wanted ≡ true → (key : List ℕ) (n : ℕ) → IsSought self.old key n
            → n ≡ sought_in self.new key }
        ensures tagged { self.new.tagged ≡ true
            → (self.old.tagged ≡ true) ⊎ (vec_capacity self.old.hashes ≡ 0) }
        ensures begins { wanted ≡ true → vec_capacity self.old.hashes ≡ 0 → self.new.tagged ≡ true }
        ensures same { SameRecords self.old self.new }
        ensures marks { marks_in self.new ≡ marks_in self.old }
        ensures kept_marks { self.new.marks ≡ self.old.marks }
        ensures chains { self.new.chains ≡ self.old.chains }
        ensures gone { self.new.gone ≡ self.old.gone }
        ensures found { self.new.found ≡ self.old.found }
        ensures room { HasRoom self.old → HasRoom self.new }
    {
        if wanted && self.hashes.capacity() == 0 {
            self.tags.clear();
            self.tagged = true;
        }
    }

    /// Gives each record a mark. It takes no memory.
    #[inline(always)]
    pub(crate) fn mark_all(&mut self)
        ensures marks { self.new.marks.items ≡ marks_in self.old }
        ensures marked { length self.new.marks.items ≡ length self.new.hashes.items }
        ensures same { SameRecords self.old self.new }
        ensures tagged { self.new.tagged ≡ self.old.tagged }
        ensures all { marks_in self.new ≡ marks_in self.old }
        ensures chains { self.new.chains ≡ self.old.chains }
        ensures gone { self.new.gone ≡ self.old.gone }
        ensures found { self.new.found ≡ self.old.found }
        ensures room { vec_capacity self.new.hashes ≡ vec_capacity self.old.hashes }
        ensures place_room { self.new.places ≡ self.old.places }
        ensures mark_room { vec_capacity self.new.marks ≡ vec_capacity self.old.marks }
        ensures has { HasRoom self.old → HasRoom self.new }
    {
        mark_each(&mut self.marks, self.hashes.len());
    }

    /// Returns the last of the first `end` records that has a number and does not go. If `end` is
    /// the number of such a record, the search goes on from it.
    #[inline(always)]
    pub(crate) fn last(&self, sought: u32, end: usize) -> Option<usize>
        requires { end ≤ length self.now.hashes.items }
        ensures { FindsLast (Has sought (searched self.now) (gone_of (marks_in self.now))) end result }
    {
        let searched = searched(self.tagged, &self.tags, &self.hashes);
        self.chains.last(searched, &self.marks, sought, end)
    }

    /// Returns the number of records that there can be before a column takes memory.
    fn room(&self) -> usize
        ensures hashes { result ≤ vec_capacity self.now.hashes }
        ensures tags { self.now.tagged ≡ true → result ≤ vec_capacity self.now.tags }
        ensures places { result ≤ places_room self.now.places }
        ensures marks { result ≤ vec_capacity self.now.marks }
        ensures more { HasRoom self.now → length self.now.hashes.items < result }
    {
        let room = self.hashes.capacity().min(self.places.room());
        let room = room.min(self.marks.capacity());
        if self.tagged {
            room.min(self.tags.capacity())
        } else {
            room
        }
    }

    /// Makes room in each column for one more record, and in the chains for all records that the
    /// columns have room for. The chains stay. If an allocation fails, no record has changed, and
    /// the columns have room for `most` records.
    #[cold]
    #[inline(never)]
    fn grow(&mut self) -> Result<(), AllocError>
        ensures more { OnOk result (length self.new.hashes.items < self.new.most) }
        ensures chains { OnOk result (HasRoomFor self.new.most self.new.chains) }
        ensures full { OnErr result
            ((HasRoom self.old → ⊥) ⊎ (length self.new.hashes.items < self.new.most)) }
        ensures same { SameRecords self.old self.new }
        ensures tagged { self.new.tagged ≡ self.old.tagged }
        ensures marks { marks_in self.new ≡ marks_in self.old }
        ensures kept_marks { self.new.marks.items ≡ self.old.marks.items }
        ensures gone { self.new.gone ≡ self.old.gone }
        ensures found { self.new.found ≡ self.old.found }
        ensures heads { self.new.chains.heads.items ≡ self.old.chains.heads.items }
        ensures before { self.new.chains.before.items ≡ self.old.chains.before.items }
    {
        reserve_one(&mut self.hashes)?;
        reserve_tag(self.tagged, &mut self.tags)?;
        self.places.reserve()?;
        reserve_marks(&mut self.marks, self.hashes.len(), self.hashes.capacity())?;
        self.most = self.room();
        self.chains.reserve(self.most)
    }

    /// Makes room for one more record, and in the chains too if memory allows. The chains stay. If
    /// an allocation for the record fails, nothing has changed.
    #[inline(always)]
    pub(crate) fn reserve(&mut self) -> Result<(), AllocError>
        ensures room { OnOk result (HasRoom self.new) }
        ensures full { OnErr result (HasRoom self.old → ⊥) }
        ensures same { SameRecords self.old self.new }
        ensures tagged { self.new.tagged ≡ self.old.tagged }
        ensures marks { marks_in self.new ≡ marks_in self.old }
        ensures kept_marks { self.new.marks.items ≡ self.old.marks.items }
        ensures gone { self.new.gone ≡ self.old.gone }
        ensures found { self.new.found ≡ self.old.found }
        ensures heads { self.new.chains.heads.items ≡ self.old.chains.heads.items }
        ensures before { self.new.chains.before.items ≡ self.old.chains.before.items }
    {
        if self.hashes.len() < self.most {
            return Ok(());
        }
        let grown = self.grow();
        // The chains only make looks faster.
        if self.hashes.len() < self.most {
            return Ok(());
        }
        grown
    }

    /// Notes one more record, of `size` bytes. There is room for it. If the records are tagged, its
    /// tag is noted, and it is linked into its chain if all others are and the chains have room. A
    /// caller that knows whether they are tagged spares the tests.
    #[inline(always)]
    pub(crate) fn push(&mut self, tagged: bool, hash: u32, tag: u32, size: u64)
        requires tagged { tagged ≡ self.old.tagged }
        requires room { HasRoom self.old }
        requires fits { self.old.end + size ≤ L.GREATEST }
        ensures hashes { self.new.hashes.items ≡ self.old.hashes.items ++ hash ∷ [] }
        ensures searched { searched self.new ≡ searched self.old ++ cond self.old.tagged tag hash ∷ [] }
        ensures tagged { self.new.tagged ≡ self.old.tagged }
        ensures of { (sizes : List ℕ)
            → AreOf (head_size L.WORD) (places_in self.old.places) self.old.end sizes
            → AreOf (head_size L.WORD) (places_in self.new.places) self.new.end (sizes ++ size ∷ []) }
        ensures gone { gone_of (marks_in self.new) ≡ gone_of (marks_in self.old) ++ false ∷ [] }
        ensures found { found_of (marks_in self.new) ≡ found_of (marks_in self.old) ++ false ∷ [] }
        ensures linked { self.old.tagged ≡ true
            → LinksNext (length self.old.hashes.items) self.old.chains self.new.chains }
        ensures marks { self.new.marks ≡ self.old.marks }
        ensures end { self.new.end ≡ self.old.end + size }
        ensures count { self.new.gone.count ≡ self.old.gone.count }
        ensures size { self.new.gone.size ≡ self.old.gone.size }
        ensures found_count { self.new.found.count ≡ self.old.found.count }
        ensures found_size { self.new.found.size ≡ self.old.found.size }
    {
        let number = self.len();
        self.hashes.push_reserved(hash);
        push_tag(tagged, &mut self.tags, tag);
        self.places.push(self.end);
        self.end += size;
        self.chains.push(tagged, number, tag);
    }

    /// Removes the records that go.
    pub(crate) fn compact(&mut self)
        ensures hashes { self.new.hashes.items ≡ left (gone_of (marks_in self.old)) self.old.hashes.items }
        ensures searched { searched self.new ≡ left (gone_of (marks_in self.old)) (searched self.old) }
        ensures tagged { self.new.tagged ≡ self.old.tagged }
        ensures of { (sizes : List ℕ)
            → AreOf (head_size L.WORD) (places_in self.old.places) self.old.end sizes
            → AreOf (head_size L.WORD) (places_in self.new.places) self.new.end
            (left (gone_of (marks_in self.old)) sizes) }
        ensures gone { AreNone (gone_of (marks_in self.new)) }
        ensures found { AreNone (found_of (marks_in self.new)) }
        ensures end { self.new.end + self.old.gone.size ≡ self.old.end }
        ensures count { length self.new.hashes.items + self.old.gone.count
            ≡ length self.old.hashes.items }
        ensures clear { self.new.gone.count ≡ 0 }
        ensures clear_size { self.new.gone.size ≡ 0 }
        ensures room { 0 < self.old.gone.count → HasRoom self.new }
    {
        self.put_back();
        self.mark_all();
        let start = head_size::<L>() as u64;
        let first = self.first_gone();
        let searched = searched(self.tagged, &self.tags, &self.hashes);
        self.chains.cut(searched, &self.marks, first);
        compact_tags(self.tagged, &mut self.tags, &self.marks, first);
        let (hashes, places) = (&mut self.hashes, &mut self.places);
        let kept = compact_entries(start, hashes, places, &self.marks, first, self.end);
        self.hashes.truncate(kept.count);
        self.places.truncate(kept.count);
        compact_marks(&mut self.marks, first);
        self.gone = none();
        self.found = none();
        self.end = kept.end;
    }

    /// Notes that a look has found record `n`. It does not go, and lies before all that the look
    /// has found so far.
    pub(crate) fn find(&mut self, n: usize)
        requires within { n < length self.old.hashes.items }
        requires stays { get_or (gone_of (marks_in self.old)) n true ≡ false }
        requires before { n < self.old.found.first }
        ensures found { found_of (marks_in self.new)
            ≡ slice_set (found_of (marks_in self.old)) n true }
        ensures first { self.new.found.first ≡ n }
        ensures gone { gone_of (marks_in self.new) ≡ gone_of (marks_in self.old) }
        ensures same { SameRecords self.old self.new }
        ensures tagged { self.new.tagged ≡ self.old.tagged }
        ensures kept { self.new.gone ≡ self.old.gone }
        ensures chains { self.new.chains ≡ self.old.chains }
        ensures room { HasRoom self.old → HasRoom self.new }
    {
        self.mark_all();
        let size = place_at(&self.places, n + 1, self.end) - self.places.at(n);
        self.marks[n] = Mark::Found;
        self.found = Picked {
            first: n,
            count: self.found.count + 1,
            size: self.found.size + size,
        };
    }

    /// Marks as gone the records that a look for a number has found.
    pub(crate) fn take(&mut self, sought: u32)
        requires hash { HaveHash sought (searched self.old) (marks_in self.old) }
        ensures same { SameRecords self.old self.new }
        ensures tagged { self.new.tagged ≡ self.old.tagged }
        ensures gone { gone_of (marks_in self.new)
            ≡ or_each (gone_of (marks_in self.old)) (found_of (marks_in self.old)) }
        ensures count { self.new.gone.count ≡ self.old.gone.count + self.old.found.count }
        ensures size { self.new.gone.size ≡ self.old.gone.size + self.old.found.size }
        ensures linked { length self.new.chains.before.items ≡ length self.old.chains.before.items }
    {
        // Otherwise each put would take time for all earlier records that are in no chain.
        if self.found.count == 0 {
            return;
        }
        self.mark_all();
        let searched = searched(self.tagged, &self.tags, &self.hashes);
        self.chains.take(searched, &mut self.marks, sought);
        self.gone = Picked {
            first: self.gone.first.min(self.found.first),
            count: self.gone.count + self.found.count,
            size: self.gone.size + self.found.size,
        };
        self.found = none();
    }

    /// Leaves the records that a look has found as if none had.
    pub(crate) fn put_back(&mut self)
        ensures same { SameRecords self.old self.new }
        ensures tagged { self.new.tagged ≡ self.old.tagged }
        ensures gone { gone_of (marks_in self.new) ≡ gone_of (marks_in self.old) }
        ensures found { AreNone (found_of (marks_in self.new)) }
        ensures picked { self.new.gone ≡ self.old.gone }
        ensures chains { self.new.chains ≡ self.old.chains }
        ensures room { vec_capacity self.new.hashes ≡ vec_capacity self.old.hashes }
        ensures place_room { self.new.places ≡ self.old.places }
        ensures mark_room { vec_capacity self.new.marks ≡ vec_capacity self.old.marks }
        ensures has { HasRoom self.old → HasRoom self.new }
    {
        if self.found.count == 0 {
            return;
        }
        self.mark_all();
        put_each_back(&mut self.marks, self.found.first);
        self.found = none();
    }

    /// Links the records into chains before a look, until there is no more room. It takes no
    /// memory. If no record was noted so far, all that come are tagged.
    #[inline(always)]
    pub(crate) fn link(&mut self)
        ensures sought { (key : List ℕ) (n : ℕ) → IsSought self.old key n → n ≡ sought_in self.new key }
        ensures same { SameRecords self.old self.new }
        ensures marks { marks_in self.new ≡ marks_in self.old }
        ensures kept_marks { self.new.marks ≡ self.old.marks }
        ensures gone { self.new.gone ≡ self.old.gone }
        ensures found { self.new.found ≡ self.old.found }
        ensures room { HasRoom self.old → HasRoom self.new }
        ensures linked { LinksIfRoom (length self.old.hashes.items) self.old.chains self.new.chains }
    {
        self.tag(true);
        if self.chains.len() == self.len() {
            return;
        }
        let searched = searched(self.tagged, &self.tags, &self.hashes);
        self.chains.link_all(searched, &self.marks);
    }

    /// Drops the chains, and frees their memory. The next growth makes room for them anew; until
    /// then looks compare the records one by one.
    pub(crate) fn unchain(&mut self, alloc: Global)
        ensures same { SameRecords self.old self.new }
        ensures marks { marks_in self.new ≡ marks_in self.old }
        ensures kept_marks { self.new.marks ≡ self.old.marks }
        ensures gone { self.new.gone ≡ self.old.gone }
        ensures found { self.new.found ≡ self.old.found }
        ensures freed { HasNoRoom self.new.chains }
    {
        self.chains = Chains::new(alloc);
    }
}
