// Whole records, as they are in a file, are written after the others by one write.
ghost use Rattle.std.specs.Prelude.{◌≡◌, ◌+◌, ◌*◌, ◌<◌, ◌≤◌, ◌⊎◌, ◌∷◌, [], true, false, length, take, sum_by, vec_capacity, IfOk, IfErr, OnOk, OnErr};
ghost use Rattle.cdb_store.specs.Images.{ImagesHold as AreIn};
ghost use Rattle.cdb_form.specs.Format.{whole_size, key_hash, KeyValue, IsRecord, record_bytes, record_size, prefix_size, prefix_record, whole_records};
ghost use Rattle.cdb_store.specs.declared.make_fault.MakeFault.TheVariants.{NoMemory};
ghost use Rattle.cdb_make.specs.Views.Appending.{records_at, first_size, AreFirst};
ghost use Rattle.cdb_make.specs.Chains.{second_hash};
ghost use Rattle.cdb_make.specs.Views.Roll.{HasRoom, SameRecords};

use crate::maker::Maker;
use crate::tags::number_of;
use cdb_form::{Width, hash, pair_size, read_header, record_len};
use cdb_store::{MakeFault, Store};

/// The record with which some bytes begin.
#[derive(Clone, Copy)]
pub struct FirstRecord<'a> {
    /// The key.
    pub key: &'a [u8],
    /// The value.
    pub value: &'a [u8],
    /// All bytes of the record, as a file has them.
    pub bytes: &'a [u8],
}

/// The whole record with which some bytes begin.
pub fn first_record<L: Width>(bytes: &[u8]) -> FirstRecord<'_>
    requires { prefix_size L.WORD bytes.now ≤ length bytes.now }
    ensures key { result.key.now ≡ (prefix_record L.WORD bytes.now).key }
    ensures value { result.value.now ≡ (prefix_record L.WORD bytes.now).value }
    ensures bytes { result.bytes.now ≡ take (prefix_size L.WORD bytes.now) bytes.now }
    ensures size { length result.bytes.now ≡ prefix_size L.WORD bytes.now }
{
    let pair = pair_size::<L>();
    let header = read_header::<L>(&bytes[..pair]);
    let value = pair + header.klen as usize;
    let size = value + header.vlen as usize;
    let whole = &bytes[..size];
    FirstRecord {
        key: &bytes[pair..value],
        value: &bytes[value..size],
        bytes: whole,
    }
}

/// The records of a run that are appended.
#[derive(Clone, Copy)]
struct Fitting {
    /// The number of records that are appended.
    count: usize,
    /// The number of bytes of the records that are appended.
    size: usize,
    /// True if the limit keeps out a whole record that follows them.
    passes: bool,
}

/// Returns the first whole records at the start of some bytes that fit into a file: with the slots
/// of their tables they take at most `room` bytes.
fn measure<L: Width>(bytes: &[u8], room: u64) -> Fitting
    ensures first { AreFirst L.WORD bytes.now result.count result.size }
    ensures room { sum_by (whole_size L.WORD) (take result.count (records_at L.WORD bytes.now))
        ≤ room }
    ensures all { result.passes ≡ false → result.count ≡ length (records_at L.WORD bytes.now) }
    ensures more { result.passes ≡ true → result.count < length (records_at L.WORD bytes.now) }
    ensures passes { result.passes ≡ true → room
        < sum_by (whole_size L.WORD) (take (result.count + 1) (records_at L.WORD bytes.now)) }
{
    let slots = 2 * pair_size::<L>() as u64;
    let mut left = room;
    let (mut count, mut place) = (0, 0);
    while let Some(next) = record_len::<L>(&bytes[place..]) {
        if left < slots || left - slots < next as u64 {
            return Fitting {
                count,
                size: place,
                passes: true,
            };
        }
        left -= slots + next as u64;
        count += 1;
        place += next;
    }
    Fitting {
        count,
        size: place,
        passes: false,
    }
}

impl<S: Store, L: Width> Maker<S, L> {
    ghost use Rattle.cdb_make.specs.Views.Maker.{StaysWhole, Follows, HasNotFailed, MakerKeepsAll};
    ghost use Rattle.cdb_make.specs.Views.Appending.{AppendsAll, AppendsSome, FailsAppending, BeginsTags, Enters, KeepsLimit, IsCrowded, FailsWriting, full_size};

    /// Notes a record whose bytes are in the store, after the others. The roll has room for it.
    #[inline(always)]
    pub(crate) fn note(&mut self, tagged: bool, hash: u32, number: u32, size: u64)
        requires tagged { tagged ≡ self.old.roll.tagged }
        requires whole { self.old.broken ≡ false }
        requires room { HasRoom self.old.roll }
        requires inside { self.old.roll.end + size ≤ S.size self.old.store }
        requires within { full_size self.old + size + 4 * L.WORD ≤ self.old.limit }
        ensures enters { (r : KeyValue) → IsRecord r → hash ≡ key_hash r.key
            → (self.old.roll.tagged ≡ true → number ≡ second_hash r.key)
            → size ≡ record_size L.WORD r
            → AreIn self.old.roll.end (record_bytes L.WORD r) (S.image self.old.store)
            → Enters self.old self.new (r ∷ []) }
        ensures end { self.new.roll.end ≡ self.old.roll.end + size }
        ensures whole { self.new.broken ≡ false }
        ensures limit { self.new.limit ≡ self.old.limit }
        ensures lazy { self.new.lazy ≡ self.old.lazy }
        ensures gone { self.new.roll.gone.count ≡ self.old.roll.gone.count }
        ensures store { self.new.store ≡ self.old.store }
        ensures tagged { self.new.roll.tagged ≡ self.old.roll.tagged }
    {
        self.roll.push(tagged, hash, number, size);
    }

    /// Notes a record whose bytes are in the store, after the others.
    ///
    /// `NoMemory`: the records are what they were.
    #[inline(always)]
    fn enter(&mut self, tagged: bool, hash: u32, number: u32, size: u64) -> Result<(), MakeFault>
        requires tagged { tagged ≡ self.old.roll.tagged }
        requires whole { self.old.broken ≡ false }
        requires inside { self.old.roll.end + size ≤ S.size self.old.store }
        requires within { full_size self.old + size + 4 * L.WORD ≤ self.old.limit }
        ensures enters { (r : KeyValue) → IsRecord r → hash ≡ key_hash r.key
            → (self.old.roll.tagged ≡ true → number ≡ second_hash r.key)
            → size ≡ record_size L.WORD r
            → AreIn self.old.roll.end (record_bytes L.WORD r) (S.image self.old.store)
            → OnOk result (Enters self.old self.new (r ∷ [])) }
        ensures end { OnOk result (self.new.roll.end ≡ self.old.roll.end + size) }
        ensures stays { OnErr result (StaysWhole self.old self.new) }
        ensures memory { IfErr result (λ fault. fault ≡ NoMemory) }
        ensures whole { self.new.broken ≡ false }
        ensures limit { self.new.limit ≡ self.old.limit }
        ensures lazy { self.new.lazy ≡ self.old.lazy }
        ensures gone { self.new.roll.gone.count ≡ self.old.roll.gone.count }
        ensures store { self.new.store ≡ self.old.store }
        ensures tagged { self.new.roll.tagged ≡ self.old.roll.tagged }
    {
        self.roll.reserve()?;
        self.note(tagged, hash, number, size);
        Ok(())
    }

    /// Notes the first `count` whole records of some bytes, which are in the store after the
    /// others.
    ///
    /// `NoMemory`: the records that are noted are held, and the bytes after them belong to no
    /// record.
    #[inline(always)]
    fn enter_each(&mut self, tagged: bool, bytes: &[u8], count: usize) -> Result<(), MakeFault>
        requires tagged { tagged ≡ self.old.roll.tagged }
        requires whole { self.old.broken ≡ false }
        requires first { AreFirst L.WORD bytes.now count (first_size L.WORD bytes.now count) }
        requires room { full_size self.old
            + sum_by (whole_size L.WORD) (take count (records_at L.WORD bytes.now))
            ≤ self.old.limit }
        requires inside { self.old.roll.end + first_size L.WORD bytes.now count
            ≤ S.size self.old.store }
        requires written { AreIn self.old.roll.end
            (take (first_size L.WORD bytes.now count) bytes.now) (S.image self.old.store) }
        ensures ok { OnOk result
            (Enters self.old self.new (take count (records_at L.WORD bytes.now))) }
        ensures some { OnErr result
            (AppendsSome self.old self.new (take count (records_at L.WORD bytes.now))
            (KeepsLimit self.old self.new)) }
        ensures memory { IfErr result (λ fault. fault ≡ NoMemory) }
        ensures limit { self.new.limit ≡ self.old.limit }
        ensures lazy { self.new.lazy ≡ self.old.lazy }
        ensures gone { self.new.roll.gone.count ≡ self.old.roll.gone.count }
        ensures store { self.new.store ≡ self.old.store }
        ensures tagged { self.new.roll.tagged ≡ self.old.roll.tagged }
    {
        let mut place = 0;
        for _ in 0..count {
            let first = first_record::<L>(&bytes[place..]);
            let hash = hash(first.key);
            let number = number_of(tagged, hash, first.key);
            self.enter(tagged, hash, number, first.bytes.len() as u64)?;
            place += first.bytes.len();
        }
        Ok(())
    }

    /// Does what `enter_each` does, whether the records are tagged or not.
    fn enter_all(&mut self, bytes: &[u8], count: usize) -> Result<(), MakeFault>
        requires whole { self.old.broken ≡ false }
        requires first { AreFirst L.WORD bytes.now count (first_size L.WORD bytes.now count) }
        requires room { full_size self.old
            + sum_by (whole_size L.WORD) (take count (records_at L.WORD bytes.now))
            ≤ self.old.limit }
        requires inside { self.old.roll.end + first_size L.WORD bytes.now count
            ≤ S.size self.old.store }
        requires written { AreIn self.old.roll.end
            (take (first_size L.WORD bytes.now count) bytes.now) (S.image self.old.store) }
        ensures ok { OnOk result
            (Enters self.old self.new (take count (records_at L.WORD bytes.now))) }
        ensures some { OnErr result
            (AppendsSome self.old self.new (take count (records_at L.WORD bytes.now))
            (KeepsLimit self.old self.new)) }
        ensures memory { IfErr result (λ fault. fault ≡ NoMemory) }
        ensures limit { self.new.limit ≡ self.old.limit }
        ensures lazy { self.new.lazy ≡ self.old.lazy }
        ensures gone { self.new.roll.gone.count ≡ self.old.roll.gone.count }
        ensures store { self.new.store ≡ self.old.store }
        ensures tagged { self.new.roll.tagged ≡ self.old.roll.tagged }
    {
        if self.roll.tagged {
            self.enter_each(true, bytes, count)
        } else {
            self.enter_each(false, bytes, count)
        }
    }

    /// Writes some bytes after the records, which stay.
    ///
    /// `NoMemory`: nothing was written. `Writing`: the store failed.
    fn write_behind(&mut self, bytes: &[u8]) -> Result<(), MakeFault>
        requires whole { self.old.broken ≡ false }
        requires fits { self.old.roll.end + length bytes.now ≤ self.old.limit }
        ensures stays { StaysWhole self.old self.new }
        ensures roll { SameRecords self.old.roll self.new.roll }
        ensures gone { self.new.roll.gone ≡ self.old.roll.gone }
        ensures tagged { self.new.roll.tagged ≡ self.old.roll.tagged }
        ensures follows { Follows self.old self.new }
        ensures inside { OnOk result
            (self.new.roll.end + length bytes.now ≤ S.size self.new.store) }
        ensures stored { OnOk result
            (AreIn self.new.roll.end bytes.now (S.image self.new.store)) }
        ensures written { OnOk result
            (S.written self.new.store ≡ S.written self.old.store + length bytes.now) }
        ensures failures { OnOk result (HasNotFailed self.old self.new) }
        ensures fails { IfErr result (FailsWriting self.old self.new) }
    {
        self.store.write_at(self.roll.end, bytes)?;
        Ok(())
    }

    /// Writes the first `count` whole records of some bytes after the others, and notes them. With
    /// `tags` a maker that has noted no record tags all that come, also if this call has none.
    ///
    /// It fails as `append` does.
    fn append_first(
        &mut self,
        bytes: &[u8],
        count: usize,
        size: usize,
        tags: bool,
    ) -> Result<(), MakeFault>
        requires whole { self.old.broken ≡ false }
        requires first { AreFirst L.WORD bytes.now count size }
        requires room { full_size self.old
            + sum_by (whole_size L.WORD) (take count (records_at L.WORD bytes.now))
            ≤ self.old.limit }
        ensures ok { OnOk result (AppendsAll self.old self.new
            (take count (records_at L.WORD bytes.now)) size) }
        ensures fails { IfErr result
            (FailsAppending self.old self.new (take count (records_at L.WORD bytes.now))) }
        ensures gone { self.new.roll.gone.count ≡ self.old.roll.gone.count }
        ensures tagged { tags ≡ true → vec_capacity self.old.roll.hashes ≡ 0
            → self.new.roll.tagged ≡ true }
        ensures follows { Follows self.old self.new }
    {
        self.roll.tag(tags);
        if count == 0 {
            return Ok(());
        }
        self.write_behind(&bytes[..size])?;
        self.enter_all(bytes, count)
    }

    /// Returns true if some records go, and beside them there is no room for all whole records of
    /// some bytes.
    fn crowds(&self, bytes: &[u8]) -> bool
        ensures beside { result ≡ false → (self.now.roll.gone.count ≡ 0) ⊎ (full_size self.now
            + sum_by (whole_size L.WORD) (records_at L.WORD bytes.now) ≤ self.now.limit) }
        ensures crowded { result ≡ true
            → (0 < self.now.roll.gone.count) × IsCrowded self.now (records_at L.WORD bytes.now) }
    {
        self.roll.gone.count > 0 && measure::<L>(bytes, self.limit - self.full_size()).passes
    }

    /// Appends the whole records of some bytes as `append` does: no record goes, or there is room
    /// for all beside those that go.
    fn append_beside(&mut self, bytes: &[u8]) -> Result<usize, MakeFault>
        requires whole { self.old.broken ≡ false }
        requires room { (self.old.roll.gone.count ≡ 0) ⊎ (full_size self.old
            + sum_by (whole_size L.WORD) (records_at L.WORD bytes.now) ≤ self.old.limit) }
        ensures ok { IfOk result (λ n.
            AppendsAll self.old self.new (whole_records L.WORD (length bytes.now) bytes.now) n) }
        ensures fails { IfErr result
            (FailsAppending self.old self.new (whole_records L.WORD (length bytes.now) bytes.now)) }
        ensures gone { self.new.roll.gone.count ≡ self.old.roll.gone.count }
        ensures tagged { BeginsTags self.old self.new }
        ensures follows { Follows self.old self.new }
    {
        let fitting = measure::<L>(bytes, self.limit - self.full_size());
        self.append_first(bytes, fitting.count, fitting.size, self.lazy)?;
        if fitting.passes {
            return Err(MakeFault::TooBig);
        }
        Ok(fitting.size)
    }

    /// Appends the whole records at the start of some bytes, as they are, and returns their length
    /// in bytes.
    ///
    /// They are written by one write, and no record is copied. The bytes after the last whole
    /// record are left out: pass them again, before those that follow them. Records that go are
    /// taken out first if the file has no room beside them. A lazy maker that has noted no record
    /// so far tags all that come, also if these bytes have none: so keys of one hash are found as
    /// fast as others.
    ///
    /// `TooBig`: with the next record the file would pass the limit. `NoMemory`: an allocation
    /// failed at the next record. Both leave the records before that one appended. `Writing`: the
    /// store failed; amid a pass that breaks the maker, else it holds the records that it held.
    /// `Broken`: an earlier call broke the maker, and it is what it was.
    pub fn append(&mut self, bytes: &[u8]) -> Result<usize, MakeFault>
        ensures ok { IfOk result (λ n.
            AppendsAll self.old self.new (whole_records L.WORD (length bytes.now) bytes.now) n) }
        ensures fails { IfErr result
            (FailsAppending self.old self.new (whole_records L.WORD (length bytes.now) bytes.now)) }
        ensures keeps { MakerKeepsAll self.old self.new }
        ensures tagged { self.old.broken ≡ false → BeginsTags self.old self.new }
        ensures follows { Follows self.old self.new }
    {
        if self.broken {
            return Err(MakeFault::Broken);
        }
        if !self.crowds(bytes) {
            return self.append_beside(bytes);
        }
        self.compact_all()?;
        self.append_beside(bytes)
    }

    /// Returns true if the file has room for some bytes, which are `count` whole records, beside
    /// all records.
    fn holds_beside(&self, bytes: &[u8], count: usize) -> bool
        requires whole { AreFirst L.WORD bytes.now count (length bytes.now) }
        ensures { result ≡ true → full_size self.now
            + sum_by (whole_size L.WORD) (take count (records_at L.WORD bytes.now))
            ≤ self.now.limit }
    {
        let slots = 2 * pair_size::<L>() as u64;
        let room = self.limit - self.full_size();
        count as u64 <= room / slots && bytes.len() as u64 <= room - slots * count as u64
    }

    /// Appends some bytes, which are `count` whole records, as `append` does, but begins no tags if
    /// the file has room beside the records that go.
    ///
    /// It fails as `append` does.
    pub fn append_whole(&mut self, bytes: &[u8], count: usize) -> Result<(), MakeFault>
        requires whole { AreFirst L.WORD bytes.now count (length bytes.now) }
        ensures ok { OnOk result
            (AppendsAll self.old self.new (records_at L.WORD bytes.now) (length bytes.now)) }
        ensures fails { IfErr result
            (FailsAppending self.old self.new (records_at L.WORD bytes.now)) }
        ensures keeps { MakerKeepsAll self.old self.new }
        ensures follows { Follows self.old self.new }
    {
        if self.broken || self.roll.gone.count > 0 || !self.holds_beside(bytes, count) {
            self.append(bytes)?;
            return Ok(());
        }
        self.append_first(bytes, count, bytes.len(), false)
    }
}
