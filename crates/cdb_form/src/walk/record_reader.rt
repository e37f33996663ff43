// Records out of a database file that is read in one pass.
ghost use Rattle.std.specs.Prelude.{◌≡◌, ℕ, ◌+◌, ◌-◌, ◌^◌, ◌<◌, List, max, false, drop, OnErr, IfOk, IfErr, IfSome, MatchOption, MatchBool};
ghost use Rattle.std.specs.Bool.{OnTrue, OnFalse};
ghost use Rattle.cdb_form.specs.Views.KnownBytes.{StillFrom, IsKept};
ghost use Rattle.cdb_form.specs.Format.{head_size, pair_size, KeyValue, walk_of, walk_from, record_end, no_walk, with_first};
ghost use Rattle.cdb_form.specs.declared.walk.keeping.Keeping.TheVariants.{Key};
ghost use Rattle.cdb_form.specs.Views.WalkFault.{IsDamage, stopped_by};
ghost use Rattle.cdb_form.specs.Views.Pairs.{key_value};
ghost use Rattle.cdb_form.specs.Views.Prefix.{shown_by};
ghost use Rattle.cdb_form.specs.Views.Feed.{Repeats};

use crate::feeds::Feeds;
use crate::record::{PeekedRecord, Record};
use crate::text::at_hand::{AtHand, window_within};
use crate::walk::fault::WalkFault;
use crate::walk::keeping::Keeping;
use crate::walk::next_record::read_record;
use crate::walk::prefix::stored_record;
use crate::walk::record_area::{RecordArea, read_area};
use crate::width::Width;
use std::alloc::Global;
use std::marker::PhantomData;

/// The next step of a reader of records.
#[derive(Clone, Copy)]
pub(crate) enum Progress {
    AtHead,
    At(RecordArea),
    AtEnd,
    Failed(WalkFault),
}

/// Reads the records of a database file, one after the other, in one pass.
///
/// It requests no byte past those that the answer needs. Bytes after the record end stay unread.
#[derive(Drop)]
pub struct RecordReader<R, L> {
    alloc: Global,
    reader: R,
    walking: Progress,
    width: PhantomData<L>,
}

impl<R: Feeds, L: Width> RecordReader<R, L> {
    ghost use Rattle.cdb_form.specs.Views.RecordReader.{Between, Fails, GivesEnd, GivesKept, GivesKey, GivesRecord, HasEnded, HasFailed, HasPeeked, IsFresh, IsGoing, behind_end, behind_records, bytes_left, reader_of, walk_left};
    ghost use Rattle.cdb_form.specs.Views.Taking.{IsUnread, ReadsFirst, ReadsNoFurther, ReadsNoRecord};

    /// A reader of the records of the file that `reader` gives. Nothing is read yet.
    pub fn new(alloc: Global, reader: R) -> RecordReader<R, L>
        ensures reader { reader_of result ≡ reader }
        ensures fresh { IsFresh result }
    {
        RecordReader {
            alloc,
            reader,
            walking: Progress::AtHead,
            width: PhantomData,
        }
    }

    /// Returns the reader, which goes on after the bytes that were read.
    pub fn into_reader(self) -> R
        ensures { result ≡ reader_of self }
    {
        self.reader
    }

    /// Returns the next record, or `None` at the record end.
    ///
    /// After the end it returns `Ok(None)` for good, and after a fault that fault. `Short`, `Table`
    /// and `Record` are the damage of the file, after all whole records before it; `Input` comes if
    /// the reader failed, or was interrupted more than 1000 times in a row; `NoMemory` if an
    /// allocation failed.
    pub fn next(&mut self) -> Result<Option<Record>, WalkFault>
        ensures gives { IfOk result (λ found. MatchOption found
            (GivesEnd L.WORD R.feed self.old self.new)
            (λ r. GivesRecord L.WORD R.feed self.old self.new (key_value r))) }
        ensures fails { IfErr result (Fails L.WORD R.feed self.old self.new) }
        ensures ended { HasEnded self.old → Repeats (Ok None) self.old self.new result }
        ensures failed { (fault : _) → HasFailed self.old fault
            → Repeats (Err fault) self.old self.new result }
    {
        let mut record = Record::empty(self.alloc);
        Ok(self.read_into(&mut record)?.then_some(record))
    }

    /// Reads the next record over another one, whose memory it takes, and returns true if there is
    /// one. It answers as `next` does, with `false` for `None`; after `false` and after a fault the
    /// record holds anything.
    pub fn read_into(&mut self, into: &mut Record) -> Result<bool, WalkFault>
        ensures gives { IfOk result (λ given. MatchBool given
            (GivesRecord L.WORD R.feed self.old self.new (key_value into.new))
            (GivesEnd L.WORD R.feed self.old self.new)) }
        ensures fails { IfErr result (Fails L.WORD R.feed self.old self.new) }
        ensures ended { HasEnded self.old → Repeats (Ok false) self.old self.new result }
        ensures failed { (fault : _) → HasFailed self.old fault
            → Repeats (Err fault) self.old self.new result }
    {
        self.read_kept(into, Keeping::Both)
    }

    /// Reads the key of the next record over another record. It passes over the value, which takes
    /// no memory, and leaves the one that the other record has. It answers as `read_into` does.
    pub fn read_key(&mut self, into: &mut Record) -> Result<bool, WalkFault>
        ensures gives { IfOk result (λ given. MatchBool given
            (GivesKey L.WORD R.feed self.old self.new into.new.key.items)
            (GivesEnd L.WORD R.feed self.old self.new)) }
        ensures value { into.new.value ≡ into.old.value }
        ensures fails { IfErr result (Fails L.WORD R.feed self.old self.new) }
        ensures ended { HasEnded self.old → Repeats (Ok false) self.old self.new result }
        ensures failed { (fault : _) → HasFailed self.old fault
            → Repeats (Err fault) self.old self.new result }
    {
        self.read_kept(into, Keeping::Key)
    }

    /// Returns the next record, where it lies, if it is whole at hand and ends before the record
    /// end or at it. It takes nothing: `take_peeked` does that. Before the head was read no record
    /// is shown.
    #[inline(always)]
    pub fn peek<A: AtHand<R>>(&self) -> Option<PeekedRecord<'_>>
        ensures { IfSome result (λ f. HasPeeked L.WORD A.held self.now f.len (shown_by f)) }
    {
        match self.walking {
            Progress::At(area) => {
                let window = window_within::<R, A>(&self.reader, area.end - area.place);
                stored_record::<L>(window)
            }
            Progress::AtHead | Progress::AtEnd | Progress::Failed(_) => None,
        }
    }

    /// Takes the record that `peek` shows, whose `len` this is.
    #[inline(always)]
    pub fn take_peeked<A: AtHand<R>>(&mut self, len: usize)
        requires { (r : KeyValue) × HasPeeked L.WORD A.held self.old len r }
        ensures { (r : KeyValue) → HasPeeked L.WORD A.held self.old len r
            → GivesRecord L.WORD R.feed self.old self.new r }
    {
        if let Progress::At(area) = self.walking {
            A::take(&mut self.reader, len);
            self.walking = Progress::At(RecordArea {
                place: area.place + len as u64,
                end: area.end,
            });
        }
    }

    /// Reads the next record, keeps the parts that `keeping` names, and notes what to do next.
    #[inline(always)]
    fn read_kept(&mut self, into: &mut Record, keeping: Keeping) -> Result<bool, WalkFault>
        ensures gives { IfOk result (λ given. MatchBool given
            (GivesKept L.WORD R.feed self.old self.new keeping into.new)
            (GivesEnd L.WORD R.feed self.old self.new)) }
        ensures value { keeping ≡ Key → into.new.value ≡ into.old.value }
        ensures fails { IfErr result (Fails L.WORD R.feed self.old self.new) }
        ensures ended { HasEnded self.old → Repeats (Ok false) self.old self.new result }
        ensures failed { (fault : _) → HasFailed self.old fault
            → Repeats (Err fault) self.old self.new result }
    {
        let answer = match self.walking {
            Progress::AtHead => self.first(into, keeping),
            Progress::At(area) => self.record_at(into, area, keeping),
            Progress::AtEnd => return Ok(false),
            Progress::Failed(fault) => return Err(fault),
        };
        match answer {
            Ok(true) => {}
            Ok(false) => self.walking = Progress::AtEnd,
            Err(fault) => self.walking = Progress::Failed(fault),
        }
        answer
    }

    /// Reads the head, and then the first record.
    #[inline(never)]
    fn first(&mut self, into: &mut Record, keeping: Keeping) -> Result<bool, WalkFault>
        ensures record { IfOk result (λ given. OnTrue given
            ((r : KeyValue) × IsKept keeping into.new r
            × Between R.feed self.old self.new (λ text rest.
            (walk_of L.WORD text ≡ with_first r (walk_left L.WORD self.new rest))
            × (behind_end L.WORD self.new rest ≡ behind_records L.WORD text))
            × ReadsFirst r (walk_of L.WORD) (walk_left L.WORD self.new)
            (R.feed self.old.reader) (R.feed self.new.reader))) }
        ensures value { keeping ≡ Key → into.new.value ≡ into.old.value }
        ensures fewer { IfOk result (λ given.
            OnTrue given (IsGoing self.new × (bytes_left self.new < 2 ^ 64))) }
        ensures end { IfOk result (λ given.
            OnFalse given (Between R.feed self.old self.new (λ text rest.
            (walk_of L.WORD text ≡ no_walk) × (rest ≡ behind_records L.WORD text)))) }
        ensures fails { IfErr result (λ f. Between R.feed self.old self.new (λ text rest.
            (IsDamage f → walk_of L.WORD text ≡ stopped_by f)
            × StillFrom (max (head_size L.WORD) (record_end L.WORD text)) text rest)) }
        ensures header { IfErr result (λ f.
            IsDamage f →
            ReadsNoFurther (head_size L.WORD + pair_size L.WORD)
            (R.feed self.old.reader) (R.feed self.new.reader)) }
        ensures unread { IfErr result (IsUnread (R.feed self.new.reader)) }
        ensures part { OnErr result (ReadsNoRecord (walk_of L.WORD)
            (R.feed self.old.reader) (R.feed self.new.reader)) }
    {
        let area = read_area::<R, L>(&mut self.reader)?;
        self.record_at(into, area, keeping)
    }

    /// Reads the record at the next place, unless that is the record end.
    #[inline(always)]
    fn record_at(
        &mut self,
        into: &mut Record,
        area: RecordArea,
        keeping: Keeping,
    ) -> Result<bool, WalkFault>
        ensures record { IfOk result (λ given. OnTrue given
            ((r : KeyValue) × IsKept keeping into.new r
            × Between R.feed self.old self.new (λ text rest.
            (walk_from L.WORD area.place area.end text
            ≡ with_first r (walk_left L.WORD self.new rest))
            × (behind_end L.WORD self.new rest ≡ drop (area.end - area.place) text))
            × ReadsFirst r (walk_from L.WORD area.place area.end) (walk_left L.WORD self.new)
            (R.feed self.old.reader) (R.feed self.new.reader))) }
        ensures value { keeping ≡ Key → into.new.value ≡ into.old.value }
        ensures fewer { IfOk result (λ given.
            OnTrue given (IsGoing self.new × (bytes_left self.new < area.end - area.place))) }
        ensures end { IfOk result (λ given.
            OnFalse given (((text : List ℕ) → walk_from L.WORD area.place area.end text ≡ no_walk)
            × (area.place ≡ area.end) × (self.new ≡ self.old))) }
        ensures fails { IfErr result (λ f. Between R.feed self.old self.new (λ text rest.
            (IsDamage f → walk_from L.WORD area.place area.end text ≡ stopped_by f)
            × StillFrom (area.end - area.place) text rest)) }
        ensures header { IfErr result (λ f.
            IsDamage f →
            ReadsNoFurther (pair_size L.WORD)
            (R.feed self.old.reader) (R.feed self.new.reader)) }
        ensures unread { IfErr result (IsUnread (R.feed self.new.reader)) }
        ensures part { OnErr result (ReadsNoRecord (walk_from L.WORD area.place area.end)
            (R.feed self.old.reader) (R.feed self.new.reader)) }
    {
        if area.place == area.end {
            return Ok(false);
        }
        let behind = read_record::<R, L>(&mut self.reader, into, area, keeping)?;
        self.walking = Progress::At(behind);
        Ok(true)
    }
}
