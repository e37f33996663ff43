// Items out of a text of either form: what `TextReader` and `AmendReader` are made of.
ghost use Rattle.std.specs.Prelude.{◌≡◌, ◌≢◌, ℕ, List, ◌+◌, ◌-◌, ◌<◌, ◌≤◌, ◌^◌, ◌++◌, length, take, false, Some, OnOk, IfOk, IfErr, IfSome, MatchOption};
ghost use Rattle.cdb_form.specs.Format.{record_of};
ghost use Rattle.cdb_form.specs.Text.Native.{Spells};
ghost use Rattle.cdb_form.specs.Text.Parse.{Putting, SpellsChange};
ghost use Rattle.cdb_form.specs.Views.Fill.{Fills};
ghost use Rattle.cdb_form.specs.Views.LongValue.{AmidValue, GivesNext, LeavesLonger};
ghost use Rattle.cdb_form.specs.Views.Pairs.{change_in};
ghost use Rattle.cdb_form.specs.declared.item.ItemKind.TheVariants.{Remove};
ghost use Rattle.cdb_form.specs.declared.text.fault.TextFault.TheVariants.{NoMemory};
ghost use Rattle.cdb_form.specs.declared.text.form_reader.FormReader.{FormReader};
ghost use Rattle.cdb_form.specs.declared.text.long_value.Next.TheVariants.{Item};
ghost use Rattle.cdb_form.specs.Views.Feed.{Repeats};

use crate::feeds::Feeds;
use crate::item::ItemKind;
use crate::record::Record;
use crate::text::at_hand::AtHand;
use crate::text::fault::TextFault;
use crate::text::fill::{Filled, fill};
use crate::text::going::Going;
use crate::text::long_value::Next;
use crate::text::source::Source;
use crate::width::Width;
use std::marker::PhantomData;

/// Reads the items of an amending text, or of a native one, which has puts alone.
#[derive(Drop)]
pub struct FormReader<R, L> {
    source: Source<R>,
    going: Going,
    width: PhantomData<L>,
}

impl<R: Feeds, L: Width> FormReader<R, L> {
    ghost use Rattle.cdb_form.specs.Views.FormReader.{FailsAs, GivesEnd, GivesItem, GivesItems, HasEnded, HasFailed, IsGoing, asks_left, reader_of, taken_of};

    /// A reader of the text that `reader` gives. It may request bytes `asks` times.
    pub fn new(reader: R, asks: u64) -> FormReader<R, L>
        requires { asks ≤ 2 ^ 48 }
        ensures reader { reader_of result ≡ reader }
        ensures taken { taken_of result ≡ 0 }
        ensures asks { asks_left result ≡ asks }
        ensures going { IsGoing result }
    {
        FormReader {
            source: Source::new(reader, asks),
            going: Going::On,
            width: PhantomData,
        }
    }

    /// Returns the reader, which goes on after the bytes that were read.
    pub fn into_reader(self) -> R
        ensures { result ≡ reader_of self }
    {
        self.source.reader
    }

    /// Puts the records at hand behind the first `held` bytes of a buffer, as long as there is room,
    /// and takes them. Each of their bytes counts as a request.
    #[inline(always)]
    pub fn fill<A: AtHand<R>>(&mut self, into: &mut [u8], held: usize) -> Filled
        requires { held ≤ length into.old }
        ensures fills { Fills (GivesItems Spells L.GREATEST R.feed self.old self.new)
            L.WORD L.TOP into.old into.new held result }
        ensures taken { taken_of self.new ≡ taken_of self.old + result.taken }
        ensures stopped { (IsGoing self.old → ⊥)
            → (self.new ≡ self.old) × (into.new ≡ into.old) × (result.count ≡ 0) }
    {
        match self.going {
            Going::On => {
                let filled = fill::<L>(self.source.at_hand::<A>(), into, held);
                self.source.take_at_hand::<A>(filled.taken);
                filled
            }
            Going::AtEnd | Going::Failed(_) => Filled::none(held),
        }
    }

    /// Reads the next item over a record, and returns its kind: none is at the newline that ends
    /// the text. With no removals the text is a native one.
    #[inline(always)]
    pub fn read_into(
        &mut self,
        into: &mut Record,
        removals: bool,
    ) -> Result<Option<ItemKind>, TextFault>
        ensures gives { IfOk result (λ found. MatchOption found
            (GivesEnd R.feed self.old self.new)
            (λ kind. GivesItem SpellsChange L.GREATEST R.feed self.old self.new
            (change_in kind into.new))) }
        ensures puts { removals ≡ false → IfOk result (λ found. found ≢ Some Remove) }
        ensures fails { IfErr result
            (FailsAs removals L.GREATEST R.feed self.old self.new) }
        ensures ended { HasEnded self.old → Repeats (Ok None) self.old self.new result }
        ensures failed { (fault : _) → HasFailed self.old fault
            → Repeats (Err fault) self.old self.new result }
    {
        match self.read_up_to(into, removals, u64::MAX)? {
            Some(Next::Item(kind)) => Ok(Some(kind)),
            // No value is longer.
            Some(Next::Value(_)) => unreachable!(),
            None => Ok(None),
        }
    }

    /// Does what `read_into` does, but leaves a value of more than `most` bytes unread. Then the
    /// record has the key, and the value that it had: `read_value` and `end_value` go on.
    #[inline(always)]
    pub fn read_up_to(
        &mut self,
        into: &mut Record,
        removals: bool,
        most: u64,
    ) -> Result<Option<Next>, TextFault>
        ensures gives { IfOk result (λ found. MatchOption found
            (GivesEnd R.feed self.old self.new)
            (GivesNext L.GREATEST R.feed self.old self.new into.new)) }
        ensures longer { IfOk result (λ found.
            IfSome found (LeavesLonger most into.old into.new)) }
        ensures puts { removals ≡ false → IfOk result (λ found. found ≢ Some (Item Remove)) }
        ensures fails { IfErr result
            (FailsAs removals L.GREATEST R.feed self.old self.new) }
        ensures ended { HasEnded self.old → Repeats (Ok None) self.old self.new result }
        ensures failed { (fault : _) → HasFailed self.old fault
            → Repeats (Err fault) self.old self.new result }
    {
        if !self.going.reads_on()? {
            return Ok(None);
        }
        let answer = self.source.entry_up_to(into, L::GREATEST, removals, most);
        match answer {
            Ok(Some(_)) => {}
            Ok(None) => self.going = Going::AtEnd,
            Err(fault) => self.going = Going::Failed(fault),
        }
        answer
    }

    /// Reads the next bytes of a value that `read_up_to` left, of which `left` are still to come,
    /// and returns how many stand at the start of `into` now: at least one, and no more than
    /// `left` and than there is room for. What is behind them in `into` means nothing.
    ///
    /// It takes no memory. As `read_into` does, it fails with `Ended` if the input ends, `Input` if
    /// the reader fails, and `Endless` if no request is left, and then every later item is that
    /// fault.
    pub fn read_value(&mut self, into: &mut [u8], left: u64) -> Result<usize, TextFault>
        requires some { 0 < left }
        requires room { 0 < length into.old }
        requires amid { (first : FormReader R L) × (key : List ℕ) × (vlen : ℕ) × (got : List ℕ)
            × AmidValue L.GREATEST R.feed first self.old key vlen got
            × (left ≡ vlen - length got) }
        ensures bound { IfOk result (λ n. (0 < n) × (n ≤ left) × (n ≤ length into.new)) }
        ensures reads { (first : FormReader R L) (key : List ℕ) (vlen : ℕ) (got : List ℕ)
            → AmidValue L.GREATEST R.feed first self.old key vlen got
            → left ≡ vlen - length got → IfOk result (λ n.
            AmidValue L.GREATEST R.feed first self.new key vlen (got ++ take n into.new)) }
        ensures fails { (first : FormReader R L) (key : List ℕ) (vlen : ℕ) (got : List ℕ)
            (removals : _) → AmidValue L.GREATEST R.feed first self.old key vlen got
            → IfErr result (FailsAs removals L.GREATEST R.feed first self.new) }
        ensures memory { IfErr result (λ fault. fault ≢ NoMemory) }
    {
        let most = left.min(into.len() as u64) as usize;
        match self.source.some_bytes(&mut into[..most]) {
            Ok(n) => Ok(n),
            Err(fault) => {
                self.going = Going::Failed(fault);
                Err(fault)
            }
        }
    }

    /// Takes the newline after a value that `read_value` has read whole.
    ///
    /// It takes no memory. It fails as `read_value` does, and with `Syntax` if another byte is
    /// there.
    pub fn end_value(&mut self) -> Result<(), TextFault>
        requires whole { (first : FormReader R L) × (key : List ℕ) × (vlen : ℕ) × (got : List ℕ)
            × AmidValue L.GREATEST R.feed first self.old key vlen got × (length got ≡ vlen) }
        ensures gives { (first : FormReader R L) (key : List ℕ) (vlen : ℕ) (got : List ℕ)
            → AmidValue L.GREATEST R.feed first self.old key vlen got → length got ≡ vlen
            → OnOk result (GivesItem SpellsChange L.GREATEST R.feed first self.new
            (Putting (record_of key got))) }
        ensures gives_native { (first : FormReader R L) (key : List ℕ) (vlen : ℕ) (got : List ℕ)
            → AmidValue L.GREATEST R.feed first self.old key vlen got → length got ≡ vlen
            → OnOk result (GivesItem Spells L.GREATEST R.feed first self.new (record_of key got)) }
        ensures fails { (first : FormReader R L) (key : List ℕ) (vlen : ℕ) (got : List ℕ)
            (removals : _) → AmidValue L.GREATEST R.feed first self.old key vlen got
            → length got ≡ vlen
            → IfErr result (FailsAs removals L.GREATEST R.feed first self.new) }
        ensures memory { IfErr result (λ fault. fault ≢ NoMemory) }
    {
        match self.source.expect_byte(b'\n') {
            Ok(()) => Ok(()),
            Err(fault) => {
                self.going = Going::Failed(fault);
                Err(fault)
            }
        }
    }
}
