// The items of an input, whatever its form, of any bytes that agree with what was taken of it.
ghost use Rattle.std.specs.Prelude.{◌≡◌, ◌≢◌, ℕ, List, ◌-◌, ◌<◌, ◌≤◌, ◌++◌, length, take, true, false, Some, None, OnOk, IfErr, IfOk, IfSome, MatchOption};
ghost use Rattle.cdb_form.specs.Format.{record_of};
ghost use Rattle.cdb_form.specs.Text.Parse.{Putting};
ghost use Rattle.cdb_form.specs.Views.Fill.{Fills};
ghost use Rattle.cdb_form.specs.declared.item.ItemKind.TheVariants.{Put};
ghost use Rattle.cdb_form.specs.declared.text.fault.TextFault.TheVariants.{NoMemory};
ghost use Rattle.cdb_form.specs.declared.text.long_value.Next.TheVariants.{Item};
ghost use Rattle.cdb_show.specs.Runs.Inputs.{input_form};
ghost use Rattle.cdb_show.specs.Views.ItemReader.{AmidValue, Fails, GivesEnd, GivesItem, GivesNext, GivesPuts, IsNew, LeavesLonger, form_of, reader_of};
ghost use Rattle.cdb_show.specs.declared.runs.item_reader.ItemReader.{ItemReader};

use cdb_command::Style;
use cdb_form::{
    AtHand, Feeds, Filled, FormReader, ItemKind, MapReader, Next, Record, TextFault, Width,
};
use std::alloc::Global;

/// Returns `Put` if a text that only puts records gave one more.
#[inline(always)]
fn put_if(given: bool) -> Option<Next>
    ensures put { given ≡ true → result ≡ Some (Item Put) }
    ensures none { given ≡ false → result ≡ None }
{
    if given {
        Some(Next::Item(ItemKind::Put))
    } else {
        None
    }
}

/// Reads what an input says, one item after the other.
///
/// Its contracts hold for any bytes that agree with what was taken of its reader.
#[derive(Drop)]
pub enum ItemReader<F, L> {
    /// A native text, which only puts records, or an amending one, which may also remove keys.
    Form {
        /// Reads the text.
        reader: FormReader<F, L>,
        /// True if it may remove keys.
        removals: bool,
    },
    /// A map text, which only puts records.
    Map(MapReader<F>),
}

impl<F: Feeds, L: Width> ItemReader<F, L> {
    /// A reader of the input that `reader` gives, which may get 2^48 requests. If a base is
    /// amended, a native text may also remove keys.
    pub fn new(alloc: Global, style: Style, amends: bool, reader: F) -> ItemReader<F, L>
        ensures form { form_of result ≡ input_form style amends }
        ensures reader { reader_of result ≡ reader }
        ensures fresh { IsNew result }
    {
        match style {
            Style::Map => ItemReader::Map(MapReader::with_bound(alloc, reader, 1 << 48)),
            Style::Native => ItemReader::Form {
                reader: FormReader::new(reader, 1 << 48),
                removals: amends,
            },
        }
    }

    /// Puts the records at hand behind the first `held` bytes of a buffer, as a file has them, as
    /// long as there is room, and takes them. A removal ends it, and it may end early: go on with
    /// `read_up_to`.
    #[inline(always)]
    pub fn fill<A: AtHand<F>>(&mut self, into: &mut [u8], held: usize) -> Filled
        requires { held ≤ length into.old }
        ensures { Fills (GivesPuts L.GREATEST F.feed self.old self.new)
            L.WORD L.TOP into.old into.new held result }
    {
        match self {
            ItemReader::Form { reader, .. } => reader.fill::<A>(into, held),
            ItemReader::Map(text) => text.fill::<L, A>(into, held),
        }
    }

    /// Reads the next item over a record, whose memory it takes, and returns the item's kind, or
    /// `None` at the end of the text. Bytes at hand of a map text are taken without a request to
    /// the reader.
    ///
    /// A value of more than `most` bytes is left unread, unless it is a map text's. Then the record
    /// has the key, and the value that it had: `read_value` and `end_value` go on.
    ///
    /// It fails as the reader of the form does. After a fault every later call answers the same
    /// fault.
    #[inline(always)]
    pub fn read_up_to<A: AtHand<F>>(
        &mut self,
        into: &mut Record,
        most: u64,
    ) -> Result<Option<Next>, TextFault>
        ensures gives { IfOk result (λ found. MatchOption found
            (GivesEnd F.feed self.old self.new)
            (GivesNext L.GREATEST F.feed self.old self.new into.new)) }
        ensures longer { IfOk result (λ found.
            IfSome found (LeavesLonger self.old most into.old into.new)) }
        ensures fails { IfErr result (Fails L.GREATEST F.feed self.old self.new) }
    {
        match self {
            ItemReader::Form { reader, removals } => reader.read_up_to(into, *removals, most),
            ItemReader::Map(text) => Ok(put_if(text.read_buffered::<A>(into)?)),
        }
    }

    /// Reads the next bytes of a value that `read_up_to` left, of which `left` are still to come,
    /// and returns how many stand at the start of `into` now: at least one, and no more than
    /// `left` and than there is room for. What is behind them in `into` means nothing.
    ///
    /// It takes no memory. As `read_up_to` does, it fails with `Ended` if the input ends, `Input` if
    /// the reader fails, and `Endless` if no request is left, and then every later item is that
    /// fault.
    pub fn read_value(&mut self, into: &mut [u8], left: u64) -> Result<usize, TextFault>
        requires some { 0 < left }
        requires room { 0 < length into.old }
        requires amid { (first : ItemReader F L) × (key : List ℕ) × (vlen : ℕ) × (got : List ℕ)
            × AmidValue L.GREATEST F.feed first self.old key vlen got
            × (left ≡ vlen - length got) }
        ensures bound { IfOk result (λ n. (0 < n) × (n ≤ left) × (n ≤ length into.new)) }
        ensures reads { (first : ItemReader F L) (key : List ℕ) (vlen : ℕ) (got : List ℕ)
            → AmidValue L.GREATEST F.feed first self.old key vlen got
            → left ≡ vlen - length got → IfOk result (λ n.
            AmidValue L.GREATEST F.feed first self.new key vlen (got ++ take n into.new)) }
        ensures fails { (first : ItemReader F L) (key : List ℕ) (vlen : ℕ) (got : List ℕ)
            → AmidValue L.GREATEST F.feed first self.old key vlen got
            → IfErr result (Fails L.GREATEST F.feed first self.new) }
        ensures memory { IfErr result (λ fault. fault ≢ NoMemory) }
    {
        match self {
            ItemReader::Form { reader, .. } => reader.read_value(into, left),
            ItemReader::Map(_) => unreachable!(),
        }
    }

    /// Takes the newline after a value that `read_value` has read whole.
    ///
    /// It takes no memory. It fails as `read_value` does, and with `Syntax` if another byte is
    /// there.
    pub fn end_value(&mut self) -> Result<(), TextFault>
        requires whole { (first : ItemReader F L) × (key : List ℕ) × (vlen : ℕ) × (got : List ℕ)
            × AmidValue L.GREATEST F.feed first self.old key vlen got × (length got ≡ vlen) }
        ensures gives { (first : ItemReader F L) (key : List ℕ) (vlen : ℕ) (got : List ℕ)
            → AmidValue L.GREATEST F.feed first self.old key vlen got → length got ≡ vlen
            → OnOk result (GivesItem L.GREATEST F.feed first self.new
            (Putting (record_of key got))) }
        ensures fails { (first : ItemReader F L) (key : List ℕ) (vlen : ℕ) (got : List ℕ)
            → AmidValue L.GREATEST F.feed first self.old key vlen got → length got ≡ vlen
            → IfErr result (Fails L.GREATEST F.feed first self.new) }
        ensures memory { IfErr result (λ fault. fault ≢ NoMemory) }
    {
        match self {
            ItemReader::Form { reader, .. } => reader.end_value(),
            ItemReader::Map(_) => unreachable!(),
        }
    }

    /// Returns the reader, which goes on after the bytes that were taken.
    pub fn into_reader(self) -> F
        ensures { result ≡ reader_of self }
    {
        match self {
            ItemReader::Form { reader, .. } => reader.into_reader(),
            ItemReader::Map(text) => text.into_reader(),
        }
    }
}
