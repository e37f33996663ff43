// The items of a text whose long values are left to be read in pieces.
ghost use Rattle.std.specs.Prelude.{◌≡◌, ◌≢◌, false, Some, ◌+◌, ◌^◌, ◌<◌, ◌≤◌, codes, length, take, OnOk, IfOk, IfErr, IfSome, MatchOption};
ghost use Rattle.cdb_form.specs.Format.{AreBytes};
ghost use Rattle.cdb_form.specs.Views.Feed.{Consumes};
ghost use Rattle.cdb_form.specs.Views.LongValue.{LeavesLonger, ReadsNext};
ghost use Rattle.cdb_form.specs.Views.NativeParser.{FailsBytes, FailsEntry, FailsIn, Leaves};
ghost use Rattle.cdb_form.specs.Views.Source.{budget};
ghost use Rattle.cdb_form.specs.declared.item.ItemKind.TheVariants.{Remove};
ghost use Rattle.cdb_form.specs.declared.text.fault.TextFault.TheVariants.{NoMemory};
ghost use Rattle.cdb_form.specs.declared.text.long_value.Next.TheVariants.{Item};

use crate::feeds::Feeds;
use crate::item::ItemKind;
use crate::reading::some_bytes;
use crate::record::Record;
use crate::text::fault::TextFault;
use crate::text::source::{PIECE, Source};

/// What comes next in a text, where a long value is left to be read in pieces.
#[derive(Clone, Copy, Debug, PartialEq, Eq)]
pub enum Next {
    /// An item of this kind was read over a record.
    Item(ItemKind),
    /// A record is put: its key was read, and its value of so many bytes follows.
    Value(u64),
}

impl<R: Feeds> Source<R> {
    /// Takes the next item, but leaves a value of more than `most` bytes: none is at the newline that
    /// ends the text. With no removals the text is a native one, and has puts alone.
    #[inline(never)]
    pub(crate) fn entry_up_to(
        &mut self,
        into: &mut Record,
        greatest: u64,
        removals: bool,
        most: u64,
    ) -> Result<Option<Next>, TextFault>
        requires least { 9 ≤ greatest }
        requires most { greatest < 2 ^ 63 }
        ensures read { IfOk result (λ found. MatchOption found
            (Consumes (R.feed self.old.reader) (R.feed self.new.reader) (codes "\n")
            × (self.new.taken ≡ self.old.taken + 1))
            (ReadsNext greatest (R.feed self.old.reader) (R.feed self.new.reader)
            self.old.taken self.new.taken into.new)) }
        ensures longer { IfOk result (λ found.
            IfSome found (LeavesLonger most into.old into.new)) }
        ensures puts { removals ≡ false → IfOk result (λ found. found ≢ Some (Item Remove)) }
        ensures fewer { OnOk result (self.new.asks < self.old.asks) }
        ensures fails { IfErr result (FailsIn R.feed self.old self.new
            (FailsEntry removals greatest self.old.taken)) }
        ensures leaves { IfErr result (Leaves R.feed self.old self.new) }
        ensures spends { OnOk result (budget self.old ≤ budget self.new) }
    {
        let Some(kind) = self.mark(removals)? else {
            return Ok(None);
        };
        match kind {
            ItemKind::Put => {
                let vlen = self.record_front(into, greatest)?;
                if most < vlen {
                    return Ok(Some(Next::Value(vlen)));
                }
                self.field(&mut into.value, vlen, b'\n')?;
            }
            ItemKind::Remove => self.marked_key(into, greatest)?,
        }
        Ok(Some(Next::Item(kind)))
    }

    /// Takes some of the next bytes: one at least, and as many at most as there is room for. Each
    /// 4096 of them count as a request.
    pub(crate) fn some_bytes(&mut self, into: &mut [u8]) -> Result<usize, TextFault>
        requires room { 0 < length into.old }
        ensures read { IfOk result (λ n. Consumes (R.feed self.old.reader)
            (R.feed self.new.reader) (take n into.new)) }
        ensures bound { IfOk result (λ n. (0 < n) × (n ≤ length into.new)) }
        ensures are { IfOk result (λ n. AreBytes (take n into.new)) }
        ensures counted { IfOk result (λ n. self.new.taken ≡ self.old.taken + n) }
        ensures fewer { OnOk result (self.new.asks < self.old.asks) }
        ensures fails { IfErr result (FailsIn R.feed self.old self.new
            (FailsBytes 1 self.old.taken)) }
        ensures later { self.old.taken ≤ self.new.taken }
        ensures leaves { IfErr result (Leaves R.feed self.old self.new) }
        ensures memory { IfErr result (λ fault. fault ≢ NoMemory) }
        ensures spends { OnOk result (budget self.old ≤ budget self.new) }
    {
        let most = (into.len() as u64).min(PIECE * self.asks.max(1)) as usize;
        match some_bytes(&mut self.reader, &mut self.asks, &mut into[..most]) {
            Ok(0) => Err(TextFault::Ended(self.taken)),
            Ok(n) => {
                self.taken += n as u64;
                self.asks = self.asks.saturating_sub(n as u64 / PIECE);
                Ok(n)
            }
            Err(unread) => Err(TextFault::of_reader(unread, self.taken)),
        }
    }
}
