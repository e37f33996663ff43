// The parser of a native text, of an amending one, and of a list: a machine that takes byte after
// byte.
ghost use Rattle.std.specs.Prelude.{◌≡◌, ◌≢◌, true, false, Some, ℕ, List, ◌+◌, ◌*◌, ◌^◌, ◌<◌, ◌≤◌, [], ◌∷◌, ◌++◌, codes, length, OnOk, IfOk, IfErr, MatchBool, SomeIff};
ghost use Rattle.cdb_form.specs.Views.Feed.{Consumes};
ghost use Rattle.cdb_form.specs.Format.{AreBytes};
ghost use Rattle.cdb_form.specs.Text.Parse.{SpellsChange, SpellsRemoval, SpellsKey};
ghost use Rattle.cdb_form.specs.Text.Native.{IsNumeral};
ghost use Rattle.cdb_form.specs.Views.FormReader.{ReadsItem};
ghost use Rattle.cdb_form.specs.Views.LongValue.{SpellsFront, value_ahead};
ghost use Rattle.cdb_form.specs.Views.NativeParser.{FailsNumber, FailsByte, FailsField, FailsEntry, FailsItem, FailsIn, Leaves, ReadsBehind, mark_of};
ghost use Rattle.cdb_form.specs.Views.Source.{budget};
ghost use Rattle.cdb_form.specs.declared.item.ItemKind.TheVariants.{Remove};
ghost use Rattle.cdb_form.specs.declared.text.fault.TextFault.TheVariants.{NoMemory};

use crate::feeds::Feeds;
use crate::item::ItemKind;
use crate::record::Record;
use crate::text::fault::TextFault;
use crate::text::source::Source;

/// The number with one more digit, if it isn't above `greatest`.
#[inline(always)]
fn with_digit(value: u64, digit: u32, greatest: u64) -> Option<u64>
    requires digit { digit < 10 }
    ensures { SomeIff result (value * 10 + digit ≤ greatest) (value * 10 + digit) }
{
    let longer = value.checked_mul(10)?.checked_add(u64::from(digit))?;
    if longer <= greatest {
        Some(longer)
    } else {
        None
    }
}

impl<R: Feeds> Source<R> {
    /// A numeral of at most `greatest` with `stop` after it.
    #[inline(always)]
    fn number(&mut self, greatest: u64, stop: u8) -> Result<u64, TextFault>
        requires { 9 ≤ greatest }
        ensures read { IfOk result (λ n. (digits : List ℕ) × IsNumeral digits n
            × Consumes (R.feed self.old.reader)
            (R.feed self.new.reader) (digits ++ stop ∷ [])
            × (self.new.taken ≡ self.old.taken + (length digits + 1))) }
        ensures fits { IfOk result (λ n. n ≤ greatest) }
        ensures fewer { OnOk result (self.new.asks < self.old.asks) }
        ensures fails { IfErr result (FailsIn R.feed self.old self.new
            (FailsNumber greatest stop self.old.taken)) }
        ensures later { self.old.taken ≤ self.new.taken }
        ensures leaves { IfErr result (Leaves R.feed self.old self.new) }
        ensures spends { OnOk result (budget self.old ≤ budget self.new) }
    {
        let start = self.taken;
        let mut value = 0;
        loop {
            let at = self.taken;
            let Some(byte) = self.byte()? else {
                return Err(TextFault::Ended(at));
            };
            match char::from(byte).to_digit(10) {
                Some(digit) => match with_digit(value, digit, greatest) {
                    Some(longer) => value = longer,
                    None => return Err(TextFault::Large(at)),
                },
                None => {
                    return if byte == stop && start < at {
                        Ok(value)
                    } else {
                        Err(TextFault::Syntax(at))
                    };
                }
            }
        }
    }

    /// The next byte, which is to be this one.
    pub(crate) fn expect_byte(&mut self, byte: u8) -> Result<(), TextFault>
        ensures read { OnOk result (Consumes (R.feed self.old.reader)
            (R.feed self.new.reader) (byte ∷ [])) }
        ensures counted { OnOk result (self.new.taken ≡ self.old.taken + 1) }
        ensures fewer { OnOk result (self.new.asks < self.old.asks) }
        ensures fails { IfErr result (FailsIn R.feed self.old self.new
            (FailsByte byte self.old.taken)) }
        ensures later { self.old.taken ≤ self.new.taken }
        ensures leaves { IfErr result (Leaves R.feed self.old self.new) }
        ensures spends { OnOk result (budget self.old ≤ budget self.new) }
        ensures memory { IfErr result (λ fault. fault ≢ NoMemory) }
    {
        let at = self.taken;
        match self.byte()? {
            None => Err(TextFault::Ended(at)),
            Some(found) if found == byte => Ok(()),
            Some(_) => Err(TextFault::Syntax(at)),
        }
    }

    /// Takes the next `len` bytes, and `stop` after them: the text goes on with `len + 1` bytes of
    /// any kind or ends early, so they are requested together.
    #[inline(always)]
    pub(crate) fn field(&mut self, into: &mut Vec<u8>, len: u64, stop: u8) -> Result<(), TextFault>
        requires { len < 2 ^ 63 }
        ensures read { OnOk result (Consumes (R.feed self.old.reader)
            (R.feed self.new.reader) (into.new.items ++ stop ∷ [])) }
        ensures are { AreBytes into.new.items }
        ensures long { OnOk result (length into.new.items ≡ len) }
        ensures counted { OnOk result (self.new.taken ≡ self.old.taken + (len + 1)) }
        ensures fewer { OnOk result (self.new.asks ≤ self.old.asks) }
        ensures fails { IfErr result (FailsIn R.feed self.old self.new
            (FailsField len stop self.old.taken)) }
        ensures later { self.old.taken ≤ self.new.taken }
        ensures leaves { IfErr result (Leaves R.feed self.old self.new) }
        ensures spends { OnOk result (budget self.old ≤ budget self.new) }
    {
        let at = self.taken;
        self.bytes(into, len + 1)?;
        match into.pop() {
            Some(last) if last == stop => Ok(()),
            _ => Err(TextFault::Syntax(at + len)),
        }
    }

    /// Takes the record after a plus up to its value, with the key, and returns the value's length.
    #[inline(always)]
    pub(crate) fn record_front(
        &mut self,
        into: &mut Record,
        greatest: u64,
    ) -> Result<u64, TextFault>
        requires least { 9 ≤ greatest }
        requires most { greatest < 2 ^ 63 }
        ensures read { IfOk result (λ vlen. ReadsBehind SpellsFront (codes "+") greatest
            (R.feed self.old.reader) (R.feed self.new.reader)
            self.old.taken self.new.taken (value_ahead into.new.key.items vlen)) }
        ensures fits { IfOk result (λ vlen. vlen ≤ greatest) }
        ensures value { into.new.value ≡ into.old.value }
        ensures fewer { OnOk result (self.new.asks < self.old.asks) }
        ensures fails { (from : ℕ) (removals : _) → self.old.taken ≡ from + 1 →
            IfErr result (FailsIn R.feed self.old self.new (λ text.
            FailsEntry removals greatest from (codes "+" ++ text))) }
        ensures later { self.old.taken ≤ self.new.taken }
        ensures leaves { IfErr result (Leaves R.feed self.old self.new) }
        ensures spends { OnOk result (budget self.old ≤ budget self.new) }
    {
        let klen = self.number(greatest, b',')?;
        let vlen = self.number(greatest, b':')?;
        self.field(&mut into.key, klen, b'-')?;
        self.expect_byte(b'>')?;
        Ok(vlen)
    }

    /// Takes the key after a mark, with its length before it and a newline after it. The mark is a
    /// minus before a removal's key, and a plus before a list text's.
    pub(crate) fn marked_key(&mut self, into: &mut Record, greatest: u64) -> Result<(), TextFault>
        requires least { 9 ≤ greatest }
        requires most { greatest < 2 ^ 63 }
        ensures removes { OnOk result (ReadsBehind SpellsRemoval (codes "-") greatest
            (R.feed self.old.reader) (R.feed self.new.reader)
            self.old.taken self.new.taken into.new.key.items) }
        ensures lists { OnOk result (ReadsBehind SpellsKey (codes "+") greatest
            (R.feed self.old.reader) (R.feed self.new.reader)
            self.old.taken self.new.taken into.new.key.items) }
        ensures fewer { OnOk result (self.new.asks < self.old.asks) }
        ensures fails_removing { (from : ℕ) → self.old.taken ≡ from + 1 →
            IfErr result (FailsIn R.feed self.old self.new (λ text.
            FailsItem SpellsChange greatest from (codes "-" ++ text))) }
        ensures fails_listing { (from : ℕ) → self.old.taken ≡ from + 1 →
            IfErr result (FailsIn R.feed self.old self.new (λ text.
            FailsItem SpellsKey greatest from (codes "+" ++ text))) }
        ensures later { self.old.taken ≤ self.new.taken }
        ensures leaves { IfErr result (Leaves R.feed self.old self.new) }
        ensures spends { OnOk result (budget self.old ≤ budget self.new) }
    {
        let klen = self.number(greatest, b':')?;
        self.field(&mut into.key, klen, b'\n')?;
        Ok(())
    }

    /// Takes the byte that the next item begins with, and answers the item's kind: none is at the
    /// newline that ends the text. With no removals the text is a native one, and has puts alone.
    #[inline(always)]
    pub(crate) fn mark(&mut self, removals: bool) -> Result<Option<ItemKind>, TextFault>
        ensures read { IfOk result (λ found. Consumes (R.feed self.old.reader)
            (R.feed self.new.reader) (mark_of found)) }
        ensures counted { OnOk result (self.new.taken ≡ self.old.taken + 1) }
        ensures removes { IfOk result (λ found. found ≡ Some Remove → removals ≡ true) }
        ensures fewer { OnOk result (self.new.asks < self.old.asks) }
        ensures fails { (greatest : ℕ) → IfErr result (FailsIn R.feed self.old self.new
            (FailsEntry removals greatest self.old.taken)) }
        ensures later { self.old.taken ≤ self.new.taken }
        ensures leaves { IfErr result (Leaves R.feed self.old self.new) }
        ensures spends { OnOk result (budget self.old ≤ budget self.new) }
    {
        let start = self.taken;
        match self.byte()? {
            None => Err(TextFault::Ended(start)),
            Some(b'\n') => Ok(None),
            Some(b'+') => Ok(Some(ItemKind::Put)),
            Some(b'-') if removals => Ok(Some(ItemKind::Remove)),
            Some(_) => Err(TextFault::Syntax(start)),
        }
    }

    /// Takes the next key of a list text, and answers whether there is one: none is at the newline
    /// that ends the text.
    #[inline(never)]
    pub(crate) fn list_entry(&mut self, into: &mut Record, greatest: u64) -> Result<bool, TextFault>
        requires least { 9 ≤ greatest }
        requires most { greatest < 2 ^ 63 }
        ensures read { IfOk result (λ given. MatchBool given
            (ReadsItem SpellsKey greatest (R.feed self.old.reader)
            (R.feed self.new.reader) self.old.taken self.new.taken into.new.key.items)
            (Consumes (R.feed self.old.reader) (R.feed self.new.reader) (codes "\n")
            × (self.new.taken ≡ self.old.taken + 1))) }
        ensures fewer { OnOk result (self.new.asks < self.old.asks) }
        ensures fails { IfErr result (FailsIn R.feed self.old self.new
            (FailsItem SpellsKey greatest self.old.taken)) }
        ensures later { self.old.taken ≤ self.new.taken }
        ensures leaves { IfErr result (Leaves R.feed self.old self.new) }
        ensures spends { OnOk result (budget self.old ≤ budget self.new) }
    {
        let at = self.taken;
        match self.byte()? {
            None => Err(TextFault::Ended(at)),
            Some(b'\n') => Ok(false),
            Some(b'+') => {
                self.marked_key(into, greatest)?;
                Ok(true)
            }
            Some(_) => Err(TextFault::Syntax(at)),
        }
    }
}
