// The parser of a map text: it takes line after line, a record's that is at hand by one step, and
// else runs of bytes and single ones.
ghost use Rattle.std.specs.Prelude.{◌≡◌, ◌<◌, true, ℕ, List, ◌∷◌, OnOk, IfOk, IfErr};
ghost use Rattle.cdb_form.specs.Format.{AreBytes};
ghost use Rattle.cdb_form.specs.Text.Map.{Lacks, is_newline};
ghost use Rattle.cdb_form.specs.Views.MapParser.{MovesRun, ReadsLine, ReadsPair, ReadsRun, ReadsValue, is_of, line_end};
ghost use Rattle.cdb_form.specs.Views.MapReader.{ReadsEntry, IsAmidLines};
ghost use Rattle.cdb_form.specs.Views.Source.{LeavesAmid};
ghost use Rattle.cdb_form.specs.declared.text.fault.TextFault.TheVariants.{NoMemory};
ghost use Rattle.cdb_form.specs.Views.Pairs.{key_value};
ghost use Rattle.cdb_form.specs.declared.text.kind.Kind.TheVariants.{InWord};

use crate::feeds::Feeds;
use crate::record::Record;
use crate::text::at_hand::AtHand;
use crate::text::fault::TextFault;
use crate::text::kind::Kind;
use crate::text::prefix_line::copy_line;
use crate::text::source::Source;

/// The content and the end of a line.
#[derive(Clone, Copy)]
pub(crate) enum LineRead {
    /// No record, and a newline.
    Ignored,
    /// No record, and the end of the input.
    Last,
    /// A record, and a newline.
    Pair,
    /// A record, and the end of the input.
    LastPair,
}

/// The content of the lines up to the first record's, and their end.
#[derive(Clone, Copy)]
pub(crate) enum Entry {
    /// No record: the lines end with the input.
    End,
    /// A record, and a newline.
    Closed,
    /// A record, whose line ends with the input.
    Last,
}

impl<R: Feeds> Source<R> {
    /// Passes over bytes of a kind, and takes the byte after them: `None` is the end.
    fn pass<A: AtHand<R>>(&mut self, kind: Kind) -> Result<Option<u8>, TextFault>
        ensures run { IfOk result (λ stop. (bytes : List ℕ)
            × ReadsRun kind R.feed self.old self.new bytes stop) }
        ensures fewer { OnOk result (self.new.asks < self.old.asks) }
        ensures leaves { IfErr result (LeavesAmid (Lacks is_newline)
            R.feed self.old self.new) }
    {
        loop {
            let Some(byte) = self.next_byte::<A>()? else {
                return Ok(None);
            };
            if !kind.has(byte) {
                return Ok(Some(byte));
            }
        }
    }

    /// Puts bytes of a kind that are at hand after what `into` holds. Each counts as a request, as
    /// if it had been requested.
    #[inline(always)]
    fn keep_at_hand<A: AtHand<R>>(
        &mut self,
        kind: Kind,
        into: &mut Vec<u8>,
    ) -> Result<(), TextFault>
        ensures moved { OnOk result (MovesRun kind R.feed self.old self.new
            into.old.items into.new.items) }
        ensures err { IfErr result (λ f. (f ≡ NoMemory)
            × (self.new ≡ self.old) × (into.new.items ≡ into.old.items)) }
    {
        let window = self.at_hand::<A>();
        let run = kind.run(window);
        into.extend_from_slice(&window[..run])?;
        self.take_at_hand::<A>(run);
        Ok(())
    }

    /// Puts `first` and the bytes of a kind after it over what `into` holds, and takes the byte
    /// after them: `None` is the end.
    fn keep<A: AtHand<R>>(
        &mut self,
        first: u8,
        kind: Kind,
        into: &mut Vec<u8>,
    ) -> Result<Option<u8>, TextFault>
        ensures run { IfOk result (λ stop. (bytes : List ℕ) × (into.new.items ≡ first ∷ bytes)
            × ReadsRun kind R.feed self.old self.new bytes stop) }
        ensures are { AreBytes into.new.items }
        ensures fewer { OnOk result (self.new.asks < self.old.asks) }
        ensures leaves { IfErr result (LeavesAmid (Lacks is_newline)
            R.feed self.old self.new) }
    {
        into.clear();
        into.push(first)?;
        loop {
            self.keep_at_hand::<A>(kind, into)?;
            let Some(byte) = self.next_byte::<A>()? else {
                return Ok(None);
            };
            if !kind.has(byte) {
                return Ok(Some(byte));
            }
            into.push(byte)?;
        }
    }

    /// Takes the rest of a line after the first blank after a key: more blanks, and the value. It
    /// answers whether the line ends with a newline.
    fn value<A: AtHand<R>>(&mut self, into: &mut Vec<u8>) -> Result<bool, TextFault>
        ensures reads { IfOk result (λ newline. ReadsValue R.feed self.old self.new
            into.new.items (line_end newline)) }
        ensures are { AreBytes into.new.items }
        ensures fewer { OnOk result (self.new.asks < self.old.asks) }
        ensures leaves { IfErr result (LeavesAmid (Lacks is_newline)
            R.feed self.old self.new) }
    {
        into.clear();
        let Some(first) = self.pass::<A>(Kind::Blank)? else {
            return Ok(false);
        };
        if first == b'\n' {
            return Ok(true);
        }
        let stop = self.keep::<A>(first, Kind::InLine, into)?;
        Ok(stop.is_some())
    }

    /// Takes the rest of a record's line after `first`, the first byte of its key. It returns true
    /// if the line ends with a newline.
    fn pair<A: AtHand<R>>(&mut self, first: u8, into: &mut Record) -> Result<bool, TextFault>
        requires { is_of InWord first ≡ true }
        ensures reads { IfOk result (λ newline. ReadsPair R.feed self.old self.new first
            (key_value into.new) (line_end newline)) }
        ensures fewer { OnOk result (self.new.asks < self.old.asks) }
        ensures leaves { IfErr result (LeavesAmid (Lacks is_newline)
            R.feed self.old self.new) }
    {
        into.value.clear();
        let Some(stop) = self.keep::<A>(first, Kind::InWord, &mut into.key)? else {
            return Ok(false);
        };
        if stop == b'\n' {
            return Ok(true);
        }
        self.value::<A>(&mut into.value)
    }

    /// Takes a line.
    #[inline(never)]
    fn line<A: AtHand<R>>(&mut self, into: &mut Record) -> Result<LineRead, TextFault>
        ensures reads { IfOk result (ReadsLine R.feed self.old self.new
            (key_value into.new)) }
        ensures fewer { OnOk result (self.new.asks < self.old.asks) }
        ensures leaves { IfErr result (LeavesAmid (Lacks is_newline)
            R.feed self.old self.new) }
    {
        match self.pass::<A>(Kind::Blank)? {
            None => Ok(LineRead::Last),
            Some(b'\n') => Ok(LineRead::Ignored),
            Some(b'#') => match self.pass::<A>(Kind::InLine)? {
                None => Ok(LineRead::Last),
                Some(_) => Ok(LineRead::Ignored),
            },
            Some(first) => {
                let newline = self.pair::<A>(first, into)?;
                if newline {
                    Ok(LineRead::Pair)
                } else {
                    Ok(LineRead::LastPair)
                }
            }
        }
    }

    /// Takes a line as `line` does, a record's that is at hand by one step. Then each of its bytes
    /// counts as a request.
    #[inline(always)]
    fn line_buffered<A: AtHand<R>>(&mut self, into: &mut Record) -> Result<LineRead, TextFault>
        ensures reads { IfOk result (ReadsLine R.feed self.old self.new
            (key_value into.new)) }
        ensures fewer { OnOk result (self.new.asks < self.old.asks) }
        ensures leaves { IfErr result (LeavesAmid (Lacks is_newline)
            R.feed self.old self.new) }
    {
        let n = copy_line(self.at_hand::<A>(), into)?;
        if n == 0 {
            return self.line::<A>(into);
        }
        self.take_at_hand::<A>(n);
        Ok(LineRead::Pair)
    }

    /// Takes lines up to the first record's, and answers whether there is one, and how it ends.
    pub(crate) fn map_entry<A: AtHand<R>>(&mut self, into: &mut Record) -> Result<Entry, TextFault>
        ensures reads { IfOk result (ReadsEntry R.feed self.old self.new
            (key_value into.new)) }
        ensures fewer { OnOk result (self.new.asks < self.old.asks) }
        ensures leaves { IfErr result (LeavesAmid IsAmidLines R.feed self.old self.new) }
    {
        loop {
            match self.line_buffered::<A>(into)? {
                LineRead::Ignored => {}
                LineRead::Last => return Ok(Entry::End),
                LineRead::Pair => return Ok(Entry::Closed),
                LineRead::LastPair => return Ok(Entry::Last),
            }
        }
    }
}
