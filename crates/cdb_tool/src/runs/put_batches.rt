// The records of an input are put by batches: added ones as they are in a file, a whole batch at
// once, and others one by one.
ghost use Rattle.std.specs.Prelude.{◌≡◌, ◌+◌, ◌≤◌, ◌^◌, ◌++◌, ◌∷◌, true, false, ℕ, [], List, Option, OnOk, IfErr};
ghost use Rattle.cdb_form.specs.Format.{KeyValue};
ghost use Rattle.cdb_form.specs.Text.Parse.{Change, Putting, Removing};
ghost use Rattle.cdb_form.specs.Views.Feed.{FromTo};
ghost use Rattle.cdb_form.specs.Views.Pairs.{key_value};
ghost use Rattle.cdb_form.specs.declared.mode.Mode.TheVariants.{Add};
ghost use Rattle.cdb_show.specs.Runs.InputTask.{progress};
ghost use Rattle.cdb_show.specs.Runs.Inputs.{IsInputOf};
ghost use Rattle.cdb_show.specs.Runs.Lookups.{StopsBehind};
ghost use Rattle.cdb_show.specs.Views.ItemReader.{form_of, reader_of, IsNew};
ghost use Rattle.cdb_show.specs.Views.Output.{OutputSays};
ghost use Rattle.cdb_tool.specs.Runs.Batches.{DoesMore, HoldsBatch, PutsWaiting};
ghost use Rattle.cdb_tool.specs.Runs.Make.{mode_of, StepsOn, IsOfMaking, DoesItems, StopsItems};
ghost use Rattle.cdb_tool.specs.declared.runs.options.RunOptions.{RunOptions};

use crate::runs::batch::{Batch, MOST};
use crate::runs::make_input::{
    Met, Puts, line_of_last, put_first_record, put_mode, put_record, remove_key,
};
use cdb_command::Style;
use cdb_form::{AtHand, Feeds, ItemKind, Next, Record, Sink, Width};
use cdb_make::{Maker, Mode, first_record};
use cdb_show::{Fault, InputContext, ItemReader};
use cdb_store::Store;

/// Adds the records of a batch, all by one write.
fn append_batch<L: Width, S: Store>(maker: &mut Maker<S, L>, batch: &Batch<L>) -> Result<(), Fault>
    requires { (rs : List KeyValue) × HoldsBatch L.WORD L.TOP batch.now rs }
    ensures puts { (o : RunOptions) (input : ℕ) (now : Option (List ℕ)) → mode_of o.make ≡ Add
        → PutsWaiting o input batch.now (progress now maker.old) (progress now maker.new) result }
    ensures own { IfErr result IsOfMaking }
    ensures step { StepsOn maker.old maker.new ⊥ ⊥ result }
{
    maker.append_whole(batch.records(), batch.count)?;
    Ok(())
}

/// Returns true if some bytes have a newline. Most have none, so they are looked at eight at a time.
fn has_newline(bytes: &[u8]) -> bool {
    let (eights, rest) = bytes.as_chunks::<8>();
    let mut marks = 0;
    for eight in eights {
        let others = u64::from_le_bytes(*eight) ^ 0x0a0a_0a0a_0a0a_0a0a;
        marks |= others.wrapping_sub(0x0101_0101_0101_0101) & !others & 0x8080_8080_8080_8080;
    }
    let mut found = marks != 0;
    for byte in rest {
        found |= *byte == b'\n';
    }
    found
}

/// Returns the number of newlines that some bytes have.
fn newlines(bytes: &[u8]) -> u64 {
    if !has_newline(bytes) {
        return 0;
    }
    let mut found = 0u64;
    for byte in bytes {
        if *byte == b'\n' {
            found = found.saturating_add(1);
        }
    }
    found
}

/// Returns the line after a record that begins at a line. In a map text a record is a line.
fn line_after(style: Style, line: u64, key: &[u8], value: &[u8]) -> u64 {
    let more = match style {
        Style::Map => 0,
        Style::Native => newlines(key).saturating_add(newlines(value)),
    };
    line.saturating_add(1).saturating_add(more)
}

impl Puts<'_> {
    /// Puts the records of a batch, each alone, and reports it. The first one begins at `line` of
    /// its input, and each other one at the line after the one before.
    fn put_each<L: Width, S: Store, E: Sink>(
        &self,
        maker: &mut Maker<S, L>,
        input: u64,
        line: u64,
        batch: &Batch<L>,
        errors: &mut E,
    ) -> Result<(), Fault>
        requires holds { (rs : List KeyValue) × HoldsBatch L.WORD L.TOP batch.now rs }
        requires few { batch.now.done + batch.now.count ≤ 2 ^ 48 }
        ensures puts { PutsWaiting self.now.options input batch.now
            (progress (E.contents errors.old) maker.old)
            (progress (E.contents errors.new) maker.new) result }
        ensures own { IfErr result IsOfMaking }
        ensures step { StepsOn maker.old maker.new ⊥ (E.failed errors.new) result }
    {
        let mode = put_mode(&self.options.make);
        let explains = self.options.names.is_some();
        let bytes = batch.records();
        let (mut place, mut line) = (0, line);
        for index in 0..batch.count {
            let record = first_record::<L>(&bytes[place..]);
            let met = Met {
                options: &self.options,
                mode,
                input,
                number: batch.done + index as u64 + 1,
                line,
            };
            put_first_record(maker, met, record, errors)?;
            place += record.bytes.len();
            if explains {
                line = line_after(self.options.make.style, line, record.key, record.value);
            }
        }
        Ok(())
    }

    /// Puts the records that wait. The first one begins at `line` of its input.
    pub(super) fn put_waiting<L: Width, S: Store, E: Sink>(
        &self,
        maker: &mut Maker<S, L>,
        input: u64,
        line: u64,
        batch: &mut Batch<L>,
        errors: &mut E,
    ) -> Result<(), Fault>
        requires holds { (rs : List KeyValue) × HoldsBatch L.WORD L.TOP batch.old rs }
        requires few { batch.old.done + batch.old.count ≤ 2 ^ 48 }
        ensures puts { PutsWaiting self.now.options input batch.old
            (progress (E.contents errors.old) maker.old)
            (progress (E.contents errors.new) maker.new) result }
        ensures none { HoldsBatch L.WORD L.TOP batch.new [] }
        ensures done { batch.new.done ≡ batch.old.done + batch.old.count }
        ensures own { IfErr result IsOfMaking }
        ensures step { StepsOn maker.old maker.new ⊥ (E.failed errors.new) result }
    {
        let put = match put_mode(&self.options.make) {
            Mode::Add => append_batch(maker, batch),
            Mode::Warn | Mode::Insert | Mode::Replace => self.put_each(
                maker, input, line, batch, errors,
            ),
        };
        batch.clear();
        put
    }

    /// Puts the records that wait. Added ones, of which no word is said, wait on until they take more
    /// than half of the room.
    fn put_or_wait<L: Width, S: Store, E: Sink>(
        &self,
        maker: &mut Maker<S, L>,
        input: u64,
        line: u64,
        batch: &mut Batch<L>,
        errors: &mut E,
    ) -> Result<(), Fault>
        requires holds { (rs : List KeyValue) × HoldsBatch L.WORD L.TOP batch.old rs }
        requires few { batch.old.done + batch.old.count ≤ 2 ^ 48 }
        ensures does { DoesMore self.now.options input [] batch.old batch.new
            (progress (E.contents errors.old) maker.old)
            (progress (E.contents errors.new) maker.new) result }
        ensures own { IfErr result IsOfMaking }
        ensures step { StepsOn maker.old maker.new ⊥ (E.failed errors.new) result }
    {
        let is_full = batch.is_full();
        if !is_full && put_mode(&self.options.make) == Mode::Add {
            return Ok(());
        }
        self.put_waiting(maker, input, line, batch, errors)?;
        if is_full {
            batch.grow()?;
        }
        Ok(())
    }

    /// Lets a record wait behind the others, and returns true, if there is room, and unless a
    /// duplicate is explained by its line.
    fn add<L: Width>(&self, batch: &mut Batch<L>, item: &Record) -> bool
        ensures added { result ≡ true → (rs : List KeyValue) → HoldsBatch L.WORD L.TOP batch.old rs
            → HoldsBatch L.WORD L.TOP batch.new (rs ++ key_value item.now ∷ []) }
        ensures full { result ≡ false → batch.new ≡ batch.old }
        ensures done { batch.new.done ≡ batch.old.done }
    {
        if self.options.names.is_some() && put_mode(&self.options.make) != Mode::Add {
            return false;
        }
        batch.add(item)
    }

    /// Lets a record wait behind the others, or puts it after them. It begins at `line` of its
    /// input.
    fn put_later<L: Width, S: Store, E: Sink>(
        &self,
        maker: &mut Maker<S, L>,
        input: u64,
        line: u64,
        batch: &mut Batch<L>,
        item: &Record,
        errors: &mut E,
    ) -> Result<(), Fault>
        requires holds { (rs : List KeyValue) × HoldsBatch L.WORD L.TOP batch.old rs }
        requires few { batch.old.done + batch.old.count ≤ 2 ^ 48 }
        ensures does { DoesMore self.now.options input (Putting (key_value item.now) ∷ [])
            batch.old batch.new
            (progress (E.contents errors.old) maker.old)
            (progress (E.contents errors.new) maker.new) result }
        ensures own { IfErr result IsOfMaking }
        ensures step { StepsOn maker.old maker.new ⊥ (E.failed errors.new) result }
    {
        if self.add(batch, item) {
            return Ok(());
        }
        self.put_waiting(maker, input, line, batch, errors)?;
        batch.grow()?;
        if self.add(batch, item) {
            return Ok(());
        }
        batch.done += 1;
        let met = Met {
            options: &self.options,
            mode: put_mode(&self.options.make),
            input,
            number: batch.done,
            line,
        };
        put_record(maker, met, &item.key, &item.value, errors)
    }

    /// Puts the records that wait, and then removes those of a key.
    fn remove_after<L: Width, S: Store, E: Sink>(
        &self,
        maker: &mut Maker<S, L>,
        input: u64,
        batch: &mut Batch<L>,
        key: &[u8],
        errors: &mut E,
    ) -> Result<(), Fault>
        requires holds { (rs : List KeyValue) × HoldsBatch L.WORD L.TOP batch.old rs }
        requires few { batch.old.done + batch.old.count ≤ 2 ^ 48 }
        ensures does { DoesMore self.now.options input (Removing key.now ∷ []) batch.old batch.new
            (progress (E.contents errors.old) maker.old)
            (progress (E.contents errors.new) maker.new) result }
        ensures own { IfErr result IsOfMaking }
        ensures step { StepsOn maker.old maker.new ⊥ (E.failed errors.new) result }
    {
        self.put_waiting(maker, input, 0, batch, errors)?;
        batch.done += 1;
        remove_key(maker, key)
    }

    /// Does what the items of an input say, whose number is counted from 1, up to the end of its
    /// text. `context.lines` may count the lines of the reader.
    pub(super) fn put_input<L: Width, S: Store, F: Feeds, E: Sink, A: AtHand<F>>(
        &self,
        maker: &mut Maker<S, L>,
        input: u64,
        items: &mut ItemReader<F, L>,
        errors: &mut E,
    ) -> Result<(), Fault>
        requires fresh { IsNew items.old }
        ensures ok { OnOk result ((last : List Change)
            × FromTo (F.feed (reader_of items.old)) (F.feed (reader_of items.new))
            (IsInputOf (form_of items.old) L.GREATEST last)
            × DoesItems self.now.options input last
            (progress (E.contents errors.old) maker.old)
            (progress (E.contents errors.new) maker.new)) }
        ensures fails { IfErr result (λ fault. (last : List Change)
            × StopsBehind (form_of items.old) L.GREATEST input last
            (F.feed (reader_of items.old)) (F.feed (reader_of items.new)) fault
            × StopsItems self.now.options input last
            (progress (E.contents errors.old) maker.old)
            (progress (E.contents errors.new) maker.new) fault) }
        ensures output { OutputSays (E.failed errors.new) result }
    {
        let InputContext { alloc, lines } = self.context;
        let mut batch = Batch::<L>::new(alloc);
        let mut item = Record {
            key: Vec::new(alloc),
            value: Vec::new(alloc),
        };
        loop {
            let next = lines.next();
            batch.fill::<F, A>(items);
            self.put_or_wait(maker, input, next, &mut batch, errors)?;
            let next = lines.next();
            match items.read_up_to::<A>(&mut item, MOST as u64) {
                Ok(Some(Next::Item(ItemKind::Put))) => {
                    let line = line_of_last(self.options.make.style, next, lines);
                    self.put_later(maker, input, line, &mut batch, &item, errors)?;
                }
                Ok(Some(Next::Value(vlen))) => {
                    self.put_long(
                        maker, input, next, &mut batch, items, &item.key, vlen, errors,
                    )?;
                }
                Ok(Some(Next::Item(ItemKind::Remove))) => {
                    self.remove_after(maker, input, &mut batch, &item.key, errors)?;
                }
                Ok(None) => return self.put_waiting(maker, input, 0, &mut batch, errors),
                Err(fault) => {
                    self.put_waiting(maker, input, 0, &mut batch, errors)?;
                    return Err(Fault::of_text(input, fault));
                }
            }
        }
    }
}
