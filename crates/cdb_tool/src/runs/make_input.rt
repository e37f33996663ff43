// The items of an input, one after the other: records are put, and keys removed.
ghost use Rattle.std.specs.Prelude.{◌≡◌, ◌<◌, ℕ, List, Option, ◌||◌, None, Ok, OnOk, OnErr, IfErr};
ghost use Rattle.cdb_form.specs.Format.{record_of, record_bytes};
ghost use Rattle.cdb_form.specs.Text.Parse.{Putting, Removing};
ghost use Rattle.cdb_make.specs.Views.Maker.{WhereHonest, store_of};
ghost use Rattle.cdb_show.specs.Message.{TellsEach, TellsPart};
ghost use Rattle.cdb_show.specs.Runs.Incoming.{Incoming};
ghost use Rattle.cdb_show.specs.Runs.InputTask.{progress};
ghost use Rattle.cdb_show.specs.Views.Output.{OutputSays};
ghost use Rattle.cdb_tool.specs.Runs.Make.{mode_of, meets_key, put_at, told, StopsSo, Task, ends, TellFails, DoesItem, InCourse, StepsOn, IsOfMaking};
ghost use Rattle.cdb_tool.specs.declared.runs.options.RunOptions.{RunOptions};

use crate::runs::options::RunOptions;
use cdb_command::{MakeOptions, Style};
use cdb_form::{Feeds, OutFault, Sink, Width};
use cdb_make::{FirstRecord, Maker, Mode, Put};
use cdb_show::{
    Fault, InLined, InWindow, InputContext, InputTask, ItemReader, Lined, Lines, Window,
    write_duplicates,
};
use cdb_store::Store;

/// Returns the mode of each put.
pub(super) fn put_mode(options: &MakeOptions) -> Mode
    ensures { result ≡ mode_of options.now }
{
    if options.stop {
        Mode::Insert
    } else {
        options.mode
    }
}

/// Returns true if a record is reported whose key was there already.
fn tells(options: &MakeOptions) -> bool
    ensures { result ≡ (options.now.warn || options.now.stop) }
{
    options.warn || options.stop
}

/// Returns true if a put met records of its key.
fn meets_key(put: Put) -> bool
    ensures { result ≡ meets_key put }
{
    match put {
        Put::Added => false,
        Put::AddedAgain | Put::Present | Put::Replaced(_) => true,
    }
}

/// How a run does what its inputs say.
#[derive(Clone, Copy)]
pub(crate) struct Puts<'a> {
    /// The context of the inputs.
    pub(crate) context: InputContext<'a>,
    /// The options of the run.
    pub(crate) options: RunOptions<'a>,
    /// True if native inputs may remove keys.
    pub(crate) amends: bool,
}

/// An item of an input, as a run meets it.
#[derive(Clone, Copy)]
pub(super) struct Met<'a> {
    /// The options of the run.
    pub(super) options: &'a RunOptions<'a>,
    /// The mode of the input's puts.
    pub(super) mode: Mode,
    /// The number of the input, counted from 1.
    pub(super) input: u64,
    /// The number of the item in its input, counted from 1.
    pub(super) number: u64,
    /// The line of its input at which it begins, if duplicates are explained.
    pub(super) line: u64,
}

/// Reports a put that met its key, if the options say so.
#[inline(always)]
fn write_put<E: Sink>(met: Met<'_>, key: &[u8], put: Put, errors: &mut E) -> Result<(), OutFault>
    ensures ok { OnOk result (TellsEach met.entry.options.now.names
        (told met.entry.options.now.make met.entry.input met.entry.number key.now (Ok put))
        (E.contents errors.old) (E.contents errors.new)) }
    ensures err { OnErr result (TellsPart met.entry.options.now.names
        (told met.entry.options.now.make met.entry.input met.entry.number key.now (Ok put))
        (E.contents errors.old) (E.contents errors.new)) }
    ensures failed { OnErr result (E.failed errors.new) }
{
    if tells(&met.options.make) && meets_key(put) {
        write_duplicates(
            met.options.names,
            met.input,
            met.number,
            met.line,
            key,
            errors,
        )
    } else {
        Ok(())
    }
}

/// Reports a put that met its key, and stops the run, each if the options say so.
#[inline(always)]
fn tell_put<E: Sink>(met: Met<'_>, key: &[u8], put: Put, errors: &mut E) -> Result<(), Fault>
    ensures ok { OnOk result (TellsEach met.entry.options.now.names
        (told met.entry.options.now.make met.entry.input met.entry.number key.now (Ok put))
        (E.contents errors.old) (E.contents errors.new)) }
    ensures goes { OnOk result (ends met.entry.options.now.make (Ok put) ≡ None) }
    ensures fails { IfErr result (TellFails met.entry.options.now
        (put_at met.entry.input met.entry.number key.now) put
        (E.contents errors.old) (E.contents errors.new)) }
    ensures output { OutputSays (E.failed errors.new) result }
{
    write_put(met, key, put, errors)?;
    if met.options.make.stop && put == Put::Present {
        return Err(Fault::Duplicate);
    }
    Ok(())
}

/// Puts a record of an input, and then reports it.
#[inline(always)]
pub(super) fn put_record<L: Width, S: Store, E: Sink>(
    maker: &mut Maker<S, L>,
    met: Met<'_>,
    key: &[u8],
    value: &[u8],
    errors: &mut E,
) -> Result<(), Fault>
    requires mode { met.mode ≡ mode_of met.options.now.make }
    ensures does { DoesItem met.entry.options.now met.entry.input met.entry.number
        (Putting (record { key = key.now; value = value.now }))
        (progress (E.contents errors.old) maker.old)
        (progress (E.contents errors.new) maker.new) result }
    ensures own { IfErr result IsOfMaking }
    ensures step { StepsOn maker.old maker.new ⊥ (E.failed errors.new) result }
{
    let put = maker.put(met.mode, key, value)?;
    tell_put(met, key, put, errors)
}

/// Puts a record of an input by one write of its bytes, and then reports it.
#[inline(always)]
pub(super) fn put_first_record<L: Width, S: Store, E: Sink>(
    maker: &mut Maker<S, L>,
    met: Met<'_>,
    first: FirstRecord<'_>,
    errors: &mut E,
) -> Result<(), Fault>
    requires mode { met.mode ≡ mode_of met.options.now.make }
    requires whole { first.bytes.now
        ≡ record_bytes L.WORD (record_of first.key.now first.value.now) }
    ensures does { DoesItem met.entry.options.now met.entry.input met.entry.number
        (Putting (record_of first.entry.key.now first.entry.value.now))
        (progress (E.contents errors.old) maker.old)
        (progress (E.contents errors.new) maker.new) result }
    ensures own { IfErr result IsOfMaking }
    ensures step { StepsOn maker.old maker.new ⊥ (E.failed errors.new) result }
{
    let put = maker.put_whole(met.mode, first)?;
    tell_put(met, first.key, put, errors)
}

/// Removes the records of a key. Nothing is reported of it.
pub(super) fn remove_key<L: Width, S: Store>(
    maker: &mut Maker<S, L>,
    key: &[u8],
) -> Result<(), Fault>
    ensures does { (options : RunOptions) (input number : ℕ) (now : Option (List ℕ))
        → DoesItem options input number (Removing key.now)
        (progress now maker.old) (progress now maker.new) result }
    ensures fails { (t : Task) (cs : List Incoming) (start now : Option (List ℕ))
        → InCourse t cs start now maker.old
        → IfErr result (λ f. WhereHonest (S.image (store_of maker.new))
        (StopsSo L.WORD t cs start now f)) }
    ensures own { IfErr result IsOfMaking }
    ensures step { StepsOn maker.old maker.new ⊥ ⊥ result }
{
    maker.remove(key)?;
    Ok(())
}

/// Returns the line of the item that was read last. Before it the input was at line `next`: in a
/// map text, lines that hold no item may come between.
pub(super) fn line_of_last(style: Style, next: u64, lines: &Lines) -> u64 {
    match style {
        Style::Map => lines.last(),
        Style::Native => next,
    }
}

impl<S: Store, L: Width, E: Sink> InputTask<Maker<S, L>, E> for Puts<'_> {
    ghost use Rattle.cdb_tool.specs.Runs.Make.{put_work};

    ghost work = { λ puts. put_work puts.options puts.amends };

    /// The lines are counted if duplicates are explained.
    fn do_text<F: Feeds>(
        &self,
        maker: &mut Maker<S, L>,
        input: u64,
        window: Window<F>,
        errors: &mut E,
    ) -> (Window<F>, Result<(), Fault>) {
        let InputContext { alloc, lines } = self.context;
        let style = self.options.make.style;
        if self.options.names.is_some() {
            let lined = Lined::new(window, lines);
            let mut items = ItemReader::new(alloc, style, self.amends, lined);
            let put = self.put_input::<L, S, _, E, InLined>(maker, input, &mut items, errors);
            return (items.into_reader().into_window(), put);
        }
        let mut items = ItemReader::new(alloc, style, self.amends, window);
        let put = self.put_input::<L, S, _, E, InWindow>(maker, input, &mut items, errors);
        (items.into_reader(), put)
    }
}
