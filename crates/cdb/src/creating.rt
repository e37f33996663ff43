// A create: its base and inputs are opened, and then the database is made of them.
ghost use Rattle.std.specs.Prelude.{◌⊎◌, ◌≡◌, ◌≤◌, IfOk, IfErr, map, option_map, string_bytes};
ghost use Rattle.cdb_show.specs.Views.Noted.{AreInPlace};
ghost use Rattle.cdb_show.specs.Views.Output.{OutputSays};
ghost use Rattle.cdb_form.specs.Format.{head_size};
ghost use Rattle.cdb.specs.Handing.{machine_of};
ghost use Rattle.cdb.specs.Creating.{Creates, MakesOnOutput, IsOfNoOutput, NotOpened, OpensAll, WritesAll};
ghost use Rattle.cdb_system.specs.State.{temporary_of, files_of, standard_of, state_of};
ghost use Rattle.cdb.specs.Contents.{making_of, wanted_of};
ghost use Rattle.cdb.specs.Reasons.{HasReason, HasRefusedFile, calls_made, left_reasons, run_reasons, store_reasons};
ghost use Rattle.cdb_names.specs.Replacing.{IsNoName};
ghost use Rattle.cdb_system.specs.Answered.{if_some};

use crate::base_head::see_base;
use crate::building::make_in;
use crate::contents::{Contents, ContentsOf, Sources, SourcesOf};
use crate::placing::{make_in_place, replace_database};
use crate::streams::Streams;
use cdb_form::{Sink, Width, write_whole};
use cdb_store::MemStore;
use cdb_system::{Performed, System, base_left, is_in_place, is_standard, open_base, open_inputs};
use cdb_tool::{Fault, RunContext, flushed};
use std::alloc::{AllocError, Global};
use std::marker::PhantomData;

/// A database to be made.
#[derive(Clone, Copy)]
pub(crate) struct Creation<'a> {
    /// The name of the database. The database `-` is made on standard output.
    pub(crate) name: &'a str,
    /// The database whose records come first, if one is amended.
    pub(crate) base: &'a Option<String>,
    /// The inputs. Without any, standard input is read.
    pub(crate) inputs: &'a [String],
    /// The name of the file to make the database in. `None` is the database's name with `.tmp`
    /// after it.
    pub(crate) temporary: &'a Option<String>,
    /// The options, and the lines of the inputs.
    pub(crate) run: RunContext<'a>,
}

/// Makes a database, on standard output or under its name: in place, or in a temporary file. The
/// base and then all inputs are opened before anything is made, and a base that its head refuses
/// ends the create there. A base that was opened is returned, however the create ends, and so is a
/// file that was made in place. If all inputs were opened, their readers are returned too, and
/// standard input.
#[inline(never)]
pub(crate) fn create<L, Y, O, E>(
    alloc: Global,
    system: &mut Y,
    names: &mut Y::Names,
    creation: Creation<'_>,
    input: Y::Input,
    streams: &mut Streams<O, E>,
) -> Performed<Y>
where
    L: Width,
    Y: System,
    O: Sink,
    E: Sink,
    requires head { head_size L.WORD ≤ creation.run.options.make.limit }
    requires words { creation.run.options.make.limit ≤ L.GREATEST }
    ensures creates { Creates (machine_of Y.File.Store Y.Made.Store Y.Stream.feed Y.System
        Y.Names.File.RawFile) (wanted_of L.WORD L.GREATEST creation.entry)
        (standard_of Y.Input.feed input)
        (state_of (Y.calls system.old) (Y.Names.calls names.old) (O.contents streams.old.output)
        (E.contents streams.old.errors))
        (state_of (Y.calls system.new) (Y.Names.calls names.new) (O.contents streams.new.output)
        (E.contents streams.new.errors)) result.0 result.1 }
    ensures reason { IfErr result.1 (HasReason (left_reasons (machine_of Y.File.Store Y.Made.Store Y.Stream.feed Y.System
        Y.Names.File.RawFile) Y.Input.feed
        (calls_made (Y.calls system.old) (Y.Names.calls names.old))
        (calls_made (Y.calls system.new) (Y.Names.calls names.new)) result.0
        (IsNoName creation.entry.name.now
        ⊎ (temporary_of creation.entry.name.now (option_map string_bytes creation.entry.temporary.now)
        ≡ creation.entry.name.now)))) }
    ensures output { OutputSays (O.failed streams.new.output ⊎ E.failed streams.new.errors)
        result.1 }
{
    let contents = match open_all::<L, Y>(alloc, system, creation, input) {
        Ok(contents) => contents,
        Err(unopened) => return (base_left(unopened.base), Err(unopened.fault)),
    };
    if is_standard(creation.name) {
        let (sources, made) = make_on_output::<L, Y, O, E>(alloc, contents, streams);
        return (sources.into_left(None), made);
    }
    if is_in_place(creation.name, creation.temporary) {
        let errors = &mut streams.errors;
        return make_in_place::<L, Y, E>(alloc, system, names, creation, contents, errors);
    }
    let temporary = match temporary_name(alloc, creation.name, creation.temporary) {
        Ok(temporary) => temporary,
        Err(_) => return (
            contents.into_sources().into_left(None),
            Err(Fault::NoMemory),
        ),
    };
    let (sources, made) = replace_database::<L, Y, E>(
        alloc,
        names,
        temporary.as_str(),
        creation,
        contents,
        &mut streams.errors,
    );
    (sources.into_left(None), made)
}

/// The reason why the base or an input was not opened, or the base was refused.
#[derive(Drop)]
struct Unopened<F> {
    /// The base, if it was opened: its head refuses it, or an input was not opened.
    base: Option<F>,
    fault: Fault,
}

/// Opens the base, reads its head, and then opens all inputs.
fn open_all<'a, L, Y>(
    alloc: Global,
    system: &mut Y,
    creation: Creation<'a>,
    input: Y::Input,
) -> Result<ContentsOf<'a, L, Y>, Unopened<Y::File>>
where
    L: Width,
    Y: System,
    requires head { head_size L.WORD ≤ creation.run.options.make.limit }
    requires words { creation.run.options.make.limit ≤ L.GREATEST }
    ensures ok { IfOk result (λ c. OpensAll L.WORD
        (files_of Y.File.Store Y.Made.Store Y.Stream.feed Y.System)
        (option_map string_bytes creation.entry.base.now) (map string_bytes creation.entry.inputs.now)
        (Y.calls system.old) (Y.calls system.new) c.sources.base c.sources.inputs.readers.items) }
    ensures shared { IfOk result (λ c. c.sources.inputs.shared ≡ input) }
    ensures options { IfOk result (λ c. c.run.options ≡ creation.entry.run.options) }
    ensures fails { IfErr result (λ u. NotOpened L.WORD
        (files_of Y.File.Store Y.Made.Store Y.Stream.feed Y.System)
        (option_map string_bytes creation.entry.base.now) (map string_bytes creation.entry.inputs.now)
        (Y.calls system.old) (Y.calls system.new) u.base u.fault) }
    ensures reason { IfErr result (λ u. HasReason (store_reasons Y.File.Store (if_some u.base)
        (HasRefusedFile (Y.calls system.old) (Y.calls system.new))) u.fault) }
    ensures output { IfErr result (λ u. IsOfNoOutput u.fault) }
{
    let base = match open_base::<Y>(system, creation.base) {
        Ok(base) => base,
        Err(fault) => return Err(Unopened { base: None, fault }),
    };
    let (base, seen) = see_base::<L, Y::File>(base);
    if let Err(fault) = seen {
        return Err(Unopened { base, fault });
    }
    match open_inputs::<Y>(alloc, system, creation.inputs, input) {
        Ok(inputs) => Ok(Contents {
            sources: Sources { base, inputs },
            run: creation.run,
            width: PhantomData,
        }),
        Err(fault) => Err(Unopened { base, fault }),
    }
}

/// Makes a database in memory and writes it. Returns what was read.
#[inline(never)]
fn make_on_output<L, Y, O, E>(
    alloc: Global,
    contents: ContentsOf<'_, L, Y>,
    streams: &mut Streams<O, E>,
) -> (SourcesOf<Y>, Result<(), Fault>)
where
    L: Width,
    Y: System,
    O: Sink,
    E: Sink,
    ensures makes { MakesOnOutput Y.File.Store (making_of L.WORD L.GREATEST
        Y.Stream.feed Y.Input.feed contents.entry result.0.inputs)
        result.0.base (O.contents streams.old.output) (O.contents streams.new.output)
        (E.contents streams.old.errors) (E.contents streams.new.errors) result.1 }
    ensures placed { AreInPlace contents.entry.sources.inputs.readers.items
        result.0.inputs.readers.items }
    ensures reason { IfErr result.1 (HasReason (run_reasons Y.File.Store Y.Stream.feed Y.Input.feed
        result.0 ⊥ ⊥)) }
    ensures output { OutputSays (O.failed streams.new.output ⊎ E.failed streams.new.errors)
        result.1 }
{
    let (store, sources, made) = make_in::<L, MemStore, Y, E>(
        alloc,
        MemStore::new(alloc),
        contents,
        &mut streams.errors,
    );
    match made {
        Ok(()) => (sources, write_bytes(store.bytes(), &mut streams.output)),
        Err(fault) => (sources, Err(fault)),
    }
}

/// Writes bytes, and flushes the output.
fn write_bytes<O: Sink>(bytes: &[u8], output: &mut O) -> Result<(), Fault>
    ensures writes { WritesAll (O.contents output.old) (O.contents output.new) bytes.now result }
    ensures output { OutputSays (O.failed output.new) result }
{
    let written = write_whole(output, bytes);
    flushed(output, written.map_err(Fault::from))
}

/// Returns the name of the temporary file.
fn temporary_name(
    alloc: Global,
    name: &str,
    temporary: &Option<String>,
) -> Result<String, AllocError>
    ensures { IfOk result (λ t. string_bytes t
        ≡ temporary_of name.now (option_map string_bytes temporary.now)) }
{
    match temporary {
        Some(temporary) => temporary.clone(),
        None => format!(in alloc; "{name}.tmp"),
    }
}
