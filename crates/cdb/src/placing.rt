// A database made under its name: in place, or in a temporary file that replaces it.
ghost use Rattle.std.specs.Prelude.{◌≡◌, ◌≢◌, ◌⊎◌, ◌∷◌, [], true, false, map, option_map, string_bytes, IfOk, IfErr, OnOk, List, Option, ℕ};
ghost use Rattle.cdb_show.specs.Views.Noted.{AreInPlace};
ghost use Rattle.cdb_show.specs.Views.Output.{OutputSays};
ghost use Rattle.cdb.specs.Handing.{HandsInputs, OpensNoMore, machine_of};
ghost use Rattle.cdb.specs.Creating.{LooksFor, MakesApart, MakesInPlace, SeesName, Syncs, answer_of, file_is, files_read, input_is};
ghost use Rattle.cdb_system.specs.Answered.{if_some};
ghost use Rattle.cdb_system.specs.Opening.{Empties, MissesEmptying, OpenCalls, named_as};
ghost use Rattle.cdb_system.specs.State.{files_of, state_of};
ghost use Rattle.cdb_names.specs.declared.answer.Answer.TheVariants.{No, Yes};
ghost use Rattle.cdb.specs.Contents.{making_of, wanted_of};
ghost use Rattle.cdb.specs.Reasons.{HasFailedFile, HasReason, HasRefusedName, calls_made, left_reasons, run_reasons};
ghost use Rattle.cdb_names.specs.Replacing.{IsNoName};

use crate::building::Building;
use crate::contents::{ContentsOf, SourcesOf};
use crate::creating::Creation;
use cdb_form::{Sink, Width};
use cdb_make::MakeFault;
use cdb_names::{Answer, Builder, Lock, Names, ReplaceFault, replace_file};
use cdb_show::Inputs;
use cdb_store::Store;
use cdb_system::{HYPHEN, Performed, System, is_standard};
use cdb_tool::Fault;
use std::alloc::Global;
use std::marker::PhantomData;

/// Returns true if a file may be the one of a name, as the system answered: it is, or it did not
/// say.
fn may_be(said: Answer) -> bool
    ensures other { result ≡ false → said ≡ No }
    ensures found { result ≡ true → said ≢ No }
{
    match said {
        Answer::No => false,
        Answer::Yes | Answer::Unknown => true,
    }
}

/// Returns true if the base may be the file of `name`.
fn may_be_base<N: Names>(names: &mut N, name: &str, base: &Option<String>) -> bool
    ensures { LooksFor (map (file_is name.now) (if_some (option_map string_bytes base.now))) result
        (N.calls names.old) (N.calls names.new) }
{
    match base {
        Some(base) => may_be(names.is_file_of(name, base.as_str())),
        None => false,
    }
}

/// Returns true if an input may be the file of `name`.
fn may_be_input<N: Names>(names: &mut N, name: &str, input: &str) -> bool
    ensures { LooksFor (input_is name.now input.now ∷ []) result
        (N.calls names.old) (N.calls names.new) }
{
    if is_standard(input) {
        return may_be(names.is_input(name));
    }
    may_be(names.is_file_of(name, input))
}

/// Returns true if one of the inputs may be the file of `name`.
fn may_be_one_of<N: Names>(names: &mut N, name: &str, inputs: &[String]) -> bool
    ensures { LooksFor (map (input_is name.now) (map string_bytes inputs.now)) result
        (N.calls names.old) (N.calls names.new) }
{
    for input in inputs {
        if may_be_input(names, name, input.as_str()) {
            return true;
        }
    }
    false
}

/// Returns true if the base or an input, or without inputs standard input, may be the file of this
/// name, which is not followed as a link.
fn may_be_read<N: Names>(names: &mut N, name: &str, creation: Creation<'_>) -> bool
    ensures { LooksFor (files_read name.now
        (option_map string_bytes creation.entry.base.now) (map string_bytes creation.entry.inputs.now))
        result (N.calls names.old) (N.calls names.new) }
{
    if may_be_base(names, name, creation.base) {
        return true;
    }
    if creation.inputs.is_empty() {
        return may_be_input(names, name, HYPHEN);
    }
    may_be_one_of(names, name, creation.inputs)
}

/// Empties the file of a name, or makes one, once its lock is held. `Open`: another process holds
/// it, or the file cannot be opened or emptied, or the name is a link. `Rename`: the name lost the
/// file by then, or the system did not say whether it did.
fn emptied<Y>(system: &mut Y, name: &str) -> Result<Y::Made, Fault>
where
    Y: System,
    ensures calls { OnOk result (Empties name.now (Y.calls system.old) (Y.calls system.new)) }
    ensures makes { IfOk result (Y.makes name.now) }
    ensures fails { IfErr result
        (MissesEmptying name.now (Y.calls system.old) (Y.calls system.new)) }
    ensures output { OutputSays ⊥ result }
{
    let file = system.open_to_empty(name)?;
    match system.lock(name, &file) {
        Lock::Taken | Lock::Unsupported => {
            named(system.has_file(name, &file))?;
            system.empty(name, file)
        }
        Lock::Held => Err(Fault::Open),
    }
}

/// Returns Ok if a name has the file of its database, or else `Rename`.
fn named(has_file: Answer) -> Result<(), Fault>
    ensures says { result ≡ named_as has_file }
    ensures yes { OnOk result (has_file ≡ Yes) }
    ensures output { OutputSays ⊥ result }
{
    match has_file {
        Answer::Yes => Ok(()),
        Answer::No | Answer::Unknown => Err(Fault::Rename),
    }
}

/// Makes a database in the file of its name. The file is emptied first, once its lock is held.
///
/// `Open`: the base or an input is that file, and would be lost, or the system did not say whether
/// it is; or another process holds it; or the name is a link; or the file cannot be opened or
/// emptied. `Rename`: another file has the name before the file is emptied or once it is whole, or
/// none has, or the system did not say.
///
/// Returns what was read, and the file if it was emptied.
#[inline(never)]
pub(crate) fn make_in_place<L, Y, E>(
    alloc: Global,
    system: &mut Y,
    names: &mut Y::Names,
    creation: Creation<'_>,
    contents: ContentsOf<'_, L, Y>,
    errors: &mut E,
) -> Performed<Y>
where
    L: Width,
    Y: System,
    E: Sink,
    ensures makes { (handed : Inputs Y.Stream Y.Input) × HandsInputs contents.entry.sources.inputs
        handed result.0 × ((output : Option (List ℕ))
        → MakesInPlace (files_of Y.File.Store Y.Made.Store Y.Stream.feed Y.System)
        (making_of L.WORD L.GREATEST Y.Stream.feed Y.Input.feed contents.entry handed)
        (wanted_of L.WORD L.GREATEST creation.entry)
        (state_of (Y.calls system.old) (Y.Names.calls names.old) output (E.contents errors.old))
        (state_of (Y.calls system.new) (Y.Names.calls names.new) output (E.contents errors.new))
        result.0 result.1) }
    ensures opens { OpensNoMore (Y.calls system.old) (Y.calls system.new) }
    ensures reason { IfErr result.1 (HasReason (left_reasons (machine_of Y.File.Store Y.Made.Store Y.Stream.feed Y.System
        Y.Names.File.RawFile) Y.Input.feed
        (calls_made (Y.calls system.old) (Y.Names.calls names.old))
        (calls_made (Y.calls system.new) (Y.Names.calls names.new)) result.0 ⊥)) }
    ensures output { OutputSays (E.failed errors.new) result.1 }
{
    if may_be_read(names, creation.name, creation) {
        return (contents.into_sources().into_left(None), Err(Fault::Open));
    }
    let store = match emptied::<Y>(system, creation.name) {
        Ok(store) => store,
        Err(fault) => return (contents.into_sources().into_left(None), Err(fault)),
    };
    let building = Building::<L, Y, E> {
        alloc,
        contents,
        errors: PhantomData,
    };
    let (mut store, sources, built) = building.build(store, errors);
    let flushed = synced(&mut store, built);
    let answer = kept::<Y>(system, creation.name, &store, flushed);
    (sources.into_left(Some(store)), answer)
}

/// Flushes the store of a database, unless building it failed. `Make(Writing)`: the flush failed.
fn synced<S: Store>(store: &mut S, built: Result<(), Fault>) -> Result<(), Fault>
    ensures { Syncs S.Store store.old store.new built result }
{
    built?;
    match store.flush() {
        Ok(()) => Ok(()),
        Err(_) => Err(Fault::Make(MakeFault::Writing)),
    }
}

/// Returns `Rename` if the name of a database that was made in place does not have the file in the
/// end, or the system did not say. An earlier fault stays.
fn kept<Y>(
    system: &mut Y,
    name: &str,
    store: &Y::Made,
    synced: Result<(), Fault>,
) -> Result<(), Fault>
where
    Y: System,
    ensures { SeesName name.now (Y.calls system.old) (Y.calls system.new) synced result }
{
    synced?;
    named(system.has_made(name, store))
}

/// Makes a database in a temporary file, which gets the database's name once it is whole.
///
/// If the temporary name refers to the base or to an input, or the system did not say whether it
/// does, nothing is removed and the call fails. Returns what was read, also if nothing was built.
#[inline(never)]
pub(crate) fn replace_database<L, Y, E>(
    alloc: Global,
    names: &mut Y::Names,
    temporary: &str,
    creation: Creation<'_>,
    contents: ContentsOf<'_, L, Y>,
    errors: &mut E,
) -> (SourcesOf<Y>, Result<(), Fault>)
where
    L: Width,
    Y: System,
    E: Sink,
    ensures replaces { (opened : OpenCalls) (output : Option (List ℕ))
        → MakesApart Y.File.Store Y.Names.File.RawFile (making_of L.WORD L.GREATEST
        Y.Stream.feed Y.Input.feed contents.entry result.0.inputs)
        temporary.now (wanted_of L.WORD L.GREATEST creation.entry)
        (state_of opened (Y.Names.calls names.old) output (E.contents errors.old))
        (state_of opened (Y.Names.calls names.new) output (E.contents errors.new))
        result.0.base result.1 }
    ensures placed { AreInPlace contents.entry.sources.inputs.readers.items
        result.0.inputs.readers.items }
    ensures reason { IfErr result.1 (HasReason (run_reasons Y.File.Store Y.Stream.feed Y.Input.feed
        result.0
        (HasFailedFile Y.Names.File.RawFile (Y.Names.calls names.old) (Y.Names.calls names.new))
        (HasRefusedName (Y.Names.calls names.old) (Y.Names.calls names.new)
        ⊎ IsNoName creation.entry.name.now ⊎ (temporary.now ≡ creation.entry.name.now)))) }
    ensures output { OutputSays (E.failed errors.new) result.1 }
{
    if may_be_read(names, temporary, creation) {
        return (contents.into_sources(), Err(Fault::Open));
    }
    let building = Building::<L, Y, E> {
        alloc,
        contents,
        errors: PhantomData,
    };
    let (sources, answer) = replace_file::<Y::Names, Building<'_, L, Y, E>>(
        names,
        creation.name,
        temporary,
        building,
        errors,
    );
    (sources, answer_to_program(answer))
}

/// Returns the program's answer for the answer of a replacement.
fn answer_to_program(answer: Result<(), ReplaceFault<Fault>>) -> Result<(), Fault>
    ensures { result ≡ answer_of answer }
{
    match answer {
        Ok(()) => Ok(()),
        Err(ReplaceFault::Open) => Err(Fault::Open),
        Err(ReplaceFault::NoMemory) => Err(Fault::NoMemory),
        Err(ReplaceFault::Write) => Err(Fault::Make(MakeFault::Writing)),
        Err(ReplaceFault::Rename) => Err(Fault::Rename),
        Err(ReplaceFault::Build(fault)) => Err(fault),
    }
}
