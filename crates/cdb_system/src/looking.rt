// The command that looks up the keys that inputs give.
ghost use Rattle.std.specs.Prelude.{◌≤◌, IfSome, List, ℕ, Option};
ghost use Rattle.cdb_show.specs.Views.Output.{OutputSays};
ghost use Rattle.cdb_names.specs.Folder.{NameCalls};
ghost use Rattle.cdb_system.specs.State.{files_of, standard_of, state_of, wanted_lookups};
ghost use Rattle.cdb_system.specs.Reading.{PerformsLookups};

use crate::inputs::open_inputs;
use crate::left::{Performed, looked_left, none_left, read_left};
use crate::system::System;
use cdb_form::{Feeds, Sink, Width};
use cdb_show::{Fault, Lines, LookupOptions, lookups_run};
use std::alloc::Global;

/// The look-ups that are wanted.
#[derive(Clone, Copy)]
pub struct KeyLookups<'a> {
    /// The name of the database.
    pub name: &'a str,
    /// The names of the inputs that give the keys. Without any, standard input is read.
    pub inputs: &'a [String],
    /// The choice of values that are looked up for each key, and the form of the texts.
    pub options: LookupOptions,
    /// The lines of the inputs.
    pub lines: &'a Lines,
}

/// Writes the records of the keys of some inputs, whose values are counted from 1. The database is
/// opened first, and then all inputs, before anything is written. Returns what was read, and the
/// answer.
#[inline(never)]
pub fn lookups<L, Y, O>(
    alloc: Global,
    system: &mut Y,
    wanted: KeyLookups<'_>,
    input: Y::Input,
    output: &mut O,
) -> Performed<Y>
where
    L: Width,
    Y: System,
    O: Sink,
    requires { IfSome wanted.options.number (λ n. 1 ≤ n) }
    ensures performs { (named : NameCalls) (errors : Option (List ℕ)) → PerformsLookups
        (files_of Y.File.Store Y.Made.Store Y.Stream.feed Y.System)
        (wanted_lookups L.WORD L.GREATEST wanted.entry) (standard_of Y.Input.feed input)
        (state_of system.old named (O.contents output.old) errors)
        (state_of system.new named (O.contents output.new) errors) result.0 result.1 }
    ensures output { OutputSays (O.failed output.new) result.1 }
{
    let store = match system.open_store(wanted.name) {
        Ok(store) => store,
        Err(fault) => return (none_left(), Err(fault)),
    };
    system.keep_apart();
    match open_inputs::<Y>(alloc, system, wanted.inputs, input) {
        Ok(inputs) => {
            let (store, inputs, answer) = lookups_run::<L, Y::File, Y::Stream, Y::Input, O>(
                alloc,
                store,
                inputs,
                wanted.options,
                wanted.lines,
                output,
            );
            (looked_left(store, inputs), answer)
        }
        Err(fault) => (read_left(store), Err(fault)),
    }
}
