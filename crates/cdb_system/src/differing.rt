// The command that compares two files.
ghost use Rattle.std.specs.Prelude.{List, ℕ, Option};
ghost use Rattle.cdb_show.specs.Views.Output.{OutputSays};
ghost use Rattle.cdb_names.specs.Folder.{NameCalls};
ghost use Rattle.cdb_system.specs.State.{files_of, state_of};
ghost use Rattle.cdb_system.specs.Reading.{PerformsDifference};

use crate::left::{Performed, both_left, none_left, read_left};
use crate::system::System;
use cdb_form::{Sink, Width};
use cdb_show::{Fault, difference_run};
use std::alloc::Global;

/// Writes what changed between the databases of two names, as a text that amends the old one. Both
/// are opened before anything is written.
#[inline(never)]
pub fn difference<L, Y, O>(
    alloc: Global,
    system: &mut Y,
    old: &str,
    new: &str,
    output: &mut O,
) -> Performed<Y>
where
    L: Width,
    Y: System,
    O: Sink,
    ensures performs { (named : NameCalls) (errors : Option (List ℕ)) → PerformsDifference
        (files_of Y.File.Store Y.Made.Store Y.Stream.feed Y.System)
        (record { word = L.WORD; first = old.now; second = new.now })
        (state_of system.old named (O.contents output.old) errors)
        (state_of system.new named (O.contents output.new) errors) result.0 result.1 }
    ensures output { OutputSays (O.failed output.new) result.1 }
{
    let first = match system.open_store(old) {
        Ok(file) => file,
        Err(fault) => return (none_left(), Err(fault)),
    };
    let second = match system.open_store(new) {
        Ok(file) => file,
        Err(fault) => return (read_left(first), Err(fault)),
    };
    let (first, second, answer) = difference_run::<L, Y::File, Y::File, O>(
        alloc, first, second, output,
    );
    (both_left(first, second), answer)
}
