// The base and the inputs of a create, which are opened before anything is made.
ghost use Rattle.std.specs.Prelude.{◌≡◌, ◌↔◌, [], ◌∷◌, map, option_map, string_bytes, IfOk, IfErr, IsTrue};
ghost use Rattle.cdb_show.specs.Feed.{AreUnread};
ghost use Rattle.cdb_show.specs.Views.Output.{OutputSays};
ghost use Rattle.cdb_system.specs.Inputs.{IsStandard, OpensBase, MissesBase, OpensInput, OpensEach, OpensInputs, StopsOpening, MissesInput};

use crate::system::System;
use cdb_form::Feeds;
use cdb_show::{Fault, InputReader, Inputs};
use std::alloc::Global;

/// The word that means standard input on the command line.
pub const HYPHEN: &str = "-";

/// Returns true if a name means standard input.
pub fn is_standard(name: &str) -> bool
    ensures { IsTrue result ↔ IsStandard name.now }
{
    name == HYPHEN
}

/// Opens the base, if there is one.
pub fn open_base<Y: System>(system: &mut Y, name: &Option<String>) -> Result<Option<Y::File>, Fault>
    ensures ok { IfOk result (λ base. OpensBase Y.System (option_map string_bytes name.now) base
        (Y.calls system.old) (Y.calls system.new)) }
    ensures missed { IfErr result (MissesBase (option_map string_bytes name.now)
        (Y.calls system.old) (Y.calls system.new)) }
    ensures output { OutputSays ⊥ result }
{
    match name {
        Some(name) => Ok(Some(system.open_base(name.as_str())?)),
        None => Ok(None),
    }
}

/// Opens an input, unless it is standard input.
fn open_input<Y: System>(system: &mut Y, name: &str) -> Result<InputReader<Y::Stream>, Fault>
    ensures ok { IfOk result (λ reader. OpensInput Y.System name.now reader
        (Y.calls system.old) (Y.calls system.new)) }
    ensures unread { IfOk result (λ reader. AreUnread Y.Stream.feed (reader ∷ [])) }
    ensures missed { IfErr result (MissesInput name.now
        (Y.calls system.old) (Y.calls system.new)) }
{
    if is_standard(name) {
        return Ok(InputReader::Shared);
    }
    Ok(InputReader::Own(system.open(name)?))
}

/// Opens the inputs of these names.
fn open_each<Y: System>(
    alloc: Global,
    system: &mut Y,
    names: &[String],
) -> Result<Vec<InputReader<Y::Stream>>, Fault>
    ensures ok { IfOk result (λ readers. OpensEach Y.System (map string_bytes names.now)
        readers.items (Y.calls system.old) (Y.calls system.new)) }
    ensures unread { IfOk result (λ readers. AreUnread Y.Stream.feed readers.items) }
    ensures stops { IfErr result (StopsOpening Y.System (map string_bytes names.now)
        (Y.calls system.old) (Y.calls system.new)) }
{
    let mut readers = Vec::new(alloc);
    for name in names {
        let reader = open_input::<Y>(system, name.as_str())?;
        readers.push(reader)?;
    }
    Ok(readers)
}

/// Opens the inputs of these names, where `-` is standard input. Without names standard input is
/// the only input.
pub fn open_inputs<Y: System>(
    alloc: Global,
    system: &mut Y,
    names: &[String],
    input: Y::Input,
) -> Result<Inputs<Y::Stream, Y::Input>, Fault>
    ensures ok { IfOk result (λ i. OpensInputs Y.System (map string_bytes names.now)
        i.readers.items (Y.calls system.old) (Y.calls system.new)) }
    ensures unread { IfOk result (λ i. AreUnread Y.Stream.feed i.readers.items) }
    ensures shared { IfOk result (λ i. i.shared ≡ input) }
    ensures stops { IfErr result (StopsOpening Y.System (map string_bytes names.now)
        (Y.calls system.old) (Y.calls system.new)) }
    ensures output { OutputSays ⊥ result }
{
    let mut readers = open_each::<Y>(alloc, system, names)?;
    if names.is_empty() {
        readers.push(InputReader::Shared)?;
    }
    Ok(Inputs {
        readers,
        shared: input,
    })
}
