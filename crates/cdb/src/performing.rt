// Each command, with words of one width.
ghost use Rattle.cdb_show.specs.Views.Output.{OutputSays};
ghost use Rattle.cdb_show.specs.Command.{asked_in, FitsIn, usage_text, version_text};
ghost use Rattle.cdb_form.specs.Format.{head_size};
ghost use Rattle.std.specs.Prelude.{◌⊎◌, ◌≡◌, ℕ, List, Option, OnErr, IfErr, map, string_bytes};
ghost use Rattle.cdb_form.specs.Views.KnownBytes.{Writes};
ghost use Rattle.cdb.specs.Handing.{machine_of};
ghost use Rattle.cdb.specs.Performs.{IsShown, IsUntouched, Performs};
ghost use Rattle.cdb.specs.Reasons.{CanHaveNoFile, HasReason, IfCreate, calls_made, left_reasons};
ghost use Rattle.cdb_system.specs.Reading.{Tells};
ghost use Rattle.cdb_system.specs.State.{standard_of, state_of};

use crate::creating::{Creation, create};
use crate::streams::Streams;
use cdb_form::{Feeds, OutFault, Sink, Width};
use cdb_names::Names;
use cdb_system::{
    FileText, KeyLookups, Performed, Request, System, check, difference, lookups, none_left, query,
    stats, text,
};
use cdb_tool::{
    Command, Content, Fault, Lines, LookupOptions, MakeOptions, RunContext, RunOptions, flushed,
    write_usage, write_version,
};
use std::alloc::Global;

/// Flushes an output after a text, or a prefix of it, was written.
fn told<O: Sink>(output: &mut O, written: Result<(), OutFault>) -> Result<(), Fault>
    ensures tells { (text : List ℕ) → (start : Option (List ℕ))
        → Writes written start (O.contents output.old) text
        → Tells text start (O.contents output.new) result }
    ensures output { OnErr written (O.failed output.old) → OutputSays (O.failed output.new) result }
{
    flushed(output, written.map_err(Fault::from))
}

/// Writes the usage text.
fn help<O: Sink>(output: &mut O) -> Result<(), Fault>
    ensures tells { Tells usage_text (O.contents output.old) (O.contents output.new) result }
    ensures output { OutputSays (O.failed output.new) result }
{
    let written = write_usage(output);
    told(output, written)
}

/// Writes the version of the program.
fn version<O: Sink>(output: &mut O) -> Result<(), Fault>
    ensures tells { Tells version_text (O.contents output.old) (O.contents output.new) result }
    ensures output { OutputSays (O.failed output.new) result }
{
    let written = write_version(output);
    told(output, written)
}

/// The options of a run that creates, with the names of its inputs if duplicates are to be
/// explained.
fn shown_options<'a>(lines: &Lines, inputs: &'a [String], options: MakeOptions) -> RunOptions<'a>
    ensures shown { IsShown lines.now.counts (map string_bytes inputs.entry.now) options result }
    ensures limit { result.make.limit ≡ options.limit }
{
    RunOptions {
        make: options,
        names: if lines.counts { Some(inputs) } else { None },
    }
}

/// Performs a command, with words as wide as `L` says, and returns what it leaves open. If lines
/// are counted, duplicates are explained.
pub(crate) fn perform_in<L, Y, O, E>(
    alloc: Global,
    system: &mut Y,
    names: &mut Y::Names,
    request: Request<'_>,
    input: Y::Input,
    streams: &mut Streams<O, E>,
) -> Performed<Y>
where
    L: Width,
    Y: System,
    O: Sink,
    E: Sink,
    requires { FitsIn (head_size L.WORD) L.GREATEST (asked_in request.command.now) }
    ensures performs { Performs L.WORD L.GREATEST
        (machine_of Y.File.Store Y.Made.Store Y.Stream.feed Y.System
        Y.Names.File.RawFile)
        request.entry.lines.now.counts (asked_in request.entry.command.now)
        (standard_of Y.Input.feed input)
        (state_of system.old (Y.Names.calls names.old) (O.contents streams.old.output)
        (E.contents streams.old.errors))
        (state_of system.new (Y.Names.calls names.new) (O.contents streams.new.output)
        (E.contents streams.new.errors)) result.0 result.1 }
    ensures reason { IfCreate (asked_in request.entry.command.now) (IfErr result.1 (HasReason
        (left_reasons (machine_of Y.File.Store Y.Made.Store Y.Stream.feed Y.System
        Y.Names.File.RawFile) Y.Input.feed
        (calls_made (Y.calls system.old) (Y.Names.calls names.old))
        (calls_made (Y.calls system.new) (Y.Names.calls names.new)) result.0
        (CanHaveNoFile (asked_in request.entry.command.now))))) }
    ensures silent { IsUntouched (asked_in request.entry.command.now)
        (E.contents streams.old.errors) (E.contents streams.new.errors) }
    ensures same { IsUntouched (asked_in request.entry.command.now)
        (Y.Names.calls names.old) (Y.Names.calls names.new) }
    ensures output { OutputSays (O.failed streams.new.output ⊎ E.failed streams.new.errors)
        result.1 }
{
    match request.command {
        Command::Query {
            name,
            key,
            number,
            lines,
            ..
        } => query::<L, Y, O>(
            system,
            name.as_str(),
            key.as_str(),
            *number,
            *lines,
            &mut streams.output,
        ),
        Command::Lookups {
            name,
            inputs,
            number,
            style,
            ..
        } => {
            let (number, style) = (*number, *style);
            let wanted = KeyLookups {
                name: name.as_str(),
                inputs: inputs.as_slice(),
                options: LookupOptions { number, style },
                lines: request.lines,
            };
            lookups::<L, Y, O>(alloc, system, wanted, input, &mut streams.output)
        }
        Command::Dump { name, style, .. } => {
            let (content, style) = (Content::Records, *style);
            let wanted = FileText {
                content,
                name,
                style,
            };
            text::<L, Y, O>(alloc, system, wanted, input, &mut streams.output)
        }
        Command::List { name, style, .. } => {
            let (content, style) = (Content::Keys, *style);
            let wanted = FileText {
                content,
                name,
                style,
            };
            text::<L, Y, O>(alloc, system, wanted, input, &mut streams.output)
        }
        Command::Stats { name, .. } => {
            stats::<L, Y, O>(alloc, system, name, input, &mut streams.output)
        }
        Command::Check { name, .. } => check::<L, Y>(alloc, system, name, input),
        Command::Difference { old, new, .. } => difference::<L, Y, O>(
            alloc,
            system,
            old.as_str(),
            new.as_str(),
            &mut streams.output,
        ),
        Command::Create {
            name,
            base,
            inputs,
            temporary,
            options,
            ..
        } => {
            let creation = Creation {
                name: name.as_str(),
                base,
                inputs: inputs.as_slice(),
                temporary,
                run: RunContext {
                    options: shown_options(request.lines, inputs.as_slice(), *options),
                    lines: request.lines,
                },
            };
            create::<L, Y, O, E>(alloc, system, names, creation, input, streams)
        }
        Command::Help => (none_left(), help(&mut streams.output)),
        Command::Version => (none_left(), version(&mut streams.output)),
    }
}
