// The program: the command of its words, and its exit status.
ghost use Rattle.std.specs.Prelude.{◌≡◌, ◌⊎◌, Err, map, string_bytes, true};
ghost use Rattle.cdb_show.specs.Command.{asked_in, has_wide_words, IsInRange};
ghost use Rattle.cdb_show.specs.Views.Output.{output_bytes, HasHandedOn, OutputFailed, OutputSays, writer_bytes};
ghost use Rattle.cdb_system.specs.Causes.{more_of, Explains, called_of};
ghost use Rattle.cdb.specs.Handing.{machine_of};
ghost use Rattle.cdb.specs.Performs.{Does, HandsOn, IsUntouched};
ghost use Rattle.cdb.specs.Running.{Answers, IsRun, given_by, world_of};
ghost use Rattle.cdb_system.specs.State.{given_of, standard_of, state_of};

use crate::performing::perform_in;
use crate::streams::Streams;
use cdb_form::{Feeds, Narrow, Sink, Wide};
use cdb_names::Names;
use cdb_system::{LeftOf, Performed, Reason, Request, System, none_left, reason_of, refuse, tell};
use cdb_tool::{Command, DONE, Fault, Lines, Output, explains, plan_explained, status_of};
use std::alloc::Global;
use std::io::Write;

/// Does what the words request; the first word is the program's name. Returns what it leaves open,
/// and the exit status. A fault has its line on `errors`, unless that fails.
pub(crate) fn run<Y, O, E>(
    alloc: Global,
    system: &mut Y,
    names: &mut Y::Names,
    words: Vec<String>,
    input: Y::Input,
    streams: &mut Streams<Output<O>, Output<E>>,
) -> (LeftOf<Y>, u8)
where
    Y: System,
    O: Write,
    E: Write,
    ensures { IsRun (machine_of Y.File.Store Y.Made.Store Y.Stream.feed Y.System
        Y.Names.File.RawFile)
        (given_by (map string_bytes words.items) (standard_of Y.Input.feed input))
        (world_of system.old (Y.Names.calls names.old) (Y.Names.lacks names.old) streams.old)
        (world_of system.new (Y.Names.calls names.new) (Y.Names.lacks names.new) streams.new)
        result.0 result.1 }
{
    let (left, status) = answer::<Y, O, E>(alloc, system, names, words, input, streams);
    let _ = streams.errors.flush_whole();
    (left, status)
}

/// Does what the words request. Returns what it leaves open, and the exit status. The lines about a
/// fault stay in the buffer of `errors`.
fn answer<Y, O, E>(
    alloc: Global,
    system: &mut Y,
    names: &mut Y::Names,
    words: Vec<String>,
    input: Y::Input,
    streams: &mut Streams<Output<O>, Output<E>>,
) -> (LeftOf<Y>, u8)
where
    Y: System,
    O: Write,
    E: Write,
    ensures { Answers (machine_of Y.File.Store Y.Made.Store Y.Stream.feed Y.System
        Y.Names.File.RawFile)
        (given_by (map string_bytes words.items) (standard_of Y.Input.feed input))
        (world_of system.old (Y.Names.calls names.old) (Y.Names.lacks names.old) streams.old)
        (world_of system.new (Y.Names.calls names.new) (Y.Names.lacks names.new) streams.new)
        result.0 result.1 }
{
    let is_explained = explains(words.as_slice());
    let command = match plan_explained(alloc, words.as_slice()) {
        Ok(command) => command,
        Err(fault) => return (
            none_left(),
            refuse(&fault, is_explained, &mut streams.errors),
        ),
    };
    let lines = Lines::new(is_explained);
    let request = Request {
        command: &command,
        lines: &lines,
    };
    let (left, performed) = perform::<Y, O, Output<E>>(
        alloc, system, names, request, input, streams,
    );
    match performed {
        Ok(()) => (left, DONE),
        Err(fault) => {
            let unwritten = streams.output.has_failed();
            let reason = cause_of::<Y>(request, &fault, system, names, &left, unwritten);
            tell(&fault, &reason, &mut streams.errors);
            (left, status_of(&command, &fault))
        }
    }
}

/// Returns the file of a fault and the reason, if they are requested and known. `unwritten` says
/// that standard output failed.
#[cold]
#[inline(never)]
fn cause_of<'a, Y>(
    request: Request<'a>,
    fault: &Fault,
    system: &'a Y,
    names: &'a Y::Names,
    left: &LeftOf<Y>,
    unwritten: bool,
) -> Option<Reason<'a>>
where
    Y: System,
    ensures { Explains request.entry.lines.now.counts (asked_in request.entry.command.now)
        (Err fault.now) (unwritten ≡ true)
        (called_of (Y.calls system.now) (Y.lacks system.now) (Y.Names.calls names.now)
        (Y.Names.lacks names.now)) (more_of result) }
{
    if !request.lines.counts {
        return None;
    }
    reason_of::<Y>(request, fault, system, names, left, unwritten)
}

/// Performs a command, in its width. If lines are counted, duplicates are explained.
fn perform<Y, O, E>(
    alloc: Global,
    system: &mut Y,
    names: &mut Y::Names,
    request: Request<'_>,
    input: Y::Input,
    streams: &mut Streams<Output<O>, E>,
) -> Performed<Y>
where
    Y: System,
    O: Write,
    E: Sink,
    requires { IsInRange (asked_in request.command.now) }
    ensures does { Does (machine_of Y.File.Store Y.Made.Store Y.Stream.feed Y.System
        Y.Names.File.RawFile) (given_of (asked_in request.entry.command.now)
        request.entry.lines.now.counts (standard_of Y.Input.feed input))
        (state_of system.old (Y.Names.calls names.old) (output_bytes streams.old.output)
        (E.contents streams.old.errors))
        (state_of system.new (Y.Names.calls names.new) (writer_bytes streams.new.output)
        (E.contents streams.new.errors)) result.0 (OutputFailed streams.new.output) result.1 }
    ensures silent { IsUntouched (asked_in request.entry.command.now)
        (E.contents streams.old.errors) (E.contents streams.new.errors) }
    ensures same { IsUntouched (asked_in request.entry.command.now)
        (Y.Names.calls names.old) (Y.Names.calls names.new) }
    ensures handed { HasHandedOn streams.new.output }
    ensures output { OutputSays (OutputFailed streams.new.output ⊎ E.failed streams.new.errors)
        result.1 }
{
    let performed = if is_wide(request.command) {
        perform_in::<Wide, Y, Output<O>, E>(alloc, system, names, request, input, streams)
    } else {
        perform_in::<Narrow, Y, Output<O>, E>(alloc, system, names, request, input, streams)
    };
    let (left, answer) = performed;
    (left, handed_on(&mut streams.output, answer))
}

/// Forwards what the output of a command still holds, after a fault too. A flush that fails is
/// `Output` after Ok, and after `Missing` too, since all values that were found are to be written
/// then.
fn handed_on<O: Write>(output: &mut Output<O>, answer: Result<(), Fault>) -> Result<(), Fault>
    ensures hands { HandsOn (output_bytes output.old) (writer_bytes output.new)
        (OutputFailed output.new) answer result }
    ensures handed { HasHandedOn output.new }
    ensures stays { OutputFailed output.old → OutputFailed output.new }
{
    match (answer, output.flush_whole()) {
        (answer, Ok(())) => answer,
        (Ok(()), Err(_)) => Err(Fault::Output),
        (Err(Fault::Missing), Err(_)) => Err(Fault::Output),
        (Err(fault), Err(_)) => Err(fault),
    }
}

/// Returns true if a command is about words of 8 bytes.
fn is_wide(command: &Command) -> bool
    ensures { result ≡ has_wide_words (asked_in command.now) }
{
    match *command {
        Command::Query { wide, .. }
        | Command::Lookups { wide, .. }
        | Command::Dump { wide, .. }
        | Command::List { wide, .. }
        | Command::Stats { wide, .. }
        | Command::Check { wide, .. }
        | Command::Difference { wide, .. }
        | Command::Create { wide, .. } => wide,
        Command::Help | Command::Version => false,
    }
}
