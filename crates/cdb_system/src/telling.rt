// The lines on standard error.
ghost use Rattle.std.specs.Prelude.{◌≡◌, ◌++◌, OnErr};
ghost use Rattle.cdb_form.specs.Views.KnownBytes.{Writes};
ghost use Rattle.cdb_show.specs.Command.{refused_in, usage_of};
ghost use Rattle.cdb_show.specs.Message.{fault_line};
ghost use Rattle.cdb_show.specs.Views.Output.{output_bytes, OutputFailed};
ghost use Rattle.cdb_system.specs.Causes.{more_of};
ghost use Rattle.cdb_system.specs.Telling.{SaysLine, refused_lines, usage_line, usage_status};

use crate::causes::Reason;
use crate::explaining::write_reason;
use cdb_command::{Usage, WordFault};
use cdb_form::{OutFault, Sink, write_pieces};
use cdb_show::{BAD_USAGE, FAILED, Fault, Output, write_fault, write_word_fault};
use std::io::Write;

/// Writes the line of a reason, if there is one.
fn write_more<E: Write>(reason: &Option<Reason<'_>>, errors: &mut Output<E>) -> Result<(), OutFault>
    ensures writes { Writes result (output_bytes errors.old)
        (output_bytes errors.new) (more_of reason.now) }
    ensures failed { OnErr result (OutputFailed errors.new) }
    ensures stays { OutputFailed errors.old → OutputFailed errors.new }
{
    match reason {
        Some(reason) => write_reason(reason, errors),
        None => Ok(()),
    }
}

/// Writes the line of a fault, and then the line of its reason.
fn write_told<E: Write>(
    fault: &Fault,
    reason: &Option<Reason<'_>>,
    errors: &mut Output<E>,
) -> Result<(), OutFault>
    ensures writes { Writes result (output_bytes errors.old)
        (output_bytes errors.new) (fault_line fault.now ++ more_of reason.now) }
    ensures failed { OnErr result (OutputFailed errors.new) }
    ensures stays { OutputFailed errors.old → OutputFailed errors.new }
{
    write_fault(fault, errors)?;
    write_more(reason, errors)
}

/// Writes the line of a fault, and the line of its reason if one is given, unless `errors` fails.
#[cold]
#[inline(never)]
pub fn tell<E: Write>(fault: &Fault, reason: &Option<Reason<'_>>, errors: &mut Output<E>)
    ensures says { SaysLine (fault_line fault.now ++ more_of reason.now)
        (output_bytes errors.old) (output_bytes errors.new)
        (OutputFailed errors.new) }
    ensures stays { OutputFailed errors.old → OutputFailed errors.new }
{
    let _ = write_told(fault, reason, errors);
}

/// The exit status of words that request nothing.
fn refused_status(usage: &Usage) -> u8
    ensures { result ≡ usage_status usage.now }
{
    match usage {
        Usage::NoMemory => FAILED,
        _ => BAD_USAGE,
    }
}

/// Writes why the words request nothing, and, with `explains`, which word or letters are the cause.
fn write_refused<E: Write>(
    fault: &WordFault<'_>,
    explains: bool,
    errors: &mut Output<E>,
) -> Result<(), OutFault>
    ensures writes { Writes result (output_bytes errors.old)
        (output_bytes errors.new) (refused_lines explains (refused_in fault.now)) }
    ensures failed { OnErr result (OutputFailed errors.new) }
{
    write_pieces(
        errors,
        &[b"cdb: ", fault.usage().message().as_bytes(), b"\n"],
    )?;
    if explains {
        write_word_fault(fault, errors)?;
    }
    Ok(())
}

/// Writes why the words request nothing, unless `errors` fails, and returns the exit status.
#[cold]
#[inline(never)]
pub fn refuse<E: Write>(fault: &WordFault<'_>, explains: bool, errors: &mut Output<E>) -> u8
    ensures line { SaysLine (refused_lines explains (refused_in fault.now))
        (output_bytes errors.old) (output_bytes errors.new)
        (OutputFailed errors.new) }
    ensures status { result ≡ usage_status (usage_of (refused_in fault.now)) }
{
    let _ = write_refused(fault, explains, errors);
    refused_status(&fault.usage())
}

/// Writes why the program cannot begin, without a buffer, as far as `errors` takes it. Returns the
/// exit status, and Ok if `errors` took the line.
pub fn refuse_unbuffered<E: Sink>(usage: &Usage, errors: &mut E) -> (u8, Result<(), OutFault>)
    ensures line { Writes result.1 (E.contents errors.old) (E.contents errors.new)
        (usage_line usage.now) }
    ensures failed { OnErr result.1 (E.failed errors.new) }
    ensures status { result.0 ≡ usage_status usage.now }
{
    let written = write_pieces(errors, &[b"cdb: ", usage.message().as_bytes(), b"\n"]);
    (refused_status(usage), written)
}
