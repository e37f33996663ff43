// The line that names the file of a fault, and the reason.
ghost use Rattle.std.specs.Prelude.{◌≡◌, ◌++◌, ◌∷◌, [], OnErr, length, nat_lt, unwrap_or};
ghost use Rattle.cdb_command.specs.Refused.{parts_line};
ghost use Rattle.cdb_form.specs.Views.KnownBytes.{Writes};
ghost use Rattle.cdb_system.specs.Causes.{between, cause_line, name_ending, reason_name, said_of};

use crate::causes::{Reason, Told};
use crate::system_words::system_words;
use cdb_form::{OutFault, Sink};
use cdb_show::write_line;
use itoa::Buffer;

/// Returns the words about a file, in two parts.
fn said_parts(told: Told, digits: &mut Buffer) -> (&'static str, &str)
    ensures { result.0.now ++ result.1.now ≡ unwrap_or (said_of told) [] }
{
    match told {
        Told::Name => ("", ""),
        Told::Words(words) => ("", words),
        Told::Error(number) => match system_words(number) {
            Some(words) => ("", words),
            None => ("error ", digits.format(number)),
        },
        Told::Line(number) => ("line ", digits.format(number)),
    }
}

/// Returns true if a reason's file has a name that is not empty.
fn is_named(reason: &Reason<'_>) -> bool
    ensures { result ≡ nat_lt 0 (length (reason_name reason.now)) }
{
    reason.is_temporary || !reason.name.is_empty()
}

/// Returns the text between the name of a reason's file and the words about it.
fn between(reason: &Reason<'_>) -> &'static [u8]
    ensures { result.now ≡ between (reason_name reason.now) (said_of reason.now.told) }
{
    match reason.told {
        Told::Name => b"",
        Told::Words(_) | Told::Error(_) | Told::Line(_) => {
            if is_named(reason) { b": " } else { b"" }
        }
    }
}

/// Returns the ending of the name of a reason's file.
fn ending(reason: &Reason<'_>) -> &'static [u8]
    ensures { result.now ≡ name_ending reason.now }
{
    if reason.is_temporary { b".tmp" } else { b"" }
}

/// Writes the line of a name with its ending, and of the words about it in two parts.
fn write_said<'x, E: Sink>(
    name: &'x [u8],
    ending: &'x [u8],
    between: &'x [u8],
    what: &'x [u8],
    words: &'x [u8],
    errors: &mut E,
) -> Result<(), OutFault>
    ensures writes { Writes result (E.contents errors.old) (E.contents errors.new)
        (parts_line (([], name.entry.now) ∷ ([], ending.entry.now) ∷ (between.entry.now, [])
        ∷ (what.entry.now, []) ∷ (words.entry.now, []) ∷ [])) }
    ensures failed { OnErr result (E.failed errors.new) }
    ensures stays { E.failed errors.old → E.failed errors.new }
{
    write_line(
        &[
            (b"", name),
            (b"", ending),
            (between, b""),
            (what, b""),
            (words, b""),
        ],
        errors,
    )
}

/// Writes the line of a reason, with its newline.
pub(crate) fn write_reason<E: Sink>(reason: &Reason<'_>, errors: &mut E) -> Result<(), OutFault>
    ensures writes { Writes result (E.contents errors.old) (E.contents errors.new)
        (cause_line (reason_name reason.now) (said_of reason.now.told)) }
    ensures failed { OnErr result (E.failed errors.new) }
    ensures stays { E.failed errors.old → E.failed errors.new }
{
    let mut digits = Buffer::new();
    let (what, words) = said_parts(reason.told, &mut digits);
    write_said(
        reason.name.as_bytes(),
        ending(reason),
        between(reason),
        what.as_bytes(),
        words.as_bytes(),
        errors,
    )
}
