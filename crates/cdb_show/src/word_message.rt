// The messages about words of a command line that have no meaning.
ghost use Rattle.std.specs.Prelude.{◌≡◌, OnErr, [], ◌∷◌, codes, encode_utf8};
ghost use Rattle.cdb_command.specs.Refused.{parts_line, refused_in, refused_line, said_lacking};
ghost use Rattle.cdb_form.specs.Views.KnownBytes.{Writes};

use crate::shown::write_line;
use cdb_command::{Lacking, WordFault};
use cdb_form::{OutFault, Sink};

/// Returns the words that say which name is missing.
fn said_lacking(lacking: Lacking) -> &'static str
    ensures { result.now ≡ said_lacking lacking }
{
    match lacking {
        Lacking::Database => "no database",
        Lacking::Key => "no key",
        Lacking::Old => "no old database",
        Lacking::New => "no new database",
    }
}

/// Writes the line of one text.
fn write_text<E: Sink>(text: &str, errors: &mut E) -> Result<(), OutFault>
    ensures writes { Writes result (E.contents errors.old)
        (E.contents errors.new) (parts_line ((text.now, []) ∷ [])) }
    ensures failed { OnErr result (E.failed errors.new) }
{
    write_line(&[(text.as_bytes(), b"")], errors)
}

/// Writes the line of two parts.
fn write_two<'x, E: Sink>(
    first: (&'x [u8], &'x [u8]),
    second: (&'x [u8], &'x [u8]),
    errors: &mut E,
) -> Result<(), OutFault>
    ensures writes { Writes result (E.contents errors.old)
        (E.contents errors.new)
        (parts_line ((first.entry.0.now, first.entry.1.now)
        ∷ (second.entry.0.now, second.entry.1.now) ∷ [])) }
    ensures failed { OnErr result (E.failed errors.new) }
{
    write_line(&[first, second], errors)
}

/// Writes the line of bytes between two texts.
fn write_between<E: Sink>(
    before: &str,
    bytes: &str,
    after: &str,
    errors: &mut E,
) -> Result<(), OutFault>
    ensures writes { Writes result (E.contents errors.old)
        (E.contents errors.new)
        (parts_line ((before.now, bytes.now) ∷ (after.now, []) ∷ [])) }
    ensures failed { OnErr result (E.failed errors.new) }
{
    let first = (before.as_bytes(), bytes.as_bytes());
    write_two(first, (after.as_bytes(), b""), errors)
}

/// Writes the line of two letters, each after a text.
fn write_letters<E: Sink>(
    before: &str,
    first: char,
    between: &str,
    second: char,
    errors: &mut E,
) -> Result<(), OutFault>
    ensures writes { Writes result (E.contents errors.old)
        (E.contents errors.new)
        (parts_line ((before.now, encode_utf8 first) ∷ (between.now, encode_utf8 second) ∷ [])) }
    ensures failed { OnErr result (E.failed errors.new) }
{
    let (mut one, mut other) = ([0; 4], [0; 4]);
    let first = first.encode_utf8(&mut one).as_bytes();
    let second = second.encode_utf8(&mut other).as_bytes();
    write_two(
        (before.as_bytes(), first),
        (between.as_bytes(), second),
        errors,
    )
}

/// Writes the line of a letter before a text.
fn write_letter<E: Sink>(letter: char, after: &str, errors: &mut E) -> Result<(), OutFault>
    ensures writes { Writes result (E.contents errors.old)
        (E.contents errors.new)
        (parts_line ((codes "-", encode_utf8 letter) ∷ (after.now, []) ∷ [])) }
    ensures failed { OnErr result (E.failed errors.new) }
{
    let mut bytes = [0; 4];
    write_between("-", letter.encode_utf8(&mut bytes), after, errors)
}

/// Writes the line that says which word or letters of a command line have no meaning, and why, with
/// its newline. `NoMemory` has no line. After an `OutFault` the output took a prefix of it, and has
/// failed. The output is not flushed.
pub fn write_word_fault<E: Sink>(fault: &WordFault<'_>, errors: &mut E) -> Result<(), OutFault>
    ensures writes { Writes result (E.contents errors.old)
        (E.contents errors.new) (refused_line (refused_in fault.now)) }
    ensures failed { OnErr result (E.failed errors.new) }
{
    match *fault {
        WordFault::Unknown(letter) => write_letter(letter, ": unknown letter", errors),
        WordFault::Long(word) => write_between("", word, ": unknown option", errors),
        WordFault::NoValue(letter) => write_letter(letter, ": no value", errors),
        WordFault::Twice(letter) => write_letter(letter, ": given twice", errors),
        WordFault::Words => write_text("a word has no meaning", errors),
        WordFault::Help => write_text("no command", errors),
        WordFault::NoCommand => write_text("no command", errors),
        WordFault::TwoCommands(one, other) => {
            write_letters("two commands: -", one, " and -", other, errors)
        }
        WordFault::Option(option, command) => {
            write_letters("-", option, ": not with -", command, errors)
        }
        WordFault::BaseInPlace => write_text("-b: not with -t -", errors),
        WordFault::BaseBuiltIn(base) => {
            write_between("-b ", base, ": is the temporary file", errors)
        }
        WordFault::Number(value) => {
            write_between("-n ", value, ": not from 1 to 4294967295", errors)
        }
        WordFault::Lacks(lacking) => write_text(said_lacking(lacking), errors),
        WordFault::Surplus(name) => write_between("", name, ": one name too many", errors),
        WordFault::Both => write_text("-r: not with -u", errors),
        WordFault::NoMemory => Ok(()),
    }
}
