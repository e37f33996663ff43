// The lines of a duplicate.
ghost use Rattle.std.specs.Prelude.{OnErr, ◌≡◌, [], ◌∷◌, codes, take};
ghost use Rattle.cdb_command.specs.Refused.{parts_line};
ghost use Rattle.cdb_form.specs.Views.KnownBytes.{Writes};
ghost use Rattle.cdb_show.specs.Message.{after_key, duplicate_lines, key_line};

use crate::input_name::input_at;
use crate::message::write_duplicate;
use crate::shown::write_line;
use cdb_form::{OutFault, Sink};
use itoa::Buffer;

/// The number of bytes of a key that are shown.
const SHOWN: usize = 256;

/// Returns the part of a key that is shown: its first `SHOWN` bytes.
fn shown_part(key: &[u8]) -> &[u8]
    ensures { result.now ≡ take 256 key.now }
{
    if SHOWN < key.len() {
        &key[..SHOWN]
    } else {
        key
    }
}

/// Returns the text after the shown part of a key: `...` if the key is longer.
fn after_key(key: &[u8]) -> &'static [u8]
    ensures { result.now ≡ after_key key.now }
{
    if SHOWN < key.len() { b"..." } else { b"" }
}

/// Writes the line of a name, of a line, and of a key with what follows it.
fn write_four<'x, E: Sink>(
    name: &'x [u8],
    line: &'x [u8],
    key: &'x [u8],
    end: &'x [u8],
    errors: &mut E,
) -> Result<(), OutFault>
    ensures writes { Writes result (E.contents errors.old) (E.contents errors.new)
        (parts_line (([], name.entry.now) ∷ (codes ": line ", line.entry.now) ∷ (codes ": key ", key.entry.now)
        ∷ (end.entry.now, []) ∷ [])) }
    ensures failed { OnErr result (E.failed errors.new) }
{
    write_line(
        &[
            (b"", name),
            (b": line ", line),
            (b": key ", key),
            (end, b""),
        ],
        errors,
    )
}

/// Writes the line that explains a duplicate, whose record begins at this line of its input.
fn write_key<E: Sink>(name: &str, line: u64, key: &[u8], errors: &mut E) -> Result<(), OutFault>
    ensures writes { Writes result (E.contents errors.old) (E.contents errors.new)
        (key_line name.now line key.now) }
    ensures failed { OnErr result (E.failed errors.new) }
{
    let mut digits = Buffer::new();
    let line = digits.format(line).as_bytes();
    write_four(
        name.as_bytes(),
        line,
        shown_part(key),
        after_key(key),
        errors,
    )
}

/// Writes the line of a record whose key was there already. If the names of the inputs are given, a
/// second line explains it, with the line at which the record begins in its input. After an
/// `OutFault` the writer holds a prefix of these lines.
#[cold]
#[inline(never)]
pub fn write_duplicates<E: Sink>(
    names: Option<&[String]>,
    input: u64,
    number: u64,
    line: u64,
    key: &[u8],
    errors: &mut E,
) -> Result<(), OutFault>
    ensures writes { Writes result (E.contents errors.old) (E.contents errors.new) (duplicate_lines names.entry
        (record { input = input; number = number; key = key.now }) line) }
    ensures failed { OnErr result (E.failed errors.new) }
{
    match names {
        None => write_duplicate(input, number, errors),
        Some(names) => {
            write_duplicate(input, number, errors)?;
            write_key(input_at(names, input), line, key, errors)
        }
    }
}
