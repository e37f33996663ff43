// A line of texts, and of bytes as they are shown.
ghost use Rattle.std.specs.Prelude.{◌<◌, ◌≤◌, ◌++◌, IfOk, OnErr, flat_map, length, map};
ghost use Rattle.cdb_command.specs.Refused.{parts_line, shown};
ghost use Rattle.cdb_form.specs.Views.KnownBytes.{AppendsPrefix, Writes};
ghost use Rattle.cdb_show.specs.Showing.{ShowsFirst};

use cdb_command::{escaped, printable_len};
use cdb_form::{OutFault, Sink, write_whole};

/// Writes what some bytes begin with as a line shows it, a character or a byte, and answers how
/// many of them that is. After an `OutFault` the writer holds a prefix of it.
fn write_first<E: Sink>(bytes: &[u8], errors: &mut E) -> Result<usize, OutFault>
    requires { 0 < length bytes.now }
    ensures count { IfOk result (λ n. (0 < n) × (n ≤ length bytes.now)) }
    ensures ok { IfOk result
        (λ n. ShowsFirst n bytes.now (E.contents errors.old) (E.contents errors.new)) }
    ensures err { OnErr result
        (AppendsPrefix (E.contents errors.old) (E.contents errors.new) (shown bytes.now)) }
    ensures failed { OnErr result (E.failed errors.new) }
    ensures stays { E.failed errors.old → E.failed errors.new }
{
    match printable_len(bytes) {
        0 => {
            write_whole(errors, &escaped(bytes[0]))?;
            Ok(1)
        }
        len => {
            write_whole(errors, &bytes[..len])?;
            Ok(len)
        }
    }
}

/// Writes bytes as they are shown in a line.
fn write_shown<E: Sink>(bytes: &[u8], errors: &mut E) -> Result<(), OutFault>
    ensures writes { Writes result (E.contents errors.old) (E.contents errors.new) (shown bytes.now) }
    ensures failed { OnErr result (E.failed errors.new) }
    ensures stays { E.failed errors.old → E.failed errors.new }
{
    let mut done = 0;
    while done < bytes.len() {
        done += write_first(&bytes[done..], errors)?;
    }
    Ok(())
}

/// Writes a part of a line: a text, and then the bytes that are shown after it.
fn write_part<E: Sink>(text: &[u8], bytes: &[u8], errors: &mut E) -> Result<(), OutFault>
    ensures writes { Writes result (E.contents errors.old) (E.contents errors.new)
        (text.now ++ shown bytes.now) }
    ensures failed { OnErr result (E.failed errors.new) }
    ensures stays { E.failed errors.old → E.failed errors.new }
{
    write_whole(errors, text)?;
    write_shown(bytes, errors)
}

/// Writes the parts of a line.
fn write_parts<E: Sink>(parts: &[(&[u8], &[u8])], errors: &mut E) -> Result<(), OutFault>
    ensures writes { Writes result (E.contents errors.old) (E.contents errors.new)
        (flat_map (λ p. p.0.now ++ shown p.1.now) parts.now) }
    ensures failed { OnErr result (E.failed errors.new) }
    ensures stays { E.failed errors.old → E.failed errors.new }
{
    for (text, bytes) in parts {
        write_part(text, bytes, errors)?;
    }
    Ok(())
}

/// Writes a line of such parts: a text, and bytes that are shown after it. After an `OutFault` the
/// writer holds a prefix of it.
pub fn write_line<E: Sink>(parts: &[(&[u8], &[u8])], errors: &mut E) -> Result<(), OutFault>
    ensures writes { Writes result (E.contents errors.old) (E.contents errors.new)
        (parts_line (map (λ p. (p.0.now, p.1.now)) parts.now)) }
    ensures failed { OnErr result (E.failed errors.new) }
    ensures stays { E.failed errors.old → E.failed errors.new }
{
    write_whole(errors, b"cdb: ")?;
    write_parts(parts, errors)?;
    write_whole(errors, b"\n")
}
