// The rule for the base of a create.
ghost use Rattle.std.specs.Prelude.{◌≡◌, ◌++◌, codes, bytes_eq, option_map, unwrap_or, true, false};
ghost use Rattle.cdb_command.specs.Line.{names_in, given_in};
ghost use Rattle.cdb_command.specs.Rules.{is_hyphen, writes_out, is_built_in, takes_base};

use crate::line::Line;
use crate::rules::names::is_hyphen;

/// Returns true if a file has the name of the temporary file that is made if none is given.
fn is_default(name: &str, file: &str) -> bool
    ensures { result ≡ bytes_eq (name.now ++ codes ".tmp") file.now }
{
    match file.as_bytes().strip_suffix(b".tmp") {
        Some(front) => front == name.as_bytes(),
        None => false,
    }
}

/// Returns true if the database is written to standard output, and no file is built.
fn writes_out(names: Option<&[&str]>) -> bool
    ensures { result ≡ writes_out (names_in names.entry) }
{
    match names {
        Some([name, ..]) => is_hyphen(name),
        _ => false,
    }
}

/// Returns true if the database is built in a file of this name.
fn is_built_in(temporary: Option<&str>, names: Option<&[&str]>, file: &str) -> bool
    ensures { result ≡ is_built_in (option_map (λ s. s.now) temporary.entry) (names_in names.entry) file.now }
{
    match (temporary, names) {
        (Some(temporary), _) => temporary == file,
        (None, Some([name, ..])) => is_default(name, file),
        (None, _) => false,
    }
}

/// Returns true if a create takes this base: not beside `-t -`, which builds in place, and not if
/// it would build in the base.
fn takes(line: &Line<'_, '_>, base: &str) -> bool
    ensures { result ≡ takes_base (given_in line.now) base.now }
{
    if let Some(temporary) = line.temporary
        && is_hyphen(temporary)
    {
        return false;
    }
    writes_out(line.names) || !is_built_in(line.temporary, line.names, base)
}

/// Returns true if a create takes the base of a line, if it has one.
pub(crate) fn takes_base(line: &Line<'_, '_>) -> bool
    ensures { result ≡ unwrap_or (option_map (takes_base (given_in line.now))
        (given_in line.now).base) true }
{
    match line.base {
        Some(base) => takes(line, base),
        None => true,
    }
}
