// The names on a command line, by how many a command takes.
ghost use Rattle.std.specs.Prelude.{◌≡◌, map, option_map};
ghost use Rattle.cdb_command.specs.Line.{names_in};
ghost use Rattle.cdb_command.specs.Asked.{map_told};
ghost use Rattle.cdb_command.specs.Rules.{is_hyphen, two_names, file_named, one_name, first_name};

use crate::word_fault::{Lacking, WordFault};

/// Returns two names. `Lacks` of `one` or `other` if there are fewer, `Surplus` if there are more.
pub(crate) fn two_names<'a>(
    names: Option<&[&'a str]>,
    one: Lacking,
    other: Lacking,
) -> Result<(&'a str, &'a str), WordFault<'a>>
    ensures { map_told (λ p. (p.0.now, p.1.now)) result ≡ two_names one other (names_in names.entry) }
{
    match names {
        None | Some([]) => Err(WordFault::Lacks(one)),
        Some([_]) => Err(WordFault::Lacks(other)),
        Some([first, second]) => Ok((first, second)),
        Some([_, _, third, ..]) => Err(WordFault::Surplus(third)),
    }
}

/// Returns true if a name stands for a standard stream.
pub(crate) fn is_hyphen(name: &str) -> bool
    ensures { result ≡ is_hyphen name.now }
{
    name == "-"
}

/// Returns the file of a name, or `None` for `-`, which is standard input.
fn file_named(name: &str) -> Option<&str>
    ensures { option_map (λ s. s.now) result ≡ file_named name.entry.now }
{
    if is_hyphen(name) { None } else { Some(name) }
}

/// Returns the file to be read: standard input if there is no name. `Surplus` if there are several.
pub(crate) fn one_name<'a>(names: Option<&[&'a str]>) -> Result<Option<&'a str>, WordFault<'a>>
    ensures { map_told (option_map (λ s. s.now)) result ≡ one_name (names_in names.entry) }
{
    match names {
        None | Some([]) => Ok(None),
        Some([name]) => Ok(file_named(name)),
        Some([_, second, ..]) => Err(WordFault::Surplus(second)),
    }
}

/// Returns the first name, and the names after it. `Lacks` if there is none.
pub(crate) fn first_name<'a, 'b>(
    names: Option<&'b [&'a str]>,
) -> Result<(&'a str, &'b [&'a str]), WordFault<'a>>
    ensures { map_told (λ p. (p.0.now, map (λ s. s.now) p.1.now)) result
        ≡ first_name (names_in names.entry) }
{
    let Some(names) = names else {
        return Err(WordFault::Lacks(Lacking::Database));
    };
    match names.split_first() {
        Some((name, behind)) => Ok((name, behind)),
        None => Err(WordFault::Lacks(Lacking::Database)),
    }
}
