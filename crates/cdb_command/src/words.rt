// The words of a command line, as `clap` parses them.
ghost use Rattle.std.specs.Prelude.{◌≡◌, ◌≢◌, ◌⊎◌, [], IfOk, IfErr, false, map, string_bytes};
ghost use Rattle.clap.specs.Walk.{rows_of};
ghost use Rattle.clap.specs.Matches.{found_of};
ghost use Rattle.clap.specs.Values.{kind_of};
ghost use Rattle.cdb_command.specs.Line.{given_in};
ghost use Rattle.cdb_command.specs.Words.{cdb_rows, cdb_faults, given_of};
ghost use Rattle.cdb_command.specs.BadWord.{bad_word};
ghost use Rattle.cdb_command.specs.Refused.{refused_in};
ghost use Rattle.cdb_command.specs.declared.word_fault.WordFault.TheVariants.{NoMemory};

use crate::bad_word::bad_word;
use crate::letters::flags_of;
use crate::line::Line;
use crate::parser::parser;
use crate::word_fault::WordFault;
use clap::ArgMatches;
use clap::error::ErrorKind;
use std::alloc::Global;

/// Returns true if `clap` refused words since an allocation failed.
fn is_of_memory(error: &clap::Error) -> bool
    ensures { result ≡ false → kind_of error.now ≢ ErrorKind.OutOfMemory }
{
    matches!(error.kind(), ErrorKind::OutOfMemory)
}

/// Returns the words as `clap` parses them, or the first bad letter or word if it refuses them. The
/// first word is the program's name.
pub(crate) fn matches_of<'a>(
    alloc: Global,
    words: &'a [String],
) -> Result<ArgMatches<'a>, WordFault<'a>>
    ensures ok { IfOk result (λ m. rows_of (found_of m)
        ≡ cdb_rows (map string_bytes words.entry.now)) }
    ensures taken { IfOk result (λ _. cdb_faults (map string_bytes words.entry.now) ≡ []) }
    ensures refused { IfErr result (λ u. (u ≡ NoMemory)
        ⊎ ((refused_in u ≡ bad_word (map string_bytes words.entry.now)) × (cdb_faults (map string_bytes words.entry.now) ≢ []))) }
{
    let parser = parser(alloc)?;
    match parser.try_get_matches_from(words) {
        Ok(matches) => Ok(matches),
        Err(error) if is_of_memory(&error) => Err(WordFault::NoMemory),
        Err(_) => Err(bad_word(words)),
    }
}

/// Returns the letters, values and names of the line.
pub(crate) fn line_of<'a, 'b>(matches: &'b ArgMatches<'a>) -> Line<'a, 'b>
    ensures { given_in result ≡ given_of (rows_of (found_of matches.now)) }
{
    Line {
        flags: flags_of(matches),
        number: matches.get_str("n"),
        temporary: matches.get_str("t"),
        base: matches.get_str("b"),
        names: matches.get_strs("names"),
    }
}
