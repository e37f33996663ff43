// The first letter or word that is no part of a command line.
ghost use Rattle.std.specs.Prelude.{◌≡◌, drop, map, string_bytes};
ghost use Rattle.std.specs.Str.{chars};
ghost use Rattle.cdb_command.specs.Refused.{refused_in, told};
ghost use Rattle.cdb_command.specs.BadWord.{bad_word, end_met, first_bad, hyphen_met, is_help, is_long};
ghost use Rattle.cdb_command.specs.BadWord.{is_plain};
ghost use Rattle.cdb_command.specs.BadWord.{letter_met, letters_met, no_values, none_waits, word_met};

use crate::explained::asks;
use crate::letters::is_flag;
use crate::word_fault::WordFault;

/// The letters with a value that were met.
#[derive(Clone, Copy)]
struct Values {
    number: bool,
    temporary: bool,
    base: bool,
    /// The last of these letters, if its value did not come yet.
    waiting: Option<char>,
}

/// Returns the values before any letter is met.
fn no_values() -> Values
    ensures { result ≡ no_values }
{
    Values {
        number: false,
        temporary: false,
        base: false,
        waiting: None,
    }
}

/// Notes that the value of the last letter came.
fn none_waits(values: Values) -> Values
    ensures { result ≡ none_waits values }
{
    Values {
        waiting: None,
        ..values
    }
}

/// Notes a letter that is met.
fn letter_met<'a>(values: Values, letter: char) -> Result<Values, WordFault<'a>>
    ensures { told result ≡ letter_met values letter }
{
    let waiting = Some(letter);
    match letter {
        'n' if !values.number => Ok(Values {
            number: true,
            waiting,
            ..values
        }),
        't' if !values.temporary => Ok(Values {
            temporary: true,
            waiting,
            ..values
        }),
        'b' if !values.base => Ok(Values {
            base: true,
            waiting,
            ..values
        }),
        'n' | 't' | 'b' => Err(WordFault::Twice(letter)),
        _ if is_flag(letter) => Ok(values),
        _ => Err(WordFault::Unknown(letter)),
    }
}

/// Notes the letters of a word that is met, which come after its hyphen.
fn letters_met<'a>(mut values: Values, word: &str) -> Result<Values, WordFault<'a>>
    ensures { told result ≡ letters_met values (drop 1 (chars word.now)) }
{
    let mut letters = word.chars();
    let _ = letters.next();
    for letter in letters {
        if values.waiting.is_some() {
            return Ok(none_waits(values));
        }
        values = letter_met(values, letter)?;
    }
    Ok(values)
}

/// Returns true if a word has no letters: a name, or the value of the letter before it.
fn is_plain(word: &str) -> bool
    ensures { result ≡ is_plain word.now }
{
    match word.as_bytes() {
        [first, _, ..] => *first != b'-',
        _ => true,
    }
}

/// Returns true if the second letter of a word is a hyphen.
fn is_long(word: &str) -> bool
    ensures { result ≡ is_long word.now }
{
    match word.as_bytes() {
        [_, second, ..] => *second == b'-',
        _ => false,
    }
}

/// Notes a word with a hyphen that is met.
fn hyphen_met(values: Values, word: &str) -> Result<Values, WordFault<'_>>
    ensures { told result ≡ hyphen_met values.waiting values word.entry.now }
{
    match values.waiting {
        Some(letter) => Err(WordFault::NoValue(letter)),
        None if is_long(word) => Err(WordFault::Long(word)),
        None => letters_met(values, word),
    }
}

/// Notes a word that is met.
fn word_met(values: Values, word: &str) -> Result<Values, WordFault<'_>>
    ensures { told result ≡ word_met values word.entry.now }
{
    if is_plain(word) {
        Ok(none_waits(values))
    } else {
        hyphen_met(values, word)
    }
}

/// Returns the fault if no word comes, or only names: the last letter lacks its value, or else
/// `Words`.
fn end_met<'a>(waiting: Option<char>) -> WordFault<'a>
    ensures { refused_in result ≡ end_met waiting }
{
    match waiting {
        Some(letter) => WordFault::NoValue(letter),
        None => WordFault::Words,
    }
}

/// Returns the first letter or word that is no part of a command line.
fn first_bad(words: &[String]) -> WordFault<'_>
    ensures { refused_in result ≡ first_bad no_values (map string_bytes words.entry.now) }
{
    let mut values = no_values();
    for word in words {
        if word.as_str() == "--" {
            break;
        }
        values = match word_met(values, word.as_str()) {
            Ok(values) => values,
            Err(fault) => return fault,
        };
    }
    end_met(values.waiting)
}

/// Returns true if the fault is the word that requests help of other programs.
fn is_help(fault: &WordFault<'_>) -> bool
    ensures { result ≡ is_help (refused_in fault.now) }
{
    match fault {
        WordFault::Long(word) => *word == "--help",
        _ => false,
    }
}

/// Returns the first letter or word that is no part of a command line, whose first word is the
/// program's name. If it is `--help`, and no letter of a command is on the line, returns `Help`.
pub(crate) fn bad_word(words: &[String]) -> WordFault<'_>
    ensures { refused_in result ≡ bad_word (map string_bytes words.entry.now) }
{
    let Some((_, following)) = words.split_first() else {
        return WordFault::Words;
    };
    let fault = first_bad(following);
    if is_help(&fault) && !asks(words) {
        WordFault::Help
    } else {
        fault
    }
}
