// The letter of a command.
ghost use Rattle.std.specs.Prelude.{◌≡◌, Ok, Err};
ghost use Rattle.cdb_command.specs.Refused.{told};
ghost use Rattle.cdb_command.specs.Rules.{commands_in, letter_code, letters_in, only_letter};

use crate::letters::Flags;
use crate::word_fault::WordFault;

/// The letter of a command that takes names.
#[derive(Clone, Copy)]
pub(crate) enum Letter {
    Query,
    Dump,
    List,
    Stats,
    Create,
    Check,
    Difference,
}

/// Returns the letter itself.
pub(crate) fn letter_code(letter: Letter) -> char
    ensures { result ≡ letter_code letter }
{
    match letter {
        Letter::Query => 'q',
        Letter::Dump => 'd',
        Letter::List => 'l',
        Letter::Stats => 's',
        Letter::Create => 'c',
        Letter::Check => 'k',
        Letter::Difference => 'D',
    }
}

/// Returns the commands in their order, and whether their letters are on a line.
fn commands_in(flags: Flags) -> [(bool, Letter); 7]
    ensures { result ≡ commands_in flags }
{
    [
        (flags.query, Letter::Query),
        (flags.dump, Letter::Dump),
        (flags.list, Letter::List),
        (flags.stats, Letter::Stats),
        (flags.create, Letter::Create),
        (flags.check, Letter::Check),
        (flags.difference, Letter::Difference),
    ]
}

/// Returns the one command whose letter is on a line. `NoCommand` if there is none, `TwoCommands`
/// of the first two if there are several.
pub(crate) fn only_letter<'a>(flags: Flags) -> Result<Letter, WordFault<'a>>
    ensures { told result ≡ only_letter (letters_in flags) }
{
    let mut only = None;
    for (is_there, letter) in commands_in(flags) {
        if is_there {
            if let Some(first) = only {
                let (first, second) = (letter_code(first), letter_code(letter));
                return Err(WordFault::TwoCommands(first, second));
            }
            only = Some(letter);
        }
    }
    match only {
        Some(letter) => Ok(letter),
        None => Err(WordFault::NoCommand),
    }
}
