// Options that a command does not take.
ghost use Rattle.std.specs.Prelude.{◌≡◌, ◌==◌};
ghost use Rattle.std.specs.List.{list_any};
ghost use Rattle.cdb_command.specs.Line.{given_in};
ghost use Rattle.cdb_command.specs.Rules.{options_in, options_on, taken_by};
ghost use Rattle.cdb_command.specs.Refused.{refused_in, told};
ghost use Rattle.cdb_command.specs.Rules.{base_refused, first_stray, no_stray, option_refused};

use crate::line::Line;
use crate::rules::base::takes_base;
use crate::rules::letter::{Letter, letter_code};
use crate::rules::names::is_hyphen;
use crate::word_fault::WordFault;

/// Returns the options in their order, and whether each is on a line.
fn options_on(line: &Line<'_, '_>) -> [(bool, char); 9]
    ensures { result ≡ options_on (given_in line.now) }
{
    let flags = line.flags;
    [
        (flags.map, 'm'),
        (line.number.is_some(), 'n'),
        (flags.inputs, 'i'),
        (line.temporary.is_some(), 't'),
        (flags.warn, 'w'),
        (flags.stop, 'e'),
        (flags.replace, 'r'),
        (flags.insert, 'u'),
        (line.base.is_some(), 'b'),
    ]
}

/// Returns true if a command takes an option of a line.
fn takes_option(letter: Letter, option: char, line: &Line<'_, '_>) -> bool
    ensures { result ≡ list_any (λ o. o == option) (taken_by letter (given_in line.now)) }
{
    match letter {
        Letter::Query => matches!(option, 'm' | 'n' | 'i'),
        Letter::Dump | Letter::List => option == 'm',
        Letter::Stats | Letter::Check | Letter::Difference => false,
        Letter::Create => match option {
            'm' | 't' | 'w' | 'e' | 'r' | 'u' => true,
            'b' => takes_base(line),
            _ => false,
        },
    }
}

/// Returns the first option on a line that the command does not take.
fn stray_option(letter: Letter, line: &Line<'_, '_>) -> Option<char>
    ensures { result ≡ first_stray (taken_by letter (given_in line.now))
        (options_in (given_in line.now)) }
{
    for (is_there, option) in options_on(line) {
        if is_there && !takes_option(letter, option, line) {
            return Some(option);
        }
    }
    None
}

/// Returns the reason why a create does not take the base of a line.
fn base_refused<'a>(line: &Line<'a, '_>) -> WordFault<'a>
    ensures { refused_in result ≡ base_refused (given_in line.now) }
{
    match (line.temporary, line.base) {
        (Some(temporary), _) if is_hyphen(temporary) => WordFault::BaseInPlace,
        (_, Some(base)) => WordFault::BaseBuiltIn(base),
        (_, None) => WordFault::BaseBuiltIn(""),
    }
}

/// Returns the reason why a command does not take an option.
fn option_refused<'a>(letter: Letter, option: char, line: &Line<'a, '_>) -> WordFault<'a>
    ensures { refused_in result ≡ option_refused letter option (given_in line.now) }
{
    match (letter, option) {
        (Letter::Create, 'b') => base_refused(line),
        _ => WordFault::Option(option, letter_code(letter)),
    }
}

/// Fails for the first option on a line that the command does not take.
pub(crate) fn without_stray<'a>(letter: Letter, line: &Line<'a, '_>) -> Result<(), WordFault<'a>>
    ensures { told result ≡ no_stray letter (given_in line.now) (first_stray (taken_by letter (given_in line.now))
        (options_in (given_in line.now))) }
{
    match stray_option(letter, line) {
        Some(option) => Err(option_refused(letter, option, line)),
        None => Ok(()),
    }
}
