// The command that a line requests.
ghost use Rattle.std.specs.Prelude.{option_map, string_bytes};
ghost use Rattle.cdb_command.specs.Line.{given_in};
ghost use Rattle.cdb_command.specs.Asked.{Gives, asked_in};
ghost use Rattle.cdb_command.specs.Rules.{one_name, key_query_in, lookups_in, query_in, create_in};
ghost use Rattle.cdb_command.specs.Rules.{difference_in, command_in, line_plan};

use crate::command::Command;
use crate::line::Line;
use crate::owned::{owned, owned_all, owned_option};
use crate::rules::letter::{Letter, only_letter};
use crate::rules::names::{first_name, one_name, two_names};
use crate::rules::number::number_of;
use crate::rules::options::{not_both, options_of, style_of};
use crate::rules::stray::without_stray;
use crate::word_fault::{Lacking, WordFault};
use std::alloc::Global;

/// Returns the file to be read.
fn input_of<'a>(alloc: Global, line: &Line<'a, '_>) -> Result<Option<String>, WordFault<'a>>
    ensures { Gives (option_map string_bytes) result (one_name (given_in line.now).names) }
{
    owned_option(alloc, one_name(line.names)?)
}

/// Returns a query of one key, for a value with a number or for all.
fn key_query_of<'a>(
    alloc: Global,
    line: &Line<'a, '_>,
    number: Option<u64>,
) -> Result<Command, WordFault<'a>>
    ensures { Gives asked_in result (key_query_in (given_in line.now) number) }
{
    let (name, key) = two_names(line.names, Lacking::Database, Lacking::Key)?;
    Ok(Command::Query {
        name: owned(alloc, name)?,
        key: owned(alloc, key)?,
        number,
        lines: line.flags.map,
        wide: line.flags.wide,
    })
}

/// Returns a query of the keys that inputs give.
fn lookups_of<'a>(
    alloc: Global,
    line: &Line<'a, '_>,
    number: Option<u64>,
) -> Result<Command, WordFault<'a>>
    ensures { Gives asked_in result (lookups_in (given_in line.now) number) }
{
    let (name, inputs) = first_name(line.names)?;
    Ok(Command::Lookups {
        name: owned(alloc, name)?,
        inputs: owned_all(alloc, inputs)?,
        number,
        style: style_of(line.flags),
        wide: line.flags.wide,
    })
}

/// Returns a query, of one key or of the keys that inputs give.
fn query_of<'a>(
    alloc: Global,
    line: &Line<'a, '_>,
    number: Option<u64>,
) -> Result<Command, WordFault<'a>>
    ensures { Gives asked_in result (query_in (given_in line.now) number) }
{
    if line.flags.inputs {
        lookups_of(alloc, line, number)
    } else {
        key_query_of(alloc, line, number)
    }
}

/// Returns a difference of two files.
fn difference_of<'a>(alloc: Global, line: &Line<'a, '_>) -> Result<Command, WordFault<'a>>
    ensures { Gives asked_in result (difference_in (given_in line.now)) }
{
    let (old, new) = two_names(line.names, Lacking::Old, Lacking::New)?;
    Ok(Command::Difference {
        old: owned(alloc, old)?,
        new: owned(alloc, new)?,
        wide: line.flags.wide,
    })
}

/// Returns a create.
fn create_of<'a>(alloc: Global, line: &Line<'a, '_>) -> Result<Command, WordFault<'a>>
    ensures { Gives asked_in result (create_in (given_in line.now)) }
{
    let (name, inputs) = first_name(line.names)?;
    not_both(line.flags)?;
    Ok(Command::Create {
        name: owned(alloc, name)?,
        base: owned_option(alloc, line.base)?,
        inputs: owned_all(alloc, inputs)?,
        temporary: owned_option(alloc, line.temporary)?,
        options: options_of(line.flags),
        wide: line.flags.wide,
    })
}

/// Returns the command of a letter, on a line without options that the command does not take.
fn command_of<'a>(
    alloc: Global,
    letter: Letter,
    line: &Line<'a, '_>,
    number: Option<u64>,
) -> Result<Command, WordFault<'a>>
    ensures { Gives asked_in result (command_in letter (given_in line.now) number) }
{
    let (style, wide) = (style_of(line.flags), line.flags.wide);
    match letter {
        Letter::Query => query_of(alloc, line, number),
        Letter::Create => create_of(alloc, line),
        Letter::Difference => difference_of(alloc, line),
        Letter::Dump => {
            let name = input_of(alloc, line)?;
            Ok(Command::Dump { name, style, wide })
        }
        Letter::List => {
            let name = input_of(alloc, line)?;
            Ok(Command::List { name, style, wide })
        }
        Letter::Stats => {
            let name = input_of(alloc, line)?;
            Ok(Command::Stats { name, wide })
        }
        Letter::Check => {
            let name = input_of(alloc, line)?;
            Ok(Command::Check { name, wide })
        }
    }
}

/// Returns the command of a line, or the first of its faults.
pub(crate) fn asked_on<'a>(alloc: Global, line: &Line<'a, '_>) -> Result<Command, WordFault<'a>>
    ensures { Gives asked_in result (line_plan (given_in line.now)) }
{
    if line.flags.help {
        return Ok(Command::Help);
    }
    if line.flags.version {
        return Ok(Command::Version);
    }
    let letter = only_letter(line.flags)?;
    without_stray(letter, line)?;
    let number = number_of(line.number)?;
    command_of(alloc, letter, line, number)
}
