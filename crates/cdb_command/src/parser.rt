// The simple command that `clap` is given.
ghost use Rattle.std.specs.Prelude.{◌≡◌, false, IfOk};
ghost use Rattle.clap.specs.Walk.{rule_of};
ghost use Rattle.clap.specs.Simple.{app_of};
ghost use Rattle.cdb_command.specs.Words.{flag_rule, option_rule, names_rule, with_rules};
ghost use Rattle.cdb_command.specs.Words.{flag_rules, value_rules, bare_app};
ghost use Rattle.cdb_command.specs.Words.{cdb_app};

use crate::letters::flag_letters;
use clap::{Arg, ArgAction, Command};
use std::alloc::{AllocError, Global};

/// Returns a letter without a value, which may come often.
fn flag<'a>(alloc: Global, id: &'a str, letter: char) -> Arg<'a>
    ensures rule { rule_of result ≡ flag_rule id.entry.now letter }
    ensures local { result.global ≡ false }
{
    Arg::new(alloc, id).short(letter).action(ArgAction::Count)
}

/// Returns a letter with a value, which may come once.
fn option<'a>(alloc: Global, id: &'a str, letter: char) -> Arg<'a>
    ensures rule { rule_of result ≡ option_rule id.entry.now letter }
    ensures local { result.global ≡ false }
{
    Arg::new(alloc, id).short(letter).action(ArgAction::Set)
}

/// Returns an argument for any number of names.
fn names<'a>(alloc: Global) -> Arg<'a>
    ensures rule { rule_of result ≡ names_rule }
    ensures local { result.global ≡ false }
{
    Arg::new(alloc, "names").num_args(0..)
}

/// Returns the command with the letters that have no value.
fn with_flags<'a>(alloc: Global, mut parser: Command<'a>) -> Result<Command<'a>, AllocError>
    ensures { IfOk result (λ r. app_of r ≡ with_rules (app_of parser.entry) flag_rules) }
{
    for (id, letter) in flag_letters() {
        parser = parser.arg(flag(alloc, id, letter))?;
    }
    Ok(parser)
}

/// Returns the command with the options that have values, and with names.
fn with_values<'a>(alloc: Global, parser: Command<'a>) -> Result<Command<'a>, AllocError>
    ensures { IfOk result (λ r. app_of r ≡ with_rules (app_of parser.entry) value_rules) }
{
    let parser = parser.arg(option(alloc, "n", 'n'))?;
    let parser = parser.arg(option(alloc, "t", 't'))?;
    let parser = parser.arg(option(alloc, "b", 'b'))?;
    parser.arg(names(alloc))
}

/// Returns a command without letters, also without `clap`'s own for help and version.
fn bare<'a>(alloc: Global) -> Command<'a>
    ensures { app_of result ≡ bare_app }
{
    Command::new(alloc, "cdb")
        .disable_help_flag(true)
        .disable_version_flag(true)
}

/// Returns the program's command line, for `clap`.
pub(crate) fn parser<'a>(alloc: Global) -> Result<Command<'a>, AllocError>
    ensures { IfOk result (λ r. app_of r ≡ cdb_app) }
{
    let parser = with_flags(alloc, bare(alloc))?;
    with_values(alloc, parser)
}
