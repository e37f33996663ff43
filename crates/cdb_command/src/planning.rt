// The command that the words of a command line request.
ghost use Rattle.std.specs.Prelude.{◌≡◌, ◌≢◌, [], IfOk, IfErr, map, string_bytes};
ghost use Rattle.cdb_command.specs.Asked.{Gives, GivesUsage, asked_in, IsInRange};
ghost use Rattle.cdb_command.specs.Refused.{refused_in, usage_of};
ghost use Rattle.cdb_command.specs.Words.{cdb_faults, plan_of};
ghost use Rattle.cdb_command.specs.declared.usage.Usage.TheVariants.{Words};

use crate::command::Command;
use crate::rules::asking::asked_on;
use crate::usage::Usage;
use crate::word_fault::WordFault;
use crate::words::{line_of, matches_of};
use std::alloc::Global;

/// Returns the command that the words of a command line request, whose first word is the program's
/// name.
///
/// Letters come alone or several after one hyphen, in any order, before names, between them and
/// after them; a letter without a value that comes often is as one. After `--` all words are
/// names. The answer is the first that holds of these:
/// - `Words`: a word has an unknown letter or is long as `--map`, or `-n`, `-t` or `-b` has no
///   value or comes twice. The next word is no value if it begins with a hyphen and is longer than
///   that;
/// - `Ok(Help)`: `-h` is there; `Ok(Version)`: `-V` is there;
/// - `NoCommand`, `TwoCommands`: none of `-q`, `-d`, `-l`, `-s`, `-c`, `-k` and `-D`, or several;
/// - `Option`: the command doesn't take this option, the first such of `m n i t w e r u b`.
///   `-q` takes `m`, `n` and `i`, `-d` and `-l` take `m`, and `-c` takes all but `n` and `i`. It
/// takes no `b` beside `-t -`, nor if it would build in the base: if `-t`, or the database's name
/// and `.tmp`, is the base's name. A database named `-` is built in no file;
/// - `Number`: the value of `-n` isn't decimal digits alone, of a number from 1 to 4294967295;
/// - `Names`: `-q` and `-D` take two names, `-c` and `-q` with `-i` one and any number of inputs,
///   the others one at most;
/// - `Both`: `-r` and `-u`;
/// - the command. If it reads one file, no name and `-` are standard input. `-W` and `-v` go
///   with every command; `explains` answers whether `-v` is there.
///
/// `NoMemory` may come in place of any. The limit of a create is the greatest length in bytes of a
/// file of its width, 4294967295 or 9223372036854775807.
pub fn plan(alloc: Global, words: Vec<String>) -> Result<Command, Usage>
    ensures exact { GivesUsage asked_in result (plan_of (map string_bytes words.items)) }
    ensures range { IfOk result (λ command. IsInRange (asked_in command)) }
    ensures refused { IfErr result
        (λ usage. usage ≡ Words → cdb_faults (map string_bytes words.items) ≢ []) }
{
    match plan_explained(alloc, words.as_slice()) {
        Ok(command) => Ok(command),
        Err(fault) => Err(fault.usage()),
    }
}

/// Answers as `plan` does, and if words have no meaning it names the word or letter at fault:
/// - `Words` is `Unknown`, `Long`, `NoValue` or `Twice`, of the first of the words that has one of
///   these, or `Words` if the parser of the line had another reason;
/// - `TwoCommands` has the first two of the letters;
/// - `Option` has the command's letter too; of `b` it is `BaseInPlace`, beside `-t -`, or
///   `BaseBuiltIn`;
/// - `Names` is `Lacks` or `Surplus`.
pub fn plan_explained(alloc: Global, words: &[String]) -> Result<Command, WordFault<'_>>
    ensures exact { Gives asked_in result (plan_of (map string_bytes words.entry.now)) }
    ensures range { IfOk result (λ command. IsInRange (asked_in command)) }
    ensures refused { IfErr result
        (λ fault. usage_of (refused_in fault) ≡ Words
        → cdb_faults (map string_bytes words.entry.now) ≢ []) }
{
    let matches = matches_of(alloc, words)?;
    asked_on(alloc, &line_of(&matches))
}
