// The letters of a command line that have no value.
ghost use Rattle.std.specs.Prelude.{◌≡◌, map};
ghost use Rattle.clap.specs.Matches.{found_of};
ghost use Rattle.clap.specs.Walk.{rows_of};
ghost use Rattle.cdb_command.specs.BadWord.{is_flag};
ghost use Rattle.cdb_command.specs.Letters.{flag_letters, flags_of, has};
ghost use Rattle.cdb_command.specs.Words.{flag_rule, flag_rules};

use clap::ArgMatches;

/// Returns the letters without a value, each with itself as its name: the commands', and then their
/// options'.
pub(crate) fn flag_letters<'a>() -> [(&'a str, char); 17]
    ensures letters { map (λ p. p.1) result ≡ flag_letters }
    ensures rules { map (λ p. flag_rule p.0.now p.1) result ≡ flag_rules }
{
    [
        ("q", 'q'),
        ("d", 'd'),
        ("l", 'l'),
        ("s", 's'),
        ("c", 'c'),
        ("k", 'k'),
        ("D", 'D'),
        ("h", 'h'),
        ("V", 'V'),
        ("m", 'm'),
        ("W", 'W'),
        ("w", 'w'),
        ("e", 'e'),
        ("r", 'r'),
        ("u", 'u'),
        ("i", 'i'),
        ("v", 'v'),
    ]
}

/// Returns true if a letter is one without a value.
pub(crate) fn is_flag(letter: char) -> bool
    ensures { result ≡ is_flag letter }
{
    for (_, flag) in flag_letters() {
        if flag == letter {
            return true;
        }
    }
    false
}

/// The letters without a value that are on a line, each once or often.
#[derive(Clone, Copy)]
pub(crate) struct Flags {
    pub(crate) query: bool,
    pub(crate) dump: bool,
    pub(crate) list: bool,
    pub(crate) stats: bool,
    pub(crate) create: bool,
    pub(crate) check: bool,
    pub(crate) difference: bool,
    pub(crate) help: bool,
    pub(crate) version: bool,
    pub(crate) map: bool,
    pub(crate) inputs: bool,
    pub(crate) wide: bool,
    pub(crate) warn: bool,
    pub(crate) stop: bool,
    pub(crate) replace: bool,
    pub(crate) insert: bool,
}

/// Returns true if a letter is on a line.
fn has(matches: &ArgMatches<'_>, id: &str) -> bool
    ensures { result ≡ has id.now (rows_of (found_of matches.now)) }
{
    matches.get_count(id) > 0
}

/// Returns the letters without a value that are on a line.
pub(crate) fn flags_of(matches: &ArgMatches<'_>) -> Flags
    ensures { result ≡ flags_of (rows_of (found_of matches.now)) }
{
    Flags {
        query: has(matches, "q"),
        dump: has(matches, "d"),
        list: has(matches, "l"),
        stats: has(matches, "s"),
        create: has(matches, "c"),
        check: has(matches, "k"),
        difference: has(matches, "D"),
        help: has(matches, "h"),
        version: has(matches, "V"),
        map: has(matches, "m"),
        inputs: has(matches, "i"),
        wide: has(matches, "W"),
        warn: has(matches, "w"),
        stop: has(matches, "e"),
        replace: has(matches, "r"),
        insert: has(matches, "u"),
    }
}
