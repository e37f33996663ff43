// How a database is to be made.
ghost use Rattle.std.specs.Prelude.{◌≡◌};
ghost use Rattle.cdb_command.specs.Refused.{told};
ghost use Rattle.cdb_command.specs.Rules.{style_in, mode_in, options_of, not_both};

use crate::letters::Flags;
use crate::options::MakeOptions;
use crate::style::Style;
use crate::word_fault::WordFault;
use cdb_form::Mode;

/// The greatest size of a file whose words have 4 bytes.
const NARROW_LIMIT: u64 = 4294967295;

/// The greatest size of a file whose words have 8 bytes.
const WIDE_LIMIT: u64 = 9223372036854775807;

/// Returns the style of the texts.
pub(crate) fn style_of(flags: Flags) -> Style
    ensures { result ≡ style_in flags }
{
    if flags.map { Style::Map } else { Style::Native }
}

/// Returns the mode that treats a record whose key is there already.
fn mode_of(flags: Flags) -> Mode
    ensures { result ≡ mode_in flags }
{
    if flags.replace {
        Mode::Replace
    } else if flags.insert {
        Mode::Insert
    } else if flags.warn || flags.stop {
        Mode::Warn
    } else {
        Mode::Add
    }
}

/// Returns how a database is to be made.
pub(crate) fn options_of(flags: Flags) -> MakeOptions
    ensures { result ≡ options_of flags }
{
    MakeOptions {
        mode: mode_of(flags),
        warn: flags.warn || flags.stop,
        stop: flags.stop,
        style: style_of(flags),
        limit: if flags.wide { WIDE_LIMIT } else { NARROW_LIMIT },
    }
}

/// `Both` if duplicates are to be replaced, and to be left out.
pub(crate) fn not_both<'a>(flags: Flags) -> Result<(), WordFault<'a>>
    ensures { told result ≡ not_both flags }
{
    if flags.replace && flags.insert {
        Err(WordFault::Both)
    } else {
        Ok(())
    }
}
