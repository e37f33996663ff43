// The number of a value.
ghost use Rattle.std.specs.Prelude.{◌≡◌, option_map};
ghost use Rattle.cdb_command.specs.Refused.{told};
ghost use Rattle.std.specs.Str.{all_ascii_digits};
ghost use Rattle.cdb_command.specs.Rules.{value_number, decimal_in, number_in};

use crate::word_fault::WordFault;

/// Returns true if a text has decimal digits alone.
fn is_digits(text: &str) -> bool
    ensures { result ≡ all_ascii_digits text.now }
{
    text.bytes().all(|b| b.is_ascii_digit())
}

/// Returns the number of a value, or `Number` of its text if it is 0: values are counted from 1.
fn value_number(text: &str, number: u32) -> Result<u32, WordFault<'_>>
    ensures { told result ≡ value_number text.entry.now number }
{
    if number == 0 {
        Err(WordFault::Number(text))
    } else {
        Ok(number)
    }
}

/// Returns the number of a value. `Number` if the text isn't decimal digits alone, of a number from
/// 1 to 4294967295.
fn decimal(text: &str) -> Result<u32, WordFault<'_>>
    ensures { told result ≡ decimal_in text.entry.now }
{
    if !is_digits(text) {
        return Err(WordFault::Number(text));
    }
    match text.parse::<u32>() {
        Ok(number) => value_number(text, number),
        Err(_) => Err(WordFault::Number(text)),
    }
}

/// Returns the number of a value, if there is one.
pub(crate) fn number_of(text: Option<&str>) -> Result<Option<u64>, WordFault<'_>>
    ensures { told result ≡ number_in (option_map (λ s. s.now) text.entry) }
{
    match text {
        Some(text) => Ok(Some(u64::from(decimal(text)?))),
        None => Ok(None),
    }
}
