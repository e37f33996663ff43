// Texts of a command line, kept.
ghost use Rattle.std.specs.Prelude.{map, string_bytes, option_map, Ok};
ghost use Rattle.cdb_command.specs.Asked.{Gives};

use crate::word_fault::WordFault;
use std::alloc::Global;

/// Returns a copy of a text.
pub(crate) fn owned<'a>(alloc: Global, text: &str) -> Result<String, WordFault<'a>>
    ensures { Gives string_bytes result (Ok text.now) }
{
    Ok(String::from_str(alloc, text)?)
}

/// Returns a copy of a text, if there is one.
pub(crate) fn owned_option<'a>(
    alloc: Global,
    text: Option<&str>,
) -> Result<Option<String>, WordFault<'a>>
    ensures { Gives (option_map string_bytes) result (Ok (option_map (λ s. s.now) text.entry)) }
{
    match text {
        Some(text) => Ok(Some(owned(alloc, text)?)),
        None => Ok(None),
    }
}

/// Returns copies of texts, in order.
pub(crate) fn owned_all<'a>(alloc: Global, from: &[&str]) -> Result<Vec<String>, WordFault<'a>>
    ensures { Gives (λ v. map string_bytes v.items) result (Ok (map (λ s. s.now) from.now)) }
{
    let mut texts = Vec::new(alloc);
    for text in from {
        texts.push(owned(alloc, text)?)?;
    }
    Ok(texts)
}
