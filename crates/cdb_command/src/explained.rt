// The letters of a command line, also of one without a meaning.
ghost use Rattle.std.specs.Prelude.{◌≡◌, map, string_bytes};
ghost use Rattle.cdb_command.specs.Refused.{asks_in, explains_in, has, have, some_has};

/// Returns true if one of the sought letters is among the letters of a word.
fn have(sought: &[u8], letters: &[u8]) -> bool
    ensures { result ≡ have sought.now letters.now }
{
    for &letter in letters {
        match letter {
            _ if sought.contains(&letter) => return true,
            b'n' | b't' | b'b' | b'-' => return false,
            _ => {}
        }
    }
    false
}

/// Returns true if a word has one of the sought letters.
fn has(sought: &[u8], word: &str) -> bool
    ensures { result ≡ has sought.now word.now }
{
    match word.as_bytes().split_first() {
        Some((b'-', letters)) => have(sought, letters),
        _ => false,
    }
}

/// Returns true if one of some words, up to the word `--`, has one of the sought letters.
fn some_has(sought: &[u8], words: &[String]) -> bool
    ensures { result ≡ some_has sought.now (map string_bytes words.now) }
{
    for word in words {
        if word.as_str() == "--" {
            return false;
        }
        if has(sought, word.as_str()) {
            return true;
        }
    }
    false
}

/// Returns true if `-v` is among the words of a command line, whose first word is the program's
/// name: faults are to be explained then. The words may also have no meaning.
pub fn explains(words: &[String]) -> bool
    ensures { result ≡ explains_in (map string_bytes words.now) }
{
    match words.split_first() {
        Some((_, words)) => some_has(b"v", words),
        None => false,
    }
}

/// Returns true if the letter of a command is among the words of a command line.
pub(crate) fn asks(words: &[String]) -> bool
    ensures { result ≡ asks_in (map string_bytes words.now) }
{
    match words.split_first() {
        Some((_, words)) => some_has(b"qdlsckDhV", words),
        None => false,
    }
}
