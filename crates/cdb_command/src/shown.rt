// How bytes are shown in a line.
ghost use Rattle.std.specs.Prelude.{◌≡◌, ◌<◌, ◌≤◌, ◌+◌, length};
ghost use Rattle.std.specs.Str.{continuation_len};
ghost use Rattle.cdb_command.specs.Refused.{digit, escaped, first_piece, has_hidden, is_hidden, is_printable, printable_len};

/// Returns true if a character could end a line, command a terminal, turn the order of what is
/// read, or be taken for the number of a byte.
fn is_hidden(character: char) -> bool
    ensures { result ≡ is_hidden character }
{
    character.is_control()
        || matches!(
            character,
            '\u{2028}'..='\u{202E}'
                | '\u{2066}'..='\u{2069}'
                | '\u{200E}'..='\u{200F}'
                | '\u{061C}'
                | '\u{E0000}'..='\u{E007F}'
                | '\\'
        )
}

/// Returns true if a text has a character that is hidden.
fn has_hidden(text: &str) -> bool
    ensures { result ≡ has_hidden text.now }
{
    for character in text.chars() {
        if is_hidden(character) {
            return true;
        }
    }
    false
}

/// Returns true if bytes are a text without a character that is hidden.
fn is_printable(bytes: &[u8]) -> bool
    ensures { result ≡ is_printable bytes.now }
{
    match str::from_utf8(bytes) {
        Ok(text) => !has_hidden(text),
        Err(_) => false,
    }
}

/// Returns the number of bytes that follow the first byte of a character, as this byte says.
fn continuation_len(first: u8) -> usize
    ensures { result ≡ continuation_len first }
{
    match first {
        ..0x80 => 0,
        0x80..0xE0 => 1,
        0xE0..0xF0 => 2,
        0xF0.. => 3,
    }
}

/// Returns the first character of some bytes, as long as its first byte says, or all of them if
/// there are fewer.
fn first_piece(bytes: &[u8]) -> &[u8]
    ensures { result.now ≡ first_piece bytes.now }
{
    let Some(first) = bytes.first() else {
        return bytes;
    };
    let len = continuation_len(*first);
    if len < bytes.len() {
        &bytes[..len + 1]
    } else {
        bytes
    }
}

/// Returns the number of bytes of the character that some bytes begin with, if a line shows it as
/// it is, or else 0. All of UTF-8 is shown so except control characters, the separators of lines
/// and paragraphs, characters that mark, embed, override or isolate a direction of writing, tag
/// characters, and the backslash. If it is 0, the first byte is shown `escaped`.
pub fn printable_len(bytes: &[u8]) -> usize
    ensures exact { result ≡ printable_len bytes.now }
    ensures bound { result ≤ length bytes.now }
{
    let piece = first_piece(bytes);
    if is_printable(piece) { piece.len() } else { 0 }
}

/// Returns the digit of a number below 16.
fn digit(n: u8) -> u8
    requires { n < 16 }
    ensures { result ≡ digit n }
{
    if n < 10 { n + 48 } else { n + 87 }
}

/// Returns the bytes that a line shows for a byte of a name, a word or a key that begins no
/// character shown as it is: a backslash, `x` and its number.
pub fn escaped(byte: u8) -> [u8; 4]
    ensures { result ≡ escaped byte }
{
    [b'\\', b'x', digit(byte / 16), digit(byte % 16)]
}
