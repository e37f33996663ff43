// How bytes are shown in a line.
use cdb_command::{escaped, printable_len};
use std::prelude::*;
use std::test::Fail;

/// Bytes, and how many of them the character has that they begin with and that is shown as it is.
const BYTES: [(&[u8], usize); 52] = [
    (b"", 0),
    (b"a", 1),
    (b"~", 1),
    (b"\x5c", 0),
    (b"\x1b", 0),
    (b"\x1f", 0),
    (b" ", 1),
    (b"\x7f", 0),
    (b"\x80", 0),
    (b"\xa9", 0),
    (b"\xc3\xa9", 2),
    (b"\xc3\xa9\xe2\x82\xac", 2),
    (b"\xc2", 0),
    (b"\xc2a", 0),
    (b"\xc2\x80", 0),
    (b"\xc2\x85", 0),
    (b"\xc2\x9f", 0),
    (b"\xc2\xa0", 2),
    (b"\xc0\xaf", 0),
    (b"\xc1\xbf", 0),
    (b"\xdf\xbf", 2),
    (b"\xc3\xc3", 0),
    (b"\xe2\x82\xac", 3),
    (b"\xe2\x82", 0),
    (b"\xe2\x82a", 0),
    (b"\xe0\x9f\xbf", 0),
    (b"\xe0\xa0\x80", 3),
    (b"\xed\x9f\xbf", 3),
    (b"\xed\xa0\x80", 0),
    (b"\xed\xbf\xbf", 0),
    (b"\xee\x80\x80", 3),
    (b"\xe2\x80\xa7", 3),
    (b"\xe2\x80\xa8", 0),
    (b"\xe2\x80\xa9", 0),
    (b"\xe2\x80\xaa", 0),
    (b"\xe2\x80\xae", 0),
    (b"\xe2\x80\xaf", 3),
    (b"\xe2\x81\xa5", 3),
    (b"\xe2\x81\xa6", 0),
    (b"\xe2\x81\xa9", 0),
    (b"\xe2\x81\xaa", 3),
    (b"\xf0\x9f\x98\x80", 4),
    (b"\xf0\x9f\x98\x80a", 4),
    (b"\xf0\x9f\x98", 0),
    (b"\xf0\x9f\x98a", 0),
    (b"\xf0\x8f\xbf\xbf", 0),
    (b"\xf0\x90\x80\x80", 4),
    (b"\xf4\x8f\xbf\xbf", 4),
    (b"\xf4\x90\x80\x80", 0),
    (b"\xf5\x80\x80\x80", 0),
    (b"\xf8\x88\x80\x80\x80", 0),
    (b"\xff", 0),
];

#[test]
fn printable_characters_are_shown_as_they_are(rt: HostRuntime) -> Result<(), Fail> {
    for &(bytes, len) in &BYTES {
        assert!(rt; printable_len(bytes) == len, "at {bytes:?}");
    }
    Ok(())
}

#[test]
fn a_byte_is_shown_by_its_number(rt: HostRuntime) -> Result<(), Fail> {
    assert!(rt; escaped(b'\\') == *b"\\x5c", "the backslash");
    assert!(rt; escaped(0x09) == *b"\\x09", "a tab");
    assert!(rt; escaped(0xfa) == *b"\\xfa", "no ASCII");
    Ok(())
}
