// A line of a text, put together from pieces.
ghost use Rattle.std.specs.Prelude.{◌≡◌, ◌+◌, ◌<◌, ◌≤◌, ◌++◌, ◌∷◌, [], decimal, length, take};

use itoa::Buffer;

/// The number of bytes that a line has at most that is written as one.
pub(crate) const LINE: usize = 256;

/// Puts a mark into a line at a place, and answers the place after it.
#[inline(always)]
pub(crate) fn put_mark(line: &mut [u8], place: usize, mark: u8) -> usize
    requires { place < length line.old }
    ensures end { result ≡ place + 1 }
    ensures long { length line.new ≡ length line.old }
    ensures bytes { take result line.new ≡ take place line.old ++ (mark ∷ []) }
{
    line[place] = mark;
    place + 1
}

/// Puts bytes into a line at a place, and answers the place after them.
#[inline(always)]
pub(crate) fn put_piece(line: &mut [u8], place: usize, piece: &[u8]) -> usize
    requires { place + length piece.now ≤ length line.old }
    ensures end { result ≡ place + length piece.now }
    ensures long { length line.new ≡ length line.old }
    ensures bytes { take result line.new ≡ take place line.old ++ piece.now }
{
    let end = place + piece.len();
    line[place..end].copy_from_slice(piece);
    end
}

/// Puts the digit of a number into a line at a place, and answers the place after it.
#[inline(always)]
fn put_digit(line: &mut [u8], place: usize, digit: usize) -> usize
    requires room { place < length line.old }
    requires digit { digit < 10 }
    ensures end { result ≡ place + 1 }
    ensures long { length line.new ≡ length line.old }
    ensures bytes { take result line.new ≡ take place line.old ++ ((48 + digit) ∷ []) }
{
    put_mark(line, place, b'0' + digit as u8)
}

/// Puts the numeral of a number below 100 into a line at a place, and answers the place after it.
#[inline(always)]
fn put_tens(line: &mut [u8], place: usize, n: usize) -> usize
    requires room { place + 2 ≤ length line.old }
    requires low { n < 100 }
    ensures end { result ≤ place + 2 }
    ensures long { length line.new ≡ length line.old }
    ensures bytes { take result line.new ≡ take place line.old ++ decimal n }
{
    if n < 10 {
        return put_digit(line, place, n);
    }
    let tens = put_digit(line, place, n / 10);
    put_digit(line, tens, n % 10)
}

/// Puts any numeral into a line at a place, and answers the place after it.
#[cold]
#[inline(never)]
fn put_long(line: &mut [u8], place: usize, n: usize) -> usize
    requires { place + 20 ≤ length line.old }
    ensures end { result ≤ place + 20 }
    ensures long { length line.new ≡ length line.old }
    ensures bytes { take result line.new ≡ take place line.old ++ decimal n }
{
    let mut digits = Buffer::new();
    put_piece(line, place, digits.format(n).as_bytes())
}

/// Puts the shortest numeral of a number into a line at a place, and answers the place after it.
/// Most numbers are lengths below 1000.
#[inline(always)]
pub(crate) fn put_number(line: &mut [u8], place: usize, n: usize) -> usize
    requires { place + 20 ≤ length line.old }
    ensures end { result ≤ place + 20 }
    ensures long { length line.new ≡ length line.old }
    ensures bytes { take result line.new ≡ take place line.old ++ decimal n }
{
    if n < 100 {
        return put_tens(line, place, n);
    }
    if 1000 <= n {
        return put_long(line, place, n);
    }
    let tens = put_tens(line, place, n / 10);
    put_digit(line, tens, n % 10)
}
