// Bytes to a writer.
ghost use Rattle.std.specs.Prelude.{codes, ◌+◌, ◌<◌, ◌≤◌, length, take, flat_map, ◌≡◌, IfOk, IfSome};
ghost use Rattle.std.specs.Prelude.{OnErr, Option, List, ℕ};
ghost use Rattle.std.specs.Io.KnownBytes.{Appends, Keeps};
ghost use Rattle.cdb_form.specs.Views.KnownBytes.{Writes};

use crate::reading::RETRIES;
use crate::text::line::LINE;
use std::error::Error;
use std::fmt;
use std::io::{ErrorKind, Write};

/// A writer failed, or took nothing, or said that it took more than it was offered.
#[derive(Clone, Copy, Debug, PartialEq, Eq)]
pub struct OutFault;

impl fmt::Display for OutFault {
    ghost use Rattle.std.specs.Prelude.{Some};

    ghost output = { λ _. Some (codes "output cannot be written") };

    fn fmt<W: fmt::Write>(&self, f: &mut fmt::Formatter<W>) -> fmt::Result {
        f.write_str("output cannot be written")
    }
}

impl Error for OutFault {}

/// A sink of bytes: any `Write`, or a type of one's own that also knows whether it has failed.
pub trait Sink {
    /// The bytes that the sink holds, if they are known.
    ghost contents: { Self → Option (List ℕ) };
    /// The sink has failed, which stays so. A `Write` always counts as failed, since nobody knows.
    ghost failed: { Self → Type 0 };

    /// Writes some of the bytes, at least one, and answers how many.
    ///
    /// After an `OutFault` the sink holds what it held.
    fn write_some(&mut self, bytes: &[u8]) -> Result<usize, OutFault>
        requires { 0 < length bytes.now }
        ensures count { IfOk result (λ n. (0 < n) × (n ≤ length bytes.now)) }
        ensures ok { IfOk result (λ n.
            Appends (contents self.old) (contents self.new) (take n bytes.now)) }
        ensures err { OnErr result (Keeps (contents self.old) (contents self.new)) }
        ensures failed { OnErr result (failed self.new) }
        ensures stays { failed self.old → failed self.new };

    /// Forwards the bytes that the sink holds back.
    fn flush_whole(&mut self) -> Result<(), OutFault>
        ensures bytes { Keeps (contents self.old) (contents self.new) }
        ensures failed { OnErr result (failed self.new) }
        ensures stays { failed self.old → failed self.new };
}

/// A call is made again if a signal interrupts it, up to 1000 times in a row.
impl<W: Write> Sink for W {
    ghost use Rattle.std.specs.Prelude.{⊤};

    ghost contents = { λ w. W.contents w };

    ghost failed = { λ _. ⊤ };

    #[inline(always)]
    fn write_some(&mut self, bytes: &[u8]) -> Result<usize, OutFault> {
        for _ in 0..RETRIES + 1 {
            match self.write(bytes) {
                Ok(n) => return if n == 0 { Err(OutFault) } else { Ok(n) },
                Err(e) => {
                    if e.kind() != ErrorKind::Interrupted {
                        return Err(OutFault);
                    }
                }
            }
        }
        Err(OutFault)
    }

    fn flush_whole(&mut self) -> Result<(), OutFault> {
        for _ in 0..RETRIES + 1 {
            match self.flush() {
                Ok(()) => return Ok(()),
                Err(e) => {
                    if e.kind() != ErrorKind::Interrupted {
                        return Err(OutFault);
                    }
                }
            }
        }
        Err(OutFault)
    }
}

/// Writes some of the bytes, at least one, and answers how many.
///
/// After an `OutFault` the writer holds what it held.
#[inline(always)]
pub fn write_some<W: Sink>(w: &mut W, bytes: &[u8]) -> Result<usize, OutFault>
    requires { 0 < length bytes.now }
    ensures count { IfOk result (λ n. (0 < n) × (n ≤ length bytes.now)) }
    ensures ok { IfOk result (λ n.
        Appends (W.contents w.old) (W.contents w.new) (take n bytes.now)) }
    ensures err { OnErr result (Keeps (W.contents w.old) (W.contents w.new)) }
    ensures failed { OnErr result (W.failed w.new) }
    ensures stays { W.failed w.old → W.failed w.new }
{
    w.write_some(bytes)
}

/// Writes all the bytes, by repeated calls of the writer.
#[inline(never)]
fn write_rest<W: Sink>(w: &mut W, bytes: &[u8]) -> Result<(), OutFault>
    ensures writes { Writes result (W.contents w.old) (W.contents w.new) bytes.now }
    ensures failed { OnErr result (W.failed w.new) }
    ensures stays { W.failed w.old → W.failed w.new }
{
    let mut done = 0;
    while done < bytes.len() {
        done += write_some(w, &bytes[done..])?;
    }
    Ok(())
}

/// Does what `write_whole` does, inlined at the call.
#[inline(always)]
pub(crate) fn write_at_once<W: Sink>(w: &mut W, bytes: &[u8]) -> Result<(), OutFault>
    ensures writes { Writes result (W.contents w.old) (W.contents w.new) bytes.now }
    ensures failed { OnErr result (W.failed w.new) }
    ensures stays { W.failed w.old → W.failed w.new }
{
    if bytes.is_empty() {
        return Ok(());
    }
    // Most writers take all bytes in one call.
    let done = write_some(w, bytes)?;
    if done < bytes.len() {
        return write_rest(w, &bytes[done..]);
    }
    Ok(())
}

/// Writes all the bytes. After an `OutFault` the writer holds a prefix of them.
#[inline(always)]
pub fn write_whole<W: Sink>(w: &mut W, bytes: &[u8]) -> Result<(), OutFault>
    ensures writes { Writes result (W.contents w.old) (W.contents w.new) bytes.now }
    ensures failed { OnErr result (W.failed w.new) }
    ensures stays { W.failed w.old → W.failed w.new }
{
    write_at_once(w, bytes)
}

/// Joins pieces in a line, if it has room for them all, and answers how many bytes they have.
#[inline(always)]
fn joined(pieces: &[&[u8]], line: &mut [u8]) -> Option<usize>
    ensures within { IfSome result (λ n. n ≤ length line.new) }
    ensures bytes { IfSome result (λ n. take n line.new ≡ flat_map (λ p. p.now) pieces.now) }
{
    let mut end = 0;
    for piece in pieces {
        if line.len() - end < piece.len() {
            return None;
        }
        line[end..end + piece.len()].copy_from_slice(piece);
        end += piece.len();
    }
    Some(end)
}

/// Writes one piece after the other, each by a call of the writer.
#[inline(never)]
pub(crate) fn write_each<W: Sink>(w: &mut W, pieces: &[&[u8]]) -> Result<(), OutFault>
    ensures writes { Writes result (W.contents w.old) (W.contents w.new) (flat_map (λ p. p.now) pieces.now) }
    ensures failed { OnErr result (W.failed w.new) }
    ensures stays { W.failed w.old → W.failed w.new }
{
    for piece in pieces {
        write_whole(w, piece)?;
    }
    Ok(())
}

/// Writes one piece after the other. After an `OutFault` the writer holds a prefix of them all.
#[inline(always)]
pub fn write_pieces<W: Sink>(w: &mut W, pieces: &[&[u8]]) -> Result<(), OutFault>
    ensures writes { Writes result (W.contents w.old) (W.contents w.new) (flat_map (λ p. p.now) pieces.now) }
    ensures failed { OnErr result (W.failed w.new) }
    ensures stays { W.failed w.old → W.failed w.new }
{
    // Short pieces go as one, since each is a call of the writer.
    let mut line = [0u8; LINE];
    match joined(pieces, &mut line) {
        Some(end) => write_whole(w, &line[..end]),
        None => write_each(w, pieces),
    }
}

/// Flushes a writer.
pub fn flush_whole<W: Sink>(w: &mut W) -> Result<(), OutFault>
    ensures bytes { Keeps (W.contents w.old) (W.contents w.new) }
    ensures failed { OnErr result (W.failed w.new) }
    ensures stays { W.failed w.old → W.failed w.new }
{
    w.flush_whole()
}
