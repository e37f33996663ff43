// Output through a buffer, which passes many bytes in one call.
ghost use Rattle.std.specs.Prelude.{◌≡◌, ◌+◌, ◌<◌, ◌≤◌, [], ◌-◌, Some, length, take, min, true, false};
ghost use Rattle.std.specs.Prelude.{IfOk, OnOk, OnErr, vec_capacity, vec_len};
ghost use Rattle.std.specs.Io.KnownBytes.{Keeps, Appends};
ghost use Rattle.cdb_show.specs.Views.Noted.{HasFailed};

use crate::noted::Noted;
use cdb_form::{OutFault, Sink};
use std::alloc::{AllocError, Global};
use std::io::Write;

/// The most bytes that go straight to the writer in one call. For more of them a file's cache takes
/// memory in larger blocks, which costs the system more.
const MOST: usize = 131072;

/// Takes bytes for a writer, passes many of them in one call, and notes what the writer took.
#[derive(Drop)]
pub struct Output<W> {
    writer: Noted<W>,
    /// The bytes that were taken. The writer has the bytes before `start`.
    buffer: Vec<u8>,
    start: usize,
    size: usize,
    /// The writer has failed.
    failed: bool,
    ghost some: { 0 < size },
    ghost within: { start ≤ vec_len buffer },
    ghost least: { vec_len buffer ≤ size },
    ghost room: { size ≤ vec_capacity buffer },
    ghost marked: { failed ≡ true → ∥ HasFailed writer.trace.events ∥₁ },
}

impl<W: Write> Output<W> {
    ghost use Rattle.cdb_show.specs.Views.Output.{output_bytes, passed_bytes, held_by};

    /// Returns an output over a writer, with nothing noted yet and an empty buffer for `size`
    /// bytes.
    pub fn new(alloc: Global, writer: W, size: usize) -> Result<Output<W>, AllocError>
    where
        W: Drop,
        requires { 0 < size }
        ensures bytes { IfOk result (λ o. output_bytes o ≡ Some []) }
        ensures passes { IfOk result (λ o. passed_bytes W.contents o ≡ W.contents writer) }
        ensures empty { IfOk result (λ o. held_by o ≡ []) }
        ensures size { IfOk result (λ o. o.size ≡ size) }
        ensures sound { IfOk result (λ o. o.failed ≡ false) }
    {
        let buffer = Vec::with_capacity(alloc, size)?;
        Ok(Output {
            writer: Noted::over(writer),
            buffer,
            start: 0,
            size,
            failed: false,
        })
    }

    /// Returns true if the writer has failed.
    pub fn has_failed(&self) -> bool
        ensures { result ≡ self.now.failed }
    {
        self.failed
    }

    /// Passes all held bytes to the writer. After a fault the bytes that the writer did not take
    /// are still held.
    #[cold]
    #[inline(never)]
    fn hand_on(&mut self) -> Result<(), OutFault>
        ensures bytes { Keeps (output_bytes self.old)
            (output_bytes self.new) }
        ensures passes { Keeps (passed_bytes W.contents self.old)
            (passed_bytes W.contents self.new) }
        ensures empty { OnOk result (vec_len self.new.buffer ≡ 0) }
        ensures failed { OnErr result (self.new.failed ≡ true) }
        ensures sound { OnOk result (self.new.failed ≡ self.old.failed) }
    {
        while self.start < self.buffer.len() {
            let gone = self.writer.write_some(&self.buffer[self.start..]);
            self.failed |= gone.is_err();
            self.start += gone?;
        }
        self.buffer.clear();
        self.start = 0;
        Ok(())
    }

    /// Passes the held bytes to the writer, and then some of `bytes`, at least one, straight to it.
    #[cold]
    #[inline(never)]
    fn pass_on(&mut self, bytes: &[u8]) -> Result<usize, OutFault>
        requires { 0 < length bytes.now }
        ensures count { IfOk result (λ n. (0 < n) × (n ≤ length bytes.now)) }
        ensures ok { IfOk result (λ n. Appends (output_bytes self.old)
            (output_bytes self.new) (take n bytes.now)) }
        ensures err { OnErr result
            (Keeps (output_bytes self.old) (output_bytes self.new)) }
        ensures passes { IfOk result (λ n. Appends (passed_bytes W.contents self.old)
            (passed_bytes W.contents self.new) (take n bytes.now)) }
        ensures passes_none { OnErr result (Keeps (passed_bytes W.contents self.old)
            (passed_bytes W.contents self.new)) }
        ensures failed { OnErr result (self.new.failed ≡ true) }
        ensures sound { OnOk result (self.new.failed ≡ self.old.failed) }
    {
        self.hand_on()?;
        let most = bytes.len().min(MOST);
        let gone = self.writer.write_some(&bytes[..most]);
        self.failed |= gone.is_err();
        gone
    }

    /// Takes bytes into the buffer, up to the room in it, and returns their number.
    fn take(&mut self, bytes: &[u8]) -> usize
        ensures count { result ≡ min (length bytes.now) (self.old.size - vec_len self.old.buffer) }
        ensures ok { Appends (output_bytes self.old) (output_bytes self.new)
            (take result bytes.now) }
        ensures passes { Appends (passed_bytes W.contents self.old)
            (passed_bytes W.contents self.new) (take result bytes.now) }
        ensures sound { self.new.failed ≡ self.old.failed }
    {
        let n = bytes.len().min(self.size - self.buffer.len());
        // It has room for them, so no memory is requested.
        let _ = self.buffer.extend_from_slice(&bytes[..n]);
        n
    }
}

impl<W: Write> Sink for Output<W> {
    ghost use Rattle.std.specs.Prelude.{◌≡◌, true};
    ghost use Rattle.cdb_show.specs.Views.Output.{output_bytes, passed_bytes, held_by, HasHandedOn};

    ghost contents = { output_bytes };

    ghost failed = { λ output. output.failed ≡ true };

    #[inline(always)]
    fn write_some(&mut self, bytes: &[u8]) -> Result<usize, OutFault>
        requires { 0 < length bytes.now }
        ensures count { IfOk result (λ n. (0 < n) × (n ≤ length bytes.now)) }
        ensures ok { IfOk result (λ n. Appends (output_bytes self.old)
            (output_bytes self.new) (take n bytes.now)) }
        ensures err { OnErr result
            (Keeps (output_bytes self.old) (output_bytes self.new)) }
        ensures passes { IfOk result (λ n. Appends (passed_bytes W.contents self.old)
            (passed_bytes W.contents self.new) (take n bytes.now)) }
        ensures passes_none { OnErr result (Keeps (passed_bytes W.contents self.old)
            (passed_bytes W.contents self.new)) }
        ensures failed { OnErr result (self.new.failed ≡ true) }
        ensures stays { self.old.failed ≡ true → self.new.failed ≡ true }
        ensures sound { OnOk result (self.new.failed ≡ self.old.failed) }
    {
        // More than the buffer has room for isn't copied.
        if self.size < bytes.len() {
            return self.pass_on(bytes);
        }
        if self.buffer.len() == self.size {
            self.hand_on()?;
        }
        Ok(self.take(bytes))
    }

    fn flush_whole(&mut self) -> Result<(), OutFault>
        ensures bytes { Keeps (output_bytes self.old)
            (output_bytes self.new) }
        ensures passes { Keeps (passed_bytes W.contents self.old)
            (passed_bytes W.contents self.new) }
        ensures failed { OnErr result (self.new.failed ≡ true) }
        ensures stays { self.old.failed ≡ true → self.new.failed ≡ true }
        // Its writer then holds all that was taken, of every writer that reports what it holds.
        ensures passed { OnOk result (Keeps (passed_bytes W.contents self.old)
            (W.contents self.new.writer.writer)) }
        // The writer has all that was taken, or it failed.
        ensures empty { OnOk result (held_by self.new ≡ []) }
        ensures handed { HasHandedOn self.new }
        ensures sound { OnOk result (self.new.failed ≡ self.old.failed) }
    {
        let handed = self.hand_on();
        handed?;
        let flushed = self.writer.flush_whole();
        self.failed |= flushed.is_err();
        flushed
    }
}
