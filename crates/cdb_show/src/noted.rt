// A writer of the system, and what it took.
ghost use Rattle.std.specs.Prelude.{◌≡◌, ◌<◌, ◌≤◌, [], Some, length, take, IfOk, OnErr};
ghost use Rattle.std.specs.Io.KnownBytes.{Appends, Keeps};

use cdb_form::{OutFault, Sink, flush_whole, write_some};
use cdb_store::{Call, Trace};
use std::io::Write;

/// A writer that notes what it took and whether it failed, in data that only clauses read. So a
/// clause can speak of the bytes of a writer of the system too. A write is trusted to have taken
/// the number of bytes that it answered, as a file's write is.
#[derive(Drop)]
pub struct Noted<W> {
    writer: W,
    trace: Trace,
}

impl<W> Noted<W> {
    ghost use Rattle.cdb_show.specs.Views.Noted.{noted_by};

    /// Returns a writer over `writer` that has noted nothing yet.
    pub fn over(writer: W) -> Noted<W>
        ensures notes { noted_by result ≡ [] }
        ensures over { result.writer ≡ writer }
    {
        Noted {
            writer,
            trace: Trace::new(),
        }
    }
}

impl<W: Write> Sink for Noted<W> {
    ghost use Rattle.cdb_show.specs.Views.Noted.{HasFailed, noted_by};

    ghost contents = { λ n. Some (noted_by n) };

    ghost failed = { λ n. HasFailed n.trace.events };

    #[inline(always)]
    fn write_some(&mut self, bytes: &[u8]) -> Result<usize, OutFault>
        requires { 0 < length bytes.now }
        ensures count { IfOk result (λ n. (0 < n) × (n ≤ length bytes.now)) }
        ensures ok { IfOk result (λ n. Appends (Some (noted_by self.old)) (Some (noted_by self.new))
            (take n bytes.now)) }
        ensures err { OnErr result (Keeps (Some (noted_by self.old)) (Some (noted_by self.new))) }
        ensures failed { OnErr result (HasFailed self.new.trace.events) }
        ensures stays { HasFailed self.old.trace.events → HasFailed self.new.trace.events }
        // And its writer took these bytes, of every writer that reports what it holds.
        ensures passes { IfOk result (λ n.
            Appends (W.contents self.old.writer) (W.contents self.new.writer) (take n bytes.now)) }
        ensures passes_none { OnErr result
            (Keeps (W.contents self.old.writer) (W.contents self.new.writer)) }
    {
        match write_some(&mut self.writer, bytes) {
            Ok(n) => {
                self.trace.note(&Call::Wrote(0), &bytes[..n]);
                Ok(n)
            }
            Err(fault) => {
                self.trace
                    .note(&Call::NotWritten(0, bytes.len() as u64), &[]);
                Err(fault)
            }
        }
    }

    #[inline(always)]
    fn flush_whole(&mut self) -> Result<(), OutFault>
        ensures bytes { Keeps (Some (noted_by self.old)) (Some (noted_by self.new)) }
        ensures failed { OnErr result (HasFailed self.new.trace.events) }
        ensures stays { HasFailed self.old.trace.events → HasFailed self.new.trace.events }
        ensures passes { Keeps (W.contents self.old.writer) (W.contents self.new.writer) }
    {
        match flush_whole(&mut self.writer) {
            Ok(()) => Ok(()),
            Err(fault) => {
                self.trace.note(&Call::Failed, &[]);
                Err(fault)
            }
        }
    }
}
