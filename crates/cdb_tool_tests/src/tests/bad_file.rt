// A file of which some bytes can't be read.
ghost use Rattle.std.specs.Prelude.{◌≡◌, ◌<◌, ◌≤◌, [], length, IfOk};

use cdb_store::{Call, RawFault, RawFile, Trace, note_part};

/// A file in memory that is only read, and fails each read of a bad byte.
#[derive(Drop)]
pub struct BadFile<'a> {
    bytes: Vec<u8>,
    /// Where the bad bytes are: each range from its first place up to its second.
    bad: &'a [(u64, u64)],
    trace: Trace,
}

impl<'a> BadFile<'a> {
    /// A file of these bytes, of which those in the ranges are bad.
    pub fn new(bytes: Vec<u8>, bad: &'a [(u64, u64)]) -> BadFile<'a>
        ensures { result.trace.events ≡ [] }
    {
        BadFile {
            bytes,
            bad,
            trace: Trace::new(),
        }
    }

    /// Returns true if so many bytes from a position on are good.
    fn is_good(&self, pos: u64, n: usize) -> bool {
        let end = pos.saturating_add(n as u64);
        self.bad
            .iter()
            .all(|range| end <= range.0 || range.1 <= pos)
    }
}

/// Copies the bytes from a position on, as many as there are.
fn copy_out(bytes: &[u8], pos: u64, into: &mut [u8]) -> Result<usize, RawFault>
    requires { 0 < length into.old }
    ensures { IfOk result (λ n. (0 < n) × (n ≤ length into.old)) }
{
    if pos >= bytes.len() as u64 {
        return Err(RawFault::Failed);
    }
    let rest = &bytes[pos as usize..];
    let n = rest.len().min(into.len());
    into[..n].copy_from_slice(&rest[..n]);
    Ok(n)
}

impl RawFile for BadFile<'_> {
    ghost calls = { λ f. f.trace.events };

    fn read_some(&mut self, pos: u64, into: &mut [u8]) -> Result<usize, RawFault> {
        let answer = if self.is_good(pos, into.len()) {
            copy_out(&self.bytes, pos, into)
        } else {
            Err(RawFault::Failed)
        };
        note_part(&mut self.trace, Call::Read(pos), Call::Failed, into, answer);
        answer
    }

    fn write_some(&mut self, pos: u64, bytes: &[u8]) -> Result<usize, RawFault> {
        self.trace
            .note(&Call::NotWritten(pos, bytes.len() as u64), &[]);
        Err(RawFault::Failed)
    }

    fn length(&mut self) -> Result<u64, RawFault> {
        let len = self.bytes.len() as u64;
        self.trace.note(&Call::Length(len), &[]);
        Ok(len)
    }

    fn set_length(&mut self, len: u64) -> Result<(), RawFault> {
        self.trace.note(&Call::NotCut(len), &[]);
        Err(RawFault::Failed)
    }

    fn sync(&mut self) -> Result<(), RawFault> {
        self.trace.note(&Call::NotSynced, &[]);
        Err(RawFault::Failed)
    }

    fn give(&mut self, pos: u64, bytes: &[u8]) {
        self.trace.note(&Call::Gave(pos), bytes);
    }

    fn refuse(&mut self) {
        self.trace.note(&Call::Refused, &[]);
    }

    fn refuse_sync(&mut self) {
        self.trace.note(&Call::NotSynced, &[]);
    }

    fn give_up(&mut self, pos: u64, n: u64) {
        self.trace.note(&Call::NotWritten(pos, n), &[]);
    }

    fn lose(&mut self, _least: u64, _most: u64) {
        self.trace.note(&Call::Lost, &[]);
    }
}
