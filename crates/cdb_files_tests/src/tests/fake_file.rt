// A raw file in memory that fails its calls from one on.
ghost use Rattle.std.specs.Prelude.{◌≡◌, ◌<◌, ◌≤◌, [], ◌∷◌, length, IfOk};

use cdb_store::{Call, RawFault, RawFile, Trace, note_part};

/// A file in memory. So many of its calls in a row, from one on, fail.
#[derive(Drop)]
pub struct FakeFile {
    pub bytes: Vec<u8>,
    /// True if nothing was changed since it was synced.
    pub is_sure: bool,
    trace: Trace,
    calls: u64,
    first: u64,
    count: u64,
}

impl FakeFile {
    /// A file that was just made.
    pub fn made(bytes: Vec<u8>, first: u64, count: u64) -> FakeFile
        ensures { result.trace.events ≡ (Call.Made, []) ∷ [] }
    {
        let mut trace = Trace::new();
        trace.note(&Call::Made, &[]);
        FakeFile {
            bytes,
            is_sure: false,
            trace,
            calls: 0,
            first,
            count,
        }
    }

    /// The calls on it.
    pub fn trace(&self) -> &Trace
        ensures { result.now ≡ self.now.trace }
    {
        &self.trace
    }

    /// Counts a call, and answers whether it fails.
    fn fails(&mut self) -> bool
        ensures { self.new.trace ≡ self.old.trace }
    {
        let call = self.calls;
        self.calls = call.saturating_add(1);
        call >= self.first && call - self.first < self.count
    }
}

/// Copies the bytes from a position on, as many as there are.
fn copy_out(bytes: &[u8], pos: u64, into: &mut [u8]) -> Result<usize, RawFault>
    requires { 0 < length into.old }
    ensures { IfOk result (λ n. (0 < n) × (n ≤ length into.new)) }
{
    if pos >= bytes.len() as u64 {
        return Err(RawFault::Failed);
    }
    let rest = &bytes[pos as usize..];
    let n = rest.len().min(into.len());
    into[..n].copy_from_slice(&rest[..n]);
    Ok(n)
}

/// Writes the bytes over what is there and past the end.
fn copy_in(bytes: &mut Vec<u8>, pos: u64, new: &[u8]) -> Result<usize, RawFault>
    requires { 0 < length new.now }
    ensures { IfOk result (λ n. (0 < n) × (n ≤ length new.now)) }
{
    if pos > bytes.len() as u64 || new.len() > 65536 || pos > 1 << 32 {
        return Err(RawFault::Failed);
    }
    let at = pos as usize;
    let over = new.len().min(bytes.len() - at);
    if bytes.extend_from_slice(&new[over..]).is_err() {
        return Err(RawFault::Failed);
    }
    bytes[at..at + over].copy_from_slice(&new[..over]);
    Ok(new.len())
}

impl RawFile for FakeFile {
    ghost calls = { λ f. f.trace.events };

    fn read_some(&mut self, pos: u64, into: &mut [u8]) -> Result<usize, RawFault> {
        let answer = if self.fails() {
            Err(RawFault::Failed)
        } else {
            copy_out(&self.bytes, pos, into)
        };
        note_part(&mut self.trace, Call::Read(pos), Call::Failed, into, answer);
        answer
    }

    fn write_some(&mut self, pos: u64, bytes: &[u8]) -> Result<usize, RawFault> {
        self.is_sure = false;
        let answer = if self.fails() {
            Err(RawFault::Failed)
        } else {
            copy_in(&mut self.bytes, pos, bytes)
        };
        let failed = Call::NotWritten(pos, bytes.len() as u64);
        note_part(&mut self.trace, Call::Wrote(pos), failed, bytes, answer);
        answer
    }

    fn length(&mut self) -> Result<u64, RawFault> {
        if self.fails() {
            self.trace.note(&Call::Failed, &[]);
            return Err(RawFault::Failed);
        }
        let len = self.bytes.len() as u64;
        self.trace.note(&Call::Length(len), &[]);
        Ok(len)
    }

    fn set_length(&mut self, len: u64) -> Result<(), RawFault> {
        self.is_sure = false;
        if self.fails() || len > self.bytes.len() as u64 {
            self.trace.note(&Call::NotCut(len), &[]);
            return Err(RawFault::Failed);
        }
        self.bytes.truncate(len as usize);
        self.trace.note(&Call::Cut(len), &[]);
        Ok(())
    }

    fn sync(&mut self) -> Result<(), RawFault> {
        if self.fails() {
            self.trace.note(&Call::NotSynced, &[]);
            return Err(RawFault::Failed);
        }
        self.is_sure = true;
        self.trace.note(&Call::Synced, &[]);
        Ok(())
    }

    fn give(&mut self, pos: u64, bytes: &[u8]) {
        self.trace.note(&Call::Gave(pos), bytes);
    }

    fn refuse(&mut self) {
        self.trace.note(&Call::Refused, &[]);
    }

    fn refuse_sync(&mut self) {
        self.trace.note(&Call::NotSynced, &[]);
    }

    fn give_up(&mut self, pos: u64, n: u64) {
        self.trace.note(&Call::NotWritten(pos, n), &[]);
    }

    fn lose(&mut self, _least: u64, _most: u64) {
        self.trace.note(&Call::Lost, &[]);
    }
}
