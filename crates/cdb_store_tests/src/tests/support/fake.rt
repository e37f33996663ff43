// A raw file in memory that fails, shortens or interrupts its calls.
ghost use Rattle.std.specs.Prelude.{◌≡◌, ◌<◌, ◌≤◌, [], length, IfOk};

use cdb_store::{Call, RawFault, RawFile, Trace, note_part};

/// What befalls a raw call.
#[derive(Clone, Copy)]
pub enum Trouble {
    /// It fails.
    Fails,
    /// It reads or writes one byte.
    OneByte,
    /// A signal interrupts it.
    Interrupted,
    /// It fails, but a call that requests the length gets this.
    Tells(u64),
    /// It is interrupted, and so are those after it; the one after so many reads or writes one
    /// byte.
    OneByteAfter(u64),
}

/// A file in memory. Some of its calls in a row, from one on, are in trouble.
#[derive(Drop)]
pub struct FakeFile {
    bytes: Vec<u8>,
    trace: Trace,
    calls: u64,
    first: u64,
    count: u64,
    trouble: Trouble,
}

impl FakeFile {
    /// A file of these bytes. Its calls are numbered from 0 on, and `count` of them, from `first`
    /// on, are in trouble.
    pub fn new(bytes: Vec<u8>, first: u64, count: u64, trouble: Trouble) -> FakeFile
        ensures { result.trace.events ≡ [] }
    {
        FakeFile {
            bytes,
            trace: Trace::new(),
            calls: 0,
            first,
            count,
            trouble,
        }
    }

    /// Counts a call, and answers the trouble that it is in.
    fn meet(&mut self) -> Option<Trouble>
        ensures { self.new.trace ≡ self.old.trace }
    {
        let call = self.calls;
        self.calls = call.saturating_add(1);
        if call < self.first || call - self.first >= self.count {
            return None;
        }
        match self.trouble {
            Trouble::OneByteAfter(n) if (call - self.first) % n.saturating_add(1) < n => {
                Some(Trouble::Interrupted)
            }
            trouble => Some(trouble),
        }
    }
}

/// Returns the number of bytes that a call of `n` bytes reads or writes.
fn share(trouble: Option<Trouble>, n: usize) -> Result<usize, RawFault>
    requires { 0 < n }
    ensures { IfOk result (λ k. (0 < k) × (k ≤ n)) }
{
    match trouble {
        None => Ok(n),
        Some(Trouble::OneByte) | Some(Trouble::OneByteAfter(_)) => Ok(1),
        Some(Trouble::Interrupted) => Err(RawFault::Interrupted),
        Some(Trouble::Fails) | Some(Trouble::Tells(_)) => Err(RawFault::Failed),
    }
}

/// Copies the bytes from a position on, as many as there are.
fn copy_out(bytes: &[u8], pos: u64, into: &mut [u8]) -> Result<usize, RawFault>
    requires { 0 < length into.old }
    ensures { IfOk result (λ n. (0 < n) × (n ≤ length into.old)) }
{
    if pos >= bytes.len() as u64 {
        return Err(RawFault::Failed);
    }
    let rest = &bytes[pos as usize..];
    let n = rest.len().min(into.len());
    into[..n].copy_from_slice(&rest[..n]);
    Ok(n)
}

/// Writes the bytes over what is there and past the end.
fn copy_in(bytes: &mut Vec<u8>, pos: u64, new: &[u8]) -> Result<(), RawFault> {
    if pos > bytes.len() as u64 || new.len() > 4096 || pos > 1 << 32 {
        return Err(RawFault::Failed);
    }
    let at = pos as usize;
    let over = new.len().min(bytes.len() - at);
    if bytes.extend_from_slice(&new[over..]).is_err() {
        return Err(RawFault::Failed);
    }
    bytes[at..at + over].copy_from_slice(&new[..over]);
    Ok(())
}

impl RawFile for FakeFile {
    ghost calls = { λ f. f.trace.events };

    fn read_some(&mut self, pos: u64, into: &mut [u8]) -> Result<usize, RawFault> {
        let trouble = self.meet();
        let answer = match share(trouble, into.len()) {
            Ok(n) => copy_out(&self.bytes, pos, &mut into[..n]),
            Err(fault) => Err(fault),
        };
        note_part(&mut self.trace, Call::Read(pos), Call::Failed, into, answer);
        answer
    }

    fn write_some(&mut self, pos: u64, bytes: &[u8]) -> Result<usize, RawFault> {
        let trouble = self.meet();
        let answer = match share(trouble, bytes.len()) {
            Ok(n) => copy_in(&mut self.bytes, pos, &bytes[..n]).map(|()| n),
            Err(fault) => Err(fault),
        };
        let failed = Call::NotWritten(pos, bytes.len() as u64);
        note_part(&mut self.trace, Call::Wrote(pos), failed, bytes, answer);
        answer
    }

    fn length(&mut self) -> Result<u64, RawFault> {
        let len = match self.meet() {
            None | Some(Trouble::OneByte) | Some(Trouble::OneByteAfter(_)) => {
                self.bytes.len() as u64
            }
            Some(Trouble::Tells(len)) => len,
            Some(Trouble::Fails) | Some(Trouble::Interrupted) => {
                self.trace.note(&Call::Failed, &[]);
                return Err(RawFault::Failed);
            }
        };
        self.trace.note(&Call::Length(len), &[]);
        Ok(len)
    }

    fn set_length(&mut self, len: u64) -> Result<(), RawFault> {
        let trouble = self.meet();
        match share(trouble, 1) {
            Ok(_) if len <= self.bytes.len() as u64 => {
                self.bytes.truncate(len as usize);
                self.trace.note(&Call::Cut(len), &[]);
                Ok(())
            }
            _ => {
                self.trace.note(&Call::NotCut(len), &[]);
                Err(RawFault::Failed)
            }
        }
    }

    fn sync(&mut self) -> Result<(), RawFault> {
        let trouble = self.meet();
        match share(trouble, 1) {
            Ok(_) => {
                self.trace.note(&Call::Synced, &[]);
                Ok(())
            }
            Err(_) => {
                self.trace.note(&Call::NotSynced, &[]);
                Err(RawFault::Failed)
            }
        }
    }

    fn give(&mut self, pos: u64, bytes: &[u8]) {
        self.trace.note(&Call::Gave(pos), bytes);
    }

    fn refuse(&mut self) {
        self.trace.note(&Call::Refused, &[]);
    }

    fn refuse_sync(&mut self) {
        self.trace.note(&Call::NotSynced, &[]);
    }

    fn give_up(&mut self, pos: u64, n: u64) {
        self.trace.note(&Call::NotWritten(pos, n), &[]);
    }

    fn lose(&mut self, _least: u64, _most: u64) {
        self.trace.note(&Call::Lost, &[]);
    }
}
