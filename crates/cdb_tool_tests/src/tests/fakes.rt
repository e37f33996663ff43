// Readers and writers that a test makes fail.
use cdb_tool::Fault;
use std::alloc::Global;
use std::io::{self, ErrorKind, Read, Write};
use std::prelude::*;

/// Is interrupted so often, gives its text, and then ends or fails.
#[derive(Drop)]
pub(super) struct FakeReader<'a> {
    pub(super) interrupts: u64,
    pub(super) text: &'a [u8],
    pub(super) fails: bool,
}

impl Read for FakeReader<'_> {
    fn read(&mut self, buf: &mut [u8]) -> io::Result<usize> {
        if self.interrupts > 0 {
            self.interrupts -= 1;
            return Err(io::Error::from(ErrorKind::Interrupted));
        }
        if self.text.is_empty() && self.fails {
            return Err(io::Error::from(ErrorKind::Other));
        }
        self.text.read(buf)
    }
}

/// Takes so many bytes and then fails, counts its flushes, and fails them if it is set to.
#[derive(Drop)]
pub(super) struct FakeWriter {
    pub(super) held: Vec<u8>,
    pub(super) room: usize,
    pub(super) flushes: u64,
    pub(super) flush_fails: bool,
}

impl FakeWriter {
    /// A writer with room for so many bytes, whose flushes do not fail.
    pub(super) fn new(alloc: Global, room: usize) -> FakeWriter {
        FakeWriter {
            held: Vec::new(alloc),
            room,
            flushes: 0,
            flush_fails: false,
        }
    }
}

impl FakeWriter {
    /// Returns true if a run that answered so left in it as much of a text as it had room for, and
    /// flushed it once.
    pub(super) fn holds_prefix(&self, answer: Result<(), Fault>, text: &[u8], room: usize) -> bool {
        let is_whole = room >= text.len();
        let want = if is_whole { Ok(()) } else { Err(Fault::Output) };
        let front = text.get(..room).unwrap_or(text);
        answer == want && self.held.as_slice() == front && self.flushes == 1
    }
}

impl Write for FakeWriter {
    fn write(&mut self, buf: &[u8]) -> io::Result<usize> {
        let n = buf.len().min(self.room);
        if n == 0 {
            return Err(io::Error::from(ErrorKind::Other));
        }
        self.held.extend_from_slice(&buf[..n])?;
        self.room -= n;
        Ok(n)
    }

    fn flush(&mut self) -> io::Result<()> {
        self.flushes = self.flushes.saturating_add(1);
        if self.flush_fails {
            return Err(io::Error::from(ErrorKind::Other));
        }
        Ok(())
    }
}

/// Takes one byte at once, and is interrupted so often before each.
#[derive(Drop)]
pub(super) struct SlowWriter {
    pub(super) held: Vec<u8>,
    pub(super) interrupts_each: u64,
    pub(super) interrupts: u64,
}

impl SlowWriter {
    pub(super) fn new(alloc: Global, interrupts_each: u64) -> SlowWriter {
        SlowWriter {
            held: Vec::new(alloc),
            interrupts_each,
            interrupts: interrupts_each,
        }
    }
}

impl Write for SlowWriter {
    fn write(&mut self, buf: &[u8]) -> io::Result<usize> {
        if self.interrupts > 0 {
            self.interrupts -= 1;
            return Err(io::Error::from(ErrorKind::Interrupted));
        }
        self.interrupts = self.interrupts_each;
        let n = buf.len().min(1);
        self.held.extend_from_slice(&buf[..n])?;
        Ok(n)
    }

    fn flush(&mut self) -> io::Result<()> {
        Ok(())
    }
}

/// Takes nothing, and says so.
#[derive(Drop)]
pub(super) struct FullWriter;

impl Write for FullWriter {
    fn write(&mut self, _: &[u8]) -> io::Result<usize> {
        Ok(0)
    }

    fn flush(&mut self) -> io::Result<()> {
        Ok(())
    }
}

/// Takes so many bytes, fails once, and then takes all.
#[derive(Drop)]
pub(super) struct FlakyWriter {
    pub(super) held: Vec<u8>,
    pub(super) room: usize,
    pub(super) failed: bool,
}

impl Write for FlakyWriter {
    fn write(&mut self, buf: &[u8]) -> io::Result<usize> {
        if self.room == 0 && !self.failed {
            self.failed = true;
            return Err(io::Error::from(ErrorKind::Other));
        }
        let n = if self.failed {
            buf.len()
        } else {
            buf.len().min(self.room)
        };
        self.held.extend_from_slice(&buf[..n])?;
        self.room = self.room.saturating_sub(n);
        Ok(n)
    }

    fn flush(&mut self) -> io::Result<()> {
        Ok(())
    }
}

/// Notes its calls: `w` a write, `f` a flush.
#[derive(Drop)]
pub(super) struct NotingWriter {
    pub(super) calls: Vec<u8>,
    pub(super) fails: bool,
}

impl Write for NotingWriter {
    fn write(&mut self, buf: &[u8]) -> io::Result<usize> {
        self.calls.extend_from_slice(b"w")?;
        if self.fails {
            return Err(io::Error::from(ErrorKind::Other));
        }
        Ok(buf.len())
    }

    fn flush(&mut self) -> io::Result<()> {
        self.calls.extend_from_slice(b"f")?;
        Ok(())
    }
}

impl NotingWriter {
    /// It was flushed once, last.
    pub(super) fn was_flushed_last(&self) -> bool {
        match self.calls.as_slice() {
            [writes @ .., b'f'] => writes.iter().all(|call| *call == b'w'),
            _ => false,
        }
    }
}

/// Gives a text in pieces of two bytes, and counts the requests to it.
#[derive(Drop)]
pub(super) struct CountingReader {
    pub(super) text: &'static [u8],
    pub(super) asked: u64,
}

impl Read for CountingReader {
    fn read(&mut self, buf: &mut [u8]) -> io::Result<usize> {
        self.asked = self.asked.saturating_add(1);
        let n = buf.len().min(2);
        self.text.read(&mut buf[..n])
    }
}
