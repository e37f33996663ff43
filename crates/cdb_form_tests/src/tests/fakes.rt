// Readers and writers that fail on command.
use cdb_form::OutFault;
use std::alloc::Global;
use std::io::{self, ErrorKind, Read, Write};
use std::prelude::*;

/// What a reader does after its text.
#[derive(Clone, Copy, PartialEq, Eq)]
pub(super) enum Behind {
    End,
    Failure,
    ForEver(u8),
}

/// Gives a text in pieces, and counts the calls and notes the greatest request. Before each piece
/// it is interrupted so often.
#[derive(Drop)]
pub(super) struct FakeReader<'a> {
    pub(super) text: &'a [u8],
    pub(super) behind: Behind,
    pub(super) interrupts: u64,
    pub(super) interrupts_each: u64,
    pub(super) most: usize,
    pub(super) greatest_ask: usize,
    pub(super) calls: u64,
}

impl<'a> FakeReader<'a> {
    pub(super) fn new(text: &'a [u8], behind: Behind) -> FakeReader<'a> {
        FakeReader {
            text,
            behind,
            interrupts: 0,
            interrupts_each: 0,
            most: usize::MAX,
            greatest_ask: 0,
            calls: 0,
        }
    }

    /// First interrupted so often, and again after nothing.
    pub(super) fn interrupted(text: &'a [u8], interrupts: u64) -> FakeReader<'a> {
        let mut reader = FakeReader::new(text, Behind::End);
        reader.interrupts = interrupts;
        reader
    }

    /// Interrupted so often before each byte.
    pub(super) fn interrupted_each(text: &'a [u8], interrupts: u64) -> FakeReader<'a> {
        let mut reader = FakeReader::interrupted(text, interrupts);
        reader.interrupts_each = interrupts;
        reader.most = 1;
        reader
    }
}

impl Read for FakeReader<'_> {
    fn read(&mut self, buf: &mut [u8]) -> io::Result<usize> {
        self.greatest_ask = self.greatest_ask.max(buf.len());
        self.calls = self.calls.saturating_add(1);
        if self.interrupts > 0 {
            self.interrupts -= 1;
            return Err(io::Error::from(ErrorKind::Interrupted));
        }
        let n = buf.len().min(self.text.len()).min(self.most);
        if n == 0 && self.text.is_empty() {
            return match self.behind {
                Behind::End => Ok(0),
                Behind::Failure => Err(io::Error::from(ErrorKind::Other)),
                Behind::ForEver(byte) => {
                    for place in buf.iter_mut() {
                        *place = byte;
                    }
                    Ok(buf.len())
                }
            };
        }
        let (piece, rest) = self.text.split_at(n);
        buf[..n].copy_from_slice(piece);
        self.text = rest;
        self.interrupts = self.interrupts_each;
        Ok(n)
    }
}

/// Takes so many bytes, a few at a time, and then fails or takes none. Before each piece it is
/// interrupted so often.
#[derive(Drop)]
pub(super) struct FakeWriter {
    pub(super) held: Vec<u8>,
    pub(super) room: usize,
    pub(super) most: usize,
    pub(super) interrupts: u64,
    pub(super) interrupts_each: u64,
    pub(super) takes_none: bool,
    pub(super) flushed: bool,
}

impl FakeWriter {
    pub(super) fn new(alloc: Global, room: usize, interrupts: u64) -> FakeWriter {
        FakeWriter {
            held: Vec::new(alloc),
            room,
            most: 3,
            interrupts,
            interrupts_each: 0,
            takes_none: false,
            flushed: false,
        }
    }
}

impl FakeWriter {
    /// Returns true if it holds as much of a text as it had room for, and the answer says whether
    /// that is the whole text.
    pub(super) fn holds_prefix(
        &self,
        answer: Result<(), OutFault>,
        text: &[u8],
        room: usize,
    ) -> bool {
        let front = text.get(..room).unwrap_or(text);
        let is_whole = room >= text.len();
        self.held.as_slice() == front && answer.is_ok() == is_whole
    }
}

impl Write for FakeWriter {
    fn write(&mut self, buf: &[u8]) -> io::Result<usize> {
        if self.interrupts > 0 {
            self.interrupts -= 1;
            return Err(io::Error::from(ErrorKind::Interrupted));
        }
        let n = buf.len().min(self.most).min(self.room);
        if n == 0 && self.takes_none {
            return Ok(0);
        }
        if n == 0 {
            return Err(io::Error::from(ErrorKind::Other));
        }
        self.interrupts = self.interrupts_each;
        self.held.extend_from_slice(&buf[..n])?;
        self.room -= n;
        Ok(n)
    }

    fn flush(&mut self) -> io::Result<()> {
        if self.interrupts > 0 {
            self.interrupts -= 1;
            return Err(io::Error::from(ErrorKind::Interrupted));
        }
        self.flushed = true;
        Ok(())
    }
}
