// The state of the standard streams and of the inputs: why a call on one failed.

use std::cell::Cell;
use std::fs::Metadata;
use std::io::{self, ErrorKind, Read, Write};
use std::os::unix::fs::MetadataExt;

/// The number of the system's error for a descriptor that is not open.
const NOT_OPEN: i32 = 9;

/// The numbers that tell one file of the system from another.
#[derive(Clone, Copy, PartialEq, Eq)]
pub(crate) struct FileNumber {
    device: u64,
    inode: u64,
}

impl FileNumber {
    /// Returns the number of the file that was looked at.
    pub(crate) fn of(found: &Metadata) -> FileNumber {
        FileNumber {
            device: found.dev(),
            inode: found.ino(),
        }
    }
}

/// The state of what is read and written, as it was seen last. It is kept in cells, which no clause
/// mentions.
#[derive(Drop)]
pub struct Seen {
    /// The number of the error of the last read that failed.
    read_error: Cell<Option<i32>>,
    /// The regular file into which standard output writes, if no input may be that.
    output_file: Cell<Option<FileNumber>>,
    /// True if standard input is not read, since standard output writes into its file.
    is_own: Cell<bool>,
    /// True if the last read that failed was refused, since standard output writes into the file.
    reads_output: Cell<bool>,
    /// The number of the error of the last write on standard output that failed.
    output_error: Cell<Option<i32>>,
    /// The number of the error of the last write on standard error that failed.
    errors_error: Cell<Option<i32>>,
}

impl Seen {
    /// Returns the state when nothing was seen yet.
    pub fn new() -> Seen {
        Seen {
            read_error: Cell::new(None),
            output_file: Cell::new(None),
            is_own: Cell::new(false),
            reads_output: Cell::new(false),
            output_error: Cell::new(None),
            errors_error: Cell::new(None),
        }
    }

    /// The number of the error of the last read that failed, if the system gave one.
    pub fn read_error(&self) -> Option<i32> {
        self.read_error.get()
    }

    /// Returns true if the last read that failed was refused: standard output writes into the file.
    pub fn reads_output(&self) -> bool {
        self.reads_output.get()
    }

    /// The regular file into which standard output writes, if no input may be that.
    pub(crate) fn output_file(&self) -> Option<FileNumber> {
        self.output_file.get()
    }

    /// Lets no later input be this regular file, into which standard output writes.
    pub(crate) fn keep_apart(&self, output: Option<FileNumber>) {
        self.output_file.set(output);
    }

    /// Refuses each later read of standard input.
    pub fn refuse_input(&self) {
        self.is_own.set(true);
    }

    /// Notes that a read failed with an error of this number, or was refused.
    fn fail_read(&self, number: Option<i32>, reads_output: bool) {
        self.read_error.set(number);
        self.reads_output.set(reads_output);
    }

    /// The number of the error of the last write on standard output that failed, if the system gave
    /// one.
    pub fn output_error(&self) -> Option<i32> {
        self.output_error.get()
    }

    /// The number of the error of the last write on standard error that failed, if the system gave
    /// one.
    pub fn errors_error(&self) -> Option<i32> {
        self.errors_error.get()
    }

    /// Notes that a write failed, on standard error or on standard output.
    fn fail(&self, error: &io::Error, is_of_errors: bool) {
        let number = error.raw_os_error();
        if is_of_errors {
            self.errors_error.set(number);
        } else {
            self.output_error.set(number);
        }
    }
}

/// A reader whose faults are seen.
#[derive(Drop)]
pub struct SeenReader<'a, R> {
    reader: R,
    seen: &'a Seen,
    /// True if it is standard input.
    is_input: bool,
    /// True if it is standard input, and closed: the file that holds its place fails for a reason
    /// of its own.
    is_closed: bool,
}

impl<'a, R> SeenReader<'a, R> {
    /// The reader of a file that was opened.
    pub fn new(reader: R, seen: &'a Seen) -> SeenReader<'a, R> {
        SeenReader {
            reader,
            seen,
            is_input: false,
            is_closed: false,
        }
    }

    /// The reader of standard input, which may be closed.
    pub fn input(reader: R, is_closed: bool, seen: &'a Seen) -> SeenReader<'a, R> {
        SeenReader {
            reader,
            seen,
            is_input: true,
            is_closed,
        }
    }

    /// Notes that a read failed.
    fn fail(&self, error: &io::Error) {
        let number = if self.is_closed {
            Some(NOT_OPEN)
        } else {
            error.raw_os_error()
        };
        self.seen.fail_read(number, false);
    }
}

impl<'a, R: Read> Read for SeenReader<'a, R> {
    ghost remaining = { λ r. R.remaining r.reader };

    fn read(&mut self, buf: &mut [u8]) -> io::Result<usize> {
        if self.is_input && self.seen.is_own.get() {
            self.seen.fail_read(None, true);
            return Err(io::Error::from(ErrorKind::InvalidInput));
        }
        let read = self.reader.read(buf);
        if let Err(error) = &read {
            self.fail(error);
        }
        read
    }
}

/// A writer whose faults are seen.
#[derive(Drop)]
pub struct SeenWriter<'a, W> {
    writer: W,
    seen: &'a Seen,
    /// True if it is standard error.
    is_of_errors: bool,
}

impl<'a, W> SeenWriter<'a, W> {
    /// Returns the writer of standard output, with nothing written yet.
    pub fn output(writer: W, seen: &'a Seen) -> SeenWriter<'a, W> {
        SeenWriter {
            writer,
            seen,
            is_of_errors: false,
        }
    }

    /// Standard error.
    pub fn errors(writer: W, seen: &'a Seen) -> SeenWriter<'a, W> {
        SeenWriter {
            writer,
            seen,
            is_of_errors: true,
        }
    }
}

impl<'a, W: Write> Write for SeenWriter<'a, W> {
    ghost contents = { λ w. W.contents w.writer };

    fn write(&mut self, buf: &[u8]) -> io::Result<usize> {
        let written = self.writer.write(buf);
        if let Err(error) = &written {
            self.seen.fail(error, self.is_of_errors);
        }
        written
    }

    fn flush(&mut self) -> io::Result<()> {
        let flushed = self.writer.flush();
        if let Err(error) = &flushed {
            self.seen.fail(error, self.is_of_errors);
        }
        flushed
    }
}
