//! The program `cdb`: makes constant databases.
#![tactic(auto)]

mod base_head;
mod building;
mod contents;
mod creating;
pub mod laws;
mod performing;
mod placing;
mod steps;
mod streams;

use crate::streams::Streams;
use cdb_form::PIPE;
use cdb_names::RealNames;
use cdb_show::NotedReader;
use cdb_store::LAST_STANDARD;
use cdb_system::{RealSystem, Seen, SeenReader, SeenWriter, refuse_unbuffered};
use cdb_tool::{Output, Usage};
use std::env::{Env, FillError};
use std::fs::File;
use std::io::{ErrorKind, Stderr, Stdout};
use std::os::fd::AsRawFd;
use std::process::ExitCode;

/// The number of bytes of lines on standard error that are held before they are written. A line
/// that finds room there is part of one write, so that no other program's line comes between.
const LINES: usize = 4096;

/// The device that takes all and gives nothing.
const NULL: &str = "/dev/null";

/// Passes the words and the streams to `steps::run`, and returns the exit status.
fn main(rt: HostRuntime) -> ExitCode {
    let held = all_held(&rt);
    let seen = Seen::new();
    let status = match begun(&rt, &seen) {
        Ok(beginning) => {
            let Beginning { words, mut streams } = beginning;
            let mut system = RealSystem::new(&rt, &seen);
            let mut names = RealNames::new(&rt);
            let input = NotedReader::over(SeenReader::input(
                rt.stdin(),
                is_input_held(&held),
                &seen,
            ));
            let (_, status) = steps::run(
                rt.alloc(),
                &mut system,
                &mut names,
                words,
                input,
                &mut streams,
            );
            status
        }
        Err(usage) => refuse_unbuffered(&usage, &mut rt.stderr()).0,
    };
    ExitCode::from(status)
}

/// The words and the streams that a command begins with.
struct Beginning<'a> {
    /// The words of the command line.
    words: Vec<String>,
    /// The standard streams that are written, with their buffers.
    streams: Streams<Output<SeenWriter<'a, Stdout>>, Output<SeenWriter<'a, Stderr>>>,
}

/// Returns the words of the command line, and the standard streams to write, with their buffers.
fn begun<'a>(rt: &HostRuntime, seen: &'a Seen) -> Result<Beginning<'a>, Usage> {
    let alloc = rt.alloc();
    Ok(Beginning {
        words: words_of(rt)?,
        streams: Streams {
            output: Output::new(alloc, SeenWriter::output(rt.stdout(), seen), PIPE)?,
            errors: Output::new(alloc, SeenWriter::errors(rt.stderr(), seen), LINES)?,
        },
    })
}

/// Returns the files that hold the places of closed standard streams. If the first file that is
/// opened gets no number of a standard stream, all streams are open.
fn all_held(rt: &HostRuntime) -> [Option<File>; 3] {
    match held(rt) {
        None => [None, None, None],
        Some(first) => [Some(first), held(rt), held(rt)],
    }
}

/// Returns true if the place of standard input is held: it is closed.
fn is_input_held(held: &[Option<File>; 3]) -> bool {
    matches!(&held[0], Some(first) if first.as_raw_fd() == 0)
}

/// Returns a file that holds the place of a closed standard stream, if one is closed. Otherwise a
/// file of the program would get its number, and what is meant for the stream would be written into
/// a database. A folder is neither read nor written, like the closed stream. If no folder can be
/// opened, the null device takes its place, opened so that it cannot do what the stream would do.
fn held(rt: &HostRuntime) -> Option<File> {
    for folder in ["/", "."] {
        if let Ok(folder) = File::open(rt, folder) {
            return standard(folder);
        }
    }
    match File::options().write(true).open(rt, NULL) {
        Ok(input) if input.as_raw_fd() == 0 => Some(input),
        Ok(output) => {
            drop(output);
            standard(File::open(rt, NULL).ok()?)
        }
        Err(_) => None,
    }
}

/// Returns the file, if it has the number of a standard stream.
fn standard(file: File) -> Option<File> {
    if file.as_raw_fd() <= LAST_STANDARD {
        Some(file)
    } else {
        None
    }
}

/// The command line with an empty word for the program's own name, which need be no text.
#[derive(Drop)]
struct Unnamed<'a> {
    rt: &'a HostRuntime,
}

impl Env for Unnamed<'_> {
    fn arg(&self, i: usize, buf: &mut [u8]) -> Result<usize, FillError> {
        if i == 0 { Ok(0) } else { self.rt.arg(i, buf) }
    }

    fn var(&self, name: &str, buf: &mut [u8]) -> Result<usize, FillError> {
        self.rt.var(name, buf)
    }

    fn var_at(&self, i: usize, buf: &mut [u8]) -> Result<usize, FillError> {
        self.rt.var_at(i, buf)
    }
}

/// The words of the command line. One that is no text is not understood.
fn words_of(rt: &HostRuntime) -> Result<Vec<String>, Usage> {
    match std::env::args(&(Unnamed { rt }, rt.alloc())) {
        Err(e) if e.kind() == ErrorKind::OutOfMemory => Err(Usage::NoMemory),
        Err(_) => Err(Usage::Words),
        Ok(args) => Ok(args.collect::<Vec<String>>(rt.alloc())?),
    }
}
