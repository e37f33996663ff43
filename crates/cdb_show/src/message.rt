// The messages of faults.
ghost use Rattle.std.specs.Prelude.{◌≡◌, OnErr, Some};
ghost use Rattle.cdb_form.specs.Views.KnownBytes.{Writes};
ghost use Rattle.cdb_show.specs.Message.{fault_message, fault_side, numbered, said_place, fault_place};
ghost use Rattle.cdb_show.specs.Message.{read_place};
ghost use Rattle.cdb_show.specs.Message.{fault_text, said_line, fault_line, duplicate_line};

use crate::fault::Fault;
use cdb_form::{OutFault, Sink, TextFault, WalkFault, write_pieces};
use cdb_read::ReadFault;
use cdb_store::MakeFault;
use itoa::Buffer;
use std::error::Error;
use std::fmt;

/// The place of a fault.
#[derive(Clone, Copy)]
enum Place {
    Nowhere,
    /// In an input.
    Input(u64),
    /// At a byte of an input.
    Byte(u64, u64),
    /// In a table of a database file.
    Table(u64),
    /// In the record at a place of a database file.
    Record(u64),
    /// In a slot, counted from 0, of a table of a database file.
    Slot(u64, u64),
}

impl Fault {
    /// Returns the fault in words, without its place.
    pub fn message(&self) -> &'static str
        ensures { result.now ≡ fault_message self.now }
    {
        match *self {
            Fault::Text(_, fault) => fault.message(),
            Fault::Make(fault) => fault.message(),
            Fault::Duplicate => "stopped at a duplicate key",
            Fault::Missing => "no such value",
            Fault::Read(fault) => fault.message(),
            Fault::Walk(fault) => fault.message(),
            Fault::Output => "output cannot be written",
            Fault::Long => MakeFault::TooBig.message(),
            Fault::Open => "file cannot be opened",
            Fault::Rename => "database cannot be renamed",
            Fault::NoMemory => "no memory",
            Fault::Old(fault) => fault.message(),
            Fault::New(fault) => fault.message(),
            Fault::NoOldTables | Fault::NoNewTables | Fault::NoBaseTables => {
                "no tables before its records"
            }
        }
    }

    /// Returns the words that name the old, the new or the base database, if the fault names one.
    fn side(&self) -> &'static str
        ensures { result.now ≡ fault_side self.now }
    {
        match *self {
            Fault::Old(_) | Fault::NoOldTables => "old database: ",
            Fault::New(_) | Fault::NoNewTables => "new database: ",
            Fault::NoBaseTables => "base database: ",
            _ => "",
        }
    }

    /// Returns the place of the fault.
    fn place(&self) -> Place
        ensures { result ≡ fault_place self.now }
    {
        match *self {
            Fault::Text(input, TextFault::Syntax(at)) => Place::Byte(input, at),
            Fault::Text(input, TextFault::Ended(at)) => Place::Byte(input, at),
            Fault::Text(input, TextFault::Large(at)) => Place::Byte(input, at),
            Fault::Text(_, TextFault::NoMemory) => Place::Nowhere,
            Fault::Text(input, _) => Place::Input(input),
            Fault::Read(fault) => read_place(fault),
            Fault::Walk(WalkFault::Table(n)) => Place::Table(n),
            Fault::Walk(WalkFault::Record(place)) => Place::Record(place),
            Fault::Old(fault) => read_place(fault),
            Fault::New(fault) => read_place(fault),
            _ => Place::Nowhere,
        }
    }
}

/// Returns the place of a fault of a database in a store.
fn read_place(fault: ReadFault) -> Place
    ensures { result ≡ read_place fault }
{
    match fault {
        ReadFault::Table(n) => Place::Table(n),
        ReadFault::Slot(n, i) => Place::Slot(n, i),
        ReadFault::Record(at) | ReadFault::Twice(at) | ReadFault::Unindexed(at) => {
            Place::Record(at)
        }
        _ => Place::Nowhere,
    }
}

impl fmt::Display for Place {
    ghost output = { λ place. Some (said_place place) };

    fn fmt<W: fmt::Write>(&self, f: &mut fmt::Formatter<W>) -> fmt::Result {
        match *self {
            Place::Nowhere => Ok(()),
            Place::Input(input) => write!(f, "input {input}: "),
            Place::Byte(input, at) => write!(f, "input {input}: byte {at}: "),
            Place::Table(n) => write!(f, "table {n}: "),
            Place::Record(at) => write!(f, "record at {at}: "),
            Place::Slot(n, i) => write!(f, "table {n}: slot {i}: "),
        }
    }
}

impl fmt::Display for Fault {
    ghost output = { λ f. Some (fault_text f) };

    fn fmt<W: fmt::Write>(&self, f: &mut fmt::Formatter<W>) -> fmt::Result {
        let place = self.place();
        f.write_str(self.side())?;
        write!(f, "{place}")?;
        f.write_str(self.message())
    }
}

impl Error for Fault {}

/// Writes `part`, the number, a colon and a space.
fn write_numbered<E: Sink>(part: &[u8], number: u64, errors: &mut E) -> Result<(), OutFault>
    ensures writes { Writes result (E.contents errors.old)
        (E.contents errors.new) (numbered part.now number) }
    ensures failed { OnErr result (E.failed errors.new) }
    ensures stays { E.failed errors.old → E.failed errors.new }
{
    let mut digits = Buffer::new();
    let number = digits.format(number).as_bytes();
    write_pieces(errors, &[part, number, b": "])
}

/// Writes the place of a fault.
fn write_place<E: Sink>(place: Place, errors: &mut E) -> Result<(), OutFault>
    ensures writes { Writes result (E.contents errors.old)
        (E.contents errors.new) (said_place place) }
    ensures failed { OnErr result (E.failed errors.new) }
    ensures stays { E.failed errors.old → E.failed errors.new }
{
    match place {
        Place::Nowhere => Ok(()),
        Place::Input(input) => write_numbered(b"input ", input, errors),
        Place::Byte(input, at) => {
            write_numbered(b"input ", input, errors)?;
            write_numbered(b"byte ", at, errors)
        }
        Place::Table(n) => write_numbered(b"table ", n, errors),
        Place::Record(at) => write_numbered(b"record at ", at, errors),
        Place::Slot(n, i) => {
            write_numbered(b"table ", n, errors)?;
            write_numbered(b"slot ", i, errors)
        }
    }
}

/// Writes the line of a fault: its database, its place and its words.
fn write_said<E: Sink>(fault: &Fault, errors: &mut E) -> Result<(), OutFault>
    ensures writes { Writes result (E.contents errors.old)
        (E.contents errors.new) (said_line fault.now) }
    ensures failed { OnErr result (E.failed errors.new) }
    ensures stays { E.failed errors.old → E.failed errors.new }
{
    write_pieces(errors, &[b"cdb: ", fault.side().as_bytes()])?;
    write_place(fault.place(), errors)?;
    write_pieces(errors, &[fault.message().as_bytes(), b"\n"])
}

/// Writes the line of a fault, with its newline. `Missing` has no line. After an `OutFault` the
/// output took a prefix of the line, and has failed. The output is not flushed.
pub fn write_fault<E: Sink>(fault: &Fault, errors: &mut E) -> Result<(), OutFault>
    ensures writes { Writes result (E.contents errors.old)
        (E.contents errors.new) (fault_line fault.now) }
    ensures failed { OnErr result (E.failed errors.new) }
    ensures stays { E.failed errors.old → E.failed errors.new }
{
    match *fault {
        Fault::Missing => Ok(()),
        _ => write_said(fault, errors),
    }
}

/// Writes the line of a record whose key was there already: its input, and its number there, both
/// counted from 1. After an `OutFault` the writer holds a prefix of it.
pub(crate) fn write_duplicate<E: Sink>(
    input: u64,
    number: u64,
    errors: &mut E,
) -> Result<(), OutFault>
    ensures writes { Writes result (E.contents errors.old) (E.contents errors.new) (duplicate_line input number) }
    ensures failed { OnErr result (E.failed errors.new) }
{
    let (mut inputs, mut numbers) = (Buffer::new(), Buffer::new());
    let input = inputs.format(input).as_bytes();
    let number = numbers.format(number).as_bytes();
    let end = b": duplicate key\n";
    write_pieces(errors, &[b"cdb: input ", input, b": record ", number, end])
}
