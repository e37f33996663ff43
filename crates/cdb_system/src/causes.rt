// The cause of a fault: which file, and why.
ghost use Rattle.std.specs.Prelude.{◌≡◌, ◌⊎◌, IfSome, None, option_map, string_bytes, true};
ghost use Rattle.cdb_show.specs.Command.{asked_in};
ghost use Rattle.cdb_show.specs.declared.fault.Fault.TheVariants.{Open};
ghost use Rattle.cdb_system.specs.Causes.{error_words, reason_name, said_of, IsCause, IsCreate, IsMadeName, IsNoNameOf, IsOfDatabase, IsOfRead, GivesNoName, HasNoDatabase, IsFailedStream, MayHaveNoCause, NamesNoRefusal, NamesNothing, IsOfFile, IsOfInput, IsOfSystem, IsOfTextOf, IsRefusedOpening, called_of, cause_words, input_name, new_name, read_name, refusal_words, same_words};

use crate::left::LeftOf;
use crate::places::is_in_place;
use crate::request::Request;
use crate::system::System;
use cdb_command::Command;
use cdb_form::{TextFault, WalkFault};
use cdb_names::{Cause, Names, Refusal, is_no_name};
use cdb_read::ReadFault;
use cdb_show::{Fault, Lines, STANDARD_INPUT, input_at};
use cdb_store::MakeFault;

/// The words about a file.
#[derive(Clone, Copy)]
pub enum Told {
    /// Its name alone.
    Name,
    /// The words for what was found.
    Words(&'static str),
    /// The system's error of this number.
    Error(i32),
    /// The line at which reading stopped.
    Line(u64),
}

/// The file that a fault is about, and the reason.
#[derive(Clone, Copy)]
pub struct Reason<'a> {
    /// The name of the file, without `.tmp` after it. It is empty if the name itself is.
    pub name: &'a str,
    /// True if `.tmp` follows it.
    pub is_temporary: bool,
    /// The words about the file.
    pub told: Told,
}

/// The words about an empty name.
const EMPTY: &str = "the name is empty";

/// The words about an input into which standard output writes.
const OUTPUT: &str = "is the output";

/// The name of standard output.
const STANDARD_OUTPUT: &str = "standard output";

/// The name of standard error, which gets the lines of duplicates.
const STANDARD_ERROR: &str = "standard error";

/// Returns the reason of a file with its whole name.
fn of_name(name: &str, told: Told) -> Reason<'_>
    ensures name { reason_name result ≡ name.now }
    ensures told { result.told ≡ told }
{
    Reason {
        name,
        is_temporary: false,
        told,
    }
}

/// Returns the words about a call that failed with this error number, if the system gave one.
fn of_number(number: Option<i32>) -> Told
    ensures { said_of result ≡ option_map error_words number }
{
    match number {
        Some(number) => Told::Error(number),
        None => Told::Name,
    }
}

/// Returns the words about a refused name whose file has another name too: the name of the
/// database, of the base, or of an input.
fn of_same(command: &Command, refused: &str, other: &str) -> Told
    ensures { said_of result ≡ same_words (asked_in command.now) refused.now other.now }
{
    let Command::Create { name, base, .. } = command else {
        return Told::Name;
    };
    if name.as_str() == other && name.as_str() != refused {
        return Told::Words("is the database");
    }
    match base {
        Some(base) if base.as_str() == other => Told::Words("is the base"),
        _ => Told::Words("is an input"),
    }
}

/// Returns the words about a refused name.
fn of_cause(command: &Command, refusal: &Refusal) -> Told
    ensures { said_of result ≡ cause_words (asked_in command.now) refusal.now.cause
        (string_bytes refusal.now.name) (string_bytes refusal.now.other) }
{
    match refusal.cause {
        Cause::System(number) => Told::Error(number),
        Cause::Failed => Told::Name,
        Cause::Held => Told::Words("another create is at work on it"),
        Cause::Locked => Told::Words("locked by another process"),
        Cause::Link => Told::Words("is a link"),
        Cause::Special => Told::Words("is no regular file"),
        Cause::NoPlaces => Told::Words("a pipe or a device has no places"),
        Cause::Same => of_same(command, refusal.name.as_str(), refusal.other.as_str()),
        Cause::Input => Told::Words("is an input"),
        Cause::Replaced => Told::Words("its temporary file was replaced"),
        Cause::Removed => Told::Words("its temporary file was removed"),
        Cause::Lost => Told::Words("its file was replaced or removed"),
        Cause::Bits => Told::Words("does not get its permissions"),
        Cause::Closed => Told::Words("a standard stream is closed"),
        Cause::Output => Told::Words(OUTPUT),
    }
}

/// Returns the name that was refused, and the words about it: that it is empty, if it is.
fn of_refusal<'a>(command: &Command, refusal: &'a Refusal) -> Reason<'a>
    ensures name { reason_name result ≡ string_bytes refusal.now.name }
    ensures told { said_of result.told ≡ refusal_words (asked_in command.now) refusal.now.cause
        (string_bytes refusal.now.name) (string_bytes refusal.now.other) }
{
    let name = refusal.name.as_str();
    let told = if name.is_empty() {
        Told::Words(EMPTY)
    } else {
        of_cause(command, refusal)
    };
    of_name(name, told)
}

/// Returns the reason for the name of a create, if no file can have this name.
fn of_no_name(command: &Command) -> Option<Reason<'_>>
    ensures cause { IfSome result (λ r.
        IsNoNameOf (asked_in command.now) (reason_name r) (said_of r.told)) }
    ensures none { result ≡ None → GivesNoName (asked_in command.now) → ⊥ }
{
    let Command::Create { name, .. } = command else {
        return None;
    };
    if !is_no_name(name.as_str()) {
        return None;
    }
    let told = if name.is_empty() {
        EMPTY
    } else {
        "the name ends in a slash"
    };
    Some(of_name(name.as_str(), Told::Words(told)))
}

/// Returns true if a name was refused as files were opened, and the database of a create has
/// another name.
fn is_of_another(command: &Command, opened: Option<&Refusal>) -> bool
    ensures { result ≡ true → opened.entry ≡ None → ⊥ }
{
    match (command, opened) {
        (Command::Create { name, .. }, Some(refusal)) => name.as_str() != refusal.name.as_str(),
        _ => false,
    }
}

/// Returns the reason of a refused name, if there is one. With `is_open`, it is a create's name
/// that no file can have, unless another name was refused before it.
fn of_refused<'a, Y>(
    command: &'a Command,
    is_open: bool,
    system: &'a Y,
    names: &'a Y::Names,
) -> Option<Reason<'a>>
where
    Y: System,
    ensures cause { IfSome result (λ r. IsRefusedOpening (asked_in command.now)
        (called_of (Y.calls system.now) (Y.lacks system.now) (Y.Names.calls names.now)
        (Y.Names.lacks names.now)) (reason_name r) (said_of r.told)
        ⊎ ((is_open ≡ true) × IsNoNameOf (asked_in command.now) (reason_name r) (said_of r.told))) }
    ensures none { result ≡ None → NamesNoRefusal
        (called_of (Y.calls system.now) (Y.lacks system.now) (Y.Names.calls names.now)
        (Y.Names.lacks names.now)) }
    ensures named { result ≡ None → is_open ≡ true → GivesNoName (asked_in command.now) → ⊥ }
{
    let opened = system.refusal();
    if is_open
        && !is_of_another(command, opened)
        && let Some(reason) = of_no_name(command)
    {
        return Some(reason);
    }
    if let Some(refusal) = opened {
        return Some(of_refusal(command, refusal));
    }
    if let Some(refusal) = names.refusal() {
        return Some(of_refusal(command, refusal));
    }
    None
}

/// Returns the name of what a command reads: its database, the base of a create, or standard input.
fn read_name(command: &Command) -> &str
    ensures { result.now ≡ read_name (asked_in command.now) }
{
    match command {
        Command::Query { name, .. } | Command::Lookups { name, .. } => name.as_str(),
        Command::Dump { name, .. }
        | Command::List { name, .. }
        | Command::Stats { name, .. }
        | Command::Check { name, .. } => match name {
            Some(name) => name.as_str(),
            None => STANDARD_INPUT,
        },
        Command::Create { name, base, .. } => match base {
            Some(base) => base.as_str(),
            None => name.as_str(),
        },
        Command::Difference { old, .. } => old.as_str(),
        Command::Help | Command::Version => "",
    }
}

/// Returns the name of the new database of a difference.
fn new_name(command: &Command) -> &str
    ensures { result.now ≡ new_name (asked_in command.now) }
{
    match command {
        Command::Difference { new, .. } => new.as_str(),
        _ => "",
    }
}

/// Returns the reason of a database that was not read: why its file failed, or its name alone.
fn of_unread(name: &str, fault: ReadFault, file: Told) -> Option<Reason<'_>>
    requires { IsOfFile (said_of file) }
    ensures name { IfSome result (λ r. reason_name r ≡ name.now) }
    ensures told { IfSome result (λ r. IsOfRead fault (said_of r.told)) }
    ensures none { result ≡ None → NamesNothing fault }
{
    match fault {
        ReadFault::Device => Some(of_name(name, file)),
        ReadFault::NoMemory | ReadFault::Output => None,
        _ => Some(of_name(name, Told::Name)),
    }
}

/// The number of the error of the last call that failed on a file that was read.
fn read_number<Y>(system: &Y, file: &Option<Y::File>) -> Option<i32>
where
    Y: System,
{
    match file {
        Some(file) => system.store_error(file),
        None => None,
    }
}

/// Returns true if a base that was read is another file than the one that was opened.
fn is_changed<Y>(system: &Y, file: &Option<Y::File>) -> bool
where
    Y: System,
{
    match file {
        Some(file) => system.is_changed(file),
        None => false,
    }
}

/// Returns the words about a file that failed as it was read.
fn of_file<Y>(system: &Y, file: &Option<Y::File>) -> Told
where
    Y: System,
    ensures { IsOfFile (said_of result) }
{
    if is_changed::<Y>(system, file) {
        return Told::Words("changed while it was read");
    }
    of_number(read_number::<Y>(system, file))
}

/// Returns the words about an input that was not read.
fn of_input<Y>(system: &Y) -> Told
where
    Y: System,
    ensures { IsOfInput (said_of result) }
{
    if system.reads_output() {
        return Told::Words(OUTPUT);
    }
    of_number(system.read_error())
}

/// The name of an input of a command.
fn input_name(command: &Command, number: u64) -> &str
    ensures { result.now ≡ input_name (asked_in command.now) number }
{
    match command {
        Command::Create { inputs, .. } | Command::Lookups { inputs, .. } => {
            input_at(inputs.as_slice(), number)
        }
        _ => "",
    }
}

/// Returns the words about an input with this fault: its line, or why it was not read.
fn of_fault<Y>(fault: TextFault, lines: &Lines, system: &Y) -> Told
where
    Y: System,
    ensures { IsOfTextOf fault (said_of result) }
{
    match fault {
        TextFault::Syntax(at) | TextFault::Ended(at) | TextFault::Large(at) => {
            Told::Line(lines.line_at(at))
        }
        TextFault::Input => of_input(system),
        TextFault::Endless | TextFault::NoMemory => Told::Name,
    }
}

/// Returns the reason of an input whose text was not read.
fn of_text<'a, Y>(request: Request<'a>, number: u64, fault: TextFault, system: &Y) -> Reason<'a>
where
    Y: System,
    ensures name { reason_name result ≡ input_name (asked_in request.entry.command.now) number }
    ensures told { IsOfTextOf fault (said_of result.told) }
{
    let told = of_fault(fault, request.lines, system);
    of_name(input_name(request.command, number), told)
}

/// The number of the error of the last call that failed on a file that was made in place.
fn made_number<Y>(system: &Y, file: &Option<Y::Made>) -> Option<i32>
where
    Y: System,
{
    match file {
        Some(file) => system.made_error(file),
        None => None,
    }
}

/// Returns the reason of a database that was not made, since its file failed.
fn of_made<'a, Y>(
    command: &'a Command,
    system: &Y,
    names: &Y::Names,
    left: &LeftOf<Y>,
) -> Option<Reason<'a>>
where
    Y: System,
    ensures name { IfSome result (λ r. IsMadeName (asked_in command.now) (reason_name r)) }
    ensures told { IfSome result (λ r. IsOfSystem (said_of r.told)) }
    ensures none { result ≡ None → IsCreate (asked_in command.now) → ⊥ }
{
    let Command::Create {
        name,
        temporary,
        ..
    } = command
    else {
        return None;
    };
    if is_in_place(name.as_str(), temporary) {
        return Some(of_name(name.as_str(), of_number(made_number(system, &left.made))));
    }
    let told = of_number(names.file_error());
    match temporary {
        Some(temporary) => Some(of_name(temporary.as_str(), told)),
        None => Some(Reason {
            name: name.as_str(),
            is_temporary: true,
            told,
        }),
    }
}

/// Returns the reason of the standard stream that failed: standard output if `unwritten`, or else
/// standard error.
fn of_stream<Y>(system: &Y, unwritten: bool) -> Reason<'static>
where
    Y: System,
    ensures name { IsFailedStream (unwritten ≡ true) (reason_name result) }
    ensures told { IsOfSystem (said_of result.told) }
{
    if unwritten {
        of_name(STANDARD_OUTPUT, of_number(system.output_error()))
    } else {
        of_name(STANDARD_ERROR, of_number(system.errors_error()))
    }
}

/// Returns the file that a fault is about, and the reason, if it is about a file. `unwritten` says
/// that standard output failed.
pub fn reason_of<'a, Y>(
    request: Request<'a>,
    fault: &Fault,
    system: &'a Y,
    names: &'a Y::Names,
    left: &LeftOf<Y>,
    unwritten: bool,
) -> Option<Reason<'a>>
where
    Y: System,
    ensures cause { IfSome result (λ r. IsCause (asked_in request.entry.command.now) fault.now
        (unwritten ≡ true) (called_of (Y.calls system.now) (Y.lacks system.now) (Y.Names.calls names.now)
        (Y.Names.lacks names.now)) (reason_name r) (said_of r.told)) }
    ensures none { result ≡ None → MayHaveNoCause (asked_in request.entry.command.now) fault.now
        (called_of (Y.calls system.now) (Y.lacks system.now) (Y.Names.calls names.now)
        (Y.Names.lacks names.now)) }
{
    let command = request.command;
    match *fault {
        Fault::Open => of_refused::<Y>(command, true, system, names),
        Fault::Rename | Fault::NoMemory => of_refused::<Y>(command, false, system, names),
        Fault::Text(number, fault) => { Some(of_text::<Y>(request, number, fault, system)) }
        Fault::Make(MakeFault::Writing) | Fault::Make(MakeFault::Lookup) => {
            of_made::<Y>(command, system, names, left)
        }
        Fault::Walk(WalkFault::Input) => {
            let told = of_number(system.read_error());
            Some(of_name(read_name(command), told))
        }
        Fault::Output => Some(of_stream::<Y>(system, unwritten)),
        _ => of_database::<Y>(command, fault, system, left),
    }
}

/// Returns the database that a fault is about, and the reason, if that database is read.
fn of_database<'a, Y>(
    command: &'a Command,
    fault: &Fault,
    system: &Y,
    left: &LeftOf<Y>,
) -> Option<Reason<'a>>
where
    Y: System,
    ensures cause { IfSome result (λ r.
        IsOfDatabase (asked_in command.now) fault.now (reason_name r) (said_of r.told)) }
    ensures none { result ≡ None → HasNoDatabase fault.now }
{
    match *fault {
        Fault::Read(fault) | Fault::Old(fault) => {
            let file = of_file::<Y>(system, &left.read);
            of_unread(read_name(command), fault, file)
        }
        Fault::New(fault) => {
            let file = of_file::<Y>(system, &left.other);
            of_unread(new_name(command), fault, file)
        }
        Fault::Walk(_) | Fault::NoOldTables | Fault::NoBaseTables => {
            Some(of_name(read_name(command), Told::Name))
        }
        Fault::NoNewTables => Some(of_name(new_name(command), Told::Name)),
        _ => None,
    }
}
