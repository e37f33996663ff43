// The commands that read one file: its values, its text, its statistics, and whether it is sound.
ghost use Rattle.std.specs.Prelude.{◌≤◌, ◌⊎◌, IfSome, IfOk, IfErr, option_map, string_bytes, List, ℕ, Option};
ghost use Rattle.cdb_show.specs.Views.Output.{OutputSays};
ghost use Rattle.cdb_store.specs.contracts.memory.MemStoreStore.TheImpl.{ghosts as in_memory};
ghost use Rattle.cdb_show.specs.Runs.WalkText.{form_of};
ghost use Rattle.cdb_show.specs.Runs.Query.{value_text};
ghost use Rattle.cdb_names.specs.Folder.{NameCalls};
ghost use Rattle.cdb_system.specs.State.{files_of, state_of, standard_of, wanted_text};
ghost use Rattle.cdb_system.specs.Reading.{PerformsQuery, PerformsText, PerformsOn, LacksMemory, WritesText, Takes, IsWhole, IsNotLoaded, TellsStore, ChecksStore};

use crate::left::{Performed, input_left, none_left, read_left, stream_left};
use crate::system::System;
use cdb_command::Style;
use cdb_form::{Feeds, PIPE, Sink, Width};
use cdb_names::Answer;
use cdb_show::{
    Content, Fault, InWindow, Window, check_run, load_from, query_run, stats_run, text_run,
};
use cdb_store::{MemStore, Store};
use std::alloc::Global;

/// Writes the values of a key, which are counted from 1.
#[inline(never)]
pub fn query<L, Y, O>(
    system: &mut Y,
    name: &str,
    key: &str,
    number: Option<u64>,
    lines: bool,
    output: &mut O,
) -> Performed<Y>
where
    L: Width,
    Y: System,
    O: Sink,
    requires { IfSome number (λ n. 1 ≤ n) }
    ensures performs { (named : NameCalls) (errors : Option (List ℕ)) → PerformsQuery
        (files_of Y.File.Store Y.Made.Store Y.Stream.feed Y.System)
        (record {
          word = L.WORD;
          name = name.now;
          query = record { key = key.now; number = number; shown = value_text lines };
        })
        (state_of system.old named (O.contents output.old) errors)
        (state_of system.new named (O.contents output.new) errors) result.0 result.1 }
    ensures output { OutputSays (O.failed output.new) result.1 }
{
    match system.open_store(name) {
        Ok(store) => {
            let (store, answer) = query_run::<L, Y::File, O>(
                store,
                key.as_bytes(),
                number,
                lines,
                output,
            );
            (read_left(store), answer)
        }
        Err(fault) => (none_left(), Err(fault)),
    }
}

/// Writes the records of a database that is read in one pass, or their keys, and returns its
/// reader.
fn write_text<L: Width, F: Feeds + Drop, O: Sink>(
    alloc: Global,
    content: Content,
    style: Style,
    file: F,
    output: &mut O,
) -> (F, Result<(), Fault>)
    ensures writes { LacksMemory (O.contents output.old) (O.contents output.new) result.1
        ⊎ WritesText L.WORD (form_of content style) (F.feed file) (F.feed result.0)
        (O.contents output.old) (O.contents output.new) result.1 }
    ensures output { OutputSays (O.failed output.new) result.1 }
{
    match Window::new(alloc, file, PIPE) {
        Ok(window) => {
            let (window, answer) = text_run::<L, _, O, InWindow>(
                alloc, content, window, style, output,
            );
            (window.into_reader(), answer)
        }
        Err(refused) => (refused.reader, Err(Fault::NoMemory)),
    }
}

/// The text that is wanted of a file.
#[derive(Clone, Copy)]
pub struct FileText<'a> {
    /// The content of the text: the records of a file, or their keys.
    pub content: Content,
    /// The name of the file. Without one, standard input is read.
    pub name: &'a Option<String>,
    /// The form of the text.
    pub style: Style,
}

/// Writes the text of a file, or of standard input. Returns what was read, and the answer.
#[inline(never)]
pub fn text<L, Y, O>(
    alloc: Global,
    system: &mut Y,
    wanted: FileText<'_>,
    input: Y::Input,
    output: &mut O,
) -> Performed<Y>
where
    L: Width,
    Y: System,
    O: Sink,
    ensures performs { (named : NameCalls) (errors : Option (List ℕ)) → PerformsText
        (files_of Y.File.Store Y.Made.Store Y.Stream.feed Y.System)
        (wanted_text L.WORD wanted.entry) (standard_of Y.Input.feed input)
        (state_of system.old named (O.contents output.old) errors)
        (state_of system.new named (O.contents output.new) errors) result.0 result.1 }
    ensures output { OutputSays (O.failed output.new) result.1 }
{
    let (content, style) = (wanted.content, wanted.style);
    let Some(name) = wanted.name else {
        let (input, answer) = write_text::<L, Y::Input, O>(alloc, content, style, input, output);
        return (input_left(input), answer);
    };
    match system.open(name.as_str()) {
        Ok(file) => {
            let (file, answer) = write_text::<L, Y::Stream, O>(alloc, content, style, file, output);
            (stream_left(file), answer)
        }
        Err(fault) => (none_left(), Err(fault)),
    }
}

/// Takes a stream into memory, and returns its reader.
fn taken<L: Width, F: Feeds + Drop>(alloc: Global, stream: F) -> (F, Result<MemStore, Fault>)
    ensures ok { IfOk result.1 (IsWhole L.GREATEST (F.feed stream) (F.feed result.0)) }
    ensures fails { IfErr result.1 (IsNotLoaded L.GREATEST (F.feed stream) (F.feed result.0)) }
    ensures output { OutputSays ⊥ result.1 }
{
    match Window::new(alloc, stream, PIPE) {
        Ok(mut window) => {
            let taken = load_from(alloc, &mut window, L::GREATEST);
            (window.into_reader(), taken)
        }
        Err(refused) => (refused.reader, Err(Fault::NoMemory)),
    }
}

/// Writes the statistics of a stream, and returns its reader.
fn stats_of_stream<L: Width, F: Feeds + Drop, O: Sink>(
    alloc: Global,
    stream: F,
    output: &mut O,
) -> (F, Result<(), Fault>)
    ensures takes { Takes L.GREATEST (F.feed stream) (F.feed result.0)
        (O.contents output.old) (O.contents output.new) result.1
        (TellsStore L.WORD (O.contents output.old) (O.contents output.new) result.1 in_memory) }
    ensures output { OutputSays (O.failed output.new) result.1 }
{
    let (stream, taken) = taken::<L, F>(alloc, stream);
    match taken {
        Ok(store) => (stream, stats_run::<L, MemStore, O>(store, output).1),
        Err(fault) => (stream, Err(fault)),
    }
}

/// Writes the statistics of a file, or of a stream: standard input, a pipe or a device. Returns
/// what was read, and the answer.
#[inline(never)]
pub fn stats<L, Y, O>(
    alloc: Global,
    system: &mut Y,
    name: &Option<String>,
    input: Y::Input,
    output: &mut O,
) -> Performed<Y>
where
    L: Width,
    Y: System,
    O: Sink,
    ensures performs { (named : NameCalls) (errors : Option (List ℕ)) → PerformsOn
        (files_of Y.File.Store Y.Made.Store Y.Stream.feed Y.System)
        (record {
          most = L.GREATEST;
          name = option_map string_bytes name.now;
          file = TellsStore L.WORD (O.contents output.old) (O.contents output.new) result.1 Y.File.Store;
          taken = TellsStore L.WORD (O.contents output.old) (O.contents output.new) result.1 in_memory;
        }) (standard_of Y.Input.feed input)
        (state_of system.old named (O.contents output.old) errors)
        (state_of system.new named (O.contents output.new) errors) result.0 result.1 }
    ensures output { OutputSays (O.failed output.new) result.1 }
{
    let Some(name) = name else {
        let (input, answer) = stats_of_stream::<L, Y::Input, O>(alloc, input, output);
        return (input_left(input), answer);
    };
    match system.is_stream(name.as_str()) {
        Answer::Yes => match system.open(name.as_str()) {
            Ok(file) => {
                let (file, answer) = stats_of_stream::<L, Y::Stream, O>(alloc, file, output);
                (stream_left(file), answer)
            }
            Err(fault) => (none_left(), Err(fault)),
        },
        Answer::No => match system.open_store(name.as_str()) {
            Ok(store) => {
                let (store, answer) = stats_run::<L, Y::File, O>(store, output);
                (read_left(store), answer)
            }
            Err(fault) => (none_left(), Err(fault)),
        },
        Answer::Unknown => (none_left(), Err(Fault::Open)),
    }
}

/// Checks a stream, and returns its reader.
fn check_of_stream<L: Width, F: Feeds + Drop>(alloc: Global, stream: F) -> (F, Result<(), Fault>)
    ensures takes { (known : Option (List ℕ)) → Takes L.GREATEST (F.feed stream)
        (F.feed result.0) known known result.1 (ChecksStore L.WORD known known result.1 in_memory) }
    ensures output { OutputSays ⊥ result.1 }
{
    let (stream, taken) = taken::<L, F>(alloc, stream);
    match taken {
        Ok(store) => (stream, check_run::<L, MemStore>(alloc, store).1),
        Err(fault) => (stream, Err(fault)),
    }
}

/// Checks a file, or a stream: standard input, a pipe or a device. Nothing is written. Returns what
/// was read, and the answer.
#[inline(never)]
pub fn check<L, Y>(
    alloc: Global,
    system: &mut Y,
    name: &Option<String>,
    input: Y::Input,
) -> Performed<Y>
where
    L: Width,
    Y: System,
    ensures performs { (named : NameCalls) (known errors : Option (List ℕ)) → PerformsOn
        (files_of Y.File.Store Y.Made.Store Y.Stream.feed Y.System)
        (record {
          most = L.GREATEST;
          name = option_map string_bytes name.now;
          file = ChecksStore L.WORD known known result.1 Y.File.Store;
          taken = ChecksStore L.WORD known known result.1 in_memory;
        }) (standard_of Y.Input.feed input)
        (state_of system.old named known errors) (state_of system.new named known errors)
        result.0 result.1 }
    ensures output { OutputSays ⊥ result.1 }
{
    let Some(name) = name else {
        let (input, answer) = check_of_stream::<L, Y::Input>(alloc, input);
        return (input_left(input), answer);
    };
    match system.is_stream(name.as_str()) {
        Answer::Yes => match system.open(name.as_str()) {
            Ok(file) => {
                let (file, answer) = check_of_stream::<L, Y::Stream>(alloc, file);
                (stream_left(file), answer)
            }
            Err(fault) => (none_left(), Err(fault)),
        },
        Answer::No => match system.open_store(name.as_str()) {
            Ok(store) => {
                let (store, answer) = check_run::<L, Y::File>(alloc, store);
                (read_left(store), answer)
            }
            Err(fault) => (none_left(), Err(fault)),
        },
        Answer::Unknown => (none_left(), Err(Fault::Open)),
    }
}
