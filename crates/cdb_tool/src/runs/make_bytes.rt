// A text made a file.
ghost use Rattle.std.specs.Prelude.{◌≡◌, ℕ, [], List, Option, IfOk, IfErr};
ghost use Rattle.cdb_show.specs.Views.Output.{OutputSays};
ghost use Rattle.cdb_form.specs.Format.{file_bytes, KeyValue};
ghost use Rattle.cdb_form.specs.Views.Feed.{reader_feed};
ghost use Rattle.cdb_form.specs.Views.TextReader.{reader_of};
ghost use Rattle.cdb_make.specs.Views.Maker.{Holds, limit_of};
ghost use Rattle.cdb_show.specs.declared.fault.Fault.TheVariants.{NoMemory};
ghost use Rattle.cdb_tool.specs.Runs.Make.{IsNewText, ReadsFitting, TextNotRead, MakesBytes};

use cdb_form::{Feeds, Record, Sink, TextReader, Width, write_whole};
use cdb_make::{Maker, Mode};
use cdb_show::{Fault, flushed};
use cdb_store::MemStore;
use std::alloc::Global;
use std::io::Read;

/// The number of the one input.
const INPUT: u64 = 1;

/// A maker of a file in memory. It fails only if an allocation failed.
fn maker_in_memory<L: Width>(alloc: Global) -> Result<Maker<MemStore, L>, Fault>
    ensures holds { IfOk result (λ m. Holds m []) }
    ensures limit { IfOk result (λ m. limit_of m ≡ L.GREATEST) }
    ensures err { IfErr result (λ f. f ≡ NoMemory) }
{
    match Maker::new(alloc, MemStore::new(alloc), L::GREATEST) {
        Ok(maker) => Ok(maker),
        Err(refused) => Err(Fault::from(refused.fault)),
    }
}

/// The records of a text, up to its end, if their file isn't too large.
fn fitting_records<L: Width, F: Feeds>(
    alloc: Global,
    text: &mut TextReader<F, L>,
) -> Result<Maker<MemStore, L>, Fault>
    requires { IsNewText text.old }
    ensures ok { IfOk result (λ m. (records : List KeyValue) × Holds m records
        × ReadsFitting L.WORD L.GREATEST (F.feed (reader_of text.old)) (F.feed (reader_of text.new))
        records) }
    ensures err { IfErr result
        (TextNotRead L.WORD L.GREATEST (F.feed (reader_of text.old)) (F.feed (reader_of text.new))) }
{
    let mut maker = maker_in_memory::<L>(alloc)?;
    let mut record = Record {
        key: Vec::new(alloc),
        value: Vec::new(alloc),
    };
    loop {
        match text.read_into(&mut record) {
            Err(fault) => return Err(Fault::of_text(INPUT, fault)),
            Ok(false) => return Ok(maker),
            Ok(true) => {}
        }
        maker.put(Mode::Add, &record.key, &record.value)?;
    }
}

/// The file that a maker finishes in memory. It fails only if an allocation failed.
fn file_in_memory<L: Width>(maker: Maker<MemStore, L>) -> Result<Vec<u8>, Fault>
    ensures ok { (records : List KeyValue) → Holds maker records
        → IfOk result (λ v. v.items ≡ file_bytes L.WORD records) }
    ensures err { (records : List KeyValue) → Holds maker records
        → IfErr result (λ f. f ≡ NoMemory) }
{
    match maker.finish() {
        Ok(store) => Ok(store.into_vec()),
        Err(unfinished) => Err(Fault::from(unfinished.fault)),
    }
}

/// Writes the file of a text, which the writer may keep in a buffer.
fn make_bytes_unflushed<L: Width, F: Feeds, W: Sink>(
    alloc: Global,
    text: &mut TextReader<F, L>,
    w: &mut W,
) -> Result<(), Fault>
    requires { IsNewText text.old }
    ensures makes { MakesBytes L.WORD L.GREATEST (F.feed (reader_of text.old)) (F.feed (reader_of text.new))
        (W.contents w.old) (W.contents w.new) result }
    ensures output { OutputSays (W.failed w.new) result }
{
    let maker = fitting_records::<L, F>(alloc, text)?;
    let file = file_in_memory::<L>(maker)?;
    write_whole(w, &file)?;
    Ok(())
}

/// Makes the database file of one native text, in memory, and writes it whole.
///
/// The text is read up to its end, and no further, before the first byte is written. Each of its
/// records is added, so a key may have several. The faults, in their order:
/// - `Make(TooBig)`: the file of the whole records so far would be longer than `L::GREATEST` bytes;
/// - `Text(1, fault)`: the text has this fault, its place in bytes from the reader's first one,
///   or the reader failed or has no end;
/// - `NoMemory`: an allocation failed;
/// - `Output`: the writer failed, and holds a prefix of the file.
///
/// After any other fault than `Output` nothing was written. The writer is flushed last, after a
/// fault too.
pub fn make_bytes<L: Width, R: Read + Drop, W: Sink>(
    alloc: Global,
    reader: R,
    w: &mut W,
) -> Result<(), Fault>
    ensures makes { (rest : Option (List ℕ)) × MakesBytes L.WORD L.GREATEST
        (reader_feed (R.remaining reader)) (reader_feed rest)
        (W.contents w.old) (W.contents w.new) result }
    ensures output { OutputSays (W.failed w.new) result }
{
    let mut text = TextReader::<R, L>::new(alloc, reader);
    let made = make_bytes_unflushed::<L, R, W>(alloc, &mut text, w);
    flushed(w, made)
}
