// The values of a key.
ghost use Rattle.std.specs.Prelude.{OnErr, ◌≡◌, ◌+◌, ◌≤◌, ◌++◌, ℕ, List, Some, None, IfSome, IfErr, OnOk, codes};
ghost use Rattle.cdb_read.specs.declared.fault.ReadFault.TheVariants.{Output};
ghost use Rattle.cdb_show.specs.Views.Output.{OutputSays};
ghost use Rattle.cdb_form.specs.Views.KnownBytes.{Writes};
ghost use Rattle.cdb_read.specs.Lookup.{bytes_of};
ghost use Rattle.cdb_store.specs.Reads.{OnlyReads};
ghost use Rattle.cdb_read.specs.Views.Reads.{CopyingFails};
ghost use Rattle.cdb_show.specs.Runs.Query.{Queries, value_text, record_text, shown_text};
ghost use Rattle.cdb_show.specs.Runs.Query.{WritesEach, LeftFails};
ghost use Rattle.cdb_command.specs.declared.style.Style.TheVariants.{Map};

use crate::fault::Fault;
use crate::runs::flushed::flushed;
use crate::runs::shown::Shown;
use cdb_command::Style;
use cdb_form::{OutFault, Sink, Width, write_pieces, write_whole};
use cdb_read::difference::write_put;
use cdb_read::{Finder, ReadFault, Reader, Span};
use cdb_store::Store;

/// Writes a value that a finder gave, with a newline after it in lines. After a fault the writer
/// holds a prefix of that.
#[inline(always)]
fn write_value<L: Width, S: Store, W: Sink>(
    finder: &mut Finder<'_, S, L>,
    value: Span,
    lines: bool,
    w: &mut W,
) -> Result<(), ReadFault>
    requires inside { value.place + value.len ≤ S.size finder.old.reader.now.store }
    ensures same_reader { finder.new.reader.ghost_name ≡ finder.old.reader.ghost_name }
    ensures key { finder.new.key.now ≡ finder.old.key.now }
    ensures stays { finder.new.searching ≡ finder.old.searching }
    ensures reads { OnlyReads S.Store finder.old.reader.now.store finder.new.reader.now.store }
    ensures writes { (b : List ℕ) → S.image finder.new.reader.now.store b
        → Writes result (W.contents w.old) (W.contents w.new)
        (value_text lines (bytes_of b value)) }
    ensures fails { IfErr result
        (CopyingFails S.Store finder.old.reader.now.store finder.new.reader.now.store) }
    ensures failed { IfErr result (λ fault. fault ≡ Output → W.failed w.new) }
{
    finder.copy(value, w)?;
    if lines {
        write_whole(w, b"\n")?;
    }
    Ok(())
}

/// Writes what comes before the value of a record in a map text. After an `OutFault` the writer
/// holds a prefix of it.
fn write_map_head<W: Sink>(w: &mut W, key: &[u8]) -> Result<(), OutFault>
    ensures writes { Writes result (W.contents w.old) (W.contents w.new) (key.now ++ codes " ") }
    ensures failed { OnErr result (W.failed w.new) }
{
    write_pieces(w, &[key, b" "])
}

/// Writes a value that a finder gave as a record of a map text. After a fault the writer holds a
/// prefix of that.
fn write_map_put<L: Width, S: Store, W: Sink>(
    finder: &mut Finder<'_, S, L>,
    key: &[u8],
    value: Span,
    w: &mut W,
) -> Result<(), ReadFault>
    requires inside { value.place + value.len ≤ S.size finder.old.reader.now.store }
    ensures same_reader { finder.new.reader.ghost_name ≡ finder.old.reader.ghost_name }
    ensures key { finder.new.key.now ≡ finder.old.key.now }
    ensures stays { finder.new.searching ≡ finder.old.searching }
    ensures reads { OnlyReads S.Store finder.old.reader.now.store finder.new.reader.now.store }
    ensures writes { (b : List ℕ) → S.image finder.new.reader.now.store b
        → Writes result (W.contents w.old) (W.contents w.new)
        (record_text Map key.now (bytes_of b value)) }
    ensures fails { IfErr result
        (CopyingFails S.Store finder.old.reader.now.store finder.new.reader.now.store) }
    ensures failed { IfErr result (λ fault. fault ≡ Output → W.failed w.new) }
{
    write_map_head(w, key)?;
    finder.copy(value, w)?;
    write_whole(w, b"\n")?;
    Ok(())
}

/// Writes a value that a finder gave. After a fault the writer holds a prefix of that.
#[inline(always)]
fn write_shown<L: Width, S: Store, W: Sink>(
    finder: &mut Finder<'_, S, L>,
    value: Span,
    shown: Shown<'_>,
    w: &mut W,
) -> Result<(), ReadFault>
    requires inside { value.place + value.len ≤ S.size finder.old.reader.now.store }
    ensures same_reader { finder.new.reader.ghost_name ≡ finder.old.reader.ghost_name }
    ensures key { finder.new.key.now ≡ finder.old.key.now }
    ensures stays { finder.new.searching ≡ finder.old.searching }
    ensures reads { OnlyReads S.Store finder.old.reader.now.store finder.new.reader.now.store }
    ensures writes { (b : List ℕ) → S.image finder.new.reader.now.store b
        → Writes result (W.contents w.old) (W.contents w.new)
        (shown_text shown.entry (bytes_of b value)) }
    ensures fails { IfErr result
        (CopyingFails S.Store finder.old.reader.now.store finder.new.reader.now.store) }
    ensures failed { IfErr result (λ fault. fault ≡ Output → W.failed w.new) }
{
    match shown {
        Shown::Value { lines } => write_value(finder, value, lines, w),
        Shown::Record {
            key,
            style: Style::Native,
        } => write_put(finder, key, value, w),
        Shown::Record {
            key,
            style: Style::Map,
        } => write_map_put(finder, key, value, w),
    }
}

/// Writes the values that a finder has left, one after the other, as `shown` says.
///
/// It does what `query_run` does, and leaves in the finder what it did not give. The faults:
/// - `Missing`: no value was left;
/// - `Read(Table(n))`, `Read(Record(place))`: this damage follows the values, which were all
///   written;
/// - `Read(Device)`: the store failed. The values that the finder gave before were written whole,
///   and a prefix of the one in hand;
/// - `Output`: the writer failed. It holds the values before whole, and a prefix of the one in
///   hand.
///
/// After `Read(Device)` a further call goes on with the values that the finder has left. The writer
/// is not flushed.
pub fn query_from<L: Width, S: Store, W: Sink>(
    finder: &mut Finder<'_, S, L>,
    shown: Shown<'_>,
    w: &mut W,
) -> Result<(), Fault>
    ensures same_reader { finder.new.reader.ghost_name ≡ finder.old.reader.ghost_name }
    ensures key { finder.new.key.now ≡ finder.old.key.now }
    ensures reads { OnlyReads S.Store finder.old.reader.now.store finder.new.reader.now.store }
    ensures ok { OnOk result (WritesEach L.WORD (shown_text shown.entry) finder.old finder.new
        (W.contents w.old) (W.contents w.new)) }
    ensures fails { IfErr result (LeftFails L.WORD (shown_text shown.entry) finder.old finder.new
        (W.contents w.old) (W.contents w.new)) }
    ensures output { OutputSays (W.failed w.new) result }
{
    let mut found = false;
    while let Some(value) = finder.next()? {
        write_shown(finder, value, shown, w)?;
        found = true;
    }
    if found { Ok(()) } else { Err(Fault::Missing) }
}

/// Writes all values of a key.
fn write_all<L: Width, S: Store, W: Sink>(
    reader: &mut Reader<S, L>,
    key: &[u8],
    shown: Shown<'_>,
    w: &mut W,
) -> Result<(), Fault>
    ensures queries { Queries L.WORD S.Store (record { key = key.now; number = None; shown = shown_text shown.entry })
        reader.old.store reader.new.store (W.contents w.old) (W.contents w.new) result }
    ensures output { OutputSays (W.failed w.new) result }
{
    query_from(&mut reader.find(key), shown, w)
}

/// Writes the value of a key that has this number, counted from 1. The ones before it are found and
/// not read, and none after it is looked for.
fn write_nth<L: Width, S: Store, W: Sink>(
    reader: &mut Reader<S, L>,
    key: &[u8],
    number: u64,
    shown: Shown<'_>,
    w: &mut W,
) -> Result<(), Fault>
    requires { 1 ≤ number }
    ensures queries { Queries L.WORD S.Store (record { key = key.now; number = Some number; shown = shown_text shown.entry })
        reader.old.store reader.new.store (W.contents w.old) (W.contents w.new) result }
    ensures output { OutputSays (W.failed w.new) result }
{
    let mut finder = reader.find(key);
    let mut left = number;
    while let Some(value) = finder.next()? {
        left -= 1;
        if left == 0 {
            write_shown(&mut finder, value, shown, w)?;
            return Ok(());
        }
    }
    Err(Fault::Missing)
}

/// Writes values of a key of a database that is open: all, or the one with a number.
#[inline(always)]
pub(crate) fn look_up<L: Width, S: Store, W: Sink>(
    reader: &mut Reader<S, L>,
    key: &[u8],
    number: Option<u64>,
    shown: Shown<'_>,
    w: &mut W,
) -> Result<(), Fault>
    requires { IfSome number (λ j. 1 ≤ j) }
    ensures queries { Queries L.WORD S.Store
        (record { key = key.now; number = number; shown = shown_text shown.entry })
        reader.old.store reader.new.store (W.contents w.old) (W.contents w.new) result }
    ensures output { OutputSays (W.failed w.new) result }
{
    match number {
        None => write_all(reader, key, shown, w),
        Some(number) => write_nth(reader, key, number, shown, w),
    }
}

/// Writes values of a key, which the writer may keep in a buffer.
fn query_unflushed<L: Width, S: Store, W: Sink>(
    store: S,
    key: &[u8],
    number: Option<u64>,
    lines: bool,
    w: &mut W,
) -> (S, Result<(), Fault>)
    requires { IfSome number (λ j. 1 ≤ j) }
    ensures queries { Queries L.WORD S.Store (record { key = key.now; number = number; shown = value_text lines })
        store result.0 (W.contents w.old) (W.contents w.new) result.1 }
    ensures output { OutputSays (W.failed w.new) result.1 }
{
    let mut reader = match Reader::<S, L>::open(store) {
        Ok(reader) => reader,
        Err(unread) => return (unread.store, Err(Fault::from(unread.fault))),
    };
    let answer = look_up(&mut reader, key, number, Shown::Value { lines }, w);
    (reader.into_store(), answer)
}

/// Writes the values that a key has in the database in a store, one after the other, or the value
/// with a number, counted from 1, alone. With `lines` a newline follows each.
///
/// Values go from the store to the writer in pieces, and no memory is taken. The faults:
/// - `Missing`: there is no value, or fewer than the number;
/// - `Read(Short)`: the store is shorter than a head; it was not read, and nothing was written;
/// - `Read(Table(n))`, `Read(Record(place))`: the look-up met this damage; the values before it
///   that were wanted were written. Damage after the value with the number is not met;
/// - `Read(Device)`: the store failed; a prefix of the text was written;
/// - `Output`: the writer failed, and holds a prefix of the text.
///
/// The store is returned whatever the answer, and was only read. The writer is flushed last, after
/// a fault too.
///
/// The contract does not see which reads of a store succeeded. So after `Read(Device)` and `Output`
/// it says that a prefix of the text was written. `query_from` says more, since its caller keeps
/// the finder: the values before the fault were written whole.
pub fn query_run<L: Width, S: Store, W: Sink>(
    store: S,
    key: &[u8],
    number: Option<u64>,
    lines: bool,
    w: &mut W,
) -> (S, Result<(), Fault>)
    requires { IfSome number (λ j. 1 ≤ j) }
    ensures queries { Queries L.WORD S.Store (record { key = key.now; number = number; shown = value_text lines })
        store result.0 (W.contents w.old) (W.contents w.new) result.1 }
    ensures output { OutputSays (W.failed w.new) result.1 }
{
    let (store, queried) = query_unflushed::<L, S, W>(store, key, number, lines, w);
    let answer = flushed(w, queried);
    (store, answer)
}
