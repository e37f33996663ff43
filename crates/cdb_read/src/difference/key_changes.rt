// The changes of one key in a difference.
ghost use Rattle.std.specs.Prelude.{◌≡◌, ◌+◌, ◌≤◌, ◌++◌, ℕ, List, IfErr, OnErr, codes, decimal, length};
ghost use Rattle.cdb_form.specs.Format.{record_of};
ghost use Rattle.cdb_form.specs.Text.Native.{spelling_of};
ghost use Rattle.cdb_form.specs.Views.KnownBytes.{Writes};
ghost use Rattle.cdb_store.specs.Reads.{OnlyReads};
ghost use Rattle.cdb_read.specs.Lookup.{bytes_of};
ghost use Rattle.cdb_read.specs.Views.Reads.{CopyingFails};
ghost use Rattle.cdb_read.specs.Differing.{changes_at, changes_text, puts_at, removal_at, InBoth, LookHas, ReadingStops, StopsBy, ReadBoth};
ghost use Rattle.cdb_read.specs.declared.fault.ReadFault.TheVariants.{Output};

use crate::difference::stop::Stop;
use crate::{Finder, ReadFault, Reader, Span};
use cdb_form::{ItemKind, OutFault, Sink, Width, write_pieces, write_removal, write_whole};
use cdb_store::Store;
use itoa::Buffer;

/// Writes what comes before the value of a put. After an `OutFault` the writer holds a prefix of
/// it.
fn write_put_head<W: Sink>(w: &mut W, key: &[u8], vlen: u64) -> Result<(), OutFault>
    ensures writes { Writes result (W.contents w.old) (W.contents w.new) (codes "+" ++ decimal (length key.now)
        ++ codes "," ++ decimal vlen ++ codes ":" ++ key.now ++ codes "->") }
    ensures failed { OnErr result (W.failed w.new) }
{
    let mut klen = Buffer::new();
    let mut spelled = Buffer::new();
    let klen = klen.format(key.len()).as_bytes();
    let vlen = spelled.format(vlen).as_bytes();
    write_pieces(w, &[b"+", klen, b",", vlen, b":", key, b"->"])
}

/// Writes a put of a key and a value that a finder gave, whose bytes go from the store to the
/// writer in pieces. After a fault the writer holds a prefix of it.
pub fn write_put<L: Width, S: Store, W: Sink>(
    finder: &mut Finder<'_, S, L>,
    key: &[u8],
    value: Span,
    w: &mut W,
) -> Result<(), ReadFault>
    requires inside { value.place + value.len ≤ S.size finder.old.reader.now.store }
    ensures same_reader { finder.new.reader.ghost_name ≡ finder.old.reader.ghost_name }
    ensures key { finder.new.key.now ≡ finder.old.key.now }
    ensures stays { finder.new.searching ≡ finder.old.searching }
    ensures reads { OnlyReads S.Store finder.old.reader.now.store finder.new.reader.now.store }
    ensures writes { (b : List ℕ) → S.image finder.new.reader.now.store b
        → Writes result (W.contents w.old) (W.contents w.new)
        (spelling_of (record_of key.now (bytes_of b value))) }
    ensures fails { IfErr result
        (CopyingFails S.Store finder.old.reader.now.store finder.new.reader.now.store) }
    ensures failed { IfErr result (λ fault. fault ≡ Output → W.failed w.new) }
{
    write_put_head(w, key, value.len)?;
    finder.copy(value, w)?;
    write_whole(w, b"\n")?;
    Ok(())
}

/// Writes a put for each value of a key, in the order of a look-up. After a fault the writer holds
/// a prefix of the puts.
fn write_puts<L: Width, S: Store, W: Sink>(
    reader: &mut Reader<S, L>,
    key: &[u8],
    w: &mut W,
) -> Result<(), ReadFault>
    ensures reads { OnlyReads S.Store reader.old.store reader.new.store }
    ensures writes { (b : List ℕ) → S.image reader.new.store b
        → Writes result (W.contents w.old) (W.contents w.new)
        (changes_text (puts_at L.WORD b key.now)) }
    ensures fails { IfErr result
        (ReadingStops S.Store reader.old.store reader.new.store
        (LookHas L.WORD S.Store reader.new.store key.now) (W.failed w.new)) }
{
    let mut finder = reader.find(key);
    while let Some(value) = finder.next()? {
        write_put(&mut finder, key, value, w)?;
    }
    Ok(())
}

/// Writes the removal of a key if a database lacks it. After a fault the writer holds a prefix of
/// that.
fn write_removal_of_new<L: Width, T: Store, W: Sink>(
    reader: &mut Reader<T, L>,
    key: &[u8],
    w: &mut W,
) -> Result<(), ReadFault>
    ensures reads { OnlyReads T.Store reader.old.store reader.new.store }
    ensures writes { (c : List ℕ) → T.image reader.new.store c
        → Writes result (W.contents w.old) (W.contents w.new)
        (changes_text (removal_at L.WORD c key.now)) }
    ensures fails { IfErr result
        (ReadingStops T.Store reader.old.store reader.new.store
        (LookHas L.WORD T.Store reader.new.store key.now) (W.failed w.new)) }
{
    let mut finder = reader.find(key);
    if let Some(_) = finder.next()? {
        return Ok(());
    }
    write_removal(w, key)?;
    Ok(())
}

/// Writes the changes of a key that has other values in the other database: its removal; or its
/// puts, after its removal if the other database lacks it. So the text can be applied again, and to
/// a database that has the key. After a `Stop` the writer holds a prefix of the changes.
pub(crate) fn write_changes<L: Width, S: Store, T: Store, W: Sink>(
    own: &mut Reader<S, L>,
    other: &mut Reader<T, L>,
    kind: ItemKind,
    key: &[u8],
    w: &mut W,
) -> Result<(), Stop>
    ensures reads { ReadBoth own.old own.new other.old other.new }
    ensures writes { InBoth S.Store T.Store own.new.store other.new.store (λ b c.
        Writes result (W.contents w.old) (W.contents w.new)
        (changes_text (changes_at kind L.WORD b c key.now))) }
    ensures fails { IfErr result (StopsBy S.Store T.Store own.old.store own.new.store
        other.old.store other.new.store (LookHas L.WORD S.Store own.new.store key.now)
        (LookHas L.WORD T.Store other.new.store key.now) (W.failed w.new)) }
{
    match kind {
        ItemKind::Put => {
            match write_removal_of_new(other, key, w) {
                Ok(()) => {}
                Err(fault) => return Err(Stop::Other(fault)),
            }
            write_puts(own, key, w)?;
            Ok(())
        }
        ItemKind::Remove => {
            write_removal(w, key)?;
            Ok(())
        }
    }
}
