// Bytes of a store, read piece by piece.
ghost use Rattle.std.specs.Prelude.{◌≡◌, ℕ, ◌+◌, ◌<◌, ◌≤◌, ◌^◌, List, length, IfErr};
ghost use Rattle.std.specs.Prelude.{OnOk};
ghost use Rattle.cdb_form.specs.Views.KnownBytes.{Writes};
ghost use Rattle.cdb_store.specs.Images.{AfterRead};
ghost use Rattle.cdb_read.specs.Lookup.{bytes_of};
ghost use Rattle.cdb_store.specs.Reads.{OnlyReads};
ghost use Rattle.cdb_read.specs.declared.fault.ReadFault.TheVariants.{Output};
ghost use Rattle.cdb_read.specs.Views.Reads.{StoreFails, CopyingFails, ValueFails};

use crate::fault::ReadFault;
use crate::span::Span;
use cdb_form::{Sink, write_whole};
use cdb_store::Store;

/// Fills `into` with the bytes at a place.
pub(crate) fn read_part<S: Store>(
    store: &mut S,
    place: u64,
    into: &mut [u8],
) -> Result<(), ReadFault>
    requires inside { place + length into.old ≤ S.size store.old }
    ensures read { OnOk result (AfterRead place into.new (S.image store.old) (S.image store.new)) }
    ensures reads { OnlyReads S.Store store.old store.new }
    ensures fails { IfErr result (StoreFails S.Store store.old store.new) }
{
    match store.read_at(place, into) {
        Ok(()) => Ok(()),
        Err(_) => Err(ReadFault::Device),
    }
}

/// Writes the bytes of a span, a piece at a time.
pub(crate) fn copy_span<S: Store, W: Sink>(
    store: &mut S,
    span: Span,
    piece: &mut [u8],
    w: &mut W,
) -> Result<(), ReadFault>
    requires piece { 0 < length piece.old }
    requires inside { span.place + span.len ≤ S.size store.old }
    requires fits { S.size store.old < 2 ^ 64 }
    ensures reads { OnlyReads S.Store store.old store.new }
    ensures copies { (b : List ℕ) → S.image store.new b
        → Writes result (W.contents w.old) (W.contents w.new) (bytes_of b span) }
    ensures fails { IfErr result (CopyingFails S.Store store.old store.new) }
    ensures failed { IfErr result (λ fault. fault ≡ Output → W.failed w.new) }
{
    let mut done = 0;
    while done < span.len {
        let n = (span.len - done).min(piece.len() as u64);
        let part = &mut piece[..n as usize];
        read_part(store, span.place + done, part)?;
        write_whole(w, part)?;
        done += n;
    }
    Ok(())
}

/// Reads the bytes of a span over a vector, which grows as they come.
pub(crate) fn take_span<S: Store>(
    store: &mut S,
    span: Span,
    piece: &mut [u8],
    into: &mut Vec<u8>,
) -> Result<(), ReadFault>
    requires piece { 0 < length piece.old }
    requires inside { span.place + span.len ≤ S.size store.old }
    requires fits { S.size store.old < 2 ^ 64 }
    ensures reads { OnlyReads S.Store store.old store.new }
    ensures is { (b : List ℕ) → S.image store.new b
        → OnOk result (into.new.items ≡ bytes_of b span) }
    ensures long { OnOk result (length into.new.items ≡ span.len) }
    ensures fails { IfErr result (ValueFails S.Store store.old store.new) }
{
    into.clear();
    let mut done = 0;
    while done < span.len {
        let n = (span.len - done).min(piece.len() as u64);
        let part = &mut piece[..n as usize];
        read_part(store, span.place + done, part)?;
        into.extend_from_slice(part)?;
        done += n;
    }
    Ok(())
}
