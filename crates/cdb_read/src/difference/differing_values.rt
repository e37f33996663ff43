// The comparison of a key's values in two databases.
ghost use Rattle.std.specs.Prelude.{◌≡◌, ◌+◌, ◌<◌, ◌≤◌, ◌∷◌, ℕ, List, [], IfOk, IfErr, MatchOption, length, map};
ghost use Rattle.std.specs.Bool.{Decides};
ghost use Rattle.cdb_read.specs.Difference.{values_eq};
ghost use Rattle.cdb_read.specs.Lookup.{bytes_of};
ghost use Rattle.cdb_read.specs.Views.Finder.{left_in, GivesNone, GivesSpan};
ghost use Rattle.cdb_read.specs.Differing.{is_first_changed, LookHas, StopsBy, BytesStop, OtherStops, ValuesStop, LooksOn, ReadBoth, StaysAt};

use crate::difference::same::is_same;
use crate::difference::stop::Stop;
use crate::{Finder, Reader, Span};
use cdb_form::Width;
use cdb_store::Store;

/// Returns true if two values have the same bytes. They are read piece by piece, up to the first
/// piece that differs.
fn same_bytes<L: Width, S: Store, T: Store>(
    own: &mut Finder<'_, S, L>,
    value: Span,
    other: &mut Finder<'_, T, L>,
    with: Span,
    mine: &mut [u8],
    theirs: &mut [u8],
) -> Result<bool, Stop>
    requires piece { 0 < length mine.old }
    requires pieces { length theirs.old ≡ length mine.old }
    requires inside { value.place + value.len ≤ S.size own.old.reader.now.store }
    requires within { with.place + with.len ≤ T.size other.old.reader.now.store }
    ensures own { StaysAt own.old own.new }
    ensures other { StaysAt other.old other.new }
    ensures same { (b c : List ℕ) → S.image own.new.reader.now.store b
        → T.image other.new.reader.now.store c
        → IfOk result (λ same. Decides same (bytes_of b value ≡ bytes_of c with)) }
    ensures fails { IfErr result (BytesStop S.Store T.Store own.old.reader.now.store
        own.new.reader.now.store other.old.reader.now.store other.new.reader.now.store) }
{
    if value.len != with.len {
        return Ok(false);
    }
    let mut done = 0;
    while done < value.len {
        let n = (value.len - done).min(mine.len() as u64) as usize;
        let piece = &mut mine[..n];
        own.read_at(value.place + done, piece)?;
        let beside = &mut theirs[..n];
        match other.read_at(with.place + done, beside) {
            Ok(()) => {}
            Err(fault) => return Err(Stop::Other(fault)),
        }
        if !is_same(piece, beside) {
            return Ok(false);
        }
        done += n as u64;
    }
    Ok(true)
}

/// Returns the next value of the other finder.
fn next_other<L: Width, T: Store>(other: &mut Finder<'_, T, L>) -> Result<Option<Span>, Stop>
    ensures looks { LooksOn other.old other.new }
    ensures gives { IfOk result (λ found. MatchOption found
        (GivesNone L.WORD other.old other.new)
        (GivesSpan L.WORD other.old other.new)) }
    ensures fails { IfErr result (OtherStops L.WORD other.old other.new) }
{
    match other.next() {
        Ok(found) => Ok(found),
        Err(fault) => Err(Stop::Other(fault)),
    }
}

/// Returns true if the other finder has no value left.
fn ends<L: Width, T: Store>(other: &mut Finder<'_, T, L>) -> Result<bool, Stop>
    ensures looks { LooksOn other.old other.new }
    ensures ends { (c : List ℕ) → T.image other.new.reader.now.store c
        → IfOk result (λ ended. ended
        ≡ values_eq [] (map (bytes_of c) (left_in L.WORD c other.old).spans)) }
    ensures fails { IfErr result (OtherStops L.WORD other.old other.new) }
{
    match next_other(other)? {
        Some(_) => Ok(false),
        None => Ok(true),
    }
}

/// Returns true if a value and the values that its finder has left equal, one by one, the values
/// that another finder has left. The first that differs ends the comparison.
fn same_values<L: Width, S: Store, T: Store>(
    own: &mut Finder<'_, S, L>,
    first: Span,
    other: &mut Finder<'_, T, L>,
    mine: &mut [u8],
    theirs: &mut [u8],
) -> Result<bool, Stop>
    requires piece { 0 < length mine.old }
    requires pieces { length theirs.old ≡ length mine.old }
    requires inside { first.place + first.len ≤ S.size own.old.reader.now.store }
    ensures own { LooksOn own.old own.new }
    ensures other { LooksOn other.old other.new }
    ensures same { (b c : List ℕ) → S.image own.new.reader.now.store b
        → T.image other.new.reader.now.store c → IfOk result (λ same. same
        ≡ values_eq (map (bytes_of b) (first ∷ (left_in L.WORD b own.old).spans))
        (map (bytes_of c) (left_in L.WORD c other.old).spans)) }
    ensures fails { IfErr result (ValuesStop L.WORD own.old own.new other.old other.new) }
{
    let mut value = first;
    while let Some(with) = next_other(other)? {
        if !same_bytes(own, value, other, with, mine, theirs)? {
            return Ok(false);
        }
        let Some(next) = own.next()? else {
            return ends(other);
        };
        value = next;
    }
    Ok(false)
}

/// Returns true if the value at a place is the first of its key, and the key has other values in
/// the other database.
pub(crate) fn is_first_changed<L: Width, S: Store, T: Store>(
    own: &mut Reader<S, L>,
    other: &mut Reader<T, L>,
    key: &[u8],
    place: u64,
    mine: &mut [u8],
    theirs: &mut [u8],
) -> Result<bool, Stop>
    requires piece { 0 < length mine.old }
    requires pieces { length theirs.old ≡ length mine.old }
    ensures reads { ReadBoth own.old own.new other.old other.new }
    ensures changed { (b c : List ℕ) → S.image own.new.store b → T.image other.new.store c
        → IfOk result (λ changed. changed ≡ is_first_changed L.WORD b c key.now place) }
    ensures fails { IfErr result (StopsBy S.Store T.Store own.old.store own.new.store
        other.old.store other.new.store (LookHas L.WORD S.Store own.new.store key.now)
        (LookHas L.WORD T.Store other.new.store key.now) ⊥) }
{
    let mut finder = own.find(key);
    let Some(first) = finder.next()? else {
        return Ok(false);
    };
    if first.place != place {
        return Ok(false);
    }
    let same = same_values(&mut finder, first, &mut other.find(key), mine, theirs)?;
    Ok(!same)
}
