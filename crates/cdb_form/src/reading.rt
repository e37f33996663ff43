// Bytes from a reader: some of them, all that are wanted, or a vector of them.
ghost use Rattle.std.specs.Prelude.{◌≡◌, ◌≢◌, ℕ, ◌+◌, ◌*◌, ◌^◌, ◌<◌, ◌≤◌, List, ◌++◌, length, take, OnOk, OnErr, IfOk, IfErr, ◌⊎◌};
ghost use Rattle.cdb_form.specs.Views.Feed.{Consumes, IsAtEnd, Keeps};
ghost use Rattle.cdb_form.specs.Format.{AreBytes};
ghost use Rattle.cdb_form.specs.Views.Taking.{IsWhy, LosesAtMost, LosesFewer, Passes, ReadsShort};
ghost use Rattle.cdb_form.specs.Views.KnownBytes.{IsOfReader};
ghost use Rattle.cdb_form.specs.declared.reading.ReadStop.TheVariants.{Ended, NoMemory};

use crate::feeds::Feeds;
use std::alloc::AllocError;
use std::io::ErrorKind;

/// The number of bytes that a pipe holds. It is also the size of a window, and the number of bytes
/// that are read or written at a time.
pub const PIPE: usize = 65536;

/// The number of times in a row that a reader or a writer is called again if a signal interrupts
/// it.
pub(crate) const RETRIES: u32 = 1000;

/// The reason why a reader did not give the bytes requested.
#[derive(Clone, Copy)]
pub(crate) enum ReadStop {
    /// The reader had no more bytes.
    Ended,
    /// The reader failed, or was interrupted more than 1000 times in a row.
    Failed,
    /// The reader got all requests that it may get.
    Spent,
    /// An allocation for the bytes failed.
    NoMemory,
}

impl From<AllocError> for ReadStop {
    ghost from_gives = { λ _ f. f ≡ NoMemory };

    fn from(_: AllocError) -> ReadStop {
        ReadStop::NoMemory
    }
}

/// Requests bytes until some come. None come only at the end.
///
/// Each call of the reader takes one of the requests.
#[inline(always)]
pub(crate) fn some_bytes<R: Feeds>(
    reader: &mut R,
    asks: &mut u64,
    into: &mut [u8],
) -> Result<usize, ReadStop>
    requires { 0 < length into.old }
    ensures bound { IfOk result (λ n. n ≤ length into.new) }
    ensures bytes { IfOk result (λ n.
        Consumes (R.feed reader.old) (R.feed reader.new) (take n into.new)) }
    ensures are { IfOk result (λ _. AreBytes into.new) }
    ensures end { IfOk result (λ n. n ≡ 0 → IsAtEnd (R.feed reader.new)) }
    ensures kept { OnErr result (Keeps (R.feed reader.old) (R.feed reader.new)) }
    ensures fewer { OnOk result (asks.new < asks.old) }
    ensures no_more { asks.new ≤ asks.old }
    ensures spends { asks.old ≤ asks.new + 1001 }
    ensures one { OnOk result ((R.feed reader.new).failed ⊎ (asks.old ≤ asks.new + 1)) }
    ensures why { IfErr result (IsWhy (R.feed reader.new) 1 asks.old asks.new) }
    ensures fails { IfErr result IsOfReader }
{
    for _ in 0..RETRIES + 1 {
        if *asks == 0 {
            return Err(ReadStop::Spent);
        }
        *asks -= 1;
        match reader.read_some(into) {
            Ok(n) => return Ok(n),
            Err(e) => {
                if e.kind() != ErrorKind::Interrupted {
                    return Err(ReadStop::Failed);
                }
            }
        }
    }
    Err(ReadStop::Failed)
}

/// Fills all of `into`.
pub(crate) fn all_bytes<R: Feeds>(
    reader: &mut R,
    asks: &mut u64,
    into: &mut [u8],
) -> Result<(), ReadStop>
    ensures bytes { OnOk result (Consumes (R.feed reader.old)
        (R.feed reader.new) into.new) }
    ensures are { OnOk result (AreBytes into.new) }
    ensures ended { IfErr result (λ f.
        f ≡ Ended → ReadsShort (length into.old) (R.feed reader.old)
        (R.feed reader.new)) }
    ensures loses { LosesAtMost (R.feed reader.old)
        (R.feed reader.new) (length into.old) }
    ensures loses_fewer { OnErr result (LosesFewer (R.feed reader.old)
        (R.feed reader.new) (length into.old)) }
    ensures memory { IfErr result (λ f. f ≢ NoMemory) }
    ensures why { IfErr result (IsWhy (R.feed reader.new) (length into.old) asks.old asks.new) }
{
    let mut done = 0;
    while done < into.len() {
        let n = some_bytes(reader, asks, &mut into[done..])?;
        if n == 0 {
            return Err(ReadStop::Ended);
        }
        done += n;
    }
    Ok(())
}

/// Lengthens a vector to at least `len` bytes, by zeros. If an allocation fails, it stays as it is.
#[inline(always)]
fn lengthen(into: &mut Vec<u8>, len: usize) -> Result<(), AllocError>
    ensures front { take (length into.old.items) into.new.items ≡ into.old.items }
    ensures long { OnOk result (len ≤ length into.new.items) }
    ensures longer { length into.old.items ≤ length into.new.items }
{
    if into.len() < len {
        into.resize(len, 0)?;
    }
    Ok(())
}

/// Takes some of the next bytes into a vector, after its first `held` and over what it holds
/// there: one at least and `most` at most.
///
/// After a fault the vector holds its first `held` bytes alone.
#[inline(always)]
fn some_behind<R: Feeds>(
    reader: &mut R,
    asks: &mut u64,
    into: &mut Vec<u8>,
    held: usize,
    most: usize,
) -> Result<usize, ReadStop>
    requires some { 0 < most }
    requires room { held + most < 2 ^ 64 }
    requires within { held ≤ length into.old.items }
    ensures read { IfOk result (λ n. (piece : List ℕ)
        × Consumes (R.feed reader.old) (R.feed reader.new) piece
        × (take (held + n) into.new.items ≡ take held into.old.items ++ piece)
        × AreBytes piece × (length piece ≡ n)) }
    ensures within { IfOk result (λ n. held + n ≤ length into.new.items) }
    ensures bound { IfOk result (λ n. (0 < n) × (n ≤ most)) }
    ensures ended { IfErr result (λ f. f ≡ Ended → IsAtEnd (R.feed reader.new)) }
    ensures kept { OnErr result (Keeps (R.feed reader.old) (R.feed reader.new)) }
    ensures holds { OnErr result (into.new.items ≡ take held into.old.items) }
    ensures fewer { OnOk result (asks.new < asks.old) }
    ensures no_more { asks.new ≤ asks.old }
    ensures spends { asks.old ≤ asks.new + 1001 }
    ensures one { OnOk result ((R.feed reader.new).failed ⊎ (asks.old ≤ asks.new + 1)) }
    ensures why { IfErr result (IsWhy (R.feed reader.new) 1 asks.old asks.new) }
{
    let end = held + most;
    if lengthen(into, end).is_err() {
        into.truncate(held);
        return Err(ReadStop::NoMemory);
    }
    match some_bytes(reader, asks, &mut into[held..end]) {
        Ok(0) => {
            into.truncate(held);
            Err(ReadStop::Ended)
        }
        Ok(n) => Ok(n),
        Err(unread) => {
            into.truncate(held);
            Err(unread)
        }
    }
}

/// Takes the next `len` bytes into a vector, over what it holds, at most `piece` at a time.
///
/// It allocates memory as the bytes come, a piece ahead. After a fault the vector holds the bytes
/// that came.
#[inline(always)]
pub(crate) fn vector<R: Feeds>(
    reader: &mut R,
    asks: &mut u64,
    into: &mut Vec<u8>,
    len: u64,
    piece: u64,
) -> Result<(), ReadStop>
    requires { 0 < piece }
    ensures read { OnOk result (Consumes (R.feed reader.old)
        (R.feed reader.new) into.new.items) }
    ensures part { OnErr result (Consumes (R.feed reader.old) (R.feed reader.new) into.new.items) }
    ensures are { AreBytes into.new.items }
    ensures long { OnOk result (length into.new.items ≡ len) }
    ensures short { OnErr result (length into.new.items < len) }
    ensures ended { IfErr result (λ f. f ≡ Ended → IsAtEnd (R.feed reader.new)) }
    ensures loses { LosesAtMost (R.feed reader.old) (R.feed reader.new) len }
    ensures loses_fewer { OnErr result
        (LosesFewer (R.feed reader.old) (R.feed reader.new) len) }
    ensures no_more { asks.new ≤ asks.old }
    ensures each { piece ≤ 4096 → length into.new.items + 4096 * asks.new ≤ 4096 * asks.old }
    ensures spends { OnOk result (asks.old ≤ asks.new + 1001 * length into.new.items) }
    ensures spends_err { OnErr result (asks.old ≤ asks.new + 1001 * length into.new.items + 1001) }
    ensures why { IfErr result (IsWhy (R.feed reader.new) len asks.old asks.new) }
{
    let mut done = 0;
    while (done as u64) < len {
        let most = (len - done as u64).min(piece);
        done += some_behind(reader, asks, into, done, most as usize)?;
    }
    into.truncate(done);
    Ok(())
}

/// Passes over the next `len` bytes, which come through `piece`.
pub(crate) fn skip<R: Feeds>(
    reader: &mut R,
    asks: &mut u64,
    len: u64,
    piece: &mut [u8],
) -> Result<(), ReadStop>
    requires some { 0 < length piece.old }
    ensures read { OnOk result
        (Passes len (R.feed reader.old) (R.feed reader.new)) }
    ensures ended { IfErr result (λ f. f ≡ Ended →
        ReadsShort len (R.feed reader.old) (R.feed reader.new)) }
    ensures loses { LosesAtMost (R.feed reader.old) (R.feed reader.new) len }
    ensures loses_fewer { OnErr result
        (LosesFewer (R.feed reader.old) (R.feed reader.new) len) }
    ensures memory { IfErr result (λ f. f ≢ NoMemory) }
    ensures why { IfErr result (IsWhy (R.feed reader.new) len asks.old asks.new) }
{
    let mut done = 0;
    while done < len {
        let most = (len - done).min(piece.len() as u64);
        let n = some_bytes(reader, asks, &mut piece[..most as usize])?;
        if n == 0 {
            return Err(ReadStop::Ended);
        }
        done += n as u64;
    }
    Ok(())
}
