// Bytes of a file from a reader. If the reader ends too early, the file is damaged.
ghost use Rattle.std.specs.Prelude.{◌+◌, ◌≡◌, ◌<◌, length, OnOk, OnErr, IfOk, IfErr};
ghost use Rattle.cdb_form.specs.Views.Feed.{Consumes};
ghost use Rattle.cdb_form.specs.Format.{head_size, pair_size, AreBytes, KeyValue};
ghost use Rattle.cdb_form.specs.declared.walk.fault.WalkFault.TheVariants.{Short};
ghost use Rattle.cdb_form.specs.declared.walk.keeping.Keeping.TheVariants.{Key};
ghost use Rattle.cdb_form.specs.Views.Taking.{BodyRead, HeadRead, HeaderRead, IsUnread, LosesAtMost, LosesFewer, Passes, ReadsShort, ValueRead};
ghost use Rattle.cdb_form.specs.Views.KnownBytes.{IsKept};
ghost use Rattle.cdb_form.specs.Views.WalkFault.{IsDamage};

use crate::feeds::Feeds;
use crate::head::{GREATEST_HEAD, Head, head_size, read_head};
use crate::header::{Header, read_header};
use crate::pair::{GREATEST_PAIR, pair_size};
use crate::reading::{PIPE, all_bytes, skip, vector};
use crate::record::Record;
use crate::walk::fault::WalkFault;
use crate::walk::keeping::Keeping;
use crate::width::Width;

/// The number of requests that a reader may get for the bytes of one vector: each request gives a
/// byte or is one of at most 1000 in a row that signals interrupt, so no vector that memory can
/// hold uses them up.
const ASKS: u64 = u64::MAX;

/// The number of bytes that are requested at a time to pass over a value.
const PASSED: usize = 512;

/// Fills all of `into`, or answers `early` if the reader ends before that.
fn fill<R: Feeds>(reader: &mut R, into: &mut [u8], early: WalkFault) -> Result<(), WalkFault>
    requires { IsDamage early }
    ensures bytes { OnOk result (Consumes (R.feed reader.old)
        (R.feed reader.new) into.new) }
    ensures are { OnOk result (AreBytes into.new) }
    ensures fails { IfErr result (λ f.
        IsDamage f → (f ≡ early) × ReadsShort (length into.old) (R.feed reader.old)
        (R.feed reader.new)) }
    ensures unread { IfErr result (IsUnread (R.feed reader.new)) }
    ensures loses { LosesAtMost (R.feed reader.old)
        (R.feed reader.new) (length into.old) }
    ensures loses_fewer { OnErr result (LosesFewer
        (R.feed reader.old) (R.feed reader.new) (length into.old)) }
{
    let mut asks = ASKS;
    match all_bytes(reader, &mut asks, into) {
        Ok(()) => Ok(()),
        Err(unread) => Err(WalkFault::of_reader(unread, early)),
    }
}

/// Takes the next `len` bytes, or answers `early` if the reader ends before.
fn bytes<R: Feeds>(
    reader: &mut R,
    into: &mut Vec<u8>,
    len: u64,
    early: WalkFault,
) -> Result<(), WalkFault>
    requires { IsDamage early }
    ensures read { OnOk result (Consumes (R.feed reader.old)
        (R.feed reader.new) into.new.items) }
    ensures are { AreBytes into.new.items }
    ensures long { OnOk result (length into.new.items ≡ len) }
    ensures fails { IfErr result (λ f.
        IsDamage f → (f ≡ early) × ReadsShort len (R.feed reader.old)
        (R.feed reader.new)) }
    ensures unread { IfErr result (IsUnread (R.feed reader.new)) }
    ensures loses { LosesAtMost (R.feed reader.old) (R.feed reader.new) len }
    ensures loses_fewer { OnErr result (LosesFewer
        (R.feed reader.old) (R.feed reader.new) len) }
{
    let mut asks = ASKS;
    match vector(reader, &mut asks, into, len, PIPE as u64) {
        Ok(()) => Ok(()),
        Err(unread) => Err(WalkFault::of_reader(unread, early)),
    }
}

/// Reads the head of a file. `Short`: the reader ends before it does.
pub(crate) fn file_head<R: Feeds, L: Width>(reader: &mut R) -> Result<Head, WalkFault>
    ensures read { IfOk result (HeadRead L.WORD (R.feed reader.old) (R.feed reader.new)) }
    ensures fails { IfErr result (λ f. IsDamage f → (f ≡ Short)
        × ReadsShort (head_size L.WORD) (R.feed reader.old) (R.feed reader.new)) }
    ensures unread { IfErr result (IsUnread (R.feed reader.new)) }
    ensures loses { LosesAtMost
        (R.feed reader.old) (R.feed reader.new) (head_size L.WORD) }
    ensures loses_fewer { OnErr result (LosesFewer
        (R.feed reader.old) (R.feed reader.new) (head_size L.WORD)) }
{
    let mut bytes = [0u8; GREATEST_HEAD];
    let size = head_size::<L>();
    fill(reader, &mut bytes[..size], WalkFault::Short)?;
    Ok(read_head::<L>(&bytes[..size]))
}

/// Reads the header of a record, or answers `early` if the reader ends before it does.
pub(crate) fn record_header<R: Feeds, L: Width>(
    reader: &mut R,
    early: WalkFault,
) -> Result<Header, WalkFault>
    requires { IsDamage early }
    ensures read { IfOk result
        (HeaderRead L.WORD (R.feed reader.old) (R.feed reader.new)) }
    ensures fails { IfErr result (λ f. IsDamage f → (f ≡ early)
        × ReadsShort (pair_size L.WORD) (R.feed reader.old) (R.feed reader.new)) }
    ensures unread { IfErr result (IsUnread (R.feed reader.new)) }
    ensures loses { LosesAtMost
        (R.feed reader.old) (R.feed reader.new) (pair_size L.WORD) }
    ensures loses_fewer { OnErr result (LosesFewer
        (R.feed reader.old) (R.feed reader.new) (pair_size L.WORD)) }
{
    let mut bytes = [0u8; GREATEST_PAIR];
    let size = pair_size::<L>();
    fill(reader, &mut bytes[..size], early)?;
    Ok(read_header::<L>(&bytes[..size]))
}

/// Passes over the next `len` bytes, or answers `early` if the reader ends before.
fn pass<R: Feeds>(reader: &mut R, len: u64, early: WalkFault) -> Result<(), WalkFault>
    requires { IsDamage early }
    ensures read { OnOk result
        (Passes len (R.feed reader.old) (R.feed reader.new)) }
    ensures fails { IfErr result (λ f. IsDamage f → (f ≡ early)
        × ReadsShort len (R.feed reader.old) (R.feed reader.new)) }
    ensures unread { IfErr result (IsUnread (R.feed reader.new)) }
    ensures loses { LosesAtMost (R.feed reader.old) (R.feed reader.new) len }
    ensures loses_fewer { OnErr result (LosesFewer
        (R.feed reader.old) (R.feed reader.new) len) }
{
    let mut asks = ASKS;
    match skip(reader, &mut asks, len, &mut [0; PASSED]) {
        Ok(()) => Ok(()),
        Err(unread) => Err(WalkFault::of_reader(unread, early)),
    }
}

/// Reads the value of a record, or passes it over and leaves the one that is there.
fn record_value<R: Feeds>(
    reader: &mut R,
    into: &mut Vec<u8>,
    len: u64,
    keeping: Keeping,
    early: WalkFault,
) -> Result<(), WalkFault>
    requires { IsDamage early }
    ensures read { OnOk result (ValueRead keeping len
        (R.feed reader.old) (R.feed reader.new) into.new.items) }
    ensures same { keeping ≡ Key → into.new ≡ into.old }
    ensures are { AreBytes into.new.items }
    ensures fails { IfErr result (λ f. IsDamage f → (f ≡ early)
        × ReadsShort len (R.feed reader.old) (R.feed reader.new)) }
    ensures unread { IfErr result (IsUnread (R.feed reader.new)) }
    ensures loses { LosesAtMost (R.feed reader.old) (R.feed reader.new) len }
    ensures loses_fewer { OnErr result (LosesFewer
        (R.feed reader.old) (R.feed reader.new) len) }
{
    match keeping {
        Keeping::Both => bytes(reader, into, len, early),
        Keeping::Key => pass(reader, len, early),
    }
}

/// Reads the key and the value of a record, whose lengths are in its header.
pub(crate) fn record_body<R: Feeds>(
    reader: &mut R,
    into: &mut Record,
    header: Header,
    keeping: Keeping,
    early: WalkFault,
) -> Result<(), WalkFault>
    requires { IsDamage early }
    ensures read { OnOk result ((r : KeyValue) × IsKept keeping into.new r
        × BodyRead (R.feed reader.old) (R.feed reader.new) header r) }
    ensures value { keeping ≡ Key → into.new.value ≡ into.old.value }
    ensures fails { IfErr result (λ f. IsDamage f → (f ≡ early)
        × ReadsShort (header.klen + header.vlen)
        (R.feed reader.old) (R.feed reader.new)) }
    ensures unread { IfErr result (IsUnread (R.feed reader.new)) }
    ensures loses { LosesAtMost
        (R.feed reader.old) (R.feed reader.new) (header.klen + header.vlen) }
    ensures loses_fewer { OnErr result (LosesFewer
        (R.feed reader.old) (R.feed reader.new) (header.klen + header.vlen)) }
{
    bytes(reader, &mut into.key, header.klen, early)?;
    record_value(reader, &mut into.value, header.vlen, keeping, early)
}
