// A walk over the records, whose state the caller holds.
ghost use Rattle.std.specs.Prelude.{◌≡◌, ◌+◌, ◌<◌, ◌≤◌, length, IfOk, IfErr, MatchOption, drop, Ok, None};
ghost use Rattle.cdb_form.specs.Format.{head_size, walk_of, walk_from, damaged};
ghost use Rattle.cdb_form.specs.declared.damage.Damage.TheVariants.{Record};
ghost use Rattle.cdb_read.specs.Memory.{rest_of, WalkBegins, StandsRecord, WalkGivesRecord};

use crate::{Pair, has_bytes, spans};
use cdb_form::{Damage, Width, head_size, pair_size, read_head, read_header};

/// The area of the records that a walk has left.
#[derive(Clone, Copy, Debug, PartialEq, Eq)]
pub struct RecordArea {
    /// The place of the next record, in bytes from the file's start.
    pub place: u64,
    /// The record end.
    pub end: u64,
}

/// Returns the spans of the record at a place, if it is whole before the record end and inside the
/// file.
fn record_at<L: Width>(file: &[u8], place: u64, end: u64) -> Option<Pair>
    requires { place < end }
    ensures { MatchOption result
        (walk_from L.WORD place end (drop place file.now) ≡ damaged (Record place))
        (StandsRecord L.WORD file.now place end) }
{
    let size = file.len() as u64;
    let limit = size.min(end);
    let header_size = pair_size::<L>();
    if !has_bytes(limit, place, header_size as u64) {
        return None;
    }
    let at = place as usize;
    let header = read_header::<L>(&file[at..at + header_size]);
    spans::<L>(place, header, limit)
}

/// Begins a walk over the records of a file, which has at least a head.
pub fn first_record<L: Width>(file: &[u8]) -> Result<RecordArea, Damage>
    requires { head_size L.WORD ≤ length file.now }
    ensures begins { IfOk result (WalkBegins L.WORD file.now) }
    ensures first { IfOk result (λ r. r.place ≡ head_size L.WORD) }
    ensures damaged { IfErr result (λ d. walk_of L.WORD file.now ≡ damaged d) }
{
    let place = head_size::<L>();
    let head = read_head::<L>(&file[..place]);
    let end = head.record_end::<L>();
    if end < place as u64 {
        return Err(Damage::Table(head.first_table_at(end) as u64));
    }
    Ok(RecordArea {
        place: place as u64,
        end,
    })
}

/// Returns the next record of a walk, or none at the record end. After a damage the walk stays
/// where it is, so the next call answers the same.
///
/// A state that `first_record` or `next_record` didn't leave is safe to pass: the record lies
/// inside the file. One that has passed its record end has ended.
pub fn next_record<L: Width>(file: &[u8], rest: &mut RecordArea) -> Result<Option<Pair>, Damage>
    ensures gives { IfOk result (λ found. MatchOption found
        (rest.old.end ≤ rest.old.place)
        (WalkGivesRecord L.WORD file.now rest.old rest.new)) }
    ensures damaged { IfErr result (λ d.
        (rest_of L.WORD file.now rest.old ≡ damaged d) × (d ≡ Record rest.old.place)
        × (rest.new ≡ rest.old)) }
    ensures ended { rest.old.end ≤ rest.old.place
        → (result ≡ Ok None) × (rest.new ≡ rest.old) }
{
    let place = rest.place;
    if rest.end <= place {
        return Ok(None);
    }
    match record_at::<L>(file, place, rest.end) {
        None => Err(Damage::Record(place)),
        Some(pair) => {
            rest.place = pair.value.place + pair.value.len;
            Ok(Some(pair))
        }
    }
}
