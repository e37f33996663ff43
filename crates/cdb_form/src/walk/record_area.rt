// The area of the records of a database file, by its head.
ghost use Rattle.std.specs.Prelude.{◌≡◌, ◌≤◌, drop, OnErr, IfOk, IfErr};
ghost use Rattle.cdb_form.specs.Views.Feed.{FromTo};
ghost use Rattle.cdb_form.specs.Views.Taking.{IsUnread, LosesAtMost, ReadsHead, ReadsNoRecord};
ghost use Rattle.cdb_form.specs.Format.{head_size, record_end, walk_of, walk_from};
ghost use Rattle.cdb_form.specs.Views.WalkFault.{IsDamage, stopped_by};

use crate::feeds::Feeds;
use crate::head::head_size;
use crate::walk::fault::WalkFault;
use crate::walk::source::file_head;
use crate::width::Width;

/// The area of the records that weren't given yet: from the next place to the record end.
#[derive(Clone, Copy)]
pub(crate) struct RecordArea {
    pub(crate) place: u64,
    pub(crate) end: u64,
    pub(crate) ghost ordered: { place ≤ end },
}

/// Reads the head, and returns the area of all records.
pub(crate) fn read_area<R: Feeds, L: Width>(reader: &mut R) -> Result<RecordArea, WalkFault>
    ensures area { IfOk result (λ area.
        FromTo (R.feed reader.old) (R.feed reader.new) (λ text rest.
        (walk_of L.WORD text ≡ walk_from L.WORD area.place area.end rest)
        × (area.end ≡ record_end L.WORD text) × (rest ≡ drop (head_size L.WORD) text))) }
    ensures place { IfOk result (λ area. area.place ≡ head_size L.WORD) }
    ensures fails { IfErr result (λ f. IsDamage f
        → FromTo (R.feed reader.old) (R.feed reader.new) (λ text rest. walk_of L.WORD text ≡ stopped_by f)) }
    ensures cut { IfOk result (λ area. ReadsHead L.WORD area.place area.end
        (R.feed reader.old) (R.feed reader.new)) }
    ensures part { OnErr result
        (ReadsNoRecord (walk_of L.WORD) (R.feed reader.old) (R.feed reader.new)) }
    ensures unread { IfErr result (IsUnread (R.feed reader.new)) }
    ensures loses { LosesAtMost (R.feed reader.old)
        (R.feed reader.new) (head_size L.WORD) }
{
    let head = file_head::<R, L>(reader)?;
    let place = head_size::<L>() as u64;
    let end = head.record_end::<L>();
    if end < place {
        return Err(WalkFault::Table(head.first_table_at(end) as u64));
    }
    Ok(RecordArea { place, end })
}
