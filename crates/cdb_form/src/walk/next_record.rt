// The next record of a database file.
ghost use Rattle.std.specs.Prelude.{◌≡◌, ◌+◌, ◌-◌, ◌<◌, drop, OnErr, IfOk, IfErr};
ghost use Rattle.cdb_form.specs.Views.Feed.{FromTo};
ghost use Rattle.cdb_form.specs.Format.{pair_size, KeyValue, record_size, walk_from, with_first};
ghost use Rattle.cdb_form.specs.Views.Taking.{IsUnread, LosesAtMost, ReadsFirst, ReadsNoFurther, ReadsNoRecord};
ghost use Rattle.cdb_form.specs.Views.KnownBytes.{IsKept};
ghost use Rattle.cdb_form.specs.declared.walk.keeping.Keeping.TheVariants.{Key};
ghost use Rattle.cdb_form.specs.Views.WalkFault.{IsDamage, stopped_by};

use crate::feeds::Feeds;
use crate::pair::pair_size;
use crate::record::Record;
use crate::walk::fault::WalkFault;
use crate::walk::keeping::Keeping;
use crate::walk::record_area::RecordArea;
use crate::walk::source::{record_body, record_header};
use crate::width::Width;

/// Reads the record at the next place, and returns the area of the records after it.
#[inline(never)]
pub(crate) fn read_record<R: Feeds, L: Width>(
    reader: &mut R,
    into: &mut Record,
    area: RecordArea,
    keeping: Keeping,
) -> Result<RecordArea, WalkFault>
    requires { area.place < area.end }
    ensures record { IfOk result (λ behind. (r : KeyValue) × IsKept keeping into.new r
        × (behind.place ≡ area.place + record_size L.WORD r)
        × FromTo (R.feed reader.old) (R.feed reader.new) (λ text rest.
        (walk_from L.WORD area.place area.end text
        ≡ with_first r (walk_from L.WORD behind.place area.end rest))
        × (rest ≡ drop (behind.place - area.place) text))
        × ReadsFirst r (walk_from L.WORD area.place area.end)
        (walk_from L.WORD behind.place area.end) (R.feed reader.old) (R.feed reader.new)) }
    ensures value { keeping ≡ Key → into.new.value ≡ into.old.value }
    ensures place { IfOk result (λ behind. area.place < behind.place) }
    ensures end { IfOk result (λ behind. behind.end ≡ area.end) }
    ensures fails { IfErr result (λ f. IsDamage f
        → FromTo (R.feed reader.old) (R.feed reader.new) (λ text rest.
        walk_from L.WORD area.place area.end text ≡ stopped_by f)) }
    ensures header { IfErr result (λ f.
        IsDamage f → ReadsNoFurther (pair_size L.WORD) (R.feed reader.old)
        (R.feed reader.new)) }
    ensures unread { IfErr result (IsUnread (R.feed reader.new)) }
    ensures loses { LosesAtMost (R.feed reader.old)
        (R.feed reader.new) (area.end - area.place) }
    ensures part { OnErr result (ReadsNoRecord (walk_from L.WORD area.place area.end)
        (R.feed reader.old) (R.feed reader.new)) }
{
    let early = WalkFault::Record(area.place);
    let size = pair_size::<L>();
    let left = area.end - area.place;
    if left < size as u64 {
        return Err(early);
    }
    let header = record_header::<R, L>(reader, early)?;
    let left = left - size as u64;
    if left < header.klen || left - header.klen < header.vlen {
        return Err(early);
    }
    record_body(reader, into, header, keeping, early)?;
    let place = area.place + size as u64 + header.klen + header.vlen;
    Ok(RecordArea {
        place,
        end: area.end,
    })
}
