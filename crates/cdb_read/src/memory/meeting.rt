// The slots of a search and the records that they point to.
ghost use Rattle.std.specs.Prelude.{◌≡◌, ◌<◌, length};
ghost use Rattle.cdb_form.specs.Format.{key_hash};
ghost use Rattle.cdb_form.specs.Views.Pairs.{slot_pair};
ghost use Rattle.cdb_read.specs.Views.Search.{probe_slot, ProbedFrom, ProbedWithin, Meets, MetWithin, LooksAt, LookWithin, ProbeInside};

use crate::{Look, Met, Probe, Probed, has_bytes, spans};
use cdb_form::{Slot, Width, head_size, pair_size, read_header, read_slot};

/// Returns the record at a place, as far as a search of a key needs it.
fn look_at<L: Width>(file: &[u8], place: u64, key: &[u8]) -> Look
    ensures looks { LooksAt L.WORD key.now place result (λ b. b ≡ file.now) }
    ensures within { LookWithin (length file.now) result }
{
    let size = file.len() as u64;
    let header_size = pair_size::<L>();
    if place < head_size::<L>() as u64 || !has_bytes(size, place, header_size as u64) {
        return Look::Broken;
    }
    let at = place as usize;
    let header = read_header::<L>(&file[at..at + header_size]);
    let Some(record) = spans::<L>(place, header, size) else {
        return Look::Broken;
    };
    if record.key.len != key.len() as u64 {
        return Look::Other;
    }
    let from = record.key.place as usize;
    if &file[from..from + key.len()] != key {
        return Look::Other;
    }
    Look::Value(record.value)
}

/// Returns the slot of a probe.
fn slot_at<L: Width>(file: &[u8], probe: Probe) -> Slot
    requires { ProbeInside L.WORD (length file.now) probe }
    ensures { slot_pair result ≡ probe_slot L.WORD file.now probe }
{
    let slot_size = pair_size::<L>();
    let at = (probe.table.place + slot_size as u64 * probe.slot) as usize;
    read_slot::<L>(&file[at..at + slot_size])
}

/// Makes one probe of the search of a key by a hash.
fn make_probe<L: Width>(file: &[u8], probe: Probe, key: &[u8], hash: u64) -> Probed
    requires inside { ProbeInside L.WORD (length file.now) probe }
    requires left { 0 < probe.left }
    ensures steps { hash ≡ key_hash key.now
        → ProbedFrom L.WORD key.now probe result (λ b. b ≡ file.now) }
    ensures within { ProbedWithin (length file.now) result }
{
    let slot = slot_at::<L>(file, probe);
    if slot.place == 0 {
        return Probed::Empty;
    }
    if slot.hash != hash {
        return Probed::Passed;
    }
    match look_at::<L>(file, slot.place, key) {
        Look::Broken => Probed::Broken(slot.place),
        Look::Other => Probed::Passed,
        Look::Value(span) => Probed::Value(span),
    }
}

/// Searches a key by a hash, from a probe up to the next value.
pub(crate) fn meet<L: Width>(file: &[u8], from: Probe, key: &[u8], hash: u64) -> Met
    requires inside { ProbeInside L.WORD (length file.now) from }
    ensures meets { hash ≡ key_hash key.now
        → Meets L.WORD key.now from result (λ b. b ≡ file.now) }
    ensures within { MetWithin L.WORD (length file.now) from result }
{
    let mut probe = from;
    while probe.left > 0 {
        match make_probe::<L>(file, probe, key, hash) {
            Probed::Empty => return Met::End,
            Probed::Passed => probe = probe.next(),
            Probed::Value(span) => return Met::Value(span, probe.next()),
            Probed::Broken(place) => return Met::Broken(place),
        }
    }
    Met::End
}
