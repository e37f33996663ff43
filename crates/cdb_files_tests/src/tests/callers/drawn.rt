//! Files that are drawn, whole and damaged: a finder, a walk and a check come to what a plain
//! reading of the bytes comes to.
ghost use Rattle.std.specs.Prelude.{◌<◌};

use cdb_form::{Narrow, hash};
use cdb_make::{Maker, Mode};
use cdb_read::{ReadFault, Reader, Span, check, walk};
use cdb_store::MemStore;
use std::alloc::{AllocError, Global};
use std::prelude::*;
use std::test::Fail;

/// Some keys, of which several share a table and two a hash.
const KEYS: [&[u8]; 6] = [b"", b"a", b"bc", b"cB", b"one", b"two"];

/// What values are parts of.
const VALUES: &[u8] = b"0123456789";

/// What a reading came to: where it found bytes, and the damage that ended it, if any.
#[derive(Debug, PartialEq, Eq, Drop)]
struct Came {
    spans: Vec<Span>,
    damage: Option<ReadFault>,
}

/// The next number that is drawn.
fn draw(state: &mut u64) -> u64 {
    let one = *state ^ (*state << 13);
    let two = one ^ (one >> 7);
    *state = two ^ (two << 17);
    *state
}

/// A file of up to 40 records.
fn drawn_file(alloc: Global, state: &mut u64) -> Option<Vec<u8>> {
    let store = MemStore::new(alloc);
    let mut maker = Maker::<MemStore, Narrow>::new(alloc, store, 4294967295).ok()?;
    for _ in 0..draw(state) % 41 {
        let drawn = draw(state);
        let key = KEYS.get((drawn % 6) as usize).copied().unwrap_or(b"");
        let start = (drawn >> 16) % 11;
        let value = VALUES.get(start as usize..).unwrap_or(b"");
        maker.put(Mode::Add, key, value).ok()?;
    }
    Some(maker.finish().ok()?.into_vec())
}

/// Turns a bit of up to four bytes, cuts the file, or leaves it as it is.
fn damage(file: &mut Vec<u8>, state: &mut u64) {
    let drawn = draw(state);
    match drawn % 4 {
        0 => {}
        1 => file.truncate((drawn >> 32) as usize % (file.len().min(1 << 20) + 1)),
        many => {
            for _ in 0..many * 2 - 2 {
                let bits = draw(state);
                let at = (bits >> 32) as usize % file.len().max(1);
                if let Some(byte) = file.get_mut(at) {
                    *byte ^= 1 << (bits % 8);
                }
            }
        }
    }
}

/// The word of 4 bytes at a place.
fn word(file: &[u8], place: u64) -> u32 {
    let mut bytes = [0; 4];
    let behind = file.get(place as usize..).unwrap_or(b"");
    for (into, byte) in bytes.iter_mut().zip(behind) {
        *into = *byte;
    }
    u32::from_le_bytes(bytes)
}

/// The key and the value of the record at a place, if it ends at `end` or before.
fn record_at(file: &[u8], place: u32, end: usize) -> Option<(Span, Span)> {
    let place = u64::from(place);
    let klen = u64::from(word(file, place));
    let vlen = u64::from(word(file, place + 4));
    if place < 2048 || place + 8 + klen + vlen > end as u64 {
        return None;
    }
    let key = Span {
        place: place + 8,
        len: klen,
    };
    let value = Span {
        place: place + 8 + klen,
        len: vlen,
    };
    Some((key, value))
}

/// Nothing yet.
fn nothing(alloc: Global) -> Came {
    Came {
        spans: Vec::new(alloc),
        damage: None,
    }
}

/// What was found, and then a damage.
fn damaged(spans: Vec<Span>, fault: ReadFault) -> Came {
    Came {
        spans,
        damage: Some(fault),
    }
}

/// Looks a key up, slot by slot.
fn looked_up(alloc: Global, file: &[u8], key: &[u8]) -> Result<Came, AllocError> {
    let hash = hash(key);
    let n = u64::from(hash % 256);
    let (table, slots) = (word(file, 8 * n), word(file, 8 * n + 4));
    let mut spans = Vec::new(alloc);
    if slots == 0 {
        return Ok(nothing(alloc));
    }
    let behind = u64::from(table) + 8 * u64::from(slots);
    if table < 2048 || behind > file.len() as u64 {
        return Ok(damaged(spans, ReadFault::Table(n)));
    }
    let home = u64::from(hash / 256) % u64::from(slots);
    for step in 0..u64::from(slots) {
        let slot = u64::from(table) + 8 * ((home + step) % u64::from(slots));
        let place = word(file, slot + 4);
        if place == 0 {
            break;
        }
        if word(file, slot) != hash {
            continue;
        }
        let Some((there, value)) = record_at(file, place, file.len()) else {
            return Ok(damaged(spans, ReadFault::Record(u64::from(place))));
        };
        let behind = file.get(there.place as usize..).unwrap_or(b"");
        if there.len == key.len() as u64 && behind.starts_with(key) {
            spans.push(value)?;
        }
    }
    Ok(Came {
        spans,
        damage: None,
    })
}

/// Where the records end, and the first table there.
fn record_end(file: &[u8]) -> (u32, u64) {
    let mut end = (2048, 256);
    let mut any = false;
    for n in 0..256u64 {
        let (table, slots) = (word(file, 8 * n), word(file, 8 * n + 4));
        if slots != 0 && (!any || table < end.0) {
            end = (table, n);
            any = true;
        }
    }
    end
}

/// Walks over the records.
fn walked(alloc: Global, file: &[u8]) -> Result<Came, AllocError> {
    let (end, n) = record_end(file);
    let mut spans = Vec::new(alloc);
    if end < 2048 {
        return Ok(damaged(spans, ReadFault::Table(n)));
    }
    let mut place = 2048;
    for _ in 0..=file.len() {
        if place >= u64::from(end) {
            break;
        }
        let at = u32::try_from(place).unwrap_or(0);
        match record_at(file, at, file.len().min(end as usize)) {
            Some((key, value)) => {
                spans.push(key)?;
                spans.push(value)?;
                place = value.place.min(1 << 34) + value.len.min(1 << 34);
            }
            None => return Ok(damaged(spans, ReadFault::Record(place))),
        }
    }
    Ok(Came {
        spans,
        damage: None,
    })
}

/// The place of a table and how many slots it has.
fn table(file: &[u8], n: u64) -> (u64, u64)
    ensures place { result.0 < 4294967296 }
    ensures slots { result.1 < 4294967296 }
{
    let at = 8 * n.min(255);
    (u64::from(word(file, at)), u64::from(word(file, at + 4)))
}

/// The hash and the place in a slot of a table.
fn slot(file: &[u8], n: u64, i: u64) -> (u32, u32) {
    let at = table(file, n).0 + 8 * i.min(1 << 32);
    (word(file, at), word(file, at + 4))
}

/// Returns true if no empty slot lies on the way from the home of a hash to slot `i` of a table.
fn is_reached(file: &[u8], n: u64, hash: u32, i: u64) -> bool {
    let slots = table(file, n).1.max(1);
    let home = u64::from(hash / 256) % slots;
    for step in 0..slots {
        let there = (home + step) % slots;
        if there == i {
            return true;
        }
        if slot(file, n, there).1 == 0 {
            return false;
        }
    }
    false
}

/// The hash of the key in some bytes of a file.
fn hash_at(file: &[u8], key: Span) -> u32 {
    let behind = file.get(key.place as usize..).unwrap_or(b"");
    hash(behind.get(..key.len as usize).unwrap_or(b""))
}

/// Returns true if a slot points to a record of a walk, is in its table, and is reached.
fn is_right(file: &[u8], walked: &Came, n: u64, i: u64) -> bool {
    let (hash, place) = slot(file, n, i);
    let mut told = false;
    for key in walked.spans.iter().step_by(2) {
        told = told || (key.place == u64::from(place) + 8 && hash_at(file, *key) == hash);
    }
    told && u64::from(hash % 256) == n && is_reached(file, n, hash, i)
}

/// The first table that lies outside the file.
fn outside(file: &[u8]) -> Option<ReadFault> {
    for n in 0..256 {
        let (place, slots) = table(file, n);
        if slots != 0 && (place < 2048 || place + 8 * slots > file.len() as u64) {
            return Some(ReadFault::Table(n));
        }
    }
    None
}

/// The first fault of the slots of a table, and the places in the slots before that one.
fn slots_checked(
    file: &[u8],
    walked: &Came,
    n: u64,
    seen: &mut Vec<u32>,
) -> Result<Option<ReadFault>, AllocError> {
    for i in 0..table(file, n).1 {
        let (_, place) = slot(file, n, i);
        if place == 0 {
            continue;
        }
        if !is_right(file, walked, n, i) {
            return Ok(Some(ReadFault::Slot(n, i)));
        }
        if seen.contains(&place) {
            return Ok(Some(ReadFault::Twice(u64::from(place))));
        }
        seen.push(place)?;
    }
    Ok(None)
}

/// The first record that no slot points to.
fn unindexed(walked: &Came, seen: &[u32]) -> Option<ReadFault> {
    for key in walked.spans.iter().step_by(2) {
        let place = key.place.saturating_sub(8);
        if !seen.iter().any(|it| u64::from(*it) == place) {
            return Some(ReadFault::Unindexed(place));
        }
    }
    None
}

/// The first fault of a file.
fn checked(alloc: Global, file: &[u8]) -> Result<Option<ReadFault>, AllocError> {
    if let Some(fault) = outside(file) {
        return Ok(Some(fault));
    }
    let walked = walked(alloc, file)?;
    if walked.damage.is_some() {
        return Ok(walked.damage);
    }
    let mut seen = Vec::new(alloc);
    for n in 0..256 {
        if let Some(fault) = slots_checked(file, &walked, n, &mut seen)? {
            return Ok(Some(fault));
        }
    }
    Ok(unindexed(&walked, &seen))
}

/// Returns the number of records of a walk that have a key.
fn count_of(file: &[u8], walked: &Came, key: &[u8]) -> usize {
    let mut count = 0usize;
    for there in walked.spans.iter().step_by(2) {
        let behind = file.get(there.place as usize..).unwrap_or(b"");
        if behind.get(..there.len as usize) == Some(key) {
            count = count.saturating_add(1);
        }
    }
    count
}

/// Returns true if a look-up found the values of a key in a walk, each once, and no damage.
fn has_all(file: &[u8], walked: &Came, key: &[u8], found: &Came) -> bool {
    let mut same = found.damage.is_none() && found.spans.len() == count_of(file, walked, key);
    for (number, value) in found.spans.iter().enumerate() {
        let before = found.spans.get(..number).unwrap_or(&[]);
        same = same && walked.spans.contains(value) && !before.contains(value);
    }
    same
}

/// Returns true if a check of a file comes to what a plain one does; and if the file is sound, each
/// look-up to the values of the walk.
fn checks(alloc: Global, file: &Vec<u8>) -> Result<bool, AllocError> {
    let Ok(mut reader) = Reader::open(MemStore::from_vec(file.clone()?)) else {
        return Ok(file.len() < 2048);
    };
    let answer = check::<Narrow, MemStore>(alloc, &mut reader);
    if answer.err() != checked(alloc, file)? {
        return Ok(false);
    }
    let records = walked(alloc, file)?;
    let mut same = true;
    for key in KEYS {
        let found = found(alloc, &mut reader, key)?;
        same = same && (answer.is_err() || has_all(file, &records, key, &found));
    }
    Ok(same)
}

/// What a finder comes to.
fn found(
    alloc: Global,
    reader: &mut Reader<MemStore, Narrow>,
    key: &[u8],
) -> Result<Came, AllocError> {
    let mut came = nothing(alloc);
    let mut finder = reader.find(key);
    for _ in 0..u64::MAX {
        match finder.next() {
            Ok(Some(span)) => came.spans.push(span)?,
            Ok(None) => break,
            Err(fault) => {
                came.damage = Some(fault);
                break;
            }
        }
    }
    Ok(came)
}

/// What a walk comes to.
fn walk_found(alloc: Global, reader: &mut Reader<MemStore, Narrow>) -> Result<Came, AllocError> {
    let mut came = nothing(alloc);
    let mut records = walk(reader);
    for _ in 0..u64::MAX {
        match records.next() {
            Ok(Some(pair)) => {
                came.spans.push(pair.key)?;
                came.spans.push(pair.value)?;
            }
            Ok(None) => break,
            Err(fault) => {
                came.damage = Some(fault);
                break;
            }
        }
    }
    Ok(came)
}

/// Returns true if a reader of a file comes to what a plain reading does, for each key and for the
/// walk.
fn agrees(alloc: Global, file: &Vec<u8>) -> Result<bool, AllocError> {
    let mut reader = match Reader::open(MemStore::from_vec(file.clone()?)) {
        Ok(reader) => reader,
        Err(unread) => return Ok(file.len() < 2048 && unread.fault == ReadFault::Short),
    };
    let mut same = file.len() >= 2048;
    for key in KEYS {
        same = same && found(alloc, &mut reader, key)? == looked_up(alloc, file, key)?;
    }
    Ok(same && walk_found(alloc, &mut reader)? == walked(alloc, file)?)
}

#[test]
fn readers_come_to_what_the_bytes_tell(rt: HostRuntime) -> Result<(), Fail> {
    let mut state = 0x2545f4914f6cdd1d;
    for number in 0..5000u32 {
        let mut file = drawn_file(rt.alloc(), &mut state).ok_or("no file")?;
        assert!(rt; agrees(rt.alloc(), &file)?, "file {number}");
        damage(&mut file, &mut state);
        assert!(rt; agrees(rt.alloc(), &file)?, "file {number}, damaged");
    }
    Ok(())
}

#[test]
fn checks_come_to_what_the_bytes_tell(rt: HostRuntime) -> Result<(), Fail> {
    let mut state = 0x9e3779b97f4a7c15;
    for number in 0..5000u32 {
        let mut file = drawn_file(rt.alloc(), &mut state).ok_or("no file")?;
        damage(&mut file, &mut state);
        assert!(rt; checks(rt.alloc(), &file)?, "file {number}");
    }
    Ok(())
}
