// difference_run, over files that were made of texts, and over stores and writers that fail.
use super::fakes::FakeWriter;
use cdb_form::{Narrow, Wide, Width};
use cdb_read::ReadFault;
use cdb_store::{FuseStore, MemStore};
use cdb_tool::{Fault, difference_run, make_bytes};
use std::alloc::Global;
use std::prelude::*;
use std::test::Fail;

/// The database of a native text, in memory.
pub(super) fn made<L: Width>(alloc: Global, text: &[u8]) -> Result<MemStore, Fault> {
    let mut file = Vec::new(alloc);
    make_bytes::<L, _, _>(alloc, text, &mut file)?;
    Ok(MemStore::from_vec(file))
}

/// Returns true if the difference of the databases of two texts is a text.
fn differs<L: Width>(alloc: Global, row: &(&[u8], &[u8], &[u8])) -> Result<bool, Fault> {
    let (old, new) = (made::<L>(alloc, row.0)?, made::<L>(alloc, row.1)?);
    let mut out = Vec::new(alloc);
    let answer = difference_run::<L, MemStore, MemStore, Vec<u8>>(alloc, old, new, &mut out).2;
    Ok(answer == Ok(()) && out.as_slice() == row.2)
}

const OLD: &[u8] = b"+1,1:a->1\n+1,1:b->2\n+1,1:a->3\n+0,0:->\n\n";

const NEW: &[u8] = b"+1,1:c->4\n+1,1:a->1\n+0,0:->\n+1,2:a->55\n\n";

const CHANGE: &[u8] = b"-1:a\n-1:b\n-1:c\n+1,1:c->4\n+1,1:a->1\n+1,2:a->55\n\n";

/// Two texts, and the text of their difference.
const ROWS: [(&[u8], &[u8], &[u8]); 8] = [
    (OLD, NEW, CHANGE),
    (OLD, OLD, b"\n"),
    (b"\n", b"\n", b"\n"),
    (b"\n", OLD, OLD_PUT),
    (OLD, b"\n", b"-1:a\n-1:b\n-0:\n\n"),
    // the order of the keys alone
    (
        b"+1,1:a->1\n+1,1:b->2\n\n",
        b"+1,1:b->2\n+1,1:a->1\n\n",
        b"\n",
    ),
    // the order of the values of a key
    (
        b"+1,1:a->1\n+1,1:a->2\n\n",
        b"+1,1:a->2\n+1,1:a->1\n\n",
        b"-1:a\n+1,1:a->2\n+1,1:a->1\n\n",
    ),
    // one that goes on where the other ends
    (
        b"+1,2:a->12\n+1,0:b->\n\n",
        b"+1,1:a->1\n+1,1:b->1\n\n",
        b"-1:a\n-1:b\n+1,1:a->1\n+1,1:b->1\n\n",
    ),
];

/// The values of a key come together, where its first record is. A new key is removed before.
const OLD_PUT: &[u8] = b"-1:a\n+1,1:a->1\n+1,1:a->3\n-1:b\n+1,1:b->2\n-0:\n+0,0:->\n\n";

#[test]
fn differences_are_written(rt: HostRuntime) -> Result<(), Fail> {
    for row in &ROWS {
        assert!(rt; differs::<Narrow>(rt.alloc(), row) == Ok(true));
        assert!(rt; differs::<Wide>(rt.alloc(), row) == Ok(true));
    }
    Ok(())
}

/// The answer of a narrow difference of two texts, each made in a width of its own, if nothing was
/// written.
fn refused<A: Width, B: Width>(
    alloc: Global,
    old: &[u8],
    new: &[u8],
) -> Result<Option<Fault>, Fault> {
    let (old, new) = (made::<A>(alloc, old)?, made::<B>(alloc, new)?);
    let mut out = Vec::new(alloc);
    match difference_run::<Narrow, MemStore, MemStore, Vec<u8>>(alloc, old, new, &mut out).2 {
        Err(fault) if out.as_slice().is_empty() => Ok(Some(fault)),
        _ => Ok(None),
    }
}

#[test]
fn files_without_tables_are_refused(rt: HostRuntime) -> Result<(), Fail> {
    let alloc = rt.alloc();
    let old = Ok(Some(Fault::NoOldTables));
    let new = Ok(Some(Fault::NoNewTables));
    assert!(rt; refused::<Wide, Narrow>(alloc, OLD, NEW) == old);
    assert!(rt; refused::<Narrow, Wide>(alloc, OLD, NEW) == new);
    assert!(rt; refused::<Wide, Wide>(alloc, OLD, NEW) == old);
    assert!(rt; refused::<Wide, Narrow>(alloc, b"\n", b"\n") == old);
    assert!(rt; refused::<Narrow, Wide>(alloc, b"\n", b"\n") == new);
    assert!(rt; refused::<Narrow, Narrow>(alloc, b"\n", b"\n") == Ok(None));
    Ok(())
}

/// The database of a text without its last bytes.
fn made_cut<L: Width>(alloc: Global, text: &[u8], less: usize) -> Result<MemStore, Fault> {
    let mut file = Vec::new(alloc);
    make_bytes::<L, _, _>(alloc, text, &mut file)?;
    let left = file.len().saturating_sub(less);
    file.truncate(left);
    Ok(MemStore::from_vec(file))
}

/// The answer of a difference of two databases that lack their last bytes, if nothing was written.
fn refused_cut<L: Width>(alloc: Global, old: usize, new: usize) -> Result<Option<Fault>, Fault> {
    let old = made_cut::<L>(alloc, OLD, old)?;
    let new = made_cut::<L>(alloc, NEW, new)?;
    let mut out = Vec::new(alloc);
    match difference_run::<L, MemStore, MemStore, Vec<u8>>(alloc, old, new, &mut out).2 {
        Err(fault) if out.as_slice().is_empty() => Ok(Some(fault)),
        _ => Ok(None),
    }
}

/// Of how many bytes the last table of each file is: two slots of one record in words of 4 bytes.
const LAST: usize = 16;

/// Returns true if a cut is seen by the heads, from the first byte that lacks on. The last table of
/// the old file is that of `b`, of the new one that of `c`; before both is that of `a`.
fn cuts_are_seen<L: Width>(alloc: Global, last: usize) -> Result<bool, Fault> {
    let more = last.saturating_add(1);
    Ok(
        refused_cut::<L>(alloc, 0, 0)? == None
            && refused_cut::<L>(alloc, 1, 0)? == Some(Fault::Old(ReadFault::Table(199)))
            && refused_cut::<L>(alloc, 0, 1)? == Some(Fault::New(ReadFault::Table(198)))
            && refused_cut::<L>(alloc, 1, 1)? == Some(Fault::Old(ReadFault::Table(199)))
            && refused_cut::<L>(alloc, last, 0)? == Some(Fault::Old(ReadFault::Table(199)))
            && refused_cut::<L>(alloc, more, 0)? == Some(Fault::Old(ReadFault::Table(196)))
            && refused_cut::<L>(alloc, 0, more)? == Some(Fault::New(ReadFault::Table(196))),
    )
}

#[test]
fn files_with_a_table_outside_are_refused(rt: HostRuntime) -> Result<(), Fail> {
    assert!(rt; cuts_are_seen::<Narrow>(rt.alloc(), LAST) == Ok(true));
    assert!(rt; cuts_are_seen::<Wide>(rt.alloc(), 2 * LAST) == Ok(true));
    Ok(())
}

/// How a difference ended.
#[derive(Clone, Copy, Debug, PartialEq, Eq)]
enum Ended {
    Whole,
    Stopped,
    Wrong,
}

/// The database of three records with a value of 5000 bytes, and then of those of a text. So it is
/// read by many calls.
fn made_long(alloc: Global, text: &[u8]) -> Result<MemStore, Fault> {
    let mut whole = Vec::new(alloc);
    let value = vec![in alloc; b'v'; 5000]?;
    for head in &[b"+1,5000:x->", b"+1,5000:y->", b"+1,5000:z->"] {
        whole.extend_from_slice(&head[..])?;
        whole.extend_from_slice(&value)?;
        whole.push(b'\n')?;
    }
    whole.extend_from_slice(text)?;
    made::<Narrow>(alloc, &whole)
}

/// How a difference ends if the stores fail the call after so many: its text is whole, or it
/// answers so after a prefix of the text.
fn ends(alloc: Global, old: u64, new: u64, want: Fault) -> Result<Ended, Fault> {
    let first = FuseStore::new(made_long(alloc, OLD)?, old, 0);
    let second = FuseStore::new(made_long(alloc, NEW)?, new, 0);
    let mut out = Vec::new(alloc);
    let answer = difference_run::<Narrow, FuseStore<MemStore>, FuseStore<MemStore>, Vec<u8>>(
        alloc, first, second, &mut out,
    ).2;
    let written = out.as_slice();
    Ok(if answer == Ok(()) && written == CHANGE {
        Ended::Whole
    } else if answer == Err(want) && CHANGE.starts_with(written) {
        Ended::Stopped
    } else {
        Ended::Wrong
    })
}

/// Returns the number of calls that a difference makes of the old store and of the new one.
fn calls_made(alloc: Global) -> Result<(u64, u64), Fault> {
    let first = FuseStore::new(made_long(alloc, OLD)?, u64::MAX, 0);
    let second = FuseStore::new(made_long(alloc, NEW)?, u64::MAX, 0);
    let mut out = Vec::new(alloc);
    let left = difference_run::<Narrow, FuseStore<MemStore>, FuseStore<MemStore>, Vec<u8>>(
        alloc, first, second, &mut out,
    );
    Ok((left.0.calls(), left.1.calls()))
}

#[test]
fn the_old_store_fails_at_each_call(rt: HostRuntime) -> Result<(), Fail> {
    let (made, _) = calls_made(rt.alloc()).unwrap_or((0, 0));
    let mut stops = 0u64;
    for calls in 0..made {
        let ended = ends(rt.alloc(), calls, u64::MAX, Fault::Old(ReadFault::Device));
        // If bytes that were only read ahead failed, what is needed is read again.
        assert!(rt;
            ended == Ok(Ended::Stopped) || ended == Ok(Ended::Whole),
            "{calls}"
        );
        stops = stops.saturating_add(u64::from(ended == Ok(Ended::Stopped)));
    }
    assert!(rt; 10 < stops, "{stops}");
    Ok(())
}

#[test]
fn the_new_store_fails_at_each_call(rt: HostRuntime) -> Result<(), Fail> {
    let (_, made) = calls_made(rt.alloc()).unwrap_or((0, 0));
    let mut stops = 0u64;
    for calls in 0..made {
        let ended = ends(rt.alloc(), u64::MAX, calls, Fault::New(ReadFault::Device));
        // If bytes that were only read ahead failed, what is needed is read again.
        assert!(rt;
            ended == Ok(Ended::Stopped) || ended == Ok(Ended::Whole),
            "{calls}"
        );
        stops = stops.saturating_add(u64::from(ended == Ok(Ended::Stopped)));
    }
    assert!(rt; 10 < stops, "{stops}");
    Ok(())
}

/// Returns true if a writer with so much room holds as much of the text.
fn holds_front(alloc: Global, room: usize) -> Result<bool, Fault> {
    let (old, new) = (made::<Narrow>(alloc, OLD)?, made::<Narrow>(alloc, NEW)?);
    let mut w = FakeWriter::new(alloc, room);
    let answer = difference_run::<Narrow, MemStore, MemStore, FakeWriter>(
        alloc, old, new, &mut w,
    ).2;
    Ok(w.holds_prefix(answer, CHANGE, room))
}

#[test]
fn a_writer_fails(rt: HostRuntime) -> Result<(), Fail> {
    for room in 0..CHANGE.len() + 2 {
        assert!(rt; holds_front(rt.alloc(), room) == Ok(true), "{room}");
    }
    Ok(())
}
