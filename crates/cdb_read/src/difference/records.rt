// The next record of a walk that is kept as a bookmark.
ghost use Rattle.std.specs.Prelude.{IfErr, IfOk, MatchOption};
ghost use Rattle.cdb_store.specs.Reads.{OnlyReads};
ghost use Rattle.cdb_read.specs.Differing.{GivesNext, GivesNoNext, NextStops};

use crate::{Bookmark, Pair, ReadFault, Reader, walk_on};
use cdb_form::Width;
use cdb_store::Store;

/// Returns the next record of a walk, and moves the bookmark after it.
#[inline(always)]
pub(crate) fn next_record<L: Width, S: Store>(
    reader: &mut Reader<S, L>,
    bookmark: &mut Bookmark,
) -> Result<Option<Pair>, ReadFault>
    ensures reads { OnlyReads S.Store reader.old.store reader.new.store }
    ensures gives { IfOk result (λ found. MatchOption found
        (GivesNoNext L.WORD S.Store reader.new.store bookmark.old)
        (GivesNext L.WORD S.Store reader.new.store bookmark.old bookmark.new)) }
    ensures fails { IfErr result
        (NextStops L.WORD S.Store reader.old.store reader.new.store bookmark.old) }
{
    let mut records = walk_on(reader, *bookmark);
    let Some(pair) = records.next()? else {
        return Ok(None);
    };
    *bookmark = records.bookmark();
    Ok(Some(pair))
}
