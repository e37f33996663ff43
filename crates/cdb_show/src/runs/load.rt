// A file taken into memory.
ghost use Rattle.std.specs.Prelude.{◌≡◌, ◌+◌, ◌-◌, ◌<◌, ◌≤◌, ℕ, List, Option, length, IfOk, IfErr, IfSome};
ghost use Rattle.cdb_store.specs.Contents.{contents};
ghost use Rattle.cdb_form.specs.Views.Feed.{reader_feed};
ghost use Rattle.cdb_form.specs.Views.Taking.{GivesAll, LosesAtMost};
ghost use Rattle.cdb_show.specs.Runs.WalkText.{LoadStops};

use crate::fault::Fault;
use cdb_form::{Extent, Feeds, read_whole};
use cdb_store::MemStore;
use std::alloc::Global;
use std::io::Read;

/// Takes all that a reader has into a store in memory, if that is `most` bytes or fewer, and leaves
/// the reader at its end. So the contract holds of each file that agrees with what was taken.
///
/// The bytes that were taken before a fault are lost:
/// - `Long`: the file has more than `most` bytes, and `most + 1` were taken;
/// - `Walk(Input)`: the reader failed, and `most` or fewer were taken;
/// - `NoMemory`: an allocation failed, and `most` or fewer were taken.
pub fn load_from<F: Feeds>(alloc: Global, reader: &mut F, most: u64) -> Result<MemStore, Fault>
    ensures all { IfOk result (λ store.
        GivesAll most (F.feed reader.old) (F.feed reader.new) (contents store)) }
    ensures stops { IfErr result (LoadStops most (F.feed reader.old) (F.feed reader.new)) }
    ensures loses { LosesAtMost (F.feed reader.old) (F.feed reader.new) (most + 1) }
{
    let mut bytes = Vec::new(alloc);
    match read_whole(reader, &mut bytes, most)? {
        Extent::All => Ok(MemStore::from_vec(bytes)),
        Extent::More => Err(Fault::Long),
    }
}

/// Takes a file into a store in memory, if it has `most` bytes or fewer.
///
/// Memory is requested only as bytes come. The faults:
/// - `Long`: the file has more bytes;
/// - `Walk(Input)`: the reader failed;
/// - `NoMemory`: an allocation failed.
pub fn load<R: Read + Drop>(alloc: Global, mut reader: R, most: u64) -> Result<MemStore, Fault>
    ensures whole { IfOk result (λ store.
        IfSome (R.remaining reader) (λ file. contents store ≡ file)) }
    ensures few { IfOk result (λ store. length (contents store) ≤ most) }
    ensures fails { IfErr result (λ fault. (rest : Option (List ℕ))
        × LoadStops most (reader_feed (R.remaining reader)) (reader_feed rest) fault) }
{
    load_from(alloc, &mut reader, most)
}
