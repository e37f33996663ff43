//! Laws of the maker. Each is the contract of a function whose parameters are what it ranges over.
ghost use Rattle.cdb_form.specs.Views.Pairs.{key_values};
ghost use Rattle.cdb_make.specs.Survivors.{TakenOut};

use cdb_form::{Record, Width};

/// With the marked records taken out of a list, each later place is lower by the sizes of the
/// records taken out before it. The entries of each table are the old ones at these places, without
/// the entries of the records taken out. A record without a mark stays.
pub fn taken_out<L: Width>(_records: &[Record], _marks: &[bool])
    ensures { TakenOut L.WORD (key_values _records.now) _marks.now }
{}
