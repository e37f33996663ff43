// A caller of cdb_form.
ghost use Rattle.std.specs.Prelude.{IfOk, MatchOption};
ghost use Rattle.cdb_form.specs.Views.Pairs.{key_value};
ghost use Rattle.cdb_files.specs.Callers.{BeginsWithFirst, HasNone};

use cdb_form::{Feeds, Narrow, Record, TextFault, TextReader};
use std::alloc::Global;

/// The first record of a native text, if it has one, and the reader.
pub fn first_record<F: Feeds>(alloc: Global, reader: F) -> (F, Result<Option<Record>, TextFault>)
    ensures { IfOk result.1 (λ found. MatchOption found
        (HasNone (F.feed reader) (F.feed result.0))
        (λ r. BeginsWithFirst (F.feed reader) (F.feed result.0) (key_value r))) }
{
    let mut texts: TextReader<F, Narrow> = TextReader::new(alloc, reader);
    let found = texts.next();
    (texts.into_reader(), found)
}
