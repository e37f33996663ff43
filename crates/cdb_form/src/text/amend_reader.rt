// Items out of an amending text.
ghost use Rattle.std.specs.Prelude.{◌≡◌, ◌^◌, ◌≤◌, IfOk, IfErr, MatchOption};
ghost use Rattle.cdb_form.specs.Views.Pairs.{change_in, change_of};
ghost use Rattle.cdb_form.specs.Views.Feed.{Repeats};

use crate::feeds::Feeds;
use crate::item::{Item, ItemKind};
use crate::record::Record;
use crate::text::fault::TextFault;
use crate::text::form_reader::FormReader;
use crate::width::Width;
use std::alloc::Global;

/// Reads the items of an amending text, one after the other: the puts of a native text, and
/// removals of keys.
///
/// It requests no byte past those that the answer needs, and at most 4096 at a time. Bytes after
/// the newline that ends the text stay unread.
#[derive(Drop)]
pub struct AmendReader<R, L> {
    alloc: Global,
    items: FormReader<R, L>,
}

impl<R: Feeds, L: Width> AmendReader<R, L> {
    ghost use Rattle.cdb_form.specs.Views.AmendReader.{reader_of, taken_of, asks_left, IsGoing, HasEnded, HasFailed, GivesChange, GivesEnd, Fails};

    /// A reader of the text that `reader` gives. It may request bytes 2^48 times.
    pub fn new(alloc: Global, reader: R) -> AmendReader<R, L>
        ensures reader { reader_of result ≡ reader }
        ensures taken { taken_of result ≡ 0 }
        ensures asks { asks_left result ≡ 2 ^ 48 }
        ensures going { IsGoing result }
    {
        AmendReader::with_bound(alloc, reader, 1 << 48)
    }

    /// A reader of the text that `reader` gives. It may request bytes `asks` times.
    pub fn with_bound(alloc: Global, reader: R, asks: u64) -> AmendReader<R, L>
        requires { asks ≤ 2 ^ 48 }
        ensures reader { reader_of result ≡ reader }
        ensures taken { taken_of result ≡ 0 }
        ensures asks { asks_left result ≡ asks }
        ensures going { IsGoing result }
    {
        AmendReader {
            alloc,
            items: FormReader::new(reader, asks),
        }
    }

    /// Returns the reader, which goes on after the bytes that were read.
    pub fn into_reader(self) -> R
        ensures { result ≡ reader_of self }
    {
        self.items.into_reader()
    }

    /// Returns the next item, or `None` at the newline that ends the text.
    ///
    /// After the end it returns `Ok(None)` for good, and after a fault that fault. It fails as
    /// `TextReader::next` does, for the larger form.
    pub fn next(&mut self) -> Result<Option<Item>, TextFault>
        ensures gives { IfOk result (λ found. MatchOption found
            (GivesEnd R.feed self.old self.new)
            (λ item. GivesChange L.GREATEST R.feed self.old self.new (change_of item))) }
        ensures fails { IfErr result (Fails L.GREATEST R.feed self.old self.new) }
        ensures ended { HasEnded self.old → Repeats (Ok None) self.old self.new result }
        ensures failed { (fault : _) → HasFailed self.old fault
            → Repeats (Err fault) self.old self.new result }
    {
        let mut record = Record::empty(self.alloc);
        match self.read_into(&mut record)? {
            None => Ok(None),
            Some(ItemKind::Put) => Ok(Some(Item::Put(record))),
            Some(ItemKind::Remove) => Ok(Some(Item::Remove(record.key))),
        }
    }

    /// Reads the next item over a record, whose memory it takes, and returns its kind. It answers
    /// as `next` does. A removal leaves its key in the record's `key`, and any bytes in its
    /// `value`; after `None` and after a fault the record holds anything.
    pub fn read_into(&mut self, into: &mut Record) -> Result<Option<ItemKind>, TextFault>
        ensures gives { IfOk result (λ found. MatchOption found
            (GivesEnd R.feed self.old self.new)
            (λ kind. GivesChange L.GREATEST R.feed self.old self.new
            (change_in kind into.new))) }
        ensures fails { IfErr result (Fails L.GREATEST R.feed self.old self.new) }
        ensures ended { HasEnded self.old → Repeats (Ok None) self.old self.new result }
        ensures failed { (fault : _) → HasFailed self.old fault
            → Repeats (Err fault) self.old self.new result }
    {
        self.items.read_into(into, true)
    }
}
