// Records out of a native text.
ghost use Rattle.std.specs.Prelude.{◌≡◌, ◌^◌, ◌≤◌, false, IfOk, IfErr, MatchOption, MatchBool};
ghost use Rattle.cdb_form.specs.Views.Pairs.{key_value};
ghost use Rattle.cdb_form.specs.Views.Feed.{Repeats};

use crate::feeds::Feeds;
use crate::record::Record;
use crate::text::fault::TextFault;
use crate::text::form_reader::FormReader;
use crate::width::Width;
use std::alloc::Global;

/// Reads the records of a native text, one after the other.
///
/// It requests no byte past those that the answer needs, and at most 4096 at a time. Bytes after
/// the newline that ends the text stay unread.
#[derive(Drop)]
pub struct TextReader<R, L> {
    alloc: Global,
    items: FormReader<R, L>,
}

impl<R: Feeds, L: Width> TextReader<R, L> {
    ghost use Rattle.cdb_form.specs.Views.TextReader.{reader_of, taken_of, asks_left, IsGoing, HasEnded, HasFailed, GivesRecord, GivesEnd, Fails};

    /// A reader of the text that `reader` gives. It may request bytes 2^48 times.
    pub fn new(alloc: Global, reader: R) -> TextReader<R, L>
        ensures reader { reader_of result ≡ reader }
        ensures taken { taken_of result ≡ 0 }
        ensures asks { asks_left result ≡ 2 ^ 48 }
        ensures going { IsGoing result }
    {
        TextReader::with_bound(alloc, reader, 1 << 48)
    }

    /// A reader of the text that `reader` gives. It may request bytes `asks` times.
    pub fn with_bound(alloc: Global, reader: R, asks: u64) -> TextReader<R, L>
        requires { asks ≤ 2 ^ 48 }
        ensures reader { reader_of result ≡ reader }
        ensures taken { taken_of result ≡ 0 }
        ensures asks { asks_left result ≡ asks }
        ensures going { IsGoing result }
    {
        TextReader {
            alloc,
            items: FormReader::new(reader, asks),
        }
    }

    /// Returns the reader, which goes on after the bytes that were read.
    pub fn into_reader(self) -> R
        ensures { result ≡ reader_of self }
    {
        self.items.into_reader()
    }

    /// Returns the next record, or `None` at the newline that ends the text.
    ///
    /// After the end it returns `Ok(None)` for good, and after a fault that fault. `Syntax`,
    /// `Ended` and `Large` are the fault of the text, with its place in bytes from the reader's
    /// first one; `Input` comes if the reader failed, or was interrupted more than 1000 times in a
    /// row; `Endless` if no request is left; `NoMemory` if an allocation failed.
    pub fn next(&mut self) -> Result<Option<Record>, TextFault>
        ensures gives { IfOk result (λ found. MatchOption found
            (GivesEnd R.feed self.old self.new)
            (λ r. GivesRecord L.GREATEST R.feed self.old self.new (key_value r))) }
        ensures fails { IfErr result (Fails L.GREATEST R.feed self.old self.new) }
        ensures ended { HasEnded self.old → Repeats (Ok None) self.old self.new result }
        ensures failed { (fault : _) → HasFailed self.old fault
            → Repeats (Err fault) self.old self.new result }
    {
        let mut record = Record::empty(self.alloc);
        Ok(self.read_into(&mut record)?.then_some(record))
    }

    /// Reads the next record over another one, whose memory it takes, and returns true if there is
    /// one. It answers as `next` does, with `false` for `None`; after `false` and after a fault the
    /// record holds anything.
    pub fn read_into(&mut self, into: &mut Record) -> Result<bool, TextFault>
        ensures gives { IfOk result (λ given. MatchBool given
            (GivesRecord L.GREATEST R.feed self.old self.new (key_value into.new))
            (GivesEnd R.feed self.old self.new)) }
        ensures fails { IfErr result (Fails L.GREATEST R.feed self.old self.new) }
        ensures ended { HasEnded self.old → Repeats (Ok false) self.old self.new result }
        ensures failed { (fault : _) → HasFailed self.old fault
            → Repeats (Err fault) self.old self.new result }
    {
        let found = self.items.read_into(into, false)?;
        Ok(found.is_some())
    }
}
