// Keys out of a list text.
ghost use Rattle.std.specs.Prelude.{◌≡◌, ◌^◌, ◌≤◌, false, IfOk, IfErr, MatchBool};
ghost use Rattle.cdb_form.specs.Views.Feed.{Repeats};

use crate::feeds::Feeds;
use crate::record::Record;
use crate::text::fault::TextFault;
use crate::text::going::Going;
use crate::text::source::Source;
use crate::width::Width;
use std::marker::PhantomData;

/// Reads the keys of a list text, one after the other.
///
/// It requests no byte past those that the answer needs, and at most 4096 at a time. Bytes after
/// the newline that ends the text stay unread.
#[derive(Drop)]
pub struct ListReader<R, L> {
    source: Source<R>,
    going: Going,
    width: PhantomData<L>,
}

impl<R: Feeds, L: Width> ListReader<R, L> {
    ghost use Rattle.cdb_form.specs.Views.ListReader.{reader_of, taken_of, asks_left, IsGoing, HasEnded, HasFailed, GivesKey, GivesEnd, Fails};

    /// A reader of the text that `reader` gives. It may request bytes 2^48 times.
    pub fn new(reader: R) -> ListReader<R, L>
        ensures reader { reader_of result ≡ reader }
        ensures taken { taken_of result ≡ 0 }
        ensures asks { asks_left result ≡ 2 ^ 48 }
        ensures going { IsGoing result }
    {
        ListReader::with_bound(reader, 1 << 48)
    }

    /// A reader of the text that `reader` gives. It may request bytes `asks` times.
    pub fn with_bound(reader: R, asks: u64) -> ListReader<R, L>
        requires { asks ≤ 2 ^ 48 }
        ensures reader { reader_of result ≡ reader }
        ensures taken { taken_of result ≡ 0 }
        ensures asks { asks_left result ≡ asks }
        ensures going { IsGoing result }
    {
        ListReader {
            source: Source::new(reader, asks),
            going: Going::On,
            width: PhantomData,
        }
    }

    /// Returns the reader, which goes on after the bytes that were read.
    pub fn into_reader(self) -> R
        ensures { result ≡ reader_of self }
    {
        self.source.reader
    }

    /// Reads the next key over a record's key, whose memory it takes, and returns true if there is
    /// one: none is at the newline that ends the text.
    ///
    /// After the end it returns `Ok(false)` for good, and after a fault that fault. It fails as
    /// `TextReader::next` does, for a list text. After a key the record's `value` holds any bytes;
    /// after `false` and after a fault the record holds anything.
    #[inline(always)]
    pub fn read_into(&mut self, into: &mut Record) -> Result<bool, TextFault>
        ensures gives { IfOk result (λ given. MatchBool given
            (GivesKey L.GREATEST R.feed self.old self.new into.new.key.items)
            (GivesEnd R.feed self.old self.new)) }
        ensures fails { IfErr result (Fails L.GREATEST R.feed self.old self.new) }
        ensures ended { HasEnded self.old → Repeats (Ok false) self.old self.new result }
        ensures failed { (fault : _) → HasFailed self.old fault
            → Repeats (Err fault) self.old self.new result }
    {
        if !self.going.reads_on()? {
            return Ok(false);
        }
        match self.source.list_entry(into, L::GREATEST) {
            Ok(true) => Ok(true),
            Ok(false) => {
                self.going = Going::AtEnd;
                Ok(false)
            }
            Err(fault) => {
                self.going = Going::Failed(fault);
                Err(fault)
            }
        }
    }
}
