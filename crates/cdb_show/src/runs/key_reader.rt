// The keys of an input, whatever its form and whatever gives its bytes.
ghost use Rattle.std.specs.Prelude.{◌≡◌, IfOk, IfErr, MatchBool};
ghost use Rattle.cdb_show.specs.Runs.Inputs.{keys_form};
ghost use Rattle.cdb_show.specs.Views.KeyReader.{Fails, GivesEnd, GivesKey, IsNew, form_of, reader_of};

use cdb_command::Style;
use cdb_form::{AtHand, Feeds, ListReader, MapReader, Record, TextFault, Width};
use std::alloc::Global;

/// Reads the keys that an input gives, one after the other.
#[derive(Drop)]
pub(crate) enum KeyReader<F, L> {
    /// A list text.
    List(ListReader<F, L>),
    /// A map text, whose lines each give a key.
    Map(MapReader<F>),
}

impl<F: Feeds, L: Width> KeyReader<F, L> {
    /// A reader of the input that `reader` gives, which may get 2^48 requests.
    pub(crate) fn new(alloc: Global, style: Style, reader: F) -> KeyReader<F, L>
        ensures form { form_of result ≡ keys_form style }
        ensures reader { reader_of result ≡ reader }
        ensures fresh { IsNew result }
    {
        match style {
            Style::Native => KeyReader::List(ListReader::with_bound(reader, 1 << 48)),
            Style::Map => KeyReader::Map(MapReader::with_bound(alloc, reader, 1 << 48)),
        }
    }

    /// Reads the next key over a record's key, whose memory it takes, and returns true if there is
    /// one. Bytes at hand of a map text are taken without a request.
    #[inline(always)]
    pub(crate) fn read_into<A: AtHand<F>>(&mut self, into: &mut Record) -> Result<bool, TextFault>
        ensures gives { IfOk result (λ given. MatchBool given
            (GivesKey L.GREATEST F.feed self.old self.new into.new.key.items)
            (GivesEnd F.feed self.old self.new)) }
        ensures fails { IfErr result (Fails L.GREATEST F.feed self.old self.new) }
    {
        match self {
            KeyReader::List(text) => text.read_into(into),
            KeyReader::Map(text) => text.read_buffered::<A>(into),
        }
    }

    /// Returns the reader, which goes on after the bytes that were taken.
    pub(crate) fn into_reader(self) -> F
        ensures { result ≡ reader_of self }
    {
        match self {
            KeyReader::List(text) => text.into_reader(),
            KeyReader::Map(text) => text.into_reader(),
        }
    }
}
