//! Laws of inputs. Each is the contract of a function whose parameters are what it ranges over.
ghost use Rattle.std.specs.Prelude.{◌≡◌, ℕ, List, ◌++◌, Option, drop, length, take};
ghost use Rattle.std.specs.Io.KnownBytes.{Consumes as KnownConsumes};
ghost use Rattle.cdb_form.specs.Views.Feed.{Consumes, reader_feed};
ghost use Rattle.cdb_show.specs.Feed.{given_from, AgreesWith, AreRead, AreUnread, FirstAgree, HasBytes, HaveBytes, IsGiven, IsUnread, NotBegun, Stop, reached};

use crate::input_reader::InputReader;
use crate::parser::InputParser;
use cdb_form::Feeds;
use std::io::Read;

/// A run reads of its inputs, one after the other, what one function of their bytes says.
///
/// `_before` are the unread readers of the inputs before the run. `_after` are the readers that
/// were reached, as the run returned them. `_old` and `_new` are the reader that several inputs
/// share. For all bytes that agree with what is known of these readers at the end, the items of the
/// inputs are those that the function gives: all of them, or those up to the first input with a
/// fault, with that fault, or the first ones if the run stopped for another reason. So the bytes of
/// an input that was not reached do not matter.
pub fn inputs_are_given<P: InputParser, R: Feeds, S: Feeds>(
    _parser: &P,
    _before: &[InputReader<R>],
    _after: &[InputReader<R>],
    _old: &S,
    _new: &S,
)
    ensures { AreUnread R.feed _before.now
        → IsUnread (S.feed _old.now)
        → (read : List (List P.Item)) → (stop : Stop P.Item P.Fault)
        → AreRead R.feed S.feed (P.parsing _parser.now) read stop
        _before.now _after.now _old.now _new.now
        → (inputs : List (Option (List ℕ))) → (shared : List ℕ)
        → length inputs ≡ length _before.now
        → FirstAgree R.feed (P.parsing _parser.now).fits (reached read stop) inputs _after.now
        → AgreesWith (P.parsing _parser.now).fits (S.feed _new.now) shared
        → IsGiven 1 read stop (given_from (P.parsing _parser.now).parse 1 inputs shared) }
{}

/// If the standard library knows the bytes of all readers before the run, the items are those that
/// the function gives of these bytes.
pub fn known_inputs_are_given<P: InputParser, R: Read, S: Read>(
    _parser: &P,
    _before: &[InputReader<R>],
    _after: &[InputReader<R>],
    _old: &S,
    _new: &S,
)
    ensures { (read : List (List P.Item)) → (stop : Stop P.Item P.Fault)
        → AreRead (λ reader. reader_feed (R.remaining reader))
        (λ reader. reader_feed (S.remaining reader))
        (P.parsing _parser.now) read stop _before.now _after.now _old.now _new.now
        → (inputs : List (Option (List ℕ))) → (shared : List ℕ)
        → HaveBytes R.remaining (P.parsing _parser.now).fits inputs _before.now
        → HasBytes (P.parsing _parser.now).fits (S.remaining _old.now) shared
        → IsGiven 1 read stop (given_from (P.parsing _parser.now).parse 1 inputs shared) }
{}

/// A loop over the inputs of a run adds up what it read.
///
/// The items of the first inputs, and then the items of the inputs after them, are the items of
/// all. From `_between` to `_after` only the readers after the first ones may change: the first
/// part of the run reached none of them.
pub fn inputs_are_read_in_turn<P: InputParser, R: Feeds, S: Feeds>(
    _parser: &P,
    _before: &[InputReader<R>],
    _between: &[InputReader<R>],
    _after: &[InputReader<R>],
    _old: &S,
    _mid: &S,
    _new: &S,
)
    ensures { (read : List (List P.Item)) → (more : List (List P.Item))
        → (stop : Stop P.Item P.Fault)
        → AreRead R.feed S.feed (P.parsing _parser.now) read NotBegun
        _before.now _between.now _old.now _mid.now
        → take (length read) _between.now ≡ take (length read) _after.now
        → AreRead R.feed S.feed (P.parsing _parser.now) more stop
        (drop (length read) _before.now) (drop (length read) _after.now) _mid.now _new.now
        → AreRead R.feed S.feed (P.parsing _parser.now) (read ++ more) stop
        _before.now _after.now _old.now _new.now }
{}

/// If the standard library knows the bytes that a reader has left, its own clauses and a feed's
/// clauses say the same of these bytes.
pub fn known_reader_is_fed<R: Read>(_before: &R, _after: &R)
    ensures takes { (bytes : List ℕ)
        → KnownConsumes (R.remaining _before.now) (R.remaining _after.now) bytes
        → Consumes (reader_feed (R.remaining _before.now))
        (reader_feed (R.remaining _after.now)) bytes }
    ensures back { (bytes : List ℕ)
        → Consumes (reader_feed (R.remaining _before.now))
        (reader_feed (R.remaining _after.now)) bytes
        → KnownConsumes (R.remaining _before.now) (R.remaining _after.now) bytes }
{}
