// The records of the keys that some inputs give, whose readers come back.
ghost use Rattle.std.specs.Prelude.{◌≤◌, IfSome};
ghost use Rattle.cdb_show.specs.Runs.Lookups.{LookupsLeave, LooksUp, lookup_state, lookup_task};
ghost use Rattle.cdb_show.specs.Views.Output.{OutputSays};

use crate::fault::Fault;
use crate::inputs::Inputs;
use crate::lines::{InLined, Lined, Lines};
use crate::runs::flushed::flushed_whole;
use crate::runs::input_task::{InputContext, InputTask};
use crate::runs::input_turns::do_inputs;
use crate::runs::key_reader::KeyReader;
use crate::runs::lookup_options::LookupOptions;
use crate::runs::lookups::{LookUps, Looking};
use crate::runs::walk_text::write_last;
use crate::window::{InWindow, Window};
use cdb_form::{Feeds, Sink, Width};
use cdb_read::Reader;
use cdb_store::Store;
use std::alloc::Global;

/// Writes the records of the keys that an input gives.
impl<S: Store, L: Width, W: Sink> InputTask<Looking<S, L>, W> for LookUps<'_> {
    ghost use Rattle.cdb_show.specs.Views.LookUps.{lookup_work};

    ghost work = { λ it. lookup_work (lookup_task L.WORD L.GREATEST S.Store it.options) };

    fn do_text<F: Feeds>(
        &self,
        looking: &mut Looking<S, L>,
        input: u64,
        window: Window<F>,
        w: &mut W,
    ) -> (Window<F>, Result<(), Fault>) {
        let InputContext { alloc, lines } = self.context;
        if lines.counts {
            let lined = Lined::new(window, lines);
            let mut keys = KeyReader::new(alloc, self.options.style, lined);
            let answer = self.look_up_input::<S, L, _, W, InLined>(looking, input, &mut keys, w);
            return (keys.into_reader().into_window(), answer);
        }
        let mut keys = KeyReader::new(alloc, self.options.style, window);
        let answer = self.look_up_input::<S, L, _, W, InWindow>(looking, input, &mut keys, w);
        (keys.into_reader(), answer)
    }
}

impl LookUps<'_> {
    /// Writes the records of the keys of some inputs, and what ends their text.
    fn look_up_all<S: Store, L: Width, J: Feeds + Drop, I: Feeds, W: Sink>(
        &self,
        looking: &mut Looking<S, L>,
        inputs: Inputs<J, I>,
        w: &mut W,
    ) -> (Inputs<J, I>, Result<(), Fault>)
        ensures leaves { LookupsLeave (lookup_task L.WORD L.GREATEST S.Store self.now.options) J.feed I.feed
            (lookup_state inputs looking.old.reader.store (W.contents w.old))
            (lookup_state result.0 looking.new.reader.store (W.contents w.new)) result.1 }
        ensures output { OutputSays (W.failed w.new) result.1 }
    {
        looking.missing = false;
        let (left, looked) = do_inputs(self.context, self, looking, inputs, w);
        match looked {
            Ok(()) => {}
            Err(fault) => return (left, Err(fault)),
        }
        match write_last(w, self.options.style) {
            Ok(()) => {}
            Err(_) => return (left, Err(Fault::Output)),
        }
        if looking.missing {
            (left, Err(Fault::Missing))
        } else {
            (left, Ok(()))
        }
    }
}

/// Writes the records, which the writer may keep in a buffer.
fn lookups_unflushed<L: Width, S: Store, J: Feeds + Drop, I: Feeds, W: Sink>(
    alloc: Global,
    store: S,
    inputs: Inputs<J, I>,
    options: LookupOptions,
    lines: &Lines,
    w: &mut W,
) -> (S, Inputs<J, I>, Result<(), Fault>)
    requires { IfSome options.number (λ j. 1 ≤ j) }
    ensures leaves { LookupsLeave (lookup_task L.WORD L.GREATEST S.Store options) J.feed I.feed
        (lookup_state inputs store (W.contents w.old))
        (lookup_state result.1 result.0 (W.contents w.new)) result.2 }
    ensures output { OutputSays (W.failed w.new) result.2 }
{
    let reader = match Reader::<S, L>::open(store) {
        Ok(reader) => reader,
        Err(unread) => return (unread.store, inputs, Err(Fault::from(unread.fault))),
    };
    let mut looking = Looking {
        reader,
        missing: false,
    };
    let look_ups = LookUps {
        context: InputContext { alloc, lines },
        options,
    };
    let (left, answer) = look_ups.look_up_all(&mut looking, inputs, w);
    (looking.reader.into_store(), left, answer)
}

/// Writes the records that the database in a store has for the keys of some inputs, key after key,
/// as a dump writes records. With `options.number` only the record of this number is written for
/// each key.
///
/// Each input is a list text, or in the map style a map text, whose keys are taken. For a key
/// without a value nothing is written. Values go from the store to the writer in pieces, and one
/// key is held at a time. The faults:
/// - `Missing`: some key has no value, or fewer than the number; the records of the others, and
///   what ends the text, were written;
/// - `Read(Short)`: the store is shorter than a head; it was not read, nor was an input, and
///   nothing was written;
/// - `Read(Table(n))`, `Read(Record(place))`: the look-up of a key met this damage; what was found
///   before it was written;
/// - `Text(input, fault)`: an input, counted from 1, has this fault, its place in bytes from the
///   input's first one, or its reader failed or has no end; the records of the keys before it were
///   written;
/// - `NoMemory`: an allocation failed; the records of some first keys were written;
/// - `Read(Device)`: the store failed; a prefix of the text was written;
/// - `Output`: the writer failed, and holds a prefix of the text.
///
/// Only after `Missing`, and at Ok, is what ends the text written. The store is returned whatever
/// the answer, and was only read. So are the readers of the inputs, each in its place: what was
/// taken of one after its text, or after the last key, is lost. The writer is flushed last, after a
/// fault too. If that fails, `Output` takes the place of Ok and of `Missing`. If `lines` counts the
/// lines of the inputs, it knows the line of a fault afterwards.
pub fn lookups_run<L: Width, S: Store, J: Feeds + Drop, I: Feeds, W: Sink>(
    alloc: Global,
    store: S,
    inputs: Inputs<J, I>,
    options: LookupOptions,
    lines: &Lines,
    w: &mut W,
) -> (S, Inputs<J, I>, Result<(), Fault>)
    requires { IfSome options.number (λ j. 1 ≤ j) }
    ensures looks { LooksUp (lookup_task L.WORD L.GREATEST S.Store options) J.feed I.feed
        (lookup_state inputs store (W.contents w.old))
        (lookup_state result.1 result.0 (W.contents w.new)) result.2 }
    ensures output { OutputSays (W.failed w.new) result.2 }
{
    let (store, left, looked) = lookups_unflushed::<L, S, J, I, W>(
        alloc, store, inputs, options, lines, w,
    );
    let answer = flushed_whole(w, looked);
    (store, left, answer)
}
