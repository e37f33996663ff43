// The records of the keys that one input gives.
ghost use Rattle.std.specs.Prelude.{◌≤◌, List, IfSome, IfErr, OnOk};
ghost use Rattle.std.proofs.Props.{props};
ghost use Rattle.cdb_show.specs.Views.Output.{OutputSays};
ghost use Rattle.cdb_form.specs.Views.Feed as fed;
ghost use Rattle.cdb_form.specs.Text.Parse.{Change};
ghost use Rattle.cdb_show.specs.Runs.InputTask.{progress};
ghost use Rattle.cdb_show.specs.Runs.Inputs.{IsInputOf, keys_of};
ghost use Rattle.cdb_show.specs.Runs.Lookups.{key_query, StopsBehind};
ghost use Rattle.cdb_show.specs.Runs.Query.{Queries};
ghost use Rattle.cdb_show.specs.Views.KeyReader.{form_of, reader_of, IsNew};

use crate::fault::Fault;
use crate::runs::input_task::InputContext;
use crate::runs::key_reader::KeyReader;
use crate::runs::lookup_options::LookupOptions;
use crate::runs::query::look_up;
use crate::runs::shown::Shown;
use cdb_form::{AtHand, Feeds, Record, Sink, Width};
use cdb_read::Reader;
use cdb_store::Store;

/// Writes the records of a key, or the one with the number.
#[inline(always)]
fn look_up_record<L: Width, S: Store, W: Sink>(
    reader: &mut Reader<S, L>,
    key: &[u8],
    options: LookupOptions,
    w: &mut W,
) -> Result<(), Fault>
    requires { IfSome options.number (λ j. 1 ≤ j) }
    ensures queries { Queries L.WORD S.Store (key_query options key.now)
        reader.old.store reader.new.store (W.contents w.old) (W.contents w.new) result }
    ensures output { OutputSays (W.failed w.new) result }
{
    let style = options.style;
    look_up(reader, key, options.number, Shown::Record { key, style }, w)
}

/// The database in which keys are looked up.
#[derive(Drop)]
pub(crate) struct Looking<S: Store, L: Width> {
    pub(crate) reader: Reader<S, L>,
    /// True if some key had no value.
    pub(crate) missing: bool,
}

/// Look-ups of the keys of some inputs.
#[derive(Drop)]
pub(crate) struct LookUps<'a> {
    /// The context of the inputs.
    pub(crate) context: InputContext<'a>,
    /// The choice of records that are written, and their form.
    pub(crate) options: LookupOptions,
    ghost counted: { IfSome options.number (λ j. 1 ≤ j) } by { Prim.hlevel props },
}

impl LookUps<'_> {
    ghost use Rattle.cdb_show.specs.Runs.Lookups.{lookup_task};
    ghost use Rattle.cdb_show.specs.Views.LookUps.{Looks, StopsLooking};

    /// Writes the records of the keys of an input, whose number is counted from 1, up to the end of
    /// its text.
    pub(crate) fn look_up_input<S: Store, L: Width, F: Feeds, W: Sink, A: AtHand<F>>(
        &self,
        looking: &mut Looking<S, L>,
        input: u64,
        keys: &mut KeyReader<F, L>,
        w: &mut W,
    ) -> Result<(), Fault>
        requires { IsNew keys.old }
        ensures ok { OnOk result ((items : List Change)
            × fed.FromTo (F.feed (reader_of keys.old)) (F.feed (reader_of keys.new))
            (IsInputOf (form_of keys.old) L.GREATEST items)
            × Looks (lookup_task L.WORD L.GREATEST S.Store self.now.options) (keys_of items)
            (progress (W.contents w.old) looking.old) (progress (W.contents w.new) looking.new)) }
        ensures fails { IfErr result (λ fault. (items : List Change)
            × StopsBehind (form_of keys.old) L.GREATEST input items
            (F.feed (reader_of keys.old)) (F.feed (reader_of keys.new)) fault
            × StopsLooking (lookup_task L.WORD L.GREATEST S.Store self.now.options) (keys_of items)
            (progress (W.contents w.old) looking.old) (progress (W.contents w.new) looking.new) fault) }
        ensures output { OutputSays (W.failed w.new) result }
    {
        let mut item = Record {
            key: Vec::new(self.context.alloc),
            value: Vec::new(self.context.alloc),
        };
        loop {
            match keys.read_into::<A>(&mut item) {
                Err(fault) => return Err(Fault::of_text(input, fault)),
                Ok(false) => return Ok(()),
                Ok(true) => {}
            }
            match look_up_record(&mut looking.reader, &item.key, self.options, w) {
                Ok(()) => {}
                Err(fault) => match fault {
                    Fault::Missing => looking.missing = true,
                    _ => return Err(fault),
                },
            }
        }
    }
}
