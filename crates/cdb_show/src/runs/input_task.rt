// What a run does with its inputs.
ghost use Rattle.std.specs.Prelude.{List, IfErr, OnOk};
ghost use Rattle.cdb_form.specs.Text.Parse.{Change};
ghost use Rattle.cdb_form.specs.Views.Feed.{FromTo};
ghost use Rattle.cdb_show.specs.Runs.InputTask.{Work, progress};
ghost use Rattle.cdb_show.specs.Runs.Inputs.{IsInputOf};
ghost use Rattle.cdb_show.specs.Runs.Lookups.{StopsBehind};
ghost use Rattle.cdb_show.specs.Views.Output.{OutputSays};
ghost use Rattle.cdb_show.specs.Views.Window.{feed_of};

use crate::fault::Fault;
use crate::lines::Lines;
use crate::window::Window;
use cdb_form::{Feeds, Sink};
use std::alloc::Global;

/// The context in which a run reads its inputs.
#[derive(Clone, Copy)]
pub struct InputContext<'a> {
    /// The allocator of the windows over the inputs.
    pub alloc: Global,
    /// The lines of the inputs, which may be counted.
    pub lines: &'a Lines,
}

/// What a run does with the text of each of its inputs: it changes a state of type `T`, and writes
/// to a sink.
pub trait InputTask<T, W: Sink> {
    /// The form of the inputs, and what is done with their items.
    ghost work: { Self → Work T };

    /// Does what the rest of an input says. Inputs are counted from 1. Returns the window, which
    /// goes on after the text, or after the last item that was read.
    fn do_text<F: Feeds>(
        &self,
        state: &mut T,
        input: u64,
        window: Window<F>,
        w: &mut W,
    ) -> (Window<F>, Result<(), Fault>)
        ensures ok { OnOk result.1 ((items : List Change)
            × FromTo (feed_of F.feed window) (feed_of F.feed result.0)
            (IsInputOf (work self.now).form (work self.now).greatest items)
            × (work self.now).does input items (progress (W.contents w.old) state.old)
            (progress (W.contents w.new) state.new)) }
        ensures fails { IfErr result.1 (λ fault. (items : List Change)
            × StopsBehind (work self.now).form (work self.now).greatest input items
            (feed_of F.feed window) (feed_of F.feed result.0) fault
            × (work self.now).stops input items (progress (W.contents w.old) state.old)
            (progress (W.contents w.new) state.new) fault) }
        ensures output { OutputSays (W.failed w.new) result.1 };
}
