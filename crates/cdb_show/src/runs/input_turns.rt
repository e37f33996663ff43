// The inputs of a run, each in its turn. Their readers come back.
ghost use Rattle.std.specs.Prelude.{IfErr, OnOk};
ghost use Rattle.cdb_show.specs.Feed.{ReaderFailed, SomeFailed, TakesOne};
ghost use Rattle.cdb_show.specs.Runs.InputTask.{AreTaken, DoesAll, DoesOne, StopsAmid, StopsOne, progress};
ghost use Rattle.cdb_show.specs.Views.Noted.{AreReadTo, shared_feed};
ghost use Rattle.cdb_show.specs.Views.Output.{OutputSays};

use crate::InputReader;
use crate::fault::Fault;
use crate::inputs::{Inputs, SharedWindow};
use crate::runs::input_task::{InputContext, InputTask};
use crate::window::Window;
use cdb_form::{Feeds, Sink};
use std::mem::replace;

/// Does what an input says, whose number is counted from 1, and returns the reader that the inputs
/// share. A reader of its own is back in its place whatever the answer. The bytes that its window
/// took of it after the text, or after the last item, are lost.
fn do_turn<T, W: Sink, P: InputTask<T, W>, J: Feeds + Drop, I: Feeds>(
    context: InputContext<'_>,
    task: &P,
    state: &mut T,
    number: u64,
    input: &mut InputReader<J>,
    shared: SharedWindow<I>,
    w: &mut W,
) -> (SharedWindow<I>, Result<(), Fault>)
    ensures ok { OnOk result.1 (DoesOne (P.work task.now) number
        (λ R. TakesOne J.feed (shared_feed I.feed) R input.old input.new shared result.0)
        (progress (W.contents w.old) state.old) (progress (W.contents w.new) state.new)) }
    ensures fails { IfErr result.1 (StopsOne (P.work task.now) number
        (λ R. TakesOne J.feed (shared_feed I.feed) R input.old input.new shared result.0)
        (ReaderFailed J.feed (shared_feed I.feed) input.new result.0)
        (progress (W.contents w.old) state.old) (progress (W.contents w.new) state.new)) }
    ensures output { OutputSays (W.failed w.new) result.1 }
{
    match replace(input, InputReader::Shared) {
        InputReader::Own(own) => {
            context.lines.begin(false);
            let window = match Window::growing(context.alloc, own) {
                Ok(window) => window,
                Err(refused) => {
                    *input = InputReader::Own(refused.reader);
                    return (shared, Err(Fault::NoMemory));
                }
            };
            let (window, done) = task.do_text(state, number, window, w);
            *input = InputReader::Own(window.into_reader());
            (shared, done)
        }
        InputReader::Shared => {
            context.lines.begin(true);
            let window = match shared.in_hand(context.alloc) {
                Ok(window) => window,
                Err(refused) => {
                    return (SharedWindow::Unread(refused.reader), Err(Fault::NoMemory));
                }
            };
            let (window, done) = task.do_text(state, number, window, w);
            (SharedWindow::InHand(window), done)
        }
    }
}

/// Does what some inputs say, one after the other, and returns the reader that they share.
fn do_turns<T, W: Sink, P: InputTask<T, W>, J: Feeds + Drop, I: Feeds>(
    context: InputContext<'_>,
    task: &P,
    state: &mut T,
    readers: &mut [InputReader<J>],
    shared: SharedWindow<I>,
    w: &mut W,
) -> (SharedWindow<I>, Result<(), Fault>)
    ensures ok { OnOk result.1 (DoesAll (P.work task.now)
        (AreTaken J.feed (shared_feed I.feed) readers.old readers.new shared result.0)
        (progress (W.contents w.old) state.old) (progress (W.contents w.new) state.new)) }
    ensures fails { IfErr result.1 (StopsAmid (P.work task.now)
        (AreTaken J.feed (shared_feed I.feed) readers.old readers.new shared result.0)
        (SomeFailed J.feed (shared_feed I.feed) readers.new result.0)
        (progress (W.contents w.old) state.old) (progress (W.contents w.new) state.new)) }
    ensures output { OutputSays (W.failed w.new) result.1 }
{
    let mut shared = shared;
    let mut i = 0;
    while i < readers.len() {
        let number = i as u64 + 1;
        let (left, done) = do_turn(context, task, state, number, &mut readers[i], shared, w);
        shared = left;
        if let Err(fault) = done {
            return (shared, Err(fault));
        }
        i += 1;
    }
    (shared, Ok(()))
}

/// Does what some inputs say, one after the other, up to the first fault. The inputs are returned
/// whatever the answer; what their windows took past the texts is lost.
pub fn do_inputs<T, W: Sink, P: InputTask<T, W>, J: Feeds + Drop, I: Feeds>(
    context: InputContext<'_>,
    task: &P,
    state: &mut T,
    inputs: Inputs<J, I>,
    w: &mut W,
) -> (Inputs<J, I>, Result<(), Fault>)
    ensures ok { OnOk result.1 (DoesAll (P.work task.now)
        (λ p read stop. AreReadTo J.feed I.feed p read stop inputs result.0)
        (progress (W.contents w.old) state.old) (progress (W.contents w.new) state.new)) }
    ensures fails { IfErr result.1 (StopsAmid (P.work task.now)
        (λ p read stop. AreReadTo J.feed I.feed p read stop inputs result.0)
        (SomeFailed J.feed I.feed result.0.readers.items result.0.shared)
        (progress (W.contents w.old) state.old) (progress (W.contents w.new) state.new)) }
    ensures output { OutputSays (W.failed w.new) result.1 }
{
    let Inputs {
        mut readers,
        shared,
    } = inputs;
    let shared = SharedWindow::Unread(shared);
    let (shared, done) = do_turns(context, task, state, &mut readers, shared, w);
    let left = Inputs {
        readers,
        shared: shared.into_reader(),
    };
    (left, done)
}
