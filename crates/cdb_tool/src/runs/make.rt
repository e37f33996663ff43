// A database made of the records of a base, if there is one, and of what some inputs say.
ghost use Rattle.std.specs.Prelude.{Err, IfErr, List, Ok, OnOk, Option, Result, Some, [], is_some, length, map, ℕ, ◌+◌, ◌<◌, ◌≡◌, ◌≤◌};
ghost use Rattle.std.specs.Borrow.{Bor};
ghost use Rattle.cdb_form.specs.Views.Feed.{reader_feed};
ghost use Rattle.cdb_form.specs.Format.{head_size};
ghost use Rattle.cdb_form.specs.Text.Parse.{Change};
ghost use Rattle.cdb_show.specs.Feed.{NoMore, SomeFailed};
ghost use Rattle.cdb_show.specs.Runs.Inputs.{input_form};
ghost use Rattle.cdb_show.specs.Runs.InputTask.{progress};
ghost use Rattle.cdb_show.specs.Runs.Parsing.{IsFaultOf};
ghost use Rattle.cdb_show.specs.Views.Output.{OutputSays};
ghost use Rattle.cdb_show.specs.declared.fault.Fault.TheVariants.{NoMemory};
ghost use Rattle.cdb_show.specs.declared.input_reader.InputReader.TheVariants.{Own};
ghost use Rattle.cdb_tool.specs.Runs.Make.{BaseHasFailed, HandsBack, IsOfBase, IsOfStore, PutsInputs, PutsInputsStop, StepsOn, plain, terms_of};
ghost use Rattle.cdb_tool.specs.Runs.InputsRead.{RunsRead, WereRead, feeds_of, parsing, run_state, stop_by};

use crate::runs::context::RunContext;
use crate::runs::make_base::add_base;
use crate::runs::make_input::Puts;
use crate::runs::options::RunOptions;
use cdb_command::MakeOptions;
use cdb_form::{Feeds, Sink, Width};
use cdb_make::Maker;
use cdb_show::{Fault, InputContext, Inputs, Lines, do_inputs, flushed};
use cdb_store::Store;
use std::alloc::Global;
use std::io::Read;

/// Does what some inputs say, one after the other, to a maker that its caller keeps: what
/// `make_run` does between the base and the finish. With `amends`, native inputs may remove keys.
///
/// The same faults as `make_run`, if an input, the maker or `errors` brings them. After `NoMemory`,
/// `Make(Lookup)` and `Make(Writing)` the maker holds the records of the items that were done,
/// unless it is broken, and the lines are the lines for these items. `errors` is not flushed. The
/// lines of the inputs are counted if duplicates are explained.
///
/// The inputs are returned whatever the answer; what their windows took past the texts is lost. The
/// contract holds of whatever bytes agree with what the readers gave.
pub fn put_inputs<L: Width, S: Store, J: Feeds + Drop, I: Feeds + Drop, E: Sink>(
    alloc: Global,
    maker: &mut Maker<S, L>,
    run: RunContext<'_>,
    amends: bool,
    inputs: Inputs<J, I>,
    errors: &mut E,
) -> (Inputs<J, I>, Result<(), Fault>)
    ensures ok { OnOk result.1 ((read : List (List Change))
        × WereRead (feeds_of J.feed I.feed)
        (parsing (input_form run.entry.options.make.style amends) L.GREATEST (Ok tt)) read
        NoMore inputs result.0
        × PutsInputs run.entry.options read
        (progress (E.contents errors.old) maker.old)
        (progress (E.contents errors.new) maker.new)) }
    ensures fails { IfErr result.1 (λ fault. (read : List (List Change)) × (last : List Change)
        × WereRead (feeds_of J.feed I.feed)
        (parsing (input_form run.entry.options.make.style amends) L.GREATEST (Err fault)) read
        (stop_by fault last) inputs result.0
        × IsFaultOf (input_form run.entry.options.make.style amends) (length read + 1)
        (SomeFailed J.feed I.feed result.0.readers.items result.0.shared) fault
        × PutsInputsStop run.entry.options read last
        (progress (E.contents errors.old) maker.old)
        (progress (E.contents errors.new) maker.new) fault) }
    ensures step { StepsOn maker.old maker.new ⊥ (E.failed errors.new) result.1 }
{
    let context = InputContext {
        alloc,
        lines: run.lines,
    };
    let puts = Puts {
        context,
        options: run.options,
        amends,
    };
    do_inputs(context, &puts, maker, inputs, errors)
}

/// The store, the base and the inputs that a run returns, and its answer.
#[derive(Drop)]
struct Made<S, B, J, I> {
    store: S,
    base: Option<B>,
    inputs: Inputs<J, I>,
    answer: Result<(), Fault>,
}

/// Makes the database, whose lines the writer may keep in a buffer.
fn make_unflushed<L: Width, S: Store, B: Store, J: Feeds + Drop, I: Feeds + Drop, E: Sink>(
    alloc: Global,
    store: S,
    base: Option<B>,
    inputs: Inputs<J, I>,
    run: RunContext<'_>,
    errors: &mut E,
) -> Made<S, B, J, I>
    requires head { head_size L.WORD ≤ run.options.make.limit }
    requires words { run.options.make.limit ≤ L.GREATEST }
    ensures runs { RunsRead (terms_of L.WORD L.GREATEST run.entry.options)
        (feeds_of J.feed I.feed) B.Store (run_state base inputs (E.contents errors.old))
        (run_state result.base result.inputs (E.contents errors.new))
        (S.image result.store) result.answer }
    ensures hands { HandsBack B.Store base result.base }
    ensures settled { OnOk result.answer (S.settled result.store) }
    ensures failed { IfErr result.answer
        (λ f. IsOfStore f → S.failures store < S.failures result.store) }
    ensures memory { IfErr result.answer
        (λ f. f ≡ NoMemory → S.failures result.store ≡ S.failures store) }
    ensures base_failed { IfErr result.answer (λ f. IsOfBase f → BaseHasFailed B.Store base result.base) }
    ensures output { OutputSays (E.failed errors.new) result.answer }
{
    let mut maker = match Maker::<S, L>::lazy(alloc, store, run.options.make.limit) {
        Ok(maker) => maker,
        Err(refused) => {
            return Made {
                store: refused.store,
                base,
                inputs,
                answer: Err(Fault::from(refused.fault)),
            };
        }
    };
    let amends = base.is_some();
    let (base, added) = add_base(alloc, &mut maker, base);
    if let Err(fault) = added {
        return Made {
            store: maker.into_store(),
            base,
            inputs,
            answer: Err(fault),
        };
    }
    let (inputs, put) = put_inputs::<L, S, J, I, E>(alloc, &mut maker, run, amends, inputs, errors);
    if let Err(fault) = put {
        return Made {
            store: maker.into_store(),
            base,
            inputs,
            answer: Err(fault),
        };
    }
    match maker.finish() {
        Ok(store) => Made {
            store,
            base,
            inputs,
            answer: Ok(()),
        },
        Err(unfinished) => Made {
            store: unfinished.maker.into_store(),
            base,
            inputs,
            answer: Err(Fault::from(unfinished.fault)),
        },
    }
}

/// Makes a database in a store, which is emptied first: of the records of a base, if there is one,
/// and then of what some inputs say, in turn.
///
/// Each record of the base's walk is added, in order; `stop`, `warn` and the mode do not apply to
/// it. Each input is one text of the style, and with a base a native input may also remove keys, as
/// an amending text does. A record of an input is put by the mode, or by `Insert` if the run is to
/// stop at a duplicate; a removal takes out every record of its key. If duplicates are reported,
/// the line `cdb: input I: record J: duplicate key` goes to `errors` after each put that met its
/// key, both numbers counted from 1, removals among them. With neither base nor inputs the database
/// is empty. The run ends at the first of these faults:
/// - `Make(TooBig)`: the file would be longer than the limit, already with the records of the base
///   or with one of an input;
/// - `Read(Short)`, `Read(Table(n))`, `Read(Record(place))`: the walk of the base has this damage;
/// - `Read(Device)`: the base's store failed;
/// - `Duplicate`: a record met its key, and the run was to stop there. Its line comes before;
/// - `Text(input, fault)`: an input, counted from 1, has this fault, its place in bytes from the
///   input's first one, or its reader failed or has no end;
/// - `NoMemory`: an allocation failed;
/// - `Make(Lookup)`, `Make(Writing)`: the store failed;
/// - `Make(Broken)`: the store gave back other bytes than were written;
/// - `Output`: `errors` failed, and holds a prefix of the lines.
///
/// If an allocation or the store failed, the lines are the lines for some first records:
/// `put_inputs` names these records.
///
/// The base is read before any input, 64 KiB at a time. Store and base are returned whatever the
/// answer; the base was only read. At Ok the store holds the file of the records that survive, and
/// nothing else, and has passed it to what holds its bytes; after a fault it may hold anything.
/// `errors` is flushed last, after a fault too.
pub fn make_run<L: Width, S: Store, B: Store, R: Read + Drop, E: Sink>(
    alloc: Global,
    store: S,
    base: Option<B>,
    inputs: Vec<R>,
    options: MakeOptions,
    errors: &mut E,
) -> (S, Option<B>, Result<(), Fault>)
    requires head { head_size L.WORD ≤ options.limit }
    requires words { options.limit ≤ L.GREATEST }
    ensures runs { (before : Inputs R (Bor (List ℕ))) × (after : Inputs R (Bor (List ℕ)))
        × (before.readers.items ≡ map Own inputs.items)
        × RunsRead (terms_of L.WORD L.GREATEST (plain options))
        (feeds_of (λ reader. reader_feed (R.remaining reader)) (λ none. reader_feed (Some none.now)))
        B.Store (run_state base before (E.contents errors.old))
        (run_state result.1 after (E.contents errors.new)) (S.image result.0) result.2 }
    ensures hands { HandsBack B.Store base result.1 }
    ensures settled { OnOk result.2 (S.settled result.0) }
    ensures failed { IfErr result.2
        (λ f. IsOfStore f → S.failures store < S.failures result.0) }
    ensures memory { IfErr result.2 (λ f. f ≡ NoMemory → S.failures result.0 ≡ S.failures store) }
    ensures base_failed { IfErr result.2 (λ f. IsOfBase f → BaseHasFailed B.Store base result.1) }
    ensures output { OutputSays (E.failed errors.new) result.2 }
{
    let none: &[u8] = &[];
    let Ok(inputs) = Inputs::each_own(alloc, inputs, none) else {
        let answer = flushed(errors, Err(Fault::NoMemory));
        return (store, base, answer);
    };
    let lines = Lines::new(false);
    let run = RunContext {
        options: RunOptions {
            make: options,
            names: None,
        },
        lines: &lines,
    };
    let (store, base, _inputs, answer) = make_run_from::<L, S, B, R, _, E>(
        alloc, store, base, inputs, run, errors,
    );
    (store, base, answer)
}

/// Does what `make_run` does, with inputs that may share a reader: each of these begins where the
/// text of the one before it ended. A map text leaves nothing. If duplicates are explained,
/// `run.lines` counts the lines of the inputs, and knows the line of a fault afterwards.
///
/// The inputs are returned whatever the answer; what their windows took past the texts is lost. The
/// contract holds of whatever bytes agree with what the readers gave.
pub fn make_run_from<L: Width, S: Store, B: Store, J: Feeds + Drop, I: Feeds + Drop, E: Sink>(
    alloc: Global,
    store: S,
    base: Option<B>,
    inputs: Inputs<J, I>,
    run: RunContext<'_>,
    errors: &mut E,
) -> (S, Option<B>, Inputs<J, I>, Result<(), Fault>)
    requires head { head_size L.WORD ≤ run.options.make.limit }
    requires words { run.options.make.limit ≤ L.GREATEST }
    ensures runs { RunsRead (terms_of L.WORD L.GREATEST run.entry.options)
        (feeds_of J.feed I.feed) B.Store (run_state base inputs (E.contents errors.old))
        (run_state result.1 result.2 (E.contents errors.new)) (S.image result.0) result.3 }
    ensures hands { HandsBack B.Store base result.1 }
    ensures settled { OnOk result.3 (S.settled result.0) }
    ensures failed { IfErr result.3
        (λ f. IsOfStore f → S.failures store < S.failures result.0) }
    ensures memory { IfErr result.3 (λ f. f ≡ NoMemory → S.failures result.0 ≡ S.failures store) }
    ensures base_failed { IfErr result.3 (λ f. IsOfBase f → BaseHasFailed B.Store base result.1) }
    ensures output { OutputSays (E.failed errors.new) result.3 }
{
    let made = make_unflushed::<L, S, B, J, I, E>(alloc, store, base, inputs, run, errors);
    let answer = flushed(errors, made.answer);
    (made.store, made.base, made.inputs, answer)
}
