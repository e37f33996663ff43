// The builder of a database from a base and inputs that were opened.
ghost use Rattle.std.specs.Prelude.{◌≡◌, ◌<◌, OnOk, IfErr, ⊤};
ghost use Rattle.cdb_show.specs.Views.Noted.{AreInPlace};
ghost use Rattle.cdb_show.specs.Views.Output.{OutputSays};
ghost use Rattle.cdb.specs.Creating.{HasCauseInStore, IsBufferedRun, IsCaused, IsDatabase, IsMakeRun};
ghost use Rattle.cdb.specs.Contents.{making_of};
ghost use Rattle.cdb.specs.Reasons.{HasReason, run_reasons};

use crate::contents::{Contents, ContentsOf, Sources, SourcesOf};
use cdb_form::{PIPE, Sink, Width};
use cdb_names::{Builder, Unsynced};
use cdb_store::{BufferedStore, Store};
use cdb_system::System;
use cdb_tool::{Fault, make_run_from};
use std::alloc::Global;
use std::marker::PhantomData;

/// Makes a database in a store. Returns the store, and what was read.
pub(crate) fn make_in<L, S, Y, E>(
    alloc: Global,
    store: S,
    contents: ContentsOf<'_, L, Y>,
    errors: &mut E,
) -> (S, SourcesOf<Y>, Result<(), Fault>)
where
    L: Width,
    S: Store,
    Y: System,
    E: Sink,
    ensures runs { IsMakeRun Y.File.Store (making_of L.WORD L.GREATEST Y.Stream.feed Y.Input.feed
        contents.entry result.1.inputs) result.1.base
        (S.image result.0) (E.contents errors.old) (E.contents errors.new) result.2 }
    ensures failed { HasCauseInStore S.Store store result.0 result.2 }
    ensures reason { IfErr result.2 (HasReason (run_reasons Y.File.Store Y.Stream.feed Y.Input.feed
        result.1 (S.failures store < S.failures result.0) ⊥)) }
    ensures settled { OnOk result.2 (S.settled result.0) }
    ensures placed { AreInPlace contents.entry.sources.inputs.readers.items
        result.1.inputs.readers.items }
    ensures output { OutputSays (E.failed errors.new) result.2 }
{
    let Contents {
        sources,
        run,
        width: _,
    } = contents;
    let Sources { base, inputs } = sources;
    let (store, base, inputs, made) = make_run_from::<L, S, Y::File, Y::Stream, Y::Input, E>(
        alloc, store, base, inputs, run, errors,
    );
    (store, Sources { base, inputs }, made)
}

/// Builds the database in an empty file, through a buffer. Returns what was read, also if there is
/// no file to build in.
#[derive(Drop)]
pub(crate) struct Building<'a, L: Width, Y: System, E> {
    pub(crate) alloc: Global,
    /// The opened base and inputs, and the options.
    pub(crate) contents: ContentsOf<'a, L, Y>,
    /// The type of the output for the lines of duplicates.
    pub(crate) errors: PhantomData<E>,
}

impl<'a, S, L, Y, E> Builder<S> for Building<'a, L, Y, E>
where
    S: Store + Drop,
    L: Width,
    Y: System,
    E: Sink,
{
    type Fault = Fault;

    type Told = E;

    type Back = SourcesOf<Y>;

    ghost builds = { λ b back bytes. IsDatabase Y.File.Store (making_of L.WORD L.GREATEST
        Y.Stream.feed Y.Input.feed b.contents back.inputs) back.base bytes };

    ghost fails = { λ _ old new fault. IsCaused fault (S.failures old) (S.failures new) };

    ghost tells = { λ b back told said images made.
        IsBufferedRun Y.File.Store (making_of L.WORD L.GREATEST Y.Stream.feed Y.Input.feed
        b.contents back.inputs) back.base images (E.contents told) (E.contents said) made
        × AreInPlace b.contents.sources.inputs.readers.items back.inputs.readers.items
        × OutputSays (E.failed said) made
        × IfErr made (HasReason (run_reasons Y.File.Store Y.Stream.feed Y.Input.feed back ⊤ ⊥)) };

    ghost gives_up = { λ b back. back ≡ b.contents.sources };

    fn build(self, store: S, errors: &mut E) -> (S, SourcesOf<Y>, Result<(), Fault>) {
        let Building {
            alloc,
            contents,
            ..
        } = self;
        match BufferedStore::new(alloc, Unsynced::over(store), PIPE) {
            Ok(buffered) => {
                let (buffered, read, made) = make_in::<L, BufferedStore<Unsynced<S>>, Y, E>(
                    alloc, buffered, contents, errors,
                );
                (buffered.discard().into_inner(), read, made)
            }
            Err(failed) => {
                let sources = contents.into_sources();
                (failed.value.into_inner(), sources, Err(Fault::NoMemory))
            }
        }
    }

    fn give_up(self) -> SourcesOf<Y> {
        let Building { contents, .. } = self;
        contents.into_sources()
    }
}
