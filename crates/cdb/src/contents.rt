// The base and the inputs of a create, once they are opened.
ghost use Rattle.std.specs.Prelude.{◌≡◌, ◌≤◌};
ghost use Rattle.cdb_form.specs.Format.{head_size};

use cdb_form::Width;
use cdb_show::Inputs;
use cdb_system::{Left, System};
use cdb_tool::RunContext;
use std::marker::PhantomData;

/// The files and streams that a create reads, as they were opened or as they are returned.
#[derive(Drop)]
pub(crate) struct Sources<F, J, I> {
    /// The base, if one is amended.
    pub(crate) base: Option<F>,
    /// The inputs, in their order.
    pub(crate) inputs: Inputs<J, I>,
}

/// The files and streams that a create on this system reads.
pub(crate) type SourcesOf<Y> = Sources<
    <Y as System>::File,
    <Y as System>::Stream,
    <Y as System>::Input,
>;

impl<F: Drop, J: Drop, I: Drop> Sources<F, J, I> {
    ghost use Rattle.cdb.specs.Contents.{sources_left};

    /// Returns the files that a create leaves: these, and one that was made in place.
    pub(crate) fn into_left<M: Drop>(self, made: Option<M>) -> Left<F, M, J, I>
        ensures { result ≡ sources_left self made }
    {
        let Sources { base, inputs } = self;
        let Inputs { readers, shared } = inputs;
        Left {
            read: base,
            other: None,
            made,
            stream: None,
            inputs: Some(readers),
            input: Some(shared),
        }
    }
}

/// The opened base and inputs of a database, and its options. The limit is at least a head, and at
/// most `L::GREATEST`.
#[derive(Drop)]
pub(crate) struct Contents<'a, L: Width, F, J, I> {
    /// The files and streams that are read.
    pub(crate) sources: Sources<F, J, I>,
    /// The options, and the lines of the inputs.
    pub(crate) run: RunContext<'a>,
    /// The width of the words.
    pub(crate) width: PhantomData<L>,
    ghost head: { head_size L.WORD ≤ run.options.make.limit },
    ghost words: { run.options.make.limit ≤ L.GREATEST },
}

/// The contents of a database that is made on this system.
pub(crate) type ContentsOf<'a, L, Y> = Contents<
    'a,
    L,
    <Y as System>::File,
    <Y as System>::Stream,
    <Y as System>::Input,
>;

impl<'a, L: Width, F: Drop, J: Drop, I: Drop> Contents<'a, L, F, J, I> {
    /// Returns the files and streams to be read, unread.
    pub(crate) fn into_sources(self) -> Sources<F, J, I>
        ensures { result ≡ self.entry.sources }
    {
        let Contents { sources, .. } = self;
        sources
    }
}
