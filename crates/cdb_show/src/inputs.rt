// The inputs of a run, whose readers come back.
ghost use Rattle.std.specs.Prelude.{◌≡◌, IfErr, IfOk, map};
ghost use Rattle.cdb_form.specs.Views.Feed.{Consumes, Keeps};
ghost use Rattle.cdb_show.specs.Views.Noted.{held_of, reader_of, shared_feed};
ghost use Rattle.cdb_show.specs.Views.Window.{feed_of};
ghost use Rattle.cdb_show.specs.declared.input_reader.InputReader.TheVariants.{Own};

use crate::InputReader;
use crate::window::{NoWindow, Window};
use cdb_form::Feeds;
use std::alloc::{AllocError, Global};
use std::io::Read;

/// The inputs of a run, which are read in turn, each through a window of 64 KiB.
#[derive(Drop)]
pub struct Inputs<J, I> {
    /// The readers of the inputs, in their order.
    pub readers: Vec<InputReader<J>>,
    /// The reader of those that have none of their own, as each `-` of a command line has standard
    /// input: each of them begins where the text of the one before it ended.
    pub shared: I,
}

impl<J: Read, I: Read> Inputs<J, I> {
    /// Inputs that each have a reader of their own. None has the shared one.
    pub fn each_own(alloc: Global, readers: Vec<J>, shared: I) -> Result<Inputs<J, I>, AllocError>
    where
        J: Drop,
        I: Drop,
        ensures each { IfOk result (λ inputs. inputs.readers.items ≡ map Own readers.items) }
        ensures shared { IfOk result (λ inputs. inputs.shared ≡ shared) }
    {
        let mut own = Vec::with_capacity(alloc, readers.len())?;
        for reader in readers {
            own.push(InputReader::Own(reader))?;
        }
        Ok(Inputs {
            readers: own,
            shared,
        })
    }
}

/// The reader that inputs share. It has its window once the first of them begins.
#[derive(Drop)]
pub enum SharedWindow<I> {
    /// Nothing was read from it.
    Unread(I),
    /// An input that shares it was begun.
    InHand(Window<I>),
}

impl<I: Feeds> SharedWindow<I> {
    /// The reader in its window. If memory for that is refused, `NoWindow` has the reader as it
    /// came.
    pub fn in_hand(self, alloc: Global) -> Result<Window<I>, NoWindow<I>>
        ensures kept { IfOk result (λ w. Keeps (shared_feed I.feed self) (feed_of I.feed w)) }
        ensures back { IfErr result (λ e. Keeps (shared_feed I.feed self) (I.feed e.reader)) }
    {
        match self {
            SharedWindow::Unread(reader) => Window::growing(alloc, reader),
            SharedWindow::InHand(window) => Ok(window),
        }
    }

    /// Returns the reader. The bytes that its window holds are lost.
    pub fn into_reader(self) -> I
        ensures reader { result ≡ reader_of self }
        ensures lost { Consumes (shared_feed I.feed self) (I.feed result) (held_of self) }
    {
        match self {
            SharedWindow::Unread(reader) => reader,
            SharedWindow::InHand(window) => window.into_reader(),
        }
    }
}
