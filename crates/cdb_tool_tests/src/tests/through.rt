// A window as a `Read`, so that readers of a text may be tried over it and beside a plain reader.
use cdb_form::{AtHand, Feeds};
use cdb_tool::{InWindow, Window};
use std::alloc::{AllocError, Global};
use std::io::{self, Read};
use std::prelude::*;

/// A reader through a window.
#[derive(Drop)]
pub(super) struct Through<R> {
    window: Window<R>,
}

impl<R: Feeds + Drop> Through<R> {
    /// A reader through a window of so many bytes.
    pub(super) fn new(alloc: Global, reader: R, size: usize) -> Result<Through<R>, AllocError> {
        match Window::new(alloc, reader, size.max(1)) {
            Ok(window) => Ok(Through { window }),
            Err(_) => Err(AllocError),
        }
    }
}

impl<R: Feeds> Read for Through<R> {
    fn read(&mut self, buf: &mut [u8]) -> io::Result<usize> {
        self.window.read_some(buf)
    }
}

/// The bytes of its window are at hand.
pub(super) struct InThrough;

impl<R: Feeds> AtHand<Through<R>> for InThrough {
    ghost use Rattle.cdb_show.specs.Views.Window.{held_in};

    ghost held = { λ through. held_in through.window };

    fn window(reader: &Through<R>) -> &[u8] {
        InWindow::window(&reader.window)
    }

    fn take(reader: &mut Through<R>, n: usize) {
        InWindow::take(&mut reader.window, n);
    }
}
