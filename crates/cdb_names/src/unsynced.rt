// A store whose flush is left to its owner.
ghost use Rattle.std.specs.Prelude.{◌≡◌};
ghost use Rattle.cdb_names.specs.Replacing.{inner_of};

use cdb_store::{Store, StoreFault};

/// A store that forwards each call except the flush to the inner one. So the owner of the inner
/// store can flush it after a last change of its own.
#[derive(Drop)]
pub struct Unsynced<S> {
    inner: S,
}

impl<S: Store> Unsynced<S> {
    /// Returns a store over this one.
    pub fn over(inner: S) -> Unsynced<S>
        ensures { inner_of result ≡ inner }
    {
        Unsynced { inner }
    }

    /// Returns the inner store, unchanged.
    pub fn into_inner(self) -> S
        ensures { result ≡ inner_of self }
    {
        self.inner
    }
}

impl<S: Store> Store for Unsynced<S> {
    ghost use Rattle.std.specs.Prelude.{⊤};

    ghost size = { λ u. S.size u.inner };

    ghost image = { λ u. S.image u.inner };

    ghost failures = { λ u. S.failures u.inner };

    ghost unwritten = { λ u. S.unwritten u.inner };

    ghost written = { λ u. S.written u.inner };

    ghost room = { λ u. S.room u.inner };

    ghost settled = { λ _. ⊤ };

    ghost in_room = { λ u. S.in_room u.inner };

    ghost image_size = { λ u. S.image_size u.inner };

    fn len(&self) -> u64 {
        self.inner.len()
    }

    fn read_at(&mut self, pos: u64, into: &mut [u8]) -> Result<(), StoreFault> {
        self.inner.read_at(pos, into)
    }

    fn write_at(&mut self, pos: u64, bytes: &[u8]) -> Result<(), StoreFault> {
        self.inner.write_at(pos, bytes)
    }

    fn reserve(&mut self, len: u64) -> Result<(), StoreFault> {
        self.inner.reserve(len)
    }

    fn cut(&mut self, len: u64) -> Result<(), StoreFault> {
        self.inner.cut(len)
    }

    fn flush(&mut self) -> Result<(), StoreFault> {
        Ok(())
    }
}
