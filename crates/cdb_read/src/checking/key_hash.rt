// The hash of a key that is in a store.
ghost use Rattle.std.specs.Prelude.{◌≡◌, ℕ, ◌+◌, ◌<◌, ◌≤◌, ◌^◌, List, IfOk, IfErr};
ghost use Rattle.cdb_form.specs.Format.{key_hash};
ghost use Rattle.cdb_read.specs.Lookup.{bytes_of};
ghost use Rattle.cdb_store.specs.Reads.{OnlyReads};
ghost use Rattle.cdb_read.specs.Views.Reads.{StoreFails};
ghost use Rattle.cdb_read.specs.Views.Window.{Shows};

use crate::fault::ReadFault;
use crate::reader::Reader;
use crate::span::Span;
use crate::walking::records::Walk;
use crate::window::{WINDOW, Window};
use cdb_form::{Width, hash, hash_more};
use cdb_store::Store;

/// Returns the hash of the bytes of a span, which are read in pieces. No memory is allocated.
#[inline(always)]
fn span_hash<S: Store>(store: &mut S, window: &mut Window, span: Span) -> Result<u32, ReadFault>
    requires inside { span.place + span.len ≤ S.size store.old }
    requires fits { S.size store.old < 2 ^ 64 }
    requires shows { Shows window.old (S.image store.old) }
    ensures shows { Shows window.new (S.image store.new) }
    ensures hash { (b : List ℕ) → S.image store.new b
        → IfOk result (λ h. h ≡ key_hash (bytes_of b span)) }
    ensures reads { OnlyReads S.Store store.old store.new }
    ensures fails { IfErr result (StoreFails S.Store store.old store.new) }
{
    let mut hash = hash(&[]);
    let mut done = 0;
    while done < span.len {
        let n = (span.len - done).min(WINDOW as u64) as usize;
        window.cover(store, span.place + done, n, WINDOW)?;
        hash = hash_more(hash, window.shown(span.place + done, n));
        done += n as u64;
    }
    Ok(hash)
}

impl<S: Store, L: Width> Reader<S, L> {
    /// Returns the hash of the bytes of a span, which lies inside the file. They are read in
    /// pieces.
    #[inline(always)]
    pub fn hash(&mut self, span: Span) -> Result<u32, ReadFault>
        requires inside { span.place + span.len ≤ S.size self.old.store }
        ensures hash { (b : List ℕ) → S.image self.new.store b
            → IfOk result (λ h. h ≡ key_hash (bytes_of b span)) }
        ensures head { self.new.head ≡ self.old.head }
        ensures reads { OnlyReads S.Store self.old.store self.new.store }
        ensures fails { IfErr result (StoreFails S.Store self.old.store self.new.store) }
    {
        span_hash(&mut self.store, &mut self.window, span)
    }
}

impl<'a, S: Store, L: Width> Walk<'a, S, L> {
    /// Returns the hash of the bytes of a span, which lies inside the file. The walk stays where it
    /// is.
    pub(crate) fn hash(&mut self, span: Span) -> Result<u32, ReadFault>
        requires inside { span.place + span.len ≤ S.size self.old.reader.now.store }
        ensures same_reader { self.new.reader.ghost_name ≡ self.old.reader.ghost_name }
        ensures stays { self.new.walking ≡ self.old.walking }
        ensures hash { (b : List ℕ) → S.image self.new.reader.now.store b
            → IfOk result (λ h. h ≡ key_hash (bytes_of b span)) }
        ensures head { self.new.reader.now.head ≡ self.old.reader.now.head }
        ensures reads { OnlyReads S.Store self.old.reader.now.store self.new.reader.now.store }
        ensures fails { IfErr result
            (StoreFails S.Store self.old.reader.now.store self.new.reader.now.store) }
    {
        self.reader.hash(span)
    }
}
