// A reader of a database in a store.
ghost use Rattle.std.specs.Prelude.{◌≡◌, ℕ, ◌+◌, ◌<◌, ◌≤◌, ◌^◌, List, IfOk, IfErr, OnOk, length};
ghost use Rattle.cdb_form.specs.Format.{head_size, head_at};
ghost use Rattle.cdb_form.specs.Views.Pairs.{head_pairs};
ghost use Rattle.cdb_form.specs.Views.KnownBytes.{Writes};
ghost use Rattle.cdb_read.specs.Lookup.{bytes_of};
ghost use Rattle.cdb_read.specs.Sound.{lacks_tables};
ghost use Rattle.cdb_read.specs.Statistics.{outside_table};
ghost use Rattle.cdb_store.specs.Reads.{OnlyReads};
ghost use Rattle.cdb_read.specs.declared.fault.ReadFault.TheVariants.{Output};
ghost use Rattle.cdb_read.specs.Views.Reads.{OpeningFails, CopyingFails, ValueFails};
ghost use Rattle.cdb_read.specs.Views.Window.{Shows};

use crate::fault::ReadFault;
use crate::pieces::{copy_span, read_part, take_span};
use crate::span::Span;
use crate::tables::{any_slots, first_outside};
use crate::window::{WINDOW, Window};
use cdb_form::{Head, Sink, Width, head_size, read_head, write_whole};
use cdb_store::Store;
use std::alloc::Global;
use std::marker::PhantomData;

/// A store and the reason why no database was opened in it.
#[derive(Drop)]
pub struct Unread<S> {
    /// The store.
    pub store: S,
    /// `Short` or `Device`.
    pub fault: ReadFault,
}

impl<S: Drop> From<Unread<S>> for ReadFault {
    ghost from_gives = { λ u f. f ≡ u.fault };

    /// Drops the store.
    fn from(unread: Unread<S>) -> ReadFault {
        unread.fault
    }
}

/// A database in a store.
#[derive(Drop)]
pub struct Reader<S: Store, L: Width> {
    /// The store that holds the database.
    pub(crate) store: S,
    /// The pointers to the tables.
    pub(crate) head: Head,
    /// The window for records, their values, and the slots of a whole table.
    pub(crate) window: Window,
    /// The window for the slots of a search.
    pub(crate) slots: Window,
    /// The width of a word.
    pub(crate) width: PhantomData<L>,
    ghost fits: { S.size store < 2 ^ 64 },
    ghost long: { head_size L.WORD ≤ S.size store },
    ghost shows: { Shows window (S.image store) },
    ghost slots_shown: { Shows slots (S.image store) },
    ghost known: { (b : List ℕ) → S.image store b → head_at L.WORD b ≡ head_pairs head },
}

impl<S: Store, L: Width> Reader<S, L> {
    ghost use Rattle.cdb_read.specs.Views.Reader.{Opens};

    /// Reads the head of the database in a store, and returns a reader of it. If that failed, it
    /// returns the store, with `Short` if the store is shorter than a head and `Device` if it
    /// failed.
    pub fn open(store: S) -> Result<Reader<S, L>, Unread<S>>
        ensures reads { IfOk result (λ r. Opens store r) }
        ensures fails { IfErr result (λ u. OpeningFails L.WORD S.Store store u.store u.fault) }
    {
        let mut store = store;
        let size = head_size::<L>();
        if store.len() < size as u64 {
            let fault = ReadFault::Short;
            return Err(Unread { store, fault });
        }
        // The longest head, with words of 8 bytes, is as long as a window.
        let mut bytes = [0u8; WINDOW];
        match read_part(&mut store, 0, &mut bytes[..size]) {
            Ok(()) => {}
            Err(fault) => return Err(Unread { store, fault }),
        }
        let head = read_head::<L>(&bytes[..size]);
        Ok(Reader {
            store,
            head,
            window: Window::over(bytes),
            slots: Window::new(),
            width: PhantomData,
        })
    }

    /// Writes the bytes of a span, which lies inside the file. Bytes that were read ahead are not
    /// read again. After a fault the writer holds a prefix of the span's bytes.
    #[inline(always)]
    pub fn copy<W: Sink>(&mut self, span: Span, w: &mut W) -> Result<(), ReadFault>
        requires inside { span.place + span.len ≤ S.size self.old.store }
        ensures reads { OnlyReads S.Store self.old.store self.new.store }
        ensures copies { (b : List ℕ) → S.image self.new.store b
            → Writes result (W.contents w.old) (W.contents w.new) (bytes_of b span) }
        ensures fails { IfErr result (CopyingFails S.Store self.old.store self.new.store) }
        ensures failed { IfErr result (λ fault. fault ≡ Output → W.failed w.new) }
    {
        if self.window.covers(span.place, span.len) {
            write_whole(w, self.window.shown(span.place, span.len as usize))?;
            return Ok(());
        }
        self.window.len = 0;
        copy_span(&mut self.store, span, &mut self.window.bytes, w)
    }

    /// Returns the bytes of a span, which lies inside the file. Memory is allocated as they are
    /// read.
    pub fn value(&mut self, alloc: Global, span: Span) -> Result<Vec<u8>, ReadFault>
        requires inside { span.place + span.len ≤ S.size self.old.store }
        ensures reads { OnlyReads S.Store self.old.store self.new.store }
        ensures is { (b : List ℕ) → S.image self.new.store b
            → IfOk result (λ v. v.items ≡ bytes_of b span) }
        ensures fails { IfErr result (ValueFails S.Store self.old.store self.new.store) }
    {
        let mut taken = Vec::new(alloc);
        self.value_into(span, &mut taken)?;
        Ok(taken)
    }

    /// Replaces what a vector holds with the bytes of a span, which lies inside the file. The
    /// vector keeps its memory and grows as they are read; after a fault it holds anything.
    pub(crate) fn take_into(&mut self, span: Span, into: &mut Vec<u8>) -> Result<(), ReadFault>
        requires inside { span.place + span.len ≤ S.size self.old.store }
        ensures reads { OnlyReads S.Store self.old.store self.new.store }
        ensures is { (b : List ℕ) → S.image self.new.store b
            → OnOk result (into.new.items ≡ bytes_of b span) }
        ensures long { OnOk result (length into.new.items ≡ span.len) }
        ensures fails { IfErr result (ValueFails S.Store self.old.store self.new.store) }
    {
        self.window.len = 0;
        take_span(&mut self.store, span, &mut self.window.bytes, into)
    }

    /// Returns the number of bytes that its file has.
    pub fn size(&self) -> u64
        ensures { result ≡ S.size self.now.store }
    {
        self.store.len()
    }

    /// Returns true if no table of its file has slots, though bytes follow the head, as in a file
    /// with words of the other width. An empty file of this width ends after its head.
    pub fn lacks_tables(&self) -> bool
        ensures { (b : List ℕ) → S.image self.now.store b → result ≡ lacks_tables L.WORD b }
    {
        let is_longer = self.store.len() > head_size::<L>() as u64;
        is_longer && !any_slots(&self.head.pointers)
    }

    /// Returns the number of the first table with slots that doesn't lie after the head and inside
    /// the file.
    pub fn outside_table(&self) -> Option<u64>
        ensures { (b : List ℕ) → S.image self.now.store b → result ≡ outside_table L.WORD b }
    {
        first_outside::<L>(&self.head.pointers, self.store.len())
    }

    /// Returns its store, unchanged.
    pub fn into_store(self) -> S
        ensures { result ≡ self.store }
    {
        let Reader {
            store,
            head: _,
            window: _,
            slots: _,
            width: _,
        } = self;
        store
    }
}
