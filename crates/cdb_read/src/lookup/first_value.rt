// The first value of a key.
ghost use Rattle.std.specs.Prelude.{◌≡◌, ℕ, ◌+◌, ◌≤◌, List, IfOk, IfErr, IfSome, IsErrOf, MatchOption};
ghost use Rattle.cdb_read.specs.Lookup.{lookup_of, nothing_found};
ghost use Rattle.cdb_read.specs.Views.Search.{IsFirst, IsFirstSpan, GettingFails};
ghost use Rattle.cdb_read.specs.declared.fault.ReadFault.TheVariants.{NoMemory};
ghost use Rattle.cdb_store.specs.Reads.{OnlyReads};

use crate::fault::ReadFault;
use crate::reader::Reader;
use crate::span::Span;
use cdb_form::Width;
use cdb_store::Store;
use std::alloc::Global;

impl<S: Store, L: Width> Reader<S, L> {
    /// Returns the span of the first value of a key.
    fn first_span(&mut self, key: &[u8]) -> Result<Option<Span>, ReadFault>
        ensures reads { OnlyReads S.Store self.old.store self.new.store }
        ensures first { (b : List ℕ) → S.image self.new.store b → IfOk result (λ found.
            MatchOption found (lookup_of L.WORD b key.now ≡ nothing_found)
            (IsFirstSpan (lookup_of L.WORD b key.now))) }
        ensures inside { IfOk result (λ found. IfSome found (λ span.
            span.place + span.len ≤ S.size self.new.store)) }
        ensures fails { IfErr result
            (GettingFails L.WORD S.Store key.now self.old.store self.new.store) }
        ensures memory { IsErrOf result NoMemory → ⊥ }
    {
        let mut finder = self.find(key);
        finder.next()
    }

    /// Returns the first value of a key, and `None` if no record has it.
    ///
    /// `Table`, `Record`: the file is damaged at a slot or record that was read. `Device`: the
    /// store failed. `NoMemory`: an allocation for the value failed. The call can be made again
    /// after each.
    pub fn get(&mut self, alloc: Global, key: &[u8]) -> Result<Option<Vec<u8>>, ReadFault>
        ensures reads { OnlyReads S.Store self.old.store self.new.store }
        ensures first { (b : List ℕ) → S.image self.new.store b → IfOk result (λ found.
            MatchOption found (lookup_of L.WORD b key.now ≡ nothing_found)
            (λ value. IsFirst b (lookup_of L.WORD b key.now) value.items)) }
        ensures fails { IfErr result
            (GettingFails L.WORD S.Store key.now self.old.store self.new.store) }
    {
        match self.first_span(key)? {
            Some(span) => Ok(Some(self.value(alloc, span)?)),
            None => Ok(None),
        }
    }
}
