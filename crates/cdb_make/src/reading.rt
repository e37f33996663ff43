// The answers of a maker about its records, and its looks at a key.
ghost use Rattle.std.specs.Prelude.{◌≡◌, ◌+◌, ◌≤◌, true, false, List, length, IfOk, IfErr, OnOk};
ghost use Rattle.cdb_form.specs.Format.{file_size, KeyValue};
ghost use Rattle.cdb_make.specs.Chains.{second_hash, NoNewImage};
ghost use Rattle.cdb_make.specs.Views.Maker.{look_fault, is_foreign, WhereHonest, IsThere};
ghost use Rattle.cdb_make.specs.Views.Roll.{IsSought, HasRoom};

use crate::key_at::LookFault;
use crate::look::{find, last_with_key};
use crate::maker::{Counts, Maker};
use cdb_form::{Width, hash, pair_size};
use cdb_store::{MakeFault, Store};

impl<S: Store, L: Width> Maker<S, L> {
    ghost use Rattle.cdb_make.specs.Views.Maker.{Holds, Rests, FailsLooking, Seeks, HasNotFailed, told_count, told_size, Looks, Follows, SameCounts, WritesNothing};

    /// Returns the number of records that the maker holds.
    ///
    /// In a broken maker it is what it was before the call that broke it.
    pub fn count(&self) -> u64
        ensures holds { (rs : List KeyValue) → Holds self.now rs
            → WhereHonest (S.image self.now.store) (result ≡ length rs) }
        ensures is { result ≡ told_count self.now }
    {
        if self.broken {
            self.counted.count
        } else {
            self.roll.left_count()
        }
    }

    /// Returns the number of bytes that the file of the maker's records would have.
    ///
    /// In a broken maker it is what it was before the call that broke it.
    pub fn size(&self) -> u64
        ensures holds { (rs : List KeyValue) → Holds self.now rs
            → WhereHonest (S.image self.now.store) (result ≡ file_size L.WORD rs) }
        ensures is { result ≡ told_size self.now }
        ensures within { result ≤ self.now.limit }
    {
        if self.broken {
            return self.counted.size;
        }
        self.roll.left_end() + 2 * pair_size::<L>() as u64 * self.roll.left_count()
    }

    /// Returns true if an earlier call broke the maker, or found that its store returned other
    /// bytes than were written. Then every call that can fail returns `Broken`.
    pub fn is_broken(&self) -> bool
        ensures { result ≡ self.now.broken }
    {
        self.broken
    }

    /// Returns the maker's store, to read how long it is or how much was written.
    pub fn store(&self) -> &S
        ensures { result.now ≡ self.now.store }
    {
        &self.store
    }

    /// Returns the maker's counts.
    pub(crate) fn counts(&self) -> Counts
        ensures count { result.count ≡ told_count self.now }
        ensures size { result.size ≡ told_size self.now }
        ensures within { result.size ≤ self.now.limit }
    {
        Counts {
            count: self.count(),
            size: self.size(),
        }
    }

    /// Returns the fault of a look that failed. If the store returned other bytes than were
    /// written, it breaks the maker.
    fn failed_look(&mut self, fault: LookFault) -> MakeFault
        requires { self.old.broken ≡ false }
        ensures fault { result ≡ look_fault fault }
        ensures broken { self.new.broken ≡ is_foreign fault }
        ensures store { self.new.store ≡ self.old.store }
        ensures roll { self.new.roll ≡ self.old.roll }
        ensures limit { self.new.limit ≡ self.old.limit }
        ensures lazy { self.new.lazy ≡ self.old.lazy }
        ensures counts { SameCounts self.old self.new }
    {
        match fault {
            LookFault::Failed => MakeFault::Lookup,
            LookFault::Foreign => {
                self.counted = self.counts();
                self.broken = true;
                MakeFault::Broken
            }
        }
    }

    /// Returns true if some record has a key.
    ///
    /// It writes nothing and takes no memory. `Lookup`: the store failed while it was read.
    /// `Broken`: an earlier call broke the maker, or the store gave back other bytes than were
    /// written.
    pub fn exists(&mut self, key: &[u8]) -> Result<bool, MakeFault>
        ensures there { (rs : List KeyValue) → Holds self.old rs
            → IfOk result (λ there. IsThere there key.now rs (S.image self.new.store)) }
        ensures ok { OnOk result (WritesNothing self.old self.new) }
        ensures rests { OnOk result (Rests self.old self.new) }
        ensures fine { OnOk result (HasNotFailed self.old self.new) }
        ensures fails { IfErr result (FailsLooking self.old self.new) }
        ensures follows { Follows self.old self.new }
        ensures images { NoNewImage (S.image self.old.store) (S.image self.new.store) }
        ensures counts { SameCounts self.old self.new }
    {
        let sought = self.roll.sought_by_look(hash(key), key);
        self.look(sought, key)
    }

    /// Notes as found the records of a key that do not go, and returns their number.
    ///
    /// It fails as `exists` does.
    #[inline(always)]
    pub(crate) fn seek(&mut self, sought: u32, key: &[u8]) -> Result<u64, MakeFault>
        requires { IsSought self.old.roll key.now sought }
        ensures seeks { IfOk result (λ n. Seeks self.old self.new sought key.now n) }
        ensures tagged { OnOk result (self.new.roll.tagged ≡ true → sought ≡ second_hash key.now) }
        ensures fails { IfErr result (FailsLooking self.old self.new) }
        ensures follows { Follows self.old self.new }
        ensures room { OnOk result (HasRoom self.old.roll → HasRoom self.new.roll) }
        ensures counts { SameCounts self.old self.new }
    {
        if self.broken {
            return Err(MakeFault::Broken);
        }
        self.roll.link();
        match find::<S, L>(&mut self.store, &mut self.roll, sought, key) {
            Ok(()) => Ok(self.roll.found.count),
            Err(fault) => Err(self.failed_look(fault)),
        }
    }

    /// Returns true if some record has a key, as `exists` does. `sought` is the key's number. It
    /// leaves no record noted as found.
    #[inline(always)]
    pub(crate) fn look(&mut self, sought: u32, key: &[u8]) -> Result<bool, MakeFault>
        requires { IsSought self.old.roll key.now sought }
        ensures tagged { OnOk result (self.new.roll.tagged ≡ true → sought ≡ second_hash key.now) }
        ensures looks { IfOk result (λ there. Looks self.old self.new key.now there) }
        ensures fine { OnOk result (HasNotFailed self.old self.new) }
        ensures fails { IfErr result (FailsLooking self.old self.new) }
        ensures follows { Follows self.old self.new }
        ensures images { NoNewImage (S.image self.old.store) (S.image self.new.store) }
        ensures room { OnOk result (HasRoom self.old.roll → HasRoom self.new.roll) }
        ensures counts { SameCounts self.old self.new }
    {
        if self.broken {
            return Err(MakeFault::Broken);
        }
        self.roll.link();
        self.roll.put_back();
        match last_with_key::<S, L>(&mut self.store, &self.roll, sought, key, self.roll.len()) {
            Ok(last) => Ok(last.is_some()),
            Err(fault) => Err(self.failed_look(fault)),
        }
    }
}
