// A record, put by one of four modes.
ghost use Rattle.std.specs.Prelude.{◌≡◌, ◌≢◌, ℕ, ◌+◌, List, true, false, IfOk, IfErr, OnOk, OnErr};
ghost use Rattle.cdb_form.specs.declared.mode.Mode.TheVariants.{Add};
ghost use Rattle.cdb_store.specs.declared.make_fault.MakeFault.TheVariants.{Lookup};
ghost use Rattle.cdb_form.specs.Format.{key_hash, record_of, record_bytes};
ghost use Rattle.cdb_make.specs.Chains.{second_hash};
ghost use Rattle.cdb_make.specs.Views.Roll.{IsSought, HasRoom};
ghost use Rattle.cdb_make.specs.Views.Writing.{AreWhole};

use crate::answer::Put;
use crate::append::FirstRecord;
use crate::candidate::Candidate;
use crate::maker::Maker;
use cdb_form::{Mode, Width, hash};
use cdb_store::{MakeFault, Store};

impl<S: Store, L: Width> Maker<S, L> {
    ghost use Rattle.cdb_make.specs.Views.Maker.{Meets, FailsLooking, Puts, FailsPutting, Follows, HasNotFailed, SameCounts, Steps};

    /// Looks at the key of a record that is to be put, and returns the answer of the put unless it
    /// fails. The records that are to be taken out are noted as found, and no others.
    #[inline(always)]
    fn meet(&mut self, mode: Mode, sought: u32, key: &[u8]) -> Result<Put, MakeFault>
        requires { IsSought self.old.roll key.now sought }
        ensures meets { (value : List ℕ) → IfOk result (λ put.
            Meets self.old self.new sought mode (record { key = key.now; value = value }) put) }
        ensures tagged { OnOk result (self.new.roll.tagged ≡ true → sought ≡ second_hash key.now) }
        ensures fails { IfErr result (FailsLooking self.old self.new) }
        ensures looks { IfErr result (λ f. f ≡ Lookup → mode ≢ Add) }
        ensures room { OnOk result (HasRoom self.old.roll → HasRoom self.new.roll) }
        ensures steps { Steps self.old self.new result }
    {
        match mode {
            Mode::Add => {
                if self.broken {
                    return Err(MakeFault::Broken);
                }
                self.roll.put_back();
                Ok(Put::Added)
            }
            Mode::Warn => {
                if self.look(sought, key)? {
                    return Ok(Put::AddedAgain);
                }
                Ok(Put::Added)
            }
            Mode::Insert => {
                if self.look(sought, key)? {
                    return Ok(Put::Present);
                }
                Ok(Put::Added)
            }
            Mode::Replace => {
                let taken = self.seek(sought, key)?;
                if taken == 0 {
                    return Ok(Put::Added);
                }
                Ok(Put::Replaced(taken))
            }
        }
    }

    /// Returns true if a put adds its record and does no more: no other goes or was found, and none
    /// is tagged.
    #[inline(always)]
    fn only_adds(&self, mode: Mode) -> bool
        ensures add { result ≡ true → mode ≡ Add }
        ensures whole { result ≡ true → self.now.broken ≡ false }
        ensures none { result ≡ true
            → self.now.roll.gone.count + self.now.roll.found.count ≡ 0 }
        ensures untagged { result ≡ true → self.now.roll.tagged ≡ false }
    {
        mode == Mode::Add && !self.broken && !self.roll.tagged && self.roll.takes_none()
    }

    /// Puts a record as `put` does, once the hash of its key is known. `bytes` holds all its bytes,
    /// or is empty if they are not at hand as a file has them.
    #[cold]
    #[inline(never)]
    fn put_by_mode(
        &mut self,
        mode: Mode,
        hash: u32,
        key: &[u8],
        value: &[u8],
        bytes: &[u8],
    ) -> Result<Put, MakeFault>
        requires hash { hash ≡ key_hash key.now }
        requires whole { AreWhole L.WORD (record_of key.now value.now) bytes.now }
        ensures puts { IfOk result
            (Puts self.old self.new mode (record_of key.now value.now)) }
        ensures fails { IfErr result
            (FailsPutting self.old self.new mode (record_of key.now value.now)) }
        ensures steps { Steps self.old self.new result }
    {
        let sought = self.roll.sought_by_look(hash, key);
        let put = self.meet(mode, sought, key)?;
        if !put.is_present() {
            self.admit(Candidate {
                key,
                value,
                bytes,
                hash,
                number: sought,
            })?;
        }
        Ok(put)
    }

    /// Puts a record: the mode says what is done if its key is there already.
    ///
    /// `Lookup`: the store failed while it was read. `TooBig`: the file would pass the limit.
    /// `NoMemory`: memory was refused to a put that would have been taken. All these leave the
    /// records as they were, and nothing was written. `Writing`: the store failed; if records were
    /// to be taken out, the maker is broken, else its records are what they were. `Broken`: an
    /// earlier call broke it, or the store gave back other bytes than were written.
    #[inline(always)]
    pub fn put(&mut self, mode: Mode, key: &[u8], value: &[u8]) -> Result<Put, MakeFault>
        ensures puts { IfOk result
            (Puts self.old self.new mode (record_of key.now value.now)) }
        ensures fails { IfErr result
            (FailsPutting self.old self.new mode (record_of key.now value.now)) }
        ensures follows { Follows self.old self.new }
        ensures fine { OnOk result (HasNotFailed self.old self.new) }
        ensures counts { OnErr result (SameCounts self.old self.new) }
    {
        let hash = hash(key);
        if self.only_adds(mode) {
            self.add_alone(Candidate {
                key,
                value,
                bytes: b"",
                hash,
                number: hash,
            })?;
            return Ok(Put::Added);
        }
        self.put_by_mode(mode, hash, key, value, b"")
    }

    /// Puts a record as `put` does, by one write of its bytes, which are at hand as a file has them.
    ///
    /// It fails as `put` does.
    #[inline(always)]
    pub fn put_whole(&mut self, mode: Mode, first: FirstRecord<'_>) -> Result<Put, MakeFault>
        requires { first.bytes.now ≡ record_bytes L.WORD (record_of first.key.now first.value.now) }
        ensures puts { IfOk result
            (Puts self.old self.new mode (record_of first.entry.key.now first.entry.value.now)) }
        ensures fails { IfErr result (FailsPutting self.old self.new mode
            (record_of first.entry.key.now first.entry.value.now)) }
        ensures follows { Follows self.old self.new }
        ensures fine { OnOk result (HasNotFailed self.old self.new) }
        ensures counts { OnErr result (SameCounts self.old self.new) }
    {
        self.put_by_mode(mode, hash(first.key), first.key, first.value, first.bytes)
    }
}
