// The records of a key, removed.
ghost use Rattle.std.specs.Prelude.{◌≡◌, ◌+◌, ◌*◌, ◌<◌, ◌≤◌, true, false, IfOk, IfErr, OnOk, OnErr};
ghost use Rattle.cdb_make.specs.Spans.{HaveHash};
ghost use Rattle.cdb_make.specs.Views.Roll.{searched, marks_in};

use crate::maker::Maker;
use cdb_form::{Width, hash};
use cdb_store::{MakeFault, Store};

/// A lazy maker makes no pass to free fewer bytes than this.
const LEAST: u64 = 4_194_304;

impl<S: Store, L: Width> Maker<S, L> {
    ghost use Rattle.cdb_make.specs.Views.Maker.{Removes, FailsRemoving, Follows, TakesOut, Tears, CompactsAll, FailsCompactingAll, HasNotFailed, SameCounts};

    /// Returns true if a pass frees more bytes than it moves: the records that go and those that
    /// were found have over 4 MiB more bytes than the others.
    fn is_due(&self) -> bool
        ensures due { result ≡ true → self.now.roll.end + 4194304
            < 2 * (self.now.roll.gone.size + self.now.roll.found.size) }
        ensures not { result ≡ false
            → 2 * (self.now.roll.gone.size + self.now.roll.found.size)
            ≤ self.now.roll.end + 4194304 }
    {
        let kept = self.roll.kept_end();
        self.roll.end - kept > kept + LEAST
    }

    /// Returns true if records that are taken out wait for a later pass.
    pub(crate) fn waits(&self) -> bool
        ensures lazy { result ≡ true → self.now.lazy ≡ true }
        ensures spare { result ≡ true → 2 * (self.now.roll.gone.size + self.now.roll.found.size)
            ≤ self.now.roll.end + 4194304 }
        ensures due { result ≡ false → self.now.lazy ≡ true → self.now.roll.end + 4194304
            < 2 * (self.now.roll.gone.size + self.now.roll.found.size) }
    {
        self.lazy && !self.is_due()
    }

    /// Takes out the records that go and those that a look for the number has found: by a pass, or
    /// by marks if the maker is lazy and no pass is due. It takes no memory.
    ///
    /// `Writing`: the store failed, and the maker is broken.
    fn take_out(&mut self, sought: u32) -> Result<(), MakeFault>
        requires whole { self.old.broken ≡ false }
        requires have { HaveHash sought (searched self.old.roll) (marks_in self.old.roll) }
        requires some { 0 < self.old.roll.gone.count + self.old.roll.found.count }
        ensures takes { OnOk result (TakesOut self.old self.new) }
        ensures fails { IfErr result (Tears self.old self.new) }
        ensures fine { OnOk result (HasNotFailed self.old self.new) }
        ensures counts { OnErr result (SameCounts self.old self.new) }
        ensures follows { Follows self.old self.new }
    {
        if self.waits() {
            self.roll.take(sought);
            return Ok(());
        }
        self.counted = self.counts();
        self.broken = true;
        self.roll.take(sought);
        self.pass()
    }

    /// Removes every record of a key, and returns their number.
    ///
    /// It takes no memory. `Lookup`: the store failed while it was read, and no record has gone.
    /// `Writing`: it failed amid a pass, and the maker is broken. `Broken`: an earlier call broke
    /// it, or the store gave back other bytes than were written.
    pub fn remove(&mut self, key: &[u8]) -> Result<u64, MakeFault>
        ensures removes { IfOk result (Removes self.old self.new key.now) }
        ensures fine { OnOk result (HasNotFailed self.old self.new) }
        ensures fails { IfErr result (FailsRemoving self.old self.new key.now) }
        ensures counts { OnErr result (SameCounts self.old self.new) }
        ensures follows { Follows self.old self.new }
    {
        let sought = self.roll.sought_by_look(hash(key), key);
        let taken = self.seek(sought, key)?;
        if taken == 0 {
            return Ok(0);
        }
        self.take_out(sought)?;
        Ok(taken)
    }

    /// Takes out all records that go, by one pass. Then the store has the others and no more.
    ///
    /// Each byte after the first gap moves once, however many records go, and no memory is taken.
    /// `Writing`: the store failed amid the pass, and the maker is broken. `Broken`: an earlier
    /// call broke it.
    pub fn compact_all(&mut self) -> Result<(), MakeFault>
        ensures compacts_all { OnOk result (CompactsAll self.old self.new) }
        ensures fails { IfErr result (FailsCompactingAll self.old self.new) }
        ensures follows { Follows self.old self.new }
        ensures counts { SameCounts self.old self.new }
        ensures fine { OnOk result (HasNotFailed self.old self.new) }
    {
        if self.broken {
            return Err(MakeFault::Broken);
        }
        if self.roll.gone.count == 0 {
            return Ok(());
        }
        self.pass()
    }
}
