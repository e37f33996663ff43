// The records of a key, found in a roll.
ghost use Rattle.std.specs.Prelude.{◌≡◌, ◌+◌, ◌-◌, ◌<◌, ◌≤◌, length, IfOk, IfSome, OnOk, Err};
ghost use Rattle.cdb_store.specs.Reads.{OnlyReads};
ghost use Rattle.cdb_make.specs.declared.key_at.LookFault.TheVariants.{Failed, Foreign};
ghost use Rattle.cdb_make.specs.Chains.{Has};
ghost use Rattle.cdb_make.specs.Spans.{gone_of, HaveHash};
ghost use Rattle.cdb_make.specs.Rolls.{LooksLast, LooksAll, SeesNone};
ghost use Rattle.cdb_make.specs.Views.Roll.{searched, sought_in, marks_in, HasRoom, SameRecords};

use crate::compact::place_at;
use crate::key_at::{LookFault, look_at};
use crate::roll::Roll;
use cdb_form::Width;
use cdb_store::Store;

/// Returns the last of the first `end` records that has a key and does not go.
///
/// It writes nothing and takes no memory. `Failed`: the store failed. `Foreign`: it gave back other
/// bytes than were written. Inlined, since most looks meet no record of the number.
#[inline(always)]
pub(crate) fn last_with_key<S: Store, L: Width>(
    store: &mut S,
    roll: &Roll<L>,
    sought: u32,
    key: &[u8],
    end: usize,
) -> Result<Option<usize>, LookFault>
    requires hash { sought ≡ sought_in roll.now key.now }
    requires inside { roll.now.end ≤ S.size store.old }
    requires end { end ≤ length roll.now.hashes.items }
    ensures last { IfOk result (λ last. LooksLast key.now roll.now end last (S.image store.new)) }
    ensures within { IfOk result (λ last. IfSome last (λ n. n < end)) }
    ensures here { IfOk result (λ last. IfSome last
        (Has sought (searched roll.now) (gone_of (marks_in roll.now)))) }
    ensures foreign { result ≡ Err Foreign → SeesNone roll.now (S.image store.new) }
    ensures ok_failures { OnOk result (S.failures store.new ≡ S.failures store.old) }
    ensures failed { result ≡ Err Failed → S.failures store.old < S.failures store.new }
    ensures reads { OnlyReads S.Store store.old store.new }
{
    let mut before = end;
    while let Some(n) = roll.last(sought, before) {
        let place = roll.places.at(n);
        let next = place_at(&roll.places, n + 1, roll.end);
        if look_at::<S, L>(store, place, next, key)?.is_some() {
            return Ok(Some(n));
        }
        before = n;
    }
    Ok(None)
}

/// Notes as found the records of a key that do not go, and no others.
///
/// It fails as `last_with_key` does. After a fault some of the records may be noted.
pub(crate) fn find<S: Store, L: Width>(
    store: &mut S,
    roll: &mut Roll<L>,
    sought: u32,
    key: &[u8],
) -> Result<(), LookFault>
    requires hash { sought ≡ sought_in roll.old key.now }
    requires inside { roll.old.end ≤ S.size store.old }
    ensures all { OnOk result (LooksAll key.now roll.new (S.image store.new)) }
    ensures hash { OnOk result (HaveHash sought (searched roll.new) (marks_in roll.new)) }
    ensures same { SameRecords roll.old roll.new }
    ensures tagged { roll.new.tagged ≡ roll.old.tagged }
    ensures gone { gone_of (marks_in roll.new) ≡ gone_of (marks_in roll.old) }
    ensures kept { roll.new.gone ≡ roll.old.gone }
    ensures room { HasRoom roll.old → HasRoom roll.new }
    ensures foreign { result ≡ Err Foreign → SeesNone roll.new (S.image store.new) }
    ensures ok_failures { OnOk result (S.failures store.new ≡ S.failures store.old) }
    ensures failed { result ≡ Err Failed → S.failures store.old < S.failures store.new }
    ensures reads { OnlyReads S.Store store.old store.new }
{
    roll.put_back();
    let mut end = roll.len();
    while let Some(n) = last_with_key::<S, L>(store, roll, sought, key, end)? {
        roll.find(n);
        end = n;
    }
    Ok(())
}
