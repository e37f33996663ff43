// Uses of a store, as a caller writes them. `README.md` of `cdb_store` shows the first.
ghost use Rattle.std.specs.Prelude.{◌≡◌, ◌+◌, ◌<◌, ◌≤◌, ◌^◌, ℕ, List, length, OnOk, IfOk, IsErrOf};
ghost use Rattle.cdb_store.specs.declared.store.StoreFault.TheVariants.{NoMemory};
ghost use Rattle.cdb_store.specs.Images.{SameImages, ImagesHold, StaysHeld};

use super::support::buffered::buffered;
use cdb_store::{FileStore, MemStore, Store, StoreFault};
use std::test::Fail;

/// Writes some bytes at the end of a store, and answers their place.
///
/// Whatever the answer, what the store held it still holds.
fn append<S: Store>(store: &mut S, bytes: &[u8]) -> Result<u64, StoreFault>
    requires { S.size store.old + length bytes.now < 2 ^ 63 }
    ensures appended { IfOk result (λ pos. ImagesHold pos bytes.now (S.image store.new)) }
    ensures kept { (pos : ℕ) (held : List ℕ) → pos + length held ≤ S.size store.old
        → StaysHeld pos held (S.image store.old) (S.image store.new) }
    ensures counted { OnOk result (S.written store.new ≡ S.written store.old + length bytes.now) }
    ensures memory { IsErrOf result NoMemory → SameImages (S.image store.old) (S.image store.new) }
{
    let end = store.len();
    store.write_at(end, bytes)?;
    Ok(end)
}

/// Writes some bytes at the end, so that a loss of power does not take them.
fn append_for_good<S: Store>(store: &mut S, bytes: &[u8]) -> Result<u64, StoreFault>
    requires { S.size store.old + length bytes.now < 2 ^ 63 }
    ensures appended { IfOk result (λ pos. ImagesHold pos bytes.now (S.image store.new)) }
    ensures settled { OnOk result (S.settled store.new) }
{
    let pos = append(store, bytes)?;
    store.flush()?;
    Ok(pos)
}

#[test]
fn bytes_are_appended(rt: HostRuntime) -> Result<(), Fail> {
    let mut store = MemStore::from_vec(b"ab".to_vec(rt.alloc())?);
    assert!(rt; store.len() < 1 << 32);
    let pos = append(&mut store, b"cd")?;
    assert!(rt; pos == 2 && store.bytes() == b"abcd".as_slice());
    Ok(())
}

#[test]
fn bytes_are_appended_for_good(rt: HostRuntime) -> Result<(), Fail> {
    let file = FileStore::create(&rt, "appended.store")?;
    let mut store = buffered(rt.alloc(), file, 4096)?;
    assert!(rt; store.len() < 1 << 32);
    assert!(rt; append_for_good(&mut store, b"ab")? == 0);
    Ok(())
}
