// A buffered store, for the tests in which memory for it is there.
use cdb_store::{BufferedStore, Store};
use std::alloc::Global;
use std::test::Fail;

/// A buffer of so many bytes over a store.
pub fn buffered<S: Store + Drop>(
    alloc: Global,
    inner: S,
    capacity: usize,
) -> Result<BufferedStore<S>, Fail> {
    match BufferedStore::new(alloc, inner, capacity) {
        Ok(store) => Ok(store),
        Err(_) => Err(Fail::new("no memory for a buffer")),
    }
}
