// A script of calls, each of which is called once again if it fails.
use cdb_store::{Store, StoreFault};

/// What a script met.
#[derive(Drop)]
pub struct Outcome {
    /// The number of calls that failed.
    pub failed: u64,
    /// True if each call that was called again answered Ok, or a flush as it should, and each read
    /// gave the right bytes.
    pub is_right: bool,
}

impl Outcome {
    /// Notes how a call went at first, and whether it was right at last.
    fn note(&mut self, first: Result<(), StoreFault>, is_right: bool) {
        if first.is_err() {
            self.failed = self.failed.saturating_add(1);
        }
        self.is_right = self.is_right && is_right;
    }
}

/// Writes, and again if that fails.
fn write<S: Store>(store: &mut S, pos: u64, bytes: &[u8], outcome: &mut Outcome) {
    if pos > store.len() || pos > 1 << 32 || bytes.len() > 4096 {
        outcome.is_right = false;
        return;
    }
    let first = store.write_at(pos, bytes);
    let is_right = first.is_ok() || store.write_at(pos, bytes).is_ok();
    outcome.note(first, is_right);
}

/// Reads from the start, and again if that fails.
fn read<S: Store>(store: &mut S, want: &[u8], outcome: &mut Outcome) {
    let mut into = [0; 64];
    let n = want.len();
    if n > 64 || n as u64 > store.len() {
        outcome.is_right = false;
        return;
    }
    let first = store.read_at(0, &mut into[..n]);
    let is_right = first.is_ok() || store.read_at(0, &mut into[..n]).is_ok();
    outcome.note(first, is_right && &into[..n] == want);
}

/// Cuts, and again if that fails.
fn cut<S: Store>(store: &mut S, len: u64, outcome: &mut Outcome) {
    if len > store.len() {
        outcome.is_right = false;
        return;
    }
    let first = store.cut(len);
    let is_right = first.is_ok() || store.cut(len).is_ok();
    outcome.note(first, is_right && store.len() == len);
}

/// Flushes, and again if that fails: then a flush succeeds if a failed one can be made good.
fn flush<S: Store>(store: &mut S, heals: bool, outcome: &mut Outcome) {
    let first = store.flush();
    let is_right = first.is_ok() || store.flush().is_ok() == heals;
    outcome.note(first, is_right);
}

/// Writes over what was written and past it, cuts, flushes and reads. It leaves `abXYZfghij`. A
/// flush after a failed one succeeds if the store `heals`.
pub fn script<S: Store>(store: &mut S, heals: bool) -> Outcome {
    let mut outcome = Outcome {
        failed: 0,
        is_right: true,
    };
    write(store, 0, b"abcdefg", &mut outcome);
    write(store, 7, b"hi", &mut outcome);
    write(store, 9, b"jklmn", &mut outcome);
    write(store, 2, b"XY", &mut outcome);
    write(store, 4, b"Z", &mut outcome);
    read(store, b"abXYZfghijklmn", &mut outcome);
    cut(store, 10, &mut outcome);
    flush(store, heals, &mut outcome);
    read(store, b"abXYZfghij", &mut outcome);
    outcome
}
