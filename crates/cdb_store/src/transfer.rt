// Whole reads and writes, made of raw calls that may do a part, be interrupted or fail.
ghost use Rattle.std.specs.Prelude.{◌≡◌, ◌+◌, ◌<◌, ◌≤◌, ◌^◌, false, [], ◌∷◌, length, take};
ghost use Rattle.std.specs.Prelude.{IfOk, IfSome, IfNone, OnOk, OnErr, IsErrOf};
ghost use Rattle.cdb_store.specs.declared.trace.Call.TheVariants.{Read, Wrote, NotWritten, Length};
ghost use Rattle.cdb_store.specs.declared.trace.Call.TheVariants.{Failed, Refused};
ghost use Rattle.cdb_store.specs.declared.store.StoreFault.TheVariants.{NoMemory};
ghost use Rattle.cdb_store.specs.Calls.{lost, failure_count, written_count, Asked};
ghost use Rattle.cdb_store.specs.Calls.{AskedInVain, Came, AfterPut, AfterTornPut, Untouched};
ghost use Rattle.cdb_store.specs.Calls.{IsLost, AreAtLeast, failed_syncs};

use crate::StoreFault;
use crate::raw::{RawFault, RawFile};

/// The number of times that a read or a write is tried in a row if signals interrupt it.
const ASKS: u32 = 1001;

/// Reads some bytes. An interrupted call is made again, up to 1000 times in a row.
fn read_some<F: RawFile>(file: &mut F, pos: u64, into: &mut [u8]) -> Result<usize, StoreFault>
    requires some { 0 < length into.old }
    requires known { lost (F.calls file.old) ≡ false }
    ensures count { IfOk result (λ n. (0 < n) × (n ≤ length into.new)) }
    ensures ok { IfOk result
        (λ n. Asked (Read pos, take n into.new) (F.calls file.old) (F.calls file.new)) }
    ensures err { OnErr result (AskedInVain Failed Refused (F.calls file.old) (F.calls file.new)) }
    ensures memory { IsErrOf result NoMemory → ⊥ }
{
    for _turn in 0..ASKS {
        match file.read_some(pos, into) {
            Ok(n) => return Ok(n),
            Err(RawFault::Failed) => return Err(StoreFault::Device),
            Err(RawFault::Interrupted) => {}
        }
    }
    file.refuse();
    Err(StoreFault::Device)
}

/// Writes some bytes. An interrupted call is made again, up to 1000 times in a row.
fn write_some<F: RawFile>(file: &mut F, pos: u64, bytes: &[u8]) -> Result<usize, StoreFault>
    requires some { 0 < length bytes.now }
    requires known { lost (F.calls file.old) ≡ false }
    ensures count { IfOk result (λ n. (0 < n) × (n ≤ length bytes.now)) }
    ensures ok { IfOk result
        (λ n. Asked (Wrote pos, take n bytes.now) (F.calls file.old) (F.calls file.new)) }
    ensures err { OnErr result
        (AskedInVain (NotWritten pos (length bytes.now)) (NotWritten pos (length bytes.now))
        (F.calls file.old) (F.calls file.new)) }
    ensures memory { IsErrOf result NoMemory → ⊥ }
{
    for _turn in 0..ASKS {
        match file.write_some(pos, bytes) {
            Ok(n) => return Ok(n),
            Err(RawFault::Failed) => return Err(StoreFault::Device),
            Err(RawFault::Interrupted) => {}
        }
    }
    file.give_up(pos, bytes.len() as u64);
    Err(StoreFault::Device)
}

/// Fills `into` with the bytes that start at `pos`.
pub(crate) fn read_all<F: RawFile>(
    file: &mut F,
    pos: u64,
    into: &mut [u8],
) -> Result<(), StoreFault>
    requires end { pos + length into.old < 2 ^ 63 }
    requires known { lost (F.calls file.old) ≡ false }
    ensures ok { OnOk result (Came pos into.new (F.calls file.new)) }
    ensures untouched { Untouched (F.calls file.old) (F.calls file.new) }
    ensures ok_failures { OnOk result
        (failure_count (F.calls file.new) ≡ failure_count (F.calls file.old)) }
    ensures cause { OnErr result
        (failure_count (F.calls file.old) < failure_count (F.calls file.new)) }
    ensures memory { IsErrOf result NoMemory → ⊥ }
{
    let mut done = 0;
    while done < into.len() {
        done += read_some(file, pos + done as u64, &mut into[done..])?;
    }
    Ok(())
}

/// Writes all the bytes at `pos`.
pub(crate) fn write_all<F: RawFile>(file: &mut F, pos: u64, bytes: &[u8]) -> Result<(), StoreFault>
    requires end { pos + length bytes.now < 2 ^ 63 }
    requires inside { AreAtLeast pos (F.calls file.old) }
    requires known { lost (F.calls file.old) ≡ false }
    ensures ok { OnOk result (AfterPut pos bytes.now (F.calls file.old) (F.calls file.new)) }
    ensures ok_written { OnOk result
        (written_count (F.calls file.new) ≡ written_count (F.calls file.old) + length bytes.now) }
    ensures err { OnErr result
        (AfterTornPut pos (length bytes.now) (F.calls file.old) (F.calls file.new)) }
    ensures ok_failures { OnOk result
        (failure_count (F.calls file.new) ≡ failure_count (F.calls file.old)) }
    ensures cause { OnErr result
        (failure_count (F.calls file.old) < failure_count (F.calls file.new)) }
    ensures more_written { written_count (F.calls file.old) ≤ written_count (F.calls file.new) }
    ensures at_most_written { written_count (F.calls file.new)
        ≤ written_count (F.calls file.old) + length bytes.now }
    ensures later { failure_count (F.calls file.old) ≤ failure_count (F.calls file.new) }
    ensures still_known { lost (F.calls file.new) ≡ false }
    ensures syncs { failed_syncs (F.calls file.new) ≡ failed_syncs (F.calls file.old) }
    ensures memory { IsErrOf result NoMemory → ⊥ }
{
    let mut done = 0;
    while done < bytes.len() {
        done += write_some(file, pos + done as u64, &bytes[done..])?;
    }
    Ok(())
}

/// Returns the length that a file reports, if it lies in the range. Else the length is lost.
pub(crate) fn length_within<F: RawFile>(file: &mut F, least: u64, most: u64) -> Option<u64>
    requires { lost (F.calls file.old) ≡ false }
    ensures range { IfSome result (λ n. (least ≤ n) × (n ≤ most)) }
    ensures told { IfSome result (λ n. F.calls file.new ≡ (Length n, []) ∷ F.calls file.old) }
    ensures lost { IfNone result (IsLost least most (F.calls file.old) (F.calls file.new)) }
    ensures syncs { failed_syncs (F.calls file.new) ≡ failed_syncs (F.calls file.old) }
{
    if let Ok(len) = file.length() {
        if least <= len && len <= most {
            return Some(len);
        }
    }
    file.lose(least, most);
    None
}
