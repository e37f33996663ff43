// Bytes copied into memory that is there.
ghost use Rattle.std.specs.Prelude.{◌≡◌, ◌+◌, ◌++◌, ◌≤◌, OnOk, drop, length, take};
ghost use Rattle.cdb_form.specs.Format.{AreBytes};

use std::alloc::AllocError;
use std::simd::prelude::*;

/// From how many bytes on a call of the library copies faster than a loop here.
const MANY: usize = 256;

/// Copies bytes over what a vector holds. If the lengths are equal, it does not look at the
/// vector's room.
#[inline(always)]
pub(crate) fn copy_over(bytes: &[u8], into: &mut Vec<u8>) -> Result<(), AllocError>
    ensures holds { OnOk result (into.new.items ≡ bytes.now) }
    ensures are { AreBytes into.new.items }
{
    if into.len() == bytes.len() {
        into.copy_from_slice(bytes);
        return Ok(());
    }
    into.clear();
    into.extend_from_slice(bytes)
}

/// Copies 64 bytes.
#[inline(always)]
fn copy_64(from: &[u8], into: &mut [u8])
    requires from { 64 ≤ length from.now }
    requires into { 64 ≤ length into.old }
    ensures { into.new ≡ take 64 from.now ++ drop 64 into.old }
{
    u8x32::from_slice(from).copy_to_slice(into);
    u8x32::from_slice(&from[32..]).copy_to_slice(&mut into[32..]);
}

/// Copies `len` bytes, and up to 64 after them if they are few.
#[inline(always)]
pub(crate) fn copy_past(from: &[u8], into: &mut [u8], len: usize)
    requires from { len + 64 ≤ length from.now }
    requires into { len + 64 ≤ length into.old }
    ensures { take len into.new ≡ take len from.now }
{
    if MANY < len {
        into[..len].copy_from_slice(&from[..len]);
        return;
    }
    copy_64(from, into);
    let mut done = 64;
    while done < len {
        copy_64(&from[done..], &mut into[done..]);
        done += 64;
    }
}

/// Copies `len` bytes, and up to 16 after them.
#[inline(always)]
pub(crate) fn copy_short(from: &[u8], into: &mut [u8], len: usize)
    requires from { len + 16 ≤ length from.now }
    requires into { len + 16 ≤ length into.old }
    ensures { take len into.new ≡ take len from.now }
{
    u8x16::from_slice(from).copy_to_slice(into);
    let mut done = 16;
    while done < len {
        u8x16::from_slice(&from[done..]).copy_to_slice(&mut into[done..]);
        done += 16;
    }
}
