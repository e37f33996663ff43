// Bytes in memory, read and overwritten at a position.
ghost use Rattle.std.specs.Prelude.{◌≡◌, ◌+◌, ◌<◌, ◌≤◌, ◌^◌, ◌++◌, length, OnOk, OnErr, vec_len};
ghost use Rattle.std.specs.Prelude.{vec_capacity};
ghost use Rattle.cdb_store.specs.Images.{overwrite, part};

use std::alloc::AllocError;

/// Writes `new` at `pos`, over the bytes that are there and past the end.
pub(crate) fn write_over(bytes: &mut Vec<u8>, pos: usize, new: &[u8]) -> Result<(), AllocError>
    requires start { pos ≤ vec_len bytes.old }
    requires end { pos + length new.now < 2 ^ 63 }
    ensures ok { OnOk result (bytes.new.items ≡ overwrite bytes.old.items pos new.now) }
    ensures err { OnErr result (bytes.new.items ≡ bytes.old.items) }
    ensures full { OnErr result (vec_capacity bytes.old < pos + length new.now) }
    ensures err_capacity { OnErr result (vec_capacity bytes.new ≡ vec_capacity bytes.old) }
    ensures capacity { vec_capacity bytes.old ≤ vec_capacity bytes.new }
{
    let inside = new.len().min(bytes.len() - pos);
    bytes.reserve(new.len() - inside)?;
    bytes.extend_from_slice(&new[inside..])?;
    if inside > 0 {
        bytes[pos..pos + inside].copy_from_slice(&new[..inside]);
    }
    Ok(())
}

/// Fills `into` with three pieces, one after another.
#[inline(always)]
pub(crate) fn join(first: &[u8], second: &[u8], third: &[u8], into: &mut [u8])
    requires { length into.old ≡ length first.now + length second.now + length third.now }
    ensures { into.new ≡ first.now ++ (second.now ++ third.now) }
{
    let (front, rest) = into.split_at_mut(first.len());
    let (middle, back) = rest.split_at_mut(second.len());
    front.copy_from_slice(first);
    middle.copy_from_slice(second);
    back.copy_from_slice(third);
}

/// Writes three pieces, one after another, at `pos`, over the bytes that are there and past the
/// end.
pub(crate) fn write_parts_over(
    bytes: &mut Vec<u8>,
    pos: usize,
    first: &[u8],
    second: &[u8],
    third: &[u8],
) -> Result<(), AllocError>
    requires start { pos ≤ vec_len bytes.old }
    requires end { pos + length (first.now ++ (second.now ++ third.now)) < 2 ^ 63 }
    ensures ok { OnOk result (bytes.new.items
        ≡ overwrite bytes.old.items pos (first.now ++ (second.now ++ third.now))) }
    ensures err { OnErr result (bytes.new.items ≡ bytes.old.items) }
    ensures full { OnErr result
        (vec_capacity bytes.old < pos + length (first.now ++ (second.now ++ third.now))) }
    ensures err_capacity { OnErr result (vec_capacity bytes.new ≡ vec_capacity bytes.old) }
    ensures capacity { vec_capacity bytes.old ≤ vec_capacity bytes.new }
{
    let end = pos + first.len() + second.len() + third.len();
    if bytes.len() < end {
        bytes.reserve(end - bytes.len())?;
        bytes.resize(end, 0)?;
    }
    join(first, second, third, &mut bytes[pos..end]);
    Ok(())
}

/// Fills `into` with the bytes that start at `pos`.
pub(crate) fn read_from(bytes: &[u8], pos: usize, into: &mut [u8])
    requires { pos + length into.old ≤ length bytes.now }
    ensures { into.new ≡ part pos (length into.new) bytes.now }
{
    into.copy_from_slice(&bytes[pos..pos + into.len()]);
}
