// Room for one more item in a vector.
ghost use Rattle.std.specs.Prelude.{◌≡◌, ◌+◌, ◌/◌, ◌<◌, ◌≤◌, ◌⊎◌, length, vec_capacity, OnOk, OnErr};

use std::alloc::AllocError;

/// The least number of items that a growth makes room for.
const LEAST: usize = 64;

/// Makes room for a quarter more items than there are, and for `LEAST` more.
#[cold]
#[inline(never)]
fn grow<T: Copy>(items: &mut Vec<T>) -> Result<(), AllocError>
    requires { vec_capacity items.old ≤ length items.old.items }
    ensures items { items.new.items ≡ items.old.items }
    ensures ok { OnOk result
        (length items.new.items + length items.new.items / 4 < vec_capacity items.new) }
    ensures room { vec_capacity items.old ≤ vec_capacity items.new }
{
    items.reserve_exact(items.len() / 4 + LEAST)
}

/// Makes room for one more item: if there is none, for a quarter more than there are. So at most
/// about a fifth of a long vector is spare. If an allocation fails, nothing has changed.
#[inline(always)]
pub(crate) fn reserve_one<T: Copy>(items: &mut Vec<T>) -> Result<(), AllocError>
    ensures items { items.new.items ≡ items.old.items }
    ensures ok { OnOk result (length items.new.items < vec_capacity items.new) }
    ensures quarter { OnOk result ((length items.old.items < vec_capacity items.old)
        ⊎ (length items.new.items + length items.new.items / 4 < vec_capacity items.new)) }
    ensures full { OnErr result (vec_capacity items.old ≤ length items.old.items) }
    ensures room { vec_capacity items.old ≤ vec_capacity items.new }
{
    if items.len() < items.capacity() {
        return Ok(());
    }
    grow(items)
}
