// Room for one item more, made before anything is done that can't be taken back.
ghost use Rattle.std.specs.Prelude.{◌≡◌, ◌<◌, ◌+◌, ◌++◌, [], ◌∷◌, ◌^◌, OnOk, vec_len, vec_capacity};

use px_value::NoMemory;
use std::alloc::AllocError;

/// Makes room for one more, of which there may be 2^32 - 1 in all.
pub(crate) fn make_room<T>(items: &mut Vec<T>) -> Result<(), NoMemory>
    ensures same { items.new.items ≡ items.old.items }
    ensures room { OnOk result (vec_len items.new < vec_capacity items.new) }
    ensures few { OnOk result (vec_len items.new + 1 < 2 ^ 32) }
{
    if items.len() >= u32::MAX as usize {
        return Err(AllocError);
    }
    items.reserve(1)
}

/// Appends an item that has room.
pub(crate) fn push_in_room<T: Drop>(items: &mut Vec<T>, item: T)
    requires { vec_len items.old < vec_capacity items.old }
    ensures { items.new.items ≡ items.old.items ++ item ∷ [] }
{
    if items.push(item).is_err() {
        unreachable!();
    }
}
