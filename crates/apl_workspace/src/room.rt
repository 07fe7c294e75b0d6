ghost use Rattle.std.specs.Prelude.{◌≡◌, ◌+◌, ◌≤◌, OnOk, vec_capacity, vec_len};

use apl_arrays::WantOfMemory;

/// Makes room for one more, and takes memory for it. The items stay.
pub fn reserve_one<T>(list: &mut Vec<T>) -> Result<(), WantOfMemory>
    ensures items { list.new.items ≡ list.old.items }
    ensures room { OnOk result (vec_len list.new + 1 ≤ vec_capacity list.new) }
{
    list.reserve(1)?;
    Ok(())
}
