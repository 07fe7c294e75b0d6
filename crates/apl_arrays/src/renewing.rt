ghost use Rattle.std.specs.Prelude.{◌≡◌, Some, IsSome, IsOk, OnOk, OnErr};
ghost use Rattle.apl_arrays.specs.Storage.{lone_number};

use crate::{Array, WantOfMemory};
use std::alloc::Global;

/// A value that may be missing becomes equal to another. It takes no memory where the other is the scalar of a number, or
/// where a value is there that is none and has items of the other's kind and as many; else it may take memory for the other.
/// `WantOfMemory` leaves it as it was.
pub fn renew_value(
    alloc: Global,
    held: &mut Option<Array>,
    value: &Array,
) -> Result<(), WantOfMemory>
    ensures ok { OnOk result (held.new ≡ Some value.now) }
    ensures err { OnErr result (held.new ≡ held.old) }
    ensures granted { IsSome (lone_number value.now.shape value.now.items) → IsOk result }
{
    match held {
        Some(array) => array.renew(alloc, value),
        None => {
            *held = Some(value.copy(alloc)?);
            Ok(())
        }
    }
}
