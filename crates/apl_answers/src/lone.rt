ghost use Rattle.std.specs.Prelude.{◌≡◌, IfSome};
ghost use Rattle.apl_arrays.specs.Array.{scalar};

use apl_arrays::{Array, ItemsRef};

/// The number of which an array is the scalar.
pub fn lone_number(array: &Array) -> Option<i64>
    ensures { IfSome result (λ number. array.now ≡ scalar number) }
{
    match (array.shape(), array.items()) {
        ([], ItemsRef::Numbers([number])) => Some(*number),
        _ => None,
    }
}
