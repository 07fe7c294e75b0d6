ghost use Rattle.std.specs.Prelude.{◌≡◌, ◌<◌, IfOk, length, slice_index};
ghost use Rattle.apl_structure.specs.Moves.{moved_on};

use apl_arrays::{Array, WantOfMemory};
use apl_items::{Along, moved_along};
use std::alloc::Global;

/// An array whose items moved along one of its axes.
pub(crate) fn moved_on<R: Along>(
    alloc: Global,
    b: &Array,
    axis: usize,
    rule: &R,
) -> Result<Array, WantOfMemory>
    requires axis { axis < length b.now.shape }
    requires long { R.length rule.now ≡ slice_index b.now.shape axis }
    ensures { IfOk result (λ array. array ≡ moved_on b.now axis (R.from rule.now)) }
{
    let shape = b.shape();
    let items = moved_along(alloc, b.items(), shape, axis, rule)?;
    Array::shaped(alloc, shape, items)
}
