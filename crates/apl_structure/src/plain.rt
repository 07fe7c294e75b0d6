ghost use Rattle.std.specs.Prelude.{◌≡◌, pos, IfOk, map};
ghost use Rattle.apl_items.specs.Answers.{Answers};
ghost use Rattle.apl_structure.specs.Plain.{ravel_of, shape_of};

use apl_arrays::{Array, Fail, Items, List, NumberList, WantOfMemory};
use std::alloc::Global;

/// The shape of an array, as a vector. It takes memory for it. ISO 8485.
pub fn shape_of(alloc: Global, b: &Array) -> Result<Array, Fail>
    ensures { Answers result (shape_of b.now) }
{
    let shape = b.shape();
    let axes = numbers_of(alloc, shape)?;
    Ok(Array::shaped(
        alloc,
        &[shape.len() as u32],
        Items::Numbers(NumberList::from(axes)),
    )?)
}

/// The axes of a shape as numbers.
fn numbers_of(alloc: Global, shape: &[u32]) -> Result<List<i64>, WantOfMemory>
    ensures { IfOk result (λ list. list.items ≡ map (λ axis. pos axis) shape.now) }
{
    let mut numbers = List::new(alloc);
    numbers.reserve(shape.len())?;
    for axis in shape {
        numbers.push_reserved(i64::from(*axis));
    }
    Ok(numbers)
}

/// All items of an array, as a vector. It takes memory for it. ISO 8485.
pub fn ravel(alloc: Global, b: &Array) -> Result<Array, Fail>
    ensures { Answers result (ravel_of b.now) }
{
    let items = b.items();
    let count = items.len();
    let all = items.copy(alloc)?;
    Ok(Array::shaped(alloc, &[count as u32], all)?)
}
