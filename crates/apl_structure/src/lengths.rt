ghost use Rattle.std.specs.Prelude.{◌≡◌, ◌≤◌, is_some, length, min, unsigned_abs};
ghost use Rattle.apl_arrays.specs.Limits.{most_axes};
ghost use Rattle.apl_arrays.specs.Shape.{shape_fault};
ghost use Rattle.apl_structure.specs.Lengths.{capped_lengths, lengths};

use apl_arrays::{ELEMENT_LIMIT, RANK_LIMIT, shape_fault};
use arrayvec::ArrayVec;

/// The magnitudes of numbers as the lengths of axes, but of those that no axis may have the least, which is too long too.
pub(crate) fn capped(numbers: &[i64]) -> ArrayVec<u32, RANK_LIMIT>
    requires { length numbers.now ≤ most_axes }
    ensures { result.items ≡ capped_lengths numbers.now }
{
    let mut shape = ArrayVec::new();
    for number in numbers {
        shape.push(capped_length(*number));
    }
    shape
}

/// The magnitude of a number, but of those that no axis may have the least.
fn capped_length(number: i64) -> u32
    ensures { result ≡ min (unsigned_abs number) 16385 }
{
    number.unsigned_abs().min(ELEMENT_LIMIT as u64 + 1) as u32
}

/// Whether an array of these lengths would pass the limits, told from the capped ones.
pub(crate) fn pass_limits(numbers: &[i64], shape: &[u32]) -> bool
    requires { shape.now ≡ capped_lengths numbers.now }
    ensures { result ≡ is_some (shape_fault (lengths numbers.now)) }
{
    shape_fault(shape).is_some()
}
