ghost use Rattle.std.specs.Prelude.{◌≡◌, ◌+◌, ◌<◌, ◌≤◌, ◌^◌, ◌++◌, length};
ghost use Rattle.apl_arrays.specs.Array.{FitsLimits, element_count};
ghost use Rattle.apl_arrays.specs.Limits.{most_axes};
ghost use Rattle.apl_items.specs.Answers.{first_report, shape_faults};

use apl_arrays::{RANK_LIMIT, Report, ShapeFault, count_of_elements, shape_fault};
use arrayvec::ArrayVec;

/// A shape seen from one of its axes: how many rows stand before it, how long it is, and how many items each of its
/// places has.
#[derive(Clone, Copy, Debug, PartialEq, Eq, Hash)]
pub struct Split {
    pub outer: usize,
    pub along: usize,
    pub inner: usize,
}

impl Split {
    ghost use Rattle.apl_items.specs.Shapes.{place_along, split_at, split_count};

    /// A shape that has elements, seen from one of its axes.
    pub fn at(shape: &[u32], axis: usize) -> Split
        requires fits { FitsLimits shape.now }
        requires elements { 0 < element_count shape.now }
        requires axis { axis < length shape.now }
        ensures { result ≡ split_at shape.now axis }
    {
        Split {
            outer: count_of_elements(&shape[..axis]),
            along: shape[axis] as usize,
            inner: count_of_elements(&shape[axis + 1..]),
        }
    }

    /// The place of a row, of a place along the axis, and of an item there.
    pub fn place(self, outer: usize, along: usize, inner: usize) -> usize
        requires outer { outer < self.outer }
        requires along { along < self.along }
        requires inner { inner < self.inner }
        requires fits { split_count self < 2 ^ 64 }
        ensures value { result ≡ place_along self outer along inner }
        ensures below { result < split_count self }
    {
        let row = outer * self.along + along;
        row * self.inner + inner
    }
}

/// The report of a result of this shape: RANK where it has too many axes, WS FULL where it is too large.
pub fn shape_report(shape: &[u32]) -> Option<Report>
    ensures { result ≡ first_report (shape_faults shape.now) }
{
    match shape_fault(shape) {
        Some(ShapeFault::Rank) => Some(Report::Rank),
        Some(ShapeFault::Size) => Some(Report::WsFull),
        None => None,
    }
}

/// The axes of one shape, and then those of another.
pub fn joined_shape(front: &[u32], back: &[u32]) -> ArrayVec<u32, RANK_LIMIT>
    requires { length front.now + length back.now ≤ most_axes }
    ensures { result.items ≡ front.now ++ back.now }
{
    let mut axes = ArrayVec::new();
    axes.try_extend_from_slice(front).unwrap();
    axes.try_extend_from_slice(back).unwrap();
    axes
}
