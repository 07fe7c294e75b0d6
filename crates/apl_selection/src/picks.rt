ghost use Rattle.std.specs.Prelude.{◌≡◌, ◌<◌, ℕ, Option, None, IfOk, length};
ghost use Rattle.apl_arrays.specs.Array.{FitsLimits, element_count, item_count, plain_items, seen_items};
ghost use Rattle.apl_items.specs.Axes.{source_by_axes};
ghost use Rattle.apl_items.specs.Moves.{moved_items};
ghost use Rattle.apl_selection.specs.Picks.{PicksWithin, picked, strided};

use crate::strides::{scaled, stride_in, strides_of};
use apl_arrays::{Array, Items, ItemsRef, WantOfMemory, count_of_elements};
use apl_items::{Axes, Walk, moved, moved_by_axes};
use std::alloc::Global;

/// Where the places along each axis of a result come from, each axis by itself.
pub trait Picks {
    // The place along the source's axis for a place along an axis of the result, or none where it is filled.
    ghost from: { Self → ℕ → ℕ → Option ℕ };

    /// The place along the source's axis, or `None` where it is filled.
    fn from(&self, axis: usize, along: usize) -> Option<usize>
        requires { along < 16384 }
        ensures { result ≡ from self.now axis along };
}

/// The array of a shape whose items are picked from a source along each axis, or filled. It takes memory for the result
/// and for strides.
pub fn picked<P: Picks>(
    alloc: Global,
    items: ItemsRef<'_>,
    source: &[u32],
    shape: &[u32],
    picks: &P,
) -> Result<Array, WantOfMemory>
    requires fits { FitsLimits shape.now }
    requires source { FitsLimits source.now }
    requires whole { element_count source.now ≡ item_count (seen_items items) }
    requires rank { length source.now ≡ length shape.now }
    requires inside { PicksWithin (P.from picks.now) shape.now source.now }
    ensures { IfOk result (λ array. array ≡ picked shape.now source.now (seen_items items.entry) (P.from picks.now)) }
{
    let made = picked_items(alloc, items, source, shape, picks)?;
    Array::shaped(alloc, shape, made)
}

/// The items that are picked from a source along each axis, or filled.
pub(crate) fn picked_items<P: Picks>(
    alloc: Global,
    items: ItemsRef<'_>,
    source: &[u32],
    shape: &[u32],
    picks: &P,
) -> Result<Items, WantOfMemory>
    requires fits { FitsLimits shape.now }
    requires source { FitsLimits source.now }
    requires whole { element_count source.now ≡ item_count (seen_items items) }
    requires rank { length source.now ≡ length shape.now }
    requires inside { PicksWithin (P.from picks.now) shape.now source.now }
    ensures { IfOk result (λ made. plain_items made ≡ moved_items (seen_items items.entry) (element_count shape.now) (source_by_axes shape.now (strided source.now (P.from picks.now)))) }
{
    if items.is_empty() {
        return filled(alloc, items, count_of_elements(shape));
    }
    let strides = strides_of(alloc, source)?;
    let axes = Strided {
        picks,
        strides: strides.as_slice(),
    };
    moved_by_axes(alloc, items, shape, &axes)
}

/// Picked places, with the strides of the source.
#[derive(Drop)]
struct Strided<'a, P> {
    picks: &'a P,
    strides: &'a [u16],
}

impl<P: Picks> Axes for Strided<'_, P> {
    ghost use Rattle.std.specs.Prelude.{◌*◌, min, option_map, slice_index};

    ghost length_of = { λ _ _. 16384 };

    ghost offset = { λ s axis along. option_map (λ place. min place 65535 * slice_index s.strides.now axis) (P.from s.picks.now axis along) };

    // A place along an axis is below 16,384.
    fn offset(&self, axis: usize, along: usize) -> Option<usize> {
        let place = self.picks.from(axis, along)?.min(65_535);
        Some(scaled(place, stride_in(self.strides, axis)))
    }
}

/// So many fills, of the kind of these items.
pub fn filled(alloc: Global, items: ItemsRef<'_>, count: usize) -> Result<Items, WantOfMemory>
    ensures { IfOk result (λ made. plain_items made ≡ moved_items (seen_items items.entry) count (λ _. None)) }
{
    moved(alloc, items, count, Nowhere { left: count })
}

/// A walk over places that are all filled.
#[derive(Drop)]
struct Nowhere {
    left: usize,
}

impl Walk for Nowhere {
    ghost use Rattle.std.specs.Prelude.{None};

    ghost left = { λ w. w.left };

    ghost source = { λ _ _. None };

    fn advance(&mut self) -> Option<usize> {
        self.left -= 1;
        None
    }
}
