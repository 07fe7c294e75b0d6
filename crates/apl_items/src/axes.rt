ghost use Rattle.std.specs.Prelude.{◌≡◌, ◌+◌, ◌*◌, ◌^◌, ◌<◌, ◌≤◌, ◌++◌, ℕ, Option, Some, IfOk, IfSome, length, vec_len, vec_capacity};
ghost use Rattle.apl_arrays.specs.Array.{seen_items, FitsLimits, element_count, item_count, plain_items};
ghost use Rattle.apl_items.specs.Axes.{AreNoLonger, added, offset_at, source_by_axes};
ghost use Rattle.apl_items.specs.Moves.{IsWithin, moved_items, moved_list};
ghost use Rattle.apl_items.specs.Shapes.{coordinates_of};

use crate::loops::room_for;
use crate::moves::item_at_source;
use apl_arrays::{Glyph, Items, ItemsRef, List, NumberList, WantOfMemory, count_of_elements};
use std::alloc::Global;

/// Where the places along each axis of a result come from. The source place for an item is the sum of the offsets along
/// all axes, and an item is filled where one of them is none.
pub trait Axes {
    // How long an axis is.
    ghost length_of: { Self → ℕ → ℕ };

    // The offset of a place along an axis, or none where it is filled.
    ghost offset: { Self → ℕ → ℕ → Option ℕ };

    /// The offset of a place along an axis, of 32 bits, or `None` where it is filled.
    fn offset(&self, axis: usize, along: usize) -> Option<usize>
        requires { along < length_of self.now axis }
        ensures value { result ≡ offset self.now axis along }
        ensures small { IfSome result (λ from. from < 2 ^ 32) };
}

/// The items of a result of a shape, each from the sum of its offsets along the axes, or the fill, 0 or the blank. They
/// are made row by row, and the kind is chosen once. It asks once for memory, for the items.
pub fn moved_by_axes<X: Axes>(
    alloc: Global,
    items: ItemsRef<'_>,
    shape: &[u32],
    axes: &X,
) -> Result<Items, WantOfMemory>
    requires fits { FitsLimits shape.now }
    requires lengths { AreNoLonger shape.now 0 (X.length_of axes.now) }
    requires within { IsWithin (source_by_axes shape.now (X.offset axes.now)) (element_count shape.now) (item_count (seen_items items)) }
    ensures { IfOk result (λ made. plain_items made ≡ moved_items (seen_items items.entry) (element_count shape.now) (source_by_axes shape.now (X.offset axes.now))) }
{
    match items {
        ItemsRef::Numbers(list) => {
            let made = list_by_axes(alloc, list, 0, shape, axes)?;
            Ok(Items::Numbers(NumberList::from(made)))
        }
        ItemsRef::Chars(list) => {
            let made = list_by_axes(alloc, list, Glyph::BLANK, shape, axes)?;
            Ok(Items::Chars(made))
        }
    }
}

/// The items of a list for a result of a shape, each from the sum of its offsets along the axes, or the fill.
fn list_by_axes<T: Copy + Drop, X: Axes>(
    alloc: Global,
    list: &[T],
    fill: T,
    shape: &[u32],
    axes: &X,
) -> Result<List<T>, WantOfMemory>
    requires fits { FitsLimits shape.now }
    requires lengths { AreNoLonger shape.now 0 (X.length_of axes.now) }
    requires within { IsWithin (source_by_axes shape.now (X.offset axes.now)) (element_count shape.now) (length list.now) }
    ensures { IfOk result (λ made. made.items ≡ moved_list fill list.now (element_count shape.now) (source_by_axes shape.now (X.offset axes.now))) }
{
    let mut made = room_for(alloc, count_of_elements(shape))?;
    push_axes(&mut made, list, fill, shape, 0, Some(0), axes);
    Ok(List::from(made))
}

/// Adds the items of the axes from one on, each from its offset beyond a base, or the fill: of the last axis in a loop, and
/// of another by a call for each of its places.
fn push_axes<T: Copy + Drop, X: Axes>(
    made: &mut Vec<T>,
    list: &[T],
    fill: T,
    shape: &[u32],
    axis: usize,
    base: Option<usize>,
    axes: &X,
)
    requires room { vec_len made.old + element_count shape.now ≤ vec_capacity made.old }
    requires lengths { AreNoLonger shape.now axis (X.length_of axes.now) }
    requires bound { (from : ℕ) → base ≡ Some from → from + length shape.now * 2 ^ 32 < 2 ^ 64 }
    requires axis { axis + length shape.now < 2 ^ 64 }
    requires within { IsWithin (λ place. added base (offset_at (X.offset axes.now) axis (coordinates_of shape.now place))) (element_count shape.now) (length list.now) }
    ensures items { made.new.items ≡ made.old.items ++ moved_list fill list.now (element_count shape.now) (λ place. added base (offset_at (X.offset axes.now) axis (coordinates_of shape.now place))) }
    ensures len { vec_len made.new ≡ vec_len made.old + element_count shape.now }
    ensures room { vec_capacity made.new ≡ vec_capacity made.old }
{
    match shape.split_first() {
        None => made.push_reserved(item_at_source(list, base, fill)),
        Some((first, rest)) => {
            if rest.is_empty() {
                push_last(made, list, fill, *first as usize, axis, base, axes);
                return;
            }
            for along in 0..*first as usize {
                let beyond = together(base, axes.offset(axis, along));
                push_axes(made, list, fill, rest, axis + 1, beyond, axes);
            }
        }
    }
}

/// Adds so many items of the last axis, each from its offset beyond a base, or the fill.
fn push_last<T: Copy + Drop, X: Axes>(
    made: &mut Vec<T>,
    list: &[T],
    fill: T,
    count: usize,
    axis: usize,
    base: Option<usize>,
    axes: &X,
)
    requires room { vec_len made.old + count ≤ vec_capacity made.old }
    requires length { count ≤ X.length_of axes.now axis }
    requires bound { (from : ℕ) → base ≡ Some from → from + 2 ^ 32 < 2 ^ 64 }
    requires within { IsWithin (λ along. added base (X.offset axes.now axis along)) count (length list.now) }
    ensures items { made.new.items ≡ made.old.items ++ moved_list fill list.now count (λ along. added base (X.offset axes.now axis along)) }
    ensures len { vec_len made.new ≡ vec_len made.old + count }
    ensures room { vec_capacity made.new ≡ vec_capacity made.old }
{
    for along in 0..count {
        let source = together(base, axes.offset(axis, along));
        made.push_reserved(item_at_source(list, source, fill));
    }
}

/// Two offsets together, where both are there.
fn together(base: Option<usize>, offset: Option<usize>) -> Option<usize>
    requires { (a b : ℕ) → base ≡ Some a → offset ≡ Some b → a + b < 2 ^ 64 }
    ensures { result ≡ added base offset }
{
    Some(base? + offset?)
}
