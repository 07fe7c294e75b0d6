ghost use Rattle.std.specs.Prelude.{◌≡◌, ◌+◌, ◌*◌, ◌/◌, ◌%◌, ◌^◌, ◌<◌, ◌≤◌, ◌++◌, ℕ, Option, IfOk, IfSome, length, vec_len, vec_capacity};
ghost use Rattle.apl_arrays.specs.Array.{seen_items, FitsLimits, element_count, item_count, plain_items};
ghost use Rattle.apl_items.specs.Along.{source_along, source_count, source_in_row};
ghost use Rattle.apl_items.specs.Moves.{moved_items, moved_list};
ghost use Rattle.apl_items.specs.Shapes.{split_at, split_count};

use crate::loops::room_for;
use crate::moves::item_at_source;
use crate::shapes::Split;
use apl_arrays::{Glyph, Items, ItemsRef, List, NumberList, WantOfMemory, count_of_elements};
use std::alloc::Global;

/// Where the places along one axis of a result come from, for each line along that axis.
pub trait Along {
    // How long the axis of the source is.
    ghost length: { Self → ℕ };

    // Where along the source's axis a place along a line comes from, or none where it is filled.
    ghost from: { Self → ℕ → ℕ → Option ℕ };

    /// How long the axis of the source is.
    fn length(&self) -> usize
        ensures { result ≡ length self.now };

    /// Where along the source's axis a place along a line comes from, or `None` where it is filled.
    fn from(&self, line: usize, along: usize) -> Option<usize>
        ensures value { result ≡ from self.now line along }
        ensures inside { IfSome result (λ place. place < length self.now) };
}

/// The items of a result of a shape, each from the place along the source's axis that a rule tells for its line, or the
/// fill, 0 or the blank. The kind is chosen once. It asks once for memory, for the items.
pub fn moved_along<R: Along>(
    alloc: Global,
    items: ItemsRef<'_>,
    shape: &[u32],
    axis: usize,
    rule: &R,
) -> Result<Items, WantOfMemory>
    requires fits { FitsLimits shape.now }
    requires axis { axis < length shape.now }
    requires whole { source_count (split_at shape.now axis) (R.length rule.now) ≡ item_count (seen_items items) }
    ensures { IfOk result (λ made. plain_items made ≡ moved_items (seen_items items.entry) (element_count shape.now) (source_along (split_at shape.now axis) (R.length rule.now) (R.from rule.now))) }
{
    match items {
        ItemsRef::Numbers(list) => {
            let made = list_along(alloc, list, 0, shape, axis, rule)?;
            Ok(Items::Numbers(NumberList::from(made)))
        }
        ItemsRef::Chars(list) => {
            let made = list_along(alloc, list, Glyph::BLANK, shape, axis, rule)?;
            Ok(Items::Chars(made))
        }
    }
}

/// The items of a list for a result of a shape, each from the place along the source's axis that a rule tells, or the fill.
fn list_along<T: Copy + Drop, R: Along>(
    alloc: Global,
    list: &[T],
    fill: T,
    shape: &[u32],
    axis: usize,
    rule: &R,
) -> Result<List<T>, WantOfMemory>
    requires fits { FitsLimits shape.now }
    requires axis { axis < length shape.now }
    requires whole { source_count (split_at shape.now axis) (R.length rule.now) ≡ length list.now }
    ensures { IfOk result (λ made. made.items ≡ moved_list fill list.now (element_count shape.now) (source_along (split_at shape.now axis) (R.length rule.now) (R.from rule.now))) }
{
    let count = count_of_elements(shape);
    if count == 0 {
        return Ok(List::new(alloc));
    }
    let mut made = room_for(alloc, count)?;
    push_rows(&mut made, list, fill, Split::at(shape, axis), rule);
    Ok(List::from(made))
}

/// Adds the items of all rows.
fn push_rows<T: Copy + Drop, R: Along>(
    made: &mut Vec<T>,
    list: &[T],
    fill: T,
    split: Split,
    rule: &R,
)
    requires room { vec_len made.old + split_count split ≤ vec_capacity made.old }
    requires whole { source_count split (R.length rule.now) ≡ length list.now }
    requires lines { split.outer * split.inner < 2 ^ 64 }
    ensures { made.new.items ≡ made.old.items ++ moved_list fill list.now (split_count split) (source_along split (R.length rule.now) (R.from rule.now)) }
{
    for outer in 0..split.outer {
        push_row(made, list, fill, split, outer, rule);
    }
}

/// Adds the items of a row: those of all places along the axis.
fn push_row<T: Copy + Drop, R: Along>(
    made: &mut Vec<T>,
    list: &[T],
    fill: T,
    split: Split,
    outer: usize,
    rule: &R,
)
    requires room { vec_len made.old + split.along * split.inner ≤ vec_capacity made.old }
    requires whole { source_count split (R.length rule.now) ≡ length list.now }
    requires lines { split.outer * split.inner < 2 ^ 64 }
    requires outer { outer < split.outer }
    ensures items { made.new.items ≡ made.old.items ++ moved_list fill list.now (split.along * split.inner) (λ place. source_in_row split (R.length rule.now) (R.from rule.now) outer (place / split.inner) (place % split.inner)) }
    ensures len { vec_len made.new ≡ vec_len made.old + split.along * split.inner }
    ensures room { vec_capacity made.new ≡ vec_capacity made.old }
{
    for along in 0..split.along {
        push_run(made, list, fill, split, outer, along, rule);
    }
}

/// Adds the items of a place along the axis.
fn push_run<T: Copy + Drop, R: Along>(
    made: &mut Vec<T>,
    list: &[T],
    fill: T,
    split: Split,
    outer: usize,
    along: usize,
    rule: &R,
)
    requires room { vec_len made.old + split.inner ≤ vec_capacity made.old }
    requires whole { source_count split (R.length rule.now) ≡ length list.now }
    requires lines { split.outer * split.inner < 2 ^ 64 }
    requires outer { outer < split.outer }
    ensures items { made.new.items ≡ made.old.items ++ moved_list fill list.now split.inner (λ inner. source_in_row split (R.length rule.now) (R.from rule.now) outer along inner) }
    ensures len { vec_len made.new ≡ vec_len made.old + split.inner }
    ensures room { vec_capacity made.new ≡ vec_capacity made.old }
{
    for inner in 0..split.inner {
        let source = place_of_source(split, outer, along, inner, rule);
        made.push_reserved(item_at_source(list, source, fill));
    }
}

/// The source place of an item, or `None` where it is filled.
fn place_of_source<R: Along>(
    split: Split,
    outer: usize,
    along: usize,
    inner: usize,
    rule: &R,
) -> Option<usize>
    requires outer { outer < split.outer }
    requires inner { inner < split.inner }
    requires lines { split.outer * split.inner < 2 ^ 64 }
    requires fits { source_count split (R.length rule.now) < 2 ^ 64 }
    ensures value { result ≡ source_in_row split (R.length rule.now) (R.from rule.now) outer along inner }
    ensures inside { IfSome result (λ source. source < source_count split (R.length rule.now)) }
{
    match rule.from(outer * split.inner + inner, along) {
        Some(from) => Some((outer * rule.length() + from) * split.inner + inner),
        None => None,
    }
}
