ghost use Rattle.std.specs.Prelude.{◌≡◌, ◌+◌, ◌<◌, ◌≤◌, ℕ, Option, IfOk, length};
ghost use Rattle.apl_arrays.specs.Array.{seen_items, item_count, plain_items};
ghost use Rattle.apl_items.specs.Moves.{IsWithin, item_or, moved_items, moved_list};

use crate::loops::room_for;
use apl_arrays::{Glyph, Items, ItemsRef, List, NumberList, WantOfMemory};
use std::alloc::Global;

/// The source places for the places of a result, one after another in row-major order.
pub trait Walk {
    // How many places it has left to go over.
    ghost left: { Self → ℕ };

    // The source place for the n-th place from here on, or none where that place is filled.
    ghost source: { Self → ℕ → Option ℕ };

    /// The source place for the next place.
    fn advance(&mut self) -> Option<usize>
        requires { 0 < left self.old }
        ensures value { result ≡ source self.old 0 }
        ensures rest { (n : ℕ) → source self.new n ≡ source self.old (n + 1) }
        ensures left { left self.new + 1 ≡ left self.old };
}

/// So many items, each from the source place that a walk gives, or the fill, 0 or the blank. The kind is chosen once. It
/// asks once for memory, for the items.
pub fn moved<W: Walk + Drop>(
    alloc: Global,
    items: ItemsRef<'_>,
    count: usize,
    walk: W,
) -> Result<Items, WantOfMemory>
    requires left { count ≤ W.left walk }
    requires within { IsWithin (W.source walk) count (item_count (seen_items items)) }
    ensures { IfOk result (λ made. plain_items made ≡ moved_items (seen_items items.entry) count (W.source walk)) }
{
    match items {
        ItemsRef::Numbers(list) => {
            let made = moved_list(alloc, list, 0, count, walk)?;
            Ok(Items::Numbers(NumberList::from(made)))
        }
        ItemsRef::Chars(list) => {
            let made = moved_list(alloc, list, Glyph::BLANK, count, walk)?;
            Ok(Items::Chars(made))
        }
    }
}

/// So many items of a list, each from the source place that a walk gives, or the fill.
fn moved_list<T: Copy + Drop, W: Walk + Drop>(
    alloc: Global,
    list: &[T],
    fill: T,
    count: usize,
    mut walk: W,
) -> Result<List<T>, WantOfMemory>
    requires left { count ≤ W.left walk }
    requires within { IsWithin (W.source walk) count (length list.now) }
    ensures { IfOk result (λ made. made.items ≡ moved_list fill list.now count (W.source walk)) }
{
    let mut made = room_for(alloc, count)?;
    for _place in 0..count {
        let source = walk.advance();
        made.push_reserved(item_at_source(list, source, fill));
    }
    Ok(List::from(made))
}

/// The item at a source place, or the fill.
pub fn item_at_source<T: Copy + Drop>(list: &[T], source: Option<usize>, fill: T) -> T
    requires { (from : ℕ) → source ≡ Some from → from < length list.now }
    ensures { result ≡ item_or fill list.now source }
{
    match source {
        Some(from) => list[from],
        None => fill,
    }
}
