ghost use Rattle.std.specs.Prelude.{◌≡◌, ◌≤◌, IfOk, length};
ghost use Rattle.apl_arrays.specs.Array.{item_count, plain_items, seen_items};
ghost use Rattle.apl_selection.specs.Compression.{items_at, kept_of, list_at};
ghost use Rattle.apl_selection.specs.Vectors.{as_vector};

use crate::flags::is_one;
use apl_arrays::{Array, Glyph, Items, ItemsRef, List, NumberList, WantOfMemory};
use apl_items::room_for;
use std::alloc::Global;

/// The items of a vector whose flags, one for each, are 1. It takes memory for them.
pub(crate) fn flagged_vector(
    alloc: Global,
    flags: &[i64],
    items: ItemsRef<'_>,
) -> Result<Array, WantOfMemory>
    requires few { length flags.now ≤ 16384 }
    requires each { length flags.now ≡ item_count (seen_items items) }
    ensures { IfOk result (λ array. array ≡ as_vector (items_at (seen_items items.entry) (kept_of flags.now (length flags.now) (length flags.now)))) }
{
    let count = ones_of(flags);
    let made = flagged_items(alloc, flags, items, count)?;
    Array::shaped(alloc, &[count as u32], made)
}

/// The items, which are so many, whose flags are 1. The kind is chosen once.
fn flagged_items(
    alloc: Global,
    flags: &[i64],
    items: ItemsRef<'_>,
    count: usize,
) -> Result<Items, WantOfMemory>
    requires each { length flags.now ≡ item_count (seen_items items) }
    requires count { count ≡ length (kept_of flags.now (length flags.now) (length flags.now)) }
    ensures { IfOk result (λ made. plain_items made ≡ items_at (seen_items items.entry) (kept_of flags.now (length flags.now) (length flags.now))) }
{
    match items {
        ItemsRef::Numbers(list) => {
            let made = flagged_list(alloc, flags, list, 0, count)?;
            Ok(Items::Numbers(NumberList::from(made)))
        }
        ItemsRef::Chars(list) => {
            let made = flagged_list(alloc, flags, list, Glyph::BLANK, count)?;
            Ok(Items::Chars(made))
        }
    }
}

/// The items of a list, which are so many, whose flags are 1.
fn flagged_list<T: Copy + Drop>(
    alloc: Global,
    flags: &[i64],
    list: &[T],
    fill: T,
    count: usize,
) -> Result<List<T>, WantOfMemory>
    requires each { length flags.now ≡ length list.now }
    requires count { count ≡ length (kept_of flags.now (length flags.now) (length flags.now)) }
    ensures { IfOk result (λ made. made.items ≡ list_at fill list.now (kept_of flags.now (length flags.now) (length flags.now))) }
{
    let mut made = room_for(alloc, count)?;
    for place in 0..flags.len() {
        if is_one(flags[place]) {
            made.push_reserved(list[place]);
        }
    }
    Ok(List::from(made))
}

/// How many flags are 1.
fn ones_of(flags: &[i64]) -> usize
    requires { length flags.now ≤ 16384 }
    ensures { result ≡ length (kept_of flags.now (length flags.now) (length flags.now)) }
{
    let mut total = 0;
    for place in 0..flags.len() {
        if is_one(flags[place]) {
            total += 1;
        }
    }
    total
}
