ghost use Rattle.std.specs.Prelude.{◌≡◌, ◌-◌, ◌≤◌, ◌++◌, IfOk, drop, length, replicate, take, unsigned_abs};
ghost use Rattle.apl_arrays.specs.Array.{plain_items, seen_items};
ghost use Rattle.apl_structure.specs.Runs.{remaining_run, taken_run};
ghost use Rattle.apl_structure.specs.StructureLaws.{first_items, items_after, items_before, last_items};

use apl_arrays::{Glyph, Items, ItemsRef, List, NumberList, WantOfMemory};
use apl_items::room_for;
use std::alloc::Global;

/// The first items, as many as a number says, or the last where it is negative, with the fill for those that are lacking. It
/// takes memory for them.
pub(crate) fn taken_run(
    alloc: Global,
    items: ItemsRef<'_>,
    number: i64,
) -> Result<Items, WantOfMemory>
    requires { unsigned_abs number ≤ 16384 }
    ensures { IfOk result (λ made. plain_items made ≡ taken_run number (seen_items items.entry)) }
{
    let count = number.unsigned_abs() as usize;
    if number < 0 {
        last_items(alloc, items, count)
    } else {
        first_items(alloc, items, count)
    }
}

/// The items without the first, as many as a number says, or without the last where it is negative. It takes memory for
/// them.
pub(crate) fn remaining_run(
    alloc: Global,
    items: ItemsRef<'_>,
    number: i64,
) -> Result<Items, WantOfMemory>
    ensures { IfOk result (λ made. plain_items made ≡ remaining_run number (seen_items items.entry)) }
{
    let count = number.unsigned_abs() as usize;
    if number < 0 {
        items_before(alloc, items, count)
    } else {
        items_after(alloc, items, count)
    }
}

/// So many items, the first of these, and behind them the fill. The kind is chosen once.
fn first_items(alloc: Global, items: ItemsRef<'_>, count: usize) -> Result<Items, WantOfMemory>
    ensures { IfOk result (λ made. plain_items made ≡ first_items count (seen_items items.entry)) }
{
    match items {
        ItemsRef::Numbers(list) => {
            let made = first_list(alloc, list, count, 0)?;
            Ok(Items::Numbers(NumberList::from(made)))
        }
        ItemsRef::Chars(list) => {
            let made = first_list(alloc, list, count, Glyph::BLANK)?;
            Ok(Items::Chars(made))
        }
    }
}

/// So many items, the last of these, and before them the fill. The kind is chosen once.
fn last_items(alloc: Global, items: ItemsRef<'_>, count: usize) -> Result<Items, WantOfMemory>
    ensures { IfOk result (λ made. plain_items made ≡ last_items count (seen_items items.entry)) }
{
    match items {
        ItemsRef::Numbers(list) => {
            let made = last_list(alloc, list, count, 0)?;
            Ok(Items::Numbers(NumberList::from(made)))
        }
        ItemsRef::Chars(list) => {
            let made = last_list(alloc, list, count, Glyph::BLANK)?;
            Ok(Items::Chars(made))
        }
    }
}

/// The items without so many of the first. The kind is chosen once.
fn items_after(alloc: Global, items: ItemsRef<'_>, count: usize) -> Result<Items, WantOfMemory>
    ensures { IfOk result (λ made. plain_items made ≡ items_after count (seen_items items.entry)) }
{
    match items {
        ItemsRef::Numbers(list) => {
            let made = List::of(alloc, after(list, count))?;
            Ok(Items::Numbers(NumberList::from(made)))
        }
        ItemsRef::Chars(list) => {
            let made = List::of(alloc, after(list, count))?;
            Ok(Items::Chars(made))
        }
    }
}

/// The items without so many of the last. The kind is chosen once.
fn items_before(alloc: Global, items: ItemsRef<'_>, count: usize) -> Result<Items, WantOfMemory>
    ensures { IfOk result (λ made. plain_items made ≡ items_before count (seen_items items.entry)) }
{
    match items {
        ItemsRef::Numbers(list) => {
            let made = List::of(alloc, before(list, count))?;
            Ok(Items::Numbers(NumberList::from(made)))
        }
        ItemsRef::Chars(list) => {
            let made = List::of(alloc, before(list, count))?;
            Ok(Items::Chars(made))
        }
    }
}

/// So many items, the first of a list, and behind them the fill. It asks once for memory.
fn first_list<T: Copy + Drop>(
    alloc: Global,
    list: &[T],
    count: usize,
    fill: T,
) -> Result<List<T>, WantOfMemory>
    ensures { IfOk result (λ made. made.items ≡ take count list.now ++ replicate (count - length list.now) fill) }
{
    let mut made = room_for(alloc, count)?;
    made.extend_from_slice(front(list, count))?;
    made.resize(count, fill)?;
    Ok(List::from(made))
}

/// So many items, the last of a list, and before them the fill. It asks once for memory.
fn last_list<T: Copy + Drop>(
    alloc: Global,
    list: &[T],
    count: usize,
    fill: T,
) -> Result<List<T>, WantOfMemory>
    ensures { IfOk result (λ made. made.items ≡ replicate (count - length list.now) fill ++ drop (length list.now - count) list.now) }
{
    let mut made = room_for(alloc, count)?;
    made.resize(count.saturating_sub(list.len()), fill)?;
    made.extend_from_slice(after(list, list.len().saturating_sub(count)))?;
    Ok(List::from(made))
}

/// The first items of a list, at most so many.
fn front<T>(list: &[T], count: usize) -> &[T]
    ensures { result.now ≡ take count list.now }
{
    &list[..count.min(list.len())]
}

/// The items of a list without so many of the first.
fn after<T>(list: &[T], count: usize) -> &[T]
    ensures { result.now ≡ drop count list.now }
{
    &list[count.min(list.len())..]
}

/// The items of a list without so many of the last.
fn before<T>(list: &[T], count: usize) -> &[T]
    ensures { result.now ≡ take (length list.now - count) list.now }
{
    front(list, list.len().saturating_sub(count))
}
