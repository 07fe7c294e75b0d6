ghost use Rattle.std.specs.Prelude.{◌≡◌, ◌≤◌, true, false, IfOk, length};
ghost use Rattle.std.specs.List.{position_or_len};
ghost use Rattle.std.specs.List.Sorted.{IsPartitionPoint};
ghost use Rattle.std.specs.Ordering.{is_lt};
ghost use Rattle.apl_search.specs.Lookup.{IsIndexOf, StandsInOrder};

use crate::places::with_places;
use apl_arrays::WantOfMemory;
use std::alloc::Global;

/// So many items are walked, or looked up by a walk each.
const FEW: usize = 16;

/// The items of a list with their places, in order, for so many look-ups; none where a walk for each costs no more. It
/// takes memory for them, and for sorting them.
pub fn index_for<T: Ord + Copy + Drop>(
    alloc: Global,
    list: &[T],
    asked: usize,
) -> Result<Vec<(T, u32)>, WantOfMemory>
    requires { length list.now ≤ 16384 }
    ensures { IfOk result (λ pairs. IsIndexOf T.cmp list.now pairs.items) }
{
    if is_few(list.len(), asked) {
        return Ok(Vec::new(alloc));
    }
    let mut pairs = with_places(alloc, list)?;
    pairs.sort()?;
    Ok(pairs)
}

/// Whether a walk for each of so many look-ups in a list that is so long costs no more than what makes them fast.
pub(crate) fn is_few(long: usize, asked: usize) -> bool {
    long <= FEW || asked <= FEW
}

/// The first place in a list of an item, from 0, or the length of the list, by its index.
pub fn first_place<T: Ord>(list: &[T], index: &[(T, u32)], item: &T) -> usize
    requires { IsIndexOf T.cmp list.now index.now }
    ensures value { result ≡ position_or_len (T.eq item.now) list.now }
    ensures inside { result ≤ length list.now }
{
    if index.is_empty() {
        place_by_walk(list, item)
    } else {
        place_by_halves(list, index, item)
    }
}

/// The first place in a list of an item, from 0, or the length of the list, item by item.
fn place_by_walk<T: Ord>(list: &[T], item: &T) -> usize
    ensures value { result ≡ position_or_len (T.eq item.now) list.now }
    ensures inside { result ≤ length list.now }
{
    for (place, other) in list.iter().enumerate() {
        if item == other {
            return place;
        }
    }
    list.len()
}

/// The first place in a list of an item, from 0, or the length of the list, from its items and places in order.
fn place_by_halves<T: Ord>(list: &[T], pairs: &[(T, u32)], item: &T) -> usize
    requires { StandsInOrder T.cmp list.now pairs.now }
    ensures value { result ≡ position_or_len (T.eq item.now) list.now }
    ensures inside { result ≤ length list.now }
{
    let at = first_not_less(pairs, item);
    if at < pairs.len() && *item == pairs[at].0 {
        pairs[at].1 as usize
    } else {
        list.len()
    }
}

/// The place among pairs in order of the first whose item is not less than an item.
fn first_not_less<T: Ord>(pairs: &[(T, u32)], item: &T) -> usize
    requires { (list : _) × StandsInOrder T.cmp list pairs.now }
    ensures bound { result ≤ length pairs.now }
    ensures point { IsPartitionPoint (λ pair. is_lt (T.cmp pair.0 item.now) ≡ true) (λ pair. is_lt (T.cmp pair.0 item.now) ≡ false) pairs.now result }
{
    pairs.partition_point(|pair: &(T, u32)| pair.0.cmp(item).is_lt())
}
