ghost use Rattle.std.specs.Prelude.{◌≡◌, ◌<◌, false, IfOk, length, reverse as backwards, slice_index};
ghost use Rattle.apl_arrays.specs.Array.{plain_items, seen_items};
ghost use Rattle.apl_items.specs.Answers.{Answers};
ghost use Rattle.apl_items.specs.Axis.{lacks_axis};
ghost use Rattle.apl_items.specs.Places.{OnWantOfMemory};
ghost use Rattle.apl_structure.specs.Moves.{moved_on};
ghost use Rattle.apl_structure.specs.Reversal.{from_the_end, reverse_of, reversed, turned_items, turned_vector};

use crate::moves::moved_on;
use apl_arrays::{Array, Fail, Items, ItemsRef, List, NumberList, Report, WantOfMemory, Way};
use apl_items::{Along, axis_of, lacks_axis, room_for};
use std::alloc::Global;

/// An array with its items in reverse order along an axis, the last or the first where none is named; a scalar is
/// unchanged. INDEX where the axis is not from 1 to the rank. Where there is no report it takes memory for the result.
pub fn reverse(alloc: Global, b: &Array, way: Way, axis: Option<i64>) -> Result<Array, Fail>
    ensures answer { Answers result (reverse_of b.now way axis) }
    ensures memory { OnWantOfMemory result (lacks_axis (length b.now.shape) axis ≡ false) }
{
    let rank = b.shape().len();
    if lacks_axis(rank, axis) {
        Err(Fail::Report(Report::Index))
    } else if rank == 0 {
        Ok(b.copy(alloc)?)
    } else {
        Ok(reversed(alloc, b, axis_of(rank, way, axis))?)
    }
}

/// An array that is no scalar with its items in reverse order along an axis, those of a vector as one run.
fn reversed(alloc: Global, b: &Array, axis: usize) -> Result<Array, WantOfMemory>
    requires { axis < length b.now.shape }
    ensures { IfOk result (λ array. array ≡ reversed b.now axis) }
{
    if b.shape().len() == 1 {
        turned_vector(alloc, b)
    } else {
        mirrored(alloc, b, axis)
    }
}

/// An array with its items in reverse order along an axis, each from its place.
fn mirrored(alloc: Global, b: &Array, axis: usize) -> Result<Array, WantOfMemory>
    requires { axis < length b.now.shape }
    ensures { IfOk result (λ array. array ≡ moved_on b.now axis (λ line along. from_the_end (slice_index b.now.shape axis) along)) }
{
    let mirror = Mirror {
        length: b.shape()[axis] as usize,
    };
    moved_on(alloc, b, axis, &mirror)
}

/// A vector with its items in reverse order.
fn turned_vector(alloc: Global, b: &Array) -> Result<Array, WantOfMemory>
    ensures { IfOk result (λ array. array ≡ turned_vector b.now) }
{
    let items = turned_items(alloc, b.items())?;
    Array::shaped(alloc, b.shape(), items)
}

/// Items in reverse order. The kind is chosen once.
fn turned_items(alloc: Global, items: ItemsRef<'_>) -> Result<Items, WantOfMemory>
    ensures { IfOk result (λ made. plain_items made ≡ turned_items (seen_items items.entry)) }
{
    match items {
        ItemsRef::Numbers(list) => {
            let made = turned_list(alloc, list)?;
            Ok(Items::Numbers(NumberList::from(made)))
        }
        ItemsRef::Chars(list) => {
            let made = turned_list(alloc, list)?;
            Ok(Items::Chars(made))
        }
    }
}

/// A list in reverse order. It asks once for memory.
fn turned_list<T: Copy + Drop>(alloc: Global, list: &[T]) -> Result<List<T>, WantOfMemory>
    ensures { IfOk result (λ made. made.items ≡ backwards list.now) }
{
    let mut made = room_for(alloc, list.len())?;
    for gone in 0..list.len() {
        made.push_reserved(list[list.len() - 1 - gone]);
    }
    Ok(List::from(made))
}

/// Places counted from the end of an axis.
#[derive(Drop)]
struct Mirror {
    length: usize,
}

impl Along for Mirror {
    ghost use Rattle.apl_structure.specs.Reversal.{from_the_end};

    ghost length = { λ m. m.length };

    ghost from = { λ m line along. from_the_end m.length along };

    fn length(&self) -> usize {
        self.length
    }

    fn from(&self, _line: usize, along: usize) -> Option<usize> {
        if along < self.length {
            Some(self.length - 1 - along)
        } else {
            None
        }
    }
}
