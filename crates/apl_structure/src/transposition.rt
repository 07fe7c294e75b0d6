ghost use Rattle.std.specs.Prelude.{◌≡◌, ◌*◌, ◌≤◌, IfOk, length, reverse};
ghost use Rattle.apl_arrays.specs.Array.{item_count, plain_items, seen_items};
ghost use Rattle.apl_items.specs.Answers.{Answers};
ghost use Rattle.apl_items.specs.Moves.{moved_items, moved_list};
ghost use Rattle.apl_structure.specs.Transposition.{transpose_of, transposed, turned_place};

use apl_arrays::{Array, Fail, Glyph, Items, ItemsRef, List, NumberList, WantOfMemory};
use apl_items::{Axes, moved_by_axes, room_for};
use apl_selection::{length_of, scaled, stride_in, strides_of};
use std::alloc::Global;

/// An array with its axes in reverse order. It takes memory for its shape, for strides and for the result.
pub fn transpose(alloc: Global, b: &Array) -> Result<Array, Fail>
    ensures { Answers result (transpose_of b.now) }
{
    let shape = turned_round(alloc, b.shape())?;
    Ok(transposed(alloc, b, shape.as_slice())?)
}

/// The axes in reverse order.
fn turned_round(alloc: Global, shape: &[u32]) -> Result<Vec<u32>, WantOfMemory>
    ensures { IfOk result (λ axes. axes.items ≡ reverse shape.now) }
{
    Ok(shape.iter().rev().copied().collect(alloc)?)
}

/// An array with its axes in reverse order, of that shape.
fn transposed(alloc: Global, b: &Array, shape: &[u32]) -> Result<Array, WantOfMemory>
    requires { shape.now ≡ reverse b.now.shape }
    ensures { IfOk result (λ array. array ≡ transposed b.now) }
{
    if b.items().is_empty() {
        return Array::shaped(alloc, shape, b.items().copy(alloc)?);
    }
    if b.shape().len() == 2 {
        return turned_matrix(alloc, b, shape);
    }
    let strides = strides_of(alloc, b.shape())?;
    let axes = Opposite {
        strides: strides.as_slice(),
    };
    Array::shaped(alloc, shape, moved_by_axes(alloc, b.items(), shape, &axes)?)
}

/// A matrix with its axes in reverse order, of that shape: column by column.
fn turned_matrix(alloc: Global, b: &Array, shape: &[u32]) -> Result<Array, WantOfMemory>
    requires matrix { length b.now.shape ≡ 2 }
    requires shape { shape.now ≡ reverse b.now.shape }
    ensures { IfOk result (λ array. array ≡ transposed b.now) }
{
    let columns = length_of(shape, 0) as usize;
    let rows = length_of(shape, 1) as usize;
    let items = turned_items(alloc, b.items(), rows, columns)?;
    Array::shaped(alloc, shape, items)
}

/// The items of a matrix of so many rows and columns, column by column. The kind is chosen once.
fn turned_items(
    alloc: Global,
    items: ItemsRef<'_>,
    rows: usize,
    columns: usize,
) -> Result<Items, WantOfMemory>
    requires whole { item_count (seen_items items) ≡ rows * columns }
    requires small { rows * columns ≤ 16384 }
    ensures { IfOk result (λ made. plain_items made ≡ moved_items (seen_items items.entry) (columns * rows) (turned_place rows columns)) }
{
    match items {
        ItemsRef::Numbers(list) => {
            let made = turned_list(alloc, list, 0, rows, columns)?;
            Ok(Items::Numbers(NumberList::from(made)))
        }
        ItemsRef::Chars(list) => {
            let made = turned_list(alloc, list, Glyph::BLANK, rows, columns)?;
            Ok(Items::Chars(made))
        }
    }
}

/// A list of so many rows and columns, column by column. It asks once for memory.
fn turned_list<T: Copy + Drop>(
    alloc: Global,
    list: &[T],
    fill: T,
    rows: usize,
    columns: usize,
) -> Result<List<T>, WantOfMemory>
    requires whole { length list.now ≡ rows * columns }
    requires small { rows * columns ≤ 16384 }
    ensures { IfOk result (λ made. made.items ≡ moved_list fill list.now (columns * rows) (turned_place rows columns)) }
{
    let mut made = room_for(alloc, list.len())?;
    for column in 0..columns {
        for row in 0..rows {
            let from = row * columns + column;
            made.push_reserved(list[from]);
        }
    }
    Ok(List::from(made))
}

/// The axes of a transpose, by the strides of its argument.
#[derive(Drop)]
struct Opposite<'a> {
    strides: &'a [u16],
}

impl Axes for Opposite<'_> {
    ghost use Rattle.std.specs.Prelude.{◌-◌, ◌*◌, Some, length, slice_index};

    ghost length_of = { λ _ _. 16384 };

    ghost offset = { λ o axis along. Some (along * slice_index o.strides.now (length o.strides.now - 1 - axis)) };

    fn offset(&self, axis: usize, along: usize) -> Option<usize> {
        let opposite = self.strides.len().saturating_sub(1).saturating_sub(axis);
        Some(scaled(along, stride_in(self.strides, opposite)))
    }
}
