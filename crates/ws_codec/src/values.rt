ghost use Rattle.std.specs.Prelude.{◌≡◌, ◌<◌, ◌≤◌, ◌+◌, ◌^◌, [], true, IfOk, OnOk, is_none, length};
ghost use Rattle.apl_arrays.specs.Array.{FitsLimits, element_count};
ghost use Rattle.apl_arrays.specs.Limits.{most_elements};
ghost use Rattle.apl_arrays.specs.Shape.{shape_fault};
ghost use Rattle.apl_workspace.specs.Limits.{most_weight};
ghost use Rattle.apl_workspace.specs.Meaning.{value_weight};
ghost use Rattle.ws_codec.specs.Reading.{Gives, repeated};
ghost use Rattle.ws_codec.specs.Values.{at_last_axis, read_axis, read_char_array, read_next_axis, read_next_integer, read_number_array, read_numbers, read_shape};

use crate::cursor::Cursor;
use crate::saved::SavedRule;
use crate::unread::{Unread, keeps};
use apl_arrays::{
    Array, ELEMENT_LIMIT, Items, List, NumberList, RANK_LIMIT, count_of_elements, shape_fault,
};
use apl_workspace::WEIGHT_LIMIT;
use std::alloc::Global;

/// Reads a variable of numbers behind objects of this weight. It takes memory for the variable.
#[tactic(auto, unfolding(crate::specs::Values::read_number_array))]
pub fn read_number_array(
    alloc: Global,
    weight: usize,
    cursor: &mut Cursor<'_>,
) -> Result<Array, Unread>
    requires { weight ≤ most_weight }
    ensures value { Gives (λ array. (array, cursor.new)) result (read_number_array weight cursor.old) }
    ensures light { IfOk result (λ array. weight + value_weight array ≤ most_weight) }
{
    let shape = read_shape(alloc, weight, cursor)?;
    let numbers = read_numbers(alloc, cursor, count_of_elements(shape.as_slice()))?;
    let items = Items::Numbers(NumberList::from(numbers));
    Ok(Array::shaped(alloc, shape.as_slice(), items)?)
}

/// Reads a variable of characters behind objects of this weight. It takes memory for the variable.
#[tactic(auto, unfolding(crate::specs::Values::read_char_array))]
pub fn read_char_array(
    alloc: Global,
    weight: usize,
    cursor: &mut Cursor<'_>,
) -> Result<Array, Unread>
    requires { weight ≤ most_weight }
    ensures value { Gives (λ array. (array, cursor.new)) result (read_char_array weight cursor.old) }
    ensures light { IfOk result (λ array. weight + value_weight array ≤ most_weight) }
{
    let shape = read_shape(alloc, weight, cursor)?;
    let chars = cursor.glyphs(alloc, count_of_elements(shape.as_slice()))?;
    Ok(Array::shaped(alloc, shape.as_slice(), Items::Chars(chars))?)
}

/// Reads the shape of a variable behind objects of this weight: its rank and its axes.
#[tactic(auto, unfolding(crate::specs::Values::read_shape))]
fn read_shape(alloc: Global, weight: usize, cursor: &mut Cursor<'_>) -> Result<List<u32>, Unread>
    requires { weight ≤ most_weight }
    ensures value { Gives (λ shape. (shape.items, cursor.new)) result (read_shape weight cursor.old) }
    ensures fits { IfOk result (λ shape. FitsLimits shape.items) }
    ensures light { IfOk result (λ shape. weight + (1 + element_count shape.items) ≤ most_weight) }
{
    let left = cursor.left();
    let rank = cursor.byte()?;
    keeps(rank as usize <= RANK_LIMIT, SavedRule::Size, left)?;
    let axes = read_axes(alloc, cursor, rank)?;
    let last = at_last_axis(axes.as_slice(), cursor.left());
    keeps(
        shape_fault(axes.as_slice()).is_none(),
        SavedRule::Size,
        last,
    )?;
    let count = count_in(axes.as_slice());
    keeps(weight + (1 + count) <= WEIGHT_LIMIT, SavedRule::Limit, last)?;
    Ok(axes)
}

/// How many elements an array of this shape has.
#[tactic(auto, using(crate::proofs::Shapes::whole_shape))]
fn count_in(shape: &[u32]) -> usize
    requires { is_none (shape_fault shape.now) ≡ true }
    ensures value { result ≡ element_count shape.now }
    ensures within { result ≤ most_elements }
    ensures fits { FitsLimits shape.now }
{
    count_of_elements(shape)
}

/// How many bytes are left at the last field of a shape, behind which so many are left: at its last axis, or at its rank
/// where it has none.
fn at_last_axis(axes: &[u32], left: usize) -> usize
    requires { left < 2 ^ 63 }
    ensures { result ≡ at_last_axis axes.now left }
{
    match axes {
        [] => left + 1,
        [_, ..] => left + 4,
    }
}

/// Reads so many axes.
fn read_axes(alloc: Global, cursor: &mut Cursor<'_>, rank: u8) -> Result<List<u32>, Unread>
    ensures { Gives (λ axes. (axes.items, cursor.new)) result (repeated read_next_axis rank [] cursor.old) }
{
    let mut axes = List::new(alloc);
    for _ in 0..rank {
        add_axis(&mut axes, cursor)?;
    }
    Ok(axes)
}

/// Reads an axis behind others.
fn add_axis(axes: &mut List<u32>, cursor: &mut Cursor<'_>) -> Result<(), Unread>
    ensures { Gives (λ _. (axes.new.items, cursor.new)) result (read_next_axis axes.old.items cursor.old) }
{
    let axis = read_axis(cursor)?;
    axes.push(axis)?;
    Ok(())
}

/// Reads an axis.
#[tactic(auto, unfolding(crate::specs::Values::read_axis))]
fn read_axis(cursor: &mut Cursor<'_>) -> Result<u32, Unread>
    ensures { Gives (λ axis. (axis, cursor.new)) result (read_axis cursor.old) }
{
    let left = cursor.left();
    let axis = cursor.number32()?;
    keeps(axis as usize <= ELEMENT_LIMIT, SavedRule::Size, left)?;
    Ok(axis)
}

/// Reads so many numbers, which are one field: where they are cut no memory is taken for them.
#[tactic(auto, unfolding(crate::specs::Values::read_numbers))]
fn read_numbers(alloc: Global, cursor: &mut Cursor<'_>, count: usize) -> Result<List<i64>, Unread>
    requires { count ≤ most_elements }
    ensures value { Gives (λ numbers. (numbers.items, cursor.new)) result (read_numbers count cursor.old) }
    ensures count { IfOk result (λ numbers. length numbers.items ≡ count) }
{
    keeps(8 * count <= cursor.left(), SavedRule::Short, 0)?;
    let numbers = read_integers(alloc, cursor, count)?;
    Ok(numbers)
}

/// Reads so many numbers, one behind another.
fn read_integers(alloc: Global, cursor: &mut Cursor<'_>, count: usize) -> Result<List<i64>, Unread>
    ensures value { Gives (λ numbers. (numbers.items, cursor.new)) result (repeated read_next_integer count [] cursor.old) }
    ensures count { IfOk result (λ numbers. length numbers.items ≡ count) }
{
    let mut numbers = List::new(alloc);
    for _ in 0..count {
        add_integer(&mut numbers, cursor)?;
    }
    Ok(numbers)
}

/// Reads a number behind others.
fn add_integer(numbers: &mut List<i64>, cursor: &mut Cursor<'_>) -> Result<(), Unread>
    ensures value { Gives (λ _. (numbers.new.items, cursor.new)) result (read_next_integer numbers.old.items cursor.old) }
    ensures one { OnOk result (length numbers.new.items ≡ length numbers.old.items + 1) }
{
    let number = cursor.integer()?;
    numbers.push(number)?;
    Ok(())
}
