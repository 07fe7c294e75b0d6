ghost use Rattle.std.specs.Prelude.{◌≡◌, ◌-◌, ◌≤◌, false, IfOk, length, map, option_copied, unsigned_abs};
ghost use Rattle.std.specs.List.{list_any};
ghost use Rattle.apl_arrays.specs.Limits.{most_axes};
ghost use Rattle.apl_arrays.specs.Array.{element_count, item_count, numbers_in, seen_items};
ghost use Rattle.apl_selection.specs.Subscripts.{axes_by, is_miscounted, is_of_chars, is_outside, named_by, named_counts, point_outside, points_outside, selection_shape};

use apl_arrays::{Array, ItemsRef, List, WantOfMemory};
use arrayvec::ArrayVec;
use std::alloc::Global;
use std::slice;

/// Subscripts, one for each place between the brackets: an array of places from 1 on, or `None` where it is omitted.
pub type Subs = List<Option<Array>>;

/// The most axes of a selection, whose items need not be made: as many subscripts as an array has axes, each with as many.
const SELECTION_RANK_LIMIT: usize = 64;

/// Whether there are not as many subscripts as axes, or no axes.
pub(crate) fn is_miscounted(shape: &[u32], subs: &[Option<&Array>]) -> bool
    ensures { result ≡ is_miscounted shape.now (map option_copied subs.now) }
{
    shape.is_empty() || subs.len() != shape.len()
}

/// Whether a subscript is of characters.
pub(crate) fn are_of_chars(subs: &[Option<&Array>]) -> bool
    ensures { result ≡ list_any is_of_chars (map option_copied subs.now) }
{
    for axis in 0..subs.len() {
        if is_of_chars(subs[axis]) {
            return true;
        }
    }
    false
}

fn is_of_chars(sub: Option<&Array>) -> bool
    ensures { result ≡ is_of_chars (option_copied sub.entry) }
{
    match sub {
        None => false,
        Some(array) => array.is_chars(),
    }
}

/// Whether some subscript is outside its axis.
pub(crate) fn point_outside(shape: &[u32], subs: &[Option<&Array>]) -> bool
    requires { length subs.now ≡ length shape.now }
    ensures { result ≡ point_outside shape.now (map option_copied subs.now) }
{
    for axis in 0..shape.len() {
        if points_outside(shape[axis], subs[axis]) {
            return true;
        }
    }
    false
}

/// Whether a number of a subscript is outside its axis.
fn points_outside(length: u32, sub: Option<&Array>) -> bool
    ensures { result ≡ points_outside length (option_copied sub.entry) }
{
    match sub {
        None => false,
        Some(array) => are_outside(length, array.numbers()),
    }
}

fn are_outside(length: u32, numbers: &[i64]) -> bool
    ensures { result ≡ list_any (is_outside length) numbers.now }
{
    numbers.iter().any(|number| is_outside(length, *number))
}

/// Whether a number is not from 1 to the length of an axis.
fn is_outside(length: u32, number: i64) -> bool
    ensures { result ≡ is_outside length number }
{
    number < 0 || number.unsigned_abs() == 0 || number.unsigned_abs() > u64::from(length)
}

/// The shape of the selection.
pub(crate) fn selection_shape(
    shape: &[u32],
    subs: &[Option<&Array>],
) -> ArrayVec<u32, SELECTION_RANK_LIMIT>
    requires counted { length subs.now ≡ length shape.now }
    requires rank { length shape.now ≤ most_axes }
    ensures { result.items ≡ selection_shape shape.now (map option_copied subs.now) }
{
    let mut axes = ArrayVec::new();
    for axis in 0..shape.len() {
        let here = axes_by(&shape[axis], subs[axis]);
        axes.try_extend_from_slice(here).unwrap();
    }
    axes
}

/// The axes that a subscript gives to the selection.
fn axes_by<'a>(long: &'a u32, sub: Option<&'a Array>) -> &'a [u32]
    ensures value { result.now ≡ axes_by long.now (option_copied sub.entry) }
    ensures few { length result.now ≤ most_axes }
{
    match sub {
        None => slice::from_ref(long),
        Some(array) => array.shape(),
    }
}

/// How many places are named along each axis. It takes memory for the numbers.
pub(crate) fn named_counts(
    alloc: Global,
    shape: &[u32],
    subs: &[Option<&Array>],
) -> Result<Vec<u32>, WantOfMemory>
    requires { length subs.now ≡ length shape.now }
    ensures value { IfOk result (λ counts. counts.items ≡ named_counts shape.now (map option_copied subs.now)) }
    ensures whole { IfOk result (λ counts. list_any is_of_chars (map option_copied subs.now) ≡ false → element_count counts.items ≡ element_count (selection_shape shape.now (map option_copied subs.now))) }
{
    let mut counts = Vec::new(alloc);
    for axis in 0..shape.len() {
        counts.push(named_count(shape[axis], subs[axis]))?;
    }
    Ok(counts)
}

/// How many places along its axis a subscript names.
fn named_count(axis: u32, sub: Option<&Array>) -> u32
    ensures value { result ≡ length (named_by axis (option_copied sub.entry)) }
    ensures whole { is_of_chars (option_copied sub.entry) ≡ false → result ≡ element_count (axes_by axis (option_copied sub.entry)) }
{
    match sub {
        None => axis,
        Some(array) => count_of_numbers(array.items()),
    }
}

/// How many numbers there are, none where the items are characters.
fn count_of_numbers(items: ItemsRef<'_>) -> u32
    requires { item_count (seen_items items) ≤ 16384 }
    ensures { result ≡ length (numbers_in (seen_items items.entry)) }
{
    match items {
        ItemsRef::Numbers(numbers) => numbers.len() as u32,
        ItemsRef::Chars(_) => 0,
    }
}

/// The place from 0 that a number names.
pub(crate) fn place_from_0(number: i64) -> usize
    ensures { result ≡ unsigned_abs number - 1 }
{
    (number.unsigned_abs() as usize).saturating_sub(1)
}
