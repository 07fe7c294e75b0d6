ghost use Rattle.std.specs.Prelude.{◌≡◌, ◌+◌, ◌*◌, ◌-◌, ◌<◌, ◌≤◌, ◌==◌, None, IfOk, Some, length, map, slice_index, unsigned_abs};
ghost use Rattle.std.specs.List.{list_any};
ghost use Rattle.apl_arrays.specs.Array.{FitsLimits, numbers_in};
ghost use Rattle.apl_items.specs.Answers.{Answers, first_report};
ghost use Rattle.apl_items.specs.Axis.{lacks_axis};
ghost use Rattle.apl_items.specs.Places.{OnWantOfMemory, places};
ghost use Rattle.apl_structure.specs.Diagonals.{axes_by_faults, axes_named, axis_count, diagonal_shape, least_length, leaves_gap, step_along, transpose_by_of, transposed_by};

use apl_arrays::{Array, ELEMENT_LIMIT, Fail, Report, WantOfMemory, count_of_elements};
use apl_items::{Axes, lacks_axis, moved_by_axes, room_for};
use apl_selection::{filled, length_of, strides_of};
use std::alloc::Global;

/// B with its axes where A puts them; axes that come to one place run on together up to the shortest. RANK where A is of
/// rank over 1, else LENGTH where it has not one number for each axis of B, else DOMAIN where these do not name the axes
/// of the result, without a gap. Where there is no report it takes memory for a shape, for strides and for the result.
pub fn transpose_by(alloc: Global, a: &Array, b: &Array) -> Result<Array, Fail>
    ensures answer { Answers result (transpose_by_of a.now b.now) }
    ensures memory { OnWantOfMemory result (first_report (axes_by_faults a.now b.now) ≡ None) }
{
    match axes_by_report(a, b) {
        Some(report) => Err(Fail::Report(report)),
        None => Ok(transposed_by(alloc, a, b)?),
    }
}

/// The report on the axes of B in other places, if there is one.
fn axes_by_report(a: &Array, b: &Array) -> Option<Report>
    ensures { result ≡ first_report (axes_by_faults a.now b.now) }
{
    let rank = b.shape().len();
    if a.shape().len() > 1 {
        Some(Report::Rank)
    } else if a.items().len() != rank {
        Some(Report::Length)
    } else if a.is_chars() || names_no_axis(rank, a.numbers()) || leaves_gap(a.numbers()) {
        Some(Report::Domain)
    } else {
        None
    }
}

/// Whether a number is not from 1 to the rank.
fn names_no_axis(rank: usize, numbers: &[i64]) -> bool
    ensures { result ≡ list_any (λ number. lacks_axis rank (Some number)) numbers.now }
{
    numbers.iter().any(|number| lacks_axis(rank, Some(*number)))
}

/// Whether some axis of the result is none of B's.
fn leaves_gap(numbers: &[i64]) -> bool
    ensures { result ≡ leaves_gap (axes_named numbers.now) }
{
    (0..axis_count(numbers)).any(|axis| !is_named(numbers, axis))
}

/// Whether a number names an axis, from 0.
fn is_named(numbers: &[i64], axis: usize) -> bool
    ensures { result ≡ list_any (λ named. named == axis) (axes_named numbers.now) }
{
    match numbers.split_first() {
        None => false,
        Some((first, rest)) => axis_named(*first) == axis || is_named(rest, axis),
    }
}

/// The axis that a number names, from 0.
fn axis_named(number: i64) -> usize
    ensures { result ≡ unsigned_abs number - 1 }
{
    number.unsigned_abs().saturating_sub(1) as usize
}

/// How many axes the result has.
fn axis_count(numbers: &[i64]) -> usize
    ensures value { result ≡ axis_count (axes_named numbers.now) }
{
    match numbers.split_first() {
        None => 0,
        Some((first, rest)) => (axis_named(*first) + 1).max(axis_count(rest)),
    }
}

/// B with its axes in other places. The result has no more elements than B.
fn transposed_by(alloc: Global, a: &Array, b: &Array) -> Result<Array, WantOfMemory>
    requires { None ≡ first_report (axes_by_faults a.now b.now) }
    ensures { IfOk result (λ array. array ≡ transposed_by (axes_named (numbers_in a.now.items)) b.now) }
{
    let numbers = a.numbers();
    let axes = diagonal_shape(alloc, numbers, b.shape())?;
    moved_by(alloc, numbers, b, axes.as_slice())
}

/// The shape of the result.
fn diagonal_shape(alloc: Global, numbers: &[i64], shape: &[u32]) -> Result<Vec<u32>, WantOfMemory>
    ensures { IfOk result (λ axes. axes.items ≡ diagonal_shape (axes_named numbers.now) shape.now) }
{
    let count = axis_count(numbers);
    Ok(
        (0..count)
            .map(|axis| least_length(numbers, shape, axis))
            .collect(alloc)?,
    )
}

/// The least length of the axes that become an axis of the result.
fn least_length(numbers: &[i64], shape: &[u32], axis: usize) -> u32
    ensures { result ≡ least_length (axes_named numbers.now) shape.now axis }
{
    match numbers.split_first() {
        None => ELEMENT_LIMIT as u32,
        Some((first, others)) => match shape.split_first() {
            None => ELEMENT_LIMIT as u32,
            Some((length, rest)) => {
                let least = least_length(others, rest, axis);
                if axis_named(*first) == axis {
                    (*length).min(least)
                } else {
                    least
                }
            }
        },
    }
}

/// The items of B with its axes in other places, in the shape of the result.
fn moved_by(alloc: Global, numbers: &[i64], b: &Array, shape: &[u32]) -> Result<Array, WantOfMemory>
    requires fits { FitsLimits shape.now }
    requires shape { shape.now ≡ diagonal_shape (axes_named numbers.now) b.now.shape }
    requires rank { length numbers.now ≡ length b.now.shape }
    ensures { IfOk result (λ array. array ≡ transposed_by (axes_named numbers.now) b.now) }
{
    let items = b.items();
    let count = items.len();
    if count == 0 {
        let none = filled(alloc, items, count_of_elements(shape))?;
        return Array::shaped(alloc, shape, none);
    }
    let strides = strides_of(alloc, b.shape())?;
    let steps = steps_of(alloc, numbers, strides.as_slice(), shape.len())?;
    let axes = AxisSteps {
        steps: steps.as_slice(),
    };
    Array::shaped(alloc, shape, moved_by_axes(alloc, items, shape, &axes)?)
}

/// How far apart neighbours along each axis of the result stand in B.
fn steps_of(
    alloc: Global,
    numbers: &[i64],
    strides: &[u16],
    count: usize,
) -> Result<Vec<u32>, WantOfMemory>
    requires { length strides.now ≤ 8 }
    ensures { IfOk result (λ steps. steps.items ≡ map (step_along (axes_named numbers.now) strides.now) (places count)) }
{
    let mut steps = room_for(alloc, count)?;
    for axis in 0..count {
        steps.push_reserved(step_of(numbers, strides, axis));
    }
    Ok(steps)
}

/// How far apart neighbours along an axis of the result stand in B.
fn step_of(numbers: &[i64], strides: &[u16], axis: usize) -> u32
    requires { length strides.now ≤ 8 }
    ensures value { result ≡ step_along (axes_named numbers.now) strides.now axis }
    ensures small { result ≤ 65535 * length strides.now }
{
    match numbers.split_first() {
        None => 0,
        Some((first, others)) => match strides.split_first() {
            None => 0,
            Some((stride, rest)) => {
                let step = step_of(others, rest, axis);
                if axis_named(*first) == axis {
                    u32::from(*stride) + step
                } else {
                    step
                }
            }
        },
    }
}

/// The axes of a result, by how far apart neighbours along them stand in its argument.
#[derive(Drop)]
struct AxisSteps<'a> {
    steps: &'a [u32],
}

impl Axes for AxisSteps<'_> {
    ghost use Rattle.std.specs.Prelude.{◌*◌, Some, min, slice_index};

    ghost length_of = { λ _ _. 16384 };

    ghost offset = { λ s axis along. Some (along * min (slice_index s.steps.now axis) 262143) };

    // A step is at the most eight times 16,384.
    fn offset(&self, axis: usize, along: usize) -> Option<usize> {
        let step = length_of(self.steps, axis).min(262_143);
        Some(along * step as usize)
    }
}
