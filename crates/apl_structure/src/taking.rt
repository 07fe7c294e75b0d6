ghost use Rattle.std.specs.Prelude.{◌≡◌, ◌-◌, ◌<◌, None, pos, IfOk, IsOk, length, map, slice_index, slice_index_or, unsigned_abs};
ghost use Rattle.apl_arrays.specs.Array.{FitsLimits, element_count, item_count, seen_items};
ghost use Rattle.apl_items.specs.Answers.{Answers, AnswersFirst, first_report};
ghost use Rattle.apl_items.specs.Places.{OnWantOfMemory, places};
ghost use Rattle.apl_selection.specs.Picks.{picked};
ghost use Rattle.apl_structure.specs.Lengths.{lengths};
ghost use Rattle.apl_structure.specs.Taking.{axes_faults, axes_for, drop_of, remaining, remaining_from, take_of, taken_from};

use crate::lengths::{capped, pass_limits};
use crate::runs::{remaining_run, taken_run};
use apl_arrays::{Array, Fail, ItemsRef, RANK_LIMIT, Report, WantOfMemory};
use apl_selection::{Picks, length_of, picked};
use std::alloc::Global;

/// Along each axis of B as many items as A says, from its end where that is negative, and the fill beyond them. RANK
/// where A is of rank over 1 or asks a scalar for over eight axes, else LENGTH where A has not one number for each
/// axis, else DOMAIN where A is of characters, else WS FULL where the result is too large, each also where there is no memory.
/// It takes memory for the axes of B, for strides and for the result.
pub fn take(alloc: Global, a: &Array, b: &Array) -> Result<Array, Fail>
    ensures answer { Answers result (take_of a.now b.now) }
    ensures memory { OnWantOfMemory result (IsOk (take_of a.now b.now)) }
{
    match axes_report(a, b) {
        Some(report) => Err(Fail::Report(report)),
        None => taken(alloc, a, b),
    }
}

/// Per axis of B the items without the first, as many as A says, or without the last where A is negative. RANK where A
/// is of rank over 1 or asks a scalar for over eight axes, else LENGTH where A has not one number for each axis, else
/// DOMAIN where A is of characters. Where there is no report it takes memory for the result, and for a shape and strides.
pub fn drop_items(alloc: Global, a: &Array, b: &Array) -> Result<Array, Fail>
    ensures answer { Answers result (drop_of a.now b.now) }
    ensures memory { OnWantOfMemory result (first_report (axes_faults a.now b.now) ≡ None) }
{
    match axes_report(a, b) {
        Some(report) => Err(Fail::Report(report)),
        None => Ok(remaining(alloc, a, b)?),
    }
}

/// The report on the numbers for the axes of B, if there is one.
fn axes_report(a: &Array, b: &Array) -> Option<Report>
    ensures { result ≡ first_report (axes_faults a.now b.now) }
{
    let rank = b.shape().len();
    let count = a.items().len();
    if a.shape().len() > 1 || rank == 0 && count > RANK_LIMIT {
        Some(Report::Rank)
    } else if rank != 0 && count != rank {
        Some(Report::Length)
    } else if a.is_chars() {
        Some(Report::Domain)
    } else {
        None
    }
}

/// Per axis of B the first items or the last, or WS FULL where they are too many.
fn taken(alloc: Global, a: &Array, b: &Array) -> Result<Array, Fail>
    requires { None ≡ first_report (axes_faults a.now b.now) }
    ensures { AnswersFirst result (take_of a.now b.now) }
{
    let items = b.items();
    let numbers = a.numbers();
    let lengths = capped(numbers);
    let shape = lengths.as_slice();
    if pass_limits(numbers, shape) {
        return Err(Fail::Report(Report::WsFull));
    }
    let axes = axes_for(alloc, a.items().len(), b)?;
    let source = axes.as_slice();
    Ok(taken_items(alloc, numbers, items, source, shape)?)
}

/// Per axis of B the items without the first or the last.
fn remaining(alloc: Global, a: &Array, b: &Array) -> Result<Array, WantOfMemory>
    requires { None ≡ first_report (axes_faults a.now b.now) }
    ensures { IfOk result (λ array. array ≡ remaining a.now b.now) }
{
    let numbers = a.numbers();
    let axes = axes_for(alloc, a.items().len(), b)?;
    let source = axes.as_slice();
    let lengths = remaining_shape(alloc, numbers, source)?;
    let shape = lengths.as_slice();
    remaining_items(alloc, numbers, b.items(), source, shape)
}

/// The axes of B, where a scalar has one place along each of so many.
fn axes_for(alloc: Global, count: usize, b: &Array) -> Result<Vec<u32>, WantOfMemory>
    ensures { IfOk result (λ axes. axes.items ≡ axes_for count b.now) }
{
    let shape = b.shape();
    if shape.is_empty() {
        Ok(vec![in alloc; 1; count]?)
    } else {
        Ok(Vec::from_slice(alloc, shape)?)
    }
}

/// How long the axes of a drop are.
fn remaining_shape(alloc: Global, numbers: &[i64], source: &[u32]) -> Result<Vec<u32>, WantOfMemory>
    ensures { IfOk result (λ shape. shape.items ≡ map (λ axis. slice_index source.now axis - unsigned_abs (slice_index_or numbers.now axis (pos 0))) (places (length source.now))) }
{
    let mut shape = Vec::new(alloc);
    for axis in 0..source.len() {
        shape.push(left_length(numbers, source, axis))?;
    }
    Ok(shape)
}

/// What is left of the length of an axis.
fn left_length(numbers: &[i64], source: &[u32], axis: usize) -> u32
    ensures { result ≡ slice_index source.now axis - unsigned_abs (slice_index_or numbers.now axis (pos 0)) }
{
    let length = u64::from(length_of(source, axis));
    length.saturating_sub(number_for(numbers, axis).unsigned_abs()) as u32
}

/// The number for an axis, 0 past the last.
fn number_for(numbers: &[i64], axis: usize) -> i64
    ensures { result ≡ slice_index_or numbers.now axis (pos 0) }
{
    match numbers.get(axis) {
        Some(number) => *number,
        None => 0,
    }
}

/// The array of a shape with the first items along each axis of a source, or the last: of a vector as one run.
fn taken_items(
    alloc: Global,
    numbers: &[i64],
    items: ItemsRef<'_>,
    source: &[u32],
    shape: &[u32],
) -> Result<Array, WantOfMemory>
    requires fits { FitsLimits shape.now }
    requires source { FitsLimits source.now }
    requires whole { element_count source.now ≡ item_count (seen_items items) }
    requires rank { length source.now ≡ length shape.now }
    requires shape { shape.now ≡ lengths numbers.now }
    ensures { IfOk result (λ array. array ≡ picked shape.now source.now (seen_items items.entry) (λ axis along. taken_from (slice_index_or numbers.now axis (pos 0)) (slice_index source.now axis) along)) }
{
    if source.len() == 1 {
        let run = taken_run(alloc, items, number_for(numbers, 0))?;
        return Array::shaped(alloc, shape, run);
    }
    let picks = TakePlaces { numbers, source };
    picked(alloc, items, source, shape, &picks)
}

/// The array of a shape with the items along each axis of a source without the first, or without the last: of a vector as
/// one run.
fn remaining_items(
    alloc: Global,
    numbers: &[i64],
    items: ItemsRef<'_>,
    source: &[u32],
    shape: &[u32],
) -> Result<Array, WantOfMemory>
    requires fits { FitsLimits shape.now }
    requires source { FitsLimits source.now }
    requires whole { element_count source.now ≡ item_count (seen_items items) }
    requires rank { length source.now ≡ length shape.now }
    requires shape { shape.now ≡ map (λ axis. slice_index source.now axis - unsigned_abs (slice_index_or numbers.now axis (pos 0))) (places (length source.now)) }
    ensures { IfOk result (λ array. array ≡ picked shape.now source.now (seen_items items.entry) (λ axis along. remaining_from (slice_index_or numbers.now axis (pos 0)) (slice_index source.now axis) along)) }
{
    if source.len() == 1 {
        let run = remaining_run(alloc, items, number_for(numbers, 0))?;
        return Array::shaped(alloc, shape, run);
    }
    let picks = DropPlaces { numbers, source };
    picked(alloc, items, source, shape, &picks)
}

/// The places of a take.
#[derive(Drop)]
struct TakePlaces<'a> {
    numbers: &'a [i64],
    source: &'a [u32],
}

impl Picks for TakePlaces<'_> {
    ghost use Rattle.std.specs.Prelude.{pos, slice_index, slice_index_or};
    ghost use Rattle.apl_structure.specs.Taking.{taken_from};

    ghost from = { λ t axis along. taken_from (slice_index_or t.numbers.now axis (pos 0)) (slice_index t.source.now axis) along };

    fn from(&self, axis: usize, along: usize) -> Option<usize> {
        taken_from(
            number_for(self.numbers, axis),
            length_of(self.source, axis),
            along,
        )
    }
}

/// Where along an axis the first items stand, or the last where the number is negative.
fn taken_from(number: i64, length: u32, along: usize) -> Option<usize>
    requires { along < 16384 }
    ensures { result ≡ taken_from number length along }
{
    let end = along + length as usize;
    let count = number.unsigned_abs() as usize;
    if number < 0 && count <= end {
        Some(end - count)
    } else if number < 0 {
        None
    } else if along < length as usize {
        Some(along)
    } else {
        None
    }
}

/// The places of a drop.
#[derive(Drop)]
struct DropPlaces<'a> {
    numbers: &'a [i64],
    source: &'a [u32],
}

impl Picks for DropPlaces<'_> {
    ghost use Rattle.std.specs.Prelude.{pos, slice_index, slice_index_or};
    ghost use Rattle.apl_structure.specs.Taking.{remaining_from};

    ghost from = { λ t axis along. remaining_from (slice_index_or t.numbers.now axis (pos 0)) (slice_index t.source.now axis) along };

    fn from(&self, axis: usize, along: usize) -> Option<usize> {
        remaining_from(
            number_for(self.numbers, axis),
            length_of(self.source, axis),
            along,
        )
    }
}

/// Where along an axis the items without the first stand, or without the last where the number is negative.
fn remaining_from(number: i64, length: u32, along: usize) -> Option<usize>
    requires { along < 16384 }
    ensures { result ≡ remaining_from number length along }
{
    let place = if number < 0 {
        along
    } else {
        along + number.unsigned_abs() as usize
    };
    if place < length as usize {
        Some(place)
    } else {
        None
    }
}
