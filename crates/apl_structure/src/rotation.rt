ghost use Rattle.std.specs.Prelude.{◌≡◌, ◌<◌, ◌≤◌, None, IfOk, IfSome, length, map, not};
ghost use Rattle.apl_items.specs.Answers.{Answers, first_report};
ghost use Rattle.apl_items.specs.Places.{OnWantOfMemory};
ghost use Rattle.apl_structure.specs.Rotation.{fits_around, rotate_faults, rotate_of, rotated, turn_of, turned_from, wrapped};

use crate::moves::moved_on;
use apl_arrays::{Array, Fail, Report, WantOfMemory, Way};
use apl_items::{Along, axis_of, is_single, lacks_axis};
use apl_selection::length_of;
use std::alloc::Global;

/// An array whose lines along an axis, the last or the first where none is named, are turned: A says how many items go from
/// the front of a line to its end; a scalar is unchanged. RANK where A has not one element and its rank is not one less
/// than B's, else LENGTH where its shape is not B's without the axis, else DOMAIN where it is of characters, else INDEX
/// where the axis is not from 1 to the rank. Where there is no report it takes memory for the result, and for a number for
/// each line.
pub fn rotate(
    alloc: Global,
    a: &Array,
    b: &Array,
    way: Way,
    axis: Option<i64>,
) -> Result<Array, Fail>
    ensures answer { Answers result (rotate_of a.now b.now way axis) }
    ensures memory { OnWantOfMemory result (first_report (rotate_faults a.now b.now way axis) ≡ None) }
{
    match rotate_report(a, b, way, axis) {
        Some(report) => Err(Fail::Report(report)),
        None => Ok(rotated(alloc, a, b, axis_of(b.shape().len(), way, axis))?),
    }
}

/// The report on a rotation, if there is one.
fn rotate_report(a: &Array, b: &Array, way: Way, axis: Option<i64>) -> Option<Report>
    ensures { result ≡ first_report (rotate_faults a.now b.now way axis) }
{
    let rank = b.shape().len();
    if !is_single(a) && a.shape().len() + 1 != rank {
        Some(Report::Rank)
    } else if !is_single(a)
        && !lacks_axis(rank, axis)
        && differs_around(a.shape(), b.shape(), axis_of(rank, way, axis))
    {
        Some(Report::Length)
    } else if a.is_chars() {
        Some(Report::Domain)
    } else if lacks_axis(rank, axis) {
        Some(Report::Index)
    } else {
        None
    }
}

/// Whether A has not B's axes but one.
fn differs_around(a: &[u32], b: &[u32], axis: usize) -> bool
    requires a { axis ≤ length a.now }
    requires b { axis < length b.now }
    ensures { result ≡ not (fits_around axis a.now b.now) }
{
    let (a_front, a_back) = a.split_at(axis);
    let (b_front, _) = b.split_at(axis);
    let (_, b_back) = b.split_at(axis + 1);
    !(a_front == b_front && a_back == b_back)
}

/// The lines of B along an axis, each turned as far as its number of A says; a scalar is unchanged.
fn rotated(alloc: Global, a: &Array, b: &Array, axis: usize) -> Result<Array, WantOfMemory>
    requires { 0 < length b.now.shape → axis < length b.now.shape }
    ensures { IfOk result (λ array. array ≡ rotated a.now b.now axis) }
{
    if b.shape().is_empty() {
        return Ok(b.copy(alloc)?);
    }
    let length = length_of(b.shape(), axis);
    let turns = turns_of(alloc, a.numbers(), length)?;
    let rule = TurnedLines {
        turns: turns.as_slice(),
        length,
    };
    moved_on(alloc, b, axis, &rule)
}

/// How far each number turns an axis.
fn turns_of(alloc: Global, numbers: &[i64], length: u32) -> Result<Vec<u32>, WantOfMemory>
    ensures { IfOk result (λ turns. turns.items ≡ map (λ number. turn_of number length) numbers.now) }
{
    Ok(
        numbers
            .iter()
            .map(|number| turn_of(*number, length))
            .collect(alloc)?,
    )
}

/// How far a number turns an axis.
fn turn_of(number: i64, length: u32) -> u32
    ensures { result ≡ turn_of number length }
{
    if length == 0 {
        0
    } else {
        number.rem_euclid(i64::from(length)) as u32
    }
}

/// Where the items of turned lines come from.
#[derive(Drop)]
struct TurnedLines<'a> {
    turns: &'a [u32],
    length: u32,
}

impl Along for TurnedLines<'_> {
    ghost use Rattle.std.specs.Prelude.{length, slice_index};
    ghost use Rattle.apl_items.specs.Extension.{place_in};
    ghost use Rattle.apl_structure.specs.Rotation.{turned_from};

    ghost length = { λ t. t.length };

    ghost from = { λ t line along. turned_from (slice_index t.turns.now (place_in (length t.turns.now) line)) t.length along };

    fn length(&self) -> usize {
        self.length as usize
    }

    fn from(&self, line: usize, along: usize) -> Option<usize> {
        let line = if self.turns.len() == 1 { 0 } else { line };
        turned_from(length_of(self.turns, line), self.length, along)
    }
}

/// Where along an axis an item comes from that is turned so far.
fn turned_from(turn: u32, length: u32, along: usize) -> Option<usize>
    ensures value { result ≡ turned_from turn length along }
    ensures inside { IfSome result (λ place. place < length) }
{
    if along >= length as usize {
        return None;
    }
    let place = wrapped(along + turn as usize, length as usize);
    if place < length as usize {
        Some(place)
    } else {
        None
    }
}

/// A place along an axis, where the first follows the last.
fn wrapped(place: usize, length: usize) -> usize
    ensures { result ≡ wrapped place length }
{
    if place < length {
        place
    } else {
        place - length
    }
}
