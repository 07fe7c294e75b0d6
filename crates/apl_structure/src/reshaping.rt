ghost use Rattle.std.specs.Prelude.{◌≡◌, ◌+◌, ◌%◌, ◌<◌, None, IfOk, IsOk};
ghost use Rattle.std.specs.Int.{is_negative};
ghost use Rattle.std.specs.List.{list_any};
ghost use Rattle.apl_arrays.specs.Array.{FitsLimits, element_count, item_count};
ghost use Rattle.apl_items.specs.Answers.{Answers, AnswersFirst, first_report};
ghost use Rattle.apl_items.specs.Places.{OnWantOfMemory};
ghost use Rattle.apl_structure.specs.Reshaping.{is_hollow, reshape_faults, reshape_of, reshaped};

use crate::lengths::{capped, pass_limits};
use apl_arrays::{Array, Fail, RANK_LIMIT, Report, WantOfMemory, count_of_elements};
use apl_items::{Walk, moved};
use apl_selection::filled;
use std::alloc::Global;

/// An array of the shape A, of B's items, from the first again where they end. RANK where A is of rank over 1 or has
/// over eight numbers, else DOMAIN where it is of characters, has a negative number, or asks for items where B has
/// none, else WS FULL where the result is too large, each also where there is no memory. It takes memory for the result.
pub fn reshape(alloc: Global, a: &Array, b: &Array) -> Result<Array, Fail>
    ensures answer { Answers result (reshape_of a.now b.now) }
    ensures memory { OnWantOfMemory result (IsOk (reshape_of a.now b.now)) }
{
    match reshape_report(a, b) {
        Some(report) => Err(Fail::Report(report)),
        None => shaped_by(alloc, a, b),
    }
}

/// The report on a shape for B of something else than its size, if there is one.
fn reshape_report(a: &Array, b: &Array) -> Option<Report>
    ensures { result ≡ first_report (reshape_faults a.now b.now) }
{
    let numbers = a.numbers();
    if a.shape().len() > 1 || a.items().len() > RANK_LIMIT {
        Some(Report::Rank)
    } else if a.is_chars() || has_negative(numbers) || b.items().len() == 0 && !is_hollow(numbers) {
        Some(Report::Domain)
    } else {
        None
    }
}

/// Whether a number is negative.
fn has_negative(numbers: &[i64]) -> bool
    ensures { result ≡ list_any is_negative numbers.now }
{
    numbers.iter().any(|number| *number < 0)
}

/// Whether an array of these lengths has no items, since one of them is 0.
fn is_hollow(numbers: &[i64]) -> bool
    ensures { result ≡ is_hollow numbers.now }
{
    numbers.iter().any(|number| *number == 0)
}

/// B's items in the shape A, or WS FULL where that is too large.
fn shaped_by(alloc: Global, a: &Array, b: &Array) -> Result<Array, Fail>
    requires { None ≡ first_report (reshape_faults a.now b.now) }
    ensures { AnswersFirst result (reshape_of a.now b.now) }
{
    let numbers = a.numbers();
    let lengths = capped(numbers);
    let shape = lengths.as_slice();
    if pass_limits(numbers, shape) {
        return Err(Fail::Report(Report::WsFull));
    }
    Ok(reshaped(alloc, b, shape)?)
}

/// B's items, from the first again where they end.
fn reshaped(alloc: Global, b: &Array, shape: &[u32]) -> Result<Array, WantOfMemory>
    requires fits { FitsLimits shape.now }
    requires some { item_count b.now.items ≡ 0 → element_count shape.now ≡ 0 }
    ensures { IfOk result (λ array. array ≡ reshaped shape.now b.now) }
{
    let count = count_of_elements(shape);
    let items = b.items();
    if count == 0 {
        return Array::shaped(alloc, shape, filled(alloc, items, 0)?);
    }
    let walk = Cycle {
        at: 0,
        length: items.len(),
        left: count,
    };
    Array::shaped(alloc, shape, moved(alloc, items, count, walk)?)
}

/// A walk over the items of a list, over and over.
#[derive(Drop)]
struct Cycle {
    at: usize,
    length: usize,
    left: usize,
    ghost inside: { at < length },
}

impl Walk for Cycle {
    ghost use Rattle.std.specs.Prelude.{◌+◌, ◌%◌, Some};

    ghost left = { λ w. w.left };

    ghost source = { λ w n. Some ((w.at + n) % w.length) };

    fn advance(&mut self) -> Option<usize> {
        let place = self.at;
        let next = after(place, self.length);
        self.at = next;
        self.left -= 1;
        Some(place)
    }
}

/// The place after this one, or the first after the last.
fn after(place: usize, length: usize) -> usize
    requires { place < length }
    ensures value { result ≡ (place + 1) % length }
    ensures inside { result < length }
{
    if place + 1 == length { 0 } else { place + 1 }
}
