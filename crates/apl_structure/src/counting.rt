ghost use Rattle.std.specs.Prelude.{◌≡◌, ◌+◌, ◌≤◌, None, pos, IfOk, map, unsigned_abs};
ghost use Rattle.apl_arrays.specs.Array.{numbers};
ghost use Rattle.apl_items.specs.Answers.{Answers, first_report};
ghost use Rattle.apl_items.specs.Extension.{number_at};
ghost use Rattle.apl_items.specs.Places.{OnWantOfMemory, places};
ghost use Rattle.apl_structure.specs.Counting.{iota_faults, iota_of, lone_number};

use apl_arrays::{
    Array, ELEMENT_LIMIT, Fail, Items, ItemsRef, List, NumberList, Report, WantOfMemory,
};
use apl_items::is_single;
use std::alloc::Global;

/// The numbers from 1 to the number of an array. RANK where the array is of rank over 1, else LENGTH where it has not
/// one element, else DOMAIN where it is a character or negative, else WS FULL where it is over 16,384. Where there is no
/// report it takes memory for the result.
pub fn iota(alloc: Global, b: &Array) -> Result<Array, Fail>
    ensures answer { Answers result (iota_of b.now) }
    ensures memory { OnWantOfMemory result (first_report (iota_faults b.now) ≡ None) }
{
    match iota_report(b) {
        Some(report) => Err(Fail::Report(report)),
        None => {
            let count = lone_number(b).unsigned_abs() as usize;
            let numbers = first_numbers(alloc, count)?;
            Ok(Array::shaped(
                alloc,
                &[count as u32],
                Items::Numbers(NumberList::from(numbers)),
            )?)
        }
    }
}

/// The report on a count of numbers, if there is one.
fn iota_report(b: &Array) -> Option<Report>
    ensures { result ≡ first_report (iota_faults b.now) }
{
    if b.shape().len() > 1 {
        Some(Report::Rank)
    } else if !is_single(b) {
        Some(Report::Length)
    } else if b.is_chars() || lone_number(b) < 0 {
        Some(Report::Domain)
    } else if lone_number(b).unsigned_abs() > ELEMENT_LIMIT as u64 {
        Some(Report::WsFull)
    } else {
        None
    }
}

/// The number of an array with one, else 0.
fn lone_number(b: &Array) -> i64
    ensures { result ≡ lone_number b.now }
{
    match b.items() {
        ItemsRef::Numbers(numbers) => first_or_0(numbers),
        ItemsRef::Chars(_) => 0,
    }
}

/// The first number of a list, else 0.
fn first_or_0(list: &[i64]) -> i64
    ensures { result ≡ number_at list.now 0 }
{
    match list.first() {
        Some(number) => *number,
        None => 0,
    }
}

/// The numbers from 1 to a count.
fn first_numbers(alloc: Global, count: usize) -> Result<List<i64>, WantOfMemory>
    requires { count ≤ 16384 }
    ensures { IfOk result (λ list. list.items ≡ map (λ place. pos (place + 1)) (places count)) }
{
    let mut numbers = List::new(alloc);
    numbers.reserve(count)?;
    for place in 0..count {
        numbers.push_reserved(number_after(place));
    }
    Ok(numbers)
}

/// The number that stands at a place of the numbers from 1 on.
fn number_after(place: usize) -> i64
    requires { place ≤ 16384 }
    ensures { result ≡ pos (place + 1) }
{
    (place + 1) as i64
}
