ghost use Rattle.std.specs.Prelude.{◌≡◌, ◌+ℤ◌, ◌*ℤ◌, None, length};
ghost use Rattle.apl_items.specs.Answers.{Answers, first_report};
ghost use Rattle.apl_items.specs.Extension.{Reaches};
ghost use Rattle.apl_items.specs.Places.{OnWantOfMemory};
ghost use Rattle.apl_search.specs.Decode.{counts_differ, decode_faults, decode_of, decode_misfit, shared_count, taken_on, value_after, decoded_value};

use crate::numbers::small;
use apl_arrays::{Array, Fail, Report};
use apl_items::{is_single, number_at};
use std::alloc::Global;

/// The value of digits by bases: of the first digit, and then always times the next base, plus the next digit. One element
/// extends, and no digits have the value 0. RANK where an argument is of rank over 1, else LENGTH where there are not as
/// many digits as bases, else DOMAIN where an argument is of characters or a value leaves 64 bits. It takes no memory.
pub fn decode(alloc: Global, a: &Array, b: &Array) -> Result<Array, Fail>
    ensures answer { Answers result (decode_of a.now b.now) }
    ensures memory { OnWantOfMemory result (first_report (decode_faults a.now b.now) ≡ None) }
{
    match decode_misfit(a, b) {
        Some(report) => Err(Fail::Report(report)),
        None => match value_of(a, b) {
            Some(value) => Ok(Array::scalar(alloc, value)?),
            None => Err(Fail::Report(Report::Domain)),
        },
    }
}

/// The report on the shapes and kinds of bases and digits, if there is one.
fn decode_misfit(a: &Array, b: &Array) -> Option<Report>
    ensures { result ≡ first_report (decode_misfit a.now b.now) }
{
    if a.shape().len() > 1 || b.shape().len() > 1 {
        Some(Report::Rank)
    } else if counts_differ(a, b) {
        Some(Report::Length)
    } else if a.is_chars() || b.is_chars() {
        Some(Report::Domain)
    } else {
        None
    }
}

/// Whether the counts differ where neither array extends.
fn counts_differ(a: &Array, b: &Array) -> bool
    ensures { result ≡ counts_differ a.now b.now }
{
    !is_single(a) && !is_single(b) && a.items().len() != b.items().len()
}

/// How many bases and digits there are, where one element extends.
fn shared_count(a: &Array, b: &Array) -> usize
    ensures { result ≡ shared_count a.now b.now }
{
    if is_single(a) {
        b.items().len()
    } else {
        a.items().len()
    }
}

/// The value of all digits, or `None` where one leaves 64 bits.
fn value_of(a: &Array, b: &Array) -> Option<i64>
    requires { first_report (decode_misfit a.now b.now) ≡ None }
    ensures { result ≡ decoded_value a.now b.now }
{
    value_after(a.items().numbers(), b.items().numbers(), shared_count(a, b))
}

/// The value of so many digits, or `None` where one leaves 64 bits.
fn value_after(bases: &[i64], digits: &[i64], count: usize) -> Option<i64>
    requires bases { Reaches (length bases.now) count }
    requires digits { Reaches (length digits.now) count }
    ensures { result ≡ value_after bases.now digits.now count }
{
    let mut value = Some(0);
    for place in 0..count {
        value = taken_on(number_at(bases, place), number_at(digits, place), value);
    }
    value
}

/// A value times a base, plus a digit, or `None` where that is outside 64 bits, or the value was.
fn taken_on(base: i64, digit: i64, value: Option<i64>) -> Option<i64>
    ensures { result ≡ taken_on base digit value }
{
    small(next_value(value?, base, digit))
}

/// A value times a base, plus a digit.
fn next_value(value: i64, base: i64, digit: i64) -> i128
    ensures { result ≡ value *ℤ base +ℤ digit }
{
    widened_product(value, base) + i128::from(digit)
}

/// The product of two numbers.
fn widened_product(a: i64, b: i64) -> i128
    ensures { result ≡ a *ℤ b }
{
    i128::from(a) * i128::from(b)
}
