ghost use Rattle.std.specs.Prelude.{◌≡◌, ◌≢◌, ◌*ℤ◌, ◌+◌, ◌-◌, ◌*◌, ◌<◌, ◌≤◌, ◌^◌, None, false, pos, true, IfOk, length, slice_index_or, unsigned_abs};
ghost use Rattle.apl_items.specs.Answers.{Answers, first_report};
ghost use Rattle.apl_items.specs.Places.{OnWantOfMemory, items_by, lacks_item};
ghost use Rattle.apl_scalar.specs.Counting.{floor_quotient, residue};
ghost use Rattle.apl_scalar.specs.Table.{item_where, least};
ghost use Rattle.apl_search.specs.Encode.{AreBefore, digit_at, digit_for, digits_of, encode_faults, encode_of, encode_misfit, rest_by};

use crate::numbers::small;
use apl_arrays::{
    Array, ELEMENT_LIMIT, Fail, Items, List, NumberList, RANK_LIMIT, Report, WantOfMemory,
};
use apl_items::joined_shape;
use apl_scalar::read_all;
use std::alloc::Global;

/// The digits of numbers by bases, in the shape of the bases and then that of the numbers. From the last base to the
/// first a digit is the residue of what is left of the number, and then as much is left as the base goes into it, or 0
/// where the base is 0. RANK where the bases are of rank over 1 or the digits would be of rank over 8, else DOMAIN where an
/// argument is of characters or a digit leaves 64 bits, else WS FULL where the digits are over 16,384. Where there
/// is no report it takes memory for the digits.
pub fn encode(alloc: Global, a: &Array, b: &Array) -> Result<Array, Fail>
    ensures answer { Answers result (encode_of a.now b.now) }
    ensures memory { OnWantOfMemory result (first_report (encode_faults a.now b.now) ≡ None) }
{
    match encode_report(a, b) {
        Some(report) => Err(Fail::Report(report)),
        None => Ok(encoded(alloc, a, b)?),
    }
}

/// The report on bases and numbers, if there is one.
fn encode_report(a: &Array, b: &Array) -> Option<Report>
    ensures { result ≡ first_report (encode_faults a.now b.now) }
{
    match encode_misfit(a, b) {
        Some(report) => Some(report),
        None => digits_report(a, b),
    }
}

/// The report on the shapes and kinds of bases and numbers, if there is one.
fn encode_misfit(a: &Array, b: &Array) -> Option<Report>
    ensures { result ≡ first_report (encode_misfit a.now b.now) }
{
    if a.shape().len() > 1 || a.shape().len() + b.shape().len() > RANK_LIMIT {
        Some(Report::Rank)
    } else if a.is_chars() || b.is_chars() {
        Some(Report::Domain)
    } else {
        None
    }
}

/// The report on digits, if there is one: DOMAIN where one of them leaves 64 bits, else WS FULL where they are too many.
fn digits_report(a: &Array, b: &Array) -> Option<Report>
    requires { first_report (encode_misfit a.now b.now) ≡ None }
    ensures { result ≡ first_report (encode_faults a.now b.now) }
{
    let bases = a.items().numbers();
    let numbers = b.items().numbers();
    if lacks_digit(bases, numbers) {
        Some(Report::Domain)
    } else if bases.len() * numbers.len() > ELEMENT_LIMIT {
        Some(Report::WsFull)
    } else {
        None
    }
}

/// Whether a digit leaves 64 bits. Only one of the least number can, so the digits of others are not made.
fn lacks_digit(bases: &[i64], numbers: &[i64]) -> bool
    ensures { result ≡ lacks_item (length bases.now * length numbers.now) (digit_for bases.now numbers.now) }
{
    read_all(bases);
    read_all(numbers);
    numbers.contains(&i64::MIN) && least_lacks(bases)
}

/// The number at a place.
fn item_at(list: &[i64], place: usize) -> i64
    requires { place < length list.now }
    ensures { result ≡ slice_index_or list.now place (pos 0) }
{
    list[place]
}

/// Whether a digit of the least number leaves 64 bits.
fn least_lacks(bases: &[i64]) -> bool
    ensures { result ≡ lacks_item (length bases.now) (λ at. item_where true (digit_at bases.now least at)) }
{
    let mut rest = i128::from(i64::MIN);
    for done in 0..bases.len() {
        let base = item_at(bases, bases.len() - 1 - done);
        let (digit, left) = taken_off(base, rest);
        if small(digit).is_none() {
            return true;
        }
        rest = left;
    }
    false
}

/// The digits of numbers by bases, where each is in 64 bits and they are not too many.
fn encoded(alloc: Global, a: &Array, b: &Array) -> Result<Array, WantOfMemory>
    requires { first_report (encode_faults a.now b.now) ≡ None }
    ensures { IfOk result (λ array. array ≡ digits_of a.now b.now) }
{
    let bases = a.items().numbers();
    let numbers = b.items().numbers();
    let digits = digits(alloc, bases, numbers)?;
    let shape = joined_shape(a.shape(), b.shape());
    Array::shaped(
        alloc,
        shape.as_slice(),
        Items::Numbers(NumberList::from(digits)),
    )
}

/// The digits of numbers by bases: those of a number stand in a column, and are put in from the last base to the first.
/// It asks once for memory.
fn digits(alloc: Global, bases: &[i64], numbers: &[i64]) -> Result<List<i64>, WantOfMemory>
    requires few { length bases.now * length numbers.now ≤ 16384 }
    requires all { lacks_item (length bases.now * length numbers.now) (digit_for bases.now numbers.now) ≡ false }
    ensures whole { IfOk result (λ digits. length digits.items ≡ length bases.now * length numbers.now) }
    ensures items { IfOk result (λ digits. digits.items ≡ items_by (length bases.now * length numbers.now) (digit_for bases.now numbers.now)) }
{
    let mut digits = vec![in alloc; 0; bases.len() * numbers.len()]?;
    for column in 0..numbers.len() {
        put_column(&mut digits, bases, numbers, column);
    }
    Ok(List::from(digits))
}

/// Puts the digits of a number in, where those of the numbers before it stand.
fn put_column(digits: &mut [i64], bases: &[i64], numbers: &[i64], column: usize)
    requires len { length digits.old ≡ length bases.now * length numbers.now }
    requires few { length bases.now * length numbers.now ≤ 16384 }
    requires all { lacks_item (length bases.now * length numbers.now) (digit_for bases.now numbers.now) ≡ false }
    requires column { column < length numbers.now }
    requires before { AreBefore bases.now numbers.now digits.old column }
    ensures len { length digits.new ≡ length bases.now * length numbers.now }
    ensures items { AreBefore bases.now numbers.now digits.new (column + 1) }
{
    let mut rest = i128::from(item_at(numbers, column));
    for done in 0..bases.len() {
        let at = bases.len() - 1 - done;
        let base = item_at(bases, at);
        let (digit, left) = taken_off(base, rest);
        digits[at * numbers.len() + column] = digit as i64;
        rest = left;
    }
}

/// The digit of what is left of a number at a base, and what is left after it.
fn taken_off(base: i64, rest: i128) -> (i128, i128)
    requires { unsigned_abs rest ≤ 2 ^ 63 }
    ensures digit { result.0 ≡ residue base rest }
    ensures left { result.1 ≡ rest_by base rest }
    ensures digit_bound { unsigned_abs result.0 ≤ 2 ^ 63 }
    ensures left_bound { unsigned_abs result.1 ≤ 2 ^ 63 }
{
    if base == 0 {
        (rest, 0)
    } else {
        let left = floor_quotient(i128::from(base), rest);
        (rest - wide_product(i128::from(base), left), left)
    }
}

/// The product of two numbers of 64 bits.
fn wide_product(a: i128, b: i128) -> i128
    requires a { unsigned_abs a ≤ 2 ^ 63 }
    requires b { unsigned_abs b ≤ 2 ^ 63 }
    ensures value { result ≡ a *ℤ b }
    ensures bound { unsigned_abs result ≤ 2 ^ 126 }
{
    a * b
}

/// The floor of a number divided by a base. It is no greater in magnitude.
fn floor_quotient(base: i128, number: i128) -> i128
    requires base { base ≢ pos 0 }
    requires base_bound { unsigned_abs base ≤ 2 ^ 63 }
    requires bound { unsigned_abs number ≤ 2 ^ 63 }
    ensures value { result ≡ floor_quotient base number }
    ensures bound { unsigned_abs result ≤ unsigned_abs number }
{
    if base > 0 {
        number.div_euclid(base)
    } else {
        (-number).div_euclid(-base)
    }
}
