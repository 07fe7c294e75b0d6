ghost use Rattle.std.specs.Prelude.{◌≡◌, ◌≢◌, pos};
ghost use Rattle.apl_scalar.specs.Counting.{residue};
ghost use Rattle.apl_scalar.specs.Table.{dyadic_item, item_of_chars, is_truth, truth};

use apl_verbs::Dyad;

/// The sum.
pub fn plus(a: i64, b: i64) -> Option<i64>
    ensures { result ≡ dyadic_item Dyad.Plus a b }
{
    a.checked_add(b)
}

/// The difference.
pub fn minus(a: i64, b: i64) -> Option<i64>
    ensures { result ≡ dyadic_item Dyad.Minus a b }
{
    a.checked_sub(b)
}

/// The product.
pub fn times(a: i64, b: i64) -> Option<i64>
    ensures { result ≡ dyadic_item Dyad.Times a b }
{
    a.checked_mul(b)
}

/// The exact quotient.
pub fn divide(a: i64, b: i64) -> Option<i64>
    ensures { result ≡ dyadic_item Dyad.Divide a b }
{
    if b == 0 {
        if a == 0 { Some(1) } else { None }
    } else if a.wrapping_rem(b) == 0 {
        a.checked_div(b)
    } else {
        None
    }
}

/// The greater one.
pub fn maximum(a: i64, b: i64) -> Option<i64>
    ensures { result ≡ dyadic_item Dyad.Maximum a b }
{
    Some(a.max(b))
}

/// The lesser one.
pub fn minimum(a: i64, b: i64) -> Option<i64>
    ensures { result ≡ dyadic_item Dyad.Minimum a b }
{
    Some(a.min(b))
}

/// The residue of the second by the first.
pub fn residue(a: i64, b: i64) -> Option<i64>
    ensures { result ≡ dyadic_item Dyad.Residue a b }
{
    if a == 0 {
        Some(b)
    } else {
        Some(floor_remainder(b, a))
    }
}

/// What is left of a number by a divisor, with the divisor's sign.
#[tactic(auto, using(crate::proofs::Residues::residues))]
fn floor_remainder(number: i64, divisor: i64) -> i64
    requires { divisor ≢ pos 0 }
    ensures { result ≡ residue divisor number }
{
    let rest = number.wrapping_rem(divisor);
    if divisor > 0 {
        if rest < 0 { rest + divisor } else { rest }
    } else if rest > 0 {
        rest + divisor
    } else {
        rest
    }
}

/// 1 where both are 1.
pub fn and(a: i64, b: i64) -> Option<i64>
    ensures { result ≡ dyadic_item Dyad.And a b }
{
    if is_truth(a) && is_truth(b) {
        Some(a & b)
    } else {
        None
    }
}

/// 1 where one of them is 1.
pub fn or(a: i64, b: i64) -> Option<i64>
    ensures { result ≡ dyadic_item Dyad.Or a b }
{
    if is_truth(a) && is_truth(b) {
        Some(a | b)
    } else {
        None
    }
}

/// 0 where both are 1.
pub fn nand(a: i64, b: i64) -> Option<i64>
    ensures { result ≡ dyadic_item Dyad.Nand a b }
{
    if is_truth(a) && is_truth(b) {
        Some(1 - (a & b))
    } else {
        None
    }
}

/// 0 where one of them is 1.
pub fn nor(a: i64, b: i64) -> Option<i64>
    ensures { result ≡ dyadic_item Dyad.Nor a b }
{
    if is_truth(a) && is_truth(b) {
        Some(1 - (a | b))
    } else {
        None
    }
}

/// Whether the first is less.
pub fn less(a: i64, b: i64) -> Option<i64>
    ensures { result ≡ dyadic_item Dyad.Less a b }
{
    Some(truth(a < b))
}

/// Whether the first is not greater.
pub fn not_greater(a: i64, b: i64) -> Option<i64>
    ensures { result ≡ dyadic_item Dyad.NotGreater a b }
{
    Some(truth(a <= b))
}

/// Whether they are equal.
pub fn equal(a: i64, b: i64) -> Option<i64>
    ensures { result ≡ dyadic_item Dyad.Equal a b }
{
    Some(truth(a == b))
}

/// Whether the first is not less.
pub fn not_less(a: i64, b: i64) -> Option<i64>
    ensures { result ≡ dyadic_item Dyad.NotLess a b }
{
    Some(truth(a >= b))
}

/// Whether the first is greater.
pub fn greater(a: i64, b: i64) -> Option<i64>
    ensures { result ≡ dyadic_item Dyad.Greater a b }
{
    Some(truth(a > b))
}

/// Whether they differ.
pub fn not_equal(a: i64, b: i64) -> Option<i64>
    ensures { result ≡ dyadic_item Dyad.NotEqual a b }
{
    Some(truth(a != b))
}

/// Whether two characters are the same.
pub fn same(alike: bool) -> Option<i64>
    ensures { result ≡ item_of_chars Dyad.Equal alike }
{
    Some(truth(alike))
}

/// Whether two characters differ.
pub fn different(alike: bool) -> Option<i64>
    ensures { result ≡ item_of_chars Dyad.NotEqual alike }
{
    Some(truth(!alike))
}

/// 1 for true, 0 for false.
pub fn truth(holds: bool) -> i64
    ensures { result ≡ truth holds }
{
    if holds { 1 } else { 0 }
}

/// Whether a number is 0 or 1.
pub(crate) fn is_truth(number: i64) -> bool
    ensures { result ≡ is_truth number }
{
    number == 0 || number == 1
}
