ghost use Rattle.std.specs.Prelude.{◌≡◌, ◌<◌, ◌≤◌, ◌+◌, ◌^◌, ◌≤ℤ◌, true, pos, nat_lt, if◌then◌else◌};
ghost use Rattle.apl_scalar.specs.Counting.{factorial, ways};
ghost use Rattle.apl_scalar.specs.Table.{monadic_item, dyadic_item, item_where};

use apl_verbs::{Dyad, Monad};

/// The power.
pub fn power(a: i64, b: i64) -> Option<i64>
    ensures { result ≡ dyadic_item Dyad.Power a b }
{
    if b < 0 {
        None
    } else if b < 64 {
        a.checked_pow(b as u32)
    } else {
        high_power(a, b)
    }
}

/// The power at an exponent so great that 0, 1 and -1 alone have one of 64 bits.
#[tactic(auto, using(crate::proofs::Powers::high_powers))]
fn high_power(base: i64, exponent: i64) -> Option<i64>
    requires { pos 64 ≤ℤ exponent }
    ensures { result ≡ dyadic_item Dyad.Power base exponent }
{
    if base == 0 || base == 1 {
        Some(base)
    } else if base == -1 {
        if exponent % 2 == 0 { Some(1) } else { Some(-1) }
    } else {
        None
    }
}

/// The factorial.
#[tactic(auto, using(crate::proofs::Factorials::factorials))]
pub fn factorial(b: i64) -> Option<i64>
    ensures { result ≡ monadic_item Monad.Factorial b }
{
    if b < 0 || b > 20 {
        None
    } else {
        Some(small_factorial(b as u64) as i64)
    }
}

/// The factorial of a number so small that it has 64 bits.
#[tactic(auto, using(crate::proofs::Factorials::factorials))]
fn small_factorial(number: u64) -> u64
    requires { number ≤ 20 }
    ensures value { result ≡ factorial number }
    ensures bound { result < 2 ^ 63 }
{
    let mut product = 1;
    for count in 0..number {
        product *= count + 1;
    }
    product
}

/// The ways to take so many things.
pub fn binomial(a: i64, b: i64) -> Option<i64>
    ensures { result ≡ dyadic_item Dyad.Binomial a b }
{
    if a < 0 || b < 0 {
        None
    } else {
        ways_to_take(a as u64, b as u64)
    }
}

/// The ways to take so many of these things, by the lesser of the two heaps, or `None` where they pass 64 bits.
#[tactic(auto, using(crate::proofs::Ways::choices))]
fn ways_to_take(taken: u64, things: u64) -> Option<i64>
    requires { things < 2 ^ 63 }
    ensures { result ≡ item_where true (pos (ways taken things)) }
{
    if things < taken {
        Some(0)
    } else if taken <= things - taken {
        ways_of(taken, things - taken)
    } else {
        ways_of(things - taken, taken)
    }
}

/// The ways to part things in two heaps of these sizes, the first no greater than the second, or `None` where they
/// pass 64 bits. With each step the ways at least double.
#[tactic(auto, using(crate::proofs::Ways::choices))]
fn ways_of(taken: u64, left: u64) -> Option<i64>
    requires { left + taken < 2 ^ 63 }
    ensures { result ≡ item_where true (pos (ways taken (left + taken))) }
{
    let mut ways = 1;
    for done in 0..taken {
        match next_ways(ways, left, done) {
            Some(next) => ways = next,
            None => return None,
        }
    }
    Some(ways as i64)
}

/// The ways with one thing taken more, or `None` where they pass 64 bits.
#[tactic(auto, using(crate::proofs::Ways::choices))]
fn next_ways(now: u64, left: u64, done: u64) -> Option<u64>
    requires now { now ≡ ways done (left + done) }
    requires small { now < 2 ^ 63 }
    requires room { left + done + 1 < 2 ^ 63 }
    ensures { result ≡ (if nat_lt (ways (done + 1) (left + (done + 1))) (2 ^ 63) then Some (ways (done + 1) (left + (done + 1))) else None) }
{
    let next = u128::from(now) * u128::from(left + done + 1) / u128::from(done + 1);
    if next < 1 << 63 {
        Some(next as u64)
    } else {
        None
    }
}
