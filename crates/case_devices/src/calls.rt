ghost use Rattle.std.specs.Prelude.{◌≡◌, ◌<◌, [], ◌∷◌, IfOk};

use anyhow::{Context, Result, bail, ensure};
use apl_io::CallNumbers;
use std::alloc::Global;

// One number.
fn one_call(alloc: Global, number: u64) -> Result<CallNumbers>
    ensures { IfOk result (λ calls. calls.items ≡ number ∷ []) }
{
    let mut calls = CallNumbers::new(alloc);
    calls.push(number)?;
    Ok(calls)
}

// Two numbers, which ascend.
fn two_calls(alloc: Global, first: u64, second: u64) -> Result<CallNumbers>
    requires { first < second }
    ensures { IfOk result (λ calls. calls.items ≡ first ∷ second ∷ []) }
{
    let mut calls = one_call(alloc, first)?;
    calls.push(second)?;
    Ok(calls)
}

// Three numbers, which ascend.
fn three_calls(alloc: Global, first: u64, second: u64, third: u64) -> Result<CallNumbers>
    requires first { first < second }
    requires second { second < third }
{
    let mut calls = two_calls(alloc, first, second)?;
    calls.push(third)?;
    Ok(calls)
}

// The numbers of calls, which are three at most.
fn ascending(alloc: Global, numbers: &[u64]) -> Result<CallNumbers> {
    match numbers {
        [] => Ok(CallNumbers::new(alloc)),
        [first] => one_call(alloc, *first),
        [first, second] => {
            ensure!(*first < *second, "the numbers of calls ascend");
            two_calls(alloc, *first, *second)
        }
        [first, second, third] => {
            ensure!(*first < *second, "the numbers of calls ascend");
            ensure!(*second < *third, "the numbers of calls ascend");
            three_calls(alloc, *first, *second, *third)
        }
        _ => bail!("at most three numbers of calls"),
    }
}

/// The numbers of calls that a field says: three at most, which ascend. Memory for them.
pub fn calls_of(alloc: Global, field: &str) -> Result<CallNumbers> {
    let mut numbers = Vec::new(alloc);
    for word in field.split_whitespace() {
        numbers.push(word.parse().context("no number of a call")?)?;
    }
    ascending(alloc, &numbers)
}
