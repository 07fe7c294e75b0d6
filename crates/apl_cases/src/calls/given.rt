ghost use Rattle.std.specs.Prelude.{◌≡◌, IfOk, length};
ghost use Rattle.apl_arrays.specs.Array.{item_count, plain_items};

use anyhow::{Result, bail};
use apl_arrays::{Array, ArrayRefused, Fail, Items, List, NumberList, Report, WantOfMemory};
use case_tables::Looks;
use std::alloc::Global;

/// The items that are these numbers, in a list also where there is one alone.
pub fn numbers(alloc: Global, numbers: &[i64]) -> Result<Items, Fail>
    ensures { IfOk result (λ items. item_count (plain_items items) ≡ length numbers.now) }
{
    Ok(Items::Numbers(NumberList::from(List::of(alloc, numbers)?)))
}

/// The array of a shape and of numbers, or the report that its items do not fit.
pub fn array(alloc: Global, shape: &[u32], items: &[i64]) -> Result<Array, Fail> {
    match Array::try_new(alloc, shape, numbers(alloc, items)?) {
        Ok(array) => Ok(array),
        Err(ArrayRefused::WantOfMemory) => Err(Fail::WantOfMemory),
        Err(_) => Err(Fail::Report(Report::Length)),
    }
}

/// The vector of numbers.
pub fn vector(alloc: Global, items: &[i64]) -> Result<Array, Fail> {
    match u32::try_from(items.len()) {
        Ok(length) => array(alloc, &[length], items),
        Err(_) => Err(Fail::Report(Report::Length)),
    }
}

/// What comes of a value that is lent, and let go then.
pub fn lent<T: Drop, E: Drop, F: FnOnce(&T) -> Result<(), E>>(
    value: Result<T, E>,
    look: F,
) -> Result<(), E>
    requires { F.IsAlwaysCallable look }
{
    match value {
        Ok(value) => look(&value),
        Err(error) => Err(error),
    }
}

/// What comes of two values that are lent, and let go then.
pub fn lent_both<A: Drop, B: Drop, F: FnOnce(&A, &B) -> Result<(), Fail>>(
    first: Result<A, Fail>,
    second: Result<B, Fail>,
    look: F,
) -> Result<(), Fail>
    requires { F.IsAlwaysCallable look }
{
    let first = first?;
    let second = second?;
    look(&first, &second)
}

/// What a call gave, where memory did not run out.
pub fn given<T: Drop>(answer: Result<T, Fail>) -> Result<Result<T, Report>, WantOfMemory> {
    match answer {
        Ok(value) => Ok(Ok(value)),
        Err(Fail::Report(report)) => Ok(Err(report)),
        Err(Fail::WantOfMemory) => Err(WantOfMemory),
    }
}

/// Counts a case, which differs where a call did not give what is wanted.
pub fn look_at<T: Drop + PartialEq>(
    looks: &mut Looks,
    answer: Result<T, Fail>,
    wanted: Result<T, Fail>,
) -> Result<(), Fail> {
    let wanted = wanted?;
    looks.holds(given(answer)? == Ok(wanted));
    Ok(())
}

/// Counts a case that differs where calls ended early with a report. An `Err` says that memory was refused.
pub fn ended(outcome: Result<(), Fail>, looks: &mut Looks) -> Result<()> {
    match outcome {
        Ok(()) => Ok(()),
        Err(Fail::Report(_)) => {
            looks.holds(false);
            Ok(())
        }
        Err(Fail::WantOfMemory) => bail!("out of memory"),
    }
}
