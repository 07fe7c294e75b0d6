ghost use Rattle.std.specs.Prelude.{◌≡◌, ◌≤◌, None, IfOk, IsOk, length};
ghost use Rattle.apl_arrays.specs.Array.{IsArray};
ghost use Rattle.apl_items.specs.Answers.{Answers, AnswersFirst, first_report};
ghost use Rattle.apl_items.specs.Places.{OnWantOfMemory};
ghost use Rattle.apl_selection.specs.Expansion.{expand_faults, expand_of, ones, ones_meet, spread};

use crate::flags::{flags_report, is_one};
use crate::listing::{listed_of, listing_fail, meant_axis, meant_length, place_in};
use apl_arrays::{Array, Fail, WantOfMemory, Way};
use apl_items::room_for;
use std::alloc::Global;

/// The items of B along an axis, the last or the first where none is named, where A has 1, and the fill where it has 0. A lone
/// place of the axis is for each 1, and a scalar B is a vector of one item. RANK where A is of rank over 1, else LENGTH where
/// it has not as many ones as the axis has places, else DOMAIN where it holds something else than 0 and 1, else INDEX where
/// the axis is not from 1 to the rank, else WS FULL, each also where there is no memory. It takes memory for a list of places
/// and the result.
pub fn expand(
    alloc: Global,
    a: &Array,
    b: &Array,
    way: Way,
    axis: Option<i64>,
) -> Result<Array, Fail>
    ensures answer { Answers result (expand_of a.now b.now way axis) }
    ensures memory { OnWantOfMemory result (IsOk (expand_of a.now b.now way axis)) }
{
    let fit = ones_meet(a.numbers(), meant_length(b, way, axis) as usize);
    match flags_report(a, b, axis, fit) {
        Some(report) => Err(Fail::Report(report)),
        None => expanded(alloc, a, b, way, axis),
    }
}

/// Whether an axis has one place, or as many as there are ones.
fn ones_meet(flags: &[i64], long: usize) -> bool
    ensures { result ≡ ones_meet flags.now long }
{
    long == 1 || ones(flags) == long
}

/// How many flags are 1.
fn ones(flags: &[i64]) -> usize
    ensures { result ≡ ones flags.now }
{
    flags.iter().filter(|flag| is_one(**flag)).count()
}

/// The items along an axis where A has 1, and the fill where it has 0.
fn expanded(alloc: Global, a: &Array, b: &Array, way: Way, axis: Option<i64>) -> Result<Array, Fail>
    requires none { None ≡ first_report (expand_faults a.now b.now way axis) }
    requires array { IsArray a.now }
    ensures { AnswersFirst result (expand_of a.now b.now way axis) }
{
    let flags = a.numbers();
    let long = meant_length(b, way, axis);
    let along = meant_axis(b, way, axis);
    match spread(alloc, flags, long) {
        Ok(list) => listed_of(alloc, b, along, list.as_slice()),
        Err(WantOfMemory) => Err(listing_fail(b, along, flags.len())),
    }
}

/// For each flag a place along an axis, or none.
fn spread(alloc: Global, flags: &[i64], long: u32) -> Result<Vec<Option<u16>>, WantOfMemory>
    requires { length flags.now ≤ 16384 }
    ensures { IfOk result (λ list. list.items ≡ spread flags.now long) }
{
    let mut list = room_for(alloc, flags.len())?;
    let mut place = 0;
    for flag in flags {
        if is_one(*flag) {
            list.push_reserved(Some(place_in(long, place)));
            place += 1;
        } else {
            list.push_reserved(None);
        }
    }
    Ok(list)
}
