ghost use Rattle.std.specs.Prelude.{◌≡◌, ◌≤◌, None, IfOk, IsOk, length};
ghost use Rattle.apl_arrays.specs.Array.{IsArray, item_count};
ghost use Rattle.apl_items.specs.Answers.{Answers, AnswersFirst, first_report};
ghost use Rattle.apl_items.specs.Places.{OnWantOfMemory};
ghost use Rattle.apl_selection.specs.Compression.{compress_faults, compress_of, flagged_length, flags_meet, kept_places};

use crate::flagged::flagged_vector;
use crate::flags::{flags_report, is_one};
use crate::listing::{listed_of, listing_fail, meant_axis, meant_length, place_in};
use apl_arrays::{Array, Fail, WantOfMemory, Way};
use apl_items::{number_at, room_for};
use std::alloc::Global;

/// The items of B along an axis, the last or the first where none is named, where A has 1. A lone flag is for each place of
/// the axis, a lone place is for each flag, and a scalar B is a vector of one item. RANK where A is of rank over 1, else
/// LENGTH where A has not as many flags as the axis has places, else DOMAIN where it holds something else than 0 and 1, else
/// INDEX where the axis is not from 1 to the rank, else WS FULL, each also where there is no memory. It takes memory for the
/// result, and for a list of places where B is no vector of as many items as A has.
pub fn compress(
    alloc: Global,
    a: &Array,
    b: &Array,
    way: Way,
    axis: Option<i64>,
) -> Result<Array, Fail>
    ensures answer { Answers result (compress_of a.now b.now way axis) }
    ensures memory { OnWantOfMemory result (IsOk (compress_of a.now b.now way axis)) }
{
    let fit = flags_meet(a, meant_length(b, way, axis) as usize);
    match flags_report(a, b, axis, fit) {
        Some(report) => Err(Fail::Report(report)),
        None => compressed(alloc, a, b, way, axis),
    }
}

/// Whether there is one flag, or an axis has one place, or there are as many of both.
fn flags_meet(a: &Array, long: usize) -> bool
    ensures { result ≡ flags_meet (item_count a.now.items) long }
{
    let flags = a.items().len();
    flags == 1 || long == 1 || flags == long
}

/// The items along an axis where A has 1: of a vector with as many items as flags, at once.
fn compressed(
    alloc: Global,
    a: &Array,
    b: &Array,
    way: Way,
    axis: Option<i64>,
) -> Result<Array, Fail>
    requires none { None ≡ first_report (compress_faults a.now b.now way axis) }
    requires array { IsArray a.now }
    ensures { AnswersFirst result (compress_of a.now b.now way axis) }
{
    let flags = a.numbers();
    let items = b.items();
    if b.shape().len() != 1 || flags.len() != items.len() {
        return compressed_along(alloc, a, b, way, axis);
    }
    match flagged_vector(alloc, flags, items) {
        Ok(array) => Ok(array),
        Err(WantOfMemory) => Err(Fail::WantOfMemory),
    }
}

/// The items along an axis where A has 1, by a list of the places.
fn compressed_along(
    alloc: Global,
    a: &Array,
    b: &Array,
    way: Way,
    axis: Option<i64>,
) -> Result<Array, Fail>
    requires none { None ≡ first_report (compress_faults a.now b.now way axis) }
    requires array { IsArray a.now }
    ensures { AnswersFirst result (compress_of a.now b.now way axis) }
{
    let flags = a.numbers();
    let long = meant_length(b, way, axis);
    let along = meant_axis(b, way, axis);
    match kept(alloc, flags, long) {
        Ok(list) => listed_of(alloc, b, along, list.as_slice()),
        Err(WantOfMemory) => Err(listing_fail(b, along, kept_count(flags, long))),
    }
}

/// The places along an axis whose flag is 1.
fn kept(alloc: Global, flags: &[i64], long: u32) -> Result<Vec<Option<u16>>, WantOfMemory>
    requires flags { length flags.now ≤ 16384 }
    requires long { long ≤ 16384 }
    ensures { IfOk result (λ list. list.items ≡ kept_places flags.now long) }
{
    let count = flagged_length(flags.len(), long as usize);
    let mut list = room_for(alloc, count)?;
    for place in 0..count {
        if is_one(number_at(flags, place)) {
            list.push_reserved(Some(place_in(long, place)));
        }
    }
    Ok(list)
}

/// How many places along an axis have a flag that is 1.
fn kept_count(flags: &[i64], long: u32) -> usize
    requires flags { length flags.now ≤ 16384 }
    requires long { long ≤ 16384 }
    ensures { result ≡ length (kept_places flags.now long) }
{
    let count = flagged_length(flags.len(), long as usize);
    let mut total = 0;
    for at in 0..count {
        if is_one(number_at(flags, at)) {
            total += 1;
        }
    }
    total
}

/// How many places flags and an axis have together.
fn flagged_length(flags: usize, long: usize) -> usize
    ensures { result ≡ flagged_length flags long }
{
    if flags == 1 { long } else { flags }
}
