ghost use Rattle.std.specs.Prelude.{◌≡◌, ◌-◌, ◌<◌, ◌≤◌, All, Some, pos, true, length, slice_index_or, unsigned_abs};
ghost use Rattle.apl_verbs.specs.declared.verb.Dyad.TheVariants.{Plus};
ghost use Rattle.apl_items.specs.Places.{HasItems, MakesItems, OnWantOfMemory};
ghost use Rattle.apl_items.specs.Shapes.{split_count};
ghost use Rattle.apl_scalar.specs.Table.{dyadic_item};
ghost use Rattle.operator_rules.specs.Reduction.{front_of_line};
ghost use Rattle.apl_operators.specs.Running.{AreSmall, front_at, wrapped_sum};

use crate::running::running;
use apl_arrays::{Fail, List, Report};
use apl_items::{Split, room_for};
use std::alloc::Global;

/// Whether the magnitudes of the numbers have so few bits that the sum of so many of them has at most 63.
pub(crate) fn are_small(list: &[i64], count: usize) -> bool
    requires { 0 < count }
    ensures { result ≡ true → AreSmall list.now count }
{
    bound_of_magnitudes(list) <= i64::MAX as u64 / count as u64
}

/// A number that is at least each magnitude: the bits of all of them.
fn bound_of_magnitudes(list: &[i64]) -> u64
    ensures { All (λ number. unsigned_abs number ≤ result) list.now }
{
    let mut bits = 0;
    for place in 0..list.len() {
        bits |= magnitude_at(list, place);
    }
    bits
}

/// The magnitude of the number at a place.
fn magnitude_at(list: &[i64], place: usize) -> u64
    requires { place < length list.now }
    ensures { result ≡ unsigned_abs (slice_index_or list.now place (pos 0)) }
{
    list[place].unsigned_abs()
}

/// The sum of two numbers that have at most 62 bits.
#[tactic(auto, using(crate::proofs::SmallLemmas::small_pair))]
pub(crate) fn small_sum(a: &[i64], row: usize, b: &[i64], column: usize) -> i64
    requires left { AreSmall a.now 2 }
    requires right { AreSmall b.now 2 }
    requires row { row < length a.now }
    requires column { column < length b.now }
    ensures { Some result ≡ dyadic_item Plus (slice_index_or a.now row (pos 0)) (slice_index_or b.now column (pos 0)) }
{
    a[row].wrapping_add(b[column])
}

/// The sum of a line of small numbers that stand one after another, in which no sum leaves 64 bits.
pub(crate) fn sum_of_line(list: &[i64], split: Split, outer: usize) -> i64
    requires lone { split.inner ≡ 1 }
    requires whole { split_count split ≡ length list.now }
    requires some { 0 < split.along }
    requires outer { outer < split.outer }
    requires small { AreSmall list.now split.along }
    ensures { Some result ≡ front_of_line (dyadic_item Plus) list.now split outer 0 (split.along - 1) }
{
    let start = outer * split.along;
    let mut sum = list[start];
    for along in 1..split.along {
        sum = sum.wrapping_add(list[start + along]);
    }
    sum
}

/// The sum of each front of each line of small numbers, in one pass, in which no sum leaves 64 bits. It takes memory for the
/// sums.
pub(crate) fn small_sums(alloc: Global, list: &[i64], split: Split) -> Result<List<i64>, Fail>
    requires whole { split_count split ≡ length list.now }
    requires some { 0 < split_count split }
    requires small { AreSmall list.now split.along }
    ensures made { MakesItems result (length list.now) (front_at (dyadic_item Plus) list.now split) }
    ensures memory { OnWantOfMemory result (HasItems (length list.now) (front_at (dyadic_item Plus) list.now split)) }
{
    let room = room_for(alloc, list.len())?;
    let sum = |before: i64, number: i64| -> Option<i64>
        ensures { result ≡ wrapped_sum before number }
    { Some(before.wrapping_add(number)) };
    match running(room, list, split, &sum) {
        Some(made) => Ok(made),
        None => Err(Fail::Report(Report::Domain)),
    }
}
