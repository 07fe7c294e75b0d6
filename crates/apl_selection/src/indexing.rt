ghost use Rattle.std.specs.Prelude.{◌≡◌, ◌-◌, ◌<◌, [], ◌∷◌, None, Some, false, IfOk, IfSome, map, option_copied, slice_get, unsigned_abs};
ghost use Rattle.apl_arrays.specs.Array.{element_count};
ghost use Rattle.apl_items.specs.Answers.{Answers, first_report};
ghost use Rattle.apl_selection.specs.Indexing.{index_faults, selection_of, indexed};
ghost use Rattle.apl_items.specs.Places.{OnWantOfMemory, places};
ghost use Rattle.apl_selection.specs.Subscripts.{is_miscounted, selection_shape};

use crate::picks::{Picks, filled, picked_items};
use crate::strides::length_of;
use crate::subscripts::{
    are_of_chars, is_miscounted, named_counts, place_from_0, point_outside, selection_shape,
};
use apl_arrays::{Array, Fail, RANK_LIMIT, Report, WantOfMemory, count_of_elements, shape_fault};
use apl_items::{Walk, moved};
use std::alloc::Global;

/// The items of B that subscripts select, one for each axis; the shapes of the subscripts stand one after another, and an
/// omitted one selects the whole axis. RANK where there are not as many subscripts as axes, where B is a scalar, or where
/// the result has over eight axes, else DOMAIN where a subscript is of characters, else INDEX where a number of one is
/// not from 1 to the length of its axis, else WS FULL where the result is too large. Where there is no report it takes memory
/// for strides and the result.
pub fn index(alloc: Global, b: &Array, subs: &[Option<&Array>]) -> Result<Array, Fail>
    ensures answer { Answers result (selection_of b.now (map option_copied subs.now)) }
    ensures memory { OnWantOfMemory result (first_report (index_faults b.now (map option_copied subs.now)) ≡ None) }
{
    if is_miscounted(b.shape(), subs) {
        return Err(Fail::Report(Report::Rank));
    }
    let shape = selection_shape(b.shape(), subs);
    match index_report(b, subs, shape.as_slice()) {
        Some(report) => Err(Fail::Report(report)),
        None => Ok(indexed(alloc, b, subs, shape.as_slice())?),
    }
}

/// The report on a selection of this shape, if there is one.
fn index_report(b: &Array, subs: &[Option<&Array>], shape: &[u32]) -> Option<Report>
    requires counted { is_miscounted b.now.shape (map option_copied subs.now) ≡ false }
    requires shape { shape.now ≡ selection_shape b.now.shape (map option_copied subs.now) }
    ensures { result ≡ first_report (index_faults b.now (map option_copied subs.now)) }
{
    if shape.len() > RANK_LIMIT {
        Some(Report::Rank)
    } else if are_of_chars(subs) {
        Some(Report::Domain)
    } else if point_outside(b.shape(), subs) {
        Some(Report::Index)
    } else if shape_fault(shape).is_some() {
        Some(Report::WsFull)
    } else {
        None
    }
}

/// The items of B that subscripts select.
fn indexed(
    alloc: Global,
    b: &Array,
    subs: &[Option<&Array>],
    shape: &[u32],
) -> Result<Array, WantOfMemory>
    requires fine { None ≡ first_report (index_faults b.now (map option_copied subs.now)) }
    requires shape { shape.now ≡ selection_shape b.now.shape (map option_copied subs.now) }
    ensures { IfOk result (λ array. array ≡ indexed b.now (map option_copied subs.now)) }
{
    if count_of_elements(shape) == 0 {
        return Array::shaped(alloc, shape, filled(alloc, b.items(), 0)?);
    }
    match lone_array(subs) {
        Some(sub) => pointed(alloc, b, sub, shape),
        None => indexed_by_axes(alloc, b, subs, shape),
    }
}

/// The subscript, where there is one alone and it is not omitted.
#[tactic(auto, using(crate::proofs::SubscriptLemmas::lone_lent))]
fn lone_array<'a>(subs: &[Option<&'a Array>]) -> Option<&'a Array>
    ensures { IfSome result (λ sub. map option_copied subs.now ≡ Some sub.now ∷ []) }
{
    if subs.len() == 1 { subs[0] } else { None }
}

/// The items of a vector that a subscript selects, one after another.
fn pointed(alloc: Global, b: &Array, sub: &Array, shape: &[u32]) -> Result<Array, WantOfMemory>
    requires fine { None ≡ first_report (index_faults b.now (Some sub.now ∷ [])) }
    requires shape { shape.now ≡ selection_shape b.now.shape (Some sub.now ∷ []) }
    ensures { IfOk result (λ array. array ≡ indexed b.now (Some sub.now ∷ [])) }
{
    let numbers = sub.items().numbers();
    let walk = PlaceWalk { numbers, next: 0 };
    let items = moved(alloc, b.items(), numbers.len(), walk)?;
    Array::shaped(alloc, shape, items)
}

/// A walk over the places that numbers name.
#[derive(Drop)]
struct PlaceWalk<'a> {
    numbers: &'a [i64],
    next: usize,
}

impl Walk for PlaceWalk<'_> {
    ghost use Rattle.std.specs.Prelude.{◌+◌, ◌-◌, length, map, slice_get, unsigned_abs};

    ghost left = { λ w. length w.numbers.now - w.next };

    ghost source = { λ w n. slice_get (map (λ number. unsigned_abs number - 1) w.numbers.now) (w.next + n) };

    fn advance(&mut self) -> Option<usize> {
        let place = place_at(self.numbers, self.next);
        self.next += 1;
        place
    }
}

/// The place that the number at a place names, if there is one.
fn place_at(numbers: &[i64], at: usize) -> Option<usize>
    ensures { result ≡ slice_get (map (λ number. unsigned_abs number - 1) numbers.now) at }
{
    Some(place_from_0(*numbers.get(at)?))
}

/// The items of B that subscripts select along each axis.
fn indexed_by_axes(
    alloc: Global,
    b: &Array,
    subs: &[Option<&Array>],
    shape: &[u32],
) -> Result<Array, WantOfMemory>
    requires fine { None ≡ first_report (index_faults b.now (map option_copied subs.now)) }
    requires shape { shape.now ≡ selection_shape b.now.shape (map option_copied subs.now) }
    requires some { 0 < element_count shape.now }
    ensures { IfOk result (λ array. array ≡ indexed b.now (map option_copied subs.now)) }
{
    let counts = named_counts(alloc, b.shape(), subs)?;
    let lengths = b.shape();
    let picks = NamedPlaces { lengths, subs };
    let items = picked_items(alloc, b.items(), lengths, counts.as_slice(), &picks)?;
    Array::shaped(alloc, shape, items)
}

/// The places that subscripts name along the axes.
#[derive(Drop)]
struct NamedPlaces<'a> {
    lengths: &'a [u32],
    subs: &'a [Option<&'a Array>],
}

impl Picks for NamedPlaces<'_> {
    ghost use Rattle.std.specs.Prelude.{map, option_copied, slice_get};
    ghost use Rattle.apl_selection.specs.Subscripts.{named_on};

    ghost from = { λ n axis along. slice_get (named_on n.lengths.now (map option_copied n.subs.now) axis) along };

    fn from(&self, axis: usize, along: usize) -> Option<usize> {
        match self.subs.get(axis) {
            Some(Some(array)) => place_at(array.numbers(), along),
            _ => place_on(length_of(self.lengths, axis), along),
        }
    }
}

/// The place along an axis, if there is one.
fn place_on(length: u32, along: usize) -> Option<usize>
    ensures { result ≡ slice_get (places length) along }
{
    if along < length as usize {
        Some(along)
    } else {
        None
    }
}
