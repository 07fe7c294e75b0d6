ghost use Rattle.std.specs.Prelude.{◌≡◌, ◌<◌, ◌≤◌, ℕ, false, List, Option, Some, None, Err, IfOk, IfSome, length, slice_index, slice_index_or, slice_set};
ghost use Rattle.apl_arrays.specs.Array.{FitsLimits};
ghost use Rattle.apl_arrays.specs.Limits.{most_axes};
ghost use Rattle.apl_items.specs.Answers.{AnswersFirst, Faults, first_report};
ghost use Rattle.apl_items.specs.Extension.{place_in};
ghost use Rattle.apl_items.specs.Moves.{item_or};
ghost use Rattle.apl_items.specs.Axis.{lacks_axis};
ghost use Rattle.apl_selection.specs.Listing.{listed, listed_of, listed_shape, meant_axis, meant_length, on_axis, vector_shape};

use crate::strides::length_of;
use apl_arrays::{Array, Fail, RANK_LIMIT, Report, WantOfMemory, Way, shape_fault};
use apl_items::{Along, axis_of, joined_shape, moved_along};
use arrayvec::ArrayVec;
use std::alloc::Global;

/// The axes, where a scalar is a vector of one item.
pub(crate) fn vector_shape(shape: &[u32]) -> &[u32]
    ensures { result.now ≡ vector_shape shape.now }
{
    if shape.is_empty() { &[1] } else { shape }
}

/// The axis that is meant: the one that a number names, else the last or the first.
pub(crate) fn meant_axis(b: &Array, way: Way, axis: Option<i64>) -> usize
    ensures value { result ≡ meant_axis b.now way axis }
    ensures inside { lacks_axis (length b.now.shape) axis ≡ false → result < length (vector_shape b.now.shape) }
{
    axis_of(vector_shape(b.shape()).len(), way, axis)
}

/// How long the axis is that is meant.
pub(crate) fn meant_length(b: &Array, way: Way, axis: Option<i64>) -> u32
    ensures value { result ≡ meant_length b.now way axis }
    ensures small { result ≤ 16384 }
{
    length_of(vector_shape(b.shape()), meant_axis(b, way, axis))
}

/// A place along an axis so long, where a lone place stands for all.
pub(crate) fn place_in(length: u32, place: usize) -> u16
    requires { place < 16384 }
    ensures { result ≡ place_in length place }
{
    if length == 1 { 0 } else { place as u16 }
}

/// The item of a list at a place, where a lone item stands at all.
pub(crate) fn item_in<T: Copy + Drop>(list: &[T], place: usize, fill: T) -> T
    ensures { result ≡ item_or fill list.now (Some (place_in (length list.now) place)) }
{
    let at = if list.len() == 1 { 0 } else { place };
    match list.get(at) {
        Some(item) => *item,
        None => fill,
    }
}

/// The shape with another length of an axis.
pub(crate) fn with_axis(shape: &[u32], axis: usize, long: u32) -> ArrayVec<u32, RANK_LIMIT>
    requires few { length shape.now ≤ most_axes }
    requires axis { axis < length shape.now }
    ensures { result.items ≡ slice_set shape.now axis long }
{
    let mut axes = joined_shape(&shape[..axis], &[long]);
    axes.try_extend_from_slice(&shape[axis + 1..]).unwrap();
    axes
}

/// Why so many places along an axis were not listed where there is no memory for the list: the items at them are too many,
/// else memory ran out. It takes no memory.
pub(crate) fn listing_fail(b: &Array, axis: usize, count: usize) -> Fail
    requires axis { axis < length (vector_shape b.now.shape) }
    requires few { count ≤ 16384 }
    ensures { (faults : Faults) (list : List (Option ℕ)) → None ≡ first_report faults → length list ≡ count → AnswersFirst (Err result) (listed_of faults b.now axis list) }
{
    let axes = with_axis(vector_shape(b.shape()), axis, count as u32);
    if shape_fault(axes.as_slice()).is_some() {
        Fail::Report(Report::WsFull)
    } else {
        Fail::WantOfMemory
    }
}

/// The items of B at the listed places along an axis, and the fill where none is listed, or WS FULL where they are too many.
/// Where they are not, it takes memory for the result.
pub(crate) fn listed_of(
    alloc: Global,
    b: &Array,
    axis: usize,
    list: &[Option<u16>],
) -> Result<Array, Fail>
    requires axis { axis < length (vector_shape b.now.shape) }
    requires inside { (along place : ℕ) → slice_index_or list.now along None ≡ Some place → place < slice_index (vector_shape b.now.shape) axis }
    requires few { length list.now ≤ 16384 }
    ensures { (faults : Faults) → None ≡ first_report faults → AnswersFirst result (listed_of faults b.now axis list.now) }
{
    let source = vector_shape(b.shape());
    let axes = with_axis(source, axis, list.len() as u32);
    let shape = axes.as_slice();
    if shape_fault(shape).is_some() {
        return Err(Fail::Report(Report::WsFull));
    }
    Ok(listed(alloc, b, source, shape, axis, list)?)
}

/// The items of B at the listed places along an axis, and the fill where none is listed, in a shape of that many places.
fn listed(
    alloc: Global,
    b: &Array,
    source: &[u32],
    shape: &[u32],
    axis: usize,
    list: &[Option<u16>],
) -> Result<Array, WantOfMemory>
    requires source { source.now ≡ vector_shape b.now.shape }
    requires axis { axis < length source.now }
    requires inside { (along place : ℕ) → slice_index_or list.now along None ≡ Some place → place < slice_index source.now axis }
    requires shape { shape.now ≡ listed_shape source.now axis list.now }
    requires fits { FitsLimits shape.now }
    ensures { IfOk result (λ array. array ≡ listed source.now b.now.items axis list.now) }
{
    let rule = ListedPlaces {
        list,
        length: length_of(source, axis),
    };
    let items = moved_along(alloc, b.items(), shape, axis, &rule)?;
    Array::shaped(alloc, shape, items)
}

/// Where the items at listed places come from.
#[derive(Drop)]
struct ListedPlaces<'a> {
    list: &'a [Option<u16>],
    length: u32,
}

impl Along for ListedPlaces<'_> {
    ghost use Rattle.std.specs.Prelude.{None, slice_index_or};
    ghost use Rattle.apl_selection.specs.Listing.{on_axis};

    ghost length = { λ l. l.length };

    ghost from = { λ l line along. on_axis l.length (slice_index_or l.list.now along None) };

    fn length(&self) -> usize {
        self.length as usize
    }

    fn from(&self, _line: usize, along: usize) -> Option<usize> {
        on_axis(self.length, listed_at(self.list, along))
    }
}

/// The place that is listed, if one is.
fn listed_at(list: &[Option<u16>], along: usize) -> Option<u16>
    ensures { result ≡ slice_index_or list.now along None }
{
    match list.get(along) {
        Some(place) => *place,
        None => None,
    }
}

/// A place on an axis that is so long, and none past its end.
fn on_axis(length: u32, place: Option<u16>) -> Option<usize>
    ensures value { result ≡ on_axis length place }
    ensures inside { IfSome result (λ at. at < length) }
{
    match place {
        None => None,
        Some(place) => below(usize::from(place), length as usize),
    }
}

/// A number that is below another, else none.
fn below(place: usize, length: usize) -> Option<usize>
    ensures value { result ≡ on_axis length (Some place) }
    ensures inside { IfSome result (λ at. at < length) }
{
    if place < length { Some(place) } else { None }
}
