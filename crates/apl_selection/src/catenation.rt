ghost use Rattle.std.specs.Prelude.{◌≡◌, ◌+◌, ◌*◌, ◌<◌, ◌≤◌, ◌++◌, ◌&&◌, ◌||◌, ◌==◌, false, not, Some, None, IfOk, IsOk, is_some, length, slice_index, take, vec_len, vec_capacity};
ghost use Rattle.apl_arrays.specs.Array.{FitsLimits, IsArray, chars_in, element_count, is_chars, item_count, plain_items};
ghost use Rattle.apl_items.specs.Along.{source_count};
ghost use Rattle.apl_items.specs.Answers.{Answers, AnswersFirst, first_report};
ghost use Rattle.apl_items.specs.Extension.{Reaches, place_in};
ghost use Rattle.apl_items.specs.Moves.{moved_list};
ghost use Rattle.apl_items.specs.Places.{OnWantOfMemory};
ghost use Rattle.apl_items.specs.Shapes.{split_at, split_count};
ghost use Rattle.apl_items.specs.Axis.{lacks_axis};
ghost use Rattle.apl_selection.specs.Catenation.{agree_around, are_near, are_no_scalars, axes_behind, catenate_faults, catenate_of, greater_shape, catenated, catenated_axis, catenated_place, catenated_rank, catenated_shape, kind_giver, kinds_clash, span_of};
ghost use Rattle.apl_selection.specs.Listing.{vector_shape};

use crate::listing::{item_in, vector_shape, with_axis};
use crate::runs::push_run;
use crate::strides::length_of;
use apl_arrays::{
    Array, Fail, Glyph, Items, ItemsRef, List, NumberList, RANK_LIMIT, Report, WantOfMemory, Way,
    count_of_elements, shape_fault,
};
use apl_items::{Split, axis_of, lacks_axis, room_for};
use arrayvec::ArrayVec;
use std::alloc::Global;

/// A and B joined along an axis, the last where none is named. A scalar takes one place along it, and so does an array whose
/// rank is one less than the other's; two scalars give a vector. RANK where the ranks differ by more than 1 or an axis of two
/// scalars is named, else LENGTH where the other axes differ, else DOMAIN where the kinds differ and neither array is empty,
/// else INDEX where the axis is not from 1 to the greater rank, else WS FULL, each also where there is no memory. It takes memory
/// for the result.
pub fn catenate(alloc: Global, a: &Array, b: &Array, axis: Option<i64>) -> Result<Array, Fail>
    ensures answer { Answers result (catenate_of a.now b.now axis) }
    ensures memory { OnWantOfMemory result (IsOk (catenate_of a.now b.now axis)) }
{
    match catenate_report(a, b, axis) {
        Some(report) => Err(Fail::Report(report)),
        None => catenated(alloc, a, b, axis),
    }
}

/// The report on a join of something else than its size, if there is one.
fn catenate_report(a: &Array, b: &Array, axis: Option<i64>) -> Option<Report>
    ensures value { result ≡ first_report (catenate_faults a.now b.now axis) }
    ensures left { IsArray a.now }
    ensures right { IsArray b.now }
{
    let lacks = lacks_axis(catenated_rank(a, b), axis);
    if ranks_refuse(a.shape().len(), b.shape().len(), axis) {
        Some(Report::Rank)
    } else if !lacks && shapes_refuse(a, b, axis) {
        Some(Report::Length)
    } else if kinds_clash(a, b) {
        Some(Report::Domain)
    } else if lacks {
        Some(Report::Index)
    } else {
        None
    }
}

/// Whether two scalars have a named axis, or the ranks of other arrays differ by more than 1.
fn ranks_refuse(a: usize, b: usize, axis: Option<i64>) -> bool
    requires left { a ≤ 8 }
    requires right { b ≤ 8 }
    ensures { result ≡ (a == 0 && b == 0 && is_some axis || not (a == 0) && not (b == 0) && not (are_near a b)) }
{
    if a == 0 && b == 0 {
        axis.is_some()
    } else {
        a != 0 && b != 0 && a != b && a + 1 != b && a != b + 1
    }
}

/// Whether two arrays that are no scalars differ in another axis than the one along which they are joined.
fn shapes_refuse(a: &Array, b: &Array, axis: Option<i64>) -> bool
    ensures { result ≡ (are_no_scalars a.now b.now && not (agree_around a.now.shape b.now.shape (catenated_rank a.now b.now) (catenated_axis a.now b.now axis))) }
{
    let rank = catenated_rank(a, b);
    !a.shape().is_empty()
        && !b.shape().is_empty()
        && !agree_around(a.shape(), b.shape(), rank, catenated_axis(a, b, axis))
}

/// Whether two shapes have the same axes before and behind one, which they may lack.
fn agree_around(a: &[u32], b: &[u32], rank: usize, axis: usize) -> bool
    ensures { result ≡ agree_around a.now b.now rank axis }
{
    axes_before(a, axis) == axes_before(b, axis)
        && axes_behind(a, rank, axis) == axes_behind(b, rank, axis)
}

/// The axes before one.
fn axes_before(shape: &[u32], axis: usize) -> &[u32]
    ensures { result.now ≡ take axis shape.now }
{
    if axis < shape.len() {
        &shape[..axis]
    } else {
        shape
    }
}

/// The axes behind one that a shape of lesser rank lacks.
fn axes_behind(shape: &[u32], rank: usize, axis: usize) -> &[u32]
    ensures { result.now ≡ axes_behind shape.now rank axis }
{
    let first = if shape.len() == rank {
        axis.saturating_add(1)
    } else {
        axis
    };
    if first < shape.len() {
        &shape[first..]
    } else {
        &[]
    }
}

/// Whether the kinds differ and neither array is empty.
fn kinds_clash(a: &Array, b: &Array) -> bool
    ensures { result ≡ kinds_clash a.now.items b.now.items }
{
    a.is_chars() != b.is_chars() && a.items().len() != 0 && b.items().len() != 0
}

/// The rank of a join: the greater one, and 1 for two scalars.
fn catenated_rank(a: &Array, b: &Array) -> usize
    ensures value { result ≡ catenated_rank a.now b.now }
    ensures few { result ≤ 8 }
{
    a.shape().len().max(b.shape().len()).max(1)
}

/// The axis along which arrays are joined: the one that a number names, else the last.
fn catenated_axis(a: &Array, b: &Array, axis: Option<i64>) -> usize
    ensures value { result ≡ catenated_axis a.now b.now axis }
    ensures inside { lacks_axis (catenated_rank a.now b.now) axis ≡ false → result < catenated_rank a.now b.now }
{
    axis_of(catenated_rank(a, b), Way::Last, axis)
}

/// How many places an array takes along the axis of a join.
fn span_of(part: &Array, rank: usize, axis: usize) -> u32
    ensures value { result ≡ span_of part.now.shape rank axis }
    ensures small { result ≤ 16384 }
{
    let shape = part.shape();
    if shape.len() == rank {
        length_of(shape, axis)
    } else {
        1
    }
}

/// The shape of the array of greater rank, where a scalar is a vector of one item.
fn greater_shape<'a>(a: &'a [u32], b: &'a [u32]) -> &'a [u32]
    ensures { result.now ≡ vector_shape (greater_shape a.now b.now) }
{
    vector_shape(if a.len() < b.len() { b } else { a })
}

/// A and B joined along an axis, or WS FULL where the join is too large.
fn catenated(alloc: Global, a: &Array, b: &Array, axis: Option<i64>) -> Result<Array, Fail>
    requires none { None ≡ first_report (catenate_faults a.now b.now axis) }
    requires left { IsArray a.now }
    requires right { IsArray b.now }
    ensures { AnswersFirst result (catenate_of a.now b.now axis) }
{
    let along = catenated_axis(a, b, axis);
    let axes = catenated_shape(a, b, along);
    let shape = axes.as_slice();
    if shape_fault(shape).is_some() {
        return Err(Fail::Report(Report::WsFull));
    }
    let items = catenated_items(alloc, a, b, shape, along)?;
    Ok(Array::shaped(alloc, shape, items)?)
}

/// The shape of a join along an axis.
fn catenated_shape(a: &Array, b: &Array, axis: usize) -> ArrayVec<u32, RANK_LIMIT>
    requires { axis < catenated_rank a.now b.now }
    ensures { result.items ≡ catenated_shape a.now b.now axis }
{
    let rank = catenated_rank(a, b);
    let long = span_of(a, rank, axis) + span_of(b, rank, axis);
    with_axis(greater_shape(a.shape(), b.shape()), axis, long)
}

/// The items of a join of a shape along an axis, row by row those of A and those of B. The kind is chosen once.
fn catenated_items(
    alloc: Global,
    a: &Array,
    b: &Array,
    shape: &[u32],
    axis: usize,
) -> Result<Items, WantOfMemory>
    requires fits { FitsLimits shape.now }
    requires shape { shape.now ≡ catenated_shape a.now b.now axis }
    requires axis { axis < length shape.now }
    requires a_reaches { Reaches (item_count a.now.items) (source_count (split_at shape.now axis) (span_of a.now.shape (catenated_rank a.now b.now) axis)) }
    requires b_reaches { Reaches (item_count b.now.items) (source_count (split_at shape.now axis) (span_of b.now.shape (catenated_rank a.now b.now) axis)) }
    requires kinds { kinds_clash a.now.items b.now.items ≡ false }
    ensures { IfOk result (λ made. plain_items made ≡ (catenated a.now b.now axis).items) }
{
    let rank = catenated_rank(a, b);
    let a_span = span_of(a, rank, axis) as usize;
    let b_span = span_of(b, rank, axis) as usize;
    let spans = (a_span, b_span);
    if gives_chars(a, b) {
        let blank = Glyph::BLANK;
        let chars = catenated_list(alloc, chars_of(a), chars_of(b), blank, shape, axis, spans)?;
        Ok(Items::Chars(chars))
    } else {
        let numbers = catenated_list(alloc, a.numbers(), b.numbers(), 0, shape, axis, spans)?;
        Ok(Items::Numbers(NumberList::from(numbers)))
    }
}

/// Whether a join has characters: B has, or A where B alone has no items.
fn gives_chars(a: &Array, b: &Array) -> bool
    ensures { result ≡ is_chars (kind_giver a.now.items b.now.items) }
{
    if b.items().len() == 0 && a.items().len() != 0 {
        a.is_chars()
    } else {
        b.is_chars()
    }
}

/// The characters of an array, none where it is of numbers.
fn chars_of(a: &Array) -> &[Glyph]
    ensures { result.now ≡ chars_in a.now.items }
{
    match a.items() {
        ItemsRef::Chars(glyphs) => glyphs,
        ItemsRef::Numbers(_) => &[],
    }
}

/// The items of two lists, row by row, for a shape that has the places of both along an axis. It asks once for memory.
fn catenated_list<T: Copy + Drop>(
    alloc: Global,
    a: &[T],
    b: &[T],
    fill: T,
    shape: &[u32],
    axis: usize,
    spans: (usize, usize),
) -> Result<List<T>, WantOfMemory>
    requires fits { FitsLimits shape.now }
    requires axis { axis < length shape.now }
    requires long { slice_index shape.now axis ≡ spans.0 + spans.1 }
    requires a_reaches { Reaches (length a.now) (source_count (split_at shape.now axis) spans.0) }
    requires b_reaches { Reaches (length b.now) (source_count (split_at shape.now axis) spans.1) }
    ensures { IfOk result (λ made. made.items ≡ moved_list fill (a.now ++ b.now) (element_count shape.now) (λ place. Some (catenated_place (split_at shape.now axis) (length a.now) (length b.now) spans.0 spans.1 place))) }
{
    let count = count_of_elements(shape);
    if count == 0 {
        return Ok(List::new(alloc));
    }
    let mut made = room_for(alloc, count)?;
    push_rows(&mut made, a, b, fill, Split::at(shape, axis), spans);
    Ok(List::from(made))
}

/// Adds the items of all rows: in each those of one list, and then those of the other.
fn push_rows<T: Copy + Drop>(
    made: &mut Vec<T>,
    a: &[T],
    b: &[T],
    fill: T,
    split: Split,
    spans: (usize, usize),
)
    requires room { vec_len made.old + split_count split ≤ vec_capacity made.old }
    requires small { split_count split ≤ 16384 }
    requires long { split.along ≡ spans.0 + spans.1 }
    requires a_reaches { Reaches (length a.now) (source_count split spans.0) }
    requires b_reaches { Reaches (length b.now) (source_count split spans.1) }
    ensures { made.new.items ≡ made.old.items ++ moved_list fill (a.now ++ b.now) (split_count split) (λ place. Some (catenated_place split (length a.now) (length b.now) spans.0 spans.1 place)) }
{
    for outer in 0..split.outer {
        push_part(made, a, fill, split, outer, spans.0);
        push_part(made, b, fill, split, outer, spans.1);
    }
}

/// Adds the items of a list in a row, for so many places along the axis; a lone item stands for all.
fn push_part<T: Copy + Drop>(
    made: &mut Vec<T>,
    list: &[T],
    fill: T,
    split: Split,
    outer: usize,
    span: usize,
)
    requires room { vec_len made.old + span * split.inner ≤ vec_capacity made.old }
    requires small { source_count split span ≤ 16384 }
    requires outer { outer < split.outer }
    ensures items { made.new.items ≡ made.old.items ++ moved_list fill list.now (span * split.inner) (λ place. Some (place_in (length list.now) (outer * (span * split.inner) + place))) }
    ensures len { vec_len made.new ≡ vec_len made.old + span * split.inner }
    ensures room { vec_capacity made.old ≤ vec_capacity made.new }
{
    let count = span * split.inner;
    let start = outer * count;
    let end = start + count;
    if list.len() != 1 && end <= list.len() {
        push_run(made, &list[start..end]);
    } else {
        push_each(made, list, fill, start, count);
    }
}

/// Adds so many items of a list from a place on; a lone item stands for all.
fn push_each<T: Copy + Drop>(made: &mut Vec<T>, list: &[T], fill: T, start: usize, count: usize)
    requires room { vec_len made.old + count ≤ vec_capacity made.old }
    requires small { start + count ≤ 16384 }
    ensures items { made.new.items ≡ made.old.items ++ moved_list fill list.now count (λ place. Some (place_in (length list.now) (start + place))) }
    ensures len { vec_len made.new ≡ vec_len made.old + count }
    ensures room { vec_capacity made.old ≤ vec_capacity made.new }
{
    for place in 0..count {
        made.push_reserved(item_in(list, start + place, fill));
    }
}
