ghost use Rattle.std.specs.Prelude.{◌≡◌, ◌*◌, ◌<◌, ◌-◌, ◌/◌, Option, Some, length, slice_index};
ghost use Rattle.apl_arrays.specs.Array.{seen_items, FitsLimits, chars, element_count, item_count, numbers};
ghost use Rattle.apl_verbs.specs.declared.verb.Dyad.TheVariants.{Plus};
ghost use Rattle.apl_items.specs.Answers.{AnswersFirst};
ghost use Rattle.apl_items.specs.Shapes.{place_along, split_count};
ghost use Rattle.apl_scalar.specs.Table.{dyadic_item, item_of_chars};
ghost use Rattle.apl_items.specs.Axis.{without};
ghost use Rattle.operator_rules.specs.Gathering.{gathered, number_in};
ghost use Rattle.operator_rules.specs.Reduce.{reduce_of, reduced, reduced_line};
ghost use Rattle.operator_rules.specs.Reduction.{Joins, Tells, front_of_line, item_in, joined_by, reduction};
ghost use Rattle.apl_operators.specs.Running.{AreSmall};

use crate::identities::identities;
use crate::items::{joined_by, number_in};
use crate::lines::{LineAt, last_front};
use crate::reduction::reduced;
use crate::rows::numbers_by_rows;
use crate::sums::{are_small, sum_of_line};
use apl_arrays::{
    Array, Fail, Glyph, Item, Items, ItemsRef, List, NumberList, Report, Way, count_of_elements,
};
use apl_items::{Split, axis_of, joined_shape, lacks_axis};
use apl_scalar::{character_of, dyadic_table, item_of_numbers, rules};
use apl_verbs::Dyad;
use std::alloc::Global;

macro_rules! all_lines_of {
    (($($argument:expr),*), $rule:expr, $identity:expr) => {
        lines_by($($argument,)* $rule)
    };
}

/// The reduction of an array by a dyadic function, along an axis, the last or the first where none is named: of each line
/// the first item, joined with the reduction of the others. No item gives the identity, and one item and a scalar are
/// unchanged. INDEX where the axis is not from 1 to the rank, else DOMAIN where a pair has no value of 64 bits, or where
/// there is no item and no identity, else WS FULL where the result is too large. Where there is no report it takes memory for
/// the items. ISO 8485.
pub fn reduce(alloc: Global, f: Dyad, b: &Array, way: Way, axis: Option<i64>) -> Result<Array, Fail>
    ensures { AnswersFirst result (reduce_of f b.now way axis) }
{
    let rank = b.shape().len();
    if lacks_axis(rank, axis) {
        Err(Fail::Report(Report::Index))
    } else if rank == 0 {
        Ok(b.copy(alloc)?)
    } else {
        reduced_along(alloc, f, b, axis_of(rank, way, axis))
    }
}

/// The reduction along an axis, line by line.
fn reduced_along(alloc: Global, f: Dyad, b: &Array, axis: usize) -> Result<Array, Fail>
    requires { axis < length b.now.shape }
    ensures { AnswersFirst result (reduced f b.now axis) }
{
    let axes = b.shape();
    let shape = joined_shape(&axes[..axis], &axes[axis + 1..]);
    if axes[axis] == 0 {
        identities(alloc, f, shape.as_slice())
    } else {
        reduced_lines(alloc, f, b, axis, shape.as_slice())
    }
}

/// The reduction of lines that have items.
fn reduced_lines(
    alloc: Global,
    f: Dyad,
    b: &Array,
    axis: usize,
    shape: &[u32],
) -> Result<Array, Fail>
    requires axis { axis < length b.now.shape }
    requires some { 0 < slice_index b.now.shape axis }
    requires shape { shape.now ≡ without axis b.now.shape }
    requires fits { FitsLimits shape.now }
    ensures { AnswersFirst result (reduced f b.now axis) }
{
    if b.items().is_empty() {
        return Ok(Array::shaped(
            alloc,
            shape,
            Items::Numbers(NumberList::from(List::new(alloc))),
        )?);
    }
    let split = Split::at(b.shape(), axis);
    lines_of_items(alloc, f, shape, b.items(), split)
}

/// The reduction of lines that have items, in an array that has lines. The kind is looked at once.
fn lines_of_items(
    alloc: Global,
    f: Dyad,
    shape: &[u32],
    items: ItemsRef<'_>,
    split: Split,
) -> Result<Array, Fail>
    requires fits { FitsLimits shape.now }
    requires whole { split_count split ≡ item_count (seen_items items) }
    requires lines { split.outer * split.inner ≡ element_count shape.now }
    requires some { 0 < split_count split }
    ensures { AnswersFirst result (gathered shape.now (reduced_line f (seen_items items.entry) split)) }
{
    match items {
        ItemsRef::Numbers(list) => number_lines(alloc, f, shape, list, split),
        ItemsRef::Chars(list) => {
            if split.along == 1 {
                Ok(Array::shaped(alloc, shape, Items::Chars(List::of(alloc, list)?))?)
            } else {
                char_lines(alloc, f, shape, list, split)
            }
        }
    }
}

/// The reductions of lines of numbers: small ones that stand one after another are added with no test, else the function is
/// chosen once.
fn number_lines(
    alloc: Global,
    f: Dyad,
    shape: &[u32],
    list: &[i64],
    split: Split,
) -> Result<Array, Fail>
    requires fits { FitsLimits shape.now }
    requires some { 0 < split.along }
    requires whole { split_count split ≡ length list.now }
    requires lines { split.outer * split.inner ≡ element_count shape.now }
    ensures { AnswersFirst result (gathered shape.now (reduced_line f (numbers list.now) split)) }
{
    if let Dyad::Plus = f {
        if split.inner == 1 && are_small(list, split.along) {
            return small_lines(alloc, shape, list, split);
        }
    }
    dyadic_table!(f, all_lines_of(alloc, f, shape, list, split))
}

/// The sums of lines of small numbers that stand one after another.
fn small_lines(alloc: Global, shape: &[u32], list: &[i64], split: Split) -> Result<Array, Fail>
    requires fits { FitsLimits shape.now }
    requires some { 0 < split.along }
    requires lone { split.inner ≡ 1 }
    requires whole { split_count split ≡ length list.now }
    requires lines { split.outer * split.inner ≡ element_count shape.now }
    requires small { AreSmall list.now split.along }
    ensures { AnswersFirst result (gathered shape.now (reduced_line Plus (numbers list.now) split)) }
{
    numbers_by_rows(
        alloc,
        shape,
        split.outer,
        split.inner,
        &|outer: usize, inner: usize| -> Option<i64>
            requires some { 0 < split.along }
            requires lone { split.inner ≡ 1 }
            requires whole { split_count split ≡ length list.now }
            requires small { AreSmall list.now split.along }
            requires outer { outer < split.outer }
            requires inner { inner ≡ 0 }
            ensures { result ≡ front_of_line (dyadic_item Plus) list.entry.now split outer inner (split.along - 1) }
        { Some(sum_of_line(list, split, outer)) },
    )
}

/// The reductions of lines of numbers, by the rule of a function.
fn lines_by<F: Fn(i64, i64) -> Option<i64>>(
    alloc: Global,
    f: Dyad,
    shape: &[u32],
    list: &[i64],
    split: Split,
    rule: F,
) -> Result<Array, Fail>
    requires callable { F.IsAlwaysCallable rule }
    requires rule { Joins (F.post rule) (dyadic_item f) }
    requires fits { FitsLimits shape.now }
    requires some { 0 < split.along }
    requires whole { split_count split ≡ length list.now }
    requires lines { split.outer * split.inner ≡ element_count shape.now }
    ensures { AnswersFirst result (gathered shape.now (reduced_line f (numbers list.now) split)) }
{
    numbers_by_rows(
        alloc,
        shape,
        split.outer,
        split.inner,
        &|outer: usize, inner: usize| -> Option<i64>
            requires callable { F.IsAlwaysCallable rule }
            requires rule { Joins (F.post rule) (dyadic_item f) }
            requires some { 0 < split.along }
            requires whole { split_count split ≡ length list.now }
            requires outer { outer < split.outer }
            requires inner { inner < split.inner }
            ensures { result ≡ front_of_line (dyadic_item f) list.entry.now split outer inner (split.along - 1) }
        { last_front(f, list, split, LineAt { outer, inner }, &rule) },
    )
}

/// The reductions of lines of two characters or more. The function is chosen once.
fn char_lines(
    alloc: Global,
    f: Dyad,
    shape: &[u32],
    list: &[Glyph],
    split: Split,
) -> Result<Array, Fail>
    requires fits { FitsLimits shape.now }
    requires some { 1 < split.along }
    requires whole { split_count split ≡ length list.now }
    requires lines { split.outer * split.inner ≡ element_count shape.now }
    ensures { AnswersFirst result (gathered shape.now (reduced_line f (chars list.now) split)) }
{
    match f {
        Dyad::Equal => char_lines_by(alloc, f, shape, list, split, rules::equal, rules::same),
        Dyad::NotEqual => {
            char_lines_by(
                alloc,
                f,
                shape,
                list,
                split,
                rules::not_equal,
                rules::different,
            )
        }
        _ => char_lines_by(
            alloc,
            f,
            shape,
            list,
            split,
            |x: i64, y: i64| -> Option<i64>
                ensures { result ≡ dyadic_item f x y }
            { item_of_numbers(f, x, y) },
            |alike: bool| -> Option<i64>
                ensures { result ≡ item_of_chars f alike }
            { character_of(f, alike) },
        ),
    }
}

/// The reductions of lines of two characters or more, by the rules of a function for numbers and for characters.
fn char_lines_by<F: Fn(i64, i64) -> Option<i64>, G: Fn(bool) -> Option<i64>>(
    alloc: Global,
    f: Dyad,
    shape: &[u32],
    list: &[Glyph],
    split: Split,
    numbers: F,
    alike: G,
) -> Result<Array, Fail>
    requires able { F.IsAlwaysCallable numbers }
    requires numbers { Joins (F.post numbers) (dyadic_item f) }
    requires callable { G.IsAlwaysCallable alike }
    requires alike { Tells (G.post alike) (item_of_chars f) }
    requires fits { FitsLimits shape.now }
    requires some { 1 < split.along }
    requires whole { split_count split ≡ length list.now }
    requires lines { split.outer * split.inner ≡ element_count shape.now }
    ensures { AnswersFirst result (gathered shape.now (reduced_line f (chars list.now) split)) }
{
    numbers_by_rows(
        alloc,
        shape,
        split.outer,
        split.inner,
        &|outer: usize, inner: usize| -> Option<i64>
            requires able { F.IsAlwaysCallable numbers }
            requires numbers { Joins (F.post numbers) (dyadic_item f) }
            requires callable { G.IsAlwaysCallable alike }
            requires alike { Tells (G.post alike) (item_of_chars f) }
            requires some { 1 < split.along }
            requires whole { split_count split ≡ length list.now }
            requires outer { outer < split.outer }
            requires inner { inner < split.inner }
            ensures { result ≡ number_in (reduction (joined_by f) (λ along. Some (item_in (chars list.entry.now) (place_along split outer along inner))) 0 (split.along - 1)) }
        { char_line(f, list, split, LineAt { outer, inner }, &numbers, &alike) },
    )
}

/// The reduction of a line of characters, by the rules of a function for numbers and for characters.
fn char_line<F: Fn(i64, i64) -> Option<i64>, G: Fn(bool) -> Option<i64>>(
    f: Dyad,
    list: &[Glyph],
    split: Split,
    line: LineAt,
    numbers: &F,
    alike: &G,
) -> Option<i64>
    requires able { F.IsAlwaysCallable numbers.now }
    requires numbers { Joins (F.post numbers.now) (dyadic_item f) }
    requires callable { G.IsAlwaysCallable alike.now }
    requires alike { Tells (G.post alike.now) (item_of_chars f) }
    requires some { 0 < split.along }
    requires whole { split_count split ≡ length list.now }
    requires outer { line.outer < split.outer }
    requires inner { line.inner < split.inner }
    ensures { result ≡ number_in (reduction (joined_by f) (λ along. Some (item_in (chars list.now) (place_along split line.outer along line.inner))) 0 (split.along - 1)) }
{
    let glyph = |along: usize| -> Option<Item>
        requires whole { split_count split ≡ length list.now }
        requires outer { line.outer < split.outer }
        requires inner { line.inner < split.inner }
        requires along { along < split.along }
        ensures { result ≡ Some (item_in (chars list.entry.now) (place_along split line.outer along line.inner)) }
    { Some(Item::Char(list[split.place(line.outer, along, line.inner)])) };
    let join = |x: Item, y: Item| -> Option<Item>
        requires able { F.IsAlwaysCallable numbers.now }
        requires numbers { Joins (F.post numbers.now) (dyadic_item f) }
        requires callable { G.IsAlwaysCallable alike.now }
        requires alike { Tells (G.post alike.now) (item_of_chars f) }
        ensures { result ≡ joined_by f x y }
    { joined_by(f, &x, &y, numbers, alike) };
    number_in(reduced(split.along - 1, &glyph, &join))
}
