ghost use Rattle.std.specs.Prelude.{◌≡◌, ◌*◌, ◌<◌, ◌≤◌, ◌^◌, ◌==◌, Option, pos, false, length, slice_index, slice_index_or};
ghost use Rattle.apl_arrays.specs.Array.{seen_items, chars, element_count, item_count, numbers};
ghost use Rattle.apl_arrays.specs.Limits.{most_axes};
ghost use Rattle.apl_verbs.specs.declared.verb.Dyad.TheVariants.{Plus};
ghost use Rattle.apl_items.specs.Answers.{AnswersFirst};
ghost use Rattle.apl_scalar.specs.Table.{dyadic_item, item_of_chars};
ghost use Rattle.operator_rules.specs.Gathering.{numbers_answer};
ghost use Rattle.operator_rules.specs.Outer.{outer_at, outer_product_of};
ghost use Rattle.operator_rules.specs.Reduction.{Joins, Tells};
ghost use Rattle.apl_operators.specs.Running.{AreSmall};

use crate::items::takes_all;
use crate::rows::numbers_by_rows;
use crate::sums::{are_small, small_sum};
use apl_arrays::{Array, Fail, Glyph, ItemsRef, RANK_LIMIT, Report, shape_fault};
use apl_items::joined_shape;
use apl_scalar::{character_of, dyadic_table, rules};
use apl_verbs::Dyad;
use std::alloc::Global;

macro_rules! all_pairs_of {
    (($($argument:expr),*), $rule:expr, $identity:expr) => {
        pairs_by($($argument,)* $rule)
    };
}

/// A dyadic function of each item of an array with each of another, in the shape of the one and then of the other. RANK
/// where that has over eight axes, else DOMAIN where a pair of items has no value of 64 bits, else WS FULL where it is too
/// large. Where there is no report it takes memory for the items. ISO 8485.
#[tactic(auto, using(crate::proofs::ShapeLemmas::pair_count))]
pub fn outer(alloc: Global, f: Dyad, a: &Array, b: &Array) -> Result<Array, Fail>
    ensures { AnswersFirst result (outer_product_of f a.now b.now) }
{
    if a.shape().len() + b.shape().len() > RANK_LIMIT {
        return Err(Fail::Report(Report::Rank));
    }
    let shape = joined_shape(a.shape(), b.shape());
    all_pairs(alloc, f, shape.as_slice(), a.items(), b.items())
}

/// All pairs of items. The kinds are looked at once. Where they are too many, a function that takes them all is not asked.
fn all_pairs(
    alloc: Global,
    f: Dyad,
    shape: &[u32],
    a: ItemsRef<'_>,
    b: ItemsRef<'_>,
) -> Result<Array, Fail>
    requires rank { length shape.now ≤ most_axes }
    requires count { item_count (seen_items a) * item_count (seen_items b) ≡ element_count shape.now }
    requires fits { item_count (seen_items a) * item_count (seen_items b) < 2 ^ 64 }
    ensures { AnswersFirst result (numbers_answer shape.now (outer_at f (seen_items a.entry) (seen_items b.entry))) }
{
    if shape_fault(shape).is_some() && takes_all(f, a, b) {
        return Err(Fail::Report(Report::WsFull));
    }
    match (a, b) {
        (ItemsRef::Numbers(a), ItemsRef::Numbers(b)) => number_pairs(alloc, f, shape, a, b),
        (ItemsRef::Chars(a), ItemsRef::Chars(b)) => glyph_pairs(alloc, f, shape, a, b),
        (ItemsRef::Numbers(a), ItemsRef::Chars(b)) => {
            unlike_pairs(alloc, f, shape, a.len(), b.len())
        }
        (ItemsRef::Chars(a), ItemsRef::Numbers(b)) => {
            unlike_pairs(alloc, f, shape, a.len(), b.len())
        }
    }
}

/// All pairs of numbers: small ones are added with no test, else the function is chosen once.
fn number_pairs(alloc: Global, f: Dyad, shape: &[u32], a: &[i64], b: &[i64]) -> Result<Array, Fail>
    requires rank { length shape.now ≤ most_axes }
    requires count { length a.now * length b.now ≡ element_count shape.now }
    requires fits { length a.now * length b.now < 2 ^ 64 }
    ensures { AnswersFirst result (numbers_answer shape.now (outer_at f (numbers a.now) (numbers b.now))) }
{
    if let Dyad::Plus = f {
        if are_small(a, 2) && are_small(b, 2) {
            return small_pairs(alloc, shape, a, b);
        }
    }
    dyadic_table!(f, all_pairs_of(alloc, f, shape, a, b))
}

/// The sums of all pairs of small numbers, of which none leaves 64 bits.
fn small_pairs(alloc: Global, shape: &[u32], a: &[i64], b: &[i64]) -> Result<Array, Fail>
    requires rank { length shape.now ≤ most_axes }
    requires count { length a.now * length b.now ≡ element_count shape.now }
    requires fits { length a.now * length b.now < 2 ^ 64 }
    requires left { AreSmall a.now 2 }
    requires right { AreSmall b.now 2 }
    ensures { AnswersFirst result (numbers_answer shape.now (outer_at Plus (numbers a.now) (numbers b.now))) }
{
    numbers_by_rows(
        alloc,
        shape,
        a.len(),
        b.len(),
        &|row: usize, column: usize| -> Option<i64>
            requires left { AreSmall a.now 2 }
            requires right { AreSmall b.now 2 }
            requires row { row < length a.now }
            requires column { column < length b.now }
            ensures { result ≡ dyadic_item Plus (slice_index_or a.entry.now row (pos 0)) (slice_index_or b.entry.now column (pos 0)) }
        { Some(small_sum(a, row, b, column)) },
    )
}

/// All pairs of numbers, by the rule of a function.
fn pairs_by<F: Fn(i64, i64) -> Option<i64>>(
    alloc: Global,
    f: Dyad,
    shape: &[u32],
    a: &[i64],
    b: &[i64],
    rule: F,
) -> Result<Array, Fail>
    requires callable { F.IsAlwaysCallable rule }
    requires rule { Joins (F.post rule) (dyadic_item f) }
    requires rank { length shape.now ≤ most_axes }
    requires count { length a.now * length b.now ≡ element_count shape.now }
    requires fits { length a.now * length b.now < 2 ^ 64 }
    ensures { AnswersFirst result (numbers_answer shape.now (outer_at f (numbers a.now) (numbers b.now))) }
{
    numbers_by_rows(
        alloc,
        shape,
        a.len(),
        b.len(),
        &|row: usize, column: usize| -> Option<i64>
            requires callable { F.IsAlwaysCallable rule }
            requires row { row < length a.now }
            requires column { column < length b.now }
            ensures { F.post rule (slice_index_or a.entry.now row (pos 0)) (slice_index_or b.entry.now column (pos 0)) result }
        { rule(a[row], b[column]) },
    )
}

/// All pairs of characters. The function is chosen once.
fn glyph_pairs(
    alloc: Global,
    f: Dyad,
    shape: &[u32],
    a: &[Glyph],
    b: &[Glyph],
) -> Result<Array, Fail>
    requires rank { length shape.now ≤ most_axes }
    requires count { length a.now * length b.now ≡ element_count shape.now }
    requires fits { length a.now * length b.now < 2 ^ 64 }
    ensures { AnswersFirst result (numbers_answer shape.now (outer_at f (chars a.now) (chars b.now))) }
{
    match f {
        Dyad::Equal => glyph_pairs_by(alloc, f, shape, a, b, rules::same),
        Dyad::NotEqual => glyph_pairs_by(alloc, f, shape, a, b, rules::different),
        _ => glyph_pairs_by(
            alloc,
            f,
            shape,
            a,
            b,
            |alike: bool| -> Option<i64>
                ensures { result ≡ item_of_chars f alike }
            { character_of(f, alike) },
        ),
    }
}

/// All pairs of characters, by the rule of a function for items that are alike or not.
fn glyph_pairs_by<F: Fn(bool) -> Option<i64>>(
    alloc: Global,
    f: Dyad,
    shape: &[u32],
    a: &[Glyph],
    b: &[Glyph],
    rule: F,
) -> Result<Array, Fail>
    requires callable { F.IsAlwaysCallable rule }
    requires rule { Tells (F.post rule) (item_of_chars f) }
    requires rank { length shape.now ≤ most_axes }
    requires count { length a.now * length b.now ≡ element_count shape.now }
    requires fits { length a.now * length b.now < 2 ^ 64 }
    ensures { AnswersFirst result (numbers_answer shape.now (outer_at f (chars a.now) (chars b.now))) }
{
    numbers_by_rows(
        alloc,
        shape,
        a.len(),
        b.len(),
        &|row: usize, column: usize| -> Option<i64>
            requires callable { F.IsAlwaysCallable rule }
            requires row { row < length a.now }
            requires column { column < length b.now }
            ensures { F.post rule (slice_index a.entry.now row == slice_index b.entry.now column) result }
        { rule(a[row].code() == b[column].code()) },
    )
}

/// All pairs of a character and a number, of which one is as another.
fn unlike_pairs(
    alloc: Global,
    f: Dyad,
    shape: &[u32],
    rows: usize,
    columns: usize,
) -> Result<Array, Fail>
    requires rank { length shape.now ≤ most_axes }
    requires count { rows * columns ≡ element_count shape.now }
    requires fits { rows * columns < 2 ^ 64 }
    ensures { AnswersFirst result (numbers_answer shape.now (λ place. item_of_chars f false)) }
{
    let item = character_of(f, false);
    numbers_by_rows(
        alloc,
        shape,
        rows,
        columns,
        &|_row: usize, _column: usize| -> Option<i64>
            ensures { result ≡ item }
        { item },
    )
}
