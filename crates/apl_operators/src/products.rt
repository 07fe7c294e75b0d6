ghost use Rattle.std.specs.Prelude.{◌≡◌, ◌+◌, ◌*◌, ◌<◌, ◌≤◌, ◌^◌, ℕ, ℤ, Option, length};
ghost use Rattle.apl_arrays.specs.Array.{element_count};
ghost use Rattle.apl_arrays.specs.Limits.{most_axes};
ghost use Rattle.apl_items.specs.Answers.{AnswersFirst};
ghost use Rattle.apl_scalar.specs.Table.{dyadic_item};
ghost use Rattle.operator_rules.specs.Gathering.{numbers_answer};
ghost use Rattle.apl_operators.specs.Products.{FollowsPairs, IsExtent, product_of, products_at};
ghost use Rattle.operator_rules.specs.Reduction.{Joins};

use crate::reduction::reduced;
use crate::rows::numbers_by_rows;
use apl_arrays::{Array, Fail};
use apl_scalar::{item_of_numbers, rules};
use apl_verbs::Dyad;
use std::alloc::Global;

/// How many rows the first argument has, how many items are paired in each product, and how many columns the second has.
#[derive(Clone, Copy)]
pub(crate) struct ProductExtent {
    pub rows: usize,
    pub paired: usize,
    pub columns: usize,
}

/// All products, by a rule for the pair of two places. The functions that loops reduce them by are chosen once; all others
/// are asked for by each pair.
pub(crate) fn all_products<P: Fn(usize, usize) -> Option<i64>>(
    alloc: Global,
    f: Dyad,
    shape: &[u32],
    extent: ProductExtent,
    pair: &P,
) -> Result<Array, Fail>
    requires rank { length shape.now ≤ most_axes }
    requires count { extent.rows * extent.columns ≡ element_count shape.now }
    requires extent { IsExtent extent }
    requires callable { (x y : ℕ) → x < extent.rows * extent.paired → y < extent.paired * extent.columns → P.pre pair.now x y }
    ensures { (item : ℕ → ℕ → Option ℤ) → FollowsPairs (P.post pair.now) (extent.rows * extent.paired) (extent.paired * extent.columns) item → AnswersFirst result (numbers_answer shape.now (products_at f item extent.paired extent.columns)) }
{
    match f {
        Dyad::Plus => products_by(alloc, f, shape, extent, pair, rules::plus),
        Dyad::Maximum => products_by(alloc, f, shape, extent, pair, rules::maximum),
        Dyad::Minimum => products_by(alloc, f, shape, extent, pair, rules::minimum),
        Dyad::And => products_by(alloc, f, shape, extent, pair, rules::and),
        Dyad::Or => products_by(alloc, f, shape, extent, pair, rules::or),
        _ => products_by(
            alloc,
            f,
            shape,
            extent,
            pair,
            |a: i64, b: i64| -> Option<i64>
                ensures { result ≡ dyadic_item f a b }
            { item_of_numbers(f, a, b) },
        ),
    }
}

/// All products, reduced by the rule of a function.
fn products_by<P: Fn(usize, usize) -> Option<i64>, F: Fn(i64, i64) -> Option<i64>>(
    alloc: Global,
    f: Dyad,
    shape: &[u32],
    extent: ProductExtent,
    pair: &P,
    rule: F,
) -> Result<Array, Fail>
    requires able { F.IsAlwaysCallable rule }
    requires rule { Joins (F.post rule) (dyadic_item f) }
    requires rank { length shape.now ≤ most_axes }
    requires count { extent.rows * extent.columns ≡ element_count shape.now }
    requires extent { IsExtent extent }
    requires callable { (x y : ℕ) → x < extent.rows * extent.paired → y < extent.paired * extent.columns → P.pre pair.now x y }
    ensures { (item : ℕ → ℕ → Option ℤ) → FollowsPairs (P.post pair.now) (extent.rows * extent.paired) (extent.paired * extent.columns) item → AnswersFirst result (numbers_answer shape.now (products_at f item extent.paired extent.columns)) }
{
    numbers_by_rows(
        alloc,
        shape,
        extent.rows,
        extent.columns,
        &|row: usize, column: usize| -> Option<i64>
            requires able { F.IsAlwaysCallable rule }
            requires rule { Joins (F.post rule) (dyadic_item f) }
            requires extent { IsExtent extent }
            requires row { row < extent.rows }
            requires column { column < extent.columns }
            requires callable { (x y : ℕ) → x < extent.rows * extent.paired → y < extent.paired * extent.columns → P.pre pair.now x y }
            ensures { (item : ℕ → ℕ → Option ℤ) → FollowsPairs (P.post pair.entry.now) (extent.rows * extent.paired) (extent.paired * extent.columns) item → result ≡ product_of f item extent.paired extent.columns row column }
        { row_by_column(f, extent, row, column, pair, &rule) },
    )
}

/// The product of a row and a column.
fn row_by_column<P: Fn(usize, usize) -> Option<i64>, F: Fn(i64, i64) -> Option<i64>>(
    f: Dyad,
    extent: ProductExtent,
    row: usize,
    column: usize,
    pair: &P,
    rule: &F,
) -> Option<i64>
    requires able { F.IsAlwaysCallable rule.now }
    requires rule { Joins (F.post rule.now) (dyadic_item f) }
    requires extent { IsExtent extent }
    requires row { row < extent.rows }
    requires column { column < extent.columns }
    requires callable { (x y : ℕ) → x < extent.rows * extent.paired → y < extent.paired * extent.columns → P.pre pair.now x y }
    ensures { (item : ℕ → ℕ → Option ℤ) → FollowsPairs (P.post pair.now) (extent.rows * extent.paired) (extent.paired * extent.columns) item → result ≡ product_of f item extent.paired extent.columns row column }
{
    let ProductExtent {
        paired,
        columns,
        ..
    } = extent;
    let item = |along: usize| -> Option<i64>
        requires callable { P.pre pair.now (row * paired + along) (along * columns + column) }
        requires in_a { row * paired + along < 2 ^ 64 }
        requires in_b { along * columns + column < 2 ^ 64 }
        ensures { P.post pair.entry.now (row * paired + along) (along * columns + column) result }
    { pair(row * paired + along, along * columns + column) };
    reduced(paired - 1, &item, rule)
}
