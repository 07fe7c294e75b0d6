ghost use Rattle.std.specs.Prelude.{◌≡◌, ◌+◌, ◌*◌, ◌/◌, ◌-◌, ◌<◌, ◌≤◌, ◌==◌, ◌++◌, Option, false, drop, length};
ghost use Rattle.apl_arrays.specs.Array.{seen_items, IsArray, chars, element_count, item_count, numbers};
ghost use Rattle.apl_arrays.specs.Limits.{most_axes};
ghost use Rattle.apl_items.specs.Answers.{AnswersFirst};
ghost use Rattle.apl_items.specs.Extension.{Reaches, char_at, number_at, place_in};
ghost use Rattle.apl_scalar.specs.Table.{dyadic_item, item_of_chars};
ghost use Rattle.operator_rules.specs.Gathering.{numbers_answer};
ghost use Rattle.operator_rules.specs.Inner.{ends_differ, first_length, front, inner_at, inner_product_of, last_length, paired};
ghost use Rattle.apl_operators.specs.Products.{IsExtent, products_at};
ghost use Rattle.operator_rules.specs.Reduction.{Joins, Tells};

use crate::identities::identities;
use crate::items::{refuses_none, takes_all};
use crate::products::{ProductExtent, all_products};
use apl_arrays::{
    Array, Fail, Glyph, ItemsRef, RANK_LIMIT, Report, count_of_elements, shape_fault,
};
use apl_items::{glyph_at, is_single, joined_shape, number_at};
use apl_scalar::{character_of, item_of_numbers, rules};
use apl_verbs::Dyad;
use std::alloc::Global;

/// The inner product of two arrays: each row of the first with each column of the second, paired by one function and
/// reduced by another; the shape is that of the first without its last axis, then that of the second without its first. An
/// array of one element takes the length of the other. RANK where that has over eight axes, else LENGTH where the last axis
/// of the first and the first of the second differ, else DOMAIN where two items have no value of 64 bits, or where none are
/// paired and there is no identity, else WS FULL where the result is too large. Where there is no report it takes memory for
/// the items. ISO 8485.
pub fn inner(alloc: Global, f: Dyad, g: Dyad, a: &Array, b: &Array) -> Result<Array, Fail>
    ensures { AnswersFirst result (inner_product_of f g a.now b.now) }
{
    let (front, back) = (without_last(a.shape()), without_first(b.shape()));
    if front.len() + back.len() > RANK_LIMIT {
        return Err(Fail::Report(Report::Rank));
    }
    if ends_differ(a, b) {
        return Err(Fail::Report(Report::Length));
    }
    let shape = joined_shape(front, back);
    products(alloc, f, g, a, b, shape.as_slice())
}

/// A shape without its last axis.
fn without_last(shape: &[u32]) -> &[u32]
    ensures { result.now ≡ front shape.now }
{
    &shape[..shape.len().saturating_sub(1)]
}

/// A shape without its first axis.
fn without_first(shape: &[u32]) -> &[u32]
    ensures { result.now ≡ drop 1 shape.now }
{
    match shape.split_first() {
        Some((_, rest)) => rest,
        None => shape,
    }
}

/// The length of the last axis, 1 where there is none.
fn last_length(shape: &[u32]) -> usize
    ensures { result ≡ last_length shape.now }
{
    match shape.last() {
        Some(length) => *length as usize,
        None => 1,
    }
}

/// The length of the first axis, 1 where there is none.
fn first_length(shape: &[u32]) -> usize
    ensures { result ≡ first_length shape.now }
{
    match shape.first() {
        Some(length) => *length as usize,
        None => 1,
    }
}

/// Whether the last axis of one and the first of the other differ where neither extends.
fn ends_differ(a: &Array, b: &Array) -> bool
    ensures { result ≡ ends_differ a.now b.now }
{
    !is_single(a) && !is_single(b) && last_length(a.shape()) != first_length(b.shape())
}

/// How many items are paired: an array of one element takes the length of the other.
fn paired(a: &Array, b: &Array) -> usize
    ensures { result ≡ paired a.now b.now }
{
    if is_single(a) {
        first_length(b.shape())
    } else {
        last_length(a.shape())
    }
}

/// The products of rows and columns that fit.
fn products(
    alloc: Global,
    f: Dyad,
    g: Dyad,
    a: &Array,
    b: &Array,
    shape: &[u32],
) -> Result<Array, Fail>
    requires a { IsArray a.now }
    requires b { IsArray b.now }
    requires rank { length shape.now ≤ most_axes }
    requires shape { shape.now ≡ front a.now.shape ++ drop 1 b.now.shape }
    requires fit { ends_differ a.now b.now ≡ false }
    ensures { AnswersFirst result (inner_product_of f g a.now b.now) }
{
    let paired = paired(a, b);
    if paired == 0 {
        return identities(alloc, f, shape);
    }
    let extent = ProductExtent {
        rows: count_of_elements(without_last(a.shape())),
        paired,
        columns: count_of_elements(without_first(b.shape())),
    };
    products_of_items(alloc, f, g, shape, a.items(), b.items(), extent)
}

/// The products of rows and columns that have items. The kinds are looked at once. Where they are too many, functions that
/// take all items are not asked.
fn products_of_items(
    alloc: Global,
    f: Dyad,
    g: Dyad,
    shape: &[u32],
    a: ItemsRef<'_>,
    b: ItemsRef<'_>,
    extent: ProductExtent,
) -> Result<Array, Fail>
    requires rank { length shape.now ≤ most_axes }
    requires count { extent.rows * extent.columns ≡ element_count shape.now }
    requires extent { IsExtent extent }
    requires in_a { Reaches (item_count (seen_items a)) (extent.rows * extent.paired) }
    requires in_b { Reaches (item_count (seen_items b)) (extent.paired * extent.columns) }
    ensures { AnswersFirst result (numbers_answer shape.now (inner_at f g (seen_items a.entry) (seen_items b.entry) extent.paired extent.columns)) }
{
    if shape_fault(shape).is_some() && refuses_none(f) && takes_all(g, a, b) {
        return Err(Fail::Report(Report::WsFull));
    }
    match (a, b) {
        (ItemsRef::Numbers(a), ItemsRef::Numbers(b)) => {
            number_products(alloc, f, g, shape, a, b, extent)
        }
        (ItemsRef::Chars(a), ItemsRef::Chars(b)) => {
            glyph_products(alloc, f, g, shape, a, b, extent)
        }
        (ItemsRef::Numbers(_), ItemsRef::Chars(_)) => unlike_products(alloc, f, g, shape, extent),
        (ItemsRef::Chars(_), ItemsRef::Numbers(_)) => unlike_products(alloc, f, g, shape, extent),
    }
}

/// The products of numbers. The functions that loops pair them by are chosen once; all others are asked for by each pair.
fn number_products(
    alloc: Global,
    f: Dyad,
    g: Dyad,
    shape: &[u32],
    a: &[i64],
    b: &[i64],
    extent: ProductExtent,
) -> Result<Array, Fail>
    requires rank { length shape.now ≤ most_axes }
    requires count { extent.rows * extent.columns ≡ element_count shape.now }
    requires extent { IsExtent extent }
    requires in_a { Reaches (length a.now) (extent.rows * extent.paired) }
    requires in_b { Reaches (length b.now) (extent.paired * extent.columns) }
    ensures { AnswersFirst result (numbers_answer shape.now (inner_at f g (numbers a.now) (numbers b.now) extent.paired extent.columns)) }
{
    match g {
        Dyad::Plus => products_by_pairs(alloc, f, g, shape, a, b, extent, rules::plus),
        Dyad::Times => products_by_pairs(alloc, f, g, shape, a, b, extent, rules::times),
        Dyad::And => products_by_pairs(alloc, f, g, shape, a, b, extent, rules::and),
        Dyad::Equal => products_by_pairs(alloc, f, g, shape, a, b, extent, rules::equal),
        Dyad::NotEqual => products_by_pairs(alloc, f, g, shape, a, b, extent, rules::not_equal),
        _ => products_by_pairs(
            alloc,
            f,
            g,
            shape,
            a,
            b,
            extent,
            |a: i64, b: i64| -> Option<i64>
                ensures { result ≡ dyadic_item g a b }
            { item_of_numbers(g, a, b) },
        ),
    }
}

/// The products of numbers, paired by the rule of a function.
fn products_by_pairs<G: Fn(i64, i64) -> Option<i64>>(
    alloc: Global,
    f: Dyad,
    g: Dyad,
    shape: &[u32],
    a: &[i64],
    b: &[i64],
    extent: ProductExtent,
    rule: G,
) -> Result<Array, Fail>
    requires callable { G.IsAlwaysCallable rule }
    requires rule { Joins (G.post rule) (dyadic_item g) }
    requires rank { length shape.now ≤ most_axes }
    requires count { extent.rows * extent.columns ≡ element_count shape.now }
    requires extent { IsExtent extent }
    requires in_a { Reaches (length a.now) (extent.rows * extent.paired) }
    requires in_b { Reaches (length b.now) (extent.paired * extent.columns) }
    ensures { AnswersFirst result (numbers_answer shape.now (inner_at f g (numbers a.now) (numbers b.now) extent.paired extent.columns)) }
{
    all_products(
        alloc,
        f,
        shape,
        extent,
        &|x: usize, y: usize| -> Option<i64>
            requires callable { G.IsAlwaysCallable rule }
            requires in_a { place_in (length a.now) x < length a.now }
            requires in_b { place_in (length b.now) y < length b.now }
            ensures { G.post rule (number_at a.entry.now x) (number_at b.entry.now y) result }
        { rule(number_at(a, x), number_at(b, y)) },
    )
}

/// The products of characters. The function that pairs them is chosen once.
fn glyph_products(
    alloc: Global,
    f: Dyad,
    g: Dyad,
    shape: &[u32],
    a: &[Glyph],
    b: &[Glyph],
    extent: ProductExtent,
) -> Result<Array, Fail>
    requires rank { length shape.now ≤ most_axes }
    requires count { extent.rows * extent.columns ≡ element_count shape.now }
    requires extent { IsExtent extent }
    requires in_a { Reaches (length a.now) (extent.rows * extent.paired) }
    requires in_b { Reaches (length b.now) (extent.paired * extent.columns) }
    ensures { AnswersFirst result (numbers_answer shape.now (inner_at f g (chars a.now) (chars b.now) extent.paired extent.columns)) }
{
    match g {
        Dyad::Equal => glyph_products_by(alloc, f, g, shape, a, b, extent, rules::same),
        Dyad::NotEqual => glyph_products_by(alloc, f, g, shape, a, b, extent, rules::different),
        _ => glyph_products_by(
            alloc,
            f,
            g,
            shape,
            a,
            b,
            extent,
            |alike: bool| -> Option<i64>
                ensures { result ≡ item_of_chars g alike }
            { character_of(g, alike) },
        ),
    }
}

/// The products of characters, paired by the rule of a function for items that are alike or not.
fn glyph_products_by<G: Fn(bool) -> Option<i64>>(
    alloc: Global,
    f: Dyad,
    g: Dyad,
    shape: &[u32],
    a: &[Glyph],
    b: &[Glyph],
    extent: ProductExtent,
    rule: G,
) -> Result<Array, Fail>
    requires callable { G.IsAlwaysCallable rule }
    requires rule { Tells (G.post rule) (item_of_chars g) }
    requires rank { length shape.now ≤ most_axes }
    requires count { extent.rows * extent.columns ≡ element_count shape.now }
    requires extent { IsExtent extent }
    requires in_a { Reaches (length a.now) (extent.rows * extent.paired) }
    requires in_b { Reaches (length b.now) (extent.paired * extent.columns) }
    ensures { AnswersFirst result (numbers_answer shape.now (inner_at f g (chars a.now) (chars b.now) extent.paired extent.columns)) }
{
    all_products(
        alloc,
        f,
        shape,
        extent,
        &|x: usize, y: usize| -> Option<i64>
            requires callable { G.IsAlwaysCallable rule }
            requires in_a { place_in (length a.now) x < length a.now }
            requires in_b { place_in (length b.now) y < length b.now }
            ensures { G.post rule (char_at a.entry.now x == char_at b.entry.now y) result }
        { rule(glyph_at(a, x).code() == glyph_at(b, y).code()) },
    )
}

/// The products of characters with numbers, of which one pair is as another.
fn unlike_products(
    alloc: Global,
    f: Dyad,
    g: Dyad,
    shape: &[u32],
    extent: ProductExtent,
) -> Result<Array, Fail>
    requires rank { length shape.now ≤ most_axes }
    requires count { extent.rows * extent.columns ≡ element_count shape.now }
    requires extent { IsExtent extent }
    ensures { AnswersFirst result (numbers_answer shape.now (products_at f (λ x y. item_of_chars g false) extent.paired extent.columns)) }
{
    let item = character_of(g, false);
    all_products(
        alloc,
        f,
        shape,
        extent,
        &|_x: usize, _y: usize| -> Option<i64>
            ensures { result ≡ item }
        { item },
    )
}
