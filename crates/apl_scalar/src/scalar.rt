ghost use Rattle.std.specs.Prelude.{◌≡◌, ◌==◌, Bool, Option, ℤ, IsOk, length, true, false, not, if◌then◌else◌};
ghost use Rattle.apl_arrays.specs.Array.{seen_items, is_chars, item_count, numbers, numbers_in};
ghost use Rattle.apl_items.specs.Answers.{Answers, first_report, no_faults};
ghost use Rattle.apl_items.specs.Extension.{Reaches, char_at, leader, ranks_differ, shapes_differ};
ghost use Rattle.apl_items.specs.Places.{HasItems, MakesItems, OnWantOfMemory};
ghost use Rattle.apl_scalar.specs.Scalar.{dyadic_at, dyadic_of, is_unfit, monadic_at, monadic_of};
ghost use Rattle.apl_scalar.specs.Table.{item_of_chars, takes_chars};

use crate::rules;
use crate::table::{character_of, dyadic_items, monadic_items};
use apl_arrays::{Array, Fail, Glyph, Items, ItemsRef, List, NumberList, Report};
use apl_items::{by_place, glyph_pairs, leader, ranks_differ, shapes_differ};
use apl_verbs::{Dyad, Monad};
use std::alloc::Global;

/// A monadic scalar function of an array, item by item. DOMAIN where the argument is of characters, or where an item
/// has no value of 64 bits, also where there is no memory. It takes memory for the items.
pub fn monadic(alloc: Global, f: Monad, b: &Array) -> Result<Array, Fail>
    ensures value { Answers result (monadic_of f b.now) }
    ensures memory { OnWantOfMemory result (IsOk (monadic_of f b.now)) }
{
    if b.is_chars() {
        Err(Fail::Report(Report::Domain))
    } else {
        each_number(alloc, f, b)
    }
}

/// A monadic function of an array of numbers.
#[tactic(auto, using(apl_items::proofs::PlaceLemmas::by_places))]
fn each_number(alloc: Global, f: Monad, b: &Array) -> Result<Array, Fail>
    requires { is_chars b.now.items ≡ false }
    ensures value { Answers result (monadic_of f b.now) }
    ensures memory { OnWantOfMemory result (IsOk (monadic_of f b.now)) }
{
    let items = own_items(alloc, f, b.items().len(), b.items())?;
    Ok(Array::shaped(alloc, b.shape(), Items::Numbers(NumberList::from(items)))?)
}

/// A monadic function of the number for each place.
fn own_items(alloc: Global, f: Monad, count: usize, b: ItemsRef<'_>) -> Result<List<i64>, Fail>
    requires kind { is_chars (seen_items b) ≡ false }
    requires reaches { Reaches (item_count (seen_items b)) count }
    ensures made { MakesItems result count (monadic_at f (numbers_in (seen_items b.entry))) }
    ensures memory { OnWantOfMemory result (HasItems count (monadic_at f (numbers_in (seen_items b.entry)))) }
{
    match b {
        ItemsRef::Numbers(b) => monadic_items(alloc, f, count, b),
        ItemsRef::Chars(_) => unreachable!(),
    }
}

/// A dyadic scalar function of two arrays, item by item; a lone element stands for as many as the other array has. RANK
/// where the ranks differ, else LENGTH where the shapes do, else DOMAIN where an argument is of characters, but for `=`
/// and `≠`, or where a pair of items has no value of 64 bits, each also where there is no memory. It takes memory for the
/// items.
pub fn dyadic(alloc: Global, f: Dyad, a: &Array, b: &Array) -> Result<Array, Fail>
    ensures value { Answers result (dyadic_of f a.now b.now) }
    ensures memory { OnWantOfMemory result (IsOk (dyadic_of f a.now b.now)) }
{
    match misfit(f, a, b) {
        Some(report) => Err(Fail::Report(report)),
        None => item_by_item(alloc, f, a, b),
    }
}

/// The report on the shapes and kinds of two arguments, if there is one.
fn misfit(f: Dyad, a: &Array, b: &Array) -> Option<Report>
    ensures { result ≡ first_report (record no_faults { bad_rank = ranks_differ a.now b.now; bad_length = shapes_differ a.now b.now; bad_domain = is_unfit f a.now.items b.now.items }) }
{
    if ranks_differ(a, b) {
        Some(Report::Rank)
    } else if shapes_differ(a, b) {
        Some(Report::Length)
    } else if (a.is_chars() || b.is_chars()) && !takes_chars(f) {
        Some(Report::Domain)
    } else {
        None
    }
}

/// A dyadic function of two arrays whose shapes and kinds fit.
#[tactic(auto, using(apl_items::proofs::PlaceLemmas::by_places))]
fn item_by_item(alloc: Global, f: Dyad, a: &Array, b: &Array) -> Result<Array, Fail>
    requires rank { ranks_differ a.now b.now ≡ false }
    requires shape { shapes_differ a.now b.now ≡ false }
    requires kind { is_unfit f a.now.items b.now.items ≡ false }
    ensures value { Answers result (dyadic_of f a.now b.now) }
    ensures memory { OnWantOfMemory result (IsOk (dyadic_of f a.now b.now)) }
{
    let shaped = leader(a, b);
    let items = pair_items(alloc, f, shaped.items().len(), a.items(), b.items())?;
    Ok(Array::shaped(
        alloc,
        shaped.shape(),
        Items::Numbers(NumberList::from(items)),
    )?)
}

/// A dyadic function of the pair of items for each place.
fn pair_items(
    alloc: Global,
    f: Dyad,
    count: usize,
    a: ItemsRef<'_>,
    b: ItemsRef<'_>,
) -> Result<List<i64>, Fail>
    requires kind { is_unfit f (seen_items a) (seen_items b) ≡ false }
    requires a_reaches { Reaches (item_count (seen_items a)) count }
    requires b_reaches { Reaches (item_count (seen_items b)) count }
    ensures made { MakesItems result count (dyadic_at f (seen_items a.entry) (seen_items b.entry)) }
    ensures memory { OnWantOfMemory result (HasItems count (dyadic_at f (seen_items a.entry) (seen_items b.entry))) }
{
    match (a, b) {
        (ItemsRef::Numbers(a), ItemsRef::Numbers(b)) => dyadic_items(alloc, f, count, a, b),
        (ItemsRef::Chars(a), ItemsRef::Chars(b)) => glyph_items(alloc, f, count, a, b),
        _ => unlike_items(alloc, f, count),
    }
}

/// `=` or `≠` of the pair of characters for each place.
fn glyph_items(
    alloc: Global,
    f: Dyad,
    count: usize,
    a: &[Glyph],
    b: &[Glyph],
) -> Result<List<i64>, Fail>
    requires kind { takes_chars f ≡ true }
    requires a_reaches { Reaches (length a.now) count }
    requires b_reaches { Reaches (length b.now) count }
    ensures made { MakesItems result count (λ place. item_of_chars f (char_at a.now place == char_at b.now place)) }
    ensures memory { OnWantOfMemory result (HasItems count (λ place. item_of_chars f (char_at a.now place == char_at b.now place))) }
{
    match f {
        Dyad::Equal => glyph_items_by(alloc, f, count, a, b, rules::same),
        _ => glyph_items_by(alloc, f, count, a, b, rules::different),
    }
}

/// A function of the pair of characters for each place, by its rule for characters that are the same or not.
fn glyph_items_by<F: Fn(bool) -> Option<i64>>(
    alloc: Global,
    f: Dyad,
    count: usize,
    a: &[Glyph],
    b: &[Glyph],
    rule: F,
) -> Result<List<i64>, Fail>
    requires callable { F.IsAlwaysCallable rule }
    requires rule { (alike : Bool) (answer : Option ℤ) → F.post rule alike answer → answer ≡ item_of_chars f alike }
    requires a_reaches { Reaches (length a.now) count }
    requires b_reaches { Reaches (length b.now) count }
    ensures made { MakesItems result count (λ place. item_of_chars f (char_at a.now place == char_at b.now place)) }
    ensures memory { OnWantOfMemory result (HasItems count (λ place. item_of_chars f (char_at a.now place == char_at b.now place))) }
{
    glyph_pairs(alloc, count, a, b, rule)
}

/// `=` or `≠` of a character and a number for each place.
fn unlike_items(alloc: Global, f: Dyad, count: usize) -> Result<List<i64>, Fail>
    requires { takes_chars f ≡ true }
    ensures made { MakesItems result count (λ place. item_of_chars f false) }
    ensures memory { OnWantOfMemory result (HasItems count (λ place. item_of_chars f false)) }
{
    by_place(
        alloc,
        count,
        |_place: usize| -> Option<i64>
            ensures { result ≡ item_of_chars f false }
        { character_of(f, false) },
    )
}

/// Whether a function takes characters.
fn takes_chars(f: Dyad) -> bool
    ensures { result ≡ takes_chars f }
{
    matches!(f, Dyad::Equal | Dyad::NotEqual)
}
