ghost use Rattle.std.specs.Prelude.{◌≡◌, ◌==◌, ◌+◌, ◌≤◌, pos, IfOk, int_le, length, map};
ghost use Rattle.std.specs.List.{position_or_len};
ghost use Rattle.std.specs.Ordering.{int_eq};
ghost use Rattle.apl_arrays.specs.Array.{seen_items, item_count};
ghost use Rattle.apl_items.specs.Answers.{Answers};
ghost use Rattle.apl_items.specs.Places.{OnWantOfMemory};
ghost use Rattle.apl_scalar.specs.Table.{truth};
ghost use Rattle.apl_search.specs.Classes.{AreFirsts, AreFirstsFromLeast};
ghost use Rattle.apl_search.specs.Distances.{IsSpan};
ghost use Rattle.apl_search.specs.Lookup.{first_places, index_of_of, member_of, memberships};

use crate::classes::{Codes, Distances};
use crate::firsts::{first_by_code, first_near, firsts_of};
use crate::index::{first_place, index_for, is_few};
use crate::places::place_number;
use crate::spans::{Span, small_span};
use apl_arrays::{Array, Fail, Glyph, Items, ItemsRef, List, NumberList, Report, WantOfMemory};
use apl_scalar::rules::truth;
use std::alloc::Global;

/// The first place in a vector of each item of another array, from 1; for an item that it has not, 1 and its length. A
/// scalar is a vector of one item, and a character is no number. RANK where the first array is of rank over 1. Where there
/// is no report it takes memory for the places, and where both have many items for what finds those of the first.
pub fn index_of(alloc: Global, a: &Array, b: &Array) -> Result<Array, Fail>
    ensures answer { Answers result (index_of_of a.now b.now) }
    ensures memory { OnWantOfMemory result (length a.now.shape ≤ 1) }
{
    if a.shape().len() > 1 {
        return Err(Fail::Report(Report::Rank));
    }
    let places = first_places(alloc, a.items(), b.items())?;
    Ok(Array::shaped(alloc, b.shape(), Items::Numbers(NumberList::from(places)))?)
}

/// 1 for each item of an array that another has, 0 for each other. A character is no number. It takes memory for the
/// numbers, and where both have many items for what finds those of the second.
pub fn member(alloc: Global, a: &Array, b: &Array) -> Result<Array, Fail>
    ensures { Answers result (member_of a.now b.now) }
{
    let members = memberships(alloc, a.items(), b.items())?;
    Ok(Array::shaped(alloc, a.shape(), Items::Numbers(NumberList::from(members)))?)
}

/// 1 for each of some items that others have, 0 for each other.
fn memberships(alloc: Global, a: ItemsRef<'_>, b: ItemsRef<'_>) -> Result<List<i64>, WantOfMemory>
    requires { item_count (seen_items b) ≤ 16384 }
    ensures { IfOk result (λ members. members.items ≡ memberships (seen_items a.entry) (seen_items b.entry)) }
{
    let count = b.len();
    let places = first_places(alloc, b, a)?;
    Ok(flags_of(places, count))
}

/// 1 for each place, from 1, that is one of so many, 0 for each other.
fn flags_of(places: List<i64>, count: usize) -> List<i64>
    requires { count ≤ 16384 }
    ensures { result.items ≡ map (λ place. truth (int_le place (pos count))) places.items }
{
    let mut flags = places.into_vec();
    for flag in flags.iter_mut() {
        *flag = truth(*flag <= count as i64);
    }
    List::from(flags)
}

/// The first place in some items of each of others, from 1; for one that they have not, 1 and their count.
fn first_places(alloc: Global, a: ItemsRef<'_>, b: ItemsRef<'_>) -> Result<List<i64>, WantOfMemory>
    requires { item_count (seen_items a) ≤ 16384 }
    ensures { IfOk result (λ places. places.items ≡ first_places (seen_items a.entry) (seen_items b.entry)) }
{
    match (a, b) {
        (ItemsRef::Numbers(a), ItemsRef::Numbers(b)) => number_places(alloc, a, b),
        (ItemsRef::Chars(a), ItemsRef::Chars(b)) => glyph_places(alloc, a, b),
        (ItemsRef::Numbers(a), ItemsRef::Chars(b)) => all_same(alloc, b, place_number(a.len())),
        (ItemsRef::Chars(a), ItemsRef::Numbers(b)) => all_same(alloc, b, place_number(a.len())),
    }
}

/// The first place in some numbers of each of others, from 1; for one that they have not, 1 and their count: by the distances
/// from the least, where the numbers are not few and lie close together.
fn number_places(alloc: Global, a: &[i64], b: &[i64]) -> Result<List<i64>, WantOfMemory>
    requires { length a.now ≤ 16384 }
    ensures { IfOk result (λ places. places.items ≡ map (λ number. pos (position_or_len (int_eq number) a.now + 1)) b.now) }
{
    if is_few(a.len(), b.len()) {
        return places_of(alloc, a, b);
    }
    match small_span(a, 4 * a.len()) {
        Some(span) => near_places(alloc, a, b, span),
        None => places_of(alloc, a, b),
    }
}

/// The first place in some characters of each of others, from 1; for one that they have not, 1 and their count: by their
/// codes, where they are not few.
fn glyph_places(alloc: Global, a: &[Glyph], b: &[Glyph]) -> Result<List<i64>, WantOfMemory>
    requires { length a.now ≤ 16384 }
    ensures { IfOk result (λ places. places.items ≡ map (λ glyph. pos (position_or_len (λ other. glyph == other) a.now + 1)) b.now) }
{
    if is_few(a.len(), b.len()) {
        return places_of(alloc, a, b);
    }
    let firsts = firsts_of(alloc, a, &Codes, 256)?;
    places_by_code(alloc, a, b, firsts.as_slice())
}

/// The first place in a list of each item of another, from 1; for one that it has not, 1 and its length.
fn places_of<T: Ord + Copy + Drop>(
    alloc: Global,
    a: &[T],
    b: &[T],
) -> Result<List<i64>, WantOfMemory>
    requires { length a.now ≤ 16384 }
    ensures { IfOk result (λ places. places.items ≡ map (λ item. pos (position_or_len (T.eq item) a.now + 1)) b.now) }
{
    let index = index_for(alloc, a, b.len())?;
    let mut places = List::new(alloc);
    places.reserve(b.len())?;
    for item in b {
        places.push_reserved(place_number(first_place(a, &index, item)));
    }
    Ok(places)
}

/// The first place of each of some numbers among others that lie close together, from 1; for one that these have not, 1 and
/// their count.
fn near_places(alloc: Global, a: &[i64], b: &[i64], span: Span) -> Result<List<i64>, WantOfMemory>
    requires few { length a.now ≤ 16384 }
    requires span { IsSpan a.now span.least span.greatest span.count }
    ensures { IfOk result (λ places. places.items ≡ map (λ number. pos (position_or_len (int_eq number) a.now + 1)) b.now) }
{
    let base = span.least;
    let firsts = firsts_of(alloc, a, &Distances { base }, span.count)?;
    places_by_distance(alloc, a, b, base, firsts.as_slice())
}

/// The first place in some numbers of each of others, from 1, by distances from the least; for one that they have not, 1 and
/// their count.
fn places_by_distance(
    alloc: Global,
    a: &[i64],
    b: &[i64],
    base: i64,
    firsts: &[u16],
) -> Result<List<i64>, WantOfMemory>
    requires few { length a.now ≤ 16384 }
    requires firsts { AreFirstsFromLeast a.now base firsts.now }
    ensures { IfOk result (λ places. places.items ≡ map (λ number. pos (position_or_len (int_eq number) a.now + 1)) b.now) }
{
    let mut places = List::new(alloc);
    places.reserve(b.len())?;
    for number in b {
        places.push_reserved(place_number(first_near(a, base, firsts, *number)));
    }
    Ok(places)
}

/// The first place in some characters of each of others, from 1, by their codes; for one that they have not, 1 and their
/// count.
fn places_by_code(
    alloc: Global,
    a: &[Glyph],
    b: &[Glyph],
    firsts: &[u16],
) -> Result<List<i64>, WantOfMemory>
    requires few { length a.now ≤ 16384 }
    requires span { length firsts.now ≡ 256 }
    requires firsts { AreFirsts (λ code. code) a.now firsts.now }
    ensures { IfOk result (λ places. places.items ≡ map (λ glyph. pos (position_or_len (λ other. glyph == other) a.now + 1)) b.now) }
{
    let mut places = List::new(alloc);
    places.reserve(b.len())?;
    for glyph in b {
        places.push_reserved(place_number(first_by_code(a, firsts, *glyph)));
    }
    Ok(places)
}

/// One number for each item of a list.
fn all_same<T>(alloc: Global, list: &[T], number: i64) -> Result<List<i64>, WantOfMemory>
    ensures { IfOk result (λ numbers. numbers.items ≡ map (λ item. number) list.now) }
{
    let mut numbers = List::new(alloc);
    numbers.reserve(list.len())?;
    for _item in list {
        numbers.push_reserved(number);
    }
    Ok(numbers)
}
