ghost use Rattle.std.specs.Prelude.{◌≡◌, ◌<◌, ◌==◌, ℕ, [], length, slice_get, IfOk, vec_len, vec_capacity};
ghost use Rattle.apl_items.specs.Extension.{Reaches, place_in, number_at, char_at};
ghost use Rattle.apl_items.specs.Places.{GivesEach, OnDomain, OnWantOfMemory};

use crate::extension::{glyph_at, number_at};
use crate::rows::by_rows;
use apl_arrays::{Fail, Glyph, List, WantOfMemory};
use std::alloc::Global;

/// The items that a rule gives at each place, or DOMAIN where it gives none, also where there is no memory. It asks once for
/// memory, for the items.
pub fn by_place<T: Drop, F: Fn(usize) -> Option<T>>(
    alloc: Global,
    count: usize,
    rule: F,
) -> Result<List<T>, Fail>
    requires { (place : ℕ) → place < count → F.pre rule place }
    ensures whole { IfOk result (λ list. length list.items ≡ count) }
    ensures items { IfOk result (λ list. (place : ℕ) → place < count → F.post rule place (slice_get list.items place)) }
    ensures domain { OnDomain result ((place : ℕ) × (place < count) × F.post rule place None) }
    ensures memory { OnWantOfMemory result (GivesEach count (F.post rule)) }
{
    by_rows(
        alloc,
        1,
        count,
        &|_row: usize, place: usize| -> Option<T>
            requires { F.pre rule place }
            ensures { F.post rule place result }
        { rule(place) },
    )
}

/// The items that a rule gives to the numbers for each place. It takes memory for the items.
pub fn each<F: Fn(i64) -> Option<i64>>(
    alloc: Global,
    count: usize,
    b: &[i64],
    rule: F,
) -> Result<List<i64>, Fail>
    requires callable { F.IsAlwaysCallable rule }
    requires reaches { Reaches (length b.now) count }
    ensures whole { IfOk result (λ list. length list.items ≡ count) }
    ensures items { IfOk result (λ list. (place : ℕ) → place < count → F.post rule (number_at b.now place) (slice_get list.items place)) }
    ensures domain { OnDomain result ((place : ℕ) × (place < count) × F.post rule (number_at b.now place) None) }
    ensures memory { OnWantOfMemory result (GivesEach count (λ place. F.post rule (number_at b.now place))) }
{
    by_place(
        alloc,
        count,
        |place: usize| -> Option<i64>
            requires callable { F.IsAlwaysCallable rule }
            requires reaches { place_in (length b.now) place < length b.now }
            ensures { F.post rule (number_at b.entry.now place) result }
        { rule(number_at(b, place)) },
    )
}

/// The items that a rule gives to the pairs of numbers for each place. It takes memory for the items.
pub fn pairs<F: Fn(i64, i64) -> Option<i64>>(
    alloc: Global,
    count: usize,
    a: &[i64],
    b: &[i64],
    rule: F,
) -> Result<List<i64>, Fail>
    requires callable { F.IsAlwaysCallable rule }
    requires a_reaches { Reaches (length a.now) count }
    requires b_reaches { Reaches (length b.now) count }
    ensures whole { IfOk result (λ list. length list.items ≡ count) }
    ensures items { IfOk result (λ list. (place : ℕ) → place < count → F.post rule (number_at a.now place) (number_at b.now place) (slice_get list.items place)) }
    ensures domain { OnDomain result ((place : ℕ) × (place < count) × F.post rule (number_at a.now place) (number_at b.now place) None) }
    ensures memory { OnWantOfMemory result (GivesEach count (λ place. F.post rule (number_at a.now place) (number_at b.now place))) }
{
    by_place(
        alloc,
        count,
        |place: usize| -> Option<i64>
            requires callable { F.IsAlwaysCallable rule }
            requires a_reaches { place_in (length a.now) place < length a.now }
            requires b_reaches { place_in (length b.now) place < length b.now }
            ensures { F.post rule (number_at a.entry.now place) (number_at b.entry.now place) result }
        { rule(number_at(a, place), number_at(b, place)) },
    )
}

/// The items that a rule gives to the pairs of characters for each place, by whether they are the same.
/// It takes memory for the items.
pub fn glyph_pairs<F: Fn(bool) -> Option<i64>>(
    alloc: Global,
    count: usize,
    a: &[Glyph],
    b: &[Glyph],
    rule: F,
) -> Result<List<i64>, Fail>
    requires callable { F.IsAlwaysCallable rule }
    requires a_reaches { Reaches (length a.now) count }
    requires b_reaches { Reaches (length b.now) count }
    ensures whole { IfOk result (λ list. length list.items ≡ count) }
    ensures items { IfOk result (λ list. (place : ℕ) → place < count → F.post rule (char_at a.now place == char_at b.now place) (slice_get list.items place)) }
    ensures domain { OnDomain result ((place : ℕ) × (place < count) × F.post rule (char_at a.now place == char_at b.now place) None) }
    ensures memory { OnWantOfMemory result (GivesEach count (λ place. F.post rule (char_at a.now place == char_at b.now place))) }
{
    by_place(
        alloc,
        count,
        |place: usize| -> Option<i64>
            requires callable { F.IsAlwaysCallable rule }
            requires a_reaches { place_in (length a.now) place < length a.now }
            requires b_reaches { place_in (length b.now) place < length b.now }
            ensures { F.post rule (char_at a.entry.now place == char_at b.entry.now place) result }
        { rule(glyph_at(a, place).code() == glyph_at(b, place).code()) },
    )
}

/// An empty list with room for so many items. It takes that memory at once.
pub fn room_for<T>(alloc: Global, count: usize) -> Result<Vec<T>, WantOfMemory>
    ensures none { IfOk result (λ room. room.items ≡ []) }
    ensures len { IfOk result (λ items. vec_len items ≡ 0) }
    ensures room { IfOk result (λ items. vec_capacity items ≡ count) }
{
    Ok(Vec::with_capacity(alloc, count)?)
}
