ghost use Rattle.std.specs.Prelude.{◌≡◌, ◌<◌, ℕ, None, true, false, IfOk, IfSome, length, slice_get, vec_capacity, vec_len};
ghost use Rattle.apl_items.specs.Places.{GivesEach, OnDomain, OnWantOfMemory};
ghost use Rattle.apl_items.specs.Shapes.{split_count};
ghost use Rattle.apl_operators.specs.Parts.{AtParts};

use apl_arrays::{Fail, List, Report, WantOfMemory};
use apl_items::{Split, room_for};
use std::alloc::Global;

/// The items that a rule gives for each row, each place along the axis and each item there, or DOMAIN where it gives none,
/// also where there is no memory. It asks once for memory, for the items, and where there is none it stores nothing.
pub(crate) fn by_parts<T: Drop, F: Fn(usize, usize, usize) -> Option<T>>(
    alloc: Global,
    count: usize,
    split: Split,
    rule: &F,
) -> Result<List<T>, Fail>
    requires whole { split_count split ≡ count }
    requires callable { (outer along inner : ℕ) → outer < split.outer → along < split.along → inner < split.inner → F.pre rule.now outer along inner }
    ensures whole { IfOk result (λ list. length list.items ≡ count) }
    ensures items { IfOk result (λ list. (place : ℕ) → place < count → AtParts (F.post rule.now) split place (slice_get list.items place)) }
    ensures domain { OnDomain result ((place : ℕ) × (place < count) × AtParts (F.post rule.now) split place None) }
    ensures memory { OnWantOfMemory result (GivesEach count (AtParts (F.post rule.now) split)) }
{
    match room_for(alloc, count) {
        Ok(room) => match stored(room, count, split, rule) {
            Some(list) => Ok(list),
            None => Err(Fail::Report(Report::Domain)),
        },
        Err(WantOfMemory) => {
            if lacks_by_parts(count, split, rule) {
                Err(Fail::Report(Report::Domain))
            } else {
                Err(Fail::WantOfMemory)
            }
        }
    }
}

/// The items that a rule gives for the parts of each place, in a list that has room for them, or `None` where it gives none.
fn stored<T: Drop, F: Fn(usize, usize, usize) -> Option<T>>(
    room: Vec<T>,
    count: usize,
    split: Split,
    rule: &F,
) -> Option<List<T>>
    requires empty { vec_len room ≡ 0 }
    requires room { vec_capacity room ≡ count }
    requires whole { split_count split ≡ count }
    requires callable { (outer along inner : ℕ) → outer < split.outer → along < split.along → inner < split.inner → F.pre rule.now outer along inner }
    ensures whole { IfSome result (λ list. length list.items ≡ count) }
    ensures items { IfSome result (λ list. (place : ℕ) → place < count → AtParts (F.post rule.now) split place (slice_get list.items place)) }
    ensures none { result ≡ None → (place : ℕ) × (place < count) × AtParts (F.post rule.now) split place None }
{
    let mut items = room;
    for outer in 0..split.outer {
        for along in 0..split.along {
            for inner in 0..split.inner {
                match rule(outer, along, inner) {
                    Some(item) => items.push_reserved(item),
                    None => return None,
                }
            }
        }
    }
    Some(List::from(items))
}

/// Whether a rule gives no item for the parts of some place. It stores no item.
fn lacks_by_parts<T: Drop, F: Fn(usize, usize, usize) -> Option<T>>(
    count: usize,
    split: Split,
    rule: &F,
) -> bool
    requires whole { split_count split ≡ count }
    requires callable { (outer along inner : ℕ) → outer < split.outer → along < split.along → inner < split.inner → F.pre rule.now outer along inner }
    ensures some { result ≡ true → (place : ℕ) × (place < count) × AtParts (F.post rule.now) split place None }
    ensures none { result ≡ false → GivesEach count (AtParts (F.post rule.now) split) }
{
    for outer in 0..split.outer {
        for along in 0..split.along {
            for inner in 0..split.inner {
                if rule(outer, along, inner).is_none() {
                    return true;
                }
            }
        }
    }
    false
}
