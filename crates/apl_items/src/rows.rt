ghost use Rattle.std.specs.Prelude.{◌≡◌, ◌*◌, ◌<◌, ◌^◌, ℕ, None, true, false, IfOk, IfSome, length, slice_get, vec_capacity, vec_len};
ghost use Rattle.apl_items.specs.Places.{AtPlace, GivesEach, OnDomain, OnWantOfMemory};

use crate::loops::room_for;
use apl_arrays::{Fail, List, Report, WantOfMemory};
use std::alloc::Global;

/// The items that a rule gives in each place of each row, or DOMAIN where it gives none, also where there is no memory. It
/// asks once for memory, for the items, and the rule once at each place up to the first at which it gives none: where there
/// is memory it stores them, and else it stores nothing.
pub fn by_rows<T: Drop, F: Fn(usize, usize) -> Option<T>>(
    alloc: Global,
    rows: usize,
    columns: usize,
    rule: &F,
) -> Result<List<T>, Fail>
    requires fits { rows * columns < 2 ^ 64 }
    requires callable { (row column : ℕ) → row < rows → column < columns → F.pre rule.now row column }
    ensures whole { IfOk result (λ list. length list.items ≡ rows * columns) }
    ensures items { IfOk result (λ list. (place : ℕ) → place < rows * columns → AtPlace (F.post rule.now) columns place (slice_get list.items place)) }
    ensures domain { OnDomain result ((place : ℕ) × (place < rows * columns) × AtPlace (F.post rule.now) columns place None) }
    ensures memory { OnWantOfMemory result (GivesEach (rows * columns) (AtPlace (F.post rule.now) columns)) }
{
    match room_for(alloc, rows * columns) {
        Ok(room) => match stored(room, rows, columns, rule) {
            Some(list) => Ok(list),
            None => Err(Fail::Report(Report::Domain)),
        },
        Err(WantOfMemory) => {
            if lacks_by_rows(rows, columns, rule) {
                Err(Fail::Report(Report::Domain))
            } else {
                Err(Fail::WantOfMemory)
            }
        }
    }
}

/// The items that a rule gives in each place of each row, in a list that has room for them, or `None` where it gives none.
fn stored<T: Drop, F: Fn(usize, usize) -> Option<T>>(
    room: Vec<T>,
    rows: usize,
    columns: usize,
    rule: &F,
) -> Option<List<T>>
    requires empty { vec_len room ≡ 0 }
    requires room { vec_capacity room ≡ rows * columns }
    requires callable { (row column : ℕ) → row < rows → column < columns → F.pre rule.now row column }
    ensures whole { IfSome result (λ list. length list.items ≡ rows * columns) }
    ensures items { IfSome result (λ list. (place : ℕ) → place < rows * columns → AtPlace (F.post rule.now) columns place (slice_get list.items place)) }
    ensures none { result ≡ None → (place : ℕ) × (place < rows * columns) × AtPlace (F.post rule.now) columns place None }
{
    let mut items = room;
    for row in 0..rows {
        for column in 0..columns {
            match rule(row, column) {
                Some(item) => items.push_reserved(item),
                None => return None,
            }
        }
    }
    Some(List::from(items))
}

/// Whether a rule gives no item in some place of some row, which is DOMAIN. It stores no item, and serves results that are
/// too large to be made.
pub fn lacks_by_rows<T: Drop, F: Fn(usize, usize) -> Option<T>>(
    rows: usize,
    columns: usize,
    rule: &F,
) -> bool
    requires callable { (row column : ℕ) → row < rows → column < columns → F.pre rule.now row column }
    ensures some { result ≡ true → (place : ℕ) × (place < rows * columns) × AtPlace (F.post rule.now) columns place None }
    ensures none { result ≡ false → GivesEach (rows * columns) (AtPlace (F.post rule.now) columns) }
{
    for row in 0..rows {
        for column in 0..columns {
            if rule(row, column).is_none() {
                return true;
            }
        }
    }
    false
}
