ghost use Rattle.std.specs.Prelude.{◌≡◌, ◌-◌, ◌<◌, true, false, length};
ghost use Rattle.apl_arrays.specs.Array.{item_count};
ghost use Rattle.apl_items.specs.Answers.{AnswersFirst};
ghost use Rattle.apl_items.specs.Places.{HasItems, LacksItem, MakesItems, OnWantOfMemory};
ghost use Rattle.apl_items.specs.Shapes.{split_count};
ghost use Rattle.apl_scalar.specs.Table.{dyadic_item};
ghost use Rattle.operator_rules.specs.Reduction.{Joins, front_of_line};
ghost use Rattle.apl_operators.specs.Running.{Runs, front_at};
ghost use Rattle.operator_rules.specs.Scan.{scan_of, scanned};

use crate::lines::{LineAt, front_of_line, last_front};
use crate::parts::by_parts;
use crate::running::{running, runs};
use crate::sums::{are_small, small_sums};
use apl_arrays::{Array, Fail, Items, ItemsRef, List, NumberList, Report, WantOfMemory, Way};
use apl_items::{Split, axis_of, lacks_axis, lacks_by_rows, room_for};
use apl_scalar::dyadic_table;
use apl_verbs::Dyad;
use std::alloc::Global;

macro_rules! one_pass_of {
    (($($argument:expr),*), $rule:expr, $identity:expr) => {
        one_pass_by($($argument,)* $rule)
    };
}

macro_rules! fronts_of {
    (($($argument:expr),*), $rule:expr, $identity:expr) => {
        fronts_by($($argument,)* $rule)
    };
}

/// The scan of an array by a dyadic function, along an axis, the last or the first where none is named: each item is the
/// reduction of the items of its line from the first up to it. A scalar, and an array without items, is unchanged. INDEX
/// where the axis is not from 1 to the rank, else DOMAIN where two items have no value of 64 bits, or where there would be
/// items of both kinds. Where there is no report it takes memory for the items. ISO 8485.
pub fn scan(alloc: Global, f: Dyad, b: &Array, way: Way, axis: Option<i64>) -> Result<Array, Fail>
    ensures { AnswersFirst result (scan_of f b.now way axis) }
{
    let rank = b.shape().len();
    if lacks_axis(rank, axis) {
        Err(Fail::Report(Report::Index))
    } else if rank == 0 || b.items().is_empty() {
        Ok(b.copy(alloc)?)
    } else {
        scanned(alloc, f, b, axis_of(rank, way, axis))
    }
}

/// The scan of an array that has items. The kind is looked at once.
fn scanned(alloc: Global, f: Dyad, b: &Array, axis: usize) -> Result<Array, Fail>
    requires axis { axis < length b.now.shape }
    requires some { 0 < item_count b.now.items }
    ensures { AnswersFirst result (scanned f b.now axis) }
{
    let split = Split::at(b.shape(), axis);
    match b.items() {
        ItemsRef::Numbers(list) => {
            let items = fronts(alloc, f, list, split)?;
            Ok(Array::shaped(alloc, b.shape(), Items::Numbers(NumberList::from(items)))?)
        }
        ItemsRef::Chars(_) => {
            if split.along == 1 {
                Ok(b.copy(alloc)?)
            } else {
                Err(Fail::Report(Report::Domain))
            }
        }
    }
}

/// The reduction of each front of each line of numbers: in one pass where the numbers of a sum are small, or where each follows
/// from the one before, else each by itself, from the right. DOMAIN where one has no value, also where there is no memory.
fn fronts(alloc: Global, f: Dyad, list: &[i64], split: Split) -> Result<List<i64>, Fail>
    requires whole { split_count split ≡ length list.now }
    requires some { 0 < split_count split }
    ensures made { MakesItems result (length list.now) (front_at (dyadic_item f) list.now split) }
    ensures memory { OnWantOfMemory result (HasItems (length list.now) (front_at (dyadic_item f) list.now split)) }
{
    if let Dyad::Plus = f {
        if are_small(list, split.along) {
            return small_sums(alloc, list, split);
        }
    }
    if runs(f, list, split) {
        one_pass(alloc, f, list, split)
    } else {
        each_front(alloc, f, list, split)
    }
}

/// The reductions of fronts in one pass. The function is chosen once.
fn one_pass(alloc: Global, f: Dyad, list: &[i64], split: Split) -> Result<List<i64>, Fail>
    requires whole { split_count split ≡ length list.now }
    requires some { 0 < split_count split }
    requires runs { Runs (dyadic_item f) list.now split (front_at (dyadic_item f) list.now split) }
    ensures made { MakesItems result (length list.now) (front_at (dyadic_item f) list.now split) }
    ensures memory { OnWantOfMemory result (HasItems (length list.now) (front_at (dyadic_item f) list.now split)) }
{
    dyadic_table!(f, one_pass_of(alloc, f, list, split))
}

/// The reductions of fronts in one pass, by the rule of a function. Where there is no memory the last front of each line
/// tells whether one has no value.
fn one_pass_by<F: Fn(i64, i64) -> Option<i64>>(
    alloc: Global,
    f: Dyad,
    list: &[i64],
    split: Split,
    rule: F,
) -> Result<List<i64>, Fail>
    requires callable { F.IsAlwaysCallable rule }
    requires rule { Joins (F.post rule) (dyadic_item f) }
    requires whole { split_count split ≡ length list.now }
    requires some { 0 < split_count split }
    requires runs { Runs (dyadic_item f) list.now split (front_at (dyadic_item f) list.now split) }
    ensures made { MakesItems result (length list.now) (front_at (dyadic_item f) list.now split) }
    ensures memory { OnWantOfMemory result (HasItems (length list.now) (front_at (dyadic_item f) list.now split)) }
{
    match room_for(alloc, list.len()) {
        Ok(room) => match running(room, list, split, &rule) {
            Some(made) => Ok(made),
            None => Err(Fail::Report(Report::Domain)),
        },
        Err(WantOfMemory) => {
            if breaks_off(f, list, split, &rule) {
                Err(Fail::Report(Report::Domain))
            } else {
                Err(Fail::WantOfMemory)
            }
        }
    }
}

/// Whether some front has no value, where each follows from the one before: the last of its line has none then.
fn breaks_off<F: Fn(i64, i64) -> Option<i64>>(f: Dyad, list: &[i64], split: Split, rule: &F) -> bool
    requires callable { F.IsAlwaysCallable rule.now }
    requires rule { Joins (F.post rule.now) (dyadic_item f) }
    requires whole { split_count split ≡ length list.now }
    requires some { 0 < split_count split }
    requires runs { Runs (dyadic_item f) list.now split (front_at (dyadic_item f) list.now split) }
    ensures some { result ≡ true → LacksItem (length list.now) (front_at (dyadic_item f) list.now split) }
    ensures none { result ≡ false → HasItems (length list.now) (front_at (dyadic_item f) list.now split) }
{
    lacks_by_rows(
        split.outer,
        split.inner,
        &|outer: usize, inner: usize| -> Option<i64>
            requires callable { F.IsAlwaysCallable rule.now }
            requires rule { Joins (F.post rule.now) (dyadic_item f) }
            requires whole { split_count split ≡ length list.now }
            requires some { 0 < split_count split }
            requires outer { outer < split.outer }
            requires inner { inner < split.inner }
            ensures { result ≡ front_of_line (dyadic_item f) list.entry.now split outer inner (split.along - 1) }
        { last_front(f, list, split, LineAt { outer, inner }, rule) },
    )
}

/// The reduction of each front by itself. The function is chosen once.
fn each_front(alloc: Global, f: Dyad, list: &[i64], split: Split) -> Result<List<i64>, Fail>
    requires whole { split_count split ≡ length list.now }
    requires some { 0 < split_count split }
    ensures made { MakesItems result (length list.now) (front_at (dyadic_item f) list.now split) }
    ensures memory { OnWantOfMemory result (HasItems (length list.now) (front_at (dyadic_item f) list.now split)) }
{
    dyadic_table!(f, fronts_of(alloc, f, list, split))
}

/// The reduction of each front by itself, by the rule of a function.
fn fronts_by<F: Fn(i64, i64) -> Option<i64>>(
    alloc: Global,
    f: Dyad,
    list: &[i64],
    split: Split,
    rule: F,
) -> Result<List<i64>, Fail>
    requires callable { F.IsAlwaysCallable rule }
    requires rule { Joins (F.post rule) (dyadic_item f) }
    requires whole { split_count split ≡ length list.now }
    requires some { 0 < split_count split }
    ensures made { MakesItems result (length list.now) (front_at (dyadic_item f) list.now split) }
    ensures memory { OnWantOfMemory result (HasItems (length list.now) (front_at (dyadic_item f) list.now split)) }
{
    by_parts(
        alloc,
        list.len(),
        split,
        &|outer: usize, along: usize, inner: usize| -> Option<i64>
            requires callable { F.IsAlwaysCallable rule }
            requires rule { Joins (F.post rule) (dyadic_item f) }
            requires whole { split_count split ≡ length list.now }
            requires outer { outer < split.outer }
            requires along { along < split.along }
            requires inner { inner < split.inner }
            ensures { result ≡ front_of_line (dyadic_item f) list.entry.now split outer inner along }
        { front_of_line(f, list, split, LineAt { outer, inner }, along, &rule) },
    )
}
