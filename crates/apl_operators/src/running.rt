ghost use Rattle.std.specs.Prelude.{◌≡◌, ◌+◌, ◌*◌, ◌/◌, ◌%◌, ◌-◌, ◌<◌, ◌≤◌, ℕ, ℤ, Option, None, Some, IfSome, true, false, not, length, pos, slice_get, slice_index_or, vec_capacity, vec_len, if◌then◌else◌};
ghost use Rattle.apl_items.specs.Places.{IsByPlace, lacks_item};
ghost use Rattle.apl_items.specs.Shapes.{place_along, split_count};
ghost use Rattle.apl_scalar.specs.Table.{dyadic_item};
ghost use Rattle.operator_rules.specs.Reduction.{Joins, joined};
ghost use Rattle.apl_operators.specs.Running.{BreaksOff, Runs, RunsTo, Weighs, factor_weight, front_at, is_grouped, row_length, term_weight, weight_on};

use crate::reduction::reduced;
use apl_arrays::List;
use apl_items::{Split, lacks_by_rows};
use apl_scalar::{read_all, rules};
use apl_verbs::Dyad;

/// Whether the reduction of each front of each line follows from the one before it: by `⌈`, `⌊`, `∧` and `∨`, and by `+` and
/// `×` where no sum or product of neighbours leaves 64 bits.
pub(crate) fn runs(f: Dyad, list: &[i64], split: Split) -> bool
    requires whole { split_count split ≡ length list.now }
    requires some { 0 < split_count split }
    ensures { result ≡ true → Runs (dyadic_item f) list.now split (front_at (dyadic_item f) list.now split) }
{
    read_all(list);
    match f {
        Dyad::Plus => weighs_little(list, split, magnitude, rules::plus),
        Dyad::Times => weighs_little(list, split, factor, rules::times),
        _ => is_grouped(f),
    }
}

/// Whether any grouping of a function gives the same item, or none.
fn is_grouped(f: Dyad) -> bool
    ensures { result ≡ is_grouped f }
{
    matches!(f, Dyad::Maximum | Dyad::Minimum | Dyad::And | Dyad::Or)
}

/// The magnitude of a number, where it has 63 bits.
fn magnitude(number: i64) -> Option<i64>
    ensures { result ≡ term_weight number }
{
    number.checked_abs()
}

/// The magnitude of a number, where it has 63 bits, or 1 for 0.
fn factor(number: i64) -> Option<i64>
    ensures { result ≡ factor_weight number }
{
    if number == 0 {
        Some(1)
    } else {
        number.checked_abs()
    }
}

/// Whether the weights of the numbers of each line have a reduction.
fn weighs_little<W: Fn(i64) -> Option<i64>, F: Fn(i64, i64) -> Option<i64>>(
    list: &[i64],
    split: Split,
    weight: W,
    rule: F,
) -> bool
    requires able { W.IsAlwaysCallable weight }
    requires callable { F.IsAlwaysCallable rule }
    requires whole { split_count split ≡ length list.now }
    requires some { 0 < split.along }
    ensures { (weigh : ℤ → Option ℤ) (by : ℤ → ℤ → Option ℤ) → Weighs (W.post weight) weigh → Joins (F.post rule) by → result ≡ not (lacks_item (split.outer * split.inner) (λ line. weight_on weigh by list.now split (line / split.inner) (line % split.inner))) }
{
    !lacks_by_rows(
        split.outer,
        split.inner,
        &|outer: usize, inner: usize| -> Option<i64>
            requires able { W.IsAlwaysCallable weight }
            requires callable { F.IsAlwaysCallable rule }
            requires whole { split_count split ≡ length list.now }
            requires some { 0 < split.along }
            requires outer { outer < split.outer }
            requires inner { inner < split.inner }
            ensures { (weigh : ℤ → Option ℤ) (by : ℤ → ℤ → Option ℤ) → Weighs (W.post weight) weigh → Joins (F.post rule) by → result ≡ weight_on weigh by list.entry.now split outer inner }
        { weight_of_line(list, split, outer, inner, &weight, &rule) },
    )
}

/// The reduction of the weights of the numbers of a line.
fn weight_of_line<W: Fn(i64) -> Option<i64>, F: Fn(i64, i64) -> Option<i64>>(
    list: &[i64],
    split: Split,
    outer: usize,
    inner: usize,
    weight: &W,
    rule: &F,
) -> Option<i64>
    requires able { W.IsAlwaysCallable weight.now }
    requires callable { F.IsAlwaysCallable rule.now }
    requires whole { split_count split ≡ length list.now }
    requires some { 0 < split.along }
    requires outer { outer < split.outer }
    requires inner { inner < split.inner }
    ensures { (weigh : ℤ → Option ℤ) (by : ℤ → ℤ → Option ℤ) → Weighs (W.post weight.now) weigh → Joins (F.post rule.now) by → result ≡ weight_on weigh by list.now split outer inner }
{
    let item = |along: usize| -> Option<i64>
        requires able { W.IsAlwaysCallable weight.now }
        requires whole { split_count split ≡ length list.now }
        requires outer { outer < split.outer }
        requires inner { inner < split.inner }
        requires along { along < split.along }
        ensures { W.post weight.entry.now (slice_index_or list.entry.now (place_along split outer along inner) (pos 0)) result }
    { weight(list[split.place(outer, along, inner)]) };
    reduced(split.along - 1, &item, rule)
}

/// The items that follow from the ones before them, in one pass over all rows, in a list that has room for them, or `None`
/// where one does not follow.
pub(crate) fn running<T: Copy + Drop, F: Fn(T, T) -> Option<T>>(
    room: Vec<T>,
    list: &[T],
    split: Split,
    rule: &F,
) -> Option<List<T>>
    requires empty { vec_len room ≡ 0 }
    requires room { vec_capacity room ≡ length list.now }
    requires callable { F.IsAlwaysCallable rule.now }
    requires whole { split_count split ≡ length list.now }
    requires some { 0 < split_count split }
    ensures made { IfSome result (λ made. (by : T → T → Option T) (item : ℕ → Option T) → Joins (F.post rule.now) by → Runs by list.now split item → IsByPlace (length list.now) item made.items) }
    ensures none { result ≡ None → BreaksOff (F.post rule.now) list.now split }
{
    let mut made = room;
    for outer in 0..split.outer {
        if !push_next(&mut made, list, split, outer, rule) {
            return None;
        }
    }
    Some(List::from(made))
}

/// Adds the items of a row, or false where one does not follow. On the last axis a row is one line.
fn push_next<T: Copy + Drop, F: Fn(T, T) -> Option<T>>(
    made: &mut Vec<T>,
    list: &[T],
    split: Split,
    outer: usize,
    rule: &F,
) -> bool
    requires callable { F.IsAlwaysCallable rule.now }
    requires whole { split_count split ≡ length list.now }
    requires outer { outer < split.outer }
    requires some { 0 < split_count split }
    requires made { vec_len made.old ≡ outer * row_length split }
    requires room { vec_capacity made.old ≡ length list.now }
    requires so_far { RunsTo (F.post rule.now) list.now split (outer * row_length split) made.old.items }
    ensures len { result ≡ true → vec_len made.new ≡ (outer + 1) * row_length split }
    ensures room { vec_capacity made.new ≡ vec_capacity made.old }
    ensures made { result ≡ true → RunsTo (F.post rule.now) list.now split ((outer + 1) * row_length split) made.new.items }
    ensures none { result ≡ false → BreaksOff (F.post rule.now) list.now split }
{
    if split.inner == 1 {
        push_line(made, list, split, outer, rule)
    } else {
        push_row(made, list, split, outer, rule)
    }
}

/// Adds the items of a row that is one line, or false where one does not follow. The last item is kept by itself.
fn push_line<T: Copy + Drop, F: Fn(T, T) -> Option<T>>(
    made: &mut Vec<T>,
    list: &[T],
    split: Split,
    outer: usize,
    rule: &F,
) -> bool
    requires lone { split.inner ≡ 1 }
    requires callable { F.IsAlwaysCallable rule.now }
    requires whole { split_count split ≡ length list.now }
    requires outer { outer < split.outer }
    requires some { 0 < split_count split }
    requires made { vec_len made.old ≡ outer * row_length split }
    requires room { vec_capacity made.old ≡ length list.now }
    requires so_far { RunsTo (F.post rule.now) list.now split (outer * row_length split) made.old.items }
    ensures len { result ≡ true → vec_len made.new ≡ (outer + 1) * row_length split }
    ensures room { vec_capacity made.new ≡ vec_capacity made.old }
    ensures made { result ≡ true → RunsTo (F.post rule.now) list.now split ((outer + 1) * row_length split) made.new.items }
    ensures none { result ≡ false → BreaksOff (F.post rule.now) list.now split }
{
    let start = outer * split.along;
    let mut last = list[start];
    made.push_reserved(last);
    for along in 1..split.along {
        match rule(last, list[start + along]) {
            Some(item) => last = item,
            None => return false,
        }
        made.push_reserved(last);
    }
    true
}

/// Adds the items of a row, or false where one does not follow.
fn push_row<T: Copy + Drop, F: Fn(T, T) -> Option<T>>(
    made: &mut Vec<T>,
    list: &[T],
    split: Split,
    outer: usize,
    rule: &F,
) -> bool
    requires callable { F.IsAlwaysCallable rule.now }
    requires whole { split_count split ≡ length list.now }
    requires outer { outer < split.outer }
    requires some { 0 < split_count split }
    requires made { vec_len made.old ≡ outer * row_length split }
    requires room { vec_capacity made.old ≡ length list.now }
    requires so_far { RunsTo (F.post rule.now) list.now split (outer * row_length split) made.old.items }
    ensures len { result ≡ true → vec_len made.new ≡ (outer + 1) * row_length split }
    ensures room { vec_capacity made.new ≡ vec_capacity made.old }
    ensures made { result ≡ true → RunsTo (F.post rule.now) list.now split ((outer + 1) * row_length split) made.new.items }
    ensures none { result ≡ false → BreaksOff (F.post rule.now) list.now split }
{
    let row = split.along * split.inner;
    for at in 0..row {
        let place = outer * row + at;
        let is_first = at < split.inner;
        match follower(
            made.as_slice(),
            list[place],
            place,
            split.inner,
            is_first,
            rule,
        ) {
            Some(item) => made.push_reserved(item),
            None => return false,
        }
    }
    true
}

/// The item at a place: in the first row that of the list, else the item before it on its line, joined with that of the list.
fn follower<T: Copy, F: Fn(T, T) -> Option<T>>(
    made: &[T],
    number: T,
    place: usize,
    inner: usize,
    is_first: bool,
    rule: &F,
) -> Option<T>
    requires callable { F.IsAlwaysCallable rule.now }
    requires made { length made.now ≡ place }
    requires before { is_first ≡ false → inner ≤ place }
    requires some { 0 < inner }
    ensures { (by : T → T → Option T) (item : ℕ → Option T) → Joins (F.post rule.now) by → ((k : ℕ) → k < place → slice_get made.now k ≡ item k) → item place ≡ (if is_first then Some number else joined by (item (place - inner)) (Some number)) → result ≡ item place }
{
    if is_first {
        Some(number)
    } else {
        rule(made[place - inner], number)
    }
}
