ghost use Rattle.std.specs.Prelude.{◌≡◌, ◌↔◌, ◌+◌, ◌-◌, ◌*◌, ◌<◌, ◌≤◌, ◌^◌, ◌++◌, ◌==◌, ◌||◌, ◌∷◌, [], ℕ, Some, None, false, IfOk, IsTrue, length, map, option_copied, pos, slice_index, slice_index_or, unsigned_abs, vec_len, vec_capacity};
ghost use Rattle.std.specs.List.{flat_map, list_any};
ghost use Rattle.apl_arrays.specs.Array.{FitsLimits, IsArray, element_count, item_count, numbers_in, plain_items, seen_items};
ghost use Rattle.apl_items.specs.Answers.{Answers, first_report};
ghost use Rattle.apl_items.specs.Axes.{added, source_by_axes};
ghost use Rattle.apl_items.specs.Places.{OnWantOfMemory, places};
ghost use Rattle.apl_selection.specs.Assignment.{assign_faults, assign_of, last_place, overlaid, overlaid_array, overlaid_list, put_over};
ghost use Rattle.apl_selection.specs.Naming.{PlacesAreSmall, AreSmallTogether, AreStridesFor, IsSmallBeyond, naming_by, scaled_place};
ghost use Rattle.apl_selection.specs.Subscripts.{is_miscounted, is_outside, named_by, point_outside, points_outside, selection_shape};

use crate::listing::item_in;
use crate::strides::{scaled, stride_in, strides_of};
use crate::subscripts::{
    are_of_chars, is_miscounted, named_counts, place_from_0, point_outside, selection_shape,
};
use apl_arrays::{Array, Fail, Items, ItemsRef, List, NumberList, Report, WantOfMemory};
use apl_items::{is_single, room_for};
use std::alloc::Global;

/// A with the items of V in the places that subscripts select, one for each axis, an omitted one the whole axis; where
/// two items come to one place, the last stays. RANK where there are not as many subscripts as axes, where A is a scalar,
/// or where V has not one element and its rank is not that of the selection, else LENGTH where its shape is not that of
/// the selection, else DOMAIN where a subscript is of characters or the kinds differ, else INDEX where a number of a
/// subscript is not from 1 to the length of its axis. Where there is no report it takes memory for strides, for the result,
/// and for a place for each item.
pub fn index_assign(
    alloc: Global,
    a: &Array,
    subs: &[Option<&Array>],
    v: &Array,
) -> Result<Array, Fail>
    ensures answer { Answers result (assign_of a.now (map option_copied subs.now) v.now) }
    ensures memory { OnWantOfMemory result (first_report (assign_faults a.now (map option_copied subs.now) v.now) ≡ None) }
{
    if is_miscounted(a.shape(), subs) {
        return Err(Fail::Report(Report::Rank));
    }
    let selection = selection_shape(a.shape(), subs);
    match assign_report(a, subs, selection.as_slice(), v) {
        Some(report) => Err(Fail::Report(report)),
        None => Ok(overlaid_array(alloc, a, subs, v)?),
    }
}

/// The report on an assignment to a selection of this shape, if there is one.
fn assign_report(a: &Array, subs: &[Option<&Array>], selection: &[u32], v: &Array) -> Option<Report>
    requires counted { is_miscounted a.now.shape (map option_copied subs.now) ≡ false }
    requires shape { selection.now ≡ selection_shape a.now.shape (map option_copied subs.now) }
    ensures { result ≡ first_report (assign_faults a.now (map option_copied subs.now) v.now) }
{
    if !is_single(v) && v.shape().len() != selection.len() {
        Some(Report::Rank)
    } else if !is_single(v) && v.shape() != selection {
        Some(Report::Length)
    } else if are_of_chars(subs) || a.is_chars() != v.is_chars() {
        Some(Report::Domain)
    } else if point_outside(a.shape(), subs) {
        Some(Report::Index)
    } else {
        None
    }
}

/// A with the items of V in the places that subscripts select.
fn overlaid_array(
    alloc: Global,
    a: &Array,
    subs: &[Option<&Array>],
    v: &Array,
) -> Result<Array, WantOfMemory>
    requires { None ≡ first_report (assign_faults a.now (map option_copied subs.now) v.now) }
    ensures { IfOk result (λ array. array ≡ overlaid_array a.now (map option_copied subs.now) v.now) }
{
    let old = a.items();
    let new = v.items();
    if is_idle(old, new) {
        return Ok(a.copy(alloc)?);
    }
    let strides = strides_for(alloc, a, subs, v)?;
    let sources = naming(alloc, a.shape(), subs, strides.as_slice())?;
    let items = overlaid(alloc, old, new, sources.as_slice())?;
    Array::shaped(alloc, a.shape(), items)
}

/// Whether there are no items, or none to be put over them.
fn is_idle(old: ItemsRef<'_>, new: ItemsRef<'_>) -> bool
    ensures { result ≡ (item_count (seen_items old.entry) == 0 || item_count (seen_items new.entry) == 0) }
{
    old.len() == 0 || new.len() == 0
}

/// The strides of the selection, or as many zeros where V has one element, which stands at each of its places.
fn strides_for(
    alloc: Global,
    a: &Array,
    subs: &[Option<&Array>],
    v: &Array,
) -> Result<Vec<u16>, WantOfMemory>
    requires fine { None ≡ first_report (assign_faults a.now (map option_copied subs.now) v.now) }
    requires array { IsArray v.now }
    requires some { 0 < item_count v.now.items }
    ensures { IfOk result (λ strides. AreStridesFor a.now (map option_copied subs.now) v.now strides.items) }
{
    if is_single(v) {
        return Ok(vec![in alloc; 0; a.shape().len()]?);
    }
    let counts = named_counts(alloc, a.shape(), subs)?;
    strides_of(alloc, counts.as_slice())
}

/// For each place of a shape the place of the selection that names it, the last of those that do, by strides of the
/// selection. It takes memory for them, and for those of each axis.
fn naming(
    alloc: Global,
    shape: &[u32],
    subs: &[Option<&Array>],
    strides: &[u16],
) -> Result<Vec<Option<u32>>, WantOfMemory>
    requires ranked { 0 < length shape.now }
    requires fits { FitsLimits shape.now }
    requires elements { 0 < element_count shape.now }
    requires counted { length subs.now ≡ length shape.now }
    requires inside { point_outside shape.now (map option_copied subs.now) ≡ false }
    requires small { PlacesAreSmall shape.now (naming_by shape.now (map option_copied subs.now) strides.now) }
    ensures { IfOk result (λ sources. sources.items ≡ map (source_by_axes shape.now (naming_by shape.now (map option_copied subs.now) strides.now)) (places (element_count shape.now))) }
{
    let mut axis = shape.len() - 1;
    let mut after = last_places_on(alloc, shape, subs, strides, axis)?;
    while axis > 0 {
        axis -= 1;
        let here = last_places_on(alloc, shape, subs, strides, axis)?;
        after = crossed(alloc, here, after)?;
    }
    Ok(after)
}

/// The last of its places at which the subscript of an axis names each place along it, by the stride of the axis.
fn last_places_on(
    alloc: Global,
    shape: &[u32],
    subs: &[Option<&Array>],
    strides: &[u16],
    axis: usize,
) -> Result<Vec<Option<u32>>, WantOfMemory>
    requires fits { FitsLimits shape.now }
    requires axis { axis < length shape.now }
    requires counted { length subs.now ≡ length shape.now }
    requires inside { point_outside shape.now (map option_copied subs.now) ≡ false }
    ensures { IfOk result (λ table. table.items ≡ map (naming_by shape.now (map option_copied subs.now) strides.now axis) (places (slice_index shape.now axis))) }
{
    last_places(alloc, shape[axis], subs[axis], stride_in(strides, axis))
}

/// The last of its places at which a subscript names each place along its axis, by a stride.
fn last_places(
    alloc: Global,
    axis: u32,
    sub: Option<&Array>,
    stride: u16,
) -> Result<Vec<Option<u32>>, WantOfMemory>
    requires long { axis ≤ 16384 }
    requires inside { points_outside axis (option_copied sub) ≡ false }
    ensures { IfOk result (λ table. table.items ≡ map (λ along. scaled_place stride (last_place along (named_by axis (option_copied sub.entry)))) (places axis)) }
{
    match sub {
        None => all_places(alloc, axis, stride),
        Some(array) => last_of_numbers(alloc, axis, array.items(), stride),
    }
}

/// Each place along an axis, by a stride.
fn all_places(alloc: Global, axis: u32, stride: u16) -> Result<Vec<Option<u32>>, WantOfMemory>
    requires { axis ≤ 16384 }
    ensures { IfOk result (λ table. table.items ≡ map (λ along. Some (along * stride)) (places axis)) }
{
    let mut table = room_for(alloc, axis as usize)?;
    for along in 0..axis as usize {
        table.push_reserved(Some(scaled(along, stride) as u32));
    }
    Ok(table)
}

/// The last place in a list of numbers at which each place along an axis is named, by a stride.
fn last_of_numbers(
    alloc: Global,
    axis: u32,
    items: ItemsRef<'_>,
    stride: u16,
) -> Result<Vec<Option<u32>>, WantOfMemory>
    requires few { item_count (seen_items items) ≤ 16384 }
    requires inside { list_any (is_outside axis) (numbers_in (seen_items items)) ≡ false }
    ensures { IfOk result (λ table. table.items ≡ map (λ along. scaled_place stride (last_place along (map (λ number. unsigned_abs number - 1) (numbers_in (seen_items items.entry))))) (places axis)) }
{
    let numbers = items.numbers();
    let mut table = nowhere(alloc, axis)?;
    for place in 0..numbers.len() {
        table[place_named(numbers, place)] = Some(scaled(place, stride) as u32);
    }
    Ok(table)
}

/// No place for each place along an axis.
fn nowhere(alloc: Global, axis: u32) -> Result<Vec<Option<u32>>, WantOfMemory>
    ensures { IfOk result (λ table. table.items ≡ map (λ _. None) (places axis)) }
{
    let mut table = room_for(alloc, axis as usize)?;
    for _along in 0..axis as usize {
        table.push_reserved(None);
    }
    Ok(table)
}

/// The place along an axis, from 0, that a number of a list names.
fn place_named(numbers: &[i64], at: usize) -> usize
    ensures { result ≡ unsigned_abs (slice_index_or numbers.now at (pos 0)) - 1 }
{
    match numbers.get(at) {
        Some(number) => place_from_0(*number),
        None => 0,
    }
}

/// Each of some places together with each of others. Where either list is the first place alone, it is the other list, and
/// takes no memory.
fn crossed(
    alloc: Global,
    here: Vec<Option<u32>>,
    after: Vec<Option<u32>>,
) -> Result<Vec<Option<u32>>, WantOfMemory>
    requires few { length here.items * length after.items ≤ 16384 }
    requires small { AreSmallTogether here.items after.items }
    ensures { IfOk result (λ made. made.items ≡ flat_map (λ first. map (added first) after.items) here.items) }
{
    if is_first_alone(after.as_slice()) {
        Ok(here)
    } else if is_first_alone(here.as_slice()) {
        Ok(after)
    } else {
        each_with_each(alloc, here.as_slice(), after.as_slice())
    }
}

/// Whether a list of places is the first place alone.
fn is_first_alone(places: &[Option<u32>]) -> bool
    ensures { IsTrue result ↔ (places.now ≡ Some 0 ∷ []) }
{
    match places {
        [Some(place)] => *place == 0,
        _ => false,
    }
}

/// Each of some places together with each of others.
fn each_with_each(
    alloc: Global,
    here: &[Option<u32>],
    after: &[Option<u32>],
) -> Result<Vec<Option<u32>>, WantOfMemory>
    requires few { length here.now * length after.now ≤ 16384 }
    requires small { AreSmallTogether here.now after.now }
    ensures { IfOk result (λ made. made.items ≡ flat_map (λ first. map (added first) after.now) here.now) }
{
    let mut made = room_for(alloc, here.len() * after.len())?;
    for first in here {
        push_beyond(&mut made, *first, after);
    }
    Ok(made)
}

/// Adds places, each beyond another.
fn push_beyond(made: &mut Vec<Option<u32>>, first: Option<u32>, after: &[Option<u32>])
    requires room { vec_len made.old + length after.now ≤ vec_capacity made.old }
    requires small { IsSmallBeyond first after.now }
    ensures items { made.new.items ≡ made.old.items ++ map (added first) after.now }
    ensures len { vec_len made.new ≡ vec_len made.old + length after.now }
    ensures room { vec_capacity made.new ≡ vec_capacity made.old }
{
    for next in after {
        made.push_reserved(together(first, *next));
    }
}

/// Two places together, where both are there.
fn together(first: Option<u32>, next: Option<u32>) -> Option<u32>
    requires { (a b : ℕ) → first ≡ Some a → next ≡ Some b → a + b < 2 ^ 32 }
    ensures { result ≡ added first next }
{
    Some(first? + next?)
}

/// The items of A with those of V over the ones that are named. It takes memory for them.
fn overlaid(
    alloc: Global,
    old: ItemsRef<'_>,
    new: ItemsRef<'_>,
    sources: &[Option<u32>],
) -> Result<Items, WantOfMemory>
    requires { length sources.now ≡ item_count (seen_items old) }
    ensures { IfOk result (λ made. plain_items made ≡ overlaid (seen_items old.entry) (seen_items new.entry) (λ place. slice_index_or sources.now place None)) }
{
    match (old, new) {
        (ItemsRef::Numbers(old), ItemsRef::Numbers(new)) => {
            let made = overlaid_list(alloc, old, new, sources)?;
            Ok(Items::Numbers(NumberList::from(made)))
        }
        (ItemsRef::Chars(old), ItemsRef::Chars(new)) => {
            let made = overlaid_list(alloc, old, new, sources)?;
            Ok(Items::Chars(made))
        }
        _ => old.copy(alloc),
    }
}

/// The items of a list with others over those that are named. It takes memory for them.
fn overlaid_list<T: Copy + Drop>(
    alloc: Global,
    old: &[T],
    new: &[T],
    sources: &[Option<u32>],
) -> Result<List<T>, WantOfMemory>
    requires { length sources.now ≡ length old.now }
    ensures { IfOk result (λ made. made.items ≡ overlaid_list old.now new.now (λ place. slice_index_or sources.now place None)) }
{
    let mut made = room_for(alloc, old.len())?;
    for place in 0..old.len() {
        made.push_reserved(put_over(old[place], new, sources[place]));
    }
    Ok(List::from(made))
}

/// The item of V at a place of the selection, where a lone item stands at each; else the one that stood there.
fn put_over<T: Copy + Drop>(old: T, items: &[T], place: Option<u32>) -> T
    ensures { result ≡ put_over old items.now place }
{
    match place {
        None => old,
        Some(place) => item_in(items, place as usize, old),
    }
}
