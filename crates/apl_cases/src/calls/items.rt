ghost use Rattle.std.specs.Prelude.{◌≡◌, ◌*◌, ◌<◌, ◌^◌, IfOk, length};
ghost use Rattle.apl_arrays.specs.Array.{item_count, plain_items};

use crate::calls::given::{ended, given, lent_both, look_at, numbers};
use anyhow::Result;
use apl_arrays::{Fail, Glyph, Items, List, Report};
use apl_items::{Axes, Walk, by_place, by_rows, lacks_by_rows, moved, moved_by_axes};
use case_tables::{Calls, Looks};
use std::alloc::Global;

/// Items place by place, items that move, and reports that need no memory.
#[derive(Clone, Copy, Debug)]
pub struct ItemCalls;

impl Calls for ItemCalls {
    fn make(&self, alloc: Global, looks: &mut Looks) -> Result<()> {
        ended(made_by_place(alloc, looks), looks)?;
        ended(moved_items(alloc, looks), looks)?;
        refused_without_items(alloc, looks);
        Ok(())
    }
}

// A list of numbers.
fn list(alloc: Global, numbers: &[i64]) -> Result<List<i64>, Fail> {
    Ok(List::of(alloc, numbers)?)
}

// Items place by place, and the report where a place has none.
fn made_by_place(alloc: Global, looks: &mut Looks) -> Result<(), Fail> {
    look_at(looks, by_place(alloc, 4, small), list(alloc, &[0, 1, 2, 3]))?;
    looks.holds(given(by_place(alloc, 10, small))?.err() == Some(Report::Domain));
    let rows = by_rows(alloc, 2, 3, &small_in_row);
    look_at(looks, rows, list(alloc, &[0, 1, 2, 10, 11, 12]))?;
    looks.holds(given(by_rows(alloc, 2, 4, &small_in_row))?.err() == Some(Report::Domain));
    Ok(())
}

// The report where a place has no item is given whether there is memory for the items or not.
fn refused_without_items(alloc: Global, looks: &mut Looks) {
    let refused = by_place(alloc, 10, small);
    looks.holds(refused.err() == Some(Fail::Report(Report::Domain)));
    looks.holds(lacks_by_rows(30_000, 10_000, &small_in_row));
    looks.holds(!lacks_by_rows(3, 3, &small_in_row));
}

// The place as an item, where it is below 9.
fn small(place: usize) -> Option<i64> {
    if place < 9 { Some(place as i64) } else { None }
}

// Ten times the row and the place there, where both are below 3.
fn small_in_row(row: usize, place: usize) -> Option<i64> {
    if row < 3 && place < 3 {
        Some(row as i64 * 10 + place as i64)
    } else {
        None
    }
}

// A walk over three places: two of the source, from the second on, and one that is filled.
#[derive(Drop)]
struct Onward {
    done: usize,
}

impl Walk for Onward {
    ghost use Rattle.std.specs.Prelude.{◌+◌, ◌-◌, Some, None, nat_lt, if◌then◌else◌};

    ghost left = { λ w. 3 - w.done };

    ghost source = { λ w n. if nat_lt (w.done + n) 2 then Some ((w.done + n) + 1) else None };

    fn advance(&mut self) -> Option<usize> {
        let place = self.done;
        self.done += 1;
        if place < 2 { Some(place + 1) } else { None }
    }
}

// The rows and the columns of a matrix of two rows exchanged: three rows of two.
struct Exchanged;

impl Axes for Exchanged {
    ghost use Rattle.std.specs.Prelude.{◌*◌, Some, nat_lt, if◌then◌else◌};

    ghost length_of = { λ _ axis. if nat_lt axis 1 then 3 else 2 };

    ghost offset = { λ _ axis along. Some (if nat_lt axis 1 then along else 3 * along) };

    fn offset(&self, axis: usize, along: usize) -> Option<usize> {
        Some(if axis == 0 { along } else { 3 * along })
    }
}

// Three items that moved on by one place, the last one filled.
fn moved_on(alloc: Global, items: Items) -> Result<Items, Fail>
    requires { item_count (plain_items items) ≡ 3 }
{
    let moved = moved(alloc, items.view(), 3, Onward { done: 0 });
    drop(items);
    Ok(moved?)
}

// The items of a matrix of two rows and three columns, row by row, as columns.
fn in_columns(alloc: Global, items: Items) -> Result<Items, Fail>
    requires { item_count (plain_items items) ≡ 6 }
{
    let columns = moved_by_axes(alloc, items.view(), &[3, 2], &Exchanged);
    drop(items);
    Ok(columns?)
}

// The items that are these characters.
fn glyphs(alloc: Global, glyphs: &[Glyph]) -> Result<Items, Fail>
    ensures { IfOk result (λ items. item_count (plain_items items) ≡ length glyphs.now) }
{
    Ok(Items::Chars(List::of(alloc, glyphs)?))
}

// Counts a case, which differs where items did not move to where they are wanted.
fn look_at_items(
    looks: &mut Looks,
    moved: Result<Items, Fail>,
    wanted: Result<Items, Fail>,
) -> Result<(), Fail> {
    lent_both(moved, wanted, |moved, wanted| {
        looks.holds(moved.view() == wanted.view());
        Ok(())
    })
}

// Items that move by a walk and by axes, with a fill of either kind.
fn moved_items(alloc: Global, looks: &mut Looks) -> Result<(), Fail> {
    let filled = moved_on(alloc, numbers(alloc, &[7, 8, 9])?);
    look_at_items(looks, filled, numbers(alloc, &[8, 9, 0]))?;
    let [a, b, c] = [
        Glyph::with_code(65),
        Glyph::with_code(66),
        Glyph::with_code(67),
    ];
    let filled = moved_on(alloc, glyphs(alloc, &[a, b, c])?);
    look_at_items(looks, filled, glyphs(alloc, &[b, c, Glyph::BLANK]))?;
    let columns = in_columns(alloc, numbers(alloc, &[1, 2, 3, 4, 5, 6])?);
    look_at_items(looks, columns, numbers(alloc, &[1, 4, 2, 5, 3, 6]))
}
