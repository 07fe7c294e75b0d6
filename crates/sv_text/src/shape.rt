ghost use Rattle.std.specs.Prelude.{◌≡◌, ◌≤◌, ◌<◌, ◌-◌, ◌==◌, IfOk};
ghost use Rattle.apl_arrays.specs.Array.{FitsLimits};
ghost use Rattle.text_reader.specs.Reading.{Gives, read_behind};
ghost use Rattle.sv_text.specs.ValueReading.{read_axes, more_axes, goes_on_behind, greatest_axis, read_shape};

use apl_arrays::{ELEMENT_LIMIT, Glyph, List, RANK_LIMIT};
use std::alloc::Global;
use text_reader::{Cursor, Unread};

/// Reads axes, with one blank between each two, and the parenthesis that closes them. Where an axis may follow it may be
/// 0, so the product is looked at where the shape is closed. It takes memory for the axes.
#[tactic(auto, unfolding(crate::specs::ValueReading::read_shape))]
pub(crate) fn read_shape(alloc: Global, cursor: &mut Cursor<'_>) -> Result<List<u32>, Unread>
    ensures value { Gives (λ shape. (shape.items, cursor.new)) result (read_shape cursor.old) }
    ensures fits { IfOk result (λ shape. FitsLimits shape.items) }
{
    let mut shape = List::new(alloc);
    if cursor.first() == Some(Glyph::RIGHT_PARENTHESIS) {
        cursor.skip();
        Ok(shape)
    } else {
        add_axes(cursor, &mut shape, RANK_LIMIT, 1)?;
        Ok(shape)
    }
}

// Reads the axes, at most so many and at least one, behind others of this product, up to where the shape is closed.
fn add_axes(
    cursor: &mut Cursor<'_>,
    shape: &mut List<u32>,
    most: usize,
    product: usize,
) -> Result<(), Unread>
    requires most { 0 < most }
    requires product { product ≤ 16385 }
    ensures { Gives (λ _. (shape.new.items, cursor.new)) result (read_behind shape.old.items (read_axes most product cursor.old)) }
{
    let axis = cursor.number(0, greatest_axis(most == 1, product))?;
    shape.push(axis as u32)?;
    let product = (product * axis as usize).min(ELEMENT_LIMIT + 1);
    if goes_on(cursor, product <= ELEMENT_LIMIT, most > 1)? {
        add_axes(cursor, shape, most - 1, product)
    } else {
        Ok(())
    }
}

// Whether an axis follows, behind a blank: else the shape is closed here. Each may come only where it is told so.
fn goes_on(cursor: &mut Cursor<'_>, closes: bool, more: bool) -> Result<bool, Unread>
    ensures { Gives (λ follows. (follows, cursor.new)) result (goes_on_behind closes more cursor.old) }
{
    match cursor.first() {
        Some(Glyph::RIGHT_PARENTHESIS) if closes => {
            cursor.skip();
            Ok(false)
        }
        Some(Glyph::BLANK) if more => {
            cursor.skip();
            Ok(true)
        }
        _ => Err(cursor.stops()),
    }
}

// The greatest axis that may come next: the last one may not take the product of all past its limit.
fn greatest_axis(last: bool, product: usize) -> u64
    ensures { result ≡ greatest_axis last product }
{
    if last && product > 0 {
        (ELEMENT_LIMIT / product) as u64
    } else {
        ELEMENT_LIMIT as u64
    }
}
