ghost use Rattle.std.specs.Prelude.{◌≡◌, ◌<◌, ◌≤◌, ◌∷◌, [], ◌++◌, IfOk, OnOk, length, map, OnErr};
ghost use Rattle.apl_arrays.specs.Front.{KeepsFront};
ghost use Rattle.apl_arrays.specs.Array.{seen_items, item_count};
ghost use Rattle.apl_display.specs.Display.{item_line, display_lines};
ghost use Rattle.line_text.specs.Spaced.{spaced};
ghost use Rattle.apl_display.specs.Matrices.{extent_of, matrices_lines};
ghost use Rattle.line_text.specs.Number.{number_text};

use crate::matrices::extent_of;
use crate::table::{DisplayTable, matrices_lines, widths_of};
use apl_arrays::{Array, ItemsRef, Line, LineList, List, WantOfMemory};
use line_text::add_numbers;
use std::alloc::Global;

/// Numbers in one line, with one blank between.
pub fn vector_line(alloc: Global, numbers: &[i64]) -> Result<Line, WantOfMemory>
    ensures { IfOk result (λ line. line.items ≡ spaced (map number_text numbers.now)) }
{
    let mut line = List::new(alloc);
    add_numbers(&mut line, numbers)?;
    Ok(line)
}

// The line of a scalar or a vector.
fn item_line(alloc: Global, items: ItemsRef<'_>) -> Result<Line, WantOfMemory>
    ensures { IfOk result (λ line. line.items ≡ item_line (seen_items items.entry)) }
{
    match items {
        ItemsRef::Numbers(numbers) => vector_line(alloc, numbers),
        ItemsRef::Chars(glyphs) => List::of(alloc, glyphs),
    }
}

// The lines of an array of rank 2 or more that has elements.
fn table_lines(alloc: Global, b: &Array) -> Result<LineList, WantOfMemory>
    requires rank { 2 ≤ length b.now.shape }
    requires some { 0 < item_count b.now.items }
    ensures { IfOk result (λ lines. lines.items ≡ matrices_lines b.now.items (extent_of b.now.shape)) }
{
    let items = b.items();
    let extent = extent_of(b.shape(), items.len());
    let widths = widths_of(alloc, items, extent)?;
    let table = DisplayTable {
        items,
        widths: &widths,
        extent,
    };
    matrices_lines(alloc, &table)
}

// Adds lines.
fn add_all(lines: &mut LineList, more: LineList) -> Result<(), WantOfMemory>
    ensures text { OnOk result (lines.new.items ≡ lines.old.items ++ more.items) }
    ensures front { OnErr result (KeepsFront lines.old.items lines.new.items) }
{
    for line in more.into_vec() {
        lines.push(line)?;
    }
    Ok(())
}

/// Adds the lines that show an array, as `lines_of` has them. It takes memory for them, and for a number a column; where
/// that runs out, some of them may stand there.
pub fn add_lines(alloc: Global, lines: &mut LineList, b: &Array) -> Result<(), WantOfMemory>
    ensures text { OnOk result (lines.new.items ≡ lines.old.items ++ display_lines b.now) }
    ensures front { OnErr result (KeepsFront lines.old.items lines.new.items) }
{
    if b.shape().len() < 2 {
        return lines.push(item_line(alloc, b.items())?);
    }
    if b.items().is_empty() {
        return Ok(());
    }
    add_all(lines, table_lines(alloc, b)?)
}

/// The lines that show an array: one of a scalar or a vector, none of an array without elements at a higher rank,
/// else one of each row, with an empty line between two matrices. Numbers stand at the right of their columns, with
/// one blank between. It takes memory for the lines and for a number a column.
pub fn lines_of(alloc: Global, b: &Array) -> Result<LineList, WantOfMemory>
    ensures { IfOk result (λ lines. lines.items ≡ display_lines b.now) }
{
    let mut lines = LineList::new(alloc);
    add_lines(alloc, &mut lines, b)?;
    Ok(lines)
}
