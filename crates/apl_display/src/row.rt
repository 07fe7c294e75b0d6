ghost use Rattle.std.specs.Prelude.{◌≡◌, ◌+◌, ◌*◌, ◌≤◌, ◌==◌, ◌++◌, ◌∷◌, [], IfOk, OnOk, length, if◌then◌else◌};
ghost use Rattle.apl_arrays.specs.Glyph.{blank};
ghost use Rattle.line_text.specs.Number.{number_text};
ghost use Rattle.apl_display.specs.Matrices.{aligned, right_aligned, row_of};

use apl_arrays::{Glyph, Line, List, WantOfMemory};
use line_text::{add_blank, add_blanks, add_number, number_width};
use std::alloc::Global;

/// The items of a row.
pub fn row_of<T>(items: &[T], columns: usize, row: usize) -> &[T]
    requires { row * columns + columns ≤ length items.now }
    ensures value { result.now ≡ row_of items.now columns row }
    ensures long { length result.now ≡ columns }
{
    let start = row * columns;
    &items[start..start + columns]
}

/// Adds the blank that stands before each column but the first.
pub fn push_gap(line: &mut Line, column: usize) -> Result<(), WantOfMemory>
    ensures { OnOk result (line.new.items ≡ line.old.items ++ (if column == 0 then [] else blank ∷ [])) }
{
    if column > 0 {
        add_blank(line)?;
    }
    Ok(())
}

// Adds the text of a number at the right of a column of a width.
fn push_aligned(line: &mut Line, width: usize, number: i64) -> Result<(), WantOfMemory>
    ensures { OnOk result (line.new.items ≡ line.old.items ++ right_aligned width (number_text number)) }
{
    add_blanks(line, width.saturating_sub(number_width(number)))?;
    add_number(line, number)
}

/// Adds numbers at the right of their columns, with one blank between.
pub fn push_row(line: &mut Line, widths: &[usize], row: &[i64]) -> Result<(), WantOfMemory>
    requires { length widths.now ≡ length row.now }
    ensures { OnOk result (line.new.items ≡ line.old.items ++ aligned widths.now row.now) }
{
    for (column, number) in row.iter().enumerate() {
        push_gap(line, column)?;
        push_aligned(line, widths[column], *number)?;
    }
    Ok(())
}

/// The line of a row of characters: these as they are.
pub fn char_line(alloc: Global, row: &[Glyph]) -> Result<Line, WantOfMemory>
    ensures { IfOk result (λ line. line.items ≡ row.now) }
{
    List::of(alloc, row)
}

/// The line of a row of numbers.
pub fn number_line(alloc: Global, widths: &[usize], row: &[i64]) -> Result<Line, WantOfMemory>
    requires { length widths.now ≡ length row.now }
    ensures { IfOk result (λ line. line.items ≡ aligned widths.now row.now) }
{
    let mut line = List::new(alloc);
    push_row(&mut line, widths, row)?;
    Ok(line)
}
