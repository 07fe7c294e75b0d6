ghost use Rattle.std.specs.Prelude.{◌≡◌, ◌+◌, ◌-◌, ◌*◌, ◌^◌, ◌<◌, ◌≤◌, ℕ, pos, max, min, IfOk, length, slice_index, slice_index_or, sum};
ghost use Rattle.apl_display.specs.Matrices.{column_width, column_widths};
ghost use Rattle.line_text.specs.Number.{number_width};

use crate::row::row_of;
use apl_arrays::WantOfMemory;
use line_text::number_width;
use std::alloc::Global;

// Widens columns to the numbers of a row.
fn widen(widths: &mut [usize], row: &[i64])
    requires { length widths.old ≡ length row.now }
    ensures { (k : ℕ) → k < length row.now →
        slice_index widths.new k ≡ max (slice_index widths.old k) (number_width (slice_index_or row.now k (pos 0))) }
{
    for (column, number) in row.iter().enumerate() {
        widths[column] = widths[column].max(number_width(*number));
    }
}

/// The widths of all columns in so many rows, read in one pass.
pub fn column_widths(
    alloc: Global,
    numbers: &[i64],
    columns: usize,
    rows: usize,
) -> Result<Vec<usize>, WantOfMemory>
    requires { rows * columns ≤ length numbers.now }
    ensures { IfOk result (λ widths. widths.items ≡ column_widths numbers.now columns rows) }
{
    let mut widths = vec![in alloc; 0; columns]?;
    for row in 0..rows {
        widen(&mut widths, row_of(numbers, columns, row));
    }
    Ok(widths)
}

// The width of a column in so many rows.
fn column_width(numbers: &[i64], columns: usize, rows: usize, column: usize) -> usize
    requires within { column < columns }
    requires whole { rows * columns ≤ length numbers.now }
    ensures { result ≡ column_width numbers.now columns rows column }
{
    let mut width = 0;
    for row in 0..rows {
        width = number_width(row_of(numbers, columns, row)[column]).max(width);
    }
    width
}

/// How wide a line of all columns is, with a blank between each two: as `column_widths` has them, read column by column.
pub fn columns_width(numbers: &[i64], columns: usize, rows: usize) -> usize
    requires { rows * columns ≤ length numbers.now }
    ensures { result ≡ min (columns - 1 + sum (column_widths numbers.now columns rows)) (2 ^ 64 - 1) }
{
    let mut width = columns.saturating_sub(1);
    for column in 0..columns {
        width = width.saturating_add(column_width(numbers, columns, rows, column));
    }
    width
}
