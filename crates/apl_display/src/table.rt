ghost use Rattle.std.specs.Prelude.{◌≡◌, ◌*◌, ◌^◌, ◌<◌, ◌==◌, ◌++◌, ◌∷◌, [], IfOk, OnOk, if◌then◌else◌};
ghost use Rattle.apl_arrays.specs.Array.{seen_items, item_count};
ghost use Rattle.apl_display.specs.Matrices.{row_count, widths_of, row_line, matrix_lines, matrices_lines};

use crate::matrices::Extent;
use crate::row::{char_line, number_line, row_of};
use crate::widths::column_widths;
use apl_arrays::{ItemsRef, Line, LineList, List, WantOfMemory};
use std::alloc::Global;

/// The matrices of an array, and how wide each column of numbers is.
#[derive(Drop)]
pub struct DisplayTable<'a> {
    pub items: ItemsRef<'a>,
    pub widths: &'a [usize],
    pub extent: Extent,
    ghost counted: { row_count extent < 2 ^ 64 },
    ghost whole: { row_count extent * extent.columns ≡ item_count (seen_items items) },
    ghost measured: { widths.now ≡ widths_of (seen_items items) extent },
}

/// The widths of the columns of numbers; none for characters.
pub fn widths_of(
    alloc: Global,
    items: ItemsRef<'_>,
    extent: Extent,
) -> Result<Vec<usize>, WantOfMemory>
    requires counted { row_count extent < 2 ^ 64 }
    requires whole { row_count extent * extent.columns ≡ item_count (seen_items items) }
    ensures { IfOk result (λ widths. widths.items ≡ widths_of (seen_items items.entry) extent) }
{
    let rows = extent.matrices * extent.rows;
    match items {
        ItemsRef::Numbers(numbers) => column_widths(alloc, numbers, extent.columns, rows),
        ItemsRef::Chars(_) => Ok(Vec::new(alloc)),
    }
}

// The line of a row.
#[tactic(auto, using(std::proofs::lemmas::Nat::rows, crate::proofs::WidthLemmas::length_of_widths))]
fn row_line(alloc: Global, table: &DisplayTable, row: usize) -> Result<Line, WantOfMemory>
    requires { row < row_count table.now.extent }
    ensures { IfOk result (λ line. line.items ≡ row_line (seen_items table.now.items) table.now.extent row) }
{
    let columns = table.extent.columns;
    match table.items {
        ItemsRef::Numbers(numbers) => {
            number_line(alloc, table.widths, row_of(numbers, columns, row))
        }
        ItemsRef::Chars(glyphs) => char_line(alloc, row_of(glyphs, columns, row)),
    }
}

// Adds the empty line that stands before each matrix but the first.
fn push_empty_line(alloc: Global, lines: &mut LineList, matrix: usize) -> Result<(), WantOfMemory>
    ensures { OnOk result (lines.new.items ≡ lines.old.items ++ (if matrix == 0 then [] else [] ∷ [])) }
{
    if matrix > 0 {
        lines.push(List::new(alloc))?;
    }
    Ok(())
}

// Adds the lines of a matrix.
fn push_matrix(
    alloc: Global,
    table: &DisplayTable,
    lines: &mut LineList,
    matrix: usize,
) -> Result<(), WantOfMemory>
    requires { matrix < table.now.extent.matrices }
    ensures { OnOk result (lines.new.items ≡
        lines.old.items ++ matrix_lines (seen_items table.now.items) table.now.extent matrix) }
{
    let first = matrix * table.extent.rows;
    for row in 0..table.extent.rows {
        lines.push(row_line(alloc, table, first + row)?)?;
    }
    Ok(())
}

/// The lines of all matrices.
pub fn matrices_lines(alloc: Global, table: &DisplayTable) -> Result<LineList, WantOfMemory>
    ensures { IfOk result (λ lines. lines.items ≡ matrices_lines (seen_items table.now.items) table.now.extent) }
{
    let mut lines = LineList::new(alloc);
    for matrix in 0..table.extent.matrices {
        push_empty_line(alloc, &mut lines, matrix)?;
        push_matrix(alloc, table, &mut lines, matrix)?;
    }
    Ok(lines)
}
