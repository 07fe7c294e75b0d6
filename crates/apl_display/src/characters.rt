ghost use Rattle.std.specs.Prelude.{◌≡◌, ◌+◌, ◌-◌, ◌*◌, ◌^◌, ◌<◌, ◌≤◌, ◌++◌, ◌∷◌, [], ℕ, min, IfOk, IfErr, IsOk, OnOk, if◌then◌else◌, length, map, nat_lt, sum};
ghost use Rattle.std.specs.List.{concat, range_with_len};
ghost use Rattle.apl_arrays.specs.Array.{numbers, chars, element_count, item_count, FitsLimits, IsArray};
ghost use Rattle.apl_display.specs.Format.{format_of, formatted, number_format, IsFormatRefusal};
ghost use Rattle.apl_items.specs.Answers.{Answers};
ghost use Rattle.apl_items.specs.Places.{OnWantOfMemory};
ghost use Rattle.apl_arrays.specs.declared.report.Fail.TheVariants as fail;
ghost use Rattle.apl_arrays.specs.declared.report.Report.TheVariants.{WsFull};
ghost use Rattle.line_text.specs.Spaced.{spaced};
ghost use Rattle.apl_display.specs.Matrices.{aligned, column_widths, row_of};
ghost use Rattle.line_text.specs.Number.{number_text};

use crate::display::vector_line;
use crate::matrices::extent_of;
use crate::row::{push_row, row_of};
use crate::widths::{column_widths, columns_width};
use apl_arrays::{
    Array, ELEMENT_LIMIT, Fail, Items, ItemsRef, Line, List, RANK_LIMIT, Report, WantOfMemory,
};
use line_text::number_width;
use std::alloc::Global;

// The array of characters in rows of a width.
fn in_rows(
    alloc: Global,
    front: &[u32],
    width: usize,
    characters: Line,
) -> Result<Array, WantOfMemory>
    requires fits { FitsLimits (front.now ++ width ∷ []) }
    requires whole { element_count (front.now ++ width ∷ []) ≡ length characters.items }
    ensures { IfOk result (λ array. array ≡ record { shape = front.now ++ width ∷ []; items = chars characters.items }) }
{
    let mut axes = [0; RANK_LIMIT];
    axes[..front.len()].copy_from_slice(front);
    axes[front.len()] = width as u32;
    Array::shaped(alloc, &axes[..front.len() + 1], Items::Chars(characters))
}

// How wide a line of columns is.
fn line_width(widths: &[usize]) -> usize
    ensures { result ≡ min (length widths.now - 1 + sum widths.now) (2 ^ 64 - 1) }
{
    let mut width = widths.len().saturating_sub(1);
    for column in widths {
        width = width.saturating_add(*column);
    }
    width
}

// How wide the line of a vector is.
fn vector_width(numbers: &[i64]) -> usize
    ensures { result ≡ min (length (spaced (map number_text numbers.now))) (2 ^ 64 - 1) }
{
    let mut width = numbers.len().saturating_sub(1);
    for number in numbers {
        width = width.saturating_add(number_width(*number));
    }
    width
}

// The characters of so many rows of numbers, one row after another.
fn rows_text(
    alloc: Global,
    numbers: &[i64],
    widths: &[usize],
    columns: usize,
    rows: usize,
) -> Result<Line, WantOfMemory>
    requires columns { length widths.now ≡ columns }
    requires whole { rows * columns ≡ length numbers.now }
    ensures { IfOk result (λ text. text.items ≡
        concat (map (λ row. aligned widths.now (row_of numbers.now columns row)) (range_with_len 0 rows))) }
{
    let mut text = List::new(alloc);
    for row in 0..rows {
        push_row(&mut text, widths, row_of(numbers, columns, row))?;
    }
    Ok(text)
}

// The characters of a scalar or a vector.
fn vector_format(alloc: Global, b: &Array, list: &[i64]) -> Result<Array, Fail>
    requires rank { length b.now.shape < 2 }
    requires kind { b.now.items ≡ numbers list.now }
    ensures value { IfOk result (λ array. array ≡ number_format b.now) }
    ensures fits { OnOk result (FitsLimits (number_format b.now).shape) }
    ensures refused { IfErr result (IsFormatRefusal (number_format b.now).shape) }
    ensures memory { OnWantOfMemory result (FitsLimits (number_format b.now).shape) }
{
    let width = vector_width(list);
    if width > ELEMENT_LIMIT {
        return Err(Fail::Report(Report::WsFull));
    }
    let line = vector_line(alloc, list)?;
    Ok(in_rows(alloc, &[], width, line)?)
}

// No characters, where an array of two axes or more has no items.
fn empty_format(alloc: Global, b: &Array) -> Result<Array, WantOfMemory>
    requires rank { 2 ≤ length b.now.shape }
    requires none { item_count b.now.items ≡ 0 }
    ensures value { IfOk result (λ array. array ≡ number_format b.now) }
    ensures fits { FitsLimits (number_format b.now).shape }
{
    let shape = b.shape();
    in_rows(alloc, &shape[..shape.len() - 1], 0, List::new(alloc))
}

// Whether a table passes the limit of an array. It takes no memory.
fn is_too_wide(numbers: &[i64], columns: usize, rows: usize) -> bool
    requires whole { rows * columns ≤ length numbers.now }
    requires some { 0 < rows }
    ensures { result ≡ nat_lt 16384 (rows * (columns - 1 + sum (column_widths numbers.now columns rows))) }
{
    columns_width(numbers, columns, rows).saturating_mul(rows) > ELEMENT_LIMIT
}

// The widths of the columns of a table, or why there are none: without memory for them it is found whether it is too large.
fn widths_or_report(
    alloc: Global,
    numbers: &[i64],
    columns: usize,
    rows: usize,
) -> Result<Vec<usize>, Fail>
    requires whole { rows * columns ≤ length numbers.now }
    requires some { 0 < rows }
    ensures value { IfOk result (λ widths. widths.items ≡ column_widths numbers.now columns rows) }
    ensures refused { IfErr result (λ why. why ≡ (if nat_lt 16384 (rows * (columns - 1 + sum (column_widths numbers.now columns rows))) then fail.Report WsFull else fail.WantOfMemory)) }
{
    match column_widths(alloc, numbers, columns, rows) {
        Ok(widths) => Ok(widths),
        Err(WantOfMemory) if is_too_wide(numbers, columns, rows) => {
            Err(Fail::Report(Report::WsFull))
        }
        Err(WantOfMemory) => Err(Fail::WantOfMemory),
    }
}

// The characters of an array of rank 2 or more that has elements.
fn table_format(alloc: Global, b: &Array, list: &[i64]) -> Result<Array, Fail>
    requires rank { 2 ≤ length b.now.shape }
    requires kind { b.now.items ≡ numbers list.now }
    requires some { 0 < length list.now }
    ensures value { IfOk result (λ array. array ≡ number_format b.now) }
    ensures fits { OnOk result (FitsLimits (number_format b.now).shape) }
    ensures refused { IfErr result (IsFormatRefusal (number_format b.now).shape) }
    ensures memory { OnWantOfMemory result (FitsLimits (number_format b.now).shape) }
{
    let shape = b.shape();
    let extent = extent_of(shape, list.len());
    let rows = extent.matrices * extent.rows;
    let widths = widths_or_report(alloc, list, extent.columns, rows)?;
    let width = line_width(&widths);
    if width.saturating_mul(rows) > ELEMENT_LIMIT {
        return Err(Fail::Report(Report::WsFull));
    }
    let text = rows_text(alloc, list, &widths, extent.columns, rows)?;
    Ok(in_rows(alloc, &shape[..shape.len() - 1], width, text)?)
}

// An array of numbers as characters.
fn format_numbers(alloc: Global, b: &Array, list: &[i64]) -> Result<Array, Fail>
    requires kind { b.now.items ≡ numbers list.now }
    ensures value { IfOk result (λ array. array ≡ number_format b.now) }
    ensures fits { OnOk result (FitsLimits (number_format b.now).shape) }
    ensures refused { IfErr result (IsFormatRefusal (number_format b.now).shape) }
    ensures memory { OnWantOfMemory result (FitsLimits (number_format b.now).shape) }
{
    if b.shape().len() < 2 {
        return vector_format(alloc, b, list);
    }
    if list.is_empty() {
        return Ok(empty_format(alloc, b)?);
    }
    table_format(alloc, b, list)
}

// An array as characters, or a true reason to make none.
fn as_characters(alloc: Global, b: &Array) -> Result<Array, Fail>
    ensures value { IfOk result (λ array. array ≡ formatted b.now) }
    ensures fits { OnOk result (FitsLimits (formatted b.now).shape) }
    ensures refused { IfErr result (IsFormatRefusal (formatted b.now).shape) }
    ensures memory { OnWantOfMemory result (FitsLimits (formatted b.now).shape) }
    ensures array { IsArray b.now }
{
    match b.items() {
        ItemsRef::Chars(_) => Ok(b.copy(alloc)?),
        ItemsRef::Numbers(numbers) => format_numbers(alloc, b, numbers),
    }
}

/// An array as characters. One of characters stays as it is. Of numbers it is what the display shows: of a scalar or a
/// vector its line, as a vector; of any other array the glyphs of its lines, with their width (0 where there are none)
/// in place of the last axis. WS FULL exactly where the result would pass the limits of an array, also where there is
/// no memory. It takes memory for the result and for a number a column.
pub fn format(alloc: Global, b: &Array) -> Result<Array, Fail>
    ensures value { Answers result (format_of b.now) }
    ensures memory { OnWantOfMemory result (IsOk (format_of b.now)) }
{
    as_characters(alloc, b)
}
