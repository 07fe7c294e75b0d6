ghost use Rattle.std.specs.Prelude.{◌≡◌, IfOk};
ghost use Rattle.apl_arrays.specs.Report.{report_text};
ghost use Rattle.apl_meaning.specs.Printing.{function_line_shown, input_shown};

use apl_arrays::{Glyph, Line, List, Name, Report, WantOfMemory};
use line_text::{add_count, add_glyphs, add_text};
use std::alloc::Global;

/// The name of a report, as a line. It takes memory for the line.
pub fn report_line(alloc: Global, report: Report) -> Result<Line, WantOfMemory>
    ensures { IfOk result (λ line. line.items ≡ report_text report) }
{
    let mut line = List::new(alloc);
    add_text(&mut line, report.text())?;
    Ok(line)
}

// What stands before a line as read.
const INDENT: &str = "      ";

/// The line as read, as a report shows it. It takes memory once, for the line.
pub fn input_shown(alloc: Global, input: &[Glyph]) -> Result<Line, WantOfMemory>
    ensures { IfOk result (λ line. line.items ≡ input_shown input.now) }
{
    let mut line = List::new(alloc);
    line.reserve(input.len().saturating_add(INDENT.len()))?;
    add_text(&mut line, INDENT)?;
    add_glyphs(&mut line, input)?;
    Ok(line)
}

/// A line of a function, as a report shows it. It takes memory for the line.
pub fn function_line_shown(
    alloc: Global,
    name: &Name,
    number: u64,
    text: &[Glyph],
) -> Result<Line, WantOfMemory>
    ensures { IfOk result (λ line. line.items ≡ function_line_shown name.now number text.now) }
{
    let mut line = List::new(alloc);
    add_glyphs(&mut line, name.glyphs())?;
    add_text(&mut line, "[")?;
    add_count(&mut line, number)?;
    add_text(&mut line, "] ")?;
    add_glyphs(&mut line, text)?;
    Ok(line)
}
