ghost use Rattle.std.specs.Prelude.{IfOk};
ghost use Rattle.apl_workspace.specs.Function.{IsFunction};

use anyhow::{Context, Result};
use apl_arrays::LineList;
use apl_workspace::Function;
use case_fields::{glyphs_text, line_of, push_glyphs};
use std::alloc::Global;

/// What stands behind a line that is shown, and before each line of a function.
pub const LINE_END: &str = "⋄";

/// The function of a header and of lines, with `⋄` before each.
pub fn function_of(alloc: Global, text: &str) -> Result<Function>
    ensures { IfOk result IsFunction }
{
    let mut parts = text.split(LINE_END);
    let header = line_of(alloc, parts.next().context("no header")?)?;
    let mut lines = LineList::new(alloc);
    for line in parts {
        lines.push(line_of(alloc, line)?)?;
    }
    Function::of(alloc, header, lines)?.context("no function")
}

/// The text of a function: its header as it was entered, and its lines with `⋄` before each.
pub fn function_text(alloc: Global, function: &Function) -> Result<String> {
    let mut text = glyphs_text(alloc, function.text().as_slice())?;
    for line in function.lines() {
        text.push_str(LINE_END)?;
        push_glyphs(alloc, &mut text, line.as_slice())?;
    }
    Ok(text)
}
