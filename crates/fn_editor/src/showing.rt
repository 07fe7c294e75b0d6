ghost use Rattle.std.specs.Prelude.{◌≡◌, ◌++◌, [], ◌∷◌, IfOk, OnOk, map};
ghost use Rattle.apl_arrays.specs.Glyph.{blank};
ghost use Rattle.fn_editor.specs.Editor.{Lines, edge, shown_line};

use crate::content::LineText;
use crate::number::LineNumber;
use crate::prompt::Prompt;
use apl_arrays::{Glyph, Line, LineList, List, WantOfMemory};
use line_text::{add_blanks, add_glyphs};
use std::alloc::Global;
use std::collections::BTreeMap;

/// What is shown of a header and lines: a ∇ behind blanks begins and ends it, the header stands with the first, and the
/// lines between, with their prompts. It takes memory for these lines.
pub fn shown(
    alloc: Global,
    header: &[Glyph],
    lines: &BTreeMap<LineNumber, LineText>,
) -> Result<LineList, WantOfMemory>
    ensures { IfOk result (λ list. list.items ≡ (edge ++ blank ∷ header.now) ∷ map shown_line lines.now.entries ++ edge ∷ []) }
{
    let mut list = LineList::new(alloc);
    list.reserve(lines.len() + 2)?;
    list.push(shown_header(alloc, header)?)?;
    push_lines(alloc, &mut list, lines)?;
    list.push(edge(alloc, 0)?)?;
    Ok(list)
}

// The lines behind their prompts.
fn push_lines(
    alloc: Global,
    list: &mut LineList,
    lines: &BTreeMap<LineNumber, LineText>,
) -> Result<(), WantOfMemory>
    ensures { OnOk result (list.new.items ≡ list.old.items ++ map shown_line lines.now.entries) }
{
    for (number, text) in lines {
        list.push(shown_line(alloc, *number, text)?)?;
    }
    Ok(())
}

// Four blanks and ∇, in a line with room for more.
fn edge(alloc: Global, room: usize) -> Result<Line, WantOfMemory>
    ensures { IfOk result (λ line. line.items ≡ edge) }
{
    let mut line = List::new(alloc);
    line.reserve(room.saturating_add(5))?;
    add_blanks(&mut line, 4)?;
    line.push(Glyph::DEL)?;
    Ok(line)
}

// The header behind four blanks, ∇ and a blank.
fn shown_header(alloc: Global, header: &[Glyph]) -> Result<Line, WantOfMemory>
    ensures { IfOk result (λ line. line.items ≡ edge ++ blank ∷ header.now) }
{
    let mut line = edge(alloc, header.len().saturating_add(1))?;
    line.push(Glyph::BLANK)?;
    add_glyphs(&mut line, header)?;
    Ok(line)
}

// A line behind its prompt.
fn shown_line(alloc: Global, number: LineNumber, text: &LineText) -> Result<Line, WantOfMemory>
    ensures { IfOk result (λ line. line.items ≡ shown_line (number, text.now)) }
{
    let prompt = Prompt::of(number);
    let mut line = List::new(alloc);
    line.reserve(text.glyphs().len().saturating_add(8))?;
    add_glyphs(&mut line, prompt.glyphs())?;
    add_glyphs(&mut line, text.glyphs())?;
    Ok(line)
}
