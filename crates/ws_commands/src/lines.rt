ghost use Rattle.std.specs.Prelude.{◌≡◌, ◌∷◌, [], ◌++◌, IfOk, IsTrue, OnOk};
ghost use Rattle.std.specs.List.{list_all};
ghost use Rattle.line_text.specs.Spaced.{is_plain};

use apl_arrays::{Glyph, Line, LineList, List, WantOfMemory};
use line_text::{add_glyphs, add_text};
use std::alloc::Global;

/// A line of a text and of glyphs behind it. It takes memory once, for the line.
pub(crate) fn line_of(alloc: Global, text: &str, rest: &[Glyph]) -> Result<Line, WantOfMemory>
    requires { IsTrue (list_all is_plain text.now) }
    ensures { IfOk result (λ line. line.items ≡ text.now ++ rest.now) }
{
    let mut line = List::new(alloc);
    line.reserve(text.len().saturating_add(rest.len()))?;
    add_text(&mut line, text)?;
    add_glyphs(&mut line, rest)?;
    Ok(line)
}

/// One line, of a text and of glyphs behind it. It takes memory for both.
pub(crate) fn one_line(alloc: Global, text: &str, rest: &[Glyph]) -> Result<LineList, WantOfMemory>
    requires { IsTrue (list_all is_plain text.now) }
    ensures { IfOk result (λ lines. lines.items ≡ (text.now ++ rest.now) ∷ []) }
{
    let mut lines = LineList::new(alloc);
    lines.push(line_of(alloc, text, rest)?)?;
    Ok(lines)
}

/// One line of a text. It takes memory for it.
pub(crate) fn text_line(alloc: Global, text: &str) -> Result<LineList, WantOfMemory>
    requires { IsTrue (list_all is_plain text.now) }
    ensures { IfOk result (λ lines. lines.items ≡ text.now ∷ []) }
{
    let mut line = List::new(alloc);
    line.reserve(text.len())?;
    add_text(&mut line, text)?;
    let mut lines = LineList::new(alloc);
    lines.push(line)?;
    Ok(lines)
}
