ghost use Rattle.std.specs.Prelude.{◌≡◌, Ok, IfErr, IfOk};
ghost use Rattle.apl_arrays.specs.Array.{chars};
ghost use Rattle.apl_execute.specs.Text.{GivesNoText, text_of, text_of_items};

use apl_arrays::{Array, Fail, Glyph, ItemsRef, LINE_GLYPH_LIMIT, Line, List, Report};
use std::alloc::Global;

/// The text that a value is: its characters. `Rank` where it has more than one axis, else `Domain` where it holds numbers,
/// also none, else `Length` where it has over 1,000 glyphs. It takes memory for the text, where there is one.
pub fn text_of(alloc: Global, value: &Array) -> Result<Line, Fail>
    ensures ok { IfOk result (λ line. text_of value.now ≡ Ok line.items) }
    ensures refused { IfErr result (λ fail. GivesNoText (text_of value.now) fail) }
{
    if value.shape().len() > 1 {
        return Err(Fail::Report(Report::Rank));
    }
    match value.items() {
        ItemsRef::Numbers(_) => Err(Fail::Report(Report::Domain)),
        ItemsRef::Chars(glyphs) => text_copy(alloc, glyphs),
    }
}

// A copy of characters that are not too many.
fn text_copy(alloc: Global, glyphs: &[Glyph]) -> Result<Line, Fail>
    ensures ok { IfOk result (λ text. text_of_items (chars glyphs.now) ≡ Ok text.items) }
    ensures refused { IfErr result (λ fail. GivesNoText (text_of_items (chars glyphs.now)) fail) }
{
    if glyphs.len() > LINE_GLYPH_LIMIT {
        return Err(Fail::Report(Report::Length));
    }
    Ok(List::of(alloc, glyphs)?)
}
