ghost use Rattle.std.specs.Map.{values_of};
ghost use Rattle.std.specs.Prelude.{◌≡◌, ◌+◌, IfOk, min};
ghost use Rattle.apl_workspace.specs.Function.{lines_weight};
ghost use Rattle.apl_workspace.specs.Limits.{most_weight};

use crate::number::LineNumber;
use apl_arrays::{Glyph, Line, WantOfMemory};
use apl_workspace::WEIGHT_LIMIT;
use std::alloc::Global;
use std::collections::BTreeMap;
use std::marker::Model;

/// The text of a line of a definition, seen as its glyphs alone.
#[derive(Debug, Drop)]
pub struct LineText {
    line: Line,
}

impl Model for LineText {
    ghost use Rattle.std.specs.Prelude.{ℕ, List};

    ghost Value = { List ℕ };

    ghost view = { λ t. t.line.items };
}

impl LineText {
    /// The text of these glyphs. It takes memory for them.
    pub fn of(alloc: Global, glyphs: &[Glyph]) -> Result<LineText, WantOfMemory>
        ensures { IfOk result (λ text. text ≡ glyphs.now) }
    {
        Ok(LineText {
            line: copied_line(alloc, glyphs)?,
        })
    }

    /// Its glyphs.
    pub fn glyphs(&self) -> &[Glyph]
        ensures { result.now ≡ self.now }
    {
        self.line.as_slice()
    }

    /// It as a line.
    pub fn into_line(self) -> Line
        ensures { result.items ≡ self }
    {
        self.line
    }
}

/// A line of these glyphs. It takes memory for them.
pub fn copied_line(alloc: Global, glyphs: &[Glyph]) -> Result<Line, WantOfMemory>
    ensures { IfOk result (λ line. line.items ≡ glyphs.now) }
{
    Ok(Line::from(Vec::from_slice(alloc, glyphs)?))
}

/// What lines weigh, one for each and for each of its glyphs, or one more than a workspace may weigh where that is
/// less.
pub fn lines_weight(lines: &BTreeMap<LineNumber, LineText>) -> usize
    ensures { result ≡ min (lines_weight (values_of lines.now.entries)) (most_weight + 1) }
{
    let mut weight = 0;
    for text in lines.values() {
        let glyphs = text.glyphs().len().min(WEIGHT_LIMIT);
        weight = (weight + glyphs + 1).min(WEIGHT_LIMIT + 1);
    }
    weight
}
