ghost use Rattle.std.specs.Prelude.{◌≡◌};
ghost use Rattle.apl_workspace.specs.Blanks.{without_blanks};

use apl_arrays::{Glyph, blank_count};

/// The line without the blanks at its front.
pub fn without_blanks(line: &[Glyph]) -> &[Glyph]
    ensures { result.now ≡ without_blanks line.now }
{
    &line[blank_count(line)..]
}
