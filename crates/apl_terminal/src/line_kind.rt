ghost use Rattle.std.specs.Prelude.{◌≡◌};
ghost use Rattle.apl_terminal.specs.LineKind.{begins_behind_blanks, is_command, is_opening};

use apl_arrays::Glyph;
use apl_workspace::without_blanks;

/// Whether a line opens a definition where none is open: its first glyph other than a blank is `∇`.
pub fn is_opening(line: &[Glyph]) -> bool
    ensures { result ≡ is_opening line.now }
{
    begins_with(Glyph::DEL, line)
}

/// Whether a line is a command: its first glyph other than a blank is `)`.
pub fn is_command(line: &[Glyph]) -> bool
    ensures { result ≡ is_command line.now }
{
    begins_with(Glyph::RIGHT_PARENTHESIS, line)
}

fn begins_with(glyph: Glyph, line: &[Glyph]) -> bool
    ensures { result ≡ begins_behind_blanks glyph line.now }
{
    match without_blanks(line) {
        [first, ..] => *first == glyph,
        [] => false,
    }
}
