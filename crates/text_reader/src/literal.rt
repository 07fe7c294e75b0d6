ghost use Rattle.std.specs.Prelude.{◌≡◌, ◌≤◌, IfErr, length};
ghost use Rattle.text_reader.specs.Reading.{Gives, IsLeft, read_literal, shared_length};

use crate::unread::Unread;
use apl_arrays::Glyph;

/// What stands behind a fixed text of ASCII at the front of a line. It takes no memory.
pub(crate) fn behind<'a>(text: &[u8], glyphs: &'a [Glyph]) -> Result<&'a [Glyph], Unread>
    ensures value { Gives (λ rest. rest.now) result (read_literal text.now glyphs.now) }
    ensures free { IfErr result IsLeft }
{
    match text {
        [] => Ok(glyphs),
        [byte, text @ ..] => match glyphs {
            [glyph, rest @ ..] if glyph.code() == *byte => behind(text, rest),
            _ => Err(Unread::Left(glyphs.len())),
        },
    }
}

/// How many glyphs of a fixed text of ASCII stand at the front of a line, from its first on.
pub(crate) fn shared_length(text: &[u8], glyphs: &[Glyph]) -> usize
    ensures value { result ≡ shared_length text.now glyphs.now }
    ensures within { result ≤ length glyphs.now }
{
    match text {
        [] => 0,
        [byte, text @ ..] => match glyphs {
            [glyph, rest @ ..] if glyph.code() == *byte => 1 + shared_length(text, rest),
            _ => 0,
        },
    }
}
