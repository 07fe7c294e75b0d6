ghost use Rattle.std.specs.Prelude.{◌≡◌, ◌≤◌, false, IfOk, IfSome, length};
ghost use Rattle.std.specs.Option.{option_map};
ghost use Rattle.line_scanner.specs.Role.{is_quote};
ghost use Rattle.line_scanner.specs.Token.{plain_chars};
ghost use Rattle.line_scanner.specs.Scanning.{chars_from};

use apl_arrays::{Glyph, Line, List, WantOfMemory};
use std::alloc::Global;

fn is_quote(glyph: Glyph) -> bool
    ensures { result ≡ is_quote glyph }
{
    glyph == Glyph::QUOTE
}

/// The characters up to the closing quote, and how many glyphs these and it take, or `None` where no quote closes.
pub fn chars_until_quote(
    alloc: Global,
    glyphs: &[Glyph],
) -> Result<Option<(Line, usize)>, WantOfMemory>
    ensures value { IfOk result (λ found. plain_chars found ≡ chars_from false glyphs.now) }
    ensures within { IfOk result (λ found. IfSome found (λ chars. chars.1 ≤ length glyphs.now)) }
{
    let mut chars = List::new(alloc);
    let mut closing = false;
    for (at, glyph) in glyphs.iter().enumerate() {
        if closing == is_quote(*glyph) {
            chars.push(*glyph)?;
            closing = false;
        } else if closing {
            return Ok(Some((chars, at)));
        } else {
            closing = true;
        }
    }
    Ok(if closing {
        Some((chars, glyphs.len()))
    } else {
        None
    })
}

/// How many glyphs the characters up to the closing quote and it take, or `None` where no quote closes.
pub fn chars_end(glyphs: &[Glyph]) -> Option<usize>
    ensures value { result ≡ option_map (λ found. found.1) (chars_from false glyphs.now) }
    ensures within { IfSome result (λ end. end ≤ length glyphs.now) }
{
    let mut closing = false;
    for (at, glyph) in glyphs.iter().enumerate() {
        if closing == is_quote(*glyph) {
            closing = false;
        } else if closing {
            return Some(at);
        } else {
            closing = true;
        }
    }
    if closing { Some(glyphs.len()) } else { None }
}
