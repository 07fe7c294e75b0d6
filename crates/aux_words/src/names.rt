ghost use Rattle.std.specs.Prelude.{◌≡◌, IfOk, MatchOption};
ghost use Rattle.std.specs.String.{string_bytes};
ghost use Rattle.apl_arrays.specs.File.{IsFileName};

use apl_arrays::{FileName, Glyph, WantOfMemory};
use std::alloc::Global;

/// The text of the name of a file, or `None` where the glyphs are no such name. It takes memory for the text.
pub fn file_name(alloc: Global, glyphs: &[Glyph]) -> Result<Option<String>, WantOfMemory>
    ensures { IfOk result (λ name. MatchOption name (¬ IsFileName glyphs.now) (λ text. IsFileName glyphs.now × (string_bytes text ≡ glyphs.now))) }
{
    match String::from_utf8(codes_of(alloc, glyphs)?) {
        Ok(text) => Ok(named(text)),
        Err(_) => Ok(None),
    }
}

// The codes of glyphs.
fn codes_of(alloc: Global, glyphs: &[Glyph]) -> Result<Vec<u8>, WantOfMemory>
    ensures { IfOk result (λ codes. codes.items ≡ glyphs.now) }
{
    let mut codes = Vec::new(alloc);
    for glyph in glyphs {
        codes.push(glyph.code())?;
    }
    Ok(codes)
}

// The text, where it is the name of a file.
fn named(text: String) -> Option<String>
    ensures { MatchOption result (¬ IsFileName (string_bytes text)) (λ name. IsFileName (string_bytes text) × (string_bytes name ≡ string_bytes text)) }
{
    if FileName::of(text.as_str()).is_some() {
        Some(text)
    } else {
        None
    }
}
