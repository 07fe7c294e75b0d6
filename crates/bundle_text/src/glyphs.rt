ghost use Rattle.std.specs.Prelude.{◌≡◌, ◌+◌, ◌<◌, ◌^◌, ℕ, List, length, MatchResult};
ghost use Rattle.apl_arrays.specs.Glyph.{Spells};
ghost use Rattle.bundle_text.specs.Refused.{IsRefusal};
ghost use Rattle.bundle_text.specs.Step.{IsBadGlyph};

use crate::refused::{BundleRefused, BundleRule};
use apl_arrays::{GlyphRefused, Line, glyph_at, glyphs_of};
use std::alloc::Global;

/// The glyphs that bytes spell, which stand at the offset. `Malformed` with the rule of glyphs where they spell none,
/// at the first byte that spells none. It takes memory for the line.
pub fn glyphs_at(alloc: Global, bytes: &[u8], offset: u64) -> Result<Line, BundleRefused>
    requires { offset + length bytes.now < 2 ^ 64 }
    ensures { MatchResult result (λ line. Spells bytes.now line.items) (λ why. IsRefusal why (IsBadGlyph bytes.now offset)) }
{
    match glyphs_of(alloc, bytes) {
        Ok(line) => Ok(line),
        Err(GlyphRefused::BadGlyph(place)) => Err(BundleRefused::malformed(
            offset + place,
            BundleRule::Glyph,
        )),
        Err(GlyphRefused::WantOfMemory) => Err(BundleRefused::WantOfMemory),
    }
}

/// How many glyphs bytes spell, which stand at the offset. `Malformed` with the rule of glyphs where they spell none, at
/// the first byte that spells none. It takes no memory.
pub fn glyph_count_at(bytes: &[u8], offset: u64) -> Result<usize, BundleRefused>
    requires { offset + length bytes.now < 2 ^ 64 }
    ensures { MatchResult result (λ count. (line : List ℕ) × Spells bytes.now line × (count ≡ length line))
        (λ why. IsRefusal why (IsBadGlyph bytes.now offset)) }
{
    let mut count = 0;
    let mut rest = bytes;
    while let Some((_, taken)) = glyph_at(rest) {
        count += 1;
        rest = &rest[taken..];
    }
    if rest.is_empty() {
        Ok(count)
    } else {
        Err(BundleRefused::malformed(
            offset + (bytes.len() - rest.len()) as u64,
            BundleRule::Glyph,
        ))
    }
}
