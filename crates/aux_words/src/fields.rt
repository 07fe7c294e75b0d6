ghost use Rattle.std.specs.Prelude.{◌≡◌, ◌<◌, ◌++◌, ◌∷◌, IfSome, None, Some, MatchOption, length, option_copied};
ghost use Rattle.std.specs.List.{position};
ghost use Rattle.apl_arrays.specs.Glyph.{blank, is_blank};
ghost use Rattle.auxiliaries.specs.Request.{behind_word};
ghost use Rattle.aux_words.specs.Fields.{cut_at_blank};

use apl_arrays::Glyph;

/// What stands behind a word of ASCII at the front of a line, or `None` where another word stands there.
pub fn behind_word<'a>(word: &[u8], glyphs: &'a [Glyph]) -> Option<&'a [Glyph]>
    ensures value { option_copied result ≡ behind_word word.now glyphs.now }
    ensures whole { IfSome result (λ rest. glyphs.now ≡ word.now ++ rest.now) }
{
    match word {
        [] => Some(glyphs),
        [byte, word @ ..] => match glyphs {
            [glyph, rest @ ..] if glyph.code() == *byte => behind_word(word, rest),
            _ => None,
        },
    }
}

/// What stands before the first blank of a line, and what stands behind it; `None` where there is no blank.
pub fn cut_at_blank(glyphs: &[Glyph]) -> Option<(&[Glyph], &[Glyph])>
    ensures value { MatchOption result (cut_at_blank glyphs.now ≡ None) (λ found. cut_at_blank glyphs.now ≡ Some (found.0.now, found.1.now)) }
    ensures whole { IfSome result (λ found. glyphs.now ≡ found.0.now ++ blank ∷ found.1.now) }
{
    match first_blank(glyphs) {
        None => None,
        Some(place) => Some((&glyphs[..place], &glyphs[place + 1..])),
    }
}

// The place of the first blank.
fn first_blank(glyphs: &[Glyph]) -> Option<usize>
    ensures value { result ≡ position is_blank glyphs.now }
    ensures within { IfSome result (λ place. place < length glyphs.now) }
{
    glyphs.iter().position(|glyph| glyph.is_blank())
}
