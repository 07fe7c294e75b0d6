ghost use Rattle.std.specs.Prelude.{◌≡◌, ◌<◌, ◌∷◌, [], IfSome, MatchOption, length};
ghost use Rattle.ws_commands.specs.Words.{words_in};

use apl_arrays::{Glyph, next_word, words_stand_between_blanks};

/// The first word of a line, and what stands behind it. `None` where there is no word.
pub(crate) fn first_word(line: &[Glyph]) -> Option<(&[Glyph], &[Glyph])>
    ensures words { MatchOption result (words_in line.now ≡ []) (λ found. words_in line.now ≡ found.0.now ∷ words_in found.1.now) }
    ensures shorter { IfSome result (λ found. length found.1.now < length line.now) }
{
    words_stand_between_blanks();
    match next_word(line) {
        None => None,
        Some((word, rest)) => Some((word, rest)),
    }
}
