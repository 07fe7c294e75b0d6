//! Texts at work on small numbers and lines.

ghost use Rattle.std.specs.Prelude.{◌≡◌, ◌∷◌, [], ◌++◌, pos, negsuc, codes};
ghost use Rattle.apl_arrays.specs.Glyph.{left_arrow, overbar};
ghost use Rattle.line_text.specs.Lines.{user_lines, end_line, lines_text};
ghost use Rattle.line_text.specs.Number.{number_text, number_width};
ghost use Rattle.line_text.specs.Spaced.{spaced};

/// A negative number stands behind the sign ¯. The call does nothing.
pub fn numbers_have_texts()
    ensures none { number_text (pos 0) ≡ codes "0" }
    ensures ten { number_text (pos 10) ≡ codes "10" }
    ensures negative { number_text (negsuc 6) ≡ overbar ∷ codes "7" }
    ensures least { number_text (negsuc 9223372036854775807) ≡ overbar ∷ codes "9223372036854775808" }
    ensures wide { number_width (negsuc 9223372036854775807) ≡ 20 }
{}

/// One blank stands between each two texts, and none where there is one or none. The call does nothing.
pub fn texts_have_single_blanks()
    ensures none { spaced [] ≡ [] }
    ensures one { spaced (codes "A" ∷ []) ≡ codes "A" }
    ensures three { spaced (codes "A" ∷ [] ∷ codes "BC" ∷ []) ≡ codes "A  BC" }
{}

/// A user's heading and lines, byte for byte: ← takes three bytes. The call does nothing.
pub fn lines_have_texts()
    ensures user { lines_text (user_lines 1001 (codes "X" ∷ (codes "X" ++ left_arrow ∷ codes "3") ∷ [] ∷ []))
        ≡ codes "user 1001\n|X\n|X" ++ 226 ∷ 134 ∷ 144 ∷ codes "3\n|\n" }
    ensures last { lines_text (end_line ∷ []) ≡ codes "end\n" }
{}
