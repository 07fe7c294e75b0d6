ghost use Rattle.std.specs.Prelude.{◌≡◌, ◌∷◌, ℕ, List};

use crate::likeness::{glyph_like, looks_blank};
use crate::scalar::first_char;
use std::alloc::AllocError;

/// Why no glyph stands somewhere.
#[derive(Clone, Copy, Debug, PartialEq, Eq)]
pub enum GlyphReason {
    /// A tab.
    Tab,
    /// A carriage return.
    CarriageReturn,
    /// The mark with which some programs begin a text in UTF-8.
    ByteOrderMark,
    /// The mark with which a text in UTF-16 begins.
    WideText,
    /// Another control character.
    Control(u8),
    /// The front of a character's UTF-8, without the rest.
    CutOff,
    /// What begins no UTF-8.
    NoText,
    /// What looks like a blank.
    LikeBlank(char),
    /// What looks like a glyph: the character, and that glyph.
    Like(char, char),
    /// Another character.
    Stranger(char),
}

// Why a character is no glyph.
fn char_reason(character: char) -> GlyphReason {
    if looks_blank(character) {
        return GlyphReason::LikeBlank(character);
    }
    match glyph_like(character) {
        Some(glyph) => GlyphReason::Like(character, glyph),
        None => GlyphReason::Stranger(character),
    }
}

// Why bytes that are no control character and no mark begin no glyph.
fn text_reason(bytes: &[u8]) -> GlyphReason {
    match first_char(bytes) {
        Some((character, _)) => char_reason(character),
        None if matches!(bytes, [0xC2..=0xF4, ..]) => GlyphReason::CutOff,
        None => GlyphReason::NoText,
    }
}

/// Why bytes begin no glyph.
pub fn glyph_reason(bytes: &[u8]) -> GlyphReason
    ensures tab { (rest : List ℕ) → bytes.now ≡ 9 ∷ rest → result ≡ GlyphReason.Tab }
    ensures carriage_return { (rest : List ℕ) → bytes.now ≡ 13 ∷ rest → result ≡ GlyphReason.CarriageReturn }
    ensures mark { (rest : List ℕ) → bytes.now ≡ 239 ∷ 187 ∷ 191 ∷ rest → result ≡ GlyphReason.ByteOrderMark }
{
    match bytes {
        [b'\t', ..] => GlyphReason::Tab,
        [b'\r', ..] => GlyphReason::CarriageReturn,
        [0xEF, 0xBB, 0xBF, ..] => GlyphReason::ByteOrderMark,
        [0xFF, 0xFE, ..] | [0xFE, 0xFF, ..] => GlyphReason::WideText,
        [byte, ..] if byte.is_ascii_control() => GlyphReason::Control(*byte),
        _ => text_reason(bytes),
    }
}

// What is said of a reason that needs no number.
fn plain_sentence(reason: GlyphReason) -> &'static str {
    match reason {
        GlyphReason::Tab => "a tab is no glyph: blanks are wanted",
        GlyphReason::CarriageReturn => {
            "a carriage return is no glyph: a line feed alone ends each line"
        }
        GlyphReason::ByteOrderMark => {
            "a byte order mark is no glyph: the text begins with its first line"
        }
        GlyphReason::WideText => "a text in UTF-16 is none of glyphs: UTF-8 is wanted",
        GlyphReason::CutOff => "the UTF-8 of a character is cut off here: a glyph is wanted",
        GlyphReason::NoText => "this is no UTF-8: a glyph is wanted",
        _ => "a glyph is wanted here",
    }
}

/// Adds what is said of a reason. It takes memory for the text.
pub fn add_reason(text: &mut String, reason: GlyphReason) -> Result<(), AllocError> {
    match reason {
        GlyphReason::Control(byte) => {
            write!(text, "a control character, U+{byte:04X}, is no glyph")
        }
        GlyphReason::LikeBlank(character) => {
            let code = u32::from(character);
            write!(text, "U+{code:04X} looks like a blank: U+0020 is wanted")
        }
        GlyphReason::Like(character, glyph) => {
            let code = u32::from(character);
            let wanted = u32::from(glyph);
            write!(
                text,
                "U+{code:04X} looks like {glyph}: U+{wanted:04X} is wanted"
            )
        }
        GlyphReason::Stranger(character) => {
            let code = u32::from(character);
            write!(text, "U+{code:04X} is none of the glyphs of this language")
        }
        _ => text.push_str(plain_sentence(reason)),
    }
}
