ghost use Rattle.std.specs.Prelude.{◌≡◌, IfErr, IfOk, if◌then◌else◌, Some, None};
ghost use Rattle.std.specs.List.{list_all};
ghost use Rattle.apl_arrays.specs.Glyph.{digit_value, is_digit};
ghost use Rattle.text_reader.specs.Reading.{Gives, IsLeft};
ghost use Rattle.text_reader.specs.Numeral.{capped, read_count, numeral, number_of_digits};

use crate::unread::Unread;
use apl_arrays::{Glyph, WantOfMemory, digit_count};
use std::alloc::Global;

// The value of a glyph that is a digit.
fn digit(glyph: Glyph) -> Option<u64>
    ensures { result ≡ digit_value glyph }
{
    let value = glyph.digit_value()?;
    Some(u64::from(value))
}

// The number that digits are, the greatest `u64` where it is past that.
fn value_of(digits: &[Glyph]) -> Option<u64>
    ensures { result ≡ (if list_all is_digit digits.now then Some (capped (number_of_digits digits.now)) else None) }
{
    let mut value: u64 = 0;
    for glyph in digits {
        value = value.saturating_mul(10).saturating_add(digit(*glyph)?);
    }
    Some(value)
}

// The number that a word is: digits without a leading zero, any number of them. `None` where it is no number.
fn number_of(word: &[Glyph]) -> Option<u64>
    ensures { result ≡ numeral word.now }
{
    match word {
        [] => None,
        [first, _, ..] if first.code() == b'0' => None,
        _ => value_of(word),
    }
}

/// The number of all digits at the front of a line, without a leading zero, and what follows them. A number past the
/// greatest `u64` is that one. It takes no memory.
pub(crate) fn numeral_in(glyphs: &[Glyph]) -> Result<(u64, &[Glyph]), Unread>
    ensures value { Gives (λ found. (found.0, found.1.now)) result (read_count glyphs.now) }
    ensures free { IfErr result IsLeft }
{
    let (digits, rest) = glyphs.split_at(digit_count(glyphs));
    match number_of(digits) {
        None => Err(Unread::Left(glyphs.len())),
        Some(number) => Ok((number, rest)),
    }
}

/// The codes of glyphs. It takes memory for them.
pub(crate) fn codes_of(alloc: Global, glyphs: &[Glyph]) -> Result<Vec<u8>, WantOfMemory>
    ensures { IfOk result (λ codes. codes.items ≡ glyphs.now) }
{
    let mut codes = Vec::new(alloc);
    for glyph in glyphs {
        codes.push(glyph.code())?;
    }
    Ok(codes)
}
