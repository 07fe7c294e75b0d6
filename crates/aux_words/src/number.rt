ghost use Rattle.std.specs.Prelude.{◌≡◌, ◌<◌, ◌≤◌, IfSome};
ghost use Rattle.aux_words.specs.Number.{greatest_number, number_behind, number_of, with_digit};

use apl_arrays::Glyph;

/// The greatest number that a request may name.
const GREATEST_NUMBER: u64 = 999_999_999;

/// The number, from 1 to 999,999,999, that these glyphs are in decimal digits without a leading zero; `None` where they are
/// none.
pub fn number_of(glyphs: &[Glyph]) -> Option<u32>
    ensures { result ≡ number_of glyphs.now }
{
    match glyphs {
        [] => None,
        [first, ..] if first.code() == b'0' => None,
        [_, ..] => number_behind(0, glyphs),
    }
}

// The number that begins with the digits of this one and goes on with these.
fn number_behind(number: u32, glyphs: &[Glyph]) -> Option<u32>
    requires { number ≤ greatest_number }
    ensures { result ≡ number_behind number glyphs.now }
{
    match glyphs {
        [] => Some(number),
        [glyph, rest @ ..] => match with_digit(number, glyph.digit_value()) {
            None => None,
            Some(longer) => number_behind(longer, rest),
        },
    }
}

// The number with a digit more, where there is one and the number is not too great.
fn with_digit(number: u32, digit: Option<u8>) -> Option<u32>
    requires { number ≤ greatest_number }
    ensures value { result ≡ with_digit number digit }
    ensures most { IfSome result (λ longer. longer ≤ greatest_number) }
{
    let longer = u64::from(number) * 10 + u64::from(digit?);
    if longer <= GREATEST_NUMBER {
        Some(longer as u32)
    } else {
        None
    }
}
