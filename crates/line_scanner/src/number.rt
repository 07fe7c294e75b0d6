ghost use Rattle.std.specs.Prelude.{◌≡◌, ◌+◌, ◌*◌, ◌<◌, ◌≤◌, ◌^◌, All, IsTrue, IfSome, SomeIff, length, take_while};
ghost use Rattle.std.specs.Char.{digit_value};
ghost use Rattle.std.specs.Str.Parse.{digits_value};
ghost use Rattle.apl_arrays.specs.Glyph.{is_digit};
ghost use Rattle.line_scanner.specs.Role.{is_overbar};
ghost use Rattle.line_scanner.specs.Number.{signed, in_64, signed_number, number, next_number};

use apl_arrays::{Glyph, blank_count, digit_count};

fn is_overbar(glyph: Glyph) -> bool
    ensures { result ≡ is_overbar glyph }
{
    glyph == Glyph::OVERBAR
}

/// The number with a digit more, or `None` where it passes 64 bits.
fn with_digit(value: u64, digit: Glyph) -> Option<u64>
    requires { IsTrue (is_digit digit) }
    ensures { SomeIff result (value * 10 + digit_value digit < 2 ^ 64) (value * 10 + digit_value digit) }
{
    value
        .checked_mul(10)?
        .checked_add(u64::from(digit.digit_value()?))
}

/// The number of these digits, or `None` where it passes 64 bits.
fn magnitude(digits: &[Glyph]) -> Option<u64>
    requires { All (λ digit. IsTrue (is_digit digit)) digits.now }
    ensures { SomeIff result (digits_value 10 digits.now < 2 ^ 64) (digits_value 10 digits.now) }
{
    let mut value = 0;
    for digit in digits {
        value = with_digit(value, *digit)?;
    }
    Some(value)
}

/// A magnitude with its sign, or `None` where it passes 64 bits.
fn signed(negative: bool, magnitude: u64) -> Option<i64>
    ensures { result ≡ in_64 (signed negative magnitude) }
{
    if !negative {
        i64::try_from(magnitude).ok()
    } else if magnitude < 1 << 63 {
        Some(-(magnitude as i64))
    } else if magnitude == 1 << 63 {
        Some(i64::MIN)
    } else {
        None
    }
}

/// The number of the digits at the front with its sign, and how many they are.
#[tactic(auto, using(crate::proofs::Digits::digits_at_front))]
fn signed_number(negative: bool, glyphs: &[Glyph]) -> Option<(i64, usize)>
    ensures value { result ≡ signed_number negative (take_while is_digit glyphs.now) }
    ensures within { IfSome result (λ found. (0 < found.1) × (found.1 ≤ length glyphs.now)) }
{
    let count = digit_count(glyphs);
    if count == 0 {
        return None;
    }
    let value = signed(negative, magnitude(&glyphs[..count])?)?;
    Some((value, count))
}

/// The number at the front, and how many glyphs it takes.
#[tactic(auto, unfolding(crate::specs::Number::number))]
pub fn number(glyphs: &[Glyph]) -> Option<(i64, usize)>
    ensures value { result ≡ number glyphs.now }
    ensures within { IfSome result (λ found. (0 < found.1) × (found.1 ≤ length glyphs.now)) }
{
    match glyphs {
        [first, rest @ ..] if is_overbar(*first) => {
            let (value, count) = signed_number(true, rest)?;
            Some((value, count + 1))
        }
        _ => signed_number(false, glyphs),
    }
}

/// The number that comes next behind blanks, and how many glyphs these and it take.
#[tactic(auto, using(apl_arrays::proofs::Runs::run_fits), unfolding(crate::specs::Number::next_number))]
pub fn next_number(glyphs: &[Glyph]) -> Option<(i64, usize)>
    ensures value { result ≡ next_number glyphs.now }
    ensures within { IfSome result (λ found. (0 < found.1) × (found.1 ≤ length glyphs.now)) }
{
    let blanks = blank_count(glyphs);
    let (value, taken) = number(&glyphs[blanks..])?;
    Some((value, blanks + taken))
}
