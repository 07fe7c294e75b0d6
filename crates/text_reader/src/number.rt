ghost use Rattle.std.specs.Prelude.{◌≡◌, ◌≤◌, IsTrue, IfErr, IfOk, IfSome};
ghost use Rattle.text_reader.specs.Reading.{Gives, IsLeft};
ghost use Rattle.text_reader.specs.NumberReading.{reaches, number_ends, with_digit, read_digits, read_number};

use crate::unread::Unread;
use apl_arrays::Glyph;

// No number of 64 bits has more decimal digits.
const DIGIT_LIMIT: u8 = 20;

/// The number at the front of a line, in decimal digits without a leading zero, from `low` to `high`; and what follows
/// it. It goes on as long as some number in this range begins with its digits. It takes no memory.
pub(crate) fn number_in(low: u64, high: u64, glyphs: &[Glyph]) -> Result<(u64, &[Glyph]), Unread>
    requires { low ≤ high }
    ensures value { Gives (λ found. (found.0, found.1.now)) result (read_number low high glyphs.now) }
    ensures free { IfErr result IsLeft }
    ensures least { IfOk result (λ found. low ≤ found.0) }
    ensures most { IfOk result (λ found. found.0 ≤ high) }
{
    let [first, rest @ ..] = glyphs else {
        return Err(Unread::Left(0));
    };
    match first.digit_value() {
        None => Err(Unread::Left(glyphs.len())),
        Some(0) => {
            if low == 0 {
                Ok((0, rest))
            } else {
                Err(Unread::Left(glyphs.len()))
            }
        }
        Some(digit) => {
            let value = u64::from(digit);
            if reaches(DIGIT_LIMIT, value, low, high) {
                digits_in(low, high, value, rest)
            } else {
                Err(Unread::Left(glyphs.len()))
            }
        }
    }
}

// The number in the range whose digits so far have this value, which begins one, and what follows it.
fn digits_in(low: u64, high: u64, value: u64, glyphs: &[Glyph]) -> Result<(u64, &[Glyph]), Unread>
    requires { value ≤ high }
    ensures value { Gives (λ found. (found.0, found.1.now)) result (read_digits low high value glyphs.now) }
    ensures free { IfErr result IsLeft }
    ensures least { IfOk result (λ found. low ≤ found.0) }
    ensures most { IfOk result (λ found. found.0 ≤ high) }
{
    match glyphs {
        [] => number_ends(low, value, glyphs),
        [digit, rest @ ..] => match with_digit(low, high, value, digit.digit_value()) {
            None => number_ends(low, value, glyphs),
            Some(longer) => digits_in(low, high, longer, rest),
        },
    }
}

// A number that ends here: it is one of the range where it is no less than the least.
fn number_ends(low: u64, value: u64, glyphs: &[Glyph]) -> Result<(u64, &[Glyph]), Unread>
    ensures value { Gives (λ found. (found.0, found.1.now)) result (number_ends low value glyphs.now) }
    ensures free { IfErr result IsLeft }
    ensures least { IfOk result (λ found. low ≤ found.0) }
    ensures same { IfOk result (λ found. found.0 ≡ value) }
{
    if low <= value {
        Ok((value, glyphs))
    } else {
        Err(Unread::Left(glyphs.len()))
    }
}

// The number with a digit more, where there is one and some number in the range begins so.
fn with_digit(low: u64, high: u64, value: u64, digit: Option<u8>) -> Option<u64>
    ensures value { result ≡ with_digit low high value digit }
    ensures most { IfSome result (λ longer. longer ≤ high) }
{
    let longer = value.checked_mul(10)?.checked_add(u64::from(digit?))?;
    if reaches(DIGIT_LIMIT, longer, low, high) {
        Some(longer)
    } else {
        None
    }
}

// Whether a number from `low` to `high` begins with the digits of this one: it does where this one is in the range, else
// where a number of the range without its last digit does.
fn reaches(digits: u8, value: u64, low: u64, high: u64) -> bool
    ensures value { result ≡ reaches digits value low high }
    ensures most { IsTrue result → value ≤ high }
{
    digits > 0
        && value <= high
        && (low <= value || reaches(digits - 1, value, low.max(10) / 10, high / 10))
}
