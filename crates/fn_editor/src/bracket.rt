ghost use Rattle.std.specs.Prelude.{◌≡◌, ◌<◌, ◌≤◌, ◌+◌, ◌*◌, All, IsTrue, IfSome, length, min, take_while};
ghost use Rattle.std.specs.Option.{option_map};
ghost use Rattle.std.specs.Char.{digit_value};
ghost use Rattle.std.specs.Str.Parse.{digits_value};
ghost use Rattle.apl_arrays.specs.Glyph.{is_digit};
ghost use Rattle.fn_editor.specs.Number.{most_whole};
ghost use Rattle.fn_editor.specs.Bracket.{bracket_in, bracket_with_number, closed_here, line_number_in, place, tenth_in, whole_of};

use crate::closing::behind_glyph;
use crate::number::{LineNumber, WHOLE_LIMIT};
use apl_arrays::{Glyph, digit_count};

/// What a bracket at the start of a line asks: to show the definition, to delete a line, to enter a header, or to go to
/// a number.
#[derive(Clone, Copy, Debug)]
pub enum Bracket {
    Show,
    Delete(LineNumber),
    Header,
    At(LineNumber),
}

/// What a bracket asks, behind its `[`, and what follows it: `⎕]`, `∆n]`, `n]` or a number with a tenth. `None` for any
/// other.
pub fn bracket_in(text: &[Glyph]) -> Option<(Bracket, &[Glyph])>
    ensures { option_map (λ found. (found.0, found.1.now)) result ≡ bracket_in text.now }
{
    match text {
        [] => None,
        [first, rest @ ..] if *first == Glyph::QUAD => closed_here(Bracket::Show, rest),
        [first, rest @ ..] if *first == Glyph::DELTA => deletion_in(rest),
        _ => place_in(text),
    }
}

// A bracket that deletes the line of a number, and what follows it.
fn deletion_in(text: &[Glyph]) -> Option<(Bracket, &[Glyph])>
    ensures { option_map (λ found. (found.0, found.1.now)) result ≡ bracket_with_number Bracket.Delete (line_number_in text.now) }
{
    match line_number_in(text) {
        None => None,
        Some((number, rest)) => closed_here(Bracket::Delete(number), rest),
    }
}

// A bracket with a number, and what follows it.
fn place_in(text: &[Glyph]) -> Option<(Bracket, &[Glyph])>
    ensures { option_map (λ found. (found.0, found.1.now)) result ≡ bracket_with_number place (line_number_in text.now) }
{
    match line_number_in(text) {
        None => None,
        Some((number, rest)) => closed_here(place(number), rest),
    }
}

// A bracket that is closed here, and what follows it.
fn closed_here(bracket: Bracket, text: &[Glyph]) -> Option<(Bracket, &[Glyph])>
    ensures { option_map (λ found. (found.0, found.1.now)) result ≡ closed_here bracket text.now }
{
    let rest = behind_glyph(text, Glyph::RIGHT_BRACKET)?;
    Some((bracket, rest))
}

// The bracket of a number: 0 is the header.
fn place(number: LineNumber) -> Bracket
    ensures { result ≡ place number }
{
    if number == LineNumber::of(0, 0) {
        Bracket::Header
    } else {
        Bracket::At(number)
    }
}

// The number at the front, n or n.d, and what follows.
#[tactic(auto, using(line_scanner::proofs::Digits::digits_at_front))]
fn line_number_in(text: &[Glyph]) -> Option<(LineNumber, &[Glyph])>
    ensures { option_map (λ found. (found.0, found.1.now)) result ≡ line_number_in text.now }
{
    let count = digit_count(text);
    let whole = whole_of(&text[..count])?;
    let (tenth, rest) = tenth_in(&text[count..]);
    Some((LineNumber::of(whole, tenth), rest))
}

// The whole number of the digits, where there are some and it is within its limit.
fn whole_of(digits: &[Glyph]) -> Option<u16>
    requires { All (λ digit. IsTrue (is_digit digit)) digits.now }
    ensures value { result ≡ whole_of digits.now }
    ensures within { IfSome result (λ whole. whole ≤ most_whole) }
{
    let value = capped_value(digits);
    if digits.is_empty() || value > WHOLE_LIMIT {
        return None;
    }
    Some(value)
}

// The number of the digits, or one more than a whole part may be where it is greater.
fn capped_value(digits: &[Glyph]) -> u16
    requires { All (λ digit. IsTrue (is_digit digit)) digits.now }
    ensures { result ≡ min (digits_value 10 digits.now) (most_whole + 1) }
{
    let mut value = 0;
    for digit in digits {
        value = with_digit(value, *digit);
    }
    value
}

// The number with a digit more, or one more than a whole part may be where that is greater.
fn with_digit(value: u16, digit: Glyph) -> u16
    requires digit { IsTrue (is_digit digit) }
    requires small { value ≤ most_whole + 1 }
    ensures { result ≡ min (value * 10 + digit_value digit) (most_whole + 1) }
{
    match digit.digit_value() {
        None => unreachable!(),
        Some(last) => (value * 10 + u16::from(last)).min(WHOLE_LIMIT + 1),
    }
}

// The tenth at the front, a point and a digit from 1 to 9, or 0 where none stands there; and what follows.
fn tenth_in(text: &[Glyph]) -> (u8, &[Glyph])
    ensures value { (result.0, result.1.now) ≡ tenth_in text.now }
    ensures digit { result.0 < 10 }
{
    match text {
        [first, second, rest @ ..] if *first == Glyph::PERIOD => match second.digit_value() {
            None | Some(0) => (0, text),
            Some(tenth) => (tenth, rest),
        },
        _ => (0, text),
    }
}
