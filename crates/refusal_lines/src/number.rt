ghost use Rattle.std.specs.Prelude.{◌≡◌, ◌≤◌, length};

use crate::finding::Finding;
use crate::heading::{cut_word, first_word};

const NOTHING: &str = "a blank and a number are wanted behind this word";

const TWO_BLANKS: &str = "one blank alone stands in front of each number";

const LAST_BLANK: &str = "no blank stands at the end of a heading";

const NO_NUMBER: &str = "a number is wanted here, of the digits 0 to 9 alone";

const FIRST_ZERO: &str = "a number has no 0 in front of other digits";

const LARGE_READING: &str = "a reading of the clock is 9223372036854775807 at most";

const ONE_NUMBER: &str = "one number alone stands behind the word user";

const USER_RANGE: &str = "the number of a user is one from 1001 to 1999";

const OTHER: &str = "this heading is none that a bundle may have";

/// The greatest reading of a clock.
const GREATEST_READING: &[u8] = b"9223372036854775807";

// How many bytes stand in front of the number in the heading of a user.
const BEGIN: usize = 5;

/// What the numbers of a heading are.
#[derive(Clone, Copy, Debug, PartialEq, Eq)]
pub enum HeadingNumbers {
    /// The parties of turns.
    Turns,
    /// Readings of the clock.
    Readings,
}

fn are_digits(word: &[u8]) -> bool {
    word.iter().all(|byte| byte.is_ascii_digit())
}

// Whether digits without a 0 in front are more than the greatest reading.
fn is_large(digits: &[u8]) -> bool {
    if digits.len() == GREATEST_READING.len() {
        digits > GREATEST_READING
    } else {
        digits.len() > GREATEST_READING.len()
    }
}

// What is wrong in a word that is to be a number.
fn word_fault(word: &[u8]) -> Option<&'static str> {
    if !are_digits(word) {
        Some(NO_NUMBER)
    } else if word.len() > 1 && word.starts_with(b"0") {
        Some(FIRST_ZERO)
    } else {
        None
    }
}

// What is wrong in a word that is to be such a number.
fn number_fault(word: &[u8], numbers: HeadingNumbers) -> Option<&'static str> {
    match word_fault(word) {
        Some(wanted) => Some(wanted),
        None if numbers == HeadingNumbers::Readings && is_large(word) => Some(LARGE_READING),
        None => None,
    }
}

// What is wrong in a word behind which another stands.
fn inner_fault(word: &[u8], numbers: HeadingNumbers) -> Option<&'static str> {
    if word.is_empty() {
        Some(TWO_BLANKS)
    } else {
        number_fault(word, numbers)
    }
}

// What is wrong in the last word.
fn last_fault(word: &[u8], numbers: HeadingNumbers) -> &'static str {
    if word.is_empty() {
        LAST_BLANK
    } else {
        number_fault(word, numbers).unwrap_or(OTHER)
    }
}

/// What is wrong in a heading of numbers, where the first of them is to stand behind so many bytes.
pub fn numbers_finding(line: &[u8], begin: usize, numbers: HeadingNumbers) -> Finding
    ensures { result.at ≤ length line.now }
{
    if line.len() <= begin {
        return Finding::new(line.len(), NOTHING);
    }
    let mut rest = &line[begin..];
    while let Some((word, after)) = cut_word(rest) {
        if let Some(wanted) = inner_fault(word, numbers) {
            return Finding::new(line.len() - rest.len(), wanted);
        }
        rest = after;
    }
    Finding::new(line.len() - rest.len(), last_fault(rest, numbers))
}

/// What is wrong in the heading of a user.
pub fn user_finding(line: &[u8]) -> Finding
    ensures { result.at ≤ length line.now }
{
    if line.len() <= BEGIN {
        return Finding::new(line.len(), NOTHING);
    }
    let text = &line[BEGIN..];
    let word = first_word(text);
    if word.is_empty() {
        Finding::new(BEGIN, TWO_BLANKS)
    } else if word.len() < text.len() {
        Finding::new(BEGIN + word.len(), ONE_NUMBER)
    } else {
        Finding::new(BEGIN, word_fault(word).unwrap_or(USER_RANGE))
    }
}
