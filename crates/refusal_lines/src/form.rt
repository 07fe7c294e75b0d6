ghost use Rattle.std.specs.Prelude.{◌≡◌, ◌≤◌, length};

use crate::finding::Finding;
use crate::heading::{LineSort, first_word, sort_of};
use crate::number::{HeadingNumbers, numbers_finding, user_finding};
use apl_arrays::FILE_NAME_LIMIT;

const EMPTY: &str =
    "an empty line is no line of a bundle: one of input is written as a bar, |, and nothing";

const BLANKS: &str = "blanks are no line of a bundle: a line of input has a bar, |, in front";

const BLANK_IN_FRONT: &str =
    "no blank stands in front of a heading, nor in front of the bar of a line of input";

const SMALL_LETTERS: &str = "the words of headings have small letters alone";

const NO_WORD: &str =
    "a heading begins with user, order, file, clock or end, and a line of input with a bar, |";

const BEHIND_END: &str = "nothing stands behind the word end";

const NO_NAME: &str = "a blank and the name of a file are wanted behind this word";

const DOT: &str = "the name of a file has no dot in front";

const NAME_GLYPH: &str = "the name of a file has letters and digits of ASCII, _, . and - alone";

const LONG_NAME: &str = "the name of a file has 32 characters at most";

const OTHER: &str = "this line is neither a heading nor a line of input";

// How many bytes stand in front of the name in the heading of a file.
const BEGIN: usize = 5;

// Whether a word is that of a heading but for capitals.
fn has_capitals(word: &[u8]) -> bool {
    word.eq_ignore_ascii_case(b"user")
        || word.eq_ignore_ascii_case(b"order")
        || word.eq_ignore_ascii_case(b"file")
        || word.eq_ignore_ascii_case(b"clock")
        || word.eq_ignore_ascii_case(b"end")
}

fn is_name_byte(byte: u8) -> bool {
    byte.is_ascii_alphanumeric() || matches!(byte, b'_' | b'.' | b'-')
}

// How many bytes of a name may stand there.
fn name_length(name: &[u8]) -> usize
    ensures { result ≤ length name.now }
{
    match name.iter().position(|byte| !is_name_byte(*byte)) {
        Some(place) => place,
        None => name.len(),
    }
}

// What is wrong in the heading of a file.
fn file_finding(line: &[u8]) -> Finding
    ensures { result.at ≤ length line.now }
{
    if line.len() <= BEGIN {
        return Finding::new(line.len(), NO_NAME);
    }
    let name = &line[BEGIN..];
    let length = name_length(name);
    if name.starts_with(b".") {
        Finding::new(BEGIN, DOT)
    } else if length < name.len() {
        Finding::new(BEGIN + length, NAME_GLYPH)
    } else if length > FILE_NAME_LIMIT {
        Finding::new(BEGIN + FILE_NAME_LIMIT, LONG_NAME)
    } else {
        Finding::new(0, OTHER)
    }
}

// What is wrong in a line that begins with no word of a heading.
fn word_finding(line: &[u8]) -> Finding
    ensures { result.at ≤ length line.now }
{
    let wanted = if line.is_empty() {
        EMPTY
    } else if line.iter().all(|byte| *byte == b' ') {
        BLANKS
    } else if line.starts_with(b" ") {
        BLANK_IN_FRONT
    } else if has_capitals(first_word(line)) {
        SMALL_LETTERS
    } else {
        NO_WORD
    };
    Finding::new(0, wanted)
}

/// What is wrong in a line that is neither a heading nor a line of input.
pub fn form_finding(line: &[u8]) -> Finding
    ensures { result.at ≤ length line.now }
{
    match sort_of(line) {
        LineSort::User => user_finding(line),
        LineSort::Order => numbers_finding(line, 6, HeadingNumbers::Turns),
        LineSort::File => file_finding(line),
        LineSort::Clock => numbers_finding(line, 6, HeadingNumbers::Readings),
        LineSort::End => Finding::new(line.len().min(3), BEHIND_END),
        LineSort::Input => Finding::new(0, OTHER),
        LineSort::Other => word_finding(line),
    }
}
