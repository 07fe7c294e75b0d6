ghost use Rattle.std.specs.Prelude.{◌≡◌, ◌+◌, ◌<◌, ◌≤◌, IfSome, MatchOption, length};

use line_text::first_line;

/// What a line of a bundle begins with.
#[derive(Clone, Copy, Debug, PartialEq, Eq)]
pub enum LineSort {
    /// A bar: it is a line of input.
    Input,
    /// The word of the heading of a user.
    User,
    /// The word of the heading of turns.
    Order,
    /// The word of the heading of a file.
    File,
    /// The word of the heading of readings.
    Clock,
    /// The word of the end.
    End,
    /// Something else.
    Other,
}

/// The text up to the first blank, and what stands behind that blank; or `None` where there is no blank.
pub fn cut_word(text: &[u8]) -> Option<(&[u8], &[u8])>
    ensures { IfSome result (λ found. length found.0.now + 1 + length found.1.now ≡ length text.now) }
{
    let place = text.iter().position(|byte| *byte == b' ')?;
    Some((&text[..place], &text[place + 1..]))
}

/// The text up to the first blank, or all of it.
pub fn first_word(text: &[u8]) -> &[u8]
    ensures { length result.now ≤ length text.now }
{
    match cut_word(text) {
        Some((word, _)) => word,
        None => text,
    }
}

/// What a line begins with.
pub fn sort_of(line: &[u8]) -> LineSort {
    if line.starts_with(b"|") {
        return LineSort::Input;
    }
    match first_word(line) {
        b"user" => LineSort::User,
        b"order" => LineSort::Order,
        b"file" => LineSort::File,
        b"clock" => LineSort::Clock,
        b"end" => LineSort::End,
        _ => LineSort::Other,
    }
}

/// What the last of these lines begins with that is no line of input, or `None` where all are.
pub fn last_sort(lines: &[u8]) -> Option<LineSort> {
    let mut last = None;
    let mut rest = lines;
    while let Some((line, after)) = first_line(rest) {
        last = newer_sort(last, sort_of(line));
        rest = after;
    }
    last
}

// What the last line that is no line of input begins with, once one more is read.
fn newer_sort(last: Option<LineSort>, sort: LineSort) -> Option<LineSort> {
    if sort == LineSort::Input {
        last
    } else {
        Some(sort)
    }
}
