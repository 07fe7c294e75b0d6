ghost use Rattle.std.specs.Prelude.{◌≡◌, ◌<◌, ◌≤◌, IfSome, length};

use crate::finding::Finding;
use crate::heading::{LineSort, sort_of};
use apl_arrays::{LINE_GLYPH_LIMIT, glyph_at};

const LONG_LINE: &str = "a line has 1,000 glyphs at most, and this one is past them";

const LINES: &str = "a user has 10,000 lines at most";

const USERS: &str = "a bundle has 32 users at most";

const TURNS: &str = "an order has 100,000 turns at most, with those of the orders above";

const FILES: &str = "a bundle has 100 files at most";

const READINGS: &str = "a clock has 10,000 readings at most, with those of the clocks above";

const OTHER: &str = "with this line a limit is passed";

// The place of the glyph behind so many, if there is one.
fn glyph_behind(text: &[u8], count: usize) -> Option<usize>
    ensures { IfSome result (λ place. place < length text.now) }
{
    let mut rest = text;
    for _ in 0..count {
        let (_, taken) = glyph_at(rest)?;
        rest = &rest[taken..];
    }
    if rest.is_empty() {
        None
    } else {
        Some(text.len() - rest.len())
    }
}

// What is wrong in a line of input.
fn input_finding(line: &[u8]) -> Finding
    ensures { result.at ≤ length line.now }
{
    match glyph_behind(line, LINE_GLYPH_LIMIT + 1) {
        Some(place) => Finding::new(place, LONG_LINE),
        None => Finding::new(0, LINES),
    }
}

/// What is wrong in a line with which a limit is passed.
pub fn limit_finding(line: &[u8]) -> Finding
    ensures { result.at ≤ length line.now }
{
    match sort_of(line) {
        LineSort::Input => input_finding(line),
        LineSort::User => Finding::new(0, USERS),
        LineSort::Order => Finding::new(0, TURNS),
        LineSort::File => Finding::new(0, FILES),
        LineSort::Clock => Finding::new(0, READINGS),
        LineSort::End | LineSort::Other => Finding::new(0, OTHER),
    }
}
