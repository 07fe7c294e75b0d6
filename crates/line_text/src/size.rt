ghost use Rattle.std.specs.Prelude.{◌≡◌, ◌+◌, ◌*◌, ◌<◌, ◌≤◌, ◌^◌, ◌==◌, ◌||◌, length};
ghost use Rattle.apl_arrays.specs.Glyph.{glyph_utf8, times, divide, overbar};
ghost use Rattle.line_text.specs.Lines.{heading, line_text};

use crate::number::digit_count;
use apl_arrays::Glyph;

// Whether a glyph that is no ASCII takes two bytes in UTF-8, and not three.
fn takes_two(glyph: Glyph) -> bool
    ensures { result ≡ (glyph == times || glyph == divide || glyph == overbar) }
{
    glyph == Glyph::TIMES || glyph == Glyph::DIVIDE || glyph == Glyph::OVERBAR
}

// How many bytes a glyph takes in UTF-8.
fn glyph_size(glyph: Glyph) -> u64
    ensures value { result ≡ length (glyph_utf8 glyph) }
    ensures small { result ≤ 3 }
{
    if glyph.code() < 0x80 {
        1
    } else if takes_two(glyph) {
        2
    } else {
        3
    }
}

/// How many bytes a line takes, with its line feed.
pub fn line_size(line: &[Glyph]) -> u64
    requires { length line.now < 2 ^ 60 }
    ensures value { result ≡ length (line_text line.now) }
    ensures small { result ≤ 3 * length line.now + 1 }
{
    let mut size = 1;
    for glyph in line {
        size += glyph_size(*glyph);
    }
    size
}

/// How many bytes the heading of a user's lines takes, with its line feed.
#[tactic(auto, using(crate::proofs::Sizes::heading_size))]
pub fn heading_size(number: u32) -> u64
    ensures value { result ≡ length (line_text (heading number)) }
    ensures small { result ≤ 26 }
{
    6 + digit_count(u64::from(number)) as u64
}
