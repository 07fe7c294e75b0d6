ghost use Rattle.std.specs.Prelude.{◌≡◌, ◌+◌, ◌<◌, ◌≤◌, IfOk, length};

use crate::scalar::first_char;
use apl_arrays::glyph_at;
use std::alloc::AllocError;

/// The most bytes of a line that are shown in front of its mark, and behind it.
const FRONT: usize = 96;

const BEHIND: usize = 48;

/// The most bytes of a character behind its first.
const GLYPH_REST: usize = 3;

// Whether a byte goes on with a character that began before it.
fn goes_on(byte: u8) -> bool {
    byte & 0xC0 == 0x80
}

// The place from which on a line is shown that is marked at a place.
fn begin_of(line: &[u8], at: usize) -> usize
    requires { at ≤ length line.now }
    ensures within { result ≤ at }
    ensures few { at ≤ result + 96 }
{
    let mut begin = at.saturating_sub(FRONT);
    for _ in 0..GLYPH_REST {
        if begin < at && goes_on(line[begin]) {
            begin += 1;
        }
    }
    begin
}

// The place up to which a line is shown that is marked at a place.
fn end_of(line: &[u8], at: usize) -> usize
    requires { at ≤ length line.now }
    ensures behind { at ≤ result }
    ensures within { result ≤ length line.now }
    ensures few { result ≤ at + 48 }
{
    if line.len() - at <= BEHIND {
        return line.len();
    }
    let mut end = at + BEHIND;
    for _ in 0..GLYPH_REST {
        if end > at && goes_on(line[end]) {
            end -= 1;
        }
    }
    end
}

// Adds what stands in front of bytes: a glyph as it is, another character by its number, and a byte that begins none by its
// own. It says how many bytes that is.
fn add_first(text: &mut String, bytes: &[u8]) -> Result<usize, AllocError>
    requires { 0 < length bytes.now }
    ensures some { IfOk result (λ taken. 0 < taken) }
    ensures within { IfOk result (λ taken. taken ≤ length bytes.now) }
{
    match first_char(bytes) {
        Some((character, taken)) => {
            add_char(text, character, glyph_at(bytes).is_some())?;
            Ok(taken)
        }
        None => {
            let byte = bytes[0];
            write!(text, "<{byte:02X}>")?;
            Ok(1)
        }
    }
}

// Adds a character, by its number where it is no glyph.
fn add_char(text: &mut String, character: char, is_glyph: bool) -> Result<(), AllocError> {
    if is_glyph {
        text.push(character)
    } else {
        let code = u32::from(character);
        write!(text, "<U+{code:04X}>")
    }
}

// Adds bytes of a line, so that each of them is seen.
fn add_shown(text: &mut String, bytes: &[u8]) -> Result<(), AllocError> {
    let mut rest = bytes;
    while !rest.is_empty() {
        let taken = add_first(text, rest)?;
        rest = &rest[taken..];
    }
    Ok(())
}

fn add_blanks(text: &mut String, count: usize) -> Result<(), AllocError> {
    for _ in 0..count {
        text.push(' ')?;
    }
    Ok(())
}

/// Adds two lines: a number and a line of a bundle, of which no more is shown than what stands near the place, and a mark
/// below that place. It takes memory for the text.
pub fn add_marked(text: &mut String, number: u64, line: &[u8], at: usize) -> Result<(), AllocError>
    requires { at ≤ length line.now }
{
    let begin = begin_of(line, at);
    let end = end_of(line, at);
    write!(text, "line {number}: ")?;
    if begin > 0 {
        text.push_str("..")?;
    }
    add_shown(text, &line[begin..at])?;
    let column = text.as_str().chars().count();
    add_shown(text, &line[at..end])?;
    text.push_str(if end < line.len() { "..\n" } else { "\n" })?;
    add_blanks(text, column)?;
    text.push_str("^\n")
}
