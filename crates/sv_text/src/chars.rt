ghost use Rattle.std.specs.Prelude.{◌≡◌, IfOk, length};
ghost use Rattle.text_reader.specs.Reading.{Gives, always, read_list};
ghost use Rattle.sv_text.specs.ValueReading.{behind_char, read_char, read_quoted};

use apl_arrays::{Glyph, Line, List};
use std::alloc::Global;
use text_reader::{Cursor, Unread};

/// Reads so many characters between quotes; a quote among them is written twice. It takes memory for them.
#[tactic(auto, unfolding(crate::specs::ValueReading::read_quoted))]
pub(crate) fn read_quoted(
    alloc: Global,
    cursor: &mut Cursor<'_>,
    count: usize,
) -> Result<Line, Unread>
    ensures value { Gives (λ chars. (chars.items, cursor.new)) result (read_quoted count cursor.old) }
    ensures count { IfOk result (λ chars. length chars.items ≡ count) }
{
    cursor.text(b"'")?;
    let chars = read_chars(alloc, cursor, count)?;
    cursor.text(b"'")?;
    Ok(chars)
}

// Reads so many characters as they stand between quotes.
fn read_chars(alloc: Global, cursor: &mut Cursor<'_>, count: usize) -> Result<Line, Unread>
    ensures value { Gives (λ chars. (chars.items, cursor.new)) result (read_list always read_char count cursor.old) }
    ensures count { IfOk result (λ chars. length chars.items ≡ count) }
{
    let mut chars = List::new(alloc);
    for _ in 0..count {
        let char = read_char(cursor)?;
        chars.push(char)?;
    }
    Ok(chars)
}

// Reads a character as it stands between quotes.
#[tactic(auto, unfolding(crate::specs::ValueReading::read_char))]
fn read_char(cursor: &mut Cursor<'_>) -> Result<Glyph, Unread>
    ensures { Gives (λ char. (char, cursor.new)) result (read_char cursor.old) }
{
    match cursor.first() {
        None => Err(cursor.stops()),
        Some(char) => {
            cursor.skip();
            read_second(cursor, char)
        }
    }
}

// Reads the second quote where a character is a quote.
fn read_second(cursor: &mut Cursor<'_>, char: Glyph) -> Result<Glyph, Unread>
    ensures { Gives (λ char. (char, cursor.new)) result (behind_char char cursor.old) }
{
    if char == Glyph::QUOTE {
        cursor.text(b"'")?;
        Ok(char)
    } else {
        Ok(char)
    }
}
