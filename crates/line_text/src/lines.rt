ghost use Rattle.std.specs.Prelude.{◌≡◌, ◌<◌, ◌^◌, All, ◌∷◌, ◌++◌, ℕ, List as ListOf, OnOk, IsTrue, MatchOption, map, OnErr};
ghost use Rattle.std.specs.List.{list_all};
ghost use Rattle.apl_arrays.specs.Front.{KeepsFront};
ghost use Rattle.apl_arrays.specs.Glyph.{IsGlyph};
ghost use Rattle.apl_arrays.specs.List.{glyphs_in};
ghost use Rattle.line_text.specs.Lines.{heading, content, user_lines, line_feed, line_text, lines_text, HasNoFeed};
ghost use Rattle.line_text.specs.Spaced.{is_plain};

use crate::number::add_count;
use crate::text::add_text;
use apl_arrays::{Line, List, WantOfMemory, add_utf8};
use std::alloc::Global;

/// Adds a line in UTF-8, and its line feed. It takes memory for the bytes; where that runs out, a part of the line may
/// stand there.
pub fn add_line(bytes: &mut Vec<u8>, line: &Line) -> Result<(), WantOfMemory>
    ensures text { OnOk result (bytes.new.items ≡ bytes.old.items ++ line_text line.now.items) }
    ensures front { OnErr result (KeepsFront bytes.old.items bytes.new.items) }
    ensures printable { OnOk result (All IsGlyph line.now.items) }
{
    add_utf8(bytes, line.as_slice())?;
    bytes.push(b'\n')?;
    Ok(())
}

/// Adds a line that is printable ASCII. It takes memory for the bytes; where that runs out, a part of the line may
/// stand there.
pub fn add_word(alloc: Global, bytes: &mut Vec<u8>, word: &str) -> Result<(), WantOfMemory>
    requires { IsTrue (list_all is_plain word.now) }
    ensures text { OnOk result (bytes.new.items ≡ bytes.old.items ++ line_text word.now) }
    ensures front { OnErr result (KeepsFront bytes.old.items bytes.new.items) }
{
    let mut line = List::new(alloc);
    add_text(&mut line, word)?;
    add_line(bytes, &line)
}

/// Adds the heading of a user's lines. It takes memory for the bytes; where that runs out, a part of the line may stand
/// there.
pub fn add_heading(alloc: Global, bytes: &mut Vec<u8>, number: u32) -> Result<(), WantOfMemory>
    ensures text { OnOk result (bytes.new.items ≡ bytes.old.items ++ line_text (heading number)) }
    ensures front { OnErr result (KeepsFront bytes.old.items bytes.new.items) }
    ensures printable { number < 2 ^ 64 }
{
    let mut line = List::new(alloc);
    add_text(&mut line, "user ")?;
    add_count(&mut line, u64::from(number))?;
    add_line(bytes, &line)
}

/// Adds a line of a user, behind a bar. It takes memory for the bytes; where that runs out, a part of the line may
/// stand there.
pub fn add_content(bytes: &mut Vec<u8>, line: &Line) -> Result<(), WantOfMemory>
    ensures text { OnOk result (bytes.new.items
        ≡ bytes.old.items ++ line_text (content line.now.items)) }
    ensures front { OnErr result (KeepsFront bytes.old.items bytes.new.items) }
    ensures printable { OnOk result (All IsGlyph line.now.items) }
{
    bytes.push(b'|')?;
    add_line(bytes, line)
}

/// Adds lines of a user, each behind a bar. It takes memory for the bytes; where that runs out, a part of the lines may
/// stand there.
pub fn add_contents(bytes: &mut Vec<u8>, lines: &[Line]) -> Result<(), WantOfMemory>
    ensures text { OnOk result (bytes.new.items
        ≡ bytes.old.items ++ lines_text (map content (map glyphs_in lines.now))) }
    ensures front { OnErr result (KeepsFront bytes.old.items bytes.new.items) }
    ensures printable { OnOk result (All (λ line. All IsGlyph line) (map glyphs_in lines.now)) }
{
    for line in lines {
        add_content(bytes, line)?;
    }
    Ok(())
}

/// Adds a user's heading and lines. It takes memory for the bytes; where that runs out, a part of the lines may stand
/// there.
pub fn add_user_lines(
    alloc: Global,
    bytes: &mut Vec<u8>,
    number: u32,
    lines: &[Line],
) -> Result<(), WantOfMemory>
    ensures text { OnOk result (bytes.new.items
        ≡ bytes.old.items ++ lines_text (user_lines number (map glyphs_in lines.now))) }
    ensures front { OnErr result (KeepsFront bytes.old.items bytes.new.items) }
    ensures number { number < 2 ^ 64 }
    ensures printable { OnOk result (All (λ line. All IsGlyph line) (map glyphs_in lines.now)) }
{
    add_heading(alloc, bytes, number)?;
    add_contents(bytes, lines)
}

/// The first line, up to its line feed, and what comes after that; or `None` where no line feed stands.
#[tactic(auto, using(crate::proofs::Cuts::no_feed_found, crate::proofs::Cuts::feed_found))]
pub fn first_line(bytes: &[u8]) -> Option<(&[u8], &[u8])>
    ensures { MatchOption result (HasNoFeed bytes.now)
        (λ found. (bytes.now ≡ found.0.now ++ line_feed ∷ found.1.now) × HasNoFeed found.0.now) }
{
    let place = bytes.iter().position(|byte| *byte == b'\n')?;
    Some((&bytes[..place], &bytes[place + 1..]))
}

/// The bytes of lines of glyphs tell the lines. The call does nothing.
pub fn a_text_tells_its_lines()
    ensures { (lines others : ListOf (ListOf ℕ)) → All (λ line. All IsGlyph line) lines → All (λ line. All IsGlyph line) others
        → lines_text lines ≡ lines_text others → lines ≡ others }
{}
