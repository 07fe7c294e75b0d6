ghost use Rattle.std.specs.Prelude.{◌≡◌, ◌≤◌, ◌+◌, [], ℕ, All, Some, IfOk, IfSome, length};
ghost use Rattle.apl_arrays.specs.Limits.{most_line_glyphs};
ghost use Rattle.apl_workspace.specs.Function.{IsFunction, function_weight, lines_weight};
ghost use Rattle.apl_workspace.specs.Header.{header_of};
ghost use Rattle.apl_workspace.specs.Limits.{most_function_lines, most_weight};
ghost use Rattle.ws_codec.specs.Functions.{read_function, glyph_count, read_header, header_named, is_within, read_line, read_lines, read_next_line};
ghost use Rattle.ws_codec.specs.Reading.{Gives, read_more, repeated};

use crate::cursor::Cursor;
use crate::saved::SavedRule;
use crate::unread::{Unread, keeps, known};
use apl_arrays::{LINE_GLYPH_LIMIT, Line, LineList, Name, WantOfMemory};
use apl_workspace::{FUNCTION_LINE_LIMIT, Function, Header, WEIGHT_LIMIT};
use std::alloc::Global;

/// Reads a function of this name behind objects of this weight. It takes memory for the function.
#[tactic(auto, unfolding(crate::specs::Functions::read_function))]
pub fn read_function(
    alloc: Global,
    name: &Name,
    weight: usize,
    cursor: &mut Cursor<'_>,
) -> Result<Function, Unread>
    requires { weight ≤ most_weight }
    ensures value { Gives (λ function. (function, cursor.new)) result (read_function name.now weight cursor.old) }
    ensures whole { IfOk result (λ function. IsFunction function) }
    ensures name { IfOk result (λ function. function.header.name ≡ name.now) }
    ensures light { IfOk result (λ function. weight + function_weight function ≤ most_weight) }
{
    let (text, header) = read_header(alloc, name, weight + 1, cursor)?;
    let before = weight + 1 + text.as_slice().len();
    let lines = read_lines(alloc, before, cursor)?;
    Ok(Function::from_parts(alloc, text, header, lines)?)
}

/// Reads a header of this name, as it was entered and what it is, behind what weighs so much.
#[tactic(auto, unfolding(crate::specs::Functions::read_header))]
fn read_header(
    alloc: Global,
    name: &Name,
    weight: usize,
    cursor: &mut Cursor<'_>,
) -> Result<(Line, Header), Unread>
    requires { weight ≤ most_weight + 1 }
    ensures value { Gives (λ found. ((found.0.items, found.1), cursor.new)) result (read_header name.now weight cursor.old) }
    ensures header { IfOk result (λ found. header_of found.0.items ≡ Some found.1) }
    ensures name { IfOk result (λ found. found.1.name ≡ name.now) }
    ensures short { IfOk result (λ found. length found.0.items ≤ most_line_glyphs) }
    ensures light { IfOk result (λ found. weight + length found.0.items ≤ most_weight) }
{
    let left = cursor.left();
    let text = read_line(alloc, weight, cursor)?;
    let found = header_named(alloc, name, &text)?;
    let header = known(found, SavedRule::Header, left)?;
    Ok((text, header))
}

/// The header that a line is, where it is one of this name.
fn header_named(alloc: Global, name: &Name, text: &Line) -> Result<Option<Header>, WantOfMemory>
    ensures value { IfOk result (λ header. header ≡ header_named name.now (header_of text.now.items)) }
    ensures header { IfOk result (λ found. IfSome found (λ header. header_of text.now.items ≡ Some header)) }
    ensures name { IfOk result (λ found. IfSome found (λ header. header.name ≡ name.now)) }
{
    match Header::read(alloc, text)? {
        None => Ok(None),
        Some(header) => Ok(with_name(name, header)),
    }
}

/// The header, where it is one of this name.
#[tactic(auto, using(apl_workspace::proofs::NameLaw::equal_names))]
fn with_name(name: &Name, header: Header) -> Option<Header>
    ensures value { result ≡ header_named name.now (Some header) }
    ensures same { IfSome result (λ found. found ≡ header) }
    ensures name { IfSome result (λ found. found.name ≡ name.now) }
{
    if header.name == *name {
        Some(header)
    } else {
        drop(header);
        None
    }
}

/// Whether there are at most so many, and with them the weight does not pass its limit.
fn is_within(most: usize, weight: usize, count: u16) -> bool
    requires { weight ≤ most_weight + 1 }
    ensures { result ≡ is_within most weight count }
{
    let count = count as usize;
    count <= most && weight + count <= WEIGHT_LIMIT
}

/// Reads a header or a line behind what weighs so much: its length and its codes.
#[tactic(auto, unfolding(crate::specs::Functions::read_line))]
fn read_line(alloc: Global, weight: usize, cursor: &mut Cursor<'_>) -> Result<Line, Unread>
    requires { weight ≤ most_weight + 1 }
    ensures value { Gives (λ line. (line.items, cursor.new)) result (read_line weight cursor.old) }
    ensures short { IfOk result (λ line. length line.items ≤ most_line_glyphs) }
    ensures light { IfOk result (λ line. weight + length line.items ≤ most_weight) }
{
    let left = cursor.left();
    let count = cursor.number16()?;
    let within = is_within(LINE_GLYPH_LIMIT, weight, count);
    keeps(within, SavedRule::Limit, left)?;
    let line = cursor.glyphs(alloc, count as usize)?;
    Ok(line)
}

/// Reads how many lines there are, behind what weighs so much, and the lines.
#[tactic(auto, unfolding(crate::specs::Functions::read_lines))]
fn read_lines(alloc: Global, weight: usize, cursor: &mut Cursor<'_>) -> Result<LineList, Unread>
    requires { weight ≤ most_weight }
    ensures value { Gives (λ lines. (lines.items, cursor.new)) result (read_lines weight cursor.old) }
    ensures few { IfOk result (λ lines. length lines.items ≤ most_function_lines) }
    ensures short { IfOk result (λ lines. All (λ line. length line ≤ most_line_glyphs) lines.items) }
    ensures light { IfOk result (λ lines. weight + lines_weight lines.items ≤ most_weight) }
{
    let left = cursor.left();
    let count = cursor.number16()?;
    let within = is_within(FUNCTION_LINE_LIMIT, weight, count);
    keeps(within, SavedRule::Limit, left)?;
    let lines = read_counted_lines(alloc, weight, count, cursor)?;
    Ok(lines)
}

/// Reads so many lines, behind what weighs so much without them.
#[tactic(auto, using(crate::proofs::Lines::lines_weigh))]
fn read_counted_lines(
    alloc: Global,
    weight: usize,
    count: u16,
    cursor: &mut Cursor<'_>,
) -> Result<LineList, Unread>
    requires { weight + count ≤ most_weight }
    ensures value { Gives (λ lines. (lines.items, cursor.new)) result (repeated (read_next_line (weight + count)) count [] cursor.old) }
    ensures count { IfOk result (λ lines. length lines.items ≡ count) }
    ensures short { IfOk result (λ lines. All (λ line. length line ≤ most_line_glyphs) lines.items) }
    ensures light { IfOk result (λ lines. weight + lines_weight lines.items ≤ most_weight) }
{
    let mut lines = LineList::new(alloc);
    let mut total = weight + count as usize;
    for _ in 0..count {
        let after = add_line(alloc, total, &mut lines, cursor)?;
        total = after;
    }
    Ok(lines)
}

/// Reads a line behind others, where all before its glyphs weighs so much, and tells what weighs all with them.
#[tactic(auto, using(crate::proofs::Lines::glyphs_push))]
fn add_line(
    alloc: Global,
    weight: usize,
    lines: &mut LineList,
    cursor: &mut Cursor<'_>,
) -> Result<usize, Unread>
    requires weight { weight ≤ most_weight }
    requires short { All (λ line. length line ≤ most_line_glyphs) lines.old.items }
    ensures value { Gives (λ _. (lines.new.items, cursor.new)) result (read_more lines.old.items (read_line weight cursor.old)) }
    ensures weight { IfOk result (λ total. total + glyph_count lines.old.items ≡ weight + glyph_count lines.new.items) }
    ensures within { IfOk result (λ total. total ≤ most_weight) }
    ensures one { IfOk result (λ _. length lines.new.items ≡ length lines.old.items + 1) }
    ensures short { IfOk result (λ _. All (λ line. length line ≤ most_line_glyphs) lines.new.items) }
{
    let line = read_line(alloc, weight, cursor)?;
    let total = weight + line.as_slice().len();
    lines.push(line)?;
    Ok(total)
}
