ghost use Rattle.std.specs.Prelude.{◌≡◌, ◌*◌, ◌∷◌, [], ◌++◌, IfOk, OnOk, IsTrue, codes, length};
ghost use Rattle.std.specs.List.{list_all};
ghost use Rattle.line_text.specs.Spaced.{is_plain};
ghost use Rattle.apl_arrays.specs.Glyph.{greater};
ghost use Rattle.run_picture.specs.Escape.{escaped};
ghost use Rattle.run_picture.specs.Figure.{bar_at, mark_at, stroke, style, words, words_up_to};
ghost use Rattle.run_picture.specs.Tag.{attribute_text, finish_text, front_text, markup, size_of, tag_text, word_of};

use crate::tag::{add_escaped, add_finish, add_front, add_size_of, add_word_of};
use apl_arrays::{Glyph, Line, List, WantOfMemory};
use line_text::{add_line, add_text};
use std::alloc::Global;

/// A point of the page.
#[derive(Clone, Copy, Debug)]
pub(crate) struct Point {
    pub x: u64,
    pub y: u64,
}

/// The pixels of a glyph.
const ADVANCE: u64 = 7;

// Adds the front of a figure: its name and how it is drawn.
fn begin_figure(line: &mut Line, name: &str, style_name: &str) -> Result<(), WantOfMemory>
    requires name { IsTrue (list_all is_plain name.now) }
    requires style_name { IsTrue (list_all is_plain style_name.now) }
    ensures { OnOk result (line.new.items ≡ line.old.items ++ front_text name.now (style style_name.now ∷ [])) }
{
    add_front(line, name)?;
    add_word_of(line, "class", style_name)
}

// Adds the attributes of a point.
fn add_point(line: &mut Line, at: Point) -> Result<(), WantOfMemory>
    ensures { OnOk result (line.new.items ≡ line.old.items ++ (attribute_text (size_of (codes "x") at.x) ++ attribute_text (size_of (codes "y") at.y))) }
{
    add_size_of(line, "x", at.x)?;
    add_size_of(line, "y", at.y)
}

// Adds the text of words, and what finishes them.
fn finish_words(line: &mut Line, text: &[Glyph]) -> Result<(), WantOfMemory>
    ensures { OnOk result (line.new.items ≡ line.old.items ++ (greater ∷ (escaped text.now ++ finish_text (codes "text")))) }
{
    line.push(Glyph::GREATER)?;
    add_escaped(line, text)?;
    add_finish(line, "text")
}

// The width of words, of 7 pixels a glyph.
fn width_of(text: &[Glyph]) -> Result<u64, WantOfMemory>
    ensures { IfOk result (λ width. width ≡ 7 * length text.now) }
{
    match ADVANCE.checked_mul(text.len() as u64) {
        Some(width) => Ok(width),
        None => Err(WantOfMemory),
    }
}

// The line of words from a point on.
fn words_line(
    alloc: Global,
    style_name: &str,
    at: Point,
    text: &[Glyph],
) -> Result<Line, WantOfMemory>
    requires { IsTrue (list_all is_plain style_name.now) }
    ensures { IfOk result (λ line. line.items ≡ tag_text (words style_name.now at.x at.y text.now)) }
{
    let mut line = List::new(alloc);
    begin_figure(&mut line, "text", style_name)?;
    add_point(&mut line, at)?;
    let width = width_of(text)?;
    add_size_of(&mut line, "textLength", width)?;
    finish_words(&mut line, text)?;
    Ok(line)
}

/// Adds words from a point on. It takes memory for the line, and refuses words whose width has more than 64 bits.
pub(crate) fn add_words(
    alloc: Global,
    bytes: &mut Vec<u8>,
    style_name: &str,
    at: Point,
    text: &[Glyph],
) -> Result<(), WantOfMemory>
    requires { IsTrue (list_all is_plain style_name.now) }
    ensures { OnOk result (bytes.new.items ≡ bytes.old.items ++ markup (words style_name.now at.x at.y text.now ∷ [])) }
{
    let line = words_line(alloc, style_name, at, text)?;
    add_line(bytes, &line)
}

// The line of words up to a point.
fn words_up_to_line(
    alloc: Global,
    style_name: &str,
    at: Point,
    text: &[Glyph],
) -> Result<Line, WantOfMemory>
    requires { IsTrue (list_all is_plain style_name.now) }
    ensures { IfOk result (λ line. line.items ≡ tag_text (words_up_to style_name.now at.x at.y text.now)) }
{
    let mut line = List::new(alloc);
    begin_figure(&mut line, "text", style_name)?;
    add_point(&mut line, at)?;
    finish_words(&mut line, text)?;
    Ok(line)
}

/// Adds words up to a point. It takes memory for the line.
pub(crate) fn add_words_up_to(
    alloc: Global,
    bytes: &mut Vec<u8>,
    style_name: &str,
    at: Point,
    text: &[Glyph],
) -> Result<(), WantOfMemory>
    requires { IsTrue (list_all is_plain style_name.now) }
    ensures { OnOk result (bytes.new.items ≡ bytes.old.items ++ markup (words_up_to style_name.now at.x at.y text.now ∷ [])) }
{
    let line = words_up_to_line(alloc, style_name, at, text)?;
    add_line(bytes, &line)
}

// The line of a line from one point to another.
fn stroke_line(
    alloc: Global,
    style_name: &str,
    from: Point,
    to: Point,
) -> Result<Line, WantOfMemory>
    requires { IsTrue (list_all is_plain style_name.now) }
    ensures { IfOk result (λ line. line.items ≡ tag_text (stroke style_name.now from.x from.y to.x to.y)) }
{
    let mut line = List::new(alloc);
    begin_figure(&mut line, "line", style_name)?;
    add_size_of(&mut line, "x1", from.x)?;
    add_size_of(&mut line, "y1", from.y)?;
    add_size_of(&mut line, "x2", to.x)?;
    add_size_of(&mut line, "y2", to.y)?;
    add_text(&mut line, "/>")?;
    Ok(line)
}

/// Adds a line from one point to another. It takes memory for the line.
pub(crate) fn add_stroke(
    alloc: Global,
    bytes: &mut Vec<u8>,
    style_name: &str,
    from: Point,
    to: Point,
) -> Result<(), WantOfMemory>
    requires { IsTrue (list_all is_plain style_name.now) }
    ensures { OnOk result (bytes.new.items ≡ bytes.old.items ++ markup (stroke style_name.now from.x from.y to.x to.y ∷ [])) }
{
    let line = stroke_line(alloc, style_name, from, to)?;
    add_line(bytes, &line)
}

// The line of a bar of a hold.
fn bar_line(alloc: Global, at: Point, height: u64) -> Result<Line, WantOfMemory>
    ensures { IfOk result (λ line. line.items ≡ tag_text (bar_at (codes "hold") at.x at.y 14 height)) }
{
    let mut line = List::new(alloc);
    begin_figure(&mut line, "rect", "hold")?;
    add_point(&mut line, at)?;
    add_size_of(&mut line, "width", 14)?;
    add_size_of(&mut line, "height", height)?;
    add_text(&mut line, "/>")?;
    Ok(line)
}

/// Adds a bar of a hold, of 14 pixels, from its upper left corner. It takes memory for the line.
pub(crate) fn add_bar(
    alloc: Global,
    bytes: &mut Vec<u8>,
    at: Point,
    height: u64,
) -> Result<(), WantOfMemory>
    ensures { OnOk result (bytes.new.items ≡ bytes.old.items ++ markup (bar_at (codes "hold") at.x at.y 14 height ∷ [])) }
{
    let line = bar_line(alloc, at, height)?;
    add_line(bytes, &line)
}

// Adds which mark is drawn.
fn add_reference(line: &mut Line, mark: &str) -> Result<(), WantOfMemory>
    requires { IsTrue (list_all is_plain mark.now) }
    ensures { OnOk result (line.new.items ≡ line.old.items ++ attribute_text (word_of (codes "href") (codes "#" ++ mark.now))) }
{
    add_text(line, " href=\"#")?;
    add_text(line, mark)?;
    add_text(line, "\"")
}

// The line of a mark at a point.
fn mark_line(alloc: Global, style_name: &str, mark: &str, at: Point) -> Result<Line, WantOfMemory>
    requires style { IsTrue (list_all is_plain style_name.now) }
    requires mark { IsTrue (list_all is_plain mark.now) }
    ensures { IfOk result (λ line. line.items ≡ tag_text (mark_at style_name.now mark.now at.x at.y)) }
{
    let mut line = List::new(alloc);
    begin_figure(&mut line, "use", style_name)?;
    add_reference(&mut line, mark)?;
    add_point(&mut line, at)?;
    add_text(&mut line, "/>")?;
    Ok(line)
}

/// Adds a mark at a point. It takes memory for the line.
pub(crate) fn add_mark(
    alloc: Global,
    bytes: &mut Vec<u8>,
    style_name: &str,
    mark: &str,
    at: Point,
) -> Result<(), WantOfMemory>
    requires style { IsTrue (list_all is_plain style_name.now) }
    requires mark { IsTrue (list_all is_plain mark.now) }
    ensures { OnOk result (bytes.new.items ≡ bytes.old.items ++ markup (mark_at style_name.now mark.now at.x at.y ∷ [])) }
{
    let line = mark_line(alloc, style_name, mark, at)?;
    add_line(bytes, &line)
}
