ghost use Rattle.std.specs.Prelude.{◌≡◌, ◌<◌, ◌^◌, ◌∷◌, [], ◌++◌, IfOk, IsTrue, OnOk, codes};
ghost use Rattle.std.specs.List.{list_all};
ghost use Rattle.line_text.specs.Spaced.{is_plain};
ghost use Rattle.run_picture.specs.Figure.{stroke, words};
ghost use Rattle.run_picture.specs.Style.{cut_meaning, drawing, figure_meanings, line_ends, line_meanings, mark_meaning, mark_meanings, meaning, meanings, shapes, style_rules, wait_meaning};
ghost use Rattle.run_picture.specs.Tag.{markup, worded};

use crate::figure::{Point, add_bar, add_mark, add_stroke, add_words};
use apl_arrays::{Glyph, Line, List, WantOfMemory};
use line_text::{add_text, add_word};
use std::alloc::Global;

/// How things are drawn, in light and in dark.
const RULES: &str =
    "<style>svg{background:#fff;font:12px 'APL385 Unicode','APL386 Unicode','DejaVu Sans Mono',FreeMono,Menlo,Consolas,monospace}text{fill:#1a1a1a}.number,.note{fill:#666}.number{text-anchor:end}.lane{font-weight:bold}.rule{stroke:#000;stroke-opacity:.08}.way{stroke:#bbb}.hold{fill:#f0c36d;fill-opacity:.6;stroke:#b8860b}.offered{stroke:#777;stroke-dasharray:4 3;marker-end:url(#arrow)}.coupled{stroke:#0a7a3d;stroke-width:2;marker-start:url(#dot);marker-end:url(#dot)}.dot{fill:#0a7a3d}.arrow{fill:none;stroke:#777}use{stroke:#1a1a1a;stroke-width:1.5;fill:#fff}use.set{fill:#c2410c;stroke:#c2410c}use.use{fill:#1d4ed8;stroke:#1d4ed8}@media(prefers-color-scheme:dark){svg{background:#16181d}text{fill:#e6e6e6}.number,.note{fill:#9aa0a6}.rule{stroke:#fff;stroke-opacity:.1}.way{stroke:#4b5058}.hold{fill:#7a5a12;stroke:#d9a520}.offered,.arrow{stroke:#9aa0a6}.coupled{stroke:#4ade80}.dot{fill:#4ade80}use{stroke:#e6e6e6;fill:#16181d}use.set{fill:#fb923c;stroke:#fb923c}use.use{fill:#7aa2ff;stroke:#7aa2ff}}</style>";

// Adds the rules by which things are drawn.
fn add_rules(alloc: Global, bytes: &mut Vec<u8>) -> Result<(), WantOfMemory>
    ensures { OnOk result (bytes.new.items ≡ bytes.old.items ++ markup (worded (codes "style") [] style_rules ∷ [])) }
{
    add_word(alloc, bytes, RULES)
}

// Adds the ends of lines between lanes.
fn add_line_ends(alloc: Global, bytes: &mut Vec<u8>) -> Result<(), WantOfMemory>
    ensures { OnOk result (bytes.new.items ≡ bytes.old.items ++ markup line_ends) }
{
    add_word(
        alloc,
        bytes,
        "<marker id=\"arrow\" refX=\"8\" refY=\"4\" markerWidth=\"8\" markerHeight=\"8\" viewBox=\"0 0 8 8\" orient=\"auto\">",
    )?;
    add_word(alloc, bytes, "<path class=\"arrow\" d=\"M0,0L8,4L0,8\"/>")?;
    add_word(alloc, bytes, "</marker>")?;
    add_word(
        alloc,
        bytes,
        "<marker id=\"dot\" refX=\"4\" refY=\"4\" markerWidth=\"4\" markerHeight=\"4\" viewBox=\"0 0 8 8\" orient=\"auto\">",
    )?;
    add_word(
        alloc,
        bytes,
        "<circle class=\"dot\" cx=\"4\" cy=\"4\" r=\"4\"/>",
    )?;
    add_word(alloc, bytes, "</marker>")
}

// Adds the shapes of the marks.
fn add_shapes(alloc: Global, bytes: &mut Vec<u8>) -> Result<(), WantOfMemory>
    ensures { OnOk result (bytes.new.items ≡ bytes.old.items ++ markup shapes) }
{
    add_word(
        alloc,
        bytes,
        "<path id=\"offer\" d=\"M-5,0A5,5 0 1 0 5,0A5,5 0 1 0 -5,0Z\"/>",
    )?;
    add_word(
        alloc,
        bytes,
        "<path id=\"retract\" d=\"M-4,-4L4,4M4,-4L-4,4\"/>",
    )?;
    add_word(alloc, bytes, "<path id=\"control\" d=\"M-4,-4H4V4H-4Z\"/>")?;
    add_word(
        alloc,
        bytes,
        "<path id=\"question\" d=\"M-2,0A2,2 0 1 0 2,0A2,2 0 1 0 -2,0Z\"/>",
    )?;
    add_word(alloc, bytes, "<path id=\"set\" d=\"M-4,-5L5,0L-4,5Z\"/>")?;
    add_word(alloc, bytes, "<path id=\"use\" d=\"M4,-5L-5,0L4,5Z\"/>")?;
    add_word(alloc, bytes, "<path id=\"leave\" d=\"M-6,0H6\"/>")
}

/// Adds how things are drawn. It takes memory for the lines.
pub(crate) fn add_drawing(alloc: Global, bytes: &mut Vec<u8>) -> Result<(), WantOfMemory>
    ensures { OnOk result (bytes.new.items ≡ bytes.old.items ++ markup drawing) }
{
    add_rules(alloc, bytes)?;
    add_word(alloc, bytes, "<defs>")?;
    add_line_ends(alloc, bytes)?;
    add_shapes(alloc, bytes)?;
    add_word(alloc, bytes, "</defs>")
}

// The line of a text.
fn line_of(alloc: Global, text: &str) -> Result<Line, WantOfMemory>
    requires { IsTrue (list_all is_plain text.now) }
    ensures { IfOk result (λ line. line.items ≡ text.now) }
{
    let mut line = List::new(alloc);
    add_text(&mut line, text)?;
    Ok(line)
}

// The line of a text, of an arrow behind it, and of what the arrow goes to.
fn arrow_line(alloc: Global, front: &str, arrow: Glyph) -> Result<Line, WantOfMemory>
    requires { IsTrue (list_all is_plain front.now) }
    ensures { IfOk result (λ line. line.items ≡ front.now ++ arrow ∷ codes "the value") }
{
    let mut line = List::new(alloc);
    add_text(&mut line, front)?;
    line.push(arrow)?;
    add_text(&mut line, "the value")?;
    Ok(line)
}

// Adds a note at a point.
fn add_note(alloc: Global, bytes: &mut Vec<u8>, at: Point, text: &str) -> Result<(), WantOfMemory>
    requires { IsTrue (list_all is_plain text.now) }
    ensures { OnOk result (bytes.new.items ≡ bytes.old.items ++ markup (words (codes "note") at.x at.y text.now ∷ [])) }
{
    let line = line_of(alloc, text)?;
    add_words(alloc, bytes, "note", at, line.as_slice())
}

// Adds a line that says what a figure means.
fn add_meaning(alloc: Global, bytes: &mut Vec<u8>, y: u64, text: &str) -> Result<(), WantOfMemory>
    requires { IsTrue (list_all is_plain text.now) }
    ensures { OnOk result (bytes.new.items ≡ bytes.old.items ++ markup (meaning y text.now ∷ [])) }
{
    add_note(alloc, bytes, Point { x: 96, y }, text)
}

// Adds a mark, and a line that says what it means.
fn add_mark_meaning(
    alloc: Global,
    bytes: &mut Vec<u8>,
    mark: &str,
    text: &Line,
    y: u64,
) -> Result<(), WantOfMemory>
    requires mark { IsTrue (list_all is_plain mark.now) }
    requires y { y < 2 ^ 32 }
    ensures { OnOk result (bytes.new.items ≡ bytes.old.items ++ markup (mark_meaning mark.now text.now.items y)) }
{
    add_mark(alloc, bytes, mark, mark, Point { x: 76, y })?;
    let at = Point { x: 96, y: y + 4 };
    add_words(alloc, bytes, "note", at, text.as_slice())
}

// Adds a mark, and a text that says what it means.
fn add_mark_text(
    alloc: Global,
    bytes: &mut Vec<u8>,
    mark: &str,
    text: &str,
    y: u64,
) -> Result<(), WantOfMemory>
    requires mark { IsTrue (list_all is_plain mark.now) }
    requires text { IsTrue (list_all is_plain text.now) }
    requires y { y < 2 ^ 32 }
    ensures { OnOk result (bytes.new.items ≡ bytes.old.items ++ markup (mark_meaning mark.now text.now y)) }
{
    let line = line_of(alloc, text)?;
    add_mark_meaning(alloc, bytes, mark, &line, y)
}

// Adds a mark of an access, and a text that says what it means, with an arrow behind it.
fn add_access(
    alloc: Global,
    bytes: &mut Vec<u8>,
    mark: &str,
    front: &str,
    arrow: Glyph,
    y: u64,
) -> Result<(), WantOfMemory>
    requires mark { IsTrue (list_all is_plain mark.now) }
    requires front { IsTrue (list_all is_plain front.now) }
    requires y { y < 2 ^ 32 }
    ensures { OnOk result (bytes.new.items ≡ bytes.old.items ++ markup (mark_meaning mark.now (front.now ++ arrow ∷ codes "the value") y)) }
{
    let line = arrow_line(alloc, front, arrow)?;
    add_mark_meaning(alloc, bytes, mark, &line, y)
}

// Adds what the marks mean, below the entries.
fn add_mark_meanings(alloc: Global, bytes: &mut Vec<u8>, low: u64) -> Result<(), WantOfMemory>
    requires { low < 2 ^ 31 }
    ensures { OnOk result (bytes.new.items ≡ bytes.old.items ++ markup (mark_meanings low)) }
{
    let left = Glyph::LEFT_ARROW;
    let right = Glyph::RIGHT_ARROW;
    add_mark_text(alloc, bytes, "offer", "an offer", low + 20)?;
    add_mark_text(alloc, bytes, "retract", "a name is taken back", low + 38)?;
    add_mark_text(alloc, bytes, "control", "a control is set", low + 56)?;
    add_mark_text(alloc, bytes, "question", "a question", low + 74)?;
    add_access(alloc, bytes, "set", "a set: the name", left, low + 92)?;
    add_access(alloc, bytes, "use", "a use: the name", right, low + 110)?;
    add_mark_text(alloc, bytes, "leave", "a leave", low + 128)
}

// Adds a bar, and what it means.
fn add_wait_meaning(alloc: Global, bytes: &mut Vec<u8>, low: u64) -> Result<(), WantOfMemory>
    requires { low < 2 ^ 31 }
    ensures { OnOk result (bytes.new.items ≡ bytes.old.items ++ markup (wait_meaning low)) }
{
    let corner = Point {
        x: 69,
        y: low + 141,
    };
    add_bar(alloc, bytes, corner, 10)?;
    let text =
        "hollow: refused, by which element and whose 1; the bar ends where the wait does, if here";
    add_meaning(alloc, bytes, low + 150, text)
}

// Adds a line as it stands between lanes, at a height.
fn add_sample(
    alloc: Global,
    bytes: &mut Vec<u8>,
    style_name: &str,
    y: u64,
) -> Result<(), WantOfMemory>
    requires { IsTrue (list_all is_plain style_name.now) }
    ensures { OnOk result (bytes.new.items ≡ bytes.old.items ++ markup (stroke style_name.now 66 y 88 y ∷ [])) }
{
    let from = Point { x: 66, y };
    let to = Point { x: 88, y };
    add_stroke(alloc, bytes, style_name, from, to)
}

// Adds lines as they stand between lanes, and what they mean.
fn add_line_meanings(alloc: Global, bytes: &mut Vec<u8>, low: u64) -> Result<(), WantOfMemory>
    requires { low < 2 ^ 31 }
    ensures { OnOk result (bytes.new.items ≡ bytes.old.items ++ markup (line_meanings low)) }
{
    let offered = "offered to this party, where it has a lane here";
    let coupled = "coupled, where both have lanes here; 64 lines of an entry at most";
    add_sample(alloc, bytes, "offered", low + 164)?;
    add_meaning(alloc, bytes, low + 168, offered)?;
    add_sample(alloc, bytes, "coupled", low + 182)?;
    add_meaning(alloc, bytes, low + 186, coupled)
}

// Adds the points of a cut, and what they mean.
fn add_cut_meaning(alloc: Global, bytes: &mut Vec<u8>, low: u64) -> Result<(), WantOfMemory>
    requires { low < 2 ^ 31 }
    ensures { OnOk result (bytes.new.items ≡ bytes.old.items ++ markup (cut_meaning low)) }
{
    let at = Point {
        x: 69,
        y: low + 204,
    };
    add_note(alloc, bytes, at, "..")?;
    add_meaning(alloc, bytes, low + 204, "the text goes on, and is cut here")
}

// Adds what the other figures mean.
fn add_figure_meanings(alloc: Global, bytes: &mut Vec<u8>, low: u64) -> Result<(), WantOfMemory>
    requires { low < 2 ^ 31 }
    ensures { OnOk result (bytes.new.items ≡ bytes.old.items ++ markup (figure_meanings low)) }
{
    add_wait_meaning(alloc, bytes, low)?;
    add_line_meanings(alloc, bytes, low)?;
    add_cut_meaning(alloc, bytes, low)
}

/// Adds what all figures mean, below the entries. It takes memory for the lines.
pub(crate) fn add_meanings(alloc: Global, bytes: &mut Vec<u8>, low: u64) -> Result<(), WantOfMemory>
    requires { low < 2 ^ 31 }
    ensures { OnOk result (bytes.new.items ≡ bytes.old.items ++ markup (meanings low)) }
{
    add_mark_meanings(alloc, bytes, low)?;
    add_figure_meanings(alloc, bytes, low)
}
