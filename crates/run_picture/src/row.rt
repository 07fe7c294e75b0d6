ghost use Rattle.std.specs.Prelude.{◌≡◌, ◌≤◌, ◌<◌, ◌^◌, ◌+◌, ◌∷◌, [], ◌++◌, All, IfOk, IsTrue, OnOk, codes, decimal, drop, length, map, sum};
ghost use Rattle.std.specs.List.{list_all};
ghost use Rattle.line_text.specs.Spaced.{is_plain};
ghost use Rattle.sv_events.specs.Entry.{plain_entry};
ghost use Rattle.run_picture.specs.Figure.{stroke, words_up_to};
ghost use Rattle.run_picture.specs.Layout.{line_begin, page_width};
ghost use Rattle.run_picture.specs.Link.{height_of};
ghost use Rattle.run_picture.specs.Picture.{entry_tags, entry_words, fall, link_style, link_tags, rows, shown_line, wait_tags};
ghost use Rattle.run_picture.specs.Scene.{IsScene, behind, entry_at, figures_of, scene_in};
ghost use Rattle.run_picture.specs.Tag.{markup};

use crate::figure::{Point, add_bar, add_mark, add_stroke, add_words, add_words_up_to};
use crate::label::{cut, label_of, mark_of, style_of};
use crate::lane::middle_of;
use crate::link::{Link, height_with, links_of};
use apl_arrays::{Line, List, WantOfMemory};
use line_text::add_count;
use std::alloc::Global;
use sv_events::{AnswerKind, Entry};
use sv_journal::text_of;

/// What the entries of a picture are drawn with: the journal, the entries that are shown, the lanes, and the heights.
#[derive(Clone, Copy, Debug)]
pub(crate) struct Scene<'a> {
    pub entries: &'a [Entry],
    pub shown: &'a [Entry],
    pub lanes: &'a [u32],
    pub heights: &'a [u64],
}

/// The most glyphs of an entry's line.
const MOST: usize = 80;

// How a line between lanes is drawn.
fn link_style(link: Link) -> &'static str
    ensures text { result.now ≡ link_style link }
    ensures plain { IsTrue (list_all is_plain result.now) }
{
    if link.coupled { "coupled" } else { "offered" }
}

// Adds the lines of an entry, one below another.
fn add_links(
    alloc: Global,
    bytes: &mut Vec<u8>,
    lanes: &[u32],
    y: u64,
    links: &[Link],
) -> Result<(), WantOfMemory>
    requires lanes { length lanes.now ≤ 2000 }
    requires links { length links.now ≤ 64 }
    requires y { y < 2 ^ 32 }
    ensures { OnOk result (bytes.new.items ≡ bytes.old.items ++ markup (link_tags lanes.now y links.now)) }
{
    let mut y = y;
    for link in links {
        let from = Point {
            x: middle_of(lanes, link.from),
            y,
        };
        let to = Point {
            x: middle_of(lanes, link.to),
            y,
        };
        add_stroke(alloc, bytes, link_style(*link), from, to)?;
        y += 6;
    }
    Ok(())
}

// How far a bar goes on over the entries from one on: to the mark of its party's next entry, or to the last lower edge.
fn fall(scene: &Scene<'_>, party: u32, from: usize) -> u64
    requires scene { IsScene scene.now }
    requires within { from ≤ length scene.now.shown.now }
    ensures value { result ≡ fall (scene_in scene.now) party (drop from (map plain_entry scene.now.shown.now)) }
    ensures small { result ≤ 1000000 }
{
    let mut depth = 0;
    for at in from..scene.shown.len() {
        if scene.shown[at].party == party {
            return depth + 10;
        }
        depth += scene.heights[at];
    }
    depth
}

// Adds the bar of an entry that is held.
fn add_wait(
    alloc: Global,
    bytes: &mut Vec<u8>,
    scene: &Scene<'_>,
    y: u64,
    at: usize,
) -> Result<(), WantOfMemory>
    requires scene { IsScene scene.now }
    requires within { at < length scene.now.shown.now }
    requires y { y < 2 ^ 32 }
    ensures { OnOk result (bytes.new.items ≡ bytes.old.items ++ markup (wait_tags (scene_in scene.now) y (entry_at scene.now at) (behind scene.now at))) }
{
    let entry = &scene.shown[at];
    if entry.answer.row().kind != AnswerKind::Held {
        return Ok(());
    }
    let corner = Point {
        x: middle_of(scene.lanes, entry.party) - 7,
        y: y + 10,
    };
    let height = scene.heights[at] - 10 + fall(scene, entry.party, at + 1);
    add_bar(alloc, bytes, corner, height)
}

// The line of an entry as it is printed, 80 glyphs at most.
fn shown_line(alloc: Global, place: u64, entry: &Entry) -> Result<Line, WantOfMemory>
    ensures { IfOk result (λ line. line.items ≡ shown_line place (plain_entry entry.now)) }
{
    let line = text_of(alloc, place, entry)?;
    cut(alloc, line.as_slice(), MOST)
}

// Adds the number of an entry at the margin.
fn add_place(alloc: Global, bytes: &mut Vec<u8>, y: u64, place: u64) -> Result<(), WantOfMemory>
    ensures { OnOk result (bytes.new.items ≡ bytes.old.items ++ markup (words_up_to (codes "number") 52 y (decimal place) ∷ [])) }
{
    let mut number = List::new(alloc);
    add_count(&mut number, place)?;
    add_words_up_to(
        alloc,
        bytes,
        "number",
        Point { x: 52, y },
        number.as_slice(),
    )
}

// Adds the texts of an entry.
fn add_entry_words(
    alloc: Global,
    bytes: &mut Vec<u8>,
    scene: &Scene<'_>,
    y: u64,
    place: u64,
    entry: &Entry,
) -> Result<(), WantOfMemory>
    requires scene { IsScene scene.now }
    requires y { y < 2 ^ 32 }
    ensures { OnOk result (bytes.new.items ≡ bytes.old.items ++ markup (entry_words (scene_in scene.now) y place (plain_entry entry.now))) }
{
    let y = y + 14;
    add_place(alloc, bytes, y, place)?;
    let label = label_of(alloc, entry)?;
    let beside = Point {
        x: middle_of(scene.lanes, entry.party) + 11,
        y,
    };
    add_words(alloc, bytes, "label", beside, label.as_slice())?;
    let line = shown_line(alloc, place, entry)?;
    let begin = Point {
        x: line_begin(scene.lanes.len()),
        y,
    };
    add_words(alloc, bytes, "entry", begin, line.as_slice())
}

/// Where the lines of the entries begin, behind so many lanes.
pub(crate) fn line_begin(lanes: usize) -> u64
    requires { lanes ≤ 2000 }
    ensures begin { result ≡ line_begin lanes }
    ensures small { result ≤ 208076 }
{
    64 + 104 * lanes as u64 + 12
}

/// How wide the page is with so many lanes.
pub(crate) fn page_width(lanes: usize) -> u64
    requires { lanes ≤ 2000 }
    ensures { result ≡ page_width lanes }
{
    line_begin(lanes) + 572
}

/// Adds a thin line over the whole page. It takes memory for the line.
pub(crate) fn add_rule(
    alloc: Global,
    bytes: &mut Vec<u8>,
    lanes: usize,
    y: u64,
) -> Result<(), WantOfMemory>
    requires { lanes ≤ 2000 }
    ensures { OnOk result (bytes.new.items ≡ bytes.old.items ++ markup (stroke (codes "rule") 0 y (page_width lanes) y ∷ [])) }
{
    let to = Point {
        x: page_width(lanes),
        y,
    };
    add_stroke(alloc, bytes, "rule", Point { x: 0, y }, to)
}

// Adds the lines, the mark and the texts of an entry.
fn add_figures(
    alloc: Global,
    bytes: &mut Vec<u8>,
    scene: &Scene<'_>,
    y: u64,
    place: u64,
    entry: &Entry,
) -> Result<(), WantOfMemory>
    requires scene { IsScene scene.now }
    requires y { y < 2 ^ 31 }
    ensures { OnOk result (bytes.new.items ≡ bytes.old.items ++ markup (figures_of (scene_in scene.now) y place (plain_entry entry.now))) }
{
    let links = links_of(alloc, scene.lanes, scene.entries, entry)?;
    add_links(alloc, bytes, scene.lanes, y + 20, links.as_slice())?;
    let middle = Point {
        x: middle_of(scene.lanes, entry.party),
        y: y + 10,
    };
    add_mark(alloc, bytes, style_of(entry), mark_of(&entry.act), middle)?;
    add_entry_words(alloc, bytes, scene, y, place, entry)
}

// Adds an entry.
fn add_row(
    alloc: Global,
    bytes: &mut Vec<u8>,
    scene: &Scene<'_>,
    y: u64,
    place: u64,
    at: usize,
) -> Result<(), WantOfMemory>
    requires scene { IsScene scene.now }
    requires within { at < length scene.now.shown.now }
    requires y { y < 2 ^ 31 }
    ensures { OnOk result (bytes.new.items ≡ bytes.old.items ++ markup (entry_tags (scene_in scene.now) y place (entry_at scene.now at) (behind scene.now at))) }
{
    add_rule(alloc, bytes, scene.lanes.len(), y)?;
    add_wait(alloc, bytes, scene, y, at)?;
    add_figures(alloc, bytes, scene, y, place, &scene.shown[at])
}

/// Adds the entries of a picture from a place on, one below another. It takes memory for the lines.
pub(crate) fn add_rows(
    alloc: Global,
    bytes: &mut Vec<u8>,
    scene: &Scene<'_>,
    first: u64,
) -> Result<(), WantOfMemory>
    requires scene { IsScene scene.now }
    requires first { first + length scene.now.shown.now < 2 ^ 64 }
    ensures { OnOk result (bytes.new.items ≡ bytes.old.items ++ markup (rows (scene_in scene.now) 72 first (map plain_entry scene.now.shown.now))) }
{
    let mut y = 72;
    for at in 0..scene.shown.len() {
        add_row(alloc, bytes, scene, y, first + at as u64, at)?;
        y += scene.heights[at];
    }
    Ok(())
}

/// The heights of the entries that are shown. It takes memory for them.
pub(crate) fn heights_of(
    alloc: Global,
    lanes: &[u32],
    entries: &[Entry],
    shown: &[Entry],
) -> Result<Vec<u64>, WantOfMemory>
    ensures heights { IfOk result (λ heights. heights.items ≡ map (λ e. height_of lanes.now (map plain_entry entries.now) (plain_entry e)) shown.now) }
    ensures small { IfOk result (λ heights. All (λ height. (26 ≤ height) × (height ≤ 404)) heights.items) }
{
    let mut heights = Vec::new(alloc);
    for entry in shown {
        let links = links_of(alloc, lanes, entries, entry)?;
        heights.push(height_with(links.as_slice().len()))?;
    }
    Ok(heights)
}

/// The lower edge of the entries.
pub(crate) fn bottom(heights: &[u64]) -> u64
    requires few { length heights.now ≤ 2000 }
    requires small { All (λ height. (26 ≤ height) × (height ≤ 404)) heights.now }
    ensures edge { result ≡ 72 + sum heights.now }
    ensures small { result ≤ 1000000 }
{
    let mut y = 72;
    for height in heights {
        y += *height;
    }
    y
}
