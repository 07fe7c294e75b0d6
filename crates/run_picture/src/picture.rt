ghost use Rattle.std.specs.Prelude.{◌≡◌, ◌≤◌, ◌<◌, ◌^◌, ◌+◌, ◌∷◌, [], ◌++◌, ℕ, IfOk, OnOk, codes, decimal, Option as OptionOf, Some, length, map};
ghost use Rattle.sv_events.specs.Entry.{plain_entry};
ghost use Rattle.run_picture.specs.Picture.{head_tags, lane_tags, left_out_tags, page, shown_text};
ghost use Rattle.run_picture.specs.Scene.{IsScene};
ghost use Rattle.run_picture.specs.Shown.{IsPicture, picture_text};
ghost use Rattle.run_picture.specs.Tag.{attribute_text, markup, tag_text, word_of};
ghost use Rattle.run_picture.specs.Window.{window_of};

use crate::figure::{Point, add_stroke, add_words};
use crate::lane::{lanes_of, middle_of};
use crate::row::{Scene, add_rows, add_rule, bottom, heights_of, page_width};
use crate::style::{add_drawing, add_meanings};
use crate::tag::{add_front, add_size_of, add_word_of};
use crate::window::{Window, entries_in};
use apl_arrays::{Line, List, WantOfMemory};
use line_text::{add_count, add_line, add_text, add_word};
use std::alloc::Global;
use sv_events::Entry;

// Adds the size of the page once more, as what is seen of it.
fn add_view_box(line: &mut Line, width: u64, height: u64) -> Result<(), WantOfMemory>
    ensures { OnOk result (line.new.items ≡ line.old.items ++ attribute_text (word_of (codes "viewBox") (codes "0 0 " ++ (decimal width ++ (codes " " ++ decimal height))))) }
{
    add_text(line, " viewBox=\"0 0 ")?;
    add_count(line, width)?;
    add_text(line, " ")?;
    add_count(line, height)?;
    add_text(line, "\"")
}

// The line that begins the page, of this size.
fn page_line(alloc: Global, width: u64, height: u64) -> Result<Line, WantOfMemory>
    ensures { IfOk result (λ line. line.items ≡ tag_text (page width height)) }
{
    let mut line = List::new(alloc);
    add_front(&mut line, "svg")?;
    add_word_of(&mut line, "xmlns", "http://www.w3.org/2000/svg")?;
    add_word_of(&mut line, "xml:space", "preserve")?;
    add_size_of(&mut line, "width", width)?;
    add_size_of(&mut line, "height", height)?;
    add_view_box(&mut line, width, height)?;
    add_text(&mut line, ">")?;
    Ok(line)
}

// Adds what begins the page, of this size.
fn add_page(alloc: Global, bytes: &mut Vec<u8>, width: u64, height: u64) -> Result<(), WantOfMemory>
    ensures { OnOk result (bytes.new.items ≡ bytes.old.items ++ markup (page width height ∷ [])) }
{
    let line = page_line(alloc, width, height)?;
    add_line(bytes, &line)
}

// The line that says which entries are shown, of how many.
fn shown_text(alloc: Global, window: &Window, count: u64) -> Result<Line, WantOfMemory>
    requires last { window.now.first + window.now.shown < 2 ^ 64 }
    requires some { 1 ≤ window.now.first }
    ensures { IfOk result (λ line. line.items ≡ shown_text window.now count) }
{
    let mut line = List::new(alloc);
    add_text(&mut line, "entries ")?;
    add_count(&mut line, window.first)?;
    add_text(&mut line, " to ")?;
    add_count(&mut line, window.first + window.shown - 1)?;
    add_text(&mut line, " of ")?;
    add_count(&mut line, count)?;
    Ok(line)
}

// The line that says how many entries are left out.
fn left_out_line(alloc: Global, left: u64) -> Result<Line, WantOfMemory>
    ensures { IfOk result (λ line. line.items ≡ decimal left ++ codes " entries more are left out here") }
{
    let mut line = List::new(alloc);
    add_count(&mut line, left)?;
    add_text(&mut line, " entries more are left out here")?;
    Ok(line)
}

// Adds how many entries are left out, where some are.
fn add_left_out(alloc: Global, bytes: &mut Vec<u8>, left: u64) -> Result<(), WantOfMemory>
    ensures { OnOk result (bytes.new.items ≡ bytes.old.items ++ markup (left_out_tags left)) }
{
    if left == 0 {
        return Ok(());
    }
    let line = left_out_line(alloc, left)?;
    let at = Point { x: 12, y: 36 };
    add_words(alloc, bytes, "note", at, line.as_slice())
}

// The number of a party.
fn number_line(alloc: Global, party: u32) -> Result<Line, WantOfMemory>
    ensures { IfOk result (λ line. line.items ≡ decimal party) }
{
    let mut line = List::new(alloc);
    add_count(&mut line, u64::from(party))?;
    Ok(line)
}

// Adds the lane of a party.
fn add_lane(
    alloc: Global,
    bytes: &mut Vec<u8>,
    lanes: &[u32],
    party: u32,
    low: u64,
) -> Result<(), WantOfMemory>
    requires { length lanes.now ≤ 2000 }
    ensures { OnOk result (bytes.new.items ≡ bytes.old.items ++ markup (lane_tags low lanes.now (party ∷ []))) }
{
    let x = middle_of(lanes, party);
    let number = number_line(alloc, party)?;
    let above = Point { x: x - 6, y: 60 };
    add_words(alloc, bytes, "lane", above, number.as_slice())?;
    add_stroke(alloc, bytes, "way", Point { x, y: 68 }, Point { x, y: low })
}

// Adds the lanes, down to the lower edge.
fn add_lanes(
    alloc: Global,
    bytes: &mut Vec<u8>,
    lanes: &[u32],
    low: u64,
) -> Result<(), WantOfMemory>
    requires { length lanes.now ≤ 2000 }
    ensures { OnOk result (bytes.new.items ≡ bytes.old.items ++ markup (lane_tags low lanes.now lanes.now)) }
{
    for party in lanes {
        add_lane(alloc, bytes, lanes, *party, low)?;
    }
    Ok(())
}

// Adds what stands above the entries: the page, how things are drawn, what is shown, and the lanes.
fn add_head(
    alloc: Global,
    bytes: &mut Vec<u8>,
    window: &Window,
    scene: &Scene<'_>,
    low: u64,
) -> Result<(), WantOfMemory>
    requires scene { IsScene scene.now }
    requires last { window.now.first + window.now.shown < 2 ^ 64 }
    requires some { 1 ≤ window.now.first }
    requires low { low < 2 ^ 31 }
    ensures { OnOk result (bytes.new.items ≡ bytes.old.items ++ markup (head_tags window.now (length scene.now.entries.now) scene.now.lanes.now low)) }
{
    add_page(alloc, bytes, page_width(scene.lanes.len()), low + 216)?;
    add_drawing(alloc, bytes)?;
    let text = shown_text(alloc, window, scene.entries.len() as u64)?;
    let at = Point { x: 12, y: 18 };
    add_words(alloc, bytes, "note", at, text.as_slice())?;
    add_left_out(alloc, bytes, window.left_out)?;
    add_lanes(alloc, bytes, scene.lanes, low)
}

// The bytes of the picture of the entries of a window.
fn drawn(alloc: Global, entries: &[Entry], shown: &Window) -> Result<Vec<u8>, WantOfMemory>
    requires some { 1 ≤ shown.now.first }
    requires few { shown.now.shown ≤ 2000 }
    requires within { shown.now.first + shown.now.shown ≤ length entries.now + 1 }
    ensures { IfOk result (λ bytes. bytes.items ≡ picture_text shown.now (map plain_entry entries.now)) }
{
    let among = entries_in(shown, entries);
    let lanes = lanes_of(alloc, among)?;
    let heights = heights_of(alloc, lanes.as_slice(), entries, among)?;
    let scene = Scene {
        entries,
        shown: among,
        lanes: lanes.as_slice(),
        heights: &heights,
    };
    let low = bottom(&heights);
    let mut bytes = Vec::new(alloc);
    add_head(alloc, &mut bytes, shown, &scene, low)?;
    add_rows(alloc, &mut bytes, &scene, shown.first)?;
    add_rule(alloc, &mut bytes, lanes.as_slice().len(), low)?;
    add_meanings(alloc, &mut bytes, low)?;
    add_word(alloc, &mut bytes, "</svg>")?;
    Ok(bytes)
}

/// The picture of some entries of a journal with its oldest entry first, as an SVG: a lane for each party that has an entry
/// among them, and time downwards. Offers and couplings are lines between lanes; a hold is a bar down to the entry that ends
/// it. Each entry stands in it once, with its line as it is printed, of which 80 glyphs are shown. Whether the journal is legal
/// makes no difference. It takes memory for the bytes, of which an entry has some 600, and more for lines between lanes.
pub fn picture_of(alloc: Global, entries: &[Entry], shown: &Window) -> Result<Vec<u8>, WantOfMemory>
    requires { (from to : OptionOf ℕ) × (window_of (length entries.now) from to ≡ Some shown.now) }
    ensures { IfOk result (λ bytes. IsPicture shown.now (map plain_entry entries.now) bytes.items) }
{
    drawn(alloc, entries, shown)
}
