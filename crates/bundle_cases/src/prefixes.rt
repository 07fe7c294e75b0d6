ghost use Rattle.std.specs.Prelude.{◌≤◌, length};

use crate::outputs::said_of;
use crate::texts::verdict;
use anyhow::{Context, Result};
use case_tables::Tally;
use std::alloc::{AllocError, Global};
use std::fs;

// Where a front of this many bytes is cut within a glyph, the first byte of that glyph.
fn cut_glyph(text: &str, count: usize) -> Option<usize> {
    if text.is_char_boundary(count) {
        return None;
    }
    (0..count).rev().find(|place| text.is_char_boundary(*place))
}

// The first byte behind the last line feed.
fn last_line(front: &[u8]) -> usize {
    match front.iter().rposition(|byte| *byte == b'\n') {
        None => 0,
        Some(place) => place.saturating_add(1),
    }
}

// What is to be said of a front of a bundle that lacks more than the last line feed: where it is cut within a glyph, that
// glyph is none; where it is cut within a line, that line lacks its line feed; else the end is missing.
fn wanted(alloc: Global, text: &str, count: usize) -> Result<String, AllocError>
    requires { count ≤ length text.now }
{
    let begin = last_line(&text.as_bytes()[..count]);
    if let Some(place) = cut_glyph(text, count) {
        return format!(in alloc; "malformed at {place}: glyph");
    }
    if begin == count {
        return format!(in alloc; "malformed at {count}: end");
    }
    format!(in alloc; "malformed at {begin}: newline")
}

// Whether the reader of bundles says of a front what is to be said of it.
fn bundle_agrees(alloc: Global, text: &str, whole: &str, count: usize) -> Result<bool>
    requires { count ≤ length text.now }
{
    let found = verdict(alloc, &text.as_bytes()[..count])?;
    if count.saturating_add(1) >= text.len() {
        return Ok(found.as_str() == whole);
    }
    Ok(found.as_str() == wanted(alloc, text, count)?.as_str())
}

// Whether the reader of outputs says of a front what is to be said of it: where it is not whole, that it departs behind its
// last whole line.
fn output_agrees(alloc: Global, text: &str, whole: &str, count: usize) -> Result<bool>
    requires { count ≤ length text.now }
{
    let front = &text.as_bytes()[..count];
    let found = said_of(alloc, None, front)?;
    if count >= text.len() {
        return Ok(found.as_str() == whole);
    }
    let begin = last_line(front);
    let wanted = format!(in alloc; "no output from byte {begin}")?;
    Ok(found.as_str() == wanted.as_str())
}

fn file_text(rt: &HostRuntime, file: &str) -> Result<String> {
    fs::read_to_string(rt, file).context(format_args!("reading {file}"))
}

/// What a text is of which each front is read.
#[derive(Clone, Copy, Debug)]
pub enum Whole {
    Bundle,
    Output,
}

impl Whole {
    // Whether its reader says of a front what is to be said of it.
    fn agrees(self, alloc: Global, text: &str, whole: &str, count: usize) -> Result<bool>
        requires { count ≤ length text.now }
    {
        match self {
            Whole::Bundle => bundle_agrees(alloc, text, whole, count),
            Whole::Output => output_agrees(alloc, text, whole, count),
        }
    }
}

/// Reads each front of a bundle or an output; another file says what the whole has. A line is printed for each front of which
/// something else is said than is to be, and one for all.
pub fn each_prefix(rt: &HostRuntime, of: Whole, file: &str, whole: &str) -> Result<Tally> {
    let text = file_text(rt, file)?;
    let whole = file_text(rt, whole)?;
    let whole = whole.as_str().trim_end();
    let mut tally = Tally::new();
    for count in 0..=text.len() {
        let agrees = of.agrees(rt.alloc(), text.as_str(), whole, count)?;
        if !agrees {
            println!(rt; "{file}: another verdict on the first {count} bytes")?;
        }
        tally.count(!agrees);
    }
    let Tally { cases, differing } = tally;
    println!(rt; "fronts of {file}: {cases} cases, of which {differing} differ")?;
    Ok(tally)
}
