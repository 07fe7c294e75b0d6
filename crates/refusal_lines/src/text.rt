ghost use Rattle.std.specs.Prelude.{◌≡◌, ◌≤◌, IfOk, length};

use crate::finding::Finding;
use crate::form::form_finding;
use crate::glyph::{add_reason, glyph_reason};
use crate::heading::last_sort;
use crate::limit::limit_finding;
use crate::marked::{MarkedLine, marked_line};
use crate::party::party_finding;
use crate::place::place_finding;
use crate::shown::add_marked;
use apl_arrays::WantOfMemory;
use bundle_text::BundleRule;
use std::alloc::{AllocError, Global};

const NO_GLYPH: &str = "a glyph is wanted here";

const NO_FEED: &str =
    "the text ends with this line: a line feed is wanted behind it, and then the line end";

const LIKE_END: &str = "the last line is the word end, in small letters and with nothing beside it";

const NO_END: &str = "the text ends here, and its last line is to be end";

// Whether a line is the end but for capitals and blanks.
fn is_like_end(line: &[u8]) -> bool {
    line.trim_ascii().eq_ignore_ascii_case(b"end")
}

// What is wrong in a last line that lacks its line feed.
fn newline_finding(line: &[u8]) -> Finding
    ensures { result.at ≤ length line.now }
{
    if is_like_end(line) {
        Finding::new(0, LIKE_END)
    } else {
        Finding::new(line.len(), NO_FEED)
    }
}

// What is wrong in a line that breaks a rule at a place of it and stands behind these lines.
fn finding_of(
    alloc: Global,
    lines: &[u8],
    line: &[u8],
    at: usize,
    rule: BundleRule,
) -> Result<Finding, WantOfMemory>
    requires { at ≤ length line.now }
    ensures { IfOk result (λ finding. finding.at ≤ length line.now) }
{
    match rule {
        BundleRule::Glyph => Ok(Finding::new(at, NO_GLYPH)),
        BundleRule::Newline => Ok(newline_finding(line)),
        BundleRule::Form => Ok(form_finding(line)),
        BundleRule::Place => Ok(place_finding(line, last_sort(lines))),
        BundleRule::Party => party_finding(alloc, lines, line),
        BundleRule::Limit => Ok(limit_finding(line)),
        BundleRule::End => Ok(Finding::new(at, NO_END)),
    }
}

// Adds what is wanted in front of these bytes.
fn add_wanted(
    text: &mut String,
    bytes: &[u8],
    wanted: &str,
    rule: BundleRule,
) -> Result<(), AllocError> {
    if rule == BundleRule::Glyph {
        add_reason(text, glyph_reason(bytes))?;
    } else {
        text.push_str(wanted)?;
    }
    text.push('\n')
}

/// Lines for a person on why bytes are no bundle, which break a rule at an offset: the number of the line there and what
/// stands near the place that is wrong, a mark below it, and what is wanted. Each ends with a line feed. It takes memory
/// for them, of which there are three and none is long, and for the numbers of 32 users at most.
pub fn malformed_lines(
    alloc: Global,
    bytes: &[u8],
    offset: u64,
    rule: BundleRule,
) -> Result<String, WantOfMemory> {
    let offset = offset.min(bytes.len() as u64) as usize;
    let MarkedLine { number, line, at } = marked_line(bytes, offset);
    let finding = finding_of(alloc, &bytes[..offset - at], line, at, rule)?;
    let mut text = String::new(alloc);
    add_marked(&mut text, number, line, finding.at)?;
    add_wanted(&mut text, &line[at..], finding.wanted, rule)?;
    Ok(text)
}
