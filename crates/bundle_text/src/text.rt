ghost use Rattle.std.specs.Prelude.{◌≡◌, ◌≢◌, ◌⊎◌, ◌+◌, ◌<◌, ◌^◌, [], ◌∷◌, ◌++◌, ℕ, List, Bool, true, false, IfOk, IfErr, IsTrue, length, MatchResult};
ghost use Rattle.line_text.specs.Lines.{end_line, HasNoFeed};
ghost use Rattle.bundle_text.specs.Breaks.{Breaks};
ghost use Rattle.bundle_text.specs.Rules.{PlainBundle, IsBundle};
ghost use Rattle.bundle_text.specs.BundleLine.{IsNoContent};
ghost use Rattle.bundle_text.specs.Draft.{PlainDraft, bundle_of, is_at_end};
ghost use Rattle.bundle_text.specs.Bundle.{BundleText, IsNoBundle};
ghost use Rattle.bundle_text.specs.Refused.{IsReason, IsRefusal};
ghost use Rattle.bundle_text.specs.Step.{AddsText, IsGlyphOr, IsLineBroken, IsReadTo};

use crate::Bundle;
use crate::draft::Draft;
use crate::glyphs::{glyph_count_at, glyphs_at};
use crate::heading::{heading_of, is_end};
use crate::refused::{BundleRefused, BundleRule};
use line_text::first_line;
use std::alloc::Global;

// Why a line is refused that breaks this rule where all its bytes spell glyphs. It stands at the offset.
fn refused_line(line: &[u8], rule: BundleRule, offset: u64) -> BundleRefused
    requires { offset + length line.now < 2 ^ 64 }
    ensures { IsRefusal result (IsGlyphOr line.now offset offset rule) }
{
    match glyph_count_at(line, offset) {
        Ok(_) => BundleRefused::malformed(offset, rule),
        Err(why) => why,
    }
}

// Adds a line that is no content line, which stands at the offset.
fn add_other_line(
    alloc: Global,
    draft: &mut Draft,
    line: &[u8],
    offset: u64,
) -> Result<(), BundleRefused>
    requires bundle { IsBundle (bundle_of draft.old) }
    requires offset { offset + length line.now < 2 ^ 64 }
    requires other { IsNoContent line.now }
    ensures { AddsText draft.old line.now draft.new offset result }
{
    let glyphs = glyphs_at(alloc, line, offset)?;
    match heading_of(alloc, glyphs.as_slice())? {
        None => Err(BundleRefused::malformed(offset, BundleRule::Form)),
        Some(heading) => draft.add_heading(alloc, heading, offset),
    }
}

// Adds a line, which stands at the offset.
fn add_line(alloc: Global, draft: &mut Draft, line: &[u8], offset: u64) -> Result<(), BundleRefused>
    requires bundle { IsBundle (bundle_of draft.old) }
    requires offset { offset + length line.now < 2 ^ 64 }
    ensures { AddsText draft.old line.now draft.new offset result }
{
    match line.strip_prefix(b"|") {
        None => add_other_line(alloc, draft, line, offset),
        Some(text) => draft.add_content(alloc, text, offset),
    }
}

// Adds what stands behind the last line feed, at the offset: the end.
fn add_last_line(
    alloc: Global,
    draft: &mut Draft,
    line: &[u8],
    offset: u64,
) -> Result<(), BundleRefused>
    requires bundle { IsBundle (bundle_of draft.old) }
    requires offset { offset + length line.now < 2 ^ 64 }
    ensures ok { IfOk result (λ _. line.now ≡ end_line) }
    ensures added { line.now ≡ end_line → AddsText draft.old line.now draft.new offset result }
    ensures refused { IfErr result (λ why. IsRefusal why (IsLineBroken draft.old line.now false offset)) }
{
    if !is_end(line) {
        return Err(refused_line(line, BundleRule::Newline, offset));
    }
    add_line(alloc, draft, line, offset)
}

// The bundle, where the end was read. The text ends at the offset.
fn finished(draft: Draft, offset: u64) -> Result<Bundle, BundleRefused>
    requires { IsBundle (bundle_of draft) }
    ensures { MatchResult result (λ bundle. IsTrue (is_at_end draft.section) × (bundle ≡ bundle_of draft))
        (λ why. IsRefusal why (λ place rule. (place ≡ offset) × (rule ≡ BundleRule.End) × (is_at_end draft.section ≡ false))) }
{
    if draft.is_ended() {
        Ok(draft.finish())
    } else {
        Err(BundleRefused::malformed(offset, BundleRule::End))
    }
}

// The bundle, where what is left is the end, or nothing behind it. It stands at the offset.
fn read_rest(
    alloc: Global,
    mut draft: Draft,
    rest: &[u8],
    offset: u64,
) -> Result<Bundle, BundleRefused>
    requires bundle { IsBundle (bundle_of draft) }
    requires offset { offset + length rest.now < 2 ^ 64 }
    requires no_feed { HasNoFeed rest.now }
    ensures { (bytes : List ℕ) → IsReadTo bytes rest.now draft → length bytes ≡ offset + length rest.now
        → MatchResult result (λ bundle. BundleText bytes bundle) (λ why. IsRefusal why (Breaks bytes)) }
{
    if rest.is_empty() {
        return finished(draft, offset);
    }
    add_last_line(alloc, &mut draft, rest, offset)?;
    finished(draft, offset + rest.len() as u64)
}

// The bundle that the bytes are the text of.
fn read_lines(alloc: Global, bytes: &[u8]) -> Result<Bundle, BundleRefused>
    ensures { MatchResult result (λ bundle. BundleText bytes.now bundle) (λ why. IsRefusal why (Breaks bytes.now)) }
{
    let mut draft = Draft::new(alloc);
    let mut rest = bytes;
    while let Some((line, after)) = first_line(rest) {
        let offset = (bytes.len() - rest.len()) as u64;
        add_line(alloc, &mut draft, line, offset)?;
        rest = after;
    }
    read_rest(alloc, draft, rest, (bytes.len() - rest.len()) as u64)
}

/// The bundle that the bytes are the text of, read line by line. `Malformed` at the first line that breaks a rule, with the
/// first rule that it breaks: at its first byte, but for `Glyph` at the first byte that begins no glyph, and for `End` at
/// the end of the bytes. It takes memory for what the bundle has, and for the numbers of a heading.
pub fn read(alloc: Global, bytes: &[u8]) -> Result<Bundle, BundleRefused>
    ensures bundle { IfOk result (λ bundle. BundleText bytes.now bundle) }
    ensures only { (bundle : PlainBundle) → BundleText bytes.now bundle →
        MatchResult result (λ read. read ≡ bundle) (λ why. why ≡ BundleRefused.WantOfMemory) }
    ensures breaks { IfErr result (λ why. IsRefusal why (Breaks bytes.now)) }
    ensures only_breaks { (offset : ℕ) (rule : BundleRule) → Breaks bytes.now offset rule →
        MatchResult result (λ _. ⊥) (λ why. (why ≡ BundleRefused.Malformed offset rule) ⊎ (why ≡ BundleRefused.WantOfMemory)) }
    ensures malformed { IfErr result (λ why. IsReason why (IsNoBundle bytes.now)) }
{
    read_lines(alloc, bytes)
}

/// What every text keeps: it is the text of one bundle at the most. The call does nothing.
pub fn texts_are_of_one_bundle()
    ensures { (bytes : List ℕ) (bundle other : PlainBundle) → BundleText bytes bundle → BundleText bytes other → bundle ≡ other }
{}

/// Where a text breaks: a bundle's text breaks nowhere, and any text breaks one rule at one place at the most. The call does
/// nothing.
pub fn texts_break_at_one_place()
    ensures nowhere { (bytes : List ℕ) (bundle : PlainBundle) (offset : ℕ) (rule : BundleRule) → BundleText bytes bundle
        → Breaks bytes offset rule → ⊥ }
    ensures one { (bytes : List ℕ) (offset place : ℕ) (rule other : BundleRule) → Breaks bytes offset rule → Breaks bytes place other
        → (offset ≡ place) × (rule ≡ other) }
{}
