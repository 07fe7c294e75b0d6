ghost use Rattle.std.specs.Prelude.{◌≡◌, ◌<◌, ◌+◌, true, false, drop, length, option_copied, slice_index};
ghost use Rattle.apl_arrays.specs.Glyph.{is_blank};
ghost use Rattle.fn_editor.specs.Closing.{before_close, behind_glyph, body, closes_definition, is_blank_text};

use apl_arrays::Glyph;

/// Whether nothing but blanks stands there.
pub fn is_blank_text(text: &[Glyph]) -> bool
    ensures { result ≡ is_blank_text text.now }
{
    text.iter().all(|glyph| glyph.is_blank())
}

/// What follows a glyph at the front, where it stands there.
pub fn behind_glyph(line: &[Glyph], glyph: Glyph) -> Option<&[Glyph]>
    ensures { option_copied result ≡ behind_glyph glyph line.now }
{
    match line {
        [first, rest @ ..] if *first == glyph => Some(rest),
        _ => None,
    }
}

/// What is done of a line, and whether the line closes the definition: it ends with ∇, blanks aside.
pub fn split_close(line: &[Glyph]) -> (&[Glyph], bool)
    ensures body { result.0.now ≡ body line.now }
    ensures closes { result.1 ≡ closes_definition line.now }
{
    match before_close(line) {
        None => (line, false),
        Some(front) => (front, true),
    }
}

// What stands before the ∇ that closes.
#[tactic(auto, using(crate::proofs::Closes::no_close, crate::proofs::Closes::blanks_more))]
fn before_close(line: &[Glyph]) -> Option<&[Glyph]>
    ensures { option_copied result ≡ before_close line.now }
{
    let mut end = line.len();
    while end > 0 {
        end -= 1;
        if !line[end].is_blank() {
            return front_of(line, end);
        }
    }
    None
}

// What stands before the last glyph other than blanks, where that is ∇.
#[tactic(auto, using(crate::proofs::Closes::close_at, crate::proofs::Closes::no_close_at))]
fn front_of(line: &[Glyph], last: usize) -> Option<&[Glyph]>
    requires within { last < length line.now }
    requires glyph { is_blank (slice_index line.now last) ≡ false }
    requires blanks { is_blank_text (drop (last + 1) line.now) ≡ true }
    ensures { option_copied result ≡ before_close line.now }
{
    if line[last] == Glyph::DEL {
        Some(&line[..last])
    } else {
        None
    }
}
