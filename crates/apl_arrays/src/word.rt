ghost use Rattle.std.specs.Prelude.{◌≡◌, ◌↔◌, ◌≤◌, ℕ, List, Some, None, IsTrue, MatchOption, length};
ghost use Rattle.std.specs.List.{list_all, prefix_len};
ghost use Rattle.apl_arrays.specs.Glyph.{is_blank, is_digit};
ghost use Rattle.apl_arrays.specs.Word.{IsNextWord, is_no_blank, next_word};

use crate::Glyph;

/// How many blanks stand at the front.
#[tactic(auto, using(crate::proofs::Runs::run_fits))]
pub fn blank_count(line: &[Glyph]) -> usize
    ensures value { result ≡ prefix_len is_blank line.now }
    ensures within { result ≤ length line.now }
{
    line.iter().take_while(|glyph| glyph.is_blank()).count()
}

/// How many digits stand at the front.
#[tactic(auto, using(crate::proofs::Runs::run_fits))]
pub fn digit_count(line: &[Glyph]) -> usize
    ensures value { result ≡ prefix_len is_digit line.now }
    ensures within { result ≤ length line.now }
{
    line.iter().take_while(|glyph| glyph.is_digit()).count()
}

#[tactic(auto, using(crate::proofs::Runs::run_fits))]
fn word_length(line: &[Glyph]) -> usize
    ensures value { result ≡ prefix_len is_no_blank line.now }
    ensures within { result ≤ length line.now }
{
    line.iter().take_while(|glyph| !glyph.is_blank()).count()
}

/// The next word, which ends before a blank or with the line, and what follows it. `None` where only blanks are left.
pub fn next_word(line: &[Glyph]) -> Option<(&[Glyph], &[Glyph])>
    ensures { MatchOption result (next_word line.now ≡ None) (λ found. next_word line.now ≡ Some (found.0.now, found.1.now)) }
{
    let line = &line[blank_count(line)..];
    if line.is_empty() {
        return None;
    }
    Some(line.split_at(word_length(line)))
}

/// The next word of a line is what stands behind its blanks up to a blank or the end, and a line has none exactly
/// where it is blank. The call does nothing.
pub fn words_stand_between_blanks()
    ensures word { (line word rest : List ℕ) → (next_word line ≡ Some (word, rest)) ↔ IsNextWord line word rest }
    ensures none { (line : List ℕ) → (next_word line ≡ None) ↔ IsTrue (list_all is_blank line) }
{}
