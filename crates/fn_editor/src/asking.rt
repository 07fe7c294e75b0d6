ghost use Rattle.std.specs.Prelude.{◌≡◌, ◌||◌, is_some, length};
ghost use Rattle.apl_workspace.specs.Function.{IsFunction};
ghost use Rattle.fn_editor.specs.Bracket.{bracket_in};
ghost use Rattle.fn_editor.specs.Closing.{is_blank_text};
ghost use Rattle.fn_editor.specs.Editing.{bracket_done, bracket_reads, by_bracket, is_header_bracket, is_in_reach, may_enter, with_current_number};
ghost use Rattle.fn_editor.specs.Editor.{editor_of, has_line};

use crate::bracket::{Bracket, bracket_in};
use crate::closing::is_blank_text;
use crate::number::{LineNumber, WHOLE_LIMIT};
use apl_arrays::{Glyph, LINE_GLYPH_LIMIT};
use apl_workspace::{FUNCTION_LINE_LIMIT, Function};

/// Whether a bracket, behind its `[`, does something to a function that is opened by it; one that reads a header may.
pub fn may_ask(function: &Function, rest: &[Glyph]) -> bool
    requires { IsFunction function.now }
    ensures { result ≡ (bracket_reads (bracket_in rest.now) || is_some (by_bracket (editor_of function.now) (bracket_in rest.now))) }
{
    match bracket_in(rest) {
        None => false,
        Some((bracket, text)) => may_do(function, bracket, text),
    }
}

// Whether a bracket does something, with the text behind it.
#[tactic(auto, using(crate::proofs::Asked::shows, crate::proofs::Asked::deletes, crate::proofs::Asked::enters))]
fn may_do(function: &Function, bracket: Bracket, text: &[Glyph]) -> bool
    requires { IsFunction function.now }
    ensures { result ≡ (is_header_bracket bracket || is_some (bracket_done (editor_of function.now) bracket text.now)) }
{
    match bracket {
        Bracket::Show => is_blank_text(text),
        Bracket::Delete(number) => is_blank_text(text) && has_line(function, number),
        Bracket::Header => true,
        Bracket::At(number) => is_reached(function, number) && takes_text(function, number, text),
    }
}

// Whether a function that is opened has a line of this number: a whole one, from 1 to as many as it has lines.
#[tactic(auto, using(crate::proofs::Asked::has_whole))]
fn has_line(function: &Function, number: LineNumber) -> bool
    ensures { result ≡ has_line (editor_of function.now).lines number }
{
    number.tenth() == 0
        && number.whole_part() >= 1
        && usize::from(number.whole_part()) <= function.lines().len()
}

// Whether a line of this number may be asked for.
#[tactic(auto, using(crate::proofs::Asked::reach_of_lines))]
fn is_reached(function: &Function, number: LineNumber) -> bool
    requires { IsFunction function.now }
    ensures { result ≡ is_in_reach (editor_of function.now) number }
{
    usize::from(number.whole_part()) <= function.lines().len() + 1
}

// Whether a text may enter at a number, or only moves the number there.
#[tactic(auto, using(crate::proofs::Numbered::length_numbered))]
fn takes_text(function: &Function, number: LineNumber, text: &[Glyph]) -> bool
    ensures { result ≡ (is_blank_text text.now || may_enter (with_current_number (editor_of function.now) number) text.now) }
{
    is_blank_text(text)
        || (text.len() <= LINE_GLYPH_LIMIT
            && number.whole_part() <= WHOLE_LIMIT
            && (has_line(function, number) || function.lines().len() < FUNCTION_LINE_LIMIT))
}
