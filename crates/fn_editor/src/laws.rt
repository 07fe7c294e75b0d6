//! What holds of the definitions: laws of numbers, of closing, of brackets, and of what a line opens.

ghost use Rattle.std.specs.Prelude.{◌≡◌, ◌↔◌, ◌<◌, ◌+◌, ℕ, List, [], ◌∷◌, Some};
ghost use Rattle.apl_arrays.specs.Glyph.{del};
ghost use Rattle.fn_editor.specs.Closing.{IsBeforeClose, before_close};
ghost use Rattle.fn_editor.specs.Bracket.{bracket_in};
ghost use Rattle.fn_editor.specs.Grammar.{IsBracket};
ghost use Rattle.apl_workspace.specs.Function.{PlainFunction};
ghost use Rattle.apl_workspace.specs.Workspace.{PlainWorkspace};
ghost use Rattle.fn_editor.specs.Editing.{Edited, fed};
ghost use Rattle.fn_editor.specs.Editor.{defined_function, editor_of};
ghost use Rattle.fn_editor.specs.Number.{line_number, most_whole, next};
ghost use Rattle.fn_editor.specs.Opening.{opened};
ghost use Rattle.fn_editor.specs.OpeningLaws.{IsOpened, IsShut, shut};

use crate::bracket::Bracket;
use crate::number::WHOLE_LIMIT;

/// Whole numbers go on by one, tenths by a tenth, and the ninth tenth by the next whole number. The call does nothing.
pub fn numbers_go_on_in_tenths()
    ensures whole { (n : ℕ) → next (line_number n 0) ≡ line_number (n + 1) 0 }
    ensures tenth { (n d : ℕ) → 0 < d → d < 9 → next (line_number n d) ≡ line_number n (d + 1) }
    ensures ninth { (n : ℕ) → next (line_number n 9) ≡ line_number (n + 1) 0 }
{}

/// A line closes exactly where it ends with ∇, blanks aside, and all before that is done. The call does nothing.
pub fn lines_close_behind_a_del()
    ensures { (line front : List ℕ) → (before_close line ≡ Some front) ↔ IsBeforeClose line front }
{}

/// A bracket asks what is written between it and its `]`: `⎕`, `∆` and a number, or a number, which names the header where
/// it is 0. The call does nothing.
pub fn brackets_ask_what_is_written()
    ensures { (text rest : List ℕ) (bracket : Bracket) → (bracket_in text ≡ Some (bracket, rest)) ↔ IsBracket text bracket rest }
{}

/// A line opens a definition exactly where its first `∇` has a header behind it whose name stands for nothing, the bare name
/// of a function, or the name of a function with a bracket that does something; and it closes what it opens where it ends
/// with `∇` once more. The call does nothing.
pub fn lines_open_what_stands_there()
    ensures { (w : PlainWorkspace) (line : List ℕ) (done : Edited) → (opened w line ≡ Some done) ↔ IsOpened w line done }
{}

/// A line with the bare name of a function between two `∇` opens that function and closes it; where the first opens it and
/// the next line is `∇` alone, this closes it; and what is defined then is that function. The call does nothing.
pub fn functions_shut_at_once_are_the_same()
    ensures opened { (w : PlainWorkspace) (line : List ℕ) (function : PlainFunction) → IsShut w line function → opened w line ≡ Some (shut function) }
    ensures next_line { (function : PlainFunction) → fed (editor_of function) (del ∷ []) ≡ Some (shut function) }
    ensures same { (function : PlainFunction) → defined_function (shut function).editor ≡ function }
{}

/// The limit of whole parts is that of the definitions. The call does nothing.
pub fn whole_parts_are_as_defined()
    ensures { WHOLE_LIMIT ≡ most_whole }
{}
