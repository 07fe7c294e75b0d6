//! What holds of the definitions: lines that are refused, and a function that is opened by one line and closed by the next.

ghost use Rattle.std.specs.Prelude.{◌≡◌, ◌<◌, ◌≤◌, ◌+◌, ℕ, true, false, List, [], ◌∷◌, Some, None};
ghost use Rattle.apl_arrays.specs.Glyph.{del};
ghost use Rattle.apl_workspace.specs.Function.{PlainFunction};
ghost use Rattle.apl_workspace.specs.Workspace.{with_global, workspace_weight};
ghost use Rattle.apl_workspace.specs.declared.meaning.Meaning.{Meaning};
ghost use Rattle.fn_editor.specs.Editing.{Edited, fed, quietly};
ghost use Rattle.fn_editor.specs.Editor.{PlainEditor, editor_of};
ghost use Rattle.fn_editor.specs.Opening.{opened};
ghost use Rattle.fn_editor.specs.Prompt.{prompt_text};
ghost use Rattle.apl_terminal.specs.Terminal.{PlainTerminal, echoing, editing, glyph_count, showing, with_done};
ghost use Rattle.apl_terminal.specs.TerminalLaws.{HasFunction, OnlyPrints, read_by};

/// A line that is refused changes the transcript alone: one that opens no definition, and one that has nothing to do in the
/// definition that is open, once it is echoed. What would be shown past the limit of printed glyphs is not shown, and the
/// definition is as the line left it. Where a function would make the workspace too heavy, its definition is closed and the
/// workspace stays as it was. The call does nothing.
pub fn refused_lines_print_alone()
    ensures opening { (t : PlainTerminal) (line : List ℕ) → opened t.workspace line ≡ None → OnlyPrints t (editing line (opened t.workspace line) t) }
    ensures feeding { (t : PlainTerminal) (editor : PlainEditor) (line : List ℕ) → fed editor line ≡ None →
        OnlyPrints t (editing line (fed editor line) (echoing (prompt_text editor.number) line t)) }
    ensures showing { (t : PlainTerminal) (line : List ℕ) (done : Edited) → done.editor.closed ≡ false → 4194304 < t.workspace.printed + glyph_count done.shown →
        OnlyPrints (record t { definition = Some done.editor }) (editing line (Some done) t) }
    ensures defining { (t : PlainTerminal) (line : List ℕ) (done : Edited) → done.editor.closed ≡ true → 4194304 < workspace_weight (with_done (showing line done.shown t).workspace done.editor) →
        OnlyPrints (record (showing line done.shown t) { definition = None }) (editing line (Some done) t) }
{}

/// A line that opens a function leaves its definition open; where the next line is `∇` alone, that is closed, and the workspace
/// has the function, if it may weigh so much. The call does nothing.
pub fn functions_opened_are_closed_by_the_next_line()
    ensures opened { (t : PlainTerminal) (line : List ℕ) (function : PlainFunction) → opened t.workspace line ≡ Some (quietly (editor_of function)) → (editing line (opened t.workspace line) t).definition ≡ Some (editor_of function) }
    ensures closed { (t : PlainTerminal) (line : List ℕ) (function : PlainFunction) → opened t.workspace line ≡ Some (quietly (editor_of function)) →
        workspace_weight (with_global t.workspace function.header.name (Meaning.Function function)) ≤ 4194304 →
        HasFunction function (read_by (editor_of function) (del ∷ []) (editing line (opened t.workspace line) t)) }
{}
