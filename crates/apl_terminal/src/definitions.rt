ghost use Rattle.std.specs.Prelude.{◌≡◌, ◌-◌, ◌^◌, None, Some, false, true, OnOk, map, min};
ghost use Rattle.apl_arrays.specs.List.{glyphs_in};
ghost use Rattle.apl_workspace.specs.Meaning.{is_variable_meaning};
ghost use Rattle.apl_workspace.specs.Workspace.{global_in, with_global};
ghost use Rattle.apl_workspace.specs.declared.meaning.Meaning.TheVariants as meaning;
ghost use Rattle.fn_editor.specs.Editing.{fed};
ghost use Rattle.fn_editor.specs.Editor.{defined_function};
ghost use Rattle.fn_editor.specs.Opening.{opened};
ghost use Rattle.fn_editor.specs.Prompt.{prompt_text};
ghost use Rattle.apl_terminal.specs.Terminal.{IsDefinable, closing, taking_definition, echoing, editing, glyph_count, showing};

use crate::terminal::Terminal;
use apl_arrays::{Fail, Line, LineList, Report, WantOfMemory};
use apl_workspace::PRINTED_LIMIT;
use fn_editor::Editor;

impl Terminal {
    /// Opens a definition by a line, or reports that it opens none. What it shows is printed, and where the line closes the
    /// definition too, the function is defined. It takes memory for the definition and for what is printed; where that
    /// runs out, a part of this may be done.
    pub fn open(&mut self, line: &Line) -> Result<(), WantOfMemory>
        requires { self.old.definition ≡ None }
        ensures { OnOk result (self.new ≡ editing line.now.items (opened self.old.workspace line.now.items) self.old) }
    {
        match Editor::start(self.alloc, line, &self.workspace) {
            Ok(opened) => self.after_edit(opened.editor, opened.shown, line),
            Err(Fail::Report(report)) => self.report(report, line),
            Err(Fail::WantOfMemory) => Err(WantOfMemory),
        }
    }

    /// Hands a line to the definition that is open: it is echoed behind the prompt, and done, or reported where the
    /// definition has nothing for it. It takes memory as `open` does.
    pub fn feed(&mut self, editor: Editor, line: &Line) -> Result<(), WantOfMemory>
        requires none { self.old.definition ≡ None }
        requires definable { IsDefinable self.old.workspace editor }
        ensures { OnOk result (self.new ≡ editing line.now.items (fed editor line.now.items) (echoing (prompt_text editor.number) line.now.items (record self.old { definition = Some editor }))) }
    {
        self.echo(editor.prompt().glyphs(), line)?;
        let mut editor = editor;
        match editor.feed(line) {
            Ok(fed) => self.after_edit(editor, fed.shown, line),
            Err(Fail::Report(report)) => {
                self.editor = Some(editor);
                self.report(report, line)
            }
            Err(Fail::WantOfMemory) => Err(WantOfMemory),
        }
    }

    // Prints what an edit shows. A definition that it closed is defined, and another stays open.
    fn after_edit(
        &mut self,
        editor: Editor,
        shown: LineList,
        line: &Line,
    ) -> Result<(), WantOfMemory>
        requires none { self.old.definition ≡ None }
        requires name { is_variable_meaning (global_in self.old.workspace editor.header.name) ≡ false }
        ensures { OnOk result (self.new ≡ closing line.now.items editor editor.closed (showing line.now.items shown.items self.old)) }
    {
        self.show(shown, line)?;
        if editor.is_closed() {
            self.define(editor, line)
        } else {
            self.editor = Some(editor);
            Ok(())
        }
    }

    /// Prints lines whose glyphs are counted; INTERRUPT in place of all of them where they would pass the limit. It takes memory
    /// for them; where that runs out, some may be printed.
    pub(crate) fn show(&mut self, shown: LineList, line: &Line) -> Result<(), WantOfMemory>
        ensures { OnOk result (self.new ≡ showing line.now.items shown.items self.old) }
    {
        let glyphs = glyph_count(shown.as_slice());
        if glyphs > PRINTED_LIMIT - self.workspace.printed() {
            return self.report(Report::Interrupt, line);
        }
        self.workspace.count_printed(glyphs);
        self.print(shown)
    }

    // Defines the function of a definition that was closed; WS FULL drops it.
    fn define(&mut self, editor: Editor, line: &Line) -> Result<(), WantOfMemory>
        requires none { self.old.definition ≡ None }
        requires closed { editor.closed ≡ true }
        requires name { is_variable_meaning (global_in self.old.workspace editor.header.name) ≡ false }
        ensures { OnOk result (self.new ≡ taking_definition line.now.items (with_global self.old.workspace editor.header.name (meaning.Function (defined_function editor))) self.old) }
    {
        match editor.close(&mut self.workspace) {
            Ok(()) => Ok(()),
            Err(Fail::Report(report)) => self.report(report, line),
            Err(Fail::WantOfMemory) => Err(WantOfMemory),
        }
    }
}

// How many glyphs lines have, or the greatest number where they have more.
fn glyph_count(lines: &[Line]) -> u64
    ensures { result ≡ min (glyph_count (map glyphs_in lines.now)) (2 ^ 64 - 1) }
{
    let mut count: u64 = 0;
    for line in lines {
        count = count.saturating_add(line.as_slice().len() as u64);
    }
    count
}
