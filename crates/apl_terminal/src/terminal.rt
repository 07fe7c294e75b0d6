ghost use Rattle.std.specs.Prelude.{◌≡◌, [], None, IfSome, OnOk, map};
ghost use Rattle.apl_arrays.specs.List.{glyphs_in};
ghost use Rattle.apl_workspace.specs.Workspace.{IsWorkspace, empty_workspace};
ghost use Rattle.apl_terminal.specs.Terminal.{IsDefinable, echoing, free_prompt, new_terminal, printing, reporting};

use apl_arrays::{Glyph, Line, LineList, List, Name, Report, WantOfMemory};
use apl_meaning::{input_shown, report_line};
use apl_workspace::Workspace;
use fn_editor::Editor;
use line_text::add_glyphs;
use std::alloc::Global;
use std::marker::Model;
use std::mem;

/// What a user works on, and what was printed there: the workspace and its id, if it has one, the definition that is open,
/// if one is, the lines that were echoed and printed, and whether the user has ended the session. It is seen as plain data.
#[derive(Drop)]
pub struct Terminal {
    pub(crate) alloc: Global,
    pub(crate) workspace: Workspace,
    pub(crate) id: Option<Name>,
    pub(crate) editor: Option<Editor>,
    pub(crate) transcript: LineList,
    pub(crate) ended: bool,
}

impl Model for Terminal {
    ghost use Rattle.apl_terminal.specs.Terminal.{PlainTerminal, IsTerminal};

    ghost Value = { PlainTerminal };

    ghost view = { λ t. record { workspace = t.workspace; id = t.id; definition = t.editor; transcript = t.transcript.items; ended = t.ended } };

    ghost invariant = { λ t. IsTerminal (record { workspace = t.workspace; id = t.id; definition = t.editor; transcript = t.transcript.items; ended = t.ended }) };
}

impl Terminal {
    /// An empty workspace without an id, and nothing printed.
    pub fn new(alloc: Global) -> Terminal
        ensures { result ≡ new_terminal }
    {
        Terminal {
            alloc,
            workspace: Workspace::new(alloc),
            id: None,
            editor: None,
            transcript: LineList::new(alloc),
            ended: false,
        }
    }

    /// The lines that were echoed and printed.
    pub fn transcript(&self) -> &[Line]
        ensures { map glyphs_in result.now ≡ self.now.transcript }
    {
        self.transcript.as_slice()
    }

    /// The same as a list.
    pub fn into_transcript(self) -> LineList
        ensures { result.items ≡ self.transcript }
    {
        self.transcript
    }

    /// Prints lines, one after another. It takes memory for them; where that runs out, some may be printed.
    pub fn print(&mut self, lines: LineList) -> Result<(), WantOfMemory>
        ensures { OnOk result (self.new ≡ printing lines.items self.old) }
    {
        for line in lines.into_vec() {
            self.transcript.push(line)?;
        }
        Ok(())
    }

    /// Echoes a line behind a prompt. It takes memory for it.
    pub fn echo(&mut self, prompt: &[Glyph], line: &Line) -> Result<(), WantOfMemory>
        ensures { OnOk result (self.new ≡ echoing prompt.now line.now.items self.old) }
    {
        let mut echo = List::new(self.alloc);
        add_glyphs(&mut echo, prompt)?;
        add_glyphs(&mut echo, line.as_slice())?;
        self.transcript.push(echo)
    }

    /// Echoes a line that stands alone, behind six blanks. It takes memory for it.
    pub fn echo_free(&mut self, line: &Line) -> Result<(), WantOfMemory>
        ensures { OnOk result (self.new ≡ echoing free_prompt line.now.items self.old) }
    {
        self.transcript
            .push(input_shown(self.alloc, line.as_slice())?)
    }

    /// Prints a report: its name, and the line as read. It takes memory for both; where that runs out, one may be printed.
    pub fn report(&mut self, report: Report, line: &Line) -> Result<(), WantOfMemory>
        ensures { OnOk result (self.new ≡ reporting report line.now.items self.old) }
    {
        self.transcript.push(report_line(self.alloc, report)?)?;
        self.transcript
            .push(input_shown(self.alloc, line.as_slice())?)
    }

    /// Whether the user has ended the session.
    pub fn has_ended(&self) -> bool
        ensures { result ≡ self.now.ended }
    {
        self.ended
    }

    /// The workspace.
    pub fn workspace(&self) -> &Workspace
        ensures value { result.now ≡ self.now.workspace }
        ensures frames { result.now.frames ≡ [] }
    {
        &self.workspace
    }

    /// What holds of every workspace holds of this one.
    pub fn rules(&self)
        ensures { IsWorkspace self.now.workspace }
    {
        let _ = self.workspace.weight();
    }

    /// The definition that is open, if one is, which is to be handed back.
    pub fn take_definition(&mut self) -> Option<Editor>
        ensures taken { result ≡ self.old.definition }
        ensures left { self.new ≡ record self.old { definition = None } }
        ensures definable { IfSome result (IsDefinable self.old.workspace) }
    {
        self.editor.take()
    }

    /// Lends the workspace to a line, and has an empty one until it comes back.
    pub fn lend(&mut self) -> Workspace
        requires { self.old.definition ≡ None }
        ensures lent { result ≡ self.old.workspace }
        ensures left { self.new ≡ record self.old { workspace = empty_workspace } }
        ensures frames { result.frames ≡ [] }
    {
        mem::replace(&mut self.workspace, Workspace::new(self.alloc))
    }

    /// Takes back a workspace that was lent.
    pub fn take_back(&mut self, workspace: Workspace)
        requires none { self.old.definition ≡ None }
        requires frames { workspace.frames ≡ [] }
        ensures { self.new ≡ record self.old { workspace = workspace } }
    {
        self.workspace = workspace;
    }
}
