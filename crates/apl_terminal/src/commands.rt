ghost use Rattle.std.specs.Prelude.{◌≡◌, ◌≤◌, None, true, false, IfOk, IfSome, OnOk};
ghost use Rattle.apl_workspace.specs.Meaning.{is_function_meaning};
ghost use Rattle.apl_workspace.specs.Workspace.{global_in, is_addressee, is_shared};
ghost use Rattle.sv_events.specs.Answer.{plain_answer};
ghost use Rattle.ws_commands.specs.Finish.{MayBeMade, MayComeIn, workspace_brought};
ghost use Rattle.ws_commands.specs.Reading.{step_of};
ghost use Rattle.ws_commands.specs.Shelf.{TakesStep};
ghost use Rattle.ws_commands.specs.Todo.{given_up, plain_change, plain_todo};
ghost use Rattle.apl_terminal.specs.Commands.{finishing, naming_alone, terminal_sharing, telling, unsharing, value_kept};

use crate::terminal::Terminal;
use apl_arrays::{Array, Fail, Line, LineList, Name, Report, WantOfMemory};
use apl_io::Shelf;
use apl_meaning::report_line;
use apl_workspace::{Remake, Seen, Workspace, is_addressee};
use sv_events::Answer;
use ws_commands::{Change, Todo, finish, prepare};

impl Terminal {
    /// What is to be done for a command of a user; the shelf is called once, or not at all. It takes memory for this; where
    /// that runs out, the shelf is as that call left it.
    pub fn prepare<K: Shelf>(
        &self,
        line: &Line,
        user: u32,
        shelf: &mut K,
    ) -> Result<Todo, WantOfMemory>
        ensures todo { IfOk result (λ todo. TakesStep K.told K.faults user (step_of line.now.items self.now.workspace self.now.id) shelf.old (plain_todo todo) shelf.new) }
        ensures retract { IfOk result (λ todo. todo.retract.items ≡ given_up (plain_change todo.change) self.now.workspace) }
        ensures comes { IfOk result (λ todo. IfSome (workspace_brought (plain_change todo.change)) (MayComeIn self.now.workspace)) }
        ensures counted { K.faults shelf.old ≤ K.faults shelf.new }
    {
        prepare(
            self.alloc,
            line,
            &self.workspace,
            self.id.as_ref(),
            user,
            shelf,
        )
    }

    /// A shared name of the workspace is shared no more: it has the value that the answer to its retraction keeps, or its own
    /// copy.
    pub fn unshare(&mut self, name: &Name, answer: Answer)
        requires none { self.old.definition ≡ None }
        requires shared { is_shared self.old.workspace name.now ≡ true }
        ensures { self.new ≡ unsharing name.now (plain_answer answer) self.old }
    {
        match value_kept(answer) {
            Some(value) => self.workspace.unmark(name, value),
            None => self.workspace.unmark_with_copy(name),
        }
    }

    /// A change of the workspace and its id is made, or it ends the session.
    pub fn finish(&mut self, change: Change)
        requires none { self.old.definition ≡ None }
        requires may { MayBeMade (plain_change change) self.old.workspace }
        ensures { self.new ≡ finishing (plain_change change) self.old }
    {
        self.ended = finish(self.alloc, change, &mut self.workspace, &mut self.id);
    }

    /// A name of the workspace is shared, with this copy of its value. It takes memory for the name and for the offer, and
    /// answers `WantOfMemory` too where no such offer may be listed, or where the workspace would weigh more than it may:
    /// an offer that was saved and the value that a name has already give no cause for either.
    pub fn share(&mut self, offer: Remake, copy: Option<Array>) -> Result<(), WantOfMemory>
        requires none { self.old.definition ≡ None }
        ensures { OnOk result (self.new ≡ terminal_sharing offer copy self.old) }
    {
        if !may_be_offered(&self.workspace, offer) {
            drop(copy);
            return Err(WantOfMemory);
        }
        match self
            .workspace
            .mark(&offer.local, copy, offer.surrogate, offer.to)
        {
            Ok(()) => Ok(()),
            Err(_) => Err(WantOfMemory),
        }
    }

    /// Prints the lines of a command; where their glyphs are counted and would pass the limit, INTERRUPT in place of all of
    /// them. It takes memory for them; where that runs out, some may be printed.
    pub fn tell(&mut self, line: &Line, counted: bool, lines: LineList) -> Result<(), WantOfMemory>
        ensures { OnOk result (self.new ≡ telling line.now.items counted lines.items self.old) }
    {
        if counted {
            self.show(lines, line)
        } else {
            self.print(lines)
        }
    }

    /// Prints the name of a report, alone. It takes memory for it.
    pub fn name_alone(&mut self, report: Report) -> Result<(), WantOfMemory>
        ensures { OnOk result (self.new ≡ naming_alone report self.old) }
    {
        self.transcript.push(report_line(self.alloc, report)?)
    }
}

// The value that an answer keeps for a name, or none, where it keeps one.
fn value_kept(answer: Answer) -> Option<Option<Array>>
    ensures { result ≡ value_kept (plain_answer answer) }
{
    match answer {
        Answer::Kept { value, .. } => Some(value),
        other => {
            drop(other);
            None
        }
    }
}

// Whether a name may be offered: it is no function, and the offer is to whom one may offer.
fn may_be_offered(workspace: &Workspace, offer: Remake) -> bool
    ensures function { result ≡ true → is_function_meaning (global_in workspace.now offer.local) ≡ false }
    ensures addressee { result ≡ true → is_addressee offer.to ≡ true }
{
    !matches!(workspace.global(&offer.local), Seen::Function(_)) && is_addressee(offer.to)
}
