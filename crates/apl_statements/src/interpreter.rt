ghost use Rattle.std.specs.Prelude.{◌≡◌, [], IfOk, OnErr, OnOk};
ghost use Rattle.apl_workspace.specs.Workspace.{empty_workspace};
ghost use Rattle.apl_values.specs.Pending.{IsPending, act_for_purpose, plain_act_purpose};
ghost use Rattle.apl_statements.specs.Interpreter.{at_rest_on};

use crate::waiting::Waiting;
use apl_arrays::{Line, LineList, List, WantOfMemory};
use apl_values::{ActPurpose, KnownLine, StackValue};
use apl_workspace::Workspace;
use std::alloc::Global;
use std::marker::Model;
use std::mem;
use sv_events::Act;

/// A workspace and what is under way on it: the lines that were not taken yet, the statements that may still be begun, the
/// line as read, and the functions under way with the innermost last. It is seen as plain data. Beside that it keeps lists of
/// values that no statement has, and texts of which it is known how they are read.
#[derive(Drop)]
pub struct Interpreter {
    pub alloc: Global,
    pub workspace: Workspace,
    pub output: LineList,
    pub statements: u32,
    pub input: Line,
    pub callers: Vec<Waiting>,
    pub rooms: Vec<Vec<StackValue>>,
    pub known: Vec<Option<KnownLine>>,
}

impl Model for Interpreter {
    ghost use Rattle.apl_statements.specs.Interpreter.{PlainInterpreter};

    ghost Value = { PlainInterpreter };

    ghost use Rattle.apl_statements.specs.Sound.{IsInterpreter, plain_interpreter};

    ghost view = { plain_interpreter };

    ghost invariant = { IsInterpreter };
}

impl Interpreter {
    /// Nothing is under way on a workspace.
    pub fn new(alloc: Global, workspace: Workspace) -> Interpreter
        requires { workspace.frames ≡ [] }
        ensures { result ≡ at_rest_on workspace }
    {
        Interpreter {
            alloc,
            workspace,
            output: LineList::new(alloc),
            statements: 0,
            input: List::new(alloc),
            callers: Vec::new(alloc),
            rooms: Vec::new(alloc),
            known: Vec::new(alloc),
        }
    }

    /// Nothing is under way on this workspace; what was there goes.
    pub fn renew_on(&mut self, workspace: Workspace)
        requires none { self.old.stack ≡ [] }
        requires frames { workspace.frames ≡ [] }
        ensures { self.new ≡ at_rest_on workspace }
    {
        self.workspace = workspace;
        self.output = LineList::new(self.alloc);
        self.statements = 0;
        self.input.clear();
    }

    /// Takes the workspace while nothing is under way, and has an empty one then.
    pub fn take_workspace(&mut self) -> Workspace
        requires none { self.old.stack ≡ [] }
        requires frames { self.old.workspace.frames ≡ [] }
        ensures taken { result ≡ self.old.workspace }
        ensures left { self.new ≡ record self.old { workspace = empty_workspace } }
    {
        mem::replace(&mut self.workspace, Workspace::new(self.alloc))
    }

    /// A line is to begin, in which so many statements may be begun. It takes memory for the line where it is not as long
    /// as the one before. `WantOfMemory` leaves all as it was.
    pub fn begin(&mut self, input: &Line, statements: u32) -> Result<(), WantOfMemory>
        requires { self.old.stack ≡ [] }
        ensures ok { OnOk result (self.new ≡ record self.old { statements = statements; input = input.now.items }) }
        ensures err { OnErr result (self.new ≡ self.old) }
    {
        self.input.renew(self.alloc, input)?;
        self.statements = statements;
        self.known.clear();
        Ok(())
    }

    /// The lines that were not taken yet.
    pub fn take_output(&mut self) -> LineList
        ensures lines { result.items ≡ self.old.output }
        ensures rest { self.new ≡ record self.old { output = [] } }
    {
        mem::replace(&mut self.output, LineList::new(self.alloc))
    }

    /// The act that is open. It takes memory for its value.
    pub fn act_of(&self, pending: &ActPurpose) -> Result<Act, WantOfMemory>
        requires { IsPending self.now.workspace pending.now }
        ensures { IfOk result (λ act. act ≡ act_for_purpose (plain_act_purpose pending.now) self.now.workspace) }
    {
        pending.act(self.alloc, &self.workspace)
    }
}
