ghost use Rattle.std.specs.Prelude.{◌≡◌, ◌-◌, ◌≤◌, [], ◌∷◌, Err, IfOk, IsErr, IsOk, OnErr, OnOk};
ghost use Rattle.apl_arrays.specs.declared.report.Fail.TheVariants as fail;
ghost use Rattle.apl_items.specs.Places.{OnWantOfMemory};
ghost use Rattle.apl_workspace.specs.Workspace.{empty_workspace};
ghost use Rattle.line_trees.specs.Parsing.{plain_tree};
ghost use Rattle.line_trees.specs.Trees.{line_tree_of};
ghost use Rattle.sv_events.specs.Answer.{plain_answer};
ghost use Rattle.apl_values.specs.Parts.{IsTreeOf};
ghost use Rattle.apl_statements.specs.Moves.{Comes, ComesToPause};
ghost use Rattle.apl_statements.specs.Sound.{IsFlow, IsPause};
ghost use Rattle.apl_machine.specs.Machine.{IsIdle, IsOpenStage, MayRun, MayWantMemory, idle_on, lost, machine_before, silent, still_to_come};
ghost use Rattle.apl_machine.specs.Runs.{MachineStands, StandsOn, StopsAs};
ghost use Rattle.apl_machine.specs.Stops.{EndsAs, PausesAs};

use crate::flow::Stop;
use crate::stepping::run_from;
use apl_answers::bring;
use apl_arrays::{Fail, Line, LineList, WantOfMemory};
use apl_calls::{begin_input, end_by};
use apl_operators::Steps;
use apl_statements::{Evaluation, Flow, Interpreter, Pause};
use apl_values::{ActPurpose, LineReading};
use apl_workspace::Workspace;
use line_trees::Tree;
use std::alloc::Global;
use std::marker::Model;
use std::mem;
use std::sync::ledger::Ledger;
use sv_events::Answer;

/// How many statements one line that is read may begin.
pub const STATEMENT_LIMIT: u32 = 100_000;

/// What a machine does between calls: nothing; it is to begin a line; an act is open; the act has its answer; or memory
/// ran out, for good.
#[derive(Debug, Drop)]
pub enum Stage {
    Idle,
    Begins(LineReading),
    Open(Box<ActPurpose>, Evaluation),
    Answered(Answer, Box<ActPurpose>, Evaluation),
    Lost,
}

/// A machine on a workspace. It evaluates a line up to the next act, and goes on with the answer. It is seen as plain data.
#[derive(Drop)]
pub struct Machine {
    interpreter: Interpreter,
    stage: Stage,
}

impl Model for Machine {
    ghost use Rattle.apl_machine.specs.Machine.{PlainMachine};

    ghost Value = { PlainMachine };

    ghost use Rattle.apl_machine.specs.Stages.{IsMachine, plain_machine};

    ghost view = { plain_machine };

    ghost invariant = { IsMachine };
}

impl Machine {
    /// An idle machine.
    pub fn new(alloc: Global, workspace: Workspace) -> Machine
        requires { workspace.frames ≡ [] }
        ensures { result ≡ idle_on workspace }
    {
        Machine {
            interpreter: Interpreter::new(alloc, workspace),
            stage: Stage::Idle,
        }
    }

    /// Begins a line, of which this is the tree. It takes memory for the line and the parts of the tree; `WantOfMemory`
    /// leaves the machine as it was.
    pub fn begin(&mut self, line: &Line, tree: Tree) -> Result<(), WantOfMemory>
        requires idle { IsIdle self.old }
        requires tree { IsTreeOf self.old.interpreter.workspace line.now.items (plain_tree tree) }
        ensures ok { OnOk result (self.new ≡ machine_before line.now.items (plain_tree tree) self.old) }
        ensures stands { OnOk result (MachineStands self.new (line_tree_of (plain_tree tree)) line.now.items self.old.interpreter.workspace self.old.interpreter.output [] 0 []) }
        ensures err { OnErr result (self.new ≡ self.old) }
    {
        let reading = LineReading::of(self.interpreter.alloc, tree)?;
        match self.interpreter.begin(line, STATEMENT_LIMIT) {
            Ok(()) => {
                self.stage = Stage::Begins(reading);
                Ok(())
            }
            Err(WantOfMemory) => {
                drop(reading);
                Err(WantOfMemory)
            }
        }
    }

    /// Goes on to the next act, or to the end of the line. Each application of a function counts one step. It takes the
    /// memory of what is evaluated; after `WantOfMemory` the machine answers it for good.
    pub fn run<L: Ledger>(&mut self, steps: &mut Steps<L>) -> Result<Stop, WantOfMemory>
        requires { MayRun self.old.stage }
        ensures rises { steps.old ≤ steps.new }
        ensures stop { IfOk result (StopsAs self.old (steps.new - steps.old) self.new) }
        ensures lost { OnErr result (self.new.stage ≡ lost) }
        ensures stays_lost { self.old.stage ≡ lost → IsErr result }
    {
        match self.run_to_pause(steps) {
            Ok(pause) => self.pause(pause),
            Err(fail) => self.end(fail),
        }
    }

    /// Puts the answer to the open act on the stack. Nothing is evaluated. It takes no memory.
    pub fn resume(&mut self, answer: Answer) -> Result<(), WantOfMemory>
        requires { IsOpenStage self.old.stage }
        ensures granted { IsOk result }
        ensures rest { self.new.interpreter ≡ self.old.interpreter }
        ensures stands { StandsOn self.old 0 (plain_answer answer ∷ []) [] self.new }
        ensures running { MayRun self.new.stage }
    {
        match mem::replace(&mut self.stage, Stage::Lost) {
            Stage::Open(pending, evaluation) => {
                self.stage = Stage::Answered(answer, pending, evaluation);
                Ok(())
            }
            _ => Err(WantOfMemory),
        }
    }

    /// The lines printed since the last call.
    pub fn take_output(&mut self) -> LineList
        ensures lines { result.items ≡ self.old.interpreter.output }
        ensures rest { self.new ≡ silent self.old }
        ensures stands { StandsOn self.old 0 [] result.items self.new }
    {
        self.interpreter.take_output()
    }

    /// An idle machine is on this workspace from now on, as a new one would be; what it had goes.
    pub fn renew(&mut self, workspace: Workspace)
        requires idle { IsIdle self.old }
        requires frames { workspace.frames ≡ [] }
        ensures { self.new ≡ idle_on workspace }
    {
        self.interpreter.renew_on(workspace);
        self.stage = Stage::Idle;
    }

    /// Takes the workspace of an idle machine, which has an empty one then; printed lines that were not taken stay.
    pub fn take_workspace(&mut self) -> Workspace
        requires { IsIdle self.old }
        ensures taken { result ≡ self.old.interpreter.workspace }
        ensures lines { self.new.interpreter.output ≡ self.old.interpreter.output }
        ensures left { self.new.interpreter ≡ record self.old.interpreter { workspace = empty_workspace } }
        ensures idle { IsIdle self.new }
    {
        self.stage = Stage::Idle;
        self.interpreter.take_workspace()
    }

    /// The workspace.
    pub fn into_workspace(self) -> Workspace
        requires { IsIdle self }
        ensures { result ≡ self.interpreter.workspace }
    {
        self.interpreter.workspace
    }

    // Goes on until the line is over, or an act is opened.
    fn run_to_pause<L: Ledger>(&mut self, steps: &mut Steps<L>) -> Result<Pause, Fail>
        requires { MayRun self.old.stage }
        ensures rises { steps.old ≤ steps.new }
        ensures comes { ComesToPause self.old.interpreter (still_to_come self.old) (steps.new - steps.old) self.new.interpreter result }
        ensures sound { IfOk result (IsPause self.new.interpreter) }
        ensures stays_lost { self.old.stage ≡ lost → result ≡ Err fail.WantOfMemory }
        ensures lost { self.new.stage ≡ lost }
    {
        let flow = self.first_flow()?;
        run_from(&mut self.interpreter, flow, steps)
    }

    // What is done first: the line is begun, or an act has its answer. A report of a line that may not begin, that of an answer
    // which ends the line, VALUE ERROR for a use without a value, and WS FULL where an own copy or a list does not fit, come also
    // where there is no memory.
    fn first_flow(&mut self) -> Result<Flow, Fail>
        requires { MayRun self.old.stage }
        ensures comes { Comes self.old.interpreter (still_to_come self.old) 0 self.new.interpreter result }
        ensures sound { IfOk result (IsFlow self.new.interpreter) }
        ensures memory { OnWantOfMemory result (MayWantMemory self.old.interpreter self.old.stage) }
        ensures stays_lost { self.old.stage ≡ lost → result ≡ Err fail.WantOfMemory }
        ensures lost { self.new.stage ≡ lost }
    {
        match mem::replace(&mut self.stage, Stage::Lost) {
            Stage::Begins(reading) => begin_input(&mut self.interpreter, reading),
            Stage::Answered(answer, pending, evaluation) => {
                bring(
                    &mut self.interpreter,
                    answer,
                    Box::into_inner(pending),
                    evaluation,
                )
            }
            _ => Err(Fail::WantOfMemory),
        }
    }

    // Stops where the line is over, or where an act is opened.
    fn pause(&mut self, pause: Pause) -> Result<Stop, WantOfMemory>
        requires lost { self.old.stage ≡ lost }
        requires sound { IsPause self.old.interpreter pause }
        ensures stop { IfOk result (PausesAs self.old.interpreter pause self.new) }
        ensures err { OnErr result (self.new ≡ self.old) }
    {
        match pause {
            Pause::Ends => {
                self.stage = Stage::Idle;
                Ok(Stop::Done)
            }
            Pause::Opens(pending, evaluation) => {
                let act = self.interpreter.act_of(&pending)?;
                self.stage = Stage::Open(pending, evaluation);
                Ok(Stop::Asks(act))
            }
        }
    }

    // Ends the line by a report, unless memory ran out.
    fn end(&mut self, fail: Fail) -> Result<Stop, WantOfMemory>
        requires { self.old.stage ≡ lost }
        ensures stop { IfOk result (EndsAs self.old.interpreter fail self.new) }
        ensures lost { OnErr result (self.new.stage ≡ lost) }
    {
        match fail {
            Fail::Report(report) => {
                end_by(&mut self.interpreter, report)?;
                self.stage = Stage::Idle;
                Ok(Stop::Failed(report))
            }
            Fail::WantOfMemory => Err(WantOfMemory),
        }
    }
}
