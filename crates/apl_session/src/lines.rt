ghost use Rattle.std.specs.Prelude.{◌≡◌, ◌+◌, ◌<◌, ◌^◌, ℕ, List, [], ◌∷◌, None, OnOk, drop, false};
ghost use Rattle.apl_machine.specs.Machine.{IsIdle, MayRun, silent};
ghost use Rattle.apl_machine.specs.Runs.{IsTreeOf, StandsOn};
ghost use Rattle.line_trees.specs.Parsing.{plain_tree};
ghost use Rattle.apl_machine.specs.declared.flow.Stop.TheVariants as stopped;
ghost use Rattle.apl_meaning.specs.Meaning.{most_statements};
ghost use Rattle.sv_events.specs.Answer.{PlainAnswer};
ghost use Rattle.session_rules.specs.Course.{with_terminal};
ghost use Rattle.session_rules.specs.Session.{free_line, statement_done};
ghost use Rattle.session_rules.specs.Shelf.{Exchange};
ghost use Rattle.apl_terminal.specs.Terminal.{echoing, free_prompt, printing};
ghost use Rattle.apl_session.specs.Standing.{FailsBy, IsAt, IsIdleAt, IsLastRead, IsPaused, IsUnderWay, PausesAt, StandsIn, WithCalls, with_output_of, with_workspace_of};
ghost use Rattle.apl_session.specs.declared.under_way.UnderWay.TheVariants as under_way;

use crate::progress::Progress;
use crate::under_way::UnderWay;
use apl_arrays::{Fail, Line, LineList, WantOfMemory};
use apl_io::Shelf;
use apl_machine::{LineRead, Machine, Stop, read_line};
use apl_operators::Steps;
use apl_terminal::{is_command, is_opening};
use line_trees::Tree;
use std::mem;
use std::sync::ledger::Ledger;
use sv_events::Act;

impl Progress {
    /// Reads a line of a user, and does it up to its first act, or to its end; a command calls the user's shelf once, or not at
    /// all. It takes the memory of what is evaluated and printed; where that runs out, some of it may be done.
    pub(crate) fn take_line<L: Ledger, K: Shelf>(
        &mut self,
        line: &Line,
        user: u32,
        shelf: &mut K,
        steps: &mut Steps<L>,
    ) -> Result<(), WantOfMemory>
        requires none { self.old.under_way ≡ under_way.Nothing }
        requires goes { self.old.terminal.ended ≡ false }
        requires count { self.old.read + 1 < 2 ^ 64 }
        ensures stands { OnOk result ((lines rest : List (List ℕ)) (answers : List PlainAnswer) (exchanges : List Exchange) → StandsIn lines answers exchanges self.old → drop self.old.read lines ≡ line.now.items ∷ rest
            → WithCalls K.told K.faults user shelf.old shelf.new exchanges (λ all. StandsIn lines answers all self.new)) }
        ensures paused { OnOk result (IsPaused self.new.under_way) }
        ensures read { self.new.read ≡ self.old.read + 1 }
    {
        self.read += 1;
        match self.terminal.take_definition() {
            Some(editor) => {
                self.terminal.feed(editor, line)?;
                Ok(())
            }
            None => self.begin_line(line, user, shelf, steps),
        }
    }

    // Begins a line that is read while no definition is open: it is echoed, and opens one, or is a command, or is evaluated.
    fn begin_line<L: Ledger, K: Shelf>(
        &mut self,
        line: &Line,
        user: u32,
        shelf: &mut K,
        steps: &mut Steps<L>,
    ) -> Result<(), WantOfMemory>
        requires none { self.old.under_way ≡ under_way.Nothing }
        requires free { self.old.terminal.definition ≡ None }
        ensures stands { OnOk result ((lines : List (List ℕ)) (answers : List PlainAnswer) (exchanges : List Exchange)
            → IsAt lines answers exchanges self.old.read (λ c. free_line most_statements line.now.items (with_terminal (echoing free_prompt line.now.items c.terminal) c)) self.old.terminal
            → IsLastRead lines self.old.read line.now.items → WithCalls K.told K.faults user shelf.old shelf.new exchanges (λ all. StandsIn lines answers all self.new)) }
        ensures paused { OnOk result (IsPaused self.new.under_way) }
        ensures read { self.new.read ≡ self.old.read }
    {
        self.terminal.echo_free(line)?;
        if is_opening(line.as_slice()) {
            self.terminal.open(line)?;
            Ok(())
        } else if is_command(line.as_slice()) {
            self.command(line, user, shelf)
        } else {
            self.evaluate(line, steps)
        }
    }

    // Evaluates a statement, or reports why it is none. One that is an act alone waits for its answer at once.
    fn evaluate<L: Ledger>(&mut self, line: &Line, steps: &mut Steps<L>) -> Result<(), WantOfMemory>
        requires none { self.old.under_way ≡ under_way.Nothing }
        requires free { self.old.terminal.definition ≡ None }
        ensures stands { OnOk result ((lines : List (List ℕ)) (answers : List PlainAnswer) (exchanges : List Exchange)
            → IsAt lines answers exchanges self.old.read (statement_done most_statements line.now.items) self.old.terminal → IsLastRead lines self.old.read line.now.items → StandsIn lines answers exchanges self.new) }
        ensures paused { OnOk result (IsPaused self.new.under_way) }
        ensures read { self.new.read ≡ self.old.read }
    {
        match read_line(self.alloc, self.terminal.workspace(), line) {
            Ok(LineRead::Alone(act)) => {
                drop(mem::replace(&mut self.under_way, UnderWay::Alone(act)));
                Ok(())
            }
            Ok(LineRead::Tree(tree)) => self.begin(line, tree, steps),
            Err(fail) => self.end_by(fail, line),
        }
    }

    /// Ends a line by the report of why it failed, unless memory ran out. It takes memory for what is printed.
    pub(crate) fn end_by(&mut self, fail: Fail, line: &Line) -> Result<(), WantOfMemory>
        ensures ends { OnOk result (FailsBy fail line.now.items self.old.terminal self.new.terminal) }
        ensures rest { self.new ≡ record self.old { terminal = self.new.terminal } }
    {
        match fail {
            Fail::Report(report) => self.terminal.report(report, line),
            Fail::WantOfMemory => Err(WantOfMemory),
        }
    }

    // Begins a line that has this tree.
    fn begin<L: Ledger>(
        &mut self,
        line: &Line,
        tree: Tree,
        steps: &mut Steps<L>,
    ) -> Result<(), WantOfMemory>
        requires none { self.old.under_way ≡ under_way.Nothing }
        requires free { self.old.terminal.definition ≡ None }
        requires tree { IsTreeOf self.old.terminal.workspace line.now.items (plain_tree tree) }
        ensures stands { OnOk result ((lines : List (List ℕ)) (answers : List PlainAnswer) (exchanges : List Exchange)
            → IsAt lines answers exchanges self.old.read (statement_done most_statements line.now.items) self.old.terminal → StandsIn lines answers exchanges self.new) }
        ensures paused { OnOk result (IsPaused self.new.under_way) }
        ensures read { self.new.read ≡ self.old.read }
    {
        let mut machine = self.spare.take_on(self.alloc, self.terminal.lend())?;
        match machine.begin(line, tree) {
            Ok(()) => self.run(machine, steps),
            Err(WantOfMemory) => {
                drop(machine);
                Err(WantOfMemory)
            }
        }
    }

    /// Runs a machine up to the next act, or to the end of its line, and prints what it printed. It takes the memory of what
    /// is evaluated and printed; where that runs out, the line is lost.
    pub(crate) fn run<L: Ledger>(
        &mut self,
        machine: Box<Machine>,
        steps: &mut Steps<L>,
    ) -> Result<(), WantOfMemory>
        requires may { MayRun machine.value.stage }
        requires none { self.old.under_way ≡ under_way.Nothing }
        requires free { self.old.terminal.definition ≡ None }
        ensures stands { OnOk result ((lines : List (List ℕ)) (answers : List PlainAnswer) (exchanges : List Exchange)
            → IsUnderWay lines answers exchanges self.old.read self.old.terminal machine.value → StandsIn lines answers exchanges self.new) }
        ensures paused { OnOk result (IsPaused self.new.under_way) }
        ensures read { self.new.read ≡ self.old.read }
    {
        let mut machine = machine;
        match machine.run(steps) {
            Ok(stop) => self.show(machine, stop),
            Err(WantOfMemory) => {
                drop(machine);
                Err(WantOfMemory)
            }
        }
    }

    // Prints what a run printed, and goes on as it stopped.
    fn show(&mut self, machine: Box<Machine>, stop: Stop) -> Result<(), WantOfMemory>
        requires idle { IsIdleAt machine.value stop }
        requires free { self.old.terminal.definition ≡ None }
        requires none { self.old.under_way ≡ under_way.Nothing }
        ensures pauses { OnOk result (PausesAt (silent machine.value) stop (with_output_of machine.value self.old) self.new) }
        ensures taken { StandsOn machine.value 0 [] machine.value.interpreter.output (silent machine.value) }
        ensures paused { OnOk result (IsPaused self.new.under_way) }
        ensures read { self.new.read ≡ self.old.read }
    {
        let mut machine = machine;
        match self.print(machine.take_output()) {
            Ok(()) => {
                self.stop(machine, stop);
                Ok(())
            }
            Err(WantOfMemory) => {
                drop(machine);
                drop(stop);
                Err(WantOfMemory)
            }
        }
    }

    /// Prints the lines of a run, if there are any. It takes memory for them; where that runs out, some may be printed.
    pub(crate) fn print(&mut self, lines: LineList) -> Result<(), WantOfMemory>
        ensures ok { OnOk result (self.new.terminal ≡ printing lines.items self.old.terminal) }
        ensures rest { self.new ≡ record self.old { terminal = self.new.terminal } }
    {
        if lines.as_slice().is_empty() {
            drop(lines);
            Ok(())
        } else {
            self.terminal.print(lines)
        }
    }

    // Waits for the act that was asked, or goes on behind a line that is over.
    fn stop(&mut self, machine: Box<Machine>, stop: Stop)
        requires idle { IsIdleAt machine.value stop }
        requires free { self.old.terminal.definition ≡ None }
        requires none { self.old.under_way ≡ under_way.Nothing }
        ensures pauses { PausesAt machine.value stop self.old self.new }
        ensures paused { IsPaused self.new.under_way }
        ensures read { self.new.read ≡ self.old.read }
    {
        match stop {
            Stop::Asks(act) => self.wait_for(machine, act),
            Stop::Done => self.finish(machine),
            Stop::Failed(_) => self.finish(machine),
        }
    }

    // Waits for the answer to an act.
    fn wait_for(&mut self, machine: Box<Machine>, act: Act)
        ensures pauses { PausesAt machine.value (stopped.Asks act) self.old self.new }
        ensures paused { IsPaused self.new.under_way }
        ensures read { self.new.read ≡ self.old.read }
    {
        drop(mem::replace(&mut self.under_way, UnderWay::Asking(machine, act)));
    }

    // Takes back the workspace of a line that is over.
    fn finish(&mut self, machine: Box<Machine>)
        requires idle { IsIdle machine.value }
        requires free { self.old.terminal.definition ≡ None }
        ensures { self.new ≡ with_workspace_of machine.value self.old }
    {
        let workspace = self.spare.leave(machine);
        self.terminal.take_back(workspace);
    }
}
