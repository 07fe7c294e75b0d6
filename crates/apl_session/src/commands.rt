ghost use Rattle.std.specs.Prelude.{◌≡◌, ◌<◌, ◌≤◌, ◌++◌, ◌∷◌, [], ℕ, List, None, IfOk, OnOk, length};
ghost use Rattle.apl_terminal.specs.Commands.{telling};
ghost use Rattle.sv_events.specs.Answer.{PlainAnswer, plain_answer};
ghost use Rattle.sv_events.specs.Row.{answer_row};
ghost use Rattle.session_rules.specs.Commands.{command_done, command_end, offer_again, shared_again};
ghost use Rattle.session_rules.specs.Shelf.{Exchange};
ghost use Rattle.apl_session.specs.Errands.{IsFirstAct, errand_rest};
ghost use Rattle.apl_session.specs.Standing.{Commands, IsAt, IsCommanded, IsPaused, MayAdvance, CommandMayGoOn, MayGoBehind, StandsIn, WithCalls};
ghost use Rattle.apl_session.specs.declared.errand.Phase.TheVariants as phase;
ghost use Rattle.apl_session.specs.declared.under_way.UnderWay.TheVariants as under_way;

use crate::errand::{Errand, Phase};
use crate::progress::Progress;
use crate::under_way::{UnderWay, boxed_errand};
use apl_arrays::{Line, LineList, Report, WantOfMemory};
use apl_io::Shelf;
use apl_values::global_value;
use apl_workspace::Remake;
use std::mem;
use sv_events::{Act, Answer, AnswerKind, copy_value};
use ws_commands::{Change, Todo};

impl Progress {
    /// Does a command up to its first act, or to its end. The shelf is called once, or not at all. It takes the memory of what
    /// is to be done; where that runs out, some of it may be done.
    pub(crate) fn command<K: Shelf>(
        &mut self,
        line: &Line,
        user: u32,
        shelf: &mut K,
    ) -> Result<(), WantOfMemory>
        requires none { self.old.under_way ≡ under_way.Nothing }
        requires free { self.old.terminal.definition ≡ None }
        ensures stands { OnOk result ((lines : List (List ℕ)) (answers : List PlainAnswer) (exchanges : List Exchange)
            → IsAt lines answers exchanges self.old.read (command_done line.now.items) self.old.terminal
            → WithCalls K.told K.faults user shelf.old shelf.new exchanges (λ all. StandsIn lines answers all self.new)) }
        ensures paused { OnOk result (IsPaused self.new.under_way) }
        ensures read { self.new.read ≡ self.old.read }
    {
        let own = line.copy(self.alloc)?;
        match self.terminal.prepare(line, user, shelf) {
            Ok(todo) => self.go_through(begun(own, todo)),
            Err(WantOfMemory) => {
                drop(own);
                Err(WantOfMemory)
            }
        }
    }

    /// Does what is left of a command, up to its next act, or to its end. It takes memory for the act, and for what is printed.
    pub(crate) fn go_through(&mut self, errand: Errand) -> Result<(), WantOfMemory>
        requires none { self.old.under_way ≡ under_way.Nothing }
        requires may { CommandMayGoOn self.old.terminal errand }
        ensures stands { OnOk result ((lines : List (List ℕ)) (answers : List PlainAnswer) (exchanges : List Exchange)
            → IsAt lines answers exchanges self.old.read (errand_rest errand) self.old.terminal → StandsIn lines answers exchanges self.new) }
        ensures paused { OnOk result (IsPaused self.new.under_way) }
        ensures read { self.new.read ≡ self.old.read }
    {
        match errand.phase {
            Phase::Retracting => self.retract_next(errand),
            Phase::Remaking => self.remake_next(errand),
        }
    }

    // Asks the retraction of the next name, or makes the change where none is left.
    fn retract_next(&mut self, errand: Errand) -> Result<(), WantOfMemory>
        requires none { self.old.under_way ≡ under_way.Nothing }
        requires may { CommandMayGoOn self.old.terminal errand }
        requires phase { errand.phase ≡ phase.Retracting }
        ensures stands { OnOk result ((lines : List (List ℕ)) (answers : List PlainAnswer) (exchanges : List Exchange)
            → IsAt lines answers exchanges self.old.read (errand_rest errand) self.old.terminal → StandsIn lines answers exchanges self.new) }
        ensures paused { OnOk result (IsPaused self.new.under_way) }
        ensures read { self.new.read ≡ self.old.read }
    {
        if errand.retracted < errand.todo.retract.as_slice().len() {
            let name = errand.todo.retract.as_slice()[errand.retracted];
            self.wait_for_command(errand, Act::Retract(name))
        } else {
            self.make_change(errand)
        }
    }

    // Makes the change, and goes on to the offers that are made again.
    fn make_change(&mut self, errand: Errand) -> Result<(), WantOfMemory>
        requires none { self.old.under_way ≡ under_way.Nothing }
        requires may { CommandMayGoOn self.old.terminal errand }
        requires phase { errand.phase ≡ phase.Retracting }
        requires all { length errand.todo.retract.items ≤ errand.retracted }
        ensures stands { OnOk result ((lines : List (List ℕ)) (answers : List PlainAnswer) (exchanges : List Exchange)
            → IsAt lines answers exchanges self.old.read (errand_rest errand) self.old.terminal → StandsIn lines answers exchanges self.new) }
        ensures paused { OnOk result (IsPaused self.new.under_way) }
        ensures read { self.new.read ≡ self.old.read }
    {
        let mut errand = errand;
        let change = mem::replace(&mut errand.todo.change, Change::Keep);
        self.terminal.finish(change);
        errand.phase = Phase::Remaking;
        self.remake_next(errand)
    }

    // Asks the next offer, or prints the lines of the command where none is left.
    fn remake_next(&mut self, errand: Errand) -> Result<(), WantOfMemory>
        requires none { self.old.under_way ≡ under_way.Nothing }
        requires free { self.old.terminal.definition ≡ None }
        requires phase { errand.phase ≡ phase.Remaking }
        ensures stands { OnOk result ((lines : List (List ℕ)) (answers : List PlainAnswer) (exchanges : List Exchange)
            → IsAt lines answers exchanges self.old.read (errand_rest errand) self.old.terminal → StandsIn lines answers exchanges self.new) }
        ensures paused { OnOk result (IsPaused self.new.under_way) }
        ensures read { self.new.read ≡ self.old.read }
    {
        if errand.remade < errand.todo.remakes.as_slice().len() {
            let offer = errand.todo.remakes.as_slice()[errand.remade];
            self.ask_offer(errand, offer)
        } else {
            self.tell(errand)
        }
    }

    // Asks an offer. It takes memory for the value of its name.
    fn ask_offer(&mut self, errand: Errand, offer: Remake) -> Result<(), WantOfMemory>
        ensures asks { OnOk result (Commands errand (offer_again offer self.old.terminal.workspace) self.old self.new) }
        ensures read { self.new.read ≡ self.old.read }
    {
        match self.offer_again(offer) {
            Ok(act) => self.wait_for_command(errand, act),
            Err(WantOfMemory) => {
                drop(errand);
                Err(WantOfMemory)
            }
        }
    }

    // Prints the lines of a command. It takes memory for them.
    fn tell(&mut self, errand: Errand) -> Result<(), WantOfMemory>
        ensures told { OnOk result (self.new.terminal ≡ telling errand.line.items errand.todo.counted errand.todo.lines.items self.old.terminal) }
        ensures rest { self.new ≡ record self.old { terminal = self.new.terminal } }
    {
        let mut errand = errand;
        let lines = mem::replace(&mut errand.todo.lines, LineList::new(self.alloc));
        let told = self.terminal.tell(&errand.line, errand.todo.counted, lines);
        drop(errand);
        told
    }

    // The act that makes an offer again, with the value that its name has. It takes memory for the value.
    fn offer_again(&self, offer: Remake) -> Result<Act, WantOfMemory>
        ensures { IfOk result (λ act. act ≡ offer_again offer self.now.terminal.workspace) }
    {
        Ok(Act::Offer {
            to: offer.to,
            local: offer.local,
            surrogate: offer.surrogate,
            value: copy_value(
                self.alloc,
                global_value(self.terminal.workspace(), &offer.local),
            )?,
        })
    }

    // Waits for the answer to an act of a command. It takes memory for what is left of the command.
    fn wait_for_command(&mut self, errand: Errand, act: Act) -> Result<(), WantOfMemory>
        ensures asks { OnOk result (Commands errand act self.old self.new) }
        ensures read { self.new.read ≡ self.old.read }
    {
        match boxed_errand(self.alloc, errand) {
            Ok(errand) => {
                drop(mem::replace(&mut self.under_way, UnderWay::Commanding(errand, act)));
                Ok(())
            }
            Err(WantOfMemory) => {
                drop(act);
                Err(WantOfMemory)
            }
        }
    }

    // A command may go on behind an answer. It takes memory for what is left of the command.
    fn answered(&mut self, errand: Errand) -> Result<(), WantOfMemory>
        ensures { OnOk result (MayGoBehind errand self.old self.new) }
    {
        let errand = boxed_errand(self.alloc, errand)?;
        drop(mem::replace(&mut self.under_way, UnderWay::Commanded(errand)));
        Ok(())
    }

    /// Does what the answer to the act of a command does: it ends the command, or the command may go on behind it. It takes
    /// memory for an offer, and for what is printed.
    pub(crate) fn hear_command(
        &mut self,
        errand: Errand,
        act: &Act,
        answer: Answer,
    ) -> Result<(), WantOfMemory>
        requires none { self.old.under_way ≡ under_way.Nothing }
        requires may { CommandMayGoOn self.old.terminal errand }
        requires first { IsFirstAct errand self.old.terminal.workspace act.now }
        ensures heard { OnOk result ((lines : List (List ℕ)) (answers : List PlainAnswer) (exchanges : List Exchange)
            → IsCommanded lines answers exchanges self.old.read self.old.terminal errand
            → StandsIn lines (answers ++ plain_answer answer ∷ []) exchanges self.new) }
        ensures may { OnOk result (MayAdvance self.new.terminal self.new.under_way) }
    {
        match command_end(answer.row().kind) {
            Some(report) => {
                drop(answer);
                drop(errand);
                self.terminal.name_alone(report)
            }
            None => self.go_behind(errand, answer),
        }
    }

    // Does what an answer brings that does not end the command.
    fn go_behind(&mut self, errand: Errand, answer: Answer) -> Result<(), WantOfMemory>
        requires none { self.old.under_way ≡ under_way.Nothing }
        requires may { CommandMayGoOn self.old.terminal errand }
        requires first { (asked : Act) × IsFirstAct errand self.old.terminal.workspace asked }
        requires goes { command_end (answer_row (plain_answer answer)).row.kind ≡ None }
        ensures heard { OnOk result ((lines : List (List ℕ)) (answers : List PlainAnswer) (exchanges : List Exchange)
            → IsCommanded lines answers exchanges self.old.read self.old.terminal errand
            → StandsIn lines (answers ++ plain_answer answer ∷ []) exchanges self.new) }
        ensures may { OnOk result (MayAdvance self.new.terminal self.new.under_way) }
    {
        match errand.phase {
            Phase::Retracting => self.unshare_next(errand, answer),
            Phase::Remaking => {
                drop(answer);
                self.share_next(errand)
            }
        }
    }

    // The next name is shared no more. It takes memory for what is left of the command.
    fn unshare_next(&mut self, errand: Errand, answer: Answer) -> Result<(), WantOfMemory>
        requires may { CommandMayGoOn self.old.terminal errand }
        requires phase { errand.phase ≡ phase.Retracting }
        requires some { errand.retracted < length errand.todo.retract.items }
        requires goes { command_end (answer_row (plain_answer answer)).row.kind ≡ None }
        ensures heard { OnOk result ((lines : List (List ℕ)) (answers : List PlainAnswer) (exchanges : List Exchange)
            → IsCommanded lines answers exchanges self.old.read self.old.terminal errand
            → StandsIn lines (answers ++ plain_answer answer ∷ []) exchanges self.new) }
        ensures may { OnOk result (MayAdvance self.new.terminal self.new.under_way) }
    {
        let mut errand = errand;
        let name = errand.todo.retract.as_slice()[errand.retracted];
        self.terminal.rules();
        self.terminal.unshare(&name, answer);
        errand.retracted += 1;
        self.answered(errand)
    }

    // The name of the next offer is shared again. It takes memory for its value and for the offer.
    fn share_next(&mut self, errand: Errand) -> Result<(), WantOfMemory>
        requires free { self.old.terminal.definition ≡ None }
        requires phase { errand.phase ≡ phase.Remaking }
        requires some { errand.remade < length errand.todo.remakes.items }
        ensures heard { OnOk result ((lines : List (List ℕ)) (answers : List PlainAnswer) (exchanges : List Exchange) (answer : PlainAnswer)
            → command_end (answer_row answer).row.kind ≡ None → IsCommanded lines answers exchanges self.old.read self.old.terminal errand
            → StandsIn lines (answers ++ answer ∷ []) exchanges self.new) }
        ensures may { OnOk result (MayAdvance self.new.terminal self.new.under_way) }
    {
        let mut errand = errand;
        let offer = errand.todo.remakes.as_slice()[errand.remade];
        match self.share_again(offer) {
            Ok(()) => {
                errand.remade += 1;
                self.answered(errand)
            }
            Err(WantOfMemory) => {
                drop(errand);
                Err(WantOfMemory)
            }
        }
    }

    // A name is shared again, with the value that it has. It takes memory for the value and for the offer.
    fn share_again(&mut self, offer: Remake) -> Result<(), WantOfMemory>
        requires { self.old.terminal.definition ≡ None }
        ensures shared { OnOk result (self.new.terminal ≡ shared_again offer self.old.terminal) }
        ensures rest { self.new ≡ record self.old { terminal = self.new.terminal } }
    {
        let copy = copy_value(
            self.alloc,
            global_value(self.terminal.workspace(), &offer.local),
        )?;
        self.terminal.share(offer, copy)
    }
}

// What is to be done for a command, of which nothing is done.
fn begun(line: Line, todo: Todo) -> Errand
    ensures { result ≡ record { line = line; todo = todo; phase = Phase.Retracting; retracted = 0; remade = 0 } }
{
    Errand {
        line,
        todo,
        phase: Phase::Retracting,
        retracted: 0,
        remade: 0,
    }
}

// The report by which an answer of this kind ends a command, if it does.
fn command_end(kind: AnswerKind) -> Option<Report>
    ensures { result ≡ command_end kind }
{
    match kind {
        AnswerKind::Full => Some(Report::SvFull),
        AnswerKind::OfferLimit => Some(Report::SvLimit),
        _ => None,
    }
}
