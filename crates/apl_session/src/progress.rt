ghost use Rattle.std.specs.Prelude.{◌≡◌, ◌||◌, ◌∷◌, [], ◌++◌, ℕ, List, IfOk, IsOk, OnOk, length, map};
ghost use Rattle.std.specs.Option.{option_copied};
ghost use Rattle.apl_arrays.specs.List.{glyphs_in};
ghost use Rattle.sv_events.specs.Answer.{PlainAnswer, plain_answer};
ghost use Rattle.apl_terminal.specs.Terminal.{new_terminal};
ghost use Rattle.apl_machine.specs.Machine.{IsOpenStage};
ghost use Rattle.session_rules.specs.Shelf.{Exchange};
ghost use Rattle.apl_session.specs.Errands.{IsFirstAct};
ghost use Rattle.apl_session.specs.Standing.{CommandMayGoOn, IsCommanded, SessionComesTo, IsAnswered, IsHanded, IsOpenLine, IsPaused, MayAdvance, StandsIn, WithCalls, has_open_act, open_act};

use crate::errand::Errand;
use crate::spare::Spare;
use crate::under_way::UnderWay;
use apl_arrays::{Line, LineList, WantOfMemory};
use apl_io::Shelf;
use apl_machine::Machine;
use apl_operators::Steps;
use apl_terminal::Terminal;
use std::alloc::Global;
use std::mem;
use std::sync::ledger::Ledger;
use sv_events::{Act, Answer};

/// How far a user's lines are: what the user works on, how many lines were read, and the line that is under way.
#[derive(Drop)]
pub struct Progress {
    pub(crate) alloc: Global,
    pub(crate) terminal: Terminal,
    pub(crate) read: usize,
    pub(crate) under_way: UnderWay,
    pub(crate) spare: Spare,
}

impl Progress {
    /// No line was read.
    pub fn new(alloc: Global) -> Progress
        ensures terminal { result.terminal ≡ new_terminal }
        ensures read { result.read ≡ 0 }
        ensures under_way { result.under_way ≡ UnderWay.Nothing }
    {
        Progress {
            alloc,
            terminal: Terminal::new(alloc),
            read: 0,
            under_way: UnderWay::Nothing,
            spare: Spare::new(),
        }
    }

    /// Goes on with these lines of a user, of which the first were read, up to the next act, or to the end. Commands call the
    /// user's shelf. It takes the memory of what is evaluated and printed; where that runs out, some of it may be done.
    pub fn advance<L: Ledger, K: Shelf>(
        &mut self,
        lines: &[Line],
        user: u32,
        shelf: &mut K,
        steps: &mut Steps<L>,
    ) -> Result<(), WantOfMemory>
        requires { MayAdvance self.old.terminal self.old.under_way }
        ensures { OnOk result ((answers : List PlainAnswer) (exchanges : List Exchange) → StandsIn (map glyphs_in lines.now) answers exchanges self.old
            → WithCalls K.told K.faults user shelf.old shelf.new exchanges (λ all. SessionComesTo (map glyphs_in lines.now) answers all self.new)) }
    {
        self.go_on(steps)?;
        self.take_lines(lines, user, shelf, steps)
    }

    // Reads the lines that are left, up to the first act.
    fn take_lines<L: Ledger, K: Shelf>(
        &mut self,
        lines: &[Line],
        user: u32,
        shelf: &mut K,
        steps: &mut Steps<L>,
    ) -> Result<(), WantOfMemory>
        requires { IsPaused self.old.under_way }
        ensures { OnOk result ((answers : List PlainAnswer) (exchanges : List Exchange) → StandsIn (map glyphs_in lines.now) answers exchanges self.old
            → WithCalls K.told K.faults user shelf.old shelf.new exchanges (λ all. SessionComesTo (map glyphs_in lines.now) answers all self.new)) }
    {
        while self.read < lines.len() {
            if self.rests() {
                return Ok(());
            }
            self.take_line(&lines[self.read], user, shelf, steps)?;
        }
        Ok(())
    }

    // Whether no line is to be read now: an act waits for its answer, or the user has ended the session.
    fn rests(&self) -> bool
        ensures { result ≡ (has_open_act self.now.under_way || self.now.terminal.ended) }
    {
        self.has_open_act() || self.terminal.has_ended()
    }

    /// Whether an act waits for its answer.
    pub(crate) fn has_open_act(&self) -> bool
        ensures { result ≡ has_open_act self.now.under_way }
    {
        matches!(
            self.under_way,
            UnderWay::Asking(..) | UnderWay::Alone(_) | UnderWay::Commanding(..)
        )
    }

    /// The act that waits for its answer, if one does.
    pub fn open_act(&self) -> Option<&Act>
        ensures { option_copied result ≡ open_act self.now.under_way }
    {
        match &self.under_way {
            UnderWay::Alone(act) => Some(act),
            UnderWay::Asking(_, act) => Some(act),
            UnderWay::Commanding(_, act) => Some(act),
            _ => None,
        }
    }

    /// Gives the answer to the act that waits, in one of these lines, and gives back the act. A line that is this act alone
    /// is done then, and what the answer does for a command, which takes memory for what they print; any other line is handed
    /// the answer, and nothing is evaluated.
    pub fn take_answer(&mut self, lines: &[Line], answer: Answer) -> Result<Act, WantOfMemory>
        requires { IsOpenLine (length lines.now) self.old.read self.old.terminal self.old.under_way }
        ensures { IfOk result (λ act. (answers : List PlainAnswer) (exchanges : List Exchange) → StandsIn (map glyphs_in lines.now) answers exchanges self.old → IsAnswered (map glyphs_in lines.now) answers exchanges act (plain_answer answer) self.new) }
    {
        match mem::replace(&mut self.under_way, UnderWay::Nothing) {
            UnderWay::Alone(act) => match self.hear(&lines[self.read - 1], &act, answer) {
                Ok(()) => Ok(act),
                Err(WantOfMemory) => {
                    drop(act);
                    Err(WantOfMemory)
                }
            },
            UnderWay::Asking(machine, act) => match self.hand(machine, answer) {
                Ok(()) => Ok(act),
                Err(WantOfMemory) => {
                    drop(act);
                    Err(WantOfMemory)
                }
            },
            UnderWay::Commanding(errand, act) => self.answer_command(errand, act, answer),
            other => {
                drop(other);
                drop(answer);
                Err(WantOfMemory)
            }
        }
    }

    // Does what the answer to the act of a command does, and gives back the act. It takes memory for an offer, and for what is
    // printed.
    fn answer_command(
        &mut self,
        errand: Box<Errand>,
        act: Act,
        answer: Answer,
    ) -> Result<Act, WantOfMemory>
        requires none { self.old.under_way ≡ UnderWay.Nothing }
        requires may { CommandMayGoOn self.old.terminal errand.value }
        requires first { IsFirstAct errand.value self.old.terminal.workspace act }
        ensures act { IfOk result (λ given. given ≡ act) }
        ensures heard { OnOk result ((lines : List (List ℕ)) (answers : List PlainAnswer) (exchanges : List Exchange)
            → IsCommanded lines answers exchanges self.old.read self.old.terminal errand.value
            → StandsIn lines (answers ++ plain_answer answer ∷ []) exchanges self.new) }
        ensures may { OnOk result (MayAdvance self.new.terminal self.new.under_way) }
    {
        match self.hear_command(Box::into_inner(errand), &act, answer) {
            Ok(()) => Ok(act),
            Err(WantOfMemory) => {
                drop(act);
                Err(WantOfMemory)
            }
        }
    }

    // Hands an answer to the line that asked for it. It takes no memory.
    fn hand(&mut self, machine: Box<Machine>, answer: Answer) -> Result<(), WantOfMemory>
        requires { IsOpenStage machine.value.stage }
        ensures granted { IsOk result }
        ensures stands { IsHanded machine.value (plain_answer answer) self.old self.new }
    {
        let mut machine = machine;
        match machine.resume(answer) {
            Ok(()) => {
                drop(mem::replace(&mut self.under_way, UnderWay::Answered(machine)));
                Ok(())
            }
            Err(WantOfMemory) => {
                drop(machine);
                Err(WantOfMemory)
            }
        }
    }

    /// The lines that were echoed and printed so far.
    pub fn transcript(&self) -> &[Line]
        ensures { map glyphs_in result.now ≡ self.now.terminal.transcript }
    {
        self.terminal.transcript()
    }

    /// The same as a list.
    pub fn into_transcript(self) -> LineList
        ensures { result.items ≡ self.terminal.transcript }
    {
        let Progress {
            terminal,
            under_way,
            spare,
            ..
        } = self;
        drop(under_way);
        drop(spare);
        terminal.into_transcript()
    }

    // Goes on with the line whose act was answered, if there is one.
    fn go_on<L: Ledger>(&mut self, steps: &mut Steps<L>) -> Result<(), WantOfMemory>
        requires { MayAdvance self.old.terminal self.old.under_way }
        ensures stands { OnOk result ((lines : List (List ℕ)) (answers : List PlainAnswer) (exchanges : List Exchange) → StandsIn lines answers exchanges self.old → StandsIn lines answers exchanges self.new) }
        ensures paused { OnOk result (IsPaused self.new.under_way) }
        ensures read { self.new.read ≡ self.old.read }
    {
        match mem::replace(&mut self.under_way, UnderWay::Nothing) {
            UnderWay::Nothing => Ok(()),
            UnderWay::Answered(machine) => self.run(machine, steps),
            UnderWay::Commanded(errand) => self.go_through(Box::into_inner(errand)),
            other => {
                drop(other);
                Err(WantOfMemory)
            }
        }
    }
}
