ghost use Rattle.std.specs.Prelude.{◌≡◌, ◌<◌, [], IfOk, OnOk, vec_len};
ghost use Rattle.line_trees.specs.Parsing.{plain_tree};
ghost use Rattle.apl_machine.specs.Alone.{IsOnShared};
ghost use Rattle.apl_machine.specs.Machine.{IsIdle, IsOpenStage, MayRun};
ghost use Rattle.apl_machine.specs.Runs.{IsTreeOf};

use crate::notes::Notes;
use anyhow::{Context, Result, bail, ensure};
use apl_arrays::{Fail, Line, LineList};
use apl_machine::{LineRead, Machine, Stop, hear_alone, read_line};
use apl_meaning::{input_shown, report_line};
use apl_operators::Steps;
use apl_workspace::Workspace;
use case_fields::{glyphs_text, line_of, unescaped};
use line_trees::Tree;
use std::alloc::Global;
use std::marker::Brand;
use std::sync::ledger::{Blank, Ledger};
use sv_events::{Act, Answer, Entry, PairList};
use sv_journal::{read, text_of};

/// A script that is played: the answers that are left, the last one first, and the printed lines and acts so far.
#[derive(Debug, Drop)]
pub struct Play {
    pub alloc: Global,
    pub answers: Vec<Answer>,
    pub printed: Notes,
    pub acts: Notes,
}

impl Play {
    /// Evaluates a line on a workspace.
    pub fn evaluate(&mut self, workspace: Workspace, text: &str) -> Result<Workspace>
        requires { workspace.frames ≡ [] }
        ensures { IfOk result (λ after. after.frames ≡ []) }
    {
        match line_of(self.alloc, text) {
            Ok(line) => self.take_line(workspace, &line),
            Err(error) => {
                drop(workspace);
                Err(error)
            }
        }
    }

    /// What is printed, asked and left of it all, in this order.
    pub fn into_text(self, left: &str) -> Result<String> {
        let Play {
            answers,
            printed,
            acts,
            ..
        } = self;
        let is_done = answers.is_empty();
        drop(answers);
        ensure!(is_done, "answers are left");
        let mut text = printed.into_text()?;
        text.push_str(" ¦ ")?;
        text.push_str(acts.into_text()?.as_str())?;
        text.push_str(" ¦ ")?;
        text.push_str(left)?;
        Ok(text)
    }

    // Evaluates a line as it is read.
    fn take_line(&mut self, workspace: Workspace, line: &Line) -> Result<Workspace>
        requires { workspace.frames ≡ [] }
        ensures { IfOk result (λ after. after.frames ≡ []) }
    {
        match read_line(self.alloc, &workspace, line) {
            Ok(LineRead::Alone(act)) => self.make_alone(workspace, line, act),
            Ok(LineRead::Tree(tree)) => self.run_line(workspace, line, tree),
            Err(_) => {
                drop(workspace);
                bail!("a line is no statement")
            }
        }
    }

    // Evaluates a line that is one act alone.
    fn make_alone(&mut self, workspace: Workspace, line: &Line, act: Act) -> Result<Workspace>
        requires frames { workspace.frames ≡ [] }
        requires shared { IsOnShared workspace act }
        ensures { IfOk result (λ after. after.frames ≡ []) }
    {
        let mut workspace = workspace;
        let made = self.make(&mut workspace, line, &act);
        let noted = note_act(self.alloc, &mut self.acts, act);
        kept_where_done(workspace, made.and(noted))
    }

    // Makes an act alone: its answer is the next one.
    fn make(&mut self, workspace: &mut Workspace, line: &Line, act: &Act) -> Result<()>
        requires { IsOnShared workspace.old act.now }
        ensures { workspace.new.frames ≡ workspace.old.frames }
    {
        let answer = self.answers.pop().context("no answer is left")?;
        let mut output = LineList::new(self.alloc);
        let heard = hear_alone(self.alloc, workspace, act, answer, &mut output);
        note_lines(self.alloc, &mut self.printed, output)?;
        match heard {
            Ok(()) => Ok(()),
            Err(fail) => note_report(self.alloc, &mut self.printed, fail, line),
        }
    }

    // Evaluates a line that has this tree.
    fn run_line(&mut self, workspace: Workspace, line: &Line, tree: Tree) -> Result<Workspace>
        requires frames { workspace.frames ≡ [] }
        requires tree { IsTreeOf workspace line.now.items (plain_tree tree) }
        ensures { IfOk result (λ after. after.frames ≡ []) }
    {
        let mut machine = Machine::new(self.alloc, workspace);
        match self.run_tree(&mut machine, line, tree) {
            Ok(()) => Ok(machine.into_workspace()),
            Err(error) => {
                drop(machine);
                Err(error)
            }
        }
    }

    // Runs a machine over a line that has this tree.
    fn run_tree(&mut self, machine: &mut Machine, line: &Line, tree: Tree) -> Result<()>
        requires idle { IsIdle machine.old }
        requires tree { IsTreeOf machine.old.interpreter.workspace line.now.items (plain_tree tree) }
        ensures { OnOk result (IsIdle machine.new) }
    {
        machine.begin(line, tree)?;
        self.run::<Brand>(machine, Blank::new(1))
    }

    // Runs a machine until its line is over.
    fn run<L: Ledger>(&mut self, machine: &mut Machine, blank: Blank) -> Result<()>
        requires may { MayRun machine.old.stage }
        requires name { blank.name ≡ L.name }
        requires parts { blank.parts ≡ L.parts }
        requires some { 0 < blank.parts }
        ensures { OnOk result (IsIdle machine.new) }
    {
        let mut steps = Steps::<L>::new(blank);
        'acts: loop {
            match machine.run(&mut steps)? {
                Stop::Done | Stop::Failed(_) => {
                    return note_lines(self.alloc, &mut self.printed, machine.take_output());
                }
                Stop::Asks(act) => self.answer(machine, act)?,
            }
        }
    }

    // Notes an act that is open, and gives it the next answer.
    fn answer(&mut self, machine: &mut Machine, act: Act) -> Result<()>
        requires { IsOpenStage machine.old.stage }
        ensures runs { OnOk result (MayRun machine.new.stage) }
        ensures taken { OnOk result (vec_len self.new.answers < vec_len self.old.answers) }
    {
        note_act(self.alloc, &mut self.acts, act)?;
        note_lines(self.alloc, &mut self.printed, machine.take_output())?;
        let answer = self.answers.pop().context("no answer is left")?;
        Ok(machine.resume(answer)?)
    }
}

/// A workspace on which something was done, or why it was not.
pub fn kept_where_done(workspace: Workspace, done: Result<()>) -> Result<Workspace>
    ensures { IfOk result (λ after. after ≡ workspace) }
{
    match done {
        Ok(()) => Ok(workspace),
        Err(error) => {
            drop(workspace);
            Err(error)
        }
    }
}

// Notes the two lines of the report by which a line ended.
fn note_report(alloc: Global, printed: &mut Notes, fail: Fail, line: &Line) -> Result<()> {
    let Fail::Report(report) = fail else {
        bail!("memory ran out");
    };
    let mut lines = LineList::new(alloc);
    lines.push(report_line(alloc, report)?)?;
    lines.push(input_shown(alloc, line.as_slice())?)?;
    note_lines(alloc, printed, lines)
}

// Notes lines that were printed.
fn note_lines(alloc: Global, printed: &mut Notes, lines: LineList) -> Result<()> {
    note_each(alloc, printed, lines.as_slice())
}

/// Notes each of these lines.
pub fn note_each(alloc: Global, printed: &mut Notes, lines: &[Line]) -> Result<()> {
    for line in lines {
        printed.push(glyphs_text(alloc, line.as_slice())?)?;
    }
    Ok(())
}

/// Notes an act that was asked: the text of its entry without its place, its party and its answer.
pub fn note_act(alloc: Global, acts: &mut Notes, act: Act) -> Result<()> {
    let text = entry_text(alloc, act)?;
    let act = text
        .strip_prefix("1 1001 ")
        .and_then(|rest| rest.strip_suffix(" : done"))
        .context("no text of an act")?;
    acts.push(String::from_str(alloc, act)?)
}

// The text of an entry of this act, which is done.
fn entry_text(alloc: Global, act: Act) -> Result<String> {
    let entry = Entry {
        party: 1001,
        act,
        answer: Answer::Done,
        made: PairList::new(alloc),
    };
    let line = text_of(alloc, 1, &entry);
    drop(entry);
    glyphs_text(alloc, line?.as_slice())
}

/// The answers that a text says, the last one first: each as the journal writes it, or `full`; `N×` before one says that it
/// comes N times. None where it is `-`. It may have escapes.
pub fn answers_of(alloc: Global, text: &str) -> Result<Vec<Answer>> {
    let mut answers = Vec::new(alloc);
    if text == "-" {
        return Ok(answers);
    }
    for part in unescaped(alloc, text)?.split(" · ") {
        let (times, answer) = part.split_once("×").unwrap_or(("1", part));
        let times: u64 = times.parse().context("no number of answers")?;
        for _ in 0..times {
            answers.push(answer_of(alloc, answer)?)?;
        }
    }
    answers.reverse();
    Ok(answers)
}

// One answer.
fn answer_of(alloc: Global, text: &str) -> Result<Answer> {
    if text == "full" {
        return Ok(Answer::Full);
    }
    let mut whole = String::from_str(alloc, "1 1001 ")?;
    whole.push_str(act_answered(text))?;
    whole.push_str(" : ")?;
    whole.push_str(text)?;
    let line = line_of(alloc, whole.as_str())?;
    match read(alloc, &line) {
        Ok((_, entry)) => Ok(answer_in(entry)),
        Err(_) => bail!("no answer: {text}"),
    }
}

// The answer of an entry.
fn answer_in(entry: Entry) -> Answer {
    let Entry {
        act,
        answer,
        made,
        ..
    } = entry;
    drop(act);
    drop(made);
    answer
}

// An act that has such an answer in a journal.
fn act_answered(text: &str) -> &str {
    match text.split(' ').next().unwrap_or("") {
        "degree" => "askdegree X",
        "granted" => "set X N()0",
        "limit" => "offer 0 X X none",
        "vector" => "askcontrol X",
        "parties" => "askparties",
        "names" => "asknames 1001",
        "kept" => "retract X",
        _ => "use X",
    }
}
