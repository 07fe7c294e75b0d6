ghost use Rattle.std.specs.Prelude.{OnOk};
ghost use Rattle.apl_session.specs.Wants.{MayGoOn};

use crate::machines::{answers_of, note_act, note_each};
use crate::notes::Notes;
use anyhow::{Context, Result, bail};
use apl_arrays::LineList;
use apl_io::MemoryShelf;
use apl_session::{Session, Wants};
use case_devices::calls_of;
use case_fields::{line_of, unescaped};
use case_tables::Trial;
use std::alloc::Global;
use sv_events::Answer;

/// Sessions of user 1001: the calls of the shelf that fail, the lines and the answers to their acts; what is printed, and the
/// acts.
#[derive(Clone, Copy, Debug)]
pub struct Sessions;

impl Trial for Sessions {
    fn given(&self) -> usize {
        3
    }

    fn found(&self, alloc: Global, fields: &[&str]) -> Result<String> {
        let [fails, lines, answers, ..] = fields else {
            bail!("calls, lines and answers are wanted");
        };
        let shelf = MemoryShelf::new(alloc, calls_of(alloc, *fails)?);
        let lines = lines_of(alloc, *lines)?;
        let mut answers = answers_of(alloc, *answers)?;
        let mut session = Session::new(alloc, 1001, lines, shelf);
        let told = told_by(alloc, &mut session, &mut answers);
        drop(session);
        drop(answers);
        told
    }
}

// The lines of a field, which may have escapes.
fn lines_of(alloc: Global, field: &str) -> Result<LineList> {
    let mut lines = LineList::new(alloc);
    for text in unescaped(alloc, field)?.split(" · ") {
        lines.push(line_of(alloc, text)?)?;
    }
    Ok(lines)
}

// What a session prints and asks that is given all these answers, the last one first, and is finished then.
fn told_by(
    alloc: Global,
    session: &mut Session<MemoryShelf>,
    answers: &mut Vec<Answer>,
) -> Result<String>
    requires { MayGoOn session.old.stage }
{
    let mut acts = Notes::new(alloc);
    give_all(alloc, session, answers, &mut acts)?;
    finish(session)?;
    let mut printed = Notes::new(alloc);
    note_each(alloc, &mut printed, session.transcript())?;
    let mut text = printed.into_text()?;
    text.push_str(" ¦ ")?;
    text.push_str(acts.into_text()?.as_str())?;
    Ok(text)
}

// Gives all these answers, the last one first.
fn give_all(
    alloc: Global,
    session: &mut Session<MemoryShelf>,
    answers: &mut Vec<Answer>,
    acts: &mut Notes,
) -> Result<()>
    requires { MayGoOn session.old.stage }
    ensures { OnOk result (MayGoOn session.new.stage) }
{
    for _given in 0..answers.len() {
        give_next(alloc, session, answers, acts)?;
    }
    Ok(())
}

// Gives the next answer to the act that is asked.
fn give_next(
    alloc: Global,
    session: &mut Session<MemoryShelf>,
    answers: &mut Vec<Answer>,
    acts: &mut Notes,
) -> Result<()>
    requires { MayGoOn session.old.stage }
    ensures { OnOk result (MayGoOn session.new.stage) }
{
    match session.next()? {
        Wants::Act(act) => {
            note_act(alloc, acts, act)?;
            let answer = answers.pop().context("no answer is left")?;
            Ok(session.answer(answer)?)
        }
        Wants::Finished => bail!("answers are left"),
    }
}

// Goes on to the end of a session's lines.
fn finish(session: &mut Session<MemoryShelf>) -> Result<()>
    requires { MayGoOn session.old.stage }
{
    match session.next()? {
        Wants::Act(act) => {
            drop(act);
            bail!("no answer is left")
        }
        Wants::Finished => Ok(()),
    }
}
