use crate::desk::Desk;
use crate::shelf::shelf_step;
use anyhow::Result;
use apl_io::MemoryShelf;
use case_devices::calls_of;
use case_fields::{names_text, report_text, unescaped};
use case_workspaces::{STEP_END, answers, natural_of, step};
use std::alloc::Global;

// The report of a step on the workspace, where it is refused.
fn change(desk: &mut Desk, text: &str) -> Result<Option<String>> {
    match step(desk.alloc, &mut desk.ws, text)? {
        Ok(()) => Ok(None),
        Err(fail) => Ok(Some(String::from_str(desk.alloc, report_text(fail)?)?)),
    }
}

// What a step gives that is no command: one on the shelf what it tells, and one on the workspace its report where it is
// refused. `user N` has that user give commands from there.
fn other_step(desk: &mut Desk, text: &str) -> Result<Option<String>> {
    let (word, rest) = text.split_once(" ").unwrap_or((text, ""));
    if word == "user" {
        desk.user = natural_of(rest)?;
        return Ok(None);
    }
    match shelf_step(desk.alloc, &mut desk.shelf, word, rest)? {
        Some(told) => Ok(Some(told)),
        None => change(desk, text),
    }
}

// What a step gives, where it gives something.
fn take(desk: &mut Desk, text: &str) -> Result<Option<String>> {
    if text.trim_start().starts_with(')') {
        Ok(Some(desk.command(text)?))
    } else {
        other_step(desk, text)
    }
}

// What steps give that give something.
fn take_all(desk: &mut Desk, steps: &str) -> Result<String> {
    let mut texts = Vec::new(desk.alloc);
    for text in unescaped(desk.alloc, steps)?.split(STEP_END) {
        if let Some(told) = take(desk, text)? {
            texts.push(told)?;
        }
    }
    Ok(texts.join(desk.alloc, STEP_END)?)
}

// What the workspace tells, and its id.
fn desk_text(desk: &Desk, asked: &str) -> Result<String> {
    let id = match desk.id {
        None => String::from_str(desk.alloc, "-")?,
        Some(name) => names_text(desk.alloc, &[name])?,
    };
    answers(desk.alloc, &desk.ws, ("id", id.as_str()), asked, STEP_END)
}

// What steps give, and what the workspace tells after them.
fn told_by(desk: &mut Desk, steps: &str, asked: &str) -> Result<String> {
    let mut text = take_all(desk, steps)?;
    text.push_str(" ¦ ")?;
    text.push_str(desk_text(desk, asked)?.as_str())?;
    Ok(text)
}

/// What steps on an empty workspace give that give something, over a shelf whose calls of these numbers fail, and what the
/// workspace tells after them.
pub fn commands_text(alloc: Global, fails: &str, steps: &str, asked: &str) -> Result<String> {
    let shelf = MemoryShelf::new(alloc, calls_of(alloc, fails)?);
    let mut desk = Desk::new(alloc, shelf);
    let told = told_by(&mut desk, steps, asked);
    drop(desk);
    told
}
