use crate::conditions::{is_function, is_variable, takes};
use crate::functions::function_of;
use crate::holding::both;
use crate::numbers::natural_of;
use anyhow::{Context, Result, bail, ensure};
use apl_arrays::{Array, ELEMENT_LIMIT, Fail, Name};
use apl_workspace::{Args, PRINTED_LIMIT, Seen, Workspace, is_addressee};
use case_fields::{array_of, name_of, zeros};
use std::alloc::Global;
use std::mem;

/// What comes of a step: it may be refused.
pub type Outcome = Result<(), Fail>;

// The array that a step says. The escapes of a script are read before its steps are told apart, so a backslash that is left
// stands for itself.
fn value_of(alloc: Global, text: &str) -> Result<Array> {
    let field = text.replace(alloc, "\\", "\\x5C")?;
    array_of(alloc, field.as_str())
}

// The array that a step says, or none where it says `-`.
fn optional_of(alloc: Global, text: &str) -> Result<Option<Array>> {
    if text == "-" {
        Ok(None)
    } else {
        Ok(Some(value_of(alloc, text)?))
    }
}

fn assign(ws: &mut Workspace, name: &Name, value: Array) -> Result<Outcome> {
    if matches!(ws.look(name), Seen::Shared(_)) {
        drop(value);
        bail!("a shared name is not assigned");
    }
    Ok(ws.assign(name, value))
}

// Assigns as many zeros to the name W and a number as are left to weigh, or as an array holds.
fn fill_one(alloc: Global, ws: &mut Workspace, number: u32, left: usize) -> Result<Outcome> {
    let count = left.saturating_sub(1).min(ELEMENT_LIMIT);
    let name = name_of(alloc, format!(in alloc; "W{number}")?.as_str())?;
    assign(ws, &name, zeros(alloc, u32::try_from(count)?)?)
}

// Assigns zeros to names that are a W and a number, from 0 on, until the workspace weighs so much. A value weighs 1 and its
// items.
fn fill(alloc: Global, ws: &mut Workspace, weight: usize) -> Result<Outcome> {
    for number in 0..300_u32 {
        let left = weight.saturating_sub(ws.weight());
        if left == 0 {
            return Ok(Ok(()));
        }
        let outcome = fill_one(alloc, ws, number, left)?;
        if outcome.is_err() {
            return Ok(outcome);
        }
    }
    bail!("the weight was not reached");
}

fn define(alloc: Global, ws: &mut Workspace, text: &str) -> Result<Outcome> {
    let function = function_of(alloc, text)?;
    if is_variable(ws, &function.name()) {
        drop(function);
        bail!("a variable is not defined");
    }
    Ok(ws.define(function))
}

// Erases a name, which is there or is not.
fn erase(ws: &mut Workspace, name: &Name, is_there: bool) -> Result<Outcome> {
    ensure!(!ws.is_shared(name), "a shared name is not erased");
    ensure!(ws.erase(name) == is_there, "another answer to an erasure");
    Ok(Ok(()))
}

// Marks a name with a value, a surrogate and an addressee.
fn mark(alloc: Global, ws: &mut Workspace, name: &Name, text: &str) -> Result<Outcome> {
    let (front, to) = text.rsplit_once(" ").context("no addressee")?;
    let (value, surrogate) = front.rsplit_once(" ").context("no surrogate")?;
    let surrogate = name_of(alloc, surrogate)?;
    let to = natural_of(to)?;
    ensure!(is_addressee(to), "no party that an offer is made to");
    ensure!(!is_function(ws, name), "a function is not shared");
    Ok(ws.mark(name, optional_of(alloc, value)?, surrogate, to))
}

fn unmark(alloc: Global, ws: &mut Workspace, name: &Name, text: &str) -> Result<Outcome> {
    ensure!(ws.is_shared(name), "the name is not shared");
    ws.unmark(name, optional_of(alloc, text)?);
    Ok(Ok(()))
}

fn renew(alloc: Global, ws: &mut Workspace, name: &Name, text: &str) -> Result<Outcome> {
    ensure!(ws.is_shared(name), "the name is not shared");
    Ok(ws.renew(name, value_of(alloc, text)?))
}

// Enters a function with a left and a right argument, or with none. WS FULL is told where its frame does not fit, or 100 are
// under way.
fn enter(alloc: Global, ws: &mut Workspace, name: &Name, text: &str) -> Result<Outcome> {
    let fields = if text.is_empty() { "- -" } else { text };
    let (left, right) = fields.split_once(" ").context("no right argument")?;
    let (left, right) = both(optional_of(alloc, left), optional_of(alloc, right))?;
    let args = Args { left, right };
    let fits = match ws.look(name) {
        Seen::Function(function) => takes(function, &args),
        _ => false,
    };
    if !fits {
        drop(args);
        bail!("no function with these arguments");
    }
    let is_full = !ws.frame_fits(name, args.left.as_ref(), args.right.as_ref())
        || ws.depth() >= 100;
    let outcome = ws.push_frame(name, args);
    ensure!(
        matches!(outcome, Err(Fail::Report(_))) == is_full,
        "WS FULL is told otherwise than of the frame"
    );
    Ok(outcome)
}

// Enters a function without arguments so often, or until it is refused.
fn deepen(alloc: Global, ws: &mut Workspace, name: &Name, times: u32) -> Result<Outcome> {
    for _ in 0..times {
        let outcome = enter(alloc, ws, name, "")?;
        if outcome.is_err() {
            return Ok(outcome);
        }
    }
    Ok(Ok(()))
}

fn leave(ws: &mut Workspace) -> Result<Outcome> {
    ensure!(ws.depth() > 0, "no function is under way");
    ws.pop_frame();
    Ok(Ok(()))
}

fn count(ws: &mut Workspace, glyphs: u64) -> Result<Outcome> {
    let left = PRINTED_LIMIT - ws.printed();
    ensure!(glyphs <= left, "the limit of printed glyphs");
    ws.count_printed(glyphs);
    Ok(Ok(()))
}

// The workspace is exchanged for its copy.
fn copy(ws: &mut Workspace) -> Result<Outcome> {
    ensure!(ws.depth() == 0, "a function is under way");
    let copy = ws.copy()?;
    drop(mem::replace(ws, copy));
    Ok(Ok(()))
}

// A step with a name.
fn step_of_name(alloc: Global, ws: &mut Workspace, word: &str, rest: &str) -> Result<Outcome> {
    let (name, rest) = rest.split_once(" ").unwrap_or((rest, ""));
    let name = name_of(alloc, name)?;
    match word {
        "assign" => assign(ws, &name, value_of(alloc, rest)?),
        "erase" => erase(ws, &name, true),
        "miss" => erase(ws, &name, false),
        "mark" => mark(alloc, ws, &name, rest),
        "unmark" => unmark(alloc, ws, &name, rest),
        "renew" => renew(alloc, ws, &name, rest),
        "enter" => enter(alloc, ws, &name, rest),
        "deepen" => deepen(alloc, ws, &name, natural_of(rest)?),
        _ => bail!("no step: {word}"),
    }
}

/// Does a step.
pub fn step(alloc: Global, ws: &mut Workspace, text: &str) -> Result<Outcome> {
    let (word, rest) = text.split_once(" ").unwrap_or((text, ""));
    match word {
        "define" => define(alloc, ws, rest),
        "fill" => fill(alloc, ws, natural_of(rest)? as usize),
        "leave" => leave(ws),
        "count" => count(ws, u64::from(natural_of(rest)?)),
        "copy" => copy(ws),
        _ => step_of_name(alloc, ws, word, rest),
    }
}
