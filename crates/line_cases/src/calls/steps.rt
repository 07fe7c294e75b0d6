ghost use Rattle.std.specs.Prelude.{IfOk, IfSome};
ghost use Rattle.apl_workspace.specs.Function.{IsFunction};

use crate::calls::accounts::{Account, account_at_last, tells};
use crate::calls::granting::is_granted;
use crate::calls::letters::letter;
use anyhow::Result;
use apl_arrays::{Array, LineList};
use apl_workspace::{Args, Function, PRINTED_LIMIT, Seen, Workspace};
use case_fields::line_of;
use case_workspaces::{is_function, is_variable, takes};
use std::alloc::Global;
use std::mem;

/// A call: the name X has a value, a function F is defined, X is shared, glyphs are printed, F is entered with an argument
/// or left, the workspace is exchanged for its copy, or X is shared no more.
#[derive(Clone, Copy, Debug)]
pub enum Step {
    Assign(i64),
    Define,
    Mark(i64),
    Print(u64),
    Enter(i64),
    Leave,
    Copy,
    Unmark(i64),
}

// F, with a local X and a line with a label, or nothing where its header is none.
fn function(alloc: Global) -> Result<Option<Function>>
    ensures { IfOk result (λ made. IfSome made IsFunction) }
{
    let mut lines = LineList::new(alloc);
    lines.push(line_of(alloc, "L:X")?)?;
    Ok(Function::of(alloc, line_of(alloc, "F B;X")?, lines)?)
}

fn assign(ws: &mut Workspace, number: i64) -> Result<bool> {
    let x = letter(b'X')?;
    if matches!(ws.look(&x), Seen::Shared(_)) {
        return Ok(false);
    }
    is_granted(ws.assign(&x, Array::of_number(number)))
}

fn define(alloc: Global, ws: &mut Workspace) -> Result<bool> {
    let Some(function) = function(alloc)? else {
        return Ok(false);
    };
    if is_variable(ws, &function.name()) {
        drop(function);
        return Ok(false);
    }
    is_granted(ws.define(function))
}

fn mark(ws: &mut Workspace, number: i64) -> Result<bool> {
    let x = letter(b'X')?;
    if is_function(ws, &x) {
        return Ok(false);
    }
    is_granted(ws.mark(&x, Some(Array::of_number(number)), x, 0))
}

fn print(ws: &mut Workspace, glyphs: u64) -> bool {
    if glyphs > PRINTED_LIMIT - ws.printed() {
        return false;
    }
    ws.count_printed(glyphs);
    true
}

fn enter(ws: &mut Workspace, number: i64) -> Result<bool> {
    let f = letter(b'F')?;
    let args = Args {
        left: None,
        right: Some(Array::of_number(number)),
    };
    let fits = match ws.look(&f) {
        Seen::Function(function) => takes(function, &args),
        _ => false,
    };
    if !fits {
        drop(args);
        return Ok(false);
    }
    is_granted(ws.push_frame(&f, args))
}

fn leave(ws: &mut Workspace) -> bool {
    if ws.depth() == 0 {
        return false;
    }
    ws.pop_frame();
    true
}

fn copy(ws: &mut Workspace) -> Result<bool> {
    if ws.depth() > 0 {
        return Ok(false);
    }
    let copy = ws.copy()?;
    drop(mem::replace(ws, copy));
    Ok(true)
}

fn unmark(ws: &mut Workspace, number: i64) -> Result<bool> {
    let x = letter(b'X')?;
    if !ws.is_shared(&x) {
        return Ok(false);
    }
    ws.unmark(&x, Some(Array::of_number(number)));
    Ok(true)
}

// Whether a call may be made and is granted. An `Err` says that memory was refused.
fn is_done(alloc: Global, ws: &mut Workspace, step: Step) -> Result<bool> {
    match step {
        Step::Assign(number) => assign(ws, number),
        Step::Define => define(alloc, ws),
        Step::Mark(number) => mark(ws, number),
        Step::Print(glyphs) => Ok(print(ws, glyphs)),
        Step::Enter(number) => enter(ws, number),
        Step::Leave => Ok(leave(ws)),
        Step::Copy => copy(ws),
        Step::Unmark(number) => unmark(ws, number),
    }
}

// Whether a call is granted, at the second time where memory was refused at the first and the workspace told then what it
// told before.
fn is_taken_from(alloc: Global, ws: &mut Workspace, step: Step, before: &Account) -> bool {
    match is_done(alloc, ws, step).ok() {
        Some(is_so) => is_so,
        None => tells(ws, before) && is_done(alloc, ws, step).unwrap_or(false),
    }
}

/// Whether a call is granted, at the second time where memory was refused at the first and left the workspace as it was.
pub fn is_taken(alloc: Global, ws: &mut Workspace, step: Step) -> bool {
    match account_at_last(ws) {
        None => false,
        Some(before) => {
            let is_so = is_taken_from(alloc, ws, step, &before);
            drop(before);
            is_so
        }
    }
}
