ghost use Rattle.std.specs.Prelude.{◌≡◌, [], IfOk};
ghost use Rattle.apl_workspace.specs.Function.{IsFunction};
ghost use Rattle.apl_workspace.specs.Meaning.{is_variable_meaning};
ghost use Rattle.apl_workspace.specs.Workspace.{global_in};

use crate::machines::{Play, answers_of, kept_where_done};
use crate::notes::Notes;
use crate::workspaces::told;
use anyhow::{Context, Result, bail};
use apl_arrays::{LineList, Name};
use apl_workspace::{Function, Seen, Workspace};
use case_fields::line_of;
use case_tables::Trial;
use std::alloc::Global;

/// Lines on one workspace: the steps, `define HEADER` with ` ⋄ ` before each line or a line to be evaluated, with ` · `
/// between; the answers, with ` · ` between; the printed lines, the acts, and what the workspace tells then.
#[derive(Clone, Copy, Debug)]
pub struct Lines;

impl Trial for Lines {
    fn given(&self) -> usize {
        2
    }

    fn found(&self, alloc: Global, fields: &[&str]) -> Result<String> {
        let [steps, answers, ..] = fields else {
            bail!("steps and answers are wanted");
        };
        let mut play = Play {
            alloc,
            answers: answers_of(alloc, answers)?,
            printed: Notes::new(alloc),
            acts: Notes::new(alloc),
        };
        let workspace = take_steps(&mut play, Workspace::new(alloc), steps)?;
        let left = told(alloc, &workspace);
        drop(workspace);
        play.into_text(left?.as_str())
    }
}

// Each step on the workspace that the one before it left.
fn take_steps(play: &mut Play, workspace: Workspace, steps: &str) -> Result<Workspace>
    requires { workspace.frames ≡ [] }
    ensures { IfOk result (λ after. after.frames ≡ []) }
{
    let mut workspace = workspace;
    for step in steps.split(" · ") {
        workspace = take_step(play, workspace, step)?;
    }
    Ok(workspace)
}

// A function is defined, or a line is evaluated.
fn take_step(play: &mut Play, workspace: Workspace, step: &str) -> Result<Workspace>
    requires { workspace.frames ≡ [] }
    ensures { IfOk result (λ after. after.frames ≡ []) }
{
    match step.strip_prefix("define ") {
        None => play.evaluate(workspace, step),
        Some(text) => {
            let mut workspace = workspace;
            let defined = define(play.alloc, &mut workspace, text);
            kept_where_done(workspace, defined)
        }
    }
}

// Defines the function of a header and of lines, whose name is no variable.
fn define(alloc: Global, workspace: &mut Workspace, text: &str) -> Result<()>
    ensures { workspace.new.frames ≡ workspace.old.frames }
{
    let function = function_of(alloc, text)?;
    if is_variable(workspace, &function.name()) {
        drop(function);
        bail!("a variable is not defined: {text}");
    }
    if workspace.define(function).is_err() {
        bail!("refused: {text}");
    }
    Ok(())
}

// Whether a global name is a variable, shared or not.
fn is_variable(workspace: &Workspace, name: &Name) -> bool
    ensures { result ≡ is_variable_meaning (global_in workspace.now name.now) }
{
    match workspace.global(name) {
        Seen::Value(_) | Seen::Shared(_) => true,
        Seen::Nothing | Seen::Function(_) | Seen::Label(_) => false,
    }
}

// The function of a header and of lines, with ` ⋄ ` before each.
fn function_of(alloc: Global, text: &str) -> Result<Function>
    ensures { IfOk result IsFunction }
{
    let mut parts = text.split(" ⋄ ");
    let header = line_of(alloc, parts.next().context("no header")?)?;
    let mut lines = LineList::new(alloc);
    for line in parts {
        lines.push(line_of(alloc, line)?)?;
    }
    Function::of(alloc, header, lines)?.context("no function")
}
