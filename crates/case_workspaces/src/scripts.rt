use crate::holding::kept;
use crate::questions::answers;
use crate::steps::step;
use anyhow::{Result, bail};
use apl_workspace::Workspace;
use case_fields::{report_text, unescaped};
use std::alloc::Global;

/// What stands between steps, between questions, and between the lines of a definition.
pub const STEP_END: &str = " · ";

// What stands before each question that is asked right after a step.
const QUESTION: &str = " ? ";

// Does a step of this number: the report with which it is refused, and the number, or nothing where it is not.
fn refusal(alloc: Global, ws: &mut Workspace, text: &str, number: usize) -> Result<Option<String>> {
    match step(alloc, ws, text)? {
        Ok(()) => Ok(None),
        Err(fail) => {
            let report = report_text(fail)?;
            Ok(Some(format!(in alloc; "{report} at {number}")?))
        }
    }
}

// Does the steps of a script: the last refusal and its step, counted from 1, or `-` where none was. Where the workspace
// tells otherwise after a step, the script ends with an error, which is the step's number and what it tells.
fn run(alloc: Global, ws: &mut Workspace, script: &str) -> Result<Result<String, String>> {
    let mut refused = String::from_str(alloc, "-")?;
    for (at, part) in unescaped(alloc, script)?.split(STEP_END).enumerate() {
        let number = at.saturating_add(1);
        let (text, asked) = part.split_once(QUESTION).unwrap_or((part, "-"));
        if let Some(report) = refusal(alloc, ws, text, number)? {
            refused = report;
        }
        let told = answers(alloc, ws, ("refused", refused.as_str()), asked, QUESTION)?;
        if told.as_str() != asked {
            return Ok(Err(format!(in alloc; "after step {number}: {told}")?));
        }
    }
    Ok(Ok(refused))
}

// Does the steps of a script that ends with no error, or none where there is `-`.
fn make(alloc: Global, ws: &mut Workspace, steps: &str) -> Result<()> {
    if steps != "-"
        && let Err(told) = run(alloc, ws, steps)?
    {
        bail!("{told}");
    }
    Ok(())
}

/// The workspace that steps make, or an empty one where there is `-`.
pub fn workspace_of(alloc: Global, steps: &str) -> Result<Workspace> {
    let mut ws = Workspace::new(alloc);
    let made = make(alloc, &mut ws, steps);
    kept(ws, made)
}

// What is told after steps on a workspace, or after the one where it tells otherwise.
fn told_after(alloc: Global, ws: &mut Workspace, steps: &str, asked: &str) -> Result<String> {
    match run(alloc, ws, steps)? {
        Ok(refused) => answers(alloc, ws, ("refused", refused.as_str()), asked, STEP_END),
        Err(told) => Ok(told),
    }
}

/// What a workspace tells after steps, or after the one where it tells otherwise.
pub fn script_text(alloc: Global, steps: &str, asked: &str) -> Result<String> {
    let mut ws = Workspace::new(alloc);
    let told = told_after(alloc, &mut ws, steps, asked);
    drop(ws);
    told
}
