use anyhow::{Result, ensure};
use apl_arrays::{Fail, NameList};
use apl_execute::{Merged, merge, text_of};
use apl_workspace::Workspace;
use case_fields::{array_of, names_of, push_names, push_quoted, report_text};
use case_workspaces::{STEP_END, answers, both, lent, workspace_of};
use std::alloc::Global;

/// The text of a value that is executed, in quotes, or its report.
pub fn executed_text(alloc: Global, value: &str) -> Result<String> {
    let value = array_of(alloc, value)?;
    let line = text_of(alloc, &value);
    drop(value);
    let mut text = String::new(alloc);
    match line {
        Ok(line) => push_quoted(alloc, &mut text, line.as_slice())?,
        Err(fail) => text.push_str(report_text(fail)?)?,
    }
    Ok(text)
}

// Which names are missing and which are shared, and what the workspace tells then.
fn merged_text(alloc: Global, merged: &Merged, asked: &str) -> Result<String> {
    let mut text = String::from_str(alloc, "missing")?;
    push_names(alloc, &mut text, merged.missing.as_slice())?;
    text.push_str(", shared")?;
    push_names(alloc, &mut text, merged.shared.as_slice())?;
    let told = answers(alloc, &merged.workspace, ("refused", "-"), asked, STEP_END)?;
    write!(text, " ¦ {told}")?;
    Ok(text)
}

// The report of a refusal, and what the workspace tells then.
fn refused_text(alloc: Global, fail: Fail, ws: &Workspace, asked: &str) -> Result<String> {
    let report = report_text(fail)?;
    let told = answers(alloc, ws, ("refused", "-"), asked, STEP_END)?;
    Ok(format!(in alloc; "{report} ¦ {told}")?)
}

// What comes of names that one workspace takes over from another.
fn merging_text(
    alloc: Global,
    into: &Workspace,
    from: &Workspace,
    names: Option<&NameList>,
    asked: &str,
) -> Result<String> {
    ensure!(into.depth() == 0, "a function is under way");
    ensure!(from.depth() == 0, "a function is under way");
    match merge(alloc, into, from, names) {
        Ok(merged) => lent(Ok(merged), |merged| merged_text(alloc, merged, asked)),
        Err(fail) => refused_text(alloc, fail, into, asked),
    }
}

/// What comes of names that are copied, or of all, and what the workspace tells then; where they are refused, the report and
/// what the one tells that was to take them over.
pub fn merging(alloc: Global, into: &str, from: &str, names: &str, asked: &str) -> Result<String> {
    let both = both(workspace_of(alloc, into), workspace_of(alloc, from));
    lent(both, |(into, from)| {
        if names == "all" {
            merging_text(alloc, into, from, None, asked)
        } else {
            let names = names_of(alloc, names)?;
            merging_text(alloc, into, from, Some(&names), asked)
        }
    })
}
