mod accounts;
mod counts;
mod editor;
mod execute;
mod granting;
mod letters;
mod refusals;
mod scanner;
mod steps;
mod trees;
mod workspace;

use self::editor::Editing;
use self::execute::Execute;
use self::scanner::Scanner;
use self::trees::Trees;
use self::workspace::Workspaces;
use anyhow::Result;
use case_tables::{Tally, run_calls};

/// Makes the calls of the crates that read lines, and of workspaces, the editor and executed texts, that take memory, and looks
/// at what they give. Where memory is refused they are made once more.
pub fn all_calls(rt: &HostRuntime) -> Result<Tally> {
    let mut tally = run_calls(rt, "line_scanner", &Scanner)?;
    tally.add(run_calls(rt, "line_trees", &Trees)?);
    tally.add(run_calls(rt, "apl_workspace", &Workspaces)?);
    tally.add(run_calls(rt, "fn_editor", &Editing)?);
    tally.add(run_calls(rt, "apl_execute", &Execute)?);
    Ok(tally)
}
