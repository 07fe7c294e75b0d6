// Runs the tables of the folder that it is started in against the crates that read lines, and those of workspaces, the editor
// and executed texts, makes calls of these one after another, and prints how each came out.
#![tactic(auto)]

mod calls;
mod nodes;
mod system_names;
mod tokens;
mod trees;
mod workspaces;

use anyhow::Result;
use calls::all_calls;
use case_tables::{conclude, run_table, run_tables};
use std::process::ExitCode;
use tokens::Tokens;
use trees::Trees;
use workspaces::workspace_tables;

fn main(rt: HostRuntime) -> Result<ExitCode> {
    let trees = [("trees.txt", Trees::Whole), ("long_trees.txt", Trees::Last)];
    let mut tally = run_table(&rt, "tokens.txt", &Tokens)?;
    tally.add(run_tables(&rt, &trees)?);
    tally.add(workspace_tables(&rt)?);
    tally.add(all_calls(&rt)?);
    conclude(&rt, tally)
}
