// Evaluates the lines of the tables of the folder that it is started in, one after another or as a user's session, with the
// answers that stand beside them, and prints how each came out.
#![tactic(auto)]

mod lines;
mod machines;
mod notes;
mod sessions;
mod workspaces;

use anyhow::Result;
use case_tables::{conclude, run_table};
use lines::Lines;
use sessions::Sessions;
use std::process::ExitCode;

fn main(rt: HostRuntime) -> Result<ExitCode> {
    let mut tally = run_table(&rt, "lines.txt", &Lines)?;
    tally.add(run_table(&rt, "sessions.txt", &Sessions)?);
    tally.add(run_table(&rt, "drawn_sessions.txt", &Sessions)?);
    conclude(&rt, tally)
}
