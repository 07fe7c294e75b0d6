// Runs the tables of the folder that it is started in against what draws and explains printed journals, and prints how each came
// out.
#![tactic(auto)]

mod judged;
mod pictures;
mod reasons;
mod windows;

use anyhow::Result;
use case_tables::{conclude, run_table};
use judged::Judged;
use pictures::Pictures;
use reasons::Reasons;
use std::process::ExitCode;
use windows::Windows;

fn main(rt: HostRuntime) -> Result<ExitCode> {
    let mut tally = run_table(&rt, "windows.txt", &Windows)?;
    tally.add(run_table(&rt, "pictures.txt", &Pictures { rt })?);
    tally.add(run_table(&rt, "reasons.txt", &Reasons)?);
    tally.add(run_table(&rt, "judged.txt", &Judged)?);
    conclude(&rt, tally)
}
