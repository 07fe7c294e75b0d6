// Runs the tables of the folder that it is started in against the reader of words, and prints how each came out.
#![tactic(auto)]

mod looks;
mod meanings;

use anyhow::Result;
use case_tables::{conclude, run_table};
use looks::LooksAsked;
use meanings::Meanings;
use std::process::ExitCode;

fn main(rt: HostRuntime) -> Result<ExitCode> {
    let mut tally = run_table(&rt, "looks.txt", &LooksAsked)?;
    tally.add(run_table(&rt, "meanings.txt", &Meanings)?);
    tally.add(run_table(&rt, "usage.txt", &Meanings)?);
    conclude(&rt, tally)
}
