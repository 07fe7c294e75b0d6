// Runs the tables of the folder that it is started in against saved workspaces and commands, makes calls of these one after
// another, and prints how each came out.
#![tactic(auto)]

mod bytes;
mod calls;
mod commands;
mod desk;
mod saved;
mod shelf;

use anyhow::{Result, bail};
use calls::all_calls;
use case_tables::{Trial, conclude, run_tables};
use commands::commands_text;
use saved::{read_text, saved_text};
use std::alloc::Global;
use std::process::ExitCode;

// What a table tries: the top of the table says what its fields are.
#[derive(Clone, Copy, Debug)]
enum Topic {
    Read,
    Saved,
    Commands,
}

impl Trial for Topic {
    fn given(&self) -> usize {
        match self {
            Topic::Read => 1,
            Topic::Saved | Topic::Commands => 2,
        }
    }

    fn found(&self, alloc: Global, fields: &[&str]) -> Result<String> {
        match (self, fields) {
            (Topic::Read, [bytes, ..]) => read_text(alloc, bytes),
            (Topic::Saved, [steps, bytes, ..]) => saved_text(alloc, steps, bytes),
            (Topic::Commands, [fails, steps, _, asked, ..]) => commands_text(
                alloc, fails, steps, asked,
            ),
            _ => bail!("a field is wanting"),
        }
    }
}

fn main(rt: HostRuntime) -> Result<ExitCode> {
    let tables = [
        ("read.txt", Topic::Read),
        ("saved.txt", Topic::Saved),
        ("commands.txt", Topic::Commands),
    ];
    let mut tally = run_tables(&rt, &tables)?;
    tally.add(all_calls(&rt)?);
    conclude(&rt, tally)
}
