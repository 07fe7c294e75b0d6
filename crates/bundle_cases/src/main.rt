// Runs the tables of the folder that it is started in against the reader of bundles and the lines that say why it refuses
// one, and the reader of outputs, and each front of a bundle and of an output, and prints how each came out.
#![tactic(auto)]

mod lines;
mod outputs;
mod prefixes;
mod shown;
mod sizes;
mod texts;

use anyhow::Result;
use case_tables::{conclude, run_table};
use lines::Lines;
use outputs::Outputs;
use prefixes::{Whole, each_prefix};
use sizes::Sizes;
use std::process::ExitCode;
use texts::Texts;

fn main(rt: HostRuntime) -> Result<ExitCode> {
    let mut tally = run_table(&rt, "refusals.txt", &Texts)?;
    tally.add(run_table(&rt, "glyphs.txt", &Texts)?);
    tally.add(run_table(&rt, "limits.txt", &Texts)?);
    tally.add(run_table(&rt, "bundles.txt", &Texts)?);
    tally.add(run_table(&rt, "sizes.txt", &Sizes)?);
    tally.add(run_table(&rt, "lines.txt", &Lines)?);
    tally.add(run_table(&rt, "outputs.txt", &Outputs)?);
    tally.add(each_prefix(&rt, Whole::Bundle, "whole.bundle", "whole.txt")?);
    tally.add(each_prefix(&rt, Whole::Output, "whole.output", "whole_output.txt")?);
    conclude(&rt, tally)
}
