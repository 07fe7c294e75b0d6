// Runs the tables of the folder that it is started in against the texts of entries and of values, the plain rules and the
// processor, makes calls of the processor and of what it stands on, and prints how each came out.
#![tactic(auto)]

mod calls;
mod equal;
mod filled;
mod journals;
mod judged;
mod lines;
mod played;
mod retries;
mod stories;
mod told;
mod value_lines;

use anyhow::Result;
use calls::all_calls;
use case_tables::{conclude, run_table};
use filled::Filled;
use judged::Judged;
use lines::JournalLines;
use played::Played;
use std::process::ExitCode;
use stories::Stories;
use value_lines::ValueLines;

fn main(rt: HostRuntime) -> Result<ExitCode> {
    let mut tally = run_table(&rt, "entries.txt", &JournalLines)?;
    tally.add(run_table(&rt, "no_entries.txt", &JournalLines)?);
    tally.add(run_table(&rt, "values.txt", &ValueLines)?);
    tally.add(run_table(&rt, "stories.txt", &Stories)?);
    tally.add(run_table(&rt, "legal_journals.txt", &Judged)?);
    tally.add(run_table(&rt, "legal_journals.txt", &Played)?);
    tally.add(run_table(&rt, "illegal_journals.txt", &Judged)?);
    tally.add(run_table(&rt, "filled.txt", &Filled)?);
    tally.add(all_calls(&rt)?);
    conclude(&rt, tally)
}
