// Runs the tables of the folder that it is started in against the auxiliaries, and against the devices under them, in memory
// and of the machine, and prints how each came out.
#![tactic(auto)]

mod clock;
mod components;
mod devices;
mod folders;
mod machine;
mod relay;
mod room;
mod sessions;
mod shelf;
mod store;
mod text;

use anyhow::Result;
use case_tables::{conclude, run_calls, run_table};
use clock::ClockSessions;
use components::{ComponentRequests, ComponentSessions};
use folders::{FolderShelves, FolderStores};
use machine::Machine;
use relay::RelaySequences;
use shelf::Shelves;
use std::process::ExitCode;
use store::Stores;
use text::{TextRequests, TextSessions};

fn main(rt: HostRuntime) -> Result<ExitCode> {
    let mut tally = run_table(&rt, "text.txt", &TextSessions)?;
    tally.add(run_table(&rt, "requests.txt", &TextRequests)?);
    tally.add(run_table(&rt, "files.txt", &TextSessions)?);
    tally.add(run_table(&rt, "clock.txt", &ClockSessions)?);
    tally.add(run_table(&rt, "shelves.txt", &Shelves)?);
    tally.add(run_table(&rt, "stores.txt", &Stores)?);
    tally.add(run_table(&rt, "folders.txt", &FolderShelves { rt })?);
    tally.add(run_table(&rt, "files_in_folders.txt", &FolderStores { rt })?);
    tally.add(run_calls(&rt, "streams and clocks", &Machine { rt })?);
    tally.add(run_table(&rt, "components.txt", &ComponentSessions)?);
    tally.add(run_table(&rt, "component_files.txt", &ComponentSessions)?);
    tally.add(run_table(&rt, "component_requests.txt", &ComponentRequests)?);
    tally.add(run_table(&rt, "relay.txt", &RelaySequences)?);
    conclude(&rt, tally)
}
