// Runs the cases of the folder that it is started in through the top call, makes calls of what stands below it, and prints how
// each came out.
#![tactic(auto)]

mod calls;
mod case;
mod devices;
mod ending;
mod files;
mod folders;
mod gates;
mod handed;
mod noted;
mod over;
mod prefixes;
mod rows;
mod run;
mod scant;
mod scarce;
mod threads;
mod trials;

use anyhow::Result;
use calls::all_calls;
use case_tables::{Tally, conclude, run_table};
use devices::faulty;
use ending::memory_differs;
use folders::each_bundle;
use over::Over;
use prefixes::each_prefix;
use rows::run_rows;
use scarce::scarce;
use std::process::ExitCode;
use std::sync::Wait;
use std::thread::Threads;
use threads::{last_lines, meetings, one_journal};
use trials::{judged, meaningless, printed, refused};

// The tables of bundles and words.
fn all_tables<R: Threads + Wait + Sync>(rt: &HostRuntime, threads: &R) -> Result<Tally> {
    let refused = |alloc, fields: &[&str]| refused(threads, alloc, fields);
    let printed = |alloc, fields: &[&str]| printed(threads, alloc, fields);
    let meaningless = |alloc, fields: &[&str]| meaningless(threads, alloc, fields);
    let judged = |alloc, fields: &[&str]| judged(threads, alloc, fields);
    let mut tally = run_rows(rt, "refusals.txt", 1, refused)?;
    tally.add(run_rows(rt, "texts.txt", 1, printed)?);
    tally.add(run_rows(rt, "drawn.txt", 1, printed)?);
    tally.add(run_rows(rt, "drawn_commands.txt", 1, printed)?);
    tally.add(run_rows(rt, "words.txt", 1, meaningless)?);
    tally.add(run_rows(rt, "verdicts.txt", 1, judged)?);
    Ok(tally)
}

// The tables of stored cases, over other devices and on threads.
fn all_stored<R: Threads + Wait + Sync>(rt: &HostRuntime, threads: &R) -> Result<Tally> {
    let faulty = |alloc, fields: &[&str]| faulty(rt, threads, alloc, fields);
    let one_journal = |alloc, fields: &[&str]| one_journal(rt, threads, alloc, fields);
    let meetings = |alloc, fields: &[&str]| meetings(rt, threads, alloc, fields);
    let last_lines = |alloc, fields: &[&str]| last_lines(rt, threads, alloc, fields);
    let scarce = |alloc, fields: &[&str]| scarce(threads, alloc, fields);
    let mut tally = run_rows(rt, "devices.txt", 2, faulty)?;
    tally.add(run_table(rt, "handed.txt", &Over)?);
    tally.add(run_rows(rt, "threads.txt", 2, one_journal)?);
    tally.add(run_rows(rt, "meetings.txt", 3, meetings)?);
    tally.add(run_rows(rt, "last_lines.txt", 4, last_lines)?);
    tally.add(run_rows(rt, "scarce.txt", 5, scarce)?);
    Ok(tally)
}

fn all_cases<R: Threads + Wait + Sync>(rt: &HostRuntime, threads: &R) -> Result<Tally> {
    let mut tally = each_bundle(rt, threads)?;
    tally.add(all_tables(rt, threads)?);
    tally.add(all_stored(rt, threads)?);
    tally.add(each_prefix(rt, threads)?);
    tally.count(memory_differs(rt)?);
    tally.add(all_calls(rt)?);
    Ok(tally)
}

fn main(rt: HostRuntime) -> Result<ExitCode> {
    conclude(&rt, all_cases(&rt, &rt)?)
}
