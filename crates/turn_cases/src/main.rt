// Lets threads take turns, once more where memory was refused, and prints how what was looked at behind them came out.
#![tactic(auto)]

mod log;
mod looking;
mod plays;
mod turns;

use anyhow::Result;
use case_tables::{conclude, run_calls};
use plays::play_all;
use std::process::ExitCode;

fn main(rt: HostRuntime) -> Result<ExitCode> {
    let plays = match play_all(&rt, rt.alloc()) {
        Ok(plays) => plays,
        Err(_) => play_all(&rt, rt.alloc())?,
    };
    let tally = run_calls(&rt, "sv_turn", &plays)?;
    conclude(&rt, tally)
}
