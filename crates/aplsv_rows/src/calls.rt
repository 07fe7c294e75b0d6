mod bundles;
mod devices;
mod failing;
mod held;
mod helping;
mod pieces;
mod replays;
mod repliers;
mod sessions;

use self::bundles::Bundles;
use self::devices::Devices;
use self::held::HeldInAFunction;
use self::pieces::Pieces;
use self::replays::Replays;
use self::repliers::Repliers;
use self::sessions::Sessions;
use anyhow::Result;
use case_tables::{Tally, run_calls};

/// Makes calls of devices, auxiliaries, the reader of bundles, sessions and runs, one after another, and tries an act again and
/// again that is held within a function, and looks at what they give. Where memory was refused they are made once more.
pub fn all_calls(rt: &HostRuntime) -> Result<Tally> {
    let mut tally = run_calls(rt, "sources and sinks", &Pieces)?;
    tally.add(run_calls(rt, "devices", &Devices)?);
    tally.add(run_calls(rt, "auxiliaries", &Repliers)?);
    tally.add(run_calls(rt, "bundles", &Bundles)?);
    tally.add(run_calls(rt, "sessions", &Sessions)?);
    tally.add(run_calls(rt, "runs", &Replays)?);
    tally.add(run_calls(rt, "held within a function", &HeldInAFunction)?);
    Ok(tally)
}
