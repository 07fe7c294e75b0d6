mod codec;
mod commands;
mod no_shelf;

use self::codec::Codec;
use self::commands::Commands;
use anyhow::Result;
use case_tables::{Looks, Tally, run_calls};

/// Makes calls of saved workspaces and of commands that take memory, and looks at what they give. Where memory is refused they
/// are made once more.
pub fn all_calls(rt: &HostRuntime) -> Result<Tally> {
    let mut tally = run_calls(rt, "ws_codec", &Codec)?;
    tally.add(run_calls(rt, "ws_commands", &Commands)?);
    Ok(tally)
}

/// Counts a case for each of these, which differs where it is not so.
pub fn look_at(looks: &mut Looks, all: &[bool]) {
    for is_so in all {
        looks.holds(*is_so);
    }
}
