ghost use Rattle.std.specs.Prelude.{◌≡◌, ◌↔◌, IfOk};
ghost use Rattle.std.specs.Process.{exit_status};

use crate::Tally;
use anyhow::Result;
use std::process::ExitCode;

/// The end of a program of cases: a line with the counts, and the status that the program ends with, which is 0 exactly
/// where no case differed. Memory for the line, which may not be printed.
pub fn conclude<R: Print + AllocGlobal>(rt: &R, tally: Tally) -> Result<ExitCode>
    ensures status { IfOk result (λ code. (exit_status code ≡ 0) ↔ (tally.differing ≡ 0)) }
{
    let Tally { cases, differing } = tally;
    println!(rt; "{cases} cases, of which {differing} differ")?;
    Ok(if tally.agrees() {
        ExitCode::SUCCESS
    } else {
        ExitCode::FAILURE
    })
}
