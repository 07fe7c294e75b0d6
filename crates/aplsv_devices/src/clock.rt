ghost use Rattle.std.specs.Prelude.{◌≡◌};

use apl_io::{Clock, Failed};
use std::time::{self, SystemTime, UNIX_EPOCH};

/// The clock of the machine. A reading is the whole seconds since 1970. One that the system refuses counts as a fault.
#[derive(Drop)]
pub struct SystemClock<R> {
    rt: R,
    faults: u64,
}

impl<R> SystemClock<R> {
    /// The clock of a runtime, which has not failed.
    pub fn new(rt: R) -> Self
        ensures { result ≡ record { rt = rt; faults = 0 } }
    {
        SystemClock { rt, faults: 0 }
    }
}

impl<R: time::Clock> Clock for SystemClock<R> {
    ghost use Rattle.std.specs.Prelude.{None};

    ghost told = { λ _. None };

    ghost faults = { λ c. c.faults };

    fn faults(&self) -> u64 {
        self.faults
    }

    fn reading(&mut self) -> Result<i64, Failed> {
        match seconds(&self.rt) {
            Some(reading) => Ok(reading),
            None => {
                self.faults = self.faults.saturating_add(1);
                Err(Failed)
            }
        }
    }
}

// The whole seconds since 1970, where the system tells them.
fn seconds(clock: &impl time::Clock) -> Option<i64> {
    let now = SystemTime::now(clock).ok()?;
    let since = now.duration_since(UNIX_EPOCH).ok()?;
    i64::try_from(since.as_secs()).ok()
}
