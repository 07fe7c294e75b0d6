ghost use Rattle.std.specs.Prelude.{◌≡◌};

use crate::{CallNumbers, Clock, Failed};
use apl_arrays::Readings;
use std::marker::Model;

/// A clock in memory. It gives its readings one after another, and fails at the calls that it is told to fail at, and
/// where no reading is left.
#[derive(Debug, Drop)]
pub struct MemoryClock {
    readings: Readings,
    given: usize,
    calls: u64,
    fails: CallNumbers,
    faults: u64,
}

impl Model for MemoryClock {
    ghost use Rattle.std.specs.Prelude.{◌≤◌, length, drop};
    ghost use Rattle.apl_io.specs.Kept.{Timer};

    ghost Value = { Timer };

    ghost view = { λ c. record { told = record { left = drop c.given c.readings.items; calls = c.calls; fails = c.fails.items }; faults = c.faults } };

    ghost invariant = { λ c. c.given ≤ length c.readings.items };
}

impl MemoryClock {
    /// A clock of these readings. `fails` has the numbers of the calls that are to fail: the first call is 1, and past
    /// the greatest `u64` numbers go no further.
    pub fn new(readings: Readings, fails: CallNumbers) -> Self
        ensures { result ≡ record { told = record { left = readings.items; calls = 0; fails = fails.items }; faults = 0 } }
    {
        MemoryClock {
            readings,
            given: 0,
            calls: 0,
            fails,
            faults: 0,
        }
    }
}

impl Clock for MemoryClock {
    ghost use Rattle.std.specs.Prelude.{Some};

    ghost told = { λ c. Some c.told };

    ghost faults = { λ c. c.faults };

    fn faults(&self) -> u64 {
        self.faults
    }

    fn reading(&mut self) -> Result<i64, Failed> {
        let fails = self.fails.counts(&mut self.calls);
        if fails || self.given == self.readings.as_slice().len() {
            self.faults = self.faults.saturating_add(1);
            return Err(Failed);
        }
        let reading = self.readings.as_slice()[self.given];
        self.given += 1;
        Ok(reading)
    }
}
