ghost use Rattle.std.specs.Prelude.{◌≡◌, ◌≤◌, ℕ, OnErr};
ghost use Rattle.std.specs.Result.{result_ok};
ghost use Rattle.std.specs.declared.option.Option.{Option};
ghost use Rattle.apl_io.specs.Clock.{Ticks, Ticked};
ghost use Rattle.apl_io.specs.Faults.{Rose};

use crate::Failed;

/// A clock, which counts its faults.
pub trait Clock {
    /// The readings to come, the calls so far and those that are to fail, where the clock tells them.
    ghost told: { Self → Option Ticks };

    /// How often the clock has failed.
    ghost faults: { Self → ℕ };

    /// How often the clock has failed. The count never falls, and stands still at the greatest `u64`.
    fn faults(&self) -> u64
        ensures { result ≡ faults self.now };

    /// The next reading.
    fn reading(&mut self) -> Result<i64, Failed>
        ensures ticks { Ticked (told self.old) (result_ok result) (told self.new) }
        ensures counted { faults self.old ≤ faults self.new }
        ensures cause { OnErr result (Rose (faults self.old) (faults self.new)) };
}
