ghost use Rattle.std.specs.Prelude.{◌≡◌, ◌<◌, ◌≤◌, ℕ, List, length, IfOk, OnErr};
ghost use Rattle.std.specs.declared.option.Option.{Option};
ghost use Rattle.std.specs.Io.KnownBytes.{ReadConsumes};
ghost use Rattle.apl_io.specs.Faults.{Rose};

use crate::Failed;

/// What gives bytes one after another until its end, and counts its faults.
pub trait Source {
    /// The bytes left, where the source tells them.
    ghost left: { Self → Option (List ℕ) };

    /// How often the source has failed.
    ghost faults: { Self → ℕ };

    /// How often the source has failed. The count never falls, and stands still at the greatest `u64`. What memory it
    /// takes is the source's own.
    fn faults(&self) -> u64
        ensures { result ≡ faults self.now };

    /// Reads into a buffer that isn't empty, and says how many bytes it gave: 0 only at the end. A call that fails
    /// gives none. What memory it takes is the source's own.
    fn read(&mut self, into: &mut [u8]) -> Result<usize, Failed>
        requires { 0 < length into.old }
        ensures count { IfOk result (λ count. count ≤ length into.new) }
        ensures bytes { ReadConsumes (left self.old) (left self.new) result into.new }
        ensures counted { faults self.old ≤ faults self.new }
        ensures cause { OnErr result (Rose (faults self.old) (faults self.new)) };
}
