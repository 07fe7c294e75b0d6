ghost use Rattle.std.specs.Prelude.{◌≡◌, ◌<◌, ◌≤◌, ℕ, List, length, IfOk, OnErr};
ghost use Rattle.std.specs.declared.option.Option.{Option};
ghost use Rattle.std.specs.Io.KnownBytes.{WriteAppends};
ghost use Rattle.apl_io.specs.Faults.{Rose};

use crate::Failed;

/// What takes bytes one after another, and counts its faults.
pub trait Sink {
    /// The bytes taken so far, where the sink tells them.
    ghost held: { Self → Option (List ℕ) };

    /// How often the sink has failed.
    ghost faults: { Self → ℕ };

    /// How often the sink has failed. The count never falls, and stands still at the greatest `u64`. What memory it
    /// takes is the sink's own.
    fn faults(&self) -> u64
        ensures { result ≡ faults self.now };

    /// Writes from the front of a piece that isn't empty, and says how many bytes it took: one at least, else it is a
    /// fault. A call that fails takes none. What memory it takes is the sink's own.
    fn write(&mut self, piece: &[u8]) -> Result<usize, Failed>
        requires { 0 < length piece.now }
        ensures some { IfOk result (λ count. 0 < count) }
        ensures count { IfOk result (λ count. count ≤ length piece.now) }
        ensures bytes { WriteAppends (held self.old) (held self.new) result piece.now }
        ensures counted { faults self.old ≤ faults self.new }
        ensures cause { OnErr result (Rose (faults self.old) (faults self.new)) };
}
