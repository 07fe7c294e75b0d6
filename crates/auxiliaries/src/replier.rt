ghost use Rattle.std.specs.Prelude.{ℕ, IfOk, OnErr};
ghost use Rattle.apl_arrays.specs.Array.{PlainArray};

use apl_arrays::{Array, WantOfMemory};

/// What answers behind shared variables. Its state is the plain value that callers see.
pub trait Replier {
    /// The states that may come after a coupling with this party begins.
    ghost forgets: { Self → ℕ → Self → Type 0 };

    /// The answers to this party's value, each with the state after it.
    ghost replies: { Self → ℕ → PlainArray → PlainArray → Self → Type 0 };

    /// The states that may stay where memory ran out over the answer to this party's value.
    ghost wants: { Self → ℕ → PlainArray → Self → Type 0 };

    /// Begins anew with this party.
    fn forget(&mut self, party: u32)
        ensures { forgets self.old party self.new };

    /// The answer to this party's value. It takes memory for the answer.
    fn reply(&mut self, party: u32, value: &Array) -> Result<Array, WantOfMemory>
        ensures ok { IfOk result (λ answer. replies self.old party value.now answer self.new) }
        ensures want { OnErr result (wants self.old party value.now self.new) };
}
