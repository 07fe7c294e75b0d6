ghost use Rattle.std.specs.Prelude.{Bool, true};

use std::marker::Brand;

/// Which of two is chosen. It is there in proofs alone: a run is proved for either choice, and each call of it makes one.
pub trait Choice {
    /// Whether it is the first.
    ghost is_first: { Bool };
}

impl Choice for Brand {
    ghost is_first = { true };
}
