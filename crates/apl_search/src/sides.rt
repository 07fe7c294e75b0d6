ghost use Rattle.std.specs.Prelude.{◌≡◌, ℤ};
ghost use Rattle.apl_search.specs.Distances.{distance};

use crate::spans::distance;

/// On which side of a base numbers lie.
pub(crate) trait Side {
    // A number lies on this side of a base, or is the base.
    ghost keeps: { Self → ℤ → ℤ → Type 0 };

    /// How far a number is from a base on whose side it lies.
    fn far(&self, base: i64, number: i64) -> usize
        requires { keeps self.now base number }
        ensures { result ≡ distance base number };
}

/// From the base upwards.
#[derive(Clone, Copy)]
pub(crate) struct Above;

impl Side for Above {
    ghost use Rattle.std.specs.Prelude.{◌≤ℤ◌};

    ghost keeps = { λ _ base number. base ≤ℤ number };

    fn far(&self, base: i64, number: i64) -> usize {
        if number < base {
            unreachable!();
        }
        distance(base, number)
    }
}

/// From the base downwards.
#[derive(Clone, Copy)]
pub(crate) struct Below;

impl Side for Below {
    ghost use Rattle.std.specs.Prelude.{◌≤ℤ◌};

    ghost keeps = { λ _ base number. number ≤ℤ base };

    fn far(&self, base: i64, number: i64) -> usize {
        if base < number {
            unreachable!();
        }
        distance(base, number)
    }
}
