use crate::{Failed, WantOfMemory};
use std::error::Error;
use std::fmt;

/// Why a call of a text store or a shelf has no answer.
#[derive(Clone, Copy, Debug, PartialEq, Eq)]
pub enum StoreError {
    /// The device failed, which its count of faults shows.
    Failed,
    /// Memory ran out.
    WantOfMemory,
}

impl From<Failed> for StoreError {
    ghost use Rattle.std.specs.Prelude.{◌≡◌};
    ghost use Rattle.apl_io.specs.declared.store_error.StoreError.TheVariants.{Failed as Faulty};

    ghost from_gives = { λ _ e. e ≡ Faulty };

    fn from(_: Failed) -> Self {
        StoreError::Failed
    }
}

impl From<WantOfMemory> for StoreError {
    ghost use Rattle.std.specs.Prelude.{◌≡◌};
    ghost use Rattle.apl_io.specs.declared.store_error.StoreError.TheVariants.{WantOfMemory as Wanting};

    ghost from_gives = { λ _ e. e ≡ Wanting };

    fn from(_: WantOfMemory) -> Self {
        StoreError::WantOfMemory
    }
}

impl fmt::Display for StoreError {
    fn fmt<W: fmt::Write>(&self, f: &mut fmt::Formatter<W>) -> fmt::Result {
        f.write_str(match self {
            StoreError::Failed => "the call failed",
            StoreError::WantOfMemory => "out of memory",
        })
    }
}

impl Error for StoreError {}
