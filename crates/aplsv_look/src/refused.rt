use apl_arrays::WantOfMemory;
use printed_text::PrintedRefused;
use std::error::Error;
use std::fmt;

/// Why a look at a text shows nothing.
#[derive(Clone, Copy, Debug, PartialEq, Eq)]
pub enum LookRefused {
    /// It is no output: at the offset begins the first line that no output has there, or the text ends there, and lines are
    /// wanting.
    NoOutput(u64),
    /// The journal has no entry where the look is at.
    NoEntry,
    /// Memory ran out.
    WantOfMemory,
}

impl From<WantOfMemory> for LookRefused {
    ghost use Rattle.std.specs.Prelude.{◌≡◌};
    ghost use Rattle.aplsv_look.specs.declared.refused.LookRefused.TheVariants as refused;

    ghost from_gives = { λ _ e. e ≡ refused.WantOfMemory };

    fn from(_: WantOfMemory) -> Self {
        LookRefused::WantOfMemory
    }
}

impl From<PrintedRefused> for LookRefused {
    ghost use Rattle.std.specs.Prelude.{◌≡◌};
    ghost use Rattle.aplsv_look.specs.Sights.{refusal_of_text};

    ghost from_gives = { λ why e. e ≡ refusal_of_text why };

    fn from(why: PrintedRefused) -> Self {
        match why {
            PrintedRefused::Departs(offset) => LookRefused::NoOutput(offset),
            PrintedRefused::WantOfMemory => LookRefused::WantOfMemory,
        }
    }
}

impl fmt::Display for LookRefused {
    fn fmt<W: fmt::Write>(&self, f: &mut fmt::Formatter<W>) -> fmt::Result {
        match self {
            LookRefused::NoOutput(offset) => write!(f, "no output at byte {offset}"),
            LookRefused::NoEntry => f.write_str("no entry"),
            LookRefused::WantOfMemory => f.write_str("out of memory"),
        }
    }
}

impl Error for LookRefused {}
