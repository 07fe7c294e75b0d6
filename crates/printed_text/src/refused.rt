use apl_arrays::WantOfMemory;
use std::error::Error;
use std::fmt;

/// Why a text is not read as an output.
#[derive(Clone, Copy, Debug, PartialEq, Eq)]
pub enum PrintedRefused {
    /// At the offset begins the first line that no output has there; or the text ends there, and lines are wanting.
    Departs(u64),
    /// Memory ran out.
    WantOfMemory,
}

impl From<WantOfMemory> for PrintedRefused {
    ghost use Rattle.std.specs.Prelude.{◌≡◌};
    ghost use Rattle.printed_text.specs.declared.refused.PrintedRefused.TheVariants as refused;

    ghost from_gives = { λ _ e. e ≡ refused.WantOfMemory };

    fn from(_: WantOfMemory) -> Self {
        PrintedRefused::WantOfMemory
    }
}

impl fmt::Display for PrintedRefused {
    fn fmt<W: fmt::Write>(&self, f: &mut fmt::Formatter<W>) -> fmt::Result {
        match self {
            PrintedRefused::Departs(offset) => write!(f, "no output from byte {offset}"),
            PrintedRefused::WantOfMemory => f.write_str("out of memory"),
        }
    }
}

impl Error for PrintedRefused {}
