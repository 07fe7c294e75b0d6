ghost use Rattle.std.specs.Prelude.{◌≡◌};

use apl_arrays::WantOfMemory;
use std::error::Error;
use std::fmt;

/// Why a line has no tokens, with the place of the first error, or that memory ran out.
#[derive(Clone, Copy, Debug, PartialEq, Eq, Hash)]
pub enum ScanRefused {
    CharacterError(u64),
    SyntaxError(u64),
    WantOfMemory,
}

impl From<WantOfMemory> for ScanRefused {
    ghost use Rattle.std.specs.Prelude.{◌≡◌};
    ghost use Rattle.line_scanner.specs.declared.refused.ScanRefused.TheVariants as refused;

    ghost from_gives = { λ _ r. r ≡ refused.WantOfMemory };

    fn from(_: WantOfMemory) -> Self {
        ScanRefused::WantOfMemory
    }
}

impl fmt::Display for ScanRefused {
    fn fmt<W: fmt::Write>(&self, f: &mut fmt::Formatter<W>) -> fmt::Result {
        match self {
            ScanRefused::CharacterError(at) => write!(f, "character error at {at}"),
            ScanRefused::SyntaxError(at) => write!(f, "syntax error at {at}"),
            ScanRefused::WantOfMemory => f.write_str("out of memory"),
        }
    }
}

impl Error for ScanRefused {}
