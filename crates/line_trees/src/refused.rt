ghost use Rattle.std.specs.Prelude.{◌≡◌};

use apl_arrays::WantOfMemory;
use std::error::Error;
use std::fmt;

/// Why a line has no tree, with the place of the first token with which no line goes on, or that memory ran out.
#[derive(Clone, Copy, Debug, PartialEq, Eq, Hash)]
pub enum ParseRefused {
    SyntaxError(u64),
    WantOfMemory,
}

impl From<WantOfMemory> for ParseRefused {
    ghost use Rattle.std.specs.Prelude.{◌≡◌};
    ghost use Rattle.line_trees.specs.declared.refused.ParseRefused.TheVariants as refused;

    ghost from_gives = { λ _ r. r ≡ refused.WantOfMemory };

    fn from(_: WantOfMemory) -> Self {
        ParseRefused::WantOfMemory
    }
}

impl fmt::Display for ParseRefused {
    fn fmt<W: fmt::Write>(&self, f: &mut fmt::Formatter<W>) -> fmt::Result {
        match self {
            ParseRefused::SyntaxError(at) => write!(f, "syntax error at {at}"),
            ParseRefused::WantOfMemory => f.write_str("out of memory"),
        }
    }
}

impl Error for ParseRefused {}
