ghost use Rattle.std.specs.Prelude.{◌≡◌};
ghost use Rattle.apl_workspace.specs.Listing.{is_asked};

use crate::Meaning;

/// Which global names are asked for. Shared names are variables too.
#[derive(Clone, Copy, Debug, PartialEq, Eq)]
pub enum What {
    Functions,
    Variables,
    Shares,
}

impl What {
    /// Whether a name that stands for this is asked for.
    pub fn is_asked(self, meaning: &Meaning) -> bool
        ensures { result ≡ is_asked self meaning.now }
    {
        match self {
            What::Functions => matches!(meaning, Meaning::Function(_)),
            What::Variables => matches!(meaning, Meaning::Value(_) | Meaning::Shared(_)),
            What::Shares => matches!(meaning, Meaning::Shared(_)),
        }
    }
}
