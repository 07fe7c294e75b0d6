ghost use Rattle.std.specs.Prelude.{◌≡◌};
ghost use Rattle.bundle_text.specs.Refused.{rule_text};

use apl_arrays::WantOfMemory;
use std::error::Error;
use std::fmt;

/// The rules of a bundle's lines, in the order in which they are looked at.
#[derive(Clone, Copy, Debug, PartialEq, Eq, Hash)]
pub enum BundleRule {
    /// All bytes are glyphs.
    Glyph,
    /// A line feed ends each line; the last may lack it.
    Newline,
    /// The line is a heading or a line of input.
    Form,
    /// The line may stand there.
    Place,
    /// An order names parties of the bundle.
    Party,
    /// No limit is passed.
    Limit,
    /// The last line is `end`.
    End,
}

impl BundleRule {
    /// The name of the rule.
    pub fn text(self) -> &'static str
        ensures { result.now ≡ rule_text self }
    {
        match self {
            BundleRule::Glyph => "glyph",
            BundleRule::Newline => "newline",
            BundleRule::Form => "form",
            BundleRule::Place => "place",
            BundleRule::Party => "party",
            BundleRule::Limit => "limit",
            BundleRule::End => "end",
        }
    }
}

impl fmt::Display for BundleRule {
    fn fmt<W: fmt::Write>(&self, f: &mut fmt::Formatter<W>) -> fmt::Result {
        f.write_str(self.text())
    }
}

/// Why bytes are not read as a bundle.
#[derive(Clone, Copy, Debug, PartialEq, Eq)]
pub enum BundleRefused {
    /// At the offset begins the first line that a rule refuses, or for `Glyph` what is no glyph in it.
    Malformed { offset: u64, rule: BundleRule },
    /// Memory ran out.
    WantOfMemory,
}

impl BundleRefused {
    // The line at the offset breaks the rule.
    pub(super) fn malformed(offset: u64, rule: BundleRule) -> BundleRefused
        ensures { result ≡ BundleRefused.Malformed offset rule }
    {
        BundleRefused::Malformed { offset, rule }
    }
}

impl From<WantOfMemory> for BundleRefused {
    ghost use Rattle.std.specs.Prelude.{◌≡◌};
    ghost use Rattle.bundle_text.specs.declared.refused.BundleRefused.TheVariants as refused;

    ghost from_gives = { λ _ e. e ≡ refused.WantOfMemory };

    fn from(_: WantOfMemory) -> Self {
        BundleRefused::WantOfMemory
    }
}

impl fmt::Display for BundleRefused {
    fn fmt<W: fmt::Write>(&self, f: &mut fmt::Formatter<W>) -> fmt::Result {
        match self {
            BundleRefused::Malformed { offset, rule } => {
                let rule = rule.text();
                write!(f, "malformed at {offset}: {rule}")
            }
            BundleRefused::WantOfMemory => f.write_str("out of memory"),
        }
    }
}

impl Error for BundleRefused {}
