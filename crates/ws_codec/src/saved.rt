ghost use Rattle.std.specs.Prelude.{◌≡◌};
ghost use Rattle.ws_codec.specs.Rules.{rule_text};

use apl_workspace::{RemakeList, Workspace};
use std::error::Error;
use std::fmt;

/// What saved bytes hold: a workspace without frames, shares and offers, of which nothing is printed yet; and the offers
/// that are to be made again, in their order.
#[derive(Drop)]
pub struct Saved {
    pub workspace: Workspace,
    pub remakes: RemakeList,
}

/// The rules of saved bytes, in the order in which they are looked at where a field breaks several. A field that is cut breaks
/// `Short`, and no other.
#[derive(Clone, Copy, Debug, PartialEq, Eq, Hash)]
pub enum SavedRule {
    /// The first four bytes are `APLS`.
    Magic,
    /// The version is 1 or 2.
    Version,
    /// An object is a variable of numbers, one of characters, or a function.
    Kind,
    /// A name is one.
    Name,
    /// The names of objects ascend.
    Order,
    /// An array keeps its limits.
    Size,
    /// A byte of a text is the code of a glyph.
    Glyph,
    /// The header of a function is one of its name.
    Header,
    /// The limits of functions and of offers are kept, and that of the weight.
    Limit,
    /// The bytes do not end in a field.
    Short,
    /// No bytes follow the last object, or the last offer.
    Rest,
    /// An offer is of a name that no earlier one has and no function, and for a party.
    Offer,
}

impl SavedRule {
    /// The name of the rule.
    pub fn text(self) -> &'static str
        ensures { result.now ≡ rule_text self }
    {
        match self {
            SavedRule::Magic => "magic",
            SavedRule::Version => "version",
            SavedRule::Kind => "kind",
            SavedRule::Name => "name",
            SavedRule::Order => "order",
            SavedRule::Size => "size",
            SavedRule::Glyph => "glyph",
            SavedRule::Header => "header",
            SavedRule::Limit => "limit",
            SavedRule::Short => "short",
            SavedRule::Rest => "rest",
            SavedRule::Offer => "offer",
        }
    }
}

impl fmt::Display for SavedRule {
    fn fmt<W: fmt::Write>(&self, f: &mut fmt::Formatter<W>) -> fmt::Result {
        f.write_str(self.text())
    }
}

/// Why bytes are not read as a saved workspace.
#[derive(Clone, Copy, Debug, PartialEq, Eq)]
pub enum CodecRefused {
    /// The first field that breaks a rule breaks this one, which is reported at this byte.
    BadBytes { offset: u64, rule: SavedRule },
    /// Memory ran out.
    WantOfMemory,
}

impl fmt::Display for CodecRefused {
    fn fmt<W: fmt::Write>(&self, f: &mut fmt::Formatter<W>) -> fmt::Result {
        match self {
            CodecRefused::BadBytes { offset, rule } => { write!(f, "{rule} at byte {offset}") }
            CodecRefused::WantOfMemory => f.write_str("out of memory"),
        }
    }
}

impl Error for CodecRefused {}
