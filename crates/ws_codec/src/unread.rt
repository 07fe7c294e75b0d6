ghost use Rattle.std.specs.Prelude.{◌≡◌, true, Some, IfOk, OnOk};
ghost use Rattle.ws_codec.specs.Reading.{Gives, keeps, required};
ghost use Rattle.ws_codec.specs.declared.unread.Unread.TheVariants.{WantOfMemory as NoMemory};

use crate::saved::SavedRule;
use apl_arrays::WantOfMemory;

/// A rule that is broken, and how many bytes are left where that is reported.
#[derive(Clone, Copy, Debug, PartialEq, Eq)]
pub struct Flaw {
    pub rule: SavedRule,
    pub left: usize,
}

/// Why nothing is read from the front of bytes.
#[derive(Clone, Copy, Debug, PartialEq, Eq)]
pub enum Unread {
    /// A field breaks a rule.
    Flawed(Flaw),
    /// Memory ran out.
    WantOfMemory,
}

impl From<WantOfMemory> for Unread {
    ghost from_gives = { λ _ why. why ≡ NoMemory };

    fn from(_: WantOfMemory) -> Self {
        Unread::WantOfMemory
    }
}

/// A rule is broken where so many bytes are left. It takes no memory.
pub fn flawed(rule: SavedRule, left: usize) -> Unread
    ensures { result ≡ Unread.Flawed (record { rule = rule; left = left }) }
{
    Unread::Flawed(Flaw { rule, left })
}

/// A rule that a test keeps; else it is broken where so many bytes are left. It takes no memory.
#[tactic(auto, unfolding(crate::specs::Reading::keeps))]
pub fn keeps(test: bool, rule: SavedRule, left: usize) -> Result<(), Unread>
    ensures value { Gives (λ _. tt) result (keeps test rule left) }
    ensures holds { OnOk result (test ≡ true) }
{
    if test {
        Ok(())
    } else {
        Err(flawed(rule, left))
    }
}

/// A thing that is there; else a rule is broken where so many bytes are left. It takes no memory.
#[tactic(auto, unfolding(crate::specs::Reading::required))]
pub fn known<T>(found: Option<T>, rule: SavedRule, left: usize) -> Result<T, Unread>
    ensures value { Gives (λ x. x) result (required found rule left) }
    ensures there { IfOk result (λ x. found ≡ Some x) }
{
    match found {
        Some(x) => Ok(x),
        None => Err(flawed(rule, left)),
    }
}
