ghost use Rattle.std.specs.Prelude.{◌≡◌};
ghost use Rattle.sv_events.specs.Fits.{is_degree};
ghost use Rattle.sv_rules.specs.Entries.{has_left, is_abandoned, is_granted, is_held, is_leave, is_value};
ghost use Rattle.sv_rules.specs.Journal.{journal_of};

use sv_events::{Act, AnswerKind, Entry};

/// Whether the act is a leave: it ends all offers of its party.
pub fn is_leave(act: &Act) -> bool
    ensures { result ≡ is_leave act.now }
{
    matches!(act, Act::Leave)
}

/// Whether the party has left.
pub fn has_left(entries: &[Entry], party: u32) -> bool
    ensures { result ≡ has_left (journal_of entries.now) party }
{
    entries
        .iter()
        .any(|entry| entry.party == party && is_leave(&entry.act))
}

/// Whether the answer is a degree.
pub fn is_degree(kind: AnswerKind) -> bool
    ensures { result ≡ is_degree kind }
{
    matches!(kind, AnswerKind::Degree)
}

/// Whether a set was granted.
pub fn is_granted(kind: AnswerKind) -> bool
    ensures { result ≡ is_granted kind }
{
    matches!(kind, AnswerKind::Granted)
}

/// Whether a use got a value.
pub fn is_value(kind: AnswerKind) -> bool
    ensures { result ≡ is_value kind }
{
    matches!(kind, AnswerKind::Value)
}

/// Whether an answer of this kind leaves the party waiting.
pub fn is_held(kind: AnswerKind) -> bool
    ensures { result ≡ is_held kind }
{
    matches!(kind, AnswerKind::Held)
}

/// Whether by an answer of this kind a wait is given up.
pub fn is_abandoned(kind: AnswerKind) -> bool
    ensures { result ≡ is_abandoned kind }
{
    matches!(kind, AnswerKind::Abandoned)
}
