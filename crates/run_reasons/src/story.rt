ghost use Rattle.std.specs.Prelude.{◌≡◌};
ghost use Rattle.run_reasons.specs.StoryFacts.{told_first, told_with};

use sv_access::{AccessState, Kind, Side, after};

/// The place of the entry by which a value came, and whether it was set there: else it was got there, or handed in.
#[derive(Clone, Copy, Debug, PartialEq, Eq)]
pub struct Source {
    pub at: u64,
    pub is_set: bool,
}

/// The last set of a story: its side, and by which entry the value came.
#[derive(Clone, Copy, Debug, PartialEq, Eq)]
pub struct LastSet {
    pub side: Side,
    pub source: Source,
}

/// What is kept of a story: its last set, if it has one, and its state.
#[derive(Clone, Copy, Debug, PartialEq, Eq)]
pub struct StoryFacts {
    pub last: Option<LastSet>,
    pub state: AccessState,
}

/// A story that begins with a set, if a value is known, by an entry.
pub(crate) fn told_first(side: Side, known: Option<Source>) -> StoryFacts
    ensures { result ≡ told_first side known }
{
    match known {
        None => StoryFacts {
            last: None,
            state: AccessState::Quiet,
        },
        Some(source) => StoryFacts {
            last: Some(LastSet { side, source }),
            state: after(AccessState::Quiet, side, Kind::Set),
        },
    }
}

/// A story with an access more of a side at a place, if it made one.
pub(crate) fn told_with(before: StoryFacts, side: Side, at: u64, access: Option<Kind>) -> StoryFacts
    ensures { result ≡ told_with before side at access }
{
    match access {
        None => before,
        Some(Kind::Set) => StoryFacts {
            last: Some(LastSet {
                side,
                source: Source { at, is_set: true },
            }),
            state: after(before.state, side, Kind::Set),
        },
        Some(Kind::Use) => StoryFacts {
            last: before.last,
            state: after(before.state, side, Kind::Use),
        },
    }
}
