ghost use Rattle.std.specs.Prelude.{◌≡◌};
ghost use Rattle.auxiliaries.specs.Plain.{plain_state};
ghost use Rattle.auxiliaries.specs.Protocol.{is_writing};

use apl_arrays::Line;
use std::collections::VecDeque;

/// Where the protocol of the text auxiliary stands.
#[derive(Debug, Drop)]
pub(crate) enum TextState {
    /// Between files.
    Idle,
    /// A file is read. These lines are left.
    Reading(VecDeque<Line>),
    /// A file is written: its name, and its bytes so far.
    Writing(String, Vec<u8>),
}

impl TextState {
    /// Whether a file is written.
    pub(crate) fn is_writing(&self) -> bool
        ensures { result ≡ is_writing (plain_state self.now) }
    {
        matches!(self, TextState::Writing(..))
    }
}
