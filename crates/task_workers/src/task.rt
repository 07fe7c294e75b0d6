ghost use Rattle.std.specs.Prelude.{◌≡◌};

use crate::Bell;
use std::sync::Wait;

/// How a turn of a task went.
#[derive(Clone, Copy, Debug, PartialEq, Eq)]
pub enum Progress {
    /// The task went on.
    Went,
    /// It can't go on before the bell rings.
    Waits,
    /// It is done.
    Done,
}

impl Progress {
    // How a round went, where one turn of it went so and the others in this other way.
    pub(crate) fn beside(self, other: Progress) -> Progress {
        match self {
            Progress::Went => Progress::Went,
            Progress::Waits => other.at_least_waiting(),
            Progress::Done => other,
        }
    }

    // The same where some task isn't done.
    fn at_least_waiting(self) -> Progress {
        match self {
            Progress::Done => Progress::Waits,
            other => other,
        }
    }
}

/// Something that takes turns, in a hall that it shares with others.
pub trait Task<H> {
    /// What no turn changes. No value of it is made.
    type Name;

    ghost name: { Self → Self.Name };

    // What each turn needs, and keeps.
    ghost stands: { H → Self → Type 0 };

    /// Takes a turn, and rings the bell where others may go on by it. A task that is done does nothing. It may wait for ever.
    fn take_turn<R: Wait>(&mut self, rt: &R, hall: &H, bell: &Bell) -> Progress
        requires { stands hall.now self.old }
        ensures stands { stands hall.now self.new }
        ensures name { name self.new ≡ name self.old };
}
