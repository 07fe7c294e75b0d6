use apl_arrays::Line;
use ws_commands::Todo;

/// What a command does next.
#[derive(Clone, Copy, Debug, PartialEq, Eq)]
pub enum Phase {
    /// It retracts shared names, and then makes its change.
    Retracting,
    /// It makes offers again, and then prints its lines.
    Remaking,
}

/// A command that is under way: its line, what is to be done for it, how far it is, and how many of its names are retracted and
/// of its offers are made.
#[derive(Drop)]
pub struct Errand {
    pub line: Line,
    pub todo: Todo,
    pub phase: Phase,
    pub retracted: usize,
    pub remade: usize,
}
