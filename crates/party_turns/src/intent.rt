use sv_events::Answer;

/// What a user does at its next turn.
#[derive(Clone, Copy, Debug, PartialEq, Eq)]
pub enum Intent {
    /// It makes the act of its session.
    Make,
    /// It tries the act again that it waits for.
    TryAgain,
    /// It leaves, since its lines are done.
    Leave,
}

/// What came of a user's turn: whether an entry was made, and the answer that its session is to hear, if there is one.
#[derive(Debug, Drop)]
pub struct TurnResult {
    pub is_entered: bool,
    pub answer: Option<Answer>,
}
