ghost use Rattle.replay_rules.specs.TurnLaws.{TurnsMakeOneJournal};
ghost use Rattle.replay_rules.specs.UserTurnLaws.{UsersTakeTurns};

/// With the same replies of the auxiliaries a bundle's turns have one journal. The call does nothing.
pub fn one_journal_of_turns()
    ensures { TurnsMakeOneJournal }
{}

/// At its turn a user that has left does nothing, and one whose lines are done leaves. Another makes the act that they ask; it
/// hears the answer, but waits where the act is held. One that waits tries again: it is held still, gives the act up where
/// nobody can go on, or hears its answer. In a full journal it hears Full. The call does nothing.
pub fn users_take_turns()
    ensures { UsersTakeTurns }
{}
