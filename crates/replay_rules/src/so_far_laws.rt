ghost use Rattle.replay_rules.specs.SoFarLaws.{AnswersAreHeard, FullIsHeard, HeldUsersWait, LeaversHaveTheirParts, OthersChangeNothing};

/// Entries of others change nothing of what a user did so far. The call does nothing.
pub fn others_change_nothing()
    ensures { OthersChangeNothing }
{}

/// An act of a user that is answered, where the journal has room, brings its lines on. The call does nothing.
pub fn answers_are_heard()
    ensures { AnswersAreHeard }
{}

/// An act of a user that is held, where the journal has room, makes its session wait. The call does nothing.
pub fn held_users_wait()
    ensures { HeldUsersWait }
{}

/// An act that a full journal refuses brings the user's lines on. The call does nothing.
pub fn full_is_heard()
    ensures { FullIsHeard }
{}

/// A user that leaves at the end of its lines has its part of the run. The call does nothing.
pub fn leavers_have_their_parts()
    ensures { LeaversHaveTheirParts }
{}
