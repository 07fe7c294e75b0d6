ghost use Rattle.replay_rules.specs.ServingLaws.{AuxiliariesServeTheirWork, ControlsBegin, OtherWorkTellsNothing, RepliesAnswer, RequestsAreWhatTheLastUseGot, WaitersAreAnswered};

/// Where an auxiliary sets a control, what answers behind it begins with the partner. The call does nothing.
pub fn controls_begin()
    ensures { ControlsBegin }
{}

/// Where an auxiliary replies, what answers behind it gave the reply to the partner's value. The call does nothing.
pub fn replies_answer()
    ensures { RepliesAnswer }
{}

/// An auxiliary that has to reply is handed what its last use got, on the offer of the lowest place of those on which it owes a
/// reply. The call does nothing.
pub fn requests_are_what_the_last_use_got()
    ensures { RequestsAreWhatTheLastUseGot }
{}

/// Any other work of an auxiliary is nothing to what answers behind it. The call does nothing.
pub fn other_work_tells_nothing()
    ensures { OtherWorkTellsNothing }
{}

/// The turn of an auxiliary makes the act of its work. The call does nothing.
pub fn auxiliaries_serve_their_work()
    ensures { AuxiliariesServeTheirWork }
{}

/// A party that waits is not held again by what it does. The call does nothing.
pub fn waiters_are_answered()
    ensures { WaitersAreAnswered }
{}
