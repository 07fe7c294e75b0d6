ghost use Rattle.sv_story_laws.specs.QuestionLaws.{ControlsAreAnsweredWhatIsInForceAfter, QuestionsOfControl, QuestionsOfDegree, QuestionsOfNames, QuestionsOfParties, QuestionsOfState};
ghost use Rattle.sv_story_laws.specs.AnswerLaws.{GrantedExactlyWhereTheTableAllows, RefusedByTheElementNamed, NotSharedExactlyWithoutAnOffer, OfferLimitExactlyPastTheLimit, UsesGetWhatIsThere, NoValueExactlyWhereNoneIsThere};

/// The law of answers, in a legal journal: that a set or a use of a name that stands is granted exactly where the access
/// table over the plain story refuses nothing, and else refused by the element of the table; where an act is answered
/// NotShared, OfferLimit and NoValue; and which value a use gets. The call does nothing.
pub fn answer_law()
    ensures granted { GrantedExactlyWhereTheTableAllows }
    ensures refused { RefusedByTheElementNamed }
    ensures not_shared { NotSharedExactlyWithoutAnOffer }
    ensures limit { OfferLimitExactlyPastTheLimit }
    ensures gets { UsesGetWhatIsThere }
    ensures no_value { NoValueExactlyWhereNoneIsThere }
{}

/// The law of what is told, in a legal journal: a control that is set is answered with the control in force after it, and each
/// question with what holds before it, in the view of the party that asks. The call does nothing.
pub fn question_law()
    ensures set { ControlsAreAnsweredWhatIsInForceAfter }
    ensures control { QuestionsOfControl }
    ensures state { QuestionsOfState }
    ensures degree { QuestionsOfDegree }
    ensures parties { QuestionsOfParties }
    ensures names { QuestionsOfNames }
{}
