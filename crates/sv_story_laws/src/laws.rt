ghost use Rattle.std.specs.Prelude.{◌≡◌};
ghost use Rattle.sv_story_laws.specs.ControlLaws.{ControlOfACoupledOfferIsTheJointOne, ControlsAreSetByTheParty, VectorIsTheLastControl, VectorIsNoneAtFirst, StateVectorsAreOfTheStory, HoldsAreThoseOfTheTable, HoldsOfOpenOffersAreMine, ControlOfAnOpenOfferIsItsVector};
ghost use Rattle.sv_story_laws.specs.StepLaws.{StepsMayFollow, LeavesMayFollow, RetriesMayFollow, HeldRetriesMayNotFollow, AuxiliariesDoNotLeave, WorkMayFollow};
ghost use Rattle.sv_story_laws.specs.StoryLaws.{AccessesAreSetsAndUses, KnownIsTheLastAccess, KnownIsHandedIn, SidesAreOffers, OpeningIsKnownAndAccesses, GiverKnows, StoryIsOpeningAndAccesses, FullIsByEntriesOrElements, OffersOpenWhereCouplingsEnd, OpenOffersTellWhatIsKnown, UsesGetWhatTheyFind, StoriesBeginWithTheGivers};
ghost use Rattle.sv_story_laws.specs.WaitLaws.{AuxiliariesAreNeverRefused, HoldsAreGivenOrGivenUp, WaitsForTheLast, NothingIsRefusedWithoutControl, OnlyUsersLeave, StuckIsWhereNobodyCanGoOn, WaitersActAgainOrLeave};
ghost use Rattle.sv_story_laws.specs.WorkLaws.{FirstOpenIsLowest, FirstCoupledIsLowest, FirstToCounterIsLowest, CountersAreMadeToTheLowest, WorkIsTheFirstThatApplies, WorkIsWhatIsDue, ControlIsLackingSinceTheCoupling, RepliesAreOwedToUses, RepliesAreToWhatTheLastUseGot, SinceAreTheNewest, FullJournalsLeaveNoWork, QuestionsTellParties};

/// The law of known values and stories, for every journal: what an access is, which one tells the known value, that an
/// offer's story since it opened is the value known then and the accesses since, and that a coupling's is the giver's
/// and the accesses since. The call does nothing.
pub fn story_law()
    ensures accesses { AccessesAreSetsAndUses }
    ensures known { KnownIsTheLastAccess }
    ensures handed_in { KnownIsHandedIn }
    ensures sides { SidesAreOffers }
    ensures opening { OpeningIsKnownAndAccesses }
    ensures giver { GiverKnows }
    ensures story { StoryIsOpeningAndAccesses }
    ensures full { FullIsByEntriesOrElements }
{}

/// The law of openings and couplings in a legal journal: where an offer opens, that its story tells what is known while it
/// is open, what a use gets, and that the story of a coupling begins with what its giver knows. The call does nothing.
pub fn opening_law()
    ensures opens { OffersOpenWhereCouplingsEnd }
    ensures tells { OpenOffersTellWhatIsKnown }
    ensures gets { UsesGetWhatTheyFind }
    ensures begins { StoriesBeginWithTheGivers }
{}

/// The law of control, for every journal: which control an entry sets on an offer, which is the vector of an offer, whose
/// vector a state vector is, that an access is held exactly where the access table over the story holds it, that what
/// refuses an access of an open offer is its party's own, that the control of an open offer is its vector, and in a legal
/// journal that of a coupled one the joint one, and that nothing is refused where no entry sets a control. The call does
/// nothing.
pub fn control_law()
    ensures by_party { ControlsAreSetByTheParty }
    ensures last { VectorIsTheLastControl }
    ensures none { VectorIsNoneAtFirst }
    ensures state { StateVectorsAreOfTheStory }
    ensures table { HoldsAreThoseOfTheTable }
    ensures mine { HoldsOfOpenOffersAreMine }
    ensures alone { ControlOfAnOpenOfferIsItsVector }
    ensures joint { ControlOfACoupledOfferIsTheJointOne }
    ensures nothing { NothingIsRefusedWithoutControl }
{}

/// The law of waiting: what a party waits for and where nobody can go on, for every journal; in a legal one, that holds are
/// given to those that do not wait and waits given up by those that do, that a user that waits makes the same act again or
/// leaves, that only users leave, and that no auxiliary is refused. The call does nothing.
pub fn wait_law()
    ensures last { WaitsForTheLast }
    ensures stuck { StuckIsWhereNobodyCanGoOn }
    ensures held { HoldsAreGivenOrGivenUp }
    ensures again { WaitersActAgainOrLeave }
    ensures users { OnlyUsersLeave }
    ensures auxiliaries { AuxiliariesAreNeverRefused }
{}

/// The law of work, for every journal: that the first offers are those of the lowest place, which ones want a control, a
/// reply or a counter-offer, which entries follow a coupling, that the work is the first kind that applies, that a full
/// journal leaves none, and which parties a question tells; and in a legal journal, how offers are countered, and that the value to
/// reply to is what the last use got. The call does nothing.
pub fn work_law()
    ensures opened { FirstOpenIsLowest }
    ensures coupled { FirstCoupledIsLowest }
    ensures to_counter { FirstToCounterIsLowest }
    ensures counters { CountersAreMadeToTheLowest }
    ensures lacking { ControlIsLackingSinceTheCoupling }
    ensures owed { RepliesAreOwedToUses }
    ensures replied { RepliesAreToWhatTheLastUseGot }
    ensures since { SinceAreTheNewest }
    ensures first { WorkIsTheFirstThatApplies }
    ensures due { WorkIsWhatIsDue }
    ensures full { FullJournalsLeaveNoWork }
    ensures parties { QuestionsTellParties }
{}

/// The law of steps: which entry of a user may follow a journal, that none may of an act that is still held, and after a
/// legal journal which of an auxiliary. The call does nothing.
pub fn step_law()
    ensures steps { StepsMayFollow }
    ensures leaves { LeavesMayFollow }
    ensures retries { RetriesMayFollow }
    ensures held { HeldRetriesMayNotFollow }
    ensures stay { AuxiliariesDoNotLeave }
    ensures work { WorkMayFollow }
{}
