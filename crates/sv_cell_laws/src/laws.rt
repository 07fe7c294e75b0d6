ghost use Rattle.sv_cell_laws.specs.Ends.{CellsBegin, CellsEnd, CellsJoin, CellsPart, OffersAreTables, WithoutEndedAreOlder};
ghost use Rattle.sv_cell_laws.specs.Entries.{AccessesOfNoneTouchNothing, ControlsAreSet, ControlsOfNoneTouchNothing, OffersAgainTouchNothing, OffersPastTheLimitTouchNothing, QuestionsTouchNothing, RefusedTouchNothing, RetractionsOfNoneTouchNothing, SetsAreMade, UsesAreMade};
ghost use Rattle.sv_cell_laws.specs.Laws.{CellsAnswerOpen, CellsAnswerShared, CellsAreControlled, CellsAreOpened, CellsGoOn, CellsStay, NewSharesFit};

/// What is kept of standing offers goes on with the journal: by an entry that opens and ends none, and where two offers are
/// coupled. The call does nothing.
pub fn cells_go_on_with_journals()
    ensures new_shares { NewSharesFit }
    ensures entries { CellsGoOn }
    ensures nothing { CellsStay }
    ensures control { CellsAreControlled }
    ensures open { CellsAnswerOpen }
    ensures shared { CellsAnswerShared }
    ensures opened { CellsAreOpened }
{}

/// Which entries touch no standing offer, set a control on one, or make an access on one. The call does nothing.
pub fn entries_touch_what_they_name()
    ensures questions { QuestionsTouchNothing }
    ensures no_retraction { RetractionsOfNoneTouchNothing }
    ensures no_control { ControlsOfNoneTouchNothing }
    ensures no_access { AccessesOfNoneTouchNothing }
    ensures again { OffersAgainTouchNothing }
    ensures limit { OffersPastTheLimitTouchNothing }
    ensures refused { RefusedTouchNothing }
    ensures control { ControlsAreSet }
    ensures set { SetsAreMade }
    ensures used { UsesAreMade }
{}

/// Where offers end together, what is kept goes on step by step: an offer that ends and its partner part, and the offers of
/// each pair that is made are coupled. The call does nothing.
pub fn cells_part_where_offers_end()
    ensures table { OffersAreTables }
    ensures first { CellsBegin }
    ensures part { CellsPart }
    ensures older { WithoutEndedAreOlder }
    ensures join { CellsJoin }
    ensures last { CellsEnd }
{}
