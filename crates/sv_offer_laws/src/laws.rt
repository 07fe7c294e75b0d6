ghost use Rattle.std.specs.Prelude.{◌≡◌};
ghost use Rattle.sv_offer_laws.specs.CouplingLaws.{PairsAreThoseOfEntries, MatchingIsMutual, OldestMatchIsTaken, NoneIsTakenOfNone, CouplingsAreFoundWhereCoupled, CouplingsAreFoundAsMade};
ghost use Rattle.sv_offer_laws.specs.EndingLaws.{OpenOffersDoNotMatch, EndingsMakeNextPairs, EndingsLeaveNoneOpen, LeavesReopenFew, RetractionsReopenOne, EndingsReopenOneOfAPair};
ghost use Rattle.sv_offer_laws.specs.LegalLaws.{LegalIsEntryByEntry, OffersAreLimited, PairsAreInOrder, CouplingsGoOn, OffersAreCoupledOnce, CoupledOffersMatch};
ghost use Rattle.sv_offer_laws.specs.OfferLaws.{NewOffersAreAnswered, OffersAgainTellTheirDegree, RetractionsKeepWhatIsKnown};
ghost use Rattle.sv_offer_laws.specs.StandingLaws.{StandingOffersAreThoseThatStand, OffersHavePlaces, OffersComeByPlace, OffersAreOneForAName};

/// The law of standing offers, for every journal: which they are, that they come by place, and that a party has
/// one of a local name. The call does nothing.
pub fn standing_law()
    ensures those { StandingOffersAreThoseThatStand }
    ensures places { OffersHavePlaces }
    ensures order { OffersComeByPlace }
    ensures one { OffersAreOneForAName }
{}

/// The law of couplings, for every journal: which pairs were made, which open match an offer takes, and where a coupling
/// is looked up; in a legal journal, which one it is. The call does nothing.
pub fn coupling_law()
    ensures pairs { PairsAreThoseOfEntries }
    ensures mutual { MatchingIsMutual }
    ensures oldest { OldestMatchIsTaken }
    ensures none { NoneIsTakenOfNone }
    ensures found { CouplingsAreFoundWhereCoupled }
    ensures as_made { CouplingsAreFoundAsMade }
{}

/// The law of offers in a legal journal: what an offer is answered, once its name stands and before, and which pair it
/// makes; and what a retraction is answered. The call does nothing.
pub fn offer_law()
    ensures again { OffersAgainTellTheirDegree }
    ensures first { NewOffersAreAnswered }
    ensures taken_back { RetractionsKeepWhatIsKnown }
{}

/// The law of legal journals: they are legal entry by entry, and what holds of their offers and couplings. The call
/// does nothing.
pub fn legal_law()
    ensures entries { LegalIsEntryByEntry }
    ensures limit { OffersAreLimited }
    ensures pairs { PairsAreInOrder }
    ensures goes_on { CouplingsGoOn }
    ensures once { OffersAreCoupledOnce }
    ensures matching { CoupledOffersMatch }
    ensures unmatched { OpenOffersDoNotMatch }
{}

/// The law of leaves and retractions in a legal journal: which pairs they make, that none that could couple stays open,
/// and how many offers they reopen. The call does nothing.
pub fn ending_law()
    ensures next { EndingsMakeNextPairs }
    ensures none_open { EndingsLeaveNoneOpen }
    ensures few { LeavesReopenFew }
    ensures one { RetractionsReopenOne }
    ensures one_of_a_pair { EndingsReopenOneOfAPair }
{}
