ghost use Rattle.sv_kept.specs.Laws.{CouplingsBegin, OpenOffersAreAlone, SetsGoOn, SidesKnowTheirLast, UsesGoOn};

/// What a share keeps is what the plain story of its coupling says, from the coupling on and after each access: the state,
/// the value set last, and what each side knows; and the state of an open offer is that of its story. The call does
/// nothing.
pub fn shares_follow_stories()
    ensures couplings { CouplingsBegin }
    ensures sets { SetsGoOn }
    ensures uses { UsesGoOn }
    ensures known { SidesKnowTheirLast }
    ensures open { OpenOffersAreAlone }
{}
