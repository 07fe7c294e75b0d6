ghost use Rattle.std.specs.Prelude.{◌≡◌, nat_le, Some, IfOk};
ghost use Rattle.apl_arrays.specs.Limits.{most_offers};
ghost use Rattle.sv_events.specs.Answer.{plain_answer};
ghost use Rattle.sv_rules.specs.Control.{control_in_force, state_vector};
ghost use Rattle.sv_rules.specs.Coupling.{couplings, is_coupled};
ghost use Rattle.sv_rules.specs.Questions.{answer_to_question, degree_of};
ghost use Rattle.sv_rules.specs.Standing.{offer_count, own_offer, standing};
ghost use Rattle.sv_rules.specs.Work.{own_offers};

use crate::Core;
use apl_arrays::{Name, WantOfMemory};
use sv_access::{Control, NO_CONTROL};
use sv_events::{Answer, Question};
use sv_rules::{OFFER_LIMIT, Standing};

impl Core {
    // A party's offers that stand, by place.
    pub(crate) fn own_offers(&self, party: u32) -> &[Standing]
        ensures { result.now ≡ own_offers self.now.journal party }
    {
        self.offers.of(party)
    }

    // Whether the offer at a place is coupled.
    pub(crate) fn is_coupled(&self, place: u64) -> bool
        ensures { result ≡ is_coupled (couplings self.now.journal) place }
    {
        self.offers.is_coupled(place)
    }

    // The standing offer of a party of a local name, if there is one.
    pub(crate) fn own(&self, party: u32, local: &Name) -> Option<Standing>
        ensures { result ≡ own_offer (standing self.now.journal) party local.now }
    {
        self.offers.find(party, local)
    }

    // Whether a party has as many offers as it may have.
    pub(crate) fn has_most_offers(&self, party: u32) -> bool
        ensures { result ≡ nat_le most_offers (offer_count (standing self.now.journal) party) }
    {
        self.offers.count(party) >= OFFER_LIMIT
    }

    // The degree of a standing offer.
    pub(crate) fn degree_of(&self, offer: &Standing) -> u8
        ensures { result ≡ degree_of self.now.journal (Some offer.now) }
    {
        self.offers.degree(offer.place)
    }

    // The degree of a party's name.
    pub(crate) fn degree(&self, party: u32, local: &Name) -> u8
        ensures { result ≡ degree_of self.now.journal (own_offer (standing self.now.journal) party local.now) }
    {
        match self.own(party, local) {
            None => 0,
            Some(offer) => self.degree_of(&offer),
        }
    }

    fn control_in_force(&self, party: u32, local: &Name) -> Control
        ensures { result ≡ control_in_force self.now.journal (own_offer (standing self.now.journal) party local.now) }
    {
        match self.own(party, local) {
            None => NO_CONTROL,
            Some(offer) => self.in_force_with(self.vector(&offer), &offer),
        }
    }

    fn state_asked(&self, party: u32, local: &Name) -> Control
        ensures { result ≡ state_vector self.now.journal (own_offer (standing self.now.journal) party local.now) }
    {
        match self.own(party, local) {
            None => NO_CONTROL,
            Some(offer) => self.state_vector(&offer),
        }
    }

    // What a question of a party is answered.
    pub(crate) fn answer_to(&self, party: u32, question: &Question) -> Result<Answer, WantOfMemory>
        ensures { IfOk result (λ answer. plain_answer answer ≡ answer_to_question self.now.journal party question.now) }
    {
        match question {
            Question::Control(local) => Ok(Answer::Vector(self.control_in_force(party, local))),
            Question::State(local) => Ok(Answer::Vector(self.state_asked(party, local))),
            Question::Degree(local) => Ok(Answer::Degree(self.degree(party, local))),
            Question::Parties => {
                let parties = self.offers.parties_to(self.alloc, party)?;
                Ok(Answer::Parties(parties))
            }
            Question::Names(from) => {
                let names = self.offers.names_to(self.alloc, *from, party)?;
                Ok(Answer::Names(names))
            }
        }
    }
}
