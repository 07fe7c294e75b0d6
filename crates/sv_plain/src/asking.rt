ghost use Rattle.std.specs.Prelude.{◌≡◌, ◌==◌, IfOk, filter, not};
ghost use Rattle.sv_events.specs.Answer.{plain_answer};
ghost use Rattle.sv_rules.specs.Coupling.{couplings, is_coupled, open_to};
ghost use Rattle.sv_rules.specs.Entries.{Entries};
ghost use Rattle.sv_rules.specs.Journal.{journal_of};
ghost use Rattle.sv_rules.specs.Questions.{answer_to_question, degree_of};
ghost use Rattle.sv_rules.specs.Standing.{standing};

use crate::holding::{control_in_force, state_vector};
use apl_arrays::WantOfMemory;
use std::alloc::Global;
use sv_events::{Answer, Entry, Question};
use sv_rules::{Made, Standing, degree_at, is_coupled, names_of, own_offer, parties_of};

/// The degree of a name: 0 without an offer, 2 where it is coupled, else 1.
pub fn degree_of(coupled: &[Made], own: Option<Standing>) -> u8
    ensures { (journal : Entries) → coupled.now ≡ couplings journal → result ≡ degree_of journal own }
{
    match own {
        None => 0,
        Some(offer) => degree_at(coupled, offer.place),
    }
}

// Keeps the offers that are not coupled.
fn keep_open(offers: &mut Vec<Standing>, coupled: &[Made])
    ensures { offers.new.items ≡ filter (λ offer. not (is_coupled coupled.now offer.place)) offers.old.items }
{
    offers.retain(|offer| !is_coupled(coupled, offer.place));
}

// Keeps the offers made to a party by its number.
fn keep_made_to(offers: &mut Vec<Standing>, party: u32)
    ensures { offers.new.items ≡ filter (λ offer. offer.to == party) offers.old.items }
{
    offers.retain(|offer| offer.to == party);
}

/// The open offers made to a party by its number, by place. It takes memory for them.
pub fn open_to(
    alloc: Global,
    entries: &[Entry],
    offers: &[Standing],
    coupled: &[Made],
    party: u32,
) -> Result<Vec<Standing>, WantOfMemory>
    requires offers { offers.now ≡ standing (journal_of entries.now) }
    requires coupled { coupled.now ≡ couplings (journal_of entries.now) }
    ensures { IfOk result (λ list. list.items ≡ open_to (journal_of entries.now) party) }
{
    let mut opened = Vec::from_slice(alloc, offers)?;
    keep_open(&mut opened, coupled);
    keep_made_to(&mut opened, party);
    Ok(opened)
}

/// What a question of a party is answered. It takes memory for the answer, and for a state for the offers and the couplings
/// of each entry in turn.
pub fn answer_to_question(
    alloc: Global,
    entries: &[Entry],
    offers: &[Standing],
    coupled: &[Made],
    party: u32,
    question: &Question,
) -> Result<Answer, WantOfMemory>
    requires offers { offers.now ≡ standing (journal_of entries.now) }
    requires coupled { coupled.now ≡ couplings (journal_of entries.now) }
    ensures { IfOk result (λ answer. plain_answer answer ≡ answer_to_question (journal_of entries.now) party question.now) }
{
    match question {
        Question::Control(local) => {
            let own = own_offer(offers, party, local);
            Ok(Answer::Vector(control_in_force(entries, offers, coupled, own)))
        }
        Question::State(local) => {
            let own = own_offer(offers, party, local);
            let vector = state_vector(alloc, entries, offers, coupled, own)?;
            Ok(Answer::Vector(vector))
        }
        Question::Degree(local) => {
            let own = own_offer(offers, party, local);
            Ok(Answer::Degree(degree_of(coupled, own)))
        }
        Question::Parties => {
            let opened = open_to(alloc, entries, offers, coupled, party)?;
            Ok(Answer::Parties(parties_of(alloc, &opened)?))
        }
        Question::Names(from) => {
            let opened = open_to(alloc, entries, offers, coupled, party)?;
            Ok(Answer::Names(names_of(alloc, &opened, *from)?))
        }
    }
}
