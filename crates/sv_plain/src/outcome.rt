ghost use Rattle.std.specs.Prelude.{◌≡◌, Some, IfOk, map};
ghost use Rattle.std.specs.Option.{option_copied};
ghost use Rattle.sv_events.specs.Answer.{plain_answer, done};
ghost use Rattle.sv_plain.specs.PlainOutcome.{plain_outcome};
ghost use Rattle.sv_rules.specs.Coupling.{couplings};
ghost use Rattle.sv_rules.specs.Journal.{journal_of};
ghost use Rattle.sv_rules.specs.Outcome.{access_answer, access_outcome, answer_only, control_answer, ending_outcome, granted_answer, joined_to, new_offer, offer_outcome, opening_outcome, outcome, outcome_of_row, pairs_by_ending, question_outcome, retraction_outcome, unless_refused, value_answer, value_for};
ghost use Rattle.sv_rules.specs.Standing.{standing, own_offer};

use crate::asking::{answer_to_question, degree_of};
use crate::holding::{hold_on, in_force_with};
use crate::offers::offer_made;
use crate::stories::story_value;
use crate::waiting::waits;
use crate::{couplings_of, made_by_ending, standing_offers};
use apl_arrays::{Array, List, Name, WantOfMemory};
use std::alloc::Global;
use sv_access::{Control, Kind};
use sv_events::{
    Accessing, Act, ActRow, Answer, Controlling, Ending, Entry, Hold, Opening, PairList, Question,
};
use sv_rules::{
    Coupling, Made, OFFER_LIMIT, Standing, coupling_at, degree_at, known_value, offer_count,
    open_match, own_offer, pair_of, refusal_answer,
};

/// What becomes of an act: its answer, and the pairs that it couples.
#[derive(Debug, Drop)]
pub struct ActOutcome {
    pub answer: Answer,
    pub made: PairList,
}

fn answer_only(alloc: Global, answer: Answer) -> ActOutcome
    ensures { plain_outcome result ≡ answer_only (plain_answer answer) }
{
    ActOutcome {
        answer,
        made: List::new(alloc),
    }
}

fn joined_to(
    alloc: Global,
    new: &Standing,
    other: Option<Standing>,
) -> Result<ActOutcome, WantOfMemory>
    ensures { IfOk result (λ got. plain_outcome got ≡ joined_to new.now other) }
{
    match other {
        None => Ok(answer_only(alloc, Answer::Degree(1))),
        Some(other) => {
            let mut made = List::new(alloc);
            made.push(pair_of(&other, new))?;
            Ok(ActOutcome {
                answer: Answer::Degree(2),
                made,
            })
        }
    }
}

fn new_offer(
    alloc: Global,
    offers: &[Standing],
    coupled: &[Made],
    new: &Standing,
) -> Result<ActOutcome, WantOfMemory>
    ensures { IfOk result (λ got. plain_outcome got ≡ new_offer offers.now coupled.now new.now) }
{
    if offer_count(offers, new.party) >= OFFER_LIMIT {
        return Ok(answer_only(alloc, Answer::OfferLimit));
    }
    joined_to(alloc, new, open_match(offers, coupled, new))
}

fn offer_outcome(
    alloc: Global,
    offers: &[Standing],
    coupled: &[Made],
    new: &Standing,
) -> Result<ActOutcome, WantOfMemory>
    ensures { IfOk result
        (λ got. plain_outcome got ≡ offer_outcome offers.now coupled.now new.now (own_offer offers.now new.now.party new.now.local)) }
{
    match own_offer(offers, new.party, &new.local) {
        None => new_offer(alloc, offers, coupled, new),
        Some(old) => Ok(answer_only(alloc, Answer::Degree(degree_at(coupled, old.place)))),
    }
}

fn pairs_of(alloc: Global, made: &[Made]) -> Result<PairList, WantOfMemory>
    ensures { IfOk result (λ pairs. pairs.items ≡ map (λ one. one.pair) made.now) }
{
    let mut pairs = List::new(alloc);
    for one in made {
        pairs.push(one.pair)?;
    }
    Ok(pairs)
}

// The pairs that reopened offers make where an act ends offers.
fn pairs_by_ending(
    alloc: Global,
    entries: &[Entry],
    offers: &[Standing],
    coupled: &[Made],
    party: u32,
    ending: Ending,
) -> Result<PairList, WantOfMemory>
    requires offers { offers.now ≡ standing (journal_of entries.now) }
    requires coupled { coupled.now ≡ couplings (journal_of entries.now) }
    ensures { IfOk result (λ pairs. pairs.items ≡ pairs_by_ending (journal_of entries.now) party ending) }
{
    let at = entries.len() as u64 + 1;
    let made = made_by_ending(alloc, at, offers, coupled, party, ending)?;
    pairs_of(alloc, &made)
}

// A name that is taken back.
fn retraction_outcome(
    alloc: Global,
    entries: &[Entry],
    offers: &[Standing],
    coupled: &[Made],
    party: u32,
    local: &Name,
) -> Result<ActOutcome, WantOfMemory>
    requires offers { offers.now ≡ standing (journal_of entries.now) }
    requires coupled { coupled.now ≡ couplings (journal_of entries.now) }
    ensures { IfOk result
        (λ got. plain_outcome got ≡ retraction_outcome (journal_of entries.now) party local.now (own_offer offers.now party local.now)) }
{
    match own_offer(offers, party, local) {
        None => Ok(answer_only(alloc, Answer::NotShared)),
        Some(offer) => {
            let made = pairs_by_ending(
                alloc,
                entries,
                offers,
                coupled,
                party,
                Ending::One(*local),
            )?;
            let value = sv_events::copy_value(alloc, known_value(entries, &offer))?;
            let degree = degree_of(coupled, Some(offer));
            Ok(ActOutcome {
                answer: Answer::Kept { degree, value },
                made,
            })
        }
    }
}

fn ending_outcome(
    alloc: Global,
    entries: &[Entry],
    offers: &[Standing],
    coupled: &[Made],
    party: u32,
    ending: Ending,
) -> Result<ActOutcome, WantOfMemory>
    requires offers { offers.now ≡ standing (journal_of entries.now) }
    requires coupled { coupled.now ≡ couplings (journal_of entries.now) }
    ensures { IfOk result (λ got. plain_outcome got ≡ ending_outcome (journal_of entries.now) party ending) }
{
    match ending {
        Ending::One(local) => retraction_outcome(alloc, entries, offers, coupled, party, &local),
        Ending::All => {
            let made = pairs_by_ending(alloc, entries, offers, coupled, party, Ending::All)?;
            Ok(ActOutcome {
                answer: Answer::Done,
                made,
            })
        }
    }
}

fn control_answer(
    entries: &[Entry],
    offers: &[Standing],
    coupled: &[Made],
    control: Control,
    own: Option<Standing>,
) -> Answer
    requires offers { offers.now ≡ standing (journal_of entries.now) }
    requires coupled { coupled.now ≡ couplings (journal_of entries.now) }
    ensures { plain_answer result ≡ control_answer (journal_of entries.now) control own }
{
    match own {
        None => Answer::NotShared,
        Some(offer) => Answer::Vector(in_force_with(entries, offers, coupled, control, &offer)),
    }
}

fn value_answer(alloc: Global, value: Option<&Array>) -> Result<Answer, WantOfMemory>
    ensures { IfOk result (λ answer. plain_answer answer ≡ value_answer (option_copied value.entry)) }
{
    match value {
        None => Ok(Answer::NoValue),
        Some(array) => Ok(Answer::Value(array.copy(alloc)?)),
    }
}

// The value that a use finds: on a coupling what was set there last, by whichever side; alone what its party knows.
fn value_for<'a>(
    alloc: Global,
    entries: &'a [Entry],
    offer: &Standing,
    coupling: Option<Coupling>,
) -> Result<Option<&'a Array>, WantOfMemory>
    ensures { IfOk result (λ got. option_copied got ≡ value_for (journal_of entries.now) offer.now coupling) }
{
    match coupling {
        None => Ok(known_value(entries, offer)),
        Some(coupling) => story_value(alloc, entries, &coupling),
    }
}

fn granted_answer(
    alloc: Global,
    entries: &[Entry],
    offers: &[Standing],
    coupled: &[Made],
    offer: &Standing,
    kind: Kind,
) -> Result<Answer, WantOfMemory>
    requires offers { offers.now ≡ standing (journal_of entries.now) }
    requires coupled { coupled.now ≡ couplings (journal_of entries.now) }
    ensures { IfOk result (λ answer. plain_answer answer ≡ granted_answer (journal_of entries.now) offer.now kind) }
{
    match kind {
        Kind::Set => Ok(Answer::Granted),
        Kind::Use => {
            let coupling = coupling_at(offers, coupled, offer.place);
            value_answer(alloc, value_for(alloc, entries, offer, coupling)?)
        }
    }
}

fn access_answer(
    alloc: Global,
    entries: &[Entry],
    offers: &[Standing],
    coupled: &[Made],
    party: u32,
    access: &Accessing,
) -> Result<Answer, WantOfMemory>
    requires offers { offers.now ≡ standing (journal_of entries.now) }
    requires coupled { coupled.now ≡ couplings (journal_of entries.now) }
    ensures { IfOk result
        (λ answer. plain_answer answer ≡ access_answer (journal_of entries.now) party access.now.kind (own_offer offers.now party access.now.local)) }
{
    match own_offer(offers, party, &access.local) {
        None => Ok(Answer::NotShared),
        Some(offer) => match hold_on(alloc, entries, offers, coupled, &offer, access.kind)? {
            None => granted_answer(alloc, entries, offers, coupled, &offer, access.kind),
            Some(hold) => Ok(refusal_answer(waits(entries, party), hold)),
        },
    }
}

fn outcome_of_row(
    alloc: Global,
    entries: &[Entry],
    offers: &[Standing],
    coupled: &[Made],
    party: u32,
    row: &ActRow,
) -> Result<ActOutcome, WantOfMemory>
    requires offers { offers.now ≡ standing (journal_of entries.now) }
    requires coupled { coupled.now ≡ couplings (journal_of entries.now) }
    ensures { IfOk result (λ got. plain_outcome got ≡ outcome_of_row (journal_of entries.now) party row.now) }
{
    if let Some(opening) = row.opens {
        let new = offer_made(entries.len() as u64 + 1, party, opening);
        offer_outcome(alloc, offers, coupled, &new)
    } else if let Some(ending) = row.ends {
        ending_outcome(alloc, entries, offers, coupled, party, ending)
    } else if let Some(set) = row.controls {
        let own = own_offer(offers, party, &set.local);
        let answer = control_answer(entries, offers, coupled, set.control, own);
        Ok(answer_only(alloc, answer))
    } else if let Some(access) = row.accesses {
        let answer = access_answer(alloc, entries, offers, coupled, party, &access)?;
        Ok(answer_only(alloc, answer))
    } else if let Some(asked) = row.asks {
        let answer = answer_to_question(alloc, entries, offers, coupled, party, &asked)?;
        Ok(answer_only(alloc, answer))
    } else {
        Ok(answer_only(alloc, Answer::Done))
    }
}

/// What becomes of an act of a party after some entries that leave room for it. The entries are gone over anew. It
/// takes memory for the offers and the couplings of each entry in turn, and for the outcome.
pub fn outcome_of(
    alloc: Global,
    entries: &[Entry],
    party: u32,
    act: &Act,
) -> Result<ActOutcome, WantOfMemory>
    ensures { IfOk result (λ got. plain_outcome got ≡ outcome (journal_of entries.now) party act.now) }
{
    let offers = standing_offers(alloc, entries)?;
    let coupled = couplings_of(alloc, entries)?;
    outcome_of_row(alloc, entries, &offers, &coupled, party, &act.row())
}
