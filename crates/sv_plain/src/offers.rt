ghost use Rattle.std.specs.Prelude.{◌≡◌, IfOk, if◌then◌else◌};
ghost use Rattle.sv_events.specs.Answer.{plain_answer};
ghost use Rattle.sv_events.specs.Row.{act_row};
ghost use Rattle.sv_events.specs.Fits.{is_degree};
ghost use Rattle.sv_rules.specs.Entries.{kind_of};
ghost use Rattle.sv_rules.specs.Journal.{journal_of};
ghost use Rattle.sv_rules.specs.Standing.{standing, standing_after, with_ended, with_offer, with_opened, offer_made};

use apl_arrays::WantOfMemory;
use std::alloc::Global;
use sv_events::{AnswerKind, Ending, Entry, Opening};
use sv_rules::{Standing, end_together, is_degree, own_offer};

/// The offer that an act of a party opens at a place.
pub fn offer_made(place: u64, party: u32, opening: Opening) -> Standing
    ensures { result ≡ offer_made place party opening }
{
    Standing {
        place,
        party,
        to: opening.to,
        local: opening.local,
        surrogate: opening.surrogate,
    }
}

fn add_offer(offers: &mut Vec<Standing>, new: Standing) -> Result<(), WantOfMemory>
    ensures { IfOk result (λ _. offers.new.items ≡ with_offer offers.old.items new) }
{
    if own_offer(offers, new.party, &new.local).is_none() {
        offers.push(new)?;
    }
    Ok(())
}

// Adds an offer that is answered with a degree.
fn add_answered(
    offers: &mut Vec<Standing>,
    kind: AnswerKind,
    new: Standing,
) -> Result<(), WantOfMemory>
    ensures { IfOk result (λ _. offers.new.items ≡ (if is_degree kind then with_offer offers.old.items new else offers.old.items)) }
{
    if is_degree(kind) {
        add_offer(offers, new)?;
    }
    Ok(())
}

fn add_opened(
    offers: &mut Vec<Standing>,
    place: u64,
    party: u32,
    kind: AnswerKind,
    opens: Option<Opening>,
) -> Result<(), WantOfMemory>
    ensures { IfOk result (λ _. offers.new.items ≡ with_opened offers.old.items place party kind opens) }
{
    match opens {
        None => Ok(()),
        Some(opening) => add_answered(offers, kind, offer_made(place, party, opening)),
    }
}

// Takes the offers out that an act of a party ends, if it ends any.
fn end(offers: &mut Vec<Standing>, party: u32, ends: Option<Ending>)
    ensures { offers.new.items ≡ with_ended offers.old.items party ends }
{
    match ends {
        None => (),
        Some(ending) => end_together(offers, party, ending),
    }
}

/// Goes on over an entry at a place: what stands after it, by what stood before. It takes memory for an offer.
pub fn stand_after(
    offers: &mut Vec<Standing>,
    place: u64,
    entry: &Entry,
) -> Result<(), WantOfMemory>
    ensures { IfOk result
        (λ _. offers.new.items ≡ standing_after offers.old.items place entry.now.party (kind_of (plain_answer entry.now.answer)) (act_row entry.now.act).row) }
{
    let row = entry.act.row();
    add_opened(
        offers,
        place,
        entry.party,
        entry.answer.row().kind,
        row.opens,
    )?;
    end(offers, entry.party, row.ends);
    Ok(())
}

/// The standing offers of some entries, by place. It takes memory for the offers.
pub fn standing_offers(alloc: Global, entries: &[Entry]) -> Result<Vec<Standing>, WantOfMemory>
    ensures { IfOk result (λ offers. offers.items ≡ standing (journal_of entries.now)) }
{
    let mut offers = Vec::new(alloc);
    for (i, entry) in entries.iter().enumerate() {
        stand_after(&mut offers, i as u64 + 1, entry)?;
    }
    Ok(offers)
}
